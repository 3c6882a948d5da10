//! A command line that is being described, step by step.
ghost use Rattle.std.specs.Prelude.{◌≡◌, false, IfOk};
ghost use Rattle.clap.specs.Words.{App, Rule, new_app, rule_of, with_rule, with_subcommand as adding};
ghost use Rattle.ts_command.specs.CommandLine.{Describes, IsLocal, line_head};

use clap::{Arg, Command};
use std::alloc::{AllocError, Global};

/// A command with what was added so far, or that memory ran out meanwhile: then further steps change nothing.
#[derive(Drop)]
pub(crate) struct Draft<'a> {
    pub(crate) command: Result<Command<'a>, AllocError>,
}

impl<'a> Draft<'a> {
    /// A command that takes nothing yet, with an example below its help.
    pub(crate) fn new(alloc: Global, name: &'a str, about: &'a str, example: &'a str) -> Draft<'a>
        ensures shape { Describes result.command (new_app name.now) }
        ensures local { IfOk result.command IsLocal }
    {
        Draft {
            command: Ok(Command::new(alloc, name).about(about).after_help(example)),
        }
    }

    /// The command line before its subcommands: one of them has to be named.
    pub(crate) fn line(alloc: Global, about: &'a str, example: &'a str) -> Draft<'a>
        ensures { Describes result.command line_head }
    {
        let line = Command::new(alloc, "twosync")
            .about(about)
            .version("0.1.0")
            .after_help(example)
            .subcommand_required(true)
            .disable_help_subcommand(true);
        Draft { command: Ok(line) }
    }

    /// The same with one argument more, which subcommands don't share.
    pub(crate) fn arg(self, arg: Arg<'a>) -> Draft<'a>
        requires { arg.global ≡ false }
        ensures shape { (x : App) (r : Rule) → rule_of arg.entry ≡ r → Describes self.entry.command x → Describes result.command (with_rule x r) }
        ensures local { IfOk self.entry.command IsLocal → IfOk result.command IsLocal }
    {
        Draft {
            command: with_arg(self.command, arg),
        }
    }

    /// The same with one subcommand more.
    pub(crate) fn subcommand(self, added: Draft<'a>) -> Draft<'a>
        ensures { (x y : App) → IfOk added.entry.command IsLocal → Describes added.entry.command y
            → Describes self.entry.command x → Describes result.command (adding x y.top) }
    {
        Draft {
            command: with_subcommand(self.command, added.command),
        }
    }
}

/// A command with one argument more.
fn with_arg<'a>(
    command: Result<Command<'a>, AllocError>,
    arg: Arg<'a>,
) -> Result<Command<'a>, AllocError>
    requires { arg.global ≡ false }
    ensures shape { (x : App) (r : Rule) → rule_of arg.entry ≡ r → Describes command.entry x → Describes result (with_rule x r) }
    ensures local { IfOk command.entry IsLocal → IfOk result IsLocal }
{
    command?.arg(arg)
}

/// A command with one subcommand more.
fn with_subcommand<'a>(
    command: Result<Command<'a>, AllocError>,
    added: Result<Command<'a>, AllocError>,
) -> Result<Command<'a>, AllocError>
    ensures { (x y : App) → IfOk added.entry IsLocal → Describes added.entry y → Describes command.entry x → Describes result (adding x y.top) }
{
    let added = added?;
    command?.subcommand(added)
}
