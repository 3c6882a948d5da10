//! The command line as clap reads it, with its help.
ghost use Rattle.std.specs.Prelude.{◌≡◌, [], false, codes, IfOk};
ghost use Rattle.clap.specs.Words.{app_of, rule_of};
ghost use Rattle.ts_command.specs.CommandLine.{Describes, IsLocal, allow_empty_rule, alone, checkpoint_rule, command_line, explain_rule, flag_rule, hold_special_rule, holds_rule};
ghost use Rattle.ts_command.specs.CommandLine.{json_rule, looking_line, option_rule, pair_rules, place_rule, planned_pair_rules};
ghost use Rattle.ts_command.specs.CommandLine.{previewed_pair_rules, quiet_rule, run_rules, scan_shape, show_shape, sync_rules, trial_shape, workers_rule};

use crate::draft::Draft;
use clap::builder::ValueParser;
use clap::{Arg, ArgAction, Command, value_parser};
use std::alloc::{AllocError, Global};

/// What stands above the list of commands.
const ABOUT: &str =
    "Keeps two folders alike, by plans that are checked before they are carried out";

/// What stands below the list of commands.
const EXAMPLE: &str = "\
FIRST and SECOND are folders, ARCHIVE is a file that tells what both had in common; it is made where
it isn't there. Keep it outside of both folders; inside one of them it is refused.
Permissions, times and links are not synchronized; a link ends the command, or is left alone with
`--hold-special`. What changed on both sides is left alone and reported as a conflict.

Example:
  twosync sync ~/notes /mnt/stick/notes ~/.notes.archive

To see what would be done before it is done:
  twosync preview ~/notes /mnt/stick/notes ~/.notes.archive

Exit status: 0 all is done, 1 conflicts or held paths are left, 2 something failed, 3 refused.
Faults are reported by number: 1 out of memory, 4 a path is too long, 5 a file can't be read or
written, 6 a text isn't in its form, 7 an archive's last line is wrong, 8 a device failed or another
run is at work, 9 something isn't there, a folder doesn't know the archive or would lose all its
files, 10 neither a file nor a folder or a name that isn't lawful, 11 a bad hold rule, 12 a plan is
too large, 14 what was to be replaced has changed, 15 what was read isn't what was scanned, 16 words
that are no command. With --explain, or on a terminal, each is put in words, too.";

/// What stands below the help of the commands on a pair.
const PLAN_EXAMPLE: &str = "\
Example:
  twosync plan ~/notes /mnt/stick/notes ~/.notes.archive > plan";

const PREVIEW_EXAMPLE: &str = "\
Example:
  twosync preview ~/notes /mnt/stick/notes ~/.notes.archive

Its exit status is the one that `sync` would have if nothing failed.";

const CHECK_EXAMPLE: &str = "\
Example:
  twosync check ~/notes /mnt/stick/notes ~/.notes.archive plan

It prints `valid`, or `refused RULE PLACE` for the first rule that the plan breaks.";

const RUN_EXAMPLE: &str = "\
Example:
  twosync run ~/notes /mnt/stick/notes ~/.notes.archive plan";

const SYNC_EXAMPLE: &str = "\
Example:
  twosync sync ~/notes /mnt/stick/notes ~/.notes.archive --holds ~/.notes.holds";

/// A file or a folder that a command needs. An empty word names none.
fn place<'a>(alloc: Global, name: &'a str, help: &'a str) -> Arg<'a>
    ensures rule { rule_of result ≡ place_rule name.now }
    ensures local { result.global ≡ false }
{
    Arg::new(alloc, name)
        .required(true)
        .value_parser(ValueParser::NonEmptyString)
        .help(help)
}

/// An option, whose value has a name in the help.
fn option<'a>(alloc: Global, name: &'a str, value: &'a str, help: &'a str) -> Arg<'a>
    ensures rule { rule_of result ≡ option_rule name.now }
    ensures local { result.global ≡ false }
{
    Arg::new(alloc, name)
        .long(name)
        .value_name(value)
        .help(help)
}

/// `--workers`.
fn workers<'a>(alloc: Global) -> Arg<'a>
    ensures rule { rule_of result ≡ workers_rule }
    ensures local { result.global ≡ false }
{
    option(alloc, "workers", "N", "How many threads work, 1 to 64")
        .value_parser(value_parser!(u32).range(1..=64))
        .default_value("4")
}

/// `--checkpoint`.
fn checkpoint<'a>(alloc: Global) -> Arg<'a>
    ensures rule { rule_of result ≡ checkpoint_rule }
    ensures local { result.global ≡ false }
{
    let help = "Writes the archive after each N actions of a thread, too, 1 to 1048576";
    option(alloc, "checkpoint", "N", help).value_parser(value_parser!(u32).range(1..=1048576))
}

/// `--holds`.
fn holds<'a>(alloc: Global) -> Arg<'a>
    ensures rule { rule_of result ≡ holds_rule }
    ensures local { result.global ≡ false }
{
    let help = "Rules, one a line: `path /a/b` or `name *.o`. What they name stays untouched";
    option(alloc, "holds", "FILE", help).value_parser(ValueParser::NonEmptyString)
}

/// A flag: a word that takes no value.
fn flag<'a>(alloc: Global, name: &'a str, about: &'a str) -> Arg<'a>
    ensures rule { rule_of result ≡ flag_rule name.now }
    ensures local { result.global ≡ false }
{
    Arg::new(alloc, name)
        .long(name)
        .action(ArgAction::SetTrue)
        .help(about)
}

/// `--hold-special`.
fn hold_special<'a>(alloc: Global) -> Arg<'a>
    ensures rule { rule_of result ≡ hold_special_rule }
    ensures local { result.global ≡ false }
{
    let help = "Holds links, devices and what else can't be synchronized, too";
    flag(alloc, "hold-special", help)
}

/// `--allow-empty`.
fn allow_empty<'a>(alloc: Global) -> Arg<'a>
    ensures rule { rule_of result ≡ allow_empty_rule }
    ensures local { result.global ≡ false }
{
    let help = "Lets a folder that has several files lose all of them";
    flag(alloc, "allow-empty", help)
}

/// `--json`.
fn json<'a>(alloc: Global) -> Arg<'a>
    ensures rule { rule_of result ≡ json_rule }
    ensures local { result.global ≡ false }
{
    flag(alloc, "json", "Prints JSON, a line each, for programs")
}

/// `--explain`.
fn explain<'a>(alloc: Global) -> Arg<'a>
    ensures rule { rule_of result ≡ explain_rule }
    ensures local { result.global ≡ false }
{
    let help = "Puts each fault in words, in a line before its number";
    flag(alloc, "explain", help)
}

/// `--quiet`.
fn quiet<'a>(alloc: Global) -> Arg<'a>
    ensures rule { rule_of result ≡ quiet_rule }
    ensures local { result.global ≡ false }
{
    flag(alloc, "quiet", "Draws no progress line on a terminal")
}

/// The subcommand of this name, with FIRST, SECOND, ARCHIVE, `--holds`, `--hold-special`, `--workers`, `--explain` and
/// `--quiet`, and an example of it.
fn on_pair<'a>(alloc: Global, name: &'a str, about: &'a str, example: &'a str) -> Draft<'a>
    ensures shape { Describes result.command (alone name.now pair_rules) }
    ensures local { IfOk result.command IsLocal }
{
    Draft::new(alloc, name, about, example)
        .arg(place(alloc, "FIRST", "A folder"))
        .arg(place(alloc, "SECOND", "The other folder"))
        .arg(place(alloc, "ARCHIVE", "What both had in common"))
        .arg(holds(alloc))
        .arg(hold_special(alloc))
        .arg(workers(alloc))
        .arg(explain(alloc))
        .arg(quiet(alloc))
}

/// The same, with PLAN.
fn on_pair_with_plan<'a>(
    alloc: Global,
    name: &'a str,
    about: &'a str,
    example: &'a str,
) -> Draft<'a>
    ensures shape { Describes result.command (alone name.now planned_pair_rules) }
    ensures local { IfOk result.command IsLocal }
{
    on_pair(alloc, name, about, example).arg(place(alloc, "PLAN", "A plan, as `plan` prints it"))
}

/// The subcommand that shows what `sync` would do.
fn preview<'a>(alloc: Global) -> Draft<'a>
    ensures shape { Describes result.command (alone (codes "preview") previewed_pair_rules) }
    ensures local { IfOk result.command IsLocal }
{
    let about = "Shows what `sync` would do, and changes nothing";
    on_pair(alloc, "preview", about, PREVIEW_EXAMPLE)
        .arg(allow_empty(alloc))
        .arg(json(alloc))
}

/// The subcommand that answers a bundle.
fn trial<'a>(alloc: Global) -> Draft<'a>
    ensures shape { Describes result.command (record { top = trial_shape; subs = [] }) }
    ensures local { IfOk result.command IsLocal }
{
    let about = "Answers a bundle of archive, folders, rules and plan on standard input";
    Draft::new(alloc, "trial", about, "Example:\n  twosync trial < bundle")
        .arg(workers(alloc))
        .arg(explain(alloc))
}

/// The subcommand that prints what a folder has.
fn scan<'a>(alloc: Global) -> Draft<'a>
    ensures shape { Describes result.command (record { top = scan_shape; subs = [] }) }
    ensures local { IfOk result.command IsLocal }
{
    let about = "Prints the archive of a folder as it is now";
    Draft::new(
        alloc,
        "scan",
        about,
        "Example:\n  twosync scan ~/notes > notes.txt",
    )
    .arg(place(alloc, "DIR", "A folder"))
    .arg(workers(alloc))
    .arg(explain(alloc))
    .arg(quiet(alloc))
}

/// The subcommand that prints what an archive has.
fn show<'a>(alloc: Global) -> Draft<'a>
    ensures shape { Describes result.command (record { top = show_shape; subs = [] }) }
    ensures local { IfOk result.command IsLocal }
{
    let about = "Prints what an archive has, a path a line";
    Draft::new(
        alloc,
        "show",
        about,
        "Example:\n  twosync show ~/.notes.archive",
    )
    .arg(place(alloc, "ARCHIVE", "An archive"))
    .arg(explain(alloc))
}

/// The subcommand that carries out a plan.
fn run<'a>(alloc: Global) -> Draft<'a>
    ensures shape { Describes result.command (alone (codes "run") run_rules) }
    ensures local { IfOk result.command IsLocal }
{
    let about = "Checks a plan, carries it out, and writes the archive";
    on_pair_with_plan(alloc, "run", about, RUN_EXAMPLE).arg(checkpoint(alloc))
}

/// The subcommand that makes a plan and carries it out.
fn sync<'a>(alloc: Global) -> Draft<'a>
    ensures shape { Describes result.command (alone (codes "sync") sync_rules) }
    ensures local { IfOk result.command IsLocal }
{
    let about = "Plans and runs: makes both folders alike";
    on_pair(alloc, "sync", about, SYNC_EXAMPLE)
        .arg(allow_empty(alloc))
        .arg(checkpoint(alloc))
}

/// The command line with the subcommands that change nothing.
fn looking<'a>(alloc: Global) -> Draft<'a>
    ensures { Describes result.command looking_line }
{
    let plan = "Prints what has to be done to make both folders alike";
    let check = "Says whether a plan is valid for what is there";
    Draft::line(alloc, ABOUT, EXAMPLE)
        .subcommand(trial(alloc))
        .subcommand(scan(alloc))
        .subcommand(show(alloc))
        .subcommand(on_pair(alloc, "plan", plan, PLAN_EXAMPLE))
        .subcommand(on_pair_with_plan(alloc, "check", check, CHECK_EXAMPLE))
        .subcommand(preview(alloc))
}

/// The whole command line.
pub(crate) fn described<'a>(alloc: Global) -> Result<Command<'a>, AllocError>
    ensures { Describes result command_line }
{
    looking(alloc)
        .subcommand(run(alloc))
        .subcommand(sync(alloc))
        .command
}
