//! The program `twosync`: reads its words, and does what they ask for.
#![tactic(auto)]

mod descriptors;
mod nesting;
mod resolving;
mod telling;

ghost use Rattle.std.specs.Prelude.{◌≡◌, ◌↔◌, IfErr, IsTrue, option_map};
ghost use Rattle.ts_perform.specs.Runs.{IsRunOrSync};
ghost use Rattle.twosync.specs.Faults.{fault_number, fault_status};
ghost use Rattle.twosync.specs.Pairs.{pair_of};
ghost use Rattle.twosync.specs.declared.Fault.TheVariants.{Unreported};

use crate::descriptors::take_numbers;
use crate::nesting::nesting_of;
use crate::resolving::resolve;
use crate::telling::push_nesting;
use std::alloc::AllocError;
use std::env;
use std::fs::Files;
use std::io::{self, BufWriter, ErrorKind, Input, IsTerminal, Write};
use std::process::ExitCode;
use std::rt::Env;
use ts_cause::Cause;
use ts_command::{Command, CommandFault, Job, Pair, command};
use ts_explain::{PerformFault, Subject, Why, write_sentence};
use ts_perform::{FAILED, KeepsCause, Machine, REFUSED, SaysCause, perform};
use ts_text::{Counted, Sink, write_all, write_line};

/// What is said of words that aren't UTF-8.
const NOT_TEXT: &[u8] = b"error: a word of the command isn't UTF-8\n";

/// Why the program ends without an answer.
#[derive(Clone, Copy, Debug, PartialEq, Eq)]
enum Fault {
    OutOfMemory,
    /// What a command prints couldn't be written, or a standard descriptor may be closed.
    Failed,
    /// A plan was carried out, and its report couldn't be written.
    Unreported,
    /// The words are no command, or name places that lie where they mustn't.
    Usage,
}

impl Fault {
    /// The number that is printed: 1 for memory, 5 for a reader or writer, 16 for the words of the command.
    fn number(self) -> u8
        ensures { result ≡ fault_number self }
    {
        match self {
            Fault::OutOfMemory => 1,
            Fault::Failed | Fault::Unreported => 5,
            Fault::Usage => 16,
        }
    }

    /// The exit status: that of a refusal, unless a plan was carried out.
    fn status(self) -> u8
        ensures { result ≡ fault_status self }
    {
        match self {
            Fault::Unreported => FAILED,
            Fault::OutOfMemory | Fault::Failed | Fault::Usage => REFUSED,
        }
    }
}

impl From<AllocError> for Fault {
    ghost use Rattle.twosync.specs.declared.Fault.TheVariants.{OutOfMemory};

    ghost from_gives = { λ _ e. e ≡ OutOfMemory };

    fn from(_fault: AllocError) -> Fault {
        Fault::OutOfMemory
    }
}

/// Which of the standard streams are terminals.
#[derive(Clone, Copy)]
struct Terminals {
    out: bool,
    err: bool,
}

/// Whether the environment lets a terminal be written to in colours: `NO_COLOR` isn't set, or is empty, and `TERM` is set to
/// something else than `dumb`.
fn allows_colours<R: Env + AllocGlobal>(rt: &R) -> bool {
    let is_refused = match env::var(rt, "NO_COLOR") {
        Ok(value) => !value.as_str().is_empty(),
        Err(_) => false,
    };
    let is_plain = match env::var(rt, "TERM") {
        Ok(value) => value.as_str() == "dumb",
        Err(_) => true,
    };
    !is_refused && !is_plain
}

/// Reads the words and does what they ask for. Answers the exit status. On a terminal faults are put in words even where that
/// isn't asked for, and a preview has colours.
fn run<R: Env + Input + Print + Machine, E: Sink>(
    rt: &R,
    terminals: Terminals,
    err: &mut E,
) -> Result<u8, Fault> {
    let words = match env::args(rt) {
        Ok(words) => words,
        Err(e) if e.kind() == ErrorKind::InvalidData => {
            let _ = write_all(err, NOT_TEXT);
            return Err(Fault::Usage);
        }
        Err(_) => return Err(Fault::OutOfMemory),
    };
    let words: Vec<String> = words.collect(rt.alloc())?;
    match command(rt.alloc(), words.as_slice()) {
        Ok(mut command) => {
            command.explain = command.explain || terminals.err;
            command.coloured = terminals.out && allows_colours(rt);
            refuse_nested(rt, &command.job, err)?;
            answer(rt, &command, err)
        }
        Err(CommandFault::OutOfMemory) => Err(Fault::OutOfMemory),
        Err(CommandFault::Usage { message }) => {
            let text = format!(in rt.alloc(); "{message}")?;
            let _ = write_all(err, text.as_bytes());
            Err(Fault::Usage)
        }
    }
}

/// Refuses a command whose places lie where they mustn't, and says so, before anything else is looked at.
fn refuse_nested<R: Files + AllocGlobal, E: Sink>(
    rt: &R,
    job: &Job<'_>,
    err: &mut E,
) -> Result<(), Fault> {
    let Some(pair) = pair_of(job) else {
        return Ok(());
    };
    let places = resolve(rt, pair)?;
    let Some(nesting) = nesting_of(&places) else {
        return Ok(());
    };
    let mut line = Vec::new(rt.alloc());
    push_nesting(rt.alloc(), pair, nesting, &mut line)?;
    let _ = write_line(err, &line);
    Err(Fault::Usage)
}

/// The pair that a command works on, if it does.
fn pair_of<'x, 'a>(job: &'x Job<'a>) -> Option<&'x Pair<'a>>
    ensures { option_map (λ pair. pair.now) result ≡ pair_of job.now }
{
    match job {
        Job::Plan { pair }
        | Job::Preview { pair, .. }
        | Job::Check { pair, .. }
        | Job::Run { pair, .. }
        | Job::Sync { pair } => Some(pair),
        Job::Tell { .. } | Job::Trial | Job::Scan { .. } | Job::Show { .. } => None,
    }
}

/// Does what a command asks for, and sees that all of its answer goes out. Where it doesn't, what was carried out stays so.
fn answer<R: Input + Print + Machine, E: Sink>(
    rt: &R,
    command: &Command<'_>,
    err: &mut E,
) -> Result<u8, Fault>
    ensures { IfErr result (λ fault. fault ≡ Unreported → IsRunOrSync command.now.job) }
{
    let out = BufWriter::new(rt.alloc(), io::writer(rt)).map_err(|_| Fault::OutOfMemory)?;
    let mut out = Counted::new(KeepsCause::new(out));
    let input = Counted::new(KeepsCause::new(rt.reader()));
    let status = perform(rt, command, input, &mut out, err);
    let is_whole = out.inner.flush().is_ok() && out.failures == 0;
    let is_carried_out = status != REFUSED && is_run_or_sync(&command.job);
    // a refusal says that a write failed, and a report doesn't
    let is_told = out.failures > 0 && !is_carried_out;
    if is_whole || is_told {
        return Ok(status);
    }
    let _ = write_sentence(rt.alloc(), command, &unwritten(out.cause()), err);
    if is_carried_out {
        Err(Fault::Unreported)
    } else {
        Err(Fault::Failed)
    }
}

/// That standard output can't be written for this reason.
fn unwritten(cause: Cause) -> PerformFault {
    PerformFault::Failed {
        what: Subject::Output,
        why: Why::Unwritten { cause },
    }
}

/// Whether a plan is carried out for this job.
fn is_run_or_sync(job: &Job<'_>) -> bool
    ensures { IsTrue result ↔ IsRunOrSync job.now }
{
    match job {
        Job::Run { .. } | Job::Sync { .. } => true,
        Job::Tell { .. }
        | Job::Trial
        | Job::Scan { .. }
        | Job::Show { .. }
        | Job::Plan { .. }
        | Job::Preview { .. }
        | Job::Check { .. } => false,
    }
}

fn main(rt: HostRuntime) -> ExitCode {
    let placeholders = take_numbers(&rt);
    let err = rt.stderr();
    let terminals = Terminals {
        out: rt.stdout().is_terminal(),
        err: err.is_terminal(),
    };
    let mut err = Counted::new(err);
    let answer = match &placeholders {
        Ok(_) => run(&rt, terminals, &mut err),
        Err(_) => Err(Fault::Failed),
    };
    match answer {
        Ok(status) => ExitCode::from(status),
        Err(fault) => {
            let number = fault.number();
            let _ = eprintln!(rt; "twosync: fault {number}");
            ExitCode::from(fault.status())
        }
    }
}
