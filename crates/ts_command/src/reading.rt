//! From words to commands.
ghost use Rattle.std.specs.Prelude.{◌≡◌, ◌≢◌, ◌≤◌, ◌↔◌, ℕ, List, Option, Some, codes, true, map, IfErr, IfNone, IfOk, IfSome, IsTrue, option_map};
ghost use Rattle.clap.specs.Words.{first_of, subcommand_rows_of, takes};
ghost use Rattle.ts_command.specs.CommandLine.{command_line};
ghost use Rattle.ts_command.specs.Readings.{AreWorkers, AsksToTell, Gives, HasCheckpoint, HasWorkers, IsAsked};
ghost use Rattle.ts_command.specs.Readings.{IsAnswerTo, IsEvery, IsFlagged, IsJob, IsNoCommand, IsPair, given_rows};
ghost use Rattle.ts_command.specs.declared.fault.CommandFault.TheVariants.{OutOfMemory};
ghost use Rattle.ts_command.specs.declared.job.Command.{Command};
ghost use Rattle.ts_command.specs.declared.job.Job.{Job};
ghost use Rattle.ts_command.specs.declared.job.Pair.{Pair};

use crate::described::described;
use crate::fault::CommandFault;
use crate::job::{Command, Job, Pair};
use clap::ArgMatches;
use clap::error::ErrorKind;
use std::alloc::Global;
use std::convert::AsStr;

/// How many threads work where the words don't say.
const USUAL_WORKERS: u32 = 4;

/// After how many actions at most the archive may be asked for.
const MOST_ACTIONS: u32 = 1_048_576;

/// The command that the words name; the first word is the program's name. Words that ask for help or the version are a
/// command that tells it.
///
/// # Errors
///
/// `Usage` where clap doesn't take the words, `OutOfMemory` where memory ran out.
pub fn command<'a, S: AsStr>(alloc: Global, words: &'a [S]) -> Result<Command<'a>, CommandFault>
    ensures asked { IfOk result (IsAsked (map S.text words.entry.now)) }
    ensures usage { IfErr result (λ e. e ≢ OutOfMemory → IsNoCommand (map S.text words.entry.now)) }
{
    let line = described(alloc)?;
    match line.try_get_matches_from(words) {
        Ok(matches) => given(alloc, &matches),
        Err(message) => tell(message),
    }
}

/// The command that clap's reading gives, or that it gives none.
fn given<'a>(alloc: Global, matches: &ArgMatches<'a>) -> Result<Command<'a>, CommandFault>
    ensures asked { IfOk result (Gives (subcommand_rows_of matches.now)) }
    ensures usage { IfErr result (λ e. e ≢ OutOfMemory → (command : Command) → ¬ Gives (subcommand_rows_of matches.now) command) }
{
    match read_command(matches) {
        Some(command) => Ok(command),
        None => Err(without_value(alloc)?),
    }
}

/// That a value is missing or past its limits.
fn without_value(alloc: Global) -> Result<CommandFault, CommandFault>
    ensures { IfErr result (λ e. e ≡ OutOfMemory) }
{
    let mut line = described(alloc)?;
    let said = "a value is missing or past its limits";
    let message = line.error(ErrorKind::InvalidValue, said)?;
    Ok(CommandFault::Usage { message })
}

/// What is answered where clap gives no matches: help and version are printed, all else is a mistake in the words.
fn tell<'a>(message: clap::Error) -> Result<Command<'a>, CommandFault>
    ensures asked { (words : List (List ℕ)) → IsAnswerTo words message → IfOk result (λ command. AsksToTell words command.job) }
    ensures usage { (words : List (List ℕ)) → IsAnswerTo words message
        → IfErr result (λ e. e ≢ OutOfMemory → takes command_line words ≢ true) }
{
    match message.kind() {
        ErrorKind::OutOfMemory => Err(CommandFault::OutOfMemory),
        ErrorKind::DisplayHelp | ErrorKind::DisplayVersion => Ok(Command {
            job: Job::Tell { text: message },
            workers: USUAL_WORKERS,
            checkpoint: None,
            allow_empty: false,
            explain: false,
            quiet: false,
            coloured: false,
        }),
        _ => Err(CommandFault::Usage { message }),
    }
}

/// The command that clap's reading gives.
fn read_command<'a>(matches: &ArgMatches<'a>) -> Option<Command<'a>>
    ensures some { IfSome result (Gives (subcommand_rows_of matches.now)) }
    ensures none { IfNone result ((command : Command) → ¬ Gives (subcommand_rows_of matches.now) command) }
{
    let (name, inner) = matches.subcommand()?;
    let job = read_job(name, inner)?;
    let workers = read_workers(inner)?;
    let checkpoint = read_checkpoint(inner)?;
    let allow_empty = is_flagged(inner, "allow-empty");
    let explain = is_flagged(inner, "explain");
    let quiet = is_flagged(inner, "quiet");
    Some(Command {
        job,
        workers,
        checkpoint,
        allow_empty,
        explain,
        quiet,
        coloured: false,
    })
}

/// The value of this name.
fn value<'a>(matches: &ArgMatches<'a>, id: &str) -> Option<&'a str>
    ensures { option_map (λ s. s.now) result ≡ first_of id.now (given_rows matches.now) }
{
    matches.get_str(id)
}

/// How many threads are asked for.
fn read_workers(matches: &ArgMatches<'_>) -> Option<u32>
    ensures some { IfSome result (HasWorkers (given_rows matches.now)) }
    ensures none { IfNone result ((n : ℕ) → ¬ HasWorkers (given_rows matches.now) n) }
{
    match value(matches, "workers") {
        None => Some(USUAL_WORKERS),
        Some(text) => read_count(text),
    }
}

/// The number from 1 to 64 that a text tells.
fn read_count(text: &str) -> Option<u32>
    ensures some { IfSome result (AreWorkers (Some text.now)) }
    ensures none { IfNone result ((n : ℕ) → ¬ AreWorkers (Some text.now) n) }
{
    match text.parse::<u32>() {
        Ok(count) if count >= 1 && count <= 64 => Some(count),
        _ => None,
    }
}

/// After how many actions of a thread the archive is to be written, where that is asked for.
fn read_checkpoint(matches: &ArgMatches<'_>) -> Option<Option<u32>>
    ensures some { IfSome result (HasCheckpoint (given_rows matches.now)) }
    ensures none { IfNone result ((every : Option ℕ) → ¬ HasCheckpoint (given_rows matches.now) every) }
{
    match value(matches, "checkpoint") {
        None => Some(None),
        Some(text) => match read_every(text) {
            Some(every) => Some(Some(every)),
            None => None,
        },
    }
}

/// The number from 1 to 1,048,576 that a text tells.
fn read_every(text: &str) -> Option<u32>
    ensures some { IfSome result (IsEvery text.now) }
    ensures none { IfNone result ((every : ℕ) → ¬ IsEvery text.now every) }
{
    match text.parse::<u32>() {
        Ok(every) if every >= 1 && every <= MOST_ACTIONS => Some(every),
        _ => None,
    }
}

/// The job of this name.
fn read_job<'a>(name: &str, matches: &ArgMatches<'a>) -> Option<Job<'a>>
    ensures some { IfSome result (IsJob name.now (given_rows matches.now)) }
    ensures none { IfNone result ((job : Job) → ¬ IsJob name.now (given_rows matches.now) job) }
{
    match name {
        "trial" => Some(Job::Trial),
        "scan" => Some(Job::Scan {
            folder: value(matches, "DIR")?,
        }),
        "show" => Some(Job::Show {
            archive: value(matches, "ARCHIVE")?,
        }),
        _ => paired_job(name, matches, read_pair(matches)?),
    }
}

/// The job of this name, where it works on a pair.
fn paired_job<'a>(name: &str, matches: &ArgMatches<'a>, pair: Pair<'a>) -> Option<Job<'a>>
    ensures some { IsPair (given_rows matches.now) pair.entry → IfSome result (IsJob name.now (given_rows matches.now)) }
    ensures none { name.now ≢ codes "trial" → name.now ≢ codes "scan" → name.now ≢ codes "show"
        → IfNone result ((job : Job) → ¬ IsJob name.now (given_rows matches.now) job) }
{
    match name {
        "plan" => Some(Job::Plan { pair }),
        "preview" => {
            let json = is_flagged(matches, "json");
            Some(Job::Preview { pair, json })
        }
        "check" => {
            let plan = value(matches, "PLAN")?;
            Some(Job::Check { pair, plan })
        }
        "run" => {
            let plan = value(matches, "PLAN")?;
            Some(Job::Run { pair, plan })
        }
        "sync" => Some(Job::Sync { pair }),
        _ => None,
    }
}

/// Whether the flag of this name is among the words.
fn is_flagged(matches: &ArgMatches<'_>, id: &str) -> bool
    ensures { IsTrue result ↔ IsFlagged id.now (given_rows matches.now) }
{
    match value(matches, id) {
        Some(text) => text == "true",
        None => false,
    }
}

/// The pair that a command works on.
fn read_pair<'a>(matches: &ArgMatches<'a>) -> Option<Pair<'a>>
    ensures some { IfSome result (IsPair (given_rows matches.now)) }
    ensures none { IfNone result ((pair : Pair) → ¬ IsPair (given_rows matches.now) pair) }
{
    Some(Pair {
        first: value(matches, "FIRST")?,
        second: value(matches, "SECOND")?,
        archive: value(matches, "ARCHIVE")?,
        holds: value(matches, "holds"),
        hold_special: is_flagged(matches, "hold-special"),
    })
}
