//! Checks two large plans. The first copies many new files of two pieces each, side by side. The second copies many new
//! files of one piece out of a directory that stands deep below new ones. Without words it checks small plans of both kinds;
//! after the word `wide` or `deep` comes a number of files, and then it also says how long that took and how much memory.

use crate::memory::{held, more};
use crate::words::number;
use anyhow::{Context, Result, bail};
use std::alloc::Global;
use std::rt::{Clock, Files};
use std::thread::Threads;
use std::time::{Duration, Instant};
use ts_check::{CheckFault, Checked, check};
use ts_hold::Holds;
use ts_model::items::Items;
use ts_model::packed::PackedAction;
use ts_model::plan::{Entry, Kind, Plan, Reason};
use ts_model::predecessors::Predecessors;
use ts_name::Path;
use ts_print::PrintReader;

/// How many files there are where no number is given.
const FEW: u32 = 500;

/// How many new directories stand one in another.
const DEPTH: u32 = 60;

const PIECE: u64 = 1_048_576;

/// The prints of both replicas, and a plan for them over an empty archive.
struct Work {
    first: ts_print::Print,
    second: ts_print::Print,
    plan: Plan,
}

/// Written out, so that a proof of what drops one stays short.
impl Drop for Work {
    fn drop(self) {
        let Work {
            first,
            second,
            plan,
        } = self;
        drop(first);
        drop(second);
        drop(plan);
    }
}

/// A print that is read line by line, and a plan that grows with it.
struct Draft {
    first: PrintReader,
    second: PrintReader,
    entries: Vec<Entry>,
    actions: Vec<PackedAction>,
}

/// Written out, so that a proof of what drops one stays short.
impl Drop for Draft {
    fn drop(self) {
        let Draft {
            first,
            second,
            entries,
            actions,
        } = self;
        drop(first);
        drop(second);
        drop(entries);
        drop(actions);
    }
}

impl Draft {
    fn new(alloc: Global) -> Self {
        Draft {
            first: PrintReader::new(alloc),
            second: PrintReader::new(alloc),
            entries: Vec::new(alloc),
            actions: Vec::new(alloc),
        }
    }

    fn act(&mut self, alloc: Global, kind: Kind, preds: Predecessors) -> Result<u32> {
        let number = u32::try_from(self.actions.len()).context("counting actions")?;
        self.actions.push(PackedAction::new(alloc, kind, preds)?)?;
        Ok(number)
    }

    fn enter(&mut self, alloc: Global, path: &str, reason: Reason) -> Result<u32> {
        let number = u32::try_from(self.entries.len()).context("counting entries")?;
        let path = Path::parse_text(alloc, path.as_bytes())?;
        self.entries.push(Entry { path, reason })?;
        Ok(number)
    }

    /// A directory that both replicas have and the archive hasn't. The answer is its mark.
    fn add_dir(&mut self, alloc: Global, path: &str, above: Option<u32>) -> Result<u32> {
        let line = format!(in alloc; "d {path}")?;
        self.first.line(alloc, line.as_bytes())?;
        self.second.line(alloc, line.as_bytes())?;
        let entry = self.enter(alloc, path, Reason::Dir)?;
        let mut preds = Predecessors::none();
        if let Some(mark) = above {
            preds.push(alloc, mark)?;
        }
        self.act(alloc, Kind::Mark { entry }, preds)
    }

    /// A file that only the first replica has, with its pieces, its commit and its mark.
    fn add_file(&mut self, alloc: Global, path: &str, size: u64, above: Option<u32>) -> Result<()> {
        let line = format!(in alloc; "f {path} {size} {size:064}")?;
        self.first.line(alloc, line.as_bytes())?;
        let entry = self.enter(alloc, path, Reason::First)?;
        let mut pieces = Vec::new(alloc);
        for number in 0..size.div_ceil(PIECE) {
            let offset = number.wrapping_mul(PIECE);
            let kind = Kind::Piece {
                entry,
                offset,
                length: PIECE.min(size.wrapping_sub(offset)),
                path: Path::parse_text(alloc, path.as_bytes())?,
            };
            let piece = self.act(alloc, kind, Predecessors::none())?;
            pieces.push(piece)?;
        }
        let pieces = Predecessors::of(alloc, pieces)?;
        let commit = self.act(alloc, Kind::Commit { entry }, pieces)?;
        let mut preds = Predecessors::none();
        if let Some(mark) = above {
            preds.push(alloc, mark)?;
        }
        preds.push(alloc, commit)?;
        self.act(alloc, Kind::Mark { entry }, preds)?;
        Ok(())
    }

    fn done(self) -> Result<Work> {
        let Draft {
            first,
            second,
            entries,
            actions,
        } = self;
        Ok(Work {
            first: first.finish()?,
            second: second.finish()?,
            plan: Plan {
                entries: Items::new(entries),
                actions: Items::new(actions),
            },
        })
    }
}

/// Files side by side, of two pieces each: four actions an entry.
fn wide(alloc: Global, count: u32) -> Result<Work> {
    let mut draft = Draft::new(alloc);
    for number in 0..count {
        let path = format!(in alloc; "/file{number:08}")?;
        draft.add_file(alloc, path.as_str(), PIECE + 1, None)?;
    }
    draft.done()
}

/// Files of one piece in the last of a chain of new directories.
fn deep(alloc: Global, count: u32) -> Result<Work> {
    let mut draft = Draft::new(alloc);
    let mut dir = String::new(alloc);
    let mut above = None;
    for _ in 0..DEPTH {
        dir.push_str("/d")?;
        above = Some(draft.add_dir(alloc, dir.as_str(), above)?);
    }
    for number in 0..count {
        let path = format!(in alloc; "{dir}/file{number:08}")?;
        draft.add_file(alloc, path.as_str(), 1, above)?;
    }
    draft.done()
}

/// What checking a plan took.
#[derive(Drop)]
struct Measured {
    actions: u32,
    took: Duration,
    /// How many KiB more the process held after checking, where the system tells it.
    held: Option<u64>,
}

/// How many actions a plan has, which has to be valid.
fn actions_of(answer: Result<Checked<'_>, CheckFault>) -> Result<u32> {
    match answer {
        Ok(checked) => Ok(checked.action_count()),
        Err(CheckFault::Broken { rule, place }) => bail!("{rule:?} is broken at {place}"),
        Err(fault) => bail!("{fault}"),
    }
}

/// Checks a plan, which has to be valid.
fn judge<R: Clock + Files + Threads + AllocGlobal + Sync>(rt: &R, work: &Work) -> Result<Measured> {
    let alloc = rt.alloc();
    let holds = Holds::parse(alloc, b"path /held\nname *.part\n")?;
    let archive = ts_print::Print::empty(alloc);
    let before = held(rt);
    let start = Instant::now(rt)?;
    let answer = check(
        rt,
        alloc,
        &work.plan,
        &archive,
        &work.first,
        &work.second,
        &holds,
    );
    let took = start.elapsed(rt);
    let after = held(rt);
    let actions = actions_of(answer)?;
    Ok(Measured {
        actions,
        took: took?,
        held: more(before, after),
    })
}

/// Says what was checked, and in one more line, where it is asked for, what it took.
fn tell(rt: &impl Print, title: &str, measured: &Measured, is_asked: bool) -> Result<()> {
    let actions = measured.actions;
    println!(rt; "{title}: {actions} actions, valid")?;
    if is_asked {
        let took = measured.took.as_millis();
        println!(rt; "checked in {took} ms")?;
        if let Some(held) = measured.held {
            println!(rt; "held {held} KiB more after checking")?;
        }
    }
    Ok(())
}

/// Checks files side by side, and says what came of it.
fn judge_wide<R>(rt: &R, count: u32, is_asked: bool) -> Result<()>
where
    R: Clock + Files + Threads + Print + AllocGlobal + Sync,
{
    let work = wide(rt.alloc(), count)?;
    let measured = judge(rt, &work)?;
    tell(rt, "side by side", &measured, is_asked)
}

/// Checks files in a chain of directories, and says what came of it.
fn judge_deep<R>(rt: &R, count: u32, is_asked: bool) -> Result<()>
where
    R: Clock + Files + Threads + Print + AllocGlobal + Sync,
{
    let work = deep(rt.alloc(), count)?;
    let measured = judge(rt, &work)?;
    tell(rt, "in a chain", &measured, is_asked)
}

/// Checks the plan that the words name, or small ones of both kinds.
pub fn measure<R>(rt: &R, words: &[String]) -> Result<()>
where
    R: Clock + Files + Threads + Print + AllocGlobal + Sync,
{
    let Some(kind) = words.first() else {
        judge_wide(rt, FEW, false)?;
        return judge_deep(rt, FEW, false);
    };
    let count = number(words, 1)?;
    match kind.as_str() {
        "wide" => judge_wide(rt, count, true),
        "deep" => judge_deep(rt, count, true),
        _ => bail!("neither wide nor deep"),
    }
}
