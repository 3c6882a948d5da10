//! Writes and reads large texts: the archive of many paths, and plans with four predecessors for each action. Without words
//! it does a few of each and says what it found; after the word `archive` or `plan` comes a number of paths or of actions,
//! and then it also says how long that took and how much memory.

use crate::memory::{held, more};
use crate::paths::line_at;
use crate::words::number;
use anyhow::{Result, bail};
use std::alloc::Global;
use std::rt::{Clock, Files};
use std::time::{Duration, Instant};
use ts_name::Path;
use ts_print::PrintReader;
use ts_text::{Counted, Lines};

/// How many paths and actions there are where no number is given.
const FEW: u32 = 2_000;

/// How many actions there are for one entry.
const FOR_ONE_ENTRY: u32 = 4;

/// What writing a text and reading it again took.
#[derive(Drop)]
struct Measured {
    bytes: usize,
    is_same: bool,
    written: Duration,
    read: Duration,
    /// How many KiB more the process held after reading, where the system tells it.
    held: Option<u64>,
}

/// A print of so many paths.
fn print_of(alloc: Global, paths: u32) -> Result<ts_print::Print> {
    let mut reader = PrintReader::new(alloc);
    for number in 0..paths {
        let line = line_at(alloc, number, number)?;
        reader.line(alloc, line.as_bytes())?;
    }
    Ok(reader.finish()?)
}

/// The text of a plan of so many actions, each with four predecessors.
fn plan_text(alloc: Global, actions: u32) -> Result<Vec<u8>> {
    let mut text = Vec::new(alloc);
    text.extend_from_slice(b"twosync-plan 1\n")?;
    let entries = actions / FOR_ONE_ENTRY;
    for entry in 0..entries {
        let line = format!(in alloc; "entry first /directory/file{entry:08}\n")?;
        text.extend_from_slice(line.as_bytes())?;
    }
    for action in 0..actions {
        let entry = action / FOR_ONE_ENTRY;
        let line = format!(in alloc; "mark {entry}\np 0\np 1\np 2\np 3\n")?;
        text.extend_from_slice(line.as_bytes())?;
    }
    let end = format!(in alloc; "end {entries} {actions}\n")?;
    text.extend_from_slice(end.as_bytes())?;
    Ok(text)
}

/// The text of an archive, and how long writing it took.
fn write_archive<R>(rt: &R, print: &ts_print::Print) -> Result<(Vec<u8>, Duration)>
where
    R: Clock + AllocGlobal,
{
    let mut sink = Counted::new(Vec::new(rt.alloc()));
    let start = Instant::now(rt)?;
    ts_archive::encode(rt.alloc(), print, &mut sink)?;
    let took = start.elapsed(rt)?;
    Ok((sink.into_inner(), took))
}

/// The archive that a text spells, and how long reading it took.
fn read_archive<R>(rt: &R, text: &[u8]) -> Result<(ts_print::Print, Duration)>
where
    R: Clock + AllocGlobal,
{
    let start = Instant::now(rt)?;
    let mut lines = Lines::new(rt.alloc(), Counted::new(text))?;
    let print = ts_archive::decode(rt.alloc(), &mut lines)?;
    let took = start.elapsed(rt)?;
    Ok((print, took))
}

/// Writes and reads the archive of so many paths.
fn archive<R: Clock + Files + AllocGlobal>(rt: &R, paths: u32) -> Result<Measured> {
    let alloc = rt.alloc();
    let print = print_of(alloc, paths)?;
    let (text, written) = write_archive(rt, &print)?;
    let before = held(rt);
    let (again, read) = read_archive(rt, text.as_slice())?;
    Ok(Measured {
        bytes: text.len(),
        is_same: again.sub_eq(&print, &Path::root(alloc)),
        written,
        read,
        held: more(before, held(rt)),
    })
}

/// A plan read from its text and written again: the text, and how long each took.
#[derive(Drop)]
struct Again {
    text: Vec<u8>,
    read: Duration,
    written: Duration,
    /// How many KiB more the process held after reading, where the system tells it.
    held: Option<u64>,
}

/// Reads a plan and writes it again.
fn read_and_write<R: Clock + Files + AllocGlobal>(rt: &R, text: &[u8]) -> Result<Again> {
    let alloc = rt.alloc();
    let before = held(rt);
    let start = Instant::now(rt)?;
    let plan = {
        let mut lines = Lines::new(alloc, Counted::new(text))?;
        ts_plan::decode(alloc, &mut lines)?
    };
    let read = start.elapsed(rt)?;
    let after = held(rt);
    let mut sink = Counted::new(Vec::new(alloc));
    let start = Instant::now(rt)?;
    ts_plan::encode(alloc, &plan, &mut sink)?;
    let written = start.elapsed(rt)?;
    Ok(Again {
        text: sink.into_inner(),
        read,
        written,
        held: more(before, after),
    })
}

/// Reads and writes a plan of so many actions.
fn plan<R: Clock + Files + AllocGlobal>(rt: &R, actions: u32) -> Result<Measured> {
    let text = plan_text(rt.alloc(), actions)?;
    let again = read_and_write(rt, text.as_slice())?;
    Ok(Measured {
        bytes: text.len(),
        is_same: again.text.as_slice() == text.as_slice(),
        written: again.written,
        read: again.read,
        held: again.held,
    })
}

/// Says what was found, and in one more line, where it is asked for, what it took.
fn tell(rt: &impl Print, title: &str, measured: &Measured, is_asked: bool) -> Result<()> {
    let verdict = if measured.is_same {
        "read and written alike"
    } else {
        "NOT ALIKE"
    };
    let bytes = measured.bytes;
    println!(rt; "{title}: {bytes} bytes, {verdict}")?;
    if is_asked {
        let (written, read) = (measured.written.as_millis(), measured.read.as_millis());
        println!(rt; "written in {written} ms, read in {read} ms")?;
        if let Some(held) = measured.held {
            println!(rt; "held {held} KiB more after reading")?;
        }
    }
    Ok(())
}

/// Writes and reads the text that the words name, or a few of each.
pub fn measure<R>(rt: &R, words: &[String]) -> Result<()>
where
    R: Clock + Files + Print + AllocGlobal,
{
    let Some(kind) = words.first() else {
        tell(rt, "archive", &archive(rt, FEW)?, false)?;
        return tell(rt, "plan", &plan(rt, FEW)?, false);
    };
    let number = number(words, 1)?;
    match kind.as_str() {
        "archive" => tell(rt, "archive", &archive(rt, number)?, true),
        "plan" => tell(rt, "plan", &plan(rt, number)?, true),
        _ => bail!("neither archive nor plan"),
    }
}
