//! Tries the executor, stopped runs and the board on cases, and compares what they answer with what another reading of the
//! rules wants. Ends with an error where something differs. The module of each says what its cases are.
//! After the word `answers` it does nothing of that: it answers the cases that it reads from standard input (`answers`).
#![tactic(auto)]

mod answers;
mod board;
mod executor;
mod stops;

use anyhow::{Result, bail};
use std::env;
use std::thread::Threads;

/// Tries all cases, and says what came of them.
fn try_all<R: Threads + Print + AllocGlobal + Sync>(rt: &R) -> Result<()> {
    println!(rt; "== the executor")?;
    executor::try_cases(rt)?;
    println!(rt; "== stopped runs")?;
    stops::try_cases(rt)?;
    println!(rt; "== the board")?;
    board::try_cases(rt)
}

fn main(rt: HostRuntime) -> Result<()> {
    let words: Vec<String> = env::args(&rt)?.skip(1).collect(rt.alloc())?;
    match words.as_slice() {
        [] => try_all(&rt),
        [word] if word.as_str() == "answers" => answers::answer_all(&rt),
        _ => bail!("no words, or answers"),
    }
}
