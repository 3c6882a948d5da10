//! Answers cases that another program draws and judges: `tests/generated_cases.sh` asks by this what the decoders, the
//! checker and the planner make of them. A case is its kind's name and so many parts, each behind its length (`parts`), and
//! each kind has a module, which says what the parts and the answer are. The program ends with an error, which names the
//! case by its number, where a case can't be read, or where two calls that have to say the same differ.

mod checking;
mod marking;
mod parts;
mod reading;
mod situation;
mod textless;

use crate::answers::parts::Parts;
use anyhow::{Result, bail};
use std::io::{Input, Read};
use std::thread::Threads;

/// Answers a case.
fn answer<R: Threads + AllocGlobal + Sync>(rt: &R, parts: &mut Parts<'_>) -> Result<String> {
    let alloc = rt.alloc();
    match parts.word()? {
        "archive" => reading::archive(alloc, parts.next()?),
        "plan" => reading::plan(alloc, parts.next()?),
        "rules" => reading::rules(alloc, parts.next()?),
        "bundle" => reading::bundle(alloc, parts.next()?),
        "check" => checking::check_written(rt, parts),
        "beyond" => checking::check_beyond(rt, parts),
        "marks" => marking::mark_and_plan(alloc, parts),
        _ => bail!("no kind has this name"),
    }
}

/// Answers all cases that stand on standard input.
pub fn answer_all<R: Threads + Print + Input + AllocGlobal + Sync>(rt: &R) -> Result<()> {
    let mut input = Vec::new(rt.alloc());
    rt.reader().read_to_end(&mut input)?;
    let mut parts = Parts::of(input.as_slice());
    for number in 0..u64::MAX {
        if parts.are_all_read() {
            break;
        }
        match answer(rt, &mut parts) {
            Ok(answer) => println!(rt; "{answer}")?,
            Err(fault) => bail!("case {number}: {fault}"),
        }
    }
    Ok(())
}
