//! Measures the parts of a synchronizer. The first word is one of `text`, `plan`, `check`, `scan` and `run`; the module of
//! that name says what the words after it are. With this word alone it does a little and says what it found, and without
//! any word it does so for all five.
#![tactic(auto)]

mod check;
mod memory;
mod paths;
mod plan;
mod run;
mod scan;
mod text;
mod watch;
mod words;

use anyhow::{Result, bail};
use std::env;

fn main(rt: HostRuntime) -> Result<()> {
    let words: Vec<String> = env::args(&rt)?.skip(1).collect(rt.alloc())?;
    let Some((name, others)) = words.as_slice().split_first() else {
        text::measure(&rt, &[])?;
        plan::measure(&rt, &[])?;
        check::measure(&rt, &[])?;
        scan::measure(&rt, rt, &[])?;
        return run::measure(&rt, &[]);
    };
    match name.as_str() {
        "text" => text::measure(&rt, others),
        "plan" => plan::measure(&rt, others),
        "check" => check::measure(&rt, others),
        "scan" => scan::measure(&rt, rt, others),
        "run" => run::measure(&rt, others),
        _ => bail!("none of text, plan, check, scan and run"),
    }
}
