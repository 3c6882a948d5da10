//! The kinds `archive`, `plan`, `rules` and `bundle` have one part, the text. It is read by the product's decoder. What is
//! read is written again, and has to be the text that was read: archives, plans and rules by their encoders, a bundle part by
//! part, each behind its title. The answer is the number of the fault that the text was refused with, and that of its bad
//! line; each is zero where there is none.

use anyhow::{Result, bail, ensure};
use std::alloc::Global;
use ts_bundle::Bundle;
use ts_hold::{HoldFault, Holds};
use ts_model::plan::Plan;
use ts_text::{Counted, Lines, write_line};

type Written = Counted<Vec<u8>>;

fn refused(alloc: Global, fault: u8, line: u64) -> Result<String> {
    Ok(format!(in alloc; "{fault} {line}")?)
}

/// What was read was written as it was.
fn compared(alloc: Global, written: Written, text: &[u8]) -> Result<String> {
    let written = written.into_inner();
    ensure!(written.as_slice() == text, "it is written otherwise");
    refused(alloc, 0, 0)
}

pub fn archive(alloc: Global, text: &[u8]) -> Result<String> {
    let mut lines = Lines::new(alloc, Counted::new(text))?;
    match ts_archive::decode(alloc, &mut lines) {
        Ok(print) => {
            let mut written = Counted::new(Vec::new(alloc));
            ts_archive::encode(alloc, &print, &mut written)?;
            compared(alloc, written, text)
        }
        Err(fault) => refused(alloc, fault.number(), 0),
    }
}

pub fn plan(alloc: Global, text: &[u8]) -> Result<String> {
    let mut lines = Lines::new(alloc, Counted::new(text))?;
    match ts_plan::decode(alloc, &mut lines) {
        Ok(plan) => {
            let mut written = Counted::new(Vec::new(alloc));
            write_plan(alloc, &plan, &mut written)?;
            compared(alloc, written, text)
        }
        Err(fault) => refused(alloc, fault.number(), 0),
    }
}

/// Writes a plan's text.
pub fn write_plan(alloc: Global, plan: &Plan, written: &mut Written) -> Result<()> {
    if !ts_plan::fits(plan) {
        bail!("a plan that was read or built has no text");
    }
    ts_plan::encode(alloc, plan, written)?;
    Ok(())
}

pub fn rules(alloc: Global, text: &[u8]) -> Result<String> {
    match Holds::parse(alloc, text) {
        Ok(holds) => {
            let mut written = Counted::new(Vec::new(alloc));
            holds.encode(alloc, &mut written)?;
            compared(alloc, written, text)
        }
        Err(fault) => {
            let line = match &fault {
                HoldFault::BadRule { line } => *line,
                HoldFault::OutOfMemory => 0,
            };
            refused(alloc, fault.number(), line)
        }
    }
}

pub fn bundle(alloc: Global, text: &[u8]) -> Result<String> {
    let mut lines = Lines::new(alloc, Counted::new(text))?;
    match ts_bundle::decode(alloc, &mut lines) {
        Ok(bundle) => {
            let mut written = Counted::new(Vec::new(alloc));
            write_bundle(alloc, &bundle, &mut written)?;
            compared(alloc, written, text)
        }
        Err(fault) => refused(alloc, fault.number(), 0),
    }
}

/// Writes a bundle's parts behind their titles.
fn write_bundle(alloc: Global, bundle: &Bundle, written: &mut Written) -> Result<()> {
    write_line(written, b"twosync-bundle 1")?;
    write_line(written, b"archive")?;
    ts_print::encode(alloc, &bundle.archive, written)?;
    write_line(written, b"first")?;
    ts_tree::encode(alloc, &bundle.first, written)?;
    write_line(written, b"second")?;
    ts_tree::encode(alloc, &bundle.second, written)?;
    write_line(written, b"holds")?;
    bundle.holds.encode(alloc, written)?;
    write_line(written, b"plan")?;
    write_plan(alloc, &bundle.plan, written)
}
