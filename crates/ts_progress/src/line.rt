//! What the line says.
ghost use Rattle.std.specs.Prelude.{◌≡◌, ◌<◌, ◌≤◌, ◌^◌, ◌++◌, IfOk, OnOk, length, take};
ghost use Rattle.std.specs.List.{AllByRecursion};
ghost use Rattle.ts_progress.specs.Lines.{IsPrintable, actions_text, all_actions_text, all_paths_text, bytes_text, files_text, flush_text};
ghost use Rattle.ts_progress.specs.Lines.{left_text, line_text, rate_text, run_text, scan_text, text_in};

use crate::numbers::{push_duration, push_grouped, push_size};
use std::alloc::{AllocError, Global};

/// What a command is at.
#[derive(Clone, Copy, Debug, PartialEq, Eq, Drop)]
pub enum Phase {
    /// It reads folders. Nobody knows what is to come.
    Scanning,
    /// It checks a plan.
    Checking,
    /// It waits until what both replicas have already has reached their devices.
    Flushing,
    /// It carries a plan out.
    CarryingOut,
}

/// Files of a scan, paths that are flushed, or actions of a plan; and the bytes that were read of files.
#[derive(Clone, Copy, Debug, PartialEq, Eq, Drop)]
pub struct Amount {
    pub steps: u64,
    pub bytes: u64,
}

impl Amount {
    /// Where nothing is known.
    pub fn none() -> Amount {
        Amount { steps: 0, bytes: 0 }
    }
}

/// How far a command is: what is done since its phase began, of what is expected where that is known, and how many
/// milliseconds that took.
#[derive(Clone, Copy, Debug, PartialEq, Eq, Drop)]
pub struct Standing {
    pub phase: Phase,
    pub done: Amount,
    pub expected: Amount,
    pub elapsed: u64,
}

/// The line that says how far a command is, cut where it is wider than so many columns.
pub(crate) fn line(alloc: Global, columns: usize, standing: Standing) -> Result<Vec<u8>, AllocError>
    ensures text { IfOk result (λ line. line.items ≡ take columns (line_text standing)) }
    ensures width { IfOk result (λ line. length line.items ≤ columns) }
    ensures printable { IfOk result (λ line. AllByRecursion IsPrintable line.items) }
{
    let Standing { done, expected, .. } = standing;
    fits(done.steps);
    fits(done.bytes);
    fits(expected.steps);
    fits(expected.bytes);
    let mut line = Vec::new(alloc);
    push_line(&mut line, &standing)?;
    line.truncate(columns);
    Ok(line)
}

/// A number is in the range of its type: for proofs on fields.
fn fits(n: u64)
    ensures { n < 2 ^ 64 }
{}

/// Appends all of it.
fn push_line(line: &mut Vec<u8>, standing: &Standing) -> Result<(), AllocError>
    ensures { OnOk result (line.new.items ≡ line.old.items ++ line_text standing.now) }
{
    match standing.phase {
        Phase::Scanning => push_scan(line, &standing.done, standing.elapsed),
        Phase::Checking => line.extend_from_slice(b"checking the plan"),
        Phase::Flushing => push_flushed(line, standing.done.steps, standing.expected.steps),
        Phase::CarryingOut => push_run(line, &standing.done, &standing.expected, standing.elapsed),
    }
}

/// Appends how far a scan is.
fn push_scan(line: &mut Vec<u8>, done: &Amount, elapsed: u64) -> Result<(), AllocError>
    ensures { OnOk result (line.new.items ≡ line.old.items ++ scan_text done.now elapsed) }
{
    line.extend_from_slice(b"scanning: ")?;
    push_files(line, done.steps)?;
    line.extend_from_slice(b", ")?;
    push_size(line, done.bytes)?;
    push_rate(line, done.bytes, elapsed)
}

/// Appends so many files.
fn push_files(line: &mut Vec<u8>, count: u64) -> Result<(), AllocError>
    ensures { OnOk result (line.new.items ≡ line.old.items ++ files_text count) }
{
    push_grouped(line, count)?;
    if count > 1 {
        line.extend_from_slice(b" files")
    } else if count > 0 {
        line.extend_from_slice(b" file")
    } else {
        line.extend_from_slice(b" files")
    }
}

/// Appends how many paths are flushed, of how many.
fn push_flushed(line: &mut Vec<u8>, done: u64, expected: u64) -> Result<(), AllocError>
    ensures { OnOk result (line.new.items ≡ line.old.items ++ flush_text done expected) }
{
    line.extend_from_slice(b"flushing: ")?;
    push_grouped(line, done)?;
    push_all_paths(line, expected)
}

/// Appends of how many paths.
fn push_all_paths(line: &mut Vec<u8>, expected: u64) -> Result<(), AllocError>
    ensures { OnOk result (line.new.items ≡ line.old.items ++ all_paths_text expected) }
{
    line.extend_from_slice(b" of ")?;
    push_grouped(line, expected)?;
    line.extend_from_slice(b" paths")
}

/// Appends how far a run is.
fn push_run(
    line: &mut Vec<u8>,
    done: &Amount,
    expected: &Amount,
    elapsed: u64,
) -> Result<(), AllocError>
    ensures { OnOk result (line.new.items ≡ line.old.items ++ run_text done.now expected.now elapsed) }
{
    push_actions(line, done.steps, expected.steps)?;
    push_bytes(line, done.bytes, expected.bytes)?;
    push_rate(line, done.bytes, elapsed)?;
    push_left(line, done.bytes, expected.bytes, elapsed)
}

/// Appends how many actions are done, of how many.
fn push_actions(line: &mut Vec<u8>, done: u64, expected: u64) -> Result<(), AllocError>
    ensures { OnOk result (line.new.items ≡ line.old.items ++ actions_text done expected) }
{
    line.extend_from_slice(b"carrying out: ")?;
    push_grouped(line, done)?;
    push_all_actions(line, expected)
}

/// Appends of how many actions.
fn push_all_actions(line: &mut Vec<u8>, expected: u64) -> Result<(), AllocError>
    ensures { OnOk result (line.new.items ≡ line.old.items ++ all_actions_text expected) }
{
    line.extend_from_slice(b" of ")?;
    push_grouped(line, expected)?;
    line.extend_from_slice(b" actions, ")
}

/// Appends how many bytes were read, of how many.
fn push_bytes(line: &mut Vec<u8>, done: u64, expected: u64) -> Result<(), AllocError>
    ensures { OnOk result (line.new.items ≡ line.old.items ++ bytes_text done expected) }
{
    push_size(line, done)?;
    line.extend_from_slice(b" of ")?;
    push_size(line, expected)
}

/// Appends how many bytes a second that is.
fn push_rate(line: &mut Vec<u8>, bytes: u64, elapsed: u64) -> Result<(), AllocError>
    ensures { OnOk result (line.new.items ≡ line.old.items ++ rate_text bytes elapsed) }
{
    if elapsed > 0 {
        line.extend_from_slice(b", ")?;
        push_size(line, bytes.saturating_mul(1_000) / elapsed)?;
        line.extend_from_slice(b"/s")?;
    }
    Ok(())
}

/// Appends how long the rest will take, if it goes on as it went so far.
fn push_left(line: &mut Vec<u8>, done: u64, expected: u64, elapsed: u64) -> Result<(), AllocError>
    ensures { OnOk result (line.new.items ≡ line.old.items ++ left_text done expected elapsed) }
{
    if done > 0 && done < expected {
        line.extend_from_slice(b", ")?;
        push_duration(
            line,
            (expected - done).saturating_mul(elapsed) / done / 1_000,
        )?;
        line.extend_from_slice(b" left")?;
    }
    Ok(())
}
