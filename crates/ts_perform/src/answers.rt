//! The lines that report faults and verdicts.
ghost use Rattle.std.specs.Prelude.{◌≡◌, ◌∷◌, ◌++◌, [], IfErr, OnOk};
ghost use Rattle.std.specs.Option.{option_copied};
ghost use Rattle.ts_model.specs.Texts.{text};
ghost use Rattle.ts_perform.specs.Faults.{kept_line, mount_line};
ghost use Rattle.ts_perform.specs.Runs.{failed_lines, notice_line, notice_said};
ghost use Rattle.ts_perform.specs.Failures.{act_hint, act_text, failure_text, notice_text, side_text};
ghost use Rattle.ts_perform.specs.Trials.{IsQuiet};
ghost use Rattle.ts_text.specs.Sources.{Writes};
ghost use Rattle.ts_trial.specs.Answers.{refusal};

use crate::fault::{PerformFault, on_output};
use std::alloc::{AllocError, Global};
use ts_cause::Cause;
use ts_disk::Notice;
use ts_exec::ActFault;
use ts_explain::{Piece, push_fault, push_pieces, write_explained};
use ts_model::plan::{PlanRule, Side};
use ts_name::Path;
use ts_text::{Sink, TextFault, push_decimal, write_line};

/// The number by which a failing device is reported.
const DEVICE: u8 = 8;

/// What is said of a replica that forgot an archive.
const FORGOT: &[u8] =
    b" knows 1,024 archives: it has forgotten the one that was used longest ago. Where that is still in use, look at `preview`, and use `plan` and `run`.";

/// Tells which rule a plan breaks first, and where.
pub(crate) fn write_refusal<W: Sink>(
    alloc: Global,
    rule: PlanRule,
    place: u64,
    out: &mut W,
) -> Result<(), PerformFault>
    ensures written { Writes (W.holds out.old) (W.holds out.new) (text (refusal rule place ∷ [])) result }
    ensures quiet { IfErr result IsQuiet }
{
    let mut line = Vec::new(alloc);
    push_refusal(rule, place, &mut line)?;
    write_line(out, &line).map_err(on_output)
}

/// Appends the line that refuses a plan.
fn push_refusal(rule: PlanRule, place: u64, line: &mut Vec<u8>) -> Result<(), AllocError>
    ensures { OnOk result (line.new.items ≡ line.old.items ++ refusal rule place) }
{
    line.extend_from_slice(b"refused ")?;
    push_decimal(line, u64::from(rule.number()))?;
    line.push(b' ')?;
    push_decimal(line, place)
}

/// Reports the fault of an action, and what it means and why before that where it is asked for.
pub(crate) fn write_failure<W: Sink>(
    alloc: Global,
    explain: bool,
    fault: ActFault,
    cause: Cause,
    path: Option<&Path>,
    err: &mut W,
) -> Result<(), TextFault>
    ensures { Writes (W.holds err.old) (W.holds err.new)
        (text (failed_lines explain fault (option_copied path.entry) cause)) result }
{
    let mut sentence = Vec::new(alloc);
    if explain {
        push_failure(alloc, fault, cause, path, &mut sentence)?;
    }
    let mut line = Vec::new(alloc);
    push_fault(fault.number(), path, &mut line)?;
    write_explained(explain, &sentence, &line, err)
}

/// Appends what the fault of an action means, and why it failed.
fn push_failure(
    alloc: Global,
    fault: ActFault,
    cause: Cause,
    path: Option<&Path>,
    line: &mut Vec<u8>,
) -> Result<(), AllocError>
    ensures { OnOk result (line.new.items ≡ line.old.items ++ failure_text fault (option_copied path.entry) cause) }
{
    let hint = act_hint(fault);
    let text = Piece::Words(act_text(fault));
    let reason = Piece::Reason { hint, cause };
    match path {
        Some(path) => push_pieces(alloc, &[Piece::Below(path), text, reason], line),
        None => push_pieces(alloc, &[text, reason], line),
    }
}

/// What the fault of an action means. It comes after the path.
fn act_text(fault: ActFault) -> &'static [u8]
    ensures { result.now ≡ act_text fault }
{
    match fault {
        ActFault::Unreadable => b" isn't synchronized: it can't be read",
        _ => b" isn't synchronized",
    }
}

/// How that ends where no cause is known.
fn act_hint(fault: ActFault) -> &'static [u8]
    ensures { result.now ≡ act_hint fault }
{
    match fault {
        ActFault::OutOfMemory => b": memory ran out.",
        ActFault::Device => b": the device failed, or nothing can be written there.",
        ActFault::NotThere => b": it went away meanwhile. Run `sync` again.",
        ActFault::Unreadable => b".",
        ActFault::Changed => b": what it would replace has changed meanwhile. Run `sync` again.",
        ActFault::Misfit => b": it changed while it was read. Run `sync` again.",
    }
}

/// Reports a notice: a fault of the device where what a swap left can't be removed, the place of what was kept, and a mount. What
/// it means comes before that where it is asked for. That a replica forgot an archive is said by a sentence alone.
pub(crate) fn write_notice<W: Sink>(
    alloc: Global,
    explain: bool,
    notice: &Notice,
    err: &mut W,
) -> Result<(), TextFault>
    ensures { Writes (W.holds err.old) (W.holds err.new) (text (notice_said explain notice.now)) result }
{
    if let Notice::Forgot { side } = notice {
        return write_forgot(alloc, explain, *side, err);
    }
    let mut sentence = Vec::new(alloc);
    if explain {
        push_notice_text(alloc, notice, &mut sentence)?;
    }
    let mut line = Vec::new(alloc);
    push_notice(notice, &mut line)?;
    write_explained(explain, &sentence, &line, err)
}

/// Appends the line that reports a notice.
fn push_notice(notice: &Notice, line: &mut Vec<u8>) -> Result<(), AllocError>
    ensures { OnOk result (line.new.items ≡ line.old.items ++ notice_line notice.now) }
{
    match notice {
        Notice::Discarded { path } => push_fault(DEVICE, Some(path), line),
        Notice::Kept { path, place } => push_kept(path, place.as_str(), line),
        Notice::Mounted { path } => push_mount(path, line),
        Notice::Forgot { .. } => Ok(()),
    }
}

/// Says that the replica on a side forgot an archive, where sentences are asked for, and else nothing.
fn write_forgot<W: Sink>(
    alloc: Global,
    explain: bool,
    side: Side,
    err: &mut W,
) -> Result<(), TextFault>
    ensures { Writes (W.holds err.old) (W.holds err.new) (text (notice_said explain (Notice.Forgot side))) result }
{
    if !explain {
        return Ok(());
    }
    let mut sentence = Vec::new(alloc);
    push_forgot(alloc, side, &mut sentence)?;
    write_line(err, &sentence)
}

/// Appends that the replica on a side forgot an archive.
fn push_forgot(alloc: Global, side: Side, line: &mut Vec<u8>) -> Result<(), AllocError>
    ensures { OnOk result (line.new.items ≡ line.old.items ++ notice_text (Notice.Forgot side)) }
{
    push_pieces(
        alloc,
        &[Piece::Words(side_text(side)), Piece::Words(FORGOT)],
        line,
    )
}

/// A replica, where nothing says its name.
fn side_text(side: Side) -> &'static [u8]
    ensures { result.now ≡ side_text side }
{
    match side {
        Side::First => b"The first folder",
        Side::Second => b"The second folder",
    }
}

/// Appends what a notice means.
fn push_notice_text(alloc: Global, notice: &Notice, line: &mut Vec<u8>) -> Result<(), AllocError>
    ensures { OnOk result (line.new.items ≡ line.old.items ++ notice_text notice.now) }
{
    match notice {
        Notice::Discarded { path } => {
            let end = b": what it replaced can't be removed. Later runs try again.";
            push_pieces(alloc, &[Piece::Below(path), Piece::Words(end)], line)
        }
        Notice::Kept { path, place } => {
            let pieces = [
                Piece::Below(path),
                Piece::Words(b": what stood there is kept as "),
                Piece::Name(place.as_str()),
                Piece::Words(b": it may be the only copy of something."),
            ];
            push_pieces(alloc, &pieces, line)
        }
        Notice::Mounted { path } => {
            let end = b" is another file system: nothing can be put in place there.";
            push_pieces(alloc, &[Piece::Below(path), Piece::Words(end)], line)
        }
        Notice::Forgot { side } => push_forgot(alloc, *side, line),
    }
}

/// Appends the line that reports a mount.
fn push_mount(path: &Path, line: &mut Vec<u8>) -> Result<(), AllocError>
    ensures { OnOk result (line.new.items ≡ line.old.items ++ mount_line path.now) }
{
    line.extend_from_slice(b"twosync: mount ")?;
    path.write_text(line)
}

/// Appends the line that reports what was kept.
fn push_kept(path: &Path, place: &str, line: &mut Vec<u8>) -> Result<(), AllocError>
    ensures { OnOk result (line.new.items ≡ line.old.items ++ kept_line path.now place.now) }
{
    line.extend_from_slice(b"twosync: kept ")?;
    path.write_text(line)?;
    line.extend_from_slice(b" as ")?;
    line.extend_from_slice(place.as_bytes())?;
    Ok(())
}
