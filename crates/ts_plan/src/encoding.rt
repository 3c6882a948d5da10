//! Writing a plan's text.
ghost use Rattle.std.specs.Prelude.{◌≡◌, ◌∷◌, [], ◌++◌, ◌^◌, ◌<◌, length, map, flat_map, codes, decimal, OnOk};
ghost use Rattle.ts_model.specs.Texts.{text, reason_text, entry_line, kind_line, pred_line, action_lines, plan_lines, IsPlan};
ghost use Rattle.ts_plan.specs.Sends.{Sends, entry_chunk, pred_chunk, action_chunk, end_chunk};

use crate::fault::PlanFault;
use std::alloc::{AllocError, Global};
use ts_model::packed::{KindRef, PackedAction};
use ts_model::plan::{Entry, Plan, Reason};
use ts_text::{Sink, push_decimal, push_word, write_line};

/// The word by which a plan and a report name a reason.
pub fn reason_word(reason: Reason) -> &'static [u8]
    ensures { result.now ≡ reason_text reason }
{
    match reason {
        Reason::Same => b"same",
        Reason::First => b"first",
        Reason::Second => b"second",
        Reason::Conflict => b"conflict",
        Reason::Held => b"held",
        Reason::Dir => b"dir",
    }
}

/// Puts an entry's line in place of what `line` has.
fn fill_entry(line: &mut Vec<u8>, entry: &Entry) -> Result<(), AllocError>
    ensures { OnOk result (line.new.items ≡ entry_line entry.now) }
{
    line.clear();
    line.extend_from_slice(b"entry")?;
    push_word(line, reason_word(entry.reason))?;
    line.push(b' ')?;
    entry.path.write_text(line)
}

/// Puts an action's first line in place of what `line` has.
fn fill_kind(line: &mut Vec<u8>, action: &PackedAction) -> Result<(), AllocError>
    ensures { OnOk result (line.new.items ≡ kind_line action.now.kind) }
{
    line.clear();
    match action.kind() {
        KindRef::Piece {
            entry,
            offset,
            length,
            path,
        } => {
            line.extend_from_slice(b"piece")?;
            push_number(line, u64::from(entry))?;
            push_number(line, offset)?;
            push_number(line, length)?;
            line.push(b' ')?;
            path.write_text(line)
        }
        KindRef::Commit { entry } => {
            line.extend_from_slice(b"commit")?;
            push_number(line, u64::from(entry))
        }
        KindRef::Mark { entry } => {
            line.extend_from_slice(b"mark")?;
            push_number(line, u64::from(entry))
        }
    }
}

/// Adds a space and a number.
fn push_number(line: &mut Vec<u8>, number: u64) -> Result<(), AllocError>
    ensures { OnOk result (line.new.items ≡ line.old.items ++ 32 ∷ decimal number) }
{
    line.push(b' ')?;
    push_decimal(line, number)
}

/// Puts a predecessor's line in place of what `line` has.
fn fill_pred(line: &mut Vec<u8>, number: u32) -> Result<(), AllocError>
    ensures { OnOk result (line.new.items ≡ pred_line number) }
{
    line.clear();
    line.extend_from_slice(b"p")?;
    push_number(line, u64::from(number))
}

/// Puts the last line in place of what `line` has.
fn fill_end(line: &mut Vec<u8>, entries: usize, actions: usize) -> Result<(), AllocError>
    ensures { OnOk result (line.new.items ≡ codes "end " ++ (decimal entries ++ 32 ∷ decimal actions)) }
{
    line.clear();
    line.extend_from_slice(b"end")?;
    push_number(line, entries as u64)?;
    push_number(line, actions as u64)
}

/// Writes one line.
fn send<W: Sink>(sink: &mut W, line: &[u8]) -> Result<(), PlanFault>
    ensures { Sends (W.holds sink.old) (W.holds sink.new) (W.failures sink.old) (W.failures sink.new) (line.now ++ 10 ∷ []) result }
{
    match write_line(sink, line) {
        Ok(()) => Ok(()),
        Err(fault) => Err(PlanFault::from(fault)),
    }
}

fn send_entry<W: Sink>(sink: &mut W, line: &mut Vec<u8>, entry: &Entry) -> Result<(), PlanFault>
    ensures { Sends (W.holds sink.old) (W.holds sink.new) (W.failures sink.old) (W.failures sink.new) (entry_chunk entry.now) result }
{
    if fill_entry(line, entry).is_err() {
        return Err(PlanFault::OutOfMemory);
    }
    send(sink, line)
}

fn send_kind<W: Sink>(
    sink: &mut W,
    line: &mut Vec<u8>,
    action: &PackedAction,
) -> Result<(), PlanFault>
    ensures { Sends (W.holds sink.old) (W.holds sink.new) (W.failures sink.old) (W.failures sink.new) (kind_line action.now.kind ++ 10 ∷ []) result }
{
    if fill_kind(line, action).is_err() {
        return Err(PlanFault::OutOfMemory);
    }
    send(sink, line)
}

fn send_pred<W: Sink>(sink: &mut W, line: &mut Vec<u8>, number: u32) -> Result<(), PlanFault>
    ensures { Sends (W.holds sink.old) (W.holds sink.new) (W.failures sink.old) (W.failures sink.new) (pred_chunk number) result }
{
    if fill_pred(line, number).is_err() {
        return Err(PlanFault::OutOfMemory);
    }
    send(sink, line)
}

fn send_end<W: Sink>(
    sink: &mut W,
    line: &mut Vec<u8>,
    entries: usize,
    actions: usize,
) -> Result<(), PlanFault>
    ensures { Sends (W.holds sink.old) (W.holds sink.new) (W.failures sink.old) (W.failures sink.new) (end_chunk entries actions) result }
{
    if fill_end(line, entries, actions).is_err() {
        return Err(PlanFault::OutOfMemory);
    }
    send(sink, line)
}

fn send_entries<W: Sink>(
    sink: &mut W,
    line: &mut Vec<u8>,
    entries: &[Entry],
) -> Result<(), PlanFault>
    ensures { Sends (W.holds sink.old) (W.holds sink.new) (W.failures sink.old) (W.failures sink.new) (flat_map entry_chunk entries.now) result }
{
    for entry in entries {
        if let Err(fault) = send_entry(sink, line, entry) {
            return Err(fault);
        }
    }
    Ok(())
}

fn send_preds<W: Sink>(sink: &mut W, line: &mut Vec<u8>, preds: &[u32]) -> Result<(), PlanFault>
    ensures { Sends (W.holds sink.old) (W.holds sink.new) (W.failures sink.old) (W.failures sink.new) (flat_map pred_chunk preds.now) result }
{
    for number in preds {
        if let Err(fault) = send_pred(sink, line, *number) {
            return Err(fault);
        }
    }
    Ok(())
}

fn send_action<W: Sink>(
    sink: &mut W,
    line: &mut Vec<u8>,
    action: &PackedAction,
) -> Result<(), PlanFault>
    ensures { Sends (W.holds sink.old) (W.holds sink.new) (W.failures sink.old) (W.failures sink.new) (action_chunk action.now) result }
{
    if let Err(fault) = send_kind(sink, line, action) {
        return Err(fault);
    }
    send_preds(sink, line, action.preds())
}

fn send_actions<W: Sink>(
    sink: &mut W,
    line: &mut Vec<u8>,
    actions: &[PackedAction],
) -> Result<(), PlanFault>
    ensures { Sends (W.holds sink.old) (W.holds sink.new) (W.failures sink.old) (W.failures sink.new) (flat_map action_chunk actions.now) result }
{
    for action in actions {
        if let Err(fault) = send_action(sink, line, action) {
            return Err(fault);
        }
    }
    Ok(())
}

/// Writes the plan's text; whether a plan has one, `fits` says. At an error a beginning of it went out.
pub fn encode<W: Sink>(alloc: Global, plan: &Plan, sink: &mut W) -> Result<(), PlanFault>
    requires { IsPlan plan.now }
    ensures { Sends (W.holds sink.old) (W.holds sink.new) (W.failures sink.old) (W.failures sink.new) (text (plan_lines plan.now)) result }
{
    let entries = plan.entries.as_slice();
    let actions = plan.actions.as_slice();
    let mut line = Vec::new(alloc);
    if let Err(fault) = send(sink, b"twosync-plan 1") {
        return Err(fault);
    }
    if let Err(fault) = send_entries(sink, &mut line, entries) {
        return Err(fault);
    }
    if let Err(fault) = send_actions(sink, &mut line, actions) {
        return Err(fault);
    }
    send_end(sink, &mut line, entries.len(), actions.len())
}
