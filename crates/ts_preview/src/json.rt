//! A preview's lines for programs.
ghost use Rattle.std.specs.Prelude.{◌≡◌, ◌++◌, OnOk, flat_map};
ghost use Rattle.ts_preview.specs.Json.{json_byte, json_copied, json_copy, json_front, json_line, json_losses, json_path, json_rest, json_state, json_states, json_total, target_text};

use crate::field::push_field;
use crate::outlook::{Outlook, State};
use crate::totals::Totals;
use std::alloc::{AllocError, Global};
use ts_model::plan::{Reason, Side};
use ts_name::Path;
use ts_plan::reason_word;

/// The first line.
pub(crate) const HEAD: &[u8] = b"{\"text\":\"twosync-preview 1\"}";

/// Appends the line of an entry, an object.
pub(crate) fn push_outlook(
    alloc: Global,
    outlook: &Outlook<'_>,
    line: &mut Vec<u8>,
) -> Result<(), AllocError>
    ensures { OnOk result (line.new.items ≡ line.old.items ++ json_line outlook.now) }
{
    push_front(alloc, outlook, line)?;
    push_copy(outlook, line)?;
    push_states(outlook, line)
}

/// Appends what becomes of the replica that it is copied to.
fn push_copy(outlook: &Outlook<'_>, line: &mut Vec<u8>) -> Result<(), AllocError>
    ensures { OnOk result (line.new.items ≡ line.old.items ++ json_copy outlook.now) }
{
    push_text(b",\"change\":\"", outlook.change.word(), line)?;
    push_field(b"\",\"lost\":", outlook.lost as u64, line)
}

/// Appends what both replicas have.
fn push_states(outlook: &Outlook<'_>, line: &mut Vec<u8>) -> Result<(), AllocError>
    ensures { OnOk result (line.new.items ≡ line.old.items ++ json_states outlook.now) }
{
    line.extend_from_slice(b",\"first\":")?;
    push_state(&outlook.first, line)?;
    line.extend_from_slice(b",\"second\":")?;
    push_state(&outlook.second, line)?;
    line.extend_from_slice(b"}")
}

/// Appends its path, its reason, and the replica that it is copied to.
fn push_front(alloc: Global, outlook: &Outlook<'_>, line: &mut Vec<u8>) -> Result<(), AllocError>
    ensures { OnOk result (line.new.items ≡ line.old.items ++ json_front outlook.now) }
{
    line.extend_from_slice(b"{\"path\":\"")?;
    push_path(alloc, outlook.path, line)?;
    push_text(b"\",\"reason\":\"", reason_word(outlook.reason), line)?;
    push_text(b"\",\"to\":", target_text(outlook.reason), line)
}

/// Appends a path's text with a backslash before each quotation mark and backslash.
fn push_path(alloc: Global, path: &Path, line: &mut Vec<u8>) -> Result<(), AllocError>
    ensures { OnOk result (line.new.items ≡ line.old.items ++ json_path path.now) }
{
    let mut text = Vec::new(alloc);
    path.write_text(&mut text)?;
    push_string(&text, line)
}

/// Appends a text with a backslash before each quotation mark and backslash.
fn push_string(text: &[u8], line: &mut Vec<u8>) -> Result<(), AllocError>
    ensures { OnOk result (line.new.items ≡ line.old.items ++ flat_map json_byte text.now) }
{
    for byte in text {
        push_byte(*byte, line)?;
    }
    Ok(())
}

/// Appends a byte of a string.
fn push_byte(byte: u8, line: &mut Vec<u8>) -> Result<(), AllocError>
    ensures { OnOk result (line.new.items ≡ line.old.items ++ json_byte byte) }
{
    if byte == b'"' || byte == b'\\' {
        line.extend_from_slice(&[b'\\', byte])
    } else {
        line.extend_from_slice(&[byte])
    }
}

/// The replica that an entry is copied to.
fn target_text(reason: Reason) -> &'static [u8]
    ensures { result.now ≡ target_text reason }
{
    match reason.source() {
        Some(Side::First) => b"\"second\"",
        Some(Side::Second) => b"\"first\"",
        None => b"null",
    }
}

/// Appends what a replica has.
fn push_state(state: &State, line: &mut Vec<u8>) -> Result<(), AllocError>
    ensures { OnOk result (line.new.items ≡ line.old.items ++ json_state state.now) }
{
    push_text(b"{\"change\":\"", state.change.word(), line)?;
    push_field(b"\",\"files\":", state.files as u64, line)?;
    push_field(b",\"bytes\":", state.bytes, line)?;
    line.extend_from_slice(b"}")
}

/// Appends a name and a text.
fn push_text(name: &[u8], text: &[u8], line: &mut Vec<u8>) -> Result<(), AllocError>
    ensures { OnOk result (line.new.items ≡ line.old.items ++ name.now ++ text.now) }
{
    line.extend_from_slice(name)?;
    line.extend_from_slice(text)
}

/// Appends the totals, an object.
pub(crate) fn push_total(totals: &Totals, line: &mut Vec<u8>) -> Result<(), AllocError>
    ensures { OnOk result (line.new.items ≡ line.old.items ++ json_total totals.now) }
{
    push_copied(totals, line)?;
    push_rest(totals, line)?;
    push_losses(totals, line)
}

/// Appends how many entries there are, and how many go where.
fn push_copied(totals: &Totals, line: &mut Vec<u8>) -> Result<(), AllocError>
    ensures { OnOk result (line.new.items ≡ line.old.items ++ json_copied totals.now) }
{
    push_field(b"{\"entries\":", totals.entries as u64, line)?;
    push_field(b",\"to_first\":", totals.to_first as u64, line)?;
    push_field(b",\"to_second\":", totals.to_second as u64, line)?;
    Ok(())
}

/// Appends how many aren't copied.
fn push_rest(totals: &Totals, line: &mut Vec<u8>) -> Result<(), AllocError>
    ensures { OnOk result (line.new.items ≡ line.old.items ++ json_rest totals.now) }
{
    push_field(b",\"agreed\":", totals.agreed as u64, line)?;
    push_field(b",\"conflicts\":", totals.conflicts as u64, line)?;
    push_field(b",\"held\":", totals.held as u64, line)?;
    Ok(())
}

/// Appends how many files each replica loses.
fn push_losses(totals: &Totals, line: &mut Vec<u8>) -> Result<(), AllocError>
    ensures { OnOk result (line.new.items ≡ line.old.items ++ json_losses totals.now) }
{
    push_field(b",\"lost_in_first\":", totals.lost_in_first, line)?;
    push_field(b",\"lost_in_second\":", totals.lost_in_second, line)?;
    line.extend_from_slice(b"}")?;
    Ok(())
}
