//! A preview's lines for people.
ghost use Rattle.std.specs.Prelude.{◌≡◌, ◌++◌, OnOk};
ghost use Rattle.ts_preview.specs.People.{amount, amount_text, change_shown, colour, coloured_line, copied, copied_colour};
ghost use Rattle.ts_preview.specs.People.{details, losses, not_copied, people_line, people_total, place_column, place_word, why};

use crate::change::Change;
use crate::field::push_field;
use crate::outlook::{Outlook, State};
use crate::padding::{push_left, push_number, push_right};
use crate::shown::push_shown;
use crate::totals::Totals;
use std::alloc::{AllocError, Global};
use ts_model::plan::{Reason, Side, Treatment};

/// What stands above the columns.
pub(crate) const HEAD: &[u8] =
    b"what       change                    files             bytes  path";

const RED: &[u8] = b"\x1b[31m";

const GREEN: &[u8] = b"\x1b[32m";

const YELLOW: &[u8] = b"\x1b[33m";

const CYAN: &[u8] = b"\x1b[36m";

/// The terminal's own colour again.
const PLAIN: &[u8] = b"\x1b[0m";

/// Appends the line of an entry: where it goes, what becomes of it, how many files and bytes, and its path.
pub(crate) fn push_outlook(
    alloc: Global,
    outlook: &Outlook<'_>,
    line: &mut Vec<u8>,
) -> Result<(), AllocError>
    ensures { OnOk result (line.new.items ≡ line.old.items ++ people_line outlook.now) }
{
    push_place(outlook, line)?;
    push_details(alloc, outlook, line)
}

/// The same, with where it goes in a colour.
pub(crate) fn push_coloured(
    alloc: Global,
    outlook: &Outlook<'_>,
    line: &mut Vec<u8>,
) -> Result<(), AllocError>
    ensures { OnOk result (line.new.items ≡ line.old.items ++ coloured_line outlook.now) }
{
    line.extend_from_slice(colour(outlook))?;
    push_place(outlook, line)?;
    line.extend_from_slice(PLAIN)?;
    push_details(alloc, outlook, line)
}

/// The colour of where an entry goes.
fn colour(outlook: &Outlook<'_>) -> &'static [u8]
    ensures { result.now ≡ colour outlook.now }
{
    match outlook.reason {
        Reason::First | Reason::Second => copied_colour(outlook.change),
        Reason::Same | Reason::Dir => b"",
        Reason::Conflict => YELLOW,
        Reason::Held => CYAN,
    }
}

/// The colour of what is copied: red where something is deleted by it.
fn copied_colour(change: Change) -> &'static [u8]
    ensures { result.now ≡ copied_colour change }
{
    match change {
        Change::Deleted => RED,
        Change::Unchanged
        | Change::New
        | Change::Changed
        | Change::BecameDirectory
        | Change::BecameFile => GREEN,
    }
}

/// Appends where an entry goes.
fn push_place(outlook: &Outlook<'_>, line: &mut Vec<u8>) -> Result<(), AllocError>
    ensures { OnOk result (line.new.items ≡ line.old.items ++ place_column outlook.now) }
{
    push_left(line, place_word(outlook.reason), 11)
}

/// Appends what stands behind that.
fn push_details(alloc: Global, outlook: &Outlook<'_>, line: &mut Vec<u8>) -> Result<(), AllocError>
    ensures { OnOk result (line.new.items ≡ line.old.items ++ details outlook.now) }
{
    push_left(line, change_shown(outlook), 22)?;
    push_amount(amount(outlook), line)?;
    let mut text = Vec::new(alloc);
    outlook.path.write_text(&mut text)?;
    push_shown(&text, line)?;
    push_why(outlook, line)
}

/// Where an entry goes, or why it stays.
fn place_word(reason: Reason) -> &'static [u8]
    ensures { result.now ≡ place_word reason }
{
    match reason {
        Reason::First => b"to second",
        Reason::Second => b"to first",
        Reason::Same | Reason::Dir => b"agreed",
        Reason::Conflict => b"conflict",
        Reason::Held => b"held",
    }
}

/// What becomes of an entry's path; of one on which both replicas agree, what became of it in both.
fn change_shown(outlook: &Outlook<'_>) -> &'static [u8]
    ensures { result.now ≡ change_shown outlook.now }
{
    match outlook.reason.treatment() {
        Treatment::Copied(_) => outlook.change.word(),
        Treatment::Agreed | Treatment::NewDirectory => outlook.first.change.word(),
        Treatment::Skipped => b"-",
    }
}

/// What is copied, or deleted, by an entry.
fn amount(outlook: &Outlook<'_>) -> Option<State>
    ensures { result ≡ amount outlook.now }
{
    let from = outlook.reason.source()?;
    let side = match outlook.change {
        Change::Deleted => from.other(),
        Change::Unchanged
        | Change::New
        | Change::Changed
        | Change::BecameDirectory
        | Change::BecameFile => from,
    };
    Some(match side {
        Side::First => outlook.first,
        Side::Second => outlook.second,
    })
}

/// Appends how many files and bytes that are.
fn push_amount(amount: Option<State>, line: &mut Vec<u8>) -> Result<(), AllocError>
    ensures { OnOk result (line.new.items ≡ line.old.items ++ amount_text amount) }
{
    match amount {
        Some(state) => {
            push_number(line, state.files as u64, 9)?;
            push_number(line, state.bytes, 18)?;
        }
        None => {
            push_right(line, b"-", 9)?;
            push_right(line, b"-", 18)?;
        }
    }
    line.extend_from_slice(b"  ")
}

/// Appends what changed on each side, of an entry that is skipped.
fn push_why(outlook: &Outlook<'_>, line: &mut Vec<u8>) -> Result<(), AllocError>
    ensures { OnOk result (line.new.items ≡ line.old.items ++ why outlook.now) }
{
    if outlook.reason.is_skipped() {
        line.extend_from_slice(b" (first ")?;
        line.extend_from_slice(outlook.first.change.word())?;
        line.extend_from_slice(b", second ")?;
        line.extend_from_slice(outlook.second.change.word())?;
        line.push(b')')?;
    }
    Ok(())
}

/// Appends the totals.
pub(crate) fn push_total(totals: &Totals, line: &mut Vec<u8>) -> Result<(), AllocError>
    ensures { OnOk result (line.new.items ≡ line.old.items ++ people_total totals.now) }
{
    push_copied(totals, line)?;
    push_rest(totals, line)?;
    push_losses(totals, line)
}

/// Appends how many entries there are, and how many go where.
fn push_copied(totals: &Totals, line: &mut Vec<u8>) -> Result<(), AllocError>
    ensures { OnOk result (line.new.items ≡ line.old.items ++ copied totals.now) }
{
    push_field(b"total ", totals.entries as u64, line)?;
    push_field(b": to first ", totals.to_first as u64, line)?;
    push_field(b", to second ", totals.to_second as u64, line)?;
    Ok(())
}

/// Appends how many aren't copied.
fn push_rest(totals: &Totals, line: &mut Vec<u8>) -> Result<(), AllocError>
    ensures { OnOk result (line.new.items ≡ line.old.items ++ not_copied totals.now) }
{
    push_field(b", agreed ", totals.agreed as u64, line)?;
    push_field(b", conflicts ", totals.conflicts as u64, line)?;
    push_field(b", held ", totals.held as u64, line)?;
    Ok(())
}

/// Appends how many files each replica loses.
fn push_losses(totals: &Totals, line: &mut Vec<u8>) -> Result<(), AllocError>
    ensures { OnOk result (line.new.items ≡ line.old.items ++ losses totals.now) }
{
    push_field(b"; files lost in first ", totals.lost_in_first, line)?;
    push_field(b", in second ", totals.lost_in_second, line)
}
