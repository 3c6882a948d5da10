//! The pieces: each is lawful, and each lawful one stands once.

ghost use Rattle.std.specs.Prelude.{◌≡◌, ◌≢◌, ◌≤◌, ◌<◌, ◌↔◌, ℕ, length, IsTrue, IsSome, IfSome, IfNone, IfOk, IfErr, Some, None, false, []};
ghost use Rattle.ts_check.specs.Pieces.{AreInOrder, HasAll, HasAllBelow, HasNoRoot, IsListOfAll, IsListOfEach, IsPieceIn, IsReady, IsRowOf, IsSourceOf, IsUnlawful};
ghost use Rattle.ts_check.specs.Pieces.{IsStagedMap, LacksBelow, LacksRange, LacksSome, NotEachOnce, IsSizeOf};
ghost use Rattle.ts_check.specs.Places.{IsFirst, Never};
ghost use Rattle.ts_model.specs.Plans.{EntryIs, IsCopied, IsRange, action_limit, entry_limit};
ghost use Rattle.ts_model.specs.Trees.{IsListing};
ghost use Rattle.ts_model.specs.declared.plan.Entry.{Entry};
ghost use Rattle.ts_name.specs.Paths.{IsAbove};

use crate::finding::first_where;
use crate::order::row_of;
use crate::standing::{Place, Staged, staged, stands_at};
use std::alloc::{AllocError, Global};
use std::thread::Threads;
use ts_model::packed::KindRef;
use ts_model::plan::{PIECE_SIZE, Plan, Side};
use ts_model::row::{Content, Row, Stamp};
use ts_name::Path;

/// Whether a piece of a file of this size begins here and has this length.
fn is_range(size: u64, offset: u64, length: u64) -> bool
    ensures { IsTrue result ↔ IsRange size offset length }
{
    offset % PIECE_SIZE == 0 && offset < size && length == PIECE_SIZE.min(size - offset)
}

/// A row of each side where a look begins.
#[derive(Clone, Copy)]
pub struct Near {
    first: usize,
    second: usize,
}

impl Near {
    /// As far into the rows as number `i` is among as many. Where paths come in order, a look that begins there isn't long.
    pub fn new(first: &[Row<Stamp>], second: &[Row<Stamp>], i: usize, count: usize) -> Near {
        Near {
            first: share(first.len(), i, count),
            second: share(second.len(), i, count),
        }
    }

    /// The row of a side.
    pub fn at(&self, side: Side) -> usize {
        match side {
            Side::First => self.first,
            Side::Second => self.second,
        }
    }
}

/// As far into the rows as number `i` is among as many.
fn share(rows: usize, i: usize, count: usize) -> usize {
    rows.saturating_mul(i) / count.max(1)
}

/// The side that an entry is copied from, and its rows.
pub fn source_of<'a>(
    plan: &Plan,
    first: &'a [Row<Stamp>],
    second: &'a [Row<Stamp>],
    e: usize,
) -> Option<(Side, &'a [Row<Stamp>])>
    ensures some { IfSome result (λ found. IsSourceOf first.entry.now second.entry.now plan.entry.now e found.1.now) }
    ensures none { IfNone result (¬ IsCopied plan.entry.now e) }
{
    let entries = plan.entries.as_slice();
    if e >= entries.len() {
        return None;
    }
    match entries[e].reason.source()? {
        Side::First => Some((Side::First, first)),
        Side::Second => Some((Side::Second, second)),
    }
}

/// The size of the file in a row, if one is there.
fn file_size(row: &Row<Stamp>) -> Option<u64>
    ensures { IsSizeOf row.now.content result }
{
    match &row.content {
        Content::File(stamp) => Some(stamp.size),
        _ => None,
    }
}

/// Whether a path is that of an entry, or below it.
fn is_below_entry(plan: &Plan, e: usize, path: &Path) -> bool
    ensures { IsTrue result ↔ ((entry : Entry) × EntryIs plan.now e entry × IsAbove entry.path path.now) }
{
    let entries = plan.entries.as_slice();
    e < entries.len() && entries[e].path.is_prefix(path)
}

/// Whether this is a lawful piece.
fn is_piece(
    plan: &Plan,
    first: &[Row<Stamp>],
    second: &[Row<Stamp>],
    near: Near,
    e: usize,
    offset: u64,
    length: u64,
    path: &Path,
) -> bool
    requires first { IsListing first.now }
    requires second { IsListing second.now }
    ensures { IsTrue result ↔ IsPieceIn first.now second.now plan.now e offset length path.now }
{
    let Some((side, rows)) = source_of(plan, first, second, e) else {
        return false;
    };
    let Some(row) = row_of(rows, near.at(side), path) else {
        return false;
    };
    let Some(size) = file_size(&rows[row]) else {
        return false;
    };
    is_below_entry(plan, e, path) && is_range(size, offset, length)
}

/// Whether action `i` is a piece that isn't lawful.
fn is_unlawful(plan: &Plan, first: &[Row<Stamp>], second: &[Row<Stamp>], i: usize) -> bool
    requires first { IsListing first.now }
    requires second { IsListing second.now }
    ensures { IsTrue result ↔ IsUnlawful first.now second.now plan.now i }
{
    let actions = plan.actions.as_slice();
    let Some(action) = actions.get(i) else {
        return false;
    };
    let KindRef::Piece {
        entry,
        offset,
        length,
        path,
    } = action.kind()
    else {
        return false;
    };
    let near = Near::new(first, second, i, actions.len());
    !is_piece(
        plan,
        first,
        second,
        near,
        entry as usize,
        offset,
        length,
        path,
    )
}

/// The first piece that isn't lawful.
pub fn first_unlawful(
    rt: &(impl Threads + Sync),
    plan: &Plan,
    first: &[Row<Stamp>],
    second: &[Row<Stamp>],
) -> Option<usize>
    requires first { IsListing first.now }
    requires second { IsListing second.now }
    ensures { IsFirst (IsUnlawful first.now second.now plan.now) result }
{
    let count = plan.actions.as_slice().len();
    first_where(
        rt,
        count,
        |i: &usize| -> bool
            requires { IsListing first.now × IsListing second.now }
            ensures { IsTrue result ↔ IsUnlawful first.entry.now second.entry.now plan.entry.now i.now }
        { is_unlawful(plan, first, second, *i) },
    )
}

/// Whether each range of a file of this size is staged, for the entry and the row.
fn has_all(staged: &[(Place, u32)], e: u32, row: usize, size: u64) -> bool
    requires { AreInOrder staged.now }
    ensures all { IsTrue result → HasAll staged.now e row size }
    ensures lacking { result ≡ false → LacksRange staged.now e row size }
{
    let mut offset: u64 = 0;
    while offset < size {
        if !stands_at(staged, &(e, (row, offset))) {
            return false;
        }
        if size - offset <= PIECE_SIZE {
            return true;
        }
        offset += PIECE_SIZE;
    }
    true
}

/// Whether each file at a path or below it has all its pieces of an entry. The look for its row begins at `near`.
fn is_staged(top: &Path, rows: &[Row<Stamp>], near: usize, staged: &[(Place, u32)], e: u32) -> bool
    requires listing { IsListing rows.now }
    requires some { top.now ≢ [] }
    requires order { AreInOrder staged.now }
    ensures all { IsTrue result → HasAllBelow top.now rows.now staged.now e }
    ensures lacking { result ≡ false → LacksBelow top.now rows.now staged.now e }
{
    let Some(start) = row_of(rows, near, top) else {
        return true;
    };
    for k in start..rows.len() {
        let row = &rows[k];
        if !top.is_prefix(&row.path) {
            return true;
        }
        if let Some(size) = file_size(row) {
            if !has_all(staged, e, k, size) {
                return false;
            }
        }
    }
    true
}

/// Whether a lawful piece of entry `e` isn't staged.
fn is_unstaged(
    plan: &Plan,
    first: &[Row<Stamp>],
    second: &[Row<Stamp>],
    staged: &[(Place, u32)],
    e: usize,
) -> bool
    requires few { length plan.now.entries ≤ entry_limit }
    requires first { IsListing first.now }
    requires second { IsListing second.now }
    requires places { HasNoRoot plan.now }
    requires staged { IsStagedMap first.now second.now plan.now (length plan.now.actions) staged.now }
    requires order { AreInOrder staged.now }
    ensures { IsTrue result ↔ LacksSome first.now second.now plan.now e }
{
    let entries = plan.entries.as_slice();
    let Some(entry) = entries.get(e) else {
        return false;
    };
    let Some((side, rows)) = source_of(plan, first, second, e) else {
        return false;
    };
    let near = Near::new(first, second, e, entries.len());
    !is_staged(&entry.path, rows, near.at(side), staged, e as u32)
}

/// The first entry of which a lawful piece isn't staged.
fn first_unstaged(
    rt: &(impl Threads + Sync),
    plan: &Plan,
    first: &[Row<Stamp>],
    second: &[Row<Stamp>],
    staged: &[(Place, u32)],
) -> Option<usize>
    requires few { length plan.now.entries ≤ entry_limit }
    requires first { IsListing first.now }
    requires second { IsListing second.now }
    requires places { HasNoRoot plan.now }
    requires staged { IsStagedMap first.now second.now plan.now (length plan.now.actions) staged.now }
    requires order { AreInOrder staged.now }
    ensures { IsFirst (LacksSome first.now second.now plan.now) result }
{
    let count = plan.entries.as_slice().len();
    first_where(
        rt,
        count,
        |e: &usize| -> bool
            requires { IsReady first.now second.now plan.now staged.now }
            ensures { IsTrue result ↔ LacksSome first.entry.now second.entry.now plan.entry.now e.now }
        { is_unstaged(plan, first, second, staged, *e) },
    )
}

/// The place of each piece, or the first piece that stands again; or, in their stead, the first that isn't lawful.
pub fn stage(
    rt: &(impl Threads + Sync),
    alloc: Global,
    plan: &Plan,
    first: &[Row<Stamp>],
    second: &[Row<Stamp>],
) -> Result<Result<Result<Staged, u64>, u64>, AllocError>
    requires actions { length plan.now.actions ≤ action_limit }
    requires first { IsListing first.now }
    requires second { IsListing second.now }
    ensures unlawful { IfOk result (λ found. IfErr found (λ place. IsFirst (IsUnlawful first.now second.now plan.now) (Some place))) }
    ensures lawful { IfOk result (λ found. IfOk found (λ _. Never (IsUnlawful first.now second.now plan.now))) }
    ensures staged { IfOk result (λ found. IfOk found (λ once. IfOk once (λ staged. IsListOfAll first.now second.now plan.now staged.items))) }
    ensures again { IfOk result (λ found. IfOk found (λ once. IfErr once (λ place. IsFirst (NotEachOnce first.now second.now plan.now) (Some place)))) }
{
    if let Some(place) = first_unlawful(rt, plan, first, second) {
        return Ok(Err(place as u64));
    }
    Ok(Ok(staged(rt, alloc, plan, first, second)?))
}

/// The place of each piece, or the first place where not each lawful piece stands once, where it is known whether one stands again.
pub fn each_once(
    rt: &(impl Threads + Sync),
    plan: &Plan,
    first: &[Row<Stamp>],
    second: &[Row<Stamp>],
    found: Result<Staged, u64>,
) -> Result<Staged, u64>
    requires actions { length plan.now.actions ≤ action_limit }
    requires entries { length plan.now.entries ≤ entry_limit }
    requires first { IsListing first.now }
    requires second { IsListing second.now }
    requires places { HasNoRoot plan.now }
    requires staged { IfOk found (λ staged. IsListOfAll first.now second.now plan.now staged.items) }
    requires again { IfErr found (λ place. IsFirst (NotEachOnce first.now second.now plan.now) (Some place)) }
    ensures staged { IfOk result (λ staged. IsListOfEach first.now second.now plan.now staged.items) }
    ensures wrong { IfErr result (λ place. IsFirst (NotEachOnce first.now second.now plan.now) (Some place)) }
{
    let staged = match found {
        Ok(staged) => staged,
        Err(place) => return Err(place),
    };
    match first_unstaged(rt, plan, first, second, &staged) {
        Some(e) => Err((plan.actions.as_slice().len() + e) as u64),
        None => Ok(staged),
    }
}
