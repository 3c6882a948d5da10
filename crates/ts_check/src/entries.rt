//! The entries' order, and the nearest new directory above each.

ghost use Rattle.std.specs.Prelude.{◌≡◌, ◌≤◌, ◌<◌, ◌↔◌, ℕ, ◌+◌, length, false, IsTrue, IfOk};
ghost use Rattle.ts_check.specs.Places.{IsFirst, Never};
ghost use Rattle.ts_check.specs.Nearest.{IsDirEntry, IsEntryAbove, IsNearestIndex, IsNearestOf};
ghost use Rattle.ts_model.specs.Plans.{IsOutOfOrder, entry_limit};

use crate::census::NO_ACTION;
use crate::finding::first_where;
use crate::order::is_before;
use std::alloc::{AllocError, Global};
use std::thread::Threads;
use ts_model::plan::{Entry, Reason};

/// Whether entry `i` doesn't come after the one before it.
fn is_out_of_order(entries: &[Entry], i: usize) -> bool
    ensures { IsTrue result ↔ IsOutOfOrder entries.now i }
{
    0 < i && i < entries.len() && !is_before(&entries[i - 1].path, &entries[i].path)
}

/// The first entry that doesn't come after the one before it.
pub fn first_out_of_order(rt: &(impl Threads + Sync), entries: &[Entry]) -> Option<usize>
    ensures { IsFirst (IsOutOfOrder entries.now) result }
{
    first_where(
        rt,
        entries.len(),
        |i: &usize| -> bool
            ensures { IsTrue result ↔ IsOutOfOrder entries.entry.now i.now }
        { is_out_of_order(entries, *i) },
    )
}

/// Whether an entry is a new directory.
fn is_dir(entries: &[Entry], e: usize) -> bool
    requires { e < length entries.now }
    ensures { IsTrue result ↔ IsDirEntry entries.now e }
{
    entries[e].reason == Reason::Dir
}

/// Whether the path of entry `d` is above that of entry `e`, or the same.
fn is_entry_above(entries: &[Entry], d: usize, e: usize) -> bool
    requires above { d < length entries.now }
    requires below { e < length entries.now }
    ensures { IsTrue result ↔ IsEntryAbove entries.now d e }
{
    entries[d].path.is_prefix(&entries[e].path)
}

/// The new directory nearest above entry `i`, given that of each earlier entry.
fn nearest_of(entries: &[Entry], nearest: &[u32], i: usize) -> u32
    requires within { i < length entries.now }
    requires few { length entries.now ≤ entry_limit }
    requires ascending { Never (IsOutOfOrder entries.now) }
    requires known { (length nearest.now ≡ i) × IsNearestIndex entries.now nearest.now }
    ensures { IsNearestOf entries.now i result }
{
    if i == 0 {
        return NO_ACTION;
    }
    let mut at = if is_dir(entries, i - 1) {
        (i - 1) as u32
    } else {
        nearest[i - 1]
    };
    while at != NO_ACTION && !is_entry_above(entries, at as usize, i) {
        at = nearest[at as usize];
    }
    at
}

/// The number of the new directory nearest above each entry.
pub fn nearest_dirs(alloc: Global, entries: &[Entry]) -> Result<Vec<u32>, AllocError>
    requires few { length entries.now ≤ entry_limit }
    requires ascending { Never (IsOutOfOrder entries.now) }
    ensures { IfOk result (λ nearest. (length nearest.items ≡ length entries.now) × IsNearestIndex entries.now nearest.items) }
{
    let mut nearest = Vec::with_capacity(alloc, entries.len())?;
    for i in 0..entries.len() {
        let dir = nearest_of(entries, &nearest, i);
        nearest.push(dir)?;
    }
    Ok(nearest)
}
