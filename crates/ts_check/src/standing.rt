//! Where each piece stands: for which entry, in which row of its source, and at which offset.

ghost use Rattle.std.specs.BTreeMap.{IsOrdered};
ghost use Rattle.std.specs.Prelude.{◌≡◌, ◌≤◌, ◌<◌, ◌↔◌, ℕ, length, is_some, IsTrue, IfSome, IfNone, IfOk, IfErr, Some};
ghost use Rattle.ts_check.specs.Pieces.{ArePlaces, ArePlacesBetween, AreInOrder, IsListOfAll, IsMapOfAll, IsPlaceOf, IsPlacing, IsUnlawful, NotEachOnce, Place, place_cmp, staged_at};
ghost use Rattle.ts_check.specs.Places.{IsFirst, Never};
ghost use Rattle.ts_model.specs.Plans.{action_limit};
ghost use Rattle.ts_model.specs.Trees.{IsListing};

use crate::order::row_of;
use crate::pieces::{Near, source_of};
use rayon::prelude::*;
use std::alloc::{AllocError, Global};
use std::cmp::Ordering;
use std::collections::BTreeMap;
use std::thread::Threads;
use ts_model::packed::{KindRef, PackedAction};
use ts_model::plan::Plan;
use ts_model::row::{Row, Stamp};

/// An entry, a row of its source, and an offset.
pub type Place = (u32, (usize, u64));

/// The place of each piece and the number of its action, in the order of the places.
pub type Staged = Vec<(Place, u32)>;

/// Where the file of a piece stands: its entry, the row of its source, and the offset.
fn place_of(
    plan: &Plan,
    first: &[Row<Stamp>],
    second: &[Row<Stamp>],
    near: Near,
    action: &PackedAction,
) -> Option<Place>
    requires first { IsListing first.now }
    requires second { IsListing second.now }
    ensures some { IfSome result (λ place. IsPlaceOf first.now second.now plan.now action.now.kind place) }
    ensures none { IfNone result ((place : Place) → ¬ IsPlaceOf first.now second.now plan.now action.now.kind place) }
{
    let KindRef::Piece {
        entry,
        offset,
        path,
        ..
    } = action.kind()
    else {
        return None;
    };
    let (side, rows) = source_of(plan, first, second, entry as usize)?;
    let row = row_of(rows, near.at(side), path)?;
    Some((entry, (row, offset)))
}

/// The place of action `i` beside its number, if it is a piece.
fn placed(
    plan: &Plan,
    first: &[Row<Stamp>],
    second: &[Row<Stamp>],
    i: usize,
) -> Option<(Place, u32)>
    requires first { IsListing first.now }
    requires second { IsListing second.now }
    requires few { length plan.now.actions ≤ action_limit }
    ensures { IsPlacing first.now second.now plan.now i result }
{
    let actions = plan.actions.as_slice();
    let Some(action) = actions.get(i) else {
        return None;
    };
    let near = Near::new(first, second, i, actions.len());
    let Some(place) = place_of(plan, first, second, near, action) else {
        return None;
    };
    Some((place, i as u32))
}

/// How many actions are looked at in one go.
const BLOCK: usize = 65_536;

/// The place of each piece among the actions from one number on and before another, in their order. Several threads look for them.
fn places_between(
    rt: &(impl Threads + Sync),
    alloc: Global,
    plan: &Plan,
    first: &[Row<Stamp>],
    second: &[Row<Stamp>],
    from: usize,
    to: usize,
) -> Result<Staged, AllocError>
    requires first { IsListing first.now }
    requires second { IsListing second.now }
    requires few { length plan.now.actions ≤ action_limit }
    requires between { from ≤ to }
    ensures { IfOk result (λ staged. ArePlacesBetween first.now second.now plan.now from to staged.items) }
{
    (from..to)
        .into_par_iter()
        .filter_map(
            |i: usize| -> Option<(Place, u32)>
                requires { IsListing first.now × IsListing second.now × (length plan.now.actions ≤ action_limit) }
                ensures { IsPlacing first.entry.now second.entry.now plan.entry.now i result }
            { placed(plan, first, second, i) },
        )
        .collect(rt, alloc)
}

/// The place of each piece, in the order of the actions. The threads look at one block of them after another, so that no long list
/// of theirs is freed: a C library would keep the memory of lists as long from then on (`ts_model::lists`).
fn places(
    rt: &(impl Threads + Sync),
    alloc: Global,
    plan: &Plan,
    first: &[Row<Stamp>],
    second: &[Row<Stamp>],
) -> Result<Staged, AllocError>
    requires first { IsListing first.now }
    requires second { IsListing second.now }
    requires few { length plan.now.actions ≤ action_limit }
    ensures { IfOk result (λ staged. ArePlaces first.now second.now plan.now staged.items) }
{
    let count = plan.actions.as_slice().len();
    let mut staged = Vec::with_capacity(alloc, count)?;
    let mut from = 0;
    while from < count {
        let to = from + BLOCK.min(count - from);
        let mut more = places_between(rt, alloc, plan, first, second, from, to)?;
        staged.append(&mut more)?;
        from = to;
    }
    Ok(staged)
}

/// Whether each place comes before the next.
fn are_in_order(staged: &[(Place, u32)]) -> bool
    ensures { IsTrue result → AreInOrder staged.now }
{
    for k in 1..staged.len() {
        if staged[k - 1].0.cmp(&staged[k].0) != Ordering::Less {
            return false;
        }
    }
    true
}

/// The place of each piece, or the first piece that stands again, for pieces that don't come in the order of their places.
fn by_map(
    alloc: Global,
    plan: &Plan,
    first: &[Row<Stamp>],
    second: &[Row<Stamp>],
) -> Result<Result<BTreeMap<Place, u32>, u64>, AllocError>
    requires first { IsListing first.now }
    requires second { IsListing second.now }
    requires few { length plan.now.actions ≤ action_limit }
    requires lawful { Never (IsUnlawful first.now second.now plan.now) }
    ensures staged { IfOk result (λ found. IfOk found (λ map. IsMapOfAll first.now second.now plan.now map.entries)) }
    ensures few { IfOk result (λ found. IfOk found (λ map. length map.entries ≤ length plan.now.actions)) }
    ensures wrong { IfOk result (λ found. IfErr found (λ place. IsFirst (NotEachOnce first.now second.now plan.now) (Some place))) }
{
    let actions = plan.actions.as_slice();
    let mut map = BTreeMap::new(alloc);
    for (i, action) in actions.iter().enumerate() {
        let near = Near::new(first, second, i, actions.len());
        if let Some(place) = place_of(plan, first, second, near, action) {
            if map.insert(place, i as u32)?.is_some() {
                return Ok(Err(i as u64));
            }
        }
    }
    Ok(Ok(map))
}

/// What stands in a map, one after another.
fn listed(alloc: Global, map: &BTreeMap<Place, u32>) -> Result<Staged, AllocError>
    ensures list { IfOk result (λ staged. staged.items ≡ map.now.entries) }
    ensures ordered { IsOrdered place_cmp map.now }
{
    let mut staged = Vec::new(alloc);
    for (place, action) in map.iter() {
        staged.push((*place, *action))?;
    }
    Ok(staged)
}

/// The place of each piece, or the first piece that stands again.
pub fn staged(
    rt: &(impl Threads + Sync),
    alloc: Global,
    plan: &Plan,
    first: &[Row<Stamp>],
    second: &[Row<Stamp>],
) -> Result<Result<Staged, u64>, AllocError>
    requires first { IsListing first.now }
    requires second { IsListing second.now }
    requires few { length plan.now.actions ≤ action_limit }
    requires lawful { Never (IsUnlawful first.now second.now plan.now) }
    ensures staged { IfOk result (λ found. IfOk found (λ staged. IsListOfAll first.now second.now plan.now staged.items)) }
    ensures wrong { IfOk result (λ found. IfErr found (λ place. IsFirst (NotEachOnce first.now second.now plan.now) (Some place))) }
{
    let staged = places(rt, alloc, plan, first, second)?;
    if are_in_order(&staged) {
        return Ok(Ok(staged));
    }
    drop(staged);
    match by_map(alloc, plan, first, second)? {
        Ok(map) => Ok(Ok(listed(alloc, &map)?)),
        Err(place) => Ok(Err(place)),
    }
}

/// Whether a piece stands at a place.
pub fn stands_at(staged: &[(Place, u32)], place: &Place) -> bool
    requires { AreInOrder staged.now }
    ensures { result ≡ is_some (staged_at staged.now place.now) }
{
    staged.binary_search_by(|found| found.0.cmp(place)).is_ok()
}
