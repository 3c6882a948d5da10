//! Which actions wait for which.

ghost use Rattle.std.specs.Prelude.{◌≡◌, ◌≤◌, ◌↔◌, ℕ, length, Contains, IsTrue, IfSome, IfNone};
ghost use Rattle.ts_check.specs.Places.{IsFirst, IsIndex, Never, kind_of};
ghost use Rattle.ts_check.specs.Nearest.{IsNearestIndex};
ghost use Rattle.ts_check.specs.Pieces.{AreAllPieces};
ghost use Rattle.ts_check.specs.Waiting.{HasBadPreds, IsLinked, LacksCommit, LacksDir, LacksLink, LacksPiece, LacksVia};
ghost use Rattle.ts_check.specs.declared.census.Role.TheVariants.{Commits, Marks};
ghost use Rattle.ts_model.specs.Plans.{AscendBelow, IsOutOfOrder, KindIs, Waits, action_limit, entry_limit};
ghost use Rattle.ts_model.specs.declared.plan.Kind.TheVariants.{Mark};

use crate::census::NO_ACTION;
use crate::finding::first_where;
use crate::lists::Lists;
use std::thread::Threads;
use ts_model::packed::KindRef;
use ts_model::plan::Plan;

/// Whether the numbers strictly ascend and are below `n`.
fn ascends_below(numbers: &[u32], n: usize) -> bool
    ensures { IsTrue result ↔ AscendBelow n numbers.now }
{
    let mut low: usize = 0;
    for number in numbers {
        let number = *number as usize;
        if number < low || number >= n {
            return false;
        }
        low = number + 1;
    }
    true
}

/// Whether the predecessors of action `i` don't ascend, or aren't all before it.
fn has_bad_preds(plan: &Plan, i: usize) -> bool
    ensures { IsTrue result ↔ HasBadPreds plan.now i }
{
    match plan.actions.as_slice().get(i) {
        Some(action) => !ascends_below(action.preds(), i),
        None => false,
    }
}

/// The first action whose predecessors don't ascend, or aren't all before it.
pub fn first_bad_preds(rt: &(impl Threads + Sync), plan: &Plan) -> Option<usize>
    ensures { IsFirst (HasBadPreds plan.now) result }
{
    let count = plan.actions.as_slice().len();
    first_where(
        rt,
        count,
        |i: &usize| -> bool
            ensures { IsTrue result ↔ HasBadPreds plan.entry.now i.now }
        { has_bad_preds(plan, *i) },
    )
}

/// Whether action `i` waits for action `j`.
pub fn waits(plan: &Plan, i: usize, j: u32) -> bool
    requires { Never (HasBadPreds plan.now) }
    ensures { IsTrue result ↔ Waits plan.now i j }
{
    let actions = plan.actions.as_slice();
    i < actions.len() && actions[i].preds().binary_search(&j).is_ok()
}

/// Whether action `i` doesn't wait for each of these.
fn lacks_some(plan: &Plan, i: usize, numbers: &[u32]) -> bool
    requires { Never (HasBadPreds plan.now) }
    ensures { IsTrue result ↔ ((k : ℕ) × Contains numbers.now k × (¬ Waits plan.now i k)) }
{
    for number in numbers {
        if !waits(plan, i, *number) {
            return true;
        }
    }
    false
}

/// Whether action `i` is a commit that doesn't wait for some piece of its entry.
fn lacks_piece(plan: &Plan, pieces: &Lists, i: usize) -> bool
    requires ascending { Never (HasBadPreds plan.now) }
    requires pieces { AreAllPieces plan.now pieces.now }
    ensures { IsTrue result ↔ LacksPiece plan.now i }
{
    let Some(action) = plan.actions.as_slice().get(i) else {
        return false;
    };
    let KindRef::Commit { entry } = action.kind() else {
        return false;
    };
    lacks_some(plan, i, pieces.list(entry as usize))
}

/// The first commit that doesn't wait for some piece of its entry.
pub fn first_without_piece(rt: &(impl Threads + Sync), plan: &Plan, pieces: &Lists) -> Option<usize>
    requires ascending { Never (HasBadPreds plan.now) }
    requires pieces { AreAllPieces plan.now pieces.now }
    ensures { IsFirst (LacksPiece plan.now) result }
{
    let count = plan.actions.as_slice().len();
    first_where(
        rt,
        count,
        |i: &usize| -> bool
            requires { Never (HasBadPreds plan.now) × AreAllPieces plan.now pieces.now }
            ensures { IsTrue result ↔ LacksPiece plan.entry.now i.now }
        { lacks_piece(plan, pieces, *i) },
    )
}

/// Whether action `i` doesn't wait for the action that stands at this entry.
fn lacks_link(plan: &Plan, links: &[u32], e: usize, i: usize) -> bool
    requires { Never (HasBadPreds plan.now) }
    ensures { IsTrue result ↔ ((j : ℕ) × IsLinked links.now e j × (¬ Waits plan.now i j)) }
{
    e < links.len() && links[e] != NO_ACTION && !waits(plan, i, links[e])
}

/// The entry of a mark; none for another action.
fn mark_entry(plan: &Plan, i: usize) -> Option<u32>
    ensures some { IfSome result (λ e. KindIs plan.now i (Mark e)) }
    ensures none { IfNone result ((e : ℕ) → ¬ KindIs plan.now i (Mark e)) }
{
    let action = plan.actions.as_slice().get(i)?;
    match action.kind() {
        KindRef::Mark { entry } => Some(entry),
        _ => None,
    }
}

/// Whether action `i` is a mark that doesn't wait for the action that stands at its entry.
fn lacks_its_link(plan: &Plan, links: &[u32], i: usize) -> bool
    requires { Never (HasBadPreds plan.now) }
    ensures { IsTrue result ↔ LacksLink plan.now links.now i }
{
    match mark_entry(plan, i) {
        Some(entry) => lacks_link(plan, links, entry as usize, i),
        None => false,
    }
}

/// The first mark that doesn't wait for the commit of its entry.
pub fn first_without_commit(
    rt: &(impl Threads + Sync),
    plan: &Plan,
    commits: &[u32],
) -> Option<usize>
    requires few { length plan.now.actions ≤ action_limit }
    requires ascending { Never (HasBadPreds plan.now) }
    requires index { IsIndex plan.now (kind_of Commits) (length plan.now.actions) commits.now }
    ensures { IsFirst (LacksCommit plan.now) result }
{
    let count = plan.actions.as_slice().len();
    first_where(
        rt,
        count,
        |i: &usize| -> bool
            requires { Never (HasBadPreds plan.now) }
            ensures { IsTrue result ↔ LacksLink plan.entry.now commits.entry.now i.now }
        { lacks_its_link(plan, commits, *i) },
    )
}

/// Whether action `i` doesn't wait for the mark of the new directory nearest above an entry.
fn lacks_dir(plan: &Plan, nearest: &[u32], marks: &[u32], e: usize, i: usize) -> bool
    requires { Never (HasBadPreds plan.now) }
    ensures { IsTrue result ↔ ((d j : ℕ) × IsLinked nearest.now e d × IsLinked marks.now d j × (¬ Waits plan.now i j)) }
{
    e < nearest.len() && nearest[e] != NO_ACTION && lacks_link(plan, marks, nearest[e] as usize, i)
}

/// Whether action `i` is a mark that doesn't wait for the mark of the new directory nearest above its entry.
fn lacks_its_dir(plan: &Plan, nearest: &[u32], marks: &[u32], i: usize) -> bool
    requires { Never (HasBadPreds plan.now) }
    ensures { IsTrue result ↔ LacksVia plan.now nearest.now marks.now i }
{
    match mark_entry(plan, i) {
        Some(entry) => lacks_dir(plan, nearest, marks, entry as usize, i),
        None => false,
    }
}

/// The first mark that doesn't wait for the mark of the new directory nearest above its entry.
pub fn first_without_dir(
    rt: &(impl Threads + Sync),
    plan: &Plan,
    nearest: &[u32],
    marks: &[u32],
) -> Option<usize>
    requires actions { length plan.now.actions ≤ action_limit }
    requires entries { length plan.now.entries ≤ entry_limit }
    requires ascending { Never (HasBadPreds plan.now) }
    requires order { Never (IsOutOfOrder plan.now.entries) }
    requires index { IsIndex plan.now (kind_of Marks) (length plan.now.actions) marks.now }
    requires dirs { (length nearest.now ≡ length plan.now.entries) × IsNearestIndex plan.now.entries nearest.now }
    ensures { IsFirst (LacksDir plan.now) result }
{
    let count = plan.actions.as_slice().len();
    first_where(
        rt,
        count,
        |i: &usize| -> bool
            requires { Never (HasBadPreds plan.now) }
            ensures { IsTrue result ↔ LacksVia plan.entry.now nearest.entry.now marks.entry.now i.now }
        { lacks_its_dir(plan, nearest, marks, *i) },
    )
}
