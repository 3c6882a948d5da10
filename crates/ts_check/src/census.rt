//! Which entry has which commit and which mark: each entry that wants one has one.

ghost use Rattle.std.specs.Prelude.{◌≡◌, ◌≢◌, ◌≤◌, ◌<◌, ◌↔◌, ◌+◌, ℕ, length, replicate, slice_get, IsTrue, IfSome, IfNone, IfOk};
ghost use Rattle.std.specs.Prelude.{IfErr, MatchOption, MatchResult, Some};
ghost use Rattle.ts_check.specs.Places.{IsFirst, IsIndex, IsUnmet, IsWanted, NotOneOf, kind_of, no_action, IsWholeIndex};
ghost use Rattle.ts_model.specs.Plans.{entry_limit, action_limit};

use std::alloc::{AllocError, Global};
use ts_model::packed::{KindRef, PackedAction};
use ts_model::plan::{Entry, Plan, Reason};

/// What an entry may have one of.
#[derive(Clone, Copy)]
pub enum Role {
    Commits,
    Marks,
}

/// Stands in an index where an entry has no such action.
pub const NO_ACTION: u32 = u32::MAX;

impl Role {
    /// The entry that an action of this role is for.
    pub fn entry_of(self, action: &PackedAction) -> Option<u32>
        ensures some { IfSome result (λ e. action.now.kind ≡ kind_of self e) }
        ensures none { IfNone result ((e : ℕ) → action.now.kind ≢ kind_of self e) }
    {
        match (self, action.kind()) {
            (Role::Commits, KindRef::Commit { entry }) => Some(entry),
            (Role::Marks, KindRef::Mark { entry }) => Some(entry),
            _ => None,
        }
    }

    /// Whether an entry with this reason is to have such an action.
    pub fn is_wanted(self, reason: Reason) -> bool
        ensures { IsTrue result ↔ IsWanted self reason }
    {
        match self {
            Role::Commits => reason.source().is_some(),
            Role::Marks => !reason.is_skipped(),
        }
    }
}

/// Whether the entry wants an action of this role and has none yet.
fn is_unmet(entries: &[Entry], role: Role, numbers: &[u32], e: usize) -> bool
    requires { length numbers.now ≡ length entries.now }
    ensures { IsTrue result ↔ IsUnmet entries.now role numbers.now e }
{
    e < entries.len() && role.is_wanted(entries[e].reason) && numbers[e] == NO_ACTION
}

/// Writes the number of each action of this role at its entry, up to one that is unwanted or comes twice.
fn fill(plan: &Plan, role: Role, numbers: &mut Vec<u32>) -> Option<usize>
    requires few { length plan.now.actions ≤ action_limit }
    requires fresh { numbers.old.items ≡ replicate (length plan.now.entries) no_action }
    ensures index { IfNone result (IsIndex plan.now (kind_of role) (length plan.now.actions) numbers.new.items) }
    ensures right { IfNone result ((k : ℕ) → k < length plan.now.actions → ¬ NotOneOf plan.now role k) }
    ensures wrong { IfSome result (λ k. (k < length plan.now.actions) × IsFirst (NotOneOf plan.now role) (Some k)) }
{
    let entries = plan.entries.as_slice();
    for (i, action) in plan.actions.as_slice().iter().enumerate() {
        if let Some(entry) = role.entry_of(action) {
            let e = entry as usize;
            if !is_unmet(entries, role, numbers, e) {
                return Some(i);
            }
            numbers[e] = i as u32;
        }
    }
    None
}

/// The first entry that wants an action of this role and has none.
fn first_unmet(entries: &[Entry], role: Role, numbers: &[u32]) -> Option<usize>
    requires { length numbers.now ≡ length entries.now }
    ensures { IsFirst (IsUnmet entries.now role numbers.now) result }
{
    for e in 0..entries.len() {
        if is_unmet(entries, role, numbers, e) {
            return Some(e);
        }
    }
    None
}

/// The number of each entry's action of this role, or the first place where not just each entry that wants one has one.
pub fn one_each(alloc: Global, plan: &Plan, role: Role) -> Result<Result<Vec<u32>, u64>, AllocError>
    requires entries { length plan.now.entries ≤ entry_limit }
    requires actions { length plan.now.actions ≤ action_limit }
    ensures index { IfOk result (λ found. IfOk found (λ numbers. IsWholeIndex plan.now role numbers.items)) }
    ensures wrong { IfOk result (λ found. IfErr found (λ place. IsFirst (NotOneOf plan.now role) (Some place))) }
{
    let entries = plan.entries.as_slice();
    let mut numbers = vec![in alloc; NO_ACTION; entries.len()]?;
    if let Some(i) = fill(plan, role, &mut numbers) {
        return Ok(Err(i as u64));
    }
    match first_unmet(entries, role, &numbers) {
        Some(e) => Ok(Err((plan.actions.as_slice().len() + e) as u64)),
        None => Ok(Ok(numbers)),
    }
}
