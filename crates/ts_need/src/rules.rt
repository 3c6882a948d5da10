//! The two rules about reasons.

ghost use Rattle.std.specs.Prelude.{◌≡◌, ◌≢◌, ◌⊎◌, ◌↔◌, ◌≤◌, ℕ, IfOk, IsOk, IsTrue, Option, Some, None, MatchOption, slice_get};
ghost use Rattle.ts_model.specs.Plans.{IsOutOfOrder};
ghost use Rattle.ts_model.specs.Sync.{listed_snapshot};
ghost use Rattle.ts_need.specs.Merges.{MeetsEntries};
ghost use Rattle.ts_need.specs.Needs.{IsNeedAnswer, Never};

use crate::broken::Broken;
use crate::reasons::find_reason;
use std::alloc::{AllocError, Global};
use std::cmp::Ordering;
use ts_hold::Holds;
use ts_model::plan::{Entry, PlanRule, Reason};
use ts_name::Path;
use ts_print::{Print, walk3};

/// What a path and its reason are to the entry that comes next.
#[derive(Clone, Copy, Debug, PartialEq, Eq)]
enum Meeting {
    /// The entry comes before the path, and so has no reason; or it is the path with another reason.
    Wrong,
    /// The entry is the path with its reason.
    Right,
    /// The path has a reason and is no entry.
    Lacking,
    /// The path has no reason and is no entry.
    Nothing,
}

/// Compares a path and its reason with the entry of this number.
fn meet(entries: &[Entry], next: usize, path: &Path, found: Option<Reason>) -> Meeting
    ensures { MeetsEntries entries.now next path.now found result }
{
    match entries.get(next) {
        Some(entry) => match entry.path.cmp(path) {
            Ordering::Less => Meeting::Wrong,
            Ordering::Equal if is_reason(found, entry.reason) => Meeting::Right,
            Ordering::Equal => Meeting::Wrong,
            Ordering::Greater => miss(found),
        },
        None => miss(found),
    }
}

/// Whether this is the reason that was found.
fn is_reason(found: Option<Reason>, reason: Reason) -> bool
    ensures { IsTrue result ↔ (found ≡ Some reason) }
{
    match found {
        Some(other) => other == reason,
        None => false,
    }
}

/// What a path is that is no entry.
fn miss(found: Option<Reason>) -> Meeting
    ensures { MatchOption found (result ≡ Meeting.Nothing) (λ _. result ≡ Meeting.Lacking) }
{
    match found {
        Some(_) => Meeting::Lacking,
        None => Meeting::Nothing,
    }
}

/// The answer where a rule is broken.
fn broken(rule: PlanRule, place: usize) -> Option<Broken>
    ensures { (found : Broken) × (result ≡ Some found) × (found.rule ≡ rule) × (found.place ≡ place) }
{
    Some(Broken {
        rule,
        place: place as u64,
    })
}

/// The lesser of the two rules about reasons that is broken, with its least place; none where both hold.
///
/// The three prints are gone through once, beside the entries. No memory is taken.
///
/// # Errors
///
/// It never fails: the error is there for a checker that takes memory, which would have the same signature.
pub fn first_wrong(
    _alloc: Global,
    entries: &[Entry],
    archive: &Print,
    first: &Print,
    second: &Print,
    holds: &Holds,
) -> Result<Option<Broken>, AllocError>
    requires { Never (IsOutOfOrder entries.now) }
    ensures succeeds { IsOk result }
    ensures answer { IfOk result (λ found. IsNeedAnswer (listed_snapshot archive.now first.now second.now holds.now) entries.now found) }
{
    let _rules = holds.rules();
    let mut walk = walk3(archive, first, second);
    let mut holder = None;
    let mut next = 0;
    let mut lacking = None;
    while let Some(seen) = walk.next() {
        let reasoned = find_reason(&mut walk, &seen, holder, holds);
        holder = reasoned.holder;
        match meet(entries, next, seen.path, reasoned.reason) {
            Meeting::Wrong => return Ok(broken(PlanRule::ReasonsHold, next)),
            Meeting::Right => next += 1,
            Meeting::Lacking => lacking = lacking.or(Some(next)),
            Meeting::Nothing => {}
        }
    }
    if next < entries.len() {
        return Ok(broken(PlanRule::ReasonsHold, next));
    }
    match lacking {
        Some(place) => Ok(broken(PlanRule::EntriesComplete, place)),
        None => Ok(None),
    }
}
