//! What an action is, and the entry that it is for.

ghost use Rattle.std.specs.Prelude.{ℕ, IfNone, IfSome};
ghost use Rattle.ts_check.specs.Pieces.{IsPieceFor};
ghost use Rattle.ts_model.specs.Plans.{Copies, IsCopied, KindIs};
ghost use Rattle.ts_model.specs.declared.plan.Entry.{Entry};
ghost use Rattle.ts_model.specs.declared.plan.Kind.TheVariants.{Commit};

use ts_model::packed::KindRef;
use ts_model::plan::{Plan, Side};

/// The entry of a commit; none for another action.
pub fn commit_entry(plan: &Plan, c: u32) -> Option<u32>
    ensures some { IfSome result (λ e. KindIs plan.now c (Commit e)) }
    ensures none { IfNone result ((e : ℕ) → ¬ KindIs plan.now c (Commit e)) }
{
    let actions = plan.actions.as_slice();
    let i = c as usize;
    if i >= actions.len() {
        return None;
    }
    match actions[i].kind() {
        KindRef::Commit { entry } => Some(entry),
        _ => None,
    }
}

/// The entry of a piece; none for another action.
pub fn piece_entry(plan: &Plan, k: u32) -> Option<u32>
    ensures some { IfSome result (λ e. IsPieceFor plan.now e k) }
    ensures none { IfNone result ((e : ℕ) → ¬ IsPieceFor plan.now e k) }
{
    let actions = plan.actions.as_slice();
    let i = k as usize;
    if i >= actions.len() {
        return None;
    }
    match actions[i].kind() {
        KindRef::Piece { entry, .. } => Some(entry),
        _ => None,
    }
}

/// The side that an entry is copied from; none for one that isn't copied.
pub fn source_side(plan: &Plan, e: u32) -> Option<Side>
    ensures some { IfSome result (λ from. (entry : Entry) × Copies plan.now e entry from) }
    ensures none { IfNone result (¬ IsCopied plan.now e) }
{
    let entries = plan.entries.as_slice();
    let i = e as usize;
    if i >= entries.len() {
        return None;
    }
    entries[i].reason.source()
}
