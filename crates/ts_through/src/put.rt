//! What the commits have put in place.
ghost use Rattle.std.specs.Prelude.{◌≡◌, ◌<◌, ◌≤◌, ℕ, IfErr, IfOk, Some, length, slice_get};
ghost use Rattle.std.specs.Mem.Slots.{slots_items, slots_len};
ghost use Rattle.ts_exec.specs.Outcomes.{OnlyMemoryRanOut};
ghost use Rattle.ts_exec.specs.declared.fault.ActFault.TheVariants.{OutOfMemory};
ghost use Rattle.ts_exec.specs.declared.outcome.ActionResult.TheVariants.{Done, Failed};
ghost use Rattle.ts_model.specs.Plans.{KindIs};
ghost use Rattle.ts_model.specs.declared.plan.Kind.TheVariants.{Commit};
ghost use Rattle.ts_through.specs.Parts.{AreBlockedByEarlier, AreTaken, NoneIsLeft};

use std::alloc::AllocError;
use ts_check::Checked;
use ts_exec::{ActFault, ActionResult, Outcome};
use ts_model::packed::KindRef;
use ts_site::MemSite;
use ts_tree::SubTree;

/// Each action is done, or memory ran out for one. Nothing else can: the first that isn't done waits for none that
/// isn't, so it isn't blocked; a run that isn't stopped leaves none; and where folders and sites don't fail, it failed because
/// memory ran out.
pub(crate) fn all_done(results: &[ActionResult]) -> Result<(), AllocError>
    requires memory { OnlyMemoryRanOut results.now }
    requires blocked { AreBlockedByEarlier results.now }
    requires left { NoneIsLeft results.now }
    ensures done { IfOk result (λ _. (i : ℕ) → i < length results.now → slice_get results.now i ≡ Some Done) }
    ensures want { IfErr result (λ _. (i : ℕ) × (slice_get results.now i ≡ Some (Failed OutOfMemory))) }
{
    for result in results {
        match result {
            ActionResult::Done => {}
            ActionResult::Failed(fault) => match fault {
                ActFault::OutOfMemory => return Err(AllocError),
                _ => unreachable!(),
            },
            ActionResult::Blocked(_) => unreachable!(),
            ActionResult::Left => unreachable!(),
        }
    }
    Ok(())
}

/// Takes what is at the site of each commit to the part of its entry.
pub(crate) fn take_parts(
    checked: &Checked<'_>,
    outcome: &mut Outcome<MemSite>,
    parts: &mut Vec<SubTree>,
)
    requires slots { length checked.now.plan.actions ≤ slots_len outcome.old.closed.row.slots }
    requires parts { length parts.old.items ≡ length checked.now.plan.entries }
    requires within { (i e : ℕ) → KindIs checked.now.plan i (Commit e) → e < length checked.now.plan.entries }
    ensures parts { AreTaken checked.now.plan (slots_items outcome.old.closed.row.slots) parts.new.items }
    ensures count { length parts.new.items ≡ length parts.old.items }
{
    let _count = checked.action_count();
    let actions = checked.plan().actions.as_slice();
    for (index, action) in actions.iter().enumerate() {
        if let KindRef::Commit { entry } = action.kind() {
            if let Some(site) = outcome.take_site(index as u32) {
                parts[entry as usize] = site.into_content();
            }
        }
    }
}
