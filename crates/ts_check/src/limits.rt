//! The limits of a plan.

ghost use Rattle.std.specs.Prelude.{◌≡◌, ◌≤◌, length, sum_by};
ghost use Rattle.ts_check.specs.Places.{IsFirst};
ghost use Rattle.ts_model.specs.Plans.{WithinLimits, Wrong, action_limit, entry_limit, pred_limit};
ghost use Rattle.ts_model.specs.Sync.{Snapshot};
ghost use Rattle.ts_model.specs.declared.plan.PlanRule.TheVariants.{Limits};
ghost use Rattle.std.specs.Prelude.{IsTrue, ◌↔◌};

use ts_model::packed::PackedAction;
use ts_model::plan::{ACTION_LIMIT, ENTRY_LIMIT, PRED_LIMIT, Plan};

/// Whether the actions have no more predecessors than the limit, all together.
fn has_few_preds(actions: &[PackedAction]) -> bool
    ensures { IsTrue result ↔ (sum_by (λ a. length a.preds) actions.now ≤ pred_limit) }
{
    let mut total: usize = 0;
    for action in actions {
        let count = action.preds().len();
        if count > PRED_LIMIT - total {
            return false;
        }
        total += count;
    }
    true
}

/// Place 0 where a limit is passed.
pub fn first_wrong(plan: &Plan) -> Option<u64>
    ensures { (s : Snapshot) → IsFirst (Wrong s plan.now Limits) result }
{
    let fits = plan.entries.as_slice().len() <= ENTRY_LIMIT
        && plan.actions.as_slice().len() <= ACTION_LIMIT
        && has_few_preds(plan.actions.as_slice());
    if fits { None } else { Some(0) }
}
