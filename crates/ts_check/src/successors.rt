//! Which actions wait for each action.

ghost use Rattle.std.specs.Prelude.{◌≡◌, ◌≤◌, ◌++◌, length, map, sum_by, IfOk, OnOk};
ghost use Rattle.ts_check.specs.Places.{Never};
ghost use Rattle.ts_check.specs.Waiting.{AreAllSuccessors, HasBadPreds, waits_from};
ghost use Rattle.ts_model.specs.Plans.{action_limit, pred_limit};

use crate::lists::Lists;
use std::alloc::{AllocError, Global};
use ts_model::packed::PackedAction;
use ts_model::plan::Plan;

/// Puts each of these predecessors of an action behind the pairs, beside the action.
fn push_waits(pairs: &mut Vec<(u32, u32)>, preds: &[u32], action: u32) -> Result<(), AllocError>
    ensures { OnOk result (pairs.new.items ≡ pairs.old.items ++ map (λ j. (j, action)) preds.now) }
{
    for pred in preds {
        pairs.push((*pred, action))?;
    }
    Ok(())
}

/// How many predecessors there are. It only says how much room is made.
fn pred_count(actions: &[PackedAction]) -> usize {
    let mut count = 0usize;
    for action in actions {
        count = count.saturating_add(action.preds().len());
    }
    count
}

/// Each predecessor beside the action that waits for it.
fn wait_pairs(alloc: Global, actions: &[PackedAction]) -> Result<Vec<(u32, u32)>, AllocError>
    requires { length actions.now ≤ action_limit }
    ensures { IfOk result (λ pairs. pairs.items ≡ waits_from 0 actions.now) }
{
    let mut pairs = Vec::with_capacity(alloc, pred_count(actions))?;
    for (i, action) in actions.iter().enumerate() {
        push_waits(&mut pairs, action.preds(), i as u32)?;
    }
    Ok(pairs)
}

/// The actions that wait for each action.
pub fn successors(alloc: Global, plan: &Plan) -> Result<Lists, AllocError>
    requires few { length plan.now.actions ≤ action_limit }
    requires preds { sum_by (λ a. length a.preds) plan.now.actions ≤ pred_limit }
    requires ascending { Never (HasBadPreds plan.now) }
    ensures { IfOk result (AreAllSuccessors plan.now) }
{
    let actions = plan.actions.as_slice();
    let pairs = wait_pairs(alloc, actions)?;
    Lists::of_pairs(alloc, actions.len(), &pairs)
}
