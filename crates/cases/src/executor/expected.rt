//! What is to come of each action, by what fails and what each waits for.

use anyhow::Result;
use std::alloc::Global;
use ts_check::Checked;
use ts_exec::{ActFault, ActionResult};
use ts_model::packed::KindRef;

/// What each action is to come to, in order, where the pieces and commits that are flagged fail by their device. An action
/// is blocked by the least of those it waits for that isn't done.
pub fn expected(alloc: Global, checked: &Checked<'_>, fails: &[bool]) -> Result<Vec<ActionResult>> {
    let mut results: Vec<ActionResult> = Vec::new(alloc);
    for i in 0..checked.action_count() {
        let mut blocked = None;
        for k in checked.preds(i) {
            let is_done = results.get(*k as usize) == Some(&ActionResult::Done);
            if blocked.is_none() && !is_done {
                blocked = Some(*k);
            }
        }
        let result = match blocked {
            Some(k) => ActionResult::Blocked(k),
            None if fails.get(i as usize) == Some(&true) => ActionResult::Failed(ActFault::Device),
            None => ActionResult::Done,
        };
        results.push(result)?;
    }
    Ok(results)
}

/// How many marks are done.
pub fn done_marks(checked: &Checked<'_>, results: &[ActionResult]) -> usize {
    let mut count: usize = 0;
    for (action, result) in checked.plan().actions.as_slice().iter().zip(results) {
        if let KindRef::Mark { entry: _ } = action.kind() {
            if *result == ActionResult::Done {
                count = count.saturating_add(1);
            }
        }
    }
    count
}
