//! The results of a plan's actions alone, without the board and the sites that they came with.
ghost use Rattle.std.specs.Prelude.{◌≡◌};

use crate::outcome::ActionResult;
use ts_report::{Ending, Results};

/// What came of each action of a plan, in their order. The report of a run is written by this.
#[derive(Drop)]
pub struct ActionResults {
    results: Vec<ActionResult>,
}

impl ActionResults {
    pub(crate) fn new(results: Vec<ActionResult>) -> ActionResults
        ensures { result.results ≡ results }
    {
        ActionResults { results }
    }

    /// What came of each action.
    pub fn as_slice(&self) -> &[ActionResult]
        ensures { result.now ≡ self.now.results.items }
    {
        self.results.as_slice()
    }
}

impl Results for ActionResults {
    ghost use Rattle.std.specs.Prelude.{length};
    ghost use Rattle.ts_exec.specs.Ends.{ending_at};

    ghost count = { λ it. length it.results.items };

    ghost endings = { λ it i. ending_at it.results.items i };

    fn ending(&self, action: u32) -> Ending {
        match self.results[action as usize] {
            ActionResult::Done => Ending::Done,
            ActionResult::Failed(_) => Ending::Failed,
            ActionResult::Blocked(_) | ActionResult::Left => Ending::Left,
        }
    }
}
