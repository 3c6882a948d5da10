//! What a valid plan is worth.

ghost use Rattle.ts_check.specs.Verdict.{IsSafe};
ghost use Rattle.ts_model.specs.Plans.{Valid};
ghost use Rattle.ts_model.specs.Sync.{Snapshot};
ghost use Rattle.ts_model.specs.declared.plan.Plan.{Plan};

use ts_laws::laws;

/// Every valid plan is safe.
pub fn valid_plans_are_safe()
    ensures { (s : Snapshot) (plan : Plan) → Valid s plan → IsSafe s plan }
{
    laws::one_pair();
    laws::original_or_final();
    laws::archive_agrees();
    laws::completes();
    laws::not_stuck();
    laws::can_resume();
    laws::cuts_are_legal();
    laws::archive_is_closed();
    laws::resumed_runs_end_alike();
}
