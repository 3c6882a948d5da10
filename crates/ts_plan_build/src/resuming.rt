//! The plan for what is there now.
ghost use Rattle.std.specs.Prelude.{◌≡◌, IfErr, IfOk};
ghost use Rattle.ts_model.specs.Plans.{Valid};
ghost use Rattle.ts_model.specs.Sync.{listed_snapshot};
ghost use Rattle.ts_model.specs.Texts.{IsPlan};
ghost use Rattle.ts_plan_build.specs.Planned.{IsPastLimit};
ghost use Rattle.ts_plan_build.specs.Resumed.{EndsAsBegun, IsTooMuch};

use crate::builder::build;
use crate::fault::BuildFault;
use std::alloc::Global;
use ts_dirty::detect;
use ts_hold::Holds;
use ts_laws::laws;
use ts_model::plan::Plan;
use ts_print::Print;
use ts_recon::reasons;

/// The plan for what is there now. After a stop of a run, and whenever a replica changed since, the same call on what is
/// there gives what is left to be done; no record of the run is needed. The plan is valid, and has a text.
///
/// # Errors
///
/// `PastLimit` exactly where more than 1,048,576 paths have a reason, or their plan would have more than 1,048,576
/// actions. Or memory ran out.
pub fn resume(
    alloc: Global,
    archive: &Print,
    first: &Print,
    second: &Print,
    holds: &Holds,
) -> Result<Plan, BuildFault>
    ensures valid { IfOk result (λ plan. Valid (listed_snapshot archive.now first.now second.now holds.now) plan) }
    ensures fits { IfOk result (λ plan. IsPlan plan) }
    ensures ends { IfOk result (λ plan. EndsAsBegun (listed_snapshot archive.now first.now second.now holds.now) plan) }
    ensures within { IfOk result (λ plan. ¬ IsPastLimit first.now second.now plan.entries) }
    ensures past { IfErr result (λ fault. fault ≡ BuildFault.PastLimit → IsTooMuch archive.now first.now second.now holds.now) }
{
    let marks = detect(alloc, archive, first, second, holds)?;
    let entries = reasons(alloc, archive, first, second, &marks)?;
    let plan = build(alloc, archive, first, second, entries)?;
    laws::resumed_runs_end_alike();
    Ok(plan)
}
