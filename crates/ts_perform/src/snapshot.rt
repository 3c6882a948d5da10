//! What a plan is made from and checked against, and what `plan` and `check` answer by it. Nothing is read here.
ghost use Rattle.std.specs.Prelude.{◌≡◌, IfErr, IfOk, OnOk};
ghost use Rattle.ts_check.specs.Checkup.{snapshot_of};
ghost use Rattle.ts_check.specs.Verdict.{IsSafe};
ghost use Rattle.ts_model.specs.Plans.{Valid};
ghost use Rattle.ts_model.specs.Texts.{IsPlan};
ghost use Rattle.ts_perform.specs.Snapshots.{checkup_of, IsPlanned, IsPrintoutOf, IsUnchecked, IsUnplanned, Judges, Prints};
ghost use Rattle.ts_perform.specs.Trials.{IsQuiet};

use crate::acting::replica;
use crate::fault::{
    PerformFault, Subject, UNWRITTEN, of_build, of_check, of_plan, on_output, replica_on,
};
use crate::lengths::{first_too_long, too_long};
use std::alloc::Global;
use std::rt::Clock;
use std::thread::Threads;
use ts_check::{Checked, check};
use ts_command::Pair;
use ts_hold::Holds;
use ts_model::plan::Plan;
use ts_plan_build::resume;
use ts_print::Print;
use ts_progress::{Amount, Phase, Progress, Screen};
use ts_text::{Sink, write_line};

/// What a plan is made from, and checked against: the archive, the hold rules, and the prints of both replicas.
pub(crate) struct Snapshot {
    pub archive: Print,
    pub holds: Holds,
    pub first: Print,
    pub second: Print,
}

/// A plan, what it is to be checked against, and whether a run of it tells both replicas of the archive that it writes.
#[derive(Clone, Copy, Drop)]
pub(crate) struct Proposal<'a> {
    pub snapshot: &'a Snapshot,
    pub plan: &'a Plan,
    pub teaches: bool,
}

/// Written out, so that a proof of what drops one stays short.
impl Drop for Snapshot {
    fn drop(self) {
        let Snapshot {
            archive,
            holds,
            first,
            second,
        } = self;
        drop(archive);
        drop(holds);
        drop(first);
        drop(second);
    }
}

impl Snapshot {
    /// The plan for what is there.
    pub(crate) fn plan(&self, alloc: Global) -> Result<Plan, PerformFault>
        ensures planned { IfOk result (λ plan. IsPlanned (checkup_of self.now plan)) }
        ensures fault { IfErr result (IsUnplanned self.now) }
    {
        match resume(alloc, &self.archive, &self.first, &self.second, &self.holds) {
            Ok(plan) => Ok(plan),
            Err(fault) => Err(of_build(fault)),
        }
    }

    /// The plan with the checker's yes.
    fn check<'a>(
        &'a self,
        rt: &(impl Threads + Sync),
        alloc: Global,
        plan: &'a Plan,
    ) -> Result<Checked<'a>, PerformFault>
        ensures checked { IfOk result (λ checked. checked ≡ checkup_of self.entry.now plan.entry.now) }
        ensures valid { OnOk result (Valid (snapshot_of (checkup_of self.entry.now plan.entry.now)) plan.entry.now) }
        ensures safe { OnOk result (IsSafe (snapshot_of (checkup_of self.entry.now plan.entry.now)) plan.entry.now) }
        ensures refused { IfErr result (IsUnchecked (checkup_of self.entry.now plan.entry.now)) }
    {
        let Snapshot {
            archive,
            holds,
            first,
            second,
        } = self;
        match check(rt, alloc, plan, archive, first, second, holds) {
            Ok(checked) => Ok(checked),
            Err(fault) => Err(of_check(fault)),
        }
    }

    /// The same, and the line says meanwhile that the plan is checked.
    pub(crate) fn check_drawn<'a, S: Screen + Clock>(
        &'a self,
        rt: &(impl Threads + Sync),
        alloc: Global,
        progress: &Progress<'_, S>,
        plan: &'a Plan,
    ) -> Result<Checked<'a>, PerformFault>
        ensures checked { IfOk result (λ checked. checked ≡ checkup_of self.entry.now plan.entry.now) }
        ensures valid { OnOk result (Valid (snapshot_of (checkup_of self.entry.now plan.entry.now)) plan.entry.now) }
        ensures safe { OnOk result (IsSafe (snapshot_of (checkup_of self.entry.now plan.entry.now)) plan.entry.now) }
        ensures refused { IfErr result (IsUnchecked (checkup_of self.entry.now plan.entry.now)) }
    {
        let meter = progress.begin(Phase::Checking, Amount::none());
        let checked = self.check(rt, alloc, plan);
        meter.end();
        checked
    }

    /// Prints the plan for what is there.
    pub(crate) fn print_plan<O: Sink>(&self, alloc: Global, out: &mut O) -> Result<u8, PerformFault>
        ensures { Prints (IsPrintoutOf self.now) (O.holds out.old) (O.holds out.new) result }
    {
        let plan = self.plan(alloc)?;
        ts_plan::encode(alloc, &plan, out).map_err(|fault| of_plan(
            fault,
            Subject::Output,
            UNWRITTEN,
        ))?;
        Ok(0)
    }

    /// Prints that a plan is valid for what is there. One that isn't is refused, by the rule that it breaks first.
    pub(crate) fn print_verdict<S: Screen + Clock, O: Sink>(
        &self,
        rt: &(impl Threads + Sync),
        alloc: Global,
        progress: &Progress<'_, S>,
        plan: &Plan,
        out: &mut O,
    ) -> Result<u8, PerformFault>
        ensures { Judges (λ k. k ≡ checkup_of self.now plan.now) (O.holds out.old) (O.holds out.new) result }
    {
        let _checked = self.check_drawn(rt, alloc, progress, plan)?;
        match write_line(out, b"valid") {
            Ok(()) => Ok(0),
            Err(fault) => Err(on_output(fault)),
        }
    }

    /// Refuses a plan by which something would be put in place, or moved aside, at a path that is too long for the system.
    pub(crate) fn look_at_lengths(
        &self,
        alloc: Global,
        pair: &Pair<'_>,
        plan: &Plan,
    ) -> Result<(), PerformFault>
        ensures quiet { IfErr result IsQuiet }
    {
        for (number, entry) in plan.entries.as_slice().iter().enumerate() {
            let Some(from) = entry.reason.source() else {
                continue;
            };
            let into = from.other();
            let root = replica(pair, into).root;
            for print in [&self.first, &self.second] {
                if let Some(path) = first_too_long(
                    root,
                    number,
                    &entry.path,
                    print.sub(&entry.path),
                ) {
                    return Err(match path.copy(alloc) {
                        Ok(path) => too_long(replica_on(into), path),
                        Err(_) => PerformFault::OutOfMemory,
                    });
                }
            }
        }
        Ok(())
    }
}
