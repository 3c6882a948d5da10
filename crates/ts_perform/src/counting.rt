//! Scans and runs, counted meanwhile.
ghost use Rattle.std.specs.Prelude.{◌≡◌, ◌≤◌, IfErr, IfOk, IfSome, length, option_map};
ghost use Rattle.ts_board.specs.Archives.{HasEnded};
ghost use Rattle.ts_board.specs.Calls.{HasPlaces, words_of};
ghost use Rattle.ts_board.specs.Terms.{commit_count};
ghost use Rattle.ts_exec.specs.Failures.{setting_over};
ghost use Rattle.ts_exec.specs.Outcomes.{IsOutcomeOf};
ghost use Rattle.ts_model.specs.Trees.{at, print_of};
ghost use Rattle.ts_perform.specs.Inputs.{IsArchiveOf};
ghost use Rattle.ts_perform.specs.Trials.{IsQuiet};

use crate::decoding::{Decoded, Scans, decoded_beside_scans};
use crate::disk::Machine;
use crate::fault::PerformFault;
use crate::spacing::plan_bytes;
use std::rt::Clock;
use ts_check::Checked;
use ts_exec::{Gate, Keeper, Outcome, RunFault, run_staging};
use ts_model::plan::Plan;
use ts_print::Print;
use ts_progress::{Amount, CountingFolder, Meter, Phase, Progress, Screen};
use ts_scan::{ScanFault, scan};

/// The folders of both replicas.
#[derive(Drop)]
pub(crate) struct Folders<'a, F> {
    pub first: &'a F,
    pub second: &'a F,
}

/// Lets everyone pass at once, and counts the actions.
#[derive(Drop)]
struct CountingGate<'a, 'b, S> {
    meter: &'a Meter<'b, S>,
}

impl<S: Screen + Clock + Sync> Gate for CountingGate<'_, '_, S> {
    fn pass(&self, _action: u32) {
        self.meter.add_action();
    }
}

/// Scans a folder, as `ts_scan::scan` does.
pub(crate) fn scan_counted<R: Machine>(
    rt: &R,
    progress: &Progress<'_, R>,
    folder: &R::Folder,
    workers: u32,
) -> Result<Print, ScanFault>
    requires some { 1 ≤ workers }
    requires few { workers ≤ 64 }
    ensures print { IfSome (R.Folder.tells folder.now) (λ tree. IfOk result (λ print. at print ≡ print_of (at tree))) }
{
    let meter = progress.begin(Phase::Scanning, Amount::none());
    let counting = CountingFolder {
        folder,
        meter: &meter,
    };
    let scanned = scan(rt, rt.alloc(), &counting, workers);
    meter.end();
    scanned
}

/// Scans both folders at once, as `ts_scan::scan_both` does, and decodes the archive in a file meanwhile, where there is one.
pub(crate) fn scan_both_counted<R: Machine>(
    rt: &R,
    progress: &Progress<'_, R>,
    folders: &Folders<'_, R::Folder>,
    workers: u32,
    file: Option<R::Opened>,
) -> (Decoded, Scans)
    requires some { 1 ≤ workers }
    requires few { workers ≤ 64 }
    ensures archive { IfOk result.0 (IsArchiveOf (option_map R.Opened.remaining file)) }
    ensures first { IfSome (R.Folder.tells folders.now.first.now) (λ tree. IfOk result.1.0 (λ print. at print ≡ print_of (at tree))) }
    ensures second { IfSome (R.Folder.tells folders.now.second.now) (λ tree. IfOk result.1.1 (λ print. at print ≡ print_of (at tree))) }
{
    let meter = progress.begin(Phase::Scanning, Amount::none());
    let first = CountingFolder {
        folder: folders.first,
        meter: &meter,
    };
    let second = CountingFolder {
        folder: folders.second,
        meter: &meter,
    };
    let found = decoded_beside_scans(rt, rt.alloc(), &first, &second, workers, file);
    meter.end();
    found
}

/// What carrying a plan out comes to: its actions, and the bytes of its pieces.
fn amount_of(plan: &Plan) -> Amount {
    Amount {
        steps: plan.actions.as_slice().len() as u64,
        bytes: plan_bytes(plan),
    }
}

/// Carries a checked plan out over these folders and sites and this stage, as `ts_exec::run_staging` does.
pub(crate) fn run_counted<R: Machine, K: Keeper>(
    rt: &R,
    progress: &Progress<'_, R>,
    checked: &Checked<'_>,
    both: &Folders<'_, R::Folder>,
    sites: Vec<R::Site>,
    stage: &R::Stage,
    workers: u32,
    keeper: K,
    every: u32,
) -> Result<Outcome<R::Site>, PerformFault>
    requires few { workers ≤ 64 }
    requires every { (1 ≤ every) × (every ≤ 1048576) }
    requires sites { length sites.items ≡ commit_count checked.now.plan.actions }
    ensures outcome { IfOk result (IsOutcomeOf (setting_over R.Site.Site R.Folder.Folder R.Stage.Stage
        checked.now both.now.first.now both.now.second.now sites.items stage.now)) }
    ensures ended { IfOk result (λ o. HasEnded checked.now (words_of o.closed)) }
    ensures wide { IfOk result (λ o. HasPlaces o.closed (length checked.now.plan.actions)) }
    ensures quiet { IfErr result IsQuiet }
{
    let meter = progress.begin(Phase::CarryingOut, amount_of(checked.plan()));
    let first = CountingFolder {
        folder: both.first,
        meter: &meter,
    };
    let second = CountingFolder {
        folder: both.second,
        meter: &meter,
    };
    let gate = CountingGate { meter: &meter };
    let (outcome, _keeper) = run_staging(
        rt,
        rt.alloc(),
        checked,
        &first,
        &second,
        sites,
        stage,
        workers,
        &gate,
        keeper,
        every,
    );
    meter.end();
    match outcome {
        Ok(outcome) => Ok(outcome),
        Err((_sites, RunFault::OutOfMemory)) => Err(PerformFault::OutOfMemory),
    }
}
