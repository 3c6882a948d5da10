//! What a checked plan comes to on two folders.
ghost use Rattle.std.specs.Prelude.{◌≡◌, ◌≤◌, ℕ, List, length, map, IfErr, IfOk, OnOk};
ghost use Rattle.std.specs.Option.{option_copied};
ghost use Rattle.std.specs.Mem.Slots.{slots_items, slots_len};
ghost use Rattle.ts_board.specs.Archives.{HasEnded};
ghost use Rattle.ts_board.specs.Calls.{words_of};
ghost use Rattle.ts_board.specs.Terms.{commit_count};
ghost use Rattle.ts_exec.specs.Failures.{of_side};
ghost use Rattle.ts_perform.specs.Puts.{put_path, put_paths};
ghost use Rattle.ts_perform.specs.Runs.{HasKept};
ghost use Rattle.ts_perform.specs.Stands.{AreAtStands, source_root, target_root};
ghost use Rattle.ts_perform.specs.Trials.{IsQuiet};
ghost use Rattle.ts_perform.specs.Agreed.{AreFlushedInBoth, HasFlushed, HasFlushedPut};
ghost use Rattle.ts_perform.specs.Runs.{IsRunFor};
ghost use Rattle.ts_perform.specs.Worlds.{world};

use crate::agreed::{flush_agreed, flush_around};
use crate::counting::{Folders, run_counted};
use crate::disk::{Disk, Machine};
use crate::fault::{PerformFault, Subject, of_disk, replica_on};
use crate::keeping::PlaceKeeper;
use crate::locks::{Locks, look_at_locks};
use crate::spacing::usual_spacing;
use crate::task::Task;
use std::alloc::Global;
use ts_board::Closed;
use ts_cause::Cause;
use ts_check::Checked;
use ts_command::Pair;
use ts_disk::{DiskFault, Replica};
use ts_exec::{ActionResult, Outcome};
use ts_model::packed::{KindRef, PackedAction};
use ts_model::plan::{Entry, Plan, Reason, Side};
use ts_name::Path;
use ts_special::Specials;

/// How many workers carry a plan out at most. Each has a piece of up to 1 MiB at hand, and all of them together are to hold less
/// than 64 MiB.
const MOST_WORKERS: u32 = 48;

/// Carries out a checked plan by the task's workers, and writes its archive to its place from time to time, as long as both replicas
/// are there. The outcome is that of commits each of which is made in the replica that its entry is copied to; the stage knows why
/// pieces failed. What both replicas agree on already has reached their devices before.
pub(crate) fn act<R: Machine>(
    task: &Task<'_, R>,
    locks: &Locks<'_, R::Lock>,
    place: &mut R::Archive,
    checked: &Checked<'_>,
) -> Result<(Outcome<R::Site>, R::Stage), PerformFault>
    ensures count { IfOk result (λ came. length came.0.results.items ≡ length checked.now.plan.actions) }
    ensures words { IfOk result (λ came. length checked.now.plan.actions ≤ slots_len came.0.closed.row.words) }
    ensures slots { IfOk result (λ came. length checked.now.plan.actions ≤ slots_len came.0.closed.row.slots) }
    ensures ended { IfOk result (λ came. HasEnded checked.now (words_of came.0.closed)) }
    ensures stands { IfOk result (λ came. IsRunFor (world R.Disk R.Site.Site R.Folder.Folder R.Stage.Stage)
        task.now.pair.now checked.now came.0) }
    ensures flushed { IfOk result (λ _. HasFlushed (world R.Disk R.Site.Site R.Folder.Folder R.Stage.Stage) task.now.pair.now checked.now) }
    ensures quiet { IfErr result IsQuiet }
{
    flush_agreed(task, checked)?;
    let Task { rt, pair, .. } = task;
    let stage = rt.stage(rt.alloc(), checked, locks, pair.first, pair.second)?;
    let outcome = act_over(task, locks, place, checked, &stage)?;
    Ok((outcome, stage))
}

/// The same over a stage for the plan's pieces, where what both replicas agree on has reached their devices.
fn act_over<R: Machine>(
    task: &Task<'_, R>,
    locks: &Locks<'_, R::Lock>,
    place: &mut R::Archive,
    checked: &Checked<'_>,
    stage: &R::Stage,
) -> Result<Outcome<R::Site>, PerformFault>
    requires staged { R.is_staged stage.now task.now.pair.now.first.now task.now.pair.now.second.now }
    ensures count { IfOk result (λ outcome. length outcome.results.items ≡ length checked.now.plan.actions) }
    ensures words { IfOk result (λ outcome. length checked.now.plan.actions ≤ slots_len outcome.closed.row.words) }
    ensures slots { IfOk result (λ outcome. length checked.now.plan.actions ≤ slots_len outcome.closed.row.slots) }
    ensures ended { IfOk result (λ outcome. HasEnded checked.now (words_of outcome.closed)) }
    ensures stands { IfOk result (IsRunFor (world R.Disk R.Site.Site R.Folder.Folder R.Stage.Stage)
        task.now.pair.now checked.now) }
    ensures quiet { IfErr result IsQuiet }
{
    let Task {
        rt,
        pair,
        command,
        workers,
        progress,
        ..
    } = task;
    let alloc = rt.alloc();
    let workers = (*workers).min(MOST_WORKERS);
    let every = match command.checkpoint {
        Some(every) => every,
        None => usual_spacing(checked, workers),
    };
    let first = rt.folder(alloc, pair.first, Specials::none(alloc))?;
    let second = rt.folder(alloc, pair.second, Specials::none(alloc))?;
    let sites = sites(*rt, locks, *pair, checked)?;
    let folders = Folders {
        first: &first,
        second: &second,
    };
    let keeper = PlaceKeeper {
        task,
        locks,
        place,
        plan: checked.plan(),
    };
    run_counted(
        *rt, progress, checked, &folders, sites, stage, workers, keeper, every,
    )
}

/// The places of a plan's commits, in the order of the actions: each in the replica that its entry is copied to.
fn sites<R>(
    rt: &R,
    locks: &Locks<'_, R::Lock>,
    pair: &Pair<'_>,
    checked: &Checked<'_>,
) -> Result<Vec<R::Site>, PerformFault>
where
    R: Disk + AllocGlobal,
    ensures count { IfOk result (λ sites. length sites.items ≡ commit_count checked.now.plan.actions) }
    ensures stands { IfOk result (λ sites. AreAtStands R.stand pair.now.first.now pair.now.second.now checked.now.plan sites.items) }
    ensures quiet { IfErr result IsQuiet }
{
    let plan = checked.plan();
    let entries = plan.entries.as_slice();
    let to_first = rt.way(rt.alloc(), locks.first, pair.first, pair.second)?;
    let to_second = rt.way(rt.alloc(), locks.second, pair.second, pair.first)?;
    let mut sites = Vec::new(rt.alloc());
    for action in plan.actions.as_slice() {
        if let KindRef::Commit { entry } = action.kind() {
            let place = &entries[entry as usize];
            let way = way_of::<R>(&to_first, &to_second, place.reason);
            sites.push(rt.site(rt.alloc(), way, &place.path, entry)?)?;
        }
    }
    Ok(sites)
}

/// A replica of the pair.
pub(crate) fn replica<'a>(pair: &Pair<'a>, side: Side) -> Replica<'a>
    ensures root { result.root.now ≡ of_side pair.now.first.now pair.now.second.now side }
    ensures side { result.side ≡ side }
{
    let root = match side {
        Side::First => pair.first,
        Side::Second => pair.second,
    };
    Replica { root, side }
}

/// The way on which entries of this reason are copied, of the two between a pair's replicas. One that isn't copied has no commit.
fn way_of<'a, R: Disk>(to_first: &'a R::Way, to_second: &'a R::Way, reason: Reason) -> &'a R::Way
    ensures target { R.to result.now ≡ target_root (R.to to_first.now) (R.to to_second.now) reason }
    ensures source { R.from result.now ≡ source_root (R.from to_second.now) (R.from to_first.now) reason }
{
    match reason.source() {
        Some(Side::Second) => to_first,
        Some(Side::First) | None => to_second,
    }
}

/// Writes what the archive is after a run that ended with these results, unless a replica has gone away since: then what was done
/// may not have been done there. Before the archive says so, what the run put in place has reached its device, and both replicas are told
/// that the archive is theirs where the run teaches them. The board goes before the archive is made, since most memory is taken then.
pub(crate) fn keep_archive<R: Machine>(
    task: &Task<'_, R>,
    locks: &Locks<'_, R::Lock>,
    place: &mut R::Archive,
    checked: &Checked<'_>,
    results: &[ActionResult],
    closed: Closed<R::Site>,
    teaches: bool,
) -> Result<(), PerformFault>
    requires count { length results.now ≡ length checked.now.plan.actions }
    requires words { length checked.now.plan.actions ≤ slots_len closed.row.words }
    requires ended { HasEnded checked.now (slots_items closed.row.words) }
    ensures kept { OnOk result (HasKept R.has checked.now (words_of closed) place.new) }
    ensures named { OnOk result (R.is_named place.new task.now.pair.now.archive.now) }
    ensures taught { OnOk result (R.taught place.new teaches) }
    ensures put { OnOk result (HasFlushedPut (world R.Disk R.Site.Site R.Folder.Folder R.Stage.Stage) task.now.pair.now checked.now.plan results.now) }
{
    let Task { rt, pair, .. } = task;
    // while checkpoints were written the place was out of hand
    if !rt.is_claim_of(&*place, pair.archive) {
        let cause = Cause::Unknown;
        return Err(of_disk(DiskFault::Failed { cause }, Subject::Archive));
    }
    flush_put(task, checked.plan(), results)?;
    write_left(*rt, locks, place, checked, closed, teaches)
}

/// Writes what the archive is after a run to its place, as long as both replicas are there.
fn write_left<R: Machine>(
    rt: &R,
    locks: &Locks<'_, R::Lock>,
    place: &mut R::Archive,
    checked: &Checked<'_>,
    closed: Closed<R::Site>,
    teaches: bool,
) -> Result<(), PerformFault>
    requires words { length checked.now.plan.actions ≤ slots_len closed.row.words }
    requires ended { HasEnded checked.now (slots_items closed.row.words) }
    ensures kept { OnOk result (HasKept R.has checked.now (words_of closed) place.new) }
    ensures taught { OnOk result (R.taught place.new teaches) }
    ensures named { (name : List ℕ) → R.is_named place.old name → R.is_named place.new name }
{
    let alloc = rt.alloc();
    let Ok(archive) = closed.into_archive(alloc, checked) else {
        return Err(PerformFault::OutOfMemory);
    };
    look_at_locks(rt, locks)?;
    let learners = teaches.then_some(locks);
    rt.write_archive(alloc, place, &archive, learners)
        .map_err(|fault| of_disk(fault, Subject::Archive))
}

/// Waits until the directories have reached their devices in which a run that ended with these results put something in place, and
/// those of the other replica in which it found that.
fn flush_put<R: Machine>(
    task: &Task<'_, R>,
    plan: &Plan,
    results: &[ActionResult],
) -> Result<(), PerformFault>
    requires count { length results.now ≡ length plan.now.actions }
    ensures flushed { IfOk result (λ _. HasFlushedPut (world R.Disk R.Site.Site R.Folder.Folder R.Stage.Stage) task.now.pair.now plan.now results.now) }
{
    flush_put_into(task, plan, results, Side::First)?;
    flush_put_into(task, plan, results, Side::Second)
}

/// The same of what was put in place in one replica.
fn flush_put_into<R: Machine>(
    task: &Task<'_, R>,
    plan: &Plan,
    results: &[ActionResult],
    into: Side,
) -> Result<(), PerformFault>
    requires count { length results.now ≡ length plan.now.actions }
    ensures flushed { IfOk result (λ _. AreFlushedInBoth R.is_flushed_above task.now.pair.now
        (put_paths into plan.now.entries plan.now.actions results.now)) }
{
    let paths = paths_put(task.rt.alloc(), plan, results, into)?;
    flush_around(task, Side::First, paths.as_slice())?;
    flush_around(task, Side::Second, paths.as_slice())
}

/// The paths of the entries that were put in place in a replica.
pub(crate) fn paths_put<'a>(
    alloc: Global,
    plan: &'a Plan,
    results: &[ActionResult],
    side: Side,
) -> Result<Vec<&'a Path>, PerformFault>
    requires count { length results.now ≡ length plan.now.actions }
    ensures put { IfOk result (λ paths. map (λ path. path.now) paths.items ≡ put_paths side plan.entry.now.entries plan.entry.now.actions results.now) }
{
    let entries = plan.entries.as_slice();
    let actions = plan.actions.as_slice();
    let mut paths = Vec::new(alloc);
    for (i, ended) in results.iter().enumerate() {
        if let Some(path) = path_put(entries, &actions[i], *ended, side) {
            paths.push(path)?;
        }
    }
    Ok(paths)
}

/// The path of the entry that an action has put in place in the replica on this side, if it is a commit that was done there.
fn path_put<'a>(
    entries: &'a [Entry],
    action: &PackedAction,
    ended: ActionResult,
    side: Side,
) -> Option<&'a Path>
    ensures { option_copied result ≡ put_path side entries.entry.now (action.now, ended) }
{
    let ActionResult::Done = ended else {
        return None;
    };
    let KindRef::Commit { entry } = action.kind() else {
        return None;
    };
    let entry = entries.get(entry as usize)?;
    if entry.reason.is_from(side.other()) {
        Some(&entry.path)
    } else {
        None
    }
}
