//! What both replicas agree on before a run reaches their devices, since the run's archive will name it.
ghost use Rattle.std.specs.Prelude.{◌≡◌, ◌++◌, IfErr, IfOk, OnOk, map};
ghost use Rattle.std.specs.List.{All};
ghost use Rattle.ts_model.specs.declared.plan.Side.TheVariants.{First, Second};
ghost use Rattle.ts_perform.specs.Agreed.{AreFlushed, HasFlushed, agreed_at, agreed_entries, agreed_paths, root_of};
ghost use Rattle.ts_perform.specs.Trials.{IsQuiet};
ghost use Rattle.ts_perform.specs.Worlds.{world};

use crate::acting::replica;
use crate::disk::Machine;
use crate::fault::{PerformFault, of_disk, replica_on};
use crate::task::Task;
use std::alloc::{AllocError, Global};
use ts_check::Checked;
use ts_model::plan::{Entry, Plan, Side, Treatment};
use ts_name::Path;
use ts_print::Print;
use ts_progress::{Amount, Meter, Phase};

/// How many paths are flushed before the line that counts them may be drawn anew.
const FLUSHED_AT_ONCE: usize = 1_024;

/// Waits until both replicas' devices have what these agree on already and the archive doesn't say yet, as far as it was changed
/// lately. If power fails later, the next run would take what is gone for a deletion.
pub(crate) fn flush_agreed<R: Machine>(
    task: &Task<'_, R>,
    checked: &Checked<'_>,
) -> Result<(), PerformFault>
    ensures flushed { IfOk result (λ _. HasFlushed (world R.Disk R.Site.Site R.Folder.Folder R.Stage.Stage) task.now.pair.now checked.now) }
    ensures quiet { IfErr result IsQuiet }
{
    flush_existing(task, checked)?;
    let entries = entries_agreed(task.rt.alloc(), checked.plan())?;
    flush_around(task, Side::First, entries.as_slice())?;
    flush_around(task, Side::Second, entries.as_slice())
}

/// The same of what is there, counted meanwhile, and not of the directories around it.
fn flush_existing<R: Machine>(task: &Task<'_, R>, checked: &Checked<'_>) -> Result<(), PerformFault>
    ensures flushed { IfOk result (λ _. AreFlushed R.is_flushed task.now.pair.now
        checked.now.plan.entries checked.now.first checked.now.second) }
    ensures quiet { IfErr result IsQuiet }
{
    let alloc = task.rt.alloc();
    let first = paths_agreed(alloc, checked.plan(), checked.first())?;
    let second = paths_agreed(alloc, checked.plan(), checked.second())?;
    flush_both(task, first.as_slice(), second.as_slice())
}

/// Flushes paths of both replicas, and draws how many. Where there are none, no line is drawn.
fn flush_both<R: Machine>(
    task: &Task<'_, R>,
    first: &[&Path],
    second: &[&Path],
) -> Result<(), PerformFault>
    ensures first { IfOk result (λ _. All (λ path. R.is_flushed (root_of task.now.pair.now First) path.now) first.now) }
    ensures second { IfOk result (λ _. All (λ path. R.is_flushed (root_of task.now.pair.now Second) path.now) second.now) }
    ensures quiet { IfErr result IsQuiet }
{
    if first.is_empty() && second.is_empty() {
        return Ok(());
    }
    let expected = Amount {
        steps: (first.len() as u64).saturating_add(second.len() as u64),
        bytes: 0,
    };
    let meter = task.progress.begin(Phase::Flushing, expected);
    let flushed = flush_in_turn(task, first, second, &meter);
    meter.end();
    flushed
}

/// Flushes paths of the first replica, and then of the second, and counts them.
fn flush_in_turn<R: Machine>(
    task: &Task<'_, R>,
    first: &[&Path],
    second: &[&Path],
    meter: &Meter<'_, R>,
) -> Result<(), PerformFault>
    ensures first { IfOk result (λ _. All (λ path. R.is_flushed (root_of task.now.pair.now First) path.now) first.now) }
    ensures second { IfOk result (λ _. All (λ path. R.is_flushed (root_of task.now.pair.now Second) path.now) second.now) }
    ensures quiet { IfErr result IsQuiet }
{
    flush_counted(task, Side::First, first, meter)?;
    flush_counted(task, Side::Second, second, meter)
}

/// Flushes so many paths of a replica at a time, and counts them.
fn flush_counted<R: Machine>(
    task: &Task<'_, R>,
    side: Side,
    paths: &[&Path],
    meter: &Meter<'_, R>,
) -> Result<(), PerformFault>
    ensures flushed { IfOk result (λ _. All (λ path. R.is_flushed (root_of task.now.pair.now side) path.now) paths.now) }
    ensures quiet { IfErr result IsQuiet }
{
    let mut start = 0;
    while start < paths.len() {
        let end = start.saturating_add(FLUSHED_AT_ONCE).min(paths.len());
        flush_at(task, side, &paths[start..end])?;
        meter.add_paths((end - start) as u64);
        start = end;
    }
    Ok(())
}

/// Flushes what stands at these paths of a replica.
fn flush_at<R: Machine>(task: &Task<'_, R>, side: Side, paths: &[&Path]) -> Result<(), PerformFault>
    ensures flushed { IfOk result (λ _. All (λ path. R.is_flushed (root_of task.now.pair.now side) path.now) paths.now) }
    ensures quiet { IfErr result IsQuiet }
{
    let Task {
        rt,
        pair,
        workers,
        ..
    } = task;
    let root = replica(*pair, side).root;
    rt.flush_paths(*rt, rt.alloc(), root, paths, *workers)
        .map_err(|fault| of_disk(fault, replica_on(side)))
}

/// Flushes the directories of a replica in which the paths of these entries stand.
pub(crate) fn flush_around<R: Machine>(
    task: &Task<'_, R>,
    side: Side,
    entries: &[&Path],
) -> Result<(), PerformFault>
    ensures flushed { IfOk result (λ _. All (λ path. R.is_flushed_above (root_of task.now.pair.now side) path.now) entries.now) }
    ensures quiet { IfErr result IsQuiet }
{
    let Task {
        rt,
        pair,
        workers,
        ..
    } = task;
    let root = replica(*pair, side).root;
    rt.flush_above(*rt, rt.alloc(), root, entries, *workers)
        .map_err(|fault| of_disk(fault, replica_on(side)))
}

/// The paths of what both replicas agree on and the archive doesn't say yet, in the print of one of them: all at and below the paths
/// that are the same on both sides, and new directories.
fn paths_agreed<'a>(
    alloc: Global,
    plan: &'a Plan,
    print: &'a Print,
) -> Result<Vec<&'a Path>, AllocError>
    ensures agreed { IfOk result (λ paths. map (λ path. path.now) paths.items ≡ agreed_paths plan.entry.now.entries print.entry.now) }
{
    let mut paths = Vec::new(alloc);
    for entry in plan.entries.as_slice() {
        add_agreed(entry, print, &mut paths)?;
    }
    Ok(paths)
}

/// Adds what an entry says that both replicas agree on.
fn add_agreed<'a>(
    entry: &'a Entry,
    print: &'a Print,
    paths: &mut Vec<&'a Path>,
) -> Result<(), AllocError>
    ensures more { OnOk result (map (λ path. path.now) paths.new.items ≡ map (λ path. path.now) paths.old.items ++ agreed_at entry.entry.now print.entry.now) }
{
    match entry.reason.treatment() {
        Treatment::Agreed => {
            for row in print.sub(&entry.path) {
                paths.push(&row.path)?;
            }
        }
        Treatment::NewDirectory => paths.push(&entry.path)?,
        Treatment::Copied(_) | Treatment::Skipped => {}
    }
    Ok(())
}

/// The paths of the entries about which both replicas agree.
fn entries_agreed(alloc: Global, plan: &Plan) -> Result<Vec<&Path>, AllocError>
    ensures agreed { IfOk result (λ paths. map (λ path. path.now) paths.items ≡ agreed_entries plan.now.entries) }
{
    let mut paths = Vec::new(alloc);
    for entry in plan.entries.as_slice() {
        match entry.reason.treatment() {
            Treatment::Agreed | Treatment::NewDirectory => paths.push(&entry.path)?,
            Treatment::Copied(_) | Treatment::Skipped => {}
        }
    }
    Ok(paths)
}
