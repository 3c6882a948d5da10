//! Bringing swaps to an end that were stopped or failed.
ghost use Rattle.std.specs.Fmt.{decimal};
ghost use Rattle.std.specs.List.Sorted.{IsStrictlyIncreasing};
ghost use Rattle.std.specs.Prelude.{◌≡◌, ◌++◌, ◌<◌, ◌^◌, ℕ, All, Any, Contains, IfErr, IfNone, IfOk, IfSome, codes};
ghost use Rattle.std.specs.String.{string_bytes};
ghost use Rattle.ts_disk.specs.Names.{IsSpotOf};
ghost use Rattle.ts_disk.specs.Swaps.{AddsNotices, IsCopiedInto, IsNoneCopied, IsNoticeOf, IsOfCopied, IsPathCopied, IsTargetOf};
ghost use Rattle.ts_model.specs.declared.plan.Entry.{Entry};

use crate::fault::{DiskFault, device_failed};
use crate::leftover::{Aside, discard_at, remove_trash};
use crate::listing::text_names;
use crate::names::{kept_number, spot_number, stage_number};
use crate::notice::Notice;
use crate::place::{Standing, look_at, own_place, stage_place};
use crate::places::DiskPlaces;
use crate::plan_file::{holds_plan, read_plan, remove_plan};
use crate::replica::Replica;
use std::alloc::Global;
use std::fs::Files;
use std::io::ErrorKind;
use ts_cause::Cause;
use ts_model::plan::{Entry, Plan, Side};
use ts_name::Path;

/// Looks whether the plan in a replica explains what a stopped run left there: each spot that is taken belongs to an entry of
/// it that is copied. What pieces have stored needs no plan: it is copied there, and nothing else is. Nothing is changed.
///
/// `Device` where a spot is taken that no plan explains: it may be the only copy of something. `Failed` where the plan file
/// can't be read.
pub fn check_leftovers<R: Files + AllocGlobal + Clone + Drop>(
    files: &R,
    alloc: Global,
    root: &str,
) -> Result<(), DiskFault> {
    let taken = taken_spots(alloc, &own_names(files, alloc, root)?)?;
    if taken.is_empty() {
        return Ok(());
    }
    match read_plan(files, alloc, root)? {
        Some(plan) if are_copied(&plan, &taken) => Ok(()),
        _ => Err(DiskFault::Device {
            cause: Cause::Unknown,
        }),
    }
}

/// Whether a stopped run left something in a replica that the next run has to bring to its end first: its plan, or what lies at
/// a spot of a swap. So it is while a run works there. Nothing is changed.
pub fn awaits_recovery<R: Files + AllocGlobal + Clone + Drop>(
    files: &R,
    alloc: Global,
    root: &str,
) -> Result<bool, DiskFault> {
    if holds_plan(files, alloc, root)? {
        return Ok(true);
    }
    let taken = taken_spots(alloc, &own_names(files, alloc, root)?)?;
    Ok(!taken.is_empty())
}

/// Whether the entries of these numbers are copied, into either replica.
fn are_copied(plan: &Plan, numbers: &[u32]) -> bool {
    for number in numbers {
        if copied_entry(plan, *number, None).is_none() {
            return false;
        }
    }
    true
}

/// Recovers a replica from a run that was stopped: where `.twosync/plan` in its root is the text of a plan, the swap of each of
/// its entries that are copied is brought to its end, and then the plan file is removed. Where it isn't, no swap had begun.
/// What earlier runs couldn't remove is tried again. What pieces have stored for commits that were never made is removed, whether
/// or not there is a plan.
///
/// What is left of a swap is added to `notices`. `Failed` where the plan file can't be read or removed, `Device` where a swap can't
/// be brought to its end; both may be called again.
pub fn recover_replica<R: Files + AllocGlobal + Clone + Drop>(
    files: &R,
    alloc: Global,
    root: &str,
    notices: &mut Vec<Notice>,
) -> Result<(), DiskFault>
    ensures kept { AddsNotices notices.old.items notices.new.items }
{
    let _ = remove_trash(files, alloc, root);
    let Some(plan) = read_plan(files, alloc, root)? else {
        return Ok(());
    };
    end_swaps(files, alloc, root, &plan, None, notices)?;
    remove_plan(files, alloc, root)
}

/// Brings the swap of each entry of a plan that is copied into a replica to its end, so that nothing is left of it in
/// `.twosync` that a later run would have to recover, and removes what pieces have stored for it. Where a swap can't be brought to
/// its end, it goes on with the others. What belongs to no such entry stays as it is. What is left of a swap is added to `notices`.
pub fn clear_leftovers<R: Files + AllocGlobal + Clone + Drop>(
    files: &R,
    alloc: Global,
    replica: &Replica<'_>,
    plan: &Plan,
    notices: &mut Vec<Notice>,
) -> Result<(), DiskFault>
    ensures kept { AddsNotices notices.old.items notices.new.items }
{
    end_swaps(
        files,
        alloc,
        replica.root,
        plan,
        Some(replica.side),
        notices,
    )
}

/// The same for all entries that are copied, or for those that are copied into this replica of the pair.
fn end_swaps<R: Files + AllocGlobal + Clone + Drop>(
    files: &R,
    alloc: Global,
    root: &str,
    plan: &Plan,
    into: Option<Side>,
    notices: &mut Vec<Notice>,
) -> Result<(), DiskFault>
    ensures kept { AddsNotices notices.old.items notices.new.items }
{
    let mut ended: Result<(), DiskFault> = Ok(());
    let names = own_names(files, alloc, root)?;
    // Recovery does nothing where neither spot of a swap is taken, and both lie in the program's own directory: so those
    // entries are enough of which a listing of it tells a spot.
    for number in &taken_spots(alloc, &names)? {
        let left = end_swap(files, alloc, root, plan, *number, into);
        note_left(left, notices, &mut ended)?;
    }
    for name in &names {
        let left = end_keeping(files, alloc, root, plan, name.as_str(), into);
        note_left(left, notices, &mut ended)?;
        end_stage(files, alloc, root, plan, name.as_str(), into)?;
    }
    ended
}

/// Adds what is left of a swap to `notices`, or keeps in `ended` for which fault it couldn't be brought to its end. Its only fault
/// is `OutOfMemory`.
fn note_left(
    left: Result<Option<Notice>, DiskFault>,
    notices: &mut Vec<Notice>,
    ended: &mut Result<(), DiskFault>,
) -> Result<(), DiskFault>
    ensures kept { AddsNotices notices.old.items notices.new.items }
    ensures fault { IfErr result (λ e. e ≡ DiskFault.OutOfMemory) }
{
    match left {
        Ok(Some(notice)) => notices.push(notice)?,
        Ok(None) => {}
        Err(fault) => *ended = Err(fault),
    }
    Ok(())
}

/// The entry of this number, if it is copied, and into this replica of the pair where one is given.
fn copied_entry(plan: &Plan, number: u32, into: Option<Side>) -> Option<&Entry>
    ensures some { IfSome result (λ entry. IsCopiedInto plan.now number into entry.now) }
    ensures none { IfNone result (IsNoneCopied plan.now number into) }
{
    let entry = plan.entries.as_slice().get(number as usize)?;
    let from = entry.reason.source()?;
    match into {
        Some(into) if into.other() != from => None,
        _ => Some(entry),
    }
}

/// The names in the program's own directory of a replica.
fn own_names<R: Files + AllocGlobal>(
    files: &R,
    alloc: Global,
    root: &str,
) -> Result<Vec<String>, DiskFault> {
    let own = own_place(alloc, root)?;
    match look_at(files, own.as_str(), root.len()).map_err(device_failed)? {
        Standing::Dir => match text_names(files, own.as_str()) {
            Ok(names) => Ok(names),
            Err(e) if e.kind() == ErrorKind::OutOfMemory => Err(DiskFault::OutOfMemory),
            Err(e) => Err(device_failed(e)),
        },
        Standing::Nothing | Standing::CutOff | Standing::File | Standing::Other => {
            Ok(Vec::new(alloc))
        }
    }
}

/// The numbers of the entries whose new or old spots are among some names, each once, in order.
fn taken_spots(alloc: Global, names: &[String]) -> Result<Vec<u32>, DiskFault>
    ensures all { IfOk result (λ spots. All (λ name. (n : ℕ) → n < 2 ^ 32 → IsSpotOf (string_bytes name) n → Contains spots.items n) names.now) }
    ensures order { IfOk result (λ spots. IsStrictlyIncreasing spots.items) }
    ensures only { IfOk result (λ spots. All (λ n. Any (λ name. IsSpotOf (string_bytes name) n) names.now) spots.items) }
    ensures fault { IfErr result (λ e. e ≡ DiskFault.OutOfMemory) }
{
    let mut numbers = Vec::new(alloc);
    for name in names {
        if let Some(number) = spot_number(name.as_str()) {
            numbers.push(number)?;
        }
    }
    numbers.sort_unstable();
    numbers.dedup();
    Ok(numbers)
}

/// Brings the swap of the entry of this number to its end, if that entry is copied into the replica. Answers what is left of it.
fn end_swap<R: Files + AllocGlobal + Clone + Drop>(
    files: &R,
    alloc: Global,
    root: &str,
    plan: &Plan,
    number: u32,
    into: Option<Side>,
) -> Result<Option<Notice>, DiskFault>
    ensures { IfOk result (λ left. IfSome left (IsNoticeOf plan.now number into)) }
{
    let Some((path, mut places)) = entry_spots(files, alloc, root, plan, number, into)? else {
        return Ok(None);
    };
    match places.end() {
        Ok(Aside::Cleared) => Ok(None),
        Ok(Aside::Discarded) => Ok(Some(Notice::Discarded { path })),
        Ok(Aside::Kept { place }) => Ok(Some(Notice::Kept { path, place })),
        Err(_) if places.cause().is_known() => Err(DiskFault::Device {
            cause: places.cause(),
        }),
        Err(e) => Err(device_failed(e)),
    }
}

/// Keeps for good what a commit kept under this name, if it is of an entry that is copied into the replica.
fn end_keeping<R: Files + AllocGlobal + Clone + Drop>(
    files: &R,
    alloc: Global,
    root: &str,
    plan: &Plan,
    name: &str,
    into: Option<Side>,
) -> Result<Option<Notice>, DiskFault>
    ensures { IfOk result (λ left. IfSome left (λ notice. IsOfCopied plan.now into notice)) }
{
    let Some(number) = kept_number(name) else {
        return Ok(None);
    };
    let Some((path, places)) = entry_spots(files, alloc, root, plan, number, into)? else {
        return Ok(None);
    };
    match places.keep_named(name) {
        Ok(place) => Ok(Some(Notice::Kept { path, place })),
        Err(e) => Err(device_failed(e)),
    }
}

/// Removes what pieces have stored, if this name is that of the stage of an entry that is copied into the replica. Nothing is
/// said of it: it holds only what was copied there.
fn end_stage<R: Files + AllocGlobal + Clone + Drop>(
    files: &R,
    alloc: Global,
    root: &str,
    plan: &Plan,
    name: &str,
    into: Option<Side>,
) -> Result<(), DiskFault> {
    let Some(number) = stage_number(name) else {
        return Ok(());
    };
    if let Some(place) = own_stage(alloc, root, plan, number, into)? {
        let own = own_place(alloc, root)?;
        let _ = discard_at(files, own.as_str(), place.as_str());
    }
    Ok(())
}

/// The place of the stage of the entry of this number, if that entry is copied, and into this replica of the pair where one is
/// given.
fn own_stage(
    alloc: Global,
    root: &str,
    plan: &Plan,
    number: u32,
    into: Option<Side>,
) -> Result<Option<String>, DiskFault>
    ensures place { IfOk result (λ found. IfSome found (λ place. string_bytes place ≡ root.now ++ codes "/.twosync/stage-" ++ decimal number)) }
    ensures copied { IfOk result (λ found. IfSome found (λ _. (entry : Entry) × IsCopiedInto plan.now number into entry)) }
    ensures none { IfOk result (λ found. IfNone found (IsNoneCopied plan.now number into)) }
{
    if copied_entry(plan, number, into).is_none() {
        return Ok(None);
    }
    let own = own_place(alloc, root)?;
    Ok(Some(stage_place(alloc, own.as_str(), number)?))
}

/// The path of the entry of this number and the spots of its swap, if that entry is copied into the replica.
fn entry_spots<R: Files + AllocGlobal + Clone + Drop>(
    files: &R,
    alloc: Global,
    root: &str,
    plan: &Plan,
    number: u32,
    into: Option<Side>,
) -> Result<Option<(Path, DiskPlaces<R>)>, DiskFault>
    ensures path { IfOk result (λ found. IfSome found (λ own. IsPathCopied plan.now number into own.0)) }
    ensures target { IfOk result (λ found. IfSome found (λ own. IsTargetOf plan.now number into root.now (string_bytes own.1.at_target))) }
    ensures new { IfOk result (λ found. IfSome found (λ own. string_bytes own.1.at_new ≡ root.now ++ codes "/.twosync/new-" ++ decimal number)) }
    ensures old { IfOk result (λ found. IfSome found (λ own. string_bytes own.1.at_old ≡ root.now ++ codes "/.twosync/old-" ++ decimal number)) }
    ensures none { IfOk result (λ found. IfNone found (IsNoneCopied plan.now number into)) }
{
    let Some(entry) = copied_entry(plan, number, into) else {
        return Ok(None);
    };
    // first, so that nothing is moved of which then nothing can be said
    let path = entry.path.copy(alloc).map_err(|_| DiskFault::OutOfMemory)?;
    let files = files.clone().map_err(|_| DiskFault::OutOfMemory)?;
    match own_spots(files, alloc, root, plan, number, into)? {
        Some(places) => Ok(Some((path, places))),
        None => Ok(None),
    }
}

/// The spots of the swap of the entry of this number, if that entry is copied, and into this replica of the pair where one is
/// given. No others are ever touched by recovery.
fn own_spots<R: Drop>(
    files: R,
    alloc: Global,
    root: &str,
    plan: &Plan,
    number: u32,
    into: Option<Side>,
) -> Result<Option<DiskPlaces<R>>, DiskFault>
    ensures target { IfOk result (λ spots. IfSome spots (λ own. IsTargetOf plan.now number into root.now (string_bytes own.at_target))) }
    ensures new { IfOk result (λ spots. IfSome spots (λ own. string_bytes own.at_new ≡ root.now ++ codes "/.twosync/new-" ++ decimal number)) }
    ensures old { IfOk result (λ spots. IfSome spots (λ own. string_bytes own.at_old ≡ root.now ++ codes "/.twosync/old-" ++ decimal number)) }
    ensures none { IfOk result (λ spots. IfNone spots (IsNoneCopied plan.now number into)) }
{
    match copied_entry(plan, number, into) {
        Some(entry) => Ok(Some(DiskPlaces::new(alloc, files, root, &entry.path, number)?)),
        None => Ok(None),
    }
}
