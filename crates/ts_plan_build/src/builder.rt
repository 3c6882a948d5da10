ghost use Rattle.std.specs.Prelude.{◌≡◌, ◌<◌, ◌≤◌, IfOk, IfErr, OnOk, length};
ghost use Rattle.ts_model.specs.Plans.{Valid};
ghost use Rattle.ts_model.specs.Texts.{IsPlan};
ghost use Rattle.ts_recon.specs.Reasons.{AreReasons, ForEachSnapshotOf};
ghost use Rattle.ts_model.specs.Plans.{action_limit, entry_limit};
ghost use Rattle.ts_plan_build.specs.Built.{AreLeft, AreOrdered, IsBuilt, IsKept, IsNearest};
ghost use Rattle.ts_plan_build.specs.Planned.{IsPastLimit, planned_actions};

use crate::block::add_entry;
use crate::fault::BuildFault;
use std::alloc::{AllocError, Global};
use ts_model::items::Items;
use ts_model::packed::PackedAction;
use ts_model::plan::{ACTION_LIMIT, ENTRY_LIMIT, Entry, Plan, Reason, Side};
use ts_name::Path;
use ts_print::Print;

/// A new directory above the path that the builder is at, and the number of its mark.
#[derive(Clone, Copy)]
struct NewDir<'a> {
    path: &'a Path,
    mark: u32,
}

/// The plan of these entries, which are the reasons of the prints: for each entry in order its pieces, its commit and its
/// mark, as far as it has them. It is valid, and has a text.
///
/// # Errors
///
/// `PastLimit` exactly where there are more than 1,048,576 entries, or their plan would have more than 1,048,576 actions;
/// it then has no more predecessors than a plan may have. Or memory ran out.
pub fn build(
    alloc: Global,
    archive: &Print,
    first: &Print,
    second: &Print,
    entries: Vec<Entry>,
) -> Result<Plan, BuildFault>
    requires { AreOrdered entries.items }
    ensures entries { IfOk result (λ plan. plan.entries ≡ entries.items) }
    ensures valid { ForEachSnapshotOf archive.now first.now second.now
        (λ s. AreReasons s entries.items → IfOk result (λ plan. Valid s plan)) }
    ensures fits { ForEachSnapshotOf archive.now first.now second.now
        (λ s. AreReasons s entries.items → IfOk result (λ plan. IsPlan plan)) }
    ensures within { OnOk result (¬ IsPastLimit first.now second.now entries.items) }
    ensures past { IfErr result (λ fault. fault ≡ BuildFault.PastLimit → IsPastLimit first.now second.now entries.items) }
{
    // the entries and the replicas tell the actions; with the archive they tell that paths are lawful
    let _archive = archive.rows();
    if entries.len() > ENTRY_LIMIT {
        return Err(BuildFault::PastLimit);
    }
    let _first = first.rows();
    let _second = second.rows();
    let actions = actions_of(alloc, first, second, entries.as_slice())?;
    Ok(Plan {
        entries: Items::new(entries),
        actions: Items::new(actions),
    })
}

/// The actions of the entries, which ascend by path.
fn actions_of(
    alloc: Global,
    first: &Print,
    second: &Print,
    entries: &[Entry],
) -> Result<Vec<PackedAction>, BuildFault>
    requires limit { length entries.now ≤ entry_limit }
    requires ascending { AreOrdered entries.now }
    ensures built { IfOk result (λ actions. IsBuilt first.now second.now entries.now actions.items (length entries.now)) }
    ensures limit { IfOk result (λ actions. length actions.items ≤ action_limit) }
    ensures count { IfOk result (λ actions. length actions.items ≡ planned_actions first.now second.now entries.now) }
    ensures past { IfErr result (λ fault. fault ≡ BuildFault.PastLimit → action_limit < planned_actions first.now second.now entries.now) }
{
    let mut actions = Vec::with_capacity(alloc, room_for(first, second, entries))?;
    // the new directories above the path, the nearest one last
    let mut dirs = Vec::new(alloc);
    for number in 0..entries.len() {
        let entry = &entries[number];
        leave(&mut dirs, &entry.path);
        let above = nearest(dirs.as_slice());
        let mark = actions.len() as u32;
        add_entry(
            alloc,
            &mut actions,
            number as u32,
            entry,
            above,
            first,
            second,
        )?;
        keep(&mut dirs, entry, mark)?;
    }
    // they stay as long as the plan does
    actions.shrink_to_fit();
    Ok(actions)
}

/// How many actions the entries have, where no file has a second piece. It only says
/// how much room is made, so that a long list is not moved while it grows.
fn room_for(first: &Print, second: &Print, entries: &[Entry]) -> usize {
    let mut room = 0usize;
    for entry in entries {
        let rows = match entry.reason.source() {
            Some(Side::First) => first.sub(&entry.path).len(),
            Some(Side::Second) => second.sub(&entry.path).len(),
            None => 0,
        };
        room = room.saturating_add(rows).saturating_add(2);
    }
    room.min(ACTION_LIMIT)
}

/// Puts the entry at the end of the directories, where it is a new one.
fn keep<'a>(dirs: &mut Vec<NewDir<'a>>, entry: &'a Entry, mark: u32) -> Result<(), AllocError>
    ensures { IfOk result (λ _. IsKept entry.now mark dirs.old.items dirs.new.items) }
{
    if entry.reason == Reason::Dir {
        dirs.push(NewDir {
            path: &entry.path,
            mark,
        })?;
    }
    Ok(())
}

/// Takes off the directories that aren't above the path.
fn leave(dirs: &mut Vec<NewDir>, path: &Path)
    ensures { AreLeft path.now dirs.old.items dirs.new.items }
{
    while let Some(dir) = dirs.as_slice().last() {
        if dir.path.is_prefix(path) {
            break;
        }
        dirs.pop();
    }
}

/// The mark of the nearest directory.
fn nearest(dirs: &[NewDir]) -> Option<u32>
    ensures { IsNearest dirs.now result }
{
    match dirs {
        [.., dir] => Some(dir.mark),
        [] => None,
    }
}
