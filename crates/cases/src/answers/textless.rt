//! Plans that no text has: with entries and pieces at the root, or with more predecessors than a plan may have.

use anyhow::{Context, Result};
use std::alloc::Global;
use ts_model::items::Items;
use ts_model::packed::{KindRef, PackedAction};
use ts_model::plan::{Entry, Kind, Plan};
use ts_model::predecessors::Predecessors;
use ts_name::Path;

/// The name of the path that stands for the root.
const ROOT: &[u8] = b"root";

/// The path that is meant.
fn path_of(alloc: Global, path: &Path) -> Result<Path> {
    if path.depth() == 1 && path.last() == Some(ROOT) {
        Ok(Path::root(alloc))
    } else {
        Ok(path.copy(alloc)?)
    }
}

fn entries_of(alloc: Global, plan: &Plan) -> Result<Vec<Entry>> {
    let mut entries = Vec::new(alloc);
    for entry in plan.entries.as_slice() {
        let path = path_of(alloc, &entry.path)?;
        let reason = entry.reason;
        entries.push(Entry { path, reason })?;
    }
    Ok(entries)
}

fn kind_of(alloc: Global, action: &PackedAction) -> Result<Kind> {
    Ok(match action.kind() {
        KindRef::Piece {
            entry,
            offset,
            length,
            path,
        } => Kind::Piece {
            entry,
            offset,
            length,
            path: path_of(alloc, path)?,
        },
        KindRef::Commit { entry } => Kind::Commit { entry },
        KindRef::Mark { entry } => Kind::Mark { entry },
    })
}

fn action_of(alloc: Global, action: &PackedAction) -> Result<PackedAction> {
    let numbers = Vec::from_slice(alloc, action.preds())?;
    let preds = Predecessors::of(alloc, numbers)?;
    let kind = kind_of(alloc, action)?;
    Ok(PackedAction::new(alloc, kind, preds)?)
}

/// The actions, of which the last waits so many times more for the first.
fn actions_of(alloc: Global, plan: &Plan, more: u32) -> Result<Vec<PackedAction>> {
    let mut actions = Vec::new(alloc);
    for action in plan.actions.as_slice() {
        actions.push(action_of(alloc, action)?)?;
    }
    if more > 0 {
        let last = actions.last_mut().context("there is no action")?;
        wait_again(alloc, last, more)?;
    }
    Ok(actions)
}

fn wait_again(alloc: Global, action: &mut PackedAction, times: u32) -> Result<()> {
    for _ in 0..times {
        action.push_pred(alloc, 0)?;
    }
    Ok(())
}

/// The plan with the root in the place of each path `/root`, and so many predecessors, all 0, added to its last action.
pub fn beyond(alloc: Global, plan: &Plan, more: u32) -> Result<Plan> {
    let entries = entries_of(alloc, plan)?;
    let actions = actions_of(alloc, plan, more)?;
    Ok(Plan {
        entries: Items::new(entries),
        actions: Items::new(actions),
    })
}
