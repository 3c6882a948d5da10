//! Whether a plan has a text.
ghost use Rattle.std.specs.List.{AllByRecursion};
ghost use Rattle.std.specs.Prelude.{IsTrue, ◌≡◌, ◌↔◌, ◌<◌, ◌^◌, length};
ghost use Rattle.ts_model.specs.Texts.{IsPlan, KindFits, PathFits};
ghost use Rattle.ts_plan.specs.Fitting.{AreActions};

use ts_model::packed::{KindRef, PackedAction};
use ts_model::plan::{ACTION_LIMIT, ENTRY_LIMIT, Entry, PRED_LIMIT, Plan};
use ts_name::Path;

/// Whether a path can stand in a plan's text: any can but the root.
fn path_fits(path: &Path) -> bool
    ensures { IsTrue result ↔ PathFits path.now }
{
    path.depth() > 0
}

/// Whether each entry can stand in a plan's text.
fn entries_fit(entries: &[Entry]) -> bool
    ensures { IsTrue result ↔ AllByRecursion (λ e. PathFits e.path) entries.now }
{
    entries.iter().all(|entry| path_fits(&entry.path))
}

/// Whether an action can stand in a plan's text, but for its predecessors: any can but a piece of the root.
fn kind_fits(action: &PackedAction) -> bool
    ensures { IsTrue result ↔ KindFits action.now.kind }
{
    match action.kind() {
        KindRef::Piece {
            entry,
            offset,
            length,
            path,
        } => {
            // The types of the numbers bound them.
            let _numbers = (entry, offset, length);
            path_fits(path)
        }
        KindRef::Commit { entry } | KindRef::Mark { entry } => {
            let _number = entry;
            true
        }
    }
}

/// How many predecessors these are. Each is short, as its type says.
fn pred_count(preds: &[u32]) -> usize
    ensures count { result ≡ length preds.now }
    ensures short { AllByRecursion (λ j. j < 2 ^ 32) preds.now }
{
    preds.len()
}

/// Whether each action can stand in a plan's text, and all of them together have no more predecessors than a plan may have.
fn actions_fit(actions: &[PackedAction]) -> bool
    ensures { IsTrue result ↔ AreActions actions.now }
{
    let mut total: usize = 0;
    for action in actions {
        let count = pred_count(action.preds());
        if count > PRED_LIMIT - total || !kind_fits(action) {
            return false;
        }
        total += count;
    }
    true
}

/// Whether a plan has a text, so that `encode` may write it: it is within the limits, and none of its entries and pieces is at the
/// root. Any plan that was read or built has one. It takes no memory.
pub fn fits(plan: &Plan) -> bool
    ensures { IsTrue result ↔ IsPlan plan.now }
{
    let entries = plan.entries.as_slice();
    let actions = plan.actions.as_slice();
    entries.len() <= ENTRY_LIMIT
        && actions.len() <= ACTION_LIMIT
        && entries_fit(entries)
        && actions_fit(actions)
}
