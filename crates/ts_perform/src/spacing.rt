//! How many actions lie between two checkpoints.
ghost use Rattle.std.specs.Prelude.{◌≡◌, ◌≤◌};
ghost use Rattle.ts_perform.specs.Spacing.{IsBetween, IsSpacing, bytes_of, size_of};

use ts_check::Checked;
use ts_model::packed::{KindRef, PackedAction};
use ts_model::plan::Plan;

/// How many bytes all workers copy from one checkpoint to the next: 256 MiB.
const COPIED: u64 = 268_435_456;

/// How many actions of a worker there are at most: of small files a worker does about as many in 30 seconds.
const MOST: u32 = 65_536;

/// After how many actions of a worker a checkpoint is made where nobody says so. By then all workers together have copied
/// 256 MiB, if each action copies as much as another.
pub(crate) fn usual_spacing(checked: &Checked<'_>, workers: u32) -> u32
    requires some { 1 ≤ workers }
    requires few { workers ≤ 64 }
    ensures spacing { IsSpacing checked.now.plan workers result }
{
    spacing(checked.action_count(), plan_bytes(checked.plan()), workers)
}

/// The same of so many actions, which copy so many bytes together.
fn spacing(actions: u32, bytes: u64, workers: u32) -> u32
    requires some { 1 ≤ workers }
    requires few { workers ≤ 64 }
    ensures between { IsBetween actions bytes workers result }
{
    let of_worker = COPIED * u64::from(actions) / u64::from(workers);
    // where nothing is copied, actions alone count
    let Some(every) = of_worker.checked_div(bytes) else {
        return MOST;
    };
    match u32::try_from(every) {
        Ok(every) => every.clamp(1, MOST),
        Err(_) => MOST,
    }
}

/// How many bytes the pieces of a plan have, or the most that can be counted.
pub(crate) fn plan_bytes(plan: &Plan) -> u64
    ensures bytes { result ≡ bytes_of plan.now }
{
    let actions = plan.actions.as_slice();
    let mut bytes: u64 = 0;
    for action in actions {
        bytes = bytes.saturating_add(size_of(action));
    }
    bytes
}

/// How many bytes an action copies.
fn size_of(action: &PackedAction) -> u64
    ensures { result ≡ size_of action.now }
{
    match action.kind() {
        KindRef::Piece { length, .. } => length,
        KindRef::Commit { .. } | KindRef::Mark { .. } => 0,
    }
}
