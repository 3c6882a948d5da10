//! Sites go into the slots of their commits, and come back where the board can't be opened.
ghost use Rattle.std.specs.Prelude.{ℕ, List, ◌≡◌, ◌≤◌, ◌<◌, ◌+◌, ◌∷◌, ◌++◌, [], IfOk, IfErr, length};
ghost use Rattle.std.specs.Vec.Iter.{into_iter_items, into_iter_len};
ghost use Rattle.std.specs.Vec.{vec_capacity, vec_len};
ghost use Rattle.ts_model.specs.declared.plan.Action.{Action};
ghost use Rattle.ts_board.specs.Terms.{placed, sites_in};

use crate::law::Slot;
use std::alloc::Global;
use std::vec::IntoIter;
use ts_model::packed::{KindRef, PackedAction};
use ts_model::plan::Plan;

/// A list of so many slots takes 128 KiB, and so comes from the system and goes back there.
const MANY_SLOTS: usize = 8_192;

/// For how many slots there is room, where there are many: they take more than 32 MiB. When a list of that size is freed, a C library
/// doesn't take it as a sign that as much may be kept (`ts_model::lists`). Room that no slot uses takes no memory.
const MUCH_ROOM: usize = 2_200_000;

/// For how many slots there is room in a list of so many.
fn room_for(slots: usize) -> usize
    ensures { slots ≤ result }
{
    if slots < MANY_SLOTS {
        slots
    } else {
        slots.max(MUCH_ROOM)
    }
}

/// The slot of an action at the start: that of a commit has the next site.
fn slot_for<S: Drop>(action: &PackedAction, sites: &mut IntoIter<S>) -> Slot<S>
    ensures { (more : List Action) → placed (action.now ∷ more) (into_iter_items sites.old) ≡ result ∷ placed more (into_iter_items sites.new) }
{
    match action.kind() {
        KindRef::Commit { .. } => match sites.next() {
            Some(site) => Slot::Place(site),
            None => Slot::Empty,
        },
        KindRef::Piece { .. } => Slot::Empty,
        KindRef::Mark { .. } => Slot::Empty,
    }
}

/// A slot for each action, with the sites in those of the commits.
pub fn slots_with<S: Drop>(
    alloc: Global,
    plan: &Plan,
    sites: Vec<S>,
) -> Result<Vec<Slot<S>>, Vec<S>>
    ensures placed { IfOk result (λ slots. slots.items ≡ placed plan.now.actions sites.items) }
    ensures back { IfErr result (λ back. back.items ≡ sites.items) }
{
    let actions = plan.actions.as_slice();
    let Ok(mut slots) = Vec::with_capacity(alloc, room_for(actions.len())) else {
        return Err(sites);
    };
    let mut rest = sites.into_iter();
    for action in actions {
        let slot = slot_for(action, &mut rest);
        slots.push_reserved(slot);
    }
    Ok(slots)
}

/// The sites in the slots, at the end of a list that has room for them.
pub fn sites_from<S: Drop>(slots: Vec<Slot<S>>, mut back: Vec<S>) -> Vec<S>
    requires { vec_len back + length (sites_in slots.items) ≤ vec_capacity back }
    ensures { result.items ≡ back.items ++ sites_in slots.items }
{
    for slot in slots {
        if let Some(site) = slot.into_site() {
            back.push_reserved(site);
        }
    }
    back
}
