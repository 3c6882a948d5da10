//! The pieces of each entry.

ghost use Rattle.std.specs.Prelude.{◌≡◌, ◌≤◌, IfOk, length};
ghost use Rattle.ts_check.specs.Pieces.{AreAllPieces, AreInOrder, IsStagedMap, by_entry};
ghost use Rattle.ts_model.specs.Plans.{action_limit};
ghost use Rattle.ts_model.specs.Trees.{IsListing};

use crate::lists::Lists;
use crate::standing::Place;
use std::alloc::{AllocError, Global};
use ts_model::plan::Plan;
use ts_model::row::{Row, Stamp};

/// Each piece's entry and number, by entry, file and offset.
fn piece_pairs(alloc: Global, staged: &[(Place, u32)]) -> Result<Vec<(u32, u32)>, AllocError>
    ensures { IfOk result (λ pairs. pairs.items ≡ by_entry staged.now) }
{
    let mut pairs = Vec::with_capacity(alloc, staged.len())?;
    for found in staged {
        pairs.push((found.0.0, found.1))?;
    }
    Ok(pairs)
}

/// The pieces of each entry.
pub fn piece_lists(
    alloc: Global,
    plan: &Plan,
    _first: &[Row<Stamp>],
    _second: &[Row<Stamp>],
    staged: &[(Place, u32)],
) -> Result<Lists, AllocError>
    requires first { IsListing _first.now }
    requires second { IsListing _second.now }
    requires staged { IsStagedMap _first.now _second.now plan.now (length plan.now.actions) staged.now }
    requires order { AreInOrder staged.now }
    requires few { length staged.now ≤ action_limit }
    ensures { IfOk result (AreAllPieces plan.now) }
{
    let pairs = piece_pairs(alloc, staged)?;
    Lists::of_pairs(alloc, plan.entries.as_slice().len(), &pairs)
}
