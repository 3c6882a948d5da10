//! The pieces of files that have several.
use std::alloc::{AllocError, Global};
use ts_check::Checked;
use ts_disk::Part;
use ts_model::packed::KindRef;
use ts_model::plan::Plan;

/// The pieces of a plan's files that have several, in ascending order.
pub(crate) fn parts_of(alloc: Global, checked: &Checked<'_>) -> Result<Vec<Part>, AllocError> {
    let plan = checked.plan();
    let mut counts = Vec::new(alloc);
    for commit in 0..checked.action_count() {
        count_pieces(plan, checked.pieces(commit), &mut counts)?;
    }
    counts.sort_unstable();
    let mut parts = Vec::with_capacity(alloc, counts.len())?;
    for (piece, word) in counts.as_slice() {
        parts.push(Part {
            piece: *piece,
            word: *word,
        })?;
    }
    Ok(parts)
}

/// Counts the pieces of a commit, which come by path and then by offset: each file's together, and the one that begins it first.
fn count_pieces(
    plan: &Plan,
    pieces: &[u32],
    counts: &mut Vec<(u32, u32)>,
) -> Result<(), AllocError> {
    let mut first = 0u32;
    let mut count: Option<usize> = None;
    for piece in pieces {
        if offset_of(plan, *piece) == 0 {
            first = *piece;
            count = None;
        } else {
            let index = match count {
                Some(index) => index,
                None => {
                    counts.push((first, 1))?;
                    counts.len() - 1
                }
            };
            if let Some(counted) = counts.get_mut(index) {
                counted.1 = counted.1.saturating_add(1);
            }
            counts.push((*piece, first))?;
            count = Some(index);
        }
    }
    Ok(())
}

/// Where the bytes of a piece begin in its file.
fn offset_of(plan: &Plan, piece: u32) -> u64 {
    match plan.actions.as_slice().get(piece as usize) {
        Some(action) => match action.kind() {
            KindRef::Piece { offset, .. } => offset,
            KindRef::Commit { .. } | KindRef::Mark { .. } => 0,
        },
        None => 0,
    }
}
