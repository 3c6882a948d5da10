ghost use Rattle.std.specs.Prelude.{◌≡◌, ◌+◌, ◌-◌, ◌≤◌, ◌<◌, ◌++◌, ◌∷◌, [], IfOk, IfErr, OnOk, cond, length, min, sum_by};
ghost use Rattle.ts_model.specs.Plans.{action_limit};
ghost use Rattle.ts_plan_build.specs.Blocks.{commit_of, copy_block, each_below, mark_of, piece_count, piece_of, pieces_of, some_of, entry_block};
ghost use Rattle.ts_plan_build.specs.Planned.{row_count, entry_actions};

use crate::fault::BuildFault;
use std::alloc::{AllocError, Global};
use ts_model::packed::PackedAction;
use ts_model::plan::{ACTION_LIMIT, Entry, Kind, PIECE_SIZE, Side, Treatment};
use ts_model::predecessors::Predecessors;
use ts_model::row::{Content, Row, Stamp};
use ts_name::Path;
use ts_print::Print;

/// Adds the actions of an entry: its pieces, its commit and its mark, as far as it has them. `above` is the mark of the
/// nearest new directory above its path.
pub(crate) fn add_entry(
    alloc: Global,
    actions: &mut Vec<PackedAction>,
    number: u32,
    entry: &Entry,
    above: Option<u32>,
    first: &Print,
    second: &Print,
) -> Result<(), BuildFault>
    requires { length actions.old.items ≤ action_limit }
    ensures added { OnOk result (actions.new.items ≡ actions.old.items ++ entry_block first.now second.now number entry.now above (length actions.old.items)) }
    ensures limit { OnOk result (length actions.new.items ≤ action_limit) }
    ensures past { IfErr result (λ fault. fault ≡ BuildFault.PastLimit → action_limit < length actions.old.items + entry_actions first.now second.now entry.now) }
{
    match entry.reason.treatment() {
        Treatment::Agreed | Treatment::NewDirectory => {
            add_mark(alloc, actions, number, above, None)
        }
        Treatment::Copied(Side::First) => {
            add_copy(alloc, actions, number, first.sub(&entry.path), above)
        }
        Treatment::Copied(Side::Second) => {
            add_copy(alloc, actions, number, second.sub(&entry.path), above)
        }
        Treatment::Skipped => Ok(()),
    }
}

/// Adds the actions of an entry that is copied, of the rows at its path and below it.
fn add_copy(
    alloc: Global,
    actions: &mut Vec<PackedAction>,
    entry: u32,
    rows: &[Row<Stamp>],
    above: Option<u32>,
) -> Result<(), BuildFault>
    requires { length actions.old.items ≤ action_limit }
    ensures added { OnOk result (actions.new.items ≡ actions.old.items ++ copy_block entry rows.now above (length actions.old.items)) }
    ensures limit { OnOk result (length actions.new.items ≤ action_limit) }
    ensures past { IfErr result (λ fault. fault ≡ BuildFault.PastLimit → action_limit < length actions.old.items + (sum_by row_count rows.now + 2)) }
{
    let from = actions.len() as u32;
    for row in rows {
        if let Content::File(stamp) = row.content {
            add_file(alloc, actions, entry, &row.path, stamp.size)?;
        }
    }
    let to = actions.len() as u32;
    let pieces = Predecessors::of(alloc, numbers(alloc, from, to)?)?;
    push(alloc, actions, Kind::Commit { entry }, pieces)?;
    add_mark(alloc, actions, entry, above, Some(to))
}

/// Adds the pieces of a file.
fn add_file(
    alloc: Global,
    actions: &mut Vec<PackedAction>,
    entry: u32,
    path: &Path,
    size: u64,
) -> Result<(), BuildFault>
    requires { length actions.old.items ≤ action_limit }
    ensures added { OnOk result (actions.new.items ≡ actions.old.items ++ each_below (piece_of entry path.now size) (piece_count size)) }
    ensures limit { OnOk result (length actions.new.items ≤ action_limit) }
    ensures past { IfErr result (λ fault. fault ≡ BuildFault.PastLimit → action_limit < length actions.old.items + piece_count size) }
{
    let count = count_pieces(size);
    for piece in 0..count {
        let offset = piece * PIECE_SIZE;
        let path = path.copy(alloc)?;
        let kind = Kind::Piece {
            entry,
            offset,
            length: PIECE_SIZE.min(size - offset),
            path,
        };
        push(alloc, actions, kind, Predecessors::none())?;
    }
    Ok(())
}

/// How many pieces a file of this size has.
fn count_pieces(size: u64) -> u64
    ensures { result ≡ piece_count size }
{
    if size == 0 {
        0
    } else {
        (size - 1) / PIECE_SIZE + 1
    }
}

/// Adds the mark of an entry, which waits for these two.
fn add_mark(
    alloc: Global,
    actions: &mut Vec<PackedAction>,
    entry: u32,
    above: Option<u32>,
    commit: Option<u32>,
) -> Result<(), BuildFault>
    requires { length actions.old.items ≤ action_limit }
    ensures added { OnOk result (actions.new.items ≡ actions.old.items ++ mark_of entry above commit ∷ []) }
    ensures limit { OnOk result (length actions.new.items ≤ action_limit) }
    ensures past { IfErr result (λ fault. fault ≡ BuildFault.PastLimit → action_limit < length actions.old.items + 1) }
{
    let mut preds = Predecessors::none();
    if let Some(mark) = above {
        preds.push(alloc, mark)?;
    }
    if let Some(commit) = commit {
        preds.push(alloc, commit)?;
    }
    push(alloc, actions, Kind::Mark { entry }, preds)
}

/// Adds an action, where there is room for one more.
fn push(
    alloc: Global,
    actions: &mut Vec<PackedAction>,
    kind: Kind,
    preds: Predecessors,
) -> Result<(), BuildFault>
    requires { length actions.old.items ≤ action_limit }
    ensures added { OnOk result (actions.new.items ≡ actions.old.items ++ record { kind = kind; preds = preds } ∷ []) }
    ensures limit { OnOk result (length actions.new.items ≤ action_limit) }
    ensures past { IfErr result (λ fault. fault ≡ BuildFault.PastLimit → action_limit < length actions.old.items + 1) }
{
    if actions.len() >= ACTION_LIMIT {
        return Err(BuildFault::PastLimit);
    }
    actions.push(PackedAction::new(alloc, kind, preds)?)?;
    Ok(())
}

/// The numbers of a range.
fn numbers(alloc: Global, from: u32, to: u32) -> Result<Vec<u32>, AllocError>
    requires { from ≤ to }
    ensures { IfOk result (λ found. found.items ≡ each_below (λ i. from + i) (to - from)) }
{
    let mut found = Vec::with_capacity(alloc, (to - from) as usize)?;
    for number in from..to {
        found.push(number)?;
    }
    Ok(found)
}
