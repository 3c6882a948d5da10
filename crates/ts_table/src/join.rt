//! Parts that are put at the paths of a frame.
ghost use Rattle.std.specs.Prelude.{◌≡◌, ◌+◌, ◌≤◌, ◌++◌, [], IfErr, IfOk, IsErrOf, length, map, sum_by, vec_capacity, vec_len};
ghost use Rattle.std.specs.List.{AllByRecursion};
ghost use Rattle.ts_name.specs.Paths.{IsPath};
ghost use Rattle.ts_model.specs.Trees.{IsSubListing, at};
ghost use Rattle.ts_table.specs.Slots.{HasRoom, PartsFit, paths_of, slot_paths};
ghost use Rattle.ts_table.specs.Splices.{ArePaths, grafted, put_of, spliced};
ghost use Rattle.ts_table.specs.Splits.{edits_of, FillsEach};
ghost use Rattle.ts_table.specs.Tables.{placed};

use crate::fault::TableFault;
use crate::frame::{Frame, Slot, moved};
use crate::splice::{Put, merged};
use crate::subtable::{SubTable, joined};
use crate::table::Table;
use std::alloc::Global;
use std::collections::VecDeque;
use ts_model::items::Items;
use ts_model::row::Row;
use ts_name::Path;

/// What `join` moves rows into, with room for all.
#[derive(Drop)]
struct Space<F> {
    slots: Vec<Slot<F>>,
    puts: Vec<Put<F>>,
    rows: Vec<Row<F>>,
}

impl<F: Drop> Table<F> {
    /// Puts each part at its path of the frame, in their order; there are as many parts as paths.
    ///
    /// `TooLong` where a path would be past the limits. After a fault the frame and the parts come back as they were.
    pub fn join(
        alloc: Global,
        frame: Frame<F>,
        parts: Vec<SubTable<F>>,
    ) -> Result<Table<F>, (Frame<F>, Vec<SubTable<F>>, TableFault)>
        requires { length parts.items ≡ length frame.paths }
        ensures ok { IfOk result (λ table. at table ≡ grafted (at frame.rows) (edits_of frame.paths parts.items)) }
        ensures whole { IfOk result (λ table. FillsEach frame parts.items (at table)) }
        ensures paths { IfOk result (λ _. ArePaths (edits_of frame.paths parts.items)) }
        ensures err { IfErr result (λ r. (r.0 ≡ frame) × (r.1.items ≡ parts.items)) }
        ensures too_long { IfErr result (λ r. r.2 ≡ TableFault.TooLong → ¬ ArePaths (edits_of frame.paths parts.items)) }
    {
        match space_for(alloc, &frame, &parts) {
            Ok(space) => {
                let Space { slots, puts, rows } = space;
                let puts = put_down(slots, parts, puts);
                let rows = merged(VecDeque::from_vec(frame.into_rows()), puts, rows);
                Ok(Table { rows })
            }
            Err(fault) => Err((frame, parts, fault)),
        }
    }
}

/// Room for all that `join` moves.
fn space_for<F>(
    alloc: Global,
    frame: &Frame<F>,
    parts: &[SubTable<F>],
) -> Result<Space<F>, TableFault>
where
    F: Drop,
    requires { length parts.now ≡ length frame.now.paths }
    ensures slots { IfOk result (λ space. slot_paths space.slots.items ≡ frame.now.paths) }
    ensures fit { IfOk result (λ space. PartsFit space.slots.items parts.now) }
    ensures no_puts { IfOk result (λ space. space.puts.items ≡ []) }
    ensures puts_room { IfOk result (λ space. length space.slots.items ≤ vec_capacity space.puts) }
    ensures no_rows { IfOk result (λ space. space.rows.items ≡ []) }
    ensures rows_room { IfOk result (λ space. length frame.now.rows + sum_by (λ slot. length slot.names.items) space.slots.items ≤ vec_capacity space.rows) }
    ensures listings { IfOk result (λ _. AllByRecursion (λ part. IsSubListing part) parts.now) }
    ensures paths { IfOk result (λ _. ArePaths (edits_of frame.now.paths parts.now)) }
    ensures too_long { IsErrOf result TableFault.TooLong → ¬ ArePaths (edits_of frame.now.paths parts.now) }
{
    let mut slots = Vec::new(alloc);
    let mut room = frame.rows().len();
    for (index, path) in frame.paths().iter().enumerate() {
        let slot = slot_at(alloc, path, &parts[index])?;
        room = room
            .checked_add(slot.names.len())
            .ok_or(TableFault::OutOfMemory)?;
        slots.push(slot)?;
    }
    let puts = Vec::with_capacity(alloc, slots.len())?;
    let rows = Vec::with_capacity(alloc, room)?;
    Ok(Space { slots, puts, rows })
}

/// The slot for a part that is to stand at a path.
fn slot_at<F: Drop>(alloc: Global, path: &Path, part: &SubTable<F>) -> Result<Slot<F>, TableFault>
    ensures path { IfOk result (λ slot. slot.path ≡ path.now) }
    ensures names { IfOk result (λ slot. slot.names.items ≡ paths_of (placed path.now part.now)) }
    ensures room { IfOk result HasRoom }
    ensures listing { IsSubListing part.now }
    ensures paths { IfOk result (λ _. AllByRecursion (λ row. IsPath row.path) (placed path.now part.now)) }
    ensures too_long { IsErrOf result TableFault.TooLong → ¬ AllByRecursion (λ row. IsPath row.path) (placed path.now part.now) }
{
    let names = paths_at(alloc, path, part.rows())?;
    let room = Vec::with_capacity(alloc, names.len())?;
    let path = path.copy(alloc)?;
    Ok(Slot { path, names, room })
}

/// The paths of rows, as they stand below a path.
fn paths_at<F>(alloc: Global, top: &Path, rows: &[Row<F>]) -> Result<Vec<Path>, TableFault>
    ensures names { IfOk result (λ names. names.items ≡ paths_of (placed top.now rows.now)) }
    ensures paths { IfOk result (λ _. AllByRecursion (λ row. IsPath row.path) (placed top.now rows.now)) }
    ensures too_long { IsErrOf result TableFault.TooLong → ¬ AllByRecursion (λ row. IsPath row.path) (placed top.now rows.now) }
{
    let mut paths = Vec::new(alloc);
    for row in rows {
        paths.push(joined(alloc, top, &row.path)?)?;
    }
    Ok(paths)
}

/// Moves the rows of each part into its slot.
fn put_down<F: Drop>(
    slots: Vec<Slot<F>>,
    parts: Vec<SubTable<F>>,
    mut puts: Vec<Put<F>>,
) -> Vec<Put<F>>
    requires fit { PartsFit slots.items parts.items }
    requires room { vec_len puts + length slots.items ≤ vec_capacity puts }
    ensures { result.items ≡ puts.items ++ map put_of (edits_of (slot_paths slots.items) parts.items) }
{
    let mut rest = VecDeque::from_vec(parts);
    for slot in slots {
        let Some(part) = rest.pop_front() else {
            unreachable!();
        };
        let Slot { path, names, room } = slot;
        let mut rows = VecDeque::from_vec(part.into_rows());
        let rows = Items::new(moved(&mut rows, names, room));
        let Ok(()) = puts.push(Put { path, rows }) else {
            unreachable!();
        };
    }
    puts
}
