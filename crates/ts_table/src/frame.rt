//! Tables that are split at paths, and joined again.
ghost use Rattle.std.specs.Prelude.{◌≡◌, ◌↔◌, ◌++◌, ◌+◌, ◌≤◌, IfErr, IfOk, IsTrue, drop, length, map, vec_capacity, vec_len};
ghost use Rattle.std.specs.VecDeque.{deque_len};
ghost use Rattle.std.specs.List.{AllByRecursion};
ghost use Rattle.ts_name.specs.Paths.{IsAbove, IsBefore};
ghost use Rattle.ts_model.specs.Trees.{at};
ghost use Rattle.ts_table.specs.Slots.{RoomFits, SlotFits, SlotsFit, cleared, parted, paths_of, rerouted, slot_paths};
ghost use Rattle.ts_table.specs.Splices.{spliced};
ghost use Rattle.ts_table.specs.Splits.{ArePartsAt, AreSeparate, IsFrame, MaySplit, without};
ghost use Rattle.ts_table.specs.Tables.{IsPlace, relative};

use crate::splice::move_before;
use crate::subtable::SubTable;
use crate::table::Table;
use std::alloc::{AllocError, Global};
use std::collections::VecDeque;
use std::marker::Model;
use ts_model::row::Row;
use ts_name::Path;

/// What is left of a table that was split: all but the parts at the paths of the split.
#[derive(Drop)]
pub struct Frame<F> {
    rows: Vec<Row<F>>,
    paths: Vec<Path>,
}

impl<F> Model for Frame<F> {
    ghost use Rattle.ts_table.specs.Splits.{FrameOf, IsFrame};

    ghost Value = { FrameOf F };

    ghost view = { λ f. record { rows = f.rows.items; paths = f.paths.items } };

    ghost invariant = { λ f. IsFrame (record { rows = f.rows.items; paths = f.paths.items }) };
}

impl<F> Frame<F> {
    /// The paths of the split, in order. It takes no memory.
    pub fn paths(&self) -> &[Path]
        ensures paths { result.now ≡ self.now.paths }
        ensures lawful { IsFrame self.now }
    {
        self.paths.as_slice()
    }

    /// The rows that are left, in path order.
    pub(crate) fn rows(&self) -> &[Row<F>]
        ensures { result.now ≡ self.now.rows }
    {
        self.rows.as_slice()
    }

    /// The rows that are left, in path order.
    pub(crate) fn into_rows(self) -> Vec<Row<F>>
        ensures rows { result.items ≡ self.rows }
        ensures lawful { IsFrame self }
    {
        let Frame {
            rows,
            paths: _paths,
        } = self;
        rows
    }
}

/// A part that is to be moved: its path, the paths that its rows get, and room for these rows.
#[derive(Drop)]
pub(crate) struct Slot<F> {
    pub(crate) path: Path,
    pub(crate) names: Vec<Path>,
    pub(crate) room: Vec<Row<F>>,
}

/// What `split` moves rows into, with room for all.
#[derive(Drop)]
struct Room<F> {
    slots: Vec<Slot<F>>,
    rows: Vec<Row<F>>,
    paths: Vec<Path>,
    parts: Vec<SubTable<F>>,
}

impl<F> Table<F> {
    /// Whether the table may be split at these paths: they ascend, none is above another, none is the root, and the parent
    /// of each is a directory. It takes no memory.
    pub fn may_split(&self, paths: &[Path]) -> bool
        ensures { IsTrue result ↔ MaySplit (at self.now) paths.now }
    {
        are_separate(paths) && self.are_places(paths)
    }

    fn are_places(&self, paths: &[Path]) -> bool
        ensures { IsTrue result ↔ AllByRecursion (λ p. IsPlace (at self.now) p) paths.now }
    {
        for path in paths {
            if !self.is_place(path) {
                return false;
            }
        }
        true
    }
}

/// Whether each later path comes after each earlier one, and isn't below it.
fn are_separate(paths: &[Path]) -> bool
    ensures { IsTrue result ↔ AreSeparate paths.now }
{
    let Some((first, rest)) = paths.split_first() else {
        return true;
    };
    let mut last = first;
    for path in rest {
        if !follows(path, last) {
            return false;
        }
        last = path;
    }
    true
}

/// Whether a path comes after another, and isn't below it.
fn follows(path: &Path, other: &Path) -> bool
    ensures { IsTrue result ↔ (IsBefore other.now path.now × (¬ IsAbove other.now path.now)) }
{
    *other < *path && !other.is_prefix(path)
}

impl<F: Drop> Table<F> {
    /// Takes the parts at the paths out of the table. What is left is the frame; `join` puts parts back.
    ///
    /// The paths ascend, none is above another, none is the root, and the parent of each is a directory. At some of them
    /// there may be nothing. Where memory runs out the table comes back as it was.
    pub fn split(
        self,
        alloc: Global,
        paths: &[Path],
    ) -> Result<(Frame<F>, Vec<SubTable<F>>), (Table<F>, AllocError)>
        requires { MaySplit (at self) paths.now }
        ensures paths { IfOk result (λ r. r.0.paths ≡ paths.now) }
        ensures parts { IfOk result (λ r. ArePartsAt (at self) paths.now r.1.items) }
        ensures frame { IfOk result (λ r. at r.0.rows ≡ without (at self) paths.now) }
        ensures err { IfErr result (λ r. r.0 ≡ self) }
    {
        match self.room_to_split(alloc, paths) {
            Ok(room) => {
                let (rows, paths, parts) = taken_apart(self.into_rows(), room);
                Ok((Frame { rows, paths }, parts))
            }
            Err(fault) => Err((self, fault)),
        }
    }

    fn room_to_split(&self, alloc: Global, paths: &[Path]) -> Result<Room<F>, AllocError>
        ensures room { IfOk result (λ room. RoomFits self.now room) }
        ensures paths { IfOk result (λ room. slot_paths room.slots.items ≡ paths.now) }
    {
        let mut slots = Vec::new(alloc);
        for path in paths {
            slots.push(self.slot(alloc, path)?)?;
        }
        Ok(Room {
            slots,
            rows: Vec::with_capacity(alloc, self.rows.len())?,
            paths: Vec::with_capacity(alloc, paths.len())?,
            parts: Vec::with_capacity(alloc, paths.len())?,
        })
    }

    /// The slot for what is at a path and below it.
    fn slot(&self, alloc: Global, path: &Path) -> Result<Slot<F>, AllocError>
        ensures path { IfOk result (λ slot. slot.path ≡ path.now) }
        ensures fits { IfOk result (λ slot. SlotFits self.now slot) }
    {
        let names = paths_below(alloc, path, self.sub(path))?;
        let room = Vec::with_capacity(alloc, names.len())?;
        let path = path.copy(alloc)?;
        Ok(Slot { path, names, room })
    }
}

/// The paths of rows, seen from a path above them.
fn paths_below<F>(alloc: Global, top: &Path, rows: &[Row<F>]) -> Result<Vec<Path>, AllocError>
    ensures paths { IfOk result (λ paths. paths.items ≡ paths_of (relative top.now rows.now)) }
{
    let mut paths = Vec::new(alloc);
    for row in rows {
        if let Some(path) = row.path.below(alloc, top)? {
            paths.push(path)?;
        }
    }
    Ok(paths)
}

/// The rows that stay, the paths of the slots, and for each slot its part.
fn taken_apart<F: Drop>(
    all: Vec<Row<F>>,
    room: Room<F>,
) -> (Vec<Row<F>>, Vec<Path>, Vec<SubTable<F>>)
    requires slots { SlotsFit all.items room.slots.items }
    requires room { RoomFits all.items room }
    ensures rows { result.0.items ≡ spliced all.items (map cleared (slot_paths room.slots.items)) }
    ensures paths { result.1.items ≡ slot_paths room.slots.items }
    ensures parts { result.2.items ≡ parted all.items (slot_paths room.slots.items) }
{
    let Room {
        slots,
        mut rows,
        mut paths,
        mut parts,
    } = room;
    let mut rest = VecDeque::from_vec(all);
    for slot in slots {
        let Slot { path, names, room } = slot;
        move_before(&mut rest, &mut rows, &path);
        let part = moved(&mut rest, names, room);
        let Ok(()) = parts.push(SubTable { rows: part }) else {
            unreachable!();
        };
        let Ok(()) = paths.push(path) else {
            unreachable!();
        };
    }
    let mut rest = Vec::from(rest);
    let Ok(()) = rows.append(&mut rest) else {
        unreachable!();
    };
    (rows, paths, parts)
}

/// Moves rows from the front of `rest` to the end of `out`, which has room for them: one for each path, to that path.
pub(crate) fn moved<F: Drop>(
    rest: &mut VecDeque<Row<F>>,
    names: Vec<Path>,
    mut out: Vec<Row<F>>,
) -> Vec<Row<F>>
    requires fewer { length names.items ≤ deque_len rest.old }
    requires room { vec_len out + length names.items ≤ vec_capacity out }
    ensures moved { result.items ≡ out.items ++ rerouted names.items rest.old.items }
    ensures left { rest.new.items ≡ drop (length names.items) rest.old.items }
    ensures fewer { deque_len rest.new ≤ deque_len rest.old }
{
    for path in names {
        let Some(row) = rest.pop_front() else {
            unreachable!();
        };
        let Row {
            path: _old,
            content,
        } = row;
        let Ok(()) = out.push(Row { path, content }) else {
            unreachable!();
        };
    }
    out
}
