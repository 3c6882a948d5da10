//! Many changes of a table in one pass.
ghost use Rattle.std.specs.Prelude.{◌≡◌, ◌++◌, ◌+◌, ◌≤◌, IfOk, IsErrOf, OnErr, OnOk, length, map, sum_by, take, vec_capacity, vec_len};
ghost use Rattle.std.specs.VecDeque.{deque_len};
ghost use Rattle.std.specs.List.{AllByRecursion};
ghost use Rattle.ts_model.specs.Trees.{Ascend, IsSubListing, at};
ghost use Rattle.ts_table.specs.Splices.{ArePaths, ArePlaces, AreInOrder, ComeFirst, comes_before, grafted, lead, put_of, spliced, stands_below, trail};

use crate::fault::TableFault;
use crate::subtable::SubTable;
use crate::table::Table;
use std::alloc::{AllocError, Global};
use std::collections::VecDeque;
use std::mem;
use ts_model::items::Items;
use ts_model::row::Row;
use ts_name::Path;

/// What is to stand at a path and below it.
#[derive(Drop)]
pub struct Edit<F> {
    pub path: Path,
    pub part: SubTable<F>,
}

/// The rows that are put in the place of a path and what is below it.
#[derive(Drop)]
pub(crate) struct Put<F> {
    pub(crate) path: Path,
    pub(crate) rows: Items<Row<F>>,
}

impl<F: Drop> Table<F> {
    /// Makes many edits in one pass, each after the one before it: the paths ascend, and an edit may stand below an
    /// earlier one, where that one's rows all come before it, as those of a bare directory do. The rows before the first path
    /// stay where they are, so that only those behind it are laid out twice.
    ///
    /// `TooLong` where a path would be past the limits. After an error nothing has changed, and the edits are dropped.
    pub fn splice(&mut self, alloc: Global, edits: Vec<Edit<F>>) -> Result<(), TableFault>
        requires places { ArePlaces (at self.old) edits.items }
        requires order { AreInOrder edits.items }
        ensures ok { OnOk result (at self.new ≡ grafted (at self.old) edits.items) }
        ensures paths { OnOk result (ArePaths edits.items) }
        ensures too_long { IsErrOf result TableFault.TooLong → ¬ ArePaths edits.items }
        ensures err { OnErr result (self.new ≡ self.old) }
    {
        let (puts, room) = puts_for(alloc, edits)?;
        self.rows.reserve(room)?;
        let start = rows_before(&self.rows, puts.as_slice());
        let rest = cut_off(alloc, &mut self.rows, start)?;
        let out = mem::replace(&mut self.rows, Vec::new(alloc));
        self.rows = merged(rest, puts, out);
        Ok(())
    }
}

/// What the edits put down, and how many rows that is in all. An error drops the edits.
fn puts_for<F: Drop>(alloc: Global, edits: Vec<Edit<F>>) -> Result<(Vec<Put<F>>, usize), TableFault>
    ensures puts { IfOk result (λ r. r.0.items ≡ map put_of edits.items) }
    ensures room { IfOk result (λ r. r.1 ≡ sum_by (λ put. length put.rows) r.0.items) }
    ensures listings { IfOk result (λ _. AllByRecursion (λ edit. IsSubListing edit.part) edits.items) }
    ensures paths { OnOk result (ArePaths edits.items) }
    ensures too_long { IsErrOf result TableFault.TooLong → ¬ ArePaths edits.items }
{
    let mut puts = Vec::with_capacity(alloc, edits.len())?;
    let mut room = 0usize;
    for edit in edits {
        let Edit { path, part } = edit;
        let rows = part.placed(alloc, &path)?;
        room = room.checked_add(rows.len()).ok_or(TableFault::OutOfMemory)?;
        puts.push(Put {
            path,
            rows: Items::new(rows),
        })?;
    }
    Ok((puts, room))
}

/// How many rows come before the path of the first put; all, where there is none.
fn rows_before<F>(rows: &[Row<F>], puts: &[Put<F>]) -> usize
    requires { Ascend rows.now }
    ensures within { result ≤ length rows.now }
    ensures before { ComeFirst puts.now (take result rows.now) }
{
    match puts.first() {
        Some(put) => rows.partition_point(|row| row.path < put.path),
        None => rows.len(),
    }
}

/// Moves the rows from a place on into a queue. Where memory runs out nothing changes.
fn cut_off<F>(
    alloc: Global,
    rows: &mut Vec<Row<F>>,
    start: usize,
) -> Result<VecDeque<Row<F>>, AllocError>
    requires { start ≤ vec_len rows.old }
    ensures front { OnOk result (rows.new.items ≡ take start rows.old.items) }
    ensures rest { IfOk result (λ rest. rows.new.items ++ rest.items ≡ rows.old.items) }
    ensures len { IfOk result (λ rest. vec_len rows.new + deque_len rest ≡ vec_len rows.old) }
    ensures capacity { vec_capacity rows.new ≡ vec_capacity rows.old }
    ensures err { OnErr result (rows.new ≡ rows.old) }
{
    let mut rest = VecDeque::with_capacity(alloc, rows.len() - start)?;
    while start < rows.len() {
        let Some(row) = rows.pop() else {
            unreachable!();
        };
        rest.push_front_reserved(row);
    }
    Ok(rest)
}

/// The rows with those of each put at its path, gathered in `out`, which has room for all.
pub(crate) fn merged<F: Drop>(
    mut rest: VecDeque<Row<F>>,
    puts: Vec<Put<F>>,
    mut out: Vec<Row<F>>,
) -> Vec<Row<F>>
    requires { vec_len out + deque_len rest + sum_by (λ put. length put.rows) puts.items ≤ vec_capacity out }
    ensures { result.items ≡ out.items ++ spliced rest.items puts.items }
{
    for put in puts {
        let Put { path, rows } = put;
        move_before(&mut rest, &mut out, &path);
        drop_below(&mut rest, &path);
        let mut rows = rows.into_vec();
        let Ok(()) = out.append(&mut rows) else {
            unreachable!();
        };
    }
    let mut rest = Vec::from(rest);
    let Ok(()) = out.append(&mut rest) else {
        unreachable!();
    };
    out
}

/// Moves the rows before a path to the end of `out`, which has room for them.
pub(crate) fn move_before<F: Drop>(rest: &mut VecDeque<Row<F>>, out: &mut Vec<Row<F>>, path: &Path)
    requires { vec_len out.old + deque_len rest.old ≤ vec_capacity out.old }
    ensures moved { out.new.items ≡ out.old.items ++ lead (comes_before path.now) rest.old.items }
    ensures left { rest.new.items ≡ trail (comes_before path.now) rest.old.items }
    ensures room { vec_len out.new + deque_len rest.new ≡ vec_len out.old + deque_len rest.old }
    ensures capacity { vec_capacity out.old ≤ vec_capacity out.new }
{
    while rest.front().is_some_and(|row| row.path < *path) {
        let Some(row) = rest.pop_front() else {
            unreachable!();
        };
        let Ok(()) = out.push(row) else {
            unreachable!();
        };
    }
}

/// Drops the rows at a path and below it from the front.
fn drop_below<F: Drop>(rest: &mut VecDeque<Row<F>>, path: &Path)
    ensures left { rest.new.items ≡ trail (stands_below path.now) rest.old.items }
    ensures fewer { deque_len rest.new ≤ deque_len rest.old }
{
    while rest.front().is_some_and(|row| is_below(row, path)) {
        let _gone = rest.pop_front();
    }
}

fn is_below<F>(row: &Row<F>, path: &Path) -> bool
    ensures { result ≡ stands_below path.now row.now }
{
    path.is_prefix(&row.path)
}
