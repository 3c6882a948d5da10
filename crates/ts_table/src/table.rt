//! A table of paths.
ghost use Rattle.std.specs.Prelude.{◌≡◌, ◌↔◌, ◌++◌, ◌∷◌, [], if◌then◌else◌, is_ok, false, IfErr, IfOk, ◌≢◌, IsTrue, length, take, drop, ◌-◌, ◌≤◌};
ghost use Rattle.std.specs.List.{AllByRecursion};
ghost use Rattle.ts_name.specs.Paths.{IsBefore, Name};
ghost use Rattle.ts_model.specs.declared.row.Content.{Content};
ghost use Rattle.ts_model.specs.Trees.{Ascend, IsListing, at, sub};
ghost use Rattle.ts_table.specs.Tables.{rows_below, seen, IsCut, IsPlace, with_row};

use crate::packing::pack_last;
use std::alloc::{AllocError, Global};
use std::marker::Model;
use ts_model::lists::let_go;
use ts_model::row::{Content, Row};
use ts_name::Path;

/// What is at each path but the root, which is a directory.
pub struct Table<F> {
    pub(crate) rows: Vec<Row<F>>,
}

// The rows may be many megabytes, and others like them come after these.
impl<F: Drop> Drop for Table<F> {
    fn drop(self) {
        let Table { rows: long } = self;
        let_go(long);
    }
}

impl<F> Model for Table<F> {
    ghost use Rattle.std.specs.Prelude.{List};
    ghost use Rattle.ts_model.specs.declared.row.Row.{Row};
    ghost use Rattle.ts_model.specs.Trees.{IsListing};

    ghost Value = { List (Row F) };

    ghost view = { λ t. t.rows.items };

    ghost invariant = { λ t. IsListing t.rows.items };
}

impl<F> Table<F> {
    /// The table of the root alone. It takes no memory.
    pub fn new(alloc: Global) -> Self
        ensures { result ≡ [] }
    {
        Table {
            rows: Vec::new(alloc),
        }
    }

    /// The table of these rows.
    pub fn from_rows(rows: Vec<Row<F>>) -> Self
        requires { IsListing rows.items }
        ensures { result ≡ rows.items }
    {
        Table { rows }
    }

    /// The rows, in path order.
    pub fn into_rows(self) -> Vec<Row<F>>
        ensures rows { result.items ≡ self }
        ensures listing { IsListing self }
    {
        let Table { rows } = self;
        rows
    }

    /// The rows, in path order. It takes no memory.
    pub fn rows(&self) -> &[Row<F>]
        ensures rows { result.now ≡ self.now }
        ensures listing { IsListing self.now }
    {
        self.rows.as_slice()
    }

    /// How many rows: the paths at which something is, without the root.
    pub fn len(&self) -> usize
        ensures { result ≡ length self.now }
    {
        self.rows.len()
    }

    /// Whether there is the root alone.
    pub fn is_empty(&self) -> bool
        ensures { IsTrue result ↔ (self.now ≡ []) }
    {
        self.rows.is_empty()
    }

    /// What is at a path. It takes no memory.
    pub fn get(&self, path: &Path) -> Content<&F>
        ensures { seen result ≡ at self.now path.now }
    {
        if path.is_root() {
            return Content::Dir;
        }
        match self.rows.binary_search_by(|row| row.path.cmp(path)) {
            Ok(index) => content_of(&self.rows[index]),
            Err(_) => Content::Absent,
        }
    }

    /// The rows at a path and below it, in path order. It takes no memory.
    pub fn sub(&self, path: &Path) -> &[Row<F>]
        ensures rows { result.now ≡ rows_below path.now self.now }
        ensures listing { IsListing self.now }
    {
        let (start, end) = bounds(&self.rows, path);
        &self.rows[start..end]
    }

    /// Whether two tables have the same at a path and below it. It takes no memory.
    pub fn sub_eq(&self, other: &Table<F>, path: &Path) -> bool
    where
        F: PartialEq,
        requires { (x y : F) → IsTrue (F.eq x y) ↔ (x ≡ y) }
        ensures { IsTrue result ↔ (sub (at self.now) path.now ≡ sub (at other.now) path.now) }
    {
        same_rows(self.sub(path), other.sub(path))
    }

    /// Whether something may stand at a path: it is not the root, and its parent is a directory. It takes no memory.
    pub fn is_place(&self, path: &Path) -> bool
        ensures { IsTrue result ↔ IsPlace (at self.now) path.now }
    {
        let start = self.rows.partition_point(|row| row.path < *path);
        is_place_after(&self.rows[..start], path)
    }

    /// Whether a row of this path, with a directory or a file, may come next: the path comes after all others, and
    /// something may stand there. It takes no memory.
    pub fn may_push(&self, path: &Path) -> bool
        ensures yes { IsTrue result → (content : Content F) → content ≢ Content.Absent → IsListing (with_row self.now path.now content) }
        ensures no { result ≡ false → (content : Content F) → ¬ IsListing (with_row self.now path.now content) }
    {
        prove!(path.depth() <= 64);
        is_after(path, self.rows()) && is_place_after(self.rows(), path)
    }

    /// Puts a row at the end. Where memory runs out nothing changes, and the row is dropped.
    pub fn push(&mut self, row: Row<F>) -> Result<(), AllocError>
    where
        F: Drop,
        requires { IsListing (self.old ++ row ∷ []) }
        ensures rows { self.new ≡ (if is_ok result then self.old ++ row ∷ [] else self.old) }
    {
        self.rows.push(row)?;
        Ok(())
    }

    /// Makes room for so many rows more, and for no others. The table is the same afterwards, also where memory runs out.
    pub fn reserve(&mut self, rows: usize) -> Result<(), AllocError>
        ensures { self.new ≡ self.old }
    {
        self.rows.reserve_exact(rows)?;
        Ok(())
    }

    /// Lets the paths of the last rows share one buffer, where enough have come since it was done: called after each `push`, it packs
    /// the paths as the table grows. The table is the same afterwards, also where memory runs out.
    pub fn pack_last(&mut self, alloc: Global) -> Result<(), AllocError>
        ensures { self.new ≡ self.old }
    {
        pack_last(alloc, &mut self.rows)
    }
}

/// What a row says, behind a reference.
pub(crate) fn content_of<F>(row: &Row<F>) -> Content<&F>
    ensures { seen result ≡ row.now.content }
{
    match &row.content {
        Content::Absent => Content::Absent,
        Content::Dir => Content::Dir,
        Content::File(data) => Content::File(data),
    }
}

/// Where the rows at a path and below it start and end.
pub(crate) fn bounds<F>(rows: &[Row<F>], path: &Path) -> (usize, usize)
    requires { Ascend rows.now }
    ensures order { result.0 ≤ result.1 }
    ensures within { result.1 ≤ length rows.now }
    ensures cut { IsCut path.now (take result.0 rows.now) (take (result.1 - result.0) (drop result.0 rows.now)) (drop result.1 rows.now) }
{
    let start = rows.partition_point(|row| row.path < *path);
    let rest = &rows[start..];
    let count = rest.partition_point(|row| path.is_prefix(&row.path));
    (start, start + count)
}

/// Whether a path comes after those of all rows.
fn is_after<F>(path: &Path, rows: &[Row<F>]) -> bool
    requires { Ascend rows.now }
    ensures { IsTrue result ↔ AllByRecursion (λ row. IsBefore row.path path.now) rows.now }
{
    match rows.last() {
        Some(row) => row.path < *path,
        None => true,
    }
}

/// Whether something may stand at a path that comes after all these rows. The last of them is at or below the path's
/// parent, if any row is.
fn is_place_after<F>(rows: &[Row<F>], path: &Path) -> bool
    requires listing { IsListing rows.now }
    requires after { AllByRecursion (λ row. IsBefore row.path path.now) rows.now }
    ensures { IsTrue result ↔ IsPlace (at rows.now) path.now }
{
    if path.depth() <= 1 {
        return !path.is_root();
    }
    match rows.last() {
        Some(row) => path.has_parent_above(&row.path) && may_be_above(row, path),
        None => false,
    }
}

/// Whether a row is a directory, or not the path's parent.
fn may_be_above<F>(row: &Row<F>, path: &Path) -> bool
    ensures { IsTrue result ↔ ((name : Name) → path.now ≡ row.now.path ++ name ∷ [] → row.now.content ≡ Content.Dir) }
{
    match row.content {
        Content::Dir => true,
        Content::Absent | Content::File(_) => !row.path.is_parent_of(path),
    }
}

/// Whether two lists of rows are the same.
fn same_rows<F: PartialEq>(ours: &[Row<F>], theirs: &[Row<F>]) -> bool
    requires { (x y : F) → IsTrue (F.eq x y) ↔ (x ≡ y) }
    ensures { IsTrue result ↔ (ours.now ≡ theirs.now) }
{
    if ours.len() != theirs.len() {
        return false;
    }
    for (index, row) in ours.iter().enumerate() {
        if !same_row(row, &theirs[index]) {
            return false;
        }
    }
    true
}

fn same_row<F: PartialEq>(x: &Row<F>, y: &Row<F>) -> bool
    requires { (x y : F) → IsTrue (F.eq x y) ↔ (x ≡ y) }
    ensures { IsTrue result ↔ (x.now ≡ y.now) }
{
    x.path == y.path && x.content == y.content
}
