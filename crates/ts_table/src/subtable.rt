//! What is at a path and below it, by the rest of the path.
ghost use Rattle.std.specs.Prelude.{◌≡◌, ◌∷◌, ◌++◌, [], IfErr, IfOk, IsErrOf, OnOk, ◌≢◌};
ghost use Rattle.std.specs.List.{AllByRecursion};
ghost use Rattle.ts_name.specs.Paths.{IsPath};
ghost use Rattle.ts_model.specs.Trees.{IsSubListing, listed};
ghost use Rattle.ts_model.specs.Runs.{bare_directory};
ghost use Rattle.ts_table.specs.Tables.{placed, seen};

use crate::fault::TableFault;
use crate::table::content_of;
use std::alloc::{AllocError, Global};
use std::marker::Model;
use ts_model::row::{Content, Row};
use ts_name::{Path, PathFault};

/// What is at a path and below it, as rows whose paths are relative to it: the path itself first. No rows where nothing is.
#[derive(Drop)]
pub struct SubTable<F> {
    pub(crate) rows: Vec<Row<F>>,
}

impl<F> Model for SubTable<F> {
    ghost use Rattle.std.specs.Prelude.{List};
    ghost use Rattle.ts_model.specs.declared.row.Row.{Row};
    ghost use Rattle.ts_model.specs.Trees.{IsSubListing};

    ghost Value = { List (Row F) };

    ghost view = { λ t. t.rows.items };

    ghost invariant = { λ t. IsSubListing t.rows.items };
}

impl<F> SubTable<F> {
    /// Nothing. It takes no memory.
    pub fn absent(alloc: Global) -> Self
        ensures { result ≡ [] }
    {
        SubTable {
            rows: Vec::new(alloc),
        }
    }

    /// These rows.
    pub fn from_rows(rows: Vec<Row<F>>) -> Self
        requires { IsSubListing rows.items }
        ensures { result ≡ rows.items }
    {
        SubTable { rows }
    }

    /// The rows, in path order.
    pub fn into_rows(self) -> Vec<Row<F>>
        ensures rows { result.items ≡ self }
        ensures listing { IsSubListing self }
    {
        let SubTable { rows } = self;
        rows
    }

    /// The rows, in path order. It takes no memory.
    pub fn rows(&self) -> &[Row<F>]
        ensures rows { result.now ≡ self.now }
        ensures listing { IsSubListing self.now }
    {
        self.rows.as_slice()
    }

    /// What is at a relative path; at the root what is at the part's own path. It takes no memory.
    pub fn get(&self, path: &Path) -> Content<&F>
        ensures { seen result ≡ listed self.now path.now }
    {
        match self.rows.binary_search_by(|row| row.path.cmp(path)) {
            Ok(index) => content_of(&self.rows[index]),
            Err(_) => Content::Absent,
        }
    }
}

impl<F: Drop> SubTable<F> {
    /// A directory with nothing below.
    pub fn dir(alloc: Global) -> Result<Self, AllocError>
        ensures ok { IfOk result (λ part. part ≡ record { path = []; content = Content.Dir } ∷ []) }
    {
        SubTable::single(alloc, Content::Dir)
    }

    /// A file.
    pub fn file(alloc: Global, file: F) -> Result<Self, AllocError>
        ensures ok { IfOk result (λ part. part ≡ record { path = []; content = Content.File file } ∷ []) }
    {
        SubTable::single(alloc, Content::File(file))
    }

    fn single(alloc: Global, content: Content<F>) -> Result<Self, AllocError>
        requires { content ≢ Content.Absent }
        ensures ok { IfOk result (λ part. part ≡ record { path = []; content = content } ∷ []) }
    {
        let mut rows = Vec::new(alloc);
        rows.push(Row {
            path: Path::root(alloc),
            content,
        })?;
        Ok(SubTable { rows })
    }

    /// The rows as they stand below a path. An error drops them.
    pub(crate) fn placed(self, alloc: Global, top: &Path) -> Result<Vec<Row<F>>, TableFault>
        ensures ok { IfOk result (λ rows. rows.items ≡ placed top.now self) }
        ensures paths { OnOk result (AllByRecursion (λ row. IsPath row.path) (placed top.now self)) }
        ensures too_long { IsErrOf result TableFault.TooLong → ¬ AllByRecursion (λ row. IsPath row.path) (placed top.now self) }
        ensures listing { IsSubListing self }
    {
        let mut rows = Vec::with_capacity(alloc, self.rows.len())?;
        for row in self.into_rows() {
            let Row { path, content } = row;
            let path = joined(alloc, top, &path)?;
            rows.push(Row { path, content })?;
        }
        Ok(rows)
    }
}

/// A path that goes on from another, or `TooLong` exactly where it would be past the limits.
pub(crate) fn joined(alloc: Global, top: &Path, rest: &Path) -> Result<Path, TableFault>
    ensures ok { IfOk result (λ p. (p ≡ top.now ++ rest.now) × IsPath p) }
    ensures too_long { IsErrOf result TableFault.TooLong → ¬ IsPath (top.now ++ rest.now) }
    ensures past { (¬ IsPath (top.now ++ rest.now)) → IsErrOf result TableFault.TooLong }
{
    match top.join(alloc, rest) {
        Ok(path) => Ok(path),
        Err(PathFault::OutOfMemory) => Err(TableFault::OutOfMemory),
        Err(PathFault::TooLong) => Err(TableFault::TooLong),
        Err(PathFault::BadName | PathFault::BadText) => unreachable!(),
    }
}
