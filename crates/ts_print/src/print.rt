ghost use Rattle.std.specs.List.{AllByRecursion};
ghost use Rattle.std.specs.Prelude.{◌≡◌, ◌≢◌, ◌⊎◌, true, false, ◌++◌, ◌∷◌, ◌↔◌, [], IfErr, IfOk, IsErrOf, IsTrue, MatchResult, OnErr};
ghost use Rattle.std.specs.Prelude.{OnOk, is_ok, if◌then◌else◌, map};
ghost use Rattle.ts_model.specs.Runs.{bare_directory, graft};
ghost use Rattle.ts_model.specs.Texts.{IsPrintBody};
ghost use Rattle.ts_model.specs.Trees.{IsListing, at, listed, print_of, sub};
ghost use Rattle.ts_model.specs.declared.row.Content.{Content};
ghost use Rattle.ts_model.specs.declared.row.Content.TheVariants.{Absent};
ghost use Rattle.ts_model.specs.declared.row.Stamp.{Stamp};
ghost use Rattle.ts_name.specs.Paths.{IsBefore, IsPath};
ghost use Rattle.ts_print.specs.Prints.{stamped_rows};
ghost use Rattle.ts_table.specs.Splices.{ArePaths, ArePlaces, AreInOrder, grafted};
ghost use Rattle.ts_table.specs.Tables.{IsPlace, placed, rows_below};

use crate::fault::PrintFault;
use crate::stamps::{content_fits, stamped, stamps_fit};
use crate::walk::Walk;
use std::alloc::{AllocError, Global};
use std::marker::Model;
use ts_model::items::Items;
use ts_model::row::{Content, Row, Stamp};
use ts_name::Path;
use ts_table::{Edit, SubTable, Table};
use ts_tree::Tree;

/// What is at a path of a print: nothing, a directory, or a file with its stamp.
pub type Seen = Content<Stamp>;

/// What is at each path, with a stamp in place of a file's bytes. The root is a directory.
pub struct Print {
    table: Table<Stamp>,
}

/// Written out, so that a proof of what drops one stays short.
impl Drop for Print {
    fn drop(self) {
        let Print { table } = self;
        drop(table);
    }
}

impl Model for Print {
    ghost use Rattle.std.specs.Prelude.{List};
    ghost use Rattle.ts_model.specs.declared.row.Row.{Row};
    ghost use Rattle.ts_model.specs.declared.row.Stamp.{Stamp};

    ghost Value = { List (Row Stamp) };

    ghost use Rattle.ts_model.specs.Texts.{IsPrintBody};

    ghost view = { λ p. p.table };

    ghost invariant = { λ p. IsPrintBody p.table };
}

impl Print {
    /// The print of the root alone. It takes no memory.
    pub fn empty(alloc: Global) -> Self
        ensures { result ≡ [] }
    {
        Print {
            table: Table::new(alloc),
        }
    }

    /// The print of a table. It takes no memory.
    pub fn from_table(table: Table<Stamp>) -> Self
        ensures { result ≡ table }
    {
        stamps_fit(table.rows());
        Print { table }
    }

    /// What is at each path but the root, in path order. It takes no memory.
    pub fn rows(&self) -> &[Row<Stamp>]
        ensures rows { result.now ≡ self.now }
        ensures listing { IsListing self.now }
        ensures lawful { IsPrintBody self.now }
    {
        self.table.rows()
    }

    /// All paths at which something is, in path order. The root, which is always there, is left out. It takes no memory.
    pub fn walk(&self) -> Walk<'_>
        ensures { result ≡ map (λ row. row.path) self.entry.now }
    {
        Walk { rows: self.rows() }
    }

    /// What is at a path. It takes no memory.
    pub fn get(&self, path: &Path) -> Seen
        ensures { result ≡ at self.now path.now }
    {
        match self.table.get(path) {
            Content::Absent => Content::Absent,
            Content::Dir => Content::Dir,
            Content::File(stamp) => Content::File(*stamp),
        }
    }

    /// The rows at a path and below it, in path order; all rows for the root. It takes no memory.
    pub fn sub(&self, path: &Path) -> &[Row<Stamp>]
        ensures { result.now ≡ rows_below path.now self.now }
    {
        self.table.sub(path)
    }

    /// Adds a row after all that are there. Where memory runs out nothing changes.
    pub fn push(&mut self, row: Row<Stamp>) -> Result<(), AllocError>
        requires { IsListing (self.old ++ row ∷ []) }
        ensures rows { self.new ≡ (if is_ok result then self.old ++ row ∷ [] else self.old) }
    {
        content_fits(&row.content);
        self.table.push(row)?;
        Ok(())
    }

    /// Makes room for so many rows more, and for no others. The print is the same afterwards, also where memory runs out.
    pub fn reserve(&mut self, rows: usize) -> Result<(), AllocError>
        ensures { self.new ≡ self.old }
    {
        self.table.reserve(rows)
    }

    /// Lets the paths of the last rows share one buffer, where enough have come since it was done, as a table's `pack_last` does. The
    /// print is the same afterwards, also where memory runs out.
    pub fn pack_last(&mut self, alloc: Global) -> Result<(), AllocError>
        ensures { self.new ≡ self.old }
    {
        self.table.pack_last(alloc)
    }

    /// Puts a directory or a file after all that are there. Where memory runs out nothing changes.
    pub fn add(&mut self, path: Path, seen: Seen) -> Result<(), AllocError>
        requires present { seen ≢ Absent }
        requires after { AllByRecursion (λ row. IsBefore row.path path) self.old }
        requires place { IsPlace (at self.old) path }
        ensures rows { self.new ≡ (if is_ok result then self.old ++ record { path = path; content = seen } ∷ [] else self.old) }
    {
        let _rows = self.rows();
        let _depth = path.depth();
        self.push(Row {
            path,
            content: seen,
        })
    }

    /// Whether something may stand at a path: it is not the root, and its parent is a directory. It takes no memory.
    pub fn is_place(&self, path: &Path) -> bool
        ensures { IsTrue result ↔ IsPlace (at self.now) path.now }
    {
        self.table.is_place(path)
    }

    /// Whether a row at this path, with a directory or a file, may come next. It takes no memory.
    pub fn can_push(&self, path: &Path) -> bool
        ensures yes { IsTrue result → (x : Content Stamp) → x ≢ Absent → IsListing (self.now ++ record { path = path.now; content = x } ∷ []) }
        ensures no { result ≡ false → (x : Content Stamp) → ¬ IsListing (self.now ++ record { path = path.now; content = x } ∷ []) }
    {
        self.table.may_push(path)
    }

    /// Whether both prints have the same at a path and below it. It takes no memory.
    pub fn sub_eq(&self, other: &Print, path: &Path) -> bool
        ensures { IsTrue result ↔ (sub (at self.now) path.now ≡ sub (at other.now) path.now) }
    {
        self.table.sub_eq(&other.table, path)
    }

    /// The same print once more.
    pub fn copy(&self, alloc: Global) -> Result<Print, AllocError>
        ensures { IfOk result (λ print. print ≡ self.now) }
    {
        let table = self.table.copy(alloc)?;
        Ok(Print::from_table(table))
    }

    /// What is at a path and below it, by paths relative to it.
    pub fn sub_table(&self, alloc: Global, path: &Path) -> Result<SubTable<Stamp>, AllocError>
        ensures part { IfOk result (λ part. listed part ≡ sub (at self.now) path.now) }
        ensures paths { IfOk result (λ part. AllByRecursion (λ row. IsPath row.path) (placed path.now part)) }
    {
        let part = self.table.sub_table(alloc, path)?;
        let _rows = self.table.rows();
        let _part_rows = part.rows();
        Ok(part)
    }

    /// Puts rows in place of what is at a path and below it, as `replace` does, without a copy. `TooLong` where a path would
    /// be past the limits. After a fault nothing has changed, and the rows are dropped.
    pub fn replace_with(
        &mut self,
        alloc: Global,
        path: &Path,
        part: SubTable<Stamp>,
    ) -> Result<(), PrintFault>
        requires { IsPlace (at self.old) path.now }
        ensures ok { OnOk result (at self.new ≡ graft (at self.old) path.now (listed part)) }
        ensures paths { OnOk result (AllByRecursion (λ row. IsPath row.path) (placed path.now part)) }
        ensures too_long { IsErrOf result PrintFault.TooLong → ¬ AllByRecursion (λ row. IsPath row.path) (placed path.now part) }
        ensures fault { IfErr result (λ e. (e ≡ PrintFault.OutOfMemory) ⊎ (e ≡ PrintFault.TooLong)) }
        ensures err { OnErr result (self.new ≡ self.old) }
    {
        self.table.replace(alloc, path, part)?;
        stamps_fit(self.table.rows());
        Ok(())
    }

    /// Leaves a directory without children at a path. Where memory runs out nothing changes.
    pub fn make_dir(&mut self, alloc: Global, path: &Path) -> Result<(), AllocError>
        requires { IsPlace (at self.old) path.now }
        ensures ok { OnOk result (at self.new ≡ graft (at self.old) path.now bare_directory) }
        ensures err { OnErr result (self.new ≡ self.old) }
    {
        self.table.make_dir(alloc, path)?;
        stamps_fit(self.table.rows());
        Ok(())
    }

    /// Makes many edits in one pass, each after the one before it: the paths ascend, and an edit may stand below an
    /// earlier one, where that one's rows all come before it, as those of a bare directory do.
    ///
    /// `TooLong` where a path would be past the limits. After a fault nothing has changed, and the edits are dropped.
    pub fn splice(&mut self, alloc: Global, edits: Vec<Edit<Stamp>>) -> Result<(), PrintFault>
        requires places { ArePlaces (at self.old) edits.items }
        requires order { AreInOrder edits.items }
        ensures ok { OnOk result (at self.new ≡ grafted (at self.old) edits.items) }
        ensures paths { OnOk result (ArePaths edits.items) }
        ensures too_long { IsErrOf result PrintFault.TooLong → ¬ ArePaths edits.items }
        ensures fault { IfErr result (λ e. (e ≡ PrintFault.OutOfMemory) ⊎ (e ≡ PrintFault.TooLong)) }
        ensures err { OnErr result (self.new ≡ self.old) }
    {
        self.table.splice(alloc, edits)?;
        stamps_fit(self.table.rows());
        Ok(())
    }

    /// The print of a tree, given by its rows.
    pub fn of_rows(alloc: Global, rows: &[Row<Items<u8>>]) -> Result<Print, AllocError>
        requires { IsListing rows.now }
        ensures rows { IfOk result (λ print. print ≡ stamped_rows rows.now) }
    {
        let mut made = Vec::with_capacity(alloc, rows.len())?;
        for row in rows {
            let path = row.path.copy(alloc)?;
            let content = stamped(&row.content);
            made.push(Row { path, content })?;
        }
        Ok(Print::from_table(Table::from_rows(made)))
    }

    /// The print of a tree: its directories, and a stamp for each file.
    pub fn of_tree(alloc: Global, tree: &Tree) -> Result<Print, AllocError>
        ensures print { IfOk result (λ print. at print ≡ print_of (at tree.now)) }
    {
        Print::of_rows(alloc, tree.rows())
    }
}
