//! Parts of a print, lent without memory.
ghost use Rattle.std.specs.List.{AllByRecursion};
ghost use Rattle.std.specs.Prelude.{◌≡◌, ◌≢◌, ◌⊎◌, ◌++◌, ◌↔◌, [], IfErr, IfOk, IsErrOf, IsTrue, OnErr, OnOk};
ghost use Rattle.ts_model.specs.Trees.{Ascend, IsSubListing, at, listed, sub};
ghost use Rattle.ts_model.specs.Runs.{graft};
ghost use Rattle.ts_model.specs.declared.row.Content.TheVariants.{Absent};
ghost use Rattle.ts_name.specs.Paths.{IsAbove, IsPath};
ghost use Rattle.ts_print.specs.Prints.{stamped_rows};
ghost use Rattle.ts_table.specs.Tables.{IsPlace, placed, relative, root_row};

use crate::fault::PrintFault;
use crate::print::Print;
use crate::stamps::have_stamps;
use std::alloc::{AllocError, Global};
use std::marker::Model;
use ts_model::items::Items;
use ts_model::row::{Row, Stamp};
use ts_name::Path;
use ts_table::SubTable;

/// What a print has at a path and below it. It borrows the print and the path.
#[derive(Drop)]
pub struct SubPrint<'a> {
    print: &'a Print,
    top: &'a Path,
}

impl<'a> Model for SubPrint<'a> {
    ghost use Rattle.std.specs.Prelude.{◌++◌};
    ghost use Rattle.ts_print.specs.Parts.{Part};
    ghost use Rattle.ts_table.specs.Tables.{relative, root_row, rows_below};

    ghost Value = { Part };

    ghost view = { λ s. record { top = s.top.now; rows = root_row s.top.now ++ relative s.top.now (rows_below s.top.now s.print.now) } };
}

impl Print {
    /// What the print has at a path and below it. It takes no memory.
    pub fn sub_print<'a>(&'a self, path: &'a Path) -> SubPrint<'a>
        ensures top { result.top ≡ path.entry.now }
        ensures part { listed result.rows ≡ sub (at self.entry.now) path.entry.now }
    {
        let _rows = self.rows();
        SubPrint {
            print: self,
            top: path,
        }
    }

    /// Puts a copy of a part of a print in place of what is at a path and below it. The part may be of any print, and of any
    /// path. `TooLong` where a path would be past the limits. After a fault nothing has changed.
    pub fn replace(
        &mut self,
        alloc: Global,
        path: &Path,
        part: &SubPrint<'_>,
    ) -> Result<(), PrintFault>
        requires { IsPlace (at self.old) path.now }
        ensures ok { OnOk result (at self.new ≡ graft (at self.old) path.now (listed part.now.rows)) }
        ensures paths { OnOk result (AllByRecursion (λ row. IsPath row.path) (placed path.now part.now.rows)) }
        ensures too_long { IsErrOf result PrintFault.TooLong → ¬ AllByRecursion (λ row. IsPath row.path) (placed path.now part.now.rows) }
        ensures fault { IfErr result (λ e. (e ≡ PrintFault.OutOfMemory) ⊎ (e ≡ PrintFault.TooLong)) }
        ensures err { OnErr result (self.new ≡ self.old) }
    {
        let rows = part.to_table(alloc)?;
        self.replace_with(alloc, path, rows)
    }
}

impl SubPrint<'_> {
    /// The path at which it stands. It takes no memory.
    pub fn top(&self) -> &Path
        ensures { result.now ≡ self.now.top }
    {
        self.top
    }

    /// The rows with their whole paths, in path order and without one for the root. It takes no memory.
    pub fn rows(&self) -> &[Row<Stamp>]
        ensures rows { self.now.rows ≡ root_row self.now.top ++ relative self.now.top result.now }
        ensures order { Ascend result.now }
        ensures each { AllByRecursion (λ row. IsAbove self.now.top row.path × (row.path ≢ []) × (row.content ≢ Absent)) result.now }
        ensures lawful { IsSubListing self.now.rows }
    {
        let _rows = self.print.rows();
        self.print.sub(self.top)
    }

    /// The rows, by paths relative to the top.
    pub fn to_table(&self, alloc: Global) -> Result<SubTable<Stamp>, AllocError>
        ensures part { IfOk result (λ part. part ≡ self.now.rows) }
    {
        let _rows = self.print.rows();
        let part = self.print.sub_table(alloc, self.top)?;
        let _part_rows = part.rows();
        Ok(part)
    }

    /// Whether this is the print of a tree, which is given by its rows, relative to where it stands.
    pub fn is_print_of(&self, alloc: Global, rows: &[Row<Items<u8>>]) -> Result<bool, AllocError>
        ensures answer { IfOk result (λ answer. IsTrue answer ↔ (stamped_rows rows.now ≡ self.now.rows)) }
        ensures lawful { IfOk result (λ _. IsSubListing self.now.rows) }
    {
        let stamps = self.to_table(alloc)?;
        Ok(have_stamps(rows, stamps.rows()))
    }
}
