//! Changes of a table.
ghost use Rattle.std.specs.Prelude.{◌≡◌, IfErr, IsErrOf, OnErr, OnOk};
ghost use Rattle.std.specs.List.{AllByRecursion};
ghost use Rattle.ts_name.specs.Paths.{IsPath};
ghost use Rattle.ts_model.specs.Trees.{at, listed};
ghost use Rattle.ts_model.specs.Runs.{bare_directory, graft};
ghost use Rattle.ts_table.specs.Tables.{IsPlace, placed};

use crate::fault::TableFault;
use crate::subtable::SubTable;
use crate::table::{Table, bounds};
use std::alloc::{AllocError, Global};
use ts_name::Path;

impl<F: Drop> Table<F> {
    /// Puts rows in the place of what stands at a path and below it.
    ///
    /// `TooLong` where a path would be past the limits. After an error nothing has changed, and the rows are dropped.
    pub fn replace(
        &mut self,
        alloc: Global,
        path: &Path,
        part: SubTable<F>,
    ) -> Result<(), TableFault>
        requires { IsPlace (at self.old) path.now }
        ensures ok { OnOk result (at self.new ≡ graft (at self.old) path.now (listed part)) }
        ensures paths { OnOk result (AllByRecursion (λ row. IsPath row.path) (placed path.now part)) }
        ensures too_long { IsErrOf result TableFault.TooLong → ¬ AllByRecursion (λ row. IsPath row.path) (placed path.now part) }
        ensures err { OnErr result (self.new ≡ self.old) }
    {
        let placed = part.placed(alloc, path)?;
        let (start, end) = bounds(&self.rows, path);
        let _gone = self.rows.splice(start..end, placed)?;
        Ok(())
    }

    /// Makes a path a directory with nothing below it. Where memory runs out nothing changes.
    pub fn make_dir(&mut self, alloc: Global, path: &Path) -> Result<(), AllocError>
        requires { IsPlace (at self.old) path.now }
        ensures ok { OnOk result (at self.new ≡ graft (at self.old) path.now bare_directory) }
        ensures err { OnErr result (self.new ≡ self.old) }
    {
        prove!(path.depth() <= 64);
        let bare = SubTable::dir(alloc)?;
        match self.replace(alloc, path, bare) {
            Ok(()) => Ok(()),
            Err(TableFault::OutOfMemory) => Err(AllocError),
            Err(TableFault::TooLong) => unreachable!(),
        }
    }
}
