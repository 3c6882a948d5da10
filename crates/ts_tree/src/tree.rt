//! Trees.
ghost use Rattle.std.specs.List.{AllByRecursion};
ghost use Rattle.std.specs.Prelude.{◌≡◌, ◌≢◌, ◌↔◌, ◌⊎◌, ◌++◌, ◌∷◌, [], List, ℕ, true, false, is_ok, if◌then◌else◌, IfErr};
ghost use Rattle.std.specs.Prelude.{IfOk, IsErrOf, IsTrue, MatchResult, OnErr, OnOk};
ghost use Rattle.ts_model.specs.Runs.{graft};
ghost use Rattle.ts_model.specs.Texts.{FileFits, IsTreeBody};
ghost use Rattle.ts_model.specs.Trees.{IsListing, at, listed, sub};
ghost use Rattle.ts_model.specs.declared.row.Content.{Content};
ghost use Rattle.ts_model.specs.declared.row.Content.TheVariants.{Absent};
ghost use Rattle.ts_table.specs.Tables.{IsPlace, placed, rows_below};
ghost use Rattle.ts_name.specs.Paths.{IsPath};
ghost use Rattle.ts_table.specs.Splices.{ArePaths, ArePlaces, AreInOrder, grafted};
ghost use Rattle.ts_tree.specs.Trees.{EditFits, FilesFit, node_of};

use crate::fault::TreeFault;
use crate::subtree::SubTree;
use std::alloc::{AllocError, Global};
use std::marker::Model;
use ts_model::items::Items;
use ts_model::row::{Content, Row};
use ts_name::Path;
use ts_table::{Edit, SubTable, Table};

/// What is at a path of a tree: nothing, a directory, or a file with its bytes.
pub type Node<'a> = Content<&'a [u8]>;

/// Directories and files with their bytes. The root is a directory.
pub struct Tree {
    table: Table<Items<u8>>,
}

/// Written out, so that a proof of what drops one stays short.
impl Drop for Tree {
    fn drop(self) {
        let Tree { table } = self;
        drop(table);
    }
}

impl Model for Tree {
    ghost use Rattle.std.specs.Prelude.{List, ℕ};
    ghost use Rattle.ts_model.specs.declared.row.Row.{Row};
    ghost use Rattle.ts_model.specs.Texts.{IsTreeBody};

    ghost Value = { List (Row (List ℕ)) };

    ghost view = { λ t. t.table };

    ghost invariant = { λ t. IsTreeBody t.table };
}

impl Tree {
    /// The tree of the root alone. It takes no memory.
    pub fn empty(alloc: Global) -> Self
        ensures { result ≡ [] }
    {
        Tree {
            table: Table::new(alloc),
        }
    }

    /// What is at each path but the root, in path order. It takes no memory.
    pub fn rows(&self) -> &[Row<Items<u8>>]
        ensures rows { result.now ≡ self.now }
        ensures lawful { IsTreeBody self.now }
    {
        self.table.rows()
    }

    /// The rows at a path and below it, in path order; all rows for the root. It takes no memory.
    pub fn sub(&self, path: &Path) -> &[Row<Items<u8>>]
        ensures { result.now ≡ rows_below path.now self.now }
    {
        self.table.sub(path)
    }

    /// What is at a path. It takes no memory.
    pub fn get(&self, path: &Path) -> Node<'_>
        ensures { node_of result ≡ at self.now path.now }
    {
        match self.table.get(path) {
            Content::Absent => Content::Absent,
            Content::Dir => Content::Dir,
            Content::File(bytes) => Content::File(bytes.as_slice()),
        }
    }

    /// Whether a row at this path may come next. It takes no memory.
    pub(crate) fn may_push(&self, path: &Path) -> bool
        ensures yes { IsTrue result → (x : Content (List ℕ)) → x ≢ Absent → IsListing (self.now ++ record { path = path.now; content = x } ∷ []) }
        ensures no { result ≡ false → (x : Content (List ℕ)) → ¬ IsListing (self.now ++ record { path = path.now; content = x } ∷ []) }
    {
        self.table.may_push(path)
    }

    /// The tree with one more row.
    pub(crate) fn with_row(self, row: Row<Items<u8>>) -> Result<Tree, AllocError>
        requires listing { IsListing (self ++ row ∷ []) }
        requires file { FileFits row.content }
        ensures ok { IfOk result (λ tree. tree ≡ self ++ row ∷ []) }
    {
        let Tree { mut table } = self;
        table.push(row)?;
        Ok(Tree { table })
    }

    /// The same tree once more.
    pub fn copy(&self, alloc: Global) -> Result<Tree, AllocError>
        ensures { IfOk result (λ tree. tree ≡ self.now) }
    {
        let table = self.table.copy(alloc)?;
        Ok(Tree { table })
    }

    /// What is at a path and below it, by paths relative to it.
    pub fn sub_table(&self, alloc: Global, path: &Path) -> Result<SubTable<Items<u8>>, AllocError>
        ensures part { IfOk result (λ part. listed part ≡ sub (at self.now) path.now) }
        ensures files { IfOk result (λ part. AllByRecursion (λ row. FileFits row.content) part) }
        ensures paths { IfOk result (λ part. AllByRecursion (λ row. IsPath row.path) (placed path.now part)) }
    {
        let part = self.table.sub_table(alloc, path)?;
        let _part_rows = part.rows();
        Ok(part)
    }

    /// What is at a path and below it.
    pub fn sub_tree(&self, alloc: Global, path: &Path) -> Result<SubTree, AllocError>
        ensures part { IfOk result (λ part. listed part ≡ sub (at self.now) path.now) }
    {
        Ok(SubTree::from_table(self.sub_table(alloc, path)?))
    }

    /// Puts a content in the place of what stands at a path and below it.
    ///
    /// `TooLong` where a path would be past the limits. After a fault nothing has changed, and the content is dropped.
    pub fn replace(&mut self, alloc: Global, path: &Path, part: SubTree) -> Result<(), TreeFault>
        requires { IsPlace (at self.old) path.now }
        ensures ok { OnOk result (at self.new ≡ graft (at self.old) path.now (listed part)) }
        ensures paths { OnOk result (AllByRecursion (λ row. IsPath row.path) (placed path.now part)) }
        ensures too_long { IsErrOf result TreeFault.TooLong → ¬ AllByRecursion (λ row. IsPath row.path) (placed path.now part) }
        ensures fault { IfErr result (λ e. (e ≡ TreeFault.OutOfMemory) ⊎ (e ≡ TreeFault.TooLong)) }
        ensures err { OnErr result (self.new ≡ self.old) }
    {
        self.table.replace(alloc, path, part.into_table())?;
        let _rows = self.table.rows();
        Ok(())
    }

    /// Whether something may stand at a path: it is not the root, and its parent is a directory. It takes no memory.
    pub fn is_place(&self, path: &Path) -> bool
        ensures { IsTrue result ↔ IsPlace (at self.now) path.now }
    {
        self.table.is_place(path)
    }

    /// The tree as a table. It takes no memory.
    pub(crate) fn into_table(self) -> Table<Items<u8>>
        ensures table { result ≡ self }
        ensures lawful { IsTreeBody self }
    {
        let Tree { table } = self;
        table
    }

    /// The table as a tree. It takes no memory.
    pub(crate) fn from_table(table: Table<Items<u8>>) -> Tree
        requires { FilesFit table }
        ensures { result ≡ table }
    {
        let _rows = table.rows();
        Tree { table }
    }

    /// The table of the rows, borrowed.
    pub(crate) fn table(&self) -> &Table<Items<u8>>
        ensures { result.now ≡ self.now }
    {
        &self.table
    }

    /// Makes many edits in one pass, each after the one before it: the paths ascend, and an edit may stand below an
    /// earlier one, where that one's rows all come before it, as those of a bare directory do.
    ///
    /// `TooLong` where a path would be past the limits. After a fault nothing has changed, and the edits are dropped.
    pub fn splice(&mut self, alloc: Global, edits: Vec<Edit<Items<u8>>>) -> Result<(), TreeFault>
        requires places { ArePlaces (at self.old) edits.items }
        requires order { AreInOrder edits.items }
        requires files { AllByRecursion EditFits edits.items }
        ensures ok { OnOk result (at self.new ≡ grafted (at self.old) edits.items) }
        ensures paths { OnOk result (ArePaths edits.items) }
        ensures too_long { IsErrOf result TreeFault.TooLong → ¬ ArePaths edits.items }
        ensures fault { IfErr result (λ e. (e ≡ TreeFault.OutOfMemory) ⊎ (e ≡ TreeFault.TooLong)) }
        ensures err { OnErr result (self.new ≡ self.old) }
    {
        self.table.splice(alloc, edits)?;
        let _rows = self.table.rows();
        Ok(())
    }
}
