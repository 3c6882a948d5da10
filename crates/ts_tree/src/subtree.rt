//! What is at a path of a tree, and below it.
ghost use Rattle.std.specs.Prelude.{◌≡◌, ◌∷◌, [], IfErr, IfOk, MatchResult};
ghost use Rattle.ts_model.specs.Trees.{listed};
ghost use Rattle.ts_tree.specs.Trees.{FilesFit, IsSubTreeBody, node_of};

use crate::tree::Node;
use std::alloc::{AllocError, Global};
use std::marker::Model;
use ts_model::items::Items;
use ts_model::row::{Content, Row};
use ts_name::Path;
use ts_table::SubTable;

/// What is at a path and below it, by paths relative to it: nothing, a file, or a directory with all below.
#[derive(Drop)]
pub struct SubTree {
    part: SubTable<Items<u8>>,
}

impl Model for SubTree {
    ghost use Rattle.std.specs.Prelude.{List, ℕ};
    ghost use Rattle.ts_model.specs.declared.row.Row.{Row};
    ghost use Rattle.ts_tree.specs.Trees.{IsSubTreeBody};

    ghost Value = { List (Row (List ℕ)) };

    ghost view = { λ t. t.part };

    ghost invariant = { λ t. IsSubTreeBody t.part };
}

impl SubTree {
    /// Nothing. It takes no memory.
    pub fn absent(alloc: Global) -> Self
        ensures { result ≡ [] }
    {
        SubTree {
            part: SubTable::absent(alloc),
        }
    }

    /// A directory with nothing below.
    pub fn dir(alloc: Global) -> Result<Self, AllocError>
        ensures ok { IfOk result (λ part. part ≡ record { path = []; content = Content.Dir } ∷ []) }
    {
        let part = SubTable::dir(alloc)?;
        let _rows = part.rows();
        Ok(SubTree { part })
    }

    /// A file of these bytes. Where memory runs out they are dropped.
    pub fn file(alloc: Global, bytes: Vec<u8>) -> Result<Self, AllocError>
        ensures ok { IfOk result (λ part. part ≡ record { path = []; content = Content.File bytes.items } ∷ []) }
    {
        let part = SubTable::file(alloc, Items::new(bytes))?;
        let _rows = part.rows();
        Ok(SubTree { part })
    }

    /// The same as a tree. It takes no memory.
    pub fn from_table(part: SubTable<Items<u8>>) -> Self
        requires { FilesFit part }
        ensures { result ≡ part }
    {
        let _rows = part.rows();
        SubTree { part }
    }

    /// The same as a table. It takes no memory.
    pub fn into_table(self) -> SubTable<Items<u8>>
        ensures table { result ≡ self }
        ensures lawful { IsSubTreeBody self }
    {
        let SubTree { part } = self;
        part
    }

    /// The rows, in path order. It takes no memory.
    pub fn rows(&self) -> &[Row<Items<u8>>]
        ensures rows { result.now ≡ self.now }
        ensures lawful { IsSubTreeBody self.now }
    {
        self.part.rows()
    }

    /// What is at a relative path; at the root what is at the part's own path. It takes no memory.
    pub fn get(&self, path: &Path) -> Node<'_>
        ensures { node_of result ≡ listed self.now path.now }
    {
        match self.part.get(path) {
            Content::Absent => Content::Absent,
            Content::Dir => Content::Dir,
            Content::File(bytes) => Content::File(bytes.as_slice()),
        }
    }

    /// The same once more.
    pub fn copy(&self, alloc: Global) -> Result<SubTree, AllocError>
        ensures { IfOk result (λ part. part ≡ self.now) }
    {
        let part = self.part.copy(alloc)?;
        Ok(SubTree { part })
    }
}
