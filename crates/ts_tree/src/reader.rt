//! Reading a tree line by line.
ghost use Rattle.std.specs.Prelude.{◌≡◌, ◌++◌, ◌∷◌, [], ◌<◌, ◌≤◌, IfOk, IfErr, OnErr, OnOk, length};
ghost use Rattle.ts_model.specs.Texts.{IsBytes, IsTreeBody, tree_lines, tree_row_lines};
ghost use Rattle.ts_model.specs.declared.row.Content.TheVariants.{File};
ghost use Rattle.ts_tree.specs.Faults.{Refuses};
ghost use Rattle.ts_tree.specs.Fields.{dir_line};
ghost use Rattle.ts_tree.specs.Readers.{BeginsNoTree, MayCome, OpenFits, SpellsNoTree, open_lines};
ghost use Rattle.ts_tree.specs.declared.fault.TreeFault.TheVariants as fault;

use crate::data::{LINE_BYTES, read_data};
use crate::fault::TreeFault;
use crate::field::{Head, head_of};
use crate::tree::Tree;
use std::alloc::Global;
use std::marker::Model;
use std::mem;
use ts_model::items::Items;
use ts_model::row::{Content, Row};
use ts_name::Path;

/// A file of which some lines are still to come.
#[derive(Drop)]
pub(crate) struct OpenFile {
    path: Path,
    size: u64,
    bytes: Vec<u8>,
}

/// Takes the lines of a tree one after another, and gives the tree.
///
/// No room is taken for the size that a line gives: bytes are kept as they come.
pub struct TreeReader {
    tree: Tree,
    open: Option<OpenFile>,
}

/// Written out, so that a proof of what drops one stays short.
impl Drop for TreeReader {
    fn drop(self) {
        let TreeReader { tree, open } = self;
        drop(tree);
        drop(open);
    }
}

impl Model for TreeReader {
    ghost use Rattle.std.specs.Prelude.{List, ℕ, ◌++◌};
    ghost use Rattle.ts_model.specs.Texts.{IsTreeBody, tree_lines};
    ghost use Rattle.ts_tree.specs.Readers.{MayBeOpen, open_lines};

    ghost Value = { List (List ℕ) };

    ghost view = { λ r. tree_lines r.tree ++ open_lines r.open };

    ghost invariant = { λ r. IsTreeBody r.tree × MayBeOpen r.tree r.open };
}

impl TreeReader {
    /// No line was taken yet. It takes no memory.
    pub fn new(alloc: Global) -> Self
        ensures { result ≡ [] }
    {
        TreeReader {
            tree: Tree::empty(alloc),
            open: None,
        }
    }

    /// Takes the next line, given without its line feed. After a fault no line is taken, as in a new reader.
    pub fn line(&mut self, alloc: Global, line: &[u8]) -> Result<(), TreeFault>
        ensures taken { OnOk result (self.new ≡ self.old ++ line.now ∷ []) }
        ensures refused { IfErr result (Refuses (BeginsNoTree (self.old ++ line.now ∷ []))) }
        ensures err { OnErr result (self.new ≡ []) }
    {
        let reader = mem::replace(self, TreeReader::new(alloc));
        *self = reader.with_line(alloc, line)?;
        Ok(())
    }

    fn with_line(self, alloc: Global, line: &[u8]) -> Result<Self, TreeFault>
        ensures taken { IfOk result (λ reader. reader ≡ self ++ line.now ∷ []) }
        ensures refused { IfErr result (Refuses (BeginsNoTree (self ++ line.now ∷ []))) }
    {
        let TreeReader { tree, open } = self;
        match open {
            None => begin_row(alloc, tree, line),
            Some(file) => go_on(tree, file, line),
        }
    }

    /// The tree whose lines were taken. It takes no memory.
    pub fn finish(self) -> Result<Tree, TreeFault>
        ensures found { IfOk result (λ tree. IsTreeBody tree × (tree_lines tree ≡ self)) }
        ensures refused { IfErr result (λ e. (e ≡ fault.NotCanonical) × SpellsNoTree self) }
    {
        let TreeReader { tree, open } = self;
        match open {
            None => Ok(tree),
            Some(_) => Err(TreeFault::NotCanonical),
        }
    }
}

/// Takes the first line of a row.
fn begin_row(alloc: Global, tree: Tree, line: &[u8]) -> Result<TreeReader, TreeFault>
    requires { IsTreeBody tree }
    ensures taken { IfOk result (λ reader. reader ≡ tree_lines tree ++ line.now ∷ []) }
    ensures refused { IfErr result (Refuses (BeginsNoTree (tree_lines tree ++ line.now ∷ []))) }
{
    let (path, head) = head_of(alloc, line)?;
    if !tree.may_push(&path) {
        return Err(TreeFault::NotCanonical);
    }
    match head {
        Head::Dir => with_dir(tree, path),
        Head::File(0) => with_file(tree, path, Vec::new(alloc)),
        Head::File(size) => Ok(TreeReader {
            tree,
            open: Some(OpenFile {
                path,
                size,
                bytes: Vec::new(alloc),
            }),
        }),
    }
}

/// Takes the next line of a file.
fn go_on(tree: Tree, file: OpenFile, line: &[u8]) -> Result<TreeReader, TreeFault>
    requires tree { IsTreeBody tree }
    requires open { OpenFits tree file }
    ensures taken { IfOk result (λ reader. reader ≡ (tree_lines tree ++ open_lines (Some file)) ++ line.now ∷ []) }
    ensures refused { IfErr result (Refuses (BeginsNoTree ((tree_lines tree ++ open_lines (Some file)) ++ line.now ∷ []))) }
{
    let OpenFile {
        path,
        size,
        mut bytes,
    } = file;
    let left = size - bytes.len() as u64;
    let count = left.min(LINE_BYTES as u64) as usize;
    read_data(&mut bytes, line, count)?;
    if left > LINE_BYTES as u64 {
        return Ok(TreeReader {
            tree,
            open: Some(OpenFile { path, size, bytes }),
        });
    }
    with_file(tree, path, bytes)
}

/// Adds a directory, which is whole at once.
fn with_dir(tree: Tree, path: Path) -> Result<TreeReader, TreeFault>
    requires tree { IsTreeBody tree }
    requires next { MayCome tree path }
    ensures taken { IfOk result (λ reader. reader ≡ tree_lines tree ++ dir_line path ∷ []) }
    ensures fault { IfErr result (λ e. e ≡ fault.OutOfMemory) }
{
    let tree = tree.with_row(Row {
        path,
        content: Content::Dir,
    })?;
    Ok(TreeReader { tree, open: None })
}

/// Adds a file that is whole.
fn with_file(tree: Tree, path: Path, bytes: Vec<u8>) -> Result<TreeReader, TreeFault>
    requires tree { IsTreeBody tree }
    requires next { MayCome tree path }
    requires bytes { IsBytes bytes.items }
    ensures taken { IfOk result (λ reader. reader ≡ tree_lines tree ++ tree_row_lines path (File bytes.items)) }
    ensures fault { IfErr result (λ e. e ≡ fault.OutOfMemory) }
{
    let tree = tree.with_row(Row {
        path,
        content: Content::File(Items::new(bytes)),
    })?;
    Ok(TreeReader { tree, open: None })
}
