//! A folder in memory.
ghost use Rattle.std.specs.Prelude.{◌≡◌, ◌≤◌, ℕ, List, length, take, IfErr, IfOk};
ghost use Rattle.ts_folder.specs.Children.{child_of, children, kind_of};
ghost use Rattle.ts_folder.specs.Folders.{range};
ghost use Rattle.ts_model.specs.Texts.{IsTreeBody};

use crate::fault::FolderFault;
use crate::folder::{Folder, Kind};
use std::alloc::Global;
use std::marker::Model;
use ts_model::items::Items;
use ts_model::row::{Content, Row};
use ts_name::{Name, NameFault, Path};
use ts_tree::Tree;

/// A tree as a folder. It never fails by itself.
pub struct MemFolder {
    tree: Tree,
}

// Written out, so that a proof about what drops a folder calls a function.
impl Drop for MemFolder {
    fn drop(self) {
        let MemFolder { tree } = self;
        drop(tree);
    }
}

impl Model for MemFolder {
    ghost use Rattle.std.specs.Prelude.{List, ℕ};
    ghost use Rattle.ts_model.specs.declared.row.Row.{Row};

    ghost Value = { List (Row (List ℕ)) };

    ghost view = { λ f. f.tree };
}

impl MemFolder {
    /// The folder of this tree.
    pub fn new(tree: Tree) -> MemFolder
        ensures { result ≡ tree }
    {
        MemFolder { tree }
    }

    /// What is at each path but the root, in path order. It takes no memory.
    pub fn rows(&self) -> &[Row<Items<u8>>]
        ensures rows { result.now ≡ self.now }
        ensures lawful { IsTreeBody self.now }
    {
        self.tree.rows()
    }
}

impl Folder for MemFolder {
    ghost use Rattle.std.specs.Prelude.{◌≡◌, Some};
    ghost use Rattle.ts_folder.specs.Folders.{IsFile};
    ghost use Rattle.ts_model.specs.Trees.{at};

    // A path at which a file is.
    type File = Path;

    ghost tells = { λ s. Some s };

    ghost lets = { λ _ _ _ _. ⊥ };

    ghost is_open = { λ s file p. (file ≡ p) × IsFile (at s p) };

    fn list(&self, alloc: Global, path: &Path) -> Result<Vec<(Name, Kind)>, FolderFault> {
        let _rows = self.tree.rows();
        match self.tree.get(path) {
            Content::Dir => children(alloc, path, self.tree.sub(path)),
            Content::Absent | Content::File(_) => Err(FolderFault::NotThere),
        }
    }

    fn is_dir(&self, _alloc: Global, path: &Path) -> Result<bool, FolderFault> {
        match self.tree.get(path) {
            Content::Dir => Ok(true),
            Content::File(_) => Ok(false),
            Content::Absent => Err(FolderFault::NotThere),
        }
    }

    fn open_file(&self, alloc: Global, path: &Path) -> Result<Path, FolderFault> {
        let _rows = self.tree.rows();
        match self.tree.get(path) {
            Content::File(_) => copied(alloc, path),
            Content::Absent | Content::Dir => Err(FolderFault::NotThere),
        }
    }

    fn fill(&self, file: &mut Path, offset: u64, buffer: &mut [u8]) -> Result<usize, FolderFault> {
        match self.tree.get(file) {
            Content::File(bytes) => Ok(copy_range(bytes, offset, buffer)),
            Content::Absent | Content::Dir => Err(FolderFault::NotThere),
        }
    }
}

/// A path once more.
pub(crate) fn copied(alloc: Global, path: &Path) -> Result<Path, FolderFault>
    ensures ok { IfOk result (λ copy. copy ≡ path.now) }
    ensures fault { IfErr result (λ e. e ≡ FolderFault.OutOfMemory) }
{
    match path.copy(alloc) {
        Ok(copy) => Ok(copy),
        Err(_) => Err(FolderFault::OutOfMemory),
    }
}

/// The names and kinds of the rows that stand in the directory, in their order.
fn children(
    alloc: Global,
    path: &Path,
    rows: &[Row<Items<u8>>],
) -> Result<Vec<(Name, Kind)>, FolderFault>
    ensures ok { IfOk result (λ names. names.items ≡ children path.now rows.now) }
    ensures fault { IfErr result (λ e. e ≡ FolderFault.OutOfMemory) }
{
    let mut names = Vec::new(alloc);
    for row in rows {
        if let Some(child) = child_of(alloc, path, row)? {
            names.push(child)?;
        }
    }
    Ok(names)
}

/// The name and the kind of a row that stands in the directory.
fn child_of(
    alloc: Global,
    path: &Path,
    row: &Row<Items<u8>>,
) -> Result<Option<(Name, Kind)>, FolderFault>
    ensures ok { IfOk result (λ child. child ≡ child_of path.now row.now) }
    ensures fault { IfErr result (λ e. e ≡ FolderFault.OutOfMemory) }
{
    prove!(row.path.depth() <= 64);
    if !path.is_parent_of(&row.path) {
        return Ok(None);
    }
    let Some(name) = row.path.last() else {
        return Ok(None);
    };
    let kind = kind_of(&row.content);
    match Name::parse(alloc, name) {
        Ok(name) => Ok(Some((name, kind))),
        Err(NameFault::OutOfMemory) => Err(FolderFault::OutOfMemory),
        Err(NameFault::BadName) => unreachable!(),
    }
}

/// The kind of what a row says.
fn kind_of(content: &Content<Items<u8>>) -> Kind
    ensures { result ≡ kind_of content.now }
{
    match content {
        Content::Dir => Kind::Dir,
        Content::Absent | Content::File(_) => Kind::File,
    }
}

/// Copies the bytes from an offset on into the front of the buffer, as many as are there and as fit, and answers how many.
fn copy_range(bytes: &[u8], offset: u64, buffer: &mut [u8]) -> usize
    ensures bound { result ≤ length buffer.new }
    ensures value { take result buffer.new ≡ range bytes.now offset (length buffer.new) }
{
    let start = (offset as usize).min(bytes.len());
    let count = (bytes.len() - start).min(buffer.len());
    buffer[..count].copy_from_slice(&bytes[start..start + count]);
    count
}
