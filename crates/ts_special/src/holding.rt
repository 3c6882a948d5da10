//! A folder on a disk with stand-ins.
ghost use Rattle.std.specs.Prelude.{◌≡◌, IfOk, IsTrue, drop, length, min, take};
ghost use Rattle.ts_folder.specs.Folders.{InOrder};
ghost use Rattle.ts_special.specs.StandIns.{is_stand_in};

use crate::children::children_at;
use crate::looks::Sort;
use crate::specials::Specials;
use sha2::{Digest, Sha256};
use std::alloc::Global;
use std::cmp::Ordering;
use std::fs::Files;
use ts_folder::{DiskFolder, Folder, FolderFault, Kind};
use ts_model::row::Stamp;
use ts_name::{Name, Path, PathFault};

/// The bytes of each stand-in. They say what they are, so that no file of a user's has the same: a file that equals what
/// stands on the other side counts as agreed.
const STAND_IN: &[u8] = b"twosync: what is here can't be synchronized\n";

/// Whether a file with this stamp is a stand-in, or has the same bytes.
pub fn is_stand_in(stamp: &Stamp) -> bool
    ensures { result ≡ is_stand_in stamp.now }
{
    stamp.size == STAND_IN.len() as u64 && stamp.digest == Sha256::digest(STAND_IN)
}

/// A directory of the file system and what is below it, with a stand-in at each special path: a file with bytes of its own,
/// and nothing below it. All else is what `DiskFolder` says.
///
/// What can't be listed or read and isn't among the special paths is a fault.
#[derive(Drop)]
pub struct HoldingFolder<R> {
    folder: DiskFolder<R>,
    files: R,
    root: String,
    pub specials: Specials,
}

impl<R: Clone + Drop> HoldingFolder<R> {
    /// The folder at a directory of the file system, with stand-ins at these paths. Nothing is looked at yet.
    pub fn new(
        alloc: Global,
        files: R,
        root: &str,
        specials: Specials,
    ) -> Result<HoldingFolder<R>, FolderFault>
        ensures { IfOk result (λ folder. folder.specials ≡ specials) }
    {
        let folder = DiskFolder::new(alloc, files.clone()?, root)?;
        let root = String::from_str(alloc, root)?;
        Ok(HoldingFolder {
            folder,
            files,
            root,
            specials,
        })
    }
}

impl<R: Files + AllocGlobal + Clone + Drop + Sync> Folder for HoldingFolder<R> {
    ghost use Rattle.std.specs.Prelude.{◌≡◌, None, is_none};
    ghost use Rattle.ts_special.specs.Specials.{is_among};

    // None is a stand-in.
    type File = Option<R::File>;

    ghost tells = { λ _. None };

    ghost lets = { λ _ _ _ _. Unit {0} };

    ghost is_open = { λ folder file p. is_none file ≡ is_among folder.specials p };

    fn list(&self, alloc: Global, path: &Path) -> Result<Vec<(Name, Kind)>, FolderFault> {
        if self.specials.contains(path) {
            return Err(FolderFault::NotThere);
        }
        if !self.specials.has_below(path) {
            return self.folder.list(alloc, path);
        }
        let children = children_at(alloc, &self.files, self.root.as_str(), path)?;
        let names = kinds(alloc, path, children, &self.specials)?;
        if is_in_order(&names) {
            Ok(names)
        } else {
            Err(FolderFault::Device)
        }
    }

    fn is_dir(&self, alloc: Global, path: &Path) -> Result<bool, FolderFault> {
        if self.specials.contains(path) {
            return Ok(false);
        }
        self.folder.is_dir(alloc, path)
    }

    fn open_file(&self, alloc: Global, path: &Path) -> Result<Option<R::File>, FolderFault> {
        if self.specials.contains(path) {
            return Ok(None);
        }
        let file = self.folder.open_file(alloc, path)?;
        Ok(Some(file))
    }

    fn fill(
        &self,
        file: &mut Option<R::File>,
        offset: u64,
        buffer: &mut [u8],
    ) -> Result<usize, FolderFault> {
        match file {
            Some(file) => self.folder.fill(file, offset, buffer),
            None => Ok(copied(STAND_IN, offset, buffer)),
        }
    }
}

/// Copies bytes from an offset on into the front of a buffer, and answers how many: as many as there are, or as it takes.
fn copied(bytes: &[u8], offset: u64, buffer: &mut [u8]) -> usize
    ensures count { result ≡ min (length (drop offset bytes.now)) (length buffer.old) }
    ensures front { take result buffer.new ≡ take result (drop offset bytes.now) }
    ensures room { length buffer.new ≡ length buffer.old }
{
    let start = offset.min(bytes.len() as u64) as usize;
    let rest = &bytes[start..];
    let count = rest.len().min(buffer.len());
    buffer[..count].copy_from_slice(&rest[..count]);
    count
}

/// The names of what stands in a directory, with their kinds.
fn kinds(
    alloc: Global,
    path: &Path,
    children: Vec<(Name, Sort)>,
    specials: &Specials,
) -> Result<Vec<(Name, Kind)>, FolderFault> {
    let mut names = Vec::new(alloc);
    for (name, sort) in children {
        let is_held = match path.child(alloc, &name) {
            Ok(child) => specials.contains(&child),
            Err(PathFault::TooLong) => false,
            Err(_) => return Err(FolderFault::OutOfMemory),
        };
        names.push((name, kind_of(sort, is_held)?))?;
    }
    Ok(names)
}

/// As what a child is listed: a stand-in as a file, whatever is there.
fn kind_of(sort: Sort, is_held: bool) -> Result<Kind, FolderFault> {
    match sort {
        _ if is_held => Ok(Kind::File),
        Sort::Dir => Ok(Kind::Dir),
        Sort::File => Ok(Kind::File),
        Sort::Special => Err(FolderFault::Unreadable),
    }
}

/// Whether each name comes after the one before it.
fn is_in_order(names: &[(Name, Kind)]) -> bool
    ensures { IsTrue result → InOrder names.now }
{
    for index in 1..names.len() {
        match names[index - 1].0.cmp(&names[index].0) {
            Ordering::Less => {}
            Ordering::Equal | Ordering::Greater => return false,
        }
    }
    true
}
