//! Where the paths are that can't be synchronized.

use crate::children::children_at;
use crate::looks::{Sort, can_be_read};
use crate::specials::Specials;
use std::alloc::Global;
use std::fs::Files;
use ts_folder::FolderFault;
use ts_name::{Name, Path, PathFault};
use ts_scan::{Refusal, ScanFault};

/// The paths below a root that can't be synchronized: links, devices, sockets and pipes; names that aren't lawful, by their
/// stand-ins; files that must not be read, and directories that must not be listed; a directory in which a path is longer or
/// deeper than paths may be; and a directory other than the root that is a replica itself.
///
/// No link is followed but the root. What is below such a path is not reported, and neither is the root: what is wrong with
/// the root a scan reports. What vanishes meanwhile is left out.
///
/// # Errors
///
/// The device failed at a path, or memory ran out.
pub fn search<R: Files>(alloc: Global, files: &R, root: &str) -> Result<Specials, ScanFault> {
    let mut walk = Walk {
        alloc,
        files,
        root,
        left: Vec::new(alloc),
        found: Vec::new(alloc),
    };
    walk.left.push(Path::root(alloc))?;
    for _ in 0..u64::MAX {
        match walk.left.pop() {
            Some(path) => walk.look_into(path)?,
            None => break,
        }
    }
    Ok(Specials::of(walk.found))
}

/// A search of the directories that are left, and what it has found.
#[derive(Drop)]
struct Walk<'a, 'b, R> {
    alloc: Global,
    files: &'a R,
    root: &'b str,
    left: Vec<Path>,
    found: Vec<Path>,
}

impl<R: Files> Walk<'_, '_, R> {
    /// Looks at what stands in a directory.
    fn look_into(&mut self, path: Path) -> Result<(), ScanFault> {
        match self.children_of(&path) {
            Ok(Some(children)) => self.add_all(children),
            Ok(None) | Err(FolderFault::Unreadable) if !path.is_root() => {
                self.found.push(path)?;
                Ok(())
            }
            Ok(None) | Err(FolderFault::Unreadable | FolderFault::NotThere) => Ok(()),
            Err(fault) => Err(fault_at(path, fault)),
        }
    }

    /// The paths that stand in a directory, or none where one of them would be past the limits of a path.
    fn children_of(&self, path: &Path) -> Result<Option<Vec<(Path, Sort)>>, FolderFault> {
        let mut paths = Vec::new(self.alloc);
        for (name, sort) in children_at(self.alloc, self.files, self.root, path)? {
            match path.child(self.alloc, &name) {
                Ok(child) => paths.push((child, sort))?,
                Err(PathFault::TooLong) => return Ok(None),
                Err(_) => return Err(FolderFault::OutOfMemory),
            }
        }
        Ok(Some(paths))
    }

    /// Adds what is special of these paths, and the directories, which are left to be looked into.
    fn add_all(&mut self, children: Vec<(Path, Sort)>) -> Result<(), ScanFault> {
        for (path, sort) in children {
            match sort {
                Sort::Dir => self.left.push(path)?,
                Sort::Special => self.found.push(path)?,
                Sort::File => self.add_file(path)?,
            }
        }
        Ok(())
    }

    /// Adds a file that must not be read.
    fn add_file(&mut self, path: Path) -> Result<(), ScanFault> {
        let place = path.place_below(self.alloc, self.root)?;
        match can_be_read(self.files, place.as_str()) {
            Ok(true) => Ok(()),
            Ok(false) => {
                self.found.push(path)?;
                Ok(())
            }
            Err(fault) => Err(fault_at(path, fault)),
        }
    }
}

/// A fault at a path, as a scan reports it.
fn fault_at(path: Path, fault: FolderFault) -> ScanFault {
    match fault {
        FolderFault::OutOfMemory => ScanFault::OutOfMemory,
        FolderFault::Device | FolderFault::NotThere | FolderFault::Unreadable => ScanFault::At {
            path,
            fault: Refusal::Device,
        },
    }
}
