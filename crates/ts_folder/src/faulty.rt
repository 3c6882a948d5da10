//! A folder that fails at the calls on its list, for tests.
ghost use Rattle.std.specs.Prelude.{◌≡◌};
ghost use Rattle.ts_folder.specs.Faulty.{trouble_at};

use crate::fault::{FolderFault, Trouble};
use crate::folder::{Folder, Kind};
use crate::memory::MemFolder;
use std::alloc::Global;
use ts_model::items::Items;
use ts_name::{Name, Path};

/// Where a call fails, and how.
#[derive(Drop)]
pub struct Failing {
    pub path: Path,
    pub trouble: Trouble,
}

/// A folder in memory that fails at the listed directories when it lists them, and at the listed files when it reads them.
/// The first in a list that names a path says how.
pub struct FaultyFolder {
    pub folder: MemFolder,
    pub lists: Items<Failing>,
    pub reads: Items<Failing>,
}

// Written out, so that a proof about what drops a folder calls a function.
impl Drop for FaultyFolder {
    fn drop(self) {
        let FaultyFolder {
            folder,
            lists,
            reads,
        } = self;
        drop(folder);
        drop(lists);
        drop(reads);
    }
}

impl FaultyFolder {
    /// The folder that fails at listings and at readings of these paths.
    pub fn new(folder: MemFolder, lists: Vec<Failing>, reads: Vec<Failing>) -> FaultyFolder
        ensures folder { result.folder ≡ folder }
        ensures lists { result.lists ≡ lists.items }
        ensures reads { result.reads ≡ reads.items }
    {
        FaultyFolder {
            folder,
            lists: Items::new(lists),
            reads: Items::new(reads),
        }
    }
}

/// How the first in the list that names a path says that it fails.
fn trouble_at(failing: &[Failing], path: &Path) -> Option<Trouble>
    ensures { result ≡ trouble_at failing.now path.now }
{
    let first = failing.iter().find(|entry| entry.path == *path)?;
    Some(first.trouble)
}

impl Folder for FaultyFolder {
    ghost use Rattle.std.specs.Prelude.{◌≡◌, Some};
    ghost use Rattle.ts_folder.specs.Faulty.{of_call, trouble_at};
    ghost use Rattle.ts_folder.specs.Folders.{IsFile};
    ghost use Rattle.ts_model.specs.Trees.{at};

    // A path at which a file is.
    type File = Path;

    ghost tells = { λ s. Some s.folder };

    ghost lets = { λ s call p trouble. trouble_at (of_call call s.lists s.reads) p ≡ Some trouble };

    ghost is_open = { λ s file p. (file ≡ p) × IsFile (at s.folder p) };

    fn list(&self, alloc: Global, path: &Path) -> Result<Vec<(Name, Kind)>, FolderFault> {
        let _rows = self.folder.rows();
        match trouble_at(self.lists.as_slice(), path) {
            Some(trouble) => Err(FolderFault::from(trouble)),
            None => self.folder.list(alloc, path),
        }
    }

    fn is_dir(&self, alloc: Global, path: &Path) -> Result<bool, FolderFault> {
        self.folder.is_dir(alloc, path)
    }

    fn open_file(&self, alloc: Global, path: &Path) -> Result<Path, FolderFault> {
        self.folder.open_file(alloc, path)
    }

    fn fill(&self, file: &mut Path, offset: u64, buffer: &mut [u8]) -> Result<usize, FolderFault> {
        match trouble_at(self.reads.as_slice(), file) {
            Some(trouble) => Err(FolderFault::from(trouble)),
            None => self.folder.fill(file, offset, buffer),
        }
    }
}
