//! A folder that counts what is read of it.
use crate::meter::Meter;
use crate::screen::Screen;
use std::alloc::Global;
use std::rt::Clock;
use ts_folder::{Folder, FolderFault, Kind};
use ts_name::{Name, Path};

/// Another folder, of which each file that is opened and each byte that is read is counted. It tells what that one tells, and
/// fails where that one fails.
#[derive(Drop)]
pub struct CountingFolder<'a, 'b, 'c, F, S> {
    pub folder: &'a F,
    pub meter: &'b Meter<'c, S>,
}

impl<F: Folder + Sync, S: Screen + Clock + Sync> Folder for CountingFolder<'_, '_, '_, F, S> {
    type File = F::File;

    ghost tells = { λ s. F.tells s.folder.now };

    ghost lets = { λ s. F.lets s.folder.now };

    ghost is_open = { λ s. F.is_open s.folder.now };

    fn list(&self, alloc: Global, path: &Path) -> Result<Vec<(Name, Kind)>, FolderFault> {
        self.folder.list(alloc, path)
    }

    fn is_dir(&self, alloc: Global, path: &Path) -> Result<bool, FolderFault> {
        self.folder.is_dir(alloc, path)
    }

    fn open_file(&self, alloc: Global, path: &Path) -> Result<F::File, FolderFault> {
        let file = self.folder.open_file(alloc, path)?;
        self.meter.add_file();
        Ok(file)
    }

    fn fill(
        &self,
        file: &mut F::File,
        offset: u64,
        buffer: &mut [u8],
    ) -> Result<usize, FolderFault> {
        let count = self.folder.fill(file, offset, buffer)?;
        self.meter.add_bytes(count as u64);
        Ok(count)
    }
}
