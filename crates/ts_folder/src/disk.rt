//! A folder on a disk.
ghost use Rattle.std.specs.Prelude.{◌↔◌, ◌≤◌, length, IfOk, IsTrue};
ghost use Rattle.ts_folder.specs.Folders.{InOrder};

use crate::fault::FolderFault;
use crate::folder::{Folder, Kind};
use crate::names::Names;
use crate::packing::{pack_last, pack_rest};
use std::alloc::Global;
use std::cmp::Ordering;
use std::fs::{FileType, Files};
use std::io::{ErrorKind, Read, Seek, SeekFrom};
use std::{fs, io};
use ts_name::{Name, NameFault, Path};

/// The name in the root that belongs to the program itself.
const OWN: &[u8] = b".twosync";

/// A directory of the file system and what is below it, by the leave to use files that it keeps.
///
/// No link is followed but the root: before each call it is looked at what stands at the path and above it. Whoever puts a
/// link there between the look and the call is followed, unless it stands in place of a directory that is listed. `.twosync` in
/// the root is left out.
#[derive(Drop)]
pub struct DiskFolder<R> {
    files: R,
    root: String,
}

impl<R> DiskFolder<R> {
    /// The folder at a directory of the file system. Nothing is looked at yet.
    pub fn new(alloc: Global, files: R, root: &str) -> Result<DiskFolder<R>, FolderFault>
    where
        R: Drop,
    {
        let root = String::from_str(alloc, root)?;
        Ok(DiskFolder { files, root })
    }
}

impl<R: Files + Drop + Sync> Folder for DiskFolder<R> {
    ghost use Rattle.std.specs.Prelude.{None};

    type File = R::File;

    ghost tells = { λ _. None };

    ghost lets = { λ _ _ _ _. Unit {0} };

    ghost is_open = { λ _ _ _. Unit {0} };

    fn list(&self, alloc: Global, path: &Path) -> Result<Vec<(Name, Kind)>, FolderFault> {
        let spelled = place_to_list(alloc, &self.files, self.root.as_str(), path)?;
        let mut names = read_names(alloc, &self.files, spelled.as_str(), path.is_root())?;
        names.sort_unstable_by(|one, other| one.0.cmp(&other.0));
        if is_in_order(&names) {
            Ok(names)
        } else {
            Err(FolderFault::Device)
        }
    }

    fn is_dir(&self, alloc: Global, path: &Path) -> Result<bool, FolderFault> {
        let spelled = path.place_below(alloc, self.root.as_str())?;
        match fs::symlink_metadata(&self.files, spelled.as_str()) {
            Ok(metadata) => Ok(kind_of(&metadata.file_type())? == Kind::Dir),
            // its path is longer than the system takes, which shows when it is opened
            Err(e) if e.kind() == ErrorKind::InvalidFilename => Ok(false),
            Err(e) => Err(listing_fault(&e)),
        }
    }

    fn open_file(&self, alloc: Global, path: &Path) -> Result<R::File, FolderFault> {
        let spelled = path.place_below(alloc, self.root.as_str())?;
        if kind_below(&self.files, spelled.as_str(), self.root.len())? == Kind::Dir {
            return Err(FolderFault::NotThere);
        }
        match fs::open(&self.files, spelled.as_str()) {
            Ok(file) => Ok(file),
            Err(e) => Err(fault_of(&e)),
        }
    }

    fn fill(
        &self,
        file: &mut R::File,
        offset: u64,
        buffer: &mut [u8],
    ) -> Result<usize, FolderFault> {
        match read_from(file, offset, buffer) {
            Ok(count) => Ok(count),
            Err(_) => Err(FolderFault::Device),
        }
    }
}

/// The place of a directory that is to be listed, where none but the root may be a link.
fn place_to_list<R: Files>(
    alloc: Global,
    files: &R,
    root: &str,
    path: &Path,
) -> Result<String, FolderFault> {
    let mut spelled = path.place_below(alloc, root)?;
    if kind_below(files, spelled.as_str(), root.len())? == Kind::File {
        return Err(FolderFault::NotThere);
    }
    if path.is_root() {
        // it may be a link itself
        spelled.push('/')?;
    }
    Ok(spelled)
}

/// Whether a directory or a file stands at a place of the folder, with no link on the way from the root down. The root may
/// be a link itself.
fn kind_below<R: Files>(files: &R, spelled: &str, root: usize) -> Result<Kind, FolderFault> {
    if spelled.len() > root {
        look_above(files, spelled, root)?;
        return kind_at(files, spelled);
    }
    match fs::metadata(files, spelled) {
        Ok(metadata) => kind_of(&metadata.file_type()),
        Err(e) => Err(fault_of(&e)),
    }
}

/// That each place above the last, from the root down, is a directory and no link.
fn look_above<R: Files>(files: &R, spelled: &str, root: usize) -> Result<(), FolderFault> {
    for end in 0..spelled.len() {
        if end > root {
            look_before(files, spelled, end)?;
        }
    }
    Ok(())
}

/// That a directory stands at the place that ends before `end`, if a place does.
fn look_before<R: Files>(files: &R, spelled: &str, end: usize) -> Result<(), FolderFault> {
    match spelled.split_at_checked(end) {
        Some((above, rest)) if rest.starts_with('/') => match kind_at(files, above)? {
            Kind::Dir => Ok(()),
            Kind::File | Kind::Unseen => Err(FolderFault::NotThere),
        },
        _ => Ok(()),
    }
}

/// Whether a directory or a file stands at a place.
fn kind_at<R: Files>(files: &R, spelled: &str) -> Result<Kind, FolderFault> {
    match fs::symlink_metadata(files, spelled) {
        Ok(metadata) => kind_of(&metadata.file_type()),
        Err(e) => Err(fault_of(&e)),
    }
}

fn kind_of(file_type: &FileType) -> Result<Kind, FolderFault> {
    if file_type.is_dir() {
        Ok(Kind::Dir)
    } else if file_type.is_file() {
        Ok(Kind::File)
    } else {
        Err(FolderFault::Unreadable)
    }
}

/// What an error of the system stands for: that nothing is there where it says so, and else a fault of the device.
fn fault_of(e: &io::Error) -> FolderFault {
    match e.kind() {
        ErrorKind::NotFound | ErrorKind::NotADirectory => FolderFault::NotThere,
        ErrorKind::OutOfMemory => FolderFault::OutOfMemory,
        _ => FolderFault::Device,
    }
}

/// The same where a directory is listed: one that must not be listed, or in which nothing may be looked at, and a name that
/// is no text, are unreadable.
fn listing_fault(e: &io::Error) -> FolderFault {
    match e.kind() {
        ErrorKind::PermissionDenied | ErrorKind::InvalidFilename => FolderFault::Unreadable,
        _ => fault_of(e),
    }
}

/// The names in a directory as the system gives them, unseen: a look at each is left to whoever comes to it, so that several
/// workers share the looks of one large directory. They share buffers, since a listing of many names stays until all that stands
/// below has been scanned.
fn read_names<R: Files>(
    alloc: Global,
    files: &R,
    spelled: &str,
    is_root: bool,
) -> Result<Vec<(Name, Kind)>, FolderFault> {
    let mut names = Vec::new(alloc);
    let mut found = match Names::open(alloc, files, spelled) {
        Ok(found) => found,
        Err(e) => return Err(listing_fault(&e)),
    };
    add_names(alloc, &mut names, &mut found, is_root)?;
    pack_rest(alloc, &mut names)?;
    // its room has grown by doubling
    names.shrink_to_fit();
    Ok(names)
}

/// Adds all names that are left, without the program's own in the root.
fn add_names<D: Read + Drop>(
    alloc: Global,
    names: &mut Vec<(Name, Kind)>,
    found: &mut Names<D>,
    is_root: bool,
) -> Result<(), FolderFault> {
    for _ in 0..u64::MAX {
        match found.next_name() {
            Ok(Some(name)) if is_root && name == OWN => {}
            Ok(Some(name)) => add_name(alloc, names, name)?,
            Ok(None) => break,
            Err(e) => return Err(listing_fault(&e)),
        }
    }
    Ok(())
}

/// Adds the name that these bytes are.
fn add_name(alloc: Global, names: &mut Vec<(Name, Kind)>, bytes: &[u8]) -> Result<(), FolderFault> {
    names.push((name_of(alloc, bytes)?, Kind::Unseen))?;
    pack_last(alloc, names)?;
    Ok(())
}

/// The name that these bytes are.
fn name_of(alloc: Global, bytes: &[u8]) -> Result<Name, FolderFault> {
    match Name::parse(alloc, bytes) {
        Ok(name) => Ok(name),
        Err(NameFault::OutOfMemory) => Err(FolderFault::OutOfMemory),
        Err(NameFault::BadName) => Err(FolderFault::Unreadable),
    }
}

/// Whether each name comes after the one before it.
fn is_in_order(names: &[(Name, Kind)]) -> bool
    ensures { IsTrue result → InOrder names.now }
{
    for index in 1..names.len() {
        match names[index - 1].0.cmp(&names[index].0) {
            Ordering::Less => {}
            Ordering::Equal | Ordering::Greater => return false,
        }
    }
    true
}

/// Reads from an offset on until the buffer is full or the file ends, and answers how many bytes.
fn read_from<F: Read + Seek>(file: &mut F, offset: u64, buffer: &mut [u8]) -> io::Result<usize>
    ensures { IfOk result (λ n. n ≤ length buffer.new) }
{
    if offset > i64::MAX as u64 {
        return Ok(0);
    }
    file.seek(SeekFrom::Start(offset))?;
    let mut count = 0;
    for _ in 0..u64::MAX {
        if count == buffer.len() {
            break;
        }
        match file.read(&mut buffer[count..]) {
            Ok(0) => break,
            Ok(n) => count += n,
            Err(e) if e.kind() == ErrorKind::Interrupted => {}
            Err(e) => return Err(e),
        }
    }
    Ok(count)
}
