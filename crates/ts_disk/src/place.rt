//! Places of the file system at a replica's root and below it.
ghost use Rattle.std.specs.Fmt.{decimal};
ghost use Rattle.std.specs.Prelude.{◌≡◌, ◌++◌, IfOk, codes};
ghost use Rattle.std.specs.Fs.{IsDir, IsFile};
ghost use Rattle.std.specs.String.{string_bytes};

use crate::fault::{DiskFault, failed};
use crate::modes::{PRIVATE_DIR, PRIVATE_FILE};
use std::alloc::{AllocError, Global};
use std::fs::{DirBuilder, FileType, Files, Metadata, OpenOptions, Permissions};
use std::io::ErrorKind;
use std::os::unix::fs::{DirBuilderExt, MetadataExt, OpenOptionsExt, PermissionsExt};
use std::{fs, io};

/// The bits of a mode by which others than the owner may use a file.
const OTHERS: u32 = 0o077;

/// The bit that marks the program's own directory until its replica takes part in a run.
const UNUSED: u32 = 0o1000;

/// The place of the directory in a replica's root that belongs to the program itself.
pub(crate) fn own_place(alloc: Global, root: &str) -> Result<String, AllocError>
    ensures { IfOk result (λ place. string_bytes place ≡ root.now ++ codes "/.twosync") }
{
    format!(in alloc; "{root}/.twosync")
}

/// The place in the program's own directory where the pieces of an entry are stored until its commit.
pub(crate) fn stage_place(alloc: Global, own: &str, entry: u32) -> Result<String, AllocError>
    ensures { IfOk result (λ place. string_bytes place ≡ own.now ++ codes "/stage-" ++ decimal entry) }
{
    format!(in alloc; "{own}/stage-{entry}")
}

/// Makes a file where nothing is, which nobody else may read, and opens it to be read and written.
pub(crate) fn create_file<R: Files>(files: &R, place: &str) -> io::Result<R::File> {
    let mut options = OpenOptions::new();
    options
        .read(true)
        .write(true)
        .create_new(true)
        .mode(PRIVATE_FILE);
    options.open(files, place)
}

/// What stands at a place.
#[derive(Clone, Copy, Debug, PartialEq, Eq, Drop)]
pub(crate) enum Standing {
    /// Nothing, in a directory.
    Nothing,
    /// Nothing that belongs to the replica: a place above is no directory, or isn't there.
    CutOff,
    /// A directory.
    Dir,
    /// A file.
    File,
    /// A link, or what else is neither a directory nor a file.
    Other,
}

/// What stands at a place below a root whose text has `root` bytes. No link below the root is followed; the root itself may
/// be reached by links.
pub(crate) fn look_at<R: Files>(files: &R, spelled: &str, root: usize) -> io::Result<Standing> {
    for end in root.saturating_add(1)..spelled.len() {
        if is_cut_before(files, spelled, end)? {
            return Ok(Standing::CutOff);
        }
    }
    kind_at(files, spelled)
}

/// Whether the place that ends before `end` is no directory, if a place does.
fn is_cut_before<R: Files>(files: &R, spelled: &str, end: usize) -> io::Result<bool> {
    match spelled.split_at_checked(end) {
        Some((above, rest)) if rest.starts_with('/') => match kind_at(files, above)? {
            Standing::Dir => Ok(false),
            Standing::Nothing | Standing::CutOff | Standing::File | Standing::Other => Ok(true),
        },
        _ => Ok(false),
    }
}

/// What stands at a place, whatever stands above it.
pub(crate) fn kind_at<R: Files>(files: &R, spelled: &str) -> io::Result<Standing> {
    match metadata_at(files, spelled)? {
        Some(metadata) => Ok(kind_of(metadata.file_type())),
        None => Ok(Standing::Nothing),
    }
}

/// What the system says of what stands at a place, without following a link there. None where nothing stands.
pub(crate) fn metadata_at<R: Files>(files: &R, spelled: &str) -> io::Result<Option<Metadata>> {
    match fs::symlink_metadata(files, spelled) {
        Ok(metadata) => Ok(Some(metadata)),
        Err(e) => match e.kind() {
            ErrorKind::NotFound | ErrorKind::NotADirectory => Ok(None),
            _ => Err(e),
        },
    }
}

/// What has a file type of the system.
pub(crate) fn kind_of(file_type: FileType) -> Standing
    ensures dir { IsDir file_type → result ≡ Standing.Dir }
    ensures file { ¬ IsDir file_type → IsFile file_type → result ≡ Standing.File }
    ensures other { ¬ IsDir file_type → ¬ IsFile file_type → result ≡ Standing.Other }
{
    if file_type.is_dir() {
        Standing::Dir
    } else if file_type.is_file() {
        Standing::File
    } else {
        Standing::Other
    }
}

/// Whether one and the same file stands at two places, under two names.
pub(crate) fn are_one<R: Files>(files: &R, one: &str, other: &str) -> io::Result<bool> {
    let one = metadata_at(files, one)?;
    let other = metadata_at(files, other)?;
    match (one, other) {
        (Some(one), Some(other)) => Ok(is_same(&one, &other)),
        _ => Ok(false),
    }
}

/// Whether two answers of the system are of one and the same file or directory.
pub(crate) fn is_same(one: &Metadata, other: &Metadata) -> bool {
    one.dev() == other.dev() && one.ino() == other.ino()
}

/// Makes the program's own directory in a root, for its owner alone, where it isn't there. Answers whether the replica took part in
/// a run before: one that was made for a run that never came so far is marked by its sticky bit, which means nothing else on a
/// directory of one owner.
pub(crate) fn make_own<R: Files>(files: &R, own: &str) -> io::Result<bool> {
    let mut builder = DirBuilder::new();
    builder.mode(PRIVATE_DIR | UNUSED);
    let Err(e) = builder.create(files, own) else {
        return Ok(false);
    };
    match metadata_at(files, own)? {
        Some(metadata) if metadata.is_dir() => Ok(metadata.mode() & UNUSED == 0),
        _ => Err(e),
    }
}

/// Closes the program's own directory to others, where it is open to them and that can be done.
pub(crate) fn close_own<R: Files>(files: &R, own: &str, metadata: &Metadata) {
    let mode = metadata.mode();
    if mode & OTHERS != 0 {
        let kept = PRIVATE_DIR | (mode & UNUSED);
        let _ = fs::set_permissions(files, own, Permissions::from_mode(kept));
    }
}

/// Which directory is the program's own one in a replica. Another one there, or none, is that of another replica: the disk of the
/// one may have been unmounted, and the other lies below it.
#[derive(Clone, Copy, Debug, PartialEq, Eq, Drop)]
pub(crate) struct Home {
    device: u64,
    inode: u64,
}

impl Home {
    /// The directory of which the system says this.
    pub(crate) fn of(metadata: &Metadata) -> Home {
        Home {
            device: metadata.dev(),
            inode: metadata.ino(),
        }
    }
}

/// The directory at a place, if one is there. No link is followed.
fn home_at<R: Files>(files: &R, own: &str) -> io::Result<Option<Home>> {
    Ok(match metadata_at(files, own)? {
        Some(metadata) if metadata.is_dir() => Some(Home::of(&metadata)),
        _ => None,
    })
}

/// Fails where another directory stands at a place than this one, or none.
pub(crate) fn check_home<R: Files>(files: &R, own: &str, home: Option<Home>) -> io::Result<()> {
    let found = home_at(files, own)?;
    if found.is_some() && found == home {
        Ok(())
    } else {
        Err(io::Error::from(ErrorKind::NotFound))
    }
}

/// Notes at the program's own directory that the replica takes part in a run.
pub(crate) fn mark_used<R: Files>(files: &R, own: &str) -> io::Result<()> {
    fs::set_permissions(files, own, Permissions::from_mode(PRIVATE_DIR))
}

/// Makes a directory that nobody else may enter, where nothing is.
pub(crate) fn make_private_dir<R: Files>(files: &R, place: &str) -> io::Result<()> {
    let mut builder = DirBuilder::new();
    builder.mode(PRIVATE_DIR);
    builder.create(files, place)
}

/// Makes a directory that nobody else may enter, unless a directory is there already.
pub(crate) fn make_missing_dir<R: Files>(files: &R, place: &str) -> io::Result<()> {
    match make_private_dir(files, place) {
        Err(e) if e.kind() == ErrorKind::AlreadyExists => match kind_at(files, place)? {
            Standing::Dir => Ok(()),
            Standing::Nothing | Standing::CutOff | Standing::File | Standing::Other => Err(e),
        },
        made => made,
    }
}

/// Removes a file or a link, if one is at a place. Answers whether one was.
pub(crate) fn remove_file_at<R: Files>(files: &R, place: &str) -> io::Result<bool> {
    match kind_at(files, place)? {
        Standing::File | Standing::Other => {
            fs::remove_file(files, place)?;
            Ok(true)
        }
        Standing::Nothing | Standing::CutOff | Standing::Dir => Ok(false),
    }
}

/// Renames what was written whole under another name to its own place. After a failure, of the writing too, nothing is left under the
/// former, where it can be removed.
pub(crate) fn settle_new<R: Files>(
    files: &R,
    new: &str,
    place: &str,
    written: Result<(), DiskFault>,
) -> Result<(), DiskFault> {
    let settled = match written {
        Ok(()) => fs::rename(files, new, place).map_err(failed),
        Err(fault) => Err(fault),
    };
    if settled.is_err() {
        let _ = remove_file_at(files, new);
    }
    settled
}

/// Waits until what stands at a place has reached its device: a file's bytes, or the names in a directory.
pub(crate) fn flush_at<R: Files>(files: &R, place: &str) -> io::Result<()> {
    use std::fs::OpenFile;
    fs::open(files, place)?.sync_all()
}
