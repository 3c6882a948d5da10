//! One run at a time on a replica.
ghost use Rattle.std.specs.Prelude.{◌≡◌, ◌++◌, ◌↔◌, IfOk, IfSome, IsTrue, codes};
ghost use Rattle.std.specs.String.{string_bytes};
ghost use Rattle.ts_disk.specs.Homes.{home_of};
ghost use Rattle.ts_disk.specs.Known.{Knows};

use crate::archive::ArchivePlace;
use crate::fault::{DiskFault, failed, own_failed};
use crate::known::{ArchiveDigest, KnownArchives, Noted, PairName};
use crate::known_file::{OwnPlace, note_archive, read_known};
use crate::place::{
    Home, Standing, close_own, create_file, is_same, look_at, make_own, mark_used, metadata_at,
    own_place,
};
use std::alloc::Global;
use std::fs::{File, Files, Metadata, OpenOptions, TryLockError};
use std::io::ErrorKind;
use std::os::unix::fs::MetadataExt;
use std::{fs, io};
use ts_cause::{Cause, cause_of};

/// How often the lock is tried where another run takes the program's directory away in between, or a stopped one left its lock.
const TRIES: u32 = 10;

/// Others that take the lock of the replica are refused until this is dropped.
#[derive(Drop)]
pub struct Lock {
    // open for as long as the lock is held
    file: File,
    place: String,
    own: String,
    // which directory stood there when the lock was taken
    home: Home,
    // the replica took part in a run before: it had a directory `.twosync`, and not one that a run left which was stopped before it came
    // so far
    took_part: bool,
    known: KnownArchives,
}

impl Lock {
    /// Whether the replica took part in the last run with the archive in this place, as far as it remembers. Where there is no archive
    /// yet, there is nothing to know.
    pub fn knows(&self, archive: &ArchivePlace) -> bool
        ensures { IsTrue result ↔ IfSome archive.now.digest (Knows self.now.known) }
    {
        match &archive.digest {
            Some(digest) => self.known.knows(digest),
            None => true,
        }
    }

    /// Whether the lock's file still lies in its place: else the replica went away, as where its disk is no longer mounted.
    pub fn is_in_place<R: Files<File = File>>(&self, files: &R) -> bool {
        is_at(files, &self.file, self.place.as_str()).unwrap_or(false)
    }

    /// Which directory the program's own one is, as the lock was taken.
    pub(crate) fn home(&self) -> Home
        ensures { result ≡ self.now.home }
    {
        self.home
    }

    /// Notes in the replica that the archive of a pair with the digest `last` is to take the place of the one before, where it is still
    /// there. Answers what became of the lines.
    pub(crate) fn note_archive<R: Files<File = File>>(
        &self,
        files: &R,
        alloc: Global,
        pair: PairName,
        before: Option<ArchiveDigest>,
        last: ArchiveDigest,
    ) -> Result<Noted, DiskFault> {
        let own = OwnPlace {
            place: self.own.as_str(),
            home: self.home,
        };
        note_archive(files, alloc, &own, pair, before, last)
    }

    /// Notes that the replica takes part in this run.
    pub fn take_part<R: Files>(&self, files: &R) -> Result<(), DiskFault> {
        if self.took_part {
            return Ok(());
        }
        mark_used(files, self.own.as_str()).map_err(failed)
    }

    /// Removes the lock's file, and then gives the lock up. The file stays where it can't be removed, which hurts no later run.
    /// The directory `.twosync` stays: it tells that the replica took part in a run.
    pub fn release<R: Files>(self, files: &R) {
        let _ = fs::remove_file(files, self.place.as_str());
    }

    /// The same where the run was refused: where the replica hadn't taken part before, its directory `.twosync` goes too.
    pub fn withdraw<R: Files>(self, files: &R) {
        let _ = fs::remove_file(files, self.place.as_str());
        if !self.took_part {
            let _ = fs::remove_dir(files, self.own.as_str());
        }
    }
}

/// The root of a replica, and its lock. There is none where the root is no directory.
#[derive(Clone, Copy)]
pub struct LockedRoot<'a> {
    pub root: &'a str,
    pub lock: &'a Option<Lock>,
}

impl LockedRoot<'_> {
    /// The program's own directory, if there is one.
    pub(crate) fn home(&self) -> Option<Home>
        ensures { result ≡ home_of self.now.lock.now }
    {
        match self.lock {
            Some(lock) => Some(lock.home()),
            None => None,
        }
    }
}

/// Takes the lock of a replica, on the file `.twosync/lock` in its root, which is made anew.
///
/// `Locked` at once where another run has it, `Own` where `.twosync` or the file can't be made, opened or locked, and where `.twosync`
/// belongs to another user than what is made there: whoever it belongs to may have put a plan into it, which would be obeyed.
/// `Archives` where `.twosync/archives` isn't what this program writes. There is no lock where the root is no directory. The lock is
/// advisory: it stops those who take it, and nobody else.
pub fn take_lock<R: Files<File = File>>(
    files: &R,
    alloc: Global,
    root: &str,
) -> Result<Option<Lock>, DiskFault>
    ensures own { IfOk result (λ lock. IfSome lock (λ held. string_bytes held.own ≡ root.now ++ codes "/.twosync")) }
    ensures place { IfOk result (λ lock. IfSome lock (λ held. string_bytes held.place ≡ root.now ++ codes "/.twosync/lock")) }
{
    if !is_directory(files, root)? {
        return Ok(None);
    }
    for _ in 0..TRIES {
        if let Some(lock) = try_lock(files, alloc, root)? {
            return Ok(Some(lock));
        }
    }
    Err(DiskFault::Own { cause: Cause::Busy })
}

/// Takes the lock of a replica whose root is a directory. None where a stopped run had left its file, which is removed, and where `.twosync`
/// is gone again: then it may be tried again.
fn try_lock<R: Files<File = File>>(
    files: &R,
    alloc: Global,
    root: &str,
) -> Result<Option<Lock>, DiskFault>
    ensures own { IfOk result (λ lock. IfSome lock (λ held. string_bytes held.own ≡ root.now ++ codes "/.twosync")) }
    ensures place { IfOk result (λ lock. IfSome lock (λ held. string_bytes held.place ≡ root.now ++ codes "/.twosync/lock")) }
{
    let own = own_place(alloc, root)?;
    let place = format!(in alloc; "{own}/lock")?;
    let took_part = make_own(files, own.as_str()).map_err(own_failed)?;
    check_place(files, place.as_str(), root.len())?;
    let Some(file) = make_lock_file(files, place.as_str())? else {
        return Ok(None);
    };
    let home = take_own(files, &file, own.as_str(), place.as_str())?;
    let known = known_at(files, alloc, own.as_str(), place.as_str())?;
    Ok(Some(Lock {
        file,
        place,
        own,
        home,
        took_part,
        known,
    }))
}

/// Whether a root is a directory, or a link to one. What can't be looked at may be one.
fn is_directory<R: Files>(files: &R, root: &str) -> Result<bool, DiskFault> {
    match fs::metadata(files, root) {
        Ok(metadata) => Ok(metadata.is_dir()),
        Err(e) => match e.kind() {
            ErrorKind::NotFound | ErrorKind::NotADirectory => Ok(false),
            ErrorKind::OutOfMemory => Err(DiskFault::OutOfMemory),
            _ => Err(failed(e)),
        },
    }
}

/// Refuses a place of the lock where something else than a file stands.
fn check_place<R: Files>(files: &R, place: &str, root: usize) -> Result<(), DiskFault> {
    let cause = match look_at(files, place, root).map_err(own_failed)? {
        Standing::Nothing | Standing::File | Standing::CutOff => return Ok(()),
        Standing::Dir => Cause::IsFolder,
        Standing::Other => Cause::Unknown,
    };
    Err(DiskFault::Own { cause })
}

/// The archives that a replica knows. Where that can't be read, the lock's file is removed.
fn known_at<R: Files>(
    files: &R,
    alloc: Global,
    own: &str,
    place: &str,
) -> Result<KnownArchives, DiskFault> {
    let known = read_known(files, alloc, own);
    if known.is_err() {
        let _ = fs::remove_file(files, place);
    }
    known
}

/// Closes the program's own directory to others, and refuses it where it belongs to another user than the lock's file, which this run
/// has made there. That file is removed then, and nothing else is changed. Answers which directory it is.
fn take_own<R: Files<File = File>>(
    files: &R,
    file: &File,
    own: &str,
    place: &str,
) -> Result<Home, DiskFault> {
    let cause = match of_one_owner(files, file, own) {
        Ok(Some(metadata)) => {
            close_own(files, own, &metadata);
            return Ok(Home::of(&metadata));
        }
        Ok(None) => Cause::Unknown,
        Err(e) => cause_of(&e),
    };
    let _ = fs::remove_file(files, place);
    Err(DiskFault::Own { cause })
}

/// What the system says of the directory at a place, if it belongs to whom an open file belongs to.
fn of_one_owner<R: Files<File = File>>(
    files: &R,
    file: &File,
    own: &str,
) -> io::Result<Option<Metadata>> {
    let made = file.metadata()?;
    Ok(match metadata_at(files, own)? {
        Some(found) if found.uid() == made.uid() => Some(found),
        _ => None,
    })
}

/// Makes the file of a lock where nothing is, and locks it. None where its directory isn't there, and where a stopped run had left
/// such a file, which is removed: then it may be tried again.
fn make_lock_file<R: Files<File = File>>(
    files: &R,
    place: &str,
) -> Result<Option<File>, DiskFault> {
    match create_file(files, place) {
        Ok(file) => {
            hold(files, &file, place)?;
            Ok(Some(file))
        }
        Err(e) if e.kind() == ErrorKind::AlreadyExists => {
            remove_stale(files, place)?;
            Ok(None)
        }
        Err(e) if e.kind() == ErrorKind::NotFound => Ok(None),
        Err(e) => Err(own_failed(e)),
    }
}

/// Locks the file at a place. `Locked` where another run has, and where it isn't at that place any more: a run that ended since it was
/// opened has removed it, and another one may hold the lock of a new file there.
fn hold<R: Files<File = File>>(files: &R, file: &File, place: &str) -> Result<(), DiskFault> {
    match lock_file(file) {
        Err(DiskFault::Failed { cause }) => return Err(DiskFault::Own { cause }),
        locked => locked?,
    }
    match is_at(files, file, place) {
        Ok(true) => Ok(()),
        Ok(false) => Err(DiskFault::Locked),
        Err(e) => Err(own_failed(e)),
    }
}

/// Removes the lock's file that a stopped run left at a place, unless another run holds it.
fn remove_stale<R: Files<File = File>>(files: &R, place: &str) -> Result<(), DiskFault> {
    let mut options = OpenOptions::new();
    options.write(true);
    match options.open(files, place) {
        Ok(file) => {
            hold(files, &file, place)?;
            fs::remove_file(files, place).map_err(own_failed)
        }
        // the run that had it has ended
        Err(e) if e.kind() == ErrorKind::NotFound => Ok(()),
        Err(e) => Err(own_failed(e)),
    }
}

/// Locks an open file, unless another run has.
pub(crate) fn lock_file(file: &File) -> Result<(), DiskFault> {
    match file.try_lock() {
        Ok(()) => Ok(()),
        Err(TryLockError::WouldBlock) => Err(DiskFault::Locked),
        Err(TryLockError::Error(e)) => Err(failed(e)),
    }
}

/// Whether an open file is the one at a place.
pub(crate) fn is_at<R: Files<File = File>>(
    files: &R,
    file: &File,
    place: &str,
) -> io::Result<bool> {
    let own = file.metadata()?;
    match fs::symlink_metadata(files, place) {
        Ok(there) => Ok(is_same(&there, &own)),
        Err(e) if e.kind() == ErrorKind::NotFound => Ok(false),
        Err(e) => Err(e),
    }
}
