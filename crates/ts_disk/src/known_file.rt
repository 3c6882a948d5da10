//! The file `.twosync/archives` in a replica, which says what archives it belongs to.
ghost use Rattle.std.specs.Prelude.{◌≡◌, ◌++◌, IfOk, codes};
ghost use Rattle.std.specs.String.{string_bytes};
ghost use Rattle.ts_disk.specs.Faults.{archives_fault};

use crate::fault::{DiskFault, failed, own_failed, unusable};
use crate::known::{ArchiveDigest, KnownArchives, MOST_PAIRS, Noted, PairName};
use crate::lock::is_at;
use crate::place::{
    Home, Standing, check_home, create_file, flush_at, kind_at, own_place, remove_file_at,
    settle_new,
};
use std::alloc::{AllocError, Global};
use std::fs;
use std::fs::{File, Files, OpenFile};
use std::io::{BufReader, Read, Write};
use ts_cause::Cause;
use ts_text::{Counted, Lines, Source, TextFault};

/// The name under which the file is written before it gets its own.
pub(crate) const NEW_NAME: &str = "archives.new";

/// What the first line was where a replica took part in runs before it had such a file. It says nothing any more.
const OLDER: &[u8] = b"older";

/// The place of the file in the program's own directory.
fn known_place(alloc: Global, own: &str) -> Result<String, AllocError>
    ensures { IfOk result (λ place. string_bytes place ≡ own.now ++ codes "/archives") }
{
    format!(in alloc; "{own}/archives")
}

/// Which archives the replica belongs to whose own directory of the program this is. Where the file isn't there, it knows none.
///
/// `Archives` where what is there isn't what this program writes.
pub(crate) fn read_known<R: Files>(
    files: &R,
    alloc: Global,
    own: &str,
) -> Result<KnownArchives, DiskFault> {
    let place = known_place(alloc, own)?;
    match kind_at(files, place.as_str()).map_err(own_failed)? {
        Standing::File => {
            let file = fs::open(files, place.as_str()).map_err(own_failed)?;
            known_in(alloc, file)
        }
        Standing::Nothing | Standing::CutOff => Ok(KnownArchives::none(alloc)),
        Standing::Dir | Standing::Other => Err(DiskFault::Archives),
    }
}

/// The same for a replica with this root, which needn't be locked. Where it has no `.twosync`, it knows none. What else stands there is
/// refused, as where the replica is locked.
pub(crate) fn known_below<R: Files>(
    files: &R,
    alloc: Global,
    root: &str,
) -> Result<KnownArchives, DiskFault> {
    let own = own_place(alloc, root)?;
    match kind_at(files, own.as_str()).map_err(own_failed)? {
        Standing::Dir => read_known(files, alloc, own.as_str()),
        Standing::Nothing | Standing::CutOff => Ok(KnownArchives::none(alloc)),
        Standing::File | Standing::Other => Err(DiskFault::Own {
            cause: Cause::Taken,
        }),
    }
}

/// What a file says.
fn known_in<F: Read + Drop>(alloc: Global, file: F) -> Result<KnownArchives, DiskFault> {
    let reader = BufReader::new(alloc, file).map_err(|_| DiskFault::OutOfMemory)?;
    let mut lines = Lines::new(alloc, Counted::new(reader)).map_err(|_| DiskFault::OutOfMemory)?;
    known_of(alloc, &mut lines)
}

/// What lines say, if they are those of a file that this program writes. It writes no empty one.
fn known_of<S: Source>(alloc: Global, lines: &mut Lines<S>) -> Result<KnownArchives, DiskFault> {
    let mut known = KnownArchives::none(alloc);
    for number in 0..MOST_PAIRS + 2 {
        match lines.next() {
            Ok(Some(line)) if number == 0 && line == OLDER => {}
            Ok(Some(line)) if known.take(line)? => {}
            Ok(None) if number > 0 => return Ok(known),
            Ok(_) => return Err(DiskFault::Archives),
            Err(fault) => return Err(unread_known(&fault)),
        }
    }
    Err(DiskFault::Archives)
}

/// What it is that lines end with this fault: those that aren't canonical aren't this program's.
fn unread_known(fault: &TextFault) -> DiskFault
    ensures { result ≡ archives_fault fault.now }
{
    match fault {
        TextFault::OutOfMemory => DiskFault::OutOfMemory,
        TextFault::Failed => DiskFault::Own {
            cause: Cause::Unknown,
        },
        TextFault::NotCanonical => DiskFault::Archives,
    }
}

/// Notes in a replica that the archive of a pair with the digest `last` is to take the place of the one before. That has reached the
/// device when the call ends. Nothing is written where the file says it already. It fails where the program's own directory isn't the one
/// that was locked: an older copy that lies below a disk which was unmounted must not learn of the archive. Answers what became of the
/// lines.
pub(crate) fn note_archive<R: Files<File = File>>(
    files: &R,
    alloc: Global,
    own: &OwnPlace<'_>,
    pair: PairName,
    before: Option<ArchiveDigest>,
    last: ArchiveDigest,
) -> Result<Noted, DiskFault> {
    own.check(files)?;
    let mut known = read_known(files, alloc, own.place)?;
    let noted = known.note(pair, before, last)?;
    match noted {
        Noted::Already => own.check(files)?,
        Noted::Replaced | Noted::Added | Noted::Forgot => {
            write_known(files, alloc, own, &known)?;
        }
    }
    Ok(noted)
}

/// Writes the file anew.
fn write_known<R: Files<File = File>>(
    files: &R,
    alloc: Global,
    own: &OwnPlace<'_>,
    known: &KnownArchives,
) -> Result<(), DiskFault> {
    let text = known.text(alloc)?;
    replace_known(files, alloc, own, text.as_slice())
}

/// Puts a file with this text in the place of the one that is there. Both have reached the device when the call ends.
fn replace_known<R: Files<File = File>>(
    files: &R,
    alloc: Global,
    own: &OwnPlace<'_>,
    text: &[u8],
) -> Result<(), DiskFault> {
    let place = known_place(alloc, own.place)?;
    let new = format!(in alloc; "{}/{NEW_NAME}", own.place)?;
    remove_file_at(files, new.as_str()).map_err(failed)?;
    let file = create_file(files, new.as_str()).map_err(failed)?;
    let written = write_text(files, &file, own, new.as_str(), text);
    settle_new(files, new.as_str(), place.as_str(), written)?;
    flush_at(files, own.place).map_err(failed)?;
    own.check_file(files, &file, place.as_str())
}

/// Writes the text to a file that was made at a place, where that is in the directory that was locked, and waits until it has reached
/// the device.
fn write_text<R: Files<File = File>>(
    files: &R,
    file: &File,
    own: &OwnPlace<'_>,
    new: &str,
    text: &[u8],
) -> Result<(), DiskFault> {
    own.check_file(files, file, new)?;
    let mut out = file;
    out.write_all(text).map_err(failed)?;
    file.sync_all().map_err(failed)
}

/// The program's own directory in a locked replica.
#[derive(Clone, Copy)]
pub(crate) struct OwnPlace<'a> {
    pub place: &'a str,
    /// Which directory it was, as the replica was locked.
    pub home: Home,
}

impl OwnPlace<'_> {
    /// Fails where another directory stands there, or none.
    fn check<R: Files>(&self, files: &R) -> Result<(), DiskFault> {
        check_home(files, self.place, Some(self.home)).map_err(failed)
    }

    /// The same, and where an open file isn't the one at a place in it. The file was made there: so it is in that directory.
    fn check_file<R: Files<File = File>>(
        &self,
        files: &R,
        file: &File,
        place: &str,
    ) -> Result<(), DiskFault> {
        self.check(files)?;
        if is_at(files, file, place).map_err(failed)? {
            Ok(())
        } else {
            Err(unusable())
        }
    }
}
