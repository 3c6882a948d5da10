//! The stage of a run over a pair on a disk: pieces store what they read in the replica that it is copied into.
ghost use Rattle.std.specs.Prelude.{◌≡◌, ◌≢◌, ◌↔◌, IfErr, IfNone, IfOk, IfSome, IsTrue, None, Some, length, map};
ghost use Rattle.std.specs.String.{string_bytes};
ghost use Rattle.ts_cause.specs.declared.cause.Cause.{Cause};
ghost use Rattle.ts_disk.specs.Homes.{home_of};
ghost use Rattle.ts_disk.specs.Stages.{IsSourceOf, IsStagePlace, cause_number, failure_number, root_from, root_of};
ghost use Rattle.ts_disk.specs.declared.stage.Failure.{Failure};
ghost use Rattle.ts_model.specs.Plans.{source};
ghost use Rattle.ts_model.specs.declared.plan.Side.{Side};
ghost use Rattle.ts_name.specs.Paths.{IsAbove};

use crate::aside::new_buffer;
use crate::fault::DiskFault;
use crate::flushing::{flush_seen, unflushed_since};
use crate::leftover::remove_at;
use crate::lock::LockedRoot;
use crate::modes::{PRIVATE_FILE, permissions};
use crate::place::{
    Home, Standing, check_home, create_file, kind_at, make_missing_dir, metadata_at, own_place,
    stage_place,
};
use std::alloc::{AllocError, Global};
use std::fs::{File, Files, OpenOptions, Permissions};
use std::io;
use std::io::ErrorKind;
use std::os::unix::fs::{FileExt, PermissionsExt};
use std::sync::atomic::{AtomicU32, Ordering};
use std::time::Clock;
use ts_cause::{Cause, cause_of};
use ts_model::items::Items;
use ts_model::plan::{Entry, Side};
use ts_name::Path;
use ts_stage::{Piece, ReadBack, Reading, Stage, StageFault};

/// The stage of a run over a pair on a disk, for all its workers at once. What the pieces of entry `K` read lies in
/// `.twosync/stage-K` in the replica that it is copied into, as it stands below the entry's path, until its commit takes it.
///
/// A piece that can't be stored fails its entry alone: the entry's stage is removed at once, and its other pieces aren't stored
/// any more.
pub struct DiskStage<R> {
    files: R,
    first: String,
    second: String,
    // The pieces of files that have several, in ascending order.
    parts: Vec<u32>,
    // Beside each of these, where it begins its file, how many of the file's pieces aren't stored yet; else the number of the
    // piece that begins it, which stays.
    waiting: Vec<AtomicU32>,
    // the program's own directories, as they were locked
    homes: Homes,
    // since when what was changed in a source may not have reached its device yet, in seconds since 1970
    since: i64,
    // for each entry 0, or by its number why its pieces aren't stored any more: whichever failure came first
    failed: Vec<AtomicU32>,
}

/// Written out, so that a proof of what drops one stays short.
impl<R: Drop> Drop for DiskStage<R> {
    fn drop(self) {
        let DiskStage {
            files,
            first,
            second,
            parts,
            waiting,
            homes: _,
            since: _,
            failed,
        } = self;
        drop(files);
        drop(first);
        drop(second);
        drop(parts);
        drop(waiting);
        drop(failed);
    }
}

/// Why the pieces of an entry aren't stored any more.
#[derive(Clone, Copy, Debug, PartialEq, Eq, Drop)]
enum Failure {
    OutOfMemory,
    Device { cause: Cause },
}

/// Whether a piece that was stored was the last of its file.
#[derive(Clone, Copy, Debug, PartialEq, Eq, Drop)]
enum Turn {
    /// Others are still to be stored.
    NotYet,
    /// It was the last one, and others were stored before.
    Last,
    /// The file has no other.
    Only,
}

/// One of the pieces of a file that has several.
#[derive(Clone, Copy, Debug, PartialEq, Eq, Drop)]
pub struct Part {
    /// The number of its action.
    pub piece: u32,
    /// How many pieces the file has, where this one begins it; else the number of the one that does.
    pub word: u32,
}

/// The program's own directories of both replicas.
#[derive(Clone, Copy, Drop)]
struct Homes {
    first: Option<Home>,
    second: Option<Home>,
}

/// The file that a stored one is copied from.
#[derive(Drop)]
struct SourceFile {
    place: String,
    // the stored one is at the top of its entry, so that its commit gives it its permission bits
    is_top: bool,
}

/// Where the pieces of an entry are stored, and where the file of one of them is.
#[derive(Drop)]
struct StagePlace {
    own: String,
    stage: String,
    file: String,
}

impl<R: Files + Clock + Drop> DiskStage<R> {
    /// The stage of a run over replicas with these roots that carries out a plan of so many entries. `parts` are the pieces of all
    /// files that have several, in ascending order. Nothing is made yet. Nothing is stored where another directory stands later than
    /// the program's own one that was locked, or none.
    pub fn new(
        alloc: Global,
        files: R,
        entries: usize,
        parts: &[Part],
        first: LockedRoot<'_>,
        second: LockedRoot<'_>,
    ) -> Result<DiskStage<R>, DiskFault>
        ensures first { IfOk result (λ stage. string_bytes stage.first ≡ first.entry.root.now) }
        ensures second { IfOk result (λ stage. string_bytes stage.second ≡ second.entry.root.now) }
        ensures home_of_first { IfOk result (λ stage. stage.homes.first ≡ home_of first.entry.lock.now) }
        ensures home_of_second { IfOk result (λ stage. stage.homes.second ≡ home_of second.entry.lock.now) }
        ensures fault { IfErr result (λ e. e ≡ DiskFault.OutOfMemory) }
    {
        let (parts, waiting) = counts(alloc, parts)?;
        let none = vec![in alloc; 0u32; entries]?;
        let failed = words(alloc, none.as_slice())?;
        let homes = Homes {
            first: first.home(),
            second: second.home(),
        };
        let first = String::from_str(alloc, first.root)?;
        let second = String::from_str(alloc, second.root)?;
        let since = unflushed_since(&files);
        Ok(DiskStage {
            files,
            first,
            second,
            parts,
            waiting,
            homes,
            since,
            failed,
        })
    }
}

impl<R: Drop> DiskStage<R> {
    /// Why the pieces of the entry of this number weren't stored, as far as the system says.
    pub fn cause(&self, entry: u32) -> Cause {
        match self.failure(entry) {
            Some(Failure::Device { cause }) => cause,
            Some(Failure::OutOfMemory) | None => Cause::Unknown,
        }
    }

    /// Why the pieces of an entry aren't stored any more. None where they still are.
    fn failure(&self, entry: u32) -> Option<Failure> {
        let word = self.failed.get(entry as usize)?;
        failure_of(word.load(Ordering::SeqCst))
    }

    /// Notes why the pieces of an entry aren't stored any more. Who comes first fails by that. All others are answered as if they
    /// were stored, so that an entry is reported once: its commit waits for the one that failed, and is never made.
    fn give_up(&self, entry: u32, failure: Failure) -> Result<Option<ReadBack>, Failure> {
        let Some(word) = self.failed.get(entry as usize) else {
            return Err(failure);
        };
        match word.compare_exchange(0, number_of(failure), Ordering::SeqCst, Ordering::SeqCst) {
            Ok(_) => Err(failure),
            Err(_) => Ok(None),
        }
    }

    /// Counts a piece as stored.
    fn count_down(&self, action: u32, offset: u64) -> Turn {
        let Some(word) = self.word_of(action) else {
            return Turn::Only;
        };
        if offset == 0 {
            return take_one(word);
        }
        match self.word_of(word.load(Ordering::SeqCst)) {
            Some(word) => take_one(word),
            None => Turn::NotYet,
        }
    }

    /// What is kept of a piece whose file has several.
    fn word_of(&self, action: u32) -> Option<&AtomicU32> {
        let index = self.parts.binary_search(&action).ok()?;
        self.waiting.get(index)
    }

    /// Where the pieces of an entry are stored, which has this number, and where the file at this whole path is. None where the
    /// entry isn't copied, or copies no such file.
    fn place(
        &self,
        alloc: Global,
        number: u32,
        entry: &Entry,
        path: &Path,
    ) -> Result<Option<StagePlace>, AllocError>
        ensures none { IfOk result (λ found. IfNone found ((from : Side) → source entry.now.reason ≡ Some from → ¬ IsAbove entry.now.path path.now)) }
        ensures stage { IfOk result (λ found. IfSome found
            (IsStagePlace entry.now number (string_bytes self.now.first) (string_bytes self.now.second) path.now)) }
    {
        let Some(from) = entry.reason.source() else {
            return Ok(None);
        };
        let Some(rest) = path.below(alloc, &entry.path)? else {
            return Ok(None);
        };
        let own = own_place(alloc, self.root_from(from))?;
        let stage = stage_place(alloc, own.as_str(), number)?;
        let file = rest.place_below(alloc, stage.as_str())?;
        Ok(Some(StagePlace { own, stage, file }))
    }

    /// The file that the one at this whole path is copied from, and whether that one is at the top of its entry: the commit gives it
    /// its permission bits then, which may be those of the file that it replaces. None where the entry isn't copied.
    fn source_file(
        &self,
        alloc: Global,
        entry: &Entry,
        path: &Path,
    ) -> Result<Option<SourceFile>, AllocError>
        ensures source { IfOk result (λ found. IfSome found (λ it.
            IsSourceOf entry.now (string_bytes self.now.first) (string_bytes self.now.second) path.now (string_bytes it.place))) }
        ensures top { IfOk result (λ found. IfSome found (λ file. IsTrue file.is_top ↔ (path.now ≡ entry.now.path))) }
        ensures none { IfOk result (λ found. IfNone found (source entry.now.reason ≡ None)) }
    {
        let Some(from) = entry.reason.source() else {
            return Ok(None);
        };
        let place = path.place_below(alloc, self.root_of(from))?;
        Ok(Some(SourceFile {
            place,
            is_top: path == &entry.path,
        }))
    }

    /// The root of the replica on this side.
    fn root_of(&self, side: Side) -> &str
        ensures { result.now ≡ root_of (string_bytes self.now.first) (string_bytes self.now.second) side }
    {
        match side {
            Side::First => self.first.as_str(),
            Side::Second => self.second.as_str(),
        }
    }

    /// The program's own directory in the replica that an entry is copied into.
    fn home_from(&self, entry: &Entry) -> Option<Home> {
        match entry.reason.source()? {
            Side::First => self.homes.second,
            Side::Second => self.homes.first,
        }
    }

    /// The root of the replica that is copied into, by the one that is copied from.
    fn root_from(&self, from: Side) -> &str
        ensures { result.now ≡ root_from (string_bytes self.now.first) (string_bytes self.now.second) from }
    {
        match from {
            Side::First => self.second.as_str(),
            Side::Second => self.first.as_str(),
        }
    }
}

impl<R: Files<File = File> + AllocGlobal + Clone + Drop> DiskStage<R> {
    /// Writes the bytes of a piece to their place. Where they were the last of their file that were missing, it waits until the file
    /// that they were read from has reached its device, gives the new one its permission bits, waits until that has reached its device,
    /// all that others wrote into it too, and answers what it then has.
    fn write(
        &self,
        alloc: Global,
        action: u32,
        entry: &Entry,
        path: &Path,
        place: &StagePlace,
        offset: u64,
        bytes: &Items<u8>,
    ) -> io::Result<Option<ReadBack>> {
        // no link that others put in its place is followed, and nothing is stored where another replica stands by now
        check_home(&self.files, place.own.as_str(), self.home_from(entry))?;
        let file = open_stored(&self.files, place)?;
        file.write_all_at(bytes.as_slice(), offset)?;
        let whole = match self.count_down(action, offset) {
            Turn::NotYet => return Ok(None),
            Turn::Last => read_back(&self.files, alloc, &file)?,
            Turn::Only => stamped(alloc, bytes)?,
        };
        self.settle_source(alloc, entry, path, &file)?;
        file.sync_all()?;
        Ok(Some(whole))
    }

    /// Waits until the file that this one is copied from has reached its device, if it was changed lately: the archive will say that
    /// it is there. It gives this one that one's permission bits, unless it is at the top of its entry. Where the file system keeps
    /// no such bits, it does without. It fails where the source can't be looked at or flushed, or memory runs out.
    fn settle_source(
        &self,
        alloc: Global,
        entry: &Entry,
        path: &Path,
        file: &File,
    ) -> io::Result<()> {
        let Some(source) = self.source_file(alloc, entry, path)? else {
            return Ok(());
        };
        let place = source.place.as_str();
        let Some(found) = metadata_at(&self.files, place)? else {
            return Ok(());
        };
        flush_seen(&self.files, place, &found, self.since)?;
        let mode = permissions(&found);
        if !source.is_top && found.is_file() && mode != PRIVATE_FILE {
            let _ = file.set_permissions(Permissions::from_mode(mode));
        }
        Ok(())
    }

    /// Stores the bytes of a piece. After a failure the entry's stage is removed by each who comes upon it: so it goes after the
    /// last write into it, too.
    fn keep(
        &self,
        alloc: Global,
        action: u32,
        number: u32,
        entry: &Entry,
        path: &Path,
        offset: u64,
        bytes: &Items<u8>,
    ) -> Result<Option<ReadBack>, Failure> {
        if self.failure(number).is_some() {
            return Ok(None);
        }
        let place = match self.place(alloc, number, entry, path) {
            Ok(Some(place)) => place,
            Ok(None) => {
                return self.give_up(
                    number,
                    Failure::Device {
                        cause: Cause::Unknown,
                    },
                );
            }
            Err(AllocError) => return self.give_up(number, Failure::OutOfMemory),
        };
        let stored = match self.write(alloc, action, entry, path, &place, offset, bytes) {
            Ok(whole) if self.failure(number).is_none() => return Ok(whole),
            Ok(_) => Ok(None),
            Err(e) => self.give_up(number, failure_by(&e)),
        };
        let _ = remove_at(&self.files, place.stage.as_str());
        stored
    }
}

impl<R: Files<File = File> + AllocGlobal + Clone + Drop + Sync> Stage for DiskStage<R> {
    ghost fails = { λ _. Unit {0} };

    fn store(
        &self,
        alloc: Global,
        action: u32,
        number: u32,
        entry: &Entry,
        path: &Path,
        offset: u64,
        bytes: Vec<u8>,
    ) -> Result<Piece, StageFault> {
        let bytes = Items::new(bytes);
        match self.keep(alloc, action, number, entry, path, offset, &bytes) {
            Ok(whole) => Ok(Piece::stored(&bytes, whole)),
            Err(Failure::OutOfMemory) => Err(StageFault::OutOfMemory),
            Err(Failure::Device { cause: _ }) => Err(StageFault::Device),
        }
    }
}

/// Takes one from a count, and answers whether it was the last.
fn take_one(word: &AtomicU32) -> Turn {
    if word.fetch_sub(1, Ordering::SeqCst) == 1 {
        Turn::Last
    } else {
        Turn::NotYet
    }
}

/// The same numbers as words that threads share.
fn words(alloc: Global, numbers: &[u32]) -> Result<Vec<AtomicU32>, AllocError>
    ensures { IfOk result (λ words. length words.items ≡ length numbers.now) }
{
    let mut words = Vec::with_capacity(alloc, numbers.len())?;
    for number in numbers {
        words.push(AtomicU32::new(*number))?;
    }
    Ok(words)
}

/// The numbers of these pieces, and what `waiting` begins with beside each.
fn counts(alloc: Global, pieces: &[Part]) -> Result<(Vec<u32>, Vec<AtomicU32>), AllocError>
    ensures same { IfOk result (λ found. found.0.items ≡ map (λ part. part.piece) pieces.now) }
    ensures words { IfOk result (λ found. length found.1.items ≡ length pieces.now) }
{
    let mut parts = Vec::with_capacity(alloc, pieces.len())?;
    let mut waiting = Vec::with_capacity(alloc, pieces.len())?;
    for part in pieces {
        parts.push(part.piece)?;
        waiting.push(AtomicU32::new(part.word))?;
    }
    Ok((parts, waiting))
}

/// Opens the file at a place in a stage, for its owner alone, and makes it and the directories above it where they are missing, but
/// for the program's own one. What others have written into it stays. No link is followed: a file that is made is a new one, and one
/// that is there is no link.
fn open_stored<R: Files<File = File>>(files: &R, place: &StagePlace) -> io::Result<File> {
    let at = place.file.as_str();
    match open_or_make(files, at) {
        Err(e) if e.kind() == ErrorKind::NotFound => {
            make_dirs_above(files, at, place.stage.as_str().len())?;
            open_or_make(files, at)
        }
        opened => opened,
    }
}

/// Opens a new file, or the one that is there.
fn open_or_make<R: Files<File = File>>(files: &R, place: &str) -> io::Result<File> {
    match create_file(files, place) {
        Err(e) if e.kind() == ErrorKind::AlreadyExists => open_there(files, place),
        opened => opened,
    }
}

/// Opens a file that is there.
fn open_there<R: Files<File = File>>(files: &R, place: &str) -> io::Result<File> {
    match kind_at(files, place)? {
        Standing::File => {
            let mut options = OpenOptions::new();
            options.read(true).write(true);
            options.open(files, place)
        }
        Standing::Nothing | Standing::CutOff | Standing::Dir | Standing::Other => {
            Err(io::Error::from(ErrorKind::AlreadyExists))
        }
    }
}

/// Makes the directories above a place where they are missing, from the one whose text has `top` bytes on.
fn make_dirs_above<R: Files>(files: &R, place: &str, top: usize) -> io::Result<()> {
    for end in top..place.len() {
        match place.split_at_checked(end) {
            Some((above, rest)) if rest.starts_with('/') => make_missing_dir(files, above)?,
            _ => {}
        }
    }
    Ok(())
}

/// What a file of one piece has: the bytes of that.
fn stamped(alloc: Global, bytes: &Items<u8>) -> io::Result<ReadBack>
    ensures { IfOk result (λ back. back ≡ bytes.now) }
{
    let mut reading = Reading::begin(alloc);
    reading.add(bytes)?;
    Ok(reading.end())
}

/// What an open file has, from its beginning to its end.
fn read_back<R: AllocGlobal>(files: &R, alloc: Global, file: &File) -> io::Result<ReadBack> {
    let mut reading = Reading::begin(alloc);
    let mut offset = 0u64;
    for _ in 0..u64::MAX {
        let mut part = new_buffer(files)?;
        match file.read_at(part.as_mut_slice(), offset) {
            Ok(0) => break,
            Ok(count) => {
                part.truncate(count);
                reading.add(&Items::new(part))?;
                offset = offset.saturating_add(count as u64);
            }
            Err(e) if e.kind() == ErrorKind::Interrupted => {}
            Err(e) => return Err(e),
        }
    }
    Ok(reading.end())
}

/// Why a piece isn't stored, as a call failed with this error.
fn failure_by(e: &io::Error) -> Failure {
    if e.kind() == ErrorKind::OutOfMemory {
        Failure::OutOfMemory
    } else {
        Failure::Device { cause: cause_of(e) }
    }
}

/// The number by which a failure is noted.
fn number_of(failure: Failure) -> u32
    ensures { result ≡ failure_number failure }
{
    match failure {
        Failure::OutOfMemory => 1,
        Failure::Device { cause } => number_of_cause(cause) + 2,
    }
}

/// The failure that is noted by a number. None where none is.
fn failure_of(number: u32) -> Option<Failure>
    ensures { (failure : Failure) → number ≡ failure_number failure → result ≡ Some failure }
{
    match number {
        0 => None,
        1 => Some(Failure::OutOfMemory),
        _ => Some(Failure::Device {
            cause: cause_of_number(number - 2),
        }),
    }
}

fn number_of_cause(cause: Cause) -> u32
    ensures { result ≡ cause_number cause }
{
    match cause {
        Cause::Unknown => 0,
        Cause::Denied => 1,
        Cause::Full => 2,
        Cause::QuotaUsed => 3,
        Cause::ReadOnly => 4,
        Cause::NotThere => 5,
        Cause::NotFolder => 6,
        Cause::IsFolder => 7,
        Cause::Taken => 8,
        Cause::Busy => 9,
        Cause::OtherDevice => 10,
        Cause::TooLarge => 11,
        Cause::BadName => 12,
        Cause::LinksInCircle => 13,
        Cause::Unsupported => 14,
        Cause::Stale => 15,
        Cause::OutOfMemory => 16,
        Cause::Device => 17,
    }
}

/// The cause that has a number.
fn cause_of_number(number: u32) -> Cause
    ensures { (cause : Cause) → number ≡ cause_number cause → result ≡ cause }
{
    match number {
        1 => Cause::Denied,
        2 => Cause::Full,
        3 => Cause::QuotaUsed,
        4 => Cause::ReadOnly,
        5 => Cause::NotThere,
        6 => Cause::NotFolder,
        7 => Cause::IsFolder,
        8 => Cause::Taken,
        9 => Cause::Busy,
        10 => Cause::OtherDevice,
        11 => Cause::TooLarge,
        12 => Cause::BadName,
        13 => Cause::LinksInCircle,
        14 => Cause::Unsupported,
        15 => Cause::Stale,
        16 => Cause::OutOfMemory,
        17 => Cause::Device,
        _ => Cause::Unknown,
    }
}
