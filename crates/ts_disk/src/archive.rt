//! The place of an archive, and the lock on it.
ghost use Rattle.std.specs.Prelude.{◌≡◌, ◌++◌, ◌↔◌, false, true, IfNone, IfOk, IsTrue, Ok, OnOk, codes};
ghost use Rattle.std.specs.String.{string_bytes};
ghost use Rattle.sha2.specs.Sha256.{sha256};
ghost use Rattle.ts_disk.specs.Names.{IsNamedIn, StandsIn};
ghost use Rattle.ts_disk.specs.Claims.{KeepsPlace, RemembersForgotten};

use crate::digest::{digest_at, digest_in};
use crate::fault::{DiskFault, failed, unusable, unwritten};
use crate::known::{ArchiveDigest, Noted, PairName};
use crate::known_file::known_below;
use crate::lock::{Lock, is_at, lock_file};
use crate::modes::{PRIVATE_FILE, permissions};
use crate::place::{Standing, create_file, flush_at, kind_at};
use sha2::{Digest, Sha256};
use std::alloc::Global;
use std::fs::{File, Files, OpenOptions, Permissions};
use std::io::{BufWriter, ErrorKind, Read, Seek, Write};
use std::os::unix::fs::PermissionsExt;
use std::{fs, io};
use ts_archive::ArchiveFault;
use ts_cause::Cause;
use ts_model::plan::Side;
use ts_print::Print;
use ts_text::Counted;

/// How the text of every archive begins.
const BEGINNING: &[u8] = b"twosync-archive ";

/// The file that tells this machine from others.
const MACHINE_ID: &str = "/etc/machine-id";

/// How many bytes of it are read at most. It has 33.
const MACHINE_ID_BYTES: u64 = 64;

/// How many links from one to the next are followed to an archive's place.
const LINKS: u32 = 40;

/// The place of an archive that one run may write. The new archive is written beside it, under its name with `.new` added, which
/// is made at the start and locked until the end. After a checkpoint has taken its place the next one is made and locked at once.
#[derive(Drop)]
pub struct ArchivePlace {
    // what lies beside the archive; where it is done, the archive itself
    file: File,
    name: String,
    place: String,
    new: String,
    mode: u32,
    // of the pair that it is the archive of
    pair: PairName,
    // of the archive that is there, if there is one
    pub(crate) digest: Option<ArchiveDigest>,
    // another pair was forgotten in the replica, since this one was noted
    has_first_forgotten: bool,
    has_second_forgotten: bool,
    // something was written into it
    is_begun: bool,
    // the new archive has taken its place, and no other one was made since
    is_done: bool,
}

/// Takes the place of an archive, before anything is changed. A link is followed to where it leads.
///
/// `Locked` where another run writes this archive. `Unread` where the archive that is there can't be read. `Failed` where what stands at the place is neither a file nor absent; where
/// the new archive can't be made beside it; and where something stands there that isn't what a stopped run left: a file that
/// begins as an archive does.
pub fn claim_archive<R: Files<File = File> + AllocGlobal>(
    files: &R,
    alloc: Global,
    name: &str,
) -> Result<ArchivePlace, DiskFault>
    ensures new { IfOk result (λ claimed. string_bytes claimed.new ≡ string_bytes claimed.place ++ codes ".new") }
    ensures name { IfOk result (λ claimed. string_bytes claimed.name ≡ name.now) }
    ensures begun { IfOk result (λ claimed. claimed.is_done ≡ false) }
    ensures first { IfOk result (λ claimed. claimed.has_first_forgotten ≡ false) }
    ensures second { IfOk result (λ claimed. claimed.has_second_forgotten ≡ false) }
{
    let place = followed(files, alloc, name)?;
    let name = String::from_str(alloc, name)?;
    let mode = mode_for(files, place.as_str())?;
    let new = format!(in alloc; "{place}.new")?;
    let digest = digest_at(files, alloc, place.as_str())?;
    let pair = pair_at(files, alloc, place.as_str())?;
    let file = make_new(files, new.as_str(), mode)?;
    Ok(ArchivePlace {
        file,
        name,
        place,
        new,
        mode,
        pair,
        digest,
        has_first_forgotten: false,
        has_second_forgotten: false,
        is_begun: false,
        is_done: false,
    })
}

impl ArchivePlace {
    /// Writes the archive and puts it in its place, and waits until it has reached the device. Before, both replicas, with these
    /// locks, note that it is theirs. After a fault the archive that was there is there as it was, or the new one is, which may not
    /// have reached the device.
    pub fn write<R: Files<File = File> + AllocGlobal>(
        &mut self,
        files: &R,
        alloc: Global,
        archive: &Print,
        first: &Option<Lock>,
        second: &Option<Lock>,
    ) -> Result<(), DiskFault>
        ensures done { OnOk result (self.exit.now.is_done ≡ true) }
        ensures kept { KeepsPlace self.entry.now self.exit.now }
        ensures forgotten { RemembersForgotten self.entry.now self.exit.now }
    {
        self.put(files, alloc, archive, first, second)?;
        self.flush(files)
    }

    /// Does what `write` does while the run goes on, and takes the place again for what is written next. Between the rename and
    /// that another run may take the place; then nothing more is written by this one.
    pub fn write_checkpoint<R: Files<File = File> + AllocGlobal>(
        &mut self,
        files: &R,
        alloc: Global,
        archive: &Print,
        first: &Option<Lock>,
        second: &Option<Lock>,
    ) -> Result<(), DiskFault>
        ensures claimed { OnOk result (self.exit.now.is_done ≡ false) }
        ensures kept { KeepsPlace self.entry.now self.exit.now }
        ensures forgotten { RemembersForgotten self.entry.now self.exit.now }
    {
        self.put(files, alloc, archive, first, second)?;
        let renewed = self.renew(files);
        self.flush(files)?;
        renewed
    }

    /// Writes the archive to the device, and puts it in its place. Where the place was lost after a checkpoint it is first taken
    /// again.
    fn put<R: Files<File = File> + AllocGlobal>(
        &mut self,
        files: &R,
        alloc: Global,
        archive: &Print,
        first: &Option<Lock>,
        second: &Option<Lock>,
    ) -> Result<(), DiskFault>
        ensures done { OnOk result (self.exit.now.is_done ≡ true) }
        ensures kept { KeepsPlace self.entry.now self.exit.now }
        ensures forgotten { RemembersForgotten self.entry.now self.exit.now }
    {
        if self.is_lost(files)? {
            self.renew(files)?;
        }
        let digest = self.write_new(alloc, archive)?;
        self.has_first_forgotten |= self.note_in(first, files, alloc, digest)?;
        self.has_second_forgotten |= self.note_in(second, files, alloc, digest)?;
        fs::rename(files, self.new.as_str(), self.place.as_str()).map_err(failed)?;
        self.digest = Some(digest);
        self.is_done = true;
        Ok(())
    }

    /// Writes the archive to the file beside its place, and waits until it has reached the device. Answers the digest in its end line.
    fn write_new(&mut self, alloc: Global, archive: &Print) -> Result<ArchiveDigest, DiskFault>
        ensures kept { KeepsPlace self.entry.now self.exit.now }
        ensures forgotten { RemembersForgotten self.entry.now self.exit.now }
    {
        if self.is_begun {
            empty(&self.file).map_err(failed)?;
        }
        self.is_begun = true;
        write_text(&self.file, alloc, archive)?;
        self.file.sync_all().map_err(failed)?;
        digest_in(alloc, &self.file)?.ok_or(unusable())
    }

    /// Notes in a replica with this lock that the archive with this digest is to come. Answers whether another pair was forgotten for it.
    fn note_in<R: Files<File = File>>(
        &self,
        lock: &Option<Lock>,
        files: &R,
        alloc: Global,
        digest: ArchiveDigest,
    ) -> Result<bool, DiskFault>
        ensures none { IfNone lock.now (result ≡ Ok false) }
    {
        match lock {
            Some(lock) => {
                let noted = lock.note_archive(files, alloc, self.pair, self.digest, digest)?;
                Ok(noted == Noted::Forgot)
            }
            None => Ok(false),
        }
    }

    /// Whether the replica on this side has forgotten another pair since the place was claimed: the one that was used longest ago, of
    /// 1,024.
    pub fn forgot_pair(&self, side: Side) -> bool
        ensures first { side ≡ Side.First → result ≡ self.now.has_first_forgotten }
        ensures second { side ≡ Side.Second → result ≡ self.now.has_second_forgotten }
    {
        match side {
            Side::First => self.has_first_forgotten,
            Side::Second => self.has_second_forgotten,
        }
    }

    /// Whether what was written last doesn't lie beside the archive any more. A rename that was reported as failed may have put
    /// it in place all the same; then it must not be emptied.
    fn is_lost<R: Files<File = File>>(&self, files: &R) -> Result<bool, DiskFault>
        ensures done { IfOk result (λ lost. self.now.is_done ≡ true → lost ≡ true) }
    {
        if self.is_done {
            return Ok(true);
        }
        if !self.is_begun {
            return Ok(false);
        }
        let is_there = is_at(files, &self.file, self.new.as_str()).map_err(failed)?;
        Ok(!is_there)
    }

    /// Makes and locks the next new archive after one has taken its place, unless another run has put its own there meanwhile.
    fn renew<R: Files<File = File> + AllocGlobal>(&mut self, files: &R) -> Result<(), DiskFault>
        ensures claimed { OnOk result (self.exit.now.is_done ≡ false) }
        ensures kept { KeepsPlace self.entry.now self.exit.now }
        ensures forgotten { RemembersForgotten self.entry.now self.exit.now }
    {
        let file = make_new(files, self.new.as_str(), self.mode)?;
        if !is_at(files, &self.file, self.place.as_str()).unwrap_or(false) {
            let _ = fs::remove_file(files, self.new.as_str());
            return Err(DiskFault::Locked);
        }
        self.file = file;
        self.is_begun = false;
        self.is_done = false;
        Ok(())
    }

    /// Waits until the directory of the archive has reached the device.
    fn flush<R: Files>(&self, files: &R) -> Result<(), DiskFault> {
        flush_at(files, above(self.place.as_str())).map_err(failed)
    }

    /// Whether the place was claimed by this name.
    pub fn is_of(&self, name: &str) -> bool
        ensures name { IsTrue result ↔ (string_bytes self.now.name ≡ name.now) }
    {
        self.name.as_str() == name
    }

    /// Gives the place up. What was begun beside the archive is removed.
    pub fn release<R: Files>(self, files: &R) {
        if !self.is_done {
            let _ = fs::remove_file(files, self.new.as_str());
        }
    }
}

/// Takes away all that was written to a file.
fn empty(file: &File) -> io::Result<()> {
    let mut file = file;
    file.set_len(0)?;
    file.rewind()
}

/// Writes the text of an archive to a file, line by line through a buffer.
fn write_text(file: &File, alloc: Global, archive: &Print) -> Result<(), DiskFault> {
    let out = BufWriter::new(alloc, file).map_err(|_| DiskFault::OutOfMemory)?;
    let mut sink = Counted::new(out);
    match ts_archive::encode(alloc, archive, &mut sink) {
        Ok(()) => {}
        Err(ArchiveFault::OutOfMemory) => return Err(DiskFault::OutOfMemory),
        Err(_) => return Err(unwritten(&mut sink.inner)),
    }
    sink.inner.flush().map_err(failed)
}

/// Where a name leads when links are followed; nothing needs to be there.
fn followed<R: Files + AllocGlobal>(
    files: &R,
    alloc: Global,
    name: &str,
) -> Result<String, DiskFault> {
    if name.is_empty() {
        return Err(unusable());
    }
    let mut place = String::from_str(alloc, name)?;
    for _ in 0..LINKS {
        if !is_link(files, place.as_str()) {
            return Ok(place);
        }
        place = target_of(files, alloc, place.as_str())?;
    }
    Err(DiskFault::Failed {
        cause: Cause::LinksInCircle,
    })
}

/// Whether a link stands at a place.
fn is_link<R: Files>(files: &R, place: &str) -> bool {
    match fs::symlink_metadata(files, place) {
        Ok(metadata) => metadata.is_symlink(),
        Err(_) => false,
    }
}

/// The place that the link at a place leads to.
fn target_of<R: Files + AllocGlobal>(
    files: &R,
    alloc: Global,
    place: &str,
) -> Result<String, DiskFault> {
    let target = fs::read_link(files, place).map_err(failed)?;
    let target = target.as_str();
    if target.starts_with('/') {
        return Ok(String::from_str(alloc, target)?);
    }
    let above = above(place);
    Ok(format!(in alloc; "{above}/{target}")?)
}

/// The name of the pair whose archive is at a place. Where the system doesn't tell the whole path of its directory, as where that is no
/// text, it goes by the place as it was named.
fn pair_at<R: Files + AllocGlobal>(
    files: &R,
    alloc: Global,
    place: &str,
) -> Result<PairName, DiskFault> {
    let machine = machine_id(files, alloc)?;
    let machine = machine.as_slice();
    let directory = above(place);
    let name = name_in(place);
    match fs::canonicalize(files, directory) {
        Ok(whole) => Ok(pair_name(machine, whole.as_str(), name)),
        Err(e) if e.kind() == ErrorKind::OutOfMemory => Err(DiskFault::OutOfMemory),
        Err(_) => Ok(pair_name(machine, directory, name)),
    }
}

/// What tells this machine from others, as far as that can be read, else nothing. A disk that is carried between two of them may belong to
/// a pair on each whose archives lie at the same place.
fn machine_id<R: Files>(files: &R, alloc: Global) -> Result<Vec<u8>, DiskFault> {
    let mut id = Vec::new(alloc);
    let read = match fs::open(files, MACHINE_ID) {
        Ok(file) => file.take(MACHINE_ID_BYTES).read_to_end(&mut id),
        Err(e) => Err(e),
    };
    match read {
        Err(e) if e.kind() == ErrorKind::OutOfMemory => Err(DiskFault::OutOfMemory),
        Err(_) => Ok(Vec::new(alloc)),
        Ok(_) => Ok(id),
    }
}

/// The name of the pair whose archive has this name in a directory of a machine.
fn pair_name(machine: &[u8], directory: &str, name: &str) -> PairName
    ensures { result ≡ sha256 (machine.now ++ directory.now ++ codes "/" ++ name.now) }
{
    let mut hasher = Sha256::new();
    hasher.update(machine);
    hasher.update(directory.as_bytes());
    hasher.update(b"/");
    hasher.update(name.as_bytes());
    hasher.finalize()
}

/// The name of what is at a place in its directory.
fn name_in(place: &str) -> &str
    ensures { IsNamedIn place.now result.now }
{
    match place.rsplit_once('/') {
        Some((_, name)) => name,
        None => place,
    }
}

/// Whether a replica with this root knows the archive at a place, as its lock would say, for who takes none. Where there is no archive
/// yet, there is nothing to know. Nothing is changed.
///
/// `Archives` and `Own` come as where the replica is locked, and `Unread` and `Failed` where the archive can't be read.
pub fn knows_archive<R: Files<File = File> + AllocGlobal>(
    files: &R,
    alloc: Global,
    root: &str,
    archive: &str,
) -> Result<bool, DiskFault> {
    let known = known_below(files, alloc, root)?;
    let place = followed(files, alloc, archive)?;
    match digest_at(files, alloc, place.as_str())? {
        Some(digest) => Ok(known.knows(&digest)),
        None => Ok(true),
    }
}

/// The directory in which a place is.
fn above(place: &str) -> &str
    ensures { StandsIn place.now result.now }
{
    match place.rsplit_once('/') {
        Some((above, _)) if above.is_empty() => "/",
        Some((above, _)) => above,
        None => ".",
    }
}

/// The permission bits that a new archive gets at a place: those of the file there, or else such that others may not read it.
fn mode_for<R: Files>(files: &R, place: &str) -> Result<u32, DiskFault> {
    if has_file(files, place)? {
        mode_at(files, place)
    } else {
        Ok(PRIVATE_FILE)
    }
}

/// Whether a file stands at a place. What is neither a file nor absent is refused.
fn has_file<R: Files>(files: &R, place: &str) -> Result<bool, DiskFault> {
    match kind_at(files, place).map_err(failed)? {
        Standing::Nothing => Ok(false),
        Standing::File => Ok(true),
        Standing::Dir => Err(DiskFault::Failed {
            cause: Cause::IsFolder,
        }),
        Standing::CutOff | Standing::Other => Err(unusable()),
    }
}

/// The permission bits of what stands at a place.
fn mode_at<R: Files>(files: &R, place: &str) -> Result<u32, DiskFault> {
    let metadata = fs::symlink_metadata(files, place).map_err(failed)?;
    Ok(permissions(&metadata))
}

/// Removes what a stopped run left where a new archive is written, and nothing else.
fn clear_stale<R: Files<File = File> + AllocGlobal>(files: &R, new: &str) -> Result<(), DiskFault> {
    if !has_file(files, new)? {
        return Ok(());
    }
    let file = open_locked(files, new)?;
    if !is_at(files, &file, new).map_err(failed)? {
        return Err(DiskFault::Locked);
    }
    if !begins_as_archive(files.alloc(), &file).map_err(failed)? {
        return Err(unusable());
    }
    fs::remove_file(files, new).map_err(failed)
}

/// Opens the file at a place and locks it.
fn open_locked<R: Files<File = File>>(files: &R, place: &str) -> Result<File, DiskFault> {
    let mut options = OpenOptions::new();
    options.read(true).write(true);
    let file = options.open(files, place).map_err(failed)?;
    lock_file(&file)?;
    Ok(file)
}

/// Whether a file's bytes begin as every archive's, or are a beginning of that.
fn begins_as_archive(alloc: Global, file: &File) -> io::Result<bool> {
    let mut bytes = Vec::new(alloc);
    file.take(BEGINNING.len() as u64).read_to_end(&mut bytes)?;
    Ok(BEGINNING.starts_with(bytes.as_slice()))
}

/// Makes the file of a new archive and locks it, in place of what a stopped run left there. It gets these permission bits, as far
/// as that can be done.
fn make_new<R: Files<File = File> + AllocGlobal>(
    files: &R,
    new: &str,
    mode: u32,
) -> Result<File, DiskFault> {
    clear_stale(files, new)?;
    let file = make_locked(files, new)?;
    if mode != PRIVATE_FILE {
        let _ = file.set_permissions(Permissions::from_mode(mode));
    }
    Ok(file)
}

/// Makes a file that others may not read, where nothing is, and locks it.
fn make_locked<R: Files<File = File>>(files: &R, new: &str) -> Result<File, DiskFault> {
    let file = match create_file(files, new) {
        Ok(file) => file,
        // another run has made it since it was looked for
        Err(e) if e.kind() == ErrorKind::AlreadyExists => return Err(DiskFault::Locked),
        Err(e) => return Err(failed(e)),
    };
    lock_file(&file)?;
    match is_at(files, &file, new) {
        Ok(true) => Ok(file),
        Ok(false) => Err(DiskFault::Locked),
        Err(e) => Err(failed(e)),
    }
}
