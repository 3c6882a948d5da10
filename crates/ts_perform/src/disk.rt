//! The file system as commands see it.
ghost use Rattle.std.specs.Prelude.{◌≡◌, ℕ, Bool, List, Option, IfErr, IfOk, IsTrue, OnOk, is_some, option_map};
ghost use Rattle.std.specs.List.{All};
ghost use Rattle.ts_cause.specs.declared.cause.Cause.{Cause};
ghost use Rattle.ts_model.specs.declared.row.Row.{Row};
ghost use Rattle.ts_model.specs.declared.row.Stamp.{Stamp};
ghost use Rattle.ts_perform.specs.Stands.{Stand};
ghost use Rattle.ts_perform.specs.Trials.{IsQuiet};
ghost use denote.Param.Send.{IsSync};

use crate::fault::{OpenFault, PerformFault};
use crate::locks::Locks;
use crate::parts::parts_of;
use std::alloc::Global;
use std::fs::{File, Files};
use std::io::{ErrorKind, Read, Seek, SeekFrom};
use std::rt::Clock;
use std::sync::Arc;
use std::thread::Threads;
use std::{fs, io};
use ts_cause::{Cause, cause_of};
use ts_check::Checked;
use ts_disk::{
    ArchivePlace, DiskFault, DiskSite, DiskStage, Lock, LockedRoot, Way, awaits_recovery,
    claim_archive, flush_above, flush_above_alone, flush_paths, knows_archive, stopped_alike,
    take_lock,
};
use ts_folder::Folder;
use ts_model::plan::Side;
use ts_name::Path;
use ts_print::Print;
use ts_progress::Screen;
use ts_scan::ScanFault;
use ts_site::Site;
use ts_special::{HoldingFolder, Specials, search};
use ts_stage::Stage;

/// How many bytes are read at once of a file that couldn't be read.
const READ_AT_ONCE: usize = 8192;

/// How often that is done at most: 1 GiB in all.
const MOST_READS: u32 = 131_072;

/// Folders by their names, the places of commits in them, their locks, and the places of archives.
pub trait Disk {
    type File: Send + Drop;

    type Folder: Folder<File = Self::File> + Sync + Drop;

    type Site: Site;

    /// From which replica to which one commits copy.
    type Way: Drop;

    type Stage: Stage + Sync + Drop;

    type Lock: Drop;

    type Archive: Drop;

    type Opened: Read + Send + Drop;

    // Where a site's commit is made.
    ghost stand: { Self.Site → Stand };

    // To which replica a way leads, and from which one, by their roots.
    ghost to: { Self.Way → List ℕ };

    ghost from: { Self.Way → List ℕ };

    // The stage was asked for by these roots.
    ghost is_staged: { Self.Stage → List ℕ → List ℕ → Type 0 };

    // The folder was asked for by this root, with stand-ins at these paths.
    ghost is_at: { Self.Folder → List ℕ → List (List (List ℕ)) → Type 0 };

    // These paths were found below this root to be such that they can't be synchronized.
    ghost finds_special: { List ℕ → List (List (List ℕ)) → Type 0 };

    // The place's archive was claimed by this name.
    ghost is_named: { Self.Archive → List ℕ → Type 0 };

    // This archive was written in its place.
    ghost has: { Self.Archive → List (Row Stamp) → Type 0 };

    // The replica with this root was locked so, or there was nothing to lock.
    ghost is_locked: { Option Self.Lock → List ℕ → Type 0 };

    // Whether it was said of a locked replica that it knows the archive in this place.
    ghost knows: { Self.Lock → Self.Archive → Bool → Type 0 };

    // Whether it was said of the replica with this root that it knows the archive of this name.
    ghost known: { List ℕ → List ℕ → Bool → Type 0 };

    // Whether it was said of the replicas with these roots that the same run was stopped in both.
    ghost stopped: { List ℕ → List ℕ → Bool → Type 0 };

    // Whether both replicas were told of the archive before it was written in this place.
    ghost taught: { Self.Archive → Bool → Type 0 };

    // Whether it was said of the replica with this root that a stopped run isn't brought to its end there.
    ghost awaits: { List ℕ → Bool → Type 0 };

    // What stood at this path below this root has reached the device, as far as it was changed lately.
    ghost is_flushed: { List ℕ → List (List ℕ) → Type 0 };

    // The directories in which it stood have.
    ghost is_flushed_above: { List ℕ → List (List ℕ) → Type 0 };

    // What was found by this name: nothing, or a file, with its bytes where it tells them.
    ghost finds: { List ℕ → Option (Option (List ℕ)) → Type 0 };

    // What was said of a file or a directory at this place, read or listed from this offset on.
    ghost says: { List ℕ → ℕ → Cause → Type 0 };

    /// Opens a file to be read. None where nothing is there. A directory, a device or a pipe is never opened: it might be waited
    /// for.
    fn open(&self, name: &str) -> Result<Option<Self::Opened>, OpenFault>
        ensures found { IfOk result (λ found. finds name.now (option_map Self.Opened.remaining found)) };

    /// The paths below a root that can't be synchronized.
    fn specials(&self, alloc: Global, root: &str) -> Result<Specials, ScanFault>
        ensures found { IfOk result (finds_special root.now) };

    /// The folder at a directory, with a stand-in at each of these paths. Nothing is looked at yet.
    fn folder(
        &self,
        alloc: Global,
        root: &str,
        specials: Specials,
    ) -> Result<Self::Folder, PerformFault>
        ensures at { IfOk result (λ folder. is_at folder root.now specials) }
        ensures quiet { IfErr result IsQuiet };

    /// The way to the replica with the root `root`, which was locked by `lock`, from the one with the root `source`.
    fn way(
        &self,
        alloc: Global,
        lock: &Option<Self::Lock>,
        root: &str,
        source: &str,
    ) -> Result<Self::Way, PerformFault>
        ensures to { IfOk result (λ way. to way ≡ root.now) }
        ensures from { IfOk result (λ way. from way ≡ source.now) }
        ensures quiet { IfErr result IsQuiet };

    /// The place of the commit of the entry of this number and path, which is copied this way. Nothing is looked at yet.
    fn site(
        &self,
        alloc: Global,
        way: &Self::Way,
        path: &Path,
        entry: u32,
    ) -> Result<Self::Site, PerformFault>
        ensures stand { IfOk result (λ site. stand site ≡ record { root = to way.now; source = from way.now; path = path.now }) }
        ensures quiet { IfErr result IsQuiet };

    /// Where the pieces of a checked plan are stored until their commits take them, by the roots of both replicas and by their locks:
    /// each in the one that its entry is copied to. Nothing is looked at yet.
    fn stage(
        &self,
        alloc: Global,
        checked: &Checked<'_>,
        locks: &Locks<'_, Self::Lock>,
        first: &str,
        second: &str,
    ) -> Result<Self::Stage, PerformFault>
        ensures staged { IfOk result (λ stage. is_staged stage first.now second.now) }
        ensures quiet { IfErr result IsQuiet };

    /// Why the pieces of the entry of this number couldn't be stored, as far as the system says.
    fn stage_cause(&self, stage: &Self::Stage, entry: u32) -> Cause;

    /// Why the commit of a site failed last, as far as the system says.
    fn site_cause(&self, site: &Self::Site) -> Cause;

    /// Why a file can't be read from this offset on, or a directory can't be listed, as far as the system says now.
    fn read_cause(&self, place: &str, offset: u64) -> Cause
        ensures { says place.now offset result };

    /// Locks a replica until what is answered is dropped. There is no lock where no directory is.
    fn lock(&self, alloc: Global, root: &str) -> Result<Option<Self::Lock>, DiskFault>
        ensures locked { IfOk result (λ lock. is_locked lock root.now) };

    /// Whether the replica knows the archive that was in its place when that was claimed: it took part in the last run with it, or in the
    /// one before.
    fn knows(&self, lock: &Self::Lock, archive: &Self::Archive) -> bool
        ensures { knows lock.now archive.now result };

    /// The same of the archive of a name, for a command that takes no locks.
    fn knows_archive(&self, alloc: Global, root: &str, archive: &str) -> Result<bool, DiskFault>
        ensures { IfOk result (known root.now archive.now) };

    /// Whether the same run was stopped in both replicas: each has the text of a plan, and both are the same.
    fn stopped_alike(&self, alloc: Global, first: &str, second: &str) -> Result<bool, DiskFault>
        ensures { IfOk result (stopped first.now second.now) };

    /// Whether the replica on a side forgot another archive when it was told of the one in this place, since it knows so many.
    fn forgot_archive(&self, place: &Self::Archive, side: Side) -> bool;

    /// Whether a stopped run isn't brought to its end in a replica.
    fn awaits_recovery(&self, alloc: Global, root: &str) -> Result<bool, DiskFault>
        ensures { IfOk result (awaits root.now) };

    /// Whether a locked replica is still there. It isn't where its disk was unmounted since.
    fn is_in_place(&self, lock: &Self::Lock) -> bool;

    /// Notes that a replica takes part in this run.
    fn take_part(&self, lock: &Self::Lock) -> Result<(), DiskFault>;

    /// Gives a lock up, and removes its file from the replica, where that can be done.
    fn unlock(&self, lock: Self::Lock);

    /// The same after a refusal: all that came with the lock goes with it.
    fn withdraw(&self, lock: Self::Lock);

    /// Takes the place of an archive, so that no other run writes it.
    fn claim(&self, alloc: Global, name: &str) -> Result<Self::Archive, DiskFault>
        ensures named { IfOk result (λ place. is_named place name.now) };

    /// Writes an archive in its place, and waits until it has reached the device. Before, the replicas with these locks, if any are
    /// given, note that it is theirs.
    fn write_archive(
        &self,
        alloc: Global,
        place: &mut Self::Archive,
        archive: &Print,
        learners: Option<&Locks<'_, Self::Lock>>,
    ) -> Result<(), DiskFault>
        ensures written { OnOk result (has place.new archive.now) }
        ensures taught { OnOk result (taught place.new (is_some learners.entry)) }
        ensures named { (name : List ℕ) → is_named place.old name → is_named place.new name };

    /// The same while a run goes on, and keeps the place for the next one. Both replicas learn of it.
    fn write_checkpoint(
        &self,
        alloc: Global,
        place: &mut Self::Archive,
        archive: &Print,
        locks: &Locks<'_, Self::Lock>,
    ) -> Result<(), DiskFault>;

    /// Whether the place of an archive was claimed by this name.
    fn is_claim_of(&self, place: &Self::Archive, name: &str) -> bool
        ensures { IsTrue result → is_named place.now name.now };

    /// Gives the place of an archive up.
    fn release(&self, place: Self::Archive);

    /// Waits until what stands at these paths of a replica has reached the device, as far as it was changed lately.
    fn flush_paths<T: Threads + Sync>(
        &self,
        rt: &T,
        alloc: Global,
        root: &str,
        paths: &[&Path],
        workers: u32,
    ) -> Result<(), DiskFault>
        requires { IsSync T.row }
        ensures flushed { IfOk result (λ _. All (λ path. is_flushed root.now path.now) paths.now) };

    /// Waits until the directories in which these paths of a replica stand have reached the device.
    fn flush_above<T: Threads + Sync>(
        &self,
        rt: &T,
        alloc: Global,
        root: &str,
        paths: &[&Path],
        workers: u32,
    ) -> Result<(), DiskFault>
        requires { IsSync T.row }
        ensures flushed { IfOk result (λ _. All (λ path. is_flushed_above root.now path.now) paths.now) };

    /// The same by the calling thread, while others are at work.
    fn flush_alone(&self, alloc: Global, root: &str, paths: &[&Path]) -> Result<(), DiskFault>;
}

/// What commands ask of a machine: its file system, its memory, a screen and a clock for what is drawn while they work, and that
/// threads may share all of it.
pub trait Machine: Disk + Files + AllocGlobal + Threads + Screen + Clock + Clone + Drop + Sync {}

impl<R: Disk + Files + AllocGlobal + Threads + Screen + Clock + Clone + Drop + Sync> Machine
    for R {}

impl Disk for HostRuntime {
    ghost use Rattle.std.specs.Prelude.{◌≡◌, ⊤};
    ghost use Rattle.std.specs.String.{string_bytes};
    ghost use Rattle.std.specs.Arc.{arc_value};

    ghost stand = { λ site. record { root = string_bytes (arc_value site.value.way).root; source = string_bytes (arc_value site.value.way).source; path = site.value.path } };

    ghost to = { λ way. string_bytes (arc_value way).root };

    ghost from = { λ way. string_bytes (arc_value way).source };

    ghost is_staged = { λ stage first second. (string_bytes stage.first ≡ first) × (string_bytes stage.second ≡ second) };

    ghost is_at = { λ folder _ specials. folder.specials ≡ specials };

    ghost finds_special = { λ _ _. ⊤ };

    ghost is_named = { λ _ _. ⊤ };

    ghost has = { λ _ _. ⊤ };

    ghost is_locked = { λ _ _. ⊤ };

    ghost knows = { λ _ _ _. ⊤ };

    ghost known = { λ _ _ _. ⊤ };

    ghost stopped = { λ _ _ _. ⊤ };

    ghost taught = { λ _ _. ⊤ };

    ghost awaits = { λ _ _. ⊤ };

    ghost is_flushed = { λ _ _. ⊤ };

    ghost is_flushed_above = { λ _ _. ⊤ };

    ghost finds = { λ _ _. ⊤ };

    ghost says = { λ _ _ _. ⊤ };

    type File = Option<File>;

    type Folder = HoldingFolder<HostRuntime>;

    // in boxes, so that the slots of a plan's actions are small
    type Site = Box<DiskSite<HostRuntime>>;

    type Way = Arc<Way>;

    type Stage = DiskStage<HostRuntime>;

    type Lock = Lock;

    type Archive = ArchivePlace;

    type Opened = File;

    fn open(&self, name: &str) -> Result<Option<File>, OpenFault> {
        open_to_read(self, name)
    }

    fn specials(&self, alloc: Global, root: &str) -> Result<Specials, ScanFault> {
        search(alloc, self, root)
    }

    fn folder(
        &self,
        alloc: Global,
        root: &str,
        specials: Specials,
    ) -> Result<HoldingFolder<HostRuntime>, PerformFault> {
        match HoldingFolder::new(alloc, self.clone()?, root, specials) {
            Ok(folder) => Ok(folder),
            Err(_) => Err(PerformFault::OutOfMemory),
        }
    }

    fn way(
        &self,
        alloc: Global,
        lock: &Option<Lock>,
        root: &str,
        source: &str,
    ) -> Result<Arc<Way>, PerformFault> {
        match Way::new(alloc, LockedRoot { root, lock }, source) {
            Ok(way) => Ok(way),
            Err(_) => Err(PerformFault::OutOfMemory),
        }
    }

    fn site(
        &self,
        alloc: Global,
        way: &Arc<Way>,
        path: &Path,
        entry: u32,
    ) -> Result<Box<DiskSite<HostRuntime>>, PerformFault> {
        let Ok(site) = DiskSite::new(alloc, self.clone()?, way, path, entry) else {
            return Err(PerformFault::OutOfMemory);
        };
        match Box::new(alloc, site) {
            Ok(site) => Ok(site),
            Err(_) => Err(PerformFault::OutOfMemory),
        }
    }

    fn stage(
        &self,
        alloc: Global,
        checked: &Checked<'_>,
        locks: &Locks<'_, Lock>,
        first: &str,
        second: &str,
    ) -> Result<DiskStage<HostRuntime>, PerformFault> {
        let parts = parts_of(alloc, checked)?;
        let entries = checked.plan().entries.as_slice().len();
        let own = self.clone()?;
        let first = LockedRoot {
            root: first,
            lock: locks.first,
        };
        let second = LockedRoot {
            root: second,
            lock: locks.second,
        };
        match DiskStage::new(alloc, own, entries, parts.as_slice(), first, second) {
            Ok(stage) => Ok(stage),
            Err(_) => Err(PerformFault::OutOfMemory),
        }
    }

    fn stage_cause(&self, stage: &DiskStage<HostRuntime>, entry: u32) -> Cause {
        stage.cause(entry)
    }

    fn site_cause(&self, site: &Box<DiskSite<HostRuntime>>) -> Cause {
        site.cause()
    }

    fn read_cause(&self, place: &str, offset: u64) -> Cause {
        match read_or_list(self, place, offset) {
            Ok(()) => Cause::Unknown,
            Err(e) => cause_of(&e),
        }
    }

    fn lock(&self, alloc: Global, root: &str) -> Result<Option<Lock>, DiskFault> {
        take_lock(self, alloc, root)
    }

    fn knows(&self, lock: &Lock, archive: &ArchivePlace) -> bool {
        lock.knows(archive)
    }

    fn knows_archive(&self, alloc: Global, root: &str, archive: &str) -> Result<bool, DiskFault> {
        knows_archive(self, alloc, root, archive)
    }

    fn stopped_alike(&self, alloc: Global, first: &str, second: &str) -> Result<bool, DiskFault> {
        stopped_alike(self, alloc, first, second)
    }

    fn forgot_archive(&self, place: &ArchivePlace, side: Side) -> bool {
        place.forgot_pair(side)
    }

    fn awaits_recovery(&self, alloc: Global, root: &str) -> Result<bool, DiskFault> {
        awaits_recovery(self, alloc, root)
    }

    fn is_in_place(&self, lock: &Lock) -> bool {
        lock.is_in_place(self)
    }

    fn take_part(&self, lock: &Lock) -> Result<(), DiskFault> {
        lock.take_part(self)
    }

    fn unlock(&self, lock: Lock) {
        lock.release(self);
    }

    fn withdraw(&self, lock: Lock) {
        lock.withdraw(self);
    }

    fn claim(&self, alloc: Global, name: &str) -> Result<ArchivePlace, DiskFault> {
        claim_archive(self, alloc, name)
    }

    fn write_archive(
        &self,
        alloc: Global,
        place: &mut ArchivePlace,
        archive: &Print,
        learners: Option<&Locks<'_, Lock>>,
    ) -> Result<(), DiskFault> {
        let nobody = None;
        let (first, second) = match learners {
            Some(locks) => (locks.first, locks.second),
            None => (&nobody, &nobody),
        };
        place.write(self, alloc, archive, first, second)
    }

    fn write_checkpoint(
        &self,
        alloc: Global,
        place: &mut ArchivePlace,
        archive: &Print,
        locks: &Locks<'_, Lock>,
    ) -> Result<(), DiskFault> {
        place.write_checkpoint(self, alloc, archive, locks.first, locks.second)
    }

    fn is_claim_of(&self, place: &ArchivePlace, name: &str) -> bool {
        place.is_of(name)
    }

    fn release(&self, place: ArchivePlace) {
        place.release(self);
    }

    fn flush_paths<T: Threads + Sync>(
        &self,
        rt: &T,
        alloc: Global,
        root: &str,
        paths: &[&Path],
        workers: u32,
    ) -> Result<(), DiskFault> {
        flush_paths(rt, self, alloc, root, paths, workers)
    }

    fn flush_above<T: Threads + Sync>(
        &self,
        rt: &T,
        alloc: Global,
        root: &str,
        paths: &[&Path],
        workers: u32,
    ) -> Result<(), DiskFault> {
        flush_above(rt, self, alloc, root, paths, workers)
    }

    fn flush_alone(&self, alloc: Global, root: &str, paths: &[&Path]) -> Result<(), DiskFault> {
        flush_above_alone(self, alloc, root, paths)
    }
}

/// Opens a file to be read, as `Disk::open` says.
fn open_to_read<R: Files>(rt: &R, name: &str) -> Result<Option<R::File>, OpenFault> {
    if let Ok(metadata) = fs::metadata(rt, name)
        && !metadata.is_file()
    {
        return Err(OpenFault::NotFile);
    }
    match fs::open(rt, name) {
        Ok(file) => Ok(Some(file)),
        Err(e) => match e.kind() {
            ErrorKind::NotFound => Ok(None),
            ErrorKind::OutOfMemory => Err(OpenFault::OutOfMemory),
            ErrorKind::PermissionDenied => Err(OpenFault::Denied),
            _ => Err(OpenFault::Failed {
                cause: cause_of(&e),
            }),
        },
    }
}

/// Reads a file from this offset on, or lists a directory. What is neither is never opened: it might be waited for.
fn read_or_list<R: Files + AllocGlobal + Clone + Drop>(
    rt: &R,
    place: &str,
    offset: u64,
) -> io::Result<()> {
    let metadata = fs::metadata(rt, place)?;
    if metadata.is_dir() {
        list(rt, place)
    } else if metadata.is_file() {
        read_on(rt, place, offset)
    } else {
        Ok(())
    }
}

/// Looks at each name in a directory.
fn list<R: Files + AllocGlobal + Clone + Drop>(rt: &R, place: &str) -> io::Result<()> {
    for entry in fs::read_dir(rt, place)? {
        let _kind = entry?.file_type()?;
    }
    Ok(())
}

/// Reads a file from this offset on: to its end, or as much as a command waits for that only says why it failed.
fn read_on<R: Files>(rt: &R, place: &str, offset: u64) -> io::Result<()> {
    let mut buffer = [0; READ_AT_ONCE];
    let mut file = fs::open(rt, place)?;
    file.seek(SeekFrom::Start(offset))?;
    for _ in 0..MOST_READS {
        match file.read(&mut buffer) {
            Ok(0) => break,
            Ok(_) => {}
            Err(e) if e.kind() == ErrorKind::Interrupted => {}
            Err(e) => return Err(e),
        }
    }
    Ok(())
}
