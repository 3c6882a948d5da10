//! A site on a disk.
ghost use Rattle.std.specs.Fmt.{decimal};
ghost use Rattle.std.specs.Arc.{arc_value};
ghost use Rattle.std.specs.Prelude.{◌≡◌, ◌≢◌, ◌++◌, ◌<◌, IfErr, IfOk, IfSome, IsErrOf, IsTrue, None, codes};
ghost use Rattle.std.specs.String.{string_bytes};
ghost use Rattle.ts_disk.specs.Homes.{home_of};
ghost use Rattle.ts_model.specs.Swap.{IsThere};
ghost use Rattle.ts_site.specs.Sites.{IsPutFor};
ghost use Rattle.ts_swap.specs.Leavings.{spot_of};
ghost use Rattle.ts_name.specs.Paths.{place_text};

use crate::fault::DiskFault;
use crate::leftover::remove_at;
use crate::lock::LockedRoot;
use crate::place::Home;
use crate::places::DiskPlaces;
use crate::replacement::Replacement;
use std::alloc::Global;
use std::fs::Files;
use std::snapshot::Snapshot;
use std::sync::Arc;
use ts_cause::Cause;
use ts_folder::DiskFolder;
use ts_name::Path;
use ts_print::SubPrint;
use ts_site::{Site, SiteFault};
use ts_stage::Staged;
use ts_swap::{Places, Spot};

/// The place of one entry's commit in a replica on a disk, by the leave to use files that it keeps. It tells nothing of what
/// is there.
///
/// What pieces have stored in the replica's `.twosync` is completed there and moved to its place from there; what is staged in memory
/// is written first. After a fault nothing of it is left, where it can be removed.
///
/// A file that replaces a file keeps that one's permission bits; all else gets those that it has in the other replica, which is
/// its source.
///
/// A commit that the device fails at tries to leave what was there: it brings its swap to an end once more. That this
/// succeeded, and that the disk returns what was written to it, is for its user to know. Where the device has failed
/// 2^32 - 1 times, each commit answers out of memory.
pub struct DiskSite<R> {
    files: R,
    way: Arc<Way>,
    path: Path,
    entry: u32,
    failures: u32,
    // why the commit failed last, as far as the system says
    cause: Cause,
}

/// From which replica to which one a commit copies, by their roots. All sites of a run whose commits go the same way share it.
#[derive(Drop)]
pub struct Way {
    root: String,
    source: String,
    // the program's own directory in the replica, as it was locked
    home: Option<Home>,
}

impl Way {
    /// The way to a replica from the one with the root `source`. No commit is made where another directory stands later than the
    /// program's own one that was locked, or none.
    pub fn new(alloc: Global, target: LockedRoot<'_>, source: &str) -> Result<Arc<Way>, DiskFault>
        ensures root { IfOk result (λ way. string_bytes (arc_value way).root ≡ target.entry.root.now) }
        ensures source { IfOk result (λ way. string_bytes (arc_value way).source ≡ source.now) }
        ensures home { IfOk result (λ way. (arc_value way).home ≡ home_of target.entry.lock.now) }
        ensures fault { IfErr result (λ e. e ≡ DiskFault.OutOfMemory) }
    {
        let home = target.home();
        let root = String::from_str(alloc, target.root)?;
        let source = String::from_str(alloc, source)?;
        Ok(Arc::new(alloc, Way { root, source, home })?)
    }
}

/// Written out, so that a proof of what drops one stays short.
impl<R: Drop> Drop for DiskSite<R> {
    fn drop(self) {
        let DiskSite {
            files,
            way,
            path,
            entry: _,
            failures: _,
            cause: _,
        } = self;
        drop(files);
        drop(way);
        drop(path);
    }
}

impl<R: Drop> DiskSite<R> {
    /// The place for the entry of this number and path, which is copied this way. Nothing is looked at yet.
    pub fn new(
        alloc: Global,
        files: R,
        way: &Arc<Way>,
        path: &Path,
        entry: u32,
    ) -> Result<DiskSite<R>, DiskFault>
        ensures way { IfOk result (λ site. arc_value site.way ≡ arc_value way.now) }
        ensures entry { IfOk result (λ site. (site.path ≡ path.now) × (site.entry ≡ entry)) }
        ensures failures { IfOk result (λ site. (site.failures ≡ 0) × (site.cause ≡ Cause.Unknown)) }
        ensures fault { IfErr result (λ e. e ≡ DiskFault.OutOfMemory) }
    {
        let Ok(path) = path.copy(alloc) else {
            return Err(DiskFault::OutOfMemory);
        };
        Ok(DiskSite {
            files,
            way: way.clone()?,
            path,
            entry,
            failures: 0,
            cause: Cause::Unknown,
        })
    }

    /// Why the commit failed last, as far as the system says.
    pub fn cause(&self) -> Cause
        ensures { result ≡ self.now.cause }
    {
        self.cause
    }
}

impl DiskSite<HostRuntime> {
    /// Replaces what is there, which is first looked at, and keeps why that failed. It is not looked at whether the staged files
    /// fit their stamps.
    fn swap(
        &mut self,
        alloc: Global,
        before: &SubPrint<'_>,
        staged: &Staged,
    ) -> Result<(), SiteFault>
        ensures misfit { IfErr result (λ e. e ≢ SiteFault.Misfit) }
        ensures failures { self.new.failures ≡ self.old.failures }
    {
        let places = self.places(alloc)?;
        if is_taken(&places, Spot::New) || is_taken(&places, Spot::Old) {
            return Err(SiteFault::Device);
        }
        let folder = self.folder(alloc)?;
        let Ok(source) = self.path.place_below(alloc, self.way.source.as_str()) else {
            return Err(SiteFault::OutOfMemory);
        };
        let home = self.way.home;
        let source = source.as_str();
        let mut swap = Replacement::new(alloc, places, home, &folder, before, staged, source);
        let replaced = swap.replace();
        // before what is left is settled, which may fail for another reason
        self.cause = swap.cause();
        swap.settle(replaced)
    }

    /// Puts what was staged in place, as it is read back where pieces have stored it.
    fn put(
        &mut self,
        alloc: Global,
        before: &SubPrint<'_>,
        staged: Staged,
    ) -> Result<Snapshot<Staged>, SiteFault>
        ensures put { IfOk result (λ put. IsPutFor None staged put.value) }
        ensures device { IsErrOf result SiteFault.Device → self.old.failures < self.new.failures }
    {
        let Some(staged) = staged.into_read_back() else {
            return Err(SiteFault::Misfit);
        };
        // a failure more couldn't be counted
        let Some(next) = self.failures.checked_add(1) else {
            return Err(SiteFault::OutOfMemory);
        };
        match self.swap(alloc, before, &staged) {
            Ok(()) => Ok(Snapshot::of(&staged)),
            Err(SiteFault::Device) => {
                self.failures = next;
                Err(SiteFault::Device)
            }
            Err(fault) => Err(fault),
        }
    }

    /// Removes what pieces have stored for a commit that was refused. What can't be removed isn't reported: the end of the run
    /// tries again, and so does recovery.
    fn remove_stage(&self, alloc: Global) {
        if let Ok(places) = self.places(alloc)
            && let Ok(stage) = places.stage()
        {
            let _ = remove_at(&self.files, stage.as_str());
        }
    }

    fn places(&self, alloc: Global) -> Result<DiskPlaces<HostRuntime>, SiteFault>
        ensures target { IfOk result (λ places. string_bytes places.at_target ≡ string_bytes (arc_value self.now.way).root ++ place_text self.now.path) }
        ensures new { IfOk result (λ places. string_bytes places.at_new ≡ string_bytes (arc_value self.now.way).root ++ codes "/.twosync/new-" ++ decimal self.now.entry) }
        ensures old { IfOk result (λ places. string_bytes places.at_old ≡ string_bytes (arc_value self.now.way).root ++ codes "/.twosync/old-" ++ decimal self.now.entry) }
        ensures misfit { IfErr result (λ e. e ≢ SiteFault.Misfit) }
    {
        let Ok(files) = self.files.clone() else {
            return Err(SiteFault::OutOfMemory);
        };
        match DiskPlaces::new(alloc, files, self.way.root.as_str(), &self.path, self.entry) {
            Ok(places) => Ok(places),
            Err(_) => Err(SiteFault::OutOfMemory),
        }
    }

    fn folder(&self, alloc: Global) -> Result<DiskFolder<HostRuntime>, SiteFault>
        ensures { IfErr result (λ e. e ≢ SiteFault.Misfit) }
    {
        let Ok(files) = self.files.clone() else {
            return Err(SiteFault::OutOfMemory);
        };
        match DiskFolder::new(alloc, files, self.way.root.as_str()) {
            Ok(folder) => Ok(folder),
            Err(_) => Err(SiteFault::OutOfMemory),
        }
    }
}

/// Whether something may lie at a spot.
fn is_taken<P: Places>(places: &P, spot: Spot) -> bool
    ensures { IfSome (P.spots places.now) (λ spots. IsThere spots (spot_of spot) → IsTrue result) }
{
    places.present(spot).unwrap_or(true)
}

impl Site for DiskSite<HostRuntime> {
    ghost content = { λ _. None };

    ghost failures = { λ s. s.failures };

    fn commit(
        &mut self,
        alloc: Global,
        before: &SubPrint<'_>,
        staged: Staged,
    ) -> Result<Snapshot<Staged>, SiteFault> {
        let is_stored = !staged.is_held();
        let put = self.put(alloc, before, staged);
        if is_stored && put.is_err() {
            self.remove_stage(alloc);
        }
        put
    }
}
