//! What an archive says of both replicas reaches their devices before it says so.
ghost use Rattle.std.specs.Prelude.{◌≡◌, ◌⊎◌, ◌++◌, ◌∷◌, [], All, Any, IfErr, IfNone, IfOk, IfSome, IsTrue, OnOk};
ghost use Rattle.std.specs.String.{string_bytes};
ghost use Rattle.ts_cause.specs.declared.cause.Cause.{Cause};
ghost use Rattle.ts_disk.specs.Flushing.{IsAboveAt};

use crate::fault::DiskFault;
use crate::place::{flush_at, metadata_at};
use std::alloc::{AllocError, Global};
use std::fs::{Files, Metadata};
use std::io::ErrorKind;
use std::os::unix::fs::MetadataExt;
use std::thread::Threads;
use std::time::Clock;
use std::{io, thread};
use ts_cause::{Cause, cause_of};
use ts_name::Path;

/// For how many seconds what was changed may not have reached its device yet. The system writes it back within a minute or so; this
/// is a day, for clocks that are set and machines that sleep.
const UNFLUSHED: i64 = 86_400;

/// The time, in seconds since 1970, since which what was changed may not have reached its device: all times where no clock can be
/// read.
pub(crate) fn unflushed_since<R: Clock>(clock: &R) -> i64 {
    match clock.since_1970() {
        Ok(now) => i64::try_from(now.as_secs())
            .unwrap_or(i64::MAX)
            .saturating_sub(UNFLUSHED),
        Err(_) => i64::MIN,
    }
}

/// Waits until the file or directory at a place has reached the device, if it was changed since this time. What isn't there any more
/// has nothing to wait for.
pub(crate) fn flush_if_changed<R: Files>(files: &R, place: &str, since: i64) -> io::Result<()> {
    match metadata_at(files, place)? {
        Some(metadata) => flush_seen(files, place, &metadata, since),
        None => Ok(()),
    }
}

/// The same, where the system says this of it.
pub(crate) fn flush_seen<R: Files>(
    files: &R,
    place: &str,
    metadata: &Metadata,
    since: i64,
) -> io::Result<()> {
    if metadata.ctime() < since || !(metadata.is_file() || metadata.is_dir()) {
        return Ok(());
    }
    match flush_at(files, place) {
        Err(e) if is_nothing_to_flush(&e) => Ok(()),
        flushed => flushed,
    }
}

/// Whether a flush failed since there is nothing to flush: what was there went meanwhile, or its file system knows no flush, as one
/// that nothing is ever written to.
fn is_nothing_to_flush(e: &io::Error) -> bool {
    match e.kind() {
        ErrorKind::NotFound
        | ErrorKind::NotADirectory
        | ErrorKind::InvalidInput
        | ErrorKind::ReadOnlyFilesystem
        | ErrorKind::Unsupported => true,
        _ => false,
    }
}

/// Waits until what stands at these paths of a replica has reached the device, as far as it was changed within the last day, by up to
/// so many threads. What isn't there any more has nothing to wait for.
///
/// `Failed` where something there can't be flushed.
pub fn flush_paths<R: Threads + Sync>(
    rt: &R,
    files: &HostRuntime,
    alloc: Global,
    root: &str,
    paths: &[&Path],
    workers: u32,
) -> Result<(), DiskFault>
    ensures fault { IfErr result (λ e. (e ≡ DiskFault.OutOfMemory) ⊎ ((cause : Cause) × (e ≡ DiskFault.Failed cause))) }
{
    if paths.is_empty() {
        return Ok(());
    }
    let since = unflushed_since(files);
    let workers = workers as usize;
    let flushed = thread::map_indices(
        rt,
        alloc,
        workers,
        &|worker: usize| { flush_some(files, alloc, root, paths, since, worker, workers) },
    )?;
    first_failure(flushed.as_slice())
}

/// Flushes what stands at each of so many paths, from this one on. Answers why that failed, if it did.
fn flush_some<R: Files>(
    files: &R,
    alloc: Global,
    root: &str,
    paths: &[&Path],
    since: i64,
    start: usize,
    step: usize,
) -> Option<Cause> {
    for path in paths.iter().skip(start).step_by(step.max(1)) {
        let Ok(place) = path.place_below(alloc, root) else {
            return Some(Cause::OutOfMemory);
        };
        if let Err(e) = flush_if_changed(files, place.as_str(), since) {
            return Some(cause_of(&e));
        }
    }
    None
}

/// The fault by the first thread that failed, if one did.
fn first_failure(flushed: &[Option<Cause>]) -> Result<(), DiskFault>
    ensures fault { IfErr result (λ e. (e ≡ DiskFault.OutOfMemory) ⊎ ((cause : Cause) × (e ≡ DiskFault.Failed cause))) }
{
    for failed in flushed {
        match *failed {
            None => {}
            Some(Cause::OutOfMemory) => return Err(DiskFault::OutOfMemory),
            Some(cause) => return Err(DiskFault::Failed { cause }),
        }
    }
    Ok(())
}

/// Waits until the directories in which these paths of a replica stand have reached the device, by up to so many threads. One
/// that isn't there any more has nothing to wait for.
///
/// `Failed` where a directory can't be flushed.
pub fn flush_above<R: Threads + Sync>(
    rt: &R,
    files: &HostRuntime,
    alloc: Global,
    root: &str,
    paths: &[&Path],
    workers: u32,
) -> Result<(), DiskFault>
    ensures fault { IfErr result (λ e. (e ≡ DiskFault.OutOfMemory) ⊎ ((cause : Cause) × (e ≡ DiskFault.Failed cause))) }
{
    let places = places_above(alloc, root, paths)?;
    let places = places.as_slice();
    if places.is_empty() {
        return Ok(());
    }
    let workers = workers as usize;
    let flushed = thread::map_indices(
        rt,
        alloc,
        workers,
        &|worker: usize| { flush_each(files, places, worker, workers) },
    )?;
    first_failure(flushed.as_slice())
}

/// Does what `flush_above` does by the calling thread.
pub fn flush_above_alone<R: Files>(
    files: &R,
    alloc: Global,
    root: &str,
    paths: &[&Path],
) -> Result<(), DiskFault>
    ensures fault { IfErr result (λ e. (e ≡ DiskFault.OutOfMemory) ⊎ ((cause : Cause) × (e ≡ DiskFault.Failed cause))) }
{
    let places = places_above(alloc, root, paths)?;
    match flush_each(files, places.as_slice(), 0, 1) {
        None => Ok(()),
        Some(cause) => Err(DiskFault::Failed { cause }),
    }
}

/// The places of the directories in which these paths stand, each once.
fn places_above(alloc: Global, root: &str, paths: &[&Path]) -> Result<Vec<String>, DiskFault>
    ensures all { IfOk result (λ places. All (λ path. (path.now ≡ []) ⊎ Any (λ dir. IsAboveAt root.now path.now (string_bytes dir)) places.items) paths.now) }
    ensures only { IfOk result (λ places. All (λ dir. Any (λ path. IsAboveAt root.now path.now (string_bytes dir)) paths.now) places.items) }
    ensures fault { IfErr result (λ e. e ≡ DiskFault.OutOfMemory) }
{
    let mut places = Vec::new(alloc);
    for path in paths {
        if let Some(place) = place_above(alloc, root, path)? {
            add_place(&mut places, place)?;
        }
    }
    places.sort_unstable();
    places.dedup();
    Ok(places)
}

/// Adds a place, unless it was added last: paths that stand in one directory mostly follow each other.
fn add_place(places: &mut Vec<String>, place: String) -> Result<(), AllocError>
    ensures there { OnOk result (Any (λ other. string_bytes other ≡ string_bytes place) places.new.items) }
    ensures kept { OnOk result ((places.new.items ≡ places.old.items) ⊎ (places.new.items ≡ places.old.items ++ place ∷ [])) }
{
    if ends_with(places.as_slice(), place.as_str()) {
        return Ok(());
    }
    places.push(place)?;
    Ok(())
}

/// Whether a place is the last of these.
fn ends_with(places: &[String], place: &str) -> bool
    ensures { IsTrue result → Any (λ other. string_bytes other ≡ place.now) places.now }
{
    match places {
        [.., last] => last.as_str() == place,
        [] => false,
    }
}

/// The place of the directory in which a path stands. The root stands in none.
fn place_above(alloc: Global, root: &str, path: &Path) -> Result<Option<String>, DiskFault>
    ensures some { IfOk result (λ found. IfSome found (λ place. IsAboveAt root.now path.now (string_bytes place))) }
    ensures none { IfOk result (λ found. IfNone found (path.now ≡ [])) }
    ensures fault { IfErr result (λ e. e ≡ DiskFault.OutOfMemory) }
{
    match path.parent(alloc) {
        Ok(Some(parent)) => Ok(Some(parent.place_below(alloc, root)?)),
        Ok(None) => Ok(None),
        Err(_) => Err(DiskFault::OutOfMemory),
    }
}

/// Flushes each of so many places, from this one on. Answers why the last of them failed that did.
fn flush_each<R: Files>(files: &R, places: &[String], start: usize, step: usize) -> Option<Cause> {
    let mut failed = None;
    for place in places.iter().skip(start).step_by(step.max(1)) {
        match flush_at(files, place.as_str()) {
            Ok(()) => {}
            Err(e) if is_nothing_to_flush(&e) => {}
            Err(e) => failed = Some(cause_of(&e)),
        }
    }
    failed
}
