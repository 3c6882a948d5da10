//! What a run has to say of a replica and of paths in it, beside how its actions ended.
ghost use Rattle.std.specs.Prelude.{◌≡◌, ◌≢◌, [], IfErr, IfOk, IfSome};
ghost use Rattle.ts_name.specs.Paths.{IsAbove};

use crate::fault::DiskFault;
use crate::place::{metadata_at, own_place};
use std::alloc::Global;
use std::fs::Files;
use std::os::unix::fs::MetadataExt;
use ts_model::plan::Side;
use ts_name::Path;

/// How many directories stand above a path, at most.
const MOST_ABOVE: u32 = 64;

/// What a run has to say of a path in a replica, or of the replica itself, beside how its actions ended.
#[derive(Debug, Drop)]
pub enum Notice {
    /// What the swap of this entry left can't be removed, so it was renamed. It holds nothing that is needed, and later runs
    /// try again to remove it.
    Discarded { path: Path },
    /// What stood at this entry's path can't go back there, and may be the only copy of something. It stays at this place, by
    /// a path of the system, for good.
    Kept { path: Path, place: String },
    /// Another file system is mounted at this path. Nothing can be put in place there, since a file can't be renamed from one
    /// file system to another.
    Mounted { path: Path },
    /// The replica remembers 1,024 pairs, and has forgotten the one that was used longest ago.
    Forgot { side: Side },
}

/// The path at which another file system is mounted than that of `.twosync`, where a path of the replica lies in one: the
/// highest such path. What can't be looked at counts as being of the same one.
///
/// Its only fault is `OutOfMemory`.
pub fn mount_above<R: Files>(
    files: &R,
    alloc: Global,
    root: &str,
    path: &Path,
) -> Result<Option<Path>, DiskFault>
    ensures above { IfOk result (λ found. IfSome found (λ top. IsAbove top path.now)) }
    ensures below_root { IfOk result (λ found. IfSome found (λ top. top ≢ [])) }
    ensures fault { IfErr result (λ e. e ≡ DiskFault.OutOfMemory) }
{
    let own = own_place(alloc, root)?;
    let Some(home) = device_at(files, own.as_str()) else {
        return Ok(None);
    };
    let mut found = None;
    let mut at = copied(alloc, path)?;
    for _ in 0..MOST_ABOVE {
        if at.is_root() {
            break;
        }
        if is_elsewhere(files, alloc, root, &at, home)? {
            found = Some(copied(alloc, &at)?);
        }
        at = match at.parent(alloc) {
            Ok(Some(parent)) => parent,
            Ok(None) => break,
            Err(_) => return Err(DiskFault::OutOfMemory),
        };
    }
    Ok(found)
}

/// Whether what stands at a path of the replica lies on another device than this one, and can be looked at.
fn is_elsewhere<R: Files>(
    files: &R,
    alloc: Global,
    root: &str,
    path: &Path,
    home: u64,
) -> Result<bool, DiskFault>
    ensures fault { IfErr result (λ e. e ≡ DiskFault.OutOfMemory) }
{
    let place = path.place_below(alloc, root)?;
    Ok(device_at(files, place.as_str()).is_some_and(|device| device != home))
}

/// The device of what stands at a place, if that can be looked at.
fn device_at<R: Files>(files: &R, place: &str) -> Option<u64> {
    match metadata_at(files, place) {
        Ok(Some(metadata)) => Some(metadata.dev()),
        Ok(None) | Err(_) => None,
    }
}

/// The same path once more.
fn copied(alloc: Global, path: &Path) -> Result<Path, DiskFault>
    ensures value { IfOk result (λ copy. copy ≡ path.now) }
    ensures fault { IfErr result (λ e. e ≡ DiskFault.OutOfMemory) }
{
    match path.copy(alloc) {
        Ok(path) => Ok(path),
        Err(_) => Err(DiskFault::OutOfMemory),
    }
}
