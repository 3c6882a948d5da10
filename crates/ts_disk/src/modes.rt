//! Permissions of what is put in place.
ghost use Rattle.std.specs.Prelude.{◌<◌, IfOk, IfSome};

use crate::place::{Standing, kind_of, metadata_at};
use std::fs::{Files, Metadata, Permissions};
use std::os::unix::fs::{MetadataExt, PermissionsExt};
use std::{fs, io};

/// The bits of a mode that say who may read, write and run. Those that change who a program runs as are never copied.
const PERMISSIONS: u32 = 0o777;

/// Files that nobody else may read.
pub(crate) const PRIVATE_FILE: u32 = 0o600;

/// Directories that nobody else may enter.
pub(crate) const PRIVATE_DIR: u32 = 0o700;

/// The permission bits of what has this mode.
pub(crate) fn permissions(metadata: &Metadata) -> u32
    ensures { result < 512 }
{
    metadata.mode() & PERMISSIONS
}

/// The permission bits of what stands at a place, if it is of this kind.
pub(crate) fn permissions_at<R: Files>(
    files: &R,
    place: &str,
    kind: Standing,
) -> io::Result<Option<u32>>
    ensures { IfOk result (λ found. IfSome found (λ bits. bits < 512)) }
{
    Ok(match metadata_at(files, place)? {
        Some(metadata) if kind_of(metadata.file_type()) == kind => Some(permissions(&metadata)),
        _ => None,
    })
}

/// Gives a new file the permission bits of the old one, where both are files. Where the file system keeps no such bits, it does
/// without.
pub(crate) fn keep_bits<R: Files>(files: &R, old: &str, new: &str) -> io::Result<()> {
    let kept = permissions_at(files, old, Standing::File)?;
    let given = permissions_at(files, new, Standing::File)?;
    if let (Some(kept), Some(given)) = (kept, given)
        && kept != given
    {
        let _ = fs::set_permissions(files, new, Permissions::from_mode(kept));
    }
    Ok(())
}
