//! Where the places of a command lead, as the system resolves them.
ghost use Rattle.std.specs.Prelude.{IfOk};
ghost use Rattle.std.specs.Path.{PathStartsWith, path_buf_bytes, path_bytes};
ghost use Rattle.twosync.specs.Resolvings.{IsMoved};

use crate::Fault;
use crate::nesting::Places;
use std::fs::{self, Files};
use std::io::{self, ErrorKind};
use std::path::{Path, PathBuf};
use ts_command::Pair;

/// How many links from one to the next are followed to a place.
const LINKS: u32 = 40;

/// Where the places of a pair lead.
pub(crate) fn resolve<R: Files + AllocGlobal>(files: &R, pair: &Pair<'_>) -> Result<Places, Fault> {
    Ok(Places {
        first: resolved(files, pair.first)?,
        second: resolved(files, pair.second)?,
        archive: resolved(files, pair.archive)?,
    })
}

/// The whole path without links of what a name leads to; nothing needs to be there yet.
fn resolved<R: Files + AllocGlobal>(files: &R, name: &str) -> Result<Option<PathBuf>, Fault> {
    match followed(files, name)? {
        Some(place) => landed(files, place.as_path()),
        None => Ok(None),
    }
}

/// Where a name leads when the links at its end are followed; nothing needs to be there. None where that has no end.
fn followed<R: Files + AllocGlobal>(files: &R, name: &str) -> Result<Option<PathBuf>, Fault> {
    let mut place = PathBuf::from_str(files.alloc(), name)?;
    for _ in 0..LINKS {
        match fs::read_link(files, &place) {
            Ok(target) => {
                place.pop();
                place.push(target)?;
            }
            Err(e) if e.kind() == ErrorKind::OutOfMemory => return Err(Fault::OutOfMemory),
            Err(_) => return Ok(Some(place)),
        }
    }
    Ok(None)
}

/// The whole path without links of a place: that of the longest beginning at which something is, and the rest as it stands.
fn landed<R: Files + AllocGlobal>(files: &R, place: Path<'_>) -> Result<Option<PathBuf>, Fault> {
    for beginning in place.ancestors() {
        match real(files, beginning) {
            Ok(found) => return Ok(Some(moved(found, place, beginning)?)),
            Err(e) if e.kind() == ErrorKind::NotFound => {}
            Err(e) if e.kind() == ErrorKind::OutOfMemory => return Err(Fault::OutOfMemory),
            Err(_) => return Ok(None),
        }
    }
    Ok(None)
}

/// The whole path without links of what is at a place. No text stands for the directory at hand.
fn real<R: Files + AllocGlobal>(files: &R, place: Path<'_>) -> io::Result<PathBuf> {
    if place.as_str().is_empty() {
        fs::canonicalize(files, ".")
    } else {
        fs::canonicalize(files, place)
    }
}

/// What was found at the beginning of a place, and behind that the rest of the place.
fn moved(found: PathBuf, place: Path<'_>, beginning: Path<'_>) -> Result<PathBuf, Fault>
    requires { PathStartsWith (path_bytes place) (path_bytes beginning) }
    ensures { IfOk result (λ whole. IsMoved (path_buf_bytes found) (path_bytes place.entry) (path_bytes beginning.entry) (path_buf_bytes whole)) }
{
    let mut found = found;
    if let Ok(rest) = place.strip_prefix(beginning) {
        found.push(rest)?;
    }
    Ok(found)
}
