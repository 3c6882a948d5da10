//! Whether trees on a disk are what they were, or what was written.
ghost use Rattle.std.specs.Prelude.{◌≡◌, ◌++◌, IfOk, List, ℕ};
ghost use Rattle.std.specs.String.{string_bytes};
ghost use Rattle.ts_name.specs.Paths.{place_text};

use crate::compare::PIECE;
use crate::look::Look;
use crate::place::{Standing, kind_at, metadata_at};
use sha2::{Digest, Sha256};
use std::fs::Files;
use std::io::{ErrorKind, Read};
use std::{fs, io};
use ts_folder::Names;
use ts_model::row::{Content, Row, Stamp};
use ts_name::Path;
use ts_print::SubPrint;

/// Whether what was moved aside is still the part that was compared: the same files, with the sizes and times that were seen,
/// and nothing else. The bytes of a file are read again unless the system says that nothing of it was changed since: those of one that
/// was itself moved always are, and from then on its look is the one from before they were read.
pub(crate) fn is_untouched<R: Files + AllocGlobal>(
    files: &R,
    before: &SubPrint<'_>,
    looks: &mut [Option<Look>],
    aside: &str,
) -> io::Result<bool> {
    let rows = before.rows();
    let mut found: u64 = 1;
    for (row, look) in rows.iter().zip(looks) {
        let place = place_aside(files, &row.path, before.top(), aside)?;
        if !is_row_untouched(files, row, look, place.as_str(), &mut found)? {
            return Ok(false);
        }
    }
    Ok(found == rows.len() as u64)
}

/// Whether what a row says is at a place, as it was looked at. Of a directory the children are counted.
fn is_row_untouched<R: Files + AllocGlobal>(
    files: &R,
    row: &Row<Stamp>,
    look: &mut Option<Look>,
    place: &str,
    found: &mut u64,
) -> io::Result<bool> {
    match (&row.content, look) {
        (Content::Dir, None) => add_children(files, place, found),
        (Content::File(stamp), Some(look)) => is_file_untouched(files, place, stamp, look),
        _ => Ok(false),
    }
}

/// Whether the directories and files of these stamps lie at a place, and nothing else. Of each file the size is looked at, and
/// then its bytes are read.
pub(crate) fn is_same_tree<R: Files + AllocGlobal>(
    files: &R,
    tree: &[Row<Stamp>],
    top: &str,
) -> io::Result<bool> {
    let mut found: u64 = 1;
    for row in tree {
        let Ok(place) = row.path.place_below(files.alloc(), top) else {
            return Err(io::Error::from(ErrorKind::OutOfMemory));
        };
        if !is_row_there(files, row, place.as_str(), &mut found)? {
            return Ok(false);
        }
    }
    Ok(found == tree.len() as u64)
}

/// Whether what a row says is at a place. Of a directory the children are counted.
fn is_row_there<R: Files + AllocGlobal>(
    files: &R,
    row: &Row<Stamp>,
    place: &str,
    found: &mut u64,
) -> io::Result<bool> {
    match &row.content {
        Content::Absent => Ok(false),
        Content::Dir => add_children(files, place, found),
        Content::File(stamp) => has_stamp(files, place, stamp),
    }
}

/// Where a path that stood below a top lies now that the top was moved aside.
fn place_aside<R: AllocGlobal>(
    files: &R,
    path: &Path,
    top: &Path,
    aside: &str,
) -> io::Result<String>
    ensures { IfOk result (λ place. (rest : List (List ℕ)) × (path.now ≡ top.now ++ rest) × (string_bytes place ≡ aside.now ++ place_text rest)) }
{
    let alloc = files.alloc();
    if let Ok(Some(rest)) = path.below(alloc, top)
        && let Ok(place) = rest.place_below(alloc, aside)
    {
        return Ok(place);
    }
    Err(io::Error::from(ErrorKind::OutOfMemory))
}

/// Adds how many children a directory has. False where no directory is, or one of its names is no text.
fn add_children<R: Files + AllocGlobal>(
    files: &R,
    place: &str,
    found: &mut u64,
) -> io::Result<bool> {
    if kind_at(files, place)? != Standing::Dir {
        return Ok(false);
    }
    let mut names = Names::open(files.alloc(), files, place)?;
    for _ in 0..u64::MAX {
        match names.next_name()? {
            Some(name) if str::from_utf8(name).is_ok() => *found = found.saturating_add(1),
            Some(_) => return Ok(false),
            None => break,
        }
    }
    Ok(true)
}

/// Whether a file is the one that was looked at, unchanged.
fn is_file_untouched<R: Files + AllocGlobal>(
    files: &R,
    place: &str,
    stamp: &Stamp,
    look: &mut Look,
) -> io::Result<bool> {
    let metadata = match metadata_at(files, place)? {
        Some(metadata) if metadata.is_file() && look.is_same(&metadata) => metadata,
        _ => return Ok(false),
    };
    if look.is_settled(&metadata) {
        return Ok(true);
    }
    let is_same = digest_at(files, place)? == stamp.digest;
    look.renew(&metadata);
    Ok(is_same)
}

/// The SHA-256 of a file.
fn digest_at<R: Files + AllocGlobal>(files: &R, place: &str) -> io::Result<[u8; 32]> {
    let mut file = fs::open(files, place)?;
    let mut buffer = new_buffer(files)?;
    let mut hasher = Sha256::new();
    for _ in 0..u64::MAX {
        match file.read(buffer.as_mut_slice()) {
            Ok(0) => break,
            Ok(count) => hasher.update(&buffer[..count]),
            Err(e) if e.kind() == ErrorKind::Interrupted => {}
            Err(e) => return Err(e),
        }
    }
    Ok(hasher.finalize())
}

/// Whether a file with this stamp is at a place.
fn has_stamp<R: Files + AllocGlobal>(files: &R, place: &str, stamp: &Stamp) -> io::Result<bool> {
    match metadata_at(files, place)? {
        Some(metadata) if metadata.is_file() && metadata.len() == stamp.size => {
            Ok(digest_at(files, place)? == stamp.digest)
        }
        _ => Ok(false),
    }
}

pub(crate) fn new_buffer<R: AllocGlobal>(files: &R) -> io::Result<Vec<u8>> {
    match vec![in files.alloc(); 0u8; PIECE] {
        Ok(buffer) => Ok(buffer),
        Err(_) => Err(io::Error::from(ErrorKind::OutOfMemory)),
    }
}
