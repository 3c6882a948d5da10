//! New trees, written beside a replica until they are put in place.
ghost use Rattle.std.specs.Prelude.{◌≡◌, ◌<◌, ◌++◌, ◌↔◌, [], IfOk, IfSome, IsNone, IsTrue, None};
ghost use Rattle.std.specs.String.{string_bytes};
ghost use Rattle.ts_disk.specs.Modes.{IsStored, IsStoredBelowTop, private_bits};
ghost use Rattle.ts_name.specs.Paths.{place_text};

use crate::flushing::flush_if_changed;
use crate::modes::{PRIVATE_DIR, PRIVATE_FILE, permissions_at};
use crate::place::{Standing, create_file, make_missing_dir, make_private_dir, metadata_at};
use std::fs::{Files, OpenFile, Permissions};
use std::io::{ErrorKind, Read, Write};
use std::os::unix::fs::PermissionsExt;
use std::{fs, io};
use ts_folder::Names;
use ts_model::items::Items;
use ts_model::row::{Content, Row};
use ts_stage::StagedFile;

/// How many files and directories below a directory make it worth a listing.
const MANY_BELOW: usize = 16;

/// What a hash by FNV-1a begins with.
const FNV_OFFSET: u64 = 0xcbf2_9ce4_8422_2325;

/// What it is multiplied by for each byte.
const FNV_PRIME: u64 = 0x0000_0100_0000_01b3;

/// What a hash is multiplied by in the end, so that high bits depend on low ones: 2^64 over the golden ratio, made odd.
const MIXING: u64 = 0x9e37_79b9_7f4a_7c15;

/// The bit by which an owner may write to a directory, as it takes to move one.
const OWNER_WRITES: u32 = 0o200;

/// Where the permission bits of a new tree come from: a file that replaces a file has that one's, all else has those of what
/// it is copied from. Without either nobody but the owner may do anything.
#[derive(Clone, Copy, Drop)]
pub(crate) struct Bits<'a> {
    /// The permission bits of the file that is replaced by a file.
    pub kept: Option<u32>,
    /// Where the tree is copied from.
    pub source: Option<&'a str>,
    /// Since when what was changed there may not have reached its device yet, in seconds since 1970.
    pub since: i64,
}

impl Bits<'_> {
    /// Those of nothing: for the owner alone.
    pub(crate) fn private() -> Bits<'static>
        ensures kept { result.kept ≡ None }
        ensures source { result.source ≡ None }
    {
        Bits {
            kept: None,
            source: None,
            since: i64::MIN,
        }
    }

    /// The permission bits that a row's file or directory is to have.
    fn of<R: Files + AllocGlobal, T>(
        &self,
        files: &R,
        row: &Row<T>,
        kind: Standing,
    ) -> io::Result<u32>
        ensures kept { kind ≡ Standing.File → row.now.path ≡ [] → IfSome self.now.kept (λ kept. IfOk result (λ mode. mode ≡ kept)) }
        ensures plain { IfSome self.now.kept (λ kept. kept < 512) → IfOk result (λ mode. mode < 512) }
        ensures private { IsNone self.now.kept → IsNone self.now.source → IfOk result (λ mode. mode ≡ private_bits kind) }
    {
        let private = if kind == Standing::Dir {
            PRIVATE_DIR
        } else {
            PRIVATE_FILE
        };
        if kind == Standing::File
            && row.path.is_root()
            && let Some(kept) = self.kept
        {
            return Ok(kept);
        }
        let Some(source) = self.source else {
            return Ok(private);
        };
        let place = below(files, row, source)?;
        Ok(permissions_at(files, place.as_str(), kind)?.unwrap_or(private))
    }
}

/// Writes a tree where nothing is, for the owner alone, waits until all has reached the device, and then gives each file and
/// directory its permission bits, from the last to the first: a directory is closed only when all below it is done. A directory
/// at the top that its owner must not write to gets its bits by `close_top`, once it stands in its place.
pub(crate) fn write_tree<R: Files + AllocGlobal>(
    files: &R,
    tree: &[Row<Items<u8>>],
    top: &str,
    bits: &Bits<'_>,
) -> io::Result<()> {
    for row in tree {
        write_row(files, row, top)?;
    }
    for row in tree.iter().rev() {
        close_row(files, row, top, bits)?;
    }
    Ok(())
}

/// Writes what a row says, for the owner alone.
fn write_row<R: Files + AllocGlobal>(files: &R, row: &Row<Items<u8>>, top: &str) -> io::Result<()> {
    let place = below(files, row, top)?;
    match &row.content {
        Content::Absent => Ok(()),
        Content::Dir => make_private_dir(files, place.as_str()),
        Content::File(bytes) => write_file(files, place.as_str(), bytes.as_slice()),
    }
}

/// Does the same by what was staged, of which some files may be stored there already. All else that is missing is made.
pub(crate) fn complete_tree<R: Files + AllocGlobal>(
    files: &R,
    staged: &[Row<StagedFile>],
    top: &str,
    bits: &Bits<'_>,
) -> io::Result<()> {
    for row in staged {
        complete_row(files, row, top)?;
    }
    look_for_stored(files, staged, top)?;
    for row in staged.iter().rev() {
        if !has_bits(row) {
            close_row(files, row, top, bits)?;
        }
        if !is_stored(row) {
            flush_source(files, row, bits)?;
        }
    }
    Ok(())
}

/// Waits until what a row is copied from has reached its device, if it was changed lately: the archive will say that it is there.
fn flush_source<R: Files + AllocGlobal, T>(
    files: &R,
    row: &Row<T>,
    bits: &Bits<'_>,
) -> io::Result<()> {
    match bits.source {
        Some(source) => flush_if_changed(files, below(files, row, source)?.as_str(), bits.since),
        None => Ok(()),
    }
}

/// Makes what a row says, for the owner alone, unless it is stored already.
fn complete_row<R: Files + AllocGlobal>(
    files: &R,
    row: &Row<StagedFile>,
    top: &str,
) -> io::Result<()> {
    match &row.content {
        Content::Absent => Ok(()),
        Content::Dir => make_missing_dir(files, below(files, row, top)?.as_str()),
        Content::File(file) => match file.bytes() {
            Some(bytes) => write_file(files, below(files, row, top)?.as_str(), bytes),
            None => Ok(()),
        },
    }
}

/// Whether a row has a file that was given its permission bits as it was stored: any stored one below the top.
fn has_bits(row: &Row<StagedFile>) -> bool
    ensures { IsTrue result ↔ IsStoredBelowTop row.now }
{
    is_stored(row) && !row.path.is_root()
}

/// Whether a row has a file that pieces have stored. What that is copied from was flushed by the last of them.
fn is_stored(row: &Row<StagedFile>) -> bool
    ensures { IsTrue result ↔ IsStored row.now }
{
    match &row.content {
        Content::File(file) => file.bytes().is_none(),
        Content::Absent | Content::Dir => false,
    }
}

/// Fails where a file that its pieces stored isn't there any more, as where somebody has cleaned out the program's own directory
/// since. What is there has reached the device.
fn look_for_stored<R: Files + AllocGlobal>(
    files: &R,
    staged: &[Row<StagedFile>],
    top: &str,
) -> io::Result<()> {
    if has_all_names(files, staged, top)? {
        return Ok(());
    }
    for row in staged {
        if let Content::File(file) = &row.content
            && !is_there(files, row, file, top)?
        {
            return Err(io::Error::from(ErrorKind::NotFound));
        }
    }
    Ok(())
}

/// Whether each file that is stored is there, and a directory that has many files has just the names of its rows: it is listed,
/// which takes less than a look at each.
fn has_all_names<R: Files + AllocGlobal>(
    files: &R,
    staged: &[Row<StagedFile>],
    top: &str,
) -> io::Result<bool> {
    // of each directory above a row, where it is listed, what the hashes of its names add up to, less those of its rows so far
    let mut above = Vec::new(files.alloc());
    for (index, row) in staged.iter().enumerate() {
        let behind = staged.get(index.saturating_add(MANY_BELOW));
        if !has_row(files, row, behind, top, &mut above)? {
            return Ok(false);
        }
    }
    Ok(are_used_up(&above))
}

/// Takes up the next row, of which the one that comes so far behind it is given, too. False where its file isn't there, or a
/// directory before it had other names.
fn has_row<R: Files + AllocGlobal>(
    files: &R,
    row: &Row<StagedFile>,
    behind: Option<&Row<StagedFile>>,
    top: &str,
    above: &mut Vec<Option<u64>>,
) -> io::Result<bool> {
    let depth = row.path.depth().min(above.len());
    if !are_used_up(&above[depth..]) {
        return Ok(false);
    }
    above.truncate(depth);
    let is_listed = take_name(above.last_mut(), row);
    match &row.content {
        Content::Absent => Ok(true),
        Content::Dir => {
            above.push(sum_where_many(files, row, behind, top)?)?;
            Ok(true)
        }
        Content::File(file) => Ok(is_listed || is_there(files, row, file, top)?),
    }
}

/// Whether nothing is left of the names of these directories, where they are listed.
fn are_used_up(sums: &[Option<u64>]) -> bool {
    sums.iter().all(|sum| sum.unwrap_or(0) == 0)
}

/// Takes a row's name from those that are left of its directory, and answers whether that is listed.
fn take_name(left: Option<&mut Option<u64>>, row: &Row<StagedFile>) -> bool {
    match (left, row.path.last()) {
        (Some(Some(sum)), Some(name)) => {
            *sum = sum.wrapping_sub(hash_of(name));
            true
        }
        _ => false,
    }
}

/// What the hashes of the names in the directory of a row add up to, if a row that comes so far behind it is still below it.
fn sum_where_many<R: Files + AllocGlobal>(
    files: &R,
    row: &Row<StagedFile>,
    behind: Option<&Row<StagedFile>>,
    top: &str,
) -> io::Result<Option<u64>> {
    match behind {
        Some(behind) if row.path.is_prefix(&behind.path) => {
            Ok(Some(sum_of_names(files, below(files, row, top)?.as_str())?))
        }
        _ => Ok(None),
    }
}

/// Whether the file of a row has its size where it was stored. One in memory has been written.
fn is_there<R: Files + AllocGlobal>(
    files: &R,
    row: &Row<StagedFile>,
    file: &StagedFile,
    top: &str,
) -> io::Result<bool> {
    if file.bytes().is_some() {
        return Ok(true);
    }
    let found = metadata_at(files, below(files, row, top)?.as_str())?;
    Ok(found.is_some_and(|found| found.is_file() && found.len() == file.size()))
}

/// What the hashes of the names in a directory add up to.
fn sum_of_names<R: Files + AllocGlobal>(files: &R, place: &str) -> io::Result<u64> {
    let mut names = Names::open(files.alloc(), files, place)?;
    sum_of(&mut names)
}

/// What the hashes of the names that are left add up to.
fn sum_of<D: Read + Drop>(names: &mut Names<D>) -> io::Result<u64> {
    let mut sum = 0u64;
    for _ in 0..u64::MAX {
        match names.next_name()? {
            Some(name) => sum = sum.wrapping_add(hash_of(name)),
            None => break,
        }
    }
    Ok(sum)
}

/// A name's hash: FNV-1a, whose bits are mixed in the end. Without that the hashes of names that differ in their last letters alone
/// often have the same sum.
fn hash_of(name: &[u8]) -> u64 {
    let mut hash = FNV_OFFSET;
    for byte in name {
        hash = (hash ^ u64::from(*byte)).wrapping_mul(FNV_PRIME);
    }
    hash = (hash ^ (hash >> 32)).wrapping_mul(MIXING);
    hash ^ (hash >> 32)
}

/// Gives one file or directory its permission bits. Where the file system keeps no such bits, it does without.
fn close_row<R: Files + AllocGlobal, T>(
    files: &R,
    row: &Row<T>,
    top: &str,
    bits: &Bits<'_>,
) -> io::Result<()> {
    let place = below(files, row, top)?;
    match &row.content {
        Content::Absent => Ok(()),
        Content::File(_) => {
            let mode = bits.of(files, row, Standing::File)?;
            if mode != PRIVATE_FILE {
                let _ = fs::set_permissions(files, place.as_str(), Permissions::from_mode(mode));
            }
            Ok(())
        }
        Content::Dir => {
            let mode = bits.of(files, row, Standing::Dir)?;
            let is_top = row.path.is_root();
            let mode = if is_top { mode | OWNER_WRITES } else { mode };
            close_dir(files, place.as_str(), mode)
        }
    }
}

/// Gives a directory that was put in place the permission bits that it couldn't be moved with.
pub(crate) fn close_top<R: Files + AllocGlobal, T>(
    files: &R,
    tree: &[Row<T>],
    place: &str,
    bits: &Bits<'_>,
) -> io::Result<()> {
    if let Some(row) = tree.first()
        && let Content::Dir = &row.content
    {
        let mode = bits.of(files, row, Standing::Dir)?;
        if mode & OWNER_WRITES == 0 {
            close_dir(files, place, mode)?;
        }
    }
    Ok(())
}

/// The place of a row below a top.
fn below<R: AllocGlobal, T>(files: &R, row: &Row<T>, top: &str) -> io::Result<String>
    ensures { IfOk result (λ place. string_bytes place ≡ top.now ++ place_text row.now.path) }
{
    match row.path.place_below(files.alloc(), top) {
        Ok(place) => Ok(place),
        Err(_) => Err(io::Error::from(ErrorKind::OutOfMemory)),
    }
}

/// Writes a file where nothing is, for the owner alone, and waits until it has reached the device.
fn write_file<R: Files>(files: &R, place: &str, bytes: &[u8]) -> io::Result<()> {
    let mut file = create_file(files, place)?;
    file.write_all(bytes)?;
    file.sync_all()
}

/// Gives a directory its permission bits, and waits until it has reached the device.
fn close_dir<R: Files>(files: &R, place: &str, mode: u32) -> io::Result<()> {
    let directory = fs::open(files, place)?;
    if mode != PRIVATE_DIR {
        let _ = directory.set_permissions(Permissions::from_mode(mode));
    }
    directory.sync_all()
}
