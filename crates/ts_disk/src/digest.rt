//! The digest in the last line of an archive.
use crate::fault::{DiskFault, unread};
use crate::known::ArchiveDigest;
use std::alloc::Global;
use std::fs::{File, Files};
use std::io::{ErrorKind, Read, Seek, SeekFrom};
use std::{fs, io};
use ts_text::field_digest;

/// How many bytes the last line of an archive ends with that spell its digest, with the line feed.
const DIGEST_BYTES: i64 = 65;

/// The digest of the archive at a place. None where nothing is there, or no archive: what is wrong with it is found out where it is
/// read whole.
pub(crate) fn digest_at<R: Files<File = File>>(
    files: &R,
    alloc: Global,
    place: &str,
) -> Result<Option<ArchiveDigest>, DiskFault> {
    match fs::open(files, place) {
        Ok(file) => digest_in(alloc, &file),
        Err(e) if e.kind() == ErrorKind::NotFound => Ok(None),
        Err(e) => Err(unread(e)),
    }
}

/// The digest in the last line of an archive's file, if it has one.
pub(crate) fn digest_in(alloc: Global, file: &File) -> Result<Option<ArchiveDigest>, DiskFault> {
    let mut bytes = Vec::new(alloc);
    match read_end(file, &mut bytes) {
        Ok(()) => Ok(digest_of(bytes.as_slice())),
        // the file is shorter than that
        Err(e) if e.kind() == ErrorKind::InvalidInput => Ok(None),
        Err(e) => Err(unread(e)),
    }
}

/// Reads the end of a file, of as many bytes as spell a digest in an archive's last line.
fn read_end(file: &File, bytes: &mut Vec<u8>) -> io::Result<()> {
    let mut file = file;
    file.seek(SeekFrom::End(-DIGEST_BYTES))?;
    file.take(DIGEST_BYTES as u64).read_to_end(bytes)?;
    Ok(())
}

/// The digest that the end of an archive spells.
fn digest_of(end: &[u8]) -> Option<ArchiveDigest> {
    field_digest(end.strip_suffix(b"\n")?)
}
