//! What stands at a place of a disk, without following a link.

use std::alloc::Global;
use std::fs::{FileType, Files};
use std::io::ErrorKind;
use std::{fs, io};
use ts_folder::FolderFault;

/// What can be done with what stands at a place.
#[derive(Clone, Copy, Debug, PartialEq, Eq, Drop)]
pub(crate) enum Sort {
    Dir,
    File,
    /// It can't be synchronized.
    Special,
}

/// What stands at a place. One that is longer than the system takes counts as a file, which then can't be opened.
pub(crate) fn sort_at<R: Files>(files: &R, place: &str) -> Result<Sort, FolderFault> {
    match fs::symlink_metadata(files, place) {
        Ok(metadata) => Ok(sort_of(&metadata.file_type())),
        Err(e) if e.kind() == ErrorKind::InvalidFilename => Ok(Sort::File),
        Err(e) => Err(fault_of(&e)),
    }
}

fn sort_of(file_type: &FileType) -> Sort {
    if file_type.is_dir() {
        Sort::Dir
    } else if file_type.is_file() {
        Sort::File
    } else {
        Sort::Special
    }
}

/// That each place above the last, from the root down, is a directory and no link.
pub(crate) fn look_above<R: Files>(files: &R, place: &str, root: usize) -> Result<(), FolderFault> {
    for end in 0..place.len() {
        if end > root {
            look_before(files, place, end)?;
        }
    }
    Ok(())
}

/// That a directory stands at the place that ends before `end`, if a place does.
fn look_before<R: Files>(files: &R, place: &str, end: usize) -> Result<(), FolderFault> {
    match place.split_at_checked(end) {
        Some((above, rest)) if rest.starts_with('/') => match sort_at(files, above)? {
            Sort::Dir => Ok(()),
            Sort::File => Err(FolderFault::NotThere),
            Sort::Special => Err(FolderFault::Unreadable),
        },
        _ => Ok(()),
    }
}

/// Whether a file can be opened to be read. One that is gone by now counts as one that can.
pub(crate) fn can_be_read<R: Files>(files: &R, place: &str) -> Result<bool, FolderFault> {
    match fs::open(files, place) {
        Ok(_file) => Ok(true),
        Err(e) => match fault_of(&e) {
            FolderFault::NotThere => Ok(true),
            FolderFault::Unreadable => Ok(false),
            fault => Err(fault),
        },
    }
}

/// What an error of the system stands for: that nothing is there, that it must not be read or has a name or a path that the
/// system doesn't take, and else a fault of the device.
pub(crate) fn fault_of(e: &io::Error) -> FolderFault {
    match e.kind() {
        ErrorKind::NotFound | ErrorKind::NotADirectory => FolderFault::NotThere,
        ErrorKind::PermissionDenied | ErrorKind::InvalidFilename => FolderFault::Unreadable,
        ErrorKind::OutOfMemory => FolderFault::OutOfMemory,
        _ => FolderFault::Device,
    }
}

/// The place of what has this name in the directory at a place.
pub(crate) fn place_in(alloc: Global, place: &str, name: &str) -> Result<String, FolderFault> {
    Ok(format!(in alloc; "{place}/{name}")?)
}
