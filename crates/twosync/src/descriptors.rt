//! The standard descriptors, where the program was started without some of them.

use std::fs::{self, Files};
use std::io;

/// Files that have the numbers of standard descriptors which were closed when the program was started. Else another file would get
/// such a number, the new archive for one, and what is said on standard output or standard error would be written into it.
#[derive(Drop)]
pub(crate) struct Placeholders<F: Drop> {
    first: F,
    second: F,
    third: F,
}

/// Opens the root directory once for each of the three standard descriptors. The system gives the lowest number that is free, so none
/// of the three is closed then. A directory can't be read or written as a file is, so calls on such a descriptor fail, as before.
pub(crate) fn take_numbers<R: Files>(files: &R) -> io::Result<Placeholders<R::File>> {
    Ok(Placeholders {
        first: fs::open(files, "/")?,
        second: fs::open(files, "/")?,
        third: fs::open(files, "/")?,
    })
}
