//! The names of what stands in a directory on a disk.
ghost use Rattle.std.specs.Prelude.{◌≡◌, ◌≢◌, ◌⊎◌, ◌↔◌, IfOk, IfSome, IsTrue, codes};

use std::alloc::Global;
use std::fs::Files;
use std::io;
use std::io::{BufRead, BufReader, Read};

/// How many bytes of names are asked for at once: a thousand names and more.
const ROOM: usize = 32_768;

/// What ends each name, as the system's listing is read.
const END: u8 = 0;

/// The names of what stands in a directory, in the order that the system gives them in, without `.` and `..`.
///
/// `std::fs::read_dir` makes a path for each of them, which takes as long as all else that is done for a name.
#[derive(Drop)]
pub struct Names<D> {
    listing: BufReader<D>,
    name: Vec<u8>,
}

impl<D: Read + Drop> Names<D> {
    /// Those of the directory at a place. A link at the place is followed only where it ends in `/`. It fails where the system's
    /// call does, or memory runs out.
    pub fn open<R: Files<Dir = D>>(alloc: Global, files: &R, place: &str) -> io::Result<Names<D>> {
        let directory = files.open_dir(place)?;
        Ok(Names {
            listing: BufReader::with_capacity(alloc, ROOM, directory)?,
            name: Vec::new(alloc),
        })
    }

    /// The next name, as its bytes, or none at the end. It fails where the system's call does, or memory runs out.
    pub fn next_name(&mut self) -> io::Result<Option<&[u8]>>
        ensures dots { IfOk result (λ found. IfSome found (λ name. (name.now ≢ codes ".") × (name.now ≢ codes ".."))) }
    {
        for _ in 0..u64::MAX {
            self.name.clear();
            if self.listing.read_until(END, &mut self.name)? == 0 {
                break;
            }
            self.name.pop();
            if !is_dots(self.name.as_slice()) {
                return Ok(Some(self.name.as_slice()));
            }
        }
        Ok(None)
    }
}

/// Whether a name stands for the directory itself, or for the one above it.
fn is_dots(name: &[u8]) -> bool
    ensures { IsTrue result ↔ ((name.now ≡ codes ".") ⊎ (name.now ≡ codes "..")) }
{
    name == b".".as_slice() || name == b"..".as_slice()
}
