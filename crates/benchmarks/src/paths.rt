//! The lines of a large print: directories of 49 files each.

use anyhow::Result;
use std::alloc::Global;

/// How many paths a directory takes up, its own among them.
const IN_ONE: u32 = 50;

/// The line of the path at a number: a directory's, or that of a file with a digest.
pub fn line_at(alloc: Global, number: u32, digest: u32) -> Result<String> {
    let (dir, file) = (number / IN_ONE, number % IN_ONE);
    let line = if file == 0 {
        format!(in alloc; "d /directory{dir:08}")?
    } else {
        format!(in alloc; "f /directory{dir:08}/file{file:02} 1000 {digest:064}")?
    };
    Ok(line)
}
