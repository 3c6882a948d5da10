//! Scans a folder, and says how many files it has and how many bytes these have. Its words are the folder and the number of
//! workers, from 1 to 64; it then also says how much memory the process held at most. Without words it scans a small folder
//! in memory with 2 workers.

use crate::memory::most_held;
use crate::words::worker_count;
use anyhow::Result;
use std::alloc::Global;
use std::rt::Files;
use std::thread::Threads;
use ts_folder::{DiskFolder, MemFolder};
use ts_model::row::Content;
use ts_scan::scan;
use ts_tree::TreeReader;

/// A folder in memory with 3 files of 6 bytes in all.
fn small(alloc: Global) -> Result<MemFolder> {
    let mut reader = TreeReader::new(alloc);
    for line in [
        "d /a", "f /a/b 1", "x 61", "f /a/c 2", "x 6162", "d /d", "f /e 3", "x 616263",
    ] {
        reader.line(alloc, line.as_bytes())?;
    }
    Ok(MemFolder::new(reader.finish()?))
}

/// How many files a print tells, and how many bytes they have.
fn count(print: &ts_print::Print) -> (u64, u64) {
    let mut files = 0u64;
    let mut bytes = 0u64;
    for row in print.rows() {
        if let Content::File(stamp) = &row.content {
            files = files.saturating_add(1);
            bytes = bytes.saturating_add(stamp.size);
        }
    }
    (files, bytes)
}

/// Says what a print has.
fn tell(rt: &impl Print, print: &ts_print::Print) -> Result<()> {
    let (files, bytes) = count(print);
    println!(rt; "files {files} bytes {bytes}")?;
    Ok(())
}

/// Scans the folder that the words name, or the small one. The folder is read through `files`.
pub fn measure<R>(rt: &R, files: HostRuntime, words: &[String]) -> Result<()>
where
    R: Files + Print + Threads + AllocGlobal + Sync,
{
    let alloc = rt.alloc();
    let Some(root) = words.first() else {
        return tell(rt, &scan(rt, alloc, &small(alloc)?, 2)?);
    };
    let workers = worker_count(words, 1)?;
    let folder = DiskFolder::new(alloc, files, root.as_str())?;
    tell(rt, &scan(rt, alloc, &folder, workers.count)?)?;
    if let Some(held) = most_held(rt) {
        println!(rt; "held {held} KiB at most")?;
    }
    Ok(())
}
