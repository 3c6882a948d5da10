//! The archive in a file, decoded while both replicas are scanned.
ghost use Rattle.std.specs.Prelude.{◌≡◌, ◌≤◌, IfOk, option_map};
ghost use Rattle.std.specs.Thread.{IsSend, IsSync};
ghost use Rattle.ts_perform.specs.Inputs.{IsArchiveOf};
ghost use Rattle.ts_scan.specs.Faults.{ScansTold};

use std::alloc::Global;
use std::io::Read;
use std::thread::{Threads, join};
use ts_archive::ArchiveFault;
use ts_folder::Folder;
use ts_print::Print;
use ts_scan::{ScanFault, scan_both};
use ts_text::{Counted, Lines};

/// What is decoded of an archive's file. None where there is no file.
pub(crate) type Decoded = Result<Option<Print>, ArchiveFault>;

/// What the scans of two folders give.
pub(crate) type Scans = (Result<Print, ScanFault>, Result<Print, ScanFault>);

/// The archive in a file.
pub(crate) fn decoded<S: Read + Drop>(alloc: Global, file: Option<S>) -> Decoded
    ensures { IfOk result (IsArchiveOf (option_map S.remaining file)) }
{
    let Some(file) = file else {
        return Ok(None);
    };
    match Lines::new(alloc, Counted::new(file)) {
        Ok(mut lines) => Ok(Some(ts_archive::decode(alloc, &mut lines)?)),
        Err(_) => Err(ArchiveFault::OutOfMemory),
    }
}

/// Decodes the archive in a file by one more thread, where there is a file, while both folders are scanned as
/// `ts_scan::scan_both` does. The thread gets the file alone, so that folders need no more than a scan asks of them.
pub(crate) fn decoded_beside_scans<R: Threads + Sync, F: Folder + Sync, S: Read + Send + Drop>(
    rt: &R,
    alloc: Global,
    first: &F,
    second: &F,
    workers: u32,
    file: Option<S>,
) -> (Decoded, Scans)
where
    F::File: Send,
    requires some { 1 ≤ workers }
    requires few { workers ≤ 64 }
    ensures archive { IfOk result.0 (IsArchiveOf (option_map S.remaining file)) }
    ensures first { ScansTold (F.lets first.now) (F.tells first.now) result.1.0 }
    ensures second { ScansTold (F.lets second.now) (F.tells second.now) result.1.1 }
{
    if file.is_none() {
        return (Ok(None), scan_both(rt, alloc, first, second, workers));
    }
    let theirs = move || -> Decoded
        ensures { IfOk result (IsArchiveOf (option_map S.remaining file)) }
    { decoded(alloc, file) };
    let ours = || -> Scans
        requires { IsSync R.row × IsSync F.row × IsSend F.File.row × (1 ≤ workers) × (workers ≤ 64) }
        ensures first { ScansTold (F.lets first.entry.now) (F.tells first.entry.now) result.0 }
        ensures second { ScansTold (F.lets second.entry.now) (F.tells second.entry.now) result.1 }
    { scan_both(rt, alloc, first, second, workers) };
    join(rt, theirs, ours)
}
