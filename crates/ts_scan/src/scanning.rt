//! The print of a folder.
ghost use Rattle.std.specs.Prelude.{◌≡◌, ◌≤◌, IfErr, IfOk, IfSome};
ghost use Rattle.std.specs.Thread.{IsSend, IsSync};
ghost use Rattle.ts_model.specs.Trees.{at, print_of};
ghost use Rattle.ts_scan.specs.Faults.{MayFail, ScansTold};

use crate::fault::ScanFault;
use crate::idle::Idle;
use crate::walk::{Work, scan_directory};
use std::alloc::Global;
use std::thread::{Threads, join};
use ts_folder::Folder;
use ts_name::Path;
use ts_print::Print;
use ts_table::Table;

/// What is at each path of a folder, scanned by 1 to 64 workers. Each directory is listed once and each file opened once,
/// unless what was listed is gone or of another kind when it is opened: then its directory is listed again, up to ten times.
/// A file is read through one buffer a worker. A thread that can't be started is done without.
///
/// Of faults the first in path order is reported, out of memory aside.
pub fn scan<R: Threads + Sync, F: Folder + Sync>(
    rt: &R,
    alloc: Global,
    folder: &F,
    workers: u32,
) -> Result<Print, ScanFault>
where
    F::File: Send,
    requires some { 1 ≤ workers }
    requires few { workers ≤ 64 }
    ensures print { IfSome (F.tells folder.now) (λ tree. IfOk result (λ print. at print ≡ print_of (at tree))) }
    ensures fault { IfErr result (MayFail (F.lets folder.now) (F.tells folder.now)) }
{
    let idle = Idle::new(u64::from(workers) - 1);
    let root = Path::root(alloc);
    let work = Work::new(alloc, 0)?;
    let done = scan_directory(rt, folder, &idle, alloc, &root, work)?;
    let mut rows = done.into_rows();
    // they stay as long as the print does, and their room has grown by doubling
    rows.shrink_to_fit();
    Ok(Print::from_table(Table::from_rows(rows)))
}

/// The same of two folders at once, each by as many workers; by one worker one after the other.
pub fn scan_both<R: Threads + Sync, F: Folder + Sync>(
    rt: &R,
    alloc: Global,
    first: &F,
    second: &F,
    workers: u32,
) -> (Result<Print, ScanFault>, Result<Print, ScanFault>)
where
    F::File: Send,
    requires some { 1 ≤ workers }
    requires few { workers ≤ 64 }
    ensures first { ScansTold (F.lets first.now) (F.tells first.now) result.0 }
    ensures second { ScansTold (F.lets second.now) (F.tells second.now) result.1 }
{
    if workers == 1 {
        let one = scan(rt, alloc, first, workers);
        let other = scan(rt, alloc, second, workers);
        return (one, other);
    }
    let one = || -> Result<Print, ScanFault>
        requires { IsSync R.row × IsSync F.row × IsSend F.File.row × (1 ≤ workers) × (workers ≤ 64) }
        ensures { ScansTold (F.lets first.entry.now) (F.tells first.entry.now) result }
    { scan(rt, alloc, first, workers) };
    let other = || -> Result<Print, ScanFault>
        requires { IsSync R.row × IsSync F.row × IsSend F.File.row × (1 ≤ workers) × (workers ≤ 64) }
        ensures { ScansTold (F.lets second.entry.now) (F.tells second.entry.now) result }
    { scan(rt, alloc, second, workers) };
    // the first replica is scanned by this thread, since the names of a folder that is synced for the first time, often the first
    // one, leave their room to what this thread lays out next
    let (theirs, ours) = join(rt, other, one);
    (ours, theirs)
}
