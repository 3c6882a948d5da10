//! Pieces that are stored on a disk, and the commits that take them.
use crate::disks::{ground, has, makes, writes};
use crate::shared::print_of;
use fixtures::source_of;
use std::alloc::Global;
use std::sync::Arc;
use std::thread::Threads;
use std::{fs, process, thread};
use ts_cause::Cause;
use ts_check::{Checked, check};
use ts_disk::{
    DiskSite, DiskStage, Lock, LockedRoot, Part, Replica, Way, check_leftovers, clear_leftovers,
    recover_replica, take_lock,
};
use ts_folder::DiskFolder;
use ts_hold::Holds;
use ts_model::packed::KindRef;
use ts_model::plan::{Plan, Side};
use ts_plan::decode;
use ts_print::Print;
use ts_scan::scan;
use ts_site::{Site, SiteFault};
use ts_stage::{Piece, Stage, StageFault, Staged};
use ts_text::Lines;

/// The bytes of a file of two pieces: a whole one, and three more.
const BIG: usize = 1_048_579;

/// A directory with a file of two pieces, one of one piece and an empty one is copied from the first replica, and a file from
/// the second.
const PLAN: &[u8] = b"twosync-plan 1\nentry first /d\nentry second /s\npiece 0 0 1048576 /d/big\n\
piece 0 1048576 3 /d/big\npiece 0 0 2 /d/e/y\ncommit 0\np 0\np 1\np 2\nmark 0\np 3\npiece 1 0 1 /s\n\
commit 1\np 5\nmark 1\np 6\nend 2 8\n";

/// The pieces of `/d/big`.
const PARTS: [Part; 2] = [Part { piece: 0, word: 2 }, Part { piece: 1, word: 0 }];

/// How many pieces `/d` has: they are the first actions. Its commit comes next.
const PIECES: usize = 3;

const COMMIT: u32 = 3;

/// The piece of `/s`.
const OTHER: u32 = 5;

/// The places of two replicas.
#[derive(Clone, Copy)]
struct Pair<'a> {
    first: &'a str,
    second: &'a str,
}

/// Bytes that differ from place to place.
fn big(alloc: Global) -> Option<Vec<u8>> {
    let mut bytes = Vec::with_capacity(alloc, BIG).ok()?;
    for at in 0..BIG {
        bytes.push((at % 251) as u8).ok()?;
    }
    Some(bytes)
}

/// Makes both replicas below a place.
fn is_made(files: &HostRuntime, top: &str) -> Option<bool> {
    let alloc = files.alloc();
    let place = format!(in alloc; "{top}/first/d/big").ok()?;
    let bytes = big(alloc)?;
    Some(
        makes(files, top, "")
            && makes(files, top, "first")
            && makes(files, top, "second")
            && makes(files, top, "first/.twosync")
            && makes(files, top, "second/.twosync")
            && makes(files, top, "first/d")
            && makes(files, top, "first/d/e")
            && writes(files, top, "first/d/e/y", "ab")
            && writes(files, top, "first/d/z", "")
            && writes(files, top, "second/s", "s")
            && fs::write(files, place.as_str(), bytes.as_slice()).is_ok(),
    )
}

/// What is in a folder.
fn scanned<R: Threads + Sync>(rt: &R, files: &HostRuntime, root: &str) -> Option<Print> {
    let alloc = files.alloc();
    let folder = DiskFolder::new(alloc, files.clone().ok()?, root).ok()?;
    scan(rt, alloc, &folder, 1).ok()
}

fn plan(alloc: Global) -> Option<Plan> {
    let mut lines = Lines::new(alloc, source_of(PLAN, 1_000, None)).ok()?;
    decode(alloc, &mut lines).ok()
}

/// Stores what a piece of the plan is to read, from the bytes of its whole file.
fn stores(
    stage: &DiskStage<HostRuntime>,
    alloc: Global,
    plan: &Plan,
    number: u32,
    bytes: &[u8],
) -> Option<Result<Piece, StageFault>> {
    let action = plan.actions.as_slice().get(number as usize)?;
    let KindRef::Piece {
        entry,
        offset,
        length,
        path,
    } = action.kind()
    else {
        return None;
    };
    let copied = plan.entries.as_slice().get(entry as usize)?;
    let (_, rest) = bytes.split_at_checked(offset as usize)?;
    let (part, _) = rest.split_at_checked(length as usize)?;
    let part = Vec::from_slice(alloc, part).ok()?;
    Some(stage.store(alloc, number, entry, copied, path, offset, part))
}

/// Puts a piece of the plan at the end of its file.
fn puts(alloc: Global, staged: &mut Staged, plan: &Plan, number: u32, piece: Piece) -> bool {
    let Some(action) = plan.actions.as_slice().get(number as usize) else {
        return false;
    };
    let KindRef::Piece { offset, path, .. } = action.kind() else {
        return false;
    };
    let Ok(piece) = Box::new(alloc, piece) else {
        return false;
    };
    match staged.has_so_far(alloc, path, offset) {
        Ok(true) => staged.put(alloc, path, offset, piece).is_ok(),
        Ok(false) | Err(_) => false,
    }
}

/// The pieces of `/d`, each stored by a thread of its own. The small file is to have these bytes.
fn stored<R: Threads + Sync>(
    rt: &R,
    stage: &DiskStage<HostRuntime>,
    alloc: Global,
    plan: &Plan,
    small: &[u8],
) -> Option<Vec<Option<Result<Piece, StageFault>>>> {
    let bytes = big(alloc)?;
    let bytes = bytes.as_slice();
    thread::map_indices(
        rt,
        alloc,
        PIECES,
        &|number: usize| {
            let whole = if number == 2 { small } else { bytes };
            stores(stage, alloc, plan, number as u32, whole)
        },
    )
    .ok()
}

/// The same by one thread, the last piece first.
fn stored_backwards(
    stage: &DiskStage<HostRuntime>,
    alloc: Global,
    plan: &Plan,
) -> Option<Vec<Option<Result<Piece, StageFault>>>> {
    let bytes = big(alloc)?;
    let mut pieces = Vec::new(alloc);
    for number in 0..PIECES {
        let number = PIECES - 1 - number;
        let whole = if number == 2 {
            b"ab".as_slice()
        } else {
            bytes.as_slice()
        };
        pieces
            .push(stores(stage, alloc, plan, number as u32, whole))
            .ok()?;
    }
    pieces.reverse();
    Some(pieces)
}

/// What the commit of `/d` takes.
fn staged(
    alloc: Global,
    checked: &Checked<'_>,
    pieces: Vec<Option<Result<Piece, StageFault>>>,
) -> Option<Staged> {
    if !checked.is_commit(COMMIT) {
        return None;
    }
    let mut staged = checked.staged(alloc, COMMIT).ok()?;
    for (number, piece) in pieces.into_iter().enumerate() {
        let number = u32::try_from(number).ok()?;
        let piece = piece?.ok()?;
        if !puts(alloc, &mut staged, checked.plan(), number, piece) {
            return None;
        }
    }
    Some(staged)
}

/// Gives a lock up, if there is one.
fn let_go(files: &HostRuntime, lock: Option<Lock>) {
    if let Some(lock) = lock {
        lock.release(files);
    }
}

/// The way to the second replica, which was locked before.
fn way_to_second(files: &HostRuntime, pair: &Pair<'_>) -> Option<Arc<Way>> {
    let lock = take_lock(files, files.alloc(), pair.second).ok()?;
    let target = LockedRoot {
        root: pair.second,
        lock: &lock,
    };
    let way = Way::new(files.alloc(), target, pair.first);
    let_go(files, lock);
    way.ok()
}

/// The stage of a run over so many entries, whose replicas were locked before.
fn stage_of(
    files: &HostRuntime,
    pair: &Pair<'_>,
    entries: usize,
) -> Option<DiskStage<HostRuntime>> {
    let alloc = files.alloc();
    let own = files.clone().ok()?;
    let first = take_lock(files, alloc, pair.first).ok()?;
    let second = take_lock(files, alloc, pair.second).ok()?;
    let from = LockedRoot {
        root: pair.first,
        lock: &first,
    };
    let to = LockedRoot {
        root: pair.second,
        lock: &second,
    };
    let stage = DiskStage::new(alloc, own, entries, &PARTS, from, to);
    let_go(files, first);
    let_go(files, second);
    stage.ok()
}

/// Commits what was staged of `/d` in the second replica.
fn commits(
    files: &HostRuntime,
    pair: &Pair<'_>,
    checked: &Checked<'_>,
    staged: Staged,
) -> Option<Result<(), SiteFault>> {
    let alloc = files.alloc();
    if !checked.is_commit(COMMIT) {
        return None;
    }
    let before = checked.before(COMMIT);
    let own = files.clone().ok()?;
    let way = way_to_second(files, pair)?;
    let mut site = DiskSite::new(alloc, own, &way, before.top(), 0).ok()?;
    match site.commit(alloc, &before, staged) {
        Ok(_) => Some(Ok(())),
        Err(fault) => Some(Err(fault)),
    }
}

/// Whether the big file lies in the second replica, whole.
fn has_big(files: &HostRuntime, root: &str) -> Option<bool> {
    let alloc = files.alloc();
    let place = format!(in alloc; "{root}/d/big").ok()?;
    let bytes = big(alloc)?;
    match fs::read(files, place.as_str()) {
        Ok(found) => Some(found.as_slice() == bytes.as_slice()),
        Err(_) => Some(false),
    }
}

/// Whether all of `/d` lies in the second replica, and nothing else of it.
fn is_copied(files: &HostRuntime, root: &str) -> bool {
    has_big(files, root) == Some(true)
        && has(files, root, "d/e/y", Some("ab"))
        && has(files, root, "d/z", Some(""))
        && is_cleared(files, root)
}

/// Whether neither a stage nor a new tree of `/d` is left.
fn is_cleared(files: &HostRuntime, root: &str) -> bool {
    has(files, root, ".twosync/stage-0", None) && has(files, root, ".twosync/new-0", None)
}

/// What a case does with a checked plan and the stage of its run.
#[derive(Clone, Copy, PartialEq, Eq)]
enum Case {
    Copies,
    CopiesLate,
    Refuses,
    Fails,
    Gone,
    Recovers,
}

/// Whether pieces that fit are put in place by their commit, also where the one that begins a file was stored last.
fn copies<R: Threads + Sync>(
    rt: &R,
    files: &HostRuntime,
    pair: &Pair<'_>,
    checked: &Checked<'_>,
    stage: &DiskStage<HostRuntime>,
    is_late: bool,
) -> Option<bool> {
    let alloc = files.alloc();
    let pieces = if is_late {
        stored_backwards(stage, alloc, checked.plan())?
    } else {
        stored(rt, stage, alloc, checked.plan(), b"ab")?
    };
    let is_stored = has(files, pair.second, ".twosync/stage-0/e/y", Some("ab"))
        && has(files, pair.second, ".twosync/stage-0/z", None)
        && has(files, pair.first, ".twosync/stage-0", None);
    let staged = staged(alloc, checked, pieces)?;
    let is_held = staged.is_held();
    let done = commits(files, pair, checked, staged)?;
    Some(is_stored && !is_held && done == Ok(()) && is_copied(files, pair.second))
}

/// Whether a commit refuses pieces of which one has other bytes, and leaves nothing of them.
fn refuses<R: Threads + Sync>(
    rt: &R,
    files: &HostRuntime,
    pair: &Pair<'_>,
    checked: &Checked<'_>,
    stage: &DiskStage<HostRuntime>,
) -> Option<bool> {
    let alloc = files.alloc();
    let pieces = stored(rt, stage, alloc, checked.plan(), b"xy")?;
    let is_stored = has(files, pair.second, ".twosync/stage-0/e/y", Some("xy"));
    let staged = staged(alloc, checked, pieces)?;
    let done = commits(files, pair, checked, staged)?;
    let is_absent = has(files, pair.second, "d", None) && is_cleared(files, pair.second);
    Some(is_stored && done == Err(SiteFault::Misfit) && is_absent)
}

/// Whether a piece was refused since the device failed.
fn is_refused(stored: Option<Result<Piece, StageFault>>) -> bool {
    match stored {
        Some(Err(fault)) => fault == StageFault::Device,
        Some(Ok(_)) | None => false,
    }
}

/// Whether a piece that can't be stored fails its entry alone: nothing of that is stored any more, though no other piece of it
/// fails, and another entry is.
fn fails(
    files: &HostRuntime,
    pair: &Pair<'_>,
    plan: &Plan,
    stage: &DiskStage<HostRuntime>,
) -> Option<bool> {
    let alloc = files.alloc();
    let is_blocked = writes(files, pair.second, ".twosync/stage-0", "x");
    let is_first = is_refused(stores(stage, alloc, plan, 2, b"ab"));
    let is_removed = is_cleared(files, pair.second);
    let is_next = stores(stage, alloc, plan, 2, b"ab")?.is_ok();
    let is_other = stores(stage, alloc, plan, OTHER, b"s")?.is_ok();
    let causes = stage.cause(0) == Cause::NotFolder && stage.cause(1) == Cause::Unknown;
    let is_left = is_cleared(files, pair.second)
        && has(files, pair.first, ".twosync/stage-1", Some("s"));
    Some(is_blocked && is_first && is_removed && is_next && is_other && causes && is_left)
}

/// Whether nothing is stored in a replica whose own directory has gone, and that isn't made anew: the replica may have gone with it.
fn is_gone(
    files: &HostRuntime,
    pair: &Pair<'_>,
    plan: &Plan,
    stage: &DiskStage<HostRuntime>,
) -> Option<bool> {
    let alloc = files.alloc();
    let own = format!(in alloc; "{}/.twosync", pair.second).ok()?;
    let is_removed = fs::remove_dir(files, own.as_str()).is_ok();
    let is_refused = is_refused(stores(stage, alloc, plan, 2, b"ab"));
    let is_reported = stage.cause(0) == Cause::NotThere;
    let is_absent = has(files, pair.second, ".twosync", None);
    Some(is_removed && is_refused && is_reported && is_absent)
}

/// Whether the end of a run removes the stages of what is copied into a replica, and recovery all of them, and neither says
/// anything of that.
fn recovers(
    files: &HostRuntime,
    pair: &Pair<'_>,
    plan: &Plan,
    stage: &DiskStage<HostRuntime>,
) -> Option<bool> {
    let alloc = files.alloc();
    let second = Replica {
        root: pair.second,
        side: Side::Second,
    };
    let is_stored = stores(stage, alloc, plan, 2, b"ab")?.is_ok();
    let is_beside = writes(files, pair.second, ".twosync/stage-1", "x");
    let mut notices = Vec::new(alloc);
    let is_ended = check_leftovers(files, alloc, pair.second).is_ok()
        && clear_leftovers(files, alloc, &second, plan, &mut notices).is_ok()
        && is_cleared(files, pair.second)
        && has(files, pair.second, ".twosync/stage-1", Some("x"));
    let is_recovered = recover_replica(files, alloc, pair.second, &mut notices).is_ok()
        && has(files, pair.second, ".twosync/stage-1", None);
    Some(is_stored && is_beside && is_ended && is_recovered && notices.is_empty())
}

/// Goes on with the stage of a run.
fn on_stage<R: Threads + Sync>(
    rt: &R,
    files: &HostRuntime,
    pair: &Pair<'_>,
    checked: &Checked<'_>,
    case: Case,
) -> Option<bool> {
    let entries = checked.plan().entries.as_slice().len();
    let stage = stage_of(files, pair, entries)?;
    match case {
        Case::Copies => copies(rt, files, pair, checked, &stage, false),
        Case::CopiesLate => copies(rt, files, pair, checked, &stage, true),
        Case::Refuses => refuses(rt, files, pair, checked, &stage),
        Case::Fails => fails(files, pair, checked.plan(), &stage),
        Case::Gone => is_gone(files, pair, checked.plan(), &stage),
        Case::Recovers => recovers(files, pair, checked.plan(), &stage),
    }
}

/// Goes on with the plan, checked for both replicas.
fn on_plan<R: Threads + Sync>(
    rt: &R,
    files: &HostRuntime,
    pair: &Pair<'_>,
    plan: &Plan,
    case: Case,
) -> Option<bool> {
    let alloc = files.alloc();
    let archive = print_of(alloc, "")?;
    let first = scanned(rt, files, pair.first)?;
    let second = scanned(rt, files, pair.second)?;
    let holds = Holds::none(alloc);
    let checked = check(rt, alloc, plan, &archive, &first, &second, &holds).ok()?;
    on_stage(rt, files, pair, &checked, case)
}

/// Whether a case ends as it has to.
fn is_well<R: Threads + Sync>(rt: &R, files: &HostRuntime, top: &str, case: Case) -> Option<bool> {
    let alloc = files.alloc();
    let first = format!(in alloc; "{top}/first").ok()?;
    let second = format!(in alloc; "{top}/second").ok()?;
    let pair = Pair {
        first: first.as_str(),
        second: second.as_str(),
    };
    let plan = plan(alloc)?;
    let is_made = is_made(files, top)?;
    let is_well = on_plan(rt, files, &pair, &plan, case)?;
    Some(is_made && is_well && fs::remove_dir_all(files, top).is_ok())
}

#[test]
fn a_commit_takes_what_was_stored(rt: HostRuntime) {
    let Some(top) = ground(&rt, process::id(rt.process()), "stored") else {
        panic!(rt; "no place");
    };
    assert!(rt; is_well(&rt, &rt, top.as_str(), Case::Copies) == Some(true));
}

#[test]
fn a_commit_takes_what_was_stored_last_first(rt: HostRuntime) {
    let Some(top) = ground(&rt, process::id(rt.process()), "backwards") else {
        panic!(rt; "no place");
    };
    assert!(rt; is_well(&rt, &rt, top.as_str(), Case::CopiesLate) == Some(true));
}

#[test]
fn a_commit_refuses_other_bytes(rt: HostRuntime) {
    let Some(top) = ground(&rt, process::id(rt.process()), "misfit") else {
        panic!(rt; "no place");
    };
    assert!(rt; is_well(&rt, &rt, top.as_str(), Case::Refuses) == Some(true));
}

#[test]
fn what_cannot_be_stored_fails_its_entry_alone(rt: HostRuntime) {
    let Some(top) = ground(&rt, process::id(rt.process()), "unstored") else {
        panic!(rt; "no place");
    };
    assert!(rt; is_well(&rt, &rt, top.as_str(), Case::Fails) == Some(true));
}

#[test]
fn nothing_is_stored_where_the_replica_has_gone(rt: HostRuntime) {
    let Some(top) = ground(&rt, process::id(rt.process()), "gone") else {
        panic!(rt; "no place");
    };
    assert!(rt; is_well(&rt, &rt, top.as_str(), Case::Gone) == Some(true));
}

#[test]
fn stages_of_a_stopped_run_are_removed(rt: HostRuntime) {
    let Some(top) = ground(&rt, process::id(rt.process()), "stages") else {
        panic!(rt; "no place");
    };
    assert!(rt; is_well(&rt, &rt, top.as_str(), Case::Recovers) == Some(true));
}
