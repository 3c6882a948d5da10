//! Real folders, each test in one of its own below the system's place for such.
use fixtures::{path, tree_of};
use std::alloc::Global;
use std::fs::{File, Files};
use std::rt::Env;
use std::{env, fs, process};
use ts_cause::Cause;
use ts_disk::{DiskFault, DiskPlaces, Notice, mount_above, recover_replica, take_lock};
use ts_model::items::Items;
use ts_swap::{Places, Spot};
use ts_table::SubTable;

/// The place of a folder for the process of this number.
pub(crate) fn ground<R: Env + AllocGlobal>(rt: &R, number: u32, name: &str) -> Option<String> {
    let place = env::temp_dir(rt).ok()?;
    format!(in rt.alloc(); "{}/twosync-{number}-{name}", place.as_str()).ok()
}

/// A plan whose entry 1 is at `/d/a`.
const PLAN: &str = "twosync-plan 1\nentry conflict /c\nentry first /d/a\nend 2 0\n";

/// Which of the target, the new and the old spot are taken, what is then at the target, and what is kept beside it.
const RECOVERIES: [([bool; 3], Option<&str>, Option<&str>); 8] = [
    ([true, false, false], Some("t"), None),
    ([true, true, false], Some("t"), None),
    ([true, false, true], Some("t"), None),
    ([false, false, false], None, None),
    ([false, true, false], None, None),
    ([false, false, true], None, None),
    ([false, true, true], Some("o"), None),
    // others took the target while it was absent, so the original can't go back
    ([true, true, true], Some("t"), Some("o")),
];

/// Makes a folder below the root.
pub(crate) fn makes<R: Files + AllocGlobal>(rt: &R, root: &str, place: &str) -> bool {
    match format!(in rt.alloc(); "{root}/{place}") {
        Ok(at) => fs::create_dir(rt, at.as_str()).is_ok(),
        Err(_) => false,
    }
}

/// Removes an empty folder below the root.
fn removes<R: Files + AllocGlobal>(rt: &R, root: &str, place: &str) -> bool {
    match format!(in rt.alloc(); "{root}/{place}") {
        Ok(at) => fs::remove_dir(rt, at.as_str()).is_ok(),
        Err(_) => false,
    }
}

/// Writes a file below the root.
pub(crate) fn writes<R: Files + AllocGlobal>(rt: &R, root: &str, place: &str, bytes: &str) -> bool {
    match format!(in rt.alloc(); "{root}/{place}") {
        Ok(at) => fs::write(rt, at.as_str(), bytes).is_ok(),
        Err(_) => false,
    }
}

/// Whether a file below the root has just these bytes, or is absent.
pub(crate) fn has<R: Files + AllocGlobal>(
    rt: &R,
    root: &str,
    place: &str,
    want: Option<&str>,
) -> bool {
    let Ok(at) = format!(in rt.alloc(); "{root}/{place}") else {
        return false;
    };
    match want {
        Some(bytes) => match fs::read_to_string(rt, at.as_str()) {
            Ok(text) => text.as_str() == bytes,
            Err(_) => false,
        },
        None => fs::exists(rt, at.as_str()).is_ok_and(|there| !there),
    }
}

/// Makes a replica with the plan file, and a file at each of the spots that are taken.
fn stops<R: Files + AllocGlobal>(rt: &R, root: &str, taken: [bool; 3]) -> bool {
    let [target, new, old] = taken;
    makes(rt, root, "")
        && makes(rt, root, "d")
        && makes(rt, root, ".twosync")
        && writes(rt, root, ".twosync/plan", PLAN)
        && (!target || writes(rt, root, "d/a", "t"))
        && (!new || writes(rt, root, ".twosync/new-1", "n"))
        && (!old || writes(rt, root, ".twosync/old-1", "o"))
}

/// Whether the target has just these bytes, or is absent, and no spot and no plan file is left.
fn is_settled<R: Files + AllocGlobal>(rt: &R, root: &str, want: Option<&str>) -> bool {
    has(rt, root, "d/a", want)
        && has(rt, root, ".twosync/plan", None)
        && has(rt, root, ".twosync/new-1", None)
        && has(rt, root, ".twosync/old-1", None)
}

/// Whether a replica that was stopped is settled by its recovery, and just this is kept and reported.
fn recovers<R: Files + AllocGlobal + Clone + Drop>(
    rt: &R,
    root: &str,
    taken: [bool; 3],
    want: Option<&str>,
    kept: Option<&str>,
) -> bool {
    let mut notices = Vec::new(rt.alloc());
    stops(rt, root, taken)
        && recover_replica(rt, rt.alloc(), root, &mut notices).is_ok()
        && notices.is_empty() == kept.is_none()
        && has(rt, root, ".twosync/left-0", kept)
        && is_settled(rt, root, want)
        && fs::remove_dir_all(rt, root).is_ok()
}

#[test]
fn recovery_goes_by_what_is_there(rt: HostRuntime) {
    let Some(root) = ground(&rt, process::id(rt.process()), "recovery") else {
        panic!(rt; "no place");
    };
    for (taken, want, kept) in RECOVERIES {
        assert!(rt;
            recovers(&rt, root.as_str(), taken, want, kept),
            "from {taken:?}"
        );
    }
}

/// Whether this is the one notice: what was at `/d/a` is kept at this place.
fn is_kept_at(notices: &[Notice], place: &str) -> bool {
    match notices {
        [Notice::Kept { path, place: at }] => path.last() == Some(b"a") && at.as_str() == place,
        _ => false,
    }
}

/// Whether the old content of a replica that was stopped is kept where its directory went away meanwhile.
fn keeps<R: Files + AllocGlobal + Clone + Drop>(rt: &R, root: &str, place: &str) -> bool {
    let mut notices = Vec::new(rt.alloc());
    stops(rt, root, [false, true, true])
        && removes(rt, root, "d")
        && recover_replica(rt, rt.alloc(), root, &mut notices).is_ok()
        && is_kept_at(&notices, place)
        && is_settled(rt, root, None)
        && has(rt, root, ".twosync/left-0", Some("o"))
        && fs::remove_dir_all(rt, root).is_ok()
}

#[test]
fn recovery_keeps_what_has_no_place_to_go_back_to(rt: HostRuntime) {
    let Some(root) = ground(&rt, process::id(rt.process()), "kept") else {
        panic!(rt; "no place");
    };
    let Ok(place) = format!(in rt.alloc(); "{root}/.twosync/left-0") else {
        panic!(rt; "no memory");
    };
    assert!(rt; keeps(&rt, root.as_str(), place.as_str()));
}

/// A file of the one byte `n`.
fn new_file(alloc: Global) -> Option<SubTable<Items<u8>>> {
    let tree = tree_of(alloc, b"f /a 1\nx 6e\n")?;
    tree.sub_table(alloc, &path(alloc, "/a")?).ok()
}

/// The spots of entry 1, at `/d/a`.
fn places_of<R: AllocGlobal + Clone + Drop>(rt: &R, root: &str) -> Option<DiskPlaces<R>> {
    let alloc = rt.alloc();
    let path = path(alloc, "/d/a")?;
    DiskPlaces::new(alloc, rt.clone().ok()?, root, &path, 1).ok()
}

/// Whether a swap by hand puts the new file in the old one's place: each call does its part.
fn swaps<R: Files + AllocGlobal + Clone + Drop>(rt: &R, root: &str) -> bool {
    let (Some(file), Some(mut places)) = (new_file(rt.alloc()), places_of(rt, root)) else {
        return false;
    };
    stops(rt, root, [true, false, false])
        && places.write(file.rows()).is_ok()
        && has(rt, root, ".twosync/new-1", Some("n"))
        && places.present(Spot::Target) == Ok(true)
        && places.rename(Spot::Target, Spot::Old).is_ok()
        && places.present(Spot::Target) == Ok(false)
        && has(rt, root, ".twosync/old-1", Some("t"))
        && places.rename(Spot::New, Spot::Target).is_ok()
        && places.remove(Spot::Old).is_ok()
        && has(rt, root, "d/a", Some("n"))
        && has(rt, root, ".twosync/new-1", None)
        && has(rt, root, ".twosync/old-1", None)
        && fs::remove_dir_all(rt, root).is_ok()
}

#[test]
fn each_call_of_a_swap_does_its_part(rt: HostRuntime) {
    let Some(root) = ground(&rt, process::id(rt.process()), "swap") else {
        panic!(rt; "no place");
    };
    assert!(rt; swaps(&rt, root.as_str()));
}

/// Whether nothing is found to be mounted at a path of a small replica or above it.
fn finds_no_mount<R: Files + AllocGlobal>(rt: &R, root: &str) -> bool {
    let Some(place) = path(rt.alloc(), "/d/a") else {
        return false;
    };
    stops(rt, root, [true, false, false])
        && mount_above(rt, rt.alloc(), root, &place).is_ok_and(|found| found.is_none())
        && fs::remove_dir_all(rt, root).is_ok()
}

#[test]
fn nothing_is_mounted_in_a_folder(rt: HostRuntime) {
    let Some(root) = ground(&rt, process::id(rt.process()), "mount") else {
        panic!(rt; "no place");
    };
    assert!(rt; finds_no_mount(&rt, root.as_str()));
}

/// What comes of taking the lock, which is let go at once: whether there is a replica, or the fault.
fn taken<R: Files<File = File> + AllocGlobal>(rt: &R, root: &str) -> Result<bool, DiskFault> {
    match take_lock(rt, rt.alloc(), root) {
        Ok(lock) => Ok(lock.is_some()),
        Err(fault) => Err(fault),
    }
}

#[test]
fn one_run_at_a_time_has_the_lock(rt: HostRuntime) {
    let Some(root) = ground(&rt, process::id(rt.process()), "lock") else {
        panic!(rt; "no place");
    };
    let root = root.as_str();
    assert!(rt; fs::create_dir(&rt, root).is_ok());
    let Ok(Some(held)) = take_lock(&rt, rt.alloc(), root) else {
        panic!(rt; "no lock");
    };
    assert!(rt; taken(&rt, root) == Err(DiskFault::Locked));
    drop(held);
    assert!(rt; taken(&rt, root) == Ok(true));
    assert!(rt; fs::remove_dir_all(&rt, root).is_ok());
    assert!(rt; taken(&rt, root) == Ok(false));
}

#[test]
fn numbers_faults(rt: HostRuntime) {
    let cause = Cause::Full;
    for (fault, number) in [
        (DiskFault::OutOfMemory, 1),
        (DiskFault::Failed { cause }, 5),
        (DiskFault::Unread { cause }, 5),
        (DiskFault::Device { cause }, 8),
        (DiskFault::Locked, 8),
        (DiskFault::Own { cause }, 5),
        (DiskFault::Archives, 5),
    ] {
        assert!(rt; fault.number() == number, "{number}");
    }
}
