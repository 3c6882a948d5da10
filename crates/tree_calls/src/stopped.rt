//! Whether a run was stopped in both replicas, by their plan files, in folders of each test's own.
use crate::disks::{ground, makes, writes};
use std::{fs, process};
use ts_disk::{remove_plan, stopped_alike};

/// A plan, another one, and a text that is none.
const PLAN: &str = "twosync-plan 1\nentry conflict /c\nentry first /d/a\nend 2 0\n";

const OTHER: &str = "twosync-plan 1\nentry conflict /c\nentry second /d/a\nend 2 0\n";

const BEGUN: &str = "twosync-plan 1\nentry conflict /c\n";

/// The plan files of two replicas, where they have one, and whether a run was stopped in both.
const CASES: [(Option<&str>, Option<&str>, bool); 10] = [
    (None, None, false),
    (Some(PLAN), Some(PLAN), true),
    (Some(OTHER), Some(OTHER), true),
    (Some(PLAN), Some(OTHER), false),
    (Some(PLAN), None, false),
    (None, Some(PLAN), false),
    (Some(""), Some(""), false),
    (Some(PLAN), Some(""), false),
    (Some(BEGUN), Some(BEGUN), false),
    (Some(BEGUN), Some(PLAN), false),
];

/// Makes a replica with this plan file, if it is to have one.
fn has_plan(files: &HostRuntime, top: &str, replica: &str, plan: Option<&str>) -> Option<bool> {
    let own = format!(in files.alloc(); "{replica}/.twosync").ok()?;
    let place = format!(in files.alloc(); "{own}/plan").ok()?;
    let is_made = makes(files, top, replica) && makes(files, top, own.as_str());
    Some(match plan {
        Some(plan) => is_made && writes(files, top, place.as_str(), plan),
        None => is_made,
    })
}

/// What is answered of two replicas with these plan files, and after the first one's was removed.
fn answers(
    files: &HostRuntime,
    top: &str,
    first: Option<&str>,
    second: Option<&str>,
) -> Option<(bool, bool)> {
    let alloc = files.alloc();
    let one = format!(in alloc; "{top}/one").ok()?;
    let other = format!(in alloc; "{top}/other").ok()?;
    if !makes(files, top, "")
        || !has_plan(files, top, "one", first)?
        || !has_plan(files, top, "other", second)?
    {
        return None;
    }
    let alike = stopped_alike(files, alloc, one.as_str(), other.as_str()).ok()?;
    remove_plan(files, alloc, one.as_str()).ok()?;
    let later = stopped_alike(files, alloc, one.as_str(), other.as_str()).ok()?;
    fs::remove_dir_all(files, top).ok()?;
    Some((alike, later))
}

#[test]
fn a_run_was_stopped_in_both_by_one_plan(rt: HostRuntime) {
    let Some(top) = ground(&rt, process::id(rt.process()), "alike") else {
        panic!(rt; "no place");
    };
    for (first, second, want) in CASES {
        let answer = answers(&rt, top.as_str(), first, second);
        assert!(rt; answer == Some((want, false)), "{first:?} {second:?}");
    }
}
