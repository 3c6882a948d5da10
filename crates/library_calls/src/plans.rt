//! Why paths need attention, and what is done about it.
use fixtures::{path, print_of};
use std::alloc::Global;
use ts_dirty::detect;
use ts_hold::Holds;
use ts_model::plan::{Entry, Reason};
use ts_plan_build::build;
use ts_print::Print;
use ts_recon::reasons;

/// The reasons of an archive and two replicas.
fn reasons_of(
    alloc: Global,
    archive: &Print,
    first: &Print,
    second: &Print,
    holds: &Holds,
) -> Option<Vec<Entry>> {
    let marks = detect(alloc, archive, first, second, holds).ok()?;
    reasons(alloc, archive, first, second, &marks).ok()
}

/// How many paths need attention where nothing is.
fn reasons_of_nothing(alloc: Global) -> Option<usize> {
    let nothing = Print::empty(alloc);
    let entries = reasons_of(alloc, &nothing, &nothing, &nothing, &Holds::none(alloc))?;
    Some(entries.len())
}

#[test]
fn nothing_needs_attention(rt: HostRuntime) {
    assert!(rt; reasons_of_nothing(rt.alloc()) == Some(0));
}

const OLD: &[u8] = b"f /a 1 0707070707070707070707070707070707070707070707070707070707070707";

const NEW: &[u8] = b"f /a 1 0808080808080808080808080808080808080808080808080808080808080808";

/// The reasons where a held file has changed on the first side, and a directory beside it has not.
fn reasons_of_held(alloc: Global) -> Option<Vec<Entry>> {
    let archive = print_of(alloc, &[OLD, b"d /b"])?;
    let first = print_of(alloc, &[NEW, b"d /b"])?;
    let holds = Holds::parse(alloc, b"path /a\n").ok()?;
    reasons_of(alloc, &archive, &first, &archive, &holds)
}

/// Whether the one entry is of this path, and has this reason.
fn is_one_entry(alloc: Global, entries: &[Entry], text: &str, reason: Reason) -> Option<bool> {
    let [entry] = entries else {
        return None;
    };
    Some(entry.path == path(alloc, text)? && entry.reason == reason)
}

#[test]
fn a_reason_makes_an_entry(rt: HostRuntime) {
    let Some(entries) = reasons_of_held(rt.alloc()) else {
        panic!(rt; "no reasons");
    };
    assert!(rt; is_one_entry(rt.alloc(), &entries, "/a", Reason::Held) == Some(true));
}

/// How many entries and actions the plan of no entries has.
fn built_of_nothing(alloc: Global) -> Option<(usize, usize)> {
    let nothing = Print::empty(alloc);
    let plan = build(alloc, &nothing, &nothing, &nothing, Vec::new(alloc)).ok()?;
    Some((plan.entries.as_slice().len(), plan.actions.as_slice().len()))
}

#[test]
fn no_entries_need_no_actions(rt: HostRuntime) {
    assert!(rt; built_of_nothing(rt.alloc()) == Some((0, 0)));
}
