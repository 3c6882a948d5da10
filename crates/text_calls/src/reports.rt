//! Reports as texts.
use crate::shared::plan_of;
use fixtures::{Tight, failing_sink_of, front, has_taken, sink_of};
use std::alloc::Global;
use std::io::ErrorKind;
use ts_model::plan::Plan;
use ts_report::{Ending, Fate, ReportFault, Results, write, write_fates};
use ts_text::Counted;

/// Ends of actions that were told beforehand; those beyond them were not begun.
#[derive(Drop)]
struct Told<'a> {
    ends: &'a [Ending],
}

impl Results for Told<'_> {
    ghost use Rattle.std.specs.Prelude.{get_or};
    ghost use Rattle.ts_report.specs.declared.results.Ending.TheVariants.{Left};

    ghost count = { λ _. 4294967296 };

    ghost endings = { λ t i. get_or t.ends.now i Left };

    fn ending(&self, action: u32) -> Ending {
        self.ends
            .get(action as usize)
            .copied()
            .unwrap_or(Ending::Left)
    }
}

/// Writes the report of a plan: the fault's number, or 0, and the exit status, or 0.
fn written(alloc: Global, plan: &Plan, ends: &[Ending], sink: &mut Counted<Tight>) -> (u8, u8) {
    if plan.actions.as_slice().len() > 1_048_576 {
        return (0, 99);
    }
    match write(alloc, plan, &Told { ends }, sink) {
        Ok(totals) => (0, totals.status()),
        Err(fault) => (fault.number(), 0),
    }
}

/// The numbers of writing the report of a plan whose text is given, and what is then written, where the writer takes so many
/// bytes.
fn report(
    alloc: Global,
    text: &[u8],
    ends: &[Ending],
    room: usize,
) -> Option<((u8, u8), Counted<Tight>)> {
    let plan = plan_of(alloc, text)?;
    let mut sink = failing_sink_of(alloc, 2, room, ErrorKind::StorageFull);
    let numbers = written(alloc, &plan, ends, &mut sink);
    Some((numbers, sink))
}

/// Whether these are the numbers, and this the text, as far as there is room.
fn reports(
    alloc: Global,
    text: &[u8],
    ends: &[Ending],
    room: usize,
    numbers: (u8, u8),
    want: &[u8],
) -> bool {
    match report(alloc, text, ends, room) {
        Some((found, sink)) => found == numbers && has_taken(sink, front(want, room)),
        None => false,
    }
}

/// Two new files, each with its piece, its commit and its mark.
const TWO_FILES: &[u8] =
    b"twosync-plan 1\nentry first /a\nentry first /b\npiece 0 0 1 /a\ncommit 0\np 0\nmark 0\n\
p 1\npiece 1 0 1 /b\ncommit 1\np 3\nmark 1\np 4\nend 2 6\n";

/// A new directory with a file from either side, a conflict and a held path with a space.
const ALL_KINDS: &[u8] =
    b"twosync-plan 1\nentry conflict /c\nentry dir /d\nentry first /d/x\nentry second /d/y\n\
entry held /h%20\nentry same /s\nmark 1\npiece 2 0 1 /d/x\ncommit 2\np 1\nmark 2\np 0\np 2\npiece 3 0 1 /d/y\n\
commit 3\np 4\nmark 3\np 0\np 5\nmark 5\nend 6 8\n";

#[test]
fn tells_a_failed_commit(rt: HostRuntime) {
    let ends = [
        Ending::Done,
        Ending::Failed,
        Ending::Left,
        Ending::Done,
        Ending::Done,
        Ending::Done,
    ];
    let want = b"failed first /a\ndone first /b\ntotal 2 done 1 skipped 0 failed 1 blocked 0\n";
    assert!(rt; reports(rt.alloc(), TWO_FILES, &ends, 1_000, (0, 2), want));
}

#[test]
fn tells_blocked_and_skipped_entries(rt: HostRuntime) {
    // the mark of the directory wasn't begun, so neither was that of the file which was put there
    let ends = [
        Ending::Left,
        Ending::Done,
        Ending::Done,
        Ending::Left,
        Ending::Failed,
        Ending::Left,
        Ending::Left,
        Ending::Done,
    ];
    let want =
        b"skip conflict /c\nblocked dir /d\nblocked first /d/x\nfailed second /d/y\nskip held /h%20\n\
done same /s\ntotal 6 done 1 skipped 2 failed 1 blocked 2\n";
    assert!(rt; reports(rt.alloc(), ALL_KINDS, &ends, 1_000, (0, 2), want));
}

/// All of a report of which each action is done.
const ALL_DONE: &[u8] =
    b"skip conflict /c\ndone dir /d\ndone first /d/x\ndone second /d/y\nskip held /h%20\n\
done same /s\ntotal 6 done 4 skipped 2 failed 0 blocked 0\n";

const BOTH_DONE: &[u8] =
    b"done first /a\ndone first /b\ntotal 2 done 2 skipped 0 failed 0 blocked 0\n";

#[test]
fn answers_the_exit_status(rt: HostRuntime) {
    let alloc = rt.alloc();
    let done = [Ending::Done; 8];
    assert!(rt; reports(alloc, ALL_KINDS, &done, 1_000, (0, 1), ALL_DONE));
    assert!(rt; reports(alloc, TWO_FILES, &done, 1_000, (0, 0), BOTH_DONE));
    let none: &[u8] = b"twosync-plan 1\nend 0 0\n";
    let total = b"total 0 done 0 skipped 0 failed 0 blocked 0\n";
    assert!(rt; reports(alloc, none, &[], 1_000, (0, 0), total));
}

#[test]
fn writes_a_beginning_where_the_writer_fails(rt: HostRuntime) {
    for room in 0..BOTH_DONE.len() {
        assert!(rt;
            reports(
                rt.alloc(),
                TWO_FILES,
                &[Ending::Done; 6],
                room,
                (5, 0),
                BOTH_DONE
            )
        );
    }
}

/// Whether these fates of a plan's entries are written as this report, whose status is 2.
fn reports_fates(alloc: Global, text: &[u8], fates: &[Fate], want: &[u8]) -> bool {
    let Some(plan) = plan_of(alloc, text) else {
        return false;
    };
    let entries = plan.entries.as_slice();
    if fates.len() != entries.len() {
        return false;
    }
    let mut sink = sink_of(alloc, 2, 1_000);
    match write_fates(alloc, entries, fates, &mut sink) {
        Ok(totals) => totals.status() == 2 && has_taken(sink, want),
        Err(_) => false,
    }
}

#[test]
fn tells_fates(rt: HostRuntime) {
    let fates = [Fate::Failed, Fate::Blocked];
    let want = b"failed first /a\nblocked first /b\ntotal 2 done 0 skipped 0 failed 1 blocked 1\n";
    assert!(rt; reports_fates(rt.alloc(), TWO_FILES, &fates, want));
}

#[test]
fn numbers_faults(rt: HostRuntime) {
    assert!(rt; ReportFault::OutOfMemory.number() == 1);
    assert!(rt; ReportFault::Failed.number() == 5);
}
