//! The text of a plan, both ways.
ghost use Rattle.std.specs.Prelude.{IfOk};
ghost use Rattle.ts_model.specs.Texts.{IsPlan};

use crate::shared::{path, plan_of, repeated};
use fixtures::{Drip, dripping, front, has_taken, sink_of};
use std::alloc::Global;
use ts_model::items::Items;
use ts_model::packed::{KindRef, PackedAction};
use ts_model::plan::{Entry, Kind, Plan, Reason};
use ts_model::predecessors::Predecessors;
use ts_name::Path;
use ts_plan::{PlanFault, PlanLine, PlanReader, decode, encode, fits};
use ts_text::{Counted, Lines};

/// The plan for a directory that both replicas have new, with one file in each.
pub(crate) const NEW_DIRECTORY: &[u8] = b"twosync-plan 1
entry dir /d
entry first /d/x
entry second /d/y
mark 0
piece 1 0 1 /d/x
commit 1
p 1
mark 1
p 0
p 2
piece 2 0 1 /d/y
commit 2
p 4
mark 2
p 0
p 5
end 3 7
";

fn read(alloc: Global, source: Drip<'_>) -> Result<Plan, PlanFault>
    ensures { IfOk result (λ plan. IsPlan plan) }
{
    let mut lines = Lines::new(alloc, Counted::new(source))?;
    decode(alloc, &mut lines)
}

/// The number of the fault that the source is refused with, or 0.
fn number_of(alloc: Global, source: Drip<'_>) -> u8 {
    match read(alloc, source) {
        Ok(_) => 0,
        Err(fault) => fault.number(),
    }
}

/// Whether the plan is written as this text.
fn writes_as(alloc: Global, plan: &Plan, text: &[u8]) -> bool
    requires { IsPlan plan.now }
{
    let mut sink = Counted::new(Vec::new(alloc));
    encode(alloc, plan, &mut sink).is_ok() && sink.into_inner().as_slice() == text
}

/// 0 where the plan of the text is written as the same text, or the number of the fault that the text is refused with.
fn round(alloc: Global, text: &[u8]) -> Option<u8> {
    match read(alloc, dripping(text, 1_000)) {
        Ok(plan) => {
            if writes_as(alloc, &plan, text) {
                Some(0)
            } else {
                None
            }
        }
        Err(fault) => Some(fault.number()),
    }
}

#[test]
fn reads_and_writes_plans(rt: HostRuntime) {
    let texts: [&[u8]; 4] = [
        NEW_DIRECTORY,
        b"twosync-plan 1\nend 0 0\n",
        b"twosync-plan 1\nentry first /a\npiece 0 0 1 /a\ncommit 0\np 0\nmark 0\np 1\nend 1 3\n",
        b"twosync-plan 1\nentry same /a%20b\nentry second /c\nentry conflict /d\nentry held /e\nentry dir /f/g\npiece 4294967295 18446744073709551615 0 /f\np 4294967295\np 0\nend 5 1\n",
    ];
    for text in texts {
        assert!(rt; round(rt.alloc(), text) == Some(0), "{text:?}");
    }
}

/// Texts that spell no plan.
const OTHERS: &[&[u8]] = &[
    b"",
    b"twosync-plan 1\n",
    b"twosync-plan 2\nend 0 0\n",
    b"twosync-plan 1\nend 0 0",
    b"twosync-plan 1\nend 0 00\n",
    b"twosync-plan 1\nend 00 0\n",
    b"twosync-plan 1\nend 4294967296 0\n",
    b"twosync-plan 1\nend 0 18446744073709551616\n",
    b"twosync-plan 1\nend 0 1\n",
    b"twosync-plan 1\nend 1 0\n",
    b"twosync-plan 1\nend 0\n",
    b"twosync-plan 1\nend 0 0 \n",
    b"twosync-plan 1\nend  0 0\n",
    b"twosync-plan 1\nend 0 0\n\n",
    b"twosync-plan 1\nend 0 0\nend 0 0\n",
    b"twosync-plan 1\ntwosync-plan 1\nend 0 0\n",
    b"twosync-plan 1\nentry first /a\nend 1 0\nx",
    b"twosync-plan 1\nentry first a\nend 1 0\n",
    b"twosync-plan 1\nentry first \nend 1 0\n",
    b"twosync-plan 1\nentry last /a\nend 1 0\n",
    b"twosync-plan 1\nentry first /a /b\nend 1 0\n",
    b"twosync-plan 1\np 0\nend 0 0\n",
    b"twosync-plan 1\ncommit 0\nentry first /a\nend 1 1\n",
    b"twosync-plan 1\ncommit 00\nend 0 1\n",
    b"twosync-plan 1\ncommit 4294967296\nend 0 1\n",
    b"twosync-plan 1\nmark 0\np 4294967296\nend 0 1\n",
    b"twosync-plan 1\npiece 0 0 18446744073709551616 /a\nend 0 1\n",
    b"twosync-plan 1\npiece 0 0 /a\nend 0 1\n",
    b"twosync-plan 1\nmark\nend 0 1\n",
];

#[test]
fn refuses_other_texts(rt: HostRuntime) {
    for text in OTHERS {
        assert!(rt; round(rt.alloc(), *text) == Some(6), "{text:?}");
    }
}

/// A reader that has taken as many entries as a plan may have.
fn full_reader(alloc: Global) -> Option<PlanReader> {
    let mut reader = PlanReader::new(alloc);
    reader.line(b"twosync-plan 1").ok()?;
    for _ in 0..1_048_576 {
        reader.line(b"entry dir /a").ok()?;
    }
    Some(reader)
}

/// What it answers to a path that is none and to one entry more, and how many entries it has in the end.
fn full_answers(alloc: Global) -> Option<(bool, bool, usize)> {
    let mut reader = full_reader(alloc)?;
    let is_refused = reader.line(b"entry dir /a/") == Err(PlanFault::NotCanonical);
    let is_past = reader.line(b"entry dir /a") == Err(PlanFault::PastLimit);
    reader.line(b"end 1048576 0").ok()?;
    let plan = reader.finish().ok()?;
    Some((is_refused, is_past, plan.entries.as_slice().len()))
}

#[test]
fn stops_at_the_limit_of_entries(rt: HostRuntime) {
    assert!(rt; full_answers(rt.alloc()) == Some((true, true, 1_048_576)));
}

/// The number of the fault of a plan's header, a line, so many times another line, and what isn't looked at.
fn number_of_repeated(alloc: Global, front: &[u8], line: &[u8], times: usize) -> Option<u8> {
    let mut text = Vec::from_slice(alloc, b"twosync-plan 1\n").ok()?;
    text.extend_from_slice(front).ok()?;
    let lines = repeated(alloc, line, times)?;
    text.extend_from_slice(&lines).ok()?;
    text.extend_from_slice(b"no line of a plan").ok()?;
    Some(number_of(alloc, dripping(&text, usize::MAX)))
}

#[test]
fn tells_the_line_past_a_limit(rt: HostRuntime) {
    let cases: [(&[u8], &[u8], usize); 3] = [
        (b"", b"entry dir /a\n", 1_048_577),
        (b"", b"mark 0\n", 1_048_577),
        (b"mark 0\n", b"p 0\n", 4_194_305),
    ];
    for (front, line, past) in cases {
        assert!(rt; number_of_repeated(rt.alloc(), front, line, past) == Some(12));
    }
}

#[test]
fn what_is_cut_or_lost_is_told(rt: HostRuntime) {
    let text = NEW_DIRECTORY;
    for length in 0..text.len() {
        let cut = dripping(&text[..length], 1_000);
        assert!(rt; number_of(rt.alloc(), cut) == 6, "cut to {length}");
    }
    for step in [1, 1_000] {
        for lost in 0..=text.len() {
            let drip = Drip {
                left: text,
                step,
                fails_at: Some(lost),
            };
            assert!(rt; number_of(rt.alloc(), drip) == 5, "{lost} bytes are lost");
        }
        assert!(rt;
            number_of(rt.alloc(), dripping(text, step)) == 0,
            "by {step}"
        );
    }
}

/// What comes of the text with another byte at a place.
fn round_with(alloc: Global, place: usize, byte: u8) -> Option<u8> {
    let mut text = Vec::from_slice(alloc, NEW_DIRECTORY).ok()?;
    *text.get_mut(place)? = byte;
    round(alloc, &text)
}

#[test]
fn each_text_has_one_value(rt: HostRuntime) {
    let mut read_count = 0u64;
    for place in 0..NEW_DIRECTORY.len() {
        for byte in [b'0', b' ', b'\n'] {
            match round_with(rt.alloc(), place, byte) {
                Some(0) => read_count = read_count.saturating_add(1),
                Some(6 | 12) => {}
                _ => assert!(rt; false, "{place}"),
            }
        }
    }
    // As many as the grammar has, by another reading of it.
    assert!(rt; read_count == 76);
}

/// Whether the plan is written as far as there is room, and a fault told where that isn't all.
fn writes_into(alloc: Global, plan: &Plan, room: usize) -> bool
    requires { IsPlan plan.now }
{
    let mut sink = sink_of(alloc, 3, room);
    let written = encode(alloc, plan, &mut sink);
    let is_told = if room < NEW_DIRECTORY.len() {
        written == Err(PlanFault::Failed)
    } else {
        written == Ok(())
    };
    is_told && has_taken(sink, front(NEW_DIRECTORY, room))
}

#[test]
fn a_beginning_is_written_where_the_writer_fails(rt: HostRuntime) {
    let Some(plan) = plan_of(rt.alloc(), NEW_DIRECTORY) else {
        panic!(rt; "no plan");
    };
    for room in 0..=NEW_DIRECTORY.len() {
        assert!(rt; writes_into(rt.alloc(), &plan, room), "room for {room}");
    }
}

/// A plan that nobody read or built: one entry, and one action that waits for action 0 so many times.
fn made_plan(alloc: Global, path: Path, kind: Kind, pred_count: usize) -> Option<Plan> {
    let mut entries = Vec::new(alloc);
    let reason = Reason::First;
    entries.push(Entry { path, reason }).ok()?;
    let mut preds = Predecessors::none();
    for _ in 0..pred_count {
        preds.push(alloc, 0).ok()?;
    }
    let mut actions = Vec::new(alloc);
    actions
        .push(PackedAction::new(alloc, kind, preds).ok()?)
        .ok()?;
    Some(Plan {
        entries: Items::new(entries),
        actions: Items::new(actions),
    })
}

/// Such a plan whose action is a piece of this file.
fn piece_plan(alloc: Global, entry: &[u8], file: &[u8]) -> Option<Plan> {
    let kind = Kind::Piece {
        entry: 0,
        offset: 1,
        length: 2,
        path: path(alloc, file)?,
    };
    made_plan(alloc, path(alloc, entry)?, kind, 1)
}

/// Whether the plan fits, and then is written as this text.
fn fits_as(alloc: Global, plan: &Plan, text: &[u8]) -> bool {
    fits(plan) && writes_as(alloc, plan, text)
}

#[test]
fn plans_of_any_origin_are_written_where_they_fit(rt: HostRuntime) {
    let alloc = rt.alloc();
    let text = b"twosync-plan 1\nentry first /a\npiece 0 1 2 /a/b\np 0\nend 1 1\n";
    match piece_plan(alloc, b"/a", b"/a/b") {
        Some(plan) => assert!(rt; fits_as(alloc, &plan, text)),
        None => panic!(rt; "no plan"),
    }
    let at_the_root: [(&[u8], &[u8]); 2] = [(b"", b"/a/b"), (b"/a", b"")];
    for (entry, file) in at_the_root {
        match piece_plan(alloc, entry, file) {
            Some(plan) => assert!(rt; !fits(&plan), "{entry:?}"),
            None => panic!(rt; "no plan"),
        }
    }
}

/// Whether a plan with so many predecessors fits.
fn fits_with_preds(alloc: Global, pred_count: usize) -> Option<bool> {
    let plan = made_plan(
        alloc,
        path(alloc, b"/a")?,
        Kind::Mark { entry: 0 },
        pred_count,
    )?;
    Some(fits(&plan))
}

#[test]
fn plans_past_the_limit_of_predecessors_dont_fit(rt: HostRuntime) {
    assert!(rt; fits_with_preds(rt.alloc(), 4_194_304) == Some(true));
    assert!(rt; fits_with_preds(rt.alloc(), 4_194_305) == Some(false));
}

#[test]
fn reads_single_lines(rt: HostRuntime) {
    let alloc = rt.alloc();
    assert!(rt; matches!(PlanLine::read(alloc, b"end 3 7"), Ok(PlanLine::End(3, 7))));
    assert!(rt;
        matches!(
            PlanLine::read(alloc, b"p 4294967295"),
            Ok(PlanLine::Pred(4_294_967_295))
        )
    );
    assert!(rt;
        matches!(
            PlanLine::read(alloc, b"p 4294967296"),
            Err(PlanFault::NotCanonical)
        )
    );
}

/// Whether the one action is this piece.
fn has_one_piece(plan: &Plan) -> bool {
    match plan.actions.as_slice() {
        [action] => matches!(
            action.kind(),
            KindRef::Piece {
                entry: 1,
                offset: 2,
                length: 3,
                ..
            }
        ),
        _ => false,
    }
}

#[test]
fn keeps_what_a_piece_says(rt: HostRuntime) {
    match plan_of(rt.alloc(), b"twosync-plan 1\npiece 1 2 3 /a\nend 0 1\n") {
        Some(plan) => assert!(rt; has_one_piece(&plan)),
        None => assert!(rt; false),
    }
}

#[test]
fn numbers_faults(rt: HostRuntime) {
    assert!(rt; PlanFault::OutOfMemory.number() == 1);
    assert!(rt; PlanFault::Failed.number() == 5);
    assert!(rt; PlanFault::NotCanonical.number() == 6);
    assert!(rt; PlanFault::PastLimit.number() == 12);
}
