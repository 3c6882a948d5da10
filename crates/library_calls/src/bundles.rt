//! Texts of bundles and results, whatever the source and the sink do.
use fixtures::{Drip, dripping, front, sink_of};
use std::alloc::Global;
use ts_bundle::{Bundle, BundleFault, BundleReader, count_skipped, decode, write_result};
use ts_text::{Counted, Lines};

/// Trees and an archive in which three entries were carried out.
const DONE: &[u8] = b"twosync-bundle 1
archive
d /d
f /d/x 1 ca978112ca1bbdcafac231b39a23dc4da786eff8147c4e72b9807785afee48bb
f /d/y 1 3e23e8160039594a33894f6564e1b1348bbd7a0088d42c4acb73eeaed59c009d
first
d /d
f /d/x 1
x 61
f /d/y 1
x 62
second
d /d
f /d/x 1
x 61
holds
name *.o
path /e
plan
twosync-plan 1
entry dir /d
entry first /d/x
entry held /e
mark 0
end 3 1
";

/// What is written of them.
const RESULT: &[u8] = b"first
d /d
f /d/x 1
x 61
f /d/y 1
x 62
second
d /d
f /d/x 1
x 61
archive
d /d
f /d/x 1 ca978112ca1bbdcafac231b39a23dc4da786eff8147c4e72b9807785afee48bb
f /d/y 1 3e23e8160039594a33894f6564e1b1348bbd7a0088d42c4acb73eeaed59c009d
report
done dir /d
done first /d/x
skip held /e
total 3 done 2 skipped 1 failed 0 blocked 0
";

fn read(alloc: Global, source: Drip<'_>) -> Result<Bundle, BundleFault> {
    let mut lines = Lines::new(alloc, Counted::new(source))?;
    decode(alloc, &mut lines)
}

/// The text as a source that doesn't fail.
fn whole(text: &[u8]) -> Drip<'_> {
    dripping(text, 1_000)
}

/// The number of the fault that the source is refused with, or 0.
fn number_of(alloc: Global, source: Drip<'_>) -> u8 {
    match read(alloc, source) {
        Ok(_) => 0,
        Err(fault) => fault.number(),
    }
}

/// How many paths the archive and the replicas have, how many hold rules there are, how many entries and actions the plan
/// has, and how many entries are skipped.
fn sizes(bundle: &Bundle) -> [usize; 7] {
    let entries = bundle.plan.entries.as_slice();
    [
        bundle.archive.rows().len(),
        bundle.first.rows().len(),
        bundle.second.rows().len(),
        bundle.holds.rules().len(),
        entries.len(),
        bundle.plan.actions.as_slice().len(),
        count_skipped(entries),
    ]
}

/// The number of the fault of writing the result into a sink, or 0, and what the sink then has.
fn result_in(alloc: Global, bundle: &Bundle, room: usize) -> (u8, Vec<u8>) {
    let mut sink = sink_of(alloc, 2, room);
    let written = write_result(
        alloc,
        bundle.first.rows(),
        bundle.second.rows(),
        bundle.archive.rows(),
        bundle.plan.entries.as_slice(),
        &mut sink,
    );
    let number = match written {
        Ok(()) => 0,
        Err(fault) => fault.number(),
    };
    (number, sink.into_inner().taken)
}

/// Whether the result is written as far as there is room for it, and a fault told where that isn't all.
fn writes_into(alloc: Global, bundle: &Bundle, room: usize) -> bool {
    let (number, taken) = result_in(alloc, bundle, room);
    let want = if room < RESULT.len() { 5 } else { 0 };
    number == want && taken.as_slice() == front(RESULT, room)
}

#[test]
fn reads_and_writes(rt: HostRuntime) {
    let alloc = rt.alloc();
    let Ok(bundle) = read(alloc, whole(DONE)) else {
        panic!(rt; "no bundle");
    };
    assert!(rt; sizes(&bundle) == [3, 3, 2, 2, 3, 1, 1]);
    for room in 0..RESULT.len() + 2 {
        assert!(rt; writes_into(alloc, &bundle, room), "room {room}");
    }
}

const BUNDLE: &[u8] =
    b"twosync-bundle 1\narchive\nd /a\nfirst\nsecond\nholds\nplan\ntwosync-plan 1\nend 0 0\n";

/// Texts that spell no bundle.
const OTHER_TEXTS: &[&[u8]] = &[
    b"",
    b"twosync-bundle 2\narchive\nfirst\nsecond\nholds\nplan\ntwosync-plan 1\nend 0 0\n",
    b"twosync-bundle 1\narchives\nfirst\nsecond\nholds\nplan\ntwosync-plan 1\nend 0 0\n",
    b"twosync-bundle 1\nfirst\narchive\nsecond\nholds\nplan\ntwosync-plan 1\nend 0 0\n",
    b"twosync-bundle 1\narchive\nsecond\nfirst\nholds\nplan\ntwosync-plan 1\nend 0 0\n",
    b"twosync-bundle 1\narchive\nfirst\nsecond\nplan\ntwosync-plan 1\nend 0 0\n",
    b"twosync-bundle 1\narchive\nfirst\nf /a 1\nsecond\nholds\nplan\ntwosync-plan 1\nend 0 0\n",
    b"twosync-bundle 1\narchive\nfirst\nsecond\nholds\npath /\nplan\ntwosync-plan 1\nend 0 0\n",
    b"twosync-bundle 1\narchive\nfirst\nsecond\nholds\nplan\ntwosync-plan 1\nend 0 0\n\n",
    b"twosync-bundle 1\narchive\nfirst\nsecond\nholds\nplan\ntwosync-plan 1\nend 0 0",
    b"twosync-bundle 1\narchive\nfirst\nsecond\nholds\nplan\ntwosync-plan 1\n",
];

#[test]
fn refuses_other_texts(rt: HostRuntime) {
    assert!(rt; number_of(rt.alloc(), whole(BUNDLE)) == 0);
    for text in OTHER_TEXTS {
        assert!(rt; number_of(rt.alloc(), whole(*text)) == 17, "{text:?}");
    }
}

#[test]
fn tells_that_the_source_failed(rt: HostRuntime) {
    for lost in 0..DONE.len() + 1 {
        let drip = Drip {
            left: DONE,
            step: 3,
            fails_at: Some(lost),
        };
        assert!(rt; number_of(rt.alloc(), drip) == 5, "{lost} bytes are lost");
    }
}

/// A bundle but for its plan, which has one entry more than it may have and no end.
fn past_a_limit(alloc: Global) -> Option<Vec<u8>> {
    let mut text = Vec::from_slice(
        alloc,
        b"twosync-bundle 1\narchive\nfirst\nsecond\nholds\nplan\ntwosync-plan 1\n",
    )
    .ok()?;
    for _ in 0..1_048_577 {
        text.extend_from_slice(b"entry dir /a\n").ok()?;
    }
    Some(text)
}

#[test]
fn a_plan_past_a_limit_is_no_part_of_a_bundle(rt: HostRuntime) {
    let Some(text) = past_a_limit(rt.alloc()) else {
        panic!(rt; "out of memory");
    };
    assert!(rt; number_of(rt.alloc(), whole(&text)) == 17);
}

/// The lines of a bundle whose first replica has a new file, which is held.
const LINES: &[&[u8]] = &[
    b"twosync-bundle 1",
    b"archive",
    b"first",
    b"f /a 1",
    b"x 61",
    b"second",
    b"holds",
    b"path /a",
    b"plan",
    b"twosync-plan 1",
    b"entry held /a",
    b"end 1 0",
];

/// The bundle of these lines.
fn bundle_of(alloc: Global, lines: &[&[u8]]) -> Option<Bundle> {
    let mut reader = BundleReader::new();
    for line in lines {
        reader = reader.line(alloc, *line).ok()?;
    }
    reader.finish().ok()
}

#[test]
fn takes_lines(rt: HostRuntime) {
    let Some(bundle) = bundle_of(rt.alloc(), LINES) else {
        panic!(rt; "no bundle");
    };
    assert!(rt; sizes(&bundle) == [0, 1, 0, 1, 1, 0, 1]);
}
