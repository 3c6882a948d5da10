//! Bundles answered, whatever the reader and the writer do.
use fixtures::{failing_sink_of, has_taken, source_of};
use std::io::ErrorKind;
use std::thread::Threads;
use ts_text::Lines;
use ts_trial::trial;

/// The first replica has a new file.
const NEW_FILE: &[u8] =
    b"twosync-bundle 1\narchive\nfirst\nf /a 1\nx 61\nsecond\nholds\nplan\ntwosync-plan 1\n\
entry first /a\npiece 0 0 1 /a\ncommit 0\np 0\nmark 0\np 1\nend 1 3\n";

const NEW_FILE_COPIED: &[u8] = b"first\nf /a 1\nx 61\nsecond\nf /a 1\nx 61\narchive\n\
f /a 1 ca978112ca1bbdcafac231b39a23dc4da786eff8147c4e72b9807785afee48bb\nreport\ndone first /a\n\
total 1 done 1 skipped 0 failed 0 blocked 0\n";

/// Both replicas have changed one file.
const BOTH_CHANGED: &[u8] = b"twosync-bundle 1\narchive\n\
f /a 1 ca978112ca1bbdcafac231b39a23dc4da786eff8147c4e72b9807785afee48bb\nfirst\nf /a 1\nx 62\nsecond\nf /a 1\n\
x 63\nholds\nplan\ntwosync-plan 1\nentry conflict /a\nend 1 0\n";

const BOTH_LEFT: &[u8] = b"first\nf /a 1\nx 62\nsecond\nf /a 1\nx 63\narchive\n\
f /a 1 ca978112ca1bbdcafac231b39a23dc4da786eff8147c4e72b9807785afee48bb\nreport\nskip conflict /a\n\
total 1 done 0 skipped 1 failed 0 blocked 0\n";

/// The plan leaves out what the first replica has new.
const LEFT_OUT: &[u8] =
    b"twosync-bundle 1\narchive\nfirst\nf /a 1\nx 61\nsecond\nholds\nplan\ntwosync-plan 1\nend 0 0\n";

/// More than one, so that they meet.
const WORKERS: u32 = 2;

/// Whether this is written, by a writer of that room, for a bundle that comes in pieces of `step` bytes and fails with
/// `fails_at` bytes left; with the status, or the fault's number and 100.
fn answers<R: AllocGlobal + Threads + Sync>(
    rt: &R,
    bundle: &[u8],
    step: usize,
    fails_at: Option<usize>,
    room: usize,
    want: &[u8],
    status: u8,
) -> bool {
    let alloc = rt.alloc();
    let Ok(mut reader) = Lines::new(alloc, source_of(bundle, step, fails_at)) else {
        return false;
    };
    let mut writer = failing_sink_of(alloc, step, room, ErrorKind::Other);
    let told = match trial(rt, alloc, &mut reader, &mut writer, WORKERS) {
        Ok(told) => told,
        Err(fault) => 100 + fault.number(),
    };
    has_taken(writer, want) && told == status
}

#[test]
fn answers_each_kind_of_bundle(rt: HostRuntime) {
    let cases: [(&[u8], &[u8], u8); 6] = [
        (NEW_FILE, NEW_FILE_COPIED, 0),
        (BOTH_CHANGED, BOTH_LEFT, 1),
        (LEFT_OUT, b"refused 4 0\n", 3),
        (b"", b"malformed\n", 3),
        (&NEW_FILE[..NEW_FILE.len() - 1], b"malformed\n", 3),
        (b"twosync-bundle 2\n", b"malformed\n", 3),
    ];
    for (bundle, want, status) in cases {
        for step in [1, 7, 100_000] {
            assert!(rt;
                answers(&rt, bundle, step, None, usize::MAX, want, status),
                "{want:?} by {step}"
            );
        }
    }
}

#[test]
fn nothing_is_written_where_the_reader_fails(rt: HostRuntime) {
    for bundle in [NEW_FILE, BOTH_CHANGED, LEFT_OUT] {
        for left in 0..=bundle.len() {
            assert!(rt;
                answers(&rt, bundle, 1, Some(left), usize::MAX, b"", 105),
                "{left} bytes are lost"
            );
        }
    }
}

#[test]
fn a_beginning_is_written_where_the_writer_fails(rt: HostRuntime) {
    let cases: [(&[u8], &[u8], u8); 4] = [
        (NEW_FILE, NEW_FILE_COPIED, 0),
        (BOTH_CHANGED, BOTH_LEFT, 1),
        (LEFT_OUT, b"refused 4 0\n", 3),
        (b"x", b"malformed\n", 3),
    ];
    for (bundle, want, status) in cases {
        for room in 0..want.len() {
            assert!(rt;
                answers(&rt, bundle, 3, None, room, &want[..room], 105),
                "room for {room}"
            );
        }
        assert!(rt;
            answers(&rt, bundle, 3, None, want.len(), want, status),
            "room for all"
        );
    }
}
