//! The text of an archive, both ways.
use fixtures::{Drip, dripping, front, has_taken, print_of, sink_of};
use std::alloc::Global;
use ts_archive::{ArchiveFault, decode, encode};
use ts_name::Path;
use ts_print::Print;
use ts_text::{Counted, Lines};

/// The archive of a replica with nothing in it.
const EMPTY: &[u8] = b"twosync-archive 1
end 0 4730c05e9c4377ee889aa83d15f5db26cdc5e5b3297de56e4426af28cbc3ef02
";

/// The archive of a replica with one file, whose only byte is an `a`.
const ONE: &[u8] = b"twosync-archive 1
f /a 1 ca978112ca1bbdcafac231b39a23dc4da786eff8147c4e72b9807785afee48bb
end 1 29724455c81111a80176a71e9f37580455150b06baa2f3915adeb8b9f0a9d138
";

/// An archive with a directory, and with a file of the greatest size.
const LARGE: &[u8] = b"twosync-archive 1
d /a
f /a/b 0 e3b0c44298fc1c149afbf4c8996fb92427ae41e4649b934ca495991b7852b855
f /c 18446744073709551615 0000000000000000000000000000000000000000000000000000000000000000
end 3 bd8bf70aa15bd10aa5d4636ccc64f3d908ffb76020ec3728734ee34785c42767
";

fn read(alloc: Global, source: Drip<'_>) -> Result<Print, ArchiveFault> {
    let mut lines = Lines::new(alloc, Counted::new(source))?;
    decode(alloc, &mut lines)
}

/// The number of the fault that the source is refused with, or 0.
fn number_of(alloc: Global, source: Drip<'_>) -> u8 {
    match read(alloc, source) {
        Ok(_) => 0,
        Err(fault) => fault.number(),
    }
}

/// The archives, with the lines between the first and the last.
const ARCHIVES: &[(&[&[u8]], &[u8])] = &[
    (&[], EMPTY),
    (
        &[b"f /a 1 ca978112ca1bbdcafac231b39a23dc4da786eff8147c4e72b9807785afee48bb"],
        ONE,
    ),
    (
        &[
            b"d /a",
            b"f /a/b 0 e3b0c44298fc1c149afbf4c8996fb92427ae41e4649b934ca495991b7852b855",
            b"f /c 18446744073709551615 0000000000000000000000000000000000000000000000000000000000000000",
        ],
        LARGE,
    ),
];

/// Whether the archive is written as far as there is room, and a fault told where that isn't all.
fn writes_into(alloc: Global, print: &Print, text: &[u8], step: usize, room: usize) -> bool {
    let mut sink = sink_of(alloc, step, room);
    let written = encode(alloc, print, &mut sink);
    let is_told = if room < text.len() {
        written == Err(ArchiveFault::Failed) && sink.failures != 0
    } else {
        written == Ok(()) && sink.failures == 0
    };
    is_told && has_taken(sink, front(text, room))
}

/// How much room makes a difference, if any does.
fn first_miswritten(alloc: Global, print: &Print, text: &[u8], step: usize) -> Option<usize> {
    for room in 0..text.len() {
        if !writes_into(alloc, print, text, step, room) {
            return Some(room);
        }
    }
    if writes_into(alloc, print, text, step, text.len()) {
        None
    } else {
        Some(text.len())
    }
}

/// Whether the text reads as the print of so many rows.
fn reads_as(alloc: Global, text: &[u8], step: usize, print: &Print, rows: usize) -> bool {
    match read(alloc, dripping(text, step)) {
        Ok(again) => again.rows().len() == rows && again.sub_eq(print, &Path::root(alloc)),
        Err(_) => false,
    }
}

/// Whether the print of these lines is written as the text and read from it.
fn is_archive(alloc: Global, lines: &[&[u8]], text: &[u8], step: usize) -> bool {
    match print_of(alloc, lines) {
        Some(print) => {
            first_miswritten(alloc, &print, text, step).is_none()
                && reads_as(alloc, text, step, &print, lines.len())
        }
        None => false,
    }
}

#[test]
fn archives_are_written_and_read(rt: HostRuntime) {
    assert!(rt; EMPTY.len() == 89);
    assert!(rt; ONE.len() == 161);
    for (lines, text) in ARCHIVES {
        for step in [1, 7, 1_000] {
            assert!(rt; is_archive(rt.alloc(), *lines, *text, step), "by {step}");
        }
    }
}

#[test]
fn what_is_cut_or_lost_is_told(rt: HostRuntime) {
    for (_, text) in ARCHIVES {
        for length in 0..text.len() {
            let cut = dripping(&text[..length], 1_000);
            assert!(rt; number_of(rt.alloc(), cut) == 6, "cut to {length}");
        }
        for step in [1, 1_000] {
            for lost in 0..=text.len() {
                let drip = Drip {
                    left: text,
                    step,
                    fails_at: Some(lost),
                };
                assert!(rt; number_of(rt.alloc(), drip) == 5, "{lost} bytes are lost");
            }
        }
    }
}

/// Texts that are refused, and the number of the fault.
const OTHERS: &[(&[u8], u8)] = &[
    // the file has another size
    (
        b"twosync-archive 1\nf /a 2 ca978112ca1bbdcafac231b39a23dc4da786eff8147c4e72b9807785afee48bb\nend 1 29724455c81111a80176a71e9f37580455150b06baa2f3915adeb8b9f0a9d138\n",
        7,
    ),
    // the file has another digest
    (
        b"twosync-archive 1\nf /a 1 da978112ca1bbdcafac231b39a23dc4da786eff8147c4e72b9807785afee48bb\nend 1 29724455c81111a80176a71e9f37580455150b06baa2f3915adeb8b9f0a9d138\n",
        7,
    ),
    // one line more is counted
    (
        b"twosync-archive 1\nf /a 1 ca978112ca1bbdcafac231b39a23dc4da786eff8147c4e72b9807785afee48bb\nend 2 29724455c81111a80176a71e9f37580455150b06baa2f3915adeb8b9f0a9d138\n",
        7,
    ),
    // 2^64 - 1 lines are counted
    (
        b"twosync-archive 1\nf /a 1 ca978112ca1bbdcafac231b39a23dc4da786eff8147c4e72b9807785afee48bb\nend 18446744073709551615 29724455c81111a80176a71e9f37580455150b06baa2f3915adeb8b9f0a9d138\n",
        7,
    ),
    // 2^64 lines are counted
    (
        b"twosync-archive 1\nf /a 1 ca978112ca1bbdcafac231b39a23dc4da786eff8147c4e72b9807785afee48bb\nend 18446744073709551616 29724455c81111a80176a71e9f37580455150b06baa2f3915adeb8b9f0a9d138\n",
        6,
    ),
    // a needless zero
    (
        b"twosync-archive 1\nf /a 1 ca978112ca1bbdcafac231b39a23dc4da786eff8147c4e72b9807785afee48bb\nend 01 29724455c81111a80176a71e9f37580455150b06baa2f3915adeb8b9f0a9d138\n",
        6,
    ),
    // the digest of other bytes
    (
        b"twosync-archive 1\nend 0 29724455c81111a80176a71e9f37580455150b06baa2f3915adeb8b9f0a9d138\n",
        7,
    ),
    // an upper-case digit
    (
        b"twosync-archive 1\nend 0 4730c05e9c4377ee889aa83d15f5db26cdc5e5b3297de56e4426af28cbc3efF2\n",
        6,
    ),
    // a short digest
    (
        b"twosync-archive 1\nend 0 4730c05e9c4377ee889aa83d15f5db26cdc5e5b3297de56e4426af28cbc3ef\n",
        6,
    ),
    // a byte behind the end
    (
        b"twosync-archive 1\nend 0 4730c05e9c4377ee889aa83d15f5db26cdc5e5b3297de56e4426af28cbc3ef02\n\n",
        6,
    ),
    // a wrong end line, and a byte behind it
    (
        b"twosync-archive 1\nend 1 4730c05e9c4377ee889aa83d15f5db26cdc5e5b3297de56e4426af28cbc3ef02\nx",
        6,
    ),
    // two end lines
    (
        b"twosync-archive 1\nend 0 4730c05e9c4377ee889aa83d15f5db26cdc5e5b3297de56e4426af28cbc3ef02\nend 0 4730c05e9c4377ee889aa83d15f5db26cdc5e5b3297de56e4426af28cbc3ef02\n",
        6,
    ),
    // descending paths
    (
        b"twosync-archive 1\nf /b 1 ca978112ca1bbdcafac231b39a23dc4da786eff8147c4e72b9807785afee48bb\n\
f /a 1 ca978112ca1bbdcafac231b39a23dc4da786eff8147c4e72b9807785afee48bb\n\
end 2 62b33044f770782f48751557a217f4f6e7f6d4942e5c821b37baab1bf195da86\n",
        6,
    ),
    // an upper-case stamp
    (
        b"twosync-archive 1\nf /a 1 CA978112CA1BBDCAFAC231B39A23DC4DA786EFF8147C4E72B9807785AFEE48BB\nend 1 c2bca9ab90c72f7f8fa2a65f3b698c7d6ff093b45e422a2e4eb37d1b8e332a26\n",
        6,
    ),
    // another version
    (
        b"twosync-archive 2\nend 0 4730c05e9c4377ee889aa83d15f5db26cdc5e5b3297de56e4426af28cbc3ef02\n",
        6,
    ),
];

#[test]
fn other_texts_are_refused(rt: HostRuntime) {
    for (text, want) in OTHERS {
        assert!(rt;
            number_of(rt.alloc(), dripping(*text, 1_000)) == *want,
            "{text:?}"
        );
    }
}

#[test]
fn a_failure_behind_a_wrong_end_line_is_told(rt: HostRuntime) {
    let text: &[u8] =
        b"twosync-archive 1\nend 1 4730c05e9c4377ee889aa83d15f5db26cdc5e5b3297de56e4426af28cbc3ef02\n";
    assert!(rt; number_of(rt.alloc(), dripping(text, 1_000)) == 7);
    let drip = Drip {
        left: text,
        step: 1,
        fails_at: Some(0),
    };
    assert!(rt; number_of(rt.alloc(), drip) == 5);
}

#[test]
fn faults_are_numbered(rt: HostRuntime) {
    assert!(rt; ArchiveFault::OutOfMemory.number() == 1);
    assert!(rt; ArchiveFault::Failed.number() == 5);
    assert!(rt; ArchiveFault::NotCanonical.number() == 6);
    assert!(rt; ArchiveFault::WrongEnd.number() == 7);
}
