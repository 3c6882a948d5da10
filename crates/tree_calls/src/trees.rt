//! Texts of trees both ways, whatever the source and the sink do.
use fixtures::{Drip, front, has_taken, path, sink_of, source_of, tree_of};
use std::alloc::Global;
use ts_name::Path;
use ts_text::{Counted, Lines};
use ts_tree::data::read_hex;
use ts_tree::encoding::write_dir;
use ts_tree::field::{after, field_path};
use ts_tree::{Tree, TreeFault, TreeReader, decode, encode, write_row};

/// Texts of trees, among them files of 0, 1, 64, 65 and 128 bytes.
const TEXTS: [&[u8]; 9] = [
    b"",
    b"d /a\n",
    b"f /a 0\n",
    b"f /a 1\nx 61\n",
    b"d /a\nd /a/b\nf /a/b/c 2\nx 0aff\nf /a.b 0\nd /z\n",
    b"d /%20\nf /%20/%25 1\nx 00\n",
    b"f /a 64\nx 000102030405060708090a0b0c0d0e0f101112131415161718191a1b1c1d1e1f202122232425262728292a2b2c2d2e2f303132333435363738393a3b3c3d3e3f\n",
    b"f /a 65\nx 000102030405060708090a0b0c0d0e0f101112131415161718191a1b1c1d1e1f202122232425262728292a2b2c2d2e2f303132333435363738393a3b3c3d3e3f\nx 40\n",
    b"f /a 128\n\
x 000102030405060708090a0b0c0d0e0f101112131415161718191a1b1c1d1e1f202122232425262728292a2b2c2d2e2f303132333435363738393a3b3c3d3e3f\n\
x 000102030405060708090a0b0c0d0e0f101112131415161718191a1b1c1d1e1f202122232425262728292a2b2c2d2e2f303132333435363738393a3b3c3d3e3f\n",
];

/// Texts that spell no tree.
const OTHER_TEXTS: [&[u8]; 31] = [
    b"\n",
    b"d /a",
    b"d /a\n\n",
    b"d /a\r\n",
    b"d /a \n",
    b"d  /a\n",
    b"D /a\n",
    b"d \n",
    b"d /\n",
    b"d a\n",
    b"d /a/b\n",
    b"d /a\nd /a\n",
    b"d /b\nd /a\n",
    b"d /a.b\nd /a\nd /a/b\n",
    b"f /a 0\nd /a/b\n",
    b"d /%61\n",
    b"d /.twosync\n",
    b"f /a\n",
    b"f /a 00\n",
    b"f /a +1\nx 61\n",
    b"f /a 1\n",
    b"f /a 1\nx 6A\n",
    b"f /a 1\nx 616\n",
    b"f /a 1\nx 6161\n",
    b"f /a 0\nx \n",
    b"f /a 2\nx 61\nx 61\n",
    b"x 61\n",
    b"f /a 63\nx 000102030405060708090a0b0c0d0e0f101112131415161718191a1b1c1d1e1f202122232425262728292a2b2c2d2e2f303132333435363738393a3b3c3d3e3f\n",
    b"f /a 65\nx 000102030405060708090a0b0c0d0e0f101112131415161718191a1b1c1d1e1f202122232425262728292a2b2c2d2e2f303132333435363738393a3b3c3d3e3f\n",
    b"f /a 65\nx 40\nx 000102030405060708090a0b0c0d0e0f101112131415161718191a1b1c1d1e1f202122232425262728292a2b2c2d2e2f303132333435363738393a3b3c3d3e3f\n",
    b"f /a 64\nx 000102030405060708090a0b0c0d0e0f101112131415161718191a1b1c1d1e1f202122232425262728292a2b2c2d2e2f303132333435363738393a3b3c3d3e\nx 3f\n",
];

fn read(alloc: Global, source: Counted<Drip<'_>>) -> Result<Tree, TreeFault> {
    let mut lines = Lines::new(alloc, source)?;
    decode(alloc, &mut lines)
}

/// The number of the fault that the source is refused with, or 0.
fn number_of(alloc: Global, source: Counted<Drip<'_>>) -> u8 {
    match read(alloc, source) {
        Ok(_) => 0,
        Err(fault) => fault.number(),
    }
}

/// Whether this is the tree's text.
pub(crate) fn has_text(alloc: Global, tree: &Tree, text: &[u8]) -> bool {
    let mut sink = sink_of(alloc, 1_000, 1_000_000);
    encode(alloc, tree, &mut sink).is_ok() && has_taken(sink, text)
}

/// Whether the text is read in steps of so many bytes, and written again as it was.
fn comes_back(alloc: Global, text: &[u8], step: usize) -> bool {
    match read(alloc, source_of(text, step, None)) {
        Ok(tree) => has_text(alloc, &tree, text),
        Err(_) => false,
    }
}

#[test]
fn reads_and_writes_texts(rt: HostRuntime) {
    for text in TEXTS {
        for step in [1, 7, 1_000] {
            assert!(rt; comes_back(rt.alloc(), text, step), "{text:?} by {step}");
        }
    }
}

/// The number of the fault that the text is refused with where the last bytes are lost.
fn number_without(alloc: Global, text: &[u8], step: usize, lost: usize) -> u8 {
    number_of(alloc, source_of(text, step, Some(lost)))
}

/// Whether the tree's text is written as far as there is room for it, and a fault told where that isn't all.
fn writes_into(alloc: Global, tree: &Tree, text: &[u8], step: usize, room: usize) -> bool {
    let mut sink = sink_of(alloc, step, room);
    let number = match encode(alloc, tree, &mut sink) {
        Ok(()) => 0,
        Err(fault) => fault.number(),
    };
    let is_cut = room < text.len();
    let want = if is_cut { 5 } else { 0 };
    let is_told = number == want && (sink.failures != 0) == is_cut;
    has_taken(sink, front(text, room)) && is_told
}

#[test]
fn tells_a_failing_source_and_sink(rt: HostRuntime) {
    let alloc = rt.alloc();
    for text in TEXTS {
        let Some(tree) = tree_of(alloc, text) else {
            panic!(rt; "no tree of {text:?}");
        };
        for at in 0..=text.len() {
            for step in [1, 1_000] {
                assert!(rt;
                    number_without(alloc, text, step, at) == 5,
                    "{text:?}: {at} bytes are lost"
                );
                assert!(rt;
                    writes_into(alloc, &tree, text, step, at),
                    "{text:?} in {at}"
                );
            }
        }
    }
}

#[test]
fn refuses_other_texts(rt: HostRuntime) {
    for text in OTHER_TEXTS {
        for step in [1, 1_000] {
            assert!(rt;
                number_of(rt.alloc(), source_of(text, step, None)) == 6,
                "{text:?}"
            );
        }
    }
}

/// Gives the reader lines, and answers the number of the fault of the first that it refuses, or 0.
fn lines_refused(alloc: Global, reader: &mut TreeReader, lines: &[&[u8]]) -> u8 {
    for line in lines {
        if let Err(fault) = reader.line(alloc, *line) {
            return fault.number();
        }
    }
    0
}

#[test]
fn begins_anew_after_a_refused_line(rt: HostRuntime) {
    let alloc = rt.alloc();
    let mut reader = TreeReader::new(alloc);
    assert!(rt; lines_refused(alloc, &mut reader, &[b"d /a", b"f /a/b 65", b"x 40"]) == 6);
    assert!(rt; lines_refused(alloc, &mut reader, &[b"d /b", b"f /b/c 1", b"x 07"]) == 0);
    let text = b"d /b\nf /b/c 1\nx 07\n";
    assert!(rt;
        reader
            .finish()
            .is_ok_and(|tree| has_text(alloc, &tree, text))
    );
}

#[test]
fn refuses_an_unfinished_file(rt: HostRuntime) {
    let alloc = rt.alloc();
    let mut reader = TreeReader::new(alloc);
    assert!(rt; lines_refused(alloc, &mut reader, &[b"f /b 1"]) == 0);
    assert!(rt; reader.finish().is_err_and(|fault| fault.number() == 6));
}

#[test]
fn reads_fields(rt: HostRuntime) {
    assert!(rt; after(b"d /a", b'd').is_some_and(|rest| rest == b"/a".as_slice()));
    assert!(rt; after(b"d /a", b'f').is_none());
    assert!(rt; after(b"d", b'd').is_none());
    for (field, is_path) in [(b"/a/b".as_slice(), true), (b"", false), (b"/a//b", false)] {
        assert!(rt;
            field_path(rt.alloc(), field).is_ok() == is_path,
            "{field:?}"
        );
    }
}

#[test]
fn reads_digits(rt: HostRuntime) {
    let mut data = [0u8; 3];
    assert!(rt; read_hex(b"0aff61", &mut data));
    assert!(rt; data == [10, 255, 97]);
    assert!(rt; !read_hex(b"0aff6", &mut data));
    assert!(rt; !read_hex(b"0AFF61", &mut data));
}

/// Whether the tree's rows, written one by one with a directory behind them, are this text.
fn writes_rows_of(alloc: Global, tree: &Tree, last: &Path, text: &[u8]) -> bool {
    let mut line = Vec::new(alloc);
    let mut sink = sink_of(alloc, 1, 1_000);
    for row in tree.rows() {
        if write_row(row, &mut line, &mut sink).is_err() {
            return false;
        }
    }
    write_dir(last, &mut line, &mut sink).is_ok() && has_taken(sink, text)
}

#[test]
fn writes_rows(rt: HostRuntime) {
    let alloc = rt.alloc();
    let Some(tree) = tree_of(alloc, b"d /a\nf /b 2\nx 0aff\n") else {
        panic!(rt; "no tree");
    };
    let Some(last) = path(alloc, "/c/%25") else {
        panic!(rt; "no path");
    };
    let text = b"d /a\nf /b 2\nx 0aff\nd /c/%25\n".as_slice();
    assert!(rt; writes_rows_of(alloc, &tree, &last, text));
}

#[test]
fn numbers_faults(rt: HostRuntime) {
    for (fault, number) in [
        (TreeFault::OutOfMemory, 1),
        (TreeFault::TooLong, 4),
        (TreeFault::Failed, 5),
        (TreeFault::NotCanonical, 6),
    ] {
        assert!(rt; fault.number() == number, "{number}");
    }
}
