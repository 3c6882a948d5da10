//! Texts of prints both ways, whatever the source and the sink do, and stamps.
use crate::shared::{BODY, TREE, print_of, spelled};
use fixtures::{Drip, front, has_taken, sink_of, source_of, tree_of};
use std::alloc::Global;
use ts_print::{Print, PrintFault, PrintReader, decode, encode, stamp_of, write_row};
use ts_text::{Counted, Lines, field_digest};

fn read(alloc: Global, source: Counted<Drip<'_>>) -> Result<Print, PrintFault> {
    let mut lines = Lines::new(alloc, source)?;
    decode(alloc, &mut lines)
}

/// The number of the fault that the text is refused with, where the last bytes may be lost; or 0.
fn number_of(alloc: Global, text: &[u8], step: usize, lost: Option<usize>) -> u8 {
    match read(alloc, source_of(text, step, lost)) {
        Ok(_) => 0,
        Err(fault) => fault.number(),
    }
}

/// Whether this is the print's text.
pub(crate) fn has_text(alloc: Global, print: &Print, text: &[u8]) -> bool {
    let mut sink = sink_of(alloc, 1_000, 1_000_000);
    encode(alloc, print, &mut sink).is_ok() && has_taken(sink, text)
}

/// Some bodies: none, one of each kind, the greatest size, a size with another's digest, and escaped names.
const BODIES: [&str; 4] = [
    "",
    BODY,
    "f /a 18446744073709551615 Z\nf /b 0 Z\n",
    "d /a%20b\nd /a%20b/%25\n",
];

/// Whether the text is read in steps of so many bytes, and written again as it was.
fn comes_back(alloc: Global, text: &[u8], step: usize) -> bool {
    match read(alloc, source_of(text, step, None)) {
        Ok(print) => has_text(alloc, &print, text),
        Err(_) => false,
    }
}

#[test]
fn reads_in_any_pieces_until_the_source_fails(rt: HostRuntime) {
    for body in BODIES {
        let Some(text) = spelled(rt.alloc(), body) else {
            panic!(rt; "no text of {body}");
        };
        for step in [1, 3, 1_000] {
            assert!(rt; comes_back(rt.alloc(), &text, step), "{body} by {step}");
        }
        for lost in 0..=text.len() {
            assert!(rt;
                number_of(rt.alloc(), &text, 7, Some(lost)) == 5,
                "{body}: {lost} bytes are lost"
            );
        }
    }
}

/// The number of the fault that the body is refused with, or 0.
fn number_of_body(alloc: Global, body: &str) -> Option<u8> {
    let bytes = spelled(alloc, body)?;
    Some(number_of(alloc, &bytes, 1_000, None))
}

#[test]
fn takes_paths_in_order_below_their_parents(rt: HostRuntime) {
    for (body, number) in [
        ("d /d\nf /d/x 0 E\nf /d.x 0 E\n", 0),
        ("d /d\nf /d.x 0 E\nf /d/x 0 E\n", 6),
        ("d /a\nd /a\n", 6),
        ("d /b\nd /a\n", 6),
        ("d /a/b\n", 6),
        ("f /a 0 E\nd /a/b\n", 6),
    ] {
        assert!(rt; number_of_body(rt.alloc(), body) == Some(number), "{body}");
    }
}

#[test]
fn refuses_other_spellings(rt: HostRuntime) {
    for body in [
        "d /a",
        "\n",
        "d \n",
        "d /\n",
        "d a\n",
        "d  /a\n",
        "d /a \n",
        "d /%61\n",
        "x 61\n",
        "f /a\n",
        "f /a 0\n",
        "f /a 00 E\n",
        "f /a 0 E0\n",
        "f /a 18446744073709551616 E\n",
    ] {
        assert!(rt; number_of_body(rt.alloc(), body) == Some(6), "{body}");
    }
}

#[test]
fn refuses_upper_case_digits(rt: HostRuntime) {
    let text = b"f /a 0 E3B0C44298FC1C149AFBF4C8996FB92427AE41E4649B934CA495991B7852B855\n";
    assert!(rt; number_of(rt.alloc(), text, 1_000, None) == 6);
}

/// Gives the reader lines, and answers the number of the fault of the first that it refuses, or 0.
fn lines_refused(alloc: Global, reader: &mut PrintReader, lines: &[&[u8]]) -> u8 {
    for line in lines {
        if let Err(fault) = reader.line(alloc, *line) {
            return fault.number();
        }
    }
    0
}

#[test]
fn begins_anew_after_a_refused_line(rt: HostRuntime) {
    let alloc = rt.alloc();
    let mut reader = PrintReader::new(alloc);
    assert!(rt; lines_refused(alloc, &mut reader, &[b"d /a", b"d /a/b", b"d /c/d"]) == 6);
    assert!(rt; lines_refused(alloc, &mut reader, &[b"d /b"]) == 0);
    assert!(rt;
        reader
            .finish()
            .is_ok_and(|print| has_text(alloc, &print, b"d /b\n"))
    );
}

/// Whether the print's text is written as far as there is room for it, and a fault told where that isn't all.
fn writes_into(alloc: Global, print: &Print, text: &[u8], step: usize, room: usize) -> bool {
    let mut sink = sink_of(alloc, step, room);
    let number = match encode(alloc, print, &mut sink) {
        Ok(()) => 0,
        Err(fault) => fault.number(),
    };
    let is_cut = room < text.len();
    let want = if is_cut { 5 } else { 0 };
    let is_told = number == want && (sink.failures != 0) == is_cut;
    has_taken(sink, front(text, room)) && is_told
}

#[test]
fn writes_a_beginning_where_the_sink_fails(rt: HostRuntime) {
    let alloc = rt.alloc();
    let Some(text) = spelled(alloc, BODY) else {
        panic!(rt; "no text");
    };
    let Some(print) = print_of(alloc, BODY) else {
        panic!(rt; "no print");
    };
    for room in 0..=text.len() {
        for step in [1, 1_000] {
            assert!(rt;
                writes_into(alloc, &print, &text, step, room),
                "room for {room}"
            );
        }
    }
}

/// Whether the print's rows, written one by one, are this text.
fn writes_rows_of(alloc: Global, print: &Print, text: &[u8]) -> bool {
    let mut line = Vec::new(alloc);
    let mut sink = sink_of(alloc, 7, 1_000);
    for row in print.rows() {
        if write_row(row, &mut line, &mut sink).is_err() {
            return false;
        }
    }
    has_taken(sink, text)
}

#[test]
fn writes_rows(rt: HostRuntime) {
    let alloc = rt.alloc();
    let (Some(print), Some(text)) = (print_of(alloc, BODY), spelled(alloc, BODY)) else {
        panic!(rt; "no print");
    };
    assert!(rt; writes_rows_of(alloc, &print, &text));
}

#[test]
fn prints_trees(rt: HostRuntime) {
    let alloc = rt.alloc();
    let (Some(tree), Some(text)) = (tree_of(alloc, TREE), spelled(alloc, BODY)) else {
        panic!(rt; "no tree");
    };
    assert!(rt; Print::of_tree(alloc, &tree).is_ok_and(|print| has_text(alloc, &print, &text)));
    assert!(rt;
        Print::of_rows(alloc, tree.rows()).is_ok_and(|print| has_text(alloc, &print, &text))
    );
}

#[test]
fn stamps_bytes(rt: HostRuntime) {
    let bytes = [b'a'; 65];
    for (size, digest) in [
        (
            0,
            "e3b0c44298fc1c149afbf4c8996fb92427ae41e4649b934ca495991b7852b855",
        ),
        (
            64,
            "ffe054fe7ae0cb6dc65c3af9b61d5209f439851db43d0ba5997337df154668eb",
        ),
        (
            65,
            "635361c48bb9eab14198e76ea8ab7f1a41685d6ad62aa9146d301d4f17eb0ae0",
        ),
    ] {
        let stamp = stamp_of(&bytes[..size]);
        assert!(rt; stamp.size == size as u64);
        assert!(rt;
            Some(stamp.digest) == field_digest(digest.as_bytes()),
            "{size} bytes"
        );
    }
}

#[test]
fn numbers_faults(rt: HostRuntime) {
    for (fault, number) in [
        (PrintFault::OutOfMemory, 1),
        (PrintFault::TooLong, 4),
        (PrintFault::Failed, 5),
        (PrintFault::NotCanonical, 6),
    ] {
        assert!(rt; fault.number() == number, "{number}");
    }
}
