//! Lines, and the fields of a line.
use crate::shared::repeated;
use fixtures::{Drip, Tight, dripping, front, has_taken, sink_of};
use std::alloc::Global;
use ts_text::{
    Counted, Lines, Sink, Source, TextFault, field_dec, field_digest, push_decimal, push_digest,
    push_word, split_word, write_all, write_line,
};

/// The next line with a bar behind it, or a dot at the end, or a fault's number; and whether it was a line.
fn put_next<S: Source + Drop>(lines: &mut Lines<S>, out: &mut Vec<u8>) -> Option<bool> {
    match lines.next() {
        Ok(Some(line)) => {
            out.extend_from_slice(line).ok()?;
            out.push(b'|').ok()?;
            Some(true)
        }
        Ok(None) => {
            out.push(b'.').ok()?;
            Some(false)
        }
        Err(fault) => {
            push_decimal(out, u64::from(fault.number())).ok()?;
            Some(false)
        }
    }
}

/// All lines so, and then two answers at the end.
fn transcript<S: Source + Drop>(alloc: Global, source: S) -> Option<Vec<u8>> {
    let mut lines = Lines::new(alloc, source).ok()?;
    let mut out = Vec::new(alloc);
    for _ in 0..u32::MAX {
        if !put_next(&mut lines, &mut out)? {
            break;
        }
    }
    put_next(&mut lines, &mut out)?;
    Some(out)
}

fn reads_as<S: Source + Drop>(alloc: Global, source: S, want: &[u8]) -> bool {
    match transcript(alloc, source) {
        Some(got) => got.as_slice() == want,
        None => false,
    }
}

#[test]
fn gives_lines_in_any_pieces(rt: HostRuntime) {
    let cases: [(&[u8], &[u8]); 7] = [
        (b"", b".."),
        (b"\n", b"|.."),
        (b"a\nbc\n", b"a|bc|.."),
        (b"\n\r\n \n", b"|\r| |.."),
        (b"a", b"66"),
        (b"a\nb", b"a|66"),
        (b"a\n\n\r", b"a||66"),
    ];
    for (bytes, want) in cases {
        for step in [1, 2, 3, 100] {
            let source = Counted::new(dripping(bytes, step));
            assert!(rt; reads_as(rt.alloc(), source, want), "by {step}");
        }
        assert!(rt; reads_as(rt.alloc(), Counted::new(bytes), want));
    }
}

#[test]
fn stays_failed(rt: HostRuntime) {
    let cases: [(usize, &[u8]); 6] = [
        (0, b"ab|c|55"),
        (1, b"ab|55"),
        (2, b"ab|55"),
        (3, b"55"),
        (4, b"55"),
        (5, b"55"),
    ];
    for (left, want) in cases {
        let drip = Drip {
            left: b"ab\nc\n",
            step: 1,
            fails_at: Some(left),
        };
        assert!(rt; reads_as(rt.alloc(), Counted::new(drip), want), "{left}");
    }
}

/// A line of so many bytes, and a line of one.
fn long(alloc: Global, size: usize) -> Option<Vec<u8>> {
    let mut bytes = repeated(alloc, b"x", size)?;
    bytes.extend_from_slice(b"\ny\n").ok()?;
    Some(bytes)
}

/// Whether both lines are taken.
fn takes_both(alloc: Global, bytes: &[u8], step: usize, size: usize) -> bool {
    let Ok(mut lines) = Lines::new(alloc, Counted::new(dripping(bytes, step))) else {
        return false;
    };
    lines.advance() == Ok(true)
        && lines.line().len() == size
        && lines.advance() == Ok(true)
        && lines.line() == b"y".as_slice()
        && lines.advance() == Ok(false)
}

/// Whether the first is refused, at each call.
fn takes_none(alloc: Global, bytes: &[u8], step: usize) -> bool {
    let Ok(mut lines) = Lines::new(alloc, Counted::new(dripping(bytes, step))) else {
        return false;
    };
    lines.advance() == Err(TextFault::NotCanonical)
        && lines.advance() == Err(TextFault::NotCanonical)
}

/// Whether a line of the greatest size is taken, and one of a byte more is not.
fn keeps_to_the_limit(alloc: Global, step: usize) -> Option<bool> {
    let fits = takes_both(alloc, &long(alloc, 16_384)?, step, 16_384);
    Some(fits && takes_none(alloc, &long(alloc, 16_385)?, step))
}

#[test]
fn takes_no_line_past_the_limit(rt: HostRuntime) {
    for step in [1, 1_000, 20_000] {
        assert!(rt;
            keeps_to_the_limit(rt.alloc(), step) == Some(true),
            "by {step}"
        );
    }
}

/// Whether the line is written as far as there is room, and a fault told where that isn't all.
fn writes_into(alloc: Global, room: usize) -> bool {
    let mut sink = sink_of(alloc, 2, room);
    let result = write_line(&mut sink, b"abcde");
    let is_told = if room < 6 {
        result == Err(TextFault::Failed) && sink.failures == 1
    } else {
        result == Ok(()) && sink.failures == 0
    };
    is_told && has_taken(sink, front(b"abcde\n", room))
}

#[test]
fn writes_a_line_or_its_beginning(rt: HostRuntime) {
    for room in 0..7 {
        assert!(rt; writes_into(rt.alloc(), room), "room for {room}");
    }
}

/// Whether the source gives just these bytes at once, and has never failed.
fn gives(source: &mut Counted<Drip<'_>>, want: &[u8]) -> bool {
    let mut buffer = [0; 4];
    match source.read(&mut buffer) {
        Ok(count) => buffer.get(..count) == Some(want) && source.failures == 0,
        Err(_) => false,
    }
}

#[test]
fn a_source_gives_its_bytes(rt: HostRuntime) {
    let mut source = Counted::new(dripping(b"abc", 2));
    for want in [b"ab".as_slice(), b"c", b""] {
        assert!(rt; gives(&mut source, want), "{want:?}");
    }
}

/// Whether the sink takes so many of the bytes at once, and has never failed.
fn takes(sink: &mut Counted<Tight>, bytes: &[u8], want: usize) -> bool {
    match sink.write(bytes) {
        Ok(count) => count == want && sink.failures == 0,
        Err(_) => false,
    }
}

#[test]
fn a_sink_takes_bytes(rt: HostRuntime) {
    let mut sink = sink_of(rt.alloc(), 2, 3);
    assert!(rt; takes(&mut sink, b"abc", 2));
    assert!(rt; takes(&mut sink, b"c", 1));
    assert!(rt; has_taken(sink, b"abc"));
}

#[test]
fn writes_all_bytes(rt: HostRuntime) {
    let mut sink = sink_of(rt.alloc(), 2, 9);
    assert!(rt; write_all(&mut sink, b"ab\nc\0").is_ok());
    assert!(rt; has_taken(sink, b"ab\nc\0"));
}

#[test]
fn reads_numbers(rt: HostRuntime) {
    let cases: [(&[u8], Option<u64>); 14] = [
        (b"0", Some(0)),
        (b"7", Some(7)),
        (b"10", Some(10)),
        (b"18446744073709551615", Some(u64::MAX)),
        (b"18446744073709551616", None),
        (b"99999999999999999999", None),
        (b"", None),
        (b"00", None),
        (b"007", None),
        (b"+7", None),
        (b"-0", None),
        (b" 7", None),
        (b"7a", None),
        (b"\xd9\xa3", None),
    ];
    for (field, want) in cases {
        assert!(rt; field_dec(field) == want);
    }
}

/// The first bytes of the digest of this text, where it is written so too.
fn digest_begins(alloc: Global, text: &[u8]) -> Option<[u8; 5]> {
    let digest = field_digest(text)?;
    let mut again = Vec::new(alloc);
    push_digest(&mut again, &digest).ok()?;
    if again.as_slice() != text {
        return None;
    }
    let [a, b, c, d, e, ..] = digest;
    Some([a, b, c, d, e])
}

#[test]
fn reads_and_writes_digests(rt: HostRuntime) {
    let text = b"00ff10a2ca978112ca1bbdcafac231b39a23dc4da786eff8147c4e72b9807785";
    assert!(rt; digest_begins(rt.alloc(), text) == Some([0, 255, 16, 162, 202]));
    let upper = b"00FF10a2ca978112ca1bbdcafac231b39a23dc4da786eff8147c4e72b9807785";
    for bad in [upper.as_slice(), &text[..62], &text[..63], b""] {
        assert!(rt; field_digest(bad).is_none());
    }
}

/// Whether the line has this word and then this rest.
fn splits(line: &[u8], want: &[u8], want_rest: &[u8]) -> bool {
    match split_word(line) {
        (word, Some(rest)) => word == want && rest == want_rest,
        (_, None) => false,
    }
}

/// Words and a number, joined.
fn joined(alloc: Global) -> Option<Vec<u8>> {
    let mut line = Vec::from_slice(alloc, b"end").ok()?;
    push_word(&mut line, b"12").ok()?;
    push_word(&mut line, b"").ok()?;
    push_decimal(&mut line, 30).ok()?;
    Some(line)
}

fn is_joined(alloc: Global, want: &[u8]) -> bool {
    match joined(alloc) {
        Some(line) => line.as_slice() == want,
        None => false,
    }
}

#[test]
fn parts_and_joins_words(rt: HostRuntime) {
    assert!(rt; splits(b"end 12 3", b"end", b"12 3"));
    assert!(rt; splits(b"12 3", b"12", b"3"));
    let (only, none) = split_word(b"holds");
    assert!(rt; only == b"holds".as_slice());
    assert!(rt; none.is_none());
    assert!(rt; is_joined(rt.alloc(), b"end 12 30"));
}

#[test]
fn numbers_faults(rt: HostRuntime) {
    assert!(rt; TextFault::OutOfMemory.number() == 1);
    assert!(rt; TextFault::Failed.number() == 5);
    assert!(rt; TextFault::NotCanonical.number() == 6);
}
