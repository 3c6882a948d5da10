//! What no clause says: vectors from outside, and that each call succeeds with ample memory.
use crate::shared::{path, repeated};
use std::alloc::Global;
use ts_name::{Name, NameFault, Path, PathFault};

/// The number of the fault, or 0.
fn number_of(answer: Result<Path, PathFault>) -> u8 {
    match answer {
        Ok(_) => 0,
        Err(fault) => fault.number(),
    }
}

fn outcome(alloc: Global, text: &[u8]) -> u8 {
    number_of(Path::parse_text(alloc, text))
}

fn text_of(alloc: Global, path: &Path) -> Option<Vec<u8>> {
    let mut out = Vec::new(alloc);
    path.write_text(&mut out).ok()?;
    Some(out)
}

/// Texts, and the number of the fault, or 0.
const KINDS: &[(&[u8], u8)] = &[
    (b"", 0),
    (b"/a", 0),
    (b"/a%20b%25", 0),
    (b"/a/b/c", 0),
    (b"/.a", 0),
    (b"/...", 0),
    (b"/.twosync2", 0),
    (b"/\xc3\xa9", 0),
    (b"/%01%1F%20%7F", 0),
    (b"/", 2),
    (b"//a", 2),
    (b"/a/", 2),
    (b"/a//b", 2),
    (b"/.", 2),
    (b"/..", 2),
    (b"/a/..", 2),
    (b"/.twosync", 2),
    (b"/a/.twosync/b", 2),
    (b"/a\x00b", 2),
    (b"/\xff", 2),
    (b"/\xc3", 2),
    (b"/\xc0\xaf", 2),
    (b"/\xed\xa0\x80", 2),
    (b"/\xf4\x90\x80\x80", 2),
    (b"a", 3),
    (b"a/b", 3),
    (b"/a%2Fb", 3),
    (b"/a%2a", 3),
    (b"/a%2A", 3),
    (b"/%00", 3),
    (b"/%41", 3),
    (b"/%7f", 3),
    (b"/%80", 3),
    (b"/%2", 3),
    (b"/%", 3),
    (b"/a b", 3),
    (b"/a\n", 3),
    (b"//%zz", 3),
];

#[test]
fn texts_of_every_kind(rt: HostRuntime) {
    for (text, wanted) in KINDS {
        assert!(rt; outcome(rt.alloc(), *text) == *wanted);
    }
}

/// The text of `count` names of `size` times the letter `a`, with another text behind it.
fn repeated_names(alloc: Global, count: usize, size: usize, last: &[u8]) -> Option<Vec<u8>> {
    let mut name = repeated(alloc, b"a", size)?;
    name.insert(0, b'/').ok()?;
    let mut text = repeated(alloc, &name, count)?;
    text.extend_from_slice(last).ok()?;
    Some(text)
}

/// The outcome of that text.
fn outcome_of_names(alloc: Global, count: usize, size: usize, last: &[u8]) -> Option<u8> {
    Some(outcome(alloc, &repeated_names(alloc, count, size, last)?))
}

#[test]
fn limits_of_names_and_bytes(rt: HostRuntime) {
    let cases: [(usize, usize, &[u8], u8); 12] = [
        (64, 1, b"", 0),
        (65, 1, b"", 4),
        (1, 255, b"", 0),
        (1, 256, b"", 2),
        (65, 256, b"", 2),
        (64, 64, b"", 0),
        (17, 241, b"", 4),
        (16, 255, b"", 0),
        (17, 240, b"", 0),
        // 16 names of 255 bytes, and one of 16 or of 17 more
        (16, 255, b"/0123456789abcdef", 0),
        (16, 255, b"/0123456789abcdefg", 4),
        // one bad name among too many
        (64, 1, b"/..", 2),
    ];
    for (count, size, last, wanted) in cases {
        assert!(rt; outcome_of_names(rt.alloc(), count, size, last) == Some(wanted));
    }
}

/// The path of one name of these bytes.
fn child_of_root(alloc: Global, bytes: &[u8]) -> Option<Path> {
    let name = Name::parse(alloc, bytes).ok()?;
    Path::root(alloc).child(alloc, &name).ok()
}

fn reads_as(alloc: Global, text: &[u8], path: &Path) -> bool {
    match Path::parse_text(alloc, text) {
        Ok(again) => again == *path,
        Err(_) => false,
    }
}

/// The text of that path, where it reads as the path again.
fn spelled(alloc: Global, bytes: &[u8]) -> Option<Vec<u8>> {
    let path = child_of_root(alloc, bytes)?;
    let text = text_of(alloc, &path)?;
    if reads_as(alloc, &text, &path) {
        Some(text)
    } else {
        None
    }
}

fn is_spelled(alloc: Global, bytes: &[u8], want: &[u8]) -> bool {
    match spelled(alloc, bytes) {
        Some(text) => text.as_slice() == want,
        None => false,
    }
}

fn spelled_size(alloc: Global, byte: u8) -> Option<usize> {
    Some(spelled(alloc, &[byte])?.len())
}

#[test]
fn escaped_bytes_have_two_digits(rt: HostRuntime) {
    let escaped: [(&[u8], &[u8]); 10] = [
        (b"\x01", b"/%01"),
        (b"\x09", b"/%09"),
        (b"\x0a", b"/%0A"),
        (b"\x0f", b"/%0F"),
        (b"\x10", b"/%10"),
        (b"\x1f", b"/%1F"),
        (b"\x20", b"/%20"),
        (b"\x25", b"/%25"),
        (b"\x7f", b"/%7F"),
        (b"a b%", b"/a%20b%25"),
    ];
    for (bytes, text) in escaped {
        assert!(rt; is_spelled(rt.alloc(), bytes, text));
    }
    for byte in 1..128u8 {
        if byte == b'/' || byte == b'.' {
            continue;
        }
        let is_long = byte <= 32 || byte == b'%' || byte == 127;
        let size = if is_long { 4 } else { 2 };
        assert!(rt; spelled_size(rt.alloc(), byte) == Some(size), "{byte}");
    }
}

/// Whether the first path is less, and whether both are equal.
fn compared(alloc: Global, first: &[u8], second: &[u8]) -> Option<(bool, bool)> {
    let first = path(alloc, first)?;
    let second = path(alloc, second)?;
    Some((first < second, first == second))
}

/// The same of names.
fn names_compared(alloc: Global, first: &[u8], second: &[u8]) -> Option<(bool, bool)> {
    let first = Name::parse(alloc, first).ok()?;
    let second = Name::parse(alloc, second).ok()?;
    Some((first < second, first != second))
}

#[test]
fn paths_are_in_the_order_of_their_names(rt: HostRuntime) {
    let ascending: [&[u8]; 9] = [
        b"",
        b"/%20",
        b"/!",
        b"/a",
        b"/a/b",
        b"/a/b/c",
        b"/a.b",
        b"/ab",
        b"/\xc3\xa9",
    ];
    for i in 0..9_usize {
        for j in 0..9_usize {
            let found = compared(rt.alloc(), ascending[i], ascending[j]);
            assert!(rt; found == Some((i < j, i == j)), "{i} and {j}");
        }
    }
    assert!(rt; names_compared(rt.alloc(), b" ", b"!") == Some((true, true)));
}

/// What the root, `/a` and `/a/bc` tell.
fn tells_sizes(root: &Path, top: &Path, path: &Path) -> bool {
    path.depth() == 2 && path.size() == 3 && root.is_root() && !top.is_root()
}

/// What lies above `/a/bc`, and not above `/ab`.
fn tells_places(root: &Path, top: &Path, path: &Path, beside: &Path) -> bool {
    top.is_prefix(path)
        && !top.is_prefix(beside)
        && top.is_parent_of(path)
        && !root.is_parent_of(path)
        && path.has_parent_above(path)
        && !path.has_parent_above(beside)
}

fn tells(alloc: Global) -> Option<[bool; 2]> {
    let root = Path::root(alloc);
    let top = path(alloc, b"/a")?;
    let place = path(alloc, b"/a/bc")?;
    let beside = path(alloc, b"/ab")?;
    Some([
        tells_sizes(&root, &top, &place),
        tells_places(&root, &top, &place, &beside),
    ])
}

/// Whether the last name of a path is this.
fn ends_in(path: &Path, want: &[u8]) -> bool {
    match path.last() {
        Some(name) => name == want,
        None => false,
    }
}

#[test]
fn calls_without_memory(rt: HostRuntime) {
    assert!(rt; tells(rt.alloc()) == Some([true; 2]));
    match path(rt.alloc(), b"/a/bc") {
        Some(path) => assert!(rt; ends_in(&path, b"bc")),
        None => assert!(rt; false),
    }
    assert!(rt; Path::root(rt.alloc()).last().is_none());
}

fn has_copy(alloc: Global, path: &Path) -> bool {
    match path.copy(alloc) {
        Ok(copy) => copy == *path,
        Err(_) => false,
    }
}

fn has_parent(alloc: Global, path: &Path, top: &Path) -> bool {
    match path.parent(alloc) {
        Ok(Some(parent)) => parent == *top,
        _ => false,
    }
}

/// Whether the path is joined of the one above it and the rest, of this text.
fn is_joined(alloc: Global, path: &Path, top: &Path, want: &[u8]) -> Option<bool> {
    let rest = path.below(alloc, top).ok()??;
    let is_rest = text_of(alloc, &rest)?.as_slice() == want;
    Some(is_rest && top.join(alloc, &rest).ok()? == *path)
}

/// Whether the path is the child of this name.
fn is_child(alloc: Global, path: &Path, top: &Path, bytes: &[u8]) -> Option<bool> {
    let name = Name::parse(alloc, bytes).ok()?;
    Some(name.as_bytes() == bytes && top.child(alloc, &name).ok()? == *path)
}

fn made(alloc: Global) -> Option<[bool; 4]> {
    let top = path(alloc, b"/a")?;
    let place = path(alloc, b"/a/bc")?;
    Some([
        has_copy(alloc, &place),
        has_parent(alloc, &place, &top),
        is_joined(alloc, &place, &top, b"/bc")?,
        is_child(alloc, &place, &top, b"bc")?,
    ])
}

#[test]
fn calls_with_ample_memory(rt: HostRuntime) {
    assert!(rt; made(rt.alloc()) == Some([true; 4]));
}

/// The numbers of the faults of joining two paths of so many names of such sizes.
fn joined(alloc: Global, first: (usize, usize), second: (usize, usize)) -> Option<u8> {
    let first = path(alloc, &repeated_names(alloc, first.0, first.1, b"")?)?;
    let second = path(alloc, &repeated_names(alloc, second.0, second.1, b"")?)?;
    Some(number_of(first.join(alloc, &second)))
}

/// The number of the fault of going below a path of 64 names.
fn below_deep(alloc: Global) -> Option<u8> {
    let deep = path(alloc, &repeated_names(alloc, 64, 1, b"")?)?;
    let name = Name::parse(alloc, b"a").ok()?;
    Some(number_of(deep.child(alloc, &name)))
}

/// The number of the fault of a name, or 0.
fn number_of_name(alloc: Global, bytes: &[u8]) -> u8 {
    match Name::parse(alloc, bytes) {
        Ok(_) => 0,
        Err(fault) => fault.number(),
    }
}

#[test]
fn what_is_refused(rt: HostRuntime) {
    let alloc = rt.alloc();
    assert!(rt; below_deep(alloc) == Some(4));
    for (first, second) in [((64, 1), (1, 1)), ((1, 1), (64, 1)), ((64, 64), (1, 1))] {
        assert!(rt; joined(alloc, first, second) == Some(4));
    }
    let names: [&[u8]; 7] = [b"", b"/", b".", b"..", b".twosync", b"\x80", b"a\x00"];
    for bytes in names {
        assert!(rt; number_of_name(alloc, bytes) == 2);
    }
    assert!(rt; NameFault::OutOfMemory.number() == 1);
    assert!(rt; PathFault::OutOfMemory.number() == 1);
}

/// Roots, texts of paths, and the places of these below those.
const PLACES: &[(&str, &[u8], &str)] = &[
    ("", b"", ""),
    ("/home/a", b"", "/home/a"),
    ("/home/a", b"/b", "/home/a/b"),
    ("notes", b"/b%20c/d%25", "notes/b c/d%"),
    (".", b"/%01/\xc3\xa9", "./\u{1}/é"),
    ("%41", b"/%25zz", "%41/%zz"),
];

/// Whether the path of that text has this place below the root.
fn has_place(alloc: Global, root: &str, text: &[u8], place: &str) -> bool {
    match path(alloc, text) {
        Some(path) => match path.place_below(alloc, root) {
            Ok(spelled) => spelled.as_str() == place,
            Err(_) => false,
        },
        None => false,
    }
}

#[test]
fn places_have_the_names_as_they_are(rt: HostRuntime) {
    for (root, text, place) in PLACES {
        assert!(rt; has_place(rt.alloc(), *root, *text, *place));
    }
}
