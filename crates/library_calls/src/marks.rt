//! What changed since the archive, and what is held.
use fixtures::{path, print_of};
use std::alloc::Global;
use ts_dirty::{Marks, detect};
use ts_hold::Holds;
use ts_model::plan::Side;
use ts_model::row::{Content, Stamp};
use ts_name::Path;
use ts_print::{Print, Triples, walk3};

const ONE: &[u8] = b"f /a 1 ca978112ca1bbdcafac231b39a23dc4da786eff8147c4e72b9807785afee48bb";

/// The letter, or `-` where it isn't so.
fn letter_if(is_so: bool, letter: u8) -> u8 {
    if is_so { letter } else { b'-' }
}

/// What the marks say of a path: `1` and `2` where it is changed on the first and the second side, `f` and `s` where it is
/// dirty there, `=` where both sides agree, and `h` where it touches what is held.
fn drawn(marks: &Marks, path: &Path) -> [u8; 6] {
    [
        letter_if(marks.changed(Side::First, path), b'1'),
        letter_if(marks.changed(Side::Second, path), b'2'),
        letter_if(marks.dirty(Side::First, path), b'f'),
        letter_if(marks.dirty(Side::Second, path), b's'),
        letter_if(marks.agree(path), b'='),
        letter_if(marks.touches_held(path), b'h'),
    ]
}

/// The marks of an archive and two replicas, of these lines.
fn marks_of(
    alloc: Global,
    archive: &[&[u8]],
    first: &[&[u8]],
    second: &[&[u8]],
    holds: &Holds,
) -> Option<Marks> {
    let archive = print_of(alloc, archive)?;
    let first = print_of(alloc, first)?;
    let second = print_of(alloc, second)?;
    detect(alloc, &archive, &first, &second, holds).ok()
}

/// What the marks say of a path.
fn drawn_at(alloc: Global, marks: &Option<Marks>, text: &str) -> Option<[u8; 6]> {
    match marks {
        Some(marks) => Some(drawn(marks, &path(alloc, text)?)),
        None => None,
    }
}

#[test]
fn nothing_is_marked_where_nothing_differs(rt: HostRuntime) {
    let alloc = rt.alloc();
    let marks = marks_of(alloc, &[], &[], &[], &Holds::none(alloc));
    for text in ["", "/a"] {
        assert!(rt; drawn_at(alloc, &marks, text) == Some(*b"----=-"), "{text}");
    }
}

#[test]
fn a_changed_path_is_dirty_on_its_side(rt: HostRuntime) {
    let alloc = rt.alloc();
    let marks = marks_of(
        alloc,
        &[ONE],
        &[b"d /d", b"d /d/e"],
        &[ONE],
        &Holds::none(alloc),
    );
    for text in ["", "/a", "/d", "/d/e"] {
        assert!(rt; drawn_at(alloc, &marks, text) == Some(*b"1-f---"), "{text}");
    }
    assert!(rt; drawn_at(alloc, &marks, "/d/e/f") == Some(*b"----=-"));
}

/// Marks where `/d/e` is held, which only the archive has, and `/nowhere`, where nothing is.
fn held_marks(alloc: Global) -> Option<Marks> {
    let holds = Holds::parse(alloc, b"path /d/e\npath /nowhere\n").ok()?;
    marks_of(alloc, &[b"d /d", b"d /d/e"], &[], &[], &holds)
}

#[test]
fn a_held_path_makes_dirty_what_is_above_and_below(rt: HostRuntime) {
    let alloc = rt.alloc();
    let marks = held_marks(alloc);
    for (text, letters) in [
        ("", b"12fs=h"),
        ("/d", b"12fs=h"),
        ("/d/e", b"12fs=h"),
        ("/d/e/f/g", b"--fs=h"),
        ("/d/f", b"----=-"),
        ("/nowhere", b"----=-"),
        ("/e", b"----=-"),
    ] {
        assert!(rt; drawn_at(alloc, &marks, text) == Some(*letters), "{text}");
    }
}

const SEVENS: &[u8] = b"f /a 1 0707070707070707070707070707070707070707070707070707070707070707";

const EIGHTS: &[u8] = b"f /a 1 0808080808080808080808080808080808080808080808080808080808080808";

const LONGER: &[u8] = b"f /a 2 0707070707070707070707070707070707070707070707070707070707070707";

/// What the marks say of `/a`, where the second replica is like the archive.
fn drawn_between(alloc: Global, archive: &Print, first: &Print) -> Option<[u8; 6]> {
    let marks = detect(alloc, archive, first, archive, &Holds::none(alloc)).ok();
    drawn_at(alloc, &marks, "/a")
}

/// The same, where the archive and the first replica have these lines.
fn differing(alloc: Global, archive: &[&[u8]], first: &[&[u8]]) -> Option<[u8; 6]> {
    let archive = print_of(alloc, archive)?;
    let first = print_of(alloc, first)?;
    drawn_between(alloc, &archive, &first)
}

/// Lines of the archive and of the first replica that differ.
const DIFFERENT: &[(&[&[u8]], &[&[u8]])] = &[
    (&[b"d /a"], &[]),
    (&[], &[b"d /a"]),
    (&[SEVENS], &[b"d /a"]),
    (&[SEVENS], &[LONGER]),
    (&[SEVENS], &[EIGHTS]),
];

#[test]
fn contents_differ_by_kind_size_or_digest(rt: HostRuntime) {
    for (archive, first) in DIFFERENT {
        assert!(rt;
            differing(rt.alloc(), *archive, *first) == Some(*b"1-f---"),
            "{archive:?} {first:?}"
        );
    }
    assert!(rt; differing(rt.alloc(), &[SEVENS], &[SEVENS]) == Some(*b"----=-"));
}

/// A letter for what is there: nothing, a directory or a file.
fn letter(content: &Content<Stamp>) -> u8 {
    match content {
        Content::Absent => b'-',
        Content::Dir => b'd',
        Content::File(_) => b'f',
    }
}

/// What is there at the walk's next path in the archive and the replicas, where that is the wanted path.
fn step(walk: &mut Triples<'_>, wanted: &Path) -> Option<[u8; 3]> {
    let seen = walk.next()?;
    if *seen.path != *wanted {
        return None;
    }
    Some([
        letter(&seen.archive),
        letter(&seen.first),
        letter(&seen.second),
    ])
}

/// What a walk sees at `/a`, `/a/b` and `/a!`, and whether it ends there.
fn walked(
    alloc: Global,
    archive: &Print,
    first: &Print,
    second: &Print,
) -> Option<([[u8; 3]; 3], bool)> {
    let mut walk = walk3(archive, first, second);
    let mut steps = [[0; 3]; 3];
    for (place, text) in steps.iter_mut().zip(["/a", "/a/b", "/a!"]) {
        *place = step(&mut walk, &path(alloc, text)?)?;
    }
    Some((steps, walk.next().is_none()))
}

/// Whether a walk passes two paths at this one or below it, and goes on behind them.
fn passes_below(archive: &Print, first: &Print, second: &Print, top: &Path) -> bool {
    let mut walk = walk3(archive, first, second);
    let passed = [
        walk.next_from(top).is_some(),
        walk.next_from(top).is_some(),
        walk.next_from(top).is_some(),
    ];
    match walk.next() {
        Some(next) => passed == [true, true, false] && !top.is_prefix(next.path),
        None => false,
    }
}

/// What a walk over prints of these lines sees.
fn walked_lines(alloc: Global) -> Option<([[u8; 3]; 3], bool)> {
    let archive = print_of(alloc, &[ONE])?;
    let first = print_of(alloc, &[b"d /a", b"d /a/b"])?;
    let second = print_of(alloc, &[b"d /a!"])?;
    walked(alloc, &archive, &first, &second)
}

/// Whether a walk over such prints passes just `/a` and `/a/b` so.
fn lines_pass_below(alloc: Global) -> Option<bool> {
    let archive = print_of(alloc, &[ONE])?;
    let first = print_of(alloc, &[b"d /a", b"d /a/b"])?;
    let second = print_of(alloc, &[b"d /a!"])?;
    let top = path(alloc, "/a")?;
    Some(passes_below(&archive, &first, &second, &top))
}

#[test]
fn a_walk_ends_behind_what_is_below(rt: HostRuntime) {
    assert!(rt; lines_pass_below(rt.alloc()) == Some(true));
}

#[test]
fn a_walk_gives_each_path_once(rt: HostRuntime) {
    let steps = [*b"fd-", *b"-d-", *b"--d"];
    assert!(rt; walked_lines(rt.alloc()) == Some((steps, true)));
}
