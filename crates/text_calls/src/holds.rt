//! Which paths hold rules name, and their text.
use crate::shared::{path, repeated};
use fixtures::{failing_sink_of, front, has_taken};
use std::alloc::Global;
use std::io::ErrorKind;
use ts_hold::{HoldFault, Holds, RuleReader};

/// The number of a fault, and its line where it has one.
fn told(fault: &HoldFault) -> (u8, u64) {
    match fault {
        HoldFault::OutOfMemory => (fault.number(), 0),
        HoldFault::BadRule { line } => (fault.number(), *line),
    }
}

/// What comes of the text of rules: 0 and how many they are, or the fault.
fn outcome(alloc: Global, text: &[u8]) -> (u8, u64) {
    match Holds::parse(alloc, text) {
        Ok(holds) => (0, holds.rules().len() as u64),
        Err(fault) => told(&fault),
    }
}

/// Whether rules name a path.
fn names(alloc: Global, rules: &[u8], text: &[u8]) -> Option<bool> {
    let holds = Holds::parse(alloc, rules).ok()?;
    let path = path(alloc, text)?;
    Some(holds.holds(&path))
}

/// Rules, a path, and whether they name it.
const NAMED: &[(&[u8], &[u8], bool)] = &[
    (b"name *.o\n", b"/n/x.o", true),
    (b"name *.o\n", b"/.o", true),
    (b"name *.o\n", b"/x.oo", false),
    (b"name *.o\n", b"/n.o/x", false),
    (b"name %2A\n", b"/*", true),
    (b"name %2A\n", b"/d/*", true),
    (b"name %2A\n", b"/ab", false),
    (b"name *\n", b"/a/b", true),
    (b"name *\n", b"", false),
    (b"name a\n", b"/a", true),
    (b"name a\n", b"/a/b", false),
    (b"name a*\n", b"/a", true),
    (b"name *b*d\n", b"/abcbcd", true),
    (b"name *b*d\n", b"/abcbcde", false),
    (b"name *ab\n", b"/aab", true),
    (b"name a*bc*c\n", b"/abcbc", true),
    (b"name a*bc*c\n", b"/abc", false),
    (b"name %20%25%7F\n", b"/%20%25%7F", true),
    (b"path /a\n", b"/a", true),
    (b"path /a\n", b"/a/b", false),
    (b"path /a%20b/c\n", b"/a%20b/c", true),
    (b"path /a\nname *.o\n", b"/x.o", true),
    (b"path /a\nname *.o\n", b"/b", false),
    (b"", b"/a", false),
    // found by bytes between stars
    (b"name *cache*\n", b"/a/mycaches", true),
    (b"name *cache*\n", b"/a/cach", false),
    (b"name *cache*\nname *cached*\nname *ca*\n", b"/xcax", true),
    (b"name *cache*\nname *cached*\n", b"/xcachx", false),
    (b"name a*b*z\nname a*b*z*\n", b"/abz_", true),
    (b"name *a_long_word*\n", b"/it_has_a_long_word", true),
    // bytes stand alone
    (b"name \xc3*\n", b"/\xc3\xa9", true),
];

/// The same, where a pattern goes back to an earlier star.
const GOING_BACK: &[(&[u8], &[u8], bool)] = &[
    (b"name *a*b\n", b"/ab", true),
    (b"name *a*b\n", b"/abab", true),
    (b"name *a*b\n", b"/bab", true),
    (b"name *a*b\n", b"/ba", false),
    (b"name *a*b\n", b"/abc", false),
    (b"name *a*b\n", b"/acbcb", true),
    (b"name *ab*ab\n", b"/abab", true),
    (b"name *ab*ab\n", b"/aab", false),
    (b"name *aab\n", b"/aaab", true),
    (b"name *aba*\n", b"/ababa", true),
    (b"name a*a\n", b"/a", false),
    (b"name a*a\n", b"/aa", true),
    (b"name *a*a*\n", b"/ba", false),
    (b"name *a*a*\n", b"/bacad", true),
];

#[test]
fn rules_name_paths(rt: HostRuntime) {
    for (rules, text, want) in NAMED {
        assert!(rt;
            names(rt.alloc(), *rules, *text) == Some(*want),
            "{rules:?}"
        );
    }
    for (rules, text, want) in GOING_BACK {
        assert!(rt;
            names(rt.alloc(), *rules, *text) == Some(*want),
            "{rules:?}"
        );
    }
}

/// Rules of each kind.
const EACH_KIND: &[u8] =
    b"path /d/a\npath /d/b/c\nname plain\nname %2A\nname *.tmp\nname *.tar.gz\nname core*\nname *cache*\n\
name a*z\nname img*.x\nname *\xa9\nname \xe2\x82*\n";

/// Paths, and whether one of the rules of each kind names them.
const AMONG_EACH_KIND: &[(&[u8], bool)] = &[
    (b"", false),
    (b"/d/a", true),
    (b"/e/a", false),
    (b"/d/b", false),
    (b"/d/b/c", true),
    (b"/d/plain", true),
    (b"/plains", false),
    (b"/*", true),
    (b"/.tmp", true),
    (b"/n.tmp", true),
    (b"/n.tmp/x", false),
    (b"/ntmp", false),
    (b"/n.tar.gz", true),
    (b"/tar.gz", false),
    (b"/core", true),
    (b"/core.1", true),
    (b"/score", false),
    (b"/xcachey", true),
    (b"/cach", false),
    (b"/az", true),
    (b"/abcz", true),
    (b"/abc", false),
    (b"/bz", false),
    (b"/img1.x", true),
    (b"/im.x", false),
    (b"/img1.y", false),
    (b"/x\xc3\xa9", true),
    (b"/\xc3\xa9x", false),
    (b"/\xe2\x82\xac", true),
    (b"/\xe2\x86\x92", false),
];

#[test]
fn rules_of_each_kind_are_found(rt: HostRuntime) {
    for (text, want) in AMONG_EACH_KIND {
        assert!(rt;
            names(rt.alloc(), EACH_KIND, *text) == Some(*want),
            "{text:?}"
        );
    }
}

/// A text before and a text behind so many times another.
fn around(
    alloc: Global,
    before: &[u8],
    text: &[u8],
    count: usize,
    behind: &[u8],
) -> Option<Vec<u8>> {
    let mut all = Vec::from_slice(alloc, before).ok()?;
    let middle = repeated(alloc, text, count)?;
    all.extend_from_slice(&middle).ok()?;
    all.extend_from_slice(behind).ok()?;
    Some(all)
}

/// Whether 127 stars, each with an `a` behind it, and this end name 255 letters `a`.
fn many_stars_name(alloc: Global, end: &[u8]) -> Option<bool> {
    let rules = around(alloc, b"name ", b"*a", 127, end)?;
    let text = around(alloc, b"/", b"a", 255, b"")?;
    names(alloc, &rules, &text)
}

/// Whether one of 4,096 rules with two stars names 255 letters `a`.
fn many_rules_name(alloc: Global) -> Option<bool> {
    let rules = repeated(alloc, b"name *aaaaaaaaaaaaaaaaaaaaaaaaaaaaaab*\n", 4096)?;
    let text = around(alloc, b"/", b"a", 255, b"")?;
    names(alloc, &rules, &text)
}

/// Whether the last one of 4,096 rules is found.
fn last_rule_names(alloc: Global, text: &[u8]) -> Option<bool> {
    let rules = around(alloc, b"", b"name *.o\n", 4095, b"path /d/a\n")?;
    names(alloc, &rules, text)
}

#[test]
fn the_last_rule_is_found(rt: HostRuntime) {
    assert!(rt; last_rule_names(rt.alloc(), b"/d/a") == Some(true));
    assert!(rt; last_rule_names(rt.alloc(), b"/d/b") == Some(false));
}

/// Trying every way to part the name among the stars would never end.
#[test]
fn many_stars_take_few_steps(rt: HostRuntime) {
    assert!(rt; many_stars_name(rt.alloc(), b"b\n") == Some(false));
    assert!(rt; many_stars_name(rt.alloc(), b"a\n") == Some(true));
    assert!(rt; many_stars_name(rt.alloc(), b"*\n") == Some(true));
    assert!(rt; many_rules_name(rt.alloc()) == Some(false));
}

/// What comes of a bad line between two good ones, and how many rules there are in the end.
fn taken_by_line(alloc: Global) -> Option<((u8, u64), usize)> {
    let mut reader = RuleReader::new(alloc);
    reader.line(b"path /a").ok()?;
    let told = match reader.line(b"path a") {
        Ok(()) => (0, 0),
        Err(fault) => told(&fault),
    };
    reader.line(b"name *").ok()?;
    Some((told, reader.finish().rules().len()))
}

/// How many rules a reader of no line has, and whether they name `/a`.
fn taken_of_nothing(alloc: Global) -> Option<(usize, bool)> {
    let none = RuleReader::new(alloc).finish();
    Some((none.rules().len(), none.holds(&path(alloc, b"/a")?)))
}

#[test]
fn rules_are_taken_line_by_line(rt: HostRuntime) {
    assert!(rt; taken_by_line(rt.alloc()) == Some(((11, 2), 2)));
    assert!(rt; taken_of_nothing(rt.alloc()) == Some((0, false)));
}

/// Texts of rules, and the first line that is bad.
const BAD: &[(&[u8], u64)] = &[
    (b"name **\n", 1),
    (b"name a/b\n", 1),
    (b"name a%2Fb\n", 1),
    (b"name a\0b\n", 1),
    (b"name %00\n", 1),
    (b"name %2a\n", 1),
    (b"name %41\n", 1),
    (b"name %4\n", 1),
    (b"name %\n", 1),
    (b"name a b\n", 1),
    (b"name a\r\n", 1),
    (b"name \n", 1),
    (b"name\n", 1),
    (b"names a\n", 1),
    (b" name a\n", 1),
    (b"path\n", 1),
    (b"path \n", 1),
    (b"path /\n", 1),
    (b"path a\n", 1),
    (b"path /%2A\n", 1),
    (b"path /a \n", 1),
    (b"path /..\n", 1),
    (b"\n", 1),
    (b"path /a", 1),
    (b"path /a\nname \n", 2),
    (b"path /a\nname a\nname **\nname **\n", 3),
];

#[test]
fn bad_lines_are_told(rt: HostRuntime) {
    for (text, line) in BAD {
        assert!(rt; outcome(rt.alloc(), *text) == (11, *line), "{text:?}");
    }
}

/// What comes of so many rules.
fn outcome_of_many(alloc: Global, count: usize) -> Option<(u8, u64)> {
    Some(outcome(alloc, &repeated(alloc, b"name a\n", count)?))
}

/// What comes of a rule of so many symbols.
fn outcome_of_long(alloc: Global, symbols: usize) -> Option<(u8, u64)> {
    Some(outcome(alloc, &around(alloc, b"name ", b"%20", symbols, b"\n")?))
}

#[test]
fn limits_are_kept(rt: HostRuntime) {
    assert!(rt; outcome_of_many(rt.alloc(), 4096) == Some((0, 4096)));
    assert!(rt; outcome_of_many(rt.alloc(), 4097) == Some((11, 4097)));
    assert!(rt; outcome_of_long(rt.alloc(), 255) == Some((0, 1)));
    assert!(rt; outcome_of_long(rt.alloc(), 256) == Some((11, 1)));
}

/// Whether the rules are written as far as there is room, and it is reported where that isn't all.
fn writes_into(alloc: Global, holds: &Holds, text: &[u8], room: usize) -> bool {
    let mut sink = failing_sink_of(alloc, 1, room, ErrorKind::WriteZero);
    let result = holds.encode(alloc, &mut sink);
    result.is_ok() == (room == text.len()) && has_taken(sink, front(text, room))
}

#[test]
fn rules_are_written(rt: HostRuntime) {
    let text = b"path /a%20b\nname *.o\nname %2A%2A\nname \xff*%25\nname *.o\n";
    let Ok(holds) = Holds::parse(rt.alloc(), text) else {
        panic!(rt; "no rules");
    };
    for room in 0..=text.len() {
        assert!(rt; writes_into(rt.alloc(), &holds, text, room), "at {room}");
    }
    assert!(rt; Holds::none(rt.alloc()).rules().len() == 0);
}
