//! Prints looked up, compared and changed.
use crate::shared::{BODY, TREE, print_of};
use fixtures::{path, tree_of};
use std::alloc::Global;
use ts_model::row::{Content, Row};
use ts_name::Path;
use ts_print::{Print, Seen, Stamp, stamp_of};
use ts_table::{Edit, SubTable, Table};

/// A letter for what is at a path: nothing, a directory, or a file by its size, up to 9.
fn letter(seen: Seen) -> u8 {
    match seen {
        Content::Absent => b'-',
        Content::Dir => b'd',
        Content::File(stamp) => b'0' + stamp.size.min(9) as u8,
    }
}

/// Whether these letters tell what is at `/`, `/d`, `/d/e`, `/d/e/y`, `/d/x`, `/d.x` and `/z`.
fn has(alloc: Global, print: &Print, letters: &[u8; 7]) -> bool {
    let mut letters = letters.iter();
    for text in ["", "/d", "/d/e", "/d/e/y", "/d/x", "/d.x", "/z"] {
        let Some(place) = path(alloc, text) else {
            return false;
        };
        if letters.next() != Some(&letter(print.get(&place))) {
            return false;
        }
    }
    true
}

#[test]
fn looks_up(rt: HostRuntime) {
    let alloc = rt.alloc();
    assert!(rt; print_of(alloc, BODY).is_some_and(|print| has(alloc, &print, b"ddd210-")));
    assert!(rt; has(alloc, &Print::empty(alloc), b"d------"));
}

/// Whether the print has so many rows at a path and below it, and so many as a table, lent or not.
fn counts_below(alloc: Global, print: &Print, top: &Path, rows: usize, of_table: usize) -> bool {
    let lent = print.sub_print(top);
    print.sub(top).len() == rows
        && print
            .sub_table(alloc, top)
            .is_ok_and(|part| part.rows().len() == of_table)
        && lent.rows().len() == rows
        && lent
            .to_table(alloc)
            .is_ok_and(|part| part.rows().len() == of_table)
        && *lent.top() == *top
}

#[test]
fn looks_below_and_lends_parts(rt: HostRuntime) {
    let alloc = rt.alloc();
    let Some(print) = print_of(alloc, BODY) else {
        panic!(rt; "no print");
    };
    for (text, rows, of_table) in [
        ("", 5, 6),
        ("/d", 4, 4),
        ("/d/e", 2, 2),
        ("/d/e/y", 1, 1),
        ("/d.x", 1, 1),
        ("/z", 0, 0),
    ] {
        let Some(top) = path(alloc, text) else {
            panic!(rt; "no path {text}");
        };
        assert!(rt; counts_below(alloc, &print, &top, rows, of_table), "{text}");
    }
}

/// Whether the print's paths are these.
fn walks_along(alloc: Global, print: &Print, texts: &[&str]) -> bool {
    let mut texts = texts.iter();
    for place in print.walk() {
        let Some(text) = texts.next() else {
            return false;
        };
        if !path(alloc, *text).is_some_and(|want| *place == want) {
            return false;
        }
    }
    texts.next().is_none()
}

#[test]
fn walks(rt: HostRuntime) {
    let alloc = rt.alloc();
    let texts = ["/d", "/d/e", "/d/e/y", "/d/x", "/d.x"];
    assert!(rt; print_of(alloc, BODY).is_some_and(|print| walks_along(alloc, &print, &texts)));
}

/// A copy of the print with an empty directory at a path.
fn with_dir(alloc: Global, text: &str) -> Option<Print> {
    let Some(place) = path(alloc, text) else {
        return None;
    };
    let Some(print) = print_of(alloc, BODY) else {
        return None;
    };
    let Ok(mut print) = print.copy(alloc) else {
        return None;
    };
    if !print.is_place(&place) || print.make_dir(alloc, &place).is_err() {
        return None;
    }
    Some(print)
}

#[test]
fn empties_a_directory(rt: HostRuntime) {
    let alloc = rt.alloc();
    assert!(rt; with_dir(alloc, "/d").is_some_and(|print| has(alloc, &print, b"dd---0-")));
    assert!(rt; with_dir(alloc, "").is_none());
    assert!(rt; with_dir(alloc, "/d.x/y").is_none());
}

/// Whether two prints have the same at a path and below it.
fn are_same(alloc: Global, ours: &Print, theirs: &Print, text: &str) -> Option<bool> {
    Some(ours.sub_eq(theirs, &path(alloc, text)?))
}

#[test]
fn compares(rt: HostRuntime) {
    let alloc = rt.alloc();
    let (Some(print), Some(other)) = (print_of(alloc, BODY), with_dir(alloc, "/d.x")) else {
        panic!(rt; "no prints");
    };
    for (text, same) in [("", false), ("/d", true), ("/d.x", false), ("/z", true)] {
        assert!(rt;
            are_same(alloc, &print, &other, text) == Some(same),
            "{text}"
        );
    }
}

/// Puts something at the end, where it may come next.
fn push(alloc: Global, print: &mut Print, text: &str, content: Seen) -> Option<bool> {
    let path = path(alloc, text)?;
    if content == Content::Absent || !print.can_push(&path) {
        return Some(false);
    }
    print.push(Row { path, content }).ok()?;
    Some(true)
}

#[test]
fn grows_at_the_end(rt: HostRuntime) {
    let alloc = rt.alloc();
    let mut print = Print::empty(alloc);
    for (text, seen, may) in [
        ("/d", Content::Dir, true),
        ("/d/x", Content::File(stamp_of(b"a")), true),
        ("/d/e", Content::Dir, false),
        ("/d/x/y", Content::Dir, false),
        ("/e", Content::Absent, false),
        ("/e/x", Content::Dir, false),
        ("/d.x", Content::File(stamp_of(b"")), true),
        ("", Content::Dir, false),
    ] {
        assert!(rt; push(alloc, &mut print, text, seen) == Some(may), "{text}");
    }
    assert!(rt; has(alloc, &print, b"dd--10-"));
}

/// Whether a file, added to the print of an empty table, is in it.
fn adds(alloc: Global) -> bool {
    let mut print = Print::from_table(Table::new(alloc));
    let Some(path) = path(alloc, "/d.x") else {
        return false;
    };
    let stamp = Stamp {
        size: 7,
        digest: [0; 32],
    };
    print.is_place(&path)
        && print.add(path, Content::File(stamp)).is_ok()
        && has(alloc, &print, b"d----7-")
}

#[test]
fn adds_to_a_table(rt: HostRuntime) {
    assert!(rt; adds(rt.alloc()));
}

/// Whether the print with what it has at a path, put at `/d`, is as these letters tell.
fn replaces(alloc: Global, place: &Path, text: &str, letters: &[u8; 7]) -> bool {
    let Some(mut print) = print_of(alloc, BODY) else {
        return false;
    };
    let Some(other) = path(alloc, text) else {
        return false;
    };
    let Ok(part) = print.sub_table(alloc, &other) else {
        return false;
    };
    let Some(source) = print_of(alloc, BODY) else {
        return false;
    };
    let Ok(mut twin) = print.copy(alloc) else {
        return false;
    };
    print.is_place(place)
        && print.replace_with(alloc, place, part).is_ok()
        && has(alloc, &print, letters)
        && twin
            .replace(alloc, place, &source.sub_print(&other))
            .is_ok()
        && has(alloc, &twin, letters)
}

/// Whether the print with nothing at a path is as these letters tell.
fn loses(alloc: Global, path: Path, letters: &[u8; 7]) -> bool {
    let Some(mut print) = print_of(alloc, BODY) else {
        return false;
    };
    if !print.is_place(&path) {
        return false;
    }
    let part = SubTable::absent(alloc);
    let Ok(edits) = vec![in alloc; Edit { path, part }] else {
        return false;
    };
    print.splice(alloc, edits).is_ok() && has(alloc, &print, letters)
}

#[test]
fn puts_parts_in_place(rt: HostRuntime) {
    let alloc = rt.alloc();
    let Some(place) = path(alloc, "/d") else {
        panic!(rt; "no path");
    };
    for (text, letters) in [("/d.x", b"d0---0-"), ("/d", b"ddd210-"), ("/z", b"d----0-")] {
        assert!(rt; replaces(alloc, &place, text, letters), "{text}");
    }
    assert!(rt; loses(alloc, place, b"d----0-"));
}

/// Whether what the print has at a path is the print of what the tree has at another.
fn is_print_of(alloc: Global, text: &str, other: &str) -> Option<bool> {
    let top = path(alloc, text)?;
    let other = path(alloc, other)?;
    let content = tree_of(alloc, TREE)?.sub_table(alloc, &other).ok()?;
    let print = print_of(alloc, BODY)?;
    print
        .sub_print(&top)
        .is_print_of(alloc, content.rows())
        .ok()
}

#[test]
fn knows_the_tree_of_a_part(rt: HostRuntime) {
    for (text, other, same) in [
        ("", "", true),
        ("", "/d", false),
        ("/d", "", false),
        ("/d", "/d", true),
        ("/d/e/y", "/d/e/y", true),
        ("/d/e/y", "/d/x", false),
        ("/z", "/y", true),
        ("/z", "/d", false),
    ] {
        assert!(rt;
            is_print_of(rt.alloc(), text, other) == Some(same),
            "{text} {other}"
        );
    }
}
