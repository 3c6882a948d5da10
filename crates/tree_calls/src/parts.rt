//! Parts of the tree of `/a`, `/a/b` and `/a.b`: looked up, taken out and put in place.
use fixtures::{path, tree_of};
use std::alloc::Global;
use ts_model::row::Content;
use ts_name::Path;
use ts_table::Edit;
use ts_tree::{Frame, Node, SubTree, Tree, TreeReader};

const SMALL: &[u8] = b"d /a\nf /a/b 1\nx 31\nf /a.b 1\nx 32\n";

/// A letter for what is there: nothing, a directory, or a file by its first byte.
fn letter(node: Node<'_>) -> u8 {
    match node {
        Content::Absent => b'-',
        Content::Dir => b'd',
        Content::File(bytes) => bytes.first().map_or(b'0', |first| *first),
    }
}

/// Whether these letters tell what is at `/`, `/a`, `/a.b`, `/a/b`, `/a/b/c`, `/b` and `/b/c`.
fn has(alloc: Global, tree: &Tree, letters: &[u8; 7]) -> bool {
    let mut letters = letters.iter();
    for text in ["", "/a", "/a.b", "/a/b", "/a/b/c", "/b", "/b/c"] {
        let Some(place) = path(alloc, text) else {
            return false;
        };
        if letters.next() != Some(&letter(tree.get(&place))) {
            return false;
        }
    }
    true
}

/// Whether these letters tell what is at the root, `/b`, `/b/c` and `/c` of a part.
fn part_has(alloc: Global, part: &SubTree, letters: &[u8; 4]) -> bool {
    let mut letters = letters.iter();
    for text in ["", "/b", "/b/c", "/c"] {
        let Some(place) = path(alloc, text) else {
            return false;
        };
        if letters.next() != Some(&letter(part.get(&place))) {
            return false;
        }
    }
    true
}

#[test]
fn looks_up(rt: HostRuntime) {
    let alloc = rt.alloc();
    let Some(tree) = tree_of(alloc, SMALL) else {
        panic!(rt; "no tree");
    };
    let Ok(copy) = tree.copy(alloc) else {
        panic!(rt; "no copy");
    };
    assert!(rt; has(alloc, &tree, b"dd21---"));
    assert!(rt; has(alloc, &copy, b"dd21---"));
    assert!(rt; has(alloc, &Tree::empty(alloc), b"d------"));
}

/// Whether this is what the tree has at a path and below it: the part, its rows, and whether it may be replaced.
fn has_below(
    alloc: Global,
    tree: &Tree,
    place: &Path,
    letters: &[u8; 4],
    rows: usize,
    is_place: bool,
) -> bool {
    let Ok(part) = tree.sub_tree(alloc, place) else {
        return false;
    };
    part_has(alloc, &part, letters)
        && tree.sub(place).len() == rows
        && tree.is_place(place) == is_place
}

#[test]
fn looks_below(rt: HostRuntime) {
    let alloc = rt.alloc();
    let Some(tree) = tree_of(alloc, SMALL) else {
        panic!(rt; "no tree");
    };
    for (text, letters, rows, is_place) in [
        ("", b"d---", 3, false),
        ("/a", b"d1--", 2, true),
        ("/a.b", b"2---", 1, true),
        ("/a/b", b"1---", 1, true),
        ("/a/b/c", b"----", 0, false),
        ("/b", b"----", 0, true),
        ("/b/c", b"----", 0, false),
    ] {
        let Some(place) = path(alloc, text) else {
            panic!(rt; "no path {text}");
        };
        assert!(rt;
            has_below(alloc, &tree, &place, letters, rows, is_place),
            "{text}"
        );
    }
}

/// Whether the small tree's part at a path has so many rows, as a table.
fn has_table(alloc: Global, text: &str, rows: usize) -> bool {
    let Some(tree) = tree_of(alloc, SMALL) else {
        return false;
    };
    let Some(place) = path(alloc, text) else {
        return false;
    };
    tree.sub_table(alloc, &place)
        .is_ok_and(|part| part.rows().len() == rows)
}

#[test]
fn gives_tables(rt: HostRuntime) {
    for (text, rows) in [("", 4), ("/a", 2), ("/b", 0)] {
        assert!(rt; has_table(rt.alloc(), text, rows), "{text}");
    }
}

/// Whether a copy of the part is as these letters tell, with so many rows.
fn copy_has(alloc: Global, part: &SubTree, letters: &[u8; 4], rows: usize) -> bool {
    let Ok(copy) = part.copy(alloc) else {
        return false;
    };
    let again = SubTree::from_table(copy.into_table());
    part_has(alloc, &again, letters) && again.rows().len() == rows
}

/// A file of these bytes.
fn file_of(alloc: Global, bytes: &[u8]) -> Option<SubTree> {
    SubTree::file(alloc, Vec::from_slice(alloc, bytes).ok()?).ok()
}

#[test]
fn makes_parts(rt: HostRuntime) {
    let alloc = rt.alloc();
    assert!(rt; copy_has(alloc, &SubTree::absent(alloc), b"----", 0));
    assert!(rt; SubTree::dir(alloc).is_ok_and(|part| copy_has(alloc, &part, b"d---", 1)));
    for (bytes, letters) in [(b"7".as_slice(), b"7---"), (b"", b"0---")] {
        assert!(rt;
            file_of(alloc, bytes).is_some_and(|part| copy_has(alloc, &part, letters, 1)),
            "{bytes:?}"
        );
    }
}

/// Whether the small tree with a file of the byte `7` at a path is as these letters tell.
fn takes_file(alloc: Global, place: &Path, letters: &[u8; 7]) -> bool {
    let Some(mut tree) = tree_of(alloc, SMALL) else {
        return false;
    };
    let Some(part) = file_of(alloc, b"7") else {
        return false;
    };
    tree.is_place(place) && tree.replace(alloc, place, part).is_ok() && has(alloc, &tree, letters)
}

/// Whether the small tree with nothing at a path is as these letters tell.
fn loses(alloc: Global, path: Path, letters: &[u8; 7]) -> bool {
    let Some(mut tree) = tree_of(alloc, SMALL) else {
        return false;
    };
    if !tree.is_place(&path) {
        return false;
    }
    let part = SubTree::absent(alloc).into_table();
    let Ok(edits) = vec![in alloc; Edit { path, part }] else {
        return false;
    };
    tree.splice(alloc, edits).is_ok() && has(alloc, &tree, letters)
}

#[test]
fn replaces(rt: HostRuntime) {
    for (text, file, gone) in [
        ("/a", b"d72----", b"d-2----"),
        ("/a.b", b"dd71---", b"dd-1---"),
        ("/a/b", b"dd27---", b"dd2----"),
        ("/b", b"dd21-7-", b"dd21---"),
    ] {
        let Some(place) = path(rt.alloc(), text) else {
            panic!(rt; "no path {text}");
        };
        assert!(rt; takes_file(rt.alloc(), &place, file), "{text}");
        assert!(rt; loses(rt.alloc(), place, gone), "{text}");
    }
}

/// The paths of these texts.
fn paths(alloc: Global, texts: &[&str]) -> Option<Vec<Path>> {
    let mut paths = Vec::new(alloc);
    for text in texts {
        paths.push(path(alloc, *text)?).ok()?;
    }
    Some(paths)
}

/// The small tree, split at these paths.
fn split_small(alloc: Global, texts: &[&str]) -> Option<(Frame, Vec<SubTree>)> {
    let tree = tree_of(alloc, SMALL)?;
    let paths = paths(alloc, texts)?;
    if !tree.may_split(&paths) {
        return None;
    }
    tree.split(alloc, &paths).ok()
}

/// Whether the letters tell what the parts have at their own paths, and there are just so many parts.
fn tops_are(alloc: Global, parts: &[SubTree], letters: &[u8]) -> bool {
    let root = Path::root(alloc);
    let mut letters = letters.iter();
    for part in parts {
        if letters.next() != Some(&letter(part.get(&root))) {
            return false;
        }
    }
    letters.next().is_none()
}

/// Whether the small tree, split at these paths, gives such parts, and joined again it is as it was.
fn splits_and_joins_at(alloc: Global, texts: &[&str], letters: &[u8]) -> bool {
    let Some((frame, parts)) = split_small(alloc, texts) else {
        return false;
    };
    if parts.len() != frame.paths().len() || !tops_are(alloc, &parts, letters) {
        return false;
    }
    match Tree::join(alloc, frame, parts) {
        Ok(tree) => has(alloc, &tree, b"dd21---"),
        Err(_) => false,
    }
}

#[test]
fn splits_and_joins(rt: HostRuntime) {
    let cases: [(&[&str], &[u8]); 5] = [
        (&[], b""),
        (&["/a"], b"d"),
        (&["/a", "/a.b"], b"d2"),
        (&["/0", "/a/b", "/a/c", "/b"], b"-1--"),
        (&["/a/a", "/a.b", "/b"], b"-2-"),
    ];
    for (texts, letters) in cases {
        assert!(rt;
            splits_and_joins_at(rt.alloc(), texts, letters),
            "{texts:?}"
        );
    }
    for texts in [["/a", "/a/b"], ["/a.b", "/a"], ["/a", "/b/c"]] {
        assert!(rt; split_small(rt.alloc(), &texts).is_none(), "{texts:?}");
    }
}

/// The tree of one directory of 64 names and those above it, as a part.
fn deep(alloc: Global) -> Option<SubTree> {
    let mut reader = TreeReader::new(alloc);
    let mut line = Vec::from_slice(alloc, b"d ").ok()?;
    for _ in 0..64 {
        line.extend_from_slice(b"/d").ok()?;
        reader.line(alloc, &line).ok()?;
    }
    let tree = reader.finish().ok()?;
    tree.sub_tree(alloc, &Path::root(alloc)).ok()
}

/// A directory and a part that is too deep.
fn dir_and_deep(alloc: Global) -> Option<Vec<SubTree>> {
    let dir = SubTree::dir(alloc).ok()?;
    let deep = deep(alloc)?;
    vec![in alloc; dir, deep].ok()
}

/// Whether a directory and a part that is too deep, put at `/a.b` and `/b` of the small tree, come back with a fault.
fn gives_back(alloc: Global) -> bool {
    let Some((frame, _parts)) = split_small(alloc, &["/a.b", "/b"]) else {
        return false;
    };
    let Some(parts) = dir_and_deep(alloc) else {
        return false;
    };
    if parts.len() != frame.paths().len() {
        return false;
    }
    match Tree::join(alloc, frame, parts) {
        Ok(_) => false,
        Err((_frame, parts, fault)) => fault.number() == 4 && tops_are(alloc, &parts, b"dd"),
    }
}

#[test]
fn gives_back_what_is_too_long(rt: HostRuntime) {
    assert!(rt; gives_back(rt.alloc()));
}
