//! Paths, and names, that share one buffer.
use fixtures::path;
use std::alloc::Global;
use ts_model::row::{Content, Row, Stamp};
use ts_name::{Name, Packing, Path};
use ts_print::Print;
use ts_table::{PACKED_ROWS, Table, pack_paths};

/// The path of a directory with this number, so that paths of greater numbers come later.
fn numbered(alloc: Global, number: usize) -> Option<Path> {
    let text = format!(in alloc; "/d{}", number.saturating_add(1000)).ok()?;
    path(alloc, &text)
}

/// The row of that directory.
fn row(alloc: Global, number: usize) -> Option<Row<Stamp>> {
    Some(Row {
        path: numbered(alloc, number)?,
        content: Content::Dir,
    })
}

/// Puts the directory of this number at the end of a table, where it may come next.
fn add(alloc: Global, table: &mut Table<u8>, number: usize) -> Option<()> {
    let path = numbered(alloc, number)?;
    if !table.may_push(&path) {
        return None;
    }
    let content = Content::Dir;
    table.push(Row { path, content }).ok()?;
    table.pack_last(alloc).ok()
}

/// The same of a print.
fn add_to_print(alloc: Global, print: &mut Print, number: usize) -> Option<()> {
    let path = numbered(alloc, number)?;
    if !print.can_push(&path) {
        return None;
    }
    let content = Content::Dir;
    print.push(Row { path, content }).ok()?;
    print.pack_last(alloc).ok()
}

/// A table and a print of two directories more than are packed twice, packed as they grow, with room for one more row each.
fn grown(alloc: Global) -> Option<(Table<u8>, Print)> {
    let mut table = Table::new(alloc);
    let mut print = Print::empty(alloc);
    for number in 0..PACKED_ROWS * 2 + 2 {
        add(alloc, &mut table, number)?;
        add_to_print(alloc, &mut print, number)?;
    }
    table.reserve(1).ok()?;
    print.reserve(1).ok()?;
    Some((table, print))
}

/// Whether the rows are those of the first directories, so many of them.
fn are_first<F>(alloc: Global, rows: &[Row<F>], count: usize) -> Option<bool> {
    let mut same = rows.len() == count;
    for (number, row) in rows.iter().enumerate() {
        same = same && row.path == numbered(alloc, number)?;
    }
    Some(same)
}

/// Whether the grown table and print have just the directories that were put there.
fn has_all(alloc: Global) -> Option<bool> {
    let (table, print) = grown(alloc)?;
    let count = PACKED_ROWS * 2 + 2;
    Some(are_first(alloc, table.rows(), count)? && are_first(alloc, print.rows(), count)?)
}

#[test]
fn packs_what_grows(rt: HostRuntime) {
    assert!(rt; has_all(rt.alloc()) == Some(true));
}

/// Whether this is the path of that text.
fn is_at(alloc: Global, found: &Path, text: &str) -> bool {
    match path(alloc, text) {
        Some(wanted) => wanted == *found,
        None => false,
    }
}

/// Rows of a few directories, one of which shares its path's bytes with a copy before they are packed; they are packed twice.
fn packed(alloc: Global) -> Option<(Vec<Row<Stamp>>, Path)> {
    let mut rows = Vec::new(alloc);
    for number in 0..5 {
        rows.push(row(alloc, number)?).ok()?;
    }
    let copy = rows.get(2)?.path.copy(alloc).ok()?;
    pack_paths(alloc, &mut rows).ok()?;
    rows.push(row(alloc, 5)?).ok()?;
    pack_paths(alloc, &mut rows).ok()?;
    Some((rows, copy))
}

#[test]
fn packs_again_what_was_packed(rt: HostRuntime) {
    let alloc = rt.alloc();
    let Some((rows, copy)) = packed(alloc) else {
        panic!(rt; "no rows");
    };
    assert!(rt; are_first(alloc, &rows, 6) == Some(true));
    assert!(rt; is_at(alloc, &copy, "/d1002"));
}

/// Of paths of several names that were packed the middle one, and what is made of it: what is left below its first name, that
/// joined with it again, its parent and a child.
fn made_of_packed(alloc: Global) -> Option<Vec<Path>> {
    let mut paths = vec![in alloc;
        path(alloc, "/a/b")?,
        path(alloc, "/a/bc/d")?,
        path(alloc, "/a/be")?,
    ]
    .ok()?;
    let mut packing = Packing::new(alloc);
    for it in paths.iter() {
        packing.add(it).ok()?;
    }
    let mut buffer = packing.into_buffer(alloc).ok()?;
    for it in paths.iter_mut() {
        buffer.lend(it);
    }
    let middle = paths.get(1)?;
    let top = path(alloc, "/a")?;
    let rest = middle.below(alloc, &top).ok()??;
    let joined = top.join(alloc, &rest).ok()?;
    let parent = middle.parent(alloc).ok()??;
    let child = middle.child(alloc, &Name::parse(alloc, b"e").ok()?).ok()?;
    let middle = middle.copy(alloc).ok()?;
    vec![in alloc; middle, rest, joined, parent, child].ok()
}

#[test]
fn packed_paths_are_used_as_others(rt: HostRuntime) {
    let alloc = rt.alloc();
    let Some(made) = made_of_packed(alloc) else {
        panic!(rt; "no paths");
    };
    let texts = ["/a/bc/d", "/bc/d", "/a/bc/d", "/a/bc", "/a/bc/d/e"];
    assert!(rt; made.len() == texts.len());
    for (found, text) in made.iter().zip(texts) {
        assert!(rt; is_at(alloc, found, text), "{text}");
    }
}

/// A name of one byte, one of 255, and others, not in their order.
fn some_names(alloc: Global) -> Option<Vec<Name>> {
    let long = [b'n'; 255];
    let mut names = Vec::new(alloc);
    for bytes in [b"n".as_slice(), &long, b"b.txt", b"a b", b"\xc3\xa9"] {
        names.push(Name::parse(alloc, bytes).ok()?).ok()?;
    }
    Some(names)
}

/// Lets names share one buffer.
fn pack(alloc: Global, names: &mut Vec<Name>) -> Option<()> {
    let mut packing = Packing::new(alloc);
    for name in names.iter() {
        packing.add_name(name).ok()?;
    }
    let mut buffer = packing.into_buffer(alloc).ok()?;
    for name in names.iter_mut() {
        buffer.lend_name(name);
    }
    Some(())
}

/// These names packed, and packed again with the same ones behind them, of which each has a buffer of its own.
fn packed_names(alloc: Global) -> Option<Vec<Name>> {
    let mut names = some_names(alloc)?;
    pack(alloc, &mut names)?;
    let mut more = some_names(alloc)?;
    names.append(&mut more).ok()?;
    pack(alloc, &mut names)?;
    Some(names)
}

/// Whether a packed name is used as this one: it has the same bytes, which are parsed as it, compares the same, also with another,
/// and makes the same path.
fn is_used_as(alloc: Global, packed: &Name, name: &Name, other: &Name) -> Option<bool> {
    let again = Name::parse(alloc, packed.as_bytes()).ok()?;
    let root = Path::root(alloc);
    let child = root.child(alloc, packed).ok()?;
    let same = packed.as_bytes() == name.as_bytes() && packed == name && again == *packed;
    let ordered = packed.cmp(other) == name.cmp(other) && other.cmp(packed) == other.cmp(name);
    Some(same && ordered && child == root.child(alloc, name).ok()?)
}

/// Whether these are all the packed names, and each is used as the one that it was made like: the five come twice.
fn are_used_as(alloc: Global, packed: &[Name], names: &[Name]) -> Option<bool> {
    let mut same = packed.len() == 10 && names.len() == 5;
    for (index, found) in packed.iter().enumerate() {
        let name = names.get(index % 5)?;
        for other in names {
            same = same && is_used_as(alloc, found, name, other)?;
        }
    }
    Some(same)
}

#[test]
fn packed_names_are_used_as_others(rt: HostRuntime) {
    let alloc = rt.alloc();
    let (Some(packed), Some(names)) = (packed_names(alloc), some_names(alloc)) else {
        panic!(rt; "no names");
    };
    assert!(rt; are_used_as(alloc, &packed, &names) == Some(true));
}
