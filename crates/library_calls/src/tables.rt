//! Tables of paths, on the tree of `/a`, `/a/b` and `/a.b`.
use fixtures::path;
use std::alloc::Global;
use ts_model::items::Items;
use ts_model::row::{Content, Row, Stamp};
use ts_name::Path;
use ts_table::{CopyFile, Edit, Frame, SubTable, Table, TableFault};

/// Puts a file at the end, or a directory where the data is 0. Whether its row may come next.
fn add(table: &mut Table<u8>, alloc: Global, text: &str, file: u8) -> Option<bool> {
    let path = path(alloc, text)?;
    if !table.may_push(&path) {
        return Some(false);
    }
    let content = if file == 0 {
        Content::Dir
    } else {
        Content::File(file)
    };
    table.push(Row { path, content }).ok()?;
    Some(true)
}

/// The table of these rows.
fn table_of(alloc: Global, rows: &[(&str, u8)]) -> Option<Table<u8>> {
    let mut table = Table::new(alloc);
    for (text, file) in rows {
        if add(&mut table, alloc, *text, *file) != Some(true) {
            return None;
        }
    }
    Some(table)
}

fn small(alloc: Global) -> Option<Table<u8>> {
    table_of(alloc, &[("/a", 0), ("/a/b", 1), ("/a.b", 2)])
}

/// A letter for what is at a path: nothing, a directory, or a file by its digit.
fn letter(content: Content<&u8>) -> u8 {
    match content {
        Content::Absent => b'-',
        Content::Dir => b'd',
        Content::File(file) => file.wrapping_add(b'0'),
    }
}

/// What is at `/`, `/a`, `/a.b`, `/a/b`, `/a/b/c`, `/b` and `/b/c`.
fn drawn(alloc: Global, table: &Table<u8>) -> Option<[u8; 7]> {
    let mut letters = [0; 7];
    let texts = ["", "/a", "/a.b", "/a/b", "/a/b/c", "/b", "/b/c"];
    for (place, text) in letters.iter_mut().zip(texts) {
        *place = letter(table.get(&path(alloc, text)?));
    }
    Some(letters)
}

/// What is at the root, `/b`, `/b/c` and `/c` of a part.
fn part_drawn(alloc: Global, part: &SubTable<u8>) -> Option<[u8; 4]> {
    let mut letters = [0; 4];
    for (place, text) in letters.iter_mut().zip(["", "/b", "/b/c", "/c"]) {
        *place = letter(part.get(&path(alloc, text)?));
    }
    Some(letters)
}

/// The small table and a copy of it, drawn.
fn small_drawn(alloc: Global) -> Option<[[u8; 7]; 2]> {
    let table = small(alloc)?;
    let copy = table.copy(alloc).ok()?;
    Some([drawn(alloc, &table)?, drawn(alloc, &copy)?])
}

#[test]
fn looks_up(rt: HostRuntime) {
    assert!(rt; small_drawn(rt.alloc()) == Some([*b"dd21---", *b"dd21---"]));
}

/// How many paths the small table counts, how many rows it shows, and whether it is empty.
fn small_counted(alloc: Global) -> Option<(usize, usize, bool)> {
    let table = small(alloc)?;
    Some((table.len(), table.rows().len(), table.is_empty()))
}

#[test]
fn counts(rt: HostRuntime) {
    assert!(rt; small_counted(rt.alloc()) == Some((3, 3, false)));
}

/// How many rows the small table has at a path and below it, and how many rows its part has.
fn rows_below(alloc: Global, text: &str) -> Option<(usize, usize)> {
    let table = small(alloc)?;
    let place = path(alloc, text)?;
    let part = table.sub_table(alloc, &place).ok()?;
    Some((table.sub(&place).len(), part.rows().len()))
}

#[test]
fn looks_below(rt: HostRuntime) {
    for (text, rows, part) in [
        ("", 3, 4),
        ("/a", 2, 2),
        ("/a.b", 1, 1),
        ("/a/b", 1, 1),
        ("/b", 0, 0),
    ] {
        assert!(rt;
            rows_below(rt.alloc(), text) == Some((rows, part)),
            "{text}"
        );
    }
}

/// Whether a row at a path may come after those of the small table.
fn follows_small(alloc: Global, text: &str) -> Option<bool> {
    let mut table = small(alloc)?;
    add(&mut table, alloc, text, 3)
}

/// The small table with two more rows, drawn, and how many rows it has.
fn grown(alloc: Global) -> Option<([u8; 7], usize)> {
    let mut table = small(alloc)?;
    if add(&mut table, alloc, "/b", 0) != Some(true) {
        return None;
    }
    if add(&mut table, alloc, "/b/c", 3) != Some(true) {
        return None;
    }
    let letters = drawn(alloc, &table)?;
    Some((letters, Table::from_rows(table.into_rows()).len()))
}

#[test]
fn takes_rows_in_order(rt: HostRuntime) {
    for text in ["", "/a", "/a.b", "/a.b/c", "/a/c", "/b/c"] {
        assert!(rt; follows_small(rt.alloc(), text) == Some(false), "{text}");
    }
    assert!(rt; grown(rt.alloc()) == Some((*b"dd21-d3", 5)));
}

/// Whether the small table, and one with another file at `/a.b`, have the same at a path and below it.
fn is_same(alloc: Global, text: &str) -> Option<bool> {
    let table = small(alloc)?;
    let other = table_of(alloc, &[("/a", 0), ("/a/b", 1), ("/a.b", 3)])?;
    Some(table.sub_eq(&other, &path(alloc, text)?))
}

/// Whether the small table and its copy are the same.
fn is_copied(alloc: Global) -> Option<bool> {
    let table = small(alloc)?;
    Some(table.sub_eq(&table.copy(alloc).ok()?, &Path::root(alloc)))
}

#[test]
fn compares(rt: HostRuntime) {
    for (text, same) in [
        ("", false),
        ("/a", true),
        ("/a/b", true),
        ("/a.b", false),
        ("/b", true),
    ] {
        assert!(rt; is_same(rt.alloc(), text) == Some(same), "{text}");
    }
    assert!(rt; is_copied(rt.alloc()) == Some(true));
}

/// The small table with a part at a path, drawn.
fn with_part(alloc: Global, text: &str, part: SubTable<u8>) -> Option<[u8; 7]> {
    let place = path(alloc, text)?;
    let mut table = small(alloc)?;
    if !table.is_place(&place) {
        return None;
    }
    table.replace(alloc, &place, part).ok()?;
    drawn(alloc, &table)
}

/// The small table with a directory made at a path, drawn.
fn with_dir(alloc: Global, text: &str) -> Option<[u8; 7]> {
    let place = path(alloc, text)?;
    let mut table = small(alloc)?;
    if !table.is_place(&place) {
        return None;
    }
    table.make_dir(alloc, &place).ok()?;
    drawn(alloc, &table)
}

/// The small table with nothing at a path, drawn.
fn without(alloc: Global, text: &str) -> Option<[u8; 7]> {
    let path = path(alloc, text)?;
    let mut table = small(alloc)?;
    if !table.is_place(&path) {
        return None;
    }
    let part = SubTable::absent(alloc);
    let edits = vec![in alloc; Edit { path, part }].ok()?;
    table.splice(alloc, edits).ok()?;
    drawn(alloc, &table)
}

/// The small table as a part.
fn whole(alloc: Global) -> Option<SubTable<u8>> {
    small(alloc)?.sub_table(alloc, &Path::root(alloc)).ok()
}

#[test]
fn replaces(rt: HostRuntime) {
    let alloc = rt.alloc();
    for (text, file, dir, gone) in [
        ("/a", b"d72----", b"dd2----", b"d-2----"),
        ("/a.b", b"dd71---", b"ddd1---", b"dd-1---"),
        ("/a/b", b"dd27---", b"dd2d---", b"dd2----"),
        ("/b", b"dd21-7-", b"dd21-d-", b"dd21---"),
    ] {
        let seven = SubTable::file(alloc, 7).ok();
        let put = seven.and_then(|part| with_part(alloc, text, part));
        assert!(rt; put == Some(*file), "{text}");
        assert!(rt; with_dir(alloc, text) == Some(*dir), "{text}");
        assert!(rt; without(alloc, text) == Some(*gone), "{text}");
        let put = whole(alloc).and_then(|part| with_part(alloc, text, part));
        assert!(rt; put == Some(*dir), "{text}");
    }
}

#[test]
fn numbers_faults(rt: HostRuntime) {
    assert!(rt; TableFault::OutOfMemory.number() == 1);
    assert!(rt; TableFault::TooLong.number() == 4);
}

/// A part's copy, drawn, and how many rows its copy has.
fn copy_drawn(alloc: Global, part: &SubTable<u8>) -> Option<([u8; 4], usize)> {
    let copy = part.copy(alloc).ok()?;
    let letters = part_drawn(alloc, &copy)?;
    let again = SubTable::from_rows(copy.into_rows());
    Some((letters, again.rows().len()))
}

/// The small table's part at a path, drawn, and its copy with its number of rows.
fn looked_into(alloc: Global, text: &str) -> Option<([u8; 4], [u8; 4], usize)> {
    let part = small(alloc)?.sub_table(alloc, &path(alloc, text)?).ok()?;
    let letters = part_drawn(alloc, &part)?;
    let (copy, rows) = copy_drawn(alloc, &part)?;
    Some((letters, copy, rows))
}

#[test]
fn looks_into_parts(rt: HostRuntime) {
    for (text, letters, rows) in [
        ("/a", b"d1--", 2),
        ("/a.b", b"2---", 1),
        ("/a/b", b"1---", 1),
        ("/b", b"----", 0),
    ] {
        assert!(rt;
            looked_into(rt.alloc(), text) == Some((*letters, *letters, rows)),
            "{text}"
        );
    }
}

/// Whether something may stand at a path of the small table.
fn is_place(alloc: Global, text: &str) -> Option<bool> {
    Some(small(alloc)?.is_place(&path(alloc, text)?))
}

#[test]
fn knows_places(rt: HostRuntime) {
    for (text, may_stand) in [
        ("", false),
        ("/0", true),
        ("/0/a", false),
        ("/a", true),
        ("/a/a", true),
        ("/a/b", true),
        ("/a/b/c", false),
        ("/a/c", true),
        ("/a/c/d", false),
        ("/a.b", true),
        ("/a.b/c", false),
        ("/b", true),
        ("/b/c", false),
    ] {
        assert!(rt; is_place(rt.alloc(), text) == Some(may_stand), "{text}");
    }
}

/// The paths of these texts.
fn paths(alloc: Global, texts: &[&str]) -> Option<Vec<Path>> {
    let mut paths = Vec::new(alloc);
    for text in texts {
        paths.push(path(alloc, *text)?).ok()?;
    }
    Some(paths)
}

/// Whether the small table may be split at these paths.
fn may_split(alloc: Global, texts: &[&str]) -> Option<bool> {
    Some(small(alloc)?.may_split(&paths(alloc, texts)?))
}

/// The small table, split at these paths.
fn split_small(alloc: Global, texts: &[&str]) -> Option<(Frame<u8>, Vec<SubTable<u8>>)> {
    let table = small(alloc)?;
    let paths = paths(alloc, texts)?;
    if !table.may_split(&paths) {
        return None;
    }
    table.split(alloc, &paths).ok()
}

/// The parts, drawn, with nothing behind the last.
fn parts_drawn(alloc: Global, parts: &[SubTable<u8>]) -> Option<[[u8; 4]; 4]> {
    let mut drawn = [*b"    "; 4];
    for (place, part) in drawn.iter_mut().zip(parts) {
        *place = part_drawn(alloc, part)?;
    }
    Some(drawn)
}

/// The table of a frame and parts, drawn.
fn joined(alloc: Global, frame: Frame<u8>, parts: Vec<SubTable<u8>>) -> Option<[u8; 7]> {
    if parts.len() != frame.paths().len() {
        return None;
    }
    let table = Table::join(alloc, frame, parts).ok()?;
    drawn(alloc, &table)
}

/// The parts of the small table, split at these paths, drawn, and their number.
fn parts_of_small(alloc: Global, texts: &[&str]) -> Option<([[u8; 4]; 4], usize)> {
    let (_frame, parts) = split_small(alloc, texts)?;
    Some((parts_drawn(alloc, &parts)?, parts.len()))
}

/// The small table, split at these paths and joined again, drawn.
fn split_and_joined(alloc: Global, texts: &[&str]) -> Option<[u8; 7]> {
    let (frame, parts) = split_small(alloc, texts)?;
    joined(alloc, frame, parts)
}

#[test]
fn splits_and_joins(rt: HostRuntime) {
    let alloc = rt.alloc();
    let cases: [(&[&str], [&[u8; 4]; 4]); 6] = [
        (&[], [b"    ", b"    ", b"    ", b"    "]),
        (&["/a"], [b"d1--", b"    ", b"    ", b"    "]),
        (&["/a", "/a.b"], [b"d1--", b"2---", b"    ", b"    "]),
        (&["/a/b", "/a.b"], [b"1---", b"2---", b"    ", b"    "]),
        (
            &["/0", "/a/b", "/a/c", "/b"],
            [b"----", b"1---", b"----", b"----"],
        ),
        (
            &["/a/a", "/a.b", "/b"],
            [b"----", b"2---", b"----", b"    "],
        ),
    ];
    for (texts, [first, second, third, fourth]) in cases {
        let parts = [*first, *second, *third, *fourth];
        assert!(rt;
            parts_of_small(alloc, texts) == Some((parts, texts.len())),
            "{texts:?}"
        );
        assert!(rt;
            split_and_joined(alloc, texts) == Some(*b"dd21---"),
            "{texts:?}"
        );
    }
}

#[test]
fn refuses_to_split(rt: HostRuntime) {
    let cases: [&[&str]; 6] = [
        &[""],
        &["/a", "/a"],
        &["/a", "/a/b"],
        &["/a.b", "/a"],
        &["/a.b/c"],
        &["/a/b", "/b/c"],
    ];
    for texts in cases {
        assert!(rt; may_split(rt.alloc(), texts) == Some(false), "{texts:?}");
    }
}

/// A directory, nothing and a file, put at three paths of the small table, drawn.
fn others_put(alloc: Global) -> Option<[u8; 7]> {
    let (frame, _parts) = split_small(alloc, &["/a/b", "/a.b", "/b"])?;
    let dir = SubTable::dir(alloc).ok()?;
    let file = SubTable::file(alloc, 7).ok()?;
    let parts = vec![in alloc; dir, SubTable::absent(alloc), file].ok()?;
    joined(alloc, frame, parts)
}

#[test]
fn puts_other_parts(rt: HostRuntime) {
    assert!(rt; others_put(rt.alloc()) == Some(*b"dd-d-7-"));
}

/// The table of one directory of `depth` names and those above it, as a part.
fn deep(alloc: Global, depth: usize) -> Option<SubTable<u8>> {
    let mut table = Table::new(alloc);
    let mut text = Vec::new(alloc);
    for _ in 0..depth {
        text.extend_from_slice(b"/d").ok()?;
        let path = Path::parse_text(alloc, &text).ok()?;
        if !table.may_push(&path) {
            return None;
        }
        let content = Content::Dir;
        table.push(Row { path, content }).ok()?;
    }
    table.sub_table(alloc, &Path::root(alloc)).ok()
}

/// A file at `/a.b` and so deep a part at `/b` of the small table, joined.
fn join_deep(
    alloc: Global,
    depth: usize,
) -> Option<Result<Table<u8>, (Frame<u8>, Vec<SubTable<u8>>, TableFault)>> {
    let (frame, _parts) = split_small(alloc, &["/a.b", "/b"])?;
    let file = SubTable::file(alloc, 5).ok()?;
    let parts = vec![in alloc; file, deep(alloc, depth)?].ok()?;
    if parts.len() != frame.paths().len() {
        return None;
    }
    Some(Table::join(alloc, frame, parts))
}

/// How many rows the joined table has.
fn rows_joined(alloc: Global, depth: usize) -> Option<usize> {
    Some(join_deep(alloc, depth)?.ok()?.len())
}

/// The fault's number, the paths of the frame that comes back, the parts with it, and the first of them, drawn.
fn join_refused(alloc: Global, depth: usize) -> Option<(u8, usize, usize, [u8; 4])> {
    let (frame, parts, fault) = join_deep(alloc, depth)?.err()?;
    let first = part_drawn(alloc, parts.first()?)?;
    Some((fault.number(), frame.paths().len(), parts.len(), first))
}

/// How many rows the part has that is too deep, as it comes back.
fn rows_refused(alloc: Global, depth: usize) -> Option<usize> {
    let (_frame, parts, _fault) = join_deep(alloc, depth)?.err()?;
    Some(parts.last()?.rows().len())
}

#[test]
fn gives_back_what_is_too_long(rt: HostRuntime) {
    let alloc = rt.alloc();
    assert!(rt; rows_joined(alloc, 63) == Some(67));
    assert!(rt; join_refused(alloc, 64) == Some((4, 2, 2, *b"5---")));
    assert!(rt; rows_refused(alloc, 64) == Some(65));
}

/// Bytes, a stamp and a byte, each copied as the data of a file.
fn files_copied(alloc: Global) -> Option<(Vec<u8>, Stamp, u8)> {
    let bytes = Items::new(Vec::from_slice(alloc, b"ab").ok()?);
    let stamp = Stamp {
        size: 2,
        digest: [7; 32],
    };
    let byte = 9_u8;
    Some((
        bytes.copy_file(alloc).ok()?.into_vec(),
        stamp.copy_file(alloc).ok()?,
        byte.copy_file(alloc).ok()?,
    ))
}

#[test]
fn copies_files(rt: HostRuntime) {
    let Some((bytes, stamp, byte)) = files_copied(rt.alloc()) else {
        panic!(rt; "no copies");
    };
    assert!(rt; bytes.as_slice() == b"ab".as_slice());
    assert!(rt; stamp.size == 2 && stamp.digest == [7; 32]);
    assert!(rt; byte == 9);
}
