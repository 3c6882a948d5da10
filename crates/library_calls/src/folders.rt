//! Listings and bytes of folders, in memory and on a disk.
use fixtures::{path, tree_of};
use std::alloc::Global;
use std::fs;
use std::fs::Files;
use std::os::unix::fs::symlink;
use std::process::Abort;
use ts_folder::{DiskFolder, Failing, FaultyFolder, Folder, Kind, MemFolder, Names, Trouble};
use ts_name::Name;

/// Directory `/a` with the file `/a/b` of the byte `a`, and the file `/c` of the byte `b`.
fn small(alloc: Global) -> Option<MemFolder> {
    let tree = tree_of(alloc, b"d /a\nf /a/b 1\nx 61\nf /c 1\nx 62\n")?;
    Some(MemFolder::new(tree))
}

/// The names, each after `/` where it is a directory, after `:` where it is a file, and after `?` where that is unseen.
fn drawn(alloc: Global, names: &[(Name, Kind)]) -> Option<Vec<u8>> {
    let mut all = Vec::new(alloc);
    for (name, kind) in names {
        let sign = match kind {
            Kind::Dir => b'/',
            Kind::File => b':',
            Kind::Unseen => b'?',
        };
        all.push(sign).ok()?;
        all.extend_from_slice(name.as_bytes()).ok()?;
    }
    Some(all)
}

/// The names in a directory, drawn, or the number of the fault.
fn listed<F: Folder>(alloc: Global, folder: &F, text: &str) -> Option<Result<Vec<u8>, u8>> {
    match folder.list(alloc, &path(alloc, text)?) {
        Ok(names) => Some(Ok(drawn(alloc, &names)?)),
        Err(fault) => Some(Err(fault.number())),
    }
}

/// Whether a directory is at a path, or the number of the fault.
fn looked<F: Folder>(alloc: Global, folder: &F, text: &str) -> Option<Result<bool, u8>> {
    match folder.is_dir(alloc, &path(alloc, text)?) {
        Ok(is_dir) => Some(Ok(is_dir)),
        Err(fault) => Some(Err(fault.number())),
    }
}

/// The bytes of a file from an offset on, or the number of the fault.
fn bytes<F: Folder>(
    alloc: Global,
    folder: &F,
    text: &str,
    offset: u64,
    len: u32,
) -> Option<Result<Vec<u8>, u8>> {
    match folder.read(alloc, &path(alloc, text)?, offset, len) {
        Ok(bytes) => Some(Ok(bytes)),
        Err(fault) => Some(Err(fault.number())),
    }
}

/// Whether this is what is wanted: these bytes, or the fault of this number.
fn is_answer(got: Option<Result<Vec<u8>, u8>>, want: Result<&[u8], u8>) -> bool {
    match (got, want) {
        (Some(Ok(bytes)), Ok(want)) => bytes.as_slice() == want,
        (Some(Err(number)), Err(want)) => number == want,
        _ => false,
    }
}

/// A directory, and the names in it, drawn, or the number of the fault.
type List = (&'static str, Result<&'static [u8], u8>);

/// A path, and whether a directory is there, or the number of the fault.
type Look = (&'static str, Result<bool, u8>);

/// A file, an offset and a length, and the bytes there, or the number of the fault.
type Reading = (&'static str, u64, u32, Result<&'static [u8], u8>);

/// Lists each directory, and asserts what is answered.
fn assert_lists<F: Folder>(rt: &impl Abort, alloc: Global, folder: &F, cases: &[List]) {
    for (text, want) in cases {
        assert!(rt; is_answer(listed(alloc, folder, *text), *want), "at {text}");
    }
}

/// Looks at each path, and asserts what is answered.
fn assert_looks<F: Folder>(rt: &impl Abort, alloc: Global, folder: &F, cases: &[Look]) {
    for (text, want) in cases {
        assert!(rt; looked(alloc, folder, *text) == Some(*want), "at {text}");
    }
}

/// Reads each file from an offset on, and asserts what is answered.
fn assert_reads<F: Folder>(rt: &impl Abort, alloc: Global, folder: &F, cases: &[Reading]) {
    for (text, offset, len, want) in cases {
        assert!(rt;
            is_answer(bytes(alloc, folder, *text, *offset, *len), *want),
            "at {text}"
        );
    }
}

/// What the directories of the small folder list.
const SMALL_LISTS: &[List] = &[
    ("", Ok(b"/a:c")),
    ("/a", Ok(b":b")),
    ("/c", Err(9)),
    ("/a/b", Err(9)),
    ("/x", Err(9)),
];

/// What a look at its paths finds.
const SMALL_LOOKS: &[Look] = &[
    ("", Ok(true)),
    ("/a", Ok(true)),
    ("/a/b", Ok(false)),
    ("/c", Ok(false)),
    ("/c/d", Err(9)),
    ("/x", Err(9)),
];

/// What its files read as.
const SMALL_READS: &[Reading] = &[
    ("/a", 0, 1, Err(9)),
    ("", 0, 1, Err(9)),
    ("/x", 0, 1, Err(9)),
    ("/c", 0, 5, Ok(b"b")),
    ("/c", 1, 5, Ok(b"")),
    ("/c", u64::MAX, 5, Ok(b"")),
    ("/a/b", 0, 0, Ok(b"")),
];

#[test]
fn lists_and_reads_in_memory(rt: HostRuntime) {
    let alloc = rt.alloc();
    let Some(folder) = small(alloc) else {
        panic!(rt; "no folder");
    };
    assert_lists(&rt, alloc, &folder, SMALL_LISTS);
    assert_looks(&rt, alloc, &folder, SMALL_LOOKS);
    assert_reads(&rt, alloc, &folder, SMALL_READS);
    assert!(rt; folder.rows().len() == 3);
}

/// A list of one path, where a call is to fail.
fn failing(alloc: Global, text: &str, trouble: Trouble) -> Option<Vec<Failing>> {
    let path = path(alloc, text)?;
    vec![in alloc; Failing { path, trouble }].ok()
}

/// The small folder, where `/a` can't be listed and the device fails at `/c`.
fn faulty(alloc: Global) -> Option<FaultyFolder> {
    let lists = failing(alloc, "/a", Trouble::Unreadable)?;
    let reads = failing(alloc, "/c", Trouble::Device)?;
    Some(FaultyFolder::new(small(alloc)?, lists, reads))
}

/// What the directories of the failing folder list.
const FAULTY_LISTS: &[List] = &[("", Ok(b"/a:c")), ("/a", Err(10)), ("/c", Err(9))];

/// What its files read as.
const FAULTY_READS: &[Reading] = &[("/c", 0, 5, Err(8)), ("/a/b", 0, 5, Ok(b"a"))];

#[test]
fn fails_where_told(rt: HostRuntime) {
    let alloc = rt.alloc();
    let Some(folder) = faulty(alloc) else {
        panic!(rt; "no folder");
    };
    assert_lists(&rt, alloc, &folder, FAULTY_LISTS);
    assert_looks(&rt, alloc, &folder, SMALL_LOOKS);
    assert_reads(&rt, alloc, &folder, FAULTY_READS);
}

/// A folder of the test's own, where it runs.
const ROOT: &str = "folder_on_disk";

/// Directories of the folder on the disk, the root first.
const DIRS: &[&str] = &[
    "folder_on_disk",
    "folder_on_disk/d",
    "folder_on_disk/d/e",
    "folder_on_disk/d/e/f",
    "folder_on_disk/.twosync",
    "folder_on_disk/own",
    "folder_on_disk/own/.twosync",
    "folder_on_disk/linked",
];

/// Its small files, each of the one byte `x`.
const FILES: &[&str] = &[
    "folder_on_disk/d/a b",
    "folder_on_disk/d/a%",
    "folder_on_disk/d/a\n",
    "folder_on_disk/d/ä",
    "folder_on_disk/.twosync/plan",
];

fn makes_dirs<R: Files>(files: &R) -> bool {
    for name in DIRS {
        if fs::create_dir(files, *name).is_err() {
            return false;
        }
    }
    true
}

fn makes_files<R: Files>(files: &R) -> bool {
    for name in FILES {
        if fs::write(files, *name, "x").is_err() {
            return false;
        }
    }
    true
}

/// Makes the links, and the files of other sizes.
fn makes_others<R: Files>(files: &R, large: &[u8]) -> bool {
    fs::write(files, "folder_on_disk/empty", "").is_ok()
        && fs::write(files, "folder_on_disk/large", large).is_ok()
        && symlink(files, "../d", "folder_on_disk/linked/to_d").is_ok()
        && symlink(files, "d", "folder_on_disk/z").is_ok()
}

/// 2 MiB and one byte, of which none is like the one 251 bytes before it alone.
fn large_bytes(alloc: Global) -> Option<Vec<u8>> {
    let mut bytes = Vec::new(alloc);
    for n in 0..2_097_153_u32 {
        bytes.push((n % 251) as u8).ok()?;
    }
    Some(bytes)
}

/// What the directories on the disk list.
const DISK_LISTS: &[List] = &[
    ("", Ok(b"?d?empty?large?linked?own?z")),
    ("/d", Ok(b"?a\n?a b?a%?e?\xc3\xa4")),
    ("/d/e/f", Ok(b"")),
    ("/own", Err(10)),
    ("/linked", Ok(b"?to_d")),
    ("/linked/to_d", Err(10)),
    ("/linked/to_d/e", Err(10)),
    ("/empty", Err(9)),
    ("/none", Err(9)),
];

/// Lists what is on the disk.
fn assert_lists_of_disk<F: Folder>(rt: &impl Abort, alloc: Global, folder: &F) {
    assert_lists(rt, alloc, folder, DISK_LISTS);
}

/// What a look at paths on the disk finds. A link at the path itself is not followed.
const DISK_LOOKS: &[Look] = &[
    ("/d", Ok(true)),
    ("/d/e", Ok(true)),
    ("/d/a%20b", Ok(false)),
    ("/empty", Ok(false)),
    ("/z", Err(10)),
    ("/linked/to_d", Err(10)),
    ("/empty/x", Err(9)),
    ("/none", Err(9)),
];

/// Looks at what is on the disk.
fn assert_looks_of_disk<F: Folder>(rt: &impl Abort, alloc: Global, folder: &F) {
    assert_looks(rt, alloc, folder, DISK_LOOKS);
}

/// What the small files on the disk read as.
const DISK_READS: &[Reading] = &[
    ("/d/a%20b", 0, 2, Ok(b"x")),
    ("/d/a%25", 0, 2, Ok(b"x")),
    ("/d/a%0A", 0, 2, Ok(b"x")),
    ("/d/ä", 1, 2, Ok(b"")),
    ("/empty", 0, 1, Ok(b"")),
    ("/d", 0, 1, Err(9)),
    ("/d/a%20b/c", 0, 1, Err(9)),
    ("/linked/to_d", 0, 1, Err(10)),
    ("/linked/to_d/ä", 0, 1, Err(10)),
    ("/large", u64::MAX, 1, Ok(b"")),
];

/// Reads the small files on the disk.
fn assert_reads_of_disk<F: Folder>(rt: &impl Abort, alloc: Global, folder: &F) {
    assert_reads(rt, alloc, folder, DISK_READS);
}

/// Reads the large file.
fn assert_reads_of_large<F: Folder>(rt: &impl Abort, alloc: Global, folder: &F, large: &[u8]) {
    for (offset, len) in [
        (0, u32::MAX),
        (0, 2_097_153),
        (1_048_576, 1_048_576),
        (2_097_152, 9),
    ] {
        let start = offset as usize;
        let end = start.saturating_add(len as usize).min(large.len());
        let want = large.get(start..end).unwrap_or(b"nothing");
        let got = bytes(alloc, folder, "/large", offset, len);
        assert!(rt; is_answer(got, Ok(want)), "at {offset}");
    }
}

#[test]
fn lists_and_reads_on_a_disk(rt: HostRuntime) {
    let alloc = rt.alloc();
    let Some(large) = large_bytes(alloc) else {
        panic!(rt; "out of memory");
    };
    assert!(rt; makes_dirs(&rt));
    assert!(rt; makes_files(&rt));
    assert!(rt; makes_others(&rt, &large));
    let Ok(folder) = DiskFolder::new(alloc, rt, ROOT) else {
        panic!(rt; "out of memory");
    };
    assert_lists_of_disk(&rt, alloc, &folder);
    assert_looks_of_disk(&rt, alloc, &folder);
    assert!(rt; fs::remove_file(&rt, "folder_on_disk/z").is_ok());
    assert_lists(
        &rt,
        alloc,
        &folder,
        &[("", Ok(b"?d?empty?large?linked?own"))],
    );
    assert_reads_of_disk(&rt, alloc, &folder);
    assert_reads_of_large(&rt, alloc, &folder, &large);
    assert!(rt; fs::remove_dir_all(&rt, ROOT).is_ok());
}

/// How many files have names of more bytes than are asked for at once.
const MANY_FILES: u32 = 3_000;

/// The place of one of these files.
fn numbered(alloc: Global, number: u32) -> Option<String> {
    format!(in alloc; "names_on_disk/{:020}", number).ok()
}

/// Makes them.
fn makes_many<R: Files>(files: &R, alloc: Global) -> bool {
    for number in 0..MANY_FILES {
        let Some(place) = numbered(alloc, number) else {
            return false;
        };
        if fs::write(files, place.as_str(), "").is_err() {
            return false;
        }
    }
    true
}

/// The names of what stands in a directory, in ascending order.
fn names_in<R: Files>(alloc: Global, files: &R, place: &str) -> Option<Vec<Name>> {
    let mut found = Names::open(alloc, files, place).ok()?;
    let mut names = Vec::new(alloc);
    for _ in 0..u64::MAX {
        let Some(name) = found.next_name().ok()? else {
            break;
        };
        names.push(Name::parse(alloc, name).ok()?).ok()?;
    }
    names.sort_unstable();
    Some(names)
}

/// Whether the directory at a place has the files' names, each once, and nothing else.
fn names_many<R: Files>(alloc: Global, files: &R, place: &str) -> bool {
    let Some(names) = names_in(alloc, files, place) else {
        return false;
    };
    for (number, name) in (0..MANY_FILES).zip(names.iter()) {
        let Some(wanted) = numbered(alloc, number) else {
            return false;
        };
        if !wanted.as_bytes().ends_with(name.as_bytes()) || name.as_bytes().len() != 20 {
            return false;
        }
    }
    names.len() == MANY_FILES as usize
}

#[test]
fn names_what_stands_in_a_directory(rt: HostRuntime) {
    let alloc = rt.alloc();
    assert!(rt; fs::create_dir(&rt, "names_on_disk").is_ok());
    assert!(rt; names_in(alloc, &rt, "names_on_disk").is_some_and(|names| names.is_empty()));
    assert!(rt; makes_many(&rt, alloc));
    assert!(rt; names_many(alloc, &rt, "names_on_disk"));
    // a link is followed where its place ends in `/`
    assert!(rt; symlink(&rt, "names_on_disk", "link_to_names").is_ok());
    assert!(rt; names_many(alloc, &rt, "link_to_names/"));
    for place in [
        "link_to_names",
        "no_names",
        "names_on_disk/00000000000000000000",
    ] {
        assert!(rt; names_in(alloc, &rt, place).is_none(), "{place}");
    }
    assert!(rt; fs::remove_file(&rt, "link_to_names").is_ok());
    assert!(rt; fs::remove_dir_all(&rt, "names_on_disk").is_ok());
}

/// Up to two bytes of the file that is opened at a path, from an offset on.
fn filled<F: Folder>(alloc: Global, folder: &F, text: &str, offset: u64) -> Option<Vec<u8>> {
    let mut file = folder.open_file(alloc, &path(alloc, text)?).ok()?;
    let mut buffer = [0; 2];
    let count = folder.fill(&mut file, offset, &mut buffer).ok()?;
    Vec::from_slice(alloc, buffer.get(..count)?).ok()
}

/// Whether those are these bytes.
fn fills<F: Folder>(alloc: Global, folder: &F, text: &str, offset: u64, want: &[u8]) -> bool {
    match filled(alloc, folder, text, offset) {
        Some(bytes) => bytes.as_slice() == want,
        None => false,
    }
}

#[test]
fn opens_and_fills_in_memory(rt: HostRuntime) {
    let alloc = rt.alloc();
    let Some(folder) = small(alloc) else {
        panic!(rt; "no folder");
    };
    assert!(rt; fills(alloc, &folder, "/a/b", 0, b"a"));
    assert!(rt; fills(alloc, &folder, "/c", 1, b""));
}

#[test]
fn opens_and_fills_where_nothing_fails(rt: HostRuntime) {
    let alloc = rt.alloc();
    let Some(folder) = faulty(alloc) else {
        panic!(rt; "no folder");
    };
    assert!(rt; fills(alloc, &folder, "/a/b", 0, b"a"));
}

#[test]
fn opens_and_fills_on_a_disk(rt: HostRuntime) {
    let alloc = rt.alloc();
    assert!(rt; fs::create_dir(&rt, "opened_on_disk").is_ok());
    assert!(rt; fs::write(&rt, "opened_on_disk/f", "abc").is_ok());
    let Ok(folder) = DiskFolder::new(alloc, rt, "opened_on_disk") else {
        panic!(rt; "out of memory");
    };
    for (offset, want) in [(0, b"ab".as_slice()), (2, b"c"), (3, b"")] {
        assert!(rt; fills(alloc, &folder, "/f", offset, want), "{offset}");
    }
    assert!(rt; fs::remove_dir_all(&rt, "opened_on_disk").is_ok());
}
