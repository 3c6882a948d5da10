//! Pieces in memory and stored elsewhere, what was read back of them, and the assemblies of commits.
use crate::shared::{BODY, print_of};
use fixtures::path;
use std::alloc::Global;
use ts_model::items::Items;
use ts_model::plan::{Entry, Reason};
use ts_model::row::{Content, Row};
use ts_name::Path;
use ts_print::{Print, stamp_of};
use ts_stage::{MemStage, Piece, ReadBack, Reading, Stage, StageFault, Staged, StagedFile, Told};
use ts_tree::SubTree;

fn items(alloc: Global, bytes: &[u8]) -> Option<Items<u8>> {
    Some(Items::new(Vec::from_slice(alloc, bytes).ok()?))
}

/// How many bytes are told of none, of three, and of these once none and then two more have come.
fn sizes_told(alloc: Global) -> Option<[u64; 4]> {
    let none = Told::none(alloc);
    let mut told = Told::of(alloc, &items(alloc, b"abc")?).ok()?;
    let three = told.size();
    told.add(&items(alloc, b"")?).ok()?;
    let same = told.size();
    told.add(&items(alloc, b"de")?).ok()?;
    Some([none.size(), three, same, told.size()])
}

#[test]
fn counts_bytes_that_were_seen(rt: HostRuntime) {
    assert!(rt; sizes_told(rt.alloc()) == Some([0, 3, 3, 5]));
}

/// What was read back of a file, where it came in these parts.
fn read_back(alloc: Global, parts: &[&str]) -> Option<ReadBack> {
    let mut reading = Reading::begin(alloc);
    for part in parts {
        reading.add(&items(alloc, part.as_bytes())?).ok()?;
    }
    Some(reading.end())
}

/// Whether what comes in these parts has the stamp and the size of all the bytes.
fn has_stamp_of(alloc: Global, parts: &[&str], bytes: &[u8]) -> bool {
    let Some(whole) = read_back(alloc, parts) else {
        return false;
    };
    whole.stamp() == stamp_of(bytes) && whole.into_told().size() == bytes.len() as u64
}

#[test]
fn stamps_what_is_read_back_in_parts(rt: HostRuntime) {
    let alloc = rt.alloc();
    assert!(rt; has_stamp_of(alloc, &[], b""));
    assert!(rt; has_stamp_of(alloc, &["abc"], b"abc"));
    assert!(rt; has_stamp_of(alloc, &["ab", "", "c"], b"abc"));
    assert!(rt; !has_stamp_of(alloc, &["c", "ab"], b"abc"));
    assert!(rt; !has_stamp_of(alloc, &["ab"], b"abc"));
}

/// What a piece of a file staged.
#[derive(Clone, Copy, Drop)]
enum Part<'a> {
    /// These bytes, in memory.
    Held(&'a [u8]),
    /// These bytes, which are stored.
    Stored(&'a [u8]),
    /// These bytes, which were the last that were stored; and what was then read back of the file.
    Last(&'a [u8], &'a str),
}

impl Part<'_> {
    fn size(&self) -> u64 {
        match self {
            Part::Held(bytes) | Part::Stored(bytes) | Part::Last(bytes, _) => bytes.len() as u64,
        }
    }

    fn piece(&self, alloc: Global) -> Option<Piece> {
        Some(match self {
            Part::Held(bytes) => Piece::held(Vec::from_slice(alloc, *bytes).ok()?),
            Part::Stored(bytes) => Piece::stored(&items(alloc, *bytes)?, None),
            Part::Last(bytes, whole) => {
                let whole = read_back(alloc, &[*whole])?;
                Piece::stored(&items(alloc, *bytes)?, Some(whole))
            }
        })
    }
}

/// The assembly of what the print has at a path.
fn begun(alloc: Global, print: &Print, text: &str) -> Option<Staged> {
    let top = path(alloc, text)?;
    Staged::begin(alloc, &print.sub_print(&top)).ok()
}

/// Puts pieces into a file, one after another.
fn put(alloc: Global, staged: &mut Staged, file: &Path, parts: &[Part<'_>]) -> Option<()> {
    let mut offset = 0u64;
    for part in parts {
        let piece = Box::new(alloc, part.piece(alloc)?).ok()?;
        if staged.has_so_far(alloc, file, offset) != Ok(true) {
            return None;
        }
        staged.put(alloc, file, offset, piece).ok()?;
        offset = offset.checked_add(part.size())?;
    }
    Some(())
}

/// The print of a replica whose one file `/a` has the bytes `abc`.
fn print_of_abc(alloc: Global) -> Option<Print> {
    let mut print = Print::empty(alloc);
    let path = path(alloc, "/a")?;
    if !print.can_push(&path) {
        return None;
    }
    let content = Content::File(stamp_of(b"abc"));
    print.push(Row { path, content }).ok()?;
    Some(print)
}

/// The assembly of that file with these pieces.
fn assembled(alloc: Global, parts: &[Part<'_>]) -> Option<Staged> {
    let print = print_of_abc(alloc)?;
    let mut staged = begun(alloc, &print, "/a")?;
    put(alloc, &mut staged, &path(alloc, "/a")?, parts)?;
    Some(staged)
}

/// The one file of an assembly.
fn file_of(staged: &Staged) -> Option<&StagedFile> {
    match &staged.rows().first()?.content {
        Content::File(file) => Some(file),
        Content::Absent | Content::Dir => None,
    }
}

/// What the assembly of a file tells with these pieces: the file's size, whether all is in memory, whether it is complete by
/// what is there, and the file's size by what was read back, where that fits.
fn told(alloc: Global, parts: &[Part<'_>]) -> Option<(u64, bool, bool, Option<u64>)> {
    let staged = assembled(alloc, parts)?;
    let size = file_of(&staged)?.size();
    let (is_held, is_complete) = (staged.is_held(), staged.is_complete());
    let fits = match staged.into_read_back() {
        Some(back) => Some(file_of(&back)?.size()),
        None => None,
    };
    Some((size, is_held, is_complete, fits))
}

#[test]
fn reads_back_what_is_in_memory(rt: HostRuntime) {
    let alloc = rt.alloc();
    let whole = Some((3, true, true, Some(3)));
    assert!(rt; told(alloc, &[Part::Held(b"abc")]) == whole);
    assert!(rt; told(alloc, &[Part::Held(b"ab"), Part::Held(b"c")]) == whole);
    assert!(rt; told(alloc, &[Part::Held(b""), Part::Held(b"abc")]) == whole);
    assert!(rt; told(alloc, &[]) == Some((0, true, false, None)));
    assert!(rt; told(alloc, &[Part::Held(b"ab")]) == Some((2, true, false, None)));
    assert!(rt; told(alloc, &[Part::Held(b"abd")]) == Some((3, true, false, None)));
    assert!(rt;
        told(alloc, &[Part::Held(b"c"), Part::Held(b"ab")]) == Some((3, true, false, None))
    );
}

#[test]
fn reads_back_a_stored_piece(rt: HostRuntime) {
    let alloc = rt.alloc();
    let fits = Some((3, false, false, Some(3)));
    assert!(rt; told(alloc, &[Part::Last(b"abc", "abc")]) == fits);
    // what was read back counts, whatever the piece had read
    assert!(rt; told(alloc, &[Part::Last(b"abd", "abc")]) == fits);
    assert!(rt; told(alloc, &[Part::Last(b"ab", "abc")]) == Some((2, false, false, Some(3))));
}

#[test]
fn reads_nothing_back_that_does_not_fit(rt: HostRuntime) {
    let alloc = rt.alloc();
    let misfit = Some((3, false, false, None));
    assert!(rt; told(alloc, &[Part::Last(b"abc", "abd")]) == misfit);
    assert!(rt; told(alloc, &[Part::Last(b"abc", "ab")]) == misfit);
    assert!(rt; told(alloc, &[Part::Last(b"abc", "")]) == misfit);
    // never read back
    assert!(rt; told(alloc, &[Part::Stored(b"abc")]) == misfit);
    assert!(rt; told(alloc, &[Part::Stored(b"ab"), Part::Stored(b"c")]) == misfit);
}

#[test]
fn reads_back_a_file_of_several_pieces(rt: HostRuntime) {
    let alloc = rt.alloc();
    let fits = Some((3, false, false, Some(3)));
    let misfit = Some((3, false, false, None));
    assert!(rt; told(alloc, &[Part::Stored(b"ab"), Part::Last(b"c", "abc")]) == fits);
    assert!(rt; told(alloc, &[Part::Stored(b"ab"), Part::Last(b"c", "abd")]) == misfit);
    // workers store pieces in any order, so the first one may be the last that is stored
    assert!(rt; told(alloc, &[Part::Last(b"ab", "abc"), Part::Stored(b"c")]) == fits);
    assert!(rt; told(alloc, &[Part::Last(b"ab", "abd"), Part::Stored(b"c")]) == misfit);
    // where two pieces say what was read back, the later one counts
    assert!(rt; told(alloc, &[Part::Last(b"ab", "ab"), Part::Last(b"c", "abc")]) == fits);
    assert!(rt; told(alloc, &[Part::Last(b"ab", "abc"), Part::Last(b"c", "ab")]) == misfit);
}

#[test]
fn reads_back_a_file_that_is_partly_in_memory(rt: HostRuntime) {
    let alloc = rt.alloc();
    let fits = Some((3, false, false, Some(3)));
    let misfit = Some((3, false, false, None));
    assert!(rt; told(alloc, &[Part::Held(b"ab"), Part::Last(b"c", "abc")]) == fits);
    assert!(rt; told(alloc, &[Part::Held(b"ab"), Part::Last(b"c", "c")]) == misfit);
    assert!(rt; told(alloc, &[Part::Held(b"ab"), Part::Stored(b"c")]) == misfit);
    assert!(rt; told(alloc, &[Part::Stored(b"ab"), Part::Held(b"c")]) == misfit);
    assert!(rt; told(alloc, &[Part::Last(b"ab", "ab"), Part::Held(b"c")]) == misfit);
}

/// Whether a file with these pieces has just these bytes in memory, or has none there.
fn has_bytes(alloc: Global, parts: &[Part<'_>], want: Option<&[u8]>) -> bool {
    let Some(staged) = assembled(alloc, parts) else {
        return false;
    };
    file_of(&staged).is_some_and(|file| file.bytes() == want)
}

#[test]
fn gives_bytes_in_memory_alone(rt: HostRuntime) {
    let alloc = rt.alloc();
    assert!(rt; has_bytes(alloc, &[], Some(b"".as_slice())));
    assert!(rt;
        has_bytes(
            alloc,
            &[Part::Held(b"ab"), Part::Held(b"c")],
            Some(b"abc".as_slice())
        )
    );
    assert!(rt; has_bytes(alloc, &[Part::Last(b"abc", "abc")], None));
    assert!(rt; has_bytes(alloc, &[Part::Held(b"ab"), Part::Stored(b"c")], None));
    assert!(rt; has_bytes(alloc, &[Part::Stored(b"ab"), Part::Held(b"c")], None));
}

/// Whether an assembly of `/a` still says where it will stand, and what it is to have.
fn is_for_abc(alloc: Global, staged: &Staged) -> bool {
    let wanted = staged.wanted();
    path(alloc, "/a").is_some_and(|top| *staged.top() == top)
        && wanted.len() == 1
        && wanted[0].path == Path::root(alloc)
        && wanted[0].content == Content::File(stamp_of(b"abc"))
}

#[test]
fn keeps_what_it_is_for(rt: HostRuntime) {
    let alloc = rt.alloc();
    for part in [Part::Held(b"abc".as_slice()), Part::Last(b"abc", "abc")] {
        let Some(staged) = assembled(alloc, &[part]) else {
            panic!(rt; "no assembly");
        };
        assert!(rt; is_for_abc(alloc, &staged));
        assert!(rt;
            staged
                .into_read_back()
                .is_some_and(|back| is_for_abc(alloc, &back))
        );
    }
}

/// Whether a file may take a piece at this offset.
fn takes(alloc: Global, staged: &Staged, text: &str, offset: u64) -> Option<bool> {
    staged.has_so_far(alloc, &path(alloc, text)?, offset).ok()
}

#[test]
fn begins_without_bytes(rt: HostRuntime) {
    let alloc = rt.alloc();
    let Some(staged) = print_of(alloc, BODY).and_then(|print| begun(alloc, &print, "/d")) else {
        panic!(rt; "no assembly");
    };
    assert!(rt; path(alloc, "/d").is_some_and(|top| *staged.top() == top));
    assert!(rt; staged.rows().len() == 4 && staged.wanted().len() == 4);
    assert!(rt; staged.is_held() && !staged.is_complete());
    for (text, offset, may) in [
        ("/d/x", 0, true),
        ("/d/x", 1, false),
        ("/d", 0, false),
        ("/d.x", 0, false),
    ] {
        assert!(rt;
            takes(alloc, &staged, text, offset) == Some(may),
            "{text} {offset}"
        );
    }
}

/// The assembly of `/d`, where `/d/e/y` gets this piece, and `/d/x` its byte in memory.
fn staged_dir(alloc: Global, part: Part<'_>) -> Option<Staged> {
    let print = print_of(alloc, BODY)?;
    let mut staged = begun(alloc, &print, "/d")?;
    put(alloc, &mut staged, &path(alloc, "/d/e/y")?, &[part])?;
    put(
        alloc,
        &mut staged,
        &path(alloc, "/d/x")?,
        &[Part::Held(b"a")],
    )?;
    Some(staged)
}

/// The same as a part of a tree, where all of it is in memory.
fn tree(alloc: Global, part: Part<'_>) -> Option<SubTree> {
    let staged = staged_dir(alloc, part)?;
    if !staged.is_held() {
        return None;
    }
    staged.into_tree(alloc).ok()
}

/// Whether the part's files have these bytes.
fn has_files(alloc: Global, part: &SubTree, first: &[u8], second: &[u8]) -> bool {
    let (Some(one), Some(other)) = (path(alloc, "/e/y"), path(alloc, "/x")) else {
        return false;
    };
    part.get(&one) == Content::File(first) && part.get(&other) == Content::File(second)
}

#[test]
fn makes_a_tree_of_bytes_in_memory(rt: HostRuntime) {
    let alloc = rt.alloc();
    assert!(rt;
        tree(alloc, Part::Held(b"ab")).is_some_and(|part| has_files(alloc, &part, b"ab", b"a"))
    );
    assert!(rt;
        tree(alloc, Part::Held(b"c")).is_some_and(|part| has_files(alloc, &part, b"c", b"a"))
    );
    assert!(rt; tree(alloc, Part::Last(b"ab", "ab")).is_none());
}

#[test]
fn makes_trees_without_bytes(rt: HostRuntime) {
    let alloc = rt.alloc();
    for (text, rows) in [("/d.x", 1), ("/z", 0)] {
        let Some(staged) = print_of(alloc, BODY).and_then(|print| begun(alloc, &print, text)) else {
            panic!(rt; "no assembly at {text}");
        };
        assert!(rt; staged.is_complete(), "{text}");
        if !staged.is_held() {
            panic!(rt; "not in memory: {text}");
        }
        let Ok(part) = staged.into_tree(alloc) else {
            panic!(rt; "no tree at {text}");
        };
        assert!(rt; part.rows().len() == rows, "{text}");
    }
}

/// Whether a directory's files fit their stamps where one of them gets this piece: by what is in memory, and as read back.
fn dir_fits(alloc: Global, part: Part<'_>) -> Option<(bool, bool)> {
    let staged = staged_dir(alloc, part)?;
    Some((staged.is_complete(), staged.into_read_back().is_some()))
}

#[test]
fn reads_back_a_directory(rt: HostRuntime) {
    let alloc = rt.alloc();
    assert!(rt; dir_fits(alloc, Part::Held(b"ab")) == Some((true, true)));
    assert!(rt; dir_fits(alloc, Part::Held(b"ac")) == Some((false, false)));
    assert!(rt; dir_fits(alloc, Part::Last(b"ab", "ab")) == Some((false, true)));
    assert!(rt; dir_fits(alloc, Part::Last(b"ab", "ac")) == Some((false, false)));
    assert!(rt; dir_fits(alloc, Part::Stored(b"ab")) == Some((false, false)));
}

/// Whether a stage in memory keeps the bytes that it stores: put into their file they are all of it.
fn stores_in_memory(alloc: Global) -> Option<bool> {
    let print = print_of_abc(alloc)?;
    let mut staged = begun(alloc, &print, "/a")?;
    let file = path(alloc, "/a")?;
    let bytes = Vec::from_slice(alloc, b"abc").ok()?;
    let entry = Entry {
        reason: Reason::First,
        path: path(alloc, "/a")?,
    };
    let piece = MemStage.store(alloc, 4, 2, &entry, &file, 0, bytes).ok()?;
    if staged.has_so_far(alloc, &file, 0) != Ok(true) {
        return None;
    }
    let piece = Box::new(alloc, piece).ok()?;
    staged.put(alloc, &file, 0, piece).ok()?;
    let has_bytes = file_of(&staged)?.bytes() == Some(b"abc".as_slice());
    Some(has_bytes && staged.is_held() && staged.is_complete())
}

#[test]
fn stores_pieces_in_memory(rt: HostRuntime) {
    assert!(rt; stores_in_memory(rt.alloc()) == Some(true));
}

#[test]
fn numbers_faults(rt: HostRuntime) {
    assert!(rt; StageFault::OutOfMemory.number() == 1);
    assert!(rt; StageFault::Device.number() == 8);
}
