//! Scans of small folders with 1, 2 and 64 workers.
ghost use Rattle.std.specs.Prelude.{◌≤◌};

use fixtures::{path, tree_of};
use std::alloc::Global;
use std::fs::Files;
use std::sync::atomic::{AtomicU64, Ordering};
use std::thread::Threads;
use std::{fs, thread};
use ts_folder::{DiskFolder, Failing, FaultyFolder, Folder, FolderFault, Kind, MemFolder, Trouble};
use ts_name::{Name, Path};
use ts_print::Print;
use ts_scan::{Refusal, ScanFault, scan, scan_both};
use ts_tree::{Tree, TreeReader};

/// Gives the reader a directory of this number in another, and ten files in it.
fn takes_files(alloc: Global, reader: &mut TreeReader, first: u8, second: u8) -> bool {
    if reader
        .line(
            alloc,
            &[
                b'd', b' ', b'/', b'd', b'1', first, b'/', b'e', b'1', second,
            ],
        )
        .is_err()
    {
        return false;
    }
    for third in b'0'..=b'9' {
        let line = [
            b'f', b' ', b'/', b'd', b'1', first, b'/', b'e', b'1', second, b'/', b'f', b'1', third,
            b' ', b'2',
        ];
        if reader.line(alloc, &line).is_err() {
            return false;
        }
        if reader
            .line(alloc, &[b'x', b' ', b'1', first, b'1', third])
            .is_err()
        {
            return false;
        }
    }
    true
}

/// Directories in directories, with 320 files in all.
fn nested(alloc: Global) -> Option<Tree> {
    let mut reader = TreeReader::new(alloc);
    for first in b'0'..b'8' {
        if reader
            .line(alloc, &[b'd', b' ', b'/', b'd', b'1', first])
            .is_err()
        {
            return None;
        }
        for second in b'0'..b'4' {
            if !takes_files(alloc, &mut reader, first, second) {
                return None;
            }
        }
    }
    reader.finish().ok()
}

/// A folder that tells no tree and lists one directory `a` at every path.
#[derive(Drop)]
struct Endless {
    top: MemFolder,
}

impl Folder for Endless {
    ghost use Rattle.std.specs.Prelude.{None};

    type File = ();

    ghost tells = { λ _. None };

    ghost lets = { λ _ _ _ _. Unit {0} };

    ghost is_open = { λ _ _ _. Unit {0} };

    fn list(&self, alloc: Global, _path: &Path) -> Result<Vec<(Name, Kind)>, FolderFault> {
        match self.top.list(alloc, &Path::root(alloc)) {
            Ok(children) => Ok(children),
            Err(_) => Err(FolderFault::OutOfMemory),
        }
    }

    fn is_dir(&self, _alloc: Global, _path: &Path) -> Result<bool, FolderFault> {
        Ok(true)
    }

    fn open_file(&self, _alloc: Global, _path: &Path) -> Result<(), FolderFault> {
        Err(FolderFault::NotThere)
    }

    fn fill(&self, _file: &mut (), _offset: u64, _buffer: &mut [u8]) -> Result<usize, FolderFault> {
        Ok(0)
    }
}

/// How many turns a listing waits for the other.
const TURNS: u32 = 10_000_000;

/// A folder where the listing of `/a` goes on only once that of `/b` has begun, and the reverse, and those of the root only once
/// so many of them have.
#[derive(Drop)]
struct Gate {
    top: MemFolder,
    roots: u64,
    begun_roots: AtomicU64,
    begun_a: AtomicU64,
    begun_b: AtomicU64,
    late: AtomicU64,
}

impl Gate {
    fn new(top: MemFolder, roots: u64) -> Gate {
        Gate {
            top,
            roots,
            begun_roots: AtomicU64::new(0),
            begun_a: AtomicU64::new(0),
            begun_b: AtomicU64::new(0),
            late: AtomicU64::new(0),
        }
    }

    /// Begins one listing, and waits until so many of these have begun.
    fn pass(&self, mine: &AtomicU64, others: &AtomicU64, wanted: u64) {
        mine.fetch_add(1, Ordering::SeqCst);
        for _ in 0..TURNS {
            if others.load(Ordering::SeqCst) >= wanted {
                return;
            }
            thread::yield_now();
        }
        self.late.store(1, Ordering::SeqCst);
    }
}

impl Folder for Gate {
    ghost use Rattle.std.specs.Prelude.{None};

    type File = ();

    ghost tells = { λ _. None };

    ghost lets = { λ _ _ _ _. Unit {0} };

    ghost is_open = { λ _ _ _. Unit {0} };

    fn list(&self, alloc: Global, path: &Path) -> Result<Vec<(Name, Kind)>, FolderFault> {
        match path.last() {
            None => self.pass(&self.begun_roots, &self.begun_roots, self.roots),
            Some(b"a") => self.pass(&self.begun_a, &self.begun_b, 1),
            Some(_) => self.pass(&self.begun_b, &self.begun_a, 1),
        }
        match self.top.list(alloc, path) {
            Ok(children) => Ok(children),
            Err(_) => Err(FolderFault::OutOfMemory),
        }
    }

    fn is_dir(&self, _alloc: Global, _path: &Path) -> Result<bool, FolderFault> {
        Ok(true)
    }

    fn open_file(&self, _alloc: Global, _path: &Path) -> Result<(), FolderFault> {
        Err(FolderFault::NotThere)
    }

    fn fill(&self, _file: &mut (), _offset: u64, _buffer: &mut [u8]) -> Result<usize, FolderFault> {
        Ok(0)
    }
}

/// Whether a scan is refused with the fault of this number at this path.
fn refuses<R: Threads + Sync, F: Folder + Sync>(
    rt: &R,
    alloc: Global,
    folder: &F,
    workers: u32,
    number: u8,
    place: &Path,
) -> bool
where
    F::File: Send,
    requires some { 1 ≤ workers }
    requires few { workers ≤ 64 }
{
    match scan(rt, alloc, folder, workers) {
        Ok(_) => false,
        Err(fault) => fault.number() == number && fault.path() == Some(place),
    }
}

/// The nested tree in memory, and its print.
fn nested_folder(alloc: Global) -> Option<(MemFolder, Print)> {
    let tree = nested(alloc)?;
    let print = Print::of_tree(alloc, &tree).ok()?;
    Some((MemFolder::new(tree), print))
}

#[test]
fn answers_the_print_of_the_tree(rt: HostRuntime) {
    let alloc = rt.alloc();
    let Some((folder, wanted)) = nested_folder(alloc) else {
        panic!(rt; "no folder");
    };
    let root = Path::root(alloc);
    assert!(rt; wanted.rows().len() == 360);
    for workers in [1, 2, 64] {
        let Ok(print) = scan(&rt, alloc, &folder, workers) else {
            panic!(rt; "no print by {workers}");
        };
        assert!(rt; print.sub_eq(&wanted, &root), "{workers}");
    }
}

/// The files `/a`, `/b` and `/c`, where the device fails at the first and the last.
fn faulty(alloc: Global) -> Option<FaultyFolder> {
    let tree = tree_of(alloc, b"f /a 1\nx 61\nf /b 1\nx 62\nf /c 1\nx 63\n")?;
    let mut reads = Vec::new(alloc);
    for text in ["/a", "/c"] {
        let path = path(alloc, text)?;
        let trouble = Trouble::Device;
        reads.push(Failing { path, trouble }).ok()?;
    }
    Some(FaultyFolder::new(MemFolder::new(tree), Vec::new(alloc), reads))
}

#[test]
fn tells_the_first_fault_in_path_order(rt: HostRuntime) {
    let alloc = rt.alloc();
    let (Some(folder), Some(place)) = (faulty(alloc), path(alloc, "/a")) else {
        panic!(rt; "no folder");
    };
    for workers in [1, 2, 64] {
        assert!(rt;
            refuses(&rt, alloc, &folder, workers, 8, &place),
            "{workers}"
        );
    }
}

/// The path of 64 names `a`.
fn deepest(alloc: Global) -> Option<Path> {
    let mut text = [b'a'; 128];
    for at in 0..64 {
        text[2 * at] = b'/';
    }
    Path::parse_text(alloc, &text).ok()
}

/// A folder in memory of these rows.
fn folder_of(alloc: Global, text: &[u8]) -> Option<MemFolder> {
    Some(MemFolder::new(tree_of(alloc, text)?))
}

#[test]
fn tells_a_path_that_is_too_deep(rt: HostRuntime) {
    let alloc = rt.alloc();
    let (Some(top), Some(place)) = (folder_of(alloc, b"d /a\n"), deepest(alloc)) else {
        panic!(rt; "no folder");
    };
    let folder = Endless { top };
    for workers in [1, 2, 64] {
        assert!(rt;
            refuses(&rt, alloc, &folder, workers, 4, &place),
            "{workers}"
        );
    }
}

#[test]
fn lists_two_directories_at_once(rt: HostRuntime) {
    let alloc = rt.alloc();
    let Some(top) = folder_of(alloc, b"d /a\nd /b\n") else {
        panic!(rt; "no folder");
    };
    let gate = Gate::new(top, 1);
    assert!(rt; scan(&rt, alloc, &gate, 2).is_ok());
    assert!(rt; gate.late.load(Ordering::SeqCst) == 0);
}

/// Whether a scan of two folders by this many workers gives this print of the first, and one path of the second.
fn scans_both<R: Threads + Sync>(
    rt: &R,
    alloc: Global,
    folders: (&MemFolder, &MemFolder),
    wanted: &Print,
    workers: u32,
) -> bool
    requires some { 1 ≤ workers }
    requires few { workers ≤ 64 }
{
    let (first, second) = scan_both(rt, alloc, folders.0, folders.1, workers);
    let Ok(first) = first else {
        return false;
    };
    let Ok(second) = second else {
        return false;
    };
    first.sub_eq(wanted, &Path::root(alloc)) && second.rows().len() == 1
}

#[test]
fn scans_two_folders(rt: HostRuntime) {
    let alloc = rt.alloc();
    let Some((folder, wanted)) = nested_folder(alloc) else {
        panic!(rt; "no folder");
    };
    let Some(other) = folder_of(alloc, b"d /a\n") else {
        panic!(rt; "no other folder");
    };
    for workers in [1, 2, 64] {
        assert!(rt;
            scans_both(&rt, alloc, (&folder, &other), &wanted, workers),
            "{workers}"
        );
    }
}

#[test]
fn scans_two_folders_at_once(rt: HostRuntime) {
    let alloc = rt.alloc();
    let Some(top) = folder_of(alloc, b"") else {
        panic!(rt; "no folder");
    };
    let gate = Gate::new(top, 2);
    let (first, second) = scan_both(&rt, alloc, &gate, &gate, 2);
    assert!(rt; first.is_ok() && second.is_ok());
    assert!(rt; gate.late.load(Ordering::SeqCst) == 0);
}

/// A folder that changes while it is scanned: the first listings of its root are those of one tree, and all else is as in
/// another.
#[derive(Drop)]
struct Changing {
    before: MemFolder,
    after: MemFolder,
    /// How many listings of the root are still to be the first tree's.
    stale: AtomicU64,
    /// How many listings of the root there were.
    listed: AtomicU64,
}

impl Changing {
    /// A folder whose root is listed so often as in the first tree, which has one child.
    fn new(alloc: Global, before: &[u8], after: &[u8], stale: u64) -> Option<Changing> {
        Some(Changing {
            before: folder_of(alloc, before)?,
            after: folder_of(alloc, after)?,
            stale: AtomicU64::new(stale),
            listed: AtomicU64::new(0),
        })
    }

    /// What the root is listed from now.
    fn root(&self) -> &MemFolder {
        self.listed.fetch_add(1, Ordering::SeqCst);
        match self.stale.load(Ordering::SeqCst) {
            0 => &self.after,
            left => {
                self.stale.store(left - 1, Ordering::SeqCst);
                &self.before
            }
        }
    }
}

impl Folder for Changing {
    ghost use Rattle.std.specs.Prelude.{None};

    type File = Path;

    ghost tells = { λ _. None };

    ghost lets = { λ _ _ _ _. Unit {0} };

    ghost is_open = { λ _ _ _. Unit {0} };

    fn list(&self, alloc: Global, path: &Path) -> Result<Vec<(Name, Kind)>, FolderFault> {
        if path.is_root() {
            self.root().list(alloc, path)
        } else {
            self.after.list(alloc, path)
        }
    }

    fn is_dir(&self, alloc: Global, path: &Path) -> Result<bool, FolderFault> {
        self.after.is_dir(alloc, path)
    }

    fn open_file(&self, alloc: Global, path: &Path) -> Result<Path, FolderFault> {
        self.after.open_file(alloc, path)
    }

    fn fill(&self, file: &mut Path, offset: u64, buffer: &mut [u8]) -> Result<usize, FolderFault> {
        match self.after.fill(file, offset, buffer) {
            Ok(count) => Ok(count),
            Err(_) => Err(FolderFault::OutOfMemory),
        }
    }
}

/// What a child was when its directory was listed, and what it is when it is opened.
const CHANGES: [(&[u8], &[u8]); 4] = [
    // it went away
    (b"f /a 1\nx 61\n", b""),
    (b"d /a\n", b""),
    // a directory took a file's place
    (b"f /a 1\nx 61\n", b"d /a\nf /a/b 1\nx 62\n"),
    // a file took a directory's place
    (b"d /a\n", b"f /a 1\nx 61\n"),
];

/// Whether a scan by this many workers of a folder whose root is listed so often as before a change answers what is there
/// after it, and lists the root once more for each listing that misled it.
fn follows<R: Threads + Sync>(
    rt: &R,
    alloc: Global,
    change: (&[u8], &[u8]),
    stale: u64,
    workers: u32,
) -> bool
    requires some { 1 ≤ workers }
    requires few { workers ≤ 64 }
{
    let (Some(folder), Some(after)) = (
        Changing::new(alloc, change.0, change.1, stale),
        tree_of(alloc, change.1),
    ) else {
        return false;
    };
    let (Ok(print), Ok(wanted)) = (
        scan(rt, alloc, &folder, workers),
        Print::of_tree(alloc, &after),
    ) else {
        return false;
    };
    print.sub_eq(&wanted, &Path::root(alloc))
        && folder.listed.load(Ordering::SeqCst) == stale.saturating_add(1)
}

#[test]
fn looks_a_child_up_again(rt: HostRuntime) {
    let alloc = rt.alloc();
    for change in CHANGES {
        for workers in [1, 2, 64] {
            assert!(rt; follows(&rt, alloc, change, 1, workers), "{workers}");
        }
        // ten new listings, and no more
        assert!(rt; follows(&rt, alloc, change, 10, 1));
        let (Some(folder), Some(place)) = (
            Changing::new(alloc, change.0, change.1, 11),
            path(alloc, "/a"),
        ) else {
            panic!(rt; "no folder");
        };
        assert!(rt; refuses(&rt, alloc, &folder, 1, 9, &place));
    }
}

/// A folder on a disk, whose listings leave all kinds unseen. Something at one path is neither a directory nor a file.
#[derive(Drop)]
struct Looked<R> {
    folder: DiskFolder<R>,
    special: Path,
    /// How often it was asked whether a child is a directory.
    looks: AtomicU64,
}

impl<R: Files + AllocGlobal + Clone + Drop + Sync> Folder for Looked<R> {
    ghost use Rattle.std.specs.Prelude.{None};

    type File = R::File;

    ghost tells = { λ _. None };

    ghost lets = { λ _ _ _ _. Unit {0} };

    ghost is_open = { λ _ _ _. Unit {0} };

    fn list(&self, alloc: Global, path: &Path) -> Result<Vec<(Name, Kind)>, FolderFault> {
        self.folder.list(alloc, path)
    }

    fn is_dir(&self, alloc: Global, path: &Path) -> Result<bool, FolderFault> {
        self.looks.fetch_add(1, Ordering::SeqCst);
        if *path == self.special {
            return Err(FolderFault::Unreadable);
        }
        self.folder.is_dir(alloc, path)
    }

    fn open_file(&self, alloc: Global, path: &Path) -> Result<R::File, FolderFault> {
        self.folder.open_file(alloc, path)
    }

    fn fill(
        &self,
        file: &mut R::File,
        offset: u64,
        buffer: &mut [u8],
    ) -> Result<usize, FolderFault> {
        self.folder.fill(file, offset, buffer)
    }
}

/// The directories of the folder on the disk, the root first, and its files, each of the one byte `x`.
const DIRS: [&str; 4] = ["looked", "looked/d", "looked/d/e", "looked/g"];

const FILES: [&str; 3] = ["looked/a", "looked/d/b", "looked/d/e/c"];

/// Makes them.
fn makes_files<R: Files>(files: &R) -> bool {
    for name in DIRS {
        if fs::create_dir(files, name).is_err() {
            return false;
        }
    }
    for name in FILES {
        if fs::write(files, name, "x").is_err() {
            return false;
        }
    }
    true
}

#[test]
fn looks_at_what_is_unseen(rt: HostRuntime) {
    let alloc = rt.alloc();
    assert!(rt; makes_files(&rt));
    let text = b"f /a 1\nx 78\nd /d\nf /d/b 1\nx 78\nd /d/e\nf /d/e/c 1\nx 78\nd /g\n";
    let Some(tree) = tree_of(alloc, text) else {
        panic!(rt; "no tree");
    };
    let Ok(wanted) = Print::of_tree(alloc, &tree) else {
        panic!(rt; "no print");
    };
    for (special, directory) in [("/a", ""), ("/d/b", "/d"), ("/d/e/c", "/d/e"), ("/g", "")] {
        for workers in [1, 2, 64] {
            let (Ok(folder), Some(special), Some(none), Some(directory)) = (
                DiskFolder::new(alloc, rt, "looked"),
                path(alloc, special),
                path(alloc, "/none"),
                path(alloc, directory),
            ) else {
                panic!(rt; "no folder");
            };
            let looks = AtomicU64::new(0);
            let mut looked = Looked {
                folder,
                special,
                looks,
            };
            // it is reported at the directory that has it
            assert!(rt;
                refuses(&rt, alloc, &looked, workers, 10, &directory),
                "{workers}"
            );
            looked.special = none;
            looked.looks = AtomicU64::new(0);
            let Ok(print) = scan(&rt, alloc, &looked, workers) else {
                panic!(rt; "no print by {workers}");
            };
            assert!(rt; print.sub_eq(&wanted, &Path::root(alloc)), "{workers}");
            // each child once
            assert!(rt; looked.looks.load(Ordering::SeqCst) == 6, "{workers}");
        }
    }
    assert!(rt; fs::remove_dir_all(&rt, "looked").is_ok());
}

#[test]
fn numbers_faults(rt: HostRuntime) {
    assert!(rt; ScanFault::OutOfMemory.number() == 1);
    assert!(rt; ScanFault::OutOfMemory.path().is_none());
    for (fault, number) in [
        (Refusal::TooLong, 4),
        (Refusal::Device, 8),
        (Refusal::NotThere, 9),
        (Refusal::Unreadable, 10),
    ] {
        assert!(rt; fault.number() == number, "{number}");
    }
}
