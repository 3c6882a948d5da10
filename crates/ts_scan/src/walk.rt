//! The rows below a directory, found by several workers.
ghost use Rattle.std.specs.Prelude.{◌≡◌, ◌⊎◌, ◌∷◌, ◌++◌, [], ◌<◌, Err, IfErr, IfOk, IfSome, OnOk, length, vec_len};
ghost use Rattle.std.specs.Result.{IsOkAnd};
ghost use Rattle.std.specs.Thread.{IsSend, IsSync};
ghost use Rattle.ts_name.specs.Paths.{IsPath};
ghost use Rattle.ts_folder.specs.Folders.{CanBe, InOrder};
ghost use Rattle.ts_model.specs.Texts.{IsTreeBody};
ghost use Rattle.ts_model.specs.Trees.{at};
ghost use Rattle.ts_model.specs.declared.row.Content.TheVariants.{Dir};
ghost use Rattle.ts_scan.specs.Faults.{MayFail, FailsAsTold, IsOfChild};
ghost use Rattle.ts_scan.specs.Scans.{Adds, AreThere, Found, FoundIn};

use crate::fault::{Refusal, ScanFault, refused, told};
use crate::idle::Idle;
use crate::opened::{Opened, Parent};
use std::alloc::Global;
use std::sync::atomic::AtomicBool;
use std::thread::{Threads, join};
use ts_folder::{Folder, Kind};
use ts_model::lists::let_go;
use ts_model::row::{Content, Row, Stamp};
use ts_name::{Name, Path, PathFault};
use ts_table::{PACKED_ROWS, pack_paths};

/// How many bytes of a file are read at once. A buffer of 128 KiB comes from the system and goes back there.
const PIECE: usize = 131_072;

/// For how many rows of another worker there is room at least: for 128 KiB, too. What is shorter would stay with the heap of that
/// worker's thread, which no other thread uses.
const LEAST_ROOM: usize = 2_048;

/// Where more children than these are left, a worker that stands idle gets an eighth of them, and not half: what it finds is held
/// beside the room that is made for all rows, until it can be put behind those before it.
const MANY_CHILDREN: usize = 65_536;

/// How many times a directory is listed again for a child that isn't there when it is opened.
const TRIES: u32 = 10;

/// What a worker carries: the rows found so far, in path order, how many of them have no path with a buffer of its own, and the
/// buffer through which it reads files.
#[derive(Drop)]
pub(crate) struct Work {
    pub(crate) rows: Vec<Row<Stamp>>,
    packed: usize,
    buffer: Vec<u8>,
    ghost room: { 0 < vec_len buffer },
}

impl Work {
    /// Nothing is found yet, and there is room for so many rows.
    pub(crate) fn new(alloc: Global, room: usize) -> Result<Work, ScanFault>
        ensures found { IfOk result (λ work. work.rows.items ≡ []) }
        ensures fault { IfErr result (λ e. e ≡ ScanFault.OutOfMemory) }
    {
        let buffer = vec![in alloc; 0u8; PIECE]?;
        Ok(Work {
            rows: Vec::with_capacity(alloc, room)?,
            packed: 0,
            buffer,
        })
    }

    /// Makes room for so many rows more.
    fn make_room(&mut self, rows: usize) -> Result<(), ScanFault>
        ensures rows { self.new.rows.items ≡ self.old.rows.items }
        ensures fault { IfErr result (λ e. e ≡ ScanFault.OutOfMemory) }
    {
        self.rows.reserve(rows)?;
        Ok(())
    }

    /// Puts the row of a directory at the end, and makes room for those of its children.
    fn push_dir(&mut self, alloc: Global, path: Path, children: usize) -> Result<(), ScanFault>
        ensures rows { OnOk result (self.new.rows.items ≡ self.old.rows.items ++ record { path = path; content = Dir } ∷ []) }
        ensures fault { IfErr result (λ e. e ≡ ScanFault.OutOfMemory) }
    {
        self.push(alloc, path, Content::Dir)?;
        self.make_room(children)
    }

    /// Puts a row at the end.
    fn push(&mut self, alloc: Global, path: Path, content: Content<Stamp>) -> Result<(), ScanFault>
        ensures rows { OnOk result (self.new.rows.items ≡ self.old.rows.items ++ record { path = path; content = content } ∷ []) }
        ensures fault { IfErr result (λ e. e ≡ ScanFault.OutOfMemory) }
    {
        self.rows.push(Row { path, content })?;
        self.pack(alloc)
    }

    /// Puts the rows that another worker found behind these.
    fn append(&mut self, alloc: Global, mut more: Vec<Row<Stamp>>) -> Result<(), ScanFault>
        ensures rows { OnOk result (self.new.rows.items ≡ self.old.rows.items ++ more.items) }
        ensures fault { IfErr result (λ e. e ≡ ScanFault.OutOfMemory) }
    {
        self.rows.append(&mut more)?;
        let_go(more);
        self.pack(alloc)
    }

    /// The rows alone, for whoever waits for them: the buffer goes at once.
    pub(crate) fn into_rows(self) -> Vec<Row<Stamp>>
        ensures { result.items ≡ self.rows.items }
    {
        let Work { rows, buffer, .. } = self;
        let_go(buffer);
        rows
    }

    /// Lets the paths of the rows that came last share one buffer, where they are many enough. The rows are the same.
    fn pack(&mut self, alloc: Global) -> Result<(), ScanFault>
        ensures rows { self.new.rows.items ≡ self.old.rows.items }
        ensures fault { IfErr result (λ e. e ≡ ScanFault.OutOfMemory) }
    {
        let count = self.rows.len();
        if count.saturating_sub(self.packed) >= PACKED_ROWS {
            pack_paths(alloc, &mut self.rows[self.packed..])?;
            self.packed = count;
        }
        Ok(())
    }
}

/// Adds the rows of all that is below the directory at a path.
pub(crate) fn scan_directory<R: Threads + Sync, F: Folder + Sync>(
    rt: &R,
    folder: &F,
    idle: &Idle,
    alloc: Global,
    path: &Path,
    mut work: Work,
) -> Result<Work, ScanFault>
where
    F::File: Send,
    ensures found { IfOk result (λ done. Adds work.rows.items done.rows.items (FoundIn (F.tells folder.now) path.now)) }
    ensures fault { IfSome (F.tells folder.now) (λ tree. at tree path.now ≡ Dir) → IfErr result (MayFail (F.lets folder.now) (F.tells folder.now)) }
{
    let children = match folder.list(alloc, path) {
        Ok(children) => children,
        Err(fault) => return Err(told(alloc, path, fault)),
    };
    work.make_room(children.len())?;
    let done = scan_children(rt, folder, idle, alloc, path, &children, work);
    let_go(children);
    done
}

/// Adds the rows of some children of the directory at a path. Where a worker stands idle, it gets half of what is left, or an
/// eighth of many.
#[cycle(walk)]
fn scan_children<R: Threads + Sync, F: Folder + Sync>(
    rt: &R,
    folder: &F,
    idle: &Idle,
    alloc: Global,
    path: &Path,
    children: &[(Name, Kind)],
    mut work: Work,
) -> Result<Work, ScanFault>
where
    F::File: Send,
    requires order { InOrder children.now }
    requires lawful { IfSome (F.tells folder.now) IsTreeBody }
    ensures found { IfOk result (λ done. Adds work.rows.items done.rows.items (Found (F.tells folder.now) path.now children.now)) }
    ensures fault { FailsAsTold (F.lets folder.now) (F.tells folder.now) (λ tree. AreThere tree path.now children.now) result }
{
    let mut rest = children;
    while let Some((child, others)) = rest.split_first() {
        if !others.is_empty() && idle.take() {
            return in_parts(rt, folder, idle, alloc, path, rest, work);
        }
        work = scan_child(rt, folder, idle, alloc, path, child, work)?;
        rest = others;
    }
    Ok(work)
}

/// Adds the rows of some children of the directory at a path, the second part by another thread where one can be started.
#[cycle(walk)]
fn in_parts<R: Threads + Sync, F: Folder + Sync>(
    rt: &R,
    folder: &F,
    idle: &Idle,
    alloc: Global,
    path: &Path,
    children: &[(Name, Kind)],
    work: Work,
) -> Result<Work, ScanFault>
where
    F::File: Send,
    requires order { InOrder children.now }
    requires lawful { IfSome (F.tells folder.now) IsTreeBody }
    requires several { 1 < length children.now }
    ensures found { IfOk result (λ done. Adds work.rows.items done.rows.items (Found (F.tells folder.now) path.now children.now)) }
    ensures fault { FailsAsTold (F.lets folder.now) (F.tells folder.now) (λ tree. AreThere tree path.now children.now) result }
{
    let (first, second) = parts(children);
    let one_ended = AtomicBool::new(false);
    let ended = &one_ended;
    let theirs = || -> Result<Vec<Row<Stamp>>, ScanFault>
        requires { IsSync R.row × IsSync F.row × IsSend F.File.row × InOrder second.now × IfSome (F.tells folder.now) IsTreeBody }
        ensures found { IfOk result (λ rows. Found (F.tells folder.entry.now) path.entry.now second.entry.now rows.items) }
        ensures fault { FailsAsTold (F.lets folder.entry.now) (F.tells folder.entry.now) (λ tree. AreThere tree path.entry.now second.entry.now) result }
    {
        let work = Work::new(alloc, second.len().max(LEAST_ROOM))?;
        let found = scan_children(rt, folder, idle, alloc, path, second, work);
        idle.half_ended(ended);
        match found {
            Ok(work) => Ok(work.into_rows()),
            Err(fault) => Err(fault),
        }
    };
    let ours = move || -> Result<Work, ScanFault>
        requires { IsSync R.row × IsSync F.row × IsSend F.File.row × InOrder first.now × IfSome (F.tells folder.now) IsTreeBody }
        ensures found { IfOk result (λ done. Adds work.rows.items done.rows.items (Found (F.tells folder.entry.now) path.entry.now first.entry.now)) }
        ensures fault { FailsAsTold (F.lets folder.entry.now) (F.tells folder.entry.now) (λ tree. AreThere tree path.entry.now first.entry.now) result }
    {
        let found = scan_children(rt, folder, idle, alloc, path, first, work);
        idle.half_ended(ended);
        found
    };
    let (back, front) = join(rt, theirs, ours);
    put_together(alloc, front, back)
}

/// The rows of both parts, where both were found.
fn put_together(
    alloc: Global,
    front: Result<Work, ScanFault>,
    back: Result<Vec<Row<Stamp>>, ScanFault>,
) -> Result<Work, ScanFault>
    ensures found { IfOk result (λ done. IsOkAnd front (λ work. IsOkAnd back (λ more. done.rows.items ≡ work.rows.items ++ more.items))) }
    ensures fault { IfErr result (λ e. (e ≡ ScanFault.OutOfMemory) ⊎ (front ≡ Err e) ⊎ (back ≡ Err e)) }
{
    let mut done = front?;
    let more = back?;
    done.append(alloc, more)?;
    Ok(done)
}

/// Two parts of some children, in their order.
fn parts(children: &[(Name, Kind)]) -> (&[(Name, Kind)], &[(Name, Kind)])
    requires order { InOrder children.now }
    requires several { 1 < length children.now }
    ensures whole { children.now ≡ result.0.now ++ result.1.now }
    ensures first { InOrder result.0.now }
    ensures second { InOrder result.1.now }
    ensures less { length result.0.now < length children.now }
    ensures more { length result.1.now < length children.now }
{
    let count = children.len();
    let back = if count > MANY_CHILDREN {
        count / 8
    } else {
        count / 2
    };
    children.split_at(count - back)
}

/// Adds the rows of one child of the directory at a path.
#[cycle(walk)]
fn scan_child<R: Threads + Sync, F: Folder + Sync>(
    rt: &R,
    folder: &F,
    idle: &Idle,
    alloc: Global,
    parent: &Path,
    child: &(Name, Kind),
    mut work: Work,
) -> Result<Work, ScanFault>
where
    F::File: Send,
    requires lawful { IfSome (F.tells folder.now) IsTreeBody }
    ensures found { IfOk result (λ done. Adds work.rows.items done.rows.items (Found (F.tells folder.now) parent.now (child.now ∷ []))) }
    ensures fault { FailsAsTold (F.lets folder.now) (F.tells folder.now) (λ tree. CanBe (tree (parent.now ++ child.now.0 ∷ [])) child.now.1) result }
{
    let path = child_path(alloc, parent, &child.0)?;
    let directory = Parent {
        folder,
        alloc,
        path: parent,
    };
    match directory.open(&child.0, &path, child.1, work.buffer.as_mut_slice(), TRIES)? {
        Opened::Gone => Ok(work),
        Opened::File(stamp) => {
            work.push(alloc, path, Content::File(stamp))?;
            Ok(work)
        }
        Opened::Dir(children) => {
            add_dir(&mut work, alloc, &path, children.len())?;
            let done = scan_children(rt, folder, idle, alloc, &path, &children, work);
            let_go(children);
            done
        }
    }
}

/// Puts the row of the directory at a path behind these, and makes room for those of its children.
fn add_dir(work: &mut Work, alloc: Global, path: &Path, children: usize) -> Result<(), ScanFault>
    ensures found { OnOk result (work.new.rows.items ≡ work.old.rows.items ++ record { path = path.now; content = Dir } ∷ []) }
    ensures fault { IfErr result (λ e. e ≡ ScanFault.OutOfMemory) }
{
    let Ok(own) = path.copy(alloc) else {
        return Err(ScanFault::OutOfMemory);
    };
    work.push_dir(alloc, own, children)
}

/// The path of a child, or `TooLong` at its directory.
fn child_path(alloc: Global, parent: &Path, name: &Name) -> Result<Path, ScanFault>
    ensures path { IfOk result (λ path. (path ≡ parent.now ++ name.now ∷ []) × IsPath path) }
    ensures fault { IfErr result (IsOfChild parent.now name.now) }
{
    match parent.child(alloc, name) {
        Ok(path) => Ok(path),
        Err(PathFault::TooLong) => Err(refused(alloc, parent, Refusal::TooLong)),
        Err(_) => Err(ScanFault::OutOfMemory),
    }
}
