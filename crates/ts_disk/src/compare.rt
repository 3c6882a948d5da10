//! Whether what lies in a folder is what it was.
ghost use Rattle.std.specs.List.{AllByRecursion};
ghost use Rattle.std.specs.Prelude.{◌≡◌, ◌≢◌, ◌⊎◌, ◌↔◌, ◌∷◌, ◌++◌, [], ◌+◌, ◌<◌, ℕ, List, length, IfErr, IfOk, IfSome, IsTrue};
ghost use Rattle.ts_disk.specs.Compared.{AnswersFile, Has, HasAll, HasOnly, HasPart, IsOf, LacksSome, MayEnd, Says, Troubles, site_fault};
ghost use Rattle.ts_folder.specs.declared.folder.Call.TheVariants as call;
ghost use Rattle.ts_model.specs.Texts.{IsTreeBody};
ghost use Rattle.ts_model.specs.Trees.{Ascend, at, stamped};
ghost use Rattle.ts_model.specs.declared.row.Content.TheVariants.{Absent, File};
ghost use Rattle.ts_model.specs.declared.row.Stamp.{Stamp};
ghost use Rattle.ts_name.specs.Paths.{IsPath};
ghost use Rattle.ts_table.specs.Tables.{root_row};

use crate::look::Look;
use sha2::{Digest, Sha256};
use std::alloc::Global;
use std::fs::OpenFile;
use std::time::Duration;
use ts_folder::{Folder, FolderFault, Kind};
use ts_model::row::{Content, Row, Stamp};
use ts_name::{Name, Path, PathFault};
use ts_print::SubPrint;
use ts_site::SiteFault;

/// How many bytes of a file are read at once.
pub(crate) const PIECE: usize = 65_536;

/// Looks whether what lies in the folder where the part stands is just that part, and answers a look at each row's file,
/// taken before its bytes were read; a directory has none. Only directories and files of the part are listed and read.
///
/// `Changed` where it isn't, or where something there can't be listed or read for another reason than the device's.
pub(crate) fn compare<F: Folder>(
    folder: &F,
    alloc: Global,
    before: &SubPrint<'_>,
    now: Duration,
) -> Result<Vec<Option<Look>>, SiteFault>
where
    F::File: OpenFile,
    ensures same { IfOk result (λ _. IfSome (F.tells folder.now) (λ tree. HasPart (at tree) before.now)) }
    ensures looks { IfOk result (λ looks. length before.now.rows ≡ length (root_row {F = Stamp} before.now.top) + length looks.items) }
    ensures fault { IfErr result (MayEnd (Troubles (F.lets folder.now)) (IfSome (F.tells folder.now) (λ tree. ¬ HasPart (at tree) before.now))) }
    ensures misfit { IfErr result (λ e. e ≢ SiteFault.Misfit) }
{
    let rows = before.rows();
    if before.top().is_root() {
        compare_children(folder, alloc, before.top(), rows)?;
        return compare_all(folder, alloc, rows, now);
    }
    if rows.is_empty() {
        return if is_absent(folder, alloc, before.top())? {
            Ok(Vec::new(alloc))
        } else {
            Err(SiteFault::Changed)
        };
    }
    compare_all(folder, alloc, rows, now)
}

/// Makes room for a piece of a file, and looks whether each row is there, and nothing else in a directory among them. It
/// answers a look for each row.
fn compare_all<F: Folder>(
    folder: &F,
    alloc: Global,
    rows: &[Row<Stamp>],
    now: Duration,
) -> Result<Vec<Option<Look>>, SiteFault>
where
    F::File: OpenFile,
    requires { Ascend rows.now }
    ensures same { IfOk result (λ _. HasAll (F.tells folder.now) rows.now) }
    ensures looks { IfOk result (λ looks. length looks.items ≡ length rows.now) }
    ensures fault { IfErr result (MayEnd (Troubles (F.lets folder.now)) (LacksSome (F.tells folder.now) rows.now)) }
    ensures lawful { IfOk result (λ _. AllByRecursion (λ row. row.content ≢ Absent → IfSome (F.tells folder.now) IsTreeBody) rows.now) }
{
    let Ok(mut buffer) = vec![in alloc; 0u8; PIECE] else {
        return Err(SiteFault::OutOfMemory);
    };
    compare_rows(folder, alloc, rows, now, buffer.as_mut_slice())
}

/// Looks whether each row is there, and nothing else in a directory among them. It answers a look for each row.
fn compare_rows<F: Folder>(
    folder: &F,
    alloc: Global,
    rows: &[Row<Stamp>],
    now: Duration,
    buffer: &mut [u8],
) -> Result<Vec<Option<Look>>, SiteFault>
where
    F::File: OpenFile,
    requires room { 0 < length buffer.old }
    requires order { Ascend rows.now }
    ensures same { IfOk result (λ _. HasAll (F.tells folder.now) rows.now) }
    ensures looks { IfOk result (λ looks. length looks.items ≡ length rows.now) }
    ensures fault { IfErr result (MayEnd (Troubles (F.lets folder.now)) (LacksSome (F.tells folder.now) rows.now)) }
    ensures lawful { IfOk result (λ _. AllByRecursion (λ row. row.content ≢ Absent → IfSome (F.tells folder.now) IsTreeBody) rows.now) }
{
    let mut looks = Vec::new(alloc);
    for row in rows {
        let look = compare_row(folder, alloc, row, rows, now, buffer)?;
        if looks.push(look).is_err() {
            return Err(SiteFault::OutOfMemory);
        }
    }
    Ok(looks)
}

/// Looks whether a row is there, and nothing but rows in it where it is a directory.
fn compare_row<F: Folder>(
    folder: &F,
    alloc: Global,
    row: &Row<Stamp>,
    rows: &[Row<Stamp>],
    now: Duration,
    buffer: &mut [u8],
) -> Result<Option<Look>, SiteFault>
where
    F::File: OpenFile,
    requires room { 0 < length buffer.old }
    requires order { Ascend rows.now }
    ensures same { IfOk result (λ _. IfSome (F.tells folder.now) (λ tree. Has (at tree) rows.now row.now)) }
    ensures fault { IfErr result (MayEnd (Troubles (F.lets folder.now)) (IfSome (F.tells folder.now) (λ tree. ¬ Has (at tree) rows.now row.now))) }
    ensures lawful { row.now.content ≢ Absent → IfSome (F.tells folder.now) IsTreeBody }
{
    match &row.content {
        Content::Absent => Ok(None),
        Content::Dir => {
            compare_children(folder, alloc, &row.path, rows)?;
            Ok(None)
        }
        Content::File(stamp) => {
            let look = compare_file(folder, alloc, &row.path, stamp, now, buffer)?;
            Ok(Some(look))
        }
    }
}

/// Whether neither a directory nor a file is at a path.
fn is_absent<F: Folder>(folder: &F, alloc: Global, path: &Path) -> Result<bool, SiteFault>
    ensures answer { IfSome (F.tells folder.now) (λ tree. IfOk result (λ is. IsTrue is ↔ (at tree path.now ≡ Absent))) }
    ensures fault { IfErr result (MayEnd (λ t. F.lets folder.now call.List path.now t ⊎ F.lets folder.now call.Read path.now t) ⊥) }
    ensures lawful { IfSome (F.tells folder.now) IsTreeBody }
{
    match folder.list(alloc, path) {
        Ok(_) => return Ok(false),
        Err(FolderFault::NotThere) => {}
        Err(fault) => return Err(told(fault)),
    }
    match folder.open_file(alloc, path) {
        Ok(_) => Ok(false),
        Err(FolderFault::NotThere) => Ok(true),
        Err(fault) => Err(told(fault)),
    }
}

/// Looks whether a directory is at a path, of which each child is one of the rows.
fn compare_children<F: Folder>(
    folder: &F,
    alloc: Global,
    path: &Path,
    rows: &[Row<Stamp>],
) -> Result<(), SiteFault>
    requires { Ascend rows.now }
    ensures same { IfOk result (λ _. IfSome (F.tells folder.now) (λ tree. HasOnly (at tree) rows.now path.now)) }
    ensures fault { IfErr result (MayEnd (F.lets folder.now call.List path.now) (IfSome (F.tells folder.now) (λ tree. ¬ HasOnly (at tree) rows.now path.now))) }
    ensures lawful { IfSome (F.tells folder.now) IsTreeBody }
{
    let children = match folder.list(alloc, path) {
        Ok(children) => children,
        Err(fault) => return Err(told(fault)),
    };
    for (name, kind) in &children {
        if !is_among(alloc, path, name, *kind, rows)? {
            return Err(SiteFault::Changed);
        }
    }
    Ok(())
}

/// Whether a child of a directory is one of the rows, with its kind. One that is unseen is looked at where its row is compared.
fn is_among(
    alloc: Global,
    parent: &Path,
    name: &Name,
    kind: Kind,
    rows: &[Row<Stamp>],
) -> Result<bool, SiteFault>
    requires { Ascend rows.now }
    ensures answer { IfOk result (λ is. IsTrue is ↔ (IsPath (parent.now ++ name.now ∷ []) × Says rows.now (parent.now ++ name.now ∷ []) kind)) }
    ensures fault { IfErr result (λ e. e ≡ SiteFault.OutOfMemory) }
{
    let path = match parent.child(alloc, name) {
        Ok(path) => path,
        Err(PathFault::TooLong) => return Ok(false),
        Err(_) => return Err(SiteFault::OutOfMemory),
    };
    let Ok(place) = rows.binary_search_by(|row| row.path.cmp(&path)) else {
        return Ok(false);
    };
    Ok(is_of(&rows[place].content, kind))
}

/// Whether a row's content is of a kind. What is unseen may be of either.
fn is_of(content: &Content<Stamp>, kind: Kind) -> bool
    ensures { IsTrue result ↔ IsOf content.now kind }
{
    match content {
        Content::Absent => false,
        Content::Dir => kind != Kind::File,
        Content::File(_) => kind != Kind::Dir,
    }
}

/// Looks whether a file has this stamp, and answers a look at it from before it was read. Its size is that of the bytes which
/// are read, whatever its metadata says.
fn compare_file<F: Folder>(
    folder: &F,
    alloc: Global,
    path: &Path,
    stamp: &Stamp,
    now: Duration,
    buffer: &mut [u8],
) -> Result<Look, SiteFault>
where
    F::File: OpenFile,
    requires { 0 < length buffer.old }
    ensures same { IfOk result (λ _. IfSome (F.tells folder.now) (λ tree. stamped (at tree path.now) ≡ File stamp.now)) }
    ensures fault { IfErr result (MayEnd (Troubles (F.lets folder.now)) (IfSome (F.tells folder.now) (λ tree. stamped (at tree path.now) ≢ File stamp.now))) }
    ensures lawful { IfSome (F.tells folder.now) IsTreeBody }
{
    let mut file = match folder.open_file(alloc, path) {
        Ok(file) => file,
        Err(fault) => return Err(told(fault)),
    };
    let Ok(metadata) = file.metadata() else {
        return Err(SiteFault::Device);
    };
    let look = Look::new(&metadata, now);
    if has_stamp(folder, &mut file, stamp, buffer)? {
        Ok(look)
    } else {
        Err(SiteFault::Changed)
    }
}

/// Whether an open file has this stamp. Of one that is longer at most one buffer is read past the stamp's size.
fn has_stamp<F: Folder>(
    folder: &F,
    file: &mut F::File,
    stamp: &Stamp,
    buffer: &mut [u8],
) -> Result<bool, SiteFault>
    requires { 0 < length buffer.old }
    ensures answer { (p : List (List ℕ)) → F.is_open folder.now file.old p → AnswersFile (F.tells folder.now) p stamp.now result }
    ensures fault { (p : List (List ℕ)) → F.is_open folder.now file.old p → IfErr result (MayEnd (F.lets folder.now call.Read p) ⊥) }
{
    let mut hasher = Sha256::new();
    let mut offset = 0u64;
    loop {
        let count = match folder.fill(file, offset, buffer) {
            Ok(count) => count,
            Err(fault) => return Err(told(fault)),
        };
        hasher.update(&buffer[..count]);
        let Some(end) = offset.checked_add(count as u64) else {
            return Ok(false);
        };
        offset = end;
        if count < buffer.len() {
            return Ok(offset == stamp.size && hasher.finalize() == stamp.digest);
        }
        // one that is longer by now isn't read to its end
        if offset > stamp.size {
            return Ok(false);
        }
    }
}

/// What a folder's fault is reported as: what isn't there, or can't be what it was, is a change.
fn told(fault: FolderFault) -> SiteFault
    ensures { result ≡ site_fault fault }
{
    match fault {
        FolderFault::OutOfMemory => SiteFault::OutOfMemory,
        FolderFault::Device => SiteFault::Device,
        FolderFault::NotThere | FolderFault::Unreadable => SiteFault::Changed,
    }
}
