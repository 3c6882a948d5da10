//! What a folder is.
ghost use Rattle.std.specs.Prelude.{◌≡◌, ◌≢◌, ◌+◌, ◌≤◌, ◌↔◌, ◌∷◌, ◌++◌, [], ℕ, List, Option, length, take, drop, vec_len};
ghost use Rattle.std.specs.Prelude.{IfErr, IfOk, IfSome, IsTrue, OnOk};
ghost use Rattle.ts_folder.specs.Folders.{AreChildren, Fills, InOrder, IsFile, IsMissing, MayAnswer, Reads};
ghost use Rattle.ts_folder.specs.declared.fault.Trouble.{Trouble};
ghost use Rattle.ts_folder.specs.declared.folder.Call.{Call};
ghost use Rattle.ts_model.specs.Texts.{IsTreeBody};
ghost use Rattle.ts_model.specs.Trees.{at};
ghost use Rattle.ts_model.specs.declared.row.Content.TheVariants.{Absent, Dir};
ghost use Rattle.ts_model.specs.declared.row.Row.{Row};

use crate::fault::FolderFault;
use std::alloc::{AllocError, Global};
use ts_name::{Name, Path};

/// The bytes that `read` makes room for at first, and so at most beyond those that are there: a piece's.
const FIRST_ROOM: usize = 1_048_576;

/// What room is made by.
const ZEROS: [u8; 4_096] = [0; 4_096];

/// What stands in a directory under a name.
#[derive(Clone, Copy, Debug, PartialEq, Eq, Drop)]
pub enum Kind {
    Dir,
    File,
    /// The folder hasn't looked: `is_dir` does. A folder that tells its tree has.
    Unseen,
}

/// What is asked of a folder.
#[derive(Clone, Copy, Debug, PartialEq, Eq, Drop)]
pub enum Call {
    /// What stands in a directory.
    List,
    /// The bytes of a file.
    Read,
}

/// Directories and files that can be listed and read, by several threads at once.
///
/// A folder that tells its tree answers by it. What it may fail with by itself, and where, is said by its value, which no
/// call changes.
pub trait Folder: Sync {
    /// A file that was opened.
    type File: Drop;

    // What is at each path but the root, where it tells its tree.
    ghost tells: { Self → Option (List (Row (List ℕ))) };

    // Whether a call at a path may fail so.
    ghost lets: { Self → Call → List (List ℕ) → Trouble → Type 0 };

    // The file was opened at this path.
    ghost is_open: { Self → Self.File → List (List ℕ) → Type 0 };

    /// What stands in a directory, by ascending names.
    fn list(&self, alloc: Global, path: &Path) -> Result<Vec<(Name, Kind)>, FolderFault>
        ensures order { IfOk result (λ names. InOrder names.items) }
        ensures told { IfSome (tells self.now) (λ rows. IfOk result (λ names. AreChildren (at rows) path.now names.items)) }
        ensures fault { IfErr result (MayAnswer (lets self.now Call.List path.now) (IfSome (tells self.now) (λ rows. at rows path.now ≢ Dir))) }
        ensures lawful { IfSome (tells self.now) IsTreeBody };

    /// Whether a directory stands at the path of a child that a listing has left unseen, and not a file. Its faults are those of
    /// that listing. Nothing is looked at above the child.
    fn is_dir(&self, alloc: Global, path: &Path) -> Result<bool, FolderFault>
        ensures told { IfSome (tells self.now) (λ rows. IfOk result (λ is. IsTrue is ↔ (at rows path.now ≡ Dir))) }
        ensures there { IfSome (tells self.now) (λ rows. IfOk result (λ _. at rows path.now ≢ Absent)) }
        ensures fault { (p : List (List ℕ)) (name : List ℕ) → path.now ≡ p ++ name ∷ []
            → IfErr result (MayAnswer (lets self.now Call.List p) (IsMissing (tells self.now) path.now)) };

    /// Opens the file at a path.
    fn open_file(&self, alloc: Global, path: &Path) -> Result<Self::File, FolderFault>
        ensures opened { IfOk result (λ file. is_open self.now file path.now) }
        ensures told { IfSome (tells self.now) (λ rows. IfOk result (λ _. IsFile (at rows path.now))) }
        ensures fault { IfErr result (MayAnswer (lets self.now Call.Read path.now) (IfSome (tells self.now) (λ rows. ¬ IsFile (at rows path.now)))) }
        ensures lawful { IfSome (tells self.now) IsTreeBody };

    /// Reads an open file's bytes from an offset on into the front of the buffer, and answers how many: fewer than the
    /// buffer has only at the file's end, and none past it. What is in the buffer after them is not told.
    fn fill(
        &self,
        file: &mut Self::File,
        offset: u64,
        buffer: &mut [u8],
    ) -> Result<usize, FolderFault>
        ensures bound { IfOk result (λ n. n ≤ length buffer.new) }
        ensures told { (p : List (List ℕ)) → is_open self.now file.old p → IfSome (tells self.now) (λ rows. IfOk result (Fills (at rows p) offset buffer.new)) }
        ensures fault { (p : List (List ℕ)) → is_open self.now file.old p → IfErr result (MayAnswer (lets self.now Call.Read p) ⊥) }
        ensures opened { (p : List (List ℕ)) → is_open self.now file.old p → is_open self.now file.new p };

    /// The bytes of the file at a path from an offset on: fewer than `len` only at the file's end, and none past it.
    final fn read(
        &self,
        alloc: Global,
        path: &Path,
        offset: u64,
        len: u32,
    ) -> Result<Vec<u8>, FolderFault>
        ensures bound { IfOk result (λ bytes. length bytes.items ≤ len) }
        ensures told { IfSome (tells self.now) (λ rows. IfOk result (λ bytes. Reads (at rows path.now) offset len bytes.items)) }
        ensures fault { IfErr result (MayAnswer (lets self.now Call.Read path.now) (IfSome (tells self.now) (λ rows. ¬ IsFile (at rows path.now)))) }
        ensures lawful { IfSome (tells self.now) IsTreeBody }
    {
        let mut file = self.open_file(alloc, path)?;
        let wanted = len as usize;
        let mut bytes = Vec::new(alloc);
        while bytes.len() < wanted {
            let start = bytes.len();
            let Some(at) = offset.checked_add(start as u64) else {
                return Ok(bytes);
            };
            let room = (wanted - start).min(start.max(FIRST_ROOM));
            make_room(&mut bytes, room)?;
            let count = fill_behind(self, &mut file, at, &mut bytes, start)?;
            bytes.truncate(start + count);
            if count < room {
                return Ok(bytes);
            }
        }
        Ok(bytes)
    }
}

/// Puts so many bytes more at the end, for others to be read over them. Whole blocks of them are copied: `resize` writes one byte
/// after the other, and takes as long as it does to read them.
fn make_room(bytes: &mut Vec<u8>, count: usize) -> Result<(), AllocError>
    ensures len { OnOk result (vec_len bytes.new ≡ vec_len bytes.old + count) }
    ensures before { OnOk result (take (vec_len bytes.old) bytes.new.items ≡ bytes.old.items) }
{
    bytes.reserve(count)?;
    let mut missing = count;
    while missing > 0 {
        let block = missing.min(ZEROS.len());
        bytes.extend_from_slice(&ZEROS[..block])?;
        missing -= block;
    }
    Ok(())
}

/// Fills what is behind the first `from` bytes, as `Folder::fill` does.
fn fill_behind<F: Folder>(
    folder: &F,
    file: &mut F::File,
    offset: u64,
    bytes: &mut Vec<u8>,
    from: usize,
) -> Result<usize, FolderFault>
    requires { from ≤ vec_len bytes.old }
    ensures len { vec_len bytes.new ≡ vec_len bytes.old }
    ensures before { take from bytes.new.items ≡ take from bytes.old.items }
    ensures bound { IfOk result (λ n. from + n ≤ vec_len bytes.old) }
    ensures told { (p : List (List ℕ)) → F.is_open folder.now file.old p
        → IfSome (F.tells folder.now) (λ rows. IfOk result (Fills (at rows p) offset (drop from bytes.new.items))) }
    ensures fault { (p : List (List ℕ)) → F.is_open folder.now file.old p → IfErr result (MayAnswer (F.lets folder.now Call.Read p) ⊥) }
    ensures opened { (p : List (List ℕ)) → F.is_open folder.now file.old p → F.is_open folder.now file.new p }
{
    let all = bytes.as_mut_slice();
    folder.fill(file, offset, &mut all[from..])
}
