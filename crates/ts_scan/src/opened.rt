//! What a child is when it is opened.
ghost use Rattle.std.specs.Prelude.{◌≡◌, ◌≢◌, ◌<◌, ◌↔◌, ◌∷◌, ◌++◌, [], length, IfOk, IfSome, IsTrue};
ghost use Rattle.ts_folder.specs.Folders.{CanBe};
ghost use Rattle.ts_model.specs.Trees.{at};
ghost use Rattle.ts_model.specs.declared.row.Content.TheVariants.{Absent, Dir};
ghost use Rattle.ts_scan.specs.Faults.{FailsAsTold};
ghost use Rattle.ts_scan.specs.Openings.{IsChildOf, IsOpened, kind_under};

use crate::fault::{Refusal, ScanFault, told};
use crate::file::stamp_of_file;
use std::alloc::Global;
use ts_folder::{Folder, Kind};
use ts_model::row::Stamp;
use ts_name::{Name, Path};

/// What a child of a directory turned out to be.
#[derive(Drop)]
pub(crate) enum Opened {
    /// It is not there any more.
    Gone,
    /// A file, with its stamp.
    File(Stamp),
    /// A directory, with its children.
    Dir(Vec<(Name, Kind)>),
}

/// A directory whose children are opened.
#[derive(Drop)]
pub(crate) struct Parent<'a, F> {
    pub(crate) folder: &'a F,
    pub(crate) alloc: Global,
    pub(crate) path: &'a Path,
}

impl<F: Folder> Parent<'_, F> {
    /// Opens the child with this name and path that was listed with this kind. Where nothing of that kind is there, the
    /// directory is listed again, up to `tries` times, and the child is opened as what that listing says.
    pub(crate) fn open(
        &self,
        name: &Name,
        path: &Path,
        kind: Kind,
        buffer: &mut [u8],
        tries: u32,
    ) -> Result<Opened, ScanFault>
        requires room { 0 < length buffer.old }
        requires child { path.now ≡ self.now.path.now ++ name.now ∷ [] }
        ensures opened { IfOk result (IsOpened (F.tells self.now.folder.now) path.now kind) }
        ensures fault { FailsAsTold (F.lets self.now.folder.now) (F.tells self.now.folder.now) (λ tree. CanBe (tree path.now) kind) result }
    {
        match self.open_as(path, kind, buffer) {
            Err(
                ScanFault::At {
                    fault: Refusal::NotThere,
                    ..
                },
            ) if tries > 0 => match self.kind_now(name)? {
                Some(kind) => self.open(name, path, kind, buffer, tries - 1),
                None => Ok(Opened::Gone),
            },
            opened => opened,
        }
    }

    /// Opens a child as what has this kind.
    fn open_as(&self, path: &Path, kind: Kind, buffer: &mut [u8]) -> Result<Opened, ScanFault>
        requires room { 0 < length buffer.old }
        requires child { IsChildOf self.now.path.now path.now }
        ensures opened { IfOk result (IsOpened (F.tells self.now.folder.now) path.now kind) }
        ensures fault { FailsAsTold (F.lets self.now.folder.now) (F.tells self.now.folder.now) (λ tree. CanBe (tree path.now) kind) result }
    {
        let is_dir = match kind {
            Kind::Dir => true,
            Kind::File => false,
            Kind::Unseen => self.is_dir(path)?,
        };
        if !is_dir {
            let stamp = stamp_of_file(self.folder, self.alloc, path, buffer)?;
            return Ok(Opened::File(stamp));
        }
        match self.folder.list(self.alloc, path) {
            Ok(children) => Ok(Opened::Dir(children)),
            Err(fault) => Err(told(self.alloc, path, fault)),
        }
    }

    /// Whether a child that its listing has left unseen is a directory. A fault is reported at the directory that has it, as one
    /// of the listing.
    fn is_dir(&self, path: &Path) -> Result<bool, ScanFault>
        requires { IsChildOf self.now.path.now path.now }
        ensures told { IfSome (F.tells self.now.folder.now) (λ rows. IfOk result (λ is. IsTrue is ↔ (at rows path.now ≡ Dir))) }
        ensures fault { FailsAsTold (F.lets self.now.folder.now) (F.tells self.now.folder.now) (λ tree. tree path.now ≢ Absent) result }
    {
        match self.folder.is_dir(self.alloc, path) {
            Ok(is_dir) => Ok(is_dir),
            Err(fault) => Err(told(self.alloc, self.path, fault)),
        }
    }

    /// What stands under a name by a new listing of the directory.
    fn kind_now(&self, name: &Name) -> Result<Option<Kind>, ScanFault>
        ensures fault { FailsAsTold (F.lets self.now.folder.now) (F.tells self.now.folder.now) (λ tree. tree self.now.path.now ≡ Dir) result }
    {
        match self.folder.list(self.alloc, self.path) {
            Ok(children) => Ok(kind_under(&children, name)),
            Err(fault) => Err(told(self.alloc, self.path, fault)),
        }
    }
}

/// The kind that a listing has for a name.
fn kind_under(children: &[(Name, Kind)], name: &Name) -> Option<Kind>
    ensures { result ≡ kind_under children.now name.now }
{
    let child = children.iter().find(|child| child.0 == *name)?;
    Some(child.1)
}
