//! The spots of a swap on a disk.
ghost use Rattle.std.specs.Fmt.{decimal};
ghost use Rattle.std.specs.Prelude.{◌≡◌, ◌++◌, false, length, IfErr, IfOk, codes};
ghost use Rattle.std.specs.String.{string_bytes};
ghost use Rattle.ts_name.specs.Paths.{place_text};
ghost use Rattle.ts_disk.specs.Names.{IfKept, IsNumbered};
ghost use Rattle.ts_disk.specs.Swaps.{place_of};
ghost use Rattle.ts_swap.specs.Leavings.{Counts};

use crate::fault::DiskFault;
use crate::leftover::{Aside, is_of_others, move_to_free, remove_at};
use crate::modes::keep_bits;
use crate::names::{KEPT, MADE};
use crate::place::{
    Home, Standing, are_one, check_home, create_file, is_same, kind_at, look_at, metadata_at,
    own_place, stage_place,
};
use crate::staging::{Bits, write_tree};
use std::alloc::Global;
use std::fs::{Files, Metadata};
use std::io::ErrorKind;
use std::{fs, io};
use ts_cause::{Cause, cause_of};
use ts_model::items::Items;
use ts_model::row::Row;
use ts_name::Path;
use ts_swap::{Failed, Places, Spot, recover};

/// The spots of the swap of one entry in a replica on a disk: the entry's place below the root, and for entry `k` the places
/// `.twosync/new-k` and `.twosync/old-k` in it. They tell nothing of what lies there.
///
/// No link below the root is followed: before each call it is looked at what stands above its places. Where somebody puts a
/// link there between the look and a rename, a look after it notices that, and what was moved goes back.
pub struct DiskPlaces<R> {
    pub(crate) files: R,
    root: usize,
    own: String,
    at_target: String,
    at_new: String,
    at_old: String,
    entry: u32,
    failures: u64,
    // why a call failed last that changes something, as far as the system says
    cause: Cause,
    // something couldn't be removed, and was put out of the way
    has_trash: bool,
}

/// Written out, so that a proof of what drops one stays short.
impl<R: Drop> Drop for DiskPlaces<R> {
    fn drop(self) {
        let DiskPlaces {
            files,
            own,
            at_target,
            at_new,
            at_old,
            root: _,
            entry: _,
            failures: _,
            cause: _,
            has_trash: _,
        } = self;
        drop(files);
        drop(own);
        drop(at_target);
        drop(at_new);
        drop(at_old);
    }
}

impl<R: Drop> DiskPlaces<R> {
    /// The spots for the entry of this number and path. Nothing is looked at yet.
    pub fn new(
        alloc: Global,
        files: R,
        root: &str,
        path: &Path,
        entry: u32,
    ) -> Result<DiskPlaces<R>, DiskFault>
        ensures failures { IfOk result (λ places. places.failures ≡ 0) }
        ensures clean { IfOk result (λ places. places.has_trash ≡ false) }
        ensures entry { IfOk result (λ places. places.entry ≡ entry) }
        ensures root { IfOk result (λ places. places.root ≡ length root.now) }
        ensures own { IfOk result (λ places. string_bytes places.own ≡ root.now ++ codes "/.twosync") }
        ensures target { IfOk result (λ places. string_bytes places.at_target ≡ root.now ++ place_text path.now) }
        ensures new { IfOk result (λ places. string_bytes places.at_new ≡ root.now ++ codes "/.twosync/new-" ++ decimal entry) }
        ensures old { IfOk result (λ places. string_bytes places.at_old ≡ root.now ++ codes "/.twosync/old-" ++ decimal entry) }
        ensures fault { IfErr result (λ e. e ≡ DiskFault.OutOfMemory) }
    {
        let own = own_place(alloc, root)?;
        let at_target = path.place_below(alloc, root)?;
        let at_new = format!(in alloc; "{own}/new-{entry}")?;
        let at_old = format!(in alloc; "{own}/old-{entry}")?;
        Ok(DiskPlaces {
            files,
            root: root.len(),
            own,
            at_target,
            at_new,
            at_old,
            entry,
            failures: 0,
            cause: Cause::Unknown,
            has_trash: false,
        })
    }

    /// How often a call failed that changes something, up to 2^64 - 1.
    pub fn failures(&self) -> u64
        ensures { result ≡ self.now.failures }
    {
        self.failures
    }

    /// Counts a failure, if it is one, and answers what is reported of it.
    pub(crate) fn counted(&mut self, done: &io::Result<()>) -> Result<(), Failed>
        ensures { Counts self.old.failures self.new.failures result }
    {
        match done {
            Ok(()) => Ok(()),
            Err(e) => {
                self.failures = self.failures.saturating_add(1);
                self.cause = cause_of(e);
                Err(Failed)
            }
        }
    }

    /// Why a call failed last that changes something, as far as the system says.
    pub(crate) fn cause(&self) -> Cause
        ensures { result ≡ self.now.cause }
    {
        self.cause
    }

    /// The place where the pieces of the entry are stored until its commit.
    pub(crate) fn stage(&self) -> io::Result<String>
    where
        R: AllocGlobal,
        ensures { IfOk result (λ place. string_bytes place ≡ string_bytes self.now.own ++ codes "/stage-" ++ decimal self.now.entry) }
    {
        Ok(stage_place(self.files.alloc(), self.own.as_str(), self.entry)?)
    }

    /// The place of a spot.
    pub(crate) fn place(&self, spot: Spot) -> &str
        ensures { result.now ≡ place_of spot (string_bytes self.now.at_target) (string_bytes self.now.at_new) (string_bytes self.now.at_old) }
    {
        match spot {
            Spot::Target => self.at_target.as_str(),
            Spot::New => self.at_new.as_str(),
            Spot::Old => self.at_old.as_str(),
        }
    }
}

impl<R: Files + AllocGlobal + Clone + Drop> DiskPlaces<R> {
    /// What stands at a spot.
    pub(crate) fn look(&self, spot: Spot) -> io::Result<Standing> {
        look_at(&self.files, self.place(spot), self.root)
    }

    /// Moves what stands at a spot to another, where nothing stands. Others may take the target at any moment, and are never
    /// replaced there.
    ///
    /// A link that others put above the target between the look and the call is followed by the system. A look after the
    /// call notices that, and what was moved goes back.
    pub(crate) fn move_over(&self, from: Spot, to: Spot) -> io::Result<()> {
        let standing = self.look(from)?;
        match standing {
            Standing::Dir | Standing::File | Standing::Other => {}
            Standing::Nothing | Standing::CutOff => {
                return Err(io::Error::from(ErrorKind::NotFound));
            }
        }
        let moved = metadata_at(&self.files, self.place(from))?;
        self.move_to_nothing(from, standing, to)?;
        match self.look(Spot::Target) {
            Ok(Standing::CutOff) if self.move_back(moved.as_ref(), from, standing, to).is_ok() => {
                Err(io::Error::from(ErrorKind::NotFound))
            }
            _ => Ok(()),
        }
    }

    /// Moves back what was moved from a spot to another, if it is still there. What came to the old spot, where nothing was, is
    /// what was moved, even where it isn't what was looked at before.
    fn move_back(
        &self,
        moved: Option<&Metadata>,
        from: Spot,
        standing: Standing,
        to: Spot,
    ) -> io::Result<()> {
        let there = metadata_at(&self.files, self.place(to))?;
        match (moved, there) {
            (Some(moved), Some(there)) if to == Spot::Old || is_same(moved, &there) => {
                move_anew(&self.files, self.place(to), standing, self.place(from))
            }
            _ => Err(io::Error::from(ErrorKind::NotFound)),
        }
    }

    /// Moves what stands at a spot to another, if nothing stands there.
    fn move_to_nothing(&self, from: Spot, standing: Standing, to: Spot) -> io::Result<()> {
        match self.look(to)? {
            Standing::Nothing if to == Spot::Target => {
                move_anew(&self.files, self.place(from), standing, self.place(to))
            }
            Standing::Nothing => fs::rename(&self.files, self.place(from), self.place(to)),
            Standing::CutOff => Err(io::Error::from(ErrorKind::NotFound)),
            Standing::Dir | Standing::File | Standing::Other => {
                Err(io::Error::from(ErrorKind::AlreadyExists))
            }
        }
    }

    /// Removes what stands at a spot, and all below it.
    pub(crate) fn clear(&self, spot: Spot) -> io::Result<()> {
        match self.look(spot)? {
            Standing::Nothing | Standing::CutOff => Ok(()),
            Standing::Dir | Standing::File | Standing::Other => {
                remove_at(&self.files, self.place(spot))
            }
        }
    }

    /// Puts an empty file at the new spot, where nothing stands. As long as it is there, recovery takes what lies aside for
    /// something that has to go back.
    pub(crate) fn mark(&self) -> io::Result<()> {
        let _mark = create_file(&self.files, self.place(Spot::New))?;
        Ok(())
    }

    /// Fails where another directory of the program's own stands in the replica than this one, or none.
    pub(crate) fn check_home(&self, home: Option<Home>) -> io::Result<()> {
        check_home(&self.files, self.own.as_str(), home)
    }

    /// Gives a file at the new spot the permission bits of the one at the old spot, where both are files.
    pub(crate) fn keep_bits(&self) -> io::Result<()> {
        keep_bits(&self.files, self.place(Spot::Old), self.place(Spot::New))
    }

    /// Removes what stands at a spot, or renames it to a free `.twosync/trash-N` where it can't be removed. Where others have
    /// something in it, it becomes a `left-N`, which no run removes.
    fn clear_or_discard(&mut self, spot: Spot) -> io::Result<()>
        ensures { self.new.failures ≡ self.old.failures }
    {
        let stem = match self.clear(spot) {
            Ok(()) => return Ok(()),
            Err(e) if is_of_others(&e) => "left",
            Err(_) => "trash",
        };
        let _place = self.move_to_free(spot, stem)?;
        self.has_trash = true;
        Ok(())
    }

    /// Removes what stands at a spot. Where others have something in it, it is kept for now.
    pub(crate) fn clear_or_keep(&self, spot: Spot) -> io::Result<()> {
        match self.clear(spot) {
            Err(e) if is_of_others(&e) => self.keep_for_notice(spot),
            cleared => cleared,
        }
    }

    /// Keeps what stands at a spot as `.twosync/left-N`, where `N` is the first number that is free: what can't go back to its
    /// place, and may be the only copy of something. Answers where that is.
    pub(crate) fn keep(&self, spot: Spot) -> io::Result<String>
        ensures { IfOk result (λ place. IsNumbered (string_bytes self.now.own) (codes "left") (string_bytes place)) }
    {
        self.move_to_free(spot, "left")
    }

    /// Keeps what stands at the old or the new spot for now, as `.twosync/kept-K` or `.twosync/made-K` for entry `K`. When the
    /// run ends, or by recovery, it becomes a `left-N`, and that is reported with the entry's path.
    pub(crate) fn keep_for_notice(&self, spot: Spot) -> io::Result<()> {
        let alloc = self.files.alloc();
        let (own, entry) = (self.own.as_str(), self.entry);
        let stem = if spot == Spot::New { MADE } else { KEPT };
        let place = format!(in alloc; "{own}/{stem}{entry}")?;
        match kind_at(&self.files, place.as_str())? {
            Standing::Nothing => fs::rename(&self.files, self.place(spot), place.as_str()),
            _ => {
                let _place = self.keep(spot)?;
                Ok(())
            }
        }
    }

    /// Keeps what was kept for now under this name, and answers where that is.
    pub(crate) fn keep_named(&self, name: &str) -> io::Result<String>
        ensures { IfOk result (λ place. IsNumbered (string_bytes self.now.own) (codes "left") (string_bytes place)) }
    {
        let own = self.own.as_str();
        let place = format!(in self.files.alloc(); "{own}/{name}")?;
        self.move_from(place.as_str(), "left")
    }

    /// Removes the name that the target still has at a spot, where both are one file. Answers whether it did.
    pub(crate) fn drop_name(&self, spot: Spot) -> bool {
        let (target, other) = (self.place(Spot::Target), self.place(spot));
        are_one(&self.files, target, other).unwrap_or(false)
            && fs::remove_file(&self.files, other).is_ok()
    }

    /// Moves what stands at a spot to the first name `STEM-N` in the program's own directory that is free.
    fn move_to_free(&self, spot: Spot, stem: &str) -> io::Result<String>
        ensures { IfOk result (λ place. IsNumbered (string_bytes self.now.own) stem.now (string_bytes place)) }
    {
        self.move_from(self.place(spot), stem)
    }

    /// The same with what stands at a place in the program's own directory.
    fn move_from(&self, place: &str, stem: &str) -> io::Result<String>
        ensures { IfOk result (λ place. IsNumbered (string_bytes self.now.own) stem.now (string_bytes place)) }
    {
        move_to_free(&self.files, self.own.as_str(), place, stem)
    }

    /// Brings the swap to an end. Where the original can't go back it is kept first: others took the target while it was
    /// absent, or the directory in which it stood is gone.
    pub(crate) fn end(&mut self) -> io::Result<Aside>
        ensures { IfOk result (λ aside. IfKept aside (IsNumbered (string_bytes self.old.own) (codes "left"))) }
    {
        let kept = if self.is_old_stranded()? {
            Some(self.keep(Spot::Old)?)
        } else {
            None
        };
        if recover(self).is_err() {
            return Err(io::Error::from(ErrorKind::Other));
        }
        Ok(match kept {
            Some(place) => Aside::Kept { place },
            None if self.has_trash => Aside::Discarded,
            None => Aside::Cleared,
        })
    }

    /// Brings the swap to an end, but for an original that can't go back: it stays aside until the run ends, and is reported.
    pub(crate) fn end_unless_stranded(&mut self) {
        if let Ok(false) = self.is_old_stranded() {
            let _ = recover(self);
        }
    }

    /// Whether the original lies aside and can't go back to its place.
    fn is_old_stranded(&self) -> io::Result<bool> {
        match self.look(Spot::Old)? {
            Standing::Nothing | Standing::CutOff => return Ok(false),
            Standing::Dir | Standing::File | Standing::Other => {}
        }
        Ok(self.look(Spot::Target)? == Standing::CutOff || self.is_target_foreign()?)
    }

    /// Whether the target was taken by others while it was absent, so that neither the new content nor the original is there.
    fn is_target_foreign(&self) -> io::Result<bool> {
        for spot in [Spot::Target, Spot::New, Spot::Old] {
            match self.look(spot)? {
                Standing::Dir | Standing::File | Standing::Other => {}
                Standing::Nothing | Standing::CutOff => return Ok(false),
            }
        }
        // a stop between the two steps by which a file is put in place, or back there, leaves it under both names
        let target = self.place(Spot::Target);
        let is_new = are_one(&self.files, target, self.place(Spot::New))?;
        let is_old = are_one(&self.files, target, self.place(Spot::Old))?;
        Ok(!is_new && !is_old)
    }
}

/// Moves what stands at a place of the program's own to another, and never replaces what came there meanwhile. A directory is
/// renamed, since the system renames none over anything but an empty directory. All else is linked to its new name, which
/// fails where that is taken, and then loses the old one; an old name that can't be removed stays as a second one. Where the
/// file system has no such links, it is renamed after a look.
fn move_anew<R: Files>(files: &R, from: &str, standing: Standing, to: &str) -> io::Result<()> {
    if standing == Standing::Dir {
        return fs::rename(files, from, to);
    }
    match fs::hard_link(files, from, to) {
        Ok(()) => {
            let _ = fs::remove_file(files, from);
            Ok(())
        }
        Err(e) if is_taken(&e) || e.kind() == ErrorKind::NotFound => Err(e),
        Err(_) => match kind_at(files, to)? {
            Standing::Nothing => fs::rename(files, from, to),
            _ => Err(io::Error::from(ErrorKind::AlreadyExists)),
        },
    }
}

/// Whether a call failed because something stands where its result was to stand.
pub(crate) fn is_taken(e: &io::Error) -> bool {
    match e.kind() {
        ErrorKind::AlreadyExists
        | ErrorKind::DirectoryNotEmpty
        | ErrorKind::IsADirectory
        | ErrorKind::NotADirectory => true,
        _ => false,
    }
}

impl<R: Files + AllocGlobal + Clone + Drop> Places for DiskPlaces<R> {
    ghost use Rattle.std.specs.Prelude.{[], None};

    ghost spots = { λ _. None };

    ghost moments = { λ _. [] };

    ghost failures = { λ p. p.failures };

    ghost hides = { λ _ _. Unit {0} };

    ghost stands = { λ _. tt };

    fn present(&self, spot: Spot) -> Result<bool, Failed> {
        match self.look(spot) {
            Ok(Standing::Dir | Standing::File | Standing::Other) => Ok(true),
            Ok(Standing::Nothing | Standing::CutOff) => Ok(false),
            Err(_) => Err(Failed),
        }
    }

    fn write(&mut self, tree: &[Row<Items<u8>>]) -> Result<(), Failed> {
        let done = write_tree(&self.files, tree, self.at_new.as_str(), &Bits::private());
        self.counted(&done)
    }

    fn rename(&mut self, from: Spot, to: Spot) -> Result<(), Failed> {
        let done = self.move_over(from, to);
        self.counted(&done)
    }

    fn remove(&mut self, spot: Spot) -> Result<(), Failed> {
        let done = self.clear_or_discard(spot);
        self.counted(&done)
    }
}
