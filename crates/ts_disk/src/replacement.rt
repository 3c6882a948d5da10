//! One commit's swap, which no other process can lose anything by.
ghost use Rattle.std.specs.Prelude.{◌≡◌, ◌≢◌, ◌<◌, [], false, IfErr, IfOk, IfSome, IsErr, IsTrue, None, Some};
ghost use Rattle.ts_disk.specs.Faults.{refusal_fault};
ghost use Rattle.ts_swap.specs.Leavings.{Counts};

use crate::aside::{is_same_tree, is_untouched};
use crate::compare::compare;
use crate::flushing::unflushed_since;
use crate::look::Look;
use crate::modes::permissions_at;
use crate::place::{Home, Standing};
use crate::places::{DiskPlaces, is_taken};
use crate::staging::{Bits, close_top, complete_tree};
use std::alloc::Global;
use std::io::ErrorKind;
use std::time::Clock;
use std::{fs, io};
use ts_cause::Cause;
use ts_folder::DiskFolder;
use ts_model::items::Items;
use ts_model::row::Row;
use ts_print::SubPrint;
use ts_site::SiteFault;
use ts_stage::Staged;
use ts_swap::{Failed, Places, Spot, move_in};

/// Why a swap isn't made, or was undone.
#[derive(Clone, Copy, Debug, PartialEq, Eq, Drop)]
enum Refusal {
    OutOfMemory,
    Device,
    Changed,
}

/// The spots of one commit's swap, with what has to lie at the target before it.
///
/// The target is compared right before it is moved aside. What then lies aside is looked at again, and once more before it is
/// removed: where it was changed meanwhile it is put back. What came to the target while it was absent is never replaced.
///
/// The program's own directory was made with the replica's lock, and isn't made here. Where it is gone, or another one stands there,
/// so has the replica: its disk was unmounted, and nothing is moved in what lies below.
#[derive(Drop)]
pub(crate) struct Replacement<'a> {
    places: DiskPlaces<HostRuntime>,
    // the program's own directory, as the run began
    home: Option<Home>,
    folder: &'a DiskFolder<HostRuntime>,
    before: &'a SubPrint<'a>,
    staged: &'a Staged,
    source: &'a str,
    // what the comparison saw, one look for each row of `before`
    looks: Vec<Option<Look>>,
    // the original was moved aside as it was compared
    is_aside: bool,
    // what was moved aside was changed before it was removed
    is_late: bool,
    refusal: Option<Refusal>,
}

impl<'a> Replacement<'a> {
    pub(crate) fn new(
        alloc: Global,
        places: DiskPlaces<HostRuntime>,
        home: Option<Home>,
        folder: &'a DiskFolder<HostRuntime>,
        before: &'a SubPrint<'a>,
        staged: &'a Staged,
        source: &'a str,
    ) -> Replacement<'a>
        ensures places { (result.places ≡ places) × (result.home ≡ home) }
        ensures folder { result.folder.now ≡ folder.now }
        ensures trees { (result.before.now ≡ before.now) × (result.staged.now ≡ staged.now) }
        ensures source { result.source.now ≡ source.now }
        ensures nothing { (result.looks.items ≡ []) × (result.is_aside ≡ false) × (result.is_late ≡ false) × (result.refusal ≡ None) }
    {
        Replacement {
            places,
            home,
            folder,
            before,
            staged,
            source,
            looks: Vec::new(alloc),
            is_aside: false,
            is_late: false,
            refusal: None,
        }
    }

    /// Notes why the swap isn't made.
    fn refuse(&mut self, refusal: Refusal) -> io::Error
        ensures noted { self.new.refusal ≡ Some refusal }
        ensures failures { self.new.places.failures ≡ self.old.places.failures }
    {
        self.refusal = Some(refusal);
        io::Error::from(ErrorKind::Other)
    }

    /// Notes that the swap isn't made since the device failed, with this error.
    fn refuse_for(&mut self, e: io::Error) -> io::Error
        ensures noted { self.new.refusal ≡ Some Refusal.Device }
        ensures failures { self.new.places.failures ≡ self.old.places.failures }
        ensures same { result ≡ e }
    {
        self.refusal = Some(Refusal::Device);
        e
    }

    /// Why a call of the swap failed last, as far as the system says.
    pub(crate) fn cause(&self) -> Cause
        ensures { result ≡ self.now.places.cause }
    {
        self.places.cause()
    }

    /// Where the permission bits of the new tree come from.
    fn bits(&self) -> io::Result<Bits<'a>>
        ensures plain { IfOk result (λ bits. IfSome bits.kept (λ kept. kept < 512)) }
        ensures source { IfOk result (λ bits. bits.source ≡ Some self.now.source) }
    {
        let target = self.places.place(Spot::Target);
        Ok(Bits {
            kept: permissions_at(&self.places.files, target, Standing::File)?,
            source: Some(self.source),
            since: unflushed_since(&self.places.files),
        })
    }

    /// Puts what is staged at the new spot, and moves it to the target from there. What is at the target goes where nothing is
    /// staged. After a failure it is told what was refused, and `settle` brings the swap to its end.
    pub(crate) fn replace(&mut self) -> Result<(), Failed> {
        let is_wanted = !self.is_deletion();
        if is_wanted {
            self.put_together()?;
        }
        move_in(self, is_wanted)
    }

    /// Puts what is staged at the new spot. After a failure the spot is cleared, where that can be done.
    fn put_together(&mut self) -> Result<(), Failed> {
        let done = self.write_new();
        let written = self.places.counted(&done);
        if written.is_err() {
            let _ = self.remove(Spot::New);
        }
        written
    }

    /// Writes what is staged to the new spot. Where pieces have stored some of it, the rest is written beside that, and all of it
    /// is moved to the new spot then.
    fn write_new(&self) -> io::Result<()> {
        self.places.check_home(self.home)?;
        let bits = self.bits()?;
        let files = &self.places.files;
        let new = self.places.place(Spot::New);
        if self.staged.is_held() {
            return complete_tree(files, self.staged.rows(), new, &bits);
        }
        let stage = self.places.stage()?;
        complete_tree(files, self.staged.rows(), stage.as_str(), &bits)?;
        fs::rename(files, stage.as_str(), new)
    }

    /// Compares what lies at the target, and moves it aside. Where that was changed in between, it is put back; and where
    /// something else has come there by then, it is kept. Of a deletion a mark says until it was looked at that it isn't to be
    /// removed: a stop in between would look like one that ended.
    fn set_aside(&mut self) -> io::Result<()>
        ensures { self.new.places.failures ≡ self.old.places.failures }
    {
        self.compare()?;
        self.places.check_home(self.home)?;
        if self.is_deletion() {
            self.places.mark()?;
        }
        match self.places.move_over(Spot::Target, Spot::Old) {
            Ok(()) => {}
            // it went after it was compared
            Err(e) if e.kind() == ErrorKind::NotFound => return Err(self.refuse(Refusal::Changed)),
            Err(e) => return Err(e),
        }
        self.keep_or_put_back()
    }

    /// Keeps what was moved aside there, if it is what was compared; else it is put back.
    fn keep_or_put_back(&mut self) -> io::Result<()>
        ensures { self.new.places.failures ≡ self.old.places.failures }
    {
        match self.is_untouched() {
            Ok(true) => {
                self.is_aside = true;
                Ok(())
            }
            Ok(false) => {
                let _is_settled = self.go_back();
                Err(self.refuse(Refusal::Changed))
            }
            Err(e) => {
                let _is_settled = self.go_back();
                Err(self.refuse_for(e))
            }
        }
    }

    /// Looks whether the target holds what it has to, and keeps what was seen of its files.
    fn compare(&mut self) -> io::Result<()>
        ensures { self.new.places.failures ≡ self.old.places.failures }
    {
        let now = self.places.files.since_1970()?;
        let refusal = match compare(self.folder, self.places.files.alloc(), self.before, now) {
            Ok(_) if self.before.rows().is_empty() => Refusal::Changed,
            Ok(looks) => {
                self.looks = looks;
                return Ok(());
            }
            Err(SiteFault::Changed) => Refusal::Changed,
            Err(SiteFault::OutOfMemory) => Refusal::OutOfMemory,
            Err(SiteFault::Device) => Refusal::Device,
            Err(SiteFault::Misfit) => unreachable!(),
        };
        Err(self.refuse(refusal))
    }

    /// Whether nothing comes to the target.
    fn is_deletion(&self) -> bool {
        self.staged.wanted().is_empty()
    }

    /// Whether what lies aside may be removed: it is what was compared, and no mark says any more that it has to go back.
    fn may_go(&mut self) -> io::Result<bool>
        ensures { self.new.places.failures ≡ self.old.places.failures }
    {
        if !self.is_untouched()? {
            return Ok(false);
        }
        if self.is_deletion() {
            self.places.clear(Spot::New)?;
        }
        Ok(true)
    }

    /// Whether what lies aside is what was compared.
    fn is_untouched(&mut self) -> io::Result<bool>
        ensures { self.new.places.failures ≡ self.old.places.failures }
    {
        is_aside_untouched(&self.places, self.before, self.looks.as_mut_slice())
    }

    /// Moves the new tree to the target, where nothing lies. A file that replaces a file gets the permission bits that this one was
    /// moved aside with: somebody may have changed them since the new tree was written.
    fn put_in_place(&mut self) -> io::Result<()>
        ensures { self.new.places.failures ≡ self.old.places.failures }
    {
        // the original was gone before it could be moved aside
        if self.is_aside == self.before.rows().is_empty() {
            return Err(self.refuse(Refusal::Changed));
        }
        self.places.check_home(self.home)?;
        if self.is_aside {
            self.places.keep_bits()?;
        }
        match self.places.move_over(Spot::New, Spot::Target) {
            Err(e) if is_taken(&e) => Err(self.refuse(Refusal::Changed)),
            done => done,
        }
    }

    /// Removes what lies aside, unless it was changed since it was compared.
    fn remove_aside(&mut self) -> io::Result<()>
        ensures { self.new.places.failures ≡ self.old.places.failures }
    {
        match self.may_go() {
            Ok(true) => self.places.clear_or_keep(Spot::Old),
            Ok(false) => {
                self.is_late = true;
                Err(self.refuse(Refusal::Changed))
            }
            Err(e) => {
                self.is_late = true;
                Err(self.refuse_for(e))
            }
        }
    }

    /// Removes the new tree, unless the original still lies aside: as long as the new tree is there, recovery knows that the
    /// original has to go back.
    fn remove_new(&self) -> io::Result<()> {
        match self.places.look(Spot::Old)? {
            Standing::Nothing | Standing::CutOff => self.places.clear(Spot::New),
            Standing::Dir | Standing::File | Standing::Other => {
                Err(io::Error::from(ErrorKind::AlreadyExists))
            }
        }
    }

    /// What came of the swap, once what it leaves aside is settled.
    pub(crate) fn settle(&mut self, replaced: Result<(), Failed>) -> Result<(), SiteFault>
        ensures misfit { IfErr result (λ e. e ≢ SiteFault.Misfit) }
        ensures failed { IsErr replaced → IsErr result }
        ensures late { IsTrue self.old.is_late → IsErr result }
        ensures refused { IsErr replaced → IfSome self.old.refusal (λ refusal. IfErr result (λ e. e ≡ refusal_fault refusal)) }
    {
        if replaced.is_ok() {
            if self.is_late {
                self.put_back();
                return Err(fault_of(self.refusal.unwrap_or(Refusal::Changed)));
            }
            // what was to be removed was gone before
            if self.is_aside == self.before.rows().is_empty() {
                return Err(SiteFault::Changed);
            }
            self.close_top();
            return Ok(());
        }
        match self.refusal {
            Some(refusal) => {
                self.clean_up();
                Err(fault_of(refusal))
            }
            None => {
                self.places.end_unless_stranded();
                Err(SiteFault::Device)
            }
        }
    }

    /// Gives a directory that was put in place the permission bits that it couldn't be moved with.
    fn close_top(&self) {
        if let Ok(bits) = self.bits() {
            let target = self.places.place(Spot::Target);
            let _ = close_top(&self.places.files, self.staged.wanted(), target, &bits);
        }
    }

    /// Puts back what was changed aside after the new tree was put in place, unless others have taken the target by then. What
    /// they made of the new tree meanwhile is kept.
    fn put_back(&mut self) {
        let is_gone = self.is_deletion();
        let is_ours = !is_gone
            && self.is_as_staged(Spot::Target)
            && self.places.move_over(Spot::Target, Spot::New).is_ok();
        let is_free = is_gone || is_ours;
        if !is_free || self.places.move_over(Spot::Old, Spot::Target).is_err() {
            let _ = self.places.keep_for_notice(Spot::Old);
        }
        if is_gone {
            let _ = self.remove_new();
        } else if is_ours {
            if self.is_as_staged(Spot::New) {
                let _ = self.places.clear(Spot::New);
            } else {
                let _ = self.places.keep_for_notice(Spot::New);
            }
        }
    }

    /// Settles an original that lies aside, and only then removes the new tree: as long as that is there, recovery knows that
    /// the target isn't it.
    fn clean_up(&mut self) {
        let is_settled = match self.places.look(Spot::Old) {
            Ok(Standing::Nothing | Standing::CutOff) => true,
            Ok(_) => self.go_back(),
            Err(_) => false,
        };
        if is_settled {
            let _ = self.places.clear(Spot::New);
        }
    }

    /// Moves the original back to the target, or keeps it where it can't go back, since others have taken the target or its
    /// directory is gone. Where that fails the original stays aside and the new tree, or a mark, in its place, for recovery; what
    /// was to be deleted is kept rather.
    fn go_back(&self) -> bool {
        match self.places.move_over(Spot::Old, Spot::Target) {
            Ok(()) => true,
            Err(e) if is_taken(&e) || e.kind() == ErrorKind::NotFound => {
                self.places.drop_name(Spot::Old) || self.places.keep_for_notice(Spot::Old).is_ok()
            }
            Err(_) => { self.is_deletion() && self.places.keep_for_notice(Spot::Old).is_ok() }
        }
    }

    /// Whether what lies at a spot is the staged tree, by the stamps of its files.
    fn is_as_staged(&self, spot: Spot) -> bool {
        is_same_tree(
            &self.places.files,
            self.staged.wanted(),
            self.places.place(spot),
        )
        .unwrap_or(false)
    }
}

/// Whether what lies aside is what was compared, by these looks.
fn is_aside_untouched(
    places: &DiskPlaces<HostRuntime>,
    before: &SubPrint<'_>,
    looks: &mut [Option<Look>],
) -> io::Result<bool> {
    is_untouched(&places.files, before, looks, places.place(Spot::Old))
}

/// The fault that tells a refusal.
fn fault_of(refusal: Refusal) -> SiteFault
    ensures fault { result ≡ refusal_fault refusal }
    ensures misfit { result ≢ SiteFault.Misfit }
{
    match refusal {
        Refusal::OutOfMemory => SiteFault::OutOfMemory,
        Refusal::Device => SiteFault::Device,
        Refusal::Changed => SiteFault::Changed,
    }
}

impl Places for Replacement<'_> {
    ghost use Rattle.std.specs.Prelude.{None};

    ghost spots = { λ _. None };

    ghost moments = { λ _. [] };

    ghost failures = { λ r. r.places.failures };

    ghost hides = { λ _ _. Unit {0} };

    ghost stands = { λ _. tt };

    fn present(&self, spot: Spot) -> Result<bool, Failed> {
        self.places.present(spot)
    }

    fn write(&mut self, tree: &[Row<Items<u8>>]) -> Result<(), Failed> {
        self.places.write(tree)
    }

    fn rename(&mut self, from: Spot, to: Spot) -> Result<(), Failed> {
        let done = match (from, to) {
            (Spot::Target, Spot::Old) => self.set_aside(),
            (Spot::New, Spot::Target) => self.put_in_place(),
            _ => self.places.move_over(from, to),
        };
        self.places.counted(&done)
    }

    fn remove(&mut self, spot: Spot) -> Result<(), Failed> {
        let done = match spot {
            Spot::Old => self.remove_aside(),
            Spot::New => self.remove_new(),
            Spot::Target => self.places.clear(spot),
        };
        self.places.counted(&done)
    }
}
