//! The board, its passes and what they hold.
ghost use Rattle.std.specs.Prelude.{◌≡◌, ◌<◌, ◌≤◌, true, false, [], length, slice_index, slice_index_or, slice_set, IsErrOf, OnErr, OnOk};
ghost use Rattle.std.specs.Mem.Slots.{slots_items, slots_len, IsFull};
ghost use Rattle.ts_board.specs.Terms.{AreSited, Suits, IsTold, content_of, failures_of, has_site, is_place, site_in, work_in};
ghost use Rattle.ts_board.specs.declared.law.Terms.{Terms};
ghost use Rattle.ts_board.specs.declared.law.Slot.TheVariants.{Empty};
ghost use Rattle.ts_model.specs.declared.step.Work.TheVariants as work;
ghost use Rattle.ts_site.specs.Sites.{Differs, RefusesMisfits};
ghost use Rattle.ts_check.specs.Checkup.{IsCommit, IsSourcePart};
ghost use Rattle.ts_print.specs.Parts.{Part};
ghost use Rattle.ts_board.specs.Checks.{DiffersFromTarget, IsFromCheck, PutsInPlace, ReplacesPrint, ReplacesTarget};
ghost use Rattle.ts_model.specs.declared.step.Step.TheVariants.{Act};

use crate::law::{Key, Law, Slot, View};
use atomic_table::{Seat, Table};
use std::alloc::Global;
use std::mem;
use std::snapshot::Snapshot;
use ts_check::Checked;
use ts_print::SubPrint;
use ts_site::{Site, SiteFault};
use ts_stage::{Piece, Staged};

/// The words of a plan's actions, and what lies in their slots.
#[derive(Drop)]
pub struct Board<S: Site> {
    pub(crate) table: Table<Slot<S>, View, Key<S>, Law<S>, Global>,
    ghost wide: { length table.shared.key.plan.value.actions ≤ table.shared.table_id.words },
    ghost some_word: { 0 < table.shared.table_id.words },
    ghost deep: { length table.shared.key.plan.value.actions ≤ table.shared.table_id.slots },
    ghost sited: { AreSited table.shared.key.plan.value table.shared.key.slots.value.items },
}

/// What a thread steps with. It has no bytes.
#[derive(Drop)]
pub struct Pass<S> {
    pub(crate) seat: Seat<Slot<S>, View>,
    ghost free: { seat.me.1 ≡ [] },
    ghost empty: { seat.me.0.carry ≡ 0 },
    ghost live: { 0 < seat.me.0.part },
}

/// A claimed action, with the site of a commit. It has to be spent, by `done` or `fail`.
pub struct Held<S> {
    pub(crate) action: u32,
    pub(crate) slot: Slot<S>,
    pub(crate) acted: bool,
}

/// A board that no thread shares any more.
pub struct Closed<S: Site> {
    pub(crate) row: atomic_table::Closed<Slot<S>, Global>,
    ghost full: { IsFull row.words × IsFull row.slots },
}

impl<S: Site> Held<S> {
    /// The number of the action.
    pub fn action(&self) -> u32
        ensures { result ≡ self.now.action }
    {
        self.action
    }

    /// The act of a piece: it has staged what is in this box. It takes no memory.
    pub fn stage(&mut self, piece: Box<Piece>)
        requires acted { self.old.acted ≡ false }
        requires site { has_site self.old.slot ≡ false }
        ensures action { self.new.action ≡ self.old.action }
        ensures acted { self.new.acted ≡ true }
        ensures work { work_in self.new.slot ≡ work.Staged piece.value.bytes }
        ensures told { (t : Terms) → IsTold S.content t self.old.action self.old.slot → IsTold S.content t self.new.action self.new.slot }
    {
        self.slot = Slot::Bytes(piece);
        self.mark();
    }

    /// The act of a commit: what is at its site, which must have the print `before`, is replaced by what was staged, in one
    /// change. After a fault the site is as it was.
    pub(crate) fn put(
        &mut self,
        alloc: Global,
        before: &SubPrint<'_>,
        staged: Staged,
    ) -> Result<(), SiteFault>
        requires acted { self.old.acted ≡ false }
        requires site { is_place self.old.slot ≡ true }
        ensures action { self.new.action ≡ self.old.action }
        ensures acted { OnOk result (self.new.acted ≡ true) }
        ensures put { OnOk result (PutsInPlace S.content staged self.old.slot self.new.slot
            (ReplacesPrint S.content before.now.rows self.old.slot self.new.slot)) }
        ensures misfit { RefusesMisfits (content_of S.content self.old.slot) staged (IsErrOf result SiteFault.Misfit) }
        ensures changed { IsErrOf result SiteFault.Changed → Differs (content_of S.content self.old.slot) before.now.rows }
        ensures device { IsErrOf result SiteFault.Device → failures_of S.failures self.old.slot < failures_of S.failures self.new.slot }
        ensures err { OnErr result ((self.new.acted ≡ false) × (work_in self.new.slot ≡ work.Marked) × (is_place self.new.slot ≡ true)) }
        ensures told { (t : Terms) → IsTold S.content t self.old.action self.old.slot → IsTold S.content t self.new.action self.new.slot }
    {
        let slot = mem::replace(&mut self.slot, Slot::Empty);
        let Some(mut site) = slot.into_site() else {
            unreachable!()
        };
        match site.commit(alloc, before, staged) {
            Ok(put) => {
                self.slot = Slot::Committed(site, put);
                self.mark();
                Ok(())
            }
            Err(fault) => {
                self.slot = Slot::Place(site);
                Err(fault)
            }
        }
    }

    /// The act of a commit that has taken all its pieces, with the assembly that was begun for it: what is at its site, which
    /// must be what it was when the plan was checked, is replaced by what was staged, in one change. Each file that is put in
    /// place fits its stamp, and a site that tells its content has put just what was staged.
    ///
    /// `Misfit` comes first, where a file doesn't fit its stamp; for a site that tells its content exactly where a staged one
    /// doesn't. After a fault the site is as it was, and the action has not acted.
    pub fn commit(
        &mut self,
        alloc: Global,
        checked: &Checked<'_>,
        staged: Staged,
    ) -> Result<(), SiteFault>
        requires acted { self.old.acted ≡ false }
        requires site { is_place self.old.slot ≡ true }
        requires commit { IsCommit checked.now.plan self.old.action }
        requires begun { (part : Part) × IsSourcePart checked.now self.old.action part × (staged.wanted ≡ part.rows) }
        ensures action { self.new.action ≡ self.old.action }
        ensures acted { OnOk result (self.new.acted ≡ true) }
        ensures put { OnOk result (PutsInPlace S.content staged self.old.slot self.new.slot
            (ReplacesTarget S.content checked.now self.old.action self.old.slot self.new.slot)) }
        ensures suits { OnOk result ((t : Terms) → IsFromCheck t checked.now → Suits t (Act self.new.action (work_in self.new.slot))) }
        ensures misfit { RefusesMisfits (content_of S.content self.old.slot) staged (IsErrOf result SiteFault.Misfit) }
        ensures changed { IsErrOf result SiteFault.Changed → DiffersFromTarget checked.now self.old.action (content_of S.content self.old.slot) }
        ensures device { IsErrOf result SiteFault.Device → failures_of S.failures self.old.slot < failures_of S.failures self.new.slot }
        ensures err { OnErr result ((self.new.acted ≡ false) × (work_in self.new.slot ≡ work.Marked) × (is_place self.new.slot ≡ true)) }
        ensures told { (t : Terms) → IsTold S.content t self.old.action self.old.slot → IsTold S.content t self.new.action self.new.slot }
    {
        let before = checked.before(self.action);
        self.put(alloc, &before, staged)
    }

    /// The act of a mark.
    pub fn mark(&mut self)
        requires { self.old.acted ≡ false }
        ensures action { self.new.action ≡ self.old.action }
        ensures acted { self.new.acted ≡ true }
        ensures slot { self.new.slot ≡ self.old.slot }
    {
        self.acted = true;
    }
}

impl<S: Site> Closed<S> {
    /// The word of an action.
    pub fn word(&self, i: u32) -> u64
        requires { i < slots_len self.now.row.words }
        ensures { result ≡ slice_index (slots_items self.now.row.words) i }
    {
        self.row.word(i as usize)
    }

    /// Takes the site of a commit. A second time there is none.
    pub fn take_site(&mut self, c: u32) -> Option<S>
        requires { c < slots_len self.old.row.slots }
        ensures site { result ≡ site_in (slice_index_or (slots_items self.old.row.slots) c Empty) }
        ensures others { slots_items self.new.row.slots ≡ slice_set (slots_items self.old.row.slots) c Empty }
        ensures words { slots_items self.new.row.words ≡ slots_items self.old.row.words }
        ensures counts { (slots_len self.new.row.words ≡ slots_len self.old.row.words) × (slots_len self.new.row.slots ≡ slots_len self.old.row.slots) }
    {
        let slot = self.row.slots.take(c as usize);
        self.row.slots.put(c as usize, Slot::Empty);
        slot.into_site()
    }
}

impl<S: Site> Drop for Closed<S> {
    fn drop(self) {
        let Closed { mut row } = self;
        let mut i = 0;
        while i < row.slot_count() {
            drop(row.take(i));
            i += 1;
        }
        row.free();
    }
}
