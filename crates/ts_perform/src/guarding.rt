//! Plans that are held back: what they rest on isn't known to both replicas, or one of these would lose all its files.
ghost use Rattle.std.specs.Prelude.{◌≡◌, ◌-◌, ◌^◌, ◌&&◌, ◌↔◌, IfErr, IsTrue, OnOk, length, min, sum_by};
ghost use Rattle.ts_perform.specs.Guards.{IsBelieved, IsEmptied, IsHeldBack, IsLetThrough, IsTaught, copied_files, emptied_fault, file_count};
ghost use Rattle.ts_perform.specs.Guards.{is_own_file, new_fault};
ghost use Rattle.ts_perform.specs.Snapshots.{checkup_of};
ghost use Rattle.ts_perform.specs.Trials.{IsQuiet};
ghost use Rattle.ts_preview.specs.Outlooks.{print_on};

use crate::fault::{PerformFault, Subject, replica_on};
use crate::snapshot::{Proposal, Snapshot};
use ts_model::plan::{Entry, Plan, Side};
use ts_model::row::{Content, Row, Stamp};
use ts_print::Print;
use ts_special::is_stand_in;

/// How many files a replica has at least that isn't to lose all of them unasked.
const SEVERAL: u64 = 2;

/// What is known of a pair's replicas from before a run: whether each knows the archive, and whether the same run was stopped in both.
#[derive(Clone, Copy)]
pub(crate) struct Past {
    pub first_knows: bool,
    pub second_knows: bool,
    pub stopped_alike: bool,
}

impl Past {
    /// Whether both replicas know the archive.
    fn do_both_know(self) -> bool
        ensures { result ≡ (self.first_knows && self.second_knows) }
    {
        self.first_knows && self.second_knows
    }

    /// Whether a plan may be carried out that rests on this archive.
    fn believes(self, archive: &Print, plan: &Plan) -> bool
        ensures { IsTrue result ↔ IsBelieved self archive.now plan.now }
    {
        plan.actions.as_slice().is_empty()
            || archive.rows().is_empty()
            || self.do_both_know()
            || self.stopped_alike
    }

    /// Whether both replicas get to know the archive by a run of this plan. Conflicts alone teach them nothing.
    pub(crate) fn teaches(self, plan: &Plan) -> bool
        ensures { IsTrue result ↔ IsTaught self plan.now }
    {
        !plan.actions.as_slice().is_empty()
            || plan.entries.as_slice().is_empty()
            || self.do_both_know()
    }

    /// Which replica doesn't know the archive, which names so many paths.
    fn fault(self, paths: usize) -> PerformFault
        ensures { result ≡ new_fault self paths }
    {
        let what = match (self.first_knows, self.second_knows) {
            (true, _) => Subject::Second,
            (false, true) => Subject::First,
            (false, false) => return PerformFault::BothNew { paths },
        };
        PerformFault::New { what, paths }
    }

    /// Lets a plan through, or says why it is held back.
    pub(crate) fn look_at(
        self,
        proposal: &Proposal<'_>,
        allow_empty: bool,
    ) -> Result<(), PerformFault>
        ensures through { OnOk result (IsLetThrough allow_empty self (checkup_of proposal.now.snapshot.now proposal.now.plan.now)) }
        ensures back { IfErr result (IsHeldBack allow_empty self (checkup_of proposal.now.snapshot.now proposal.now.plan.now)) }
        ensures quiet { IfErr result IsQuiet }
    {
        let Proposal { snapshot, plan, .. } = *proposal;
        if !self.believes(&snapshot.archive, plan) {
            return Err(self.fault(snapshot.archive.rows().len()));
        }
        if allow_empty {
            return Ok(());
        }
        snapshot.look_at_files(Side::First, plan)?;
        snapshot.look_at_files(Side::Second, plan)
    }
}

impl Snapshot {
    /// The print of a replica.
    fn print_on(&self, side: Side) -> &Print
        ensures { result.now ≡ print_on side self.now.first self.now.second }
    {
        match side {
            Side::First => &self.first,
            Side::Second => &self.second,
        }
    }

    /// Whether a plan takes all files from a replica that has several.
    fn is_emptied(&self, into: Side, plan: &Plan) -> bool
        ensures { IsTrue result ↔ IsEmptied into (checkup_of self.now plan.now) }
    {
        let own = self.print_on(into);
        let others = self.print_on(into.other());
        let entries = plan.entries.as_slice();
        let files = file_count(own.rows()) as u64;
        files >= SEVERAL
            && count_copied(into, own, entries) >= files
            && count_copied(into, others, entries) == 0
    }

    /// That a plan doesn't take all files from a replica that has several.
    fn look_at_files(&self, into: Side, plan: &Plan) -> Result<(), PerformFault>
        ensures kept { OnOk result (¬ IsEmptied into (checkup_of self.now plan.now)) }
        ensures emptied { IfErr result (λ e. IsEmptied into (checkup_of self.now plan.now) × (e ≡ emptied_fault into (checkup_of self.now plan.now))) }
        ensures quiet { IfErr result IsQuiet }
    {
        if self.is_emptied(into, plan) {
            Err(self.emptied_fault(into))
        } else {
            Ok(())
        }
    }

    /// That a replica would lose all its files.
    fn emptied_fault(&self, into: Side) -> PerformFault
        ensures { (plan : Plan) → result ≡ emptied_fault into (checkup_of self.now plan) }
    {
        PerformFault::Emptied {
            what: replica_on(into),
            files: file_count(self.print_on(into).rows()),
            others: file_count(self.print_on(into.other()).rows()),
        }
    }
}

/// How many files some rows have, stand-ins not counted.
fn file_count(rows: &[Row<Stamp>]) -> usize
    ensures { result ≡ file_count rows.now }
{
    rows.iter().filter(|row| is_own_file(&row.content)).count()
}

/// Whether a file is there that isn't a stand-in.
fn is_own_file(content: &Content<Stamp>) -> bool
    ensures { result ≡ is_own_file content.now }
{
    match content {
        Content::Absent | Content::Dir => false,
        Content::File(stamp) => !is_stand_in(stamp),
    }
}

/// How many files a print has where entries are copied to a replica, or 2^64 - 1 where that is less.
fn count_copied(into: Side, print: &Print, entries: &[Entry]) -> u64
    ensures { result ≡ min (sum_by (copied_files into print.now) entries.now) (2 ^ 64 - 1) }
{
    let mut count: u64 = 0;
    for entry in entries {
        count = count.saturating_add(copied_files(into, print, entry));
    }
    count
}

/// How many files a print has where this entry is copied to a replica.
fn copied_files(into: Side, print: &Print, entry: &Entry) -> u64
    ensures { result ≡ copied_files into print.now entry.now }
{
    if entry.reason.is_from(into.other()) {
        file_count(print.sub(&entry.path)) as u64
    } else {
        0
    }
}
