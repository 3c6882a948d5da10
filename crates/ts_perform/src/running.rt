//! Plans carried out on two folders.
ghost use Rattle.std.specs.Prelude.{◌≡◌, ℕ, List, IfErr, IfOk, IsTrue, true};
ghost use Rattle.ts_model.specs.Texts.{IsPlan};
ghost use Rattle.ts_perform.specs.Guards.{IsPastOf, SaysKnown};
ghost use Rattle.ts_perform.specs.Runs.{BeginsNotices};
ghost use Rattle.ts_perform.specs.Snapshots.{IsSeenIn};
ghost use Rattle.ts_perform.specs.Tasks.{CarriesOut, RanPlan, RanPlanQuietly, RanSync, RanSyncQuietly};
ghost use Rattle.ts_perform.specs.Trials.{IsQuiet};
ghost use Rattle.ts_perform.specs.Worlds.{world};

use crate::acting::{act, keep_archive, replica};
use crate::causes::causes_of;
use crate::disk::{Disk, Machine};
use crate::fault::{PerformFault, Subject, of_disk};
use crate::guarding::Past;
use crate::locks::{Locks, look_at_locks};
use crate::reporting::{FAILED, Remarks, report_all, report_notices};
use crate::skips::skips_of;
use crate::snapshot::{Proposal, Snapshot};
use crate::task::Task;
use std::alloc::Global;
use ts_disk::{
    DiskFault, Notice, check_leftovers, clear_leftovers, mount_above, recover_replica, remove_plan,
    save_plan,
};
use ts_exec::ActionResult;
use ts_model::packed::KindRef;
use ts_model::plan::{Entry, Plan, Side};
use ts_name::Path;
use ts_text::Sink;

/// What no other run may use while this one works: both replicas, as far as they are there, and the archive.
#[derive(Drop)]
struct Claims<D: Disk> {
    first: Option<D::Lock>,
    second: Option<D::Lock>,
    archive: D::Archive,
}

impl<R: Machine> Task<'_, R> {
    /// Checks a plan from a file, and carries it out, while both replicas and the archive are locked.
    pub(crate) fn run_plan<O: Sink, E: Sink>(
        &self,
        plan: &str,
        out: &mut O,
        err: &mut E,
    ) -> Result<u8, PerformFault>
        ensures ran { RanPlan R.Disk R.Site.Site R.Folder.Folder R.Stage.Stage self.now plan.now
            (O.holds out.old) (O.holds out.new) (E.holds err.old) (E.holds err.new) result }
    {
        let mut claims = self.claim()?;
        let mut notices = Vec::new(self.rt.alloc());
        let status = self.run_claimed(&mut claims, plan, &mut notices, out, err);
        self.give_up(claims, status.is_err());
        self.report_refused(status, notices.as_slice(), err)
    }

    /// Makes a plan, and carries it out, while both replicas and the archive are locked.
    pub(crate) fn sync<O: Sink, E: Sink>(
        &self,
        out: &mut O,
        err: &mut E,
    ) -> Result<u8, PerformFault>
        ensures ran { RanSync R.Disk R.Site.Site R.Folder.Folder R.Stage.Stage self.now
            (O.holds out.old) (O.holds out.new) (E.holds err.old) (E.holds err.new) result }
    {
        let mut claims = self.claim()?;
        let mut notices = Vec::new(self.rt.alloc());
        let status = self.sync_claimed(&mut claims, &mut notices, out, err);
        self.give_up(claims, status.is_err());
        self.report_refused(status, notices.as_slice(), err)
    }

    /// Reports what recovery has to say, where nothing else was reported since nothing was run.
    fn report_refused<E: Sink>(
        &self,
        status: Result<u8, PerformFault>,
        notices: &[Notice],
        err: &mut E,
    ) -> Result<u8, PerformFault>
        ensures same { result ≡ status }
        ensures quiet { IfOk status (λ _. E.holds err.new ≡ E.holds err.old) }
        ensures told { IfErr status (λ _. BeginsNotices self.now.command.now.explain (E.holds err.old) (E.holds err.new)) }
    {
        if status.is_err() {
            let _ = report_notices(self.rt.alloc(), self.command.explain, notices, err);
        }
        status
    }

    /// Locks both replicas and the archive, so that no other run disturbs this one.
    fn claim(&self) -> Result<Claims<R>, PerformFault>
        ensures first { IfOk result (λ claims. R.is_locked claims.first self.now.pair.now.first.now) }
        ensures second { IfOk result (λ claims. R.is_locked claims.second self.now.pair.now.second.now) }
        ensures named { IfOk result (λ claims. R.is_named claims.archive self.now.pair.now.archive.now) }
        ensures quiet { IfErr result IsQuiet }
    {
        let Task { rt, pair, .. } = self;
        let alloc = rt.alloc();
        let first = rt
            .lock(alloc, pair.first)
            .map_err(|fault| of_disk(fault, Subject::First))?;
        let second = match rt.lock(alloc, pair.second) {
            Ok(second) => second,
            Err(fault) => {
                self.unlock(first, true);
                return Err(of_disk(fault, Subject::Second));
            }
        };
        match rt.claim(alloc, pair.archive) {
            Ok(archive) => Ok(Claims {
                first,
                second,
                archive,
            }),
            Err(fault) => {
                self.unlock(first, true);
                self.unlock(second, true);
                Err(of_disk(fault, Subject::Archive))
            }
        }
    }

    /// Gives all claims up. After a refusal nothing stays that came with them.
    fn give_up(&self, claims: Claims<R>, is_refused: bool) {
        let Claims {
            first,
            second,
            archive,
        } = claims;
        self.rt.release(archive);
        self.unlock(first, is_refused);
        self.unlock(second, is_refused);
    }

    /// Gives the lock of a replica up, if there is one.
    fn unlock(&self, lock: Option<R::Lock>, is_refused: bool) {
        match lock {
            Some(lock) if is_refused => self.rt.withdraw(lock),
            Some(lock) => self.rt.unlock(lock),
            None => {}
        }
    }

    /// Whether a locked replica knows the archive. Where there is no lock, it doesn't.
    fn knows(&self, lock: &Option<R::Lock>, archive: &R::Archive) -> bool
        ensures { SaysKnown R.knows archive.now lock.now result }
    {
        match lock {
            Some(lock) => self.rt.knows(lock, archive),
            None => false,
        }
    }

    /// Whether the same run was stopped in both replicas. What can't be read isn't known to be alike: recovery says why.
    pub(crate) fn stopped_alike(&self) -> bool
        ensures { IsTrue result → R.stopped self.now.pair.now.first.now self.now.pair.now.second.now true }
    {
        let Task { rt, pair, .. } = self;
        match rt.stopped_alike(rt.alloc(), pair.first, pair.second) {
            Ok(alike) => alike,
            Err(_) => false,
        }
    }

    /// What is known of locked replicas from before this run, by whether the same run was stopped in both, once the archive is read.
    /// Another one may have taken its place since that was claimed, so both have to know the one that is there now, too.
    fn past(&self, claims: &Claims<R>, stopped_alike: bool) -> Result<Past, PerformFault>
        requires first { R.is_locked claims.now.first self.now.pair.now.first.now }
        requires second { R.is_locked claims.now.second self.now.pair.now.second.now }
        requires named { R.is_named claims.now.archive self.now.pair.now.archive.now }
        requires stopped { IsTrue stopped_alike → R.stopped self.now.pair.now.first.now self.now.pair.now.second.now true }
        ensures known { IfOk result (IsPastOf (world R.Disk R.Site.Site R.Folder.Folder R.Stage.Stage) self.now.pair.now) }
        ensures quiet { IfErr result IsQuiet }
    {
        let Claims {
            first,
            second,
            archive,
        } = claims;
        let seen = self.past_seen()?;
        Ok(Past {
            first_knows: self.knows(first, archive) && seen.first_knows,
            second_knows: self.knows(second, archive) && seen.second_knows,
            stopped_alike,
        })
    }

    /// That both replicas are still there. One that went away while it was scanned may look empty, and nothing is deleted for
    /// that.
    fn look_at_claims(&self, claims: &Claims<R>) -> Result<(), PerformFault>
        ensures quiet { IfErr result IsQuiet }
    {
        let Claims { first, second, .. } = claims;
        look_at_locks(self.rt, &Locks { first, second })
    }

    /// Notes that both replicas take part in this run.
    fn take_part(&self, claims: &Claims<R>) -> Result<(), PerformFault>
        ensures quiet { IfErr result IsQuiet }
    {
        if let Some(lock) = &claims.first {
            self.rt
                .take_part(lock)
                .map_err(|fault| of_disk(fault, Subject::First))?;
        }
        if let Some(lock) = &claims.second {
            self.rt
                .take_part(lock)
                .map_err(|fault| of_disk(fault, Subject::Second))?;
        }
        Ok(())
    }

    /// Brings to its end what a stopped run left, unless something lies in one of the replicas that no plan explains. What is
    /// to be said of it is added to `notices`.
    fn recover(&self, notices: &mut Vec<Notice>) -> Result<(), PerformFault>
        ensures quiet { IfErr result IsQuiet }
    {
        let Task { rt, pair, .. } = self;
        let alloc = rt.alloc();
        let in_first = |fault| of_disk(fault, Subject::First);
        let in_second = |fault| of_disk(fault, Subject::Second);
        check_leftovers(*rt, alloc, pair.first).map_err(in_first)?;
        check_leftovers(*rt, alloc, pair.second).map_err(in_second)?;
        recover_replica(*rt, alloc, pair.first, notices).map_err(in_first)?;
        recover_replica(*rt, alloc, pair.second, notices).map_err(in_second)
    }

    /// Checks a plan from a file, and carries it out.
    fn run_claimed<O: Sink, E: Sink>(
        &self,
        claims: &mut Claims<R>,
        plan: &str,
        notices: &mut Vec<Notice>,
        out: &mut O,
        err: &mut E,
    ) -> Result<u8, PerformFault>
        ensures ran { RanPlanQuietly R.Disk R.Site.Site R.Folder.Folder R.Stage.Stage self.now plan.now
            (O.holds out.old) (O.holds out.new) (E.holds err.old) (E.holds err.new) result }
    {
        self.recover(notices)?;
        let (snapshot, plan) = Snapshot::read_for(self, plan)?;
        self.look_at_claims(&*claims)?;
        let proposal = Proposal {
            snapshot: &snapshot,
            plan: &plan,
            teaches: true,
        };
        self.carry_out(claims, &proposal, notices, out, err)
    }

    /// Makes a plan, and carries it out.
    fn sync_claimed<O: Sink, E: Sink>(
        &self,
        claims: &mut Claims<R>,
        notices: &mut Vec<Notice>,
        out: &mut O,
        err: &mut E,
    ) -> Result<u8, PerformFault>
        requires first { R.is_locked claims.old.first self.now.pair.now.first.now }
        requires second { R.is_locked claims.old.second self.now.pair.now.second.now }
        requires named { R.is_named claims.old.archive self.now.pair.now.archive.now }
        ensures ran { RanSyncQuietly R.Disk R.Site.Site R.Folder.Folder R.Stage.Stage self.now
            (O.holds out.old) (O.holds out.new) (E.holds err.old) (E.holds err.new) result }
    {
        let stopped_alike = self.stopped_alike();
        self.recover(notices)?;
        let snapshot = Snapshot::read(self)?;
        let past = self.past(&*claims, stopped_alike)?;
        let plan = snapshot.plan(self.rt.alloc())?;
        self.look_at_claims(&*claims)?;
        let proposal = Proposal {
            snapshot: &snapshot,
            plan: &plan,
            teaches: past.teaches(&plan),
        };
        past.look_at(&proposal, self.command.allow_empty)?;
        self.carry_out(claims, &proposal, notices, out, err)
    }

    /// Checks a plan, runs it, and tells what came of it. The plan lies in both replicas while swaps may be half done, and until
    /// the archive is written, of which they are told where the run teaches them. What can't be told of a run doesn't make it a
    /// refusal.
    fn carry_out<O: Sink, E: Sink>(
        &self,
        claims: &mut Claims<R>,
        proposal: &Proposal<'_>,
        notices: &mut Vec<Notice>,
        out: &mut O,
        err: &mut E,
    ) -> Result<u8, PerformFault>
        requires plan { IsPlan proposal.now.plan.now }
        requires seen { IsSeenIn (world R.Disk R.Site.Site R.Folder.Folder R.Stage.Stage) self.now.pair.now proposal.now.snapshot.now }
        ensures ran { CarriesOut R.Disk R.Site.Site R.Folder.Folder R.Stage.Stage self.now proposal.now
            (O.holds out.old) (O.holds out.new) (E.holds err.old) (E.holds err.new) result }
    {
        let Proposal {
            snapshot,
            plan,
            teaches,
        } = *proposal;
        let alloc = self.rt.alloc();
        let checked = snapshot.check_drawn(self.rt, alloc, &self.progress, plan)?;
        snapshot.look_at_lengths(alloc, self.pair, plan)?;
        self.save(alloc, plan, &*claims)?;
        let locks = Locks {
            first: &claims.first,
            second: &claims.second,
        };
        let place = &mut claims.archive;
        match act(self, &locks, &mut *place, &checked) {
            Ok((mut outcome, stage)) => {
                let causes = causes_of(self, &checked, &mut outcome, &stage);
                let (ended, closed) = outcome.split();
                let results = ended.as_slice();
                let cleared = self.clear(alloc, plan, notices);
                let kept = keep_archive(
                    self,
                    &locks,
                    &mut *place,
                    &checked,
                    results,
                    closed,
                    teaches,
                );
                self.remove(alloc, cleared);
                // what can't be found out of mounts, or doesn't fit into memory, is no reason to end
                let _ = self.add_mounts(alloc, plan, results, notices);
                let _ = self.add_forgotten(&*place, notices);
                let skips = skips_of(alloc, self.command, plan, snapshot);
                let remarks = Remarks {
                    notices: notices.as_slice(),
                    skips: skips.as_slice(),
                };
                let causes = causes.as_slice();
                let told = report_all(
                    alloc,
                    self.command,
                    &checked,
                    &ended,
                    causes,
                    kept,
                    &remarks,
                    out,
                    err,
                );
                Ok(told.unwrap_or(FAILED))
            }
            Err(fault) => {
                self.remove(alloc, (true, true));
                Err(fault)
            }
        }
    }

    /// Writes the plan to both replicas, or to none, and then notes that they take part in this run: a run that is stopped in
    /// between is known by its plans.
    fn save(&self, alloc: Global, plan: &Plan, claims: &Claims<R>) -> Result<(), PerformFault>
        requires { IsPlan plan.now }
        ensures quiet { IfErr result IsQuiet }
    {
        let saved = match self.save_both(alloc, plan) {
            Ok(()) => self.take_part(claims),
            Err(fault) => Err(fault),
        };
        if saved.is_err() {
            self.remove(alloc, (true, true));
            // where a replica has gone, that is why
            self.look_at_claims(claims)?;
        }
        saved
    }

    /// Writes the plan to both replicas.
    fn save_both(&self, alloc: Global, plan: &Plan) -> Result<(), PerformFault>
        requires { IsPlan plan.now }
        ensures quiet { IfErr result IsQuiet }
    {
        let Task { rt, pair, .. } = self;
        save_plan(*rt, alloc, pair.first, plan).map_err(|fault| of_disk(fault, Subject::First))?;
        save_plan(*rt, alloc, pair.second, plan).map_err(|fault| of_disk(fault, Subject::Second))
    }

    /// Clears what swaps left in both replicas, and answers for each whether no swap is left to be recovered. What is to be
    /// said of it is added to `notices`.
    fn clear(&self, alloc: Global, plan: &Plan, notices: &mut Vec<Notice>) -> (bool, bool) {
        let Task { rt, pair, .. } = self;
        let first = clear_leftovers(*rt, alloc, &replica(*pair, Side::First), plan, notices);
        let second = clear_leftovers(*rt, alloc, &replica(*pair, Side::Second), plan, notices);
        (first.is_ok(), second.is_ok())
    }

    /// Adds a notice for each mount in which a commit failed. Nothing can be put in place there, whatever is tried.
    fn add_mounts(
        &self,
        alloc: Global,
        plan: &Plan,
        results: &[ActionResult],
        notices: &mut Vec<Notice>,
    ) -> Result<(), DiskFault> {
        for (action, result) in plan.actions.as_slice().iter().zip(results) {
            if let KindRef::Commit { entry } = action.kind()
                && let ActionResult::Failed(_) = result
                && let Some(entry) = plan.entries.as_slice().get(entry as usize)
            {
                self.add_mount(alloc, entry, notices)?;
            }
        }
        Ok(())
    }

    /// Adds a notice for each replica that forgot an archive, since it was told of this one.
    fn add_forgotten(
        &self,
        place: &R::Archive,
        notices: &mut Vec<Notice>,
    ) -> Result<(), DiskFault> {
        for side in [Side::First, Side::Second] {
            if self.rt.forgot_archive(place, side) {
                notices.push(Notice::Forgot { side })?;
            }
        }
        Ok(())
    }

    /// Adds a notice for the mount in which a copied entry is to be put in place, if there is one and it has no notice yet.
    fn add_mount(
        &self,
        alloc: Global,
        entry: &Entry,
        notices: &mut Vec<Notice>,
    ) -> Result<(), DiskFault> {
        let Task { rt, pair, .. } = self;
        let Some(from) = entry.reason.source() else {
            return Ok(());
        };
        let root = replica(*pair, from.other()).root;
        if let Some(path) = mount_above(*rt, alloc, root, &entry.path)?
            && !is_noticed(notices.as_slice(), &path)
        {
            notices.push(Notice::Mounted { path })?;
        }
        Ok(())
    }

    /// Removes the plan from the replicas where nothing is left of it. Where something is, the next run begins with it.
    fn remove(&self, alloc: Global, cleared: (bool, bool)) {
        let Task { rt, pair, .. } = self;
        if cleared.0 {
            let _ = remove_plan(*rt, alloc, pair.first);
        }
        if cleared.1 {
            let _ = remove_plan(*rt, alloc, pair.second);
        }
    }
}

/// Whether a mount at this path was noticed.
fn is_noticed(notices: &[Notice], path: &Path) -> bool {
    notices.iter().any(|notice| match notice {
        Notice::Mounted { path: mounted } => mounted == path,
        Notice::Discarded { .. } | Notice::Kept { .. } | Notice::Forgot { .. } => false,
    })
}
