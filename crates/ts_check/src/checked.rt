//! A plan that was accepted, and what it says of its actions.

ghost use Rattle.std.specs.Prelude.{◌≡◌, ◌≤◌, ◌<◌, ◌↔◌, ℕ, AllPairs, Contains, IfErr, IfNone, IfOk, IfSome, IsTrue, length};
ghost use Rattle.ts_check.specs.Answers.{IsKept};
ghost use Rattle.ts_check.specs.Checkup.{IsCommit, IsSourcePart, IsTargetPart, preds, snapshot_of, checkup_with};
ghost use Rattle.ts_check.specs.Pieces.{AreAllPieces, IsEarlierPiece};
ghost use Rattle.ts_check.specs.Places.{IsIndex};
ghost use Rattle.ts_check.specs.Waiting.{AreAllSuccessors};
ghost use Rattle.ts_model.specs.Plans.{AscendBelow, Copies, KindIs, Valid, Waits, action_limit};
ghost use Rattle.ts_model.specs.Runs.{IsPieceOf};
ghost use Rattle.ts_model.specs.Sync.{listed_snapshot};
ghost use Rattle.ts_model.specs.declared.plan.Entry.{Entry};
ghost use Rattle.ts_model.specs.declared.plan.Kind.TheVariants.{Commit};
ghost use Rattle.ts_stage.specs.Assemblies.{assembly_of};
ghost use Rattle.ts_print.specs.Parts.{Part};

use crate::census::NO_ACTION;
use crate::fault::CheckFault;
use crate::kinds::{commit_entry, piece_entry, source_side};
use crate::lists::Lists;
use std::alloc::{AllocError, Global};
use std::marker::Model;
use ts_hold::Holds;
use ts_model::plan::{Plan, Side};
use ts_print::{Print, SubPrint};
use ts_stage::Staged;

/// A plan that is valid for what it was checked against. Its answers take no memory, but for `staged`.
pub struct Checked<'a> {
    plan: &'a Plan,
    archive: &'a Print,
    first: &'a Print,
    second: &'a Print,
    holds: &'a Holds,
    /// The commit of each entry.
    commits: Vec<u32>,
    /// The pieces of each entry.
    pieces: Lists,
    /// The actions that wait for each action.
    successors: Lists,
}

/// Written out, so that a proof of what drops one stays short.
impl Drop for Checked<'_> {
    fn drop(self) {
        let Checked {
            commits,
            pieces,
            successors,
            plan: _,
            archive: _,
            first: _,
            second: _,
            holds: _,
        } = self;
        drop(commits);
        drop(pieces);
        drop(successors);
    }
}

impl<'a> Model for Checked<'a> {
    ghost use Rattle.ts_check.specs.Answers.{IsKept};
    ghost use Rattle.ts_check.specs.Checkup.{Checkup};
    ghost use Rattle.ts_model.specs.Sync.{listed_snapshot};

    ghost Value = { Checkup };

    ghost view = { λ c. record { plan = c.plan.now; archive = c.archive.now; first = c.first.now; second = c.second.now; rules = c.holds.now } };

    ghost invariant = { λ c. IsKept (listed_snapshot c.archive.now c.first.now c.second.now c.holds.now) c.plan.now c.commits.items c.pieces c.successors };
}

impl<'a> Checked<'a> {
    /// A valid plan, with the commit of each entry, its pieces, and the successors of each action.
    pub(crate) fn new(
        plan: &'a Plan,
        archive: &'a Print,
        first: &'a Print,
        second: &'a Print,
        holds: &'a Holds,
        commits: Vec<u32>,
        pieces: Lists,
        successors: Lists,
    ) -> Self
        requires { IsKept (listed_snapshot archive.now first.now second.now holds.now) plan.now commits.items pieces successors }
        ensures { result ≡ checkup_with plan.entry.now archive.entry.now first.entry.now second.entry.now holds.entry.now }
    {
        Checked {
            plan,
            archive,
            first,
            second,
            holds,
            commits,
            pieces,
            successors,
        }
    }

    /// The plan.
    pub fn plan(&self) -> &'a Plan
        ensures plan { result.now ≡ self.now.plan }
        ensures valid { Valid (snapshot_of self.now) self.now.plan }
    {
        self.plan
    }

    /// The archive that the plan was checked against.
    pub fn archive(&self) -> &'a Print
        ensures { result.now ≡ self.now.archive }
    {
        self.archive
    }

    /// The print of the first replica.
    pub fn first(&self) -> &'a Print
        ensures { result.now ≡ self.now.first }
    {
        self.first
    }

    /// The print of the second replica.
    pub fn second(&self) -> &'a Print
        ensures { result.now ≡ self.now.second }
    {
        self.second
    }

    /// How many actions the plan has.
    pub fn action_count(&self) -> u32
        ensures count { result ≡ length self.now.plan.actions }
        ensures limit { result ≤ action_limit }
    {
        self.plan.actions.as_slice().len() as u32
    }

    /// The actions that an action waits for, in ascending order; each comes before it.
    pub fn preds(&self, i: u32) -> &[u32]
        ensures preds { result.now ≡ preds self.now.plan i }
        ensures ascending { AscendBelow i result.now }
    {
        let actions = self.plan.actions.as_slice();
        let i = i as usize;
        if i >= actions.len() {
            return &[];
        }
        actions[i].preds()
    }

    /// The actions that wait for an action, in ascending order.
    pub fn successors(&self, i: u32) -> &[u32]
        ensures waiting { (j : ℕ) → Contains result.now j ↔ Waits self.now.plan j i }
        ensures ascending { AscendBelow (length self.now.plan.actions) result.now }
    {
        self.successors.list(i as usize)
    }

    /// Whether an action is a commit.
    pub fn is_commit(&self, c: u32) -> bool
        ensures { IsTrue result ↔ IsCommit self.now.plan c }
    {
        match commit_entry(self.plan, c) {
            Some(_) => true,
            None => false,
        }
    }

    /// The pieces of a commit, by path and then by offset; none for another action.
    pub fn pieces(&self, c: u32) -> &[u32]
        ensures pieces { (k : ℕ) → Contains result.now k ↔ IsPieceOf self.now.plan c k }
        ensures order { AllPairs (IsEarlierPiece self.now.plan) result.now }
    {
        match commit_entry(self.plan, c) {
            Some(e) => self.pieces.list(e as usize),
            None => &[],
        }
    }

    /// The commit that a piece is for; none for another action.
    pub fn commit_of(&self, k: u32) -> Option<u32>
        ensures commit { IfSome result (λ c. IsPieceOf self.now.plan c k) }
        ensures none { IfNone result ((c : ℕ) → ¬ IsPieceOf self.now.plan c k) }
    {
        let e = piece_entry(self.plan, k)? as usize;
        if e >= self.commits.len() || self.commits[e] == NO_ACTION {
            return None;
        }
        Some(self.commits[e])
    }

    /// The entry of a commit, and the side that it is copied from.
    fn copied(&self, c: u32) -> (u32, Side)
        requires { IsCommit self.now.plan c }
        ensures { KindIs self.now.plan c (Commit result.0) × ((entry : Entry) × Copies self.now.plan result.0 entry result.1) }
    {
        let Some(e) = commit_entry(self.plan, c) else {
            unreachable!()
        };
        let Some(from) = source_side(self.plan, e) else {
            unreachable!()
        };
        (e, from)
    }

    /// What the target of a commit has at the entry's path and below it.
    pub fn before(&self, c: u32) -> SubPrint<'a>
        requires { IsCommit self.now.plan c }
        ensures { IsTargetPart self.now c result }
    {
        let (e, from) = self.copied(c);
        let path = &self.plan.entries.as_slice()[e as usize].path;
        match from {
            Side::First => self.second.sub_print(path),
            Side::Second => self.first.sub_print(path),
        }
    }

    /// What the source of a commit has at the entry's path and below it.
    pub fn after(&self, c: u32) -> SubPrint<'a>
        requires { IsCommit self.now.plan c }
        ensures { IsSourcePart self.now c result }
    {
        let (e, from) = self.copied(c);
        let path = &self.plan.entries.as_slice()[e as usize].path;
        match from {
            Side::First => self.first.sub_print(path),
            Side::Second => self.second.sub_print(path),
        }
    }

    /// The assembly of a commit: all directories and files of its source, each file without bytes yet.
    pub fn staged(&self, alloc: Global, c: u32) -> Result<Staged, AllocError>
        requires { IsCommit self.now.plan c }
        ensures begun { IfOk result (λ staged. (part : Part) × IsSourcePart self.now c part × (staged ≡ assembly_of part)) }
    {
        Staged::begin(alloc, &self.after(c))
    }
}
