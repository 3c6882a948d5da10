//! Workers claim actions, act, and release what waited for them.
ghost use Rattle.std.specs.Prelude.{ℕ, ◌≡◌, ◌≢◌, ◌⊎◌, ◌<◌, ◌++◌, length, IfSome, IsTrue, vec_len, vec_capacity};
ghost use Rattle.ts_board.specs.Calls.{IsPassOf, IsSamePart, mine, seen};
ghost use Rattle.ts_board.specs.Runs.{StartsWith};
ghost use Rattle.ts_exec.specs.Failures.{MayFail};
ghost use Rattle.ts_exec.specs.Stores.{StaysKept};
ghost use Rattle.ts_exec.specs.Tidy.{AreReleases, IsTidy, Listed, MakesTry, ReleasesAll};
ghost use Rattle.ts_exec.specs.Sharing.{setting_of};
ghost use Rattle.ts_model.specs.Runs.{Has, HasNot, Run, claims, finishes, releases, word_after};

use crate::crew::{Failure, Member, Queues};
use crate::fault::ActFault;
use crate::gate::Gate;
use crate::keeping::{Keeper, Keeping};
use crate::shared::Shared;
use crate::stop::Stop;
use crossbeam_deque::Worker;
use std::thread;
use ts_board::Pass;
use ts_folder::Folder;
use ts_site::Site;
use ts_stage::Stage;

/// After so many looks in a row that find no hint a worker ends.
const PATIENCE: u32 = 64;

/// What a worker ends with.
pub struct Worked<S> {
    pub pass: Pass<S>,
    pub failures: Vec<Failure>,
    /// It was stopped.
    pub is_stopped: bool,
}

impl<'a, 'b, S: Site, F, G, P> Shared<'a, 'b, S, F, G, P>
where
    F: Folder + Sync,
    G: Gate + Stop + Sync,
    P: Stage,
{
    /// Tries an action. Who claims it makes all its steps, leaves a hint at each action that it freed, and then makes a
    /// checkpoint where one is due. Answers the fault where it was claimed and failed.
    pub fn attempt<K: Keeper>(
        &self,
        pass: &mut Pass<S>,
        i: u32,
        freed: &mut Worker<u32>,
        keeping: &mut Keeping<K>,
    ) -> Option<ActFault>
        requires pass { IsPassOf S.content self.now.board.now pass.old }
        requires action { i < length self.now.checked.now.plan.actions }
        requires tidy { IsTidy self.now.checked.now.plan (mine pass.old) }
        ensures pass { IsPassOf S.content self.now.board.now pass.new × IsSamePart pass.old pass.new }
        ensures seen { StartsWith (seen pass.new) (seen pass.old) }
        ensures steps { MakesTry (setting_of S.Site F.Folder G.Stop P.Stage self.now) pass.old i result pass.new }
        ensures tried { Has (mine pass.new) (claims i) ⊎ ((mine pass.new ≡ mine pass.old) × (word_after self.now.checked.now.plan (seen pass.new) i ≢ 0)) }
        ensures fault { IfSome result (MayFail (setting_of S.Site F.Folder G.Stop P.Stage self.now) (seen pass.new) i) }
        ensures kept { StaysKept self.now.checked.now (seen pass.old) (K.kept keeping.old.keeper) (seen pass.new) (K.kept keeping.new.keeper) }
    {
        let mut held = self.board.claim(pass, i)?;
        self.gate.pass(i);
        match self.act(pass, &mut held) {
            Ok(()) => {
                self.board.done(pass, held);
                self.release_all(pass, i, freed);
                self.keep_up(pass, keeping);
                None
            }
            Err(fault) => {
                self.board.fail(pass, held);
                self.keep_up(pass, keeping);
                Some(fault)
            }
        }
    }

    /// Takes a done action off what its successors wait for.
    fn release_all(&self, pass: &mut Pass<S>, i: u32, freed: &mut Worker<u32>)
        requires pass { IsPassOf S.content self.now.board.now pass.old }
        requires done { Has (mine pass.old) (finishes i) }
        requires fresh { (j : ℕ) → HasNot (mine pass.old) (releases i j) }
        ensures pass { IsPassOf S.content self.now.board.now pass.new × IsSamePart pass.old pass.new }
        ensures seen { StartsWith (seen pass.new) (seen pass.old) }
        ensures steps { (more : Run) × (mine pass.new ≡ mine pass.old ++ more) × AreReleases i more × ReleasesAll self.now.checked.now.plan i more }
    {
        let successors = self.checked.successors(i);
        for j in successors {
            if self.board.release(pass, i, *j) {
                // A hint that finds no room is dropped: the sweep comes to its action.
                let _ = freed.push(*j);
            }
        }
    }

    /// Follows hints until none has come for a while, or it is stopped.
    pub fn work<K: Keeper>(
        &self,
        queues: &[Queues],
        member: Member,
        pass: Pass<S>,
        keeping: &mut Keeping<K>,
    ) -> Worked<S>
        requires pass { IsPassOf S.content self.now.board.now pass }
        requires tidy { IsTidy self.now.checked.now.plan (mine pass) }
        requires listed { Listed (setting_of S.Site F.Folder G.Stop P.Stage self.now) (mine pass) (seen pass) member.failures.items }
        ensures pass { IsPassOf S.content self.now.board.now result.pass × IsSamePart pass result.pass }
        ensures tidy { IsTidy self.now.checked.now.plan (mine result.pass) }
        ensures listed { Listed (setting_of S.Site F.Folder G.Stop P.Stage self.now) (mine result.pass) (seen result.pass) result.failures.items }
        ensures stopped { IsTrue result.is_stopped → G.stops self.now.gate.now }
        ensures kept { StaysKept self.now.checked.now (seen pass) (K.kept keeping.old.keeper) (seen result.pass) (K.kept keeping.new.keeper) }
    {
        let Member {
            mut hints,
            failures,
        } = member;
        let mut worked = Worked {
            pass,
            failures,
            is_stopped: false,
        };
        let mut idle = 0;
        'turns: for _ in 0..self.turns() {
            // There is room for all actions, and each fails once.
            if idle >= PATIENCE || worked.failures.len() >= worked.failures.capacity() {
                return worked;
            }
            match hints.next(self.checked, queues) {
                Some(i) => {
                    if self.gate.now() {
                        worked.is_stopped = true;
                        return worked;
                    }
                    idle = 0;
                    self.follow(&mut worked, i, &mut hints.own, keeping);
                }
                None => {
                    idle += 1;
                    thread::yield_now();
                }
            }
        }
        worked
    }

    /// How often a worker looks for a hint at most.
    fn turns(&self) -> u64 {
        u64::from(PATIENCE + 1) * (u64::from(self.checked.action_count()) + 1)
    }

    /// Tries the action of a hint, if there is one of this number.
    fn follow<K: Keeper>(
        &self,
        worked: &mut Worked<S>,
        i: u32,
        freed: &mut Worker<u32>,
        keeping: &mut Keeping<K>,
    )
        requires pass { IsPassOf S.content self.now.board.now worked.old.pass }
        requires room { vec_len worked.old.failures < vec_capacity worked.old.failures }
        requires tidy { IsTidy self.now.checked.now.plan (mine worked.old.pass) }
        requires listed { Listed (setting_of S.Site F.Folder G.Stop P.Stage self.now) (mine worked.old.pass) (seen worked.old.pass) worked.old.failures.items }
        ensures pass { IsPassOf S.content self.now.board.now worked.new.pass × IsSamePart worked.old.pass worked.new.pass }
        ensures tidy { IsTidy self.now.checked.now.plan (mine worked.new.pass) }
        ensures listed { Listed (setting_of S.Site F.Folder G.Stop P.Stage self.now) (mine worked.new.pass) (seen worked.new.pass) worked.new.failures.items }
        ensures stopped { worked.new.is_stopped ≡ worked.old.is_stopped }
        ensures kept { StaysKept self.now.checked.now (seen worked.old.pass) (K.kept keeping.old.keeper) (seen worked.new.pass) (K.kept keeping.new.keeper) }
    {
        if i >= self.checked.action_count() {
            return;
        }
        if let Some(fault) = self.attempt(&mut worked.pass, i, freed, keeping) {
            worked.failures.push_reserved(Failure { action: i, fault });
        }
    }
}
