//! The calls of a board.
ghost use Rattle.std.specs.Prelude.{ℕ, List, ◌≡◌, ◌≢◌, ◌⊎◌, ◌↔◌, ◌<◌, [], ◌∷◌, IsTrue, IfSome, IfNone, IfOk, IfErr, length, Contains};
ghost use Rattle.ts_model.specs.Runs.{IsPending, IsPieceOf, HasNot, WordsAllow, open_count, takes, word_after};
ghost use Rattle.ts_model.specs.declared.step.Step.TheVariants.{Claim, Take, Act, Done, Fail, Release};
ghost use Rattle.ts_model.specs.declared.step.Work.TheVariants as work;
ghost use Rattle.ts_board.specs.Terms.{IsSited, work_in};
ghost use Rattle.ts_board.specs.Runs.{StartsWith};
ghost use Rattle.ts_board.specs.Kept.{IsMerged};
ghost use Rattle.ts_board.specs.Calls.{AreHalves, HasActed, HasBothParts, IsFresh, IsPassOf, IsSamePart, Makes, Sees};
ghost use Rattle.ts_board.specs.Calls.{mine, plan_of, seen, terms_of, work_of};

use crate::board::{Board, Held, Pass};
use crate::law::{
    Actor, Both, Fetch, Finish, GiveBack, GiveUp, Halve, LetGo, Look, Meet, Slot, TakeOut, TryClaim,
};
use std::marker::Brand;
use ts_site::Site;
use ts_stage::Piece;

/// The bit of a word that says that its action is claimed. The 32 bits below count its open predecessors.
pub const CLAIMED: u64 = 1 << 32;

/// The bit that says that the action is done.
pub const DONE: u64 = 1 << 33;

/// The bit that says that the action failed.
pub const FAILED: u64 = 1 << 34;

/// The bit that says that the staged bytes of a piece were taken.
pub const TAKEN: u64 = 1 << 35;

impl<S: Site> Board<S> {
    /// The word of an action, after all that the pass has then seen.
    pub fn look(&self, pass: &mut Pass<S>, i: u32) -> u64
        requires pass { IsPassOf S.content self.now pass.old }
        requires action { i < length (plan_of self.now).actions }
        ensures pass { IsPassOf S.content self.now pass.new × IsSamePart pass.old pass.new }
        ensures sees { Sees (terms_of S.content self.now) pass.old pass.new }
        ensures word { result ≡ word_after (plan_of self.now) (seen pass.new) i }
    {
        self.table.shared.load::<Look>(&mut pass.seat, i as usize)
    }

    /// Claims an action, where none of its predecessors is open and nobody has claimed it. The site of a commit goes along.
    pub fn claim(&self, pass: &mut Pass<S>, i: u32) -> Option<Held<S>>
        requires pass { IsPassOf S.content self.now pass.old }
        requires action { i < length (plan_of self.now).actions }
        ensures pass { IsPassOf S.content self.now pass.new × IsSamePart pass.old pass.new }
        ensures won { IfSome result (λ h. (h.action ≡ i) × Makes (terms_of S.content self.now) pass.old (Claim i ∷ []) pass.new × IsPending (mine pass.new) i) }
        ensures fresh { IfSome result (λ h. IsFresh S.content (terms_of S.content self.now) h) }
        ensures site { IfSome result (λ h. IsSited (plan_of self.now) i h.slot) }
        ensures lost { IfNone result (Sees (terms_of S.content self.now) pass.old pass.new × (word_after (plan_of self.now) (seen pass.new) i ≢ 0)) }
    {
        let shared = &self.table.shared;
        let found = shared.compare_exchange::<TryClaim<S>>(&mut pass.seat, i as usize, 0, CLAIMED);
        if found == 0 {
            let slot = shared.exchange(&mut pass.seat, i as usize, Slot::Empty);
            shared.load::<GiveBack>(&mut pass.seat, i as usize);
            Some(Held {
                action: i,
                slot,
                acted: false,
            })
        } else {
            None
        }
    }

    fn take_out<N: Actor>(&self, pass: &mut Pass<S>, c: u32, k: u32) -> Slot<S>
        requires picked { c ≡ N.action }
        requires pass { IsPassOf S.content self.now pass.old }
        requires action { k < length (plan_of self.now).actions }
        requires held { IsPending (mine pass.old) c }
        requires piece { IsPieceOf (plan_of self.now) c k }
        requires untaken { HasNot (mine pass.old) (takes k) }
        ensures pass { IsPassOf S.content self.now pass.new × IsSamePart pass.old pass.new }
        ensures taken { Makes (terms_of S.content self.now) pass.old (Take c k ∷ []) pass.new }
        ensures bytes { (bytes : List ℕ) × (work_in result ≡ work.Staged bytes) × Contains (seen pass.new) (Act k (work.Staged bytes)) }
    {
        let shared = &self.table.shared;
        shared.fetch_or::<TakeOut<S, N>>(&mut pass.seat, k as usize, TAKEN);
        let slot = shared.exchange(&mut pass.seat, k as usize, Slot::Empty);
        shared.load::<GiveBack>(&mut pass.seat, k as usize);
        slot
    }

    /// The box with what a piece of the held commit has staged. It is taken once.
    pub fn take(&self, pass: &mut Pass<S>, held: &mut Held<S>, k: u32) -> Box<Piece>
        requires pass { IsPassOf S.content self.now pass.old }
        requires action { k < length (plan_of self.now).actions }
        requires held { IsPending (mine pass.old) held.old.action }
        requires piece { IsPieceOf (plan_of self.now) held.old.action k }
        requires untaken { HasNot (mine pass.old) (takes k) }
        ensures pass { IsPassOf S.content self.now pass.new × IsSamePart pass.old pass.new }
        ensures taken { Makes (terms_of S.content self.now) pass.old (Take held.old.action k ∷ []) pass.new }
        ensures bytes { Contains (seen pass.new) (Act k (work.Staged result.value.bytes)) }
        ensures held { held.new ≡ held.old }
    {
        match self.take_out::<Brand>(pass, held.action, k) {
            Slot::Bytes(piece) => piece,
            _ => unreachable!(),
        }
    }

    /// Ends an action that has acted. The act stands just before it; what it staged, or its site, comes home.
    pub fn done(&self, pass: &mut Pass<S>, held: Held<S>)
        requires pass { IsPassOf S.content self.now pass.old }
        requires action { held.action < length (plan_of self.now).actions }
        requires acted { HasActed S.content (terms_of S.content self.now) (mine pass.old) held }
        ensures pass { IsPassOf S.content self.now pass.new × IsSamePart pass.old pass.new }
        ensures done { Makes (terms_of S.content self.now) pass.old (Act held.action (work_of held) ∷ Done held.action ∷ []) pass.new }
    {
        let Held {
            action,
            slot,
            acted: _,
        } = held;
        let shared = &self.table.shared;
        shared.load::<Fetch>(&mut pass.seat, action as usize);
        let _empty = shared.exchange(&mut pass.seat, action as usize, slot);
        shared.fetch_or::<Finish<S>>(&mut pass.seat, action as usize, DONE);
    }

    /// Ends an action that has not acted. Its site comes home as it was.
    pub fn fail(&self, pass: &mut Pass<S>, held: Held<S>)
        requires pass { IsPassOf S.content self.now pass.old }
        requires action { held.action < length (plan_of self.now).actions }
        requires held { IsPending (mine pass.old) held.action }
        requires fresh { IsFresh S.content (terms_of S.content self.now) held }
        ensures pass { IsPassOf S.content self.now pass.new × IsSamePart pass.old pass.new }
        ensures failed { Makes (terms_of S.content self.now) pass.old (Fail held.action ∷ []) pass.new }
    {
        let Held {
            action,
            slot,
            acted: _,
        } = held;
        let shared = &self.table.shared;
        shared.load::<Fetch>(&mut pass.seat, action as usize);
        let _empty = shared.exchange(&mut pass.seat, action as usize, slot);
        shared.fetch_or::<GiveUp>(&mut pass.seat, action as usize, FAILED);
    }

    fn let_go<N: Actor>(&self, pass: &mut Pass<S>, i: u32, j: u32) -> bool
        requires picked { i ≡ N.action }
        requires pass { IsPassOf S.content self.now pass.old }
        requires action { j < length (plan_of self.now).actions }
        requires may { WordsAllow (plan_of self.now) (mine pass.old) (Release i j) }
        ensures pass { IsPassOf S.content self.now pass.new × IsSamePart pass.old pass.new }
        ensures released { Makes (terms_of S.content self.now) pass.old (Release i j ∷ []) pass.new }
        ensures last { IsTrue result ↔ (open_count (plan_of self.now) (seen pass.new) j ≡ 0) }
    {
        self.table
            .shared
            .fetch_sub::<LetGo<N>>(&mut pass.seat, j as usize, 1)
            == 1
    }

    /// Takes a done action off the open predecessors of another, once. True where that left none.
    pub fn release(&self, pass: &mut Pass<S>, i: u32, j: u32) -> bool
        requires pass { IsPassOf S.content self.now pass.old }
        requires action { j < length (plan_of self.now).actions }
        requires may { WordsAllow (plan_of self.now) (mine pass.old) (Release i j) }
        ensures pass { IsPassOf S.content self.now pass.new × IsSamePart pass.old pass.new }
        ensures released { Makes (terms_of S.content self.now) pass.old (Release i j ∷ []) pass.new }
        ensures last { IsTrue result ↔ (open_count (plan_of self.now) (seen pass.new) j ≡ 0) }
    {
        self.let_go::<Brand>(pass, i, j)
    }

    /// Cuts a pass in two. Its steps stay with the first.
    pub fn split(&self, pass: Pass<S>) -> Result<(Pass<S>, Pass<S>), Pass<S>>
        requires pass { IsPassOf S.content self.now pass }
        ensures first { IfOk result (λ r. IsPassOf S.content self.now r.0) }
        ensures second { IfOk result (λ r. IsPassOf S.content self.now r.1) }
        ensures seen { IfOk result (λ r. (seen r.0 ≡ seen pass) × (seen r.1 ≡ seen pass)) }
        ensures mine { IfOk result (λ r. (mine r.0 ≡ mine pass) × (mine r.1 ≡ [])) }
        ensures parts { IfOk result (λ r. AreHalves pass r.0 r.1) }
        ensures err { IfErr result (λ p. p ≡ pass) }
    {
        let Pass { seat: mut first } = pass;
        let second = self.table.shared.split_seat::<Halve>(&mut first);
        Ok((Pass { seat: first }, Pass { seat: second }))
    }

    /// Makes one pass of two. It has seen what either has seen, and has the steps of both. Actions that either holds may be
    /// ended with it.
    pub fn join(&self, one: Pass<S>, other: Pass<S>) -> Pass<S>
        requires one { IsPassOf S.content self.now one }
        requires other { IsPassOf S.content self.now other }
        ensures pass { IsPassOf S.content self.now result }
        ensures longer { (seen result ≡ seen one) ⊎ (seen result ≡ seen other) }
        ensures this { StartsWith (seen result) (seen one) }
        ensures that { StartsWith (seen result) (seen other) }
        ensures mine { IsMerged (mine one) (mine other) (mine result) }
        ensures parts { HasBothParts one other result }
    {
        let Pass { seat: mut seat } = one;
        let Pass { seat: taken } = other;
        self.table.shared.join_seat::<Both>(&mut seat, taken);
        self.table.shared.load::<Meet>(&mut seat, 0);
        Pass { seat }
    }
}
