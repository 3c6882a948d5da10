//! The actions of the plans, each carried out on its board.
ghost use Rattle.std.specs.Prelude.{◌≡◌, ◌<◌, ◌+◌, ◌++◌, ℕ, [], ◌∷◌, true, length, IfNone, IfSome};
ghost use Rattle.cases.specs.Worked.{HasDirectory, HasFile, HasRemoval, act_steps};
ghost use Rattle.ts_board.specs.Calls.{IsFresh, IsPassOf, mine, plan_of, terms_of};
ghost use Rattle.ts_board.specs.Terms.{is_place};
ghost use Rattle.ts_check.specs.Checkup.{IsCommit, IsSourcePart};
ghost use Rattle.ts_model.specs.Plans.{KindIs};
ghost use Rattle.ts_model.specs.Runs.{Has, IsPending, IsPieceOf, WordsAllow, takes};
ghost use Rattle.ts_model.specs.declared.plan.Kind.TheVariants as kind;
ghost use Rattle.ts_model.specs.declared.step.Step.TheVariants.{Act, Done, Release};
ghost use Rattle.ts_model.specs.declared.step.Work.{Work};
ghost use Rattle.ts_model.specs.declared.step.Work.TheVariants as work;
ghost use Rattle.ts_print.specs.Parts.{Part};

use crate::board::task::{Freed, Seen, Turn};
use std::alloc::Global;
use ts_board::{Board, Held, Pass};
use ts_check::Checked;
use ts_model::packed::KindRef;
use ts_site::{Site, SiteFault};
use ts_stage::{Piece, Staged};

/// A checked plan and its board.
#[derive(Drop)]
pub struct Desk<'a, 'b, S: Site> {
    pub alloc: Global,
    pub checked: &'a Checked<'a>,
    pub board: &'b Board<S>,
    /// The byte that is staged as a piece.
    pub byte: u8,
    pub ghost plan: { plan_of board.now ≡ checked.now.plan },
    pub ghost first: { board.now.table.shared.key.first.value ≡ checked.now.first },
    pub ghost second: { board.now.table.shared.key.second.value ≡ checked.now.second },
}

impl<'a, 'b, S: Site> Desk<'a, 'b, S> {
    /// Releases an action by another that is done.
    fn free(&self, pass: &mut Pass<S>, i: u32, j: u32) -> Freed
        requires pass { IsPassOf S.content self.now.board.now pass.old }
        requires action { j < length self.now.checked.now.plan.actions }
        requires may { WordsAllow self.now.checked.now.plan (mine pass.old) (Release i j) }
        ensures pass { IsPassOf S.content self.now.board.now pass.new }
        ensures released { mine pass.new ≡ mine pass.old ++ Release i j ∷ [] }
    {
        let is_last = self.board.release(pass, i, j);
        let word = self.board.look(pass, j);
        Freed { is_last, word }
    }

    /// Claims the piece of a file and stages its byte, where nobody has claimed it.
    fn stage(&self, pass: &mut Pass<S>, b: u32, piece: Box<Piece>) -> Option<Seen>
        requires pass { IsPassOf S.content self.now.board.now pass.old }
        requires fresh { mine pass.old ≡ [] }
        requires file { HasFile self.now.checked.now.plan b }
        requires inside { b + 2 < length self.now.checked.now.plan.actions }
        requires small { b < 100 }
        requires one { length piece.value.bytes ≡ 1 }
        ensures pass { IsPassOf S.content self.now.board.now pass.new }
    {
        let mut held = self.board.claim(pass, b)?;
        let claimed = self.board.look(pass, b);
        let next = self.board.look(pass, b + 1);
        held.stage(piece);
        self.board.done(pass, held);
        let ended = self.board.look(pass, b);
        let freed = self.free(pass, b, b + 1);
        Some(Seen {
            turn: Turn {
                claimed,
                next: Some(next),
                ended,
            },
            taken: None,
            fault: None,
            freed: Some(freed),
        })
    }

    /// Stages the byte of the desk as the piece of a file. Where there's no memory for it the piece isn't claimed.
    pub fn stage_byte(&self, pass: &mut Pass<S>, b: u32) -> Option<Seen>
        requires pass { IsPassOf S.content self.now.board.now pass.old }
        requires fresh { mine pass.old ≡ [] }
        requires file { HasFile self.now.checked.now.plan b }
        requires inside { b + 2 < length self.now.checked.now.plan.actions }
        requires small { b < 100 }
        ensures pass { IsPassOf S.content self.now.board.now pass.new }
    {
        let bytes = vec![in self.alloc; self.byte].ok()?;
        let piece = Box::new(self.alloc, Piece::held(bytes)).ok()?;
        self.stage(pass, b, piece)
    }

    /// Puts in place what was assembled for a held commit, and ends it. Where the site refuses, the commit fails. Says the
    /// word after that, and the fault.
    fn put(&self, pass: &mut Pass<S>, mut held: Held<S>, staged: Staged) -> (u64, Option<SiteFault>)
        requires pass { IsPassOf S.content self.now.board.now pass.old }
        requires action { held.action < length self.now.checked.now.plan.actions }
        requires held { IsPending (mine pass.old) held.action }
        requires commit { IsCommit self.now.checked.now.plan held.action }
        requires taken { (k : ℕ) → IsPieceOf self.now.checked.now.plan held.action k → Has (mine pass.old) (takes k) }
        requires fresh { IsFresh S.content (terms_of S.content self.now.board.now) held }
        requires place { is_place held.slot ≡ true }
        requires begun { (part : Part) × IsSourcePart self.now.checked.now held.action part × (staged.wanted ≡ part.rows) }
        ensures pass { IsPassOf S.content self.now.board.now pass.new }
        ensures done { IfNone result.1 ((w : Work) × (mine pass.new ≡ mine pass.old ++ Act held.action w ∷ Done held.action ∷ [])) }
    {
        let c = held.action();
        match held.commit(self.alloc, self.checked, staged) {
            Ok(()) => {
                self.board.done(pass, held);
                (self.board.look(pass, c), None)
            }
            Err(fault) => {
                self.board.fail(pass, held);
                (self.board.look(pass, c), Some(fault))
            }
        }
    }

    /// Puts what a piece staged in an assembly. Where it finds no room it is left out, and the assembly isn't complete.
    fn append(&self, staged: &mut Staged, k: u32, piece: Box<Piece>)
        ensures { staged.new.wanted ≡ staged.old.wanted }
    {
        let actions = self.checked.plan().actions.as_slice();
        let Some(action) = actions.get(k as usize) else {
            return;
        };
        if let KindRef::Piece { path, .. } = action.kind() {
            if let Ok(true) = staged.has_so_far(self.alloc, path, 0) {
                let _ = staged.put(self.alloc, path, 0, piece);
            }
        }
    }

    /// Claims the commit of a file, takes the staged byte and puts it in place, where nobody has claimed it. Where there's no
    /// memory for an assembly it isn't claimed.
    pub fn commit(&self, pass: &mut Pass<S>, b: u32) -> Option<Seen>
        requires pass { IsPassOf S.content self.now.board.now pass.old }
        requires fresh { mine pass.old ≡ [] }
        requires file { HasFile self.now.checked.now.plan b }
        requires inside { b + 2 < length self.now.checked.now.plan.actions }
        requires small { b < 100 }
        ensures pass { IsPassOf S.content self.now.board.now pass.new }
    {
        let mut staged = self.checked.staged(self.alloc, b + 1).ok()?;
        let mut held = self.board.claim(pass, b + 1)?;
        let claimed = self.board.look(pass, b + 1);
        let next = self.board.look(pass, b + 2);
        let piece = self.board.take(pass, &mut held, b);
        let taken = self.board.look(pass, b);
        self.append(&mut staged, b, piece);
        let (ended, fault) = self.put(pass, held, staged);
        let freed = match fault {
            None => Some(self.free(pass, b + 1, b + 2)),
            Some(_) => None,
        };
        Some(Seen {
            turn: Turn {
                claimed,
                next: Some(next),
                ended,
            },
            taken: Some(taken),
            fault,
            freed,
        })
    }

    /// Claims the commit of a file that is deleted and takes the file away, where nobody has claimed it. Where there's no
    /// memory for an assembly it isn't claimed.
    pub fn remove(&self, pass: &mut Pass<S>) -> Option<Seen>
        requires pass { IsPassOf S.content self.now.board.now pass.old }
        requires fresh { mine pass.old ≡ [] }
        requires file { HasRemoval self.now.checked.now.plan }
        requires inside { 1 < length self.now.checked.now.plan.actions }
        ensures pass { IsPassOf S.content self.now.board.now pass.new }
    {
        let staged = self.checked.staged(self.alloc, 0).ok()?;
        let held = self.board.claim(pass, 0)?;
        let claimed = self.board.look(pass, 0);
        let next = self.board.look(pass, 1);
        let (ended, fault) = self.put(pass, held, staged);
        let freed = match fault {
            None => Some(self.free(pass, 0, 1)),
            Some(_) => None,
        };
        Some(Seen {
            turn: Turn {
                claimed,
                next: Some(next),
                ended,
            },
            taken: None,
            fault,
            freed,
        })
    }

    /// Claims a mark and makes it, where nobody has claimed it.
    pub fn mark(&self, pass: &mut Pass<S>, i: u32) -> Option<Turn>
        requires pass { IsPassOf S.content self.now.board.now pass.old }
        requires action { i < length self.now.checked.now.plan.actions }
        requires mark { (e : ℕ) × KindIs self.now.checked.now.plan i (kind.Mark e) }
        ensures pass { IsPassOf S.content self.now.board.now pass.new }
        ensures won { IfSome result (λ turn. mine pass.new ≡ mine pass.old ++ act_steps i work.Marked) }
    {
        let mut held = self.board.claim(pass, i)?;
        let claimed = self.board.look(pass, i);
        held.mark();
        self.board.done(pass, held);
        let ended = self.board.look(pass, i);
        Some(Turn {
            claimed,
            next: None,
            ended,
        })
    }

    /// Claims and makes the mark of a file, where nobody has claimed it.
    pub fn mark_file(&self, pass: &mut Pass<S>, b: u32) -> Option<Seen>
        requires pass { IsPassOf S.content self.now.board.now pass.old }
        requires file { HasFile self.now.checked.now.plan b }
        requires inside { b + 2 < length self.now.checked.now.plan.actions }
        requires small { b < 100 }
        ensures pass { IsPassOf S.content self.now.board.now pass.new }
    {
        let turn = self.mark(pass, b + 2)?;
        Some(Seen {
            turn,
            taken: None,
            fault: None,
            freed: None,
        })
    }

    /// Claims and makes the mark of a new directory, and releases those of its two files, where nobody has claimed it.
    pub fn mark_directory(&self, pass: &mut Pass<S>) -> Option<Seen>
        requires pass { IsPassOf S.content self.now.board.now pass.old }
        requires fresh { mine pass.old ≡ [] }
        requires directory { HasDirectory self.now.checked.now.plan }
        requires inside { 6 < length self.now.checked.now.plan.actions }
        ensures pass { IsPassOf S.content self.now.board.now pass.new }
    {
        let turn = self.mark(pass, 0)?;
        let _first = self.free(pass, 0, 3);
        let second = self.free(pass, 0, 6);
        Some(Seen {
            turn,
            taken: None,
            fault: None,
            freed: Some(second),
        })
    }
}
