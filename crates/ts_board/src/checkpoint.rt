//! A checkpoint of the archive, while others work on the board.
ghost use Rattle.std.specs.Prelude.{ℕ, ◌≡◌, ◌<◌, IfOk, IfSome, IfNone, length};
ghost use Rattle.ts_board.specs.Archives.{AreOfPart, IsDone, flagged};
ghost use Rattle.ts_board.specs.Calls.{IsPassOf, IsSamePart, Sees, plan_of, seen, terms_of};
ghost use Rattle.ts_board.specs.Checkpoints.{HasDone, HasLooked, IsCheckpoint, StaysAgreed};
ghost use Rattle.ts_board.specs.Checks.{IsFromCheck};
ghost use Rattle.ts_model.specs.Runs.{word_after};
ghost use Rattle.ts_model.specs.declared.plan.Kind.TheVariants.{Mark};

use crate::archive::flagged_archive;
use crate::board::{Board, Pass};
use crate::calls::DONE;
use std::alloc::{AllocError, Global};
use ts_check::Checked;
use ts_model::packed::{KindRef, PackedAction};
use ts_print::Print;
use ts_site::Site;

impl<S: Site> Board<S> {
    /// The archive that the plan was checked against, with each mark applied that is seen done. Others may work on the board
    /// meanwhile: a mark that they make by then may be in it or not, but no mark is without those that it waits for. So a run
    /// that is stopped later can be resumed from this archive to the same end, as `check` says of each closed part.
    ///
    /// It looks at each mark once, from the highest number down. A mark waits for those of the new directories above it, which
    /// have lower numbers. Where it is seen done they are done, and they are looked at later, so they are seen done, too.
    ///
    /// # Errors
    ///
    /// `AllocError` where memory ran out.
    pub fn checkpoint(
        &self,
        alloc: Global,
        pass: &mut Pass<S>,
        checked: &Checked<'_>,
    ) -> Result<Print, AllocError>
        requires pass { IsPassOf S.content self.now pass.old }
        requires checked { IsFromCheck (terms_of S.content self.now) checked.now }
        ensures pass { IsPassOf S.content self.now pass.new × IsSamePart pass.old pass.new }
        ensures looked { HasLooked (terms_of S.content self.now) pass.old pass.new }
        ensures part { IfOk result (λ print. IsCheckpoint checked.now (seen pass.old) (seen pass.new) print) }
        ensures agreed { IfOk result (λ print. StaysAgreed checked.now (seen pass.new) print) }
    {
        let _plan = checked.plan();
        let flags = self.seen_entries(alloc, pass, checked)?;
        flagged_archive(alloc, checked, flags.as_slice())
    }

    /// For each entry, whether its mark is seen done.
    fn seen_entries(
        &self,
        alloc: Global,
        pass: &mut Pass<S>,
        checked: &Checked<'_>,
    ) -> Result<Vec<bool>, AllocError>
        requires pass { IsPassOf S.content self.now pass.old }
        requires checked { IsFromCheck (terms_of S.content self.now) checked.now }
        ensures pass { IsPassOf S.content self.now pass.new × IsSamePart pass.old pass.new }
        ensures looked { HasLooked (terms_of S.content self.now) pass.old pass.new }
        ensures closed { IfOk result (λ flags. AreOfPart checked.now.plan (seen pass.new) flags.items) }
        ensures done { IfOk result (λ flags. HasDone checked.now.plan (seen pass.old) (flagged checked.now.plan flags.items)) }
    {
        let plan = checked.plan();
        let mut flags = vec![in alloc; false; plan.entries.as_slice().len()]?;
        let actions = plan.actions.as_slice();
        let mut i = checked.action_count();
        while i > 0 {
            i -= 1;
            if let Some(entry) = self.seen_mark(pass, i, &actions[i as usize]) {
                flags[entry as usize] = true;
            }
        }
        Ok(flags)
    }

    /// The entry of an action that is a mark and is seen done.
    fn seen_mark(&self, pass: &mut Pass<S>, i: u32, action: &PackedAction) -> Option<u32>
        requires pass { IsPassOf S.content self.now pass.old }
        requires action { i < length (plan_of self.now).actions }
        ensures pass { IsPassOf S.content self.now pass.new × IsSamePart pass.old pass.new }
        ensures looked { HasLooked (terms_of S.content self.now) pass.old pass.new }
        ensures sees { (e : ℕ) → action.now.kind ≡ Mark e → Sees (terms_of S.content self.now) pass.old pass.new }
        ensures some { IfSome result (λ e. (action.now.kind ≡ Mark e) × IsDone (word_after (plan_of self.now) (seen pass.new) i)) }
        ensures none { IfNone result ((e : ℕ) → action.now.kind ≡ Mark e → ¬ IsDone (word_after (plan_of self.now) (seen pass.new) i)) }
    {
        match action.kind() {
            KindRef::Mark { entry } if self.look(pass, i) & DONE != 0 => Some(entry),
            _ => None,
        }
    }
}
