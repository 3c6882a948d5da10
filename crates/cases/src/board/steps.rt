//! Actions are carried out one by one, and a checkpoint is made after each.
ghost use Rattle.std.specs.Prelude.{◌≡◌, IfOk, length};
ghost use Rattle.cases.specs.Worked.{IsNested, IsTask};
ghost use Rattle.cases.specs.declared.board.task.Task.TheVariants as task;
ghost use Rattle.ts_board.specs.Calls.{IsPassOf};

use crate::board::desk::Desk;
use crate::board::flow::{End, ended, opened};
use crate::board::plan::text_of;
use crate::board::task::Task;
use anyhow::Result;
use std::alloc::Global;
use ts_board::Pass;
use ts_check::Checked;
use ts_site::Site;

impl<'a, 'b, S: Site> Desk<'a, 'b, S> {
    /// Tries an action with half of the pass, beside the half that keeps all that was done before.
    fn tried(&self, pass: Pass<S>, task: Task) -> Pass<S>
        requires pass { IsPassOf S.content self.now.board.now pass }
        requires task { IsTask self.now.checked.now.plan task }
        ensures { IsPassOf S.content self.now.board.now result }
    {
        let (kept, fresh) = match self.board.split(pass) {
            Ok(halves) => halves,
            Err(pass) => return pass,
        };
        let (back, _seen) = self.attempt(fresh, task);
        self.board.join(kept, back)
    }

    /// Tries an action, and says what a checkpoint has then.
    pub fn step(&self, rt: &impl Print, pass: Pass<S>, task: Task) -> Result<Pass<S>>
        requires pass { IsPassOf S.content self.now.board.now pass }
        requires task { IsTask self.now.checked.now.plan task }
        ensures { IfOk result (λ pass. IsPassOf S.content self.now.board.now pass) }
    {
        let mut pass = self.tried(pass, task);
        let archive = self.board.checkpoint(self.alloc, &mut pass, self.checked)?;
        let text = text_of(self.alloc, &archive)?;
        println!(rt; "{text:?}")?;
        Ok(pass)
    }

    /// Tries the piece, the commit and the mark of a file.
    pub fn file_steps(&self, rt: &impl Print, pass: Pass<S>, b: u32) -> Result<Pass<S>>
        requires pass { IsPassOf S.content self.now.board.now pass }
        requires file { IsTask self.now.checked.now.plan (task.Piece b) }
        ensures { IfOk result (λ pass. IsPassOf S.content self.now.board.now pass) }
    {
        let pass = self.step(rt, pass, Task::Piece(b))?;
        let pass = self.step(rt, pass, Task::Commit(b))?;
        self.step(rt, pass, Task::Mark(b))
    }
}

/// Carries out the plan of a new directory in both replicas action by action, over its two sites, and says what a checkpoint has
/// after each.
pub fn nested_case<R: Print, S: Site>(
    rt: &R,
    alloc: Global,
    checked: &Checked<'_>,
    sites: Vec<S>,
) -> Result<End<S>>
    requires actions { IsNested checked.now.plan.actions }
    requires two { length sites.items ≡ 2 }
{
    let (board, pass) = opened(alloc, checked, sites)?;
    let first = Desk {
        alloc,
        checked,
        board: &board,
        byte: b'a',
    };
    let second = Desk {
        alloc,
        checked,
        board: &board,
        byte: b'b',
    };
    let pass = first.step(rt, pass, Task::Directory)?;
    let pass = first.file_steps(rt, pass, 1)?;
    let pass = second.file_steps(rt, pass, 4)?;
    ended(alloc, checked, board, pass, 2)
}
