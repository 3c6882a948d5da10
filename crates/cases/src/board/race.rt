//! Two passes on two threads try the same action.
ghost use Rattle.std.specs.Prelude.{◌≡◌, []};
ghost use Rattle.cases.specs.Worked.{IsTask};
ghost use Rattle.cases.specs.declared.board.task.Task.TheVariants as task;
ghost use Rattle.ts_board.specs.Calls.{IsPassOf, mine};

use crate::board::desk::Desk;
use crate::board::task::{Seen, Task};
use std::thread::{Threads, join};
use ts_board::Pass;
use ts_site::Site;

impl<'a, 'b, S: Site> Desk<'a, 'b, S> {
    /// Tries an action once. None where it wasn't claimed.
    pub fn attempt(&self, mut pass: Pass<S>, task: Task) -> (Pass<S>, Option<Seen>)
        requires pass { IsPassOf S.content self.now.board.now pass }
        requires fresh { mine pass ≡ [] }
        requires task { IsTask self.now.checked.now.plan task }
        ensures { IsPassOf S.content self.now.board.now result.0 }
    {
        let seen = match task {
            Task::Removal => self.remove(&mut pass),
            Task::Directory => self.mark_directory(&mut pass),
            Task::Piece(b) => self.stage_byte(&mut pass, b),
            Task::Commit(b) => self.commit(&mut pass, b),
            Task::Mark(b) => self.mark_file(&mut pass, b),
        };
        (pass, seen)
    }

    /// Two passes try an action, each on a thread of its own. Answers one pass again, and what each of the two has seen.
    fn race<R: Threads>(
        &self,
        rt: &R,
        one: Pass<S>,
        other: Pass<S>,
        task: Task,
    ) -> (Pass<S>, [Option<Seen>; 2])
        requires one { IsPassOf S.content self.now.board.now one × (mine one ≡ []) }
        requires other { IsPassOf S.content self.now.board.now other × (mine other ≡ []) }
        requires task { IsTask self.now.checked.now.plan task }
        ensures { IsPassOf S.content self.now.board.now result.0 }
    {
        let this = move || -> (Pass<S>, Option<Seen>)
            requires { IsPassOf S.content self.now.board.now one × (mine one ≡ []) × IsTask self.now.checked.now.plan task }
            ensures { IsPassOf S.content self.entry.now.board.now result.0 }
        { self.attempt(one, task) };
        let that = move || -> (Pass<S>, Option<Seen>)
            requires { IsPassOf S.content self.now.board.now other × (mine other ≡ []) × IsTask self.now.checked.now.plan task }
            ensures { IsPassOf S.content self.entry.now.board.now result.0 }
        { self.attempt(other, task) };
        let (this, that) = join(rt, this, that);
        (self.board.join(this.0, that.0), [this.1, that.1])
    }

    /// Two passes race for an action, beside the one that keeps all that was done before. Says what the pass that has claimed
    /// it has seen; None where it wasn't claimed by one of the two alone.
    pub fn raced<R: Threads>(&self, rt: &R, pass: Pass<S>, task: Task) -> (Pass<S>, Option<Seen>)
        requires pass { IsPassOf S.content self.now.board.now pass }
        requires task { IsTask self.now.checked.now.plan task }
        ensures { IsPassOf S.content self.now.board.now result.0 }
    {
        let (kept, fresh) = match self.board.split(pass) {
            Ok(halves) => halves,
            Err(pass) => return (pass, None),
        };
        let (one, other) = match self.board.split(fresh) {
            Ok(halves) => halves,
            Err(fresh) => return (self.board.join(kept, fresh), None),
        };
        let (back, seen) = self.race(rt, one, other, task);
        let pass = self.board.join(kept, back);
        match seen {
            [Some(seen), None] | [None, Some(seen)] => (pass, Some(seen)),
            _ => (pass, None),
        }
    }

    /// Races for the piece, the commit and the mark of a file.
    pub fn copied<R: Threads>(&self, rt: &R, pass: Pass<S>, b: u32) -> (Pass<S>, [Option<Seen>; 3])
        requires pass { IsPassOf S.content self.now.board.now pass }
        requires file { IsTask self.now.checked.now.plan (task.Piece b) }
        ensures { IsPassOf S.content self.now.board.now result.0 }
    {
        let (pass, piece) = self.raced(rt, pass, Task::Piece(b));
        let (pass, commit) = self.raced(rt, pass, Task::Commit(b));
        let (pass, mark) = self.raced(rt, pass, Task::Mark(b));
        (pass, [piece, commit, mark])
    }
}
