//! What came of a plan.
ghost use Rattle.std.specs.Prelude.{◌≡◌, ◌<◌, ◌≤◌, [], Some, length, slice_get, slice_index_or, slice_set, vec_capacity, IfNone, IfOk, IfSome};
ghost use Rattle.std.specs.Mem.Slots.{slots_len};
ghost use Rattle.ts_board.specs.Archives.{HasEnded, LeftArchive};
ghost use Rattle.ts_board.specs.Terms.{commit_count, site_in};
ghost use Rattle.ts_board.specs.declared.law.Slot.TheVariants.{Empty};
ghost use Rattle.ts_exec.specs.Outcomes.{AreResults, HasWords, IsEnd, IsLeastOpen, IsReady, ResultIs};
ghost use Rattle.ts_board.specs.Calls.{IsAsWide, slots_of, words_of};
ghost use Rattle.ts_model.specs.Runs.{Run};

use crate::action_results::ActionResults;
use crate::fault::ActFault;
use std::alloc::{AllocError, Global};
use ts_board::Closed;
use ts_board::calls::{DONE, FAILED};
use ts_check::Checked;
use ts_model::packed::KindRef;
use ts_model::plan::Plan;
use ts_print::Print;
use ts_site::Site;

/// What came of an action.
#[derive(Clone, Copy, Debug, PartialEq, Eq, Drop)]
pub enum ActionResult {
    /// It has acted.
    Done,
    /// It has not acted, for this reason.
    Failed(ActFault),
    /// It was never claimed, since it waits for this action, the least of those that aren't done.
    Blocked(u32),
    /// It was never claimed, though all that it waits for is done: the run was stopped.
    Left,
}

/// What came of a plan: the result of each action, and the sites of its commits.
#[derive(Drop)]
pub struct Outcome<S: Site> {
    results: Vec<ActionResult>,
    closed: Closed<S>,
}

impl<S: Site> Outcome<S> {
    pub(crate) fn new(results: Vec<ActionResult>, closed: Closed<S>) -> Outcome<S>
        ensures results { result.results.items ≡ results.items }
        ensures closed { result.closed ≡ closed }
    {
        Outcome { results, closed }
    }

    /// What came of an action.
    pub fn result(&self, i: u32) -> ActionResult
        requires { i < length self.now.results.items }
        ensures { slice_get self.now.results.items i ≡ Some result }
    {
        self.results[i as usize]
    }

    /// What came of each action, in their order.
    pub fn results(&self) -> &[ActionResult]
        ensures { result.now ≡ self.now.results.items }
    {
        self.results.as_slice()
    }

    /// Takes the site of a commit. A second time there is none.
    pub fn take_site(&mut self, c: u32) -> Option<S>
        requires { c < slots_len self.old.closed.row.slots }
        ensures site { result ≡ site_in (slice_index_or (slots_of self.old.closed) c Empty) }
        ensures others { slots_of self.new.closed ≡ slice_set (slots_of self.old.closed) c Empty }
        ensures words { words_of self.new.closed ≡ words_of self.old.closed }
        ensures counts { IsAsWide self.old.closed self.new.closed }
        ensures results { self.new.results ≡ self.old.results }
    {
        self.closed.take_site(c)
    }

    /// What came of each action, and the board that was closed, with the sites of all commits. It takes no memory.
    pub fn split(self) -> (ActionResults, Closed<S>)
        ensures results { result.0.results ≡ self.results }
        ensures closed { result.1 ≡ self.closed }
    {
        let Outcome { results, closed } = self;
        (ActionResults::new(results), closed)
    }

    /// The archive that the plan was checked against, with the mark of each action that is done. It is asked of the plan that
    /// was carried out.
    ///
    /// # Errors
    ///
    /// Out of memory alone.
    pub fn archive(&self, alloc: Global, checked: &Checked<'_>) -> Result<Print, AllocError>
        requires words { length checked.now.plan.actions ≤ slots_len self.now.closed.row.words }
        requires ended { HasEnded checked.now (words_of self.now.closed) }
        ensures { IfOk result (λ print. LeftArchive checked.now (words_of self.now.closed) print) }
    {
        self.closed.archive(alloc, checked)
    }
}

/// How many commits a plan has: so many sites are wanted. It takes no memory.
pub fn commit_count(plan: &Plan) -> usize
    ensures { result ≡ commit_count plan.now.actions }
{
    let mut count = 0;
    for action in plan.actions.as_slice() {
        if let KindRef::Commit { entry: _ } = action.kind() {
            count += 1;
        }
    }
    count
}

/// The results of all actions, in a list that has room for them.
pub fn results_of<S: Site>(
    checked: &Checked<'_>,
    closed: &Closed<S>,
    faults: &[Option<ActFault>],
    mut results: Vec<ActionResult>,
) -> Vec<ActionResult>
    requires words { length checked.now.plan.actions ≤ slots_len closed.now.row.words }
    requires end { (run : Run) × IsEnd checked.now.plan run (words_of closed.now) faults.now }
    requires empty { results.items ≡ [] }
    requires room { length checked.now.plan.actions ≤ vec_capacity results }
    ensures count { length result.items ≡ length checked.now.plan.actions }
    ensures each { (run : Run) → IsEnd checked.now.plan run (words_of closed.now) faults.now → AreResults checked.now.plan run faults.now result.items }
{
    for i in 0..checked.action_count() {
        results.push_reserved(result_of(checked, closed, faults, i));
    }
    results
}

/// What came of an action, by its word.
fn result_of<S: Site>(
    checked: &Checked<'_>,
    closed: &Closed<S>,
    faults: &[Option<ActFault>],
    i: u32,
) -> ActionResult
    requires action { i < length checked.now.plan.actions }
    requires words { length checked.now.plan.actions ≤ slots_len closed.now.row.words }
    requires end { (run : Run) × IsEnd checked.now.plan run (words_of closed.now) faults.now }
    ensures { (run : Run) → IsEnd checked.now.plan run (words_of closed.now) faults.now → ResultIs checked.now.plan run faults.now i result }
{
    let word = closed.word(i);
    if word & DONE != 0 {
        return ActionResult::Done;
    }
    if word & FAILED == 0 {
        return match least_not_done(checked, closed, i) {
            Some(k) => ActionResult::Blocked(k),
            None => ActionResult::Left,
        };
    }
    match fault_at(faults, i) {
        Some(fault) => ActionResult::Failed(fault),
        None => unreachable!(),
    }
}

/// Why an action failed, where that was noted.
fn fault_at(faults: &[Option<ActFault>], i: u32) -> Option<ActFault>
    requires { i < length faults.now }
    ensures { slice_get faults.now i ≡ Some result }
{
    faults[i as usize]
}

/// The least action that isn't done of those that an action waits for.
fn least_not_done<S: Site>(checked: &Checked<'_>, closed: &Closed<S>, i: u32) -> Option<u32>
    requires action { i < length checked.now.plan.actions }
    requires words { length checked.now.plan.actions ≤ slots_len closed.now.row.words }
    ensures some { (run : Run) → HasWords checked.now.plan run (words_of closed.now) → IfSome result (IsLeastOpen checked.now.plan run i) }
    ensures none { (run : Run) → HasWords checked.now.plan run (words_of closed.now) → IfNone result (IsReady checked.now.plan run i) }
{
    let preds = checked.preds(i);
    for k in preds {
        if closed.word(*k) & DONE == 0 {
            return Some(*k);
        }
    }
    None
}
