//! A board is opened and closed.
ghost use Rattle.std.specs.Prelude.{ℕ, ◌≡◌, ◌≤◌, [], IfOk, IfErr, length, slice_index_or};
ghost use Rattle.std.specs.Mem.Slots.{slots_len};
ghost use Rattle.std.specs.Vec.{vec_capacity};
ghost use Rattle.ts_board.specs.Terms.{AreSited, IsOrderly, IsUntouched, commit_count, first_words, placed, terms_with};
ghost use Rattle.ts_board.specs.Calls.{Ends, IsPassAt, IsPassOf, IsWhole, mine, plan_of, seen, slots_of, table_of, terms_of, words_of};
ghost use Rattle.ts_board.specs.Checks.{terms_for};
ghost use Rattle.ts_board.specs.declared.law.Slot.TheVariants.{Empty};

use crate::board::{Board, Closed, Pass};
use crate::fault::OpenFault;
use crate::law::{Key, Slot};
use crate::placing::{sites_from, slots_with};
use atomic_table::{Refused, Table};
use std::alloc::{AllocError, Global};
use std::snapshot::Snapshot;
use ts_check::Checked;
use ts_model::plan::Plan;
use ts_print::Print;
use ts_site::Site;

/// The words that a plan's actions have at the start. Where there is no action, one word stands there that belongs to none.
#[derive(Drop)]
pub struct FirstWords {
    words: Vec<u64>,
    plan: Snapshot<Plan>,
    ghost counted: { words.items ≡ first_words plan.value.actions },
}

impl FirstWords {
    /// The first words for a checked plan: how many others each action waits for.
    ///
    /// # Errors
    ///
    /// Out of memory alone.
    pub fn count(alloc: Global, checked: &Checked<'_>) -> Result<FirstWords, AllocError>
        ensures { IfOk result (λ w. w.plan.value ≡ checked.now.plan) }
    {
        let plan = checked.plan();
        Ok(FirstWords {
            words: first_words(alloc, plan)?,
            plan: Snapshot::of(plan),
        })
    }
}

/// For each action how many others it waits for, or one word where there is no action.
fn first_words(alloc: Global, plan: &Plan) -> Result<Vec<u64>, AllocError>
    ensures { IfOk result (λ words. words.items ≡ first_words plan.now.actions) }
{
    let actions = plan.actions.as_slice();
    let mut words = Vec::with_capacity(alloc, actions.len().max(1))?;
    if actions.is_empty() {
        words.push(0)?;
        return Ok(words);
    }
    for action in actions {
        words.push(action.preds().len() as u64)?;
    }
    Ok(words)
}

/// A board with these words and slots, on which nothing is done yet, and its one pass.
pub(crate) fn open_slots<S: Site>(
    alloc: Global,
    plan: &Plan,
    first: &Print,
    second: &Print,
    words: &[u64],
    slots: Vec<Slot<S>>,
) -> Result<(Board<S>, Pass<S>), Vec<Slot<S>>>
    requires words { words.now ≡ first_words plan.now.actions }
    requires orderly { IsOrderly plan.now }
    requires each { length slots.items ≡ length plan.now.actions }
    requires sited { AreSited plan.now slots.items }
    requires untouched { (i : ℕ) → IsUntouched (slice_index_or slots.items i Empty) }
    ensures board { IfOk result (λ r. terms_of S.content r.0 ≡ terms_with S.content plan.now first.now second.now slots.items) }
    ensures pass { IfOk result (λ r. IsPassAt (table_of r.0) (terms_with S.content plan.now first.now second.now slots.items) r.1 × IsWhole r.1) }
    ensures nothing { IfOk result (λ r. (seen r.1 ≡ []) × (mine r.1 ≡ [])) }
    ensures err { IfErr result (λ back. back.items ≡ slots.items) }
{
    let key = Key {
        plan: Snapshot::of(plan),
        first: Snapshot::of(first),
        second: Snapshot::of(second),
        slots: Snapshot::of(&slots),
    };
    match Table::new(alloc, words, slots, &key) {
        Ok((table, seat)) => Ok((Board { table }, Pass { seat })),
        Err(refused) => {
            let Refused { slots } = refused;
            Err(slots)
        }
    }
}

/// A board that is laid out and not opened yet: its slots, with the sites in those of the commits.
#[derive(Drop)]
pub struct Opening<S> {
    slots: Vec<Slot<S>>,
    /// Room for the sites, should they have to come back.
    back: Vec<S>,
    plan: Snapshot<Plan>,
    sites: Snapshot<Vec<S>>,
    ghost placed: { slots.items ≡ placed plan.value.actions sites.value.items },
    ghost sited: { length sites.value.items ≡ commit_count plan.value.actions },
    ghost room: { (back.items ≡ []) × (length sites.value.items ≤ vec_capacity back) },
}

impl<S: Site> Opening<S> {
    /// Lays a board out for a checked plan. There is one site for each commit, in the order of the actions. Where memory runs
    /// out, the sites come back.
    pub fn lay_out(
        alloc: Global,
        checked: &Checked<'_>,
        sites: Vec<S>,
    ) -> Result<Opening<S>, (Vec<S>, OpenFault)>
        requires sites { length sites.items ≡ commit_count checked.now.plan.actions }
        ensures plan { IfOk result (λ o. o.plan.value ≡ checked.now.plan) }
        ensures sites { IfOk result (λ o. o.sites.value.items ≡ sites.items) }
        ensures back { IfErr result (λ refused. refused.0.items ≡ sites.items) }
    {
        let plan = checked.plan();
        let Ok(back) = Vec::with_capacity(alloc, sites.len()) else {
            return Err((sites, OpenFault::OutOfMemory));
        };
        let given = Snapshot::of(&sites);
        match slots_with(alloc, plan, sites) {
            Ok(slots) => Ok(Opening {
                slots,
                back,
                plan: Snapshot::of(plan),
                sites: given,
            }),
            Err(sites) => Err((sites, OpenFault::OutOfMemory)),
        }
    }

    /// The sites, in their order.
    pub fn into_sites(self) -> Vec<S>
        ensures { result.items ≡ self.sites.value.items }
    {
        let Opening { slots, back, .. } = self;
        sites_from(slots, back)
    }

    /// The board, on which nothing is done yet, and its one pass. Slots and words have to be those of the plan that was checked.
    /// Where memory runs out, the sites come back.
    pub fn open(
        self,
        alloc: Global,
        checked: &Checked<'_>,
        words: FirstWords,
    ) -> Result<(Board<S>, Pass<S>), (Vec<S>, OpenFault)>
        requires plan { self.plan.value ≡ checked.now.plan }
        requires words { words.plan.value ≡ checked.now.plan }
        ensures board { IfOk result (λ r. terms_of S.content r.0 ≡ terms_for S.content checked.now self.sites.value.items) }
        ensures pass { IfOk result (λ r. IsPassAt (table_of r.0) (terms_for S.content checked.now self.sites.value.items) r.1 × IsWhole r.1) }
        ensures nothing { IfOk result (λ r. (seen r.1 ≡ []) × (mine r.1 ≡ [])) }
        ensures back { IfErr result (λ refused. refused.0.items ≡ self.sites.value.items) }
    {
        let Opening { slots, back, .. } = self;
        let plan = checked.plan();
        match open_slots(
            alloc,
            plan,
            checked.first(),
            checked.second(),
            words.words.as_slice(),
            slots,
        ) {
            Ok(opened) => Ok(opened),
            Err(slots) => Err((sites_from(slots, back), OpenFault::OutOfMemory)),
        }
    }
}

impl<S: Site> Board<S> {
    /// The board at its end, with its words and what lies in its slots.
    pub fn close(self, pass: Pass<S>) -> Closed<S>
        requires pass { IsPassOf S.content self pass }
        ensures words { length (plan_of self).actions ≤ slots_len result.row.words }
        ensures slots { length (plan_of self).actions ≤ slots_len result.row.slots }
        ensures ends { Ends S.content (terms_of S.content self) pass (words_of result) (slots_of result) }
    {
        let Board { table } = self;
        let Pass { seat } = pass;
        let row = table.close_with(seat);
        Closed { row }
    }
}
