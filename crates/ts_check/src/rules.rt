ghost use Rattle.std.specs.Prelude.{◌≡◌, ◌≤◌, ℕ, length, sum_by, IfOk, IfErr, OnOk, Some};
ghost use Rattle.ts_check.specs.Gathered.{IsGathered, IsIndexed, IsLooked};
ghost use Rattle.ts_check.specs.Pieces.{AreAllPieces, IsListOfAll, IsUnlawful, NotEachOnce};
ghost use Rattle.ts_check.specs.Places.{IsFirst, Never};
ghost use Rattle.ts_check.specs.Verdict.{HoldBelow, IsSafe, IsTold};
ghost use Rattle.ts_check.specs.Waiting.{HasBadPreds};
ghost use Rattle.ts_check.specs.declared.fault.CheckFault.TheVariants.{Broken};
ghost use Rattle.ts_model.specs.Plans.{Valid, WithinLimits, action_limit, entry_limit, pred_limit};
ghost use Rattle.ts_model.specs.Sync.{listed_snapshot};
ghost use Rattle.ts_model.specs.Trees.{IsListing};
ghost use Rattle.ts_need.specs.Needs.{AreListings, snapshot_of};
ghost use Rattle.ts_check.specs.Checkup.{checkup_with};

use crate::census::{Role, one_each};
use crate::checked::Checked;
use crate::entries::{first_out_of_order, nearest_dirs};
use crate::fault::CheckFault;
use crate::limits;
use crate::lists::Lists;
use crate::piece_lists::piece_lists;
use crate::pieces::{each_once, stage};
use crate::safety::valid_plans_are_safe;
use crate::standing::Staged;
use crate::successors::successors;
use crate::waiting::{
    first_bad_preds, first_without_commit, first_without_dir, first_without_piece,
};
use std::alloc::{AllocError, Global};
use std::thread::{Threads, join};
use ts_hold::Holds;
use ts_model::lists::let_go;
use ts_model::plan::{Plan, PlanRule};
use ts_model::row::{Row, Stamp};
use ts_need::first_wrong;
use ts_need::state::State;
use ts_print::Print;

/// A plan of fewer actions is checked by one thread: to start others takes longer.
const MANY_ACTIONS: usize = 1_024;

/// What is found of a plan's actions without a look at the prints: the commit and the mark of each entry, or the first place
/// where not just each entry that wants one has one, and the actions that wait for each action.
#[derive(Drop)]
struct Gathered {
    commits: Result<Vec<u32>, u64>,
    marks: Result<Vec<u32>, u64>,
    successors: Lists,
}

/// What is found of a plan's actions before it is known whether its entries are right: beside what was gathered, the place of
/// each piece, or the first piece that stands again; or, in their stead, the first piece that isn't lawful.
#[derive(Drop)]
struct Looked {
    pieces: Result<Result<Staged, u64>, u64>,
    actions: Gathered,
}

/// What was found of the actions of a plan that keeps all rules but those about what commits and marks wait for.
#[derive(Drop)]
struct Index {
    commits: Vec<u32>,
    marks: Vec<u32>,
    pieces: Lists,
    successors: Lists,
}

/// The refusal of a plan that breaks this rule first, and here.
fn broken(rule: PlanRule, place: u64) -> CheckFault
    ensures { result ≡ Broken rule place }
{
    CheckFault::Broken { rule, place }
}

/// The rules about limits, and about the order of the entries.
fn check_limits(rt: &(impl Threads + Sync), plan: &Plan, _state: &State) -> Result<(), CheckFault>
    requires { AreListings _state.now }
    ensures holds { OnOk result (HoldBelow (snapshot_of _state.now) plan.now 3) }
    ensures told { IfErr result (IsTold (snapshot_of _state.now) plan.now) }
{
    if let Some(place) = limits::first_wrong(plan) {
        return Err(broken(PlanRule::Limits, place));
    }
    match first_out_of_order(rt, plan.entries.as_slice()) {
        Some(place) => Err(broken(PlanRule::EntriesAscend, place as u64)),
        None => Ok(()),
    }
}

/// The rules about reasons.
fn check_reasons(
    alloc: Global,
    plan: &Plan,
    archive: &Print,
    first: &Print,
    second: &Print,
    holds: &Holds,
) -> Result<(), CheckFault>
    requires { HoldBelow (listed_snapshot archive.now first.now second.now holds.now) plan.now 3 }
    ensures holds { OnOk result (HoldBelow (listed_snapshot archive.now first.now second.now holds.now) plan.now 5) }
    ensures told { IfErr result (IsTold (listed_snapshot archive.now first.now second.now holds.now) plan.now) }
{
    let entries = plan.entries.as_slice();
    match first_wrong(alloc, entries, archive, first, second, holds)? {
        Some(found) => Err(broken(found.rule, found.place)),
        None => Ok(()),
    }
}

/// What is found of the actions without a look at the prints.
fn gather(alloc: Global, plan: &Plan) -> Result<Gathered, AllocError>
    requires entries { length plan.now.entries ≤ entry_limit }
    requires actions { length plan.now.actions ≤ action_limit }
    requires preds { sum_by (λ a. length a.preds) plan.now.actions ≤ pred_limit }
    requires ascending { Never (HasBadPreds plan.now) }
    ensures { IfOk result (IsGathered plan.now) }
{
    let commits = one_each(alloc, plan, Role::Commits)?;
    let marks = one_each(alloc, plan, Role::Marks)?;
    let successors = successors(alloc, plan)?;
    Ok(Gathered {
        commits,
        marks,
        successors,
    })
}

/// What is found of the actions, by this thread alone.
fn look_alone(
    rt: &(impl Threads + Sync),
    alloc: Global,
    plan: &Plan,
    first: &[Row<Stamp>],
    second: &[Row<Stamp>],
) -> Result<Looked, AllocError>
    requires entries { length plan.now.entries ≤ entry_limit }
    requires actions { length plan.now.actions ≤ action_limit }
    requires preds { sum_by (λ a. length a.preds) plan.now.actions ≤ pred_limit }
    requires ascending { Never (HasBadPreds plan.now) }
    requires first { IsListing first.now }
    requires second { IsListing second.now }
    ensures { IfOk result (IsLooked first.now second.now plan.now) }
{
    let pieces = stage(rt, alloc, plan, first, second)?;
    let actions = gather(alloc, plan)?;
    Ok(Looked { pieces, actions })
}

/// What is found of the actions: some by this thread, and what it takes the prints for by others.
fn look(
    rt: &(impl Threads + Sync),
    alloc: Global,
    plan: &Plan,
    first: &[Row<Stamp>],
    second: &[Row<Stamp>],
) -> Result<Looked, AllocError>
    requires entries { length plan.now.entries ≤ entry_limit }
    requires actions { length plan.now.actions ≤ action_limit }
    requires preds { sum_by (λ a. length a.preds) plan.now.actions ≤ pred_limit }
    requires ascending { Never (HasBadPreds plan.now) }
    requires first { IsListing first.now }
    requires second { IsListing second.now }
    ensures { IfOk result (IsLooked first.now second.now plan.now) }
{
    let (pieces, actions) = join(
        rt,
        || -> Result<Result<Result<Staged, u64>, u64>, AllocError>
            requires { (length plan.now.actions ≤ action_limit) × IsListing first.now × IsListing second.now }
        { stage(rt, alloc, plan, first, second) },
        || gather(alloc, plan),
    );
    match pieces {
        Ok(pieces) => Ok(Looked {
            pieces,
            actions: actions?,
        }),
        Err(fault) => Err(fault),
    }
}

/// The rules about reasons and predecessors. The actions are looked at while the reasons are compared.
fn check_entries(
    rt: &(impl Threads + Sync),
    alloc: Global,
    plan: &Plan,
    state: &State,
) -> Result<Looked, CheckFault>
    requires listing { AreListings state.now }
    requires before { HoldBelow (snapshot_of state.now) plan.now 3 }
    ensures holds { OnOk result (HoldBelow (snapshot_of state.now) plan.now 6) }
    ensures told { IfErr result (IsTold (snapshot_of state.now) plan.now) }
    ensures looked { IfOk result (IsLooked state.now.first.now state.now.second.now plan.now) }
{
    let archive = state.archive;
    let first = state.first;
    let second = state.second;
    let holds = state.holds;
    if let Some(place) = first_bad_preds(rt, plan) {
        check_reasons(alloc, plan, archive, first, second, holds)?;
        return Err(broken(PlanRule::PredsAscend, place as u64));
    }
    let first_rows = first.rows();
    let second_rows = second.rows();
    if plan.actions.as_slice().len() < MANY_ACTIONS {
        check_reasons(alloc, plan, archive, first, second, holds)?;
        return Ok(look_alone(rt, alloc, plan, first_rows, second_rows)?);
    }
    let (reasons, looked) = join(
        rt,
        || -> Result<(), CheckFault>
            requires { HoldBelow (listed_snapshot archive.now first.now second.now holds.now) plan.now 3 }
            ensures holds { OnOk result (HoldBelow (listed_snapshot archive.entry.now first.entry.now second.entry.now holds.entry.now) plan.entry.now 5) }
            ensures told { IfErr result (IsTold (listed_snapshot archive.entry.now first.entry.now second.entry.now holds.entry.now) plan.entry.now) }
        { check_reasons(alloc, plan, archive, first, second, holds) },
        || -> Result<Looked, AllocError>
            requires { WithinLimits plan.now × Never (HasBadPreds plan.now) × IsListing first_rows.now × IsListing second_rows.now }
        { look(rt, alloc, plan, first_rows, second_rows) },
    );
    match reasons {
        Ok(()) => Ok(looked?),
        Err(fault) => Err(fault),
    }
}

/// The rules about pieces.
fn check_pieces(
    rt: &(impl Threads + Sync),
    alloc: Global,
    plan: &Plan,
    state: &State,
    pieces: Result<Result<Staged, u64>, u64>,
) -> Result<Lists, CheckFault>
    requires listing { AreListings state.now }
    requires before { HoldBelow (snapshot_of state.now) plan.now 7 }
    requires unlawful { IfErr pieces (λ place. IsFirst (IsUnlawful state.now.first.now state.now.second.now plan.now) (Some place)) }
    requires lawful { IfOk pieces (λ _. Never (IsUnlawful state.now.first.now state.now.second.now plan.now)) }
    requires staged { IfOk pieces (λ once. IfOk once (λ staged. IsListOfAll state.now.first.now state.now.second.now plan.now staged.items)) }
    requires again { IfOk pieces (λ once. IfErr once (λ place. IsFirst (NotEachOnce state.now.first.now state.now.second.now plan.now) (Some place))) }
    ensures holds { OnOk result (HoldBelow (snapshot_of state.now) plan.now 9) }
    ensures told { IfErr result (IsTold (snapshot_of state.now) plan.now) }
    ensures pieces { IfOk result (AreAllPieces plan.now) }
{
    let found = match pieces {
        Ok(found) => found,
        Err(place) => return Err(broken(PlanRule::PiecesLawful, place)),
    };
    let first = state.first.rows();
    let second = state.second.rows();
    let staged = match each_once(rt, plan, first, second, found) {
        Ok(staged) => staged,
        Err(place) => return Err(broken(PlanRule::PiecesComplete, place)),
    };
    let lists = piece_lists(alloc, plan, first, second, &staged)?;
    let_go(staged);
    Ok(lists)
}

/// The rules about commits, pieces and marks, each by itself.
fn check_actions(
    rt: &(impl Threads + Sync),
    alloc: Global,
    plan: &Plan,
    state: &State,
    looked: Looked,
) -> Result<Index, CheckFault>
    requires listing { AreListings state.now }
    requires before { HoldBelow (snapshot_of state.now) plan.now 6 }
    requires looked { IsLooked state.now.first.now state.now.second.now plan.now looked }
    ensures holds { OnOk result (HoldBelow (snapshot_of state.now) plan.now 10) }
    ensures told { IfErr result (IsTold (snapshot_of state.now) plan.now) }
    ensures index { IfOk result (IsIndexed plan.now) }
{
    let Looked { pieces, actions } = looked;
    let Gathered {
        commits,
        marks,
        successors,
    } = actions;
    let commits = match commits {
        Ok(commits) => commits,
        Err(place) => return Err(broken(PlanRule::OneCommit, place)),
    };
    let pieces = check_pieces(rt, alloc, plan, state, pieces)?;
    let marks = match marks {
        Ok(marks) => marks,
        Err(place) => return Err(broken(PlanRule::OneMark, place)),
    };
    Ok(Index {
        commits,
        marks,
        pieces,
        successors,
    })
}

/// The rules about what commits and marks wait for.
fn check_order(
    rt: &(impl Threads + Sync),
    alloc: Global,
    plan: &Plan,
    state: &State,
    index: &Index,
) -> Result<(), CheckFault>
    requires before { HoldBelow (snapshot_of state.now) plan.now 10 }
    requires index { IsIndexed plan.now index.now }
    ensures holds { OnOk result (Valid (snapshot_of state.now) plan.now) }
    ensures told { IfErr result (IsTold (snapshot_of state.now) plan.now) }
{
    if let Some(place) = first_without_piece(rt, plan, &index.pieces) {
        return Err(broken(PlanRule::PiecesFirst, place as u64));
    }
    if let Some(place) = first_without_commit(rt, plan, &index.commits) {
        return Err(broken(PlanRule::CommitFirst, place as u64));
    }
    let nearest = nearest_dirs(alloc, plan.entries.as_slice())?;
    match first_without_dir(rt, plan, &nearest, &index.marks) {
        Some(place) => Err(broken(PlanRule::DirFirst, place as u64)),
        None => Ok(()),
    }
}

/// Accepts exactly the plans that are valid for these prints and rules, and tells of another which rule it breaks first, and
/// where. Several threads look for what is wrong.
pub fn check<'a>(
    rt: &(impl Threads + Sync),
    alloc: Global,
    plan: &'a Plan,
    archive: &'a Print,
    first: &'a Print,
    second: &'a Print,
    holds: &'a Holds,
) -> Result<Checked<'a>, CheckFault>
    ensures checked { IfOk result (λ checked. checked ≡ checkup_with plan.entry.now archive.entry.now first.entry.now second.entry.now holds.entry.now) }
    ensures valid { OnOk result (Valid (listed_snapshot archive.entry.now first.entry.now second.entry.now holds.entry.now) plan.entry.now) }
    ensures safe { OnOk result (IsSafe (listed_snapshot archive.entry.now first.entry.now second.entry.now holds.entry.now) plan.entry.now) }
    ensures told { IfErr result (IsTold (listed_snapshot archive.entry.now first.entry.now second.entry.now holds.entry.now) plan.entry.now) }
{
    let _archive = archive.rows();
    let _first = first.rows();
    let _second = second.rows();
    let state = State {
        archive,
        first,
        second,
        holds,
    };
    check_limits(rt, plan, &state)?;
    let looked = check_entries(rt, alloc, plan, &state)?;
    let index = check_actions(rt, alloc, plan, &state, looked)?;
    check_order(rt, alloc, plan, &state, &index)?;
    let Index {
        commits,
        marks: _,
        pieces,
        successors,
    } = index;
    valid_plans_are_safe();
    Ok(Checked::new(
        plan, archive, first, second, holds, commits, pieces, successors,
    ))
}
