//! A checked plan is carried out.
ghost use Rattle.std.specs.Prelude.{◌≡◌, ◌≤◌, [], IfErr, IfOk, length};
ghost use Rattle.ts_board.specs.Archives.{HasEnded};
ghost use Rattle.ts_board.specs.Calls.{HasPlaces, IsPassAt, IsPassOf, IsWhole, mine, seen, table_of, terms_of, words_of};
ghost use Rattle.ts_board.specs.Checks.{terms_for};
ghost use Rattle.ts_board.specs.Terms.{commit_count};
ghost use Rattle.ts_exec.specs.Failures.{run_setting, setting_for, setting_over, setting_until};
ghost use Rattle.ts_exec.specs.Stores.{IsKeptBy, IsKeptOutcome, StaysKept};
ghost use Rattle.ts_exec.specs.Outcomes.{IsOutcomeOf, IsSteady, MisfitsAreUntold, OnlyMemoryRanOut};
ghost use Rattle.ts_exec.specs.Tidy.{AreFresh, HasRoomFor, IsSwept, IsTidy, Noted};
ghost use Rattle.ts_exec.specs.Sharing.{setting_of};

use crate::crew::{Crew, Member, Notes, Queues, deal};
use crate::crowd::{AllWorked, work_at_once};
use crate::fault::{ActFault, RunFault};
use crate::gate::Gate;
use crate::keeping::{Keeper, Keeping};
use crate::outcome::{Outcome, results_of};
use crate::shared::Shared;
use crate::stop::{Stop, Stoppable, Unstopped};
use crossbeam_deque::Worker;
use std::alloc::{AllocError, Global};
use std::thread::{Threads, join};
use ts_board::{Board, FirstWords, OpenFault, Opening, Pass};
use ts_check::Checked;
use ts_folder::Folder;
use ts_site::Site;
use ts_stage::{MemStage, Stage};

/// With fewer actions what comes before the workers is done by one thread: another would take longer to start.
const MANY_ACTIONS: u32 = 4_096;

/// Lets all members work, and then tries what is still open, in order. Where a member was stopped that is left out.
fn work_and_sweep<
    R: Threads + Sync,
    S: Site,
    F: Folder + Sync,
    G: Gate + Stop + Sync,
    K: Keeper,
    P: Stage,
>(
    rt: &R,
    shared: &Shared<'_, '_, S, F, G, P>,
    queues: &[Queues],
    members: Vec<Member>,
    mut unread: Worker<u32>,
    pass: Pass<S>,
    faults: Vec<Option<ActFault>>,
    keeping: Keeping<K>,
) -> (Pass<S>, Vec<Option<ActFault>>, K)
where
    F::File: Send,
    requires pass { IsPassOf S.content shared.now.board.now pass × IsWhole pass }
    requires nothing { mine pass ≡ [] }
    requires room { length faults.items ≡ length shared.now.checked.now.plan.actions }
    requires fresh { AreFresh members.items }
    ensures pass { IsPassOf S.content shared.now.board.now result.0 × IsWhole result.0 }
    ensures tidy { IsTidy shared.now.checked.now.plan (mine result.0) }
    ensures noted { Noted (setting_of S.Site F.Folder G.Stop P.Stage shared.now) (mine result.0) (seen result.0) result.1.items }
    ensures room { length result.1.items ≡ length shared.now.checked.now.plan.actions }
    ensures swept { IsSwept (setting_of S.Site F.Folder G.Stop P.Stage shared.now) (mine result.0) (seen result.0) }
    ensures kept { StaysKept shared.now.checked.now (seen pass) (K.kept keeping.keeper) (seen result.0) (K.kept result.2) }
{
    let AllWorked {
        mut pass,
        mut faults,
        is_stopped,
        mut keeping,
    } = work_at_once(rt, shared, queues, members, pass, faults, keeping);
    if is_stopped {
        return (pass, faults, keeping.into_keeper());
    }
    shared.sweep(&mut pass, &mut unread, &mut faults, &mut keeping);
    (pass, faults, keeping.into_keeper())
}

/// Carries out a checked plan by up to 64 workers; without any, each action is tried in order all the same. Pieces are read
/// from the folders `first` and `second`; there is one site for each commit, in the order of the actions. A thread that can't
/// start is done without.
///
/// Where both folders tell trees of the prints that the plan was checked with, nothing misfits, and each commit that is done has
/// put in place just what its source's folder tells. Where sites, too, told what was checked, and nothing of theirs fails,
/// actions fail only where memory runs out. Nothing is `Left`.
///
/// # Errors
///
/// Out of memory, before anything was done, and the sites come back as they were.
pub fn run<'a, R: Threads + Sync, S: Site, F: Folder + Sync, G: Gate + Sync>(
    rt: &R,
    alloc: Global,
    checked: &'a Checked<'a>,
    first: &'a F,
    second: &'a F,
    sites: Vec<S>,
    workers: u32,
    gate: &'a G,
) -> Result<Outcome<S>, (Vec<S>, RunFault)>
where
    F::File: Send,
    requires few { workers ≤ 64 }
    requires sites { length sites.items ≡ commit_count checked.now.plan.actions }
    ensures outcome { IfOk result (λ o. IsOutcomeOf (setting_for S.Site F.Folder checked.now first.now second.now sites.items) o) }
    ensures misfits { IfOk result (λ o. MisfitsAreUntold (setting_for S.Site F.Folder checked.now first.now second.now sites.items) o.results.items) }
    ensures steady { IfOk result (λ o. IsSteady (setting_for S.Site F.Folder checked.now first.now second.now sites.items) → OnlyMemoryRanOut o.results.items) }
    ensures ended { IfOk result (λ o. HasEnded checked.now (words_of o.closed)) }
    ensures wide { IfOk result (λ o. HasPlaces o.closed (length checked.now.plan.actions)) }
    ensures back { IfErr result (λ refused. refused.0.items ≡ sites.items) }
{
    let gate = Unstopped { gate };
    let never = Keeping::never();
    carry_out(
        rt, alloc, checked, first, second, sites, &MemStage, workers, &gate, never,
    )
    .0
}

/// Carries out a checked plan as `run` does, and hands archives to a keeper meanwhile. The calling thread is one of the workers,
/// and tries what is left at the end; after each `every` actions that it has claimed it makes a checkpoint: the archive with
/// each mark that it sees done. After an archive of more than 1,024 paths it also waits for a quarter as many
/// actions. One that finds no
/// memory is left out. The keeper comes back, with what it has stored.
///
/// Beside all that `run` promises, of the same run: where the keeper tells what it stores, it has stored the archives of closed
/// parts of this run, each within the next, after what it had stored before. So a stop at any moment leaves archives from which
/// the run can be resumed.
///
/// # Errors
///
/// Out of memory, before anything was done: sites and keeper come back as they were.
pub fn run_keeping<'a, R: Threads + Sync, S: Site, F: Folder + Sync, G: Gate + Sync, K: Keeper>(
    rt: &R,
    alloc: Global,
    checked: &'a Checked<'a>,
    first: &'a F,
    second: &'a F,
    sites: Vec<S>,
    workers: u32,
    gate: &'a G,
    keeper: K,
    every: u32,
) -> (Result<Outcome<S>, (Vec<S>, RunFault)>, K)
where
    F::File: Send,
    requires few { workers ≤ 64 }
    requires sites { length sites.items ≡ commit_count checked.now.plan.actions }
    requires every { (1 ≤ every) × (every ≤ 1048576) }
    ensures outcome { IfOk result.0 (IsKeptOutcome (setting_for S.Site F.Folder checked.now first.now second.now sites.items) (K.kept keeper) (K.kept result.1)) }
    ensures misfits { IfOk result.0 (λ o. MisfitsAreUntold (setting_for S.Site F.Folder checked.now first.now second.now sites.items) o.results.items) }
    ensures steady { IfOk result.0 (λ o. IsSteady (setting_for S.Site F.Folder checked.now first.now second.now sites.items) → OnlyMemoryRanOut o.results.items) }
    ensures ended { IfOk result.0 (λ o. HasEnded checked.now (words_of o.closed)) }
    ensures wide { IfOk result.0 (λ o. HasPlaces o.closed (length checked.now.plan.actions)) }
    ensures back { IfErr result.0 (λ refused. (refused.0.items ≡ sites.items) × (result.1 ≡ keeper)) }
{
    let gate = Unstopped { gate };
    let keeping = Keeping::new(keeper, every);
    carry_out(
        rt, alloc, checked, first, second, sites, &MemStage, workers, &gate, keeping,
    )
}

/// Carries out a checked plan as `run_keeping` does, over a stage that keeps what pieces have read until their commit takes it.
///
/// It promises all that `run_keeping` does, which keeps that in memory; only that a piece may also fail since its stage does.
///
/// # Errors
///
/// Out of memory, before anything was done: sites and keeper come back as they were.
pub fn run_staging<
    'a,
    R: Threads + Sync,
    S: Site,
    F: Folder + Sync,
    G: Gate + Sync,
    K: Keeper,
    P: Stage,
>(
    rt: &R,
    alloc: Global,
    checked: &'a Checked<'a>,
    first: &'a F,
    second: &'a F,
    sites: Vec<S>,
    stage: &'a P,
    workers: u32,
    gate: &'a G,
    keeper: K,
    every: u32,
) -> (Result<Outcome<S>, (Vec<S>, RunFault)>, K)
where
    F::File: Send,
    requires few { workers ≤ 64 }
    requires sites { length sites.items ≡ commit_count checked.now.plan.actions }
    requires every { (1 ≤ every) × (every ≤ 1048576) }
    ensures outcome { IfOk result.0 (IsKeptOutcome
        (setting_over S.Site F.Folder P.Stage checked.now first.now second.now sites.items stage.now) (K.kept keeper) (K.kept result.1)) }
    ensures misfits { IfOk result.0 (λ o. MisfitsAreUntold (setting_over S.Site F.Folder P.Stage checked.now first.now second.now sites.items stage.now) o.results.items) }
    ensures steady { IfOk result.0 (λ o. IsSteady (setting_over S.Site F.Folder P.Stage checked.now first.now second.now sites.items stage.now)
        → OnlyMemoryRanOut o.results.items) }
    ensures ended { IfOk result.0 (λ o. HasEnded checked.now (words_of o.closed)) }
    ensures wide { IfOk result.0 (λ o. HasPlaces o.closed (length checked.now.plan.actions)) }
    ensures back { IfErr result.0 (λ refused. (refused.0.items ≡ sites.items) × (result.1 ≡ keeper)) }
{
    let gate = Unstopped { gate };
    let keeping = Keeping::new(keeper, every);
    carry_out(
        rt, alloc, checked, first, second, sites, stage, workers, &gate, keeping,
    )
}

/// Carries out a checked plan as `run` does, until it is stopped. The stop is asked before each try of a claim; a worker that
/// is to stop tries no further one, and what others have claimed ends. An action that could have been claimed then is `Left`,
/// and what waits for it is `Blocked`. The rest of `run`'s promises stands, of one run.
///
/// # Errors
///
/// Out of memory, before anything was done, and the sites come back as they were.
pub fn run_until<'a, R: Threads + Sync, S: Site, F: Folder + Sync, G: Gate + Sync, T: Stop + Sync>(
    rt: &R,
    alloc: Global,
    checked: &'a Checked<'a>,
    first: &'a F,
    second: &'a F,
    sites: Vec<S>,
    workers: u32,
    gate: &'a G,
    stop: &'a T,
) -> Result<Outcome<S>, (Vec<S>, RunFault)>
where
    F::File: Send,
    requires few { workers ≤ 64 }
    requires sites { length sites.items ≡ commit_count checked.now.plan.actions }
    ensures outcome { IfOk result (λ o. IsOutcomeOf (setting_until S.Site F.Folder T.Stop checked.now first.now second.now sites.items stop.now) o) }
    ensures misfits { IfOk result (λ o. MisfitsAreUntold (setting_for S.Site F.Folder checked.now first.now second.now sites.items) o.results.items) }
    ensures steady { IfOk result (λ o. IsSteady (setting_for S.Site F.Folder checked.now first.now second.now sites.items) → OnlyMemoryRanOut o.results.items) }
    ensures ended { IfOk result (λ o. HasEnded checked.now (words_of o.closed)) }
    ensures wide { IfOk result (λ o. HasPlaces o.closed (length checked.now.plan.actions)) }
    ensures back { IfErr result (λ refused. refused.0.items ≡ sites.items) }
{
    let gate = Stoppable { gate, stop };
    let never = Keeping::never();
    carry_out(
        rt, alloc, checked, first, second, sites, &MemStage, workers, &gate, never,
    )
    .0
}

/// What is made before a run begins: its crew, room for what comes of the actions, and the words and slots of its board.
#[derive(Drop)]
struct Prepared<S> {
    crew: Crew,
    notes: Notes,
    words: FirstWords,
    opening: Opening<S>,
}

/// Prepares a run. Where memory runs out, the sites come back.
fn prepare<R: Threads + Sync, S: Site>(
    rt: &R,
    alloc: Global,
    checked: &Checked<'_>,
    sites: Vec<S>,
    workers: u32,
) -> Result<Prepared<S>, Vec<S>>
    requires sites { length sites.items ≡ commit_count checked.now.plan.actions }
    ensures fresh { IfOk result (λ r. AreFresh r.crew.members.items) }
    ensures notes { IfOk result (λ r. HasRoomFor checked.now.plan r.notes) }
    ensures words { IfOk result (λ r. r.words.plan.value ≡ checked.now.plan) }
    ensures plan { IfOk result (λ r. r.opening.plan.value ≡ checked.now.plan) }
    ensures sites { IfOk result (λ r. r.opening.sites.value.items ≡ sites.items) }
    ensures back { IfErr result (λ back. back.items ≡ sites.items) }
{
    let Ok(notes) = Notes::for_plan(alloc, checked) else {
        return Err(sites);
    };
    let Ok(crew) = Crew::gather(alloc, checked, workers) else {
        return Err(sites);
    };
    let (words, laid) = lay_out(rt, alloc, checked, sites, workers);
    let opening = match laid {
        Ok(opening) => opening,
        Err((sites, _)) => return Err(sites),
    };
    match words {
        Ok(words) => Ok(Prepared {
            crew,
            notes,
            words,
            opening,
        }),
        Err(_) => Err(opening.into_sites()),
    }
}

/// Makes the words and lays the slots out, both at once where there are many actions. Where memory runs out for the slots, the
/// sites come back.
fn lay_out<R: Threads + Sync, S: Site>(
    rt: &R,
    alloc: Global,
    checked: &Checked<'_>,
    sites: Vec<S>,
    workers: u32,
) -> (
    Result<FirstWords, AllocError>,
    Result<Opening<S>, (Vec<S>, OpenFault)>,
)
    requires sites { length sites.items ≡ commit_count checked.now.plan.actions }
    ensures words { IfOk result.0 (λ words. words.plan.value ≡ checked.now.plan) }
    ensures plan { IfOk result.1 (λ o. o.plan.value ≡ checked.now.plan) }
    ensures sites { IfOk result.1 (λ o. o.sites.value.items ≡ sites.items) }
    ensures back { IfErr result.1 (λ refused. refused.0.items ≡ sites.items) }
{
    if is_for_one(checked, workers as usize) {
        let words = FirstWords::count(alloc, checked);
        return (words, Opening::lay_out(alloc, checked, sites));
    }
    let words = move || -> Result<FirstWords, AllocError>
        ensures { IfOk result (λ words. words.plan.value ≡ checked.entry.now.plan) }
    { FirstWords::count(alloc, checked) };
    let slots = move || -> Result<Opening<S>, (Vec<S>, OpenFault)>
        requires { length sites.items ≡ commit_count checked.now.plan.actions }
    { Opening::lay_out(alloc, checked, sites) };
    join(rt, words, slots)
}

/// Deals blocks of actions that wait for nothing out to the shares and opens the board, both at once where there are many actions.
/// Where memory runs out, the sites come back.
fn deal_and_open<R: Threads + Sync, S: Site>(
    rt: &R,
    alloc: Global,
    checked: &Checked<'_>,
    opening: Opening<S>,
    words: FirstWords,
    shares: &mut [Worker<u32>],
) -> Result<(Board<S>, Pass<S>), (Vec<S>, OpenFault)>
    requires plan { opening.plan.value ≡ checked.now.plan }
    requires words { words.plan.value ≡ checked.now.plan }
    ensures board { IfOk result (λ r. terms_of S.content r.0 ≡ terms_for S.content checked.now opening.sites.value.items) }
    ensures pass { IfOk result (λ r. IsPassAt (table_of r.0) (terms_for S.content checked.now opening.sites.value.items) r.1 × IsWhole r.1) }
    ensures nothing { IfOk result (λ r. (seen r.1 ≡ []) × (mine r.1 ≡ [])) }
    ensures back { IfErr result (λ refused. refused.0.items ≡ opening.sites.value.items) }
{
    if is_for_one(checked, shares.len()) {
        deal(checked, shares);
        return opening.open(alloc, checked, words);
    }
    let ((), opened) = join(
        rt,
        || deal(checked, shares),
        move || -> Result<(Board<S>, Pass<S>), (Vec<S>, OpenFault)>
            requires plan { opening.plan.value ≡ checked.now.plan }
            requires words { words.plan.value ≡ checked.now.plan }
        { opening.open(alloc, checked, words) },
    );
    opened
}

/// Whether what comes before the workers is done by one thread.
fn is_for_one(checked: &Checked<'_>, workers: usize) -> bool {
    workers < 2 || checked.action_count() < MANY_ACTIONS
}

/// Carries out a checked plan, until its gate says to stop, and makes checkpoints meanwhile.
fn carry_out<
    'a,
    'b,
    R: Threads + Sync,
    S: Site,
    F: Folder + Sync,
    G: Gate + Stop + Sync,
    K: Keeper,
    P: Stage,
>(
    rt: &R,
    alloc: Global,
    checked: &'a Checked<'a>,
    first: &'a F,
    second: &'a F,
    sites: Vec<S>,
    stage: &'b P,
    workers: u32,
    gate: &'b G,
    keeping: Keeping<K>,
) -> (Result<Outcome<S>, (Vec<S>, RunFault)>, K)
where
    F::File: Send,
    requires few { workers ≤ 64 }
    requires sites { length sites.items ≡ commit_count checked.now.plan.actions }
    ensures outcome { IfOk result.0 (IsKeptBy K.kept keeping result.1
        (run_setting S.Site F.Folder P.Stage G.Stop checked.now first.now second.now sites.items stage.now gate.now)) }
    ensures misfits { IfOk result.0 (λ o. MisfitsAreUntold (setting_over S.Site F.Folder P.Stage checked.now first.now second.now sites.items stage.now) o.results.items) }
    ensures steady { IfOk result.0 (λ o. IsSteady (setting_over S.Site F.Folder P.Stage checked.now first.now second.now sites.items stage.now)
        → OnlyMemoryRanOut o.results.items) }
    ensures ended { IfOk result.0 (λ o. HasEnded checked.now (words_of o.closed)) }
    ensures wide { IfOk result.0 (λ o. HasPlaces o.closed (length checked.now.plan.actions)) }
    ensures back { IfErr result.0 (λ refused. (refused.0.items ≡ sites.items) × (result.1 ≡ keeping.keeper)) }
{
    let Prepared {
        crew,
        notes,
        words,
        opening,
    } = match prepare(rt, alloc, checked, sites, workers) {
        Ok(prepared) => prepared,
        Err(sites) => return (Err((sites, RunFault::OutOfMemory)), keeping.into_keeper()),
    };
    let Crew {
        members,
        queues,
        mut shares,
        unread,
    } = crew;
    let Notes { faults, results } = notes;
    let shares = shares.as_mut_slice();
    let (board, pass) = match deal_and_open(rt, alloc, checked, opening, words, shares) {
        Ok(opened) => opened,
        Err((sites, _)) => return (Err((sites, RunFault::OutOfMemory)), keeping.into_keeper()),
    };
    let _plan = checked.plan();
    let shared = Shared {
        alloc,
        checked,
        board: &board,
        first,
        second,
        gate,
        stage,
    };
    let (pass, faults, keeper) = work_and_sweep(
        rt,
        &shared,
        queues.as_slice(),
        members,
        unread,
        pass,
        faults,
        keeping,
    );
    let closed = board.close(pass);
    let results = results_of(checked, &closed, faults.as_slice(), results);
    (Ok(Outcome::new(results, closed)), keeper)
}
