//! Carries plans out by the executor, and compares what comes of each action with what its failures and those it waits for
//! leave: 200 times a plan of 2,000 actions with 8 workers, each time with other commits and pieces that fail, and once
//! without workers, so that the sweep alone does all; a plan whose first two pieces have to be at work at once; the same plan
//! 200 times by two workers; and small cases in which one thing fails.

ghost use Rattle.std.specs.Prelude.{◌≤◌, length};
ghost use Rattle.std.specs.Mem.Slots.{slots_len};

mod expected;
mod gate;
mod named;
mod world;

use crate::executor::expected::{done_marks, expected};
use crate::executor::gate::Meeting;
use crate::executor::named::{CASES, Case, came_of};
use crate::executor::world::{Files, World};
use anyhow::{Context, Result, bail, ensure};
use rand_core::utils::NextWord;
use rand_pcg::Pcg32;
use std::alloc::Global;
use std::thread::Threads;
use ts_check::Checked;
use ts_exec::{ActionResult, Gate, OpenGate, Outcome, commit_count, run};
use ts_folder::{Failing, FaultyFolder, MemFolder, Trouble};
use ts_model::packed::KindRef;
use ts_site::FaultySite;
use ts_tree::{SubTree, Tree};

const RUNS: u32 = 200;

/// One piece or commit in so many fails.
const RARITY: u32 = 50;

/// Which pieces and commits are to fail.
fn draw(
    alloc: Global,
    checked: &Checked<'_>,
    random: &mut Pcg32,
    rarity: u32,
) -> Result<Vec<bool>> {
    let mut fails = Vec::new(alloc);
    for action in checked.plan().actions.as_slice() {
        let is_mark = matches!(action.kind(), KindRef::Mark { entry: _ });
        let drawn = rarity > 0 && random.next_word() % rarity.max(1) == 0;
        fails.push(drawn && !is_mark)?;
    }
    Ok(fails)
}

/// A folder that fails where the pieces that are flagged are read.
fn folder(
    alloc: Global,
    tree: &Tree,
    checked: &Checked<'_>,
    fails: &[bool],
) -> Result<FaultyFolder> {
    let mut reads = Vec::new(alloc);
    for (action, fails) in checked.plan().actions.as_slice().iter().zip(fails) {
        if let KindRef::Piece { path, .. } = action.kind() {
            if *fails {
                reads.push(Failing {
                    path: path.copy(alloc)?,
                    trouble: Trouble::Device,
                })?;
            }
        }
    }
    let folder = MemFolder::new(tree.copy(alloc)?);
    Ok(FaultyFolder::new(folder, Vec::new(alloc), reads))
}

/// A site for each commit, where nothing is. Those that are flagged fail.
fn sites(alloc: Global, checked: &Checked<'_>, fails: &[bool]) -> Result<Vec<FaultySite>> {
    let mut sites = Vec::new(alloc);
    for (action, fails) in checked.plan().actions.as_slice().iter().zip(fails) {
        if let KindRef::Commit { entry: _ } = action.kind() {
            let mut first = Vec::new(alloc);
            first.push(*fails)?;
            sites.push(FaultySite::new(SubTree::absent(alloc), first))?;
        }
    }
    Ok(sites)
}

/// Looks whether each action came to what was to be expected, each commit's site has its file just where the commit is
/// done, and the archive has a row for each mark that is done.
fn compare(
    alloc: Global,
    checked: &Checked<'_>,
    fails: &[bool],
    mut outcome: Outcome<FaultySite>,
    rows: usize,
) -> Result<u32>
    requires results { length checked.now.plan.actions ≤ length outcome.results.items }
    requires slots { length checked.now.plan.actions ≤ slots_len outcome.closed.row.slots }
{
    let wanted = expected(alloc, checked, fails)?;
    let mut done: u32 = 0;
    for i in 0..checked.action_count() {
        let result = outcome.result(i);
        ensure!(wanted.get(i as usize) == Some(&result), "another result");
        if let KindRef::Commit { entry: _ } = checked.plan().actions.as_slice()[i as usize].kind() {
            let site = outcome.take_site(i).context("finding a site")?;
            let has_file = site.into_content().rows().len() == 1;
            ensure!(
                has_file == (result == ActionResult::Done),
                "another content"
            );
        }
        if result == ActionResult::Done {
            done = done.saturating_add(1);
        }
    }
    ensure!(
        done_marks(checked, wanted.as_slice()) == rows,
        "another archive"
    );
    Ok(done)
}

/// Runs a plan once, and answers how many of its actions were done.
fn run_once<R, G>(
    rt: &R,
    world: &World,
    checked: &Checked<'_>,
    fails: &[bool],
    workers: u32,
    gate: &G,
) -> Result<u32>
where
    R: Threads + AllocGlobal + Sync,
    G: Gate + Sync,
    requires { workers ≤ 64 }
{
    let alloc = rt.alloc();
    let first = folder(alloc, &world.first, checked, fails)?;
    let second = folder(alloc, &world.second, checked, fails)?;
    let sites = sites(alloc, checked, fails)?;
    ensure!(
        sites.len() == commit_count(checked.plan()),
        "a commit has no site"
    );
    let Ok(outcome) = run(
        rt, alloc, &*checked, &first, &second, sites, workers, &*gate,
    ) else {
        bail!("out of memory");
    };
    let archive = outcome.archive(alloc, checked)?;
    compare(alloc, checked, fails, outcome, archive.rows().len())
}

/// Carries the plan of 2,000 actions out, each time with other failures, and answers how many actions were done in all.
fn run_often<R>(rt: &R) -> Result<u64>
where
    R: Threads + AllocGlobal + Sync,
{
    let alloc = rt.alloc();
    let first = Files {
        letter: 'a',
        from: 0,
        to: 23,
    };
    let second = Files {
        letter: 'b',
        from: 0,
        to: 10,
    };
    let world = World::new(alloc, 20, first, second)?;
    let plan = world.plan(alloc)?;
    let checked = world.check(rt, &plan)?;
    ensure!(checked.action_count() == 2_000, "another plan");
    let mut random = Pcg32::new(2_026, 11);
    let mut done: u64 = 0;
    for _ in 0..RUNS {
        let fails = draw(alloc, &checked, &mut random, RARITY)?;
        let now = run_once(rt, &world, &checked, fails.as_slice(), 8, &OpenGate)?;
        done = done.saturating_add(u64::from(now));
    }
    sweep(rt, &world, &checked, &mut random)?;
    Ok(done)
}

/// Carries the plan out without workers, once with failures and once without.
fn sweep<R>(rt: &R, world: &World, checked: &Checked<'_>, random: &mut Pcg32) -> Result<()>
where
    R: Threads + AllocGlobal + Sync,
{
    let fails = draw(rt.alloc(), checked, random, RARITY)?;
    run_once(rt, world, checked, fails.as_slice(), 0, &OpenGate)?;
    let fails = draw(rt.alloc(), checked, random, 0)?;
    let done = run_once(rt, world, checked, fails.as_slice(), 0, &OpenGate)?;
    ensure!(done == checked.action_count(), "an action isn't done");
    Ok(())
}

/// The numbers of the first two pieces of a plan.
fn first_pieces(checked: &Checked<'_>) -> Result<(u32, u32)> {
    let mut found = None;
    for i in 0..checked.action_count() {
        if let KindRef::Piece { .. } = checked.plan().actions.as_slice()[i as usize].kind() {
            match found {
                None => found = Some(i),
                Some(first) => return Ok((first, i)),
            }
        }
    }
    bail!("a plan with fewer than two pieces")
}

/// Two workers have to be at two pieces at once.
fn run_at_once<R>(rt: &R) -> Result<()>
where
    R: Threads + AllocGlobal + Sync,
{
    let alloc = rt.alloc();
    let first = Files {
        letter: 'a',
        from: 0,
        to: 1,
    };
    let second = Files {
        letter: 'b',
        from: 0,
        to: 1,
    };
    let world = World::new(alloc, 1, first, second)?;
    let plan = world.plan(alloc)?;
    let checked = world.check(rt, &plan)?;
    let (one, other) = first_pieces(&checked)?;
    let meeting = Meeting::new(one, other);
    let mut random = Pcg32::new(2_026, 12);
    let fails = draw(alloc, &checked, &mut random, 0)?;
    let done = run_once(rt, &world, &checked, fails.as_slice(), 2, &meeting)?;
    ensure!(done == checked.action_count(), "an action isn't done");
    ensure!(meeting.took_place(), "the pieces didn't meet");
    race(rt, &world, &checked, fails.as_slice())
}

/// Two workers race for each action of a plan, once and again.
fn race<R>(rt: &R, world: &World, checked: &Checked<'_>, fails: &[bool]) -> Result<()>
where
    R: Threads + AllocGlobal + Sync,
{
    for _ in 0..RUNS {
        let done = run_once(rt, world, checked, fails, 2, &OpenGate)?;
        ensure!(done == 7, "an action isn't done");
    }
    Ok(())
}

/// Runs a named case without workers and with 1, 2, 4 and 64: what comes of it is what is wanted.
fn run_named<R>(rt: &R, case: &Case) -> Result<()>
where
    R: Threads + AllocGlobal + Sync,
{
    for workers in [0, 1, 2, 4, 64] {
        let came = came_of(rt, case, workers).context("running a case")?;
        ensure!(came.as_str() == case.wanted, "another result");
    }
    Ok(())
}

/// Carries the plans out, and says what came of them.
pub fn try_cases<R>(rt: &R) -> Result<()>
where
    R: Threads + Print + AllocGlobal + Sync,
{
    let done = run_often(rt)?;
    ensure!(
        done > 300_000 && done < 400_000,
        "the failures are too many or too few"
    );
    println!(rt;
        "a plan of 2000 actions, 200 runs by 8 workers with failures, and one by the sweep: each result as wanted"
    )?;
    run_at_once(rt)?;
    println!(rt; "two workers meet at two pieces, and race for 7 actions 200 times")?;
    run_each_named(rt, CASES)
}

/// Runs the named cases, and says of each that it came out as wanted.
fn run_each_named<R>(rt: &R, cases: &[Case]) -> Result<()>
where
    R: Threads + Print + AllocGlobal + Sync,
{
    for case in cases {
        run_named(rt, case)?;
        let name = case.name;
        println!(rt; "{name}: as wanted")?;
    }
    Ok(())
}
