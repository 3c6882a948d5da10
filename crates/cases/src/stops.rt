//! Runs that are stopped before each try of a claim, and gone on with: whatever was done by then, the next run ends with the
//! pair that the first one was to end with. So it does from each archive that a run kept while it went on.
ghost use Rattle.std.specs.Prelude.{◌≤◌};

mod countdown;
mod kept;
mod pair;
mod shelf;
mod stories;

use crate::stops::countdown::Countdown;
use crate::stops::pair::{NO_ACTION, Pair, bundle_of};
use crate::stops::stories::{BECOMES_DIRECTORY, STORIES, Story};
use anyhow::{Result, ensure};
use std::thread::Threads;
use ts_exec::ActionResult;
use ts_model::plan::Plan;
use ts_plan::{encode, fits};
use ts_text::Counted;

/// Of a plan of a file that becomes a directory, what is left when its mark was never tried.
const LEFT_PLAN: &[u8] =
    b"twosync-plan 1\nentry dir /a\nentry same /a/b\nmark 0\nmark 1\np 0\nend 2 2\n";

const LEFT_REPORT: &[u8] = b"blocked first /a\ntotal 1 done 0 skipped 0 failed 0 blocked 1\n";

/// How many of these actions were claimed.
fn claimed(results: &[ActionResult]) -> u64 {
    let mut count: u64 = 0;
    for result in results {
        if let ActionResult::Done | ActionResult::Failed(_) = result {
            count = count.saturating_add(1);
        }
    }
    count
}

/// Runs a story until the stop has answered false so often, and goes on with what is left: it ends as it should.
fn stop_once<R>(rt: &R, story: &Story, workers: u32, tries: u64) -> Result<u64>
where
    R: Threads + AllocGlobal + Sync,
    requires { workers ≤ 64 }
{
    let alloc = rt.alloc();
    let bundle = bundle_of(alloc, story.bundle)?;
    let mut pair = Pair::of_bundle(alloc, &bundle)?;
    let count = run_stopped(rt, story, &bundle.plan, &mut pair, workers, tries)?;
    go_on(rt, story, &mut pair, workers)?;
    Ok(count)
}

/// Runs a story's plan until the stop has answered false so often, and answers how many actions were claimed.
fn run_stopped<R>(
    rt: &R,
    story: &Story,
    plan: &Plan,
    pair: &mut Pair,
    workers: u32,
    tries: u64,
) -> Result<u64>
where
    R: Threads + AllocGlobal + Sync,
    requires { workers ≤ 64 }
{
    let stop = Countdown::new(tries);
    let came = pair.carry_out(rt, plan, story.breaks, workers, &stop)?;
    let results = came.results.as_slice();
    let count = claimed(results);
    ensure!(count <= tries, "a claim that the stop wasn't asked of");
    let is_left = results.contains(&ActionResult::Left);
    ensure!(stop.has_stopped() || !is_left, "left without a stop");
    Ok(count)
}

/// Goes on with what is left of a story: it ends as it should.
fn go_on<R>(rt: &R, story: &Story, pair: &mut Pair, workers: u32) -> Result<()>
where
    R: Threads + AllocGlobal + Sync,
    requires { workers ≤ 64 }
{
    let alloc = rt.alloc();
    let rest = pair.plan(alloc)?;
    let never = Countdown::new(u64::MAX);
    let came = pair.carry_out(rt, &rest, NO_ACTION, workers, &never)?;
    for result in &came.results {
        ensure!(*result == ActionResult::Done, "an action isn't done");
    }
    ensure!(pair.is(alloc, story.wanted)?, "another pair");
    Ok(())
}

/// Stops a story before each try of a claim. With a worker, each try of a hint claims its action, so the stop says just how
/// many are claimed.
fn try_story<R>(rt: &R, story: &Story) -> Result<u64>
where
    R: Threads + AllocGlobal + Sync,
{
    // each action is tried twice at most, after a hint and by the sweep
    let most = story.actions.saturating_mul(2);
    let mut stops: u64 = 0;
    for workers in [0, 1, 2, 4] {
        for tries in 0..=most {
            let count = stop_once(rt, story, workers, tries)?;
            ensure!(
                workers != 1 || count == tries.min(story.claims),
                "another number of claims"
            );
            ensure!(
                tries < most || count == story.claims,
                "not all that could be claimed"
            );
            stops = stops.saturating_add(1);
        }
    }
    Ok(stops)
}

/// The text of a plan.
fn text_of<R: AllocGlobal>(rt: &R, plan: &Plan) -> Result<Vec<u8>> {
    let alloc = rt.alloc();
    ensure!(fits(plan), "a plan without a text");
    let mut sink = Counted::new(Vec::new(alloc));
    encode(alloc, plan, &mut sink)?;
    Ok(sink.into_inner())
}

/// A file becomes a directory, and the run is stopped between its commit and its mark: the mark is left, the report calls the
/// entry blocked, and what is to be done next is to agree on what both replicas have by then.
fn stop_before_the_mark<R>(rt: &R) -> Result<()>
where
    R: Threads + AllocGlobal + Sync,
{
    let alloc = rt.alloc();
    let bundle = bundle_of(alloc, BECOMES_DIRECTORY.bundle)?;
    let mut pair = Pair::of_bundle(alloc, &bundle)?;
    let stop = Countdown::new(2);
    let came = pair.carry_out(rt, &bundle.plan, NO_ACTION, 1, &stop)?;
    let wanted = [ActionResult::Done, ActionResult::Done, ActionResult::Left];
    ensure!(
        came.results.as_slice() == wanted.as_slice(),
        "other results"
    );
    ensure!(came.report.as_slice() == LEFT_REPORT, "another report");
    let rest = pair.plan(alloc)?;
    ensure!(
        text_of(rt, &rest)?.as_slice() == LEFT_PLAN,
        "another plan for the rest"
    );
    Ok(())
}

/// Stops all stories, and says how often.
pub fn try_cases<R>(rt: &R) -> Result<()>
where
    R: Threads + Print + AllocGlobal + Sync,
{
    stop_before_the_mark(rt)?;
    println!(rt; "stopped between a commit and its mark: as wanted")?;
    for story in STORIES {
        let stops = try_story(rt, story)?;
        let name = story.name;
        println!(rt; "{name}: stopped {stops} times, and gone on with to the end")?;
    }
    let count = kept::try_cases(rt)?;
    println!(rt; "kept while they went on: {count} runs, and gone on with from each archive")?;
    Ok(())
}
