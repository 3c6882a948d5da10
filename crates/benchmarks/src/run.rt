//! Carries out a plan that copies many new files of two bytes, over folders and sites in memory. Without words it is a small
//! one, by 2 workers. After the number of files comes the number of workers, from 1 to 64, and then it also says how long
//! that took, and how long it went on after one of the last actions had begun: workers end, the sweep looks at each action,
//! and the outcome is made. A third number says after how many actions of the calling thread an archive is kept each time.

ghost use Rattle.std.specs.Prelude.{◌≤◌};

use crate::watch::Watch;
use crate::words::{Every, Workers, number, read_every, worker_count};
use anyhow::{Result, bail, ensure};
use std::alloc::Global;
use std::rt::Clock;
use std::thread::Threads;
use std::time::Instant;
use ts_check::{Checked, check};
use ts_exec::{ActionResult, Keeper, commit_count, run, run_keeping};
use ts_folder::MemFolder;
use ts_hold::Holds;
use ts_model::packed::KindRef;
use ts_model::plan::Plan;
use ts_plan_build::resume;
use ts_site::MemSite;
use ts_tree::{SubTree, Tree, TreeReader};

/// How many files there are where no number is given.
const FEW: u32 = 500;

/// One action in so many, at the end of the plan, is noted when it begins.
const NOTED: u32 = 100;

/// How many files are copied, by how many workers, and after how many actions an archive is kept, if any is.
#[derive(Clone, Copy)]
struct Asked {
    files: u32,
    workers: Workers,
    every: Option<Every>,
}

/// A keeper that only counts.
#[derive(Drop)]
struct Tally {
    archives: u64,
}

impl Keeper for Tally {
    ghost use Rattle.std.specs.Prelude.{None};

    ghost kept = { λ _. None };

    fn keep(&mut self, _archive: ts_print::Print) {
        self.archives = self.archives.saturating_add(1);
    }
}

/// What a run took, in microseconds.
#[derive(Clone, Copy)]
struct Took {
    all: u64,
    /// How much of it came after one of the last actions had begun.
    after: u64,
    /// How many archives were kept.
    archives: u64,
}

/// What the words ask for, if there are any.
fn wanted(words: &[String]) -> Result<Option<Asked>> {
    if words.is_empty() {
        return Ok(None);
    }
    let files = number(words, 0)?;
    let workers = worker_count(words, 1)?;
    let every = if words.len() > 2 {
        Some(read_every(words, 2)?)
    } else {
        None
    };
    Ok(Some(Asked {
        files,
        workers,
        every,
    }))
}

/// So many files.
fn replica(alloc: Global, files: u32) -> Result<Tree> {
    let mut reader = TreeReader::new(alloc);
    for file in 0..files {
        let line = format!(in alloc; "f /file{file:08} 2")?;
        reader.line(alloc, line.as_bytes())?;
        reader.line(alloc, b"x 6162")?;
    }
    Ok(reader.finish()?)
}

/// An empty site for each commit, in a box, as a run on a disk has them.
fn sites(alloc: Global, plan: &Plan) -> Result<Vec<Box<MemSite>>> {
    let mut sites = Vec::new(alloc);
    for action in plan.actions.as_slice() {
        if let KindRef::Commit { .. } = action.kind() {
            let site = MemSite::new(SubTree::absent(alloc));
            sites.push(Box::new(alloc, site)?)?;
        }
    }
    Ok(sites)
}

/// Carries a plan out, all of whose actions have to be done.
fn carry_out<R>(rt: &R, checked: &Checked<'_>, first: Tree, asked: Asked) -> Result<Took>
where
    R: Clock + Threads + AllocGlobal + Sync,
{
    let alloc = rt.alloc();
    let first = MemFolder::new(first);
    let second = MemFolder::new(Tree::empty(alloc));
    let sites = sites(alloc, checked.plan())?;
    ensure!(
        sites.len() == commit_count(checked.plan()),
        "a commit has no site"
    );
    let count = checked.action_count();
    let start = Instant::now(rt)?;
    let watch = Watch::new(rt, start, count - count / NOTED);
    let workers = asked.workers.count;
    let mut tally = Tally { archives: 0 };
    let ran = match asked.every {
        Some(Every { count: every, .. }) => {
            let (ran, kept) = run_keeping(
                rt, alloc, &*checked, &first, &second, sites, workers, &watch, tally, every,
            );
            tally = kept;
            ran
        }
        None => run(
            rt, alloc, &*checked, &first, &second, sites, workers, &watch,
        ),
    };
    let Ok(outcome) = ran else {
        bail!("out of memory");
    };
    let all = u64::try_from(start.elapsed(rt)?.as_micros()).unwrap_or(u64::MAX);
    let is_done = |came: &ActionResult| *came == ActionResult::Done;
    ensure!(
        outcome.results().iter().all(is_done),
        "an action isn't done"
    );
    let after = all.saturating_sub(watch.last());
    Ok(Took {
        all,
        after,
        archives: tally.archives,
    })
}

/// Plans, checks and carries out. Answers how many actions there are, and what carrying them out took.
fn plan_and_carry_out<R>(rt: &R, asked: Asked) -> Result<(u32, Took)>
where
    R: Clock + Threads + AllocGlobal + Sync,
{
    let alloc = rt.alloc();
    let first = replica(alloc, asked.files)?;
    let print = ts_print::Print::of_tree(alloc, &first)?;
    let none = ts_print::Print::empty(alloc);
    let holds = Holds::none(alloc);
    let plan = resume(alloc, &none, &print, &none, &holds)?;
    let checked = check(rt, alloc, &plan, &none, &print, &none, &holds)?;
    let took = carry_out(rt, &checked, first, asked)?;
    Ok((checked.action_count(), took))
}

/// Carries out what the words ask for, or a small plan.
pub fn measure<R>(rt: &R, words: &[String]) -> Result<()>
where
    R: Clock + Threads + Print + AllocGlobal + Sync,
{
    let few = Asked {
        files: FEW,
        workers: Workers { count: 2 },
        every: None,
    };
    let asked = wanted(words)?;
    let (actions, took) = plan_and_carry_out(rt, asked.unwrap_or(few))?;
    println!(rt; "{actions} actions, done")?;
    if let Some(asked) = asked {
        let Took {
            all,
            after,
            archives,
        } = took;
        let workers = asked.workers.count;
        println!(rt; "by {workers} workers in {all} us, {after} us of them after the last began")?;
        if asked.every.is_some() {
            println!(rt; "{archives} archives were kept meanwhile")?;
        }
    }
    Ok(())
}
