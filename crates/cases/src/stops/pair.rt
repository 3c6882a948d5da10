//! Two replicas, and what they last agreed on, from one run to the next.
ghost use Rattle.std.specs.Prelude.{◌≡◌, ◌≤◌, length, IfOk};
ghost use Rattle.std.specs.Mem.Slots.{slots_len};

use crate::stops::countdown::Countdown;
use crate::stops::shelf::Shelf;
use anyhow::{Context, Result, bail, ensure};
use std::alloc::Global;
use std::thread::Threads;
use ts_bundle::{Bundle, BundleReader};
use ts_check::{Checked, check};
use ts_exec::{ActionResult, OpenGate, Outcome, commit_count, run_keeping, run_until};
use ts_folder::MemFolder;
use ts_hold::Holds;
use ts_model::packed::KindRef;
use ts_model::plan::{ACTION_LIMIT, Entry, Plan, Side};
use ts_name::Path;
use ts_plan_build::resume;
use ts_print::Print;
use ts_report::write;
use ts_site::FaultySite;
use ts_text::Counted;
use ts_tree::Tree;

/// A number that no action has.
pub const NO_ACTION: u64 = u64::MAX;

/// What came of a plan: the result of each action, and the report.
#[derive(Drop)]
pub struct Came {
    pub results: Vec<ActionResult>,
    pub report: Vec<u8>,
}

/// The replicas and the archive. Nothing is held.
pub struct Pair {
    first: Tree,
    second: Tree,
    archive: Print,
}

/// Written out, so that a proof of what drops one stays short.
impl Drop for Pair {
    fn drop(self) {
        let Pair {
            first,
            second,
            archive,
        } = self;
        drop(first);
        drop(second);
        drop(archive);
    }
}

/// The side that a copied entry is copied to.
fn target_of(entry: &Entry) -> Result<Side> {
    match entry.reason.source() {
        Some(side) => Ok(side.other()),
        None => bail!("a commit of an entry that isn't copied"),
    }
}

/// The entry of a number.
fn entry_at(plan: &Plan, entry: u32) -> Result<&Entry> {
    plan.entries
        .as_slice()
        .get(entry as usize)
        .context("finding an entry")
}

/// The bundle of these lines.
pub fn bundle_of(alloc: Global, lines: &[&str]) -> Result<Bundle> {
    let mut reader = BundleReader::new();
    for line in lines {
        reader = reader.line(alloc, line.as_bytes())?;
    }
    Ok(reader.finish()?)
}

/// What a plan is checked with, and the folders that it is carried out from.
struct Before {
    archive: Print,
    first: Print,
    second: Print,
    holds: Holds,
    first_folder: MemFolder,
    second_folder: MemFolder,
}

/// Written out, so that a proof of what drops one stays short.
impl Drop for Before {
    fn drop(self) {
        let Before {
            archive,
            first,
            second,
            holds,
            first_folder,
            second_folder,
        } = self;
        drop(archive);
        drop(first);
        drop(second);
        drop(holds);
        drop(first_folder);
        drop(second_folder);
    }
}

impl Before {
    /// The replicas and the archive as they are.
    fn of(alloc: Global, pair: &Pair) -> Result<Before> {
        Ok(Before {
            archive: pair.archive.copy(alloc)?,
            first: Print::of_tree(alloc, &pair.first)?,
            second: Print::of_tree(alloc, &pair.second)?,
            holds: Holds::none(alloc),
            first_folder: MemFolder::new(pair.first.copy(alloc)?),
            second_folder: MemFolder::new(pair.second.copy(alloc)?),
        })
    }

    /// Checks a plan for them.
    fn check<'a, R>(&'a self, rt: &R, plan: &'a Plan) -> Result<Checked<'a>>
    where
        R: Threads + AllocGlobal + Sync,
        ensures { IfOk result (λ checked. checked.plan ≡ plan.entry.now) }
    {
        let Before {
            archive,
            first,
            second,
            holds,
            ..
        } = self;
        Ok(check(rt, rt.alloc(), plan, archive, first, second, holds)?)
    }
}

impl Pair {
    /// The replicas and the archive of a bundle that has no hold rules.
    pub fn of_bundle(alloc: Global, bundle: &Bundle) -> Result<Pair> {
        Ok(Pair {
            first: bundle.first.copy(alloc)?,
            second: bundle.second.copy(alloc)?,
            archive: bundle.archive.copy(alloc)?,
        })
    }

    /// The same replicas, with another archive.
    pub fn with_archive(&self, alloc: Global, archive: &Print) -> Result<Pair> {
        Ok(Pair {
            first: self.first.copy(alloc)?,
            second: self.second.copy(alloc)?,
            archive: archive.copy(alloc)?,
        })
    }

    /// The planner's plan for what is there.
    pub fn plan(&self, alloc: Global) -> Result<Plan> {
        let first = Print::of_tree(alloc, &self.first)?;
        let second = Print::of_tree(alloc, &self.second)?;
        let holds = Holds::none(alloc);
        Ok(resume(alloc, &self.archive, &first, &second, &holds)?)
    }

    /// Carries out a plan until it is stopped, and takes over what came of it. The site of one action may fail.
    pub fn carry_out<R>(
        &mut self,
        rt: &R,
        plan: &Plan,
        breaks: u64,
        workers: u32,
        stop: &Countdown,
    ) -> Result<Came>
    where
        R: Threads + AllocGlobal + Sync,
        requires { workers ≤ 64 }
    {
        let alloc = rt.alloc();
        let before = Before::of(alloc, &*self)?;
        let checked = before.check(rt, plan)?;
        let sites = self.sites(alloc, plan, breaks)?;
        ensure!(sites.len() == commit_count(plan), "a commit has no site");
        let (first, second) = (&before.first_folder, &before.second_folder);
        let Ok(outcome) = run_until(
            rt, alloc, &checked, first, second, sites, workers, &OpenGate, &*stop,
        ) else {
            bail!("out of memory");
        };
        self.archive = outcome.archive(alloc, &checked)?;
        self.take_over(alloc, &checked, outcome)
    }

    /// Carries out a plan, takes over what came of it, and answers the archives that were stored meanwhile, one after each so
    /// many actions of the calling thread. The site of one action may fail.
    pub fn carry_out_keeping<R>(
        &mut self,
        rt: &R,
        plan: &Plan,
        breaks: u64,
        workers: u32,
        every: u32,
    ) -> Result<(Came, Vec<Print>)>
    where
        R: Threads + AllocGlobal + Sync,
        requires few { workers ≤ 64 }
        requires every { (1 ≤ every) × (every ≤ 1048576) }
    {
        let alloc = rt.alloc();
        let before = Before::of(alloc, &*self)?;
        let checked = before.check(rt, plan)?;
        let sites = self.sites(alloc, plan, breaks)?;
        ensure!(sites.len() == commit_count(plan), "a commit has no site");
        let (first, second) = (&before.first_folder, &before.second_folder);
        let shelf = Shelf::new(alloc);
        let (ran, shelf) = run_keeping(
            rt, alloc, &checked, first, second, sites, workers, &OpenGate, shelf, every,
        );
        let Ok(outcome) = ran else {
            bail!("out of memory");
        };
        self.archive = outcome.archive(alloc, &checked)?;
        let came = self.take_over(alloc, &checked, outcome)?;
        Ok((came, shelf.into_archives()))
    }

    /// What the replica of a side has at a path.
    fn replica(&mut self, side: Side) -> &mut Tree {
        match side {
            Side::First => &mut self.first,
            Side::Second => &mut self.second,
        }
    }

    /// The site of each commit, with what its target has.
    fn sites(&mut self, alloc: Global, plan: &Plan, breaks: u64) -> Result<Vec<FaultySite>> {
        let mut sites = Vec::new(alloc);
        for (i, action) in plan.actions.as_slice().iter().enumerate() {
            if let KindRef::Commit { entry } = action.kind() {
                let entry = entry_at(plan, entry)?;
                let content = self
                    .replica(target_of(entry)?)
                    .sub_tree(alloc, &entry.path)?;
                let mut fails = Vec::new(alloc);
                fails.push(i as u64 == breaks)?;
                sites.push(FaultySite::new(content, fails))?;
            }
        }
        Ok(sites)
    }

    /// Takes over what the sites have, and answers what came of each action.
    fn take_over(
        &mut self,
        alloc: Global,
        checked: &Checked<'_>,
        outcome: Outcome<FaultySite>,
    ) -> Result<Came>
    where
        requires results { length checked.now.plan.actions ≤ length outcome.results.items }
        requires slots { length checked.now.plan.actions ≤ slots_len outcome.closed.row.slots }
    {
        let plan = checked.plan();
        ensure!(
            plan.actions.as_slice().len() <= ACTION_LIMIT,
            "too many actions"
        );
        let (ended, mut closed) = outcome.split();
        let results = Vec::from_slice(alloc, ended.as_slice())?;
        let mut sink = Counted::new(Vec::new(alloc));
        write(alloc, plan, &ended, &mut sink)?;
        for i in 0..checked.action_count() {
            if let KindRef::Commit { entry } = plan.actions.as_slice()[i as usize].kind() {
                let entry = entry_at(plan, entry)?;
                let site = closed.take_site(i).context("finding a site")?;
                let tree = self.replica(target_of(entry)?);
                ensure!(tree.is_place(&entry.path), "no place for an entry");
                tree.replace(alloc, &entry.path, site.into_content())?;
            }
        }
        Ok(Came {
            results,
            report: sink.into_inner(),
        })
    }

    /// Whether both replicas are this tree, and the archive is its print.
    pub fn is(&self, alloc: Global, lines: &[&str]) -> Result<bool> {
        let mut reader = ts_tree::TreeReader::new(alloc);
        for line in lines {
            reader.line(alloc, line.as_bytes())?;
        }
        let wanted = Print::of_tree(alloc, &reader.finish()?)?;
        let first = Print::of_tree(alloc, &self.first)?;
        let second = Print::of_tree(alloc, &self.second)?;
        let top = Path::root(alloc);
        Ok(
            first.sub_eq(&wanted, &top)
                && second.sub_eq(&wanted, &top)
                && self.archive.sub_eq(&wanted, &top),
        )
    }
}
