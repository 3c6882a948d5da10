//! Two replicas with new files in directories that both have new, and the plan for them.

use anyhow::Result;
use std::alloc::Global;
use std::thread::Threads;
use ts_check::{Checked, check};
use ts_hold::Holds;
use ts_model::plan::Plan;
use ts_plan_build::resume;
use ts_print::Print;
use ts_tree::{Tree, TreeReader};

/// Which files a replica has in each directory.
#[derive(Clone, Copy)]
pub struct Files {
    pub letter: char,
    pub from: u32,
    pub to: u32,
}

/// Two replicas, their prints, and the empty archive.
pub struct World {
    pub first: Tree,
    pub second: Tree,
    pub archive: Print,
    pub first_print: Print,
    pub second_print: Print,
    pub holds: Holds,
}

/// Written out, so that a proof of what drops one stays short.
impl Drop for World {
    fn drop(self) {
        let World {
            first,
            second,
            archive,
            first_print,
            second_print,
            holds,
        } = self;
        drop(first);
        drop(second);
        drop(archive);
        drop(first_print);
        drop(second_print);
        drop(holds);
    }
}

/// So many directories, each with the files of a replica, of two bytes each.
fn replica(alloc: Global, dirs: u32, files: Files) -> Result<Tree> {
    let mut reader = TreeReader::new(alloc);
    for dir in 0..dirs {
        let line = format!(in alloc; "d /d{dir:04}")?;
        reader.line(alloc, line.as_bytes())?;
        for file in files.from..files.to {
            let letter = files.letter;
            let line = format!(in alloc; "f /d{dir:04}/{letter}{file:04} 2")?;
            reader.line(alloc, line.as_bytes())?;
            reader.line(alloc, b"x 6162")?;
        }
    }
    Ok(reader.finish()?)
}

impl World {
    /// Both replicas have so many new directories, the first one with these files in each, the second one with those.
    pub fn new(alloc: Global, dirs: u32, first: Files, second: Files) -> Result<World> {
        let first = replica(alloc, dirs, first)?;
        let second = replica(alloc, dirs, second)?;
        let first_print = Print::of_tree(alloc, &first)?;
        let second_print = Print::of_tree(alloc, &second)?;
        Ok(World {
            first,
            second,
            archive: Print::empty(alloc),
            first_print,
            second_print,
            holds: Holds::none(alloc),
        })
    }

    /// The planner's plan.
    pub fn plan(&self, alloc: Global) -> Result<Plan> {
        let plan = resume(
            alloc,
            &self.archive,
            &self.first_print,
            &self.second_print,
            &self.holds,
        )?;
        Ok(plan)
    }

    /// A plan for these replicas, checked.
    pub fn check<'a, R: Threads + AllocGlobal + Sync>(
        &'a self,
        rt: &R,
        plan: &'a Plan,
    ) -> Result<Checked<'a>> {
        let checked = check(
            rt,
            rt.alloc(),
            plan,
            &self.archive,
            &self.first_print,
            &self.second_print,
            &self.holds,
        )?;
        Ok(checked)
    }
}
