//! Small cases in which one thing fails, each with what is to come of every action.
ghost use Rattle.std.specs.Prelude.{◌≤◌};

use std::alloc::Global;
use std::thread::Threads;
use ts_check::{Checked, check};
use ts_exec::{ActionResult, OpenGate, commit_count, run};
use ts_folder::{Failing, FaultyFolder, MemFolder, Trouble};
use ts_hold::Holds;
use ts_model::packed::KindRef;
use ts_model::plan::Plan;
use ts_name::Path;
use ts_plan_build::resume;
use ts_print::Print;
use ts_site::FaultySite;
use ts_tree::{SubTree, Tree, TreeReader};

/// What the replicas have, what fails, and what is to come of each action.
#[derive(Clone, Copy)]
pub struct Case {
    pub name: &'static str,
    /// The first replica as it was scanned.
    pub first: &'static [&'static str],
    pub second: &'static [&'static str],
    /// The first replica as its folder tells it later.
    pub told: &'static [&'static str],
    /// The path whose reading fails, in the first folder; none where it is no path.
    pub unread: &'static str,
    /// The same in the second folder.
    pub unread_in_second: &'static str,
    /// The number of the action whose site's device fails.
    pub breaks: u32,
    /// Whether a file lies at the sites, where the plan was checked for none.
    pub taken: bool,
    pub wanted: &'static str,
}

const FILE: &[&str] = &["f /a 1", "x 61"];

const FILES: &[&str] = &["f /a 1", "x 61", "f /b 1", "x 62"];

const FIRST_IN_DIR: &[&str] = &["d /d", "f /d/x 1", "x 61"];

const SECOND_IN_DIR: &[&str] = &["d /d", "f /d/y 1", "x 62"];

/// A number that no action has.
const NO_ACTION: u32 = u32::MAX;

/// A new file, and nothing that fails.
const NEW_FILE: Case = Case {
    name: "a new file",
    first: FILE,
    second: &[],
    told: FILE,
    unread: "",
    unread_in_second: "",
    breaks: NO_ACTION,
    taken: false,
    wanted: "done, done, done, ",
};

/// A new directory in both replicas, each with a new file in it, and nothing that fails.
const IN_DIR: Case = Case {
    name: "files in a new directory",
    first: FIRST_IN_DIR,
    second: SECOND_IN_DIR,
    told: FIRST_IN_DIR,
    wanted: "done, done, done, done, done, done, done, ",
    ..NEW_FILE
};

/// The cases. What is wanted follows from the rules: a commit waits for its pieces, a mark for its commit, and below a new
/// directory its mark for the directory's. Each reading and each site of two new files fails in turn, and so it goes for
/// those in a new directory.
pub const CASES: &[Case] = &[
    NEW_FILE,
    Case {
        name: "a site that fails",
        first: FILES,
        told: FILES,
        breaks: 1,
        wanted: "done, failed 8, blocked by 1, done, done, done, ",
        ..NEW_FILE
    },
    Case {
        name: "the other file's site fails",
        first: FILES,
        told: FILES,
        breaks: 4,
        wanted: "done, done, done, done, failed 8, blocked by 4, ",
        ..NEW_FILE
    },
    Case {
        name: "a file that can't be read",
        first: FILES,
        told: FILES,
        unread: "/a",
        wanted: "failed 8, blocked by 0, blocked by 1, done, done, done, ",
        ..NEW_FILE
    },
    Case {
        name: "the other file can't be read",
        first: FILES,
        told: FILES,
        unread: "/b",
        wanted: "done, done, done, failed 8, blocked by 3, blocked by 4, ",
        ..NEW_FILE
    },
    IN_DIR,
    Case {
        name: "a site that fails in a new directory",
        breaks: 2,
        wanted: "done, done, failed 8, blocked by 2, done, done, done, ",
        ..IN_DIR
    },
    Case {
        name: "the other site fails in a new directory",
        breaks: 5,
        wanted: "done, done, done, done, done, failed 8, blocked by 5, ",
        ..IN_DIR
    },
    Case {
        name: "a file that can't be read in a new directory",
        unread: "/d/x",
        wanted: "done, failed 8, blocked by 1, blocked by 2, done, done, done, ",
        ..IN_DIR
    },
    Case {
        name: "the other file can't be read in a new directory",
        unread_in_second: "/d/y",
        wanted: "done, done, done, done, failed 8, blocked by 4, blocked by 5, ",
        ..IN_DIR
    },
    Case {
        name: "a file that became shorter",
        told: &["f /a 0"],
        wanted: "failed 15, blocked by 0, blocked by 1, ",
        ..NEW_FILE
    },
    Case {
        name: "a file with another byte",
        told: &["f /a 1", "x 62"],
        wanted: "done, failed 15, blocked by 1, ",
        ..NEW_FILE
    },
    Case {
        name: "a target where a file lies",
        taken: true,
        wanted: "done, failed 14, blocked by 1, ",
        ..NEW_FILE
    },
];

fn tree_of(alloc: Global, lines: &[&str]) -> Option<Tree> {
    let mut reader = TreeReader::new(alloc);
    for line in lines {
        reader.line(alloc, line.as_bytes()).ok()?;
    }
    reader.finish().ok()
}

/// The print of what the lines spell.
fn print_of(alloc: Global, lines: &[&str]) -> Option<Print> {
    let tree = tree_of(alloc, lines)?;
    Print::of_tree(alloc, &tree).ok()
}

/// What comes of each action of a case by so many workers, in words.
pub fn came_of<R>(rt: &R, case: &Case, workers: u32) -> Option<String>
where
    R: Threads + AllocGlobal + Sync,
    requires { workers ≤ 64 }
{
    let alloc = rt.alloc();
    let archive = Print::empty(alloc);
    let first = print_of(alloc, case.first)?;
    let second = print_of(alloc, case.second)?;
    let holds = Holds::none(alloc);
    let plan = resume(alloc, &archive, &first, &second, &holds).ok()?;
    match check(rt, alloc, &plan, &archive, &first, &second, &holds) {
        Ok(checked) => ran(rt, case, &checked, workers),
        Err(_) => None,
    }
}

/// Runs a checked case.
fn ran<R>(rt: &R, case: &Case, checked: &Checked<'_>, workers: u32) -> Option<String>
where
    R: Threads + AllocGlobal + Sync,
    requires { workers ≤ 64 }
{
    let alloc = rt.alloc();
    let sites = sites(alloc, case, checked.plan())?;
    if sites.len() != commit_count(checked.plan()) {
        return None;
    }
    let first = folder(alloc, case.told, case.unread)?;
    let second = folder(alloc, case.second, case.unread_in_second)?;
    match run(
        rt, alloc, &*checked, &first, &second, sites, workers, &OpenGate,
    ) {
        Ok(outcome) => in_words(alloc, outcome.results()),
        Err(_) => None,
    }
}

/// A folder that tells these lines, and fails where the path is read.
fn folder(alloc: Global, lines: &[&str], unread: &str) -> Option<FaultyFolder> {
    let mut reads = Vec::new(alloc);
    if let Ok(path) = Path::parse_text(alloc, unread.as_bytes()) {
        let trouble = Trouble::Device;
        reads.push(Failing { path, trouble }).ok()?;
    }
    let told = MemFolder::new(tree_of(alloc, lines)?);
    Some(FaultyFolder::new(told, Vec::new(alloc), reads))
}

/// A site for each commit.
fn sites(alloc: Global, case: &Case, plan: &Plan) -> Option<Vec<FaultySite>> {
    let mut sites = Vec::new(alloc);
    for (i, action) in plan.actions.as_slice().iter().enumerate() {
        if let KindRef::Commit { entry: _ } = action.kind() {
            let site = site(alloc, case, i as u64 == u64::from(case.breaks))?;
            sites.push(site).ok()?;
        }
    }
    Some(sites)
}

/// A site, whose device fails or not.
fn site(alloc: Global, case: &Case, breaks: bool) -> Option<FaultySite> {
    let content = if case.taken {
        let bytes = Vec::from_slice(alloc, b"b".as_slice()).ok()?;
        SubTree::file(alloc, bytes).ok()?
    } else {
        SubTree::absent(alloc)
    };
    let mut fails = Vec::new(alloc);
    fails.push(breaks).ok()?;
    Some(FaultySite::new(content, fails))
}

/// The results, one after another.
fn in_words(alloc: Global, results: &[ActionResult]) -> Option<String> {
    let mut words = String::new(alloc);
    for result in results {
        let word = match result {
            ActionResult::Done => format!(in alloc; "done, "),
            ActionResult::Failed(fault) => {
                let number = fault.number();
                format!(in alloc; "failed {number}, ")
            }
            ActionResult::Blocked(k) => format!(in alloc; "blocked by {k}, "),
            ActionResult::Left => format!(in alloc; "left, "),
        };
        words.push_str(word.ok()?.as_str()).ok()?;
    }
    Some(words)
}
