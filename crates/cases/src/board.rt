//! Plans on a board, each action of which two passes on two threads try to claim. A new file is copied over memory, over a
//! device that fails at the commit, over a target that was changed, and with a staged byte that doesn't fit; a file is
//! deleted. Says the words step by step, and what is left of the archive and at the site. The actions for a new directory with
//! two files are carried out in order, with a checkpoint of the archive after each.

ghost use Rattle.std.specs.Prelude.{◌≡◌, length};
ghost use Rattle.cases.specs.Worked.{IsNested, IsWorked, removal};

mod desk;
mod flow;
pub mod plan;
mod race;
mod steps;
mod task;

use crate::board::flow::{End, removal_case, worked_case};
use crate::board::plan::{nested_plan, print_of, removal_plan, text_of, worked_plan};
use crate::board::steps::nested_case;
use crate::board::task::Seen;
use anyhow::{Result, bail};
use std::alloc::Global;
use std::thread::Threads;
use ts_board::OpenFault;
use ts_check::{Checked, check};
use ts_hold::Holds;
use ts_model::row::Content;
use ts_name::Path;
use ts_site::{FaultySite, MemSite, Site};
use ts_tree::SubTree;

/// The print of a replica whose one file `/a` has the byte `a`.
const FILE: &str = "f /a 1 ca978112ca1bbdcafac231b39a23dc4da786eff8147c4e72b9807785afee48bb";

/// The prints of two replicas with a directory `/d`, and in it the file `/d/x` with the byte `a`, or `/d/y` with `b`.
const WITH_X: &str =
    "d /d\nf /d/x 1 ca978112ca1bbdcafac231b39a23dc4da786eff8147c4e72b9807785afee48bb";

const WITH_Y: &str =
    "d /d\nf /d/y 1 3e23e8160039594a33894f6564e1b1348bbd7a0088d42c4acb73eeaed59c009d";

/// The words after a new file was copied over memory: a piece that is taken, and a commit and a mark that are done.
const COPIED: &[u64] = &[47_244_640_256, 12_884_901_888, 12_884_901_888];

/// How often two threads race once more for each action of a new file.
const RACES: u32 = 200;

/// The number of the site's fault; 0 where it met none.
fn fault_of(seen: &Option<Seen>) -> u8 {
    match seen {
        Some(
            Seen {
                fault: Some(fault),
                ..
            },
        ) => fault.number(),
        _ => 0,
    }
}

/// Says what the board leaves.
fn tell_end<S: Drop>(rt: &impl Print, alloc: Global, end: &End<S>) -> Result<()> {
    let End {
        words,
        archive,
        is_again,
        ..
    } = end;
    let text = text_of(alloc, archive)?;
    println!(rt; "words: {words:?}\narchive: {text:?}\nsite taken twice: {is_again}")?;
    Ok(())
}

/// Says what is at a site.
fn tell_site(rt: &impl Print, alloc: Global, site: &SubTree) -> Result<()> {
    let text = match site.get(&Path::root(alloc)) {
        Content::File(bytes) => String::from_utf8_lossy(alloc, bytes)?,
        Content::Dir => String::from_str(alloc, "a directory")?,
        Content::Absent => String::from_str(alloc, "nothing")?,
    };
    println!(rt; "site: {text}")?;
    Ok(())
}

/// A file with one byte.
fn file(alloc: Global, byte: u8) -> Result<SubTree> {
    Ok(SubTree::file(alloc, vec![in alloc; byte]?)?)
}

/// Copies the file over a site and says what comes of it. The site comes back.
fn tell_case<R: Threads + Print, S: Site>(
    rt: &R,
    checked: &Checked<'_>,
    sites: Vec<S>,
    byte: u8,
    alloc: Global,
) -> Result<Option<S>>
    requires actions { IsWorked checked.now.plan.actions }
    requires one { length sites.items ≡ 1 }
{
    let ([piece, commit, mark], end) = worked_case(rt, alloc, checked, sites, byte)?;
    let fault = fault_of(&commit);
    println!(rt; "piece: {piece:?}\ncommit: {commit:?}\nfault: {fault}\nmark: {mark:?}")?;
    tell_end(rt, alloc, &end)?;
    Ok(end.site)
}

/// A case over memory, where this is the target.
fn memory_case<R: Threads + Print>(
    rt: &R,
    checked: &Checked<'_>,
    target: SubTree,
    byte: u8,
    alloc: Global,
) -> Result<()>
    requires { IsWorked checked.now.plan.actions }
{
    let sites = vec![in alloc; MemSite::new(target)]?;
    if let Some(site) = tell_case(rt, checked, sites, byte, alloc)? {
        tell_site(rt, alloc, &site.into_content())?;
    }
    Ok(())
}

/// A case where the device fails at the commit.
fn faulty_case<R: Threads + Print>(rt: &R, checked: &Checked<'_>, alloc: Global) -> Result<()>
    requires { IsWorked checked.now.plan.actions }
{
    let fails = vec![in alloc; true]?;
    let sites = vec![in alloc; FaultySite::new(SubTree::absent(alloc), fails)]?;
    if let Some(site) = tell_case(rt, checked, sites, b'a', alloc)? {
        tell_site(rt, alloc, &site.into_content())?;
    }
    Ok(())
}

/// Whether a file with the byte `a` is at a site.
fn is_first_byte(alloc: Global, site: &SubTree) -> bool {
    match site.get(&Path::root(alloc)) {
        Content::File(bytes) => bytes == b"a".as_slice(),
        Content::Dir | Content::Absent => false,
    }
}

/// Whether the words, the archive and the site are those of a file that was copied, after one more race for each action.
fn is_copied_again<R: Threads>(rt: &R, checked: &Checked<'_>, alloc: Global) -> Result<bool>
    requires { IsWorked checked.now.plan.actions }
{
    let sites = vec![in alloc; MemSite::new(SubTree::absent(alloc))]?;
    let (_, end) = worked_case(rt, alloc, checked, sites, b'a')?;
    let End {
        words,
        archive,
        site,
        ..
    } = end;
    let is_put = match site {
        Some(site) => is_first_byte(alloc, &site.into_content()),
        None => false,
    };
    Ok(is_put && words.as_slice() == COPIED && archive.rows().len() == 1)
}

/// Races again, and says whether each ended as it had to.
fn tell_races<R: Threads + Print>(rt: &R, checked: &Checked<'_>, alloc: Global) -> Result<()>
    requires { IsWorked checked.now.plan.actions }
{
    for race in 0..RACES {
        if !is_copied_again(rt, checked, alloc)? {
            bail!("race {race} ended otherwise");
        }
    }
    println!(rt; "-- {RACES} more races over memory end alike")?;
    Ok(())
}

/// The cases in which a new file is copied.
fn tell_cases<R: Threads + Print>(rt: &R, checked: &Checked<'_>, alloc: Global) -> Result<()>
    requires { IsWorked checked.now.plan.actions }
{
    println!(rt; "-- a new file, over memory")?;
    memory_case(rt, checked, SubTree::absent(alloc), b'a', alloc)?;
    println!(rt; "-- over a device that fails")?;
    faulty_case(rt, checked, alloc)?;
    println!(rt; "-- over a changed target")?;
    memory_case(rt, checked, file(alloc, b'c')?, b'a', alloc)?;
    println!(rt; "-- with another byte")?;
    memory_case(rt, checked, SubTree::absent(alloc), b'b', alloc)?;
    tell_races(rt, checked, alloc)
}

fn tell_copies<R: Threads + Print + Sync>(rt: &R, alloc: Global) -> Result<()> {
    let nothing = ts_print::Print::empty(alloc);
    let first = print_of(alloc, FILE)?;
    let holds = Holds::none(alloc);
    let plan = worked_plan(alloc)?;
    let checked = check(rt, alloc, &plan, &nothing, &first, &nothing, &holds)?;
    tell_cases(rt, &checked, alloc)
}

/// The case in which a file is deleted, over its one site.
fn removed<R: Threads + Print>(
    rt: &R,
    checked: &Checked<'_>,
    sites: Vec<MemSite>,
    alloc: Global,
) -> Result<()>
    requires actions { checked.now.plan.actions ≡ removal }
    requires one { length sites.items ≡ 1 }
{
    let (commit, mark, end) = removal_case(rt, alloc, checked, sites)?;
    println!(rt; "-- a deleted file\ncommit: {commit:?}\nmark: {mark:?}")?;
    tell_end(rt, alloc, &end)?;
    let End { site, .. } = end;
    match site {
        Some(site) => tell_site(rt, alloc, &site.into_content()),
        None => bail!("the commit has no site"),
    }
}

fn tell_removal<R: Threads + Print + Sync>(rt: &R, alloc: Global) -> Result<()> {
    let nothing = ts_print::Print::empty(alloc);
    let before = print_of(alloc, FILE)?;
    let holds = Holds::none(alloc);
    let plan = removal_plan(alloc)?;
    let checked = check(rt, alloc, &plan, &before, &nothing, &before, &holds)?;
    let sites = vec![in alloc; MemSite::new(file(alloc, b'a')?)]?;
    removed(rt, &checked, sites, alloc)
}

/// The case of a new directory in both replicas, over the sites of the two files in it.
fn stepped<R: Print>(
    rt: &R,
    checked: &Checked<'_>,
    sites: Vec<MemSite>,
    alloc: Global,
) -> Result<()>
    requires actions { IsNested checked.now.plan.actions }
    requires two { length sites.items ≡ 2 }
{
    println!(rt; "-- a new directory with two files, a checkpoint after each action")?;
    let end = nested_case(rt, alloc, checked, sites)?;
    tell_end(rt, alloc, &end)
}

fn tell_steps<R: Threads + Print + Sync>(rt: &R, alloc: Global) -> Result<()> {
    let nothing = ts_print::Print::empty(alloc);
    let first = print_of(alloc, WITH_X)?;
    let second = print_of(alloc, WITH_Y)?;
    let holds = Holds::none(alloc);
    let plan = nested_plan(alloc)?;
    let checked = check(rt, alloc, &plan, &nothing, &first, &second, &holds)?;
    let sites = vec![in alloc;
        MemSite::new(SubTree::absent(alloc)),
        MemSite::new(SubTree::absent(alloc)),
    ]?;
    stepped(rt, &checked, sites, alloc)
}

/// Carries the plans out, and says what came of them.
pub fn try_cases<R: Threads + Print + AllocGlobal + Sync>(rt: &R) -> Result<()> {
    let alloc = rt.alloc();
    tell_copies(rt, alloc)?;
    tell_removal(rt, alloc)?;
    tell_steps(rt, alloc)?;
    let open = OpenFault::OutOfMemory.number();
    println!(rt; "out of memory: {open}")?;
    Ok(())
}
