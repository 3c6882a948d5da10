//! Carrying a plan through.
ghost use Rattle.std.specs.Prelude.{◌≡◌, ◌≤◌, IfOk, length};
ghost use Rattle.std.specs.Mem.Slots.{slots_items, slots_len};
ghost use Rattle.ts_board.specs.Archives.{HasEnded};
ghost use Rattle.ts_board.specs.Terms.{commit_count, placed};
ghost use Rattle.ts_check.specs.Checkup.{snapshot_of};
ghost use Rattle.ts_laws.specs.Carried.{copied, marked_all};
ghost use Rattle.ts_model.specs.Texts.{IsTreeBody};
ghost use Rattle.ts_model.specs.Trees.{IsListing, at, print_of};
ghost use Rattle.ts_model.specs.declared.plan.Side.TheVariants as side;
ghost use Rattle.ts_through.specs.Parts.{AreDone, AreHeld};

use crate::cut::{cut, no_parts, sites};
use crate::join::joined;
use crate::put::{all_done, take_parts};
use std::alloc::{AllocError, Global};
use std::thread::Threads;
use ts_check::Checked;
use ts_exec::{OpenGate, Outcome, run};
use ts_folder::MemFolder;
use ts_model::plan::Side;
use ts_print::Print;
use ts_site::MemSite;
use ts_tree::Tree;

/// What a plan leaves: the two replicas, and the archive.
pub struct Carried {
    pub first: Tree,
    pub second: Tree,
    pub archive: Print,
}

/// Written out, so that a proof of what drops one stays short.
impl Drop for Carried {
    fn drop(self) {
        let Carried {
            first,
            second,
            archive,
        } = self;
        drop(first);
        drop(second);
        drop(archive);
    }
}

/// What a checked plan leaves, carried out by 1 to 64 workers over these replicas: each copied entry's subtree is its
/// source's, and the archive has every mark.
///
/// # Errors
///
/// `AllocError` where a call or an action ran out of memory, and then nothing comes of the plan.
pub fn carry_through<R: Threads + Sync>(
    rt: &R,
    alloc: Global,
    checked: &Checked<'_>,
    first: &Tree,
    second: &Tree,
    workers: u32,
) -> Result<Carried, AllocError>
    requires some { 1 ≤ workers }
    requires few { workers ≤ 64 }
    requires first { at checked.now.first ≡ print_of (at first.now) }
    requires second { at checked.now.second ≡ print_of (at second.now) }
    ensures first { IfOk result (λ carried. at carried.first ≡ copied side.Second (at second.now) (at first.now) checked.now.plan.entries) }
    ensures second { IfOk result (λ carried. at carried.second ≡ copied side.First (at first.now) (at second.now) checked.now.plan.entries) }
    ensures archive { IfOk result (λ carried. at carried.archive ≡ marked_all (snapshot_of checked.now) (at checked.now.archive) checked.now.plan.entries) }
    ensures lawful { IfOk result (λ carried. IsTreeBody carried.first × IsTreeBody carried.second × IsListing carried.archive) }
{
    let plan = checked.plan();
    let _archive = checked.archive().rows();
    let _first = checked.first().rows();
    let _second = checked.second().rows();
    let entries = plan.entries.as_slice();
    let mut parts = no_parts(alloc, entries)?;
    let first_frame = cut(alloc, first, entries, Side::Second, &mut parts)?;
    let second_frame = cut(alloc, second, entries, Side::First, &mut parts)?;
    let sites = sites(alloc, plan, &mut parts)?;
    let mut outcome = ran(rt, alloc, checked, first, second, sites, workers)?;
    let archive = archive_after(alloc, checked, &outcome)?;
    take_parts(checked, &mut outcome, &mut parts);
    Ok(Carried {
        first: joined(
            alloc,
            first_frame,
            entries,
            Side::Second,
            second,
            &mut parts,
        )?,
        second: joined(alloc, second_frame, entries, Side::First, first, &mut parts)?,
        archive,
    })
}

/// What comes of the plan, where each action is done. The site of each commit has what its target has at the entry's path and
/// below it, so that an action can only fail because memory ran out.
fn ran<R: Threads + Sync>(
    rt: &R,
    alloc: Global,
    checked: &Checked<'_>,
    first: &Tree,
    second: &Tree,
    sites: Vec<MemSite>,
    workers: u32,
) -> Result<Outcome<MemSite>, AllocError>
    requires some { 1 ≤ workers }
    requires few { workers ≤ 64 }
    requires first { at checked.now.first ≡ print_of (at first.now) }
    requires second { at checked.now.second ≡ print_of (at second.now) }
    requires sites { length sites.items ≡ commit_count checked.now.plan.actions }
    requires targets { AreHeld checked.now.plan second.now first.now (placed checked.now.plan.actions sites.items) }
    ensures words { IfOk result (λ o. length checked.now.plan.actions ≤ slots_len o.closed.row.words) }
    ensures slots { IfOk result (λ o. length checked.now.plan.actions ≤ slots_len o.closed.row.slots) }
    ensures ended { IfOk result (λ o. HasEnded checked.now (slots_items o.closed.row.words)) }
    ensures held { IfOk result (λ o. AreHeld checked.now.plan first.now second.now (slots_items o.closed.row.slots)) }
    ensures done { IfOk result (λ o. AreDone checked.now.plan (slots_items o.closed.row.words)) }
{
    let first = folder(alloc, first)?;
    let second = folder(alloc, second)?;
    let _plan = checked.plan();
    match run(
        rt, alloc, &*checked, &first, &second, sites, workers, &OpenGate,
    ) {
        Ok(outcome) => {
            all_done(outcome.results())?;
            Ok(outcome)
        }
        Err(_) => Err(AllocError),
    }
}

/// A folder of this tree.
fn folder(alloc: Global, tree: &Tree) -> Result<MemFolder, AllocError>
    ensures { IfOk result (λ folder. folder ≡ tree.now) }
{
    Ok(MemFolder::new(tree.copy(alloc)?))
}

/// The archive after all marks.
fn archive_after(
    alloc: Global,
    checked: &Checked<'_>,
    outcome: &Outcome<MemSite>,
) -> Result<Print, AllocError>
    requires words { length checked.now.plan.actions ≤ slots_len outcome.now.closed.row.words }
    requires ended { HasEnded checked.now (slots_items outcome.now.closed.row.words) }
    requires done { AreDone checked.now.plan (slots_items outcome.now.closed.row.words) }
    ensures archive { IfOk result (λ archive. at archive ≡ marked_all (snapshot_of checked.now) (at checked.now.archive) checked.now.plan.entries) }
    ensures lawful { IfOk result IsListing }
{
    let _plan = checked.plan();
    let _archive = checked.archive().rows();
    let _first = checked.first().rows();
    let _second = checked.second().rows();
    let Ok(archive) = outcome.archive(alloc, checked) else {
        return Err(AllocError);
    };
    let _rows = archive.rows();
    Ok(archive)
}
