//! The archive that a closed board leaves, and what flags of entries put into an archive.
ghost use Rattle.std.specs.Prelude.{ℕ, List, ◌≡◌, ◌<◌, ◌≤◌, IfOk, IfSome, IfNone, OnOk, length, slice_index};
ghost use Rattle.std.specs.Mem.Slots.{slots_items, slots_len};
ghost use Rattle.ts_board.specs.Archives.{AreMarked, AreMarksOf, AreOfPart, ArchiveOf, HasEnded, IsDone, LeftArchive, picked};
ghost use Rattle.ts_board.specs.Edits.{AreEdits, MayFollow, left_by, marks};
ghost use Rattle.ts_model.specs.Runs.{Run};
ghost use Rattle.ts_model.specs.Trees.{at};
ghost use Rattle.ts_model.specs.declared.plan.Kind.TheVariants.{Mark};

use crate::board::Closed;
use crate::calls::DONE;
use crate::marks::mark_of;
use std::alloc::{AllocError, Global};
use ts_check::Checked;
use ts_model::packed::{KindRef, PackedAction};
use ts_model::plan::{Entry, Plan};
use ts_model::row::Stamp;
use ts_print::{Print, PrintFault};
use ts_site::Site;
use ts_table::Edit;

/// Into how many blocks the entries are cut at most, but for a rest.
const BLOCKS: usize = 32;

/// How many entries a block has at least, where there are as many.
const LEAST_IN_BLOCK: usize = 8_192;

impl<S: Site> Closed<S> {
    /// The archive that the plan was checked against, with the mark of each action that is done: the archive after the run
    /// that left the words. Marks are made in the order of the entries, which ascend by path.
    ///
    /// # Errors
    ///
    /// `AllocError` where memory ran out.
    pub fn archive(&self, alloc: Global, checked: &Checked<'_>) -> Result<Print, AllocError>
        requires words { length checked.now.plan.actions ≤ slots_len self.now.row.words }
        requires ended { HasEnded checked.now (slots_items self.now.row.words) }
        ensures { IfOk result (λ print. LeftArchive checked.now (slots_items self.now.row.words) print) }
    {
        let marked = self.marked_entries(alloc, checked.plan())?;
        marked_archive(alloc, checked, marked.as_slice())
    }

    /// The same, where nothing else is asked of the board: it goes, with the sites of all commits, before the archive takes
    /// memory.
    ///
    /// # Errors
    ///
    /// `AllocError` where memory ran out.
    pub fn into_archive(self, alloc: Global, checked: &Checked<'_>) -> Result<Print, AllocError>
        requires words { length checked.now.plan.actions ≤ slots_len self.row.words }
        requires ended { HasEnded checked.now (slots_items self.row.words) }
        ensures { IfOk result (λ print. LeftArchive checked.now (slots_items self.row.words) print) }
    {
        let marked = self.marked_entries(alloc, checked.plan())?;
        drop(self);
        marked_archive(alloc, checked, marked.as_slice())
    }

    /// For each entry, whether its mark is done.
    fn marked_entries(&self, alloc: Global, plan: &Plan) -> Result<Vec<bool>, AllocError>
        requires { length plan.now.actions ≤ slots_len self.now.row.words }
        ensures count { IfOk result (λ flags. length flags.items ≡ length plan.now.entries) }
        ensures marked { IfOk result (λ flags. AreMarked plan.now (slots_items self.now.row.words) flags.items) }
    {
        let mut flags = vec![in alloc; false; plan.entries.as_slice().len()]?;
        for (i, action) in plan.actions.as_slice().iter().enumerate() {
            if let Some(entry) = self.done_mark(i, action) {
                let e = entry as usize;
                if e < flags.len() {
                    flags[e] = true;
                }
            }
        }
        Ok(flags)
    }

    /// The entry of an action that is a mark and is done.
    fn done_mark(&self, i: usize, action: &PackedAction) -> Option<u32>
        requires { i < slots_len self.now.row.words }
        ensures some { IfSome result (λ e. (action.now.kind ≡ Mark e) × IsDone (slice_index (slots_items self.now.row.words) i)) }
        ensures none { IfNone result ((e : ℕ) → action.now.kind ≡ Mark e → ¬ IsDone (slice_index (slots_items self.now.row.words) i)) }
    {
        match action.kind() {
            KindRef::Mark { entry } if self.row.word(i) & DONE != 0 => Some(entry),
            _ => None,
        }
    }
}

/// The archive that the plan was checked against, with the marks of the entries that are flagged, which are all that a run has
/// made.
///
/// # Errors
///
/// `AllocError` where memory ran out.
fn marked_archive(alloc: Global, checked: &Checked<'_>, flags: &[bool]) -> Result<Print, AllocError>
    requires count { length flags.now ≡ length checked.now.plan.entries }
    requires made { (words : List ℕ) × AreMarksOf checked.now words flags.now }
    ensures { (words : List ℕ) → AreMarksOf checked.now words flags.now → IfOk result (λ print. LeftArchive checked.now words print) }
{
    let _plan = checked.plan();
    let _archive = checked.archive().rows();
    let _first = checked.first().rows();
    let _second = checked.second().rows();
    flagged_archive(alloc, checked, flags)
}

/// The archive that the plan was checked against, with the marks of the entries that are flagged, which are a closed part of
/// some run.
///
/// # Errors
///
/// `AllocError` where memory ran out.
pub(crate) fn flagged_archive(
    alloc: Global,
    checked: &Checked<'_>,
    flags: &[bool],
) -> Result<Print, AllocError>
    requires { (run : Run) × AreOfPart checked.now.plan run flags.now }
    ensures { IfOk result (ArchiveOf checked.now flags.now) }
{
    let plan = checked.plan();
    let archive = checked.archive();
    let (first, second) = (checked.first(), checked.second());
    let _archive = archive.rows();
    let _first = first.rows();
    let _second = second.rows();
    let entries = plan.entries.as_slice();
    with_marks(alloc, entries, flags, archive, first, second)
}

/// The archive with the marks of the entries that are flagged. They are made a block of entries at a time, so that few are laid out
/// at once, and in not too many blocks, since each moves the rows behind its first entry.
fn with_marks(
    alloc: Global,
    entries: &[Entry],
    flags: &[bool],
    archive: &Print,
    first: &Print,
    second: &Print,
) -> Result<Print, AllocError>
    requires follow { MayFollow (marks (at first.now) (at second.now)) (at archive.now) (picked entries.now flags.now) }
    requires count { length flags.now ≡ length entries.now }
    ensures { IfOk result (λ print. at print ≡ left_by (marks (at first.now) (at second.now)) (at archive.now) (picked entries.now flags.now)) }
{
    let mut print = copy_with_room(alloc, archive, first, second)?;
    let block = (entries.len() / BLOCKS).max(LEAST_IN_BLOCK);
    let (mut rest, mut rest_flags) = (entries, flags);
    while !rest.is_empty() {
        let count = block.min(rest.len());
        let (now, later) = rest.split_at(count);
        let (now_flags, later_flags) = rest_flags.split_at(count);
        add_marks(alloc, &mut print, now, now_flags, first, second)?;
        rest = later;
        rest_flags = later_flags;
    }
    Ok(print)
}

/// The archive once more, with room for as many rows as either replica has: after most runs it has no more.
fn copy_with_room(
    alloc: Global,
    archive: &Print,
    first: &Print,
    second: &Print,
) -> Result<Print, AllocError>
    ensures { IfOk result (λ print. print ≡ archive.now) }
{
    let mut print = archive.copy(alloc)?;
    let most = first.rows().len().max(second.rows().len());
    print.reserve(most.saturating_sub(archive.rows().len()))?;
    Ok(print)
}

/// Makes the marks of the entries that are flagged, in one pass.
fn add_marks(
    alloc: Global,
    print: &mut Print,
    entries: &[Entry],
    flags: &[bool],
    first: &Print,
    second: &Print,
) -> Result<(), AllocError>
    requires follow { MayFollow (marks (at first.now) (at second.now)) (at print.old) (picked entries.now flags.now) }
    requires count { length flags.now ≡ length entries.now }
    ensures { OnOk result (at print.new ≡ left_by (marks (at first.now) (at second.now)) (at print.old) (picked entries.now flags.now)) }
{
    let edits = mark_edits(alloc, entries, flags, first, second)?;
    match print.splice(alloc, edits) {
        Ok(()) => Ok(()),
        Err(PrintFault::TooLong) => unreachable!(),
        Err(_) => Err(AllocError),
    }
}

/// The marks of the entries that are flagged, in their order.
fn mark_edits(
    alloc: Global,
    entries: &[Entry],
    flags: &[bool],
    first: &Print,
    second: &Print,
) -> Result<Vec<Edit<Stamp>>, AllocError>
    requires { length flags.now ≡ length entries.now }
    ensures { IfOk result (λ edits. AreEdits (marks (at first.now) (at second.now)) (picked entries.now flags.now) edits.items) }
{
    let mut edits = Vec::with_capacity(alloc, entries.len())?;
    for (e, entry) in entries.iter().enumerate() {
        if flags[e] {
            if let Some(edit) = mark_of(alloc, entry, first, second)? {
                edits.push(edit)?;
            }
        }
    }
    Ok(edits)
}
