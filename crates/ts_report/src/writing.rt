//! Writing a report.
ghost use Rattle.std.specs.Prelude.{◌≡◌, ◌<◌, ◌≤◌, ◌∷◌, ◌++◌, [], length, get_or, map, count_by, IfErr, IfOk, OnOk};
ghost use Rattle.ts_model.specs.Plans.{action_limit};
ghost use Rattle.ts_model.specs.Texts.{text};
ghost use Rattle.ts_report.specs.Fates.{first_fate, same_fate};
ghost use Rattle.ts_report.specs.Faults.{FailuresFit};
ghost use Rattle.ts_report.specs.Reports.{entry_of, fate_line, fate_lines, fates, fates_from, is_mark, report_lines, report_text, status_of, step_from, total_line, totals_of};
ghost use Rattle.ts_text.specs.Sources.{Writes};

use crate::fate::Fate;
use crate::fault::ReportFault;
use crate::results::{Ending, Results};
use std::alloc::Global;
use ts_model::packed::{KindRef, PackedAction};
use ts_model::plan::{Entry, Plan};
use ts_plan::reason_word;
use ts_text::field::{push_decimal, push_word};
use ts_text::write::write_line;
use ts_text::{Sink, TextFault};

/// How many entries ended how.
#[derive(Clone, Copy, Debug, PartialEq, Eq, Drop)]
pub struct Totals {
    pub done: usize,
    pub skipped: usize,
    pub failed: usize,
    pub blocked: usize,
}

impl Totals {
    /// The program's exit status after such a run: 2 where an entry failed or is blocked, else 1 where one is skipped, else
    /// 0.
    pub fn status(&self) -> u8
        ensures { result ≡ status_of self.now }
    {
        if self.failed > 0 || self.blocked > 0 {
            2
        } else if self.skipped > 0 {
            1
        } else {
            0
        }
    }
}

/// Writes the report of a run of a plan: a line for each entry in their order, and the line of totals, which are answered.
///
/// An entry that is no conflict and not held is done where its mark is done; else it failed where an action of its own
/// failed; else it is blocked. After a fault a beginning of the report was written. It takes time linear in the plan.
pub fn write<E: Results, W: Sink>(
    alloc: Global,
    plan: &Plan,
    results: &E,
    sink: &mut W,
) -> Result<Totals, ReportFault>
    requires limit { length plan.now.actions ≤ action_limit }
    requires covered { length plan.now.actions ≤ E.count results.now }
    ensures written { Writes (W.holds sink.old) (W.holds sink.new) (report_text (E.endings results.now) plan.now) result }
    ensures failures { FailuresFit (W.failures sink.old) (W.failures sink.new) result }
    ensures totals { IfOk result (λ totals. totals ≡ totals_of (fates (E.endings results.now) plan.now)) }
{
    let entries = plan.entries.as_slice();
    let fates = find_fates(alloc, entries, plan.actions.as_slice(), results)?;
    write_fates(alloc, entries, &fates, sink)
}

/// Writes the report of a run by what became of each entry: a line for each entry in their order, and the line of totals, which
/// are answered.
///
/// It fails where memory runs out or the sink fails. After a fault a beginning of the report was written.
pub fn write_fates<W: Sink>(
    alloc: Global,
    entries: &[Entry],
    fates: &[Fate],
    sink: &mut W,
) -> Result<Totals, ReportFault>
    requires { length fates.now ≡ length entries.now }
    ensures written { Writes (W.holds sink.old) (W.holds sink.new) (text (report_lines entries.now fates.now)) result }
    ensures failures { FailuresFit (W.failures sink.old) (W.failures sink.new) result }
    ensures totals { IfOk result (λ totals. totals ≡ totals_of fates.now) }
{
    write_entries(alloc, entries, fates, sink)?;
    let totals = count(fates);
    write_total(alloc, entries.len(), &totals, sink)?;
    Ok(totals)
}

/// What became of each entry.
fn find_fates<E: Results>(
    alloc: Global,
    entries: &[Entry],
    actions: &[PackedAction],
    results: &E,
) -> Result<Vec<Fate>, ReportFault>
    requires limit { length actions.now ≤ action_limit }
    requires covered { length actions.now ≤ E.count results.now }
    ensures fates { IfOk result (λ all. all.items ≡ fates_from (E.endings results.now) actions.now 0 entries.now) }
    ensures fault { IfErr result (λ e. e ≡ ReportFault.OutOfMemory) }
{
    let mut fates = first_fates(alloc, entries)?;
    for (i, action) in actions.iter().enumerate() {
        let ending = results.ending(i as u32);
        settle(&mut fates, own_entry(action), marks(action), ending);
    }
    Ok(fates)
}

/// The entry that an action is for.
fn own_entry(action: &PackedAction) -> u32
    ensures { result ≡ entry_of action.now.kind }
{
    match action.kind() {
        KindRef::Piece { entry, .. } | KindRef::Commit { entry } | KindRef::Mark { entry } => entry,
    }
}

/// Whether an action is a mark.
fn marks(action: &PackedAction) -> bool
    ensures { result ≡ is_mark action.now.kind }
{
    match action.kind() {
        KindRef::Piece { .. } | KindRef::Commit { .. } => false,
        KindRef::Mark { .. } => true,
    }
}

/// What is known of each entry before any action is looked at.
fn first_fates(alloc: Global, entries: &[Entry]) -> Result<Vec<Fate>, ReportFault>
    ensures fates { IfOk result (λ all. all.items ≡ map (λ entry. first_fate entry.reason) entries.now) }
    ensures fault { IfErr result (λ e. e ≡ ReportFault.OutOfMemory) }
{
    let fates: Vec<Fate> = entries
        .iter()
        .map(|entry| Fate::first(entry.reason))
        .collect(alloc)?;
    Ok(fates)
}

/// Looks at one more action of an entry, if the plan has that entry.
fn settle(fates: &mut Vec<Fate>, entry: u32, is_mark: bool, ending: Ending)
    ensures { fates.new.items ≡ step_from entry is_mark ending 0 fates.old.items }
{
    let place = entry as usize;
    if place < fates.len() {
        fates[place] = fates[place].after(is_mark, ending);
    }
}

/// Counts the entries by what became of them.
fn count(fates: &[Fate]) -> Totals
    ensures { result ≡ totals_of fates.now }
{
    Totals {
        done: count_of(fates, Fate::Done),
        skipped: count_of(fates, Fate::Skipped),
        failed: count_of(fates, Fate::Failed),
        blocked: count_of(fates, Fate::Blocked),
    }
}

fn count_of(fates: &[Fate], wanted: Fate) -> usize
    ensures { result ≡ count_by (same_fate wanted) fates.now }
{
    fates.iter().filter(|fate| fate.is(wanted)).count()
}

/// Writes a line for each entry.
fn write_entries<W: Sink>(
    alloc: Global,
    entries: &[Entry],
    fates: &[Fate],
    sink: &mut W,
) -> Result<(), ReportFault>
    requires { length fates.now ≡ length entries.now }
    ensures written { Writes (W.holds sink.old) (W.holds sink.new) (text (fate_lines entries.now fates.now)) result }
    ensures failures { FailuresFit (W.failures sink.old) (W.failures sink.new) result }
{
    let mut line = Vec::new(alloc);
    for (k, entry) in entries.iter().enumerate() {
        write_entry(entry, fate_at(fates, k), &mut line, sink)?;
    }
    Ok(())
}

fn fate_at(fates: &[Fate], k: usize) -> Fate
    requires { k < length fates.now }
    ensures { result ≡ get_or fates.now k result }
{
    fates[k]
}

/// Writes the line of an entry. `line` is room for it.
fn write_entry<W: Sink>(
    entry: &Entry,
    fate: Fate,
    line: &mut Vec<u8>,
    sink: &mut W,
) -> Result<(), ReportFault>
    ensures written { Writes (W.holds sink.old) (W.holds sink.new) (text (fate_line entry.now fate ∷ [])) result }
    ensures failures { FailuresFit (W.failures sink.old) (W.failures sink.new) result }
{
    line.clear();
    push_entry(entry, fate, line)?;
    put_line(line, sink)
}

/// Writes a line that is given without its line feed.
fn put_line<W: Sink>(line: &[u8], sink: &mut W) -> Result<(), ReportFault>
    ensures written { Writes (W.holds sink.old) (W.holds sink.new) (text (line.now ∷ [])) result }
    ensures failures { FailuresFit (W.failures sink.old) (W.failures sink.new) result }
{
    match write_line(sink, line) {
        Ok(()) => Ok(()),
        Err(TextFault::Failed) => Err(ReportFault::Failed),
        Err(TextFault::OutOfMemory | TextFault::NotCanonical) => unreachable!(),
    }
}

/// Writes the line of totals.
fn write_total<W: Sink>(
    alloc: Global,
    entries: usize,
    totals: &Totals,
    sink: &mut W,
) -> Result<(), ReportFault>
    ensures written { Writes (W.holds sink.old) (W.holds sink.new) (text (total_line entries totals.now ∷ [])) result }
    ensures failures { FailuresFit (W.failures sink.old) (W.failures sink.new) result }
{
    let mut line = Vec::new(alloc);
    push_total(entries, totals, &mut line)?;
    put_line(&line, sink)
}

/// Appends the line of an entry.
fn push_entry(entry: &Entry, fate: Fate, line: &mut Vec<u8>) -> Result<(), ReportFault>
    ensures line { OnOk result (line.new.items ≡ line.old.items ++ fate_line entry.now fate) }
    ensures fault { IfErr result (λ e. e ≡ ReportFault.OutOfMemory) }
{
    line.extend_from_slice(fate.word())?;
    push_word(line, reason_word(entry.reason))?;
    line.push(b' ')?;
    entry.path.write_text(line)?;
    Ok(())
}

/// Appends the line of totals.
fn push_total(entries: usize, totals: &Totals, line: &mut Vec<u8>) -> Result<(), ReportFault>
    ensures line { OnOk result (line.new.items ≡ line.old.items ++ total_line entries totals.now) }
    ensures fault { IfErr result (λ e. e ≡ ReportFault.OutOfMemory) }
{
    line.extend_from_slice(b"total ")?;
    push_decimal(line, entries as u64)?;
    line.extend_from_slice(b" done ")?;
    push_decimal(line, totals.done as u64)?;
    line.extend_from_slice(b" skipped ")?;
    push_decimal(line, totals.skipped as u64)?;
    line.extend_from_slice(b" failed ")?;
    push_decimal(line, totals.failed as u64)?;
    line.extend_from_slice(b" blocked ")?;
    push_decimal(line, totals.blocked as u64)?;
    Ok(())
}
