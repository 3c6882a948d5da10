ghost use Rattle.std.specs.Prelude.{◌≡◌, ◌≢◌, ◌≤◌, ◌∷◌, ◌++◌, ℕ, [], IfErr, IfOk, IfSome, OnOk, min};
ghost use Rattle.ts_bundle.specs.Bundles.{values};
ghost use Rattle.ts_model.specs.Texts.{IsBundle, text};
ghost use Rattle.ts_model.specs.Trees.{at, print_of};
ghost use Rattle.ts_model.specs.Trial.{HasContentsApart, Trial, result_lines, skipped_count};
ghost use Rattle.ts_text.specs.Sources.{Writes};
ghost use Rattle.ts_trial.specs.Answers.{WritesOne, refusal, WritesAnswer};
ghost use Rattle.ts_trial.specs.Faults.{FailuresFit, HasCause};
ghost use Rattle.ts_trial.specs.declared.fault.TrialFault.TheVariants.{OutOfMemory};
ghost use Rattle.ts_check.specs.Checkup.{checkup_with};

use crate::fault::TrialFault;
use std::alloc::Global;
use std::thread::Threads;
use ts_bundle::{Bundle, BundleFault, count_skipped, decode, write_result};
use ts_check::{CheckFault, Checked, check};
use ts_model::items::Items;
use ts_model::plan::{Entry, PlanRule};
use ts_model::row::{Row, Stamp};
use ts_print::Print;
use ts_text::{Lines, Sink, Source, TextFault, push_decimal, write_line};
use ts_through::carry_through;

/// The exit status of a refusal.
pub const REFUSED: u8 = 3;

/// Answers a bundle: all that the reader has left. Reads it to its end, checks its plan, lets 1 to 64 workers carry it out, and
/// writes the result text, or the line `malformed` where the bytes are no bundle, or `refused <rule> <place>` where the plan
/// isn't valid. The answer is the exit status: 0, or 1 where an entry is skipped, or 3 for a refusal.
///
/// A fault comes only from the reader, from the writer, or because memory ran out, and after it a beginning of the text was written.
pub fn trial<T: Threads + Sync, R: Source, W: Sink>(
    rt: &T,
    alloc: Global,
    reader: &mut Lines<R>,
    writer: &mut W,
    workers: u32,
) -> Result<u8, TrialFault>
    requires some { 1 ≤ workers }
    requires few { workers ≤ 64 }
    ensures answered { IfSome reader.old.left (λ bytes. HasContentsApart bytes → WritesOne (Trial bytes) (W.holds writer.old) (W.holds writer.new) result) }
    ensures cause { HasCause reader.old reader.new (W.failures writer.old) (W.failures writer.new) result }
{
    match decode(alloc, reader) {
        Ok(bundle) => answer(rt, alloc, &bundle, writer, workers),
        Err(BundleFault::Malformed) => refuse(b"malformed", writer),
        Err(BundleFault::OutOfMemory) => Err(TrialFault::OutOfMemory),
        Err(BundleFault::Failed) => Err(TrialFault::Failed),
    }
}

/// Checks a bundle's plan, carries it out, and writes the result.
fn answer<T: Threads + Sync, W: Sink>(
    rt: &T,
    alloc: Global,
    bundle: &Bundle,
    writer: &mut W,
    workers: u32,
) -> Result<u8, TrialFault>
    requires bundle { IsBundle (values bundle.now) }
    requires some { 1 ≤ workers }
    requires few { workers ≤ 64 }
    ensures answered { WritesAnswer (values bundle.now) (W.holds writer.old) (W.holds writer.new) result }
    ensures failures { FailuresFit (W.failures writer.old) (W.failures writer.new) result }
{
    let first = Print::of_tree(alloc, &bundle.first)?;
    let second = Print::of_tree(alloc, &bundle.second)?;
    match check(
        rt,
        alloc,
        &bundle.plan,
        &bundle.archive,
        &first,
        &second,
        &bundle.holds,
    ) {
        Ok(checked) => settle(rt, alloc, bundle, &checked, writer, workers),
        Err(CheckFault::Broken { rule, place }) => refuse_plan(alloc, rule, place, writer),
        Err(CheckFault::OutOfMemory) => Err(TrialFault::OutOfMemory),
    }
}

/// Carries out a bundle's checked plan, and writes the result.
fn settle<T: Threads + Sync, W: Sink>(
    rt: &T,
    alloc: Global,
    bundle: &Bundle,
    checked: &Checked<'_>,
    writer: &mut W,
    workers: u32,
) -> Result<u8, TrialFault>
    requires bundle { IsBundle (values bundle.now) }
    requires same { checked.now ≡ checkup_with bundle.now.plan bundle.now.archive checked.now.first checked.now.second bundle.now.holds }
    requires first { at checked.now.first ≡ print_of (at bundle.now.first) }
    requires second { at checked.now.second ≡ print_of (at bundle.now.second) }
    requires some { 1 ≤ workers }
    requires few { workers ≤ 64 }
    ensures answered { WritesAnswer (values bundle.now) (W.holds writer.old) (W.holds writer.new) result }
    ensures failures { FailuresFit (W.failures writer.old) (W.failures writer.new) result }
{
    let _plan = checked.plan();
    let carried = carry_through(rt, alloc, checked, &bundle.first, &bundle.second, workers)?;
    let entries = bundle.plan.entries.as_slice();
    write_carried(
        alloc,
        carried.first.rows(),
        carried.second.rows(),
        carried.archive.rows(),
        entries,
        writer,
    )?;
    Ok(exit_status(entries))
}

/// Writes the result of a plan that was carried out.
fn write_carried<W: Sink>(
    alloc: Global,
    first: &[Row<Items<u8>>],
    second: &[Row<Items<u8>>],
    archive: &[Row<Stamp>],
    entries: &[Entry],
    writer: &mut W,
) -> Result<(), TrialFault>
    ensures written { Writes (W.holds writer.old) (W.holds writer.new) (text (result_lines first.now second.now archive.now entries.now)) result }
    ensures failures { FailuresFit (W.failures writer.old) (W.failures writer.new) result }
{
    match write_result(alloc, first, second, archive, entries, writer) {
        Ok(()) => Ok(()),
        Err(BundleFault::OutOfMemory) => Err(TrialFault::OutOfMemory),
        Err(BundleFault::Failed) => Err(TrialFault::Failed),
        Err(BundleFault::Malformed) => unreachable!(),
    }
}

/// The exit status of a plan that was carried out.
fn exit_status(entries: &[Entry]) -> u8
    ensures { result ≡ min 1 (skipped_count entries.now) }
{
    if count_skipped(entries) == 0 { 0 } else { 1 }
}

/// Tells which rule a plan breaks first, and where.
fn refuse_plan<W: Sink>(
    alloc: Global,
    rule: PlanRule,
    place: u64,
    writer: &mut W,
) -> Result<u8, TrialFault>
    ensures written { Writes (W.holds writer.old) (W.holds writer.new) (text (refusal rule place ∷ [])) result }
    ensures status { IfOk result (λ status. status ≡ 3) }
    ensures failures { FailuresFit (W.failures writer.old) (W.failures writer.new) result }
{
    let mut line = Vec::new(alloc);
    push_refusal(rule, place, &mut line)?;
    refuse(&line, writer)
}

/// Appends the line that refuses a plan.
fn push_refusal(rule: PlanRule, place: u64, line: &mut Vec<u8>) -> Result<(), TrialFault>
    ensures line { OnOk result (line.new.items ≡ line.old.items ++ refusal rule place) }
    ensures fault { IfErr result (λ e. e ≡ OutOfMemory) }
{
    line.extend_from_slice(b"refused ")?;
    push_decimal(line, u64::from(rule.number()))?;
    line.push(b' ')?;
    push_decimal(line, place)?;
    Ok(())
}

/// Writes a refusal's only line.
fn refuse<W: Sink>(line: &[u8], writer: &mut W) -> Result<u8, TrialFault>
    ensures written { Writes (W.holds writer.old) (W.holds writer.new) (text (line.now ∷ [])) result }
    ensures status { IfOk result (λ status. status ≡ 3) }
    ensures failures { FailuresFit (W.failures writer.old) (W.failures writer.new) result }
{
    match write_line(writer, line) {
        Ok(()) => Ok(REFUSED),
        Err(TextFault::Failed) => Err(TrialFault::Failed),
        Err(TextFault::OutOfMemory | TextFault::NotCanonical) => unreachable!(),
    }
}
