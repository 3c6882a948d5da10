//! Writing what is left of a plan that was carried out.
ghost use Rattle.std.specs.Prelude.{◌≡◌, ◌∷◌, [], map, IfErr, IfOk};
ghost use Rattle.ts_model.specs.Texts.{text, tree_lines, print_lines};
ghost use Rattle.ts_model.specs.Trial.{result_lines, skipped_count};
ghost use Rattle.ts_text.specs.Sources.{Writes};
ghost use Rattle.ts_bundle.specs.Faults.{FailuresFit};
ghost use Rattle.ts_bundle.specs.Results.{fate_of, report_lines};

use crate::fault::BundleFault;
use std::alloc::Global;
use ts_model::items::Items;
use ts_model::plan::{Entry, Reason};
use ts_model::row::{Row, Stamp};
use ts_report::{Fate, write_fates};
use ts_text::Sink;
use ts_text::write::write_line;

/// How many entries nothing is done about. It takes no memory.
pub fn count_skipped(entries: &[Entry]) -> usize
    ensures { result ≡ skipped_count entries.now }
{
    entries
        .iter()
        .filter(|entry| entry.reason.is_skipped())
        .count()
}

/// Writes the trees, the archive, and the report of a run in which every action was done.
///
/// After a fault a beginning of it was written.
pub fn write_result<W: Sink>(
    alloc: Global,
    first: &[Row<Items<u8>>],
    second: &[Row<Items<u8>>],
    archive: &[Row<Stamp>],
    entries: &[Entry],
    sink: &mut W,
) -> Result<(), BundleFault>
    ensures written { Writes (W.holds sink.old) (W.holds sink.new) (text (result_lines first.now second.now archive.now entries.now)) result }
    ensures failures { FailuresFit (W.failures sink.old) (W.failures sink.new) result }
{
    write_tree(alloc, b"first", first, sink)?;
    write_tree(alloc, b"second", second, sink)?;
    write_print(alloc, b"archive", archive, sink)?;
    write_report(alloc, entries, sink)
}

/// Writes a title, and the rows of a tree.
fn write_tree<W: Sink>(
    alloc: Global,
    title: &[u8],
    rows: &[Row<Items<u8>>],
    sink: &mut W,
) -> Result<(), BundleFault>
    ensures written { Writes (W.holds sink.old) (W.holds sink.new) (text (title.now ∷ tree_lines rows.now)) result }
    ensures failures { FailuresFit (W.failures sink.old) (W.failures sink.new) result }
{
    put_line(title, sink)?;
    let mut line = Vec::new(alloc);
    for row in rows {
        ts_tree::write_row(row, &mut line, sink)?;
    }
    Ok(())
}

/// Writes a title, and the rows of a print.
fn write_print<W: Sink>(
    alloc: Global,
    title: &[u8],
    rows: &[Row<Stamp>],
    sink: &mut W,
) -> Result<(), BundleFault>
    ensures written { Writes (W.holds sink.old) (W.holds sink.new) (text (title.now ∷ print_lines rows.now)) result }
    ensures failures { FailuresFit (W.failures sink.old) (W.failures sink.new) result }
{
    put_line(title, sink)?;
    let mut line = Vec::new(alloc);
    for row in rows {
        ts_print::write_row(row, &mut line, sink)?;
    }
    Ok(())
}

/// Writes the report's title, and the report.
fn write_report<W: Sink>(alloc: Global, entries: &[Entry], sink: &mut W) -> Result<(), BundleFault>
    ensures written { Writes (W.holds sink.old) (W.holds sink.new) (text (report_lines entries.now)) result }
    ensures failures { FailuresFit (W.failures sink.old) (W.failures sink.new) result }
{
    put_line(b"report", sink)?;
    let fates = fates_of(alloc, entries)?;
    write_fates(alloc, entries, &fates, sink)?;
    Ok(())
}

/// What became of each entry.
fn fates_of(alloc: Global, entries: &[Entry]) -> Result<Vec<Fate>, BundleFault>
    ensures fates { IfOk result (λ all. all.items ≡ map (λ entry. fate_of entry.reason) entries.now) }
    ensures fault { IfErr result (λ e. e ≡ BundleFault.OutOfMemory) }
{
    let fates: Vec<Fate> = entries
        .iter()
        .map(|entry| fate_of(entry.reason))
        .collect(alloc)?;
    Ok(fates)
}

/// What became of an entry with this reason.
fn fate_of(reason: Reason) -> Fate
    ensures { result ≡ fate_of reason }
{
    if reason.is_skipped() {
        Fate::Skipped
    } else {
        Fate::Done
    }
}

/// Writes a line that is given without its line feed.
fn put_line<W: Sink>(line: &[u8], sink: &mut W) -> Result<(), BundleFault>
    ensures written { Writes (W.holds sink.old) (W.holds sink.new) (text (line.now ∷ [])) result }
    ensures failures { FailuresFit (W.failures sink.old) (W.failures sink.new) result }
{
    write_line(sink, line)?;
    Ok(())
}
