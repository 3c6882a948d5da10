//! Writing the text of a print.
ghost use Rattle.std.specs.Prelude.{◌≡◌, ◌∷◌, ◌++◌, [], OnOk};
ghost use Rattle.ts_model.specs.Texts.{print_lines, print_row_lines, text};
ghost use Rattle.ts_model.specs.declared.row.Content.TheVariants.{File};
ghost use Rattle.ts_print.specs.Faults.{FailuresFit};
ghost use Rattle.ts_text.specs.Sources.{Writes};

use crate::fault::PrintFault;
use crate::print::Print;
use std::alloc::{AllocError, Global};
use ts_model::row::{Content, Row, Stamp};
use ts_name::Path;
use ts_text::Sink;
use ts_text::field::{push_decimal, push_digest};
use ts_text::write::write_line;
use ts_tree::encoding::write_dir;

/// Writes the text of the print. After a fault a beginning of it was written; `Failed` comes only where the sink failed, and
/// memory ran out only where it didn't.
pub fn encode<W: Sink>(alloc: Global, print: &Print, sink: &mut W) -> Result<(), PrintFault>
    ensures written { Writes (W.holds sink.old) (W.holds sink.new) (text (print_lines print.now)) result }
    ensures failures { FailuresFit (W.failures sink.old) (W.failures sink.new) result }
{
    let mut line = Vec::new(alloc);
    for row in print.rows() {
        write_row(row, &mut line, sink)?;
    }
    Ok(())
}

/// Writes the line of a row. `line` is room for it.
pub fn write_row<W: Sink>(
    row: &Row<Stamp>,
    line: &mut Vec<u8>,
    sink: &mut W,
) -> Result<(), PrintFault>
    ensures written { Writes (W.holds sink.old) (W.holds sink.new) (text (print_row_lines row.now.path row.now.content)) result }
    ensures failures { FailuresFit (W.failures sink.old) (W.failures sink.new) result }
{
    match &row.content {
        Content::Absent => Ok(()),
        Content::Dir => Ok(write_dir(&row.path, line, sink)?),
        Content::File(stamp) => write_file(&row.path, stamp, line, sink),
    }
}

/// Writes the line of a file.
fn write_file<W: Sink>(
    path: &Path,
    stamp: &Stamp,
    line: &mut Vec<u8>,
    sink: &mut W,
) -> Result<(), PrintFault>
    ensures written { Writes (W.holds sink.old) (W.holds sink.new) (text (print_row_lines path.now (File stamp.now))) result }
    ensures failures { FailuresFit (W.failures sink.old) (W.failures sink.new) result }
{
    fill_file(path, stamp, line)?;
    write_line(sink, line)?;
    Ok(())
}

/// Makes a line that of a file, without its line feed.
fn fill_file(path: &Path, stamp: &Stamp, line: &mut Vec<u8>) -> Result<(), AllocError>
    ensures { OnOk result (line.new.items ++ 10 ∷ [] ≡ text (print_row_lines path.now (File stamp.now))) }
{
    line.clear();
    line.extend_from_slice(b"f ")?;
    path.write_text(line)?;
    line.push(b' ')?;
    push_decimal(line, stamp.size)?;
    line.push(b' ')?;
    let digest = stamp.digest;
    push_digest(line, &digest)
}
