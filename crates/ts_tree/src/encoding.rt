//! Writing the text of a tree.
ghost use Rattle.std.specs.Prelude.{◌+◌, ◌/◌, ◌∷◌, ◌≤◌, [], length};
ghost use Rattle.ts_model.specs.Texts.{text, tree_lines, tree_row_lines, data_lines};
ghost use Rattle.ts_model.specs.declared.row.Content.TheVariants.{File};
ghost use Rattle.ts_text.specs.Sources.{Writes};
ghost use Rattle.ts_tree.specs.Faults.{FailuresFit};
ghost use Rattle.ts_tree.specs.Fields.{data_line, dir_line, file_line};

use crate::data::{LINE_BYTES, push_hex};
use crate::fault::TreeFault;
use crate::tree::Tree;
use std::alloc::Global;
use ts_model::items::Items;
use ts_model::row::{Content, Row};
use ts_name::Path;
use ts_text::Sink;
use ts_text::field::push_decimal;
use ts_text::write::write_line;

/// Writes the text of the tree. After a fault a beginning of it was written.
pub fn encode<W: Sink>(alloc: Global, tree: &Tree, sink: &mut W) -> Result<(), TreeFault>
    ensures written { Writes (W.holds sink.old) (W.holds sink.new) (text (tree_lines tree.now)) result }
    ensures failures { FailuresFit (W.failures sink.old) (W.failures sink.new) result }
{
    let mut line = Vec::new(alloc);
    for row in tree.rows() {
        write_row(row, &mut line, sink)?;
    }
    Ok(())
}

/// Writes the lines of a row. `line` is room for one line.
pub fn write_row<W: Sink>(
    row: &Row<Items<u8>>,
    line: &mut Vec<u8>,
    sink: &mut W,
) -> Result<(), TreeFault>
    ensures written { Writes (W.holds sink.old) (W.holds sink.new) (text (tree_row_lines row.now.path row.now.content)) result }
    ensures failures { FailuresFit (W.failures sink.old) (W.failures sink.new) result }
{
    match &row.content {
        Content::Absent => Ok(()),
        Content::Dir => write_dir(&row.path, line, sink),
        Content::File(bytes) => write_file(&row.path, bytes.as_slice(), line, sink),
    }
}

/// Writes the line of a directory.
pub fn write_dir<W: Sink>(path: &Path, line: &mut Vec<u8>, sink: &mut W) -> Result<(), TreeFault>
    ensures written { Writes (W.holds sink.old) (W.holds sink.new) (text (dir_line path.now ∷ [])) result }
    ensures failures { FailuresFit (W.failures sink.old) (W.failures sink.new) result }
{
    line.clear();
    line.extend_from_slice(b"d ")?;
    path.write_text(line)?;
    write_line(sink, line)?;
    Ok(())
}

/// Writes the lines of a file.
fn write_file<W: Sink>(
    path: &Path,
    bytes: &[u8],
    line: &mut Vec<u8>,
    sink: &mut W,
) -> Result<(), TreeFault>
    ensures written { Writes (W.holds sink.old) (W.holds sink.new) (text (tree_row_lines path.now (File bytes.now))) result }
    ensures failures { FailuresFit (W.failures sink.old) (W.failures sink.new) result }
{
    write_head(path, bytes.len() as u64, line, sink)?;
    write_data(bytes, line, sink)
}

/// Writes the first line of a file of so many bytes.
fn write_head<W: Sink>(
    path: &Path,
    size: u64,
    line: &mut Vec<u8>,
    sink: &mut W,
) -> Result<(), TreeFault>
    ensures written { Writes (W.holds sink.old) (W.holds sink.new) (text (file_line path.now size ∷ [])) result }
    ensures failures { FailuresFit (W.failures sink.old) (W.failures sink.new) result }
{
    line.clear();
    line.extend_from_slice(b"f ")?;
    path.write_text(line)?;
    line.push(b' ')?;
    push_decimal(line, size)?;
    write_line(sink, line)?;
    Ok(())
}

/// Writes the bytes of a file, at most 64 on a line.
fn write_data<W: Sink>(bytes: &[u8], line: &mut Vec<u8>, sink: &mut W) -> Result<(), TreeFault>
    ensures written { Writes (W.holds sink.old) (W.holds sink.new) (text (data_lines ((length bytes.now + 63) / 64) bytes.now)) result }
    ensures failures { FailuresFit (W.failures sink.old) (W.failures sink.new) result }
{
    let mut rest = bytes;
    while !rest.is_empty() {
        let (chunk, more) = rest.split_at(rest.len().min(LINE_BYTES));
        write_chunk(chunk, line, sink)?;
        rest = more;
    }
    Ok(())
}

/// Writes the bytes on one line.
fn write_chunk<W: Sink>(chunk: &[u8], line: &mut Vec<u8>, sink: &mut W) -> Result<(), TreeFault>
    requires { length chunk.now ≤ 64 }
    ensures written { Writes (W.holds sink.old) (W.holds sink.new) (text (data_line chunk.now ∷ [])) result }
    ensures failures { FailuresFit (W.failures sink.old) (W.failures sink.new) result }
{
    line.clear();
    line.extend_from_slice(b"x ")?;
    push_hex(line, chunk)?;
    write_line(sink, line)?;
    Ok(())
}
