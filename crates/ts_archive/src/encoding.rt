//! Writing an archive file, line by line.
ghost use Rattle.std.specs.Prelude.{◌≡◌, ◌++◌, ℕ, List, IfErr, IfOk, OnOk, length};
ghost use Rattle.ts_model.specs.Texts.{archive_text, print_lines, print_row_lines, text};
ghost use Rattle.ts_archive.specs.Endings.{end_line};
ghost use Rattle.ts_archive.specs.Faults.{FailuresFit};
ghost use Rattle.ts_text.specs.Lines.{FailuresFit as FailuresFitText};
ghost use Rattle.ts_text.specs.Sources.{Writes};
ghost use Rattle.sha2.specs.Hashers.{Holds256};

use crate::fault::ArchiveFault;
use sha2::{Digest, Sha256};
use std::alloc::{AllocError, Global};
use ts_model::row::{Row, Stamp};
use ts_print::{Print, write_row};
use ts_text::field::{push_decimal, push_digest};
use ts_text::write::{write_all, write_line};
use ts_text::{Counted, Sink, TextFault};

/// Writes the archive file of the print, line by line. After a fault a beginning of it was written.
pub fn encode<W: Sink>(alloc: Global, print: &Print, sink: &mut W) -> Result<(), ArchiveFault>
    ensures written { Writes (W.holds sink.old) (W.holds sink.new) (archive_text print.now) result }
    ensures failures { FailuresFit (W.failures sink.old) (W.failures sink.new) result }
{
    let rows = print.rows();
    let mut hasher = Sha256::new();
    send(sink, &mut hasher, b"twosync-archive 1\n")?;
    send_rows(alloc, rows, sink, &mut hasher)?;
    let end = end_after(alloc, rows.len() as u64, &hasher.finalize())?;
    write_line(sink, &end)?;
    Ok(())
}

/// Writes bytes, and hashes them.
fn send<W: Sink>(sink: &mut W, hasher: &mut Sha256, bytes: &[u8]) -> Result<(), TextFault>
    ensures written { Writes (W.holds sink.old) (W.holds sink.new) bytes.now result }
    ensures failures { FailuresFitText (W.failures sink.old) (W.failures sink.new) result }
    ensures hashed { (before : List ℕ) → Holds256 hasher.old before → Holds256 hasher.new (before ++ bytes.now) }
    ensures err { IfErr result (λ e. e ≡ TextFault.Failed) }
{
    hasher.update(bytes);
    write_all(sink, bytes)
}

/// Writes the lines of rows, each as soon as it is spelled, and hashes them.
fn send_rows<W: Sink>(
    alloc: Global,
    rows: &[Row<Stamp>],
    sink: &mut W,
    hasher: &mut Sha256,
) -> Result<(), ArchiveFault>
    ensures written { Writes (W.holds sink.old) (W.holds sink.new) (text (print_lines rows.now)) result }
    ensures failures { FailuresFit (W.failures sink.old) (W.failures sink.new) result }
    ensures hashed { OnOk result ((before : List ℕ) → Holds256 hasher.old before → Holds256 hasher.new (before ++ text (print_lines rows.now))) }
{
    let mut room = Vec::new(alloc);
    let mut line = Counted::new(Vec::new(alloc));
    for row in rows {
        fill_row(row, &mut room, &mut line)?;
        send(sink, hasher, &line.inner)?;
    }
    Ok(())
}

/// Puts the line of a row, with its line feed, in place of what `line` has. `room` is room for it.
fn fill_row(
    row: &Row<Stamp>,
    room: &mut Vec<u8>,
    line: &mut Counted<Vec<u8>>,
) -> Result<(), AllocError>
    ensures { OnOk result (line.new.inner.items ≡ text (print_row_lines row.now.path row.now.content)) }
{
    line.inner.clear();
    write_row(row, room, line).map_err(|_| AllocError)
}

/// The end line behind a text with this digest, whose body has so many lines.
fn end_after(alloc: Global, count: u64, digest: &[u8; 32]) -> Result<Vec<u8>, AllocError>
    requires { length digest.now ≡ 32 }
    ensures { IfOk result (λ line. line.items ≡ end_line count digest.now) }
{
    let mut line = Vec::new(alloc);
    line.extend_from_slice(b"end ")?;
    push_decimal(&mut line, count)?;
    line.push(b' ')?;
    push_digest(&mut line, digest)?;
    Ok(line)
}
