//! The lines that report faults, and the sentences before them.
ghost use Rattle.std.specs.Option.{option_copied};
ghost use Rattle.std.specs.Prelude.{◌≡◌, ◌++◌, OnOk};
ghost use Rattle.ts_explain.specs.Faults.{fault_line, fault_line_at, fault_number, told_path};
ghost use Rattle.ts_explain.specs.Lines.{BeginsLines, fault_lines, sentence_lines, with_sentence};
ghost use Rattle.ts_model.specs.Texts.{text};
ghost use Rattle.ts_text.specs.Sources.{Writes};

use crate::fault::PerformFault;
use crate::sentence::push_sentence;
use std::alloc::{AllocError, Global};
use ts_command::Command;
use ts_name::Path;
use ts_text::{Sink, TextFault, push_decimal, write_line};

/// The program's own directory in a replica. It is no path of an entry.
const OWN_PATH: &str = "/.twosync";

/// The file in it that says which archives the replica belongs to.
const ARCHIVES_PATH: &str = "/.twosync/archives";

/// Reports a fault of a command: its line, and its sentence before it where the command asks for that.
///
/// It fails where memory runs out or the sink fails. Then a beginning of that was written.
pub fn write_fault<W: Sink>(
    alloc: Global,
    command: &Command<'_>,
    fault: &PerformFault,
    err: &mut W,
) -> Result<(), TextFault>
    ensures { Writes (W.holds err.old) (W.holds err.new) (text (fault_lines command.now fault.now)) result }
{
    let mut sentence = Vec::new(alloc);
    if command.explain {
        push_sentence(alloc, &command.job, fault, &mut sentence)?;
    }
    let mut line = Vec::new(alloc);
    push_line(fault, &mut line)?;
    write_explained(command.explain, &sentence, &line, err)
}

/// Writes the sentence of a fault alone, where the command asks for it, and else nothing.
///
/// It fails where memory runs out or the sink fails. Then a beginning of the sentence was written.
pub fn write_sentence<W: Sink>(
    alloc: Global,
    command: &Command<'_>,
    fault: &PerformFault,
    err: &mut W,
) -> Result<(), TextFault>
    ensures written { Writes (W.holds err.old) (W.holds err.new) (text (sentence_lines command.now fault.now)) result }
    ensures begun { BeginsLines (W.holds err.old) (W.holds err.new) (sentence_lines command.now fault.now) }
{
    if !command.explain {
        return Ok(());
    }
    let mut sentence = Vec::new(alloc);
    push_sentence(alloc, &command.job, fault, &mut sentence)?;
    write_line(err, &sentence)
}

/// Writes a line, and a sentence before it where that is asked for.
///
/// It fails where the sink fails. Then a beginning of that was written.
pub fn write_explained<W: Sink>(
    explain: bool,
    sentence: &[u8],
    line: &[u8],
    err: &mut W,
) -> Result<(), TextFault>
    ensures { Writes (W.holds err.old) (W.holds err.new) (text (with_sentence explain sentence.now line.now)) result }
{
    if explain {
        write_line(err, sentence)?;
    }
    write_line(err, line)
}

/// Appends the line of a fault.
fn push_line(fault: &PerformFault, line: &mut Vec<u8>) -> Result<(), AllocError>
    ensures { OnOk result (line.new.items ≡ line.old.items ++ fault_line (fault_number fault.now) (told_path fault.now)) }
{
    match fault {
        PerformFault::Own { .. } => push_fault_at(fault.number(), OWN_PATH, line),
        PerformFault::Archives { .. } => push_fault_at(fault.number(), ARCHIVES_PATH, line),
        _ => push_fault(fault.number(), fault.path(), line),
    }
}

/// Appends the line that tells a fault by its number and a place that is no path of an entry.
fn push_fault_at(number: u8, place: &str, line: &mut Vec<u8>) -> Result<(), AllocError>
    ensures { OnOk result (line.new.items ≡ line.old.items ++ fault_line_at number place.now) }
{
    line.extend_from_slice(b"twosync: fault ")?;
    push_decimal(line, u64::from(number))?;
    line.push(b' ')?;
    line.extend_from_slice(place.as_bytes())?;
    Ok(())
}

/// Appends the line that tells a fault by its number and, where it has a path other than the root, by that path.
///
/// It fails where memory runs out.
pub fn push_fault(number: u8, path: Option<&Path>, line: &mut Vec<u8>) -> Result<(), AllocError>
    ensures { OnOk result (line.new.items ≡ line.old.items ++ fault_line number (option_copied path.entry)) }
{
    line.extend_from_slice(b"twosync: fault ")?;
    push_decimal(line, u64::from(number))?;
    let Some(path) = path else {
        return Ok(());
    };
    if !path.is_root() {
        line.push(b' ')?;
        path.write_text(line)?;
    }
    Ok(())
}
