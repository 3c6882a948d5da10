//! Reading a print from a text.
ghost use Rattle.std.specs.Prelude.{IfOk, IfErr};
ghost use Rattle.ts_print.specs.Decoding.{DecodesPrint, FindsNoPrint};

use crate::fault::PrintFault;
use crate::print::Print;
use crate::reader::PrintReader;
use std::alloc::Global;
use ts_text::{Lines, Source};

/// The print that the lines spell, all of them.
///
/// More than 2^64 - 2 lines are answered as out of memory, since no memory holds their print.
pub fn decode<S: Source>(alloc: Global, lines: &mut Lines<S>) -> Result<Print, PrintFault>
    ensures found { IfOk result (DecodesPrint lines.old) }
    ensures refused { IfErr result (FindsNoPrint lines.old lines.new) }
{
    let mut reader = PrintReader::new(alloc);
    for _ in 0..u64::MAX {
        if !lines.advance()? {
            return reader.finish();
        }
        reader.line(alloc, lines.line())?;
    }
    Err(PrintFault::OutOfMemory)
}
