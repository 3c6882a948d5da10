//! Reading an archive file.
ghost use Rattle.std.specs.Prelude.{◌≡◌, ◌↔◌, IfErr, IfOk, IsTrue};
ghost use Rattle.ts_archive.specs.Endings.{DecodesArchive, FindsNoArchive, header};

use crate::ending::end_of;
use crate::fault::{ArchiveFault, of_reader};
use sha2::{Digest, Sha256};
use std::alloc::Global;
use ts_print::{Print, PrintReader};
use ts_text::{Lines, Source};

/// The print whose archive file the lines are.
///
/// A wrong count or digest is reported only where nothing follows the end line.
/// More than 2^64 - 2 lines are answered as out of memory, since no memory holds their print.
pub fn decode<S: Source>(alloc: Global, lines: &mut Lines<S>) -> Result<Print, ArchiveFault>
    ensures found { IfOk result (DecodesArchive lines.old) }
    ensures refused { IfErr result (FindsNoArchive lines.old lines.new) }
{
    if !lines.advance()? {
        return Err(ArchiveFault::NotCanonical);
    }
    if !is_header(lines.line()) {
        return Err(ArchiveFault::NotCanonical);
    }
    let mut hasher = Sha256::new();
    hasher.update(b"twosync-archive 1\n".as_slice());
    let mut reader = PrintReader::new(alloc);
    for count in 0..u64::MAX {
        if !lines.advance()? {
            return Err(ArchiveFault::NotCanonical);
        }
        let line = lines.line();
        if let Some(told) = end_of(line) {
            let sum = hasher.finalize();
            if lines.advance()? {
                return Err(ArchiveFault::NotCanonical);
            }
            if told.0 != count {
                return Err(ArchiveFault::WrongEnd);
            }
            if !is_same(&told.1, &sum) {
                return Err(ArchiveFault::WrongEnd);
            }
            return match reader.finish() {
                Ok(print) => Ok(print),
                Err(_) => unreachable!(),
            };
        }
        if let Err(fault) = reader.line(alloc, line) {
            return Err(of_reader(fault));
        }
        hasher.update(line);
        hasher.update(b"\n".as_slice());
    }
    Err(ArchiveFault::OutOfMemory)
}

fn is_header(line: &[u8]) -> bool
    ensures { IsTrue result ↔ (line.now ≡ header) }
{
    line == b"twosync-archive 1".as_slice()
}

fn is_same(told: &[u8], sum: &[u8]) -> bool
    ensures { IsTrue result ↔ (told.now ≡ sum.now) }
{
    told == sum
}
