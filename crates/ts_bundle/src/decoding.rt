//! Reading a bundle from a text.
ghost use Rattle.std.specs.Prelude.{IfOk, IfErr};
ghost use Rattle.ts_bundle.specs.Decoding.{DecodesBundle, FindsNoBundle};

use crate::bundle::Bundle;
use crate::fault::BundleFault;
use crate::reader::BundleReader;
use std::alloc::Global;
use ts_text::{Lines, Source};

/// The bundle that the lines spell, all of them.
///
/// More than 2^64 - 2 lines are answered as out of memory, since no memory holds their bundle.
pub fn decode<S: Source>(alloc: Global, lines: &mut Lines<S>) -> Result<Bundle, BundleFault>
    ensures found { IfOk result (DecodesBundle lines.old) }
    ensures refused { IfErr result (FindsNoBundle lines.old lines.new) }
{
    let mut reader = BundleReader::new();
    for _ in 0..u64::MAX {
        if !lines.advance()? {
            return reader.finish();
        }
        reader = reader.line(alloc, lines.line())?;
    }
    Err(BundleFault::OutOfMemory)
}
