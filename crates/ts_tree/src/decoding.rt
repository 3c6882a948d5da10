//! Reading a tree from a text.
ghost use Rattle.std.specs.Prelude.{◌≡◌, IfOk, IfErr, IsErrOf};
ghost use Rattle.ts_tree.specs.Decoding.{DecodesTree, FindsNoTree};

use crate::fault::TreeFault;
use crate::reader::TreeReader;
use crate::tree::Tree;
use std::alloc::Global;
use ts_text::{Lines, Source};

/// The tree that the lines spell, all of them.
///
/// More than 2^64 - 2 lines are answered as out of memory, since no memory holds their tree.
pub fn decode<S: Source>(alloc: Global, lines: &mut Lines<S>) -> Result<Tree, TreeFault>
    ensures found { IfOk result (DecodesTree lines.old) }
    ensures refused { IfErr result (FindsNoTree lines.old lines.new) }
    ensures unfailed { ¬ IsErrOf result TreeFault.Failed → lines.new.failures ≡ lines.old.failures }
{
    let mut reader = TreeReader::new(alloc);
    for _ in 0..u64::MAX {
        if !lines.advance()? {
            return reader.finish();
        }
        reader.line(alloc, lines.line())?;
    }
    Err(TreeFault::OutOfMemory)
}
