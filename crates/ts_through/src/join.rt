//! Putting what the commits have put in place back into a replica.
ghost use Rattle.std.specs.Prelude.{◌≡◌, IfOk, length};
ghost use Rattle.ts_laws.specs.Carried.{copied};
ghost use Rattle.ts_model.specs.Texts.{IsTreeBody};
ghost use Rattle.ts_model.specs.Trees.{Tree as TreeOf, at};
ghost use Rattle.ts_through.specs.Parts.{AreLaid, AreParts, KeepsOthers, paths_from, left_of};

use std::alloc::{AllocError, Global};
use std::mem;
use ts_model::plan::{Entry, Side};
use ts_tree::{Frame, SubTree, Tree, TreeFault};

/// The frame with the parts of the entries that are copied from this side at their paths: the source's subtrees. Other parts stay.
pub(crate) fn joined(
    alloc: Global,
    frame: Frame,
    entries: &[Entry],
    from: Side,
    source: &Tree,
    parts: &mut Vec<SubTree>,
) -> Result<Tree, AllocError>
    requires paths { frame.paths ≡ paths_from from entries.now }
    requires parts { length parts.old.items ≡ length entries.now }
    requires laid { AreLaid from (at source.now) entries.now parts.old.items }
    ensures tree { (t : TreeOf) → at frame.rows ≡ left_of from entries.now t → IfOk result (λ tree. at tree ≡ copied from (at source.now) t entries.now) }
    ensures lawful { IfOk result IsTreeBody }
    ensures others { KeepsOthers from entries.now parts.old.items parts.new.items }
    ensures count { length parts.new.items ≡ length parts.old.items }
{
    let back = parts_with(alloc, entries, from, source, parts)?;
    match Tree::join(alloc, frame, back) {
        Ok(tree) => {
            let _rows = tree.rows();
            Ok(tree)
        }
        Err((_, _, TreeFault::TooLong)) => unreachable!(),
        Err(_) => Err(AllocError),
    }
}

/// The parts of the entries that are copied from this side, in their order.
fn parts_with(
    alloc: Global,
    entries: &[Entry],
    from: Side,
    source: &Tree,
    parts: &mut Vec<SubTree>,
) -> Result<Vec<SubTree>, AllocError>
    requires parts { length parts.old.items ≡ length entries.now }
    requires laid { AreLaid from (at source.now) entries.now parts.old.items }
    ensures parts { IfOk result (λ back. AreParts from (at source.now) entries.now back.items) }
    ensures others { KeepsOthers from entries.now parts.old.items parts.new.items }
    ensures count { length parts.new.items ≡ length parts.old.items }
{
    let _source_rows = source.rows();
    let mut back = Vec::new(alloc);
    for (index, entry) in entries.iter().enumerate() {
        if entry.reason.is_from(from) {
            let part = mem::replace(&mut parts[index], SubTree::absent(alloc));
            let _part_rows = part.rows();
            back.push(part)?;
        }
    }
    Ok(back)
}
