//! Trees that are split at paths, and joined again.
ghost use Rattle.std.specs.Prelude.{◌≡◌, ◌↔◌, ◌++◌, ◌+◌, ◌⊎◌, ◌≤◌, [], IfErr, IfOk, IsTrue, List, ℕ, length, vec_capacity};
ghost use Rattle.std.specs.List.{AllByRecursion};
ghost use Rattle.std.specs.VecDeque.{deque_capacity, deque_len};
ghost use Rattle.ts_model.specs.Trees.{at};
ghost use Rattle.ts_table.specs.Splices.{ArePaths, grafted};
ghost use Rattle.ts_table.specs.Splits.{ArePartsAt, IsFrame, MaySplit, edits_of, without, FillsEach};
ghost use Rattle.ts_tree.specs.Trees.{FilesFit};

use crate::fault::TreeFault;
use crate::subtree::SubTree;
use crate::tree::Tree;
use std::alloc::Global;
use std::collections::VecDeque;
use std::marker::Model;
use ts_model::items::Items;
use ts_name::Path;
use ts_table::{SubTable, Table};

/// What is left of a tree that was split: all but the parts at the paths of the split.
#[derive(Drop)]
pub struct Frame {
    frame: ts_table::Frame<Items<u8>>,
}

impl Model for Frame {
    ghost use Rattle.std.specs.Prelude.{List, ℕ};
    ghost use Rattle.ts_table.specs.Splits.{FrameOf};
    ghost use Rattle.ts_tree.specs.Trees.{FilesFit};

    ghost Value = { FrameOf (List ℕ) };

    ghost view = { λ f. f.frame };

    ghost invariant = { λ f. FilesFit f.frame.rows };
}

impl Frame {
    /// The paths of the split, in order. It takes no memory.
    pub fn paths(&self) -> &[Path]
        ensures paths { result.now ≡ self.now.paths }
        ensures lawful { IsFrame self.now }
    {
        self.frame.paths()
    }
}

impl Tree {
    /// Whether the tree may be split at these paths: they ascend, none is above another, none is the root, and the parent
    /// of each is a directory. It takes no memory.
    pub fn may_split(&self, paths: &[Path]) -> bool
        ensures { IsTrue result ↔ MaySplit (at self.now) paths.now }
    {
        self.table().may_split(paths)
    }

    /// Takes the parts at the paths out of the tree. What is left is the frame; `join` puts parts back.
    ///
    /// The paths ascend, none is above another, none is the root, and the parent of each is a directory. At some of them
    /// there may be nothing. Where memory runs out, the only fault, the tree comes back as it was.
    pub fn split(
        self,
        alloc: Global,
        paths: &[Path],
    ) -> Result<(Frame, Vec<SubTree>), (Tree, TreeFault)>
        requires { MaySplit (at self) paths.now }
        ensures paths { IfOk result (λ r. r.0.paths ≡ paths.now) }
        ensures parts { IfOk result (λ r. ArePartsAt (at self) paths.now r.1.items) }
        ensures frame { IfOk result (λ r. at r.0.rows ≡ without (at self) paths.now) }
        ensures err { IfErr result (λ r. (r.0 ≡ self) × (r.1 ≡ TreeFault.OutOfMemory)) }
    {
        let Ok(room) = VecDeque::with_capacity(alloc, paths.len()) else {
            return Err((self, TreeFault::OutOfMemory));
        };
        match self.into_table().split(alloc, paths) {
            Ok((frame, parts)) => {
                let _paths = frame.paths();
                Ok((Frame { frame }, trees_of(parts, room)))
            }
            Err((table, _)) => Err((Tree::from_table(table), TreeFault::OutOfMemory)),
        }
    }

    /// Puts each part at its path of the frame, in their order; there are as many parts as paths.
    ///
    /// `TooLong` where a path would be past the limits. After a fault the frame and the parts come back as they were.
    pub fn join(
        alloc: Global,
        frame: Frame,
        parts: Vec<SubTree>,
    ) -> Result<Tree, (Frame, Vec<SubTree>, TreeFault)>
        requires { length parts.items ≡ length frame.paths }
        ensures ok { IfOk result (λ tree. at tree ≡ grafted (at frame.rows) (edits_of frame.paths parts.items)) }
        ensures whole { IfOk result (λ tree. FillsEach frame parts.items (at tree)) }
        ensures paths { IfOk result (λ _. ArePaths (edits_of frame.paths parts.items)) }
        ensures err { IfErr result (λ r. (r.0 ≡ frame) × (r.1.items ≡ parts.items)) }
        ensures too_long { IfErr result (λ r. r.2 ≡ TreeFault.TooLong → ¬ ArePaths (edits_of frame.paths parts.items)) }
        ensures fault { IfErr result (λ r. (r.2 ≡ TreeFault.OutOfMemory) ⊎ (r.2 ≡ TreeFault.TooLong)) }
    {
        let Ok(room) = Vec::with_capacity(alloc, parts.len()) else {
            return Err((frame, parts, TreeFault::OutOfMemory));
        };
        let Frame { frame } = frame;
        let mut parts = VecDeque::from_vec(parts);
        let tables = tables_of(&mut parts, room);
        match Table::join(alloc, frame, tables) {
            Ok(table) => {
                let _rows = table.rows();
                Ok(Tree::from_table(table))
            }
            Err((frame, tables, fault)) => Err((
                Frame { frame },
                trees_of(tables, parts),
                TreeFault::from(fault),
            )),
        }
    }
}

/// The parts as trees, in `out`, which has room for them.
fn trees_of(parts: Vec<SubTable<Items<u8>>>, mut out: VecDeque<SubTree>) -> Vec<SubTree>
    requires files { AllByRecursion FilesFit parts.items }
    requires room { deque_len out + length parts.items ≤ deque_capacity out }
    ensures { result.items ≡ out.items ++ parts.items }
{
    for part in parts {
        let Ok(()) = out.push_back(SubTree::from_table(part)) else {
            unreachable!();
        };
    }
    Vec::from(out)
}

/// The parts as tables, in `out`, which is empty and has room for them. `parts` keeps its room.
fn tables_of(
    parts: &mut VecDeque<SubTree>,
    mut out: Vec<SubTable<Items<u8>>>,
) -> Vec<SubTable<Items<u8>>>
    requires empty { out.items ≡ [] }
    requires room { deque_len parts.old ≤ vec_capacity out }
    ensures tables { result.items ≡ parts.old.items }
    ensures files { AllByRecursion FilesFit result.items }
    ensures none { parts.new.items ≡ [] }
    ensures capacity { deque_capacity parts.new ≡ deque_capacity parts.old }
{
    while let Some(part) = parts.pop_front() {
        let Ok(()) = out.push(part.into_table()) else {
            unreachable!();
        };
    }
    out
}
