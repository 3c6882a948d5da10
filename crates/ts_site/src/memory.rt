//! A site over memory.
ghost use Rattle.std.specs.Prelude.{◌≡◌, Some};

use crate::fault::SiteFault;
use crate::site::Site;
use std::alloc::Global;
use std::marker::Model;
use std::snapshot::Snapshot;
use ts_print::SubPrint;
use ts_stage::Staged;
use ts_tree::SubTree;

/// A site whose content lies in memory. Its device never fails. What it puts in place has to be in memory, too: for all else it
/// answers out of memory.
#[derive(Drop)]
pub struct MemSite {
    content: SubTree,
}

impl Model for MemSite {
    ghost use Rattle.std.specs.Prelude.{List, ℕ};
    ghost use Rattle.ts_model.specs.declared.row.Row.{Row};

    ghost Value = { List (Row (List ℕ)) };

    ghost view = { λ s. s.content };
}

impl MemSite {
    /// A site with this content. It takes no memory.
    pub fn new(content: SubTree) -> Self
        ensures { result ≡ content }
    {
        MemSite { content }
    }

    /// What is there now. It takes no memory.
    pub fn into_content(self) -> SubTree
        ensures { result ≡ self }
    {
        let MemSite { content } = self;
        content
    }
}

impl Site for MemSite {
    ghost content = { λ s. Some s };

    ghost failures = { λ s. 0 };

    fn commit(
        &mut self,
        alloc: Global,
        before: &SubPrint<'_>,
        staged: Staged,
    ) -> Result<Snapshot<Staged>, SiteFault> {
        // of what is stored elsewhere nothing can be put in memory
        if !staged.is_held() {
            return Err(SiteFault::OutOfMemory);
        }
        if !staged.is_complete() {
            return Err(SiteFault::Misfit);
        }
        match before.is_print_of(alloc, self.content.rows()) {
            Ok(true) => {}
            Ok(false) => return Err(SiteFault::Changed),
            Err(_) => return Err(SiteFault::OutOfMemory),
        }
        let put = Snapshot::of(&staged);
        match staged.into_tree(alloc) {
            Ok(tree) => {
                self.content = tree;
                Ok(put)
            }
            Err(_) => Err(SiteFault::OutOfMemory),
        }
    }
}
