//! A site over memory that fails when told.
ghost use Rattle.std.specs.Prelude.{◌≡◌, ◌≤◌, ◌<◌, ◌+◌, ◌↔◌, ℕ, List, Option, cond, true, slice_get, IfOk, IsErrOf, IsTrue, OnErr, Some};
ghost use Rattle.ts_model.specs.declared.row.Row.{Row};
ghost use Rattle.ts_stage.specs.Assemblies.{IsComplete};
ghost use Rattle.ts_site.specs.Sites.{Differs, RefusesMisfits, Replaces};

use crate::fault::SiteFault;
use crate::memory::MemSite;
use crate::site::Site;
use std::alloc::Global;
use std::snapshot::Snapshot;
use ts_print::SubPrint;
use ts_stage::Staged;
use ts_tree::SubTree;

/// A site over memory whose device fails at the commits that it was told, for tests.
#[derive(Drop)]
pub struct FaultySite {
    site: MemSite,
    /// Whether the device fails at each commit, the first one first. It doesn't at later ones.
    fails: Vec<bool>,
    /// How many of these commits were made.
    commits: usize,
    /// How many of them the device failed at.
    failures: usize,
    ghost counted: { failures ≤ commits },
}

impl FaultySite {
    /// A site with this content, and at which commits its device fails. It takes no memory.
    pub fn new(content: SubTree, fails: Vec<bool>) -> Self
        ensures content { result.site ≡ content }
        ensures fails { result.fails.items ≡ fails.items }
        ensures commits { result.commits ≡ 0 }
        ensures failures { result.failures ≡ 0 }
    {
        FaultySite {
            site: MemSite::new(content),
            fails,
            commits: 0,
            failures: 0,
        }
    }

    /// What is there now. It takes no memory.
    pub fn into_content(self) -> SubTree
        ensures { result ≡ self.site }
    {
        self.site.into_content()
    }

    /// Whether the device fails at the next commit, which is made now.
    fn fails_now(&mut self) -> bool
        ensures told { IsTrue result ↔ (slice_get self.old.fails.items self.old.commits ≡ Some true) }
        ensures failures { self.new.failures ≡ self.old.failures + cond result 1 0 }
        ensures site { self.new.site ≡ self.old.site }
    {
        let Some(fails) = self.fails.get(self.commits) else {
            return false;
        };
        let fails = *fails;
        self.commits += 1;
        if fails {
            self.failures += 1;
        }
        fails
    }
}

impl Site for FaultySite {
    ghost content = { λ s. Some s.site };

    ghost failures = { λ s. s.failures };

    fn commit(
        &mut self,
        alloc: Global,
        before: &SubPrint<'_>,
        staged: Staged,
    ) -> Result<Snapshot<Staged>, SiteFault>
        ensures ok { IfOk result (λ put. Replaces (Some self.old.site) (Some self.new.site) before.now.rows put.value.made) }
        ensures put { IfOk result (λ put. (put.value ≡ staged) × IsComplete put.value) }
        ensures misfit { RefusesMisfits (Some self.old.site) staged (IsErrOf result SiteFault.Misfit) }
        ensures changed { IsErrOf result SiteFault.Changed → Differs (Some self.old.site) before.now.rows }
        ensures device { IsErrOf result SiteFault.Device → self.old.failures < self.new.failures }
        ensures told { staged.held ≡ true → (IsErrOf result SiteFault.Device ↔ IsComplete staged × (slice_get self.old.fails.items self.old.commits ≡ Some true)) }
        ensures err { OnErr result (◌≡◌ {A = Option (List (Row (List ℕ)))} (Some self.new.site) (Some self.old.site)) }
    {
        let fails = self.fails_now();
        if !staged.is_held() {
            return Err(SiteFault::OutOfMemory);
        }
        if !staged.is_complete() {
            return Err(SiteFault::Misfit);
        }
        if fails {
            return Err(SiteFault::Device);
        }
        self.site.commit(alloc, before, staged)
    }
}
