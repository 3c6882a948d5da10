//! What a commit does to the place where it puts a tree.
ghost use Rattle.std.specs.Prelude.{◌≡◌, ◌<◌, ℕ, List, Option, IfOk, IsErrOf, OnErr};
ghost use Rattle.ts_model.specs.declared.row.Row.{Row};
ghost use Rattle.ts_site.specs.Sites.{Differs, IsPutFor, RefusesMisfits, Replaces};

use crate::fault::SiteFault;
use std::alloc::Global;
use std::snapshot::Snapshot;
use ts_print::SubPrint;
use ts_stage::Staged;

/// The place of one commit in the target replica.
pub trait Site: Send + Drop {
    // What is there, by paths relative to the commit's path, where the site tells it, as one over memory does. A site on a
    // disk tells nothing.
    ghost content: { Self → Option (List (Row (List ℕ))) };

    // How often its device failed.
    ghost failures: { Self → ℕ };

    /// Replaces what is there, which must have the print `before`, by what was staged, in one change, and answers what it has
    /// put in place. Each of its files fits its stamp.
    ///
    /// `Misfit` comes first, where a file doesn't fit its stamp: a staged one, where the site tells its content; else one as it
    /// was read back from where it is stored. Then `Changed` comes where what is there hasn't the print, and `Device` where the
    /// device failed in this call. After each of these, and where memory runs out, what is there is what it was.
    fn commit(
        &mut self,
        alloc: Global,
        before: &SubPrint<'_>,
        staged: Staged,
    ) -> Result<Snapshot<Staged>, SiteFault>
        ensures ok { IfOk result (λ put. Replaces (content self.old) (content self.new) before.now.rows put.value.made) }
        ensures put { IfOk result (λ put. IsPutFor (content self.old) staged put.value) }
        ensures misfit { RefusesMisfits (content self.old) staged (IsErrOf result SiteFault.Misfit) }
        ensures changed { IsErrOf result SiteFault.Changed → Differs (content self.old) before.now.rows }
        ensures device { IsErrOf result SiteFault.Device → failures self.old < failures self.new }
        ensures err { OnErr result (content self.new ≡ content self.old) };
}
