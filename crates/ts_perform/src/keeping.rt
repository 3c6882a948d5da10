//! Archives that are written while a run goes on.
ghost use Rattle.std.specs.Prelude.{◌≡◌};

use crate::acting::replica;
use crate::disk::Disk;
use crate::fault::PerformFault;
use crate::locks::Locks;
use crate::task::Task;
use std::alloc::Global;
use ts_exec::Keeper;
use ts_model::plan::{Plan, Side};
use ts_name::Path;
use ts_print::Print;

/// Writes the archives of a run to their place, as long as both replicas are there.
#[derive(Drop)]
pub(crate) struct PlaceKeeper<'a, 'b, R: Disk> {
    pub task: &'a Task<'b, R>,
    pub locks: &'a Locks<'a, R::Lock>,
    pub place: &'a mut R::Archive,
    pub plan: &'a Plan,
}

impl<R: Disk + AllocGlobal> Keeper for PlaceKeeper<'_, '_, R> {
    ghost use Rattle.std.specs.Prelude.{None};

    ghost kept = { λ _. None };

    /// Writes an archive. Before it says so, all that the run may have put in place by now has reached its device, and so have the
    /// directories that it was copied from. Where that fails it is done without: the archive before it stands, and that of the whole
    /// run is still to come. So it is where a replica has gone away: what was done since may not have been done there.
    fn keep(&mut self, archive: Print) {
        let rt = self.task.rt;
        let alloc = rt.alloc();
        let Ok(paths) = paths_copied(alloc, self.plan) else {
            return;
        };
        for side in [Side::First, Side::Second] {
            let root = replica(self.task.pair, side).root;
            if rt.flush_alone(alloc, root, paths.as_slice()).is_err() {
                return;
            }
        }
        for lock in [self.locks.first, self.locks.second] {
            if let Some(lock) = lock
                && !rt.is_in_place(lock)
            {
                return;
            }
        }
        let _ = rt.write_checkpoint(alloc, self.place, &archive, self.locks);
    }
}

/// The paths of all entries that are copied: which of them are done isn't known here.
fn paths_copied(alloc: Global, plan: &Plan) -> Result<Vec<&Path>, PerformFault> {
    let mut paths = Vec::new(alloc);
    for entry in plan.entries.as_slice() {
        if entry.reason.source().is_some() {
            paths.push(&entry.path)?;
        }
    }
    Ok(paths)
}
