//! The locks of a run's replicas.
ghost use Rattle.std.specs.Prelude.{◌≡◌, IfErr};
ghost use Rattle.ts_perform.specs.Trials.{IsQuiet};

use crate::disk::Disk;
use crate::fault::{PerformFault, Subject};

/// The locks of both replicas, as far as these are there.
#[derive(Drop)]
pub struct Locks<'a, L> {
    pub first: &'a Option<L>,
    pub second: &'a Option<L>,
}

/// That both replicas are still there. One that went away, as where its disk was unmounted, may look empty, and what is then put
/// where it stood isn't in it.
pub(crate) fn look_at_locks<D: Disk>(
    disk: &D,
    locks: &Locks<'_, D::Lock>,
) -> Result<(), PerformFault>
    ensures quiet { IfErr result IsQuiet }
{
    let what = if !is_in_place(disk, locks.first) {
        Subject::First
    } else if !is_in_place(disk, locks.second) {
        Subject::Second
    } else {
        return Ok(());
    };
    Err(PerformFault::NotThere { what })
}

/// Whether a replica is still there, if it was locked.
fn is_in_place<D: Disk>(disk: &D, lock: &Option<D::Lock>) -> bool {
    match lock {
        Some(lock) => disk.is_in_place(lock),
        None => true,
    }
}
