//! Replicas on a disk: the places of a swap, the sites of commits, recovery, the lock, and the files that commands write.
#![tactic(auto)]

mod archive;
mod aside;
mod compare;
mod digest;
mod fault;
mod flushing;
mod known;
mod known_file;
mod leftover;
mod listing;
mod lock;
mod look;
mod modes;
mod names;
mod notice;
mod place;
mod places;
mod plan_file;
mod recovery;
mod replacement;
mod replica;
mod site;
mod stage;
mod staging;

pub use archive::{ArchivePlace, claim_archive, knows_archive};
pub use fault::DiskFault;
pub use flushing::{flush_above, flush_above_alone, flush_paths};
pub use lock::{Lock, LockedRoot, take_lock};
pub use notice::{Notice, mount_above};
pub use places::DiskPlaces;
pub use plan_file::{remove_plan, save_plan, stopped_alike};
pub use recovery::{awaits_recovery, check_leftovers, clear_leftovers, recover_replica};
pub use replica::Replica;
pub use site::{DiskSite, Way};
pub use stage::{DiskStage, Part};
