//! Calls with ample memory of ts_tree, ts_print, ts_stage, ts_scan, ts_disk, ts_through and ts_trial. A crate is proved a
//! second time with its tests, so those that need nothing private of a library stand here.
#![tactic(auto)]

#[cfg(test)]
mod carried;
#[cfg(test)]
mod disks;
#[cfg(test)]
mod known;
#[cfg(test)]
mod parts;
#[cfg(test)]
mod prints;
#[cfg(test)]
mod scans;
#[cfg(test)]
mod shared;
#[cfg(test)]
mod stages;
#[cfg(test)]
mod staging;
#[cfg(test)]
mod stamped;
#[cfg(test)]
mod stopped;
#[cfg(test)]
mod trees;
#[cfg(test)]
mod trials;
