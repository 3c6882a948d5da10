//! The print of a folder, taken by several threads.
#![tactic(auto)]

pub mod fault;
mod file;
mod idle;
mod opened;
pub mod scanning;
mod walk;

pub use fault::{Refusal, ScanFault};
pub use scanning::{scan, scan_both};
