//! What the program does for each command.
#![tactic(auto)]

mod acting;
mod agreed;
mod answers;
mod causes;
mod counting;
mod decoding;
pub mod disk;
pub mod fault;
mod guarding;
mod inputs;
mod keeping;
mod lengths;
pub mod locks;
mod parts;
mod pending;
pub mod performing;
mod previewing;
mod reporting;
mod running;
mod skips;
mod snapshot;
mod spacing;
mod special;
pub mod streams;
mod task;

pub use disk::{Disk, Machine};
pub use fault::{OpenFault, PerformFault};
pub use locks::Locks;
pub use performing::{REFUSED, perform};
pub use reporting::FAILED;
pub use streams::{KeepsCause, SaysCause};
