//! Replacing what lies at a place by two renames, and recovery after a stop in between.
#![tactic(auto)]

pub mod memory;
pub mod places;
pub mod state;
pub mod swap;

pub use memory::MemPlaces;
pub use places::{Failed, Places, Spot};
pub use state::State;
pub use swap::{move_in, recover, recover_stopped, replace};
