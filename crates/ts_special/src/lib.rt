//! Paths that can't be synchronized: where they are, and folders that show a stand-in for each.
#![tactic(auto)]

mod children;
pub mod holding;
mod looks;
pub mod naming;
pub mod searching;
pub mod specials;

pub use holding::{HoldingFolder, is_stand_in};
pub use naming::stand_in;
pub use searching::search;
pub use specials::{Specials, union};
