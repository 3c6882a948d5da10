//! Hold rules: which paths they name, and their text.
#![tactic(auto)]

mod faults;
mod holds;
mod index;
mod keys;
pub mod laws;
mod lines;
mod order;
mod pattern;
mod reader;
mod symbols;
mod windows;
mod write;

pub use faults::HoldFault;
pub use holds::Holds;
pub use reader::RuleReader;
