//! The commands of the program, and how they are read from its words.
#![tactic(auto)]

pub mod described;
mod draft;
pub mod fault;
pub mod job;
pub mod reading;

pub use fault::CommandFault;
pub use job::{Command, Job, Pair};
pub use reading::command;
