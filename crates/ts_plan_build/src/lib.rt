//! Plans: what is to be done about the paths that need attention, or about what is there now.
#![tactic(auto)]

mod block;
mod builder;
mod fault;
mod resuming;

pub use builder::build;
pub use fault::BuildFault;
pub use resuming::resume;
