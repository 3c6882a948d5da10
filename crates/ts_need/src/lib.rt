//! Says of entries whether they are just the paths that need attention, each with its reason, or which rule they break first and where.
#![tactic(auto)]

pub mod broken;
mod differences;
mod reasons;
mod rules;
pub mod state;

pub use broken::Broken;
pub use rules::first_wrong;
