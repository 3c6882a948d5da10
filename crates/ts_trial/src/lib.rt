//! `trial`: a bundle is read, its plan is checked and carried out, and the result is written.
#![tactic(auto)]

pub mod fault;
pub mod trials;

pub use fault::TrialFault;
pub use trials::trial;
