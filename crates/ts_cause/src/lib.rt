//! Why a call of the system failed, as far as people can do something about it.
#![tactic(auto)]

mod cause;

pub use cause::{Cause, cause_of};
