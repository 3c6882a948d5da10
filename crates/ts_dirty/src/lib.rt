//! Update detection: where each replica isn't as the archive says, and which paths are held.
#![tactic(auto)]

mod detection;
mod marks;

pub use detection::detect;
pub use marks::{Marked, Marks, Near};
