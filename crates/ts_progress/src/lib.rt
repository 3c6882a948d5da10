//! The line that says how far a command is.
#![tactic(auto)]

mod folder;
mod line;
mod meter;
mod numbers;
mod screen;

pub use folder::CountingFolder;
pub use line::{Amount, Phase};
pub use meter::{Meter, Progress};
pub use screen::Screen;
