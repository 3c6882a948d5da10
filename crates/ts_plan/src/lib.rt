//! Plans: their text, both ways.
#![tactic(auto)]

pub mod decoding;
pub mod encoding;
pub mod fault;
mod field;
mod fitting;
pub mod line;
pub mod progress;
pub mod text;

pub use decoding::decode;
pub use encoding::{encode, reason_word};
pub use fault::PlanFault;
pub use fitting::fits;
pub use line::PlanLine;
pub use text::PlanReader;
