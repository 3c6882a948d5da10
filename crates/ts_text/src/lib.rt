//! Canonical lines: readers and writers of bytes, the lines of a text, and the fields of a line.
#![tactic(auto)]

pub mod counted;
pub mod fault;
pub mod field;
pub mod lines;
pub mod source;
pub mod state;
mod window;
pub mod write;

pub use counted::Counted;
pub use fault::TextFault;
pub use field::{field_dec, field_digest, push_decimal, push_digest, push_word, split_word};
pub use lines::Lines;
pub use source::{Failed, Sink, Source};
pub use state::State;
pub use write::{write_all, write_line};
