//! Why a command ends without its answer: by number, and in words.
#![tactic(auto)]

mod fault;
mod lines;
mod pieces;
mod rules;
mod sentence;
mod skipped;
mod subject;

pub use fault::PerformFault;
pub use lines::{push_fault, write_explained, write_fault, write_sentence};
pub use pieces::{Piece, push_pieces};
pub use sentence::{push_pending, push_sentence};
pub use skipped::{Skip, Skipped, push_skip};
pub use subject::{Subject, Why};
