//! The words of a plan's actions, shared by threads: each call is one step of one legal history.
#![tactic(auto)]

mod archive;
pub mod board;
pub mod calls;
mod checkpoint;
pub mod fault;
pub mod law;
mod marks;
mod open;
mod placing;

pub use board::{Board, Closed, Held, Pass};
pub use fault::OpenFault;
pub use open::{FirstWords, Opening};
