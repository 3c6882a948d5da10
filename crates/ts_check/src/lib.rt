//! Says of a plan whether it is valid for a snapshot, or which rule it breaks first and where.
#![tactic(auto)]

mod census;
mod checked;
mod entries;
mod fault;
mod finding;
mod kinds;
mod limits;
mod lists;
mod order;
mod piece_lists;
mod pieces;
mod rules;
mod safety;
mod standing;
mod successors;
mod waiting;

pub use checked::Checked;
pub use fault::CheckFault;
pub use rules::check;
