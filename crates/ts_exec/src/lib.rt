//! The executor: a checked plan is carried out by many workers, and the outcome is that of one legal run.
#![tactic(auto)]

mod action_results;
mod acts;
mod crew;
mod crowd;
mod fault;
mod gate;
mod keeping;
mod outcome;
mod running;
mod shared;
mod stop;
mod sweep;
mod workers;

pub use action_results::ActionResults;
pub use fault::{ActFault, RunFault};
pub use gate::{Gate, OpenGate};
pub use keeping::Keeper;
pub use outcome::{ActionResult, Outcome, commit_count};
pub use running::{run, run_keeping, run_staging, run_until};
pub use stop::Stop;
