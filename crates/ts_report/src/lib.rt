//! The report of a run: what became of each entry of the plan.
#![tactic(auto)]

mod fate;
mod fault;
mod results;
mod writing;

pub use fate::Fate;
pub use fault::ReportFault;
pub use results::{Ending, Results};
pub use writing::{Totals, write, write_fates};
