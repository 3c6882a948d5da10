//! What a plan would do, for people and for programs.
#![tactic(auto)]

mod change;
mod field;
mod json;
mod outlook;
mod padding;
mod people;
mod shown;
mod totals;
mod writing;

pub use change::{Change, change_between};
pub use outlook::{Outlook, State, outlook_of, outlooks};
pub use shown::push_shown;
pub use totals::{Totals, best_status};
pub use writing::{Form, write};
