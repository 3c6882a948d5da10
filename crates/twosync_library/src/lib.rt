//! What a program of one's own can call of `twosync`: `trial` answers a bundle, `command` reads the words of a command line,
//! `perform` does what a command asks for, and `resume` makes a plan for an archive, two replicas' prints and hold rules. What
//! `perform` reads and writes has to say why it failed (`SaysCause`), as a reader or a writer within `KeepsCause` does. The parts
//! that these are made of are crates of their own.
#![tactic(auto)]

pub use ts_command::{Command, CommandFault, Job, Pair, command};
pub use ts_perform::{Disk, FAILED, KeepsCause, Machine, REFUSED, SaysCause, perform};
pub use ts_plan_build::{BuildFault, resume};
pub use ts_trial::{TrialFault, trial};
