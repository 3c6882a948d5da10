//! Carries a checked plan through, over trees in memory, by workers.
#![tactic(auto)]

mod carry;
mod cut;
mod join;
mod put;

pub use carry::{Carried, carry_through};
