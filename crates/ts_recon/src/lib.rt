//! Reconciliation: which paths need attention, and why.
#![tactic(auto)]

mod reason;
mod recon;

pub use recon::reasons;
