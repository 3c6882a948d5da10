//! Bundles: an archive, two replicas, hold rules and a plan as one text.
#![tactic(auto)]

pub mod bundle;
pub mod decoding;
pub mod fault;
pub mod reader;
pub mod results;

pub use bundle::Bundle;
pub use decoding::decode;
pub use fault::BundleFault;
pub use reader::BundleReader;
pub use results::{count_skipped, write_result};
