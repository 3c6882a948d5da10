//! The archive file: a print, with its count of lines and its digest at the end.
#![tactic(auto)]

pub mod decoding;
pub mod encoding;
pub mod ending;
pub mod fault;

pub use decoding::decode;
pub use encoding::encode;
pub use fault::ArchiveFault;
