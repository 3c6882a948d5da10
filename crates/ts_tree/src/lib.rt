//! Trees of directories and files with their bytes, and their text.
#![tactic(auto)]

pub mod data;
pub mod decoding;
pub mod encoding;
pub mod fault;
pub mod field;
mod frame;
pub mod reader;
mod subtree;
pub mod tree;

pub use decoding::decode;
pub use encoding::{encode, write_row};
pub use fault::TreeFault;
pub use frame::Frame;
pub use reader::TreeReader;
pub use subtree::SubTree;
pub use tree::{Node, Tree};
