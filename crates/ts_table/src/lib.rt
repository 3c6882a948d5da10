//! Tables of paths: what is at each path of a tree or a print, in path order.
#![tactic(auto)]

mod copies;
mod edits;
mod fault;
mod frame;
mod join;
mod packing;
mod splice;
mod subtable;
mod table;

pub use copies::CopyFile;
pub use fault::TableFault;
pub use frame::Frame;
pub use packing::{PACKED_ROWS, pack_paths};
pub use splice::Edit;
pub use subtable::SubTable;
pub use table::Table;
