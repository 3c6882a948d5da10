//! Folders: what is listed and read, in memory and on a disk.
#![tactic(auto)]

pub mod disk;
pub mod fault;
pub mod faulty;
pub mod folder;
pub mod memory;
pub mod names;
mod packing;

pub use disk::DiskFolder;
pub use fault::{FolderFault, Trouble};
pub use faulty::{Failing, FaultyFolder};
pub use folder::{Call, Folder, Kind};
pub use memory::MemFolder;
pub use names::Names;
