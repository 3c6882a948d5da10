//! What pieces stage: where their bytes are kept until a commit puts them in place, and the assembly of a commit.
#![tactic(auto)]

pub mod fault;
pub mod file;
mod kept;
pub mod memory;
pub mod piece;
pub mod read_back;
mod seen;
pub mod stage;
pub mod staged;
pub mod told;

pub use fault::StageFault;
pub use file::StagedFile;
pub use memory::MemStage;
pub use piece::Piece;
pub use read_back::{ReadBack, Reading};
pub use stage::Stage;
pub use staged::Staged;
pub use told::Told;
