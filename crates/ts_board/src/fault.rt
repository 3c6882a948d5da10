//! Why a board isn't opened.
ghost use Rattle.std.specs.Prelude.{◌≡◌};

use thiserror::Error;

/// Why a board isn't opened. Nothing was done with the sites.
#[derive(Clone, Copy, Debug, PartialEq, Eq, Error)]
pub enum OpenFault {
    /// Memory ran out.
    #[error("out of memory")]
    OutOfMemory,
}

impl OpenFault {
    /// The number that the fault is reported by.
    pub fn number(&self) -> u8
        ensures { result ≡ 1 }
    {
        match self {
            OpenFault::OutOfMemory => 1,
        }
    }
}
