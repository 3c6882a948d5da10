//! Why there is no name or no path.
ghost use Rattle.std.specs.Prelude.{◌≡◌};
ghost use Rattle.ts_name.specs.Faults.{name_fault_number, path_fault_number};
ghost use Rattle.ts_name.specs.declared.faults.NameFault.TheVariants as name;
ghost use Rattle.ts_name.specs.declared.faults.PathFault.TheVariants as path;

use std::alloc::{AllocError, AllocFailed};
use thiserror::Error;

/// Why there is no name.
#[derive(Debug, Drop, Error)]
pub enum NameFault {
    /// Memory ran out.
    #[error("out of memory")]
    OutOfMemory,
    /// The bytes are no name: they are not UTF-8 of 1 to 255 bytes, hold `/` or a zero byte, or are `.`, `..` or
    /// `.twosync`.
    #[error("bad name")]
    BadName,
}

impl NameFault {
    /// The number that the fault is reported by.
    pub fn number(&self) -> u8
        ensures { result ≡ name_fault_number self.now }
    {
        match self {
            NameFault::OutOfMemory => 1,
            NameFault::BadName => 2,
        }
    }
}

impl From<AllocError> for NameFault {
    ghost from_gives = { λ _ e. e ≡ name.OutOfMemory };

    fn from(_e: AllocError) -> NameFault {
        NameFault::OutOfMemory
    }
}

/// Why there is no path.
#[derive(Debug, Drop, Error)]
pub enum PathFault {
    /// Memory ran out.
    #[error("out of memory")]
    OutOfMemory,
    /// The text spells names of which one is bad.
    #[error("bad name")]
    BadName,
    /// The text is not `/` before each of some names in their escaped form.
    #[error("bad text of a path")]
    BadText,
    /// More than 64 names, or names of more than 4,096 bytes in all.
    #[error("path too long or too deep")]
    TooLong,
}

impl PathFault {
    /// The number that the fault is reported by.
    pub fn number(&self) -> u8
        ensures { result ≡ path_fault_number self.now }
    {
        match self {
            PathFault::OutOfMemory => 1,
            PathFault::BadName => 2,
            PathFault::BadText => 3,
            PathFault::TooLong => 4,
        }
    }
}

impl From<AllocError> for PathFault {
    ghost from_gives = { λ _ e. e ≡ path.OutOfMemory };

    fn from(_e: AllocError) -> PathFault {
        PathFault::OutOfMemory
    }
}

impl<T: Drop> From<AllocFailed<T>> for PathFault {
    ghost from_gives = { λ _ e. e ≡ path.OutOfMemory };

    fn from(_e: AllocFailed<T>) -> PathFault {
        PathFault::OutOfMemory
    }
}
