//! Why a table can't be changed.
ghost use Rattle.std.specs.Prelude.{◌≡◌};
ghost use Rattle.ts_table.specs.Faults.{fault_number};
ghost use Rattle.ts_table.specs.declared.fault.TableFault.TheVariants as fault;

use std::alloc::{AllocError, AllocFailed};
use thiserror::Error;

/// Why a table can't be changed.
#[derive(Debug, Drop, Error)]
pub enum TableFault {
    /// Memory ran out.
    #[error("out of memory")]
    OutOfMemory,
    /// A path would have more than 64 names, or names of more than 4,096 bytes in all.
    #[error("path too long or too deep")]
    TooLong,
}

impl TableFault {
    /// The number that the fault is reported by.
    pub fn number(&self) -> u8
        ensures { result ≡ fault_number self.now }
    {
        match self {
            TableFault::OutOfMemory => 1,
            TableFault::TooLong => 4,
        }
    }
}

impl From<AllocError> for TableFault {
    ghost from_gives = { λ _ e. e ≡ fault.OutOfMemory };

    fn from(_e: AllocError) -> TableFault {
        TableFault::OutOfMemory
    }
}

impl<T: Drop> From<AllocFailed<T>> for TableFault {
    ghost from_gives = { λ _ e. e ≡ fault.OutOfMemory };

    fn from(_e: AllocFailed<T>) -> TableFault {
        TableFault::OutOfMemory
    }
}
