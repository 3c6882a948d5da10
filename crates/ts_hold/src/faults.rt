//! Why there are no rules.
ghost use Rattle.std.specs.Prelude.{◌≡◌};
ghost use Rattle.ts_hold.specs.Faults.{fault_number};
ghost use Rattle.ts_hold.specs.declared.faults.HoldFault.TheVariants.{OutOfMemory};

use std::alloc::{AllocError, AllocFailed};
use thiserror::Error;

/// Why a text gives no rules.
#[derive(Debug, Drop, Error)]
pub enum HoldFault {
    /// Memory ran out.
    #[error("out of memory")]
    OutOfMemory,
    /// The line spells no rule, isn't ended by a line feed, or comes after the 4,096th. Lines count from 1.
    #[error("bad hold rule on line {line}")]
    BadRule { line: u64 },
}

impl HoldFault {
    /// The number that the fault is reported by.
    pub fn number(&self) -> u8
        ensures { result ≡ fault_number self.now }
    {
        match self {
            HoldFault::OutOfMemory => 1,
            HoldFault::BadRule { .. } => 11,
        }
    }
}

impl From<AllocError> for HoldFault {
    ghost from_gives = { λ _ e. e ≡ OutOfMemory };

    fn from(_e: AllocError) -> HoldFault {
        HoldFault::OutOfMemory
    }
}

impl<T: Drop> From<AllocFailed<T>> for HoldFault {
    ghost from_gives = { λ _ e. e ≡ OutOfMemory };

    fn from(_e: AllocFailed<T>) -> HoldFault {
        HoldFault::OutOfMemory
    }
}
