//! Why a report wasn't written.
ghost use Rattle.std.specs.Prelude.{◌≡◌};
ghost use Rattle.ts_report.specs.Faults.{fault_number};

use std::alloc::{AllocError, AllocFailed};
use thiserror::Error;

/// Why a report wasn't written. A beginning of it was.
#[derive(Clone, Copy, Debug, PartialEq, Eq, Error)]
pub enum ReportFault {
    /// There is no memory.
    #[error("out of memory")]
    OutOfMemory,
    /// The writer failed.
    #[error("the writer failed")]
    Failed,
}

impl ReportFault {
    /// The fault's number, as the program tells it: 1 for memory, 5 for the writer.
    pub fn number(&self) -> u8
        ensures { result ≡ fault_number self.now }
    {
        match self {
            ReportFault::OutOfMemory => 1,
            ReportFault::Failed => 5,
        }
    }
}

impl From<AllocError> for ReportFault {
    ghost use Rattle.std.specs.Prelude.{◌≡◌};
    ghost use Rattle.ts_report.specs.declared.fault.ReportFault.TheVariants.{OutOfMemory};

    ghost from_gives = { λ _ e. e ≡ OutOfMemory };

    fn from(_e: AllocError) -> ReportFault {
        ReportFault::OutOfMemory
    }
}

impl<T: Drop> From<AllocFailed<T>> for ReportFault {
    ghost use Rattle.std.specs.Prelude.{◌≡◌};
    ghost use Rattle.ts_report.specs.declared.fault.ReportFault.TheVariants.{OutOfMemory};

    ghost from_gives = { λ _ e. e ≡ OutOfMemory };

    fn from(_e: AllocFailed<T>) -> ReportFault {
        ReportFault::OutOfMemory
    }
}
