ghost use Rattle.std.specs.Prelude.{◌≡◌};
ghost use Rattle.ts_trial.specs.Faults.{fault_number};

use std::alloc::{AllocError, AllocFailed};
use thiserror::Error;

/// Why `trial` ended without an answer.
#[derive(Clone, Copy, Debug, PartialEq, Eq, Error)]
pub enum TrialFault {
    /// Memory ran out.
    #[error("out of memory")]
    OutOfMemory,
    /// The reader or the writer failed.
    #[error("the reader or the writer failed")]
    Failed,
}

impl TrialFault {
    /// The fault's number: 1 for memory, 5 for the reader or the writer.
    pub fn number(&self) -> u8
        ensures { result ≡ fault_number self.now }
    {
        match self {
            TrialFault::OutOfMemory => 1,
            TrialFault::Failed => 5,
        }
    }
}

impl From<AllocError> for TrialFault {
    ghost use Rattle.std.specs.Prelude.{◌≡◌};
    ghost use Rattle.ts_trial.specs.declared.fault.TrialFault.TheVariants.{OutOfMemory};

    ghost from_gives = { λ _ e. e ≡ OutOfMemory };

    fn from(_fault: AllocError) -> TrialFault {
        TrialFault::OutOfMemory
    }
}

impl<T: Drop> From<AllocFailed<T>> for TrialFault {
    ghost use Rattle.std.specs.Prelude.{◌≡◌};
    ghost use Rattle.ts_trial.specs.declared.fault.TrialFault.TheVariants.{OutOfMemory};

    ghost from_gives = { λ _ e. e ≡ OutOfMemory };

    fn from(_fault: AllocFailed<T>) -> TrialFault {
        TrialFault::OutOfMemory
    }
}
