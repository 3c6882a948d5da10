ghost use Rattle.std.specs.Prelude.{◌≡◌};
ghost use Rattle.ts_plan.specs.Faults.{fault_number};

use std::alloc::{AllocError, AllocFailed};
use thiserror::Error;
use ts_text::TextFault;

/// Why a plan can't be read, written or built.
#[derive(Clone, Copy, Debug, PartialEq, Eq, Error)]
pub enum PlanFault {
    /// There is no memory.
    #[error("out of memory")]
    OutOfMemory,
    /// The reader or the writer failed.
    #[error("the reader or the writer failed")]
    Failed,
    /// The text isn't that of a plan.
    #[error("not canonical")]
    NotCanonical,
    /// There are more entries, actions or predecessors than a plan may have.
    #[error("the plan is past a limit")]
    PastLimit,
}

impl PlanFault {
    /// The fault's number, as the program tells it.
    pub fn number(&self) -> u8
        ensures { result ≡ fault_number self.now }
    {
        match self {
            PlanFault::OutOfMemory => 1,
            PlanFault::Failed => 5,
            PlanFault::NotCanonical => 6,
            PlanFault::PastLimit => 12,
        }
    }
}

impl From<AllocError> for PlanFault {
    ghost use Rattle.std.specs.Prelude.{◌≡◌};
    ghost use Rattle.ts_plan.specs.declared.fault.PlanFault.TheVariants.{OutOfMemory};

    ghost from_gives = { λ _ e. e ≡ OutOfMemory };

    fn from(_e: AllocError) -> PlanFault {
        PlanFault::OutOfMemory
    }
}

impl<T: Drop> From<AllocFailed<T>> for PlanFault {
    ghost use Rattle.std.specs.Prelude.{◌≡◌};
    ghost use Rattle.ts_plan.specs.declared.fault.PlanFault.TheVariants.{OutOfMemory};

    ghost from_gives = { λ _ e. e ≡ OutOfMemory };

    fn from(_e: AllocFailed<T>) -> PlanFault {
        PlanFault::OutOfMemory
    }
}

impl From<TextFault> for PlanFault {
    ghost use Rattle.std.specs.Prelude.{◌≡◌};
    ghost use Rattle.ts_plan.specs.Decoding.{fault_of_text};

    ghost from_gives = { λ t e. e ≡ fault_of_text t };

    fn from(fault: TextFault) -> PlanFault {
        match fault {
            TextFault::OutOfMemory => PlanFault::OutOfMemory,
            TextFault::Failed => PlanFault::Failed,
            TextFault::NotCanonical => PlanFault::NotCanonical,
        }
    }
}
