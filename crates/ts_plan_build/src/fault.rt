ghost use Rattle.std.specs.Prelude.{◌≡◌};
ghost use Rattle.ts_plan_build.specs.Faults.{number_of};
ghost use Rattle.ts_plan_build.specs.declared.fault.BuildFault.TheVariants.{OutOfMemory};

use std::alloc::{AllocError, AllocFailed};
use thiserror::Error;

/// Why there is no plan.
#[derive(Debug, Drop, Error)]
pub enum BuildFault {
    /// Memory ran out.
    #[error("out of memory")]
    OutOfMemory,
    /// More entries, actions or predecessors than a plan may have.
    #[error("a plan past a limit")]
    PastLimit,
}

impl BuildFault {
    /// The fault's number: 1 for memory, 12 for a limit.
    pub fn number(&self) -> u8
        ensures { result ≡ number_of self.now }
    {
        match self {
            BuildFault::OutOfMemory => 1,
            BuildFault::PastLimit => 12,
        }
    }
}

impl From<AllocError> for BuildFault {
    ghost from_gives = { λ _ e. e ≡ OutOfMemory };

    fn from(_: AllocError) -> Self {
        BuildFault::OutOfMemory
    }
}

impl<T: Drop> From<AllocFailed<T>> for BuildFault {
    ghost from_gives = { λ _ e. e ≡ OutOfMemory };

    fn from(_: AllocFailed<T>) -> Self {
        BuildFault::OutOfMemory
    }
}
