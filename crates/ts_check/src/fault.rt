ghost use Rattle.std.specs.Prelude.{◌≡◌};

use std::alloc::{AllocError, AllocFailed};
use thiserror::Error;
use ts_model::plan::PlanRule;

/// Why a plan wasn't accepted.
#[derive(Clone, Copy, Debug, PartialEq, Eq, Drop, Error)]
pub enum CheckFault {
    /// Memory ran out.
    #[error("out of memory")]
    OutOfMemory,
    /// The first rule that the plan breaks, with the least place where it does.
    #[error("the plan breaks rule {rule:?} at {place}")]
    Broken { rule: PlanRule, place: u64 },
}

impl CheckFault {
    ghost use Rattle.ts_check.specs.Verdict.{fault_number};

    /// The fault's number: 1 for out of memory, 13 for a broken plan.
    pub fn number(&self) -> u8
        ensures { result ≡ fault_number self.now }
    {
        match self {
            CheckFault::OutOfMemory => 1,
            CheckFault::Broken { .. } => 13,
        }
    }
}

impl From<AllocError> for CheckFault {
    ghost use Rattle.ts_check.specs.declared.fault.CheckFault.TheVariants.{OutOfMemory};

    ghost from_gives = { λ _ e. e ≡ OutOfMemory };

    fn from(_fault: AllocError) -> CheckFault {
        CheckFault::OutOfMemory
    }
}

impl<T: Drop> From<AllocFailed<T>> for CheckFault {
    ghost use Rattle.ts_check.specs.declared.fault.CheckFault.TheVariants.{OutOfMemory};

    ghost from_gives = { λ _ e. e ≡ OutOfMemory };

    fn from(_fault: AllocFailed<T>) -> CheckFault {
        CheckFault::OutOfMemory
    }
}
