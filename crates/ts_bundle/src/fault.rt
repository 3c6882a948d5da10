ghost use Rattle.std.specs.Prelude.{◌≡◌};
ghost use Rattle.ts_bundle.specs.Faults.{fault_number};

use std::alloc::{AllocError, AllocFailed};
use thiserror::Error;
use ts_hold::HoldFault;
use ts_plan::PlanFault;
use ts_print::PrintFault;
use ts_report::ReportFault;
use ts_text::TextFault;
use ts_tree::TreeFault;

/// Why a text gave no bundle, or a result wasn't written.
#[derive(Clone, Copy, Debug, PartialEq, Eq, Error)]
pub enum BundleFault {
    /// There is no memory.
    #[error("out of memory")]
    OutOfMemory,
    /// The reader or the writer failed.
    #[error("the reader or the writer failed")]
    Failed,
    /// The text is not that of a bundle.
    #[error("not the text of a bundle")]
    Malformed,
}

impl BundleFault {
    /// The fault's number, as the program tells it.
    pub fn number(&self) -> u8
        ensures { result ≡ fault_number self.now }
    {
        match self {
            BundleFault::OutOfMemory => 1,
            BundleFault::Failed => 5,
            BundleFault::Malformed => 17,
        }
    }
}

impl From<AllocError> for BundleFault {
    ghost use Rattle.std.specs.Prelude.{◌≡◌};
    ghost use Rattle.ts_bundle.specs.declared.fault.BundleFault.TheVariants.{OutOfMemory};

    ghost from_gives = { λ _ e. e ≡ OutOfMemory };

    fn from(_e: AllocError) -> BundleFault {
        BundleFault::OutOfMemory
    }
}

impl<T: Drop> From<AllocFailed<T>> for BundleFault {
    ghost use Rattle.std.specs.Prelude.{◌≡◌};
    ghost use Rattle.ts_bundle.specs.declared.fault.BundleFault.TheVariants.{OutOfMemory};

    ghost from_gives = { λ _ e. e ≡ OutOfMemory };

    fn from(_e: AllocFailed<T>) -> BundleFault {
        BundleFault::OutOfMemory
    }
}

impl From<TextFault> for BundleFault {
    ghost use Rattle.std.specs.Prelude.{◌≡◌};
    ghost use Rattle.ts_bundle.specs.Faults.{fault_of_text};

    ghost from_gives = { λ t e. e ≡ fault_of_text t };

    fn from(e: TextFault) -> BundleFault {
        match e {
            TextFault::OutOfMemory => BundleFault::OutOfMemory,
            TextFault::Failed => BundleFault::Failed,
            TextFault::NotCanonical => BundleFault::Malformed,
        }
    }
}

impl From<TreeFault> for BundleFault {
    ghost use Rattle.std.specs.Prelude.{◌≡◌};
    ghost use Rattle.ts_bundle.specs.Faults.{fault_of_tree};

    ghost from_gives = { λ t e. e ≡ fault_of_tree t };

    fn from(e: TreeFault) -> BundleFault {
        match e {
            TreeFault::OutOfMemory => BundleFault::OutOfMemory,
            TreeFault::Failed => BundleFault::Failed,
            TreeFault::TooLong | TreeFault::NotCanonical => BundleFault::Malformed,
        }
    }
}

impl From<PrintFault> for BundleFault {
    ghost use Rattle.std.specs.Prelude.{◌≡◌};
    ghost use Rattle.ts_bundle.specs.Faults.{fault_of_print};

    ghost from_gives = { λ t e. e ≡ fault_of_print t };

    fn from(e: PrintFault) -> BundleFault {
        match e {
            PrintFault::OutOfMemory => BundleFault::OutOfMemory,
            PrintFault::Failed => BundleFault::Failed,
            PrintFault::TooLong | PrintFault::NotCanonical => BundleFault::Malformed,
        }
    }
}

impl From<HoldFault> for BundleFault {
    ghost use Rattle.std.specs.Prelude.{◌≡◌};
    ghost use Rattle.ts_bundle.specs.Faults.{fault_of_rules};

    ghost from_gives = { λ t e. e ≡ fault_of_rules t };

    fn from(e: HoldFault) -> BundleFault {
        match e {
            HoldFault::OutOfMemory => BundleFault::OutOfMemory,
            HoldFault::BadRule { .. } => BundleFault::Malformed,
        }
    }
}

impl From<PlanFault> for BundleFault {
    ghost use Rattle.std.specs.Prelude.{◌≡◌};
    ghost use Rattle.ts_bundle.specs.Faults.{fault_of_plan};

    ghost from_gives = { λ t e. e ≡ fault_of_plan t };

    fn from(e: PlanFault) -> BundleFault {
        match e {
            PlanFault::OutOfMemory => BundleFault::OutOfMemory,
            PlanFault::Failed => BundleFault::Failed,
            PlanFault::NotCanonical | PlanFault::PastLimit => BundleFault::Malformed,
        }
    }
}

impl From<ReportFault> for BundleFault {
    ghost use Rattle.std.specs.Prelude.{◌≡◌};
    ghost use Rattle.ts_bundle.specs.Faults.{fault_of_report};

    ghost from_gives = { λ t e. e ≡ fault_of_report t };

    fn from(e: ReportFault) -> BundleFault {
        match e {
            ReportFault::OutOfMemory => BundleFault::OutOfMemory,
            ReportFault::Failed => BundleFault::Failed,
        }
    }
}
