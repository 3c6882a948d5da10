ghost use Rattle.std.specs.Prelude.{◌≡◌};
ghost use Rattle.ts_print.specs.Faults.{fault_number};

use std::alloc::{AllocError, AllocFailed};
use thiserror::Error;
use ts_table::TableFault;
use ts_text::TextFault;
use ts_tree::TreeFault;

/// Why a call on prints was refused.
#[derive(Clone, Copy, Debug, PartialEq, Eq, Error)]
pub enum PrintFault {
    #[error("out of memory")]
    OutOfMemory,
    #[error("a path would be too long or too deep")]
    TooLong,
    #[error("the reader or the writer failed")]
    Failed,
    #[error("not the text of a print")]
    NotCanonical,
}

impl PrintFault {
    /// The fault's number: 1 for memory, 4 for a path past a limit, 5 for a reader or writer, 6 for a text that isn't
    /// canonical.
    pub fn number(&self) -> u8
        ensures { result ≡ fault_number self.now }
    {
        match self {
            PrintFault::OutOfMemory => 1,
            PrintFault::TooLong => 4,
            PrintFault::Failed => 5,
            PrintFault::NotCanonical => 6,
        }
    }
}

impl From<AllocError> for PrintFault {
    ghost use Rattle.std.specs.Prelude.{◌≡◌};
    ghost use Rattle.ts_print.specs.declared.fault.PrintFault.TheVariants.{OutOfMemory};

    ghost from_gives = { λ _ e. e ≡ OutOfMemory };

    fn from(_fault: AllocError) -> PrintFault {
        PrintFault::OutOfMemory
    }
}

impl<T: Drop> From<AllocFailed<T>> for PrintFault {
    ghost use Rattle.std.specs.Prelude.{◌≡◌};
    ghost use Rattle.ts_print.specs.declared.fault.PrintFault.TheVariants.{OutOfMemory};

    ghost from_gives = { λ _ e. e ≡ OutOfMemory };

    fn from(_fault: AllocFailed<T>) -> PrintFault {
        PrintFault::OutOfMemory
    }
}

impl From<TableFault> for PrintFault {
    ghost use Rattle.std.specs.Prelude.{◌≡◌};
    ghost use Rattle.ts_print.specs.Faults.{fault_of_table};

    ghost from_gives = { λ t e. e ≡ fault_of_table t };

    fn from(fault: TableFault) -> PrintFault {
        match fault {
            TableFault::OutOfMemory => PrintFault::OutOfMemory,
            TableFault::TooLong => PrintFault::TooLong,
        }
    }
}

impl From<TextFault> for PrintFault {
    ghost use Rattle.std.specs.Prelude.{◌≡◌};
    ghost use Rattle.ts_print.specs.Decoding.{fault_of_text};

    ghost from_gives = { λ t e. e ≡ fault_of_text t };

    fn from(fault: TextFault) -> PrintFault {
        match fault {
            TextFault::OutOfMemory => PrintFault::OutOfMemory,
            TextFault::Failed => PrintFault::Failed,
            TextFault::NotCanonical => PrintFault::NotCanonical,
        }
    }
}

impl From<TreeFault> for PrintFault {
    ghost use Rattle.std.specs.Prelude.{◌≡◌};
    ghost use Rattle.ts_print.specs.Decoding.{fault_of_tree};

    ghost from_gives = { λ t e. e ≡ fault_of_tree t };

    fn from(fault: TreeFault) -> PrintFault {
        match fault {
            TreeFault::OutOfMemory => PrintFault::OutOfMemory,
            TreeFault::TooLong => PrintFault::TooLong,
            TreeFault::Failed => PrintFault::Failed,
            TreeFault::NotCanonical => PrintFault::NotCanonical,
        }
    }
}
