ghost use Rattle.std.specs.Prelude.{◌≡◌};
ghost use Rattle.ts_tree.specs.Faults.{fault_number};

use std::alloc::{AllocError, AllocFailed};
use thiserror::Error;
use ts_table::TableFault;
use ts_text::TextFault;

/// Why a tree can't be read, written or changed.
#[derive(Clone, Copy, Debug, PartialEq, Eq, Error)]
pub enum TreeFault {
    /// Memory ran out.
    #[error("out of memory")]
    OutOfMemory,
    /// A path would be too long or too deep.
    #[error("a path is too long or too deep")]
    TooLong,
    /// The reader or the writer failed.
    #[error("the reader or the writer failed")]
    Failed,
    /// The text spells no tree.
    #[error("not canonical")]
    NotCanonical,
}

impl TreeFault {
    /// The number that the fault is reported by.
    pub fn number(&self) -> u8
        ensures { result ≡ fault_number self.now }
    {
        match self {
            TreeFault::OutOfMemory => 1,
            TreeFault::TooLong => 4,
            TreeFault::Failed => 5,
            TreeFault::NotCanonical => 6,
        }
    }
}

impl From<AllocError> for TreeFault {
    ghost use Rattle.std.specs.Prelude.{◌≡◌};
    ghost use Rattle.ts_tree.specs.declared.fault.TreeFault.TheVariants.{OutOfMemory};

    ghost from_gives = { λ _ e. e ≡ OutOfMemory };

    fn from(_e: AllocError) -> TreeFault {
        TreeFault::OutOfMemory
    }
}

impl<T: Drop> From<AllocFailed<T>> for TreeFault {
    ghost use Rattle.std.specs.Prelude.{◌≡◌};
    ghost use Rattle.ts_tree.specs.declared.fault.TreeFault.TheVariants.{OutOfMemory};

    ghost from_gives = { λ _ e. e ≡ OutOfMemory };

    fn from(_e: AllocFailed<T>) -> TreeFault {
        TreeFault::OutOfMemory
    }
}

impl From<TextFault> for TreeFault {
    ghost use Rattle.std.specs.Prelude.{◌≡◌};
    ghost use Rattle.ts_tree.specs.Decoding.{fault_of_text};

    ghost from_gives = { λ t e. e ≡ fault_of_text t };

    fn from(e: TextFault) -> TreeFault {
        match e {
            TextFault::OutOfMemory => TreeFault::OutOfMemory,
            TextFault::Failed => TreeFault::Failed,
            TextFault::NotCanonical => TreeFault::NotCanonical,
        }
    }
}

impl From<TableFault> for TreeFault {
    ghost use Rattle.std.specs.Prelude.{◌≡◌};
    ghost use Rattle.ts_tree.specs.Faults.{fault_of_table};

    ghost from_gives = { λ t e. e ≡ fault_of_table t };

    fn from(e: TableFault) -> TreeFault {
        match e {
            TableFault::OutOfMemory => TreeFault::OutOfMemory,
            TableFault::TooLong => TreeFault::TooLong,
        }
    }
}
