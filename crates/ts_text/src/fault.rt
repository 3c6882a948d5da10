ghost use Rattle.std.specs.Prelude.{◌≡◌};
ghost use Rattle.ts_text.specs.Faults.{fault_number};

use crate::source::Failed;
use std::alloc::AllocError;
use thiserror::Error;

/// Why a text can't be read or written.
#[derive(Clone, Copy, Debug, PartialEq, Eq, Error)]
pub enum TextFault {
    /// There is no memory for the buffer of a line.
    #[error("out of memory")]
    OutOfMemory,
    /// The reader or the writer failed.
    #[error("the reader or the writer failed")]
    Failed,
    /// A line is too long, or the last one has no line feed.
    #[error("not canonical")]
    NotCanonical,
}

impl TextFault {
    /// The fault's number, as the program tells it.
    pub fn number(&self) -> u8
        ensures { result ≡ fault_number self.now }
    {
        match self {
            TextFault::OutOfMemory => 1,
            TextFault::Failed => 5,
            TextFault::NotCanonical => 6,
        }
    }
}

impl From<AllocError> for TextFault {
    ghost use Rattle.std.specs.Prelude.{◌≡◌};
    ghost use Rattle.ts_text.specs.declared.fault.TextFault.TheVariants.{OutOfMemory};

    ghost from_gives = { λ _ e. e ≡ OutOfMemory };

    fn from(_e: AllocError) -> TextFault {
        TextFault::OutOfMemory
    }
}

impl From<Failed> for TextFault {
    ghost use Rattle.std.specs.Prelude.{◌≡◌};
    ghost use Rattle.ts_text.specs.declared.fault.TextFault.TheVariants.{Failed};

    ghost from_gives = { λ _ e. e ≡ Failed };

    fn from(_e: Failed) -> TextFault {
        TextFault::Failed
    }
}
