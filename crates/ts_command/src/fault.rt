//! Why words are no command.
ghost use Rattle.std.specs.Prelude.{◌≡◌};
ghost use Rattle.ts_command.specs.Faults.{fault_number};

use std::alloc::{AllocError, AllocFailed};
use thiserror::Error;

/// Why no command was read from the words.
#[derive(Debug, Drop, Error)]
pub enum CommandFault {
    /// Memory ran out.
    #[error("out of memory")]
    OutOfMemory,
    /// The words are no command. The message says what is wrong with them.
    #[error("{message}")]
    Usage { message: clap::Error },
}

impl CommandFault {
    /// The fault's number: 1 for memory, 16 for words that are no command.
    pub fn number(&self) -> u8
        ensures { result ≡ fault_number self.now }
    {
        match self {
            CommandFault::OutOfMemory => 1,
            CommandFault::Usage { .. } => 16,
        }
    }
}

impl From<AllocError> for CommandFault {
    ghost use Rattle.std.specs.Prelude.{◌≡◌};
    ghost use Rattle.ts_command.specs.declared.fault.CommandFault.TheVariants.{OutOfMemory};

    ghost from_gives = { λ _ e. e ≡ OutOfMemory };

    fn from(_fault: AllocError) -> CommandFault {
        CommandFault::OutOfMemory
    }
}

impl<T: Drop> From<AllocFailed<T>> for CommandFault {
    ghost use Rattle.std.specs.Prelude.{◌≡◌};
    ghost use Rattle.ts_command.specs.declared.fault.CommandFault.TheVariants.{OutOfMemory};

    ghost from_gives = { λ _ e. e ≡ OutOfMemory };

    fn from(_fault: AllocFailed<T>) -> CommandFault {
        CommandFault::OutOfMemory
    }
}
