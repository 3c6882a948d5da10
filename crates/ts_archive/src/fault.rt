ghost use Rattle.std.specs.Prelude.{◌≡◌};
ghost use Rattle.ts_archive.specs.Faults.{IsOfReader, fault_number};
ghost use Rattle.ts_print.specs.Faults.{Refuses};

use std::alloc::{AllocError, AllocFailed};
use thiserror::Error;
use ts_print::PrintFault;
use ts_text::TextFault;

/// Why an archive file can't be read or written.
#[derive(Clone, Copy, Debug, PartialEq, Eq, Error)]
pub enum ArchiveFault {
    /// There is no memory.
    #[error("out of memory")]
    OutOfMemory,
    /// The reader or the writer failed.
    #[error("the reader or the writer failed")]
    Failed,
    /// The text spells no archive file.
    #[error("not canonical")]
    NotCanonical,
    /// The end line tells another count or another digest than the text before it has.
    #[error("the end line is wrong")]
    WrongEnd,
}

impl ArchiveFault {
    /// The fault's number, as the program tells it.
    pub fn number(&self) -> u8
        ensures { result ≡ fault_number self.now }
    {
        match self {
            ArchiveFault::OutOfMemory => 1,
            ArchiveFault::Failed => 5,
            ArchiveFault::NotCanonical => 6,
            ArchiveFault::WrongEnd => 7,
        }
    }
}

impl From<AllocError> for ArchiveFault {
    ghost use Rattle.std.specs.Prelude.{◌≡◌};
    ghost use Rattle.ts_archive.specs.declared.fault.ArchiveFault.TheVariants.{OutOfMemory};

    ghost from_gives = { λ _ e. e ≡ OutOfMemory };

    fn from(_fault: AllocError) -> ArchiveFault {
        ArchiveFault::OutOfMemory
    }
}

impl<T: Drop> From<AllocFailed<T>> for ArchiveFault {
    ghost use Rattle.std.specs.Prelude.{◌≡◌};
    ghost use Rattle.ts_archive.specs.declared.fault.ArchiveFault.TheVariants.{OutOfMemory};

    ghost from_gives = { λ _ e. e ≡ OutOfMemory };

    fn from(_fault: AllocFailed<T>) -> ArchiveFault {
        ArchiveFault::OutOfMemory
    }
}

impl From<TextFault> for ArchiveFault {
    ghost use Rattle.std.specs.Prelude.{◌≡◌};
    ghost use Rattle.ts_archive.specs.Faults.{fault_of_text};

    ghost from_gives = { λ t e. e ≡ fault_of_text t };

    fn from(fault: TextFault) -> ArchiveFault {
        match fault {
            TextFault::OutOfMemory => ArchiveFault::OutOfMemory,
            TextFault::Failed => ArchiveFault::Failed,
            TextFault::NotCanonical => ArchiveFault::NotCanonical,
        }
    }
}

/// The fault of a print's reader, which is given lines: it touches no device, and a path that is too long is no line of a print.
pub(crate) fn of_reader(fault: PrintFault) -> ArchiveFault
    requires { Refuses (Unit {0}) fault }
    ensures { IsOfReader fault result }
{
    match fault {
        PrintFault::OutOfMemory => ArchiveFault::OutOfMemory,
        PrintFault::NotCanonical => ArchiveFault::NotCanonical,
        PrintFault::TooLong | PrintFault::Failed => unreachable!(),
    }
}
