//! Why a replica on a disk can't be worked on.
ghost use Rattle.std.specs.Prelude.{◌≡◌};
ghost use Rattle.ts_cause.specs.Causes.{IsCauseOf};
ghost use Rattle.ts_cause.specs.declared.cause.Cause.{Cause};
ghost use Rattle.ts_disk.specs.Faults.{fault_number};

use std::alloc::{AllocError, AllocFailed};
use std::io;
use std::io::Write;
use thiserror::Error;
use ts_cause::{Cause, cause_of};

/// Why a replica on a disk can't be worked on, and why the system's call failed, where one did.
#[derive(Clone, Copy, Debug, PartialEq, Eq, Error)]
pub enum DiskFault {
    /// Memory ran out.
    #[error("out of memory")]
    OutOfMemory,
    /// A file can't be opened, read or written.
    #[error("a file can't be opened, read or written")]
    Failed { cause: Cause },
    /// A file can't be read.
    #[error("a file can't be read")]
    Unread { cause: Cause },
    /// The device failed, so a swap can't be brought to its end.
    #[error("the device failed")]
    Device { cause: Cause },
    /// Another run works on this replica.
    #[error("another run works on this replica")]
    Locked,
    /// The program's own directory in the replica, `.twosync`, can't be made or used, as where it belongs to another user.
    #[error("the replica's .twosync can't be made or used")]
    Own { cause: Cause },
    /// The file that says which archives the replica belongs to, `.twosync/archives`, isn't one that this program writes.
    #[error("the replica's .twosync/archives isn't what twosync writes")]
    Archives,
}

impl DiskFault {
    /// The number that the fault is reported by: 1 for memory, 5 for a file, for `.twosync` and for a file in it, 8 for the device and for a
    /// replica that another run works on.
    pub fn number(&self) -> u8
        ensures { result ≡ fault_number self.now }
    {
        match self {
            DiskFault::OutOfMemory => 1,
            DiskFault::Failed { .. } | DiskFault::Unread { .. } | DiskFault::Own { .. } => 5,
            DiskFault::Archives => 5,
            DiskFault::Device { .. } | DiskFault::Locked => 8,
        }
    }
}

/// That a file can't be opened, read or written, as a call failed with this error.
pub(crate) fn failed(e: io::Error) -> DiskFault
    ensures { (cause : Cause) × IsCauseOf e cause × (result ≡ DiskFault.Failed cause) }
{
    DiskFault::Failed {
        cause: cause_of(&e),
    }
}

/// That a file can't be read, as a call failed with this error.
pub(crate) fn unread(e: io::Error) -> DiskFault
    ensures { (cause : Cause) × IsCauseOf e cause × (result ≡ DiskFault.Unread cause) }
{
    DiskFault::Unread {
        cause: cause_of(&e),
    }
}

/// That a file can't be opened or used, for no reason of the system.
pub(crate) fn unusable() -> DiskFault
    ensures { result ≡ DiskFault.Failed Cause.Unknown }
{
    DiskFault::Failed {
        cause: Cause::Unknown,
    }
}

/// That a file can't be written. A sink doesn't keep why, so what is left in its buffer is written once more.
pub(crate) fn unwritten<W: Write>(out: &mut W) -> DiskFault
    ensures { (cause : Cause) × (result ≡ DiskFault.Failed cause) }
{
    match out.flush() {
        Ok(()) => unusable(),
        Err(e) => failed(e),
    }
}

/// That the device failed, as a call failed with this error.
pub(crate) fn device_failed(e: io::Error) -> DiskFault
    ensures { (cause : Cause) × IsCauseOf e cause × (result ≡ DiskFault.Device cause) }
{
    DiskFault::Device {
        cause: cause_of(&e),
    }
}

/// That `.twosync` can't be made or used, as a call failed with this error.
pub(crate) fn own_failed(e: io::Error) -> DiskFault
    ensures { (cause : Cause) × IsCauseOf e cause × (result ≡ DiskFault.Own cause) }
{
    DiskFault::Own {
        cause: cause_of(&e),
    }
}

impl From<AllocError> for DiskFault {
    ghost use Rattle.std.specs.Prelude.{◌≡◌};
    ghost use Rattle.ts_disk.specs.declared.fault.DiskFault.TheVariants.{OutOfMemory};

    ghost from_gives = { λ _ e. e ≡ OutOfMemory };

    fn from(_e: AllocError) -> DiskFault {
        DiskFault::OutOfMemory
    }
}

impl<T: Drop> From<AllocFailed<T>> for DiskFault {
    ghost use Rattle.std.specs.Prelude.{◌≡◌};
    ghost use Rattle.ts_disk.specs.declared.fault.DiskFault.TheVariants.{OutOfMemory};

    ghost from_gives = { λ _ e. e ≡ OutOfMemory };

    fn from(_e: AllocFailed<T>) -> DiskFault {
        DiskFault::OutOfMemory
    }
}
