//! Why a folder has no print.
ghost use Rattle.std.specs.Prelude.{◌≡◌, ◌⊎◌};
ghost use Rattle.std.specs.Option.{option_copied};
ghost use Rattle.ts_scan.specs.Faults.{fault_number, place_of, refusal_number, Tells};
ghost use Rattle.ts_scan.specs.declared.fault.ScanFault.TheVariants as fault;

use std::alloc::{AllocError, AllocFailed, Global};
use thiserror::Error;
use ts_folder::FolderFault;
use ts_name::Path;

/// What is wrong at a path.
#[derive(Clone, Copy, Debug, PartialEq, Eq, Drop, Error)]
pub enum Refusal {
    /// Something in this directory has a path of more than 64 names, or with names of more than 4,096 bytes in all.
    #[error("a path is too long or too deep")]
    TooLong,
    /// The device failed.
    #[error("device failed")]
    Device,
    /// What was listed is not there any more.
    #[error("not there")]
    NotThere,
    /// What is there is neither a directory nor a file, has a name that isn't lawful, can't be listed, or is a file of
    /// 2^64 bytes or more.
    #[error("neither a directory nor a file, not to be listed, or too long")]
    Unreadable,
}

impl Refusal {
    /// The number by which the program tells the fault.
    pub fn number(&self) -> u8
        ensures { result ≡ refusal_number self.now }
    {
        match self {
            Refusal::TooLong => 4,
            Refusal::Device => 8,
            Refusal::NotThere => 9,
            Refusal::Unreadable => 10,
        }
    }
}

/// Why a folder has no print.
#[derive(Debug, Drop, Error)]
pub enum ScanFault {
    /// Memory ran out.
    #[error("out of memory")]
    OutOfMemory,
    /// A path can't be scanned.
    #[error("{fault}")]
    At { path: Path, fault: Refusal },
}

impl ScanFault {
    /// The number by which the program tells the fault.
    pub fn number(&self) -> u8
        ensures { result ≡ fault_number self.now }
    {
        match self {
            ScanFault::OutOfMemory => 1,
            ScanFault::At { path: _, fault } => fault.number(),
        }
    }

    /// Where the fault is. Where memory runs out there is no path.
    pub fn path(&self) -> Option<&Path>
        ensures { option_copied result ≡ place_of self.now }
    {
        match self {
            ScanFault::OutOfMemory => None,
            ScanFault::At { path, fault: _ } => Some(path),
        }
    }
}

impl From<AllocError> for ScanFault {
    ghost from_gives = { λ _ e. e ≡ fault.OutOfMemory };

    fn from(_e: AllocError) -> ScanFault {
        ScanFault::OutOfMemory
    }
}

impl<T: Drop> From<AllocFailed<T>> for ScanFault {
    ghost from_gives = { λ _ e. e ≡ fault.OutOfMemory };

    fn from(_e: AllocFailed<T>) -> ScanFault {
        ScanFault::OutOfMemory
    }
}

/// A refusal at a path.
pub(crate) fn refused(alloc: Global, path: &Path, fault: Refusal) -> ScanFault
    ensures { (result ≡ ScanFault.OutOfMemory) ⊎ (result ≡ ScanFault.At path.now fault) }
{
    match path.copy(alloc) {
        Ok(path) => ScanFault::At { path, fault },
        Err(_) => ScanFault::OutOfMemory,
    }
}

/// What a folder's fault at a path is reported as.
pub(crate) fn told(alloc: Global, path: &Path, fault: FolderFault) -> ScanFault
    ensures { Tells path.now fault result }
{
    match fault {
        FolderFault::OutOfMemory => ScanFault::OutOfMemory,
        FolderFault::Device => refused(alloc, path, Refusal::Device),
        FolderFault::NotThere => refused(alloc, path, Refusal::NotThere),
        FolderFault::Unreadable => refused(alloc, path, Refusal::Unreadable),
    }
}
