//! Why a folder doesn't answer.
ghost use Rattle.std.specs.Prelude.{◌≡◌};
ghost use Rattle.ts_folder.specs.Faults.{fault_number, fault_of_trouble};
ghost use Rattle.ts_folder.specs.declared.fault.FolderFault.TheVariants as fault;

use std::alloc::{AllocError, AllocFailed};
use thiserror::Error;

/// Why a folder doesn't answer.
#[derive(Clone, Copy, Debug, PartialEq, Eq, Drop, Error)]
pub enum FolderFault {
    /// Memory ran out.
    #[error("out of memory")]
    OutOfMemory,
    /// The device failed.
    #[error("device failed")]
    Device,
    /// No directory is there to be listed, or no file to be read.
    #[error("not there")]
    NotThere,
    /// What is there is neither a directory nor a file, has a name that isn't lawful, or is a directory that can't be
    /// listed.
    #[error("neither a directory nor a file, or not to be listed")]
    Unreadable,
}

/// What a folder may fail with by itself, whatever it holds.
#[derive(Clone, Copy, Debug, PartialEq, Eq, Drop)]
pub enum Trouble {
    /// The device failed.
    Device,
    /// What is there can't be listed, or is neither a directory nor a file.
    Unreadable,
}

impl FolderFault {
    /// The number that the fault is reported by.
    pub fn number(&self) -> u8
        ensures { result ≡ fault_number self.now }
    {
        match self {
            FolderFault::OutOfMemory => 1,
            FolderFault::Device => 8,
            FolderFault::NotThere => 9,
            FolderFault::Unreadable => 10,
        }
    }
}

impl From<Trouble> for FolderFault {
    ghost from_gives = { λ t e. e ≡ fault_of_trouble t };

    fn from(trouble: Trouble) -> FolderFault {
        match trouble {
            Trouble::Device => FolderFault::Device,
            Trouble::Unreadable => FolderFault::Unreadable,
        }
    }
}

impl From<AllocError> for FolderFault {
    ghost from_gives = { λ _ e. e ≡ fault.OutOfMemory };

    fn from(_e: AllocError) -> FolderFault {
        FolderFault::OutOfMemory
    }
}

impl<T: Drop> From<AllocFailed<T>> for FolderFault {
    ghost from_gives = { λ _ e. e ≡ fault.OutOfMemory };

    fn from(_e: AllocFailed<T>) -> FolderFault {
        FolderFault::OutOfMemory
    }
}
