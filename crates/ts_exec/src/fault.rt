//! Why an action fails, and why nothing is run.
ghost use Rattle.std.specs.Prelude.{◌≡◌};
ghost use Rattle.ts_exec.specs.Faults.{fault_number, of_folder, of_site, of_stage};

use thiserror::Error;
use ts_folder::FolderFault;
use ts_site::SiteFault;
use ts_stage::StageFault;

/// Why an action failed. A piece fails by its folder or its stage, a commit by its site, or either because memory ran out.
#[derive(Clone, Copy, Debug, PartialEq, Eq, Drop, Error)]
pub enum ActFault {
    /// Memory ran out.
    #[error("out of memory")]
    OutOfMemory,
    /// The device of the folder, the stage or the site failed.
    #[error("the device failed")]
    Device,
    /// No file is there to be read.
    #[error("not there")]
    NotThere,
    /// What is there is no file that can be read.
    #[error("not to be read")]
    Unreadable,
    /// What is at the site hasn't the print that the plan was checked for.
    #[error("the target has changed")]
    Changed,
    /// A file ended before its piece did, or a staged file hasn't the size or the digest that its stamp says.
    #[error("bytes don't fit their stamp")]
    Misfit,
}

impl ActFault {
    /// The number that the fault is reported by: 1 for memory, 8 for a device, 9 for what isn't there, 10 for what can't be
    /// read, 14 for a changed target, 15 for bytes that don't fit.
    pub fn number(&self) -> u8
        ensures { result ≡ fault_number self.now }
    {
        match self {
            ActFault::OutOfMemory => 1,
            ActFault::Device => 8,
            ActFault::NotThere => 9,
            ActFault::Unreadable => 10,
            ActFault::Changed => 14,
            ActFault::Misfit => 15,
        }
    }
}

impl From<FolderFault> for ActFault {
    ghost from_gives = { λ e f. f ≡ of_folder e };

    fn from(fault: FolderFault) -> ActFault {
        match fault {
            FolderFault::OutOfMemory => ActFault::OutOfMemory,
            FolderFault::Device => ActFault::Device,
            FolderFault::NotThere => ActFault::NotThere,
            FolderFault::Unreadable => ActFault::Unreadable,
        }
    }
}

impl From<StageFault> for ActFault {
    ghost from_gives = { λ e f. f ≡ of_stage e };

    fn from(fault: StageFault) -> ActFault {
        match fault {
            StageFault::OutOfMemory => ActFault::OutOfMemory,
            StageFault::Device => ActFault::Device,
        }
    }
}

impl From<SiteFault> for ActFault {
    ghost from_gives = { λ e f. f ≡ of_site e };

    fn from(fault: SiteFault) -> ActFault {
        match fault {
            SiteFault::OutOfMemory => ActFault::OutOfMemory,
            SiteFault::Device => ActFault::Device,
            SiteFault::Changed => ActFault::Changed,
            SiteFault::Misfit => ActFault::Misfit,
        }
    }
}

/// Why nothing was run. The sites are as they were.
#[derive(Clone, Copy, Debug, PartialEq, Eq, Drop, Error)]
pub enum RunFault {
    /// Memory ran out.
    #[error("out of memory")]
    OutOfMemory,
}

impl RunFault {
    /// The number that the fault is reported by.
    pub fn number(&self) -> u8
        ensures { result ≡ 1 }
    {
        match self {
            RunFault::OutOfMemory => 1,
        }
    }
}
