//! Why a commit is refused.
ghost use Rattle.std.specs.Prelude.{◌≡◌};
ghost use Rattle.ts_site.specs.Faults.{fault_number};

use thiserror::Error;

/// Why a commit is refused. What is at the site stays as it was.
#[derive(Clone, Copy, Debug, PartialEq, Eq, Error)]
pub enum SiteFault {
    /// Memory ran out.
    #[error("out of memory")]
    OutOfMemory,
    /// The device failed.
    #[error("the device failed")]
    Device,
    /// What is at the site hasn't the print that the plan was checked for.
    #[error("the target has changed")]
    Changed,
    /// A staged file hasn't the size or the digest that its stamp says.
    #[error("staged bytes don't fit their stamp")]
    Misfit,
}

impl SiteFault {
    /// The number that the fault is reported by: 1 for memory, 8 for the device, 14 for a changed target, 15 for bytes that
    /// don't fit.
    pub fn number(&self) -> u8
        ensures { result ≡ fault_number self.now }
    {
        match self {
            SiteFault::OutOfMemory => 1,
            SiteFault::Device => 8,
            SiteFault::Changed => 14,
            SiteFault::Misfit => 15,
        }
    }
}
