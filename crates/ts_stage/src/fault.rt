//! Why a piece isn't stored.
ghost use Rattle.std.specs.Prelude.{◌≡◌};
ghost use Rattle.ts_stage.specs.Faults.{fault_number};

use thiserror::Error;

/// Why a piece isn't stored.
#[derive(Clone, Copy, Debug, PartialEq, Eq, Drop, Error)]
pub enum StageFault {
    /// Memory ran out.
    #[error("out of memory")]
    OutOfMemory,
    /// The device failed.
    #[error("the device failed")]
    Device,
}

impl StageFault {
    /// The number that the fault is reported by: 1 for memory, 8 for the device.
    pub fn number(&self) -> u8
        ensures { result ≡ fault_number self.now }
    {
        match self {
            StageFault::OutOfMemory => 1,
            StageFault::Device => 8,
        }
    }
}
