//! Where pieces are stored until their commit takes them.
ghost use Rattle.std.specs.Prelude.{◌≡◌, IfErr, IfOk};

use crate::fault::StageFault;
use crate::piece::Piece;
use std::alloc::Global;
use ts_model::plan::Entry;
use ts_name::Path;

/// Stores what pieces read, for all workers at once, until their commit takes it.
pub trait Stage: Sync {
    // That its device may fail.
    ghost fails: { Self → Type 0 };

    /// Stores the bytes that the piece with this action's number has read: from the offset on, of the file at this whole path,
    /// which this entry of the plan, with its number, copies. Each piece is stored once.
    ///
    /// `Device` where the device failed.
    fn store(
        &self,
        alloc: Global,
        action: u32,
        number: u32,
        entry: &Entry,
        path: &Path,
        offset: u64,
        bytes: Vec<u8>,
    ) -> Result<Piece, StageFault>
        ensures bytes { IfOk result (λ piece. piece.bytes ≡ bytes.items) }
        ensures device { IfErr result (λ fault. fault ≡ StageFault.Device → fails self.now) };
}
