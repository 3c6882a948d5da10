//! A stage in memory.
ghost use Rattle.std.specs.Prelude.{◌≡◌, true, IfErr, IfOk, IsOk};

use crate::fault::StageFault;
use crate::piece::Piece;
use crate::stage::Stage;
use std::alloc::Global;
use ts_model::plan::Entry;
use ts_name::Path;

/// Keeps what pieces read in memory. It never fails.
#[derive(Clone, Copy, Debug, Drop)]
pub struct MemStage;

impl Stage for MemStage {
    ghost fails = { λ _. ⊥ };

    fn store(
        &self,
        _alloc: Global,
        _action: u32,
        _number: u32,
        _entry: &Entry,
        _path: &Path,
        _offset: u64,
        bytes: Vec<u8>,
    ) -> Result<Piece, StageFault>
        ensures stored { IsOk result }
        ensures bytes { IfOk result (λ piece. piece.bytes ≡ bytes.items) }
        ensures device { IfErr result (λ fault. fault ≡ StageFault.Device → ⊥) }
        ensures held { IfOk result (λ piece. piece.held ≡ true) }
    {
        Ok(Piece::held(bytes))
    }
}
