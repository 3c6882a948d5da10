//! What one piece staged.
ghost use Rattle.std.specs.Prelude.{◌≡◌, true, false};
ghost use Rattle.ts_stage.specs.Keeping.{staging};
ghost use Rattle.ts_stage.specs.Stagings.{Staging};

use crate::kept::Kept;
use crate::read_back::ReadBack;
use crate::told::Told;
use std::marker::Model;
use ts_model::items::Items;

/// What one piece staged of its file: its bytes, in memory or stored elsewhere.
///
/// Of a stored file one piece, the last one that was stored, may have what was then read back of the whole file.
pub struct Piece {
    pub(crate) kept: Kept,
}

/// Written out, so that a proof of what drops one stays short.
impl Drop for Piece {
    fn drop(self) {
        let Piece { kept } = self;
        drop(kept);
    }
}

impl Model for Piece {
    ghost use Rattle.ts_stage.specs.Stagings.{Staging};

    ghost Value = { Staging };

    ghost use Rattle.ts_stage.specs.Keeping.{staging};

    ghost view = { λ s. staging s.kept };
}

impl Piece {
    /// These bytes, in memory.
    pub fn held(bytes: Vec<u8>) -> Piece
        ensures { result ≡ record { bytes = bytes.items; held = true } }
    {
        Piece {
            kept: Kept::Held(Items::new(bytes)),
        }
    }

    /// What stands in the place of a piece that was taken out. It takes no memory.
    pub(crate) fn nothing() -> Piece {
        Piece {
            kept: Kept::Stored(Told::nothing()),
        }
    }

    /// What it keeps.
    pub(crate) fn into_kept(self) -> Kept
        ensures { staging result ≡ self }
    {
        let Piece { kept } = self;
        kept
    }

    /// These bytes, which are stored elsewhere; and where they were the last of their file that were stored, what was read back
    /// of it.
    pub fn stored(bytes: &Items<u8>, whole: Option<ReadBack>) -> Piece
        ensures { result ≡ record { bytes = bytes.now; held = false } }
    {
        Piece {
            kept: Kept::stored(Told::these(bytes), whole),
        }
    }
}
