//! What was staged of one file so far.
ghost use Rattle.std.specs.Prelude.{◌≡◌, [], length, false, true, IfErr, IfNone, IfSome, OnErr, OnOk};
ghost use Rattle.ts_model.specs.Texts.{FileFits};
ghost use Rattle.ts_model.specs.Trees as trees;
ghost use Rattle.ts_model.specs.declared.row.Content.TheVariants.{File};
ghost use Rattle.ts_stage.specs.Keeping.{staging};
ghost use Rattle.ts_stage.specs.Stagings.{Staging, joined};

use crate::kept::Kept;
use crate::piece::Piece;
use crate::told::Told;
use std::alloc::Global;
use std::marker::Model;
use std::mem;
use ts_model::items::Items;
use ts_model::row::Stamp;
use ts_print::stamps::{are_bytes, stamp_of};

/// What was staged of one file so far: its bytes, in memory or stored elsewhere. An assembly has as many as it has files, so it is
/// small: it keeps its first piece where that is, and adds the others to it.
#[derive(Drop)]
pub struct StagedFile {
    /// None before the first piece.
    piece: Option<Box<Piece>>,
}

impl Model for StagedFile {
    ghost use Rattle.ts_stage.specs.Stagings.{Staging};

    ghost Value = { Staging };

    ghost use Rattle.ts_stage.specs.Keeping.{so_far};

    ghost view = { λ s. so_far s.piece };
}

impl StagedFile {
    /// A file without bytes. It takes no memory.
    pub(crate) fn empty() -> StagedFile
        ensures { result ≡ record { bytes = []; held = true } }
    {
        StagedFile { piece: None }
    }

    /// How many bytes it has. It takes no memory.
    pub fn size(&self) -> u64
        ensures { result ≡ length self.now.bytes }
    {
        match &self.piece {
            Some(piece) => piece.kept.size(),
            None => 0,
        }
    }

    /// Its bytes, where they are in memory.
    pub fn bytes(&self) -> Option<&[u8]>
        ensures some { IfSome result (λ bytes. (bytes.now ≡ self.now.bytes) × (self.now.held ≡ true)) }
        ensures none { IfNone result (self.now.held ≡ false) }
    {
        match &self.piece {
            Some(piece) => piece.kept.bytes(),
            None => Some(&[]),
        }
    }

    /// Its bytes, where they are in memory. It takes no memory.
    pub(crate) fn into_bytes(self, alloc: Global) -> Option<Items<u8>>
        ensures some { IfSome result (λ bytes. (bytes ≡ self.bytes) × FileFits (File bytes)) }
        ensures none { IfNone result (self.held ≡ false) }
    {
        let StagedFile { piece } = self;
        let bytes = match piece {
            Some(piece) => Box::into_inner(piece).into_kept().into_bytes()?,
            None => Items::new(Vec::new(alloc)),
        };
        are_bytes(bytes.as_slice());
        Some(bytes)
    }

    /// Puts what was read back of a stored file in place of what its pieces told, and answers the stamp that it has then. There
    /// is none where it wasn't read back.
    pub(crate) fn settle(&mut self) -> Option<Stamp>
        ensures stamp { IfSome result (λ stamp. stamp ≡ trees.stamp_of self.new.bytes) }
        ensures held { self.old.held ≡ true → self.new ≡ self.old }
        ensures none { IfNone result (self.old.held ≡ false) }
    {
        match &mut self.piece {
            Some(piece) => settle(piece),
            None => Some(stamp_of(b"")),
        }
    }

    /// Puts a piece at the end of a file that is to have `size` bytes in the end, for which room is made from the second piece
    /// on. At a refusal nothing changes, and the piece comes back.
    pub(crate) fn add(
        &mut self,
        alloc: Global,
        size: u64,
        piece: Box<Piece>,
    ) -> Result<(), Box<Piece>>
        ensures ok { OnOk result (self.new ≡ joined self.old piece.value) }
        ensures err { OnErr result (self.new ≡ self.old) }
        ensures back { IfErr result (λ back. back.value ≡ piece.value) }
    {
        match &mut self.piece {
            Some(had) => join(alloc, size, had, piece),
            None => {
                self.piece = Some(piece);
                Ok(())
            }
        }
    }
}

/// What was read back of a stored file in place of what its pieces told, and the stamp that it has then.
fn settle(piece: &mut Piece) -> Option<Stamp>
    ensures stamp { IfSome result (λ stamp. stamp ≡ trees.stamp_of piece.new.bytes) }
    ensures held { piece.old.held ≡ true → piece.new ≡ piece.old }
    ensures none { IfNone result (piece.old.held ≡ false) }
{
    let kept = mem::replace(&mut piece.kept, Kept::Stored(Told::nothing()));
    let (kept, stamp) = kept.settled();
    piece.kept = kept;
    stamp
}

/// Puts a piece at the end of all that was staged so far. At a refusal nothing changes, and the piece comes back.
fn join(alloc: Global, size: u64, had: &mut Piece, mut piece: Box<Piece>) -> Result<(), Box<Piece>>
    ensures ok { OnOk result (had.new ≡ joined had.old piece.value) }
    ensures err { OnErr result (had.new ≡ had.old) }
    ensures back { IfErr result (λ back. back.value ≡ piece.value) }
{
    let more = Box::replace(&mut piece, Piece::nothing()).into_kept();
    match join_kept(alloc, size, &mut had.kept, more) {
        Ok(()) => Ok(()),
        Err(more) => {
            let _nothing = Box::replace(&mut piece, Piece { kept: more });
            Err(piece)
        }
    }
}

/// Puts what is kept of a piece at the end of what is kept of its file. At a refusal nothing changes, and it comes back.
fn join_kept(alloc: Global, size: u64, had: &mut Kept, piece: Kept) -> Result<(), Kept>
    ensures ok { OnOk result (staging had.new ≡ joined (staging had.old) (staging piece)) }
    ensures err { OnErr result (had.new ≡ had.old) }
    ensures back { IfErr result (λ back. back ≡ piece) }
{
    let before = mem::replace(had, Kept::Stored(Told::nothing()));
    match before.join(alloc, size, piece) {
        Ok(all) => {
            *had = all;
            Ok(())
        }
        Err((before, piece)) => {
            *had = before;
            Err(piece)
        }
    }
}
