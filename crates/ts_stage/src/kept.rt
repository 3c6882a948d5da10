//! What is kept of bytes that were staged.
ghost use Rattle.std.specs.Prelude.{◌≡◌, ◌++◌, length, true, false, IfErr, IfNone, IfOk, IfSome};
ghost use Rattle.ts_model.specs.Trees as trees;
ghost use Rattle.ts_stage.specs.Keeping.{staging};
ghost use Rattle.ts_stage.specs.Stagings.{Staging, joined};

use crate::read_back::ReadBack;
use crate::told::Told;
use std::alloc::{AllocError, Global};
use ts_model::items::Items;
use ts_model::row::Stamp;
use ts_print::stamps::stamp_of;

/// What is kept of bytes that were staged, of a piece or of a file. A plan has as many as it has pieces, so it has no further
/// memory of its own where the bytes are stored elsewhere.
#[derive(Drop)]
pub(crate) enum Kept {
    /// The bytes, in memory.
    Held(Items<u8>),
    /// They are stored elsewhere.
    Stored(Told),
    /// They are stored elsewhere, and the last of their file that was stored is among them: what was then read back of it.
    Whole(Told, ReadBack),
}

impl Kept {
    /// What is stored elsewhere, and what was read back of its whole file, if it was.
    pub(crate) fn stored(told: Told, whole: Option<ReadBack>) -> Kept
        ensures { staging result ≡ record { bytes = told; held = false } }
    {
        match whole {
            Some(whole) => Kept::Whole(told, whole),
            None => Kept::Stored(told),
        }
    }

    /// How many bytes were staged.
    pub(crate) fn size(&self) -> u64
        ensures { result ≡ length (staging self.now).bytes }
    {
        match self {
            Kept::Held(bytes) => bytes.as_slice().len() as u64,
            Kept::Stored(told) => told.size(),
            Kept::Whole(told, _) => told.size(),
        }
    }

    /// The bytes, where they are in memory.
    pub(crate) fn bytes(&self) -> Option<&[u8]>
        ensures some { IfSome result (λ bytes. (bytes.now ≡ (staging self.now).bytes) × ((staging self.now).held ≡ true)) }
        ensures none { IfNone result ((staging self.now).held ≡ false) }
    {
        match self {
            Kept::Held(bytes) => Some(bytes.as_slice()),
            Kept::Stored(_) | Kept::Whole(_, _) => None,
        }
    }

    /// The bytes, where they are in memory.
    pub(crate) fn into_bytes(self) -> Option<Items<u8>>
        ensures some { IfSome result (λ bytes. bytes ≡ (staging self).bytes) }
        ensures none { IfNone result ((staging self).held ≡ false) }
    {
        match self {
            Kept::Held(bytes) => Some(bytes),
            Kept::Stored(_) | Kept::Whole(_, _) => None,
        }
    }

    /// What was told of the bytes, and what was read back of their whole file.
    fn into_told(self) -> (Told, Option<ReadBack>)
        ensures { result.0 ≡ (staging self).bytes }
    {
        match self {
            Kept::Held(bytes) => (Told::these(&bytes), None),
            Kept::Stored(told) => (told, None),
            Kept::Whole(told, whole) => (told, Some(whole)),
        }
    }

    /// What was read back of a file that is stored elsewhere in place of what its pieces told, and the stamp that it has then.
    /// There is none where it wasn't read back. No more than its size is kept.
    pub(crate) fn settled(self) -> (Kept, Option<Stamp>)
        ensures stamp { IfSome result.1 (λ stamp. stamp ≡ trees.stamp_of (staging result.0).bytes) }
        ensures held { (staging self).held ≡ true → staging result.0 ≡ staging self }
        ensures none { IfNone result.1 ((staging self).held ≡ false) }
    {
        match self {
            Kept::Held(bytes) => {
                let stamp = stamp_of(bytes.as_slice());
                (Kept::Held(bytes), Some(stamp))
            }
            Kept::Stored(told) => (Kept::Stored(told), None),
            Kept::Whole(_, whole) => {
                let stamp = whole.stamp();
                (Kept::Stored(whole.into_told()), Some(stamp))
            }
        }
    }

    /// What is kept of these bytes and then those of a piece, of a file that is to have `size` bytes in the end: room is made
    /// for them from the second piece on. At a refusal both come back.
    pub(crate) fn join(self, alloc: Global, size: u64, piece: Kept) -> Result<Kept, (Kept, Kept)>
        ensures ok { IfOk result (λ all. staging all ≡ joined (staging self) (staging piece)) }
        ensures back { IfErr result (λ back. (back.0 ≡ self) × (back.1 ≡ piece)) }
    {
        match self {
            Kept::Held(had) => match piece {
                Kept::Held(bytes) => join_held(alloc, had, size, bytes),
                Kept::Stored(told) => join_told(Kept::Held(had), Kept::Stored(told)),
                Kept::Whole(told, whole) => join_told(Kept::Held(had), Kept::Whole(told, whole)),
            },
            Kept::Stored(told) => join_told(Kept::Stored(told), piece),
            Kept::Whole(told, whole) => join_told(Kept::Whole(told, whole), piece),
        }
    }
}

/// The bytes of both, in memory. There is room for `size` bytes from the second part on. Where there is none both come back.
fn join_held(
    alloc: Global,
    had: Items<u8>,
    size: u64,
    bytes: Items<u8>,
) -> Result<Kept, (Kept, Kept)>
    ensures ok { IfOk result (λ all. staging all ≡ record { bytes = had ++ bytes; held = true }) }
    ensures back { IfErr result (λ back. (back.0 ≡ Kept.Held had) × (back.1 ≡ Kept.Held bytes)) }
{
    let mut had = had.into_vec();
    if had.is_empty() {
        return Ok(Kept::Held(bytes));
    }
    let mut bytes = bytes.into_vec();
    let room = size.saturating_sub(had.len() as u64) as usize;
    let added = match had.reserve_exact(room) {
        Ok(()) => had.append(&mut bytes),
        Err(_) => Err(AllocError),
    };
    match added {
        Ok(()) => Ok(Kept::Held(Items::new(had))),
        Err(_) => Err((Kept::Held(Items::new(had)), Kept::Held(Items::new(bytes)))),
    }
}

/// Both, where one of them isn't in memory: only what they told is left. Where 2^64 bytes would come together both come back.
fn join_told(had: Kept, piece: Kept) -> Result<Kept, (Kept, Kept)>
    ensures ok { IfOk result (λ all. staging all ≡ record { bytes = (staging had).bytes ++ (staging piece).bytes; held = false }) }
    ensures back { IfErr result (λ back. (back.0 ≡ had) × (back.1 ≡ piece)) }
{
    let Some(_) = had.size().checked_add(piece.size()) else {
        return Err((had, piece));
    };
    let (mut told, earlier) = had.into_told();
    let (part, later) = piece.into_told();
    told.push(part);
    // the piece that was stored last isn't always the one that is put last
    let whole = if later.is_some() { later } else { earlier };
    Ok(Kept::stored(told, whole))
}
