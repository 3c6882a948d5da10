//! Sentences, piece after piece.
ghost use Rattle.std.specs.Prelude.{◌≡◌, ◌++◌, OnOk, map};
ghost use Rattle.ts_explain.specs.Pieces.{piece_text, reason_text, said};

use std::alloc::{AllocError, Global};
use ts_cause::Cause;
use ts_name::Path;
use ts_preview::push_shown;
use ts_text::push_decimal;

/// A piece of a sentence.
#[derive(Clone, Copy, Drop)]
pub enum Piece<'a> {
    Words(&'a [u8]),
    /// A name of the system, whose hidden characters are escaped.
    Name(&'a str),
    /// The same of a path in a replica. The root has no text.
    Below(&'a Path),
    Number(u64),
    /// Why something failed, which ends a sentence; where no cause is known, a hint in its place.
    Reason { hint: &'a [u8], cause: Cause },
}

/// Appends the pieces, one after another.
///
/// It fails where memory runs out.
pub fn push_pieces(
    alloc: Global,
    pieces: &[Piece<'_>],
    line: &mut Vec<u8>,
) -> Result<(), AllocError>
    ensures { OnOk result (line.new.items ≡ line.old.items ++ said (map piece_text pieces.now)) }
{
    for i in 0..pieces.len() {
        push_piece(alloc, &pieces[i], line)?;
    }
    Ok(())
}

/// Appends a piece.
fn push_piece(alloc: Global, piece: &Piece<'_>, line: &mut Vec<u8>) -> Result<(), AllocError>
    ensures { OnOk result (line.new.items ≡ line.old.items ++ piece_text piece.now) }
{
    match piece {
        Piece::Words(words) => line.extend_from_slice(words),
        Piece::Name(name) => push_shown(name.as_bytes(), line),
        Piece::Below(path) => {
            let mut text = Vec::new(alloc);
            path.write_text(&mut text)?;
            push_shown(&text, line)
        }
        Piece::Number(number) => push_decimal(line, *number),
        Piece::Reason { hint, cause } => push_reason(hint, *cause, line),
    }
}

/// Appends why something failed, or a hint.
fn push_reason(hint: &[u8], cause: Cause, line: &mut Vec<u8>) -> Result<(), AllocError>
    ensures { OnOk result (line.new.items ≡ line.old.items ++ reason_text hint.now cause) }
{
    if !cause.is_known() {
        return line.extend_from_slice(hint);
    }
    line.extend_from_slice(b": ")?;
    line.extend_from_slice(cause.text())?;
    line.push(b'.')?;
    Ok(())
}
