//! What is said of places that lie where they mustn't.
ghost use Rattle.std.specs.Prelude.{◌≡◌, ◌++◌, OnOk};
ghost use Rattle.twosync.specs.Tellings.{inside_text, nesting_text, own_text};

use crate::nesting::Nesting;
use std::alloc::{AllocError, Global};
use ts_command::Pair;
use ts_explain::{Piece, push_pieces};

/// A place of a command: its name there, and what stands before it.
#[derive(Clone, Copy)]
struct Place<'a> {
    noun: &'a [u8],
    name: &'a str,
}

/// What is to be done about an archive inside a folder.
const KEEP_OUT: &[u8] = b"keep it outside both folders";

/// What is to be done about a folder inside the other one.
const KEEP_APART: &[u8] = b"neither may contain the other";

/// Appends what is said of a pair with such places.
///
/// It fails where memory runs out.
pub(crate) fn push_nesting(
    alloc: Global,
    pair: &Pair<'_>,
    nesting: Nesting,
    line: &mut Vec<u8>,
) -> Result<(), AllocError>
    ensures { OnOk result (line.new.items ≡ line.old.items ++ nesting_text pair.now nesting) }
{
    let first = Place {
        noun: b"the first folder ",
        name: pair.first,
    };
    let second = Place {
        noun: b"the second folder ",
        name: pair.second,
    };
    let archive = Place {
        noun: b"the archive ",
        name: pair.archive,
    };
    match nesting {
        Nesting::FirstInOwn => push_own(alloc, first, line),
        Nesting::SecondInOwn => push_own(alloc, second, line),
        Nesting::ArchiveInOwn => push_own(alloc, archive, line),
        Nesting::FirstInSecond => push_inside(alloc, first, second, KEEP_APART, line),
        Nesting::SecondInFirst => push_inside(alloc, second, first, KEEP_APART, line),
        Nesting::ArchiveInFirst => push_inside(alloc, archive, first, KEEP_OUT, line),
        Nesting::ArchiveInSecond => push_inside(alloc, archive, second, KEEP_OUT, line),
    }
}

/// Appends what is said of a place that belongs to a `.twosync`.
fn push_own(alloc: Global, place: Place<'_>, line: &mut Vec<u8>) -> Result<(), AllocError>
    ensures { OnOk result (line.new.items ≡ line.old.items ++ own_text place.entry.noun.now place.entry.name.now) }
{
    let pieces = [
        Piece::Words(b"error: "),
        Piece::Words(place.noun),
        Piece::Name(place.name),
        Piece::Words(
            b" is part of a .twosync, which twosync keeps for itself: choose another place",
        ),
    ];
    push_pieces(alloc, &pieces, line)
}

/// Appends what is said of a place inside another one, and what is to be done about that.
fn push_inside<'x>(
    alloc: Global,
    inner: Place<'x>,
    outer: Place<'x>,
    advice: &'x [u8],
    line: &mut Vec<u8>,
) -> Result<(), AllocError>
    ensures { OnOk result (line.new.items ≡ line.old.items ++ inside_text inner.entry.noun.now inner.entry.name.now outer.entry.noun.now outer.entry.name.now advice.now) }
{
    let pieces = [
        Piece::Words(b"error: "),
        Piece::Words(inner.noun),
        Piece::Name(inner.name),
        Piece::Words(b" lies inside "),
        Piece::Words(outer.noun),
        Piece::Name(outer.name),
        Piece::Words(b": "),
        Piece::Words(advice),
    ];
    push_pieces(alloc, &pieces, line)
}
