//! Why an entry is skipped, in a sentence.
ghost use Rattle.std.specs.Prelude.{◌≡◌, ◌++◌, OnOk};
ghost use Rattle.ts_explain.specs.Skips.{conflict_text, held_text, skip_text};

use crate::pieces::{Piece, push_pieces};
use crate::subject::Subject;
use std::alloc::{AllocError, Global};
use ts_command::Job;
use ts_name::Path;
use ts_preview::Change;

/// An entry that is skipped, by its path, and why.
#[derive(Drop)]
pub struct Skipped<'a> {
    pub path: &'a Path,
    pub why: Skip,
}

/// Why an entry is skipped.
#[derive(Drop)]
pub enum Skip {
    /// This became of it in the first replica and in the second since the archive, and they aren't alike.
    Conflict { first: Change, second: Change },
    /// This path, above or below or its own, is held.
    Held { by: Path },
}

/// Appends why an entry is skipped.
///
/// It fails where memory runs out.
pub fn push_skip(
    alloc: Global,
    job: &Job<'_>,
    skipped: &Skipped<'_>,
    line: &mut Vec<u8>,
) -> Result<(), AllocError>
    ensures { OnOk result (line.new.items ≡ line.old.items ++ skip_text job.now skipped.now) }
{
    let path = skipped.path;
    match &skipped.why {
        Skip::Conflict { first, second } => push_conflict(alloc, job, path, *first, *second, line),
        Skip::Held { by } => push_held(alloc, path, by, line),
    }
}

/// Appends what is said of a conflict.
fn push_conflict<'a>(
    alloc: Global,
    job: &Job<'a>,
    path: &'a Path,
    first: Change,
    second: Change,
    line: &mut Vec<u8>,
) -> Result<(), AllocError>
    ensures { OnOk result (line.new.items ≡ line.old.items ++ conflict_text job.now path.now first second) }
{
    let pieces = [
        Piece::Below(path),
        Piece::Words(b" is a conflict: "),
        Piece::Words(first.word()),
        Piece::Words(b" in "),
        Piece::Name(Subject::First.name_in(job)),
        Piece::Words(b", "),
        Piece::Words(second.word()),
        Piece::Words(b" in "),
        Piece::Name(Subject::Second.name_in(job)),
        Piece::Words(b"."),
    ];
    push_pieces(alloc, &pieces, line)
}

/// Appends what is said of an entry that is held.
fn push_held<'a>(
    alloc: Global,
    path: &'a Path,
    by: &'a Path,
    line: &mut Vec<u8>,
) -> Result<(), AllocError>
    ensures { OnOk result (line.new.items ≡ line.old.items ++ held_text path.now by.now) }
{
    let pieces = [
        Piece::Below(path),
        Piece::Words(b" is held: a rule or --hold-special holds "),
        Piece::Below(by),
        Piece::Words(b"."),
    ];
    push_pieces(alloc, &pieces, line)
}
