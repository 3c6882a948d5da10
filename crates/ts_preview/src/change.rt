//! What became of a path.
ghost use Rattle.std.specs.Prelude.{◌≡◌};
ghost use Rattle.ts_model.specs.Trees.{at};
ghost use Rattle.ts_preview.specs.Changes.{IsChange, change_from, change_word};

use ts_model::row::Content;
use ts_name::Path;
use ts_print::{Print, Seen};

/// What became of a path and of what is below it.
#[derive(Clone, Copy, Debug, PartialEq, Eq, Drop)]
pub enum Change {
    Unchanged,
    New,
    /// Another file, or a directory with something else in it.
    Changed,
    Deleted,
    /// A file became a directory.
    BecameDirectory,
    /// A directory became a file.
    BecameFile,
}

impl Change {
    /// The change in words.
    pub fn word(self) -> &'static [u8]
        ensures { result.now ≡ change_word self }
    {
        match self {
            Change::Unchanged => b"unchanged",
            Change::New => b"new",
            Change::Changed => b"changed",
            Change::Deleted => b"deleted",
            Change::BecameDirectory => b"file becomes directory",
            Change::BecameFile => b"directory becomes file",
        }
    }
}

/// What becomes of a path where one print gives way to another. It takes no memory.
pub fn change_between(before: &Print, after: &Print, path: &Path) -> Change
    ensures { IsChange (at before.now) (at after.now) path.now result }
{
    if before.sub_eq(after, path) {
        Change::Unchanged
    } else {
        change_from(before.get(path), after.get(path))
    }
}

/// By what stood there and what stands there now, where it isn't the same.
fn change_from(before: Seen, after: Seen) -> Change
    ensures { result ≡ change_from before after }
{
    match (before, after) {
        (Content::Absent, _) => Change::New,
        (Content::Dir | Content::File(_), Content::Absent) => Change::Deleted,
        (Content::File(_), Content::Dir) => Change::BecameDirectory,
        (Content::Dir, Content::File(_)) => Change::BecameFile,
        (Content::Dir, Content::Dir) | (Content::File(_), Content::File(_)) => Change::Changed,
    }
}
