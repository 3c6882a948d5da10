ghost use Rattle.std.specs.Prelude.{◌≡◌, ◌↔◌, IsTrue};
ghost use Rattle.ts_dirty.specs.Found.{IsFoundOf};
ghost use Rattle.ts_model.specs.Sync.{Because, Snapshot};
ghost use Rattle.ts_model.specs.declared.row.Content.TheVariants.{Dir};
ghost use Rattle.ts_recon.specs.Reasons.{IsBecause, IsReasonOf, IsSharedDepth, IsTripleOf, differing_reason};

use ts_dirty::{Marks, Near};
use ts_model::plan::Reason;
use ts_model::row::{Content, Stamp};
use ts_print::Triple;

/// The reason of the path, None where it has none. Its parent is a directory of both replicas where it has at
/// most `shared` names. `near` is where the marks of the path before it were found.
pub(crate) fn reason_at(
    marks: &Marks,
    near: &mut Near,
    seen: &Triple,
    shared: usize,
) -> Option<Reason>
    ensures { (s : Snapshot) → IsFoundOf s marks.now → IsTripleOf s seen.now
        → IsSharedDepth s seen.now.path.now shared → IsReasonOf s seen.now.path.now result }
{
    if seen.path.depth().saturating_sub(1) <= shared {
        reason_below_dirs(marks, near, seen)
    } else {
        None
    }
}

/// The reason of a path below directories of both replicas, None where it has none.
fn reason_below_dirs(marks: &Marks, near: &mut Near, seen: &Triple) -> Option<Reason>
    ensures { (s : Snapshot) → IsFoundOf s marks.now → IsTripleOf s seen.now → IsBecause s seen.now.path.now result }
{
    if is_shared(seen) {
        return if is_dir(&seen.archive) {
            None
        } else {
            Some(Reason::Dir)
        };
    }
    let marked = marks.look(near, seen.path);
    if marked.agree {
        return if marked.first {
            Some(Reason::Same)
        } else {
            None
        };
    }
    Some(differing(marked.first, marked.second, marked.touches_held))
}

/// The reason where the replicas differ.
fn differing(first: bool, second: bool, is_held: bool) -> Reason
    ensures { result ≡ differing_reason first second is_held }
{
    if first && second {
        Reason::Conflict
    } else if is_held {
        Reason::Held
    } else if first {
        Reason::First
    } else {
        Reason::Second
    }
}

/// Whether both replicas have a directory there.
pub(crate) fn is_shared(seen: &Triple) -> bool
    ensures { IsTrue result ↔ ((seen.now.first ≡ Dir) × (seen.now.second ≡ Dir)) }
{
    is_dir(&seen.first) && is_dir(&seen.second)
}

/// Whether a directory stands there.
fn is_dir(content: &Content<Stamp>) -> bool
    ensures { IsTrue result ↔ (content.now ≡ Dir) }
{
    matches!(content, Content::Dir)
}
