//! The reason of each path, in one pass over the three prints.

ghost use Rattle.std.specs.Option.{option_copied};
ghost use Rattle.std.specs.Prelude.{◌≡◌, ◌↔◌, ◌≤◌, ◌&&◌, ◌||◌, IsTrue, Some, None, cond, not};
ghost use Rattle.ts_model.specs.Trees.{Listing};
ghost use Rattle.ts_model.specs.declared.row.Content.TheVariants.{Dir};
ghost use Rattle.ts_model.specs.declared.row.Stamp.{Stamp};
ghost use Rattle.ts_name.specs.Paths.{Path};
ghost use Rattle.ts_need.specs.Merges.{HasComeTo, HasReasoned, IsAboveIn};
ghost use Rattle.ts_need.specs.Needs.{edge_reason};
ghost use Rattle.ts_print.specs.Walks.{left_count};

use crate::differences::{Differences, gather};
use ts_hold::Holds;
use ts_model::plan::Reason;
use ts_model::row::Content;
use ts_name::Path;
use ts_print::{Seen, Triple, Triples};

/// Whether a directory stands there.
fn is_dir(seen: &Seen) -> bool
    ensures { IsTrue result ↔ (seen.now ≡ Dir) }
{
    matches!(seen, Content::Dir)
}

/// Whether both replicas have a directory there.
fn are_dirs(seen: &Triple<'_>) -> bool
    ensures { IsTrue result ↔ ((seen.now.first ≡ Dir) × (seen.now.second ≡ Dir)) }
{
    is_dir(&seen.first) && is_dir(&seen.second)
}

/// Whether the holder is the path or above it.
fn is_below(holder: Option<&Path>, path: &Path) -> bool
    ensures { IsTrue result ↔ IsAboveIn (option_copied holder.entry) path.now }
{
    match holder {
        Some(above) => above.is_prefix(path),
        None => false,
    }
}

/// The reason of a directory in both replicas: it is new where the archive has none.
fn reason_of_dirs(seen: &Triple<'_>) -> Option<Reason>
    ensures old { seen.now.archive ≡ Dir → result ≡ None }
    ensures new { (¬ (seen.now.archive ≡ Dir)) → result ≡ Some Reason.Dir }
{
    if is_dir(&seen.archive) {
        None
    } else {
        Some(Reason::Dir)
    }
}

/// The reason of a path that isn't a directory in both replicas.
fn reason_of_edge(found: &Differences, is_below_holder: bool) -> Option<Reason>
    ensures { result ≡ edge_reason found.now.first found.now.second found.now.apart (is_below_holder || found.now.is_named) }
{
    if !found.apart {
        return if found.first {
            Some(Reason::Same)
        } else {
            None
        };
    }
    Some(if found.first && found.second {
        Reason::Conflict
    } else if is_below_holder || found.is_named {
        Reason::Held
    } else if found.first {
        Reason::First
    } else {
        Reason::Second
    })
}

/// The topmost held directory that the paths after a directory may be below.
fn next_holder<'a>(
    holder: Option<&'a Path>,
    directory: &'a Path,
    is_below_holder: bool,
    is_named: bool,
) -> Option<&'a Path>
    ensures { option_copied result ≡ cond (not is_below_holder && is_named) (Some directory.entry.now) (option_copied holder.entry) }
{
    if !is_below_holder && is_named {
        Some(directory)
    } else {
        holder
    }
}

/// What a pass has after a path: its reason, and the topmost held directory that the next paths may be below.
#[derive(Clone, Copy)]
pub struct Reasoned<'a> {
    pub reason: Option<Reason>,
    pub holder: Option<&'a Path>,
}

/// The reason of the path that a walk has come to, where it is below directories of both replicas. After it the walk is at the
/// next such path. `holder` is the topmost held directory that the path may be below.
pub fn find_reason<'a>(
    walk: &mut Triples<'a>,
    seen: &Triple<'a>,
    holder: Option<&'a Path>,
    holds: &Holds,
) -> Reasoned<'a>
    ensures found { (A F S : Listing Stamp) (b : Path) → HasComeTo A F S holds.now b holder.entry seen.now walk.old
        → HasReasoned A F S holds.now b seen.now walk.new result }
    ensures shorter { left_count walk.new ≤ left_count walk.old }
{
    let is_below_holder = is_below(holder, seen.path);
    if are_dirs(seen) {
        let is_named = holds.holds(seen.path);
        return Reasoned {
            reason: reason_of_dirs(seen),
            holder: next_holder(holder, seen.path, is_below_holder, is_named),
        };
    }
    let found = gather(walk, seen, holds);
    Reasoned {
        reason: reason_of_edge(&found, is_below_holder),
        holder,
    }
}
