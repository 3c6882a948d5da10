ghost use Rattle.std.specs.Prelude.{◌≡◌, ◌-◌, IfOk, cond, min};
ghost use Rattle.ts_dirty.specs.Found.{IsFoundOf};
ghost use Rattle.ts_recon.specs.Reasons.{AreReasons, ForEachSnapshotOf, with_reason};

use crate::reason::{is_shared, reason_at};
use std::alloc::{AllocError, Global};
use ts_dirty::{Marks, Near};
use ts_model::plan::{Entry, Reason};
use ts_name::Path;
use ts_print::{Print, walk3};

/// The paths that have a reason, each with it, in path order. The marks are those of the same prints.
///
/// # Errors
///
/// `AllocError` where memory ran out.
pub fn reasons(
    alloc: Global,
    archive: &Print,
    first: &Print,
    second: &Print,
    marks: &Marks,
) -> Result<Vec<Entry>, AllocError>
    ensures { ForEachSnapshotOf archive.now first.now second.now
        (λ s. IsFoundOf s marks.now → IfOk result (λ entries. AreReasons s entries.items)) }
{
    let mut entries = Vec::new(alloc);
    // how many names of the path that the walk is at lead down directories of both replicas
    let mut shared = 0;
    let mut near = Near::start();
    for seen in walk3(archive, first, second) {
        add(
            alloc,
            &mut entries,
            seen.path,
            reason_at(marks, &mut near, &seen, shared),
        )?;
        shared = shared_after(shared, seen.path.depth(), is_shared(&seen));
    }
    Ok(entries)
}

/// Puts the path with its reason at the end of the entries, where it has one.
fn add(
    alloc: Global,
    entries: &mut Vec<Entry>,
    path: &Path,
    reason: Option<Reason>,
) -> Result<(), AllocError>
    ensures { IfOk result (λ _. entries.new.items ≡ with_reason entries.old.items path.now reason) }
{
    if let Some(reason) = reason {
        let path = path.copy(alloc)?;
        entries.push(Entry { path, reason })?;
    }
    Ok(())
}

/// How many names of a path lead down directories of both replicas, where `shared` names of the path before it did.
fn shared_after(shared: usize, depth: usize, is_shared: bool) -> usize
    ensures { result ≡ cond is_shared depth (min shared (depth - 1)) }
{
    if is_shared {
        depth
    } else {
        shared.min(depth.saturating_sub(1))
    }
}
