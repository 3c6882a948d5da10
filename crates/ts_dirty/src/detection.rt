ghost use Rattle.std.specs.Prelude.{◌≡◌, ◌≢◌, ◌↔◌, ◌∷◌, ◌++◌, [], IfOk, IsTrue, cond, false, true};
ghost use Rattle.ts_dirty.specs.Found.{IsFoundOf, LastIsAbove};
ghost use Rattle.ts_model.specs.Holds.{Names};
ghost use Rattle.ts_model.specs.Sync.{listed_snapshot};

use crate::marks::Marks;
use std::alloc::{AllocError, Global};
use ts_hold::Holds;
use ts_model::row::{Content, Stamp};
use ts_name::Path;
use ts_print::{Print, Triple, walk3};

/// Compares both replicas with the archive, path by path.
///
/// # Errors
///
/// `AllocError` where memory ran out.
pub fn detect(
    alloc: Global,
    archive: &Print,
    first: &Print,
    second: &Print,
    holds: &Holds,
) -> Result<Marks, AllocError>
    ensures { IfOk result (λ marks. IsFoundOf (listed_snapshot archive.now first.now second.now holds.now) marks) }
{
    let _rules = holds.rules();
    let mut changed_first = Vec::new(alloc);
    let mut changed_second = Vec::new(alloc);
    let mut apart = Vec::new(alloc);
    let mut held = Vec::new(alloc);
    for seen in walk3(archive, first, second) {
        note(
            alloc,
            &mut changed_first,
            seen.path,
            differ(&seen.first, &seen.archive),
        )?;
        note(
            alloc,
            &mut changed_second,
            seen.path,
            differ(&seen.second, &seen.archive),
        )?;
        note(
            alloc,
            &mut apart,
            seen.path,
            differ(&seen.first, &seen.second),
        )?;
        let is_named = is_held(holds, &seen);
        let is_covered = last_is_above(held.as_slice(), seen.path);
        note(alloc, &mut held, seen.path, and_not(is_named, is_covered))?;
    }
    Ok(Marks::new(changed_first, changed_second, apart, held))
}

/// Whether two contents aren't the same.
fn differ(one: &Content<Stamp>, other: &Content<Stamp>) -> bool
    ensures { IsTrue result ↔ (one.now ≢ other.now) }
{
    one != other
}

/// Whether a rule names the path, wherever something is there: in the archive alone too.
fn is_held(holds: &Holds, seen: &Triple) -> bool
    ensures { IsTrue result ↔ Names holds.now seen.now.path.now }
{
    holds.holds(seen.path)
}

/// Whether the last one of the paths is above this one.
fn last_is_above(paths: &[Path], path: &Path) -> bool
    ensures { IsTrue result ↔ LastIsAbove paths.now path.now }
{
    match paths {
        [.., last] => last.is_prefix(path),
        [] => false,
    }
}

/// Puts the path at the end of the paths, where it is wanted.
fn note(
    alloc: Global,
    paths: &mut Vec<Path>,
    path: &Path,
    is_wanted: bool,
) -> Result<(), AllocError>
    ensures { IfOk result (λ _. paths.new.items ≡ cond is_wanted (paths.old.items ++ path.now ∷ []) paths.old.items) }
{
    if is_wanted {
        paths.push(path.copy(alloc)?)?;
    }
    Ok(())
}

/// The first and not the second.
fn and_not(first: bool, second: bool) -> bool
    ensures { result ≡ cond first (cond second false true) false }
{
    first && !second
}
