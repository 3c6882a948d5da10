//! Taking what stands at the commits' paths out of a replica.
ghost use Rattle.std.specs.Prelude.{◌≡◌, ◌<◌, ℕ, IfOk, length};
ghost use Rattle.ts_board.specs.Terms.{commit_count};
ghost use Rattle.ts_model.specs.Plans.{KindIs};
ghost use Rattle.ts_model.specs.Trees.{Tree as TreeOf, at};
ghost use Rattle.ts_model.specs.declared.plan.Kind.TheVariants.{Commit};
ghost use Rattle.ts_table.specs.Splits.{ArePartsAt, MaySplit, without};
ghost use Rattle.ts_through.specs.Parts.{AreLaid, ArePlaced, KeepsOthers, paths_from};

use std::alloc::{AllocError, Global};
use std::mem;
use ts_model::packed::KindRef;
use ts_model::plan::{Entry, Plan, Side};
use ts_name::Path;
use ts_site::MemSite;
use ts_tree::{Frame, SubTree, Tree};

/// A part for each entry, with nothing in it.
pub(crate) fn no_parts(alloc: Global, entries: &[Entry]) -> Result<Vec<SubTree>, AllocError>
    ensures { IfOk result (λ parts. length parts.items ≡ length entries.now) }
{
    let mut parts = Vec::new(alloc);
    for _ in entries {
        parts.push(SubTree::absent(alloc))?;
    }
    Ok(parts)
}

/// The tree without what stands at the paths of the entries that are copied from this side, which goes to their parts.
pub(crate) fn cut(
    alloc: Global,
    tree: &Tree,
    entries: &[Entry],
    from: Side,
    parts: &mut Vec<SubTree>,
) -> Result<Frame, AllocError>
    requires parts { length parts.old.items ≡ length entries.now }
    requires apart { MaySplit (at tree.now) (paths_from from entries.now) }
    ensures paths { IfOk result (λ frame. frame.paths ≡ paths_from from entries.now) }
    ensures rows { IfOk result (λ frame. at frame.rows ≡ without (at tree.now) (paths_from from entries.now)) }
    ensures laid { IfOk result (λ _. AreLaid from (at tree.now) entries.now parts.new.items) }
    ensures others { IfOk result (λ _. KeepsOthers from entries.now parts.old.items parts.new.items) }
    ensures count { length parts.new.items ≡ length parts.old.items }
{
    let paths = paths_of(alloc, entries, from)?;
    let tree = tree.copy(alloc)?;
    let Ok((frame, taken)) = tree.split(alloc, paths.as_slice()) else {
        return Err(AllocError);
    };
    lay(taken, entries, from, parts);
    Ok(frame)
}

/// The paths of the entries that are copied from this side, in their order.
fn paths_of(alloc: Global, entries: &[Entry], from: Side) -> Result<Vec<Path>, AllocError>
    ensures { IfOk result (λ paths. paths.items ≡ paths_from from entries.now) }
{
    let mut paths = Vec::new(alloc);
    for entry in entries {
        if entry.reason.is_from(from) {
            paths.push(entry.path.copy(alloc)?)?;
        }
    }
    Ok(paths)
}

/// Lays what was taken out at the paths of the entries that are copied from this side, in their order, at the entries' places.
fn lay(taken: Vec<SubTree>, entries: &[Entry], from: Side, parts: &mut Vec<SubTree>)
    requires { length parts.old.items ≡ length entries.now }
    ensures laid { (t : TreeOf) → ArePartsAt t (paths_from from entries.now) taken.items → AreLaid from t entries.now parts.new.items }
    ensures others { KeepsOthers from entries.now parts.old.items parts.new.items }
    ensures count { length parts.new.items ≡ length parts.old.items }
{
    let mut rest = taken.into_iter();
    for (index, entry) in entries.iter().enumerate() {
        if entry.reason.is_from(from) {
            if let Some(part) = rest.next() {
                parts[index] = part;
            }
        }
    }
}

/// A site for each commit, in the order of the actions, with the part of its entry.
pub(crate) fn sites(
    alloc: Global,
    plan: &Plan,
    parts: &mut Vec<SubTree>,
) -> Result<Vec<MemSite>, AllocError>
    requires parts { length parts.old.items ≡ length plan.now.entries }
    requires within { (i e : ℕ) → KindIs plan.now i (Commit e) → e < length plan.now.entries }
    requires one { (i j e : ℕ) → KindIs plan.now i (Commit e) → KindIs plan.now j (Commit e) → i ≡ j }
    ensures sites { IfOk result (λ sites. length sites.items ≡ commit_count plan.now.actions) }
    ensures laid { IfOk result (λ sites. ArePlaced plan.now parts.old.items sites.items) }
    ensures count { length parts.new.items ≡ length parts.old.items }
{
    let mut sites = Vec::new(alloc);
    for action in plan.actions.as_slice() {
        if let KindRef::Commit { entry } = action.kind() {
            let part = mem::replace(&mut parts[entry as usize], SubTree::absent(alloc));
            sites.push(MemSite::new(part))?;
        }
    }
    Ok(sites)
}
