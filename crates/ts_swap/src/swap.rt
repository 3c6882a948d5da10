//! Replacing, and recovery.
ghost use Rattle.std.specs.Prelude.{◌≡◌, ◌⊎◌, ℕ, List, [], IfOk, IfSome, IsErr, IsOk, IsTrue, MatchResult, true};
ghost use Rattle.ts_model.specs.Swap.{recovery, with_spot};
ghost use Rattle.ts_model.specs.Swap as model;
ghost use Rattle.ts_model.specs.Trees.{IsSubListing};
ghost use Rattle.ts_model.specs.declared.row.Row.{Row};
ghost use Rattle.ts_swap.specs.Leavings.{AtEachMoment, FailedAtMostOnce, Grows, HasFailed, HasReplaced, IsBack, IsDuring, IsInSwap, IsPut, IsSetAside, IsStopped, LeavesInSwap};
ghost use Rattle.ts_swap.specs.Leavings.{KeepsOriginal, KeepsOthers, LeavesSettled, Looks, MakesCalls, MovesIn, OnSpots, Recovers, Replaces, SettlesSwap, StaysInSwap, Tells, removal, spot_of};
ghost use Rattle.ts_swap.specs.declared.places.Spot.{Spot};
ghost use Rattle.ts_swap.specs.declared.places.Spot.TheVariants as spot;

use crate::places::{Failed, Places, Spot};
use ts_model::items::Items;
use ts_model::row::Row;

/// Replaces what lies at the target by a tree, by at most two renames. Between them nothing lies there.
///
/// After a failure the original lies at the target; or, where more than one call failed, it may lie at the old spot,
/// whole, with the new tree whole at the new spot and nothing at the target. A look that fails does so before anything
/// is moved, so after it the original lies at the target. That the old content couldn't be removed at the end is not
/// reported.
#[tactic(auto, using(crate::proofs::Counting::grown, crate::proofs::Counting::still_grown))]
pub fn replace<P: Places>(places: &mut P, tree: &[Row<Items<u8>>]) -> Result<(), Failed>
    requires tree { IsSubListing tree.now }
    requires new { IfSome (P.spots places.old) (λ s. s.new ≡ []) }
    requires old { IfSome (P.spots places.old) (λ s. s.old ≡ []) }
    ensures replaced { Replaces tree.now (P.spots places.old) (P.spots places.new) result }
    ensures fault { IsErr result → (P.hides places.old spot.Target) ⊎ HasFailed (P.failures places.old) (P.failures places.new) }
    ensures once { IsErr result → FailedAtMostOnce (P.failures places.old) (P.failures places.new) → KeepsOriginal (P.spots places.old) (P.spots places.new) }
    ensures recoverable { OnSpots (λ s left. IsInSwap s.target tree.now left) (P.spots places.old) (P.spots places.new) }
    ensures stops { AtEachMoment (IsStopped tree.now) (P.spots places.old) (P.moments places.old) (P.moments places.new) }
{
    write_new(places, tree)?;
    move_in(places, !tree.is_empty())
}

/// Does what `replace` does by what lies at the new spot already, if something is wanted there: it comes to the target, by at
/// most two renames. Between them nothing lies there.
///
/// After a failure the original lies at the target; or, where more than one call failed, it may lie at the old spot,
/// whole, with the new tree whole at the new spot and nothing at the target. A look that fails does so before anything
/// is moved, so after it the original lies at the target. That the old content couldn't be removed at the end is not
/// reported.
pub fn move_in<P: Places>(places: &mut P, wanted: bool) -> Result<(), Failed>
    requires new { IfSome (P.spots places.old) (λ s. Tells wanted s.new) }
    requires old { IfSome (P.spots places.old) (λ s. s.old ≡ []) }
    ensures replaced { MovesIn (P.spots places.old) (P.spots places.new) result }
    ensures fault { IsErr result → (P.hides places.old spot.Target) ⊎ HasFailed (P.failures places.old) (P.failures places.new) }
    ensures once { IsErr result → FailedAtMostOnce (P.failures places.old) (P.failures places.new) → KeepsOriginal (P.spots places.old) (P.spots places.new) }
    ensures recoverable { OnSpots (λ s left. IsInSwap s.target s.new left) (P.spots places.old) (P.spots places.new) }
    ensures stops { AtEachMoment (λ s. IsStopped s.new s) (P.spots places.old) (P.moments places.old) (P.moments places.new) }
{
    match set_aside(places) {
        Ok(had) => {
            put_in_place(places, wanted, had)?;
            if had {
                let _ = places.remove(Spot::Old);
            }
            Ok(())
        }
        Err(fault) => {
            if wanted {
                clear_new(places);
            }
            Err(fault)
        }
    }
}

/// Writes the tree to the new spot, unless it is that of nothing. After a failure the spot is cleared where that can
/// be done.
fn write_new<P: Places>(places: &mut P, tree: &[Row<Items<u8>>]) -> Result<(), Failed>
    requires tree { IsSubListing tree.now }
    requires new { IfSome (P.spots places.old) (λ s. s.new ≡ []) }
    ensures ok { IfOk result (λ _. OnSpots (λ s left. left ≡ with_spot s model.New tree.now) (P.spots places.old) (P.spots places.new)) }
    ensures err { IsErr result → OnSpots KeepsOthers (P.spots places.old) (P.spots places.new) }
    ensures stops { AtEachMoment KeepsOthers (P.spots places.old) (P.moments places.old) (P.moments places.new) }
    ensures counted { MatchResult result (λ _. P.failures places.new ≡ P.failures places.old) (λ _. HasFailed (P.failures places.old) (P.failures places.new)) }
    ensures looks { P.hides places.new spot.Target → P.hides places.old spot.Target }
{
    if tree.is_empty() {
        return Ok(());
    }
    match places.write(tree) {
        Ok(()) => Ok(()),
        Err(fault) => {
            clear_new(places);
            Err(fault)
        }
    }
}

/// Clears the new spot, where that can be done.
fn clear_new<P: Places>(places: &mut P)
    ensures kept { OnSpots KeepsOthers (P.spots places.old) (P.spots places.new) }
    ensures stops { AtEachMoment KeepsOthers (P.spots places.old) (P.moments places.old) (P.moments places.new) }
    ensures counted { (P.failures places.new ≡ P.failures places.old) ⊎ Grows (P.failures places.old) (P.failures places.new) }
    ensures looks { P.hides places.new spot.Target → P.hides places.old spot.Target }
{
    let _ = places.remove(Spot::New);
}

/// Moves what lies at the target to the old spot, and answers whether something lay there. A failure changes nothing.
fn set_aside<P: Places>(places: &mut P) -> Result<bool, Failed>
    requires { IfSome (P.spots places.old) (λ s. s.old ≡ []) }
    ensures ok { IfOk result (λ had. OnSpots (IsSetAside had) (P.spots places.old) (P.spots places.new)) }
    ensures err { IsErr result → P.spots places.new ≡ P.spots places.old }
    ensures stops { AtEachMoment (λ s left. (left ≡ s) ⊎ IsSetAside true s left) (P.spots places.old) (P.moments places.old) (P.moments places.new) }
    ensures counted { IfOk result (λ _. P.failures places.new ≡ P.failures places.old) }
    ensures fault { IsErr result → (P.hides places.old spot.Target) ⊎ HasFailed (P.failures places.old) (P.failures places.new) }
    ensures looks { P.hides places.new spot.Target → P.hides places.old spot.Target }
{
    if !places.present(Spot::Target)? {
        return Ok(false);
    }
    places.rename(Spot::Target, Spot::Old)?;
    Ok(true)
}

/// Moves the new tree to the target. After a failure what was set aside is moved back, and then the new tree is removed,
/// where that can be done.
fn put_in_place<P: Places>(places: &mut P, wanted: bool, had: bool) -> Result<(), Failed>
    requires target { IfSome (P.spots places.old) (λ s. s.target ≡ []) }
    requires new { IfSome (P.spots places.old) (λ s. Tells wanted s.new) }
    requires old { IfSome (P.spots places.old) (λ s. Tells had s.old) }
    ensures ok { IfOk result (λ _. OnSpots IsPut (P.spots places.old) (P.spots places.new)) }
    ensures err { IsErr result → IsTrue wanted }
    ensures back { IsErr result → OnSpots (λ s left. IsBack s left ⊎ (left ≡ s)) (P.spots places.old) (P.spots places.new) }
    ensures once { IsErr result → FailedAtMostOnce (P.failures places.old) (P.failures places.new) → OnSpots IsBack (P.spots places.old) (P.spots places.new) }
    ensures stops { AtEachMoment (λ s left. (left ≡ s) ⊎ (IsPut s left ⊎ IsBack s left)) (P.spots places.old) (P.moments places.old) (P.moments places.new) }
    ensures counted { MatchResult result (λ _. P.failures places.new ≡ P.failures places.old) (λ _. HasFailed (P.failures places.old) (P.failures places.new)) }
{
    if !wanted {
        return Ok(());
    }
    let Err(fault) = places.rename(Spot::New, Spot::Target) else {
        return Ok(());
    };
    if had {
        if places.rename(Spot::Old, Spot::Target).is_ok() {
            clear_new(places);
        }
    } else {
        clear_new(places);
    }
    Err(fault)
}

/// Undoes or ends a replacement that was stopped or failed: the target is then the original or the new tree, whole, and
/// nothing lies at the other spots. It fails only where a look or a call failed, and may itself be called again after a
/// failure or a stop.
#[tactic(auto, using(crate::proofs::Counting::grown, crate::proofs::Counting::still_grown))]
pub fn recover<P: Places>(places: &mut P) -> Result<(), Failed>
    ensures counted { IfOk result (λ _. P.failures places.new ≡ P.failures places.old) }
    ensures fault { IsErr result → ((at : Spot) × P.hides places.old at) ⊎ HasFailed (P.failures places.old) (P.failures places.new) }
    ensures recovered { Recovers (P.spots places.old) (P.spots places.new) result }
    ensures settled { IsOk result → (original tree : List (Row (List ℕ)))
        → OnSpots (SettlesSwap original tree) (P.spots places.old) (P.spots places.new) }
    ensures again { (original tree : List (Row (List ℕ))) → OnSpots (StaysInSwap original tree) (P.spots places.old) (P.spots places.new) }
    ensures stops { (original tree : List (Row (List ℕ))) → AtEachMoment (StaysInSwap original tree) (P.spots places.old) (P.moments places.old) (P.moments places.new) }
{
    let target = places.present(Spot::Target)?;
    let new = places.present(Spot::New)?;
    let old = places.present(Spot::Old)?;
    tidy(places, target, new, old)
}

/// Replaces at some places, and recovers others. The new tree is put in place at the first, or a look at their target or a
/// call failed there. Where the others stand as a stop in the replacement may have left the first, at whatever moment,
/// recovery that ends leaves the original or the tree at their target, whole, and nothing at the other spots. It fails only
/// where a look or a call at the others failed. Where it is stopped or fails, it leaves what it may be called on again.
pub fn recover_stopped<P: Places, Q: Places>(
    places: &mut P,
    tree: &[Row<Items<u8>>],
    stopped: &mut Q,
) -> Result<(), Failed>
    requires tree { IsSubListing tree.now }
    requires new { IfSome (P.spots places.old) (λ s. s.new ≡ []) }
    requires old { IfSome (P.spots places.old) (λ s. s.old ≡ []) }
    ensures fault { IsErr result → ((at : Spot) × Q.hides stopped.old at) ⊎ HasFailed (Q.failures stopped.old) (Q.failures stopped.new) }
    ensures replaced { HasReplaced tree.now (P.spots places.old) (P.spots places.new)
        ⊎ ((P.hides places.old spot.Target) ⊎ HasFailed (P.failures places.old) (P.failures places.new)) }
    ensures settled { IsOk result → LeavesSettled tree.now (P.spots places.old) (P.moments places.old) (P.moments places.new)
        (Q.spots stopped.old) (Q.spots stopped.new) }
    ensures again { LeavesInSwap tree.now (P.spots places.old) (P.moments places.old) (P.moments places.new)
        (Q.spots stopped.old) (Q.moments stopped.old) (Q.moments stopped.new) }
{
    let _ = replace(places, tree);
    recover(stopped)
}

/// Makes the calls of recovery, by what lies where.
fn tidy<P: Places>(places: &mut P, target: bool, new: bool, old: bool) -> Result<(), Failed>
    requires { IfSome (P.spots places.old) (Looks target new old) }
    ensures counted { MatchResult result (λ _. P.failures places.new ≡ P.failures places.old) (λ _. HasFailed (P.failures places.old) (P.failures places.new)) }
    ensures done { MakesCalls (recovery target new old) (P.spots places.old) (P.spots places.new) result }
    ensures stops { AtEachMoment (IsDuring (recovery target new old)) (P.spots places.old) (P.moments places.old) (P.moments places.new) }
{
    if !target && new && old {
        places.rename(Spot::Old, Spot::Target)?;
        return places.remove(Spot::New);
    }
    clear_if(places, Spot::New, new)?;
    clear_if(places, Spot::Old, old)
}

/// Clears a spot, if something lies there.
fn clear_if<P: Places>(places: &mut P, spot: Spot, there: bool) -> Result<(), Failed>
    ensures counted { MatchResult result (λ _. P.failures places.new ≡ P.failures places.old) (λ _. HasFailed (P.failures places.old) (P.failures places.new)) }
    ensures done { MakesCalls (removal (spot_of spot) there) (P.spots places.old) (P.spots places.new) result }
    ensures stops { AtEachMoment (IsDuring (removal (spot_of spot) there)) (P.spots places.old) (P.moments places.old) (P.moments places.new) }
{
    if there { places.remove(spot) } else { Ok(()) }
}
