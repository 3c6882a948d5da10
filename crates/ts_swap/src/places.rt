//! The three spots of a swap.
ghost use Rattle.std.specs.Prelude.{◌≡◌, ℕ, List, Option, IfOk, IfSome, IsErr, []};
ghost use Rattle.ts_model.specs.Swap.{Call, IsThere, MayStop, Spots};
ghost use Rattle.ts_model.specs.Swap as swap;
ghost use Rattle.ts_model.specs.Trees.{IsSubListing};
ghost use Rattle.ts_swap.specs.Leavings.{AtEachMoment, Counts, IsLast, Leaves, Tells, spot_of};
ghost use Rattle.ts_swap.specs.declared.places.Spot.{Spot};

use thiserror::Error;
use ts_model::items::Items;
use ts_model::row::Row;

/// Where something lies that a swap moves.
#[derive(Clone, Copy, Debug, PartialEq, Eq, Drop)]
pub enum Spot {
    /// The place whose content is replaced.
    Target,
    /// Where the new content is put together.
    New,
    /// Where the old content is kept until the new one is in place.
    Old,
}

/// The device failed in this call. Unless it was a look, the failure is counted.
#[derive(Clone, Copy, Debug, PartialEq, Eq, Drop, Error)]
#[error("device failed")]
pub struct Failed;

impl Failed {
    /// The number that the fault is reported by.
    pub fn number(&self) -> u8
        ensures { result ≡ 8 }
    {
        8
    }
}

/// The three spots of a swap, each empty or with a file or a directory and all below it.
///
/// What is said of the spots is said of places that tell them, as those in memory do.
pub trait Places {
    // What lies at the spots, where they are known.
    ghost spots: { Self → Option Spots };

    // What a stop may have left, from the first moment on: what lay at the spots at each, where that is known. Each call adds
    // those that it passes.
    ghost moments: { Self → List Spots };

    // How often a call failed that changes something, up to 2^64 - 1.
    ghost failures: { Self → ℕ };

    // A look at this spot may fail. No call makes more looks fail.
    ghost hides: { Self → Spot → Type 0 };

    /// Whether something lies at a spot.
    fn present(&self, spot: Spot) -> Result<bool, Failed>
        ensures told { IfOk result (λ there. IfSome (spots self.now) (λ s. Tells there (swap.spot s (spot_of spot)))) }
        ensures fault { IsErr result → hides self.now spot };

    /// Puts a tree at the new spot, where nothing lies. After a failure anything may lie there.
    fn write(&mut self, tree: &[Row<Items<u8>>]) -> Result<(), Failed>
        requires tree { IsSubListing tree.now }
        requires empty { IfSome (spots self.old) (λ s. s.new ≡ []) }
        ensures left { Leaves (Call.Write tree.now) (spots self.old) (spots self.new) result }
        ensures stops { AtEachMoment (λ s. MayStop s (Call.Write tree.now)) (spots self.old) (moments self.old) (moments self.new) }
        ensures counted { Counts (failures self.old) (failures self.new) result }
        ensures looks { (at : Spot) → hides self.new at → hides self.old at };

    /// Moves what lies at a spot to another one, where nothing lies. A failure changes nothing.
    fn rename(&mut self, from: Spot, to: Spot) -> Result<(), Failed>
        requires there { IfSome (spots self.old) (λ s. IsThere s (spot_of from)) }
        requires empty { IfSome (spots self.old) (λ s. swap.spot s (spot_of to) ≡ []) }
        ensures left { Leaves (Call.Rename (spot_of from) (spot_of to)) (spots self.old) (spots self.new) result }
        ensures stops { AtEachMoment (λ s. MayStop s (Call.Rename (spot_of from) (spot_of to))) (spots self.old) (moments self.old) (moments self.new) }
        ensures counted { Counts (failures self.old) (failures self.new) result }
        ensures looks { (at : Spot) → hides self.new at → hides self.old at };

    /// Clears a spot. After a failure anything may lie there.
    fn remove(&mut self, spot: Spot) -> Result<(), Failed>
        ensures left { Leaves (Call.Remove (spot_of spot)) (spots self.old) (spots self.new) result }
        ensures stops { AtEachMoment (λ s. MayStop s (Call.Remove (spot_of spot))) (spots self.old) (moments self.old) (moments self.new) }
        ensures counted { Counts (failures self.old) (failures self.new) result }
        ensures looks { (at : Spot) → hides self.new at → hides self.old at };

    // Between two calls a stop leaves what lies at the spots.
    ghost stands: { (places : Self) → IfSome (spots places) (λ s. IsLast s (moments places)) };
}
