//! What lies at the spots of a swap at one moment.
ghost use Rattle.std.specs.Prelude.{◌≡◌, IfOk};
ghost use Rattle.ts_model.specs.Swap as model;
ghost use Rattle.ts_swap.specs.Leavings.{spot_of};

use crate::places::Spot;
use std::alloc::{AllocError, Global};
use std::marker::Model;
use ts_model::items::Items;
use ts_model::row::Row;
use ts_table::SubTable;

/// What lies at the three spots at one moment, in memory.
#[derive(Drop)]
pub struct State {
    target: SubTable<Items<u8>>,
    new: SubTable<Items<u8>>,
    old: SubTable<Items<u8>>,
}

impl Model for State {
    ghost use Rattle.ts_model.specs.Swap.{Spots};

    ghost Value = { Spots };

    ghost view = { λ s. record { target = s.target; new = s.new; old = s.old } };
}

impl State {
    /// These at the spots. It takes no memory.
    pub fn new(
        at_target: SubTable<Items<u8>>,
        at_new: SubTable<Items<u8>>,
        at_old: SubTable<Items<u8>>,
    ) -> Self
        ensures { result ≡ record { target = at_target; new = at_new; old = at_old } }
    {
        State {
            target: at_target,
            new: at_new,
            old: at_old,
        }
    }

    /// What lies at a spot, by paths relative to it.
    pub fn rows(&self, spot: Spot) -> &[Row<Items<u8>>]
        ensures { result.now ≡ model.spot self.now (spot_of spot) }
    {
        match spot {
            Spot::Target => self.target.rows(),
            Spot::New => self.new.rows(),
            Spot::Old => self.old.rows(),
        }
    }

    /// The same once more.
    pub fn copy(&self, alloc: Global) -> Result<State, AllocError>
        ensures { IfOk result (λ copy. copy ≡ self.now) }
    {
        let target = self.target.copy(alloc)?;
        let new = self.new.copy(alloc)?;
        let old = self.old.copy(alloc)?;
        Ok(State { target, new, old })
    }

    /// What lies at each of the spots: at the target, at the new and at the old one. It takes no memory.
    pub(crate) fn into_parts(
        self,
    ) -> (
        SubTable<Items<u8>>,
        SubTable<Items<u8>>,
        SubTable<Items<u8>>,
    )
        ensures { self ≡ record { target = result.0; new = result.1; old = result.2 } }
    {
        let State { target, new, old } = self;
        (target, new, old)
    }
}
