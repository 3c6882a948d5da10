//! Places in memory.
ghost use Rattle.std.specs.Prelude.{◌≡◌, ◌++◌, [], ◌∷◌, false, IfOk, IsTrue, MatchResult};
ghost use Rattle.ts_model.specs.Trees.{IsSubListing};
ghost use Rattle.ts_model.specs.Swap as model;
ghost use Rattle.ts_swap.specs.Leavings.{Counts, Grows, spot_of};
ghost use Rattle.ts_swap.specs.Memory.{moments_of, spots_in};

use crate::places::{Failed, Places, Spot};
use crate::state::State;
use std::alloc::{AllocError, Global};
use std::mem;
use ts_model::items::Items;
use ts_model::row::{Content, Row};
use ts_table::{CopyFile, SubTable};

/// The spots of a swap in memory, so what lies there is known, and what lay there at each moment. Calls that change something
/// fail where they are set to; out of memory is such a failure too.
pub struct MemPlaces {
    alloc: Global,
    at_target: SubTable<Items<u8>>,
    at_new: SubTable<Items<u8>>,
    at_old: SubTable<Items<u8>>,
    // what lay at the spots at each moment before this one, the first first
    past: Vec<State>,
    // whether each call to come fails, the next one last; those beyond them succeed
    fails: Vec<bool>,
    failures: u64,
    // every look fails
    blind: bool,
}

// Written out, so that a proof about what drops places calls a function.
impl Drop for MemPlaces {
    fn drop(self) {
        let MemPlaces {
            alloc: _,
            at_target,
            at_new,
            at_old,
            past,
            fails,
            failures: _,
            blind: _,
        } = self;
        drop(at_target);
        drop(at_new);
        drop(at_old);
        drop(past);
        drop(fails);
    }
}

impl MemPlaces {
    /// Something at the target, and nothing at the other spots. Takes no memory.
    ///
    /// Of the calls to come those fail for which `fails` says so, its last item for the next call. Where `blind` is set,
    /// each look fails.
    pub fn new(alloc: Global, target: SubTable<Items<u8>>, fails: Vec<bool>, blind: bool) -> Self
        ensures spots { spots_in result ≡ record { target = target; new = []; old = [] } }
        ensures failures { result.failures ≡ 0 }
        ensures told { (result.fails ≡ fails) × (result.blind ≡ blind) }
        ensures moments { moments_of result ≡ spots_in result ∷ [] }
    {
        MemPlaces {
            alloc,
            at_target: target,
            at_new: SubTable::absent(alloc),
            at_old: SubTable::absent(alloc),
            past: Vec::new(alloc),
            fails,
            failures: 0,
            blind,
        }
    }

    /// These at the spots, as a stop may have left them. It takes no memory. Calls fail as `new` says.
    pub fn at(alloc: Global, state: State, fails: Vec<bool>, blind: bool) -> Self
        ensures spots { spots_in result ≡ state }
        ensures failures { result.failures ≡ 0 }
        ensures told { (result.fails ≡ fails) × (result.blind ≡ blind) }
        ensures moments { moments_of result ≡ state ∷ [] }
    {
        let (at_target, at_new, at_old) = state.into_parts();
        MemPlaces {
            alloc,
            at_target,
            at_new,
            at_old,
            past: Vec::new(alloc),
            fails,
            failures: 0,
            blind,
        }
    }

    /// What lies at a spot, by paths relative to it.
    pub fn rows(&self, spot: Spot) -> &[Row<Items<u8>>]
        ensures { result.now ≡ model.spot (spots_in self.now) (spot_of spot) }
    {
        match spot {
            Spot::Target => self.at_target.rows(),
            Spot::New => self.at_new.rows(),
            Spot::Old => self.at_old.rows(),
        }
    }

    /// What lay at the spots at each moment before this one, the first first: a stop there would have left it.
    pub fn past(&self) -> &[State]
        ensures { moments_of self.now ≡ result.now ++ spots_in self.now ∷ [] }
    {
        &self.past
    }

    /// How often a call failed, up to 2^64 - 1.
    pub fn failures(&self) -> u64
        ensures { result ≡ self.now.failures }
    {
        self.failures
    }
}

impl MemPlaces {
    /// Whether the next call fails, which is then counted.
    fn stumbles(&mut self) -> bool
        ensures spots { spots_in self.new ≡ spots_in self.old }
        ensures blind { self.new.blind ≡ self.old.blind }
        ensures failed { IsTrue result → Grows self.old.failures self.new.failures }
        ensures going { result ≡ false → self.new.failures ≡ self.old.failures }
        ensures past { self.new.past.items ≡ self.old.past.items }
    {
        let fails = self.fails.pop().unwrap_or(false);
        if fails {
            self.count();
        }
        fails
    }

    /// Counts a failure.
    fn count(&mut self)
        ensures spots { spots_in self.new ≡ spots_in self.old }
        ensures blind { self.new.blind ≡ self.old.blind }
        ensures grown { Grows self.old.failures self.new.failures }
        ensures past { self.new.past.items ≡ self.old.past.items }
    {
        self.failures = self.failures.saturating_add(1);
    }

    /// Keeps what lies at the spots, as one of the moments, before it is changed. Out of memory is a failure, and counted.
    fn remember(&mut self) -> Result<(), Failed>
        ensures spots { spots_in self.new ≡ spots_in self.old }
        ensures blind { self.new.blind ≡ self.old.blind }
        ensures counted { Counts self.old.failures self.new.failures result }
        ensures past { MatchResult result (λ _. self.new.past.items ≡ self.old.past.items ++ spots_in self.old ∷ [])
            (λ _. self.new.past.items ≡ self.old.past.items) }
    {
        let state = match self.state() {
            Ok(state) => state,
            Err(AllocError) => {
                self.count();
                return Err(Failed);
            }
        };
        if self.past.push(state).is_err() {
            self.count();
            return Err(Failed);
        }
        Ok(())
    }

    /// What lies at the spots, once more.
    fn state(&self) -> Result<State, AllocError>
        ensures { IfOk result (λ state. state ≡ spots_in self.now) }
    {
        let target = self.at_target.copy(self.alloc)?;
        let new = self.at_new.copy(self.alloc)?;
        let old = self.at_old.copy(self.alloc)?;
        Ok(State::new(target, new, old))
    }

    /// Takes what lies at a spot.
    fn take(&mut self, spot: Spot) -> SubTable<Items<u8>>
        ensures taken { result ≡ model.spot (spots_in self.old) (spot_of spot) }
        ensures left { spots_in self.new ≡ model.with_spot (spots_in self.old) (spot_of spot) [] }
        ensures blind { self.new.blind ≡ self.old.blind }
        ensures failures { self.new.failures ≡ self.old.failures }
        ensures past { self.new.past.items ≡ self.old.past.items }
    {
        let nothing = SubTable::absent(self.alloc);
        match spot {
            Spot::Target => mem::replace(&mut self.at_target, nothing),
            Spot::New => mem::replace(&mut self.at_new, nothing),
            Spot::Old => mem::replace(&mut self.at_old, nothing),
        }
    }

    /// Puts something at a spot.
    fn put(&mut self, spot: Spot, part: SubTable<Items<u8>>)
        ensures left { spots_in self.new ≡ model.with_spot (spots_in self.old) (spot_of spot) part }
        ensures blind { self.new.blind ≡ self.old.blind }
        ensures failures { self.new.failures ≡ self.old.failures }
        ensures past { self.new.past.items ≡ self.old.past.items }
    {
        match spot {
            Spot::Target => self.at_target = part,
            Spot::New => self.at_new = part,
            Spot::Old => self.at_old = part,
        }
    }
}

/// The same rows once more.
fn copied(alloc: Global, rows: &[Row<Items<u8>>]) -> Result<SubTable<Items<u8>>, AllocError>
    requires { IsSubListing rows.now }
    ensures { IfOk result (λ part. part ≡ rows.now) }
{
    let mut copies = Vec::new(alloc);
    for row in rows {
        let path = row.path.copy(alloc).map_err(|_| AllocError)?;
        let content = match &row.content {
            Content::Absent => Content::Absent,
            Content::Dir => Content::Dir,
            Content::File(bytes) => Content::File(bytes.copy_file(alloc)?),
        };
        copies.push(Row { path, content })?;
    }
    Ok(SubTable::from_rows(copies))
}

impl Places for MemPlaces {
    ghost use Rattle.std.specs.Prelude.{Some, true, refl};

    ghost spots = { λ m. Some (spots_in m) };

    ghost moments = { λ m. moments_of m };

    ghost failures = { λ m. m.failures };

    ghost hides = { λ m _. m.blind ≡ true };

    ghost stands = { λ m. (m.past.items, refl) };

    fn present(&self, spot: Spot) -> Result<bool, Failed> {
        if self.blind {
            return Err(Failed);
        }
        Ok(!self.rows(spot).is_empty())
    }

    fn write(&mut self, tree: &[Row<Items<u8>>]) -> Result<(), Failed> {
        let Ok(copy) = copied(self.alloc, tree) else {
            self.count();
            return Err(Failed);
        };
        self.remember()?;
        self.put(Spot::New, copy);
        if self.stumbles() { Err(Failed) } else { Ok(()) }
    }

    #[tactic(auto, using(crate::proofs::Moving::moved))]
    fn rename(&mut self, from: Spot, to: Spot) -> Result<(), Failed> {
        if self.stumbles() {
            return Err(Failed);
        }
        self.remember()?;
        let moved = self.take(from);
        self.put(to, moved);
        Ok(())
    }

    fn remove(&mut self, spot: Spot) -> Result<(), Failed> {
        if self.stumbles() {
            return Err(Failed);
        }
        if self.remember().is_err() {
            return Err(Failed);
        }
        let _ = self.take(spot);
        Ok(())
    }
}
