//! What an action waits for.
ghost use Rattle.std.specs.Prelude.{◌≡◌, ◌++◌, ◌∷◌, [], IfOk, OnErr, OnOk};

use std::alloc::{AllocError, Global};
use std::marker::Model;

/// Numbers, by how many there are.
#[derive(Drop)]
pub(crate) enum Numbers {
    Nothing,
    One([u32; 1]),
    /// Elsewhere, so that an action stays small.
    More(Box<Vec<u32>>),
}

/// The numbers of the actions that one waits for, which contracts see as their list. None and one, as nearly all actions have,
/// take no memory of their own.
pub struct Predecessors {
    pub(crate) numbers: Numbers,
}

// Written out, so that a proof about what drops one calls a function.
impl Drop for Predecessors {
    fn drop(self) {
        let Predecessors { numbers } = self;
        drop(numbers);
    }
}

impl Model for Predecessors {
    ghost use Rattle.std.specs.Prelude.{List, ℕ};

    ghost Value = { List ℕ };

    ghost use Rattle.ts_model.specs.Predecessors.{numbers_in};

    ghost view = { λ s. numbers_in s.numbers };
}

impl Predecessors {
    /// No number. It takes no memory.
    pub fn none() -> Predecessors
        ensures { result ≡ [] }
    {
        Predecessors {
            numbers: Numbers::Nothing,
        }
    }

    /// These numbers. From two on they need a box of their own: `AllocError` where memory runs out for it.
    pub fn of(alloc: Global, numbers: Vec<u32>) -> Result<Predecessors, AllocError>
        ensures { IfOk result (λ made. made ≡ numbers.items) }
    {
        let numbers = match numbers.as_slice() {
            [] => Numbers::Nothing,
            [only] => Numbers::One([*only]),
            _ => Numbers::More(Box::new(alloc, numbers)?),
        };
        Ok(Predecessors { numbers })
    }

    /// Adds a number at the end. Where memory runs out nothing changes.
    pub fn push(&mut self, alloc: Global, number: u32) -> Result<(), AllocError>
        ensures ok { OnOk result (self.new ≡ self.old ++ number ∷ []) }
        ensures err { OnErr result (self.new ≡ self.old) }
    {
        match &mut self.numbers {
            Numbers::Nothing => self.numbers = Numbers::One([number]),
            Numbers::One(one) => {
                let both = [one[0], number];
                let numbers = Vec::from_slice(alloc, both.as_slice())?;
                self.numbers = Numbers::More(Box::new(alloc, numbers)?);
            }
            Numbers::More(numbers) => numbers.push(number)?,
        }
        Ok(())
    }

    /// The numbers. It takes no memory.
    pub fn as_slice(&self) -> &[u32]
        ensures { result.now ≡ self.now }
    {
        match &self.numbers {
            Numbers::Nothing => &[],
            Numbers::One(one) => one.as_slice(),
            Numbers::More(numbers) => numbers.as_slice(),
        }
    }
}
