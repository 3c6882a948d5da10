//! What ends a run early.
ghost use Rattle.std.specs.Prelude.{IsTrue};

use crate::gate::Gate;

/// Is asked before each try of a claim whether to stop. Who is answered true tries no further claim; what is begun ends.
pub trait Stop: Sync {
    // That it may answer true.
    ghost stops: { Self → Type 0 };

    /// Whether to stop now.
    fn now(&self) -> bool
        ensures { IsTrue result → stops self.now };
}

/// A gate that never stops anyone.
#[derive(Clone, Copy, Drop)]
pub struct Unstopped<'a, G> {
    pub gate: &'a G,
}

impl<G: Gate> Gate for Unstopped<'_, G> {
    fn pass(&self, action: u32) {
        self.gate.pass(action);
    }
}

impl<G: Gate> Stop for Unstopped<'_, G> {
    ghost stops = { λ _. ⊥ };

    fn now(&self) -> bool {
        false
    }
}

/// A gate, and what stops those that come to it.
#[derive(Clone, Copy, Drop)]
pub struct Stoppable<'a, G, T> {
    pub gate: &'a G,
    pub stop: &'a T,
}

impl<G: Gate, T: Stop> Gate for Stoppable<'_, G, T> {
    fn pass(&self, action: u32) {
        self.gate.pass(action);
    }
}

impl<G: Gate, T: Stop> Stop for Stoppable<'_, G, T> {
    ghost stops = { λ s. T.stops s.stop.now };

    fn now(&self) -> bool {
        self.stop.now()
    }
}
