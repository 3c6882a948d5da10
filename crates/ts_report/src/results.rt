//! How the actions of a run ended.
ghost use Rattle.std.specs.Prelude.{◌≡◌, ◌<◌, ℕ};
ghost use Rattle.ts_report.specs.declared.results.Ending.{Ending};

/// How an action ended.
#[derive(Clone, Copy, Debug, PartialEq, Eq, Drop)]
pub enum Ending {
    /// It did its work.
    Done,
    /// It was begun, and its work couldn't be done.
    Failed,
    /// It wasn't begun.
    Left,
}

/// How the actions of a run ended, by their numbers from 0.
pub trait Results {
    // How many actions the run was of.
    ghost count: { Self → ℕ };

    // How each one ended.
    ghost endings: { Self → ℕ → Ending };

    /// How an action of the run ended.
    fn ending(&self, action: u32) -> Ending
        requires { action < count self.now }
        ensures { result ≡ endings self.now action };
}
