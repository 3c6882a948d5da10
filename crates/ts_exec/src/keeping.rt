//! Checkpoints of the archive that a worker makes between its actions.
ghost use Rattle.std.specs.Prelude.{◌≡◌, List, Option, None};
ghost use Rattle.ts_board.specs.Calls.{IsPassOf, IsSamePart, seen, terms_of};
ghost use Rattle.ts_board.specs.Checkpoints.{HasLooked};
ghost use Rattle.ts_exec.specs.Stores.{Keeps, StaysKept};
ghost use Rattle.ts_model.specs.Trees.{Listing};
ghost use Rattle.ts_model.specs.declared.row.Stamp.{Stamp};

use crate::gate::Gate;
use crate::shared::Shared;
use crate::stop::Stop;
use ts_board::Pass;
use ts_folder::Folder;
use ts_print::Print;
use ts_site::Site;
use ts_stage::Stage;

/// After an archive of more paths than this the next checkpoint also waits for actions in proportion to them: it looks at all
/// marks and copies the archive, and the other workers are to get further meanwhile than this one falls behind.
const SMALL: usize = 1_024;

/// It waits for this part of the paths.
const SHARE: usize = 4;

/// Is handed archives of a run while it goes on.
pub trait Keeper: Drop {
    // The archives that it stores, in their order, where it tells them. One that writes them elsewhere tells none.
    ghost kept: { Self → Option (List (Listing Stamp)) };

    /// Stores an archive, or does without it.
    fn keep(&mut self, archive: Print)
        ensures { Keeps (kept self.old) (kept self.new) archive };
}

/// Stores nothing.
#[derive(Clone, Copy, Debug, Drop)]
pub struct NoKeeper;

impl Keeper for NoKeeper {
    ghost kept = { λ _. None };

    fn keep(&mut self, _archive: Print) {}
}

/// A keeper, and after how many actions it is handed an archive.
#[derive(Drop)]
pub struct Keeping<K> {
    pub keeper: K,
    /// No archive is made where this is missing.
    every: Option<u32>,
    /// How many actions its worker has still to claim until the next archive is due.
    left: u32,
}

impl Keeping<NoKeeper> {
    /// Makes no archives.
    pub fn never() -> Keeping<NoKeeper> {
        Keeping {
            keeper: NoKeeper,
            every: None,
            left: 0,
        }
    }
}

impl<K> Keeping<K> {
    /// Hands archives to this keeper, after each `every` actions.
    pub fn new(keeper: K, every: u32) -> Keeping<K>
        ensures keeper { result.keeper ≡ keeper }
    {
        Keeping {
            keeper,
            every: Some(every),
            left: every,
        }
    }

    /// The keeper.
    pub fn into_keeper(self) -> K
        ensures { result ≡ self.keeper }
    {
        self.keeper
    }

    /// Counts an action, and says whether an archive is due after it.
    fn is_due(&mut self) -> bool
        ensures keeper { self.new.keeper ≡ self.old.keeper }
    {
        let Some(every) = self.every else {
            return false;
        };
        self.left = self.left.saturating_sub(1);
        if self.left > 0 {
            return false;
        }
        self.left = every;
        true
    }
}

impl<K: Keeper> Keeping<K> {
    /// Hands an archive to the keeper. After a large one the next has to wait.
    fn keep(&mut self, archive: Print)
        ensures { Keeps (K.kept self.old.keeper) (K.kept self.new.keeper) archive }
    {
        let paths = archive.rows().len();
        if paths > SMALL {
            let wait = u32::try_from(paths / SHARE).unwrap_or(u32::MAX);
            self.left = self.left.max(wait);
        }
        self.keeper.keep(archive);
    }
}

impl<'a, 'b, S: Site, F, G, P> Shared<'a, 'b, S, F, G, P>
where
    F: Folder + Sync,
    G: Gate + Stop + Sync,
    P: Stage,
{
    /// Counts an action that was claimed, and makes a checkpoint where one is due. One that finds no memory is left out.
    pub fn keep_up<K: Keeper>(&self, pass: &mut Pass<S>, keeping: &mut Keeping<K>)
        requires pass { IsPassOf S.content self.now.board.now pass.old }
        ensures pass { IsPassOf S.content self.now.board.now pass.new × IsSamePart pass.old pass.new }
        ensures looked { HasLooked (terms_of S.content self.now.board.now) pass.old pass.new }
        ensures kept { StaysKept self.now.checked.now (seen pass.old) (K.kept keeping.old.keeper) (seen pass.new) (K.kept keeping.new.keeper) }
    {
        if !keeping.is_due() {
            return;
        }
        if let Ok(archive) = self.board.checkpoint(self.alloc, pass, self.checked) {
            keeping.keep(archive);
        }
    }
}
