//! After the workers, what is still open is claimed in order.
ghost use Rattle.std.specs.Prelude.{◌≡◌, ◌≢◌, ◌⊎◌, ◌<◌, ◌++◌, length};
ghost use Rattle.ts_board.specs.Calls.{IsPassOf, IsSamePart, mine, seen};
ghost use Rattle.ts_board.specs.Runs.{StartsWith};
ghost use Rattle.ts_exec.specs.Stores.{StaysKept};
ghost use Rattle.ts_exec.specs.Tidy.{IsSwept, IsTidy, Noted, EndsOnly};
ghost use Rattle.ts_exec.specs.Sharing.{setting_of};
ghost use Rattle.ts_model.specs.Runs.{Has, Run, claims, word_after};

use crate::fault::ActFault;
use crate::gate::Gate;
use crate::keeping::{Keeper, Keeping};
use crate::shared::Shared;
use crate::stop::Stop;
use crossbeam_deque::Worker;
use ts_board::Pass;
use ts_folder::Folder;
use ts_site::Site;
use ts_stage::Stage;

impl<'a, 'b, S: Site, F, G, P> Shared<'a, 'b, S, F, G, P>
where
    F: Folder + Sync,
    G: Gate + Stop + Sync,
    P: Stage,
{
    /// Tries each action once, in order, until it is stopped, and notes why it failed.
    pub fn sweep<K: Keeper>(
        &self,
        pass: &mut Pass<S>,
        unread: &mut Worker<u32>,
        faults: &mut Vec<Option<ActFault>>,
        keeping: &mut Keeping<K>,
    )
        requires pass { IsPassOf S.content self.now.board.now pass.old }
        requires tidy { IsTidy self.now.checked.now.plan (mine pass.old) }
        requires room { length faults.old.items ≡ length self.now.checked.now.plan.actions }
        requires noted { Noted (setting_of S.Site F.Folder G.Stop P.Stage self.now) (mine pass.old) (seen pass.old) faults.old.items }
        ensures pass { IsPassOf S.content self.now.board.now pass.new × IsSamePart pass.old pass.new }
        ensures tidy { IsTidy self.now.checked.now.plan (mine pass.new) }
        ensures noted { Noted (setting_of S.Site F.Folder G.Stop P.Stage self.now) (mine pass.new) (seen pass.new) faults.new.items }
        ensures room { length faults.new.items ≡ length self.now.checked.now.plan.actions }
        ensures swept { IsSwept (setting_of S.Site F.Folder G.Stop P.Stage self.now) (mine pass.new) (seen pass.new) }
        ensures kept { StaysKept self.now.checked.now (seen pass.old) (K.kept keeping.old.keeper) (seen pass.new) (K.kept keeping.new.keeper) }
    {
        for i in 0..self.checked.action_count() {
            if self.gate.now() {
                return;
            }
            self.sweep_one(pass, i, unread, faults, keeping);
        }
    }

    /// Tries an action, and notes why it failed. One look is enough where it is over or waits for another, as nearly all are by then.
    fn sweep_one<K: Keeper>(
        &self,
        pass: &mut Pass<S>,
        i: u32,
        unread: &mut Worker<u32>,
        faults: &mut Vec<Option<ActFault>>,
        keeping: &mut Keeping<K>,
    )
        requires pass { IsPassOf S.content self.now.board.now pass.old }
        requires action { i < length self.now.checked.now.plan.actions }
        requires tidy { IsTidy self.now.checked.now.plan (mine pass.old) }
        requires room { length faults.old.items ≡ length self.now.checked.now.plan.actions }
        requires noted { Noted (setting_of S.Site F.Folder G.Stop P.Stage self.now) (mine pass.old) (seen pass.old) faults.old.items }
        ensures pass { IsPassOf S.content self.now.board.now pass.new × IsSamePart pass.old pass.new }
        ensures seen { StartsWith (seen pass.new) (seen pass.old) }
        ensures steps { (block : Run) × (mine pass.new ≡ mine pass.old ++ block) × IsTidy self.now.checked.now.plan block × EndsOnly i block }
        ensures tried { Has (mine pass.new) (claims i) ⊎ ((mine pass.new ≡ mine pass.old) × (word_after self.now.checked.now.plan (seen pass.new) i ≢ 0)) }
        ensures noted { Noted (setting_of S.Site F.Folder G.Stop P.Stage self.now) (mine pass.new) (seen pass.new) faults.new.items }
        ensures room { length faults.new.items ≡ length self.now.checked.now.plan.actions }
        ensures kept { StaysKept self.now.checked.now (seen pass.old) (K.kept keeping.old.keeper) (seen pass.new) (K.kept keeping.new.keeper) }
    {
        if self.board.look(pass, i) != 0 {
            return;
        }
        self.try_open(pass, i, unread, faults, keeping);
    }

    /// Tries an action that is open, and notes why it failed.
    fn try_open<K: Keeper>(
        &self,
        pass: &mut Pass<S>,
        i: u32,
        unread: &mut Worker<u32>,
        faults: &mut Vec<Option<ActFault>>,
        keeping: &mut Keeping<K>,
    )
        requires pass { IsPassOf S.content self.now.board.now pass.old }
        requires action { i < length self.now.checked.now.plan.actions }
        requires tidy { IsTidy self.now.checked.now.plan (mine pass.old) }
        requires room { length faults.old.items ≡ length self.now.checked.now.plan.actions }
        requires noted { Noted (setting_of S.Site F.Folder G.Stop P.Stage self.now) (mine pass.old) (seen pass.old) faults.old.items }
        ensures pass { IsPassOf S.content self.now.board.now pass.new × IsSamePart pass.old pass.new }
        ensures seen { StartsWith (seen pass.new) (seen pass.old) }
        ensures steps { (block : Run) × (mine pass.new ≡ mine pass.old ++ block) × IsTidy self.now.checked.now.plan block × EndsOnly i block }
        ensures tried { Has (mine pass.new) (claims i) ⊎ ((mine pass.new ≡ mine pass.old) × (word_after self.now.checked.now.plan (seen pass.new) i ≢ 0)) }
        ensures noted { Noted (setting_of S.Site F.Folder G.Stop P.Stage self.now) (mine pass.new) (seen pass.new) faults.new.items }
        ensures room { length faults.new.items ≡ length self.now.checked.now.plan.actions }
        ensures kept { StaysKept self.now.checked.now (seen pass.old) (K.kept keeping.old.keeper) (seen pass.new) (K.kept keeping.new.keeper) }
    {
        if let Some(fault) = self.attempt(pass, i, unread, keeping) {
            faults[i as usize] = Some(fault);
        }
    }
}
