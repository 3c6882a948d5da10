//! All workers at once.
ghost use Rattle.std.specs.Prelude.{ℕ, ◌≡◌, ◌⊎◌, ◌<◌, false, IsTrue, Some, length, slice_get};
ghost use Rattle.std.specs.Thread.{IsSend, IsSync};
ghost use Rattle.ts_board.specs.Calls.{HasBothParts, IsPassOf, IsSamePart, mine, seen};
ghost use Rattle.ts_board.specs.Runs.{StartsWith};
ghost use Rattle.ts_exec.specs.Stores.{StaysKept};
ghost use Rattle.ts_exec.specs.Tidy.{AreFresh, AreNoted, IsSameShare, IsTidy, Noted, StayNoted};
ghost use Rattle.ts_exec.specs.Sharing.{HasList, HasNotes, setting_of, HasBegun};
ghost use Rattle.ts_exec.specs.declared.crew.Failure.{Failure};

use crate::crew::{Failure, Member, Queues};
use crate::fault::ActFault;
use crate::gate::Gate;
use crate::keeping::{Keeper, Keeping};
use crate::shared::Shared;
use crate::stop::Stop;
use crate::workers::Worked;
use std::thread::{Threads, join};
use ts_board::Pass;
use ts_folder::Folder;
use ts_site::Site;
use ts_stage::Stage;

/// What all workers end with.
pub struct AllWorked<S, K> {
    pub pass: Pass<S>,
    /// Why each action failed.
    pub faults: Vec<Option<ActFault>>,
    /// One of them was stopped.
    pub is_stopped: bool,
    /// What the calling thread's worker has kept.
    pub keeping: Keeping<K>,
}

impl<'a, 'b, S: Site, F, G, P> Shared<'a, 'b, S, F, G, P>
where
    F: Folder + Sync,
    G: Gate + Stop + Sync,
    P: Stage,
{
    /// Notes why actions failed.
    pub fn note(&self, faults: &mut Vec<Option<ActFault>>, failures: &[Failure])
        requires room { length faults.old.items ≡ length self.now.checked.now.plan.actions }
        requires within { (m : ℕ) (e : Failure) → slice_get failures.now m ≡ Some e → e.action < length self.now.checked.now.plan.actions }
        ensures room { length faults.new.items ≡ length faults.old.items }
        ensures kept { StayNoted (setting_of S.Site F.Folder G.Stop P.Stage self.now) failures.now faults.old.items faults.new.items }
        ensures noted { AreNoted (setting_of S.Site F.Folder G.Stop P.Stage self.now) failures.now faults.new.items }
    {
        for failure in failures {
            faults[failure.action as usize] = Some(failure.fault);
        }
    }

    /// Puts together what a worker leaves behind and what the others do.
    fn put_together<K>(&self, all: AllWorked<S, K>, worked: Worked<S>) -> AllWorked<S, K>
        requires notes { HasNotes S.Site F.Folder G.Stop P.Stage self.now all.pass all.faults.items }
        requires list { HasList S.Site F.Folder G.Stop P.Stage self.now worked.pass worked.failures.items }
        ensures notes { HasNotes S.Site F.Folder G.Stop P.Stage self.now result.pass result.faults.items }
        ensures part { HasBothParts all.pass worked.pass result.pass }
        ensures stopped { IsTrue result.is_stopped → IsTrue all.is_stopped ⊎ IsTrue worked.is_stopped }
        ensures seen { StartsWith (seen result.pass) (seen all.pass) × StartsWith (seen result.pass) (seen worked.pass) }
        ensures keeping { result.keeping ≡ all.keeping }
    {
        let AllWorked {
            pass,
            mut faults,
            is_stopped: others_are_stopped,
            keeping,
        } = all;
        let Worked {
            pass: theirs,
            failures,
            is_stopped,
        } = worked;
        self.note(&mut faults, failures.as_slice());
        AllWorked {
            pass: self.board.join(pass, theirs),
            faults,
            is_stopped: others_are_stopped || is_stopped,
            keeping,
        }
    }
}

/// Lets all members work at once, each but the last in a thread of its own. A thread that can't start is done without. The
/// calling thread's worker makes the checkpoints.
pub fn work_at_once<
    R: Threads + Sync,
    S: Site,
    F: Folder + Sync,
    G: Gate + Stop + Sync,
    K: Keeper,
    P: Stage,
>(
    rt: &R,
    shared: &Shared<'_, '_, S, F, G, P>,
    queues: &[Queues],
    members: Vec<Member>,
    pass: Pass<S>,
    faults: Vec<Option<ActFault>>,
    keeping: Keeping<K>,
) -> AllWorked<S, K>
where
    F::File: Send,
    requires pass { IsPassOf S.content shared.now.board.now pass }
    requires tidy { IsTidy shared.now.checked.now.plan (mine pass) }
    requires room { length faults.items ≡ length shared.now.checked.now.plan.actions }
    requires noted { Noted (setting_of S.Site F.Folder G.Stop P.Stage shared.now) (mine pass) (seen pass) faults.items }
    requires fresh { AreFresh members.items }
    ensures pass { IsPassOf S.content shared.now.board.now result.pass × IsSameShare pass result.pass }
    ensures tidy { IsTidy shared.now.checked.now.plan (mine result.pass) }
    ensures room { length result.faults.items ≡ length shared.now.checked.now.plan.actions }
    ensures noted { Noted (setting_of S.Site F.Folder G.Stop P.Stage shared.now) (mine result.pass) (seen result.pass) result.faults.items }
    ensures stopped { IsTrue result.is_stopped → G.stops shared.now.gate.now }
    ensures kept { StaysKept shared.now.checked.now (seen pass) (K.kept keeping.keeper) (seen result.pass) (K.kept result.keeping.keeper) }
{
    work_in_halves(rt, shared, queues, members, pass, faults, keeping)
}

/// The last member works with one half of the pass, the others with the other half.
#[cycle(halves)]
fn work_in_halves<
    R: Threads + Sync,
    S: Site,
    F: Folder + Sync,
    G: Gate + Stop + Sync,
    K: Keeper,
    P: Stage,
>(
    rt: &R,
    shared: &Shared<'_, '_, S, F, G, P>,
    queues: &[Queues],
    mut members: Vec<Member>,
    pass: Pass<S>,
    faults: Vec<Option<ActFault>>,
    mut keeping: Keeping<K>,
) -> AllWorked<S, K>
where
    F::File: Send,
    requires notes { HasNotes S.Site F.Folder G.Stop P.Stage shared.now pass faults.items }
    requires fresh { AreFresh members.items }
    ensures notes { HasNotes S.Site F.Folder G.Stop P.Stage shared.now result.pass result.faults.items }
    ensures share { IsSameShare pass result.pass }
    ensures stopped { IsTrue result.is_stopped → G.stops shared.now.gate.now }
    ensures kept { StaysKept shared.now.checked.now (seen pass) (K.kept keeping.keeper) (seen result.pass) (K.kept result.keeping.keeper) }
{
    let Some(member) = members.pop() else {
        return none_worked(pass, faults, keeping);
    };
    let (ours, theirs) = match shared.board.split(pass) {
        Ok(halves) => halves,
        Err(pass) => return none_worked(pass, faults, keeping),
    };
    if members.is_empty() {
        let worked = shared.work(queues, member, theirs, &mut keeping);
        return shared.put_together(none_worked(ours, faults, keeping), worked);
    }
    let one = move || -> Worked<S>
        requires { IsSync F.row × IsSync G.row × IsSync P.row × HasList S.Site F.Folder G.Stop P.Stage shared.now theirs member.failures.items }
        ensures list { HasList S.Site F.Folder G.Stop P.Stage shared.entry.now result.pass result.failures.items }
        ensures part { IsSamePart theirs result.pass }
        ensures stopped { IsTrue result.is_stopped → G.stops shared.entry.now.gate.now }
    { shared.work(queues, member, theirs, &mut Keeping::never()) };
    let others = move || -> AllWorked<S, K>
        requires threads { IsSync R.row × IsSync F.row × IsSync G.row × IsSync P.row × IsSend F.File.row }
        requires begun { HasBegun S.Site F.Folder G.Stop P.Stage shared.now ours faults.items members.items }
        ensures notes { HasNotes S.Site F.Folder G.Stop P.Stage shared.entry.now result.pass result.faults.items }
        ensures share { IsSameShare ours result.pass }
        ensures stopped { IsTrue result.is_stopped → G.stops shared.entry.now.gate.now }
        ensures kept { StaysKept shared.entry.now.checked.now (seen ours) (K.kept keeping.keeper) (seen result.pass) (K.kept result.keeping.keeper) }
    { work_in_halves(rt, shared, queues, members, ours, faults, keeping) };
    let (worked, rest) = join(rt, one, others);
    shared.put_together(rest, worked)
}

/// What no worker has changed.
fn none_worked<S, K>(
    pass: Pass<S>,
    faults: Vec<Option<ActFault>>,
    keeping: Keeping<K>,
) -> AllWorked<S, K>
    ensures pass { result.pass ≡ pass }
    ensures faults { result.faults.items ≡ faults.items }
    ensures stopped { result.is_stopped ≡ false }
    ensures keeping { result.keeping ≡ keeping }
{
    AllWorked {
        pass,
        faults,
        is_stopped: false,
        keeping,
    }
}
