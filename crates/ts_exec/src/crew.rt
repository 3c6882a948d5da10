//! The workers' hints, and room for what they find.
ghost use Rattle.std.specs.Prelude.{◌≡◌, IfOk, length};
ghost use Rattle.ts_exec.specs.Tidy.{AreFresh, HasRoomFor};

use crate::fault::ActFault;
use crate::outcome::ActionResult;
use crossbeam_deque::{Steal, Stealer, Worker};
use std::alloc::{AllocError, Global};
use ts_check::Checked;
use ts_model::packed::{KindRef, PackedAction};
use ts_model::plan::PIECE_SIZE;

/// How many hints a queue has room for at first.
const FIRST_HINTS: usize = 64;

/// How many small actions in a row are a block, which one worker takes. What neighbours need lies side by side in memory.
const BLOCK: u64 = 64;

/// How much of a block a small action is, where a block weighs as much as a whole piece.
const LEAST_WEIGHT: u64 = PIECE_SIZE / BLOCK;

/// The number of an action that failed, and why.
#[derive(Clone, Copy, Debug, Drop)]
pub struct Failure {
    pub action: u32,
    pub fault: ActFault,
}

/// What all may take from one worker's hints which actions may be ready.
#[derive(Drop)]
pub struct Queues {
    /// Its share of the blocks of actions that wait for nothing, the lowest first. The first action stands for its block.
    pub dealt: Stealer<u32>,
    /// Its own hints.
    pub own: Stealer<u32>,
}

/// What a worker needs to find hints: its own, and whose share it looks at first.
#[derive(Drop)]
pub struct Hints {
    /// The rest of a block that it took from a share, and the actions that it freed.
    pub own: Worker<u32>,
    pub turn: usize,
}

/// What a worker starts with: hints, and room for as many failures as there are actions.
#[derive(Drop)]
pub struct Member {
    pub hints: Hints,
    pub failures: Vec<Failure>,
}

/// Room for what comes of each action of a plan.
#[derive(Drop)]
pub struct Notes {
    /// Why each action failed.
    pub faults: Vec<Option<ActFault>>,
    pub results: Vec<ActionResult>,
}

impl Notes {
    /// Notes for a plan, in which nothing stands yet.
    pub fn for_plan(alloc: Global, checked: &Checked<'_>) -> Result<Notes, AllocError>
        ensures { IfOk result (HasRoomFor checked.now.plan) }
    {
        let actions = checked.action_count() as usize;
        Ok(Notes {
            faults: vec![in alloc; None; actions]?,
            results: Vec::with_capacity(alloc, actions)?,
        })
    }
}

/// All workers, and how they find actions.
#[derive(Drop)]
pub struct Crew {
    pub members: Vec<Member>,
    pub queues: Vec<Queues>,
    /// By these, blocks are dealt to the queues of `dealt`: none so far.
    pub shares: Vec<Worker<u32>>,
    /// The sweep's own hints, which nobody reads.
    pub unread: Worker<u32>,
}

impl Crew {
    /// A crew of so many workers for a plan. Nothing is dealt out yet.
    pub fn gather(alloc: Global, checked: &Checked<'_>, workers: u32) -> Result<Crew, AllocError>
        ensures members { IfOk result (λ crew. length crew.members.items ≡ workers) }
        ensures queues { IfOk result (λ crew. length crew.queues.items ≡ workers) }
        ensures shares { IfOk result (λ crew. length crew.shares.items ≡ workers) }
        ensures fresh { IfOk result (λ crew. AreFresh crew.members.items) }
    {
        let actions = checked.action_count() as usize;
        let shares = shares_for(alloc, workers)?;
        let mut queues = Vec::with_capacity(alloc, shares.len())?;
        let mut owned = Vec::with_capacity(alloc, shares.len())?;
        for share in shares.as_slice() {
            let own: Worker<u32> = Worker::new_lifo(alloc, FIRST_HINTS)?;
            queues.push(Queues {
                dealt: share.stealer()?,
                own: own.stealer()?,
            })?;
            owned.push(own)?;
        }
        Ok(Crew {
            members: members_with(alloc, owned, actions)?,
            queues,
            shares,
            unread: Worker::new_lifo(alloc, FIRST_HINTS)?,
        })
    }
}

/// A share for each of so many workers. Nothing is dealt out yet.
fn shares_for(alloc: Global, workers: u32) -> Result<Vec<Worker<u32>>, AllocError>
    ensures count { IfOk result (λ shares. length shares.items ≡ workers) }
{
    let mut shares = Vec::with_capacity(alloc, workers as usize)?;
    for _ in 0..workers {
        shares.push(Worker::new_fifo(alloc, FIRST_HINTS)?)?;
    }
    Ok(shares)
}

/// A member for each queue of own hints, with room for all failures.
fn members_with(
    alloc: Global,
    queues: Vec<Worker<u32>>,
    actions: usize,
) -> Result<Vec<Member>, AllocError>
    ensures count { IfOk result (λ members. length members.items ≡ length queues.items) }
    ensures fresh { IfOk result (λ members. AreFresh members.items) }
{
    let mut members = Vec::with_capacity(alloc, queues.len())?;
    for own in queues {
        let failures = Vec::with_capacity(alloc, actions)?;
        let turn = members.len();
        members.push(Member {
            hints: Hints { own, turn },
            failures,
        })?;
    }
    Ok(members)
}

/// Deals out the actions that wait for nothing, the lowest first, a block to each share in turn.
pub fn deal(checked: &Checked<'_>, shares: &mut [Worker<u32>]) {
    let count = shares.len();
    if count == 0 {
        return;
    }
    let actions = checked.plan().actions.as_slice();
    let mut next = 0;
    let mut dealt = 0u64;
    for i in 0..checked.action_count() {
        if checked.preds(i).is_empty() {
            if dealt == 0 {
                // A hint that finds no room is dropped: the sweep comes to its actions.
                let _ = shares[next].push(i);
            }
            dealt = dealt.saturating_add(weight(actions.get(i as usize)));
            if dealt >= PIECE_SIZE {
                dealt = 0;
                next = (next + 1) % count;
            }
        }
    }
}

/// Where the block that an action begins has its end: behind the action with which it weighs as much as a whole piece. So a block
/// has one whole piece at most, and a large file is read nearly in order.
fn end_of_block(checked: &Checked<'_>, first: u32) -> u32 {
    let actions = checked.plan().actions.as_slice();
    let mut dealt = 0u64;
    for i in first..checked.action_count() {
        if checked.preds(i).is_empty() {
            dealt = dealt.saturating_add(weight(actions.get(i as usize)));
            if dealt >= PIECE_SIZE {
                return i + 1;
            }
        }
    }
    checked.action_count()
}

/// How much of a block an action is, by what it reads.
fn weight(action: Option<&PackedAction>) -> u64 {
    match action.map(|action| action.kind()) {
        Some(KindRef::Piece { length, .. }) => LEAST_WEIGHT.max(length),
        Some(KindRef::Commit { .. } | KindRef::Mark { .. }) | None => LEAST_WEIGHT,
    }
}

impl Hints {
    /// The next hint: the last action that the worker freed, or the next of its block; or else the lowest block of a share, where
    /// the look begins one further after each block; or else one that another has. So the shares stay in step however long one
    /// worker is busy, pieces are staged nearly in order, and few commits have staged bytes at once.
    pub fn next(&mut self, checked: &Checked<'_>, all: &[Queues]) -> Option<u32> {
        if let Some(hint) = self.own.pop() {
            return Some(hint);
        }
        let (before, from) = all.split_at(self.turn.min(all.len()));
        for queues in from.iter().chain(before) {
            if let Steal::Success(first) = queues.dealt.steal() {
                self.take_block(checked, first);
                self.turn = self.turn.wrapping_add(1) % all.len().max(1);
                return Some(first);
            }
        }
        for queues in all {
            if let Steal::Success(hint) = queues.own.steal() {
                return Some(hint);
            }
        }
        None
    }

    /// Takes the rest of the block that an action begins: the worker's own hints are these, and the lowest comes first.
    fn take_block(&mut self, checked: &Checked<'_>, first: u32) {
        let rest = first.saturating_add(1)..end_of_block(checked, first);
        for i in rest.rev() {
            if checked.preds(i).is_empty() {
                // A hint that finds no room is dropped here, too.
                let _ = self.own.push(i);
            }
        }
    }
}
