//! What a pass knows, the rule of the table, and what each of its steps tells.
ghost use Rattle.std.specs.Prelude.{◌≡◌, true, false};

use atomic_table::{Join, Play, Split, TableRule};
use std::collections::LinkedList;
use std::marker::{Brand, PhantomData};
use std::snapshot::Snapshot;
use ts_model::items::Items;
use ts_model::plan::Plan;
use ts_model::row::{Row, Stamp};
use ts_model::step::Step;
use ts_print::Print;
use ts_site::Site;
use ts_stage::{Piece, Staged};

/// What lies in the slot of an action: the site of a commit, after its act with what it has put in place, or what a piece staged.
/// Each action has one, so it's small.
#[derive(Drop)]
pub enum Slot<S> {
    Empty,
    Place(S),
    Committed(S, Snapshot<Staged>),
    Bytes(Box<Piece>),
}

impl<S: Drop> Slot<S> {
    ghost use Rattle.ts_board.specs.Terms.{site_in};

    /// The site, where there is one.
    pub fn into_site(self) -> Option<S>
        ensures { result ≡ site_in self }
    {
        match self {
            Slot::Place(site) => Some(site),
            Slot::Committed(site, _staged) => Some(site),
            Slot::Bytes(_piece) => None,
            Slot::Empty => None,
        }
    }
}

/// What a board is opened with. It has no bytes.
#[derive(Drop)]
pub struct Key<S> {
    pub plan: Snapshot<Plan>,
    pub first: Snapshot<Print>,
    pub second: Snapshot<Print>,
    pub slots: Snapshot<Vec<Slot<S>>>,
}

/// What a board is opened for: a plan, the prints of both replicas, and what the site in each slot told at the start. No value of it is made.
pub struct Terms {
    pub plan: Plan,
    pub first: Items<Row<Stamp>>,
    pub second: Items<Row<Stamp>>,
    pub told: LinkedList<Option<Option<Items<Row<Items<u8>>>>>>,
}

/// A beginning of the history, and the actions that were claimed in it by those who saw it. No value of it is made.
pub struct Sight {
    pub seen: LinkedList<Step>,
    pub claims: LinkedList<u64>,
}

/// What a pass knows. No value of it is made.
/// `left` and `right` are what two joined passes knew, until the next step. A pass has `part` parts of 2 ^ `cut`.
/// `carry` is 0, or i + 1 where the pass has the slot i.
pub struct View {
    pub terms: Terms,
    pub sight: Sight,
    pub left: Sight,
    pub right: Sight,
    pub part: u64,
    pub cut: u64,
    pub carry: u64,
}

pub struct Law<S> {
    marker: PhantomData<S>,
}

impl<S: Site> TableRule<Slot<S>, View, Key<S>> for Law<S> {
    ghost use Rattle.ts_board.specs.Kept.{Kept, newcomer};
    ghost use Rattle.ts_board.specs.Terms.{work_in, IsTold};
    ghost use Rattle.ts_board.specs.Keys.{terms_of_key};

    ghost holds = { λ key s. Kept work_in (IsTold S.content) (terms_of_key S.content key) s };

    ghost first = { λ key. newcomer (terms_of_key S.content key) };
}

pub struct Look;

impl<S> Play<Slot<S>, View> for Look {
    ghost use Rattle.ts_board.specs.Kept.{looks};

    ghost then = { looks };
}

pub struct TryClaim<S> {
    marker: PhantomData<S>,
}

impl<S: Site> Play<Slot<S>, View> for TryClaim<S> {
    ghost use Rattle.ts_board.specs.Kept.{claims};
    ghost use Rattle.ts_board.specs.Terms.{work_in, IsTold};

    ghost then = { claims work_in (IsTold S.content) };
}

pub struct GiveBack;

impl<S> Play<Slot<S>, View> for GiveBack {
    ghost use Rattle.ts_board.specs.Kept.{gives_back};

    ghost then = { gives_back };
}

pub struct Fetch;

impl<S> Play<Slot<S>, View> for Fetch {
    ghost use Rattle.ts_board.specs.Kept.{fetches};

    ghost then = { fetches };
}

pub struct Finish<S> {
    marker: PhantomData<S>,
}

impl<S: Site> Play<Slot<S>, View> for Finish<S> {
    ghost use Rattle.ts_board.specs.Kept.{does};
    ghost use Rattle.ts_board.specs.Terms.{work_in};

    ghost then = { does work_in };
}

pub struct GiveUp;

impl<S> Play<Slot<S>, View> for GiveUp {
    ghost use Rattle.ts_board.specs.Kept.{fails};

    ghost then = { fails };
}

/// Which action makes a step on another's word, for the proof alone. A call at `Brand` picks it.
pub trait Actor {
    ghost use Rattle.std.specs.Prelude.{ℕ};

    ghost action: { ℕ };
}

impl Actor for Brand {
    ghost action = { 0 };
}

pub struct LetGo<N> {
    marker: PhantomData<N>,
}

impl<S, N: Actor> Play<Slot<S>, View> for LetGo<N> {
    ghost use Rattle.ts_board.specs.Kept.{releases};

    ghost then = { releases N.action };
}

pub struct TakeOut<S, N> {
    marker: PhantomData<S>,
    other: PhantomData<N>,
}

impl<S: Site, N: Actor> Play<Slot<S>, View> for TakeOut<S, N> {
    ghost use Rattle.ts_board.specs.Kept.{takes_out};
    ghost use Rattle.ts_board.specs.Terms.{work_in};

    ghost then = { takes_out work_in N.action };
}

pub struct Halve;

impl Split<View> for Halve {
    ghost use Rattle.ts_board.specs.Kept.{first_half, second_half};

    ghost left = { first_half };

    ghost right = { second_half };
}

pub struct Both;

impl Join<View> for Both {
    ghost use Rattle.ts_board.specs.Kept.{joined, nobody};

    ghost both = { joined };

    ghost spent = { nobody };
}

pub struct Meet;

impl<S> Play<Slot<S>, View> for Meet {
    ghost use Rattle.ts_board.specs.Kept.{meets};

    ghost then = { meets };
}
