ghost use Rattle.std.specs.Prelude.{◌≡◌};
ghost use Rattle.ts_model.specs.Packed.{kind_lent};
ghost use Rattle.ts_model.specs.Plans.{is_from, other, rule_number, source};
ghost use Rattle.ts_model.specs.Sync.{is_skipped, treatment};

use crate::items::Items;
use crate::packed::{KindRef, PackedAction};
use crate::predecessors::Predecessors;
use ts_name::Path;

/// The most entries that a plan may have.
pub const ENTRY_LIMIT: usize = 1_048_576;

/// The most actions that a plan may have.
pub const ACTION_LIMIT: usize = 1_048_576;

/// The most predecessors that the actions of a plan may have, all together.
pub const PRED_LIMIT: usize = 4_194_304;

/// The bytes of each piece of a file but the last one.
pub const PIECE_SIZE: u64 = 1_048_576;

/// One of the two replicas.
#[derive(Clone, Copy, Debug, PartialEq, Eq)]
pub enum Side {
    First,
    Second,
}

impl Side {
    /// The other replica.
    pub fn other(self) -> Side
        ensures { result ≡ other self }
    {
        match self {
            Side::First => Side::Second,
            Side::Second => Side::First,
        }
    }
}

/// Why a path needs attention.
#[derive(Clone, Copy, Debug, PartialEq, Eq)]
pub enum Reason {
    /// Both replicas agree, and the archive lags behind.
    Same,
    /// Only the first replica changed: it is copied to the second.
    First,
    /// Only the second replica changed: it is copied to the first.
    Second,
    /// Both replicas changed, in different ways: nothing is done.
    Conflict,
    /// A hold rule names something here: nothing is done.
    Held,
    /// A directory in both replicas that the archive doesn't have.
    Dir,
}

/// What is done about an entry. Whoever asks what a reason means asks this, so that each reason is sorted in one place.
#[derive(Clone, Copy, Debug, PartialEq, Eq)]
pub enum Treatment {
    /// What this replica has at the path and below it is copied to the other one.
    Copied(Side),
    /// Nothing is copied, since both replicas agree: the archive gets what they have.
    Agreed,
    /// Nothing is copied: the archive gets the directory, with nothing in it.
    NewDirectory,
    /// Nothing is done.
    Skipped,
}

impl Reason {
    /// What is done about an entry of this reason.
    pub fn treatment(self) -> Treatment
        ensures { result ≡ treatment self }
    {
        match self {
            Reason::Same => Treatment::Agreed,
            Reason::First => Treatment::Copied(Side::First),
            Reason::Second => Treatment::Copied(Side::Second),
            Reason::Conflict | Reason::Held => Treatment::Skipped,
            Reason::Dir => Treatment::NewDirectory,
        }
    }

    /// The replica that an entry of this reason is copied from; `None` for one that isn't copied.
    pub fn source(self) -> Option<Side>
        ensures { result ≡ source self }
    {
        match self.treatment() {
            Treatment::Copied(from) => Some(from),
            Treatment::Agreed | Treatment::NewDirectory | Treatment::Skipped => None,
        }
    }

    /// Whether an entry of this reason is copied from this replica.
    pub fn is_from(self, side: Side) -> bool
        ensures { result ≡ is_from side self }
    {
        match (self.source(), side) {
            (None, _) => false,
            (Some(Side::First), Side::First) => true,
            (Some(Side::First), Side::Second) => false,
            (Some(Side::Second), Side::First) => false,
            (Some(Side::Second), Side::Second) => true,
        }
    }

    /// Whether nothing is done about an entry of this reason.
    pub fn is_skipped(self) -> bool
        ensures { result ≡ is_skipped self }
    {
        match self.treatment() {
            Treatment::Skipped => true,
            Treatment::Copied(_) | Treatment::Agreed | Treatment::NewDirectory => false,
        }
    }
}

/// A path that needs attention.
pub struct Entry {
    pub path: Path,
    pub reason: Reason,
}

// `Drop` is written out here and below, so that a proof about what drops one calls a function, and doesn't go into its fields.
impl Drop for Entry {
    fn drop(self) {
        let Entry { path, reason: _ } = self;
        drop(path);
    }
}

/// What an action does. `entry` is a number of an entry, counted from 0.
#[derive(Drop)]
pub enum Kind {
    /// Stages `length` bytes from `offset` on of the source's file at `path`.
    Piece {
        entry: u32,
        offset: u64,
        length: u64,
        path: Path,
    },
    /// Replaces what the target has at the entry's path and below it by what the source has.
    Commit {
        entry: u32,
    },
    /// Brings the archive up to date at the entry's path.
    Mark {
        entry: u32,
    },
}

impl Kind {
    /// The same, lent.
    pub fn lend(&self) -> KindRef<'_>
        ensures { kind_lent result ≡ self.entry.now }
    {
        match self {
            Kind::Piece {
                entry,
                offset,
                length,
                path,
            } => KindRef::Piece {
                entry: *entry,
                offset: *offset,
                length: *length,
                path,
            },
            Kind::Commit { entry } => KindRef::Commit { entry: *entry },
            Kind::Mark { entry } => KindRef::Mark { entry: *entry },
        }
    }
}

/// An action, and the numbers of the actions that it waits for.
pub struct Action {
    pub kind: Kind,
    pub preds: Predecessors,
}

impl Drop for Action {
    fn drop(self) {
        let Action { kind, preds } = self;
        drop(kind);
        drop(preds);
    }
}

/// What is to be done about which paths, and in which order.
pub struct Plan {
    pub entries: Items<Entry>,
    pub actions: Items<PackedAction>,
}

impl Drop for Plan {
    fn drop(self) {
        let Plan { entries, actions } = self;
        drop(entries);
        drop(actions);
    }
}

/// The rules of a valid plan, in the order in which they are looked at.
#[derive(Clone, Copy, Debug, PartialEq, Eq)]
pub enum PlanRule {
    /// The limits on entries, actions and predecessors hold.
    Limits,
    /// Entries strictly ascend by path.
    EntriesAscend,
    /// Each entry has the reason that its path has.
    ReasonsHold,
    /// Every path with a reason is an entry.
    EntriesComplete,
    /// Predecessors strictly ascend, and are smaller than their action's number.
    PredsAscend,
    /// Each copied entry has one commit, and no other entry has one.
    OneCommit,
    /// Each piece is a lawful range of a file that its entry copies.
    PiecesLawful,
    /// Each lawful piece stands once.
    PiecesComplete,
    /// Each entry that isn't skipped has one mark, and no other entry has one.
    OneMark,
    /// A commit waits for all pieces of its entry.
    PiecesFirst,
    /// The mark of a copied entry waits for its commit.
    CommitFirst,
    /// A mark waits for the mark of the nearest new directory above it.
    DirFirst,
}

impl PlanRule {
    /// The rule's number, from 1 to 12.
    pub fn number(self) -> u8
        ensures { result ≡ rule_number self }
    {
        match self {
            PlanRule::Limits => 1,
            PlanRule::EntriesAscend => 2,
            PlanRule::ReasonsHold => 3,
            PlanRule::EntriesComplete => 4,
            PlanRule::PredsAscend => 5,
            PlanRule::OneCommit => 6,
            PlanRule::PiecesLawful => 7,
            PlanRule::PiecesComplete => 8,
            PlanRule::OneMark => 9,
            PlanRule::PiecesFirst => 10,
            PlanRule::CommitFirst => 11,
            PlanRule::DirFirst => 12,
        }
    }
}
