//! Bytes that clauses see and that take no memory.
ghost use Rattle.std.specs.Prelude.{◌≡◌, ◌++◌, []};

use std::marker::Model;
use std::mem;
use std::snapshot::Snapshot;
use ts_model::items::Items;

/// Bytes as clauses see them. It has no size and takes no memory, however many parts come together.
#[derive(Drop)]
pub(crate) struct Seen {
    parts: Snapshot<Parts>,
}

/// Where bytes that clauses see came from. Nothing but a snapshot of it is ever kept.
#[derive(Drop)]
enum Parts {
    Nothing,
    These(Snapshot<Items<u8>>),
    Both(Snapshot<Parts>, Snapshot<Parts>),
}

impl Model for Seen {
    ghost use Rattle.std.specs.Prelude.{List, ℕ};

    ghost Value = { List ℕ };

    ghost use Rattle.ts_stage.specs.Parts.{all_parts};

    ghost view = { λ s. all_parts s.parts.value };
}

impl Seen {
    /// No bytes.
    pub(crate) fn none() -> Seen
        ensures { result ≡ [] }
    {
        Seen {
            parts: Snapshot::of(&Parts::Nothing),
        }
    }

    /// These bytes.
    pub(crate) fn of(bytes: &Items<u8>) -> Seen
        ensures { result ≡ bytes.now }
    {
        Seen {
            parts: Snapshot::of(&Parts::These(Snapshot::of(bytes))),
        }
    }

    /// Adds bytes at the end.
    pub(crate) fn add(&mut self, more: Seen)
        ensures { self.new ≡ self.old ++ more }
    {
        let Seen { parts } = mem::replace(self, Seen::none());
        let both = Parts::Both(parts, more.parts);
        self.parts = Snapshot::of(&both);
    }
}
