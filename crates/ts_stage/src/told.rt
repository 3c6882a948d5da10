//! Bytes that were seen and aren't kept.
ghost use Rattle.std.specs.Prelude.{◌≡◌, ◌++◌, ◌+◌, ◌<◌, ◌^◌, [], length, IfOk, OnErr, OnOk};

use crate::seen::Seen;
use std::alloc::{AllocError, Global};
use std::marker::Model;
use ts_model::items::Items;

/// Bytes that were seen, as clauses see them. None of them is kept, only their number.
#[derive(Drop)]
pub struct Told {
    seen: Seen,
    size: u64,
}

impl Model for Told {
    ghost use Rattle.std.specs.Prelude.{List, ℕ, ◌≡◌, length};

    ghost Value = { List ℕ };

    ghost view = { λ s. s.seen };

    ghost invariant = { λ s. length s.seen ≡ s.size };
}

impl Told {
    /// No bytes. It takes no memory.
    pub fn none(_alloc: Global) -> Told
        ensures { result ≡ [] }
    {
        Told::nothing()
    }

    /// These bytes. It takes no memory.
    pub fn of(_alloc: Global, bytes: &Items<u8>) -> Result<Told, AllocError>
        ensures { IfOk result (λ told. told ≡ bytes.now) }
    {
        Ok(Told::these(bytes))
    }

    /// Adds bytes at the end. It takes no memory. Where 2^64 would come together nothing changes.
    pub fn add(&mut self, bytes: &Items<u8>) -> Result<(), AllocError>
        ensures ok { OnOk result (self.new ≡ self.old ++ bytes.now) }
        ensures err { OnErr result (self.new ≡ self.old) }
    {
        let part = Told::these(bytes);
        match self.size().checked_add(part.size()) {
            Some(_) => {
                self.push(part);
                Ok(())
            }
            None => Err(AllocError),
        }
    }

    /// No bytes.
    pub(crate) fn nothing() -> Told
        ensures { result ≡ [] }
    {
        Told {
            seen: Seen::none(),
            size: 0,
        }
    }

    /// These bytes.
    pub(crate) fn these(bytes: &Items<u8>) -> Told
        ensures { result ≡ bytes.now }
    {
        Told {
            seen: Seen::of(bytes),
            size: bytes.as_slice().len() as u64,
        }
    }

    /// So many bytes that were seen.
    pub(crate) fn from_seen(seen: Seen, size: u64) -> Told
        requires { length seen ≡ size }
        ensures { result ≡ seen }
    {
        Told { seen, size }
    }

    /// The bytes without their number.
    pub(crate) fn into_seen(self) -> Seen
        ensures { result ≡ self }
    {
        let Told { seen, size: _ } = self;
        seen
    }

    /// Adds what a piece told at the end.
    pub(crate) fn push(&mut self, part: Told)
        requires { length self.old + length part < 2 ^ 64 }
        ensures ok { self.new ≡ self.old ++ part }
    {
        let Told { seen, size } = part;
        self.seen.add(seen);
        self.size += size;
    }

    /// How many bytes there are.
    pub fn size(&self) -> u64
        ensures { result ≡ length self.now }
    {
        self.size
    }
}
