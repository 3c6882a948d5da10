//! What a stage read back of a file that it has stored.
ghost use Rattle.std.specs.Prelude.{◌≡◌, ◌++◌, [], OnErr, OnOk};
ghost use Rattle.ts_model.specs.Trees.{stamp_of};

use crate::seen::Seen;
use crate::told::Told;
use sha2::{Digest, Sha256};
use std::alloc::{AllocError, Global};
use std::marker::Model;
use ts_model::items::Items;
use ts_model::row::Stamp;

/// What was read back of a file that is stored, and the stamp of that.
#[derive(Drop)]
pub struct ReadBack {
    seen: Seen,
    stamp: Stamp,
}

impl Model for ReadBack {
    ghost use Rattle.std.specs.Prelude.{List, ℕ, ◌≡◌};
    ghost use Rattle.ts_model.specs.Trees.{stamp_of};

    ghost Value = { List ℕ };

    ghost view = { λ s. s.seen };

    ghost invariant = { λ s. s.stamp ≡ stamp_of s.seen };
}

impl ReadBack {
    /// The size and the SHA-256 of what was read back.
    pub fn stamp(&self) -> Stamp
        ensures { result ≡ stamp_of self.now }
    {
        self.stamp
    }

    /// What was read back, without its stamp.
    pub fn into_told(self) -> Told
        ensures { result ≡ self }
    {
        let ReadBack { seen, stamp } = self;
        Told::from_seen(seen, stamp.size)
    }
}

/// A file that is being read back.
#[derive(Drop)]
pub struct Reading {
    told: Told,
    hasher: Sha256,
}

impl Model for Reading {
    ghost use Rattle.std.specs.Prelude.{List, ℕ};
    ghost use Rattle.sha2.specs.Hashers.{Holds256};

    ghost Value = { List ℕ };

    ghost view = { λ s. s.told };

    ghost invariant = { λ s. Holds256 s.hasher s.told };
}

impl Reading {
    /// Nothing was read yet. It takes no memory.
    pub fn begin(alloc: Global) -> Reading
        ensures { result ≡ [] }
    {
        Reading {
            told: Told::none(alloc),
            hasher: Sha256::new(),
        }
    }

    /// These bytes came next. It takes no memory. Where 2^64 would come together they are left out.
    pub fn add(&mut self, bytes: &Items<u8>) -> Result<(), AllocError>
        ensures ok { OnOk result (self.new ≡ self.old ++ bytes.now) }
        ensures err { OnErr result (self.new ≡ self.old) }
    {
        self.told.add(bytes)?;
        self.hasher.update(bytes.as_slice());
        Ok(())
    }

    /// The file ended there. It takes no memory.
    pub fn end(self) -> ReadBack
        ensures { result ≡ self }
    {
        let Reading { told, hasher } = self;
        let stamp = Stamp {
            size: told.size(),
            digest: hasher.finalize(),
        };
        let seen = told.into_seen();
        ReadBack { seen, stamp }
    }
}
