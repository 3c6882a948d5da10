//! An index over keys: which numbers have a key.
ghost use Rattle.std.specs.Prelude.{◌≡◌, ◌≢◌, ◌⊎◌, ℕ, ◌+◌, ◌<◌, ◌≤◌, ◌++◌, ◌∷◌, [], length, map, slice_index, MatchOption, OnErr, OnOk};
ghost use Rattle.ts_hold.specs.Chains.{AreLinked, HasNone, HasRoom, IsLast, IsOn, earlier_of, keys_of, slot_of};

use std::alloc::{AllocError, Global};
use std::marker::Model;

/// How many chains there are.
const CHAINS: usize = 65_536;

/// A key, and one more than the number before it in its chain, or 0.
#[derive(Clone, Copy)]
struct Link {
    key: u64,
    earlier: u16,
}

/// Keys by their numbers, at most 4,096. The numbers whose keys have the same slot are a chain, the last one first.
#[derive(Drop)]
pub struct Index {
    // for each slot, one more than the last number of its chain, or 0; empty before the first key
    heads: Vec<u16>,
    links: Vec<Link>,
}

impl Model for Index {
    ghost use Rattle.std.specs.Prelude.{List, ℕ};

    ghost Value = { List ℕ };

    ghost use Rattle.ts_hold.specs.Chains.{IsChained, earlier_of, keys_of};

    ghost view = { λ x. keys_of x.links.items };

    ghost invariant = { λ x. IsChained x.heads.items (earlier_of x.links.items) (keys_of x.links.items) };
}

impl Index {
    /// No keys. Takes no memory.
    pub fn new(alloc: Global) -> Index
        ensures { result ≡ [] }
    {
        Index {
            heads: Vec::new(alloc),
            links: Vec::new(alloc),
        }
    }

    /// Adds a key, whose number is the next. After an error there are the same keys.
    pub fn push(&mut self, alloc: Global, key: u64) -> Result<(), AllocError>
        requires { length self.old < 4096 }
        ensures ok { OnOk result (self.new ≡ self.old ++ key ∷ []) }
        ensures kept { OnErr result (self.new ≡ self.old) }
    {
        make_room(&mut self.heads, alloc)?;
        let chain = slot_of(key);
        let earlier = self.heads[chain];
        self.links.push(Link { key, earlier })?;
        self.heads[chain] = self.links.len() as u16;
        Ok(())
    }

    /// The last number that has the key.
    pub fn last(&self, key: u64) -> Option<usize>
        ensures { MatchOption result (HasNone self.now key 0 (length self.now)) (IsLast self.now key (length self.now)) }
    {
        let head = *self.heads.get(slot_of(key))?;
        walk(&self.links, head, key)
    }

    /// The last number before this one that has the same key.
    pub fn before(&self, number: usize) -> Option<usize>
        requires { number < length self.now }
        ensures { MatchOption result (HasNone self.now (slice_index self.now number) 0 number) (IsLast self.now (slice_index self.now number) number) }
    {
        let link = self.links[number];
        walk(&self.links, link.earlier, link.key)
    }
}

/// Makes the heads of the chains, where there are none.
fn make_room(heads: &mut Vec<u16>, alloc: Global) -> Result<(), AllocError>
    requires { (length heads.old.items ≡ 65536) ⊎ (length heads.old.items ≡ 0) }
    ensures ok { OnOk result (HasRoom heads.old.items heads.new.items) }
    ensures kept { OnErr result (heads.new.items ≡ heads.old.items) }
{
    if heads.is_empty() {
        *heads = vec![in alloc; 0; CHAINS]?;
    }
    Ok(())
}

/// The last number of a chain that has the key, from one less than `from` on.
fn walk(links: &[Link], from: u16, key: u64) -> Option<usize>
    requires linked { AreLinked (earlier_of links.now) (keys_of links.now) }
    requires on { IsOn (keys_of links.now) (slot_of key) from }
    requires within { from ≤ length links.now }
    ensures { let keys = keys_of links.now in MatchOption result (HasNone keys key 0 from) (IsLast keys key from) }
{
    let mut next = from;
    'next: while next != 0 {
        let number = usize::from(next) - 1;
        let link = links[number];
        if link.key == key {
            return Some(number);
        }
        next = link.earlier;
    }
    None
}

/// The chain of a key.
fn slot_of(key: u64) -> usize
    ensures { result ≡ slot_of key }
{
    (key / 4_294_967_296) as usize % CHAINS
}
