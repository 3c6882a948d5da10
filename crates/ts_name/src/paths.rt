//! Paths, as the names from the root down.
ghost use Rattle.std.specs.Prelude.{◌≡◌, ◌⊎◌, ◌↔◌, ◌++◌, ◌∷◌, [], List, ℕ, length, sum_by, if◌then◌else◌, is_ok, take, IfOk};
ghost use Rattle.std.specs.Prelude.{IfSome, OnOk, IsErrOf, IsOkUnless, IsTrue, MatchOption, MatchResult};
ghost use Rattle.std.specs.String.{string_bytes};
ghost use Rattle.ts_name.specs.Paths.{IsPath, IsAbove, IsPathText, HasNoNames, HasBadName, IsPastLimit, path_text, place_text, below};
ghost use Rattle.ts_name.specs.Buffers.{HoldsParent};

use crate::buffer::{
    MOST_BYTES, MOST_NAMES, concatenated, depth_of, end_names, has_good_names, is_within_limits,
    split_name,
};
use crate::bytes::Bytes;
use crate::escape::{push_escaped, unescaped};
use crate::faults::PathFault;
use crate::names::Name;
use std::alloc::{AllocError, Global};
use std::marker::Model;

/// The names from the root down: at most 64, of at most 4,096 bytes in all. The root has none.
#[derive(Debug)]
pub struct Path {
    // Each name is followed by a zero byte, so that paths are in the order of their bytes.
    pub(crate) bytes: Bytes,
}

impl Model for Path {
    ghost use Rattle.std.specs.Prelude.{List, ℕ};
    ghost use Rattle.std.specs.Coded.{coded_ℕ, coded_list};
    ghost use Rattle.ts_name.specs.Buffers.{pieces, IsBuffer};

    ghost Value = { List (List ℕ) };

    ghost coded = { coded_list (coded_list coded_ℕ) };

    ghost view = { λ p. pieces 0 p.bytes };

    ghost invariant = { λ p. IsBuffer p.bytes };
}

impl Drop for Path {
    fn drop(self) {
        let Path { bytes } = self;
        drop(bytes);
    }
}

impl Path {
    /// The path of no names. It takes no memory.
    pub fn root(_alloc: Global) -> Path
        ensures { result ≡ [] }
    {
        Path {
            bytes: Bytes::none(),
        }
    }

    /// The path that a text spells: `/` before each name in its escaped form, and nothing for the root.
    ///
    /// A text that isn't of this form anywhere is `BadText`, whatever else is wrong; else one bad name is `BadName`; else
    /// more than 64 names, or names of more than 4,096 bytes in all, are `TooLong`.
    pub fn parse_text(alloc: Global, text: &[u8]) -> Result<Path, PathFault>
        ensures ok { IfOk result (λ p. IsPathText text.now p) }
        ensures reads { (p : List (List ℕ)) → IsPathText text.now p → (result ≡ Ok p) ⊎ IsErrOf result PathFault.OutOfMemory }
        ensures bad_text { ¬ IsErrOf result PathFault.OutOfMemory → (IsErrOf result PathFault.BadText ↔ HasNoNames text.now) }
        ensures bad_name { ¬ IsErrOf result PathFault.OutOfMemory → (IsErrOf result PathFault.BadName ↔ HasBadName text.now) }
        ensures too_long { ¬ IsErrOf result PathFault.OutOfMemory → (IsErrOf result PathFault.TooLong ↔ IsPastLimit text.now) }
    {
        let Some((first, rest)) = text.split_first() else {
            return Ok(Path::root(alloc));
        };
        if *first != b'/' {
            return Err(PathFault::BadText);
        }
        let Some(mut bytes) = unescaped(alloc, rest)? else {
            return Err(PathFault::BadText);
        };
        if bytes.contains(&0) {
            return Err(PathFault::BadName);
        }
        bytes.push(b'/')?;
        end_names(&mut bytes);
        if !has_good_names(&bytes) {
            return Err(PathFault::BadName);
        }
        if !is_within_limits(&bytes) {
            return Err(PathFault::TooLong);
        }
        let shared = Bytes::share(alloc, bytes)?;
        Ok(Path { bytes: shared })
    }

    /// Appends the text of the path. After an error nothing was appended.
    pub fn write_text(&self, out: &mut Vec<u8>) -> Result<(), AllocError>
        ensures { out.new.items ≡ (if is_ok result then out.old.items ++ path_text self.now else out.old.items) }
    {
        let start = out.len();
        let written = self.push_text(out);
        if written.is_err() {
            out.truncate(start);
        }
        written
    }

    /// Appends the text of the path. After an error a beginning of it was appended.
    fn push_text(&self, out: &mut Vec<u8>) -> Result<(), AllocError>
        ensures ok { OnOk result (out.new.items ≡ out.old.items ++ path_text self.now) }
        ensures kept { take (length out.old.items) out.new.items ≡ out.old.items }
    {
        let mut rest = self.bytes.as_slice();
        while let Some((name, after)) = split_name(rest) {
            out.push(b'/')?;
            push_escaped(name, out)?;
            rest = after;
        }
        Ok(())
    }

    /// The place of this path below another, as a file system spells it: that place, and `/` and then its bytes for each
    /// name. It takes memory once.
    pub fn place_below(&self, alloc: Global, root: &str) -> Result<String, AllocError>
        ensures { IfOk result (λ place. string_bytes place ≡ root.now ++ place_text self.now) }
    {
        let room = root.len().saturating_add(self.bytes.as_slice().len());
        let mut place = Vec::with_capacity(alloc, room)?;
        place.extend_from_slice(root.as_bytes())?;
        let mut rest = self.bytes.as_slice();
        while let Some((name, after)) = split_name(rest) {
            place.push(b'/')?;
            place.extend_from_slice(name)?;
            rest = after;
        }
        match String::from_utf8(place) {
            Ok(place) => Ok(place),
            Err(_) => unreachable!(),
        }
    }

    /// How many names.
    pub fn depth(&self) -> usize
        ensures depth { result ≡ length self.now }
        ensures lawful { IsPath self.now }
    {
        depth_of(self.bytes.as_slice())
    }

    /// How many bytes the names have in all.
    pub fn size(&self) -> usize
        ensures size { result ≡ sum_by length self.now }
        ensures lawful { IsPath self.now }
    {
        let bytes = self.bytes.as_slice();
        bytes.len() - depth_of(bytes)
    }

    /// Whether this is the path of no names.
    pub fn is_root(&self) -> bool
        ensures { IsTrue result ↔ (self.now ≡ []) }
    {
        self.bytes.as_slice().is_empty()
    }

    /// Whether `other` is this path or goes on from it.
    pub fn is_prefix(&self, other: &Path) -> bool
        ensures { IsTrue result ↔ IsAbove self.now other.now }
    {
        other.bytes.as_slice().starts_with(self.bytes.as_slice())
    }

    /// Whether `child` is this path followed by one name.
    pub fn is_parent_of(&self, child: &Path) -> bool
        ensures { IsTrue result ↔ ((name : List ℕ) × (child.now ≡ self.now ++ name ∷ [])) }
    {
        self.is_prefix(child) && child.depth() == self.depth() + 1
    }

    /// The bytes of the last name. The root has none.
    pub fn last(&self) -> Option<&[u8]>
        ensures { MatchOption result (self.now ≡ []) (λ name. (parent : List (List ℕ)) × (self.now ≡ parent ++ name.now ∷ [])) }
    {
        let mut last = None;
        let mut rest = self.bytes.as_slice();
        while let Some((name, after)) = split_name(rest) {
            last = Some(name);
            rest = after;
        }
        last
    }

    /// Whether this path has a parent and `other` is that parent or goes on from it.
    pub fn has_parent_above(&self, other: &Path) -> bool
        ensures { IsTrue result ↔ ((parent : List (List ℕ)) × (name : List ℕ) × (self.now ≡ parent ++ name ∷ []) × IsAbove parent other.now) }
    {
        match self.parent_bytes() {
            Some(parent) => other.bytes.as_slice().starts_with(parent),
            None => false,
        }
    }

    /// The same path once more. Both share their bytes.
    pub fn copy(&self, _alloc: Global) -> Result<Path, AllocError>
        ensures value { IfOk result (λ p. p ≡ self.now) }
        ensures lawful { IfOk result IsPath }
    {
        Ok(Path {
            bytes: self.bytes.copy()?,
        })
    }

    /// The path without its last name. The root has no parent.
    pub fn parent(&self, alloc: Global) -> Result<Option<Path>, AllocError>
        ensures value { IfOk result (λ p. MatchOption p (self.now ≡ []) (λ q. (name : List ℕ) × (self.now ≡ q ++ name ∷ []))) }
        ensures lawful { IfOk result (λ p. IfSome p IsPath) }
    {
        let Some(parent) = self.parent_bytes() else {
            return Ok(None);
        };
        let bytes = Vec::from_slice(alloc, parent)?;
        let shared = Bytes::share(alloc, bytes)?;
        Ok(Some(Path { bytes: shared }))
    }

    /// The bytes that hold the parent.
    fn parent_bytes(&self) -> Option<&[u8]>
        ensures { MatchOption result (self.now ≡ []) (λ bytes. HoldsParent bytes.now self.now) }
    {
        let name = self.last()?;
        let bytes = self.bytes.as_slice();
        let end = bytes.len() - name.len() - 1;
        Some(&bytes[..end])
    }

    /// This path followed by a name, or `TooLong` past the limits of a path.
    pub fn child(&self, alloc: Global, name: &Name) -> Result<Path, PathFault>
        ensures ok { IfOk result (λ p. p ≡ self.now ++ name.now ∷ []) }
        ensures lawful { IfOk result IsPath }
        ensures too_long { IsErrOf result PathFault.TooLong ↔ (¬ IsPath (self.now ++ name.now ∷ [])) }
        ensures memory { IsPath (self.now ++ name.now ∷ []) → IsOkUnless result PathFault.OutOfMemory }
    {
        let name = name.as_bytes();
        if self.depth() >= MOST_NAMES || self.size() + name.len() > MOST_BYTES {
            return Err(PathFault::TooLong);
        }
        let mut bytes = concatenated(alloc, self.bytes.as_slice(), name)?;
        bytes.push(0)?;
        let shared = Bytes::share(alloc, bytes)?;
        Ok(Path { bytes: shared })
    }

    /// This path followed by the names of `rest`, or `TooLong` past the limits of a path. Where one of them is the root, the other's
    /// bytes are shared; and where `rest` is what was left of a path below this one, that path's bytes.
    pub fn join(&self, alloc: Global, rest: &Path) -> Result<Path, PathFault>
        ensures ok { IfOk result (λ p. p ≡ self.now ++ rest.now) }
        ensures lawful { IfOk result IsPath }
        ensures too_long { IsErrOf result PathFault.TooLong ↔ (¬ IsPath (self.now ++ rest.now)) }
        ensures memory { IsPath (self.now ++ rest.now) → IsOkUnless result PathFault.OutOfMemory }
    {
        let is_short = self.size() + rest.size() <= MOST_BYTES;
        if !is_short || self.depth() + rest.depth() > MOST_NAMES {
            return Err(PathFault::TooLong);
        }
        if rest.is_root() {
            return Ok(self.copy(alloc)?);
        }
        if self.is_root() {
            return Ok(rest.copy(alloc)?);
        }
        let front = self.bytes.as_slice();
        if let Some(whole) = rest.bytes.after(front)? {
            return Ok(Path { bytes: whole });
        }
        let bytes = concatenated(alloc, front, rest.bytes.as_slice())?;
        let shared = Bytes::share(alloc, bytes)?;
        Ok(Path { bytes: shared })
    }

    /// What is left of this path below `top`, or `None` where it isn't at or below it. The bytes are shared with this path.
    pub fn below(&self, alloc: Global, top: &Path) -> Result<Option<Path>, AllocError>
        ensures value { IfOk result (λ o. o ≡ below top.now self.now) }
        ensures lawful { IfOk result (λ o. IfSome o IsPath) }
    {
        let start = top.bytes.as_slice();
        if !self.bytes.as_slice().starts_with(start) {
            return Ok(None);
        }
        let shared = self.bytes.behind(alloc, start.len())?;
        Ok(Some(Path { bytes: shared }))
    }
}
