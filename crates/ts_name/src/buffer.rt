//! Names in one buffer, each followed by a zero byte.
ghost use Rattle.std.specs.Prelude.{◌≡◌, ◌==◌, ◌+◌, ◌^◌, IfOk, ◌++◌, ◌∷◌, ◌<◌, ◌≤◌, ◌↔◌, length, sum_by, count_by, map};
ghost use Rattle.std.specs.Prelude.{position, if◌then◌else◌, MatchOption, IsTrue};
ghost use Rattle.std.specs.List.{AllByRecursion};
ghost use Rattle.ts_name.specs.Paths.{IsName};
ghost use Rattle.ts_name.specs.Buffers.{pieces, IsWhole, HasNo};

use crate::names::is_name;
use std::alloc::{AllocError, Global};

/// The most names that a path has.
pub(crate) const MOST_NAMES: usize = 64;

/// The most bytes that the names of a path have in all.
pub(crate) const MOST_BYTES: usize = 4096;

/// The first name of a buffer, and what follows its zero byte.
pub(crate) fn split_name(bytes: &[u8]) -> Option<(&[u8], &[u8])>
    ensures { MatchOption result (HasNo 0 bytes.now) (λ r. (bytes.now ≡ r.0.now ++ 0 ∷ r.1.now) × HasNo 0 r.0.now) }
{
    let end = name_end(bytes)?;
    Some((&bytes[..end], &bytes[end + 1..]))
}

/// Where the first name of a buffer ends.
fn name_end(bytes: &[u8]) -> Option<usize>
    ensures { result ≡ position (λ b. b == 0) bytes.now }
{
    bytes.iter().position(|b| *b == 0)
}

/// How many names a buffer has.
pub(crate) fn depth_of(bytes: &[u8]) -> usize
    requires { IsWhole 0 bytes.now }
    ensures { result ≡ length (pieces 0 bytes.now) }
{
    zero_count(bytes)
}

fn zero_count(bytes: &[u8]) -> usize
    ensures { result ≡ count_by (λ b. b == 0) bytes.now }
{
    bytes.iter().filter(|b| **b == 0).count()
}

/// Whether all names of a buffer are good.
pub(crate) fn has_good_names(bytes: &[u8]) -> bool
    requires { IsWhole 0 bytes.now }
    ensures { IsTrue result ↔ AllByRecursion IsName (pieces 0 bytes.now) }
{
    let mut rest = bytes;
    while let Some((name, after)) = split_name(rest) {
        if !is_name(name) {
            return false;
        }
        rest = after;
    }
    true
}

/// Whether the names of a buffer are few and short enough for a path.
pub(crate) fn is_within_limits(bytes: &[u8]) -> bool
    requires { IsWhole 0 bytes.now }
    ensures { IsTrue result ↔ ((length (pieces 0 bytes.now) ≤ 64) × (sum_by length (pieces 0 bytes.now) ≤ 4096)) }
{
    let depth = depth_of(bytes);
    depth <= MOST_NAMES && bytes.len() - depth <= MOST_BYTES
}

/// Puts a zero byte in place of each `/`.
pub(crate) fn end_names(bytes: &mut Vec<u8>)
    ensures { bytes.new.items ≡ map (λ b. if b == 47 then 0 else b) bytes.old.items }
{
    for b in bytes.iter_mut() {
        *b = zero_for_slash(*b);
    }
}

fn zero_for_slash(b: u8) -> u8
    ensures { result ≡ (if b == 47 then 0 else b) }
{
    if b == b'/' { 0 } else { b }
}

/// One buffer after another, with room for one more byte.
pub(crate) fn concatenated(alloc: Global, front: &[u8], back: &[u8]) -> Result<Vec<u8>, AllocError>
    requires { length front.now + length back.now < 2 ^ 32 }
    ensures { IfOk result (λ v. v.items ≡ front.now ++ back.now) }
{
    let mut bytes = Vec::with_capacity(alloc, front.len() + back.len() + 1)?;
    bytes.extend_from_slice(front)?;
    bytes.extend_from_slice(back)?;
    Ok(bytes)
}
