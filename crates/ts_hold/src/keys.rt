//! Keys of rules. A path is looked for by a few keys, and each rule that names it has one of them.
ghost use Rattle.std.specs.Prelude.{◌≡◌};
ghost use Rattle.ts_hold.specs.Keys.{IsEndKey, IsFrontKey, IsKeyOf, IsPatternKey, front_key, path_key};
ghost use Rattle.ts_hold.specs.Mixing.{mixed};
ghost use Rattle.ts_hold.specs.Windows.{IsMore};
ghost use Rattle.ts_hold.specs.declared.windows.Sizes.{Sizes};

use crate::index::Index;
use crate::windows::{Sizes, widest_key};
use ts_model::hold::{Rule, Symbol};
use ts_name::Path;

/// The key of no bytes at the front of a name.
pub const NO_FRONT: u64 = 1;

/// The key of no bytes at the end of a name.
pub const NO_END: u64 = 4_294_967_296;

const FACTOR: u64 = 11_400_714_819_323_198_485;

/// The key with one number more.
pub fn mixed(key: u64, more: u64) -> u64
    ensures { result ≡ mixed key more }
{
    key.wrapping_add(more).wrapping_mul(FACTOR)
}

/// The key of a name's bytes.
fn bytes_key(name: &[u8]) -> u64
    ensures { result ≡ front_key 1 name.now }
{
    let mut key = NO_FRONT;
    for byte in name {
        key = mixed(key, u64::from(*byte));
    }
    key
}

/// The key of a path: of its last name and its size.
pub fn path_key(path: &Path) -> u64
    ensures { result ≡ path_key path.now }
{
    let last = match path.last() {
        Some(name) => bytes_key(name),
        None => NO_FRONT,
    };
    mixed(last, path.size() as u64)
}

/// The key of the bytes before a pattern's first star, and what follows them.
fn front_of(pattern: &[Symbol]) -> (u64, &[Symbol])
    ensures { IsFrontKey pattern.now result.0 result.1.now }
{
    let mut key = NO_FRONT;
    let mut rest = pattern;
    'next: while let Some((symbol, after)) = rest.split_first() {
        let Symbol::Byte(byte) = *symbol else {
            return (key, rest);
        };
        key = mixed(key, u64::from(byte));
        rest = after;
    }
    (key, rest)
}

/// The key of the bytes after a pattern's last star, and what comes before them.
fn end_of(pattern: &[Symbol]) -> (u64, &[Symbol])
    ensures { IsEndKey pattern.now result.0 result.1.now }
{
    let mut key = NO_END;
    let mut rest = pattern;
    'next: while let Some((symbol, before)) = rest.split_last() {
        let Symbol::Byte(byte) = *symbol else {
            return (key, rest);
        };
        key = mixed(key, u64::from(byte));
        rest = before;
    }
    (key, rest)
}

/// Whether a key is of some bytes, and of no rule so far.
fn is_free(index: &Index, key: u64) -> bool {
    key != NO_FRONT && key != NO_END && index.last(key).is_none()
}

/// The keys of the front and the end of each name that fits the pattern: the one of most bytes, how many these are, and the other.
fn outer_keys(pattern: &[Symbol]) -> (u64, usize, u64)
    ensures most { (sizes : Sizes) → IsPatternKey sizes pattern.now result.0 }
    ensures other { (sizes : Sizes) → IsPatternKey sizes pattern.now result.2 }
{
    let (front, after) = front_of(pattern);
    let (end, before) = end_of(pattern);
    if before.len() < after.len() {
        (end, pattern.len() - before.len(), front)
    } else {
        (front, pattern.len() - after.len(), end)
    }
}

/// A key of each name that fits the pattern, and the sizes of windows that are in use with it. It is one that no rule has, where there
/// is one, of the front, of the end or of a window; else that of most bytes.
fn pattern_key(index: &Index, sizes: Sizes, pattern: &[Symbol]) -> (u64, Sizes)
    ensures key { IsPatternKey result.1 pattern.now result.0 }
    ensures kept { IsMore sizes result.1 }
{
    let (most, bytes, other) = outer_keys(pattern);
    if is_free(index, most) {
        return (most, sizes);
    }
    if is_free(index, other) {
        return (other, sizes);
    }
    if let Some((key, size)) = widest_key(index, pattern) {
        if is_free(index, key) || size.bytes() > bytes {
            return (key, sizes.with(size));
        }
    }
    (most, sizes)
}

/// A key of each path that the rule names, and the sizes of windows that are in use with it.
pub fn rule_key(index: &Index, sizes: Sizes, rule: &Rule) -> (u64, Sizes)
    ensures key { IsKeyOf result.1 rule.now result.0 }
    ensures kept { IsMore sizes result.1 }
{
    match rule {
        Rule::OnePath(path) => (path_key(path), sizes),
        Rule::LastName(pattern) => pattern_key(index, sizes, pattern.as_slice()),
    }
}
