//! The escaped form of names.
ghost use Rattle.std.specs.Prelude.{◌≡◌, ◌≢◌, MatchOption, IfOk, IsTrue, ◌<◌, ◌++◌, length, take, OnOk, List, ℕ};
ghost use Rattle.ts_name.specs.Paths.{is_escaped, upper_hex_digit, byte_text, name_text};
ghost use Rattle.ts_name.specs.Escapes.{AreBytes, digits, HasNoDigits, HasNoByte, HasNoBytes};

use std::alloc::{AllocError, Global};

/// Whether a byte is written as `%` and two digits.
fn is_escaped(b: u8) -> bool
    ensures { result ≡ is_escaped b }
{
    matches!(b, 1..=32 | 127 | b'%')
}

/// The upper-case hex digit of a number below 16.
fn hex_digit(n: u8) -> u8
    requires { n < 16 }
    ensures { result ≡ upper_hex_digit n }
{
    if n < 10 { b'0' + n } else { b'A' + (n - 10) }
}

/// The number of an upper-case hex digit.
fn hex_value(digit: u8) -> Option<u8>
    ensures { MatchOption result ((n : ℕ) → n < 16 → digit ≢ upper_hex_digit n) (λ n. (n < 16) × (digit ≡ upper_hex_digit n)) }
{
    match digit {
        b'0'..=b'9' => Some(digit - b'0'),
        b'A'..=b'F' => Some(digit - b'A' + 10),
        _ => None,
    }
}

/// The escaped byte of which the digits stand first in a text, and the text after it.
fn split_digits(text: &[u8]) -> Option<(u8, &[u8])>
    ensures { MatchOption result (HasNoDigits text.now) (λ r. (r.0 < 256) × IsTrue (is_escaped r.0) × (text.now ≡ digits r.0 ++ r.1.now)) }
{
    let (high, rest) = text.split_first()?;
    let (low, rest) = rest.split_first()?;
    let b = 16 * hex_value(*high)? + hex_value(*low)?;
    if is_escaped(b) { Some((b, rest)) } else { None }
}

/// The byte that a text begins with, in its escaped form, and the text after it.
fn split_byte(text: &[u8]) -> Option<(u8, &[u8])>
    ensures { MatchOption result (HasNoByte text.now) (λ r. (r.0 < 256) × (text.now ≡ byte_text r.0 ++ r.1.now)) }
{
    let (first, rest) = text.split_first()?;
    if *first == b'%' {
        return split_digits(rest);
    }
    if is_escaped(*first) {
        None
    } else {
        Some((*first, rest))
    }
}

/// The bytes of which a text is the escaped form, with room for one more, or `None` where there are no such bytes.
pub(crate) fn unescaped(alloc: Global, text: &[u8]) -> Result<Option<Vec<u8>>, AllocError>
    ensures { IfOk result (λ o. MatchOption o (HasNoBytes text.now) (λ v. AreBytes v.items × (text.now ≡ name_text v.items))) }
{
    let mut bytes = Vec::with_capacity(alloc, text.len() + 1)?;
    let mut rest = text;
    while !rest.is_empty() {
        let Some((b, after)) = split_byte(rest) else {
            return Ok(None);
        };
        bytes.push(b)?;
        rest = after;
    }
    Ok(Some(bytes))
}

/// Appends the escaped form of the bytes. After an error a beginning of it was appended.
pub(crate) fn push_escaped(bytes: &[u8], out: &mut Vec<u8>) -> Result<(), AllocError>
    ensures ok { OnOk result (out.new.items ≡ out.old.items ++ name_text bytes.now) }
    ensures begun { (more : List ℕ) × (out.new.items ≡ out.old.items ++ more) }
{
    for b in bytes {
        if is_escaped(*b) {
            out.extend_from_slice(&[b'%', hex_digit(*b / 16), hex_digit(*b % 16)])?;
        } else {
            out.push(*b)?;
        }
    }
    Ok(())
}
