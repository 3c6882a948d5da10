//! The fields of a line.
ghost use Rattle.std.specs.Prelude.{◌≡◌, ◌≢◌, ◌+◌, ◌^◌, ◌<◌, ℕ, List, [], ◌∷◌, ◌++◌, length, decimal, IfSome, IfNone, OnOk, OnErr, MatchOption, MatchBool};
ghost use Rattle.std.specs.List.{AllByRecursion};
ghost use Rattle.ts_text.specs.Fields.{IsPlain};
ghost use Rattle.hex.specs.Hex.{encode_lower};

use std::alloc::AllocError;
use std::str;

/// The number that the field spells: digits without a leading zero, below 2^64.
pub fn field_dec(field: &[u8]) -> Option<u64>
    ensures found { IfSome result (λ n. field.now ≡ decimal n) }
    ensures none { IfNone result ((n : ℕ) → n < 2 ^ 64 → field.now ≢ decimal n) }
{
    if !is_plain(field) {
        return None;
    }
    match str::from_utf8(field) {
        Ok(text) => text.parse::<u64>().ok(),
        Err(_) => None,
    }
}

/// Whether neither a sign nor a needless zero stands first.
fn is_plain(field: &[u8]) -> bool
    ensures { MatchBool result (IsPlain field.now) (¬ IsPlain field.now) }
{
    match field {
        [b'+', ..] | [b'0', _, ..] => false,
        _ => true,
    }
}

/// The 32 bytes that the field spells: 64 lower-case hex digits.
pub fn field_digest(field: &[u8]) -> Option<[u8; 32]>
    ensures found { IfSome result (λ d. field.now ≡ encode_lower d) }
    ensures none { IfNone result ((d : List ℕ) → length d ≡ 32 → AllByRecursion (λ b. b < 256) d → field.now ≢ encode_lower d) }
{
    let mut digest = [0u8; 32];
    if hex::decode_to_slice(field, &mut digest).is_err() {
        return None;
    }
    // Decoding takes upper-case digits too.
    let text = lower_hex(&digest);
    if field == text.as_slice() {
        Some(digest)
    } else {
        None
    }
}

/// The line up to its first space, and what stands behind that space, if there is one.
pub fn split_word(line: &[u8]) -> (&[u8], Option<&[u8]>)
    ensures word { AllByRecursion (λ b. b ≢ 32) result.0.now }
    ensures rest { MatchOption result.1 (line.now ≡ result.0.now) (λ rest. line.now ≡ result.0.now ++ 32 ∷ rest.now) }
{
    match line.iter().position(|b| *b == b' ') {
        Some(place) => (&line[..place], Some(&line[place + 1..])),
        None => (line, None),
    }
}

/// Adds the number's digits, without a leading zero. At an error nothing is added.
pub fn push_decimal(out: &mut Vec<u8>, n: u64) -> Result<(), AllocError>
    ensures ok { OnOk result (out.new.items ≡ out.old.items ++ decimal n) }
    ensures err { OnErr result (out.new.items ≡ out.old.items) }
{
    let mut buffer = itoa::Buffer::new();
    out.extend_from_slice(buffer.format(n).as_bytes())
}

/// Adds the digest as 64 lower-case hex digits. At an error nothing is added.
pub fn push_digest(out: &mut Vec<u8>, digest: &[u8; 32]) -> Result<(), AllocError>
    requires { length digest.now ≡ 32 }
    ensures ok { OnOk result (out.new.items ≡ out.old.items ++ encode_lower digest.now) }
    ensures err { OnErr result (out.new.items ≡ out.old.items) }
{
    out.extend_from_slice(lower_hex(digest).as_slice())
}

/// The digest in lower-case hex digits.
fn lower_hex(digest: &[u8; 32]) -> [u8; 64]
    requires { length digest.now ≡ 32 }
    ensures { result ≡ encode_lower digest.now }
{
    let mut text = [0u8; 64];
    if hex::encode_to_slice(digest.as_slice(), &mut text).is_err() {
        unreachable!();
    }
    text
}

/// Adds a space and the word. At an error nothing is added.
pub fn push_word(out: &mut Vec<u8>, word: &[u8]) -> Result<(), AllocError>
    ensures ok { OnOk result (out.new.items ≡ out.old.items ++ 32 ∷ word.now) }
    ensures err { OnErr result (out.new.items ≡ out.old.items) }
{
    out.reserve(word.len() + 1)?;
    out.push(b' ')?;
    out.extend_from_slice(word)
}
