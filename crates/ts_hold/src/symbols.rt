//! The text of a pattern.
ghost use Rattle.std.specs.Prelude.{◌≡◌, ◌↔◌, IfOk, IsTrue, MatchOption};
ghost use Rattle.ts_name.specs.Paths.{is_escaped};
ghost use Rattle.ts_model.specs.Texts.{StarsApart};
ghost use Rattle.ts_hold.specs.Lines.{BeginsWith, BeginsWithEscape, BeginsWithNoEscape, BeginsWithNoSymbol, IsDigit, IsNoDigit, IsNoPattern, IsPattern};

use std::alloc::{AllocError, Global};
use ts_model::hold::Symbol;
use ts_model::items::Items;

const MOST_SYMBOLS: usize = 255;

/// The value of an upper-case hexadecimal digit.
fn digit_value(digit: u8) -> Option<u8>
    ensures { MatchOption result (IsNoDigit digit) (IsDigit digit) }
{
    match digit {
        b'0'..=b'9' => Some(digit - b'0'),
        b'A'..=b'F' => Some(digit - b'A' + 10),
        _ => None,
    }
}

/// Whether a path's text has this byte in digits.
pub fn is_in_digits(byte: u8) -> bool
    ensures { result ≡ is_escaped byte }
{
    matches!(byte, 1..=32 | 127 | b'%')
}

/// The byte that two digits at the front spell, and what follows them. No other spelling of the byte is lawful.
fn first_escape(digits: &[u8]) -> Option<(u8, &[u8])>
    ensures { MatchOption result (BeginsWithNoEscape digits.now) (λ found. BeginsWithEscape digits.now found.0 found.1.now) }
{
    let (high, rest) = digits.split_first()?;
    let (low, rest) = rest.split_first()?;
    let byte = 16 * digit_value(*high)? + digit_value(*low)?;
    if is_in_digits(byte) || byte == b'*' {
        Some((byte, rest))
    } else {
        None
    }
}

/// The symbol at the front of a text, and what follows it.
fn first_symbol(text: &[u8]) -> Option<(Symbol, &[u8])>
    ensures { MatchOption result (BeginsWithNoSymbol text.now) (λ found. BeginsWith text.now found.0 found.1.now) }
{
    let (first, rest) = text.split_first()?;
    match *first {
        b'*' => Some((Symbol::Star, rest)),
        b'%' => {
            let (byte, rest) = first_escape(rest)?;
            Some((Symbol::Byte(byte), rest))
        }
        byte => {
            if byte == 0 || byte == b'/' || is_in_digits(byte) {
                None
            } else {
                Some((Symbol::Byte(byte), rest))
            }
        }
    }
}

fn stars_apart(symbols: &[Symbol]) -> bool
    ensures { IsTrue result ↔ StarsApart symbols.now }
{
    let mut rest = symbols;
    'next: while let Some((symbol, after)) = rest.split_first() {
        if *symbol == Symbol::Star && after.first() == Some(&Symbol::Star) {
            return false;
        }
        rest = after;
    }
    true
}

/// The pattern that a text spells, if there is one.
pub fn parse_pattern(alloc: Global, text: &[u8]) -> Result<Option<Items<Symbol>>, AllocError>
    ensures { IfOk result (λ found. MatchOption found (IsNoPattern text.now) (IsPattern text.now)) }
{
    let mut symbols = Vec::new(alloc);
    let mut rest = text;
    'next: while !rest.is_empty() {
        let Some((symbol, after)) = first_symbol(rest) else {
            return Ok(None);
        };
        if symbols.len() == MOST_SYMBOLS {
            return Ok(None);
        }
        symbols.push(symbol)?;
        rest = after;
    }
    if symbols.is_empty() || !stars_apart(symbols.as_slice()) {
        return Ok(None);
    }
    Ok(Some(Items::new(symbols)))
}
