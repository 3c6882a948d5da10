//! Names as people may see them.
ghost use Rattle.std.specs.Prelude.{◌≡◌, ◌<◌, ◌++◌, OnOk};
ghost use Rattle.ts_name.specs.Paths.{upper_hex_digit};
ghost use Rattle.ts_preview.specs.Names.{byte_escape, hidden_length, hidden_left, shown, shown_byte};

use std::alloc::AllocError;

/// Appends a path's text, or a name as it is, with each byte of a hidden character as `%` and two upper-case hex digits. Hidden
/// are control characters, and those that turn the direction of writing. A path's text has escapes of its own for those of one
/// byte.
///
/// It fails where memory runs out.
pub fn push_shown(text: &[u8], line: &mut Vec<u8>) -> Result<(), AllocError>
    ensures { OnOk result (line.new.items ≡ line.old.items ++ shown 0 text.now) }
{
    let mut left = 0;
    for i in 0..text.len() {
        let now = hidden_left(left, &text[i..]);
        push_byte(text[i], now, line)?;
        left = now.saturating_sub(1);
    }
    Ok(())
}

/// Appends a byte, as it is where no byte of a hidden character is left.
fn push_byte(byte: u8, left: usize, line: &mut Vec<u8>) -> Result<(), AllocError>
    ensures { OnOk result (line.new.items ≡ line.old.items ++ shown_byte left byte) }
{
    if left > 0 {
        push_escape(byte, line)
    } else {
        line.extend_from_slice(&[byte])
    }
}

/// How many bytes of a hidden character are left where a text begins, if so many of an earlier one are.
fn hidden_left(left: usize, text: &[u8]) -> usize
    ensures { result ≡ hidden_left left text.now }
{
    if left > 0 { left } else { hidden_length(text) }
}

/// How many bytes the hidden character has that a text begins with, or 0 where it begins with none.
fn hidden_length(text: &[u8]) -> usize
    ensures { result ≡ hidden_length text.now }
{
    match text {
        [0..=0x1F | 0x7F, ..] => 1,
        [0xC2, 0x80..=0x9F, ..] => 2,
        [0xE2, 0x80, 0x8E | 0x8F | 0xAA..=0xAE, ..] => 3,
        [0xE2, 0x81, 0xA6..=0xA9, ..] => 3,
        _ => 0,
    }
}

/// Appends a byte as `%` and two upper-case hex digits.
fn push_escape(byte: u8, line: &mut Vec<u8>) -> Result<(), AllocError>
    ensures { OnOk result (line.new.items ≡ line.old.items ++ byte_escape byte) }
{
    line.extend_from_slice(&[b'%', hex_digit(byte / 16), hex_digit(byte % 16)])
}

/// The upper-case hex digit of a number below 16.
fn hex_digit(n: u8) -> u8
    requires { n < 16 }
    ensures { result ≡ upper_hex_digit n }
{
    if n < 10 { b'0' + n } else { b'A' + (n - 10) }
}
