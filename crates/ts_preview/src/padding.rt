//! Columns.
ghost use Rattle.std.specs.Prelude.{◌≡◌, ◌++◌, OnOk, decimal, replicate};
ghost use Rattle.ts_preview.specs.Columns.{pad_left, pad_right};

use std::alloc::AllocError;

/// Appends a word, and spaces up to this width behind it.
pub(crate) fn push_left(line: &mut Vec<u8>, word: &[u8], width: usize) -> Result<(), AllocError>
    ensures { OnOk result (line.new.items ≡ line.old.items ++ pad_right width word.now) }
{
    line.extend_from_slice(word)?;
    push_spaces(line, width.saturating_sub(word.len()))
}

/// Appends a word, and spaces up to this width before it.
pub(crate) fn push_right(line: &mut Vec<u8>, word: &[u8], width: usize) -> Result<(), AllocError>
    ensures { OnOk result (line.new.items ≡ line.old.items ++ pad_left width word.now) }
{
    push_spaces(line, width.saturating_sub(word.len()))?;
    line.extend_from_slice(word)
}

/// Appends the number's digits, and spaces up to this width before them.
pub(crate) fn push_number(line: &mut Vec<u8>, n: u64, width: usize) -> Result<(), AllocError>
    ensures { OnOk result (line.new.items ≡ line.old.items ++ pad_left width (decimal n)) }
{
    let mut buffer = itoa::Buffer::new();
    push_right(line, buffer.format(n).as_bytes(), width)
}

/// Appends so many spaces.
fn push_spaces(line: &mut Vec<u8>, count: usize) -> Result<(), AllocError>
    ensures { OnOk result (line.new.items ≡ line.old.items ++ replicate count 32) }
{
    for _i in 0..count {
        line.push(b' ')?;
    }
    Ok(())
}
