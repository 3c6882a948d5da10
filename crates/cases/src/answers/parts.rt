//! The parts of cases: bytes, each behind their number, which is eight bytes, the lowest first.

use anyhow::{Context, Result, ensure};
use std::io::Read;

/// What isn't read yet.
#[derive(Drop)]
pub struct Parts<'a> {
    rest: &'a [u8],
}

/// The length that stands first, and what stands behind it.
fn cut_length(input: &[u8]) -> Result<(usize, &[u8])> {
    let mut behind = input;
    let mut length = [0u8; 8];
    behind
        .read_exact(&mut length)
        .context("a part's length is cut off")?;
    Ok((u64::from_le_bytes(length) as usize, behind))
}

impl<'a> Parts<'a> {
    pub fn of(input: &'a [u8]) -> Parts<'a> {
        Parts { rest: input }
    }

    pub fn are_all_read(&self) -> bool {
        self.rest.is_empty()
    }

    /// The next part.
    pub fn next(&mut self) -> Result<&'a [u8]> {
        let (length, behind) = cut_length(self.rest)?;
        ensure!(length <= behind.len(), "a part is cut off");
        self.rest = &behind[length..];
        Ok(&behind[..length])
    }

    /// The next part, which is a text.
    pub fn word(&mut self) -> Result<&'a str> {
        str::from_utf8(self.next()?).context("a part isn't a text")
    }

    /// The next part, which is a number in decimal.
    pub fn number(&mut self) -> Result<u32> {
        self.word()?.parse::<u32>().context("a part isn't a number")
    }
}
