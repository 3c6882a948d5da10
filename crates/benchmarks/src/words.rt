//! What the words after a benchmark's name spell.

ghost use Rattle.std.specs.Prelude.{◌≤◌};

use anyhow::{Context, Result, bail};

/// How many workers there are.
#[derive(Clone, Copy)]
pub struct Workers {
    pub count: u32,
    ghost some: { 1 ≤ count },
    ghost few: { count ≤ 64 },
}

/// After how many actions an archive is kept.
#[derive(Clone, Copy)]
pub struct Every {
    pub count: u32,
    ghost some: { 1 ≤ count },
    ghost few: { count ≤ 1048576 },
}

/// The number that the word at a place spells.
pub fn number(words: &[String], place: usize) -> Result<u32> {
    let word = words.get(place).context("a number is missing")?;
    word.as_str().parse::<u32>().context("reading a number")
}

/// The number of workers that the word at a place spells.
pub fn worker_count(words: &[String], place: usize) -> Result<Workers> {
    let count = number(words, place).context("reading the number of workers")?;
    if count < 1 || count > 64 {
        bail!("from 1 to 64 workers");
    }
    Ok(Workers { count })
}

/// The number of actions that the word at a place spells.
pub fn read_every(words: &[String], place: usize) -> Result<Every> {
    let count = number(words, place).context("reading a number of actions")?;
    if count < 1 || count > 1_048_576 {
        bail!("from 1 to 1,048,576 actions");
    }
    Ok(Every { count })
}
