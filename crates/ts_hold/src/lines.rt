//! The line of a rule.
ghost use Rattle.std.specs.Prelude.{◌≡◌, IfOk, MatchOption};
ghost use Rattle.ts_hold.specs.Lines.{HasNoLineFeed, IsNamed, IsNoNamed, IsNoRuleLine, IsRuleLine, StartsWithLine};

use crate::symbols::parse_pattern;
use std::alloc::{AllocError, Global};
use ts_model::hold::Rule;
use ts_name::{Path, PathFault};

/// The path that a rule names: any but the root.
fn parse_named(alloc: Global, text: &[u8]) -> Result<Option<Path>, AllocError>
    ensures { IfOk result (λ found. MatchOption found (IsNoNamed text.now) (IsNamed text.now)) }
{
    if text.is_empty() {
        return Ok(None);
    }
    match Path::parse_text(alloc, text) {
        Ok(path) => Ok(Some(path)),
        Err(PathFault::OutOfMemory) => Err(AllocError),
        Err(_) => Ok(None),
    }
}

/// The rule that a line spells, if there is one.
pub fn parse_rule(alloc: Global, line: &[u8]) -> Result<Option<Rule>, AllocError>
    ensures { IfOk result (λ found. MatchOption found (IsNoRuleLine line.now) (IsRuleLine line.now)) }
{
    if let Some(text) = line.strip_prefix(b"path ") {
        return match parse_named(alloc, text)? {
            Some(path) => Ok(Some(Rule::OnePath(path))),
            None => Ok(None),
        };
    }
    if let Some(text) = line.strip_prefix(b"name ") {
        return match parse_pattern(alloc, text)? {
            Some(pattern) => Ok(Some(Rule::LastName(pattern))),
            None => Ok(None),
        };
    }
    Ok(None)
}

/// The first line of a text without its line feed, and what follows it.
pub fn first_line(text: &[u8]) -> Option<(&[u8], &[u8])>
    ensures { MatchOption result (HasNoLineFeed text.now) (λ found. StartsWithLine text.now found.0.now found.1.now) }
{
    let end = text.iter().position(|byte| *byte == b'\n')?;
    Some((&text[..end], &text[end + 1..]))
}
