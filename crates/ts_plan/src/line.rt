//! One line of a plan's text.
ghost use Rattle.std.specs.Prelude.{◌≡◌, ◌∷◌, ◌++◌, codes};

use crate::fault::PlanFault;
use crate::field::{cut, is_word, number_then, path_field, reason_field, short_number};
use std::alloc::Global;
use ts_model::plan::{Entry, Kind};
use ts_text::field_dec;

/// What one line of a plan says.
#[derive(Drop)]
pub enum PlanLine {
    /// The text is a plan's.
    Header,
    /// The next entry.
    Entry(Entry),
    /// The next action.
    Action(Kind),
    /// The next predecessor of the last action.
    Pred(u32),
    /// The numbers of entries and of actions. Nothing more comes.
    End(u64, u64),
}

impl PlanLine {
    ghost use Rattle.std.specs.Prelude.{◌≡◌, ◌∷◌, ◌++◌, codes};
    ghost use Rattle.ts_plan.specs.PlanLines.{ReadsLine};

    /// Reads a line without its line feed.
    pub fn read(alloc: Global, line: &[u8]) -> Result<PlanLine, PlanFault>
        ensures { ReadsLine line.now result }
    {
        let Some((word, fields)) = cut(line) else {
            return Err(PlanFault::NotCanonical);
        };
        if is_word(word, b"entry") {
            PlanLine::entry(alloc, fields)
        } else if is_word(word, b"piece") {
            PlanLine::piece(alloc, fields)
        } else if is_word(word, b"commit") {
            PlanLine::commit(fields)
        } else if is_word(word, b"mark") {
            PlanLine::mark(fields)
        } else if is_word(word, b"p") {
            PlanLine::pred(fields)
        } else if is_word(word, b"end") {
            PlanLine::end(fields)
        } else if is_word(word, b"twosync-plan") {
            PlanLine::header(fields)
        } else {
            Err(PlanFault::NotCanonical)
        }
    }

    fn entry(alloc: Global, fields: &[u8]) -> Result<PlanLine, PlanFault>
        ensures { ReadsLine (codes "entry" ++ 32 ∷ fields.now) result }
    {
        let Some((word, text)) = cut(fields) else {
            return Err(PlanFault::NotCanonical);
        };
        let Some(reason) = reason_field(word) else {
            return Err(PlanFault::NotCanonical);
        };
        match path_field(alloc, text) {
            Ok(path) => Ok(PlanLine::Entry(Entry { path, reason })),
            Err(fault) => Err(fault),
        }
    }

    fn piece(alloc: Global, fields: &[u8]) -> Result<PlanLine, PlanFault>
        ensures { ReadsLine (codes "piece" ++ 32 ∷ fields.now) result }
    {
        let Some((word, rest)) = cut(fields) else {
            return Err(PlanFault::NotCanonical);
        };
        let Some(entry) = short_number(word) else {
            return Err(PlanFault::NotCanonical);
        };
        let Some((offset, rest)) = number_then(rest) else {
            return Err(PlanFault::NotCanonical);
        };
        let Some((length, text)) = number_then(rest) else {
            return Err(PlanFault::NotCanonical);
        };
        match path_field(alloc, text) {
            Ok(path) => Ok(PlanLine::Action(Kind::Piece {
                entry,
                offset,
                length,
                path,
            })),
            Err(fault) => Err(fault),
        }
    }

    fn commit(fields: &[u8]) -> Result<PlanLine, PlanFault>
        ensures { ReadsLine (codes "commit" ++ 32 ∷ fields.now) result }
    {
        match short_number(fields) {
            Some(entry) => Ok(PlanLine::Action(Kind::Commit { entry })),
            None => Err(PlanFault::NotCanonical),
        }
    }

    fn mark(fields: &[u8]) -> Result<PlanLine, PlanFault>
        ensures { ReadsLine (codes "mark" ++ 32 ∷ fields.now) result }
    {
        match short_number(fields) {
            Some(entry) => Ok(PlanLine::Action(Kind::Mark { entry })),
            None => Err(PlanFault::NotCanonical),
        }
    }

    fn pred(fields: &[u8]) -> Result<PlanLine, PlanFault>
        ensures { ReadsLine (codes "p" ++ 32 ∷ fields.now) result }
    {
        match short_number(fields) {
            Some(number) => Ok(PlanLine::Pred(number)),
            None => Err(PlanFault::NotCanonical),
        }
    }

    fn end(fields: &[u8]) -> Result<PlanLine, PlanFault>
        ensures { ReadsLine (codes "end" ++ 32 ∷ fields.now) result }
    {
        let Some((entries, rest)) = number_then(fields) else {
            return Err(PlanFault::NotCanonical);
        };
        match field_dec(rest) {
            Some(actions) => Ok(PlanLine::End(entries, actions)),
            None => Err(PlanFault::NotCanonical),
        }
    }

    fn header(fields: &[u8]) -> Result<PlanLine, PlanFault>
        ensures { ReadsLine (codes "twosync-plan" ++ 32 ∷ fields.now) result }
    {
        if fields == b"1".as_slice() {
            Ok(PlanLine::Header)
        } else {
            Err(PlanFault::NotCanonical)
        }
    }
}
