//! What a plan is made for.

use crate::answers::parts::Parts;
use anyhow::Result;
use std::alloc::Global;
use ts_hold::Holds;
use ts_print::Print;
use ts_text::{Counted, Lines};

/// The prints of the archive and of both replicas, and the hold rules.
pub struct Situation {
    pub archive: Print,
    pub first: Print,
    pub second: Print,
    pub holds: Holds,
}

/// Written out, so that a proof of what drops one stays short.
impl Drop for Situation {
    fn drop(self) {
        let Situation {
            archive,
            first,
            second,
            holds,
        } = self;
        drop(archive);
        drop(first);
        drop(second);
        drop(holds);
    }
}

/// A print whose lines these are.
fn print_in(alloc: Global, text: &[u8]) -> Result<Print> {
    let mut lines = Lines::new(alloc, Counted::new(text))?;
    Ok(ts_print::decode(alloc, &mut lines)?)
}

impl Situation {
    /// Reads four parts: the lines of the three prints, and the text of the hold rules.
    pub fn read(alloc: Global, parts: &mut Parts<'_>) -> Result<Situation> {
        let archive = print_in(alloc, parts.next()?)?;
        let first = print_in(alloc, parts.next()?)?;
        let second = print_in(alloc, parts.next()?)?;
        let holds = Holds::parse(alloc, parts.next()?)?;
        Ok(Situation {
            archive,
            first,
            second,
            holds,
        })
    }
}
