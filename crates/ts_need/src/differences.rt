//! What differs at a path and below it.

ghost use Rattle.std.specs.Prelude.{◌≡◌, ◌≢◌, ◌⊎◌, ◌↔◌, ◌≤◌, List, IsTrue};
ghost use Rattle.ts_model.specs.Holds.{Names};
ghost use Rattle.ts_model.specs.Trees.{Listing};
ghost use Rattle.ts_model.specs.declared.row.Row.{Row};
ghost use Rattle.ts_need.specs.Merges.{AreGathered, HasSeen};
ghost use Rattle.ts_print.specs.Walks.{HasNoneFrom, left_count};

use ts_hold::Holds;
use ts_model::row::Stamp;
use ts_print::{Triple, Triples};

/// Whether something differs at some paths, and whether a rule names one of them.
#[derive(Clone, Copy, Debug, PartialEq, Eq)]
pub struct Differences {
    /// The first replica isn't as in the archive.
    pub first: bool,
    /// The second replica isn't as in the archive.
    pub second: bool,
    /// The replicas aren't alike.
    pub apart: bool,
    /// A rule names a path.
    pub is_named: bool,
}

impl Differences {
    /// Those of no path.
    fn none() -> Differences
        ensures first { ¬ IsTrue result.first }
        ensures second { ¬ IsTrue result.second }
        ensures apart { ¬ IsTrue result.apart }
        ensures named { ¬ IsTrue result.is_named }
    {
        Differences {
            first: false,
            second: false,
            apart: false,
            is_named: false,
        }
    }

    /// The same with one path more.
    fn with(self, seen: &Triple<'_>, holds: &Holds) -> Differences
        ensures first { IsTrue result.first ↔ (IsTrue self.first ⊎ (seen.now.first ≢ seen.now.archive)) }
        ensures second { IsTrue result.second ↔ (IsTrue self.second ⊎ (seen.now.second ≢ seen.now.archive)) }
        ensures apart { IsTrue result.apart ↔ (IsTrue self.apart ⊎ (seen.now.first ≢ seen.now.second)) }
        ensures named { IsTrue result.is_named ↔ (IsTrue self.is_named ⊎ Names holds.now seen.now.path.now) }
    {
        Differences {
            first: self.first || seen.first != seen.archive,
            second: self.second || seen.second != seen.archive,
            apart: self.apart || seen.first != seen.second,
            is_named: self.is_named || holds.holds(seen.path),
        }
    }
}

/// The differences at the path that a walk has come to and below it. After it the walk has passed all that is below.
pub fn gather(walk: &mut Triples<'_>, seen: &Triple<'_>, holds: &Holds) -> Differences
    ensures found { (A F S : Listing Stamp) → HasSeen A F S seen.now walk.old
        → AreGathered A F S holds.now seen.now.path.now walk.new result }
    ensures passed { HasNoneFrom seen.now.path.now walk.new }
    ensures shorter { left_count walk.new ≤ left_count walk.old }
{
    let mut found = Differences::none().with(seen, holds);
    while let Some(next) = walk.next_from(seen.path) {
        found = found.with(&next, holds);
    }
    found
}
