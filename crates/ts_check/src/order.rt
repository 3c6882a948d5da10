//! Rows found by their paths.

ghost use Rattle.std.specs.Prelude.{◌≡◌, ◌↔◌, ◌<◌, ◌≤◌, ℕ, IsTrue, MatchOption};
ghost use Rattle.ts_name.specs.Paths.{IsBefore};
ghost use Rattle.ts_model.specs.Trees.{IsListing};
ghost use Rattle.ts_check.specs.Pieces.{IsRowOf};

use std::cmp::Ordering;
use ts_model::row::{Row, Stamp};
use ts_name::Path;

/// Whether `p` comes before `q`.
pub fn is_before(p: &Path, q: &Path) -> bool
    ensures { IsTrue result ↔ IsBefore p.now q.now }
{
    p.cmp(q) == Ordering::Less
}

/// A place from `low` on and before `high`: this one, or the one in the middle where this one isn't there.
fn place_within(low: usize, high: usize, place: usize) -> usize
    requires { low < high }
    ensures least { low ≤ result }
    ensures below { result < high }
{
    if low <= place && place < high {
        place
    } else {
        low + (high - low) / 2
    }
}

/// The row of a path. The look begins at a row and goes on from there in steps that double, so a row that isn't far behind is found
/// soon. Wherever the look begins, the answer is the same.
pub fn row_of(rows: &[Row<Stamp>], start: usize, p: &Path) -> Option<usize>
    requires { IsListing rows.now }
    ensures { MatchOption result ((k : ℕ) → ¬ IsRowOf rows.now k p.now) (λ k. IsRowOf rows.now k p.now) }
{
    let mut low = 0;
    let mut high = rows.len();
    let mut next = start;
    let mut step: usize = 1;
    while low < high {
        let middle = place_within(low, high, next);
        match rows[middle].path.cmp(p) {
            Ordering::Less => {
                low = middle + 1;
                next = middle.saturating_add(step);
                step = step.saturating_mul(2);
            }
            Ordering::Equal => return Some(middle),
            Ordering::Greater => {
                high = middle;
                next = middle;
            }
        }
    }
    None
}
