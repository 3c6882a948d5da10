//! The paths of three prints, one after another.
ghost use Rattle.std.specs.Iterator.{at_most};
ghost use Rattle.std.specs.Option.{option_copied};
ghost use Rattle.std.specs.Prelude.{◌≡◌, ◌≢◌, ◌⊎◌, ℕ, List, [], MatchOption};
ghost use Rattle.ts_model.specs.Trees.{IsListing, Listing, listed};
ghost use Rattle.ts_model.specs.declared.row.Content.TheVariants.{Absent};
ghost use Rattle.ts_name.specs.Paths.{IsAbove, IsBefore};
ghost use Rattle.ts_print.specs.Walks.{ArePlain, AreMet, Gives, HasEnded, HasNoneBefore, HasNoneFrom, IsEarlier, IsLeastOf, IsLeastPath, IsStep, IsWalkStep, Met, left_count};

use crate::print::{Print, Seen};
use std::marker::Model;
use ts_model::row::{Content, Row, Stamp};
use ts_name::Path;

/// A path that is present in the archive or a replica, and what is there in each.
#[derive(Drop)]
pub struct Triple<'a> {
    pub path: &'a Path,
    pub archive: Seen,
    pub first: Seen,
    pub second: Seen,
}

/// Gives the paths that are left of an archive and two replicas, in path order.
#[derive(Drop)]
pub struct Triples<'a> {
    archive: &'a [Row<Stamp>],
    first: &'a [Row<Stamp>],
    second: &'a [Row<Stamp>],
}

impl<'a> Model for Triples<'a> {
    ghost use Rattle.ts_print.specs.Walks.{Left, ArePlainLeft};

    ghost Value = { Left };

    ghost view = { λ w. record { archive = w.archive.now; first = w.first.now; second = w.second.now } };

    ghost invariant = { λ w. ArePlainLeft (record { archive = w.archive.now; first = w.first.now; second = w.second.now }) };
}

/// Goes over an archive and two replicas at once. It gives each path at which something is in one of them, with what each of
/// them has there, once and in path order. The root, which is always there, is left out. It takes no memory.
pub fn walk3<'a>(archive: &'a Print, first: &'a Print, second: &'a Print) -> Triples<'a>
    ensures all { result ≡ record { archive = archive.entry.now; first = first.entry.now; second = second.entry.now } }
    ensures listings { IsListing archive.entry.now × IsListing first.entry.now × IsListing second.entry.now }
    ensures exact { (items : List Met) → Gives result items → AreMet archive.entry.now first.entry.now second.entry.now items }
{
    Triples {
        archive: archive.rows(),
        first: first.rows(),
        second: second.rows(),
    }
}

impl<'a> Triples<'a> {
    /// The next path, if it is this one or below it. It takes no memory.
    pub fn next_from(&mut self, top: &Path) -> Option<Triple<'a>>
        ensures ended { MatchOption result (HasNoneFrom top.now self.old) (λ seen. IsAbove top.now seen.path.now) }
        ensures step { MatchOption result (self.new ≡ self.old) (λ seen. IsWalkStep seen.path.now seen.archive seen.first seen.second self.old self.new) }
    {
        let path = least_path(self.archive, self.first, self.second)?;
        if top.is_prefix(path) {
            Some(self.step(path))
        } else {
            None
        }
    }

    /// Goes on to the least path that is left.
    fn step(&mut self, path: &'a Path) -> Triple<'a>
        requires { IsLeastOf path.now self.old }
        ensures path { result.path.now ≡ path.now }
        ensures step { IsWalkStep path.now result.archive result.first result.second self.old self.new }
    {
        let (archive, rest_of_archive) = step_to(self.archive, path);
        let (first, rest_of_first) = step_to(self.first, path);
        let (second, rest_of_second) = step_to(self.second, path);
        self.archive = rest_of_archive;
        self.first = rest_of_first;
        self.second = rest_of_second;
        Triple {
            path,
            archive,
            first,
            second,
        }
    }
}

impl<'a> Iterator for Triples<'a> {
    type Item = Triple<'a>;

    ghost next_gives = { λ s r t. MatchOption r (HasEnded s) (λ seen. IsWalkStep seen.path.now seen.archive seen.first seen.second s t) };

    ghost remaining = { λ s. at_most (left_count s) };

    fn next(&mut self) -> Option<Triple<'a>> {
        let path = least_path(self.archive, self.first, self.second)?;
        Some(self.step(path))
    }
}

/// The least path of the rows, None where there are none.
fn least_path<'a>(
    archive: &'a [Row<Stamp>],
    first: &'a [Row<Stamp>],
    second: &'a [Row<Stamp>],
) -> Option<&'a Path>
    requires archive { ArePlain archive.now }
    requires first { ArePlain first.now }
    requires second { ArePlain second.now }
    ensures { MatchOption result
        ((archive.now ≡ []) × (first.now ≡ []) × (second.now ≡ []))
        (λ path. IsLeastPath path.now archive.now first.now second.now) }
{
    earlier(earlier(earlier(None, archive), first), second)
}

/// The earlier one of a path and the first row's.
fn earlier<'a>(best: Option<&'a Path>, rows: &'a [Row<Stamp>]) -> Option<&'a Path>
    requires { ArePlain rows.now }
    ensures { MatchOption result ((best.entry ≡ None) × (rows.now ≡ [])) (λ path. IsEarlier path.now (option_copied best.entry) rows.now) }
{
    let [row, ..] = rows else {
        return best;
    };
    let Some(path) = best else {
        return Some(&row.path);
    };
    if path.cmp(&row.path).is_lt() {
        Some(path)
    } else {
        Some(&row.path)
    }
}

/// What stands at a path that no row comes before, and the rows after it.
fn step_to<'a>(rows: &'a [Row<Stamp>], path: &Path) -> (Content<Stamp>, &'a [Row<Stamp>])
    requires plain { ArePlain rows.now }
    requires least { HasNoneBefore rows.now path.now }
    ensures step { IsStep path.now result.0 rows.now result.1.now }
    ensures rest { ArePlain result.1.now }
{
    let [row, rest @ ..] = rows else {
        return (Content::Absent, rows);
    };
    if row.path.cmp(path).is_eq() {
        (row.content, rest)
    } else {
        (Content::Absent, rows)
    }
}
