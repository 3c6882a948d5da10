//! The paths of a print, one after another.
ghost use Rattle.std.specs.Prelude.{◌≡◌, ◌∷◌, [], length, MatchOption};
ghost use Rattle.std.specs.Iterator.{at_most};

use std::marker::Model;
use ts_model::row::{Row, Stamp};
use ts_name::Path;

/// Gives the paths that are left of a print, in path order.
#[derive(Drop)]
pub struct Walk<'a> {
    pub(crate) rows: &'a [Row<Stamp>],
}

impl<'a> Model for Walk<'a> {
    ghost use Rattle.std.specs.Prelude.{List, map};
    ghost use Rattle.ts_name.specs.Paths.{Path};

    ghost Value = { List Path };

    ghost view = { λ w. map (λ row. row.path) w.rows.now };
}

impl<'a> Iterator for Walk<'a> {
    type Item = &'a Path;

    ghost next_gives = { λ s r t. MatchOption r (s ≡ []) (λ path. s ≡ path.now ∷ t) };

    ghost remaining = { λ s. at_most (length s) };

    fn next(&mut self) -> Option<&'a Path> {
        let (row, rest) = self.rows.split_first()?;
        self.rows = rest;
        Some(&row.path)
    }
}
