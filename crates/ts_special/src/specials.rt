//! Paths that can't be synchronized, found by halving.
ghost use Rattle.std.specs.Prelude.{◌≡◌, [], map, IfOk};
ghost use Rattle.std.specs.List.Sorted.{IsPermutation};
ghost use Rattle.ts_special.specs.Specials.{is_among, joined};

use std::alloc::{AllocError, Global};
use std::marker::Model;
use ts_name::Path;

/// Paths that can't be synchronized, in path order.
#[derive(Drop)]
pub struct Specials {
    paths: Vec<Path>,
}

impl Model for Specials {
    ghost use Rattle.std.specs.Prelude.{List, ℕ};
    ghost use Rattle.std.specs.Ordering.{is_lt};
    ghost use Rattle.std.specs.List.Sorted.{IsSortedBy};
    ghost use Rattle.ts_name.specs.Paths.{path_cmp};

    ghost Value = { List (List (List ℕ)) };

    ghost view = { λ s. s.paths.items };

    ghost invariant = { λ s. IsSortedBy (λ p q. is_lt (path_cmp p q)) s.paths.items };
}

impl Specials {
    /// No path at all. It takes no memory.
    pub fn none(alloc: Global) -> Specials
        ensures { result ≡ [] }
    {
        Specials {
            paths: Vec::new(alloc),
        }
    }

    /// These paths.
    pub fn of(paths: Vec<Path>) -> Specials
        ensures { IsPermutation paths.items result }
    {
        let mut paths = paths;
        paths.sort_unstable();
        Specials { paths }
    }

    /// The paths, in path order.
    pub fn as_slice(&self) -> &[Path]
        ensures { result.now ≡ self.now }
    {
        self.paths.as_slice()
    }

    /// Whether this path is among them.
    pub fn contains(&self, path: &Path) -> bool
        ensures { result ≡ is_among self.now path.now }
    {
        self.paths.binary_search(path).is_ok()
    }

    /// Whether one of them is below this path, which is none of them.
    pub(crate) fn has_below(&self, path: &Path) -> bool {
        match self.paths.binary_search(path) {
            Ok(_) => false,
            Err(next) => match self.paths.get(next) {
                Some(next) => path.is_prefix(next),
                None => false,
            },
        }
    }
}

/// The paths of both, each once: first those of the first, and then the others of the second.
pub fn union<'a>(
    alloc: Global,
    first: &'a Specials,
    second: &'a Specials,
) -> Result<Vec<&'a Path>, AllocError>
    ensures { IfOk result (λ paths. map (λ path. path.now) paths.items ≡ joined first.entry.now second.entry.now) }
{
    let mut paths = Vec::new(alloc);
    for path in first.as_slice() {
        paths.push(path)?;
    }
    for path in second.as_slice() {
        if !first.contains(path) {
            paths.push(path)?;
        }
    }
    Ok(paths)
}
