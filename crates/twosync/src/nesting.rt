//! Which places of a command lie where they mustn't: inside each other, or inside a `.twosync`.
ghost use Rattle.std.specs.Prelude.{◌≡◌, ◌↔◌, Contains, IfNone, IfSome, IsTrue};
ghost use Rattle.std.specs.Path.{path_buf_bytes, path_components};
ghost use Rattle.twosync.specs.Nestings.{AreNone, IsBelow, IsFirst, IsOwn, LiesInside, all_nestings};

use std::path::PathBuf;

/// The name of the directory that the program has for itself in each replica.
const OWN: &str = ".twosync";

/// Where the places of a command lead, as whole paths without links; none where the system doesn't say.
#[derive(Drop)]
pub(crate) struct Places {
    pub(crate) first: Option<PathBuf>,
    pub(crate) second: Option<PathBuf>,
    pub(crate) archive: Option<PathBuf>,
}

/// What is wrong with the places of a command: which one lies inside which.
#[derive(Clone, Copy, Debug, PartialEq, Eq)]
pub(crate) enum Nesting {
    FirstInOwn,
    SecondInOwn,
    ArchiveInOwn,
    FirstInSecond,
    SecondInFirst,
    ArchiveInFirst,
    ArchiveInSecond,
}

/// What is wrong with these places, if anything is: the first thing in the order of the names above.
pub(crate) fn nesting_of(places: &Places) -> Option<Nesting>
    ensures found { IfSome result (IsFirst places.now) }
    ensures none { IfNone result (AreNone places.now all_nestings) }
{
    let Places {
        first,
        second,
        archive,
    } = places;
    if is_own(first) {
        Some(Nesting::FirstInOwn)
    } else if is_own(second) {
        Some(Nesting::SecondInOwn)
    } else if is_own(archive) {
        Some(Nesting::ArchiveInOwn)
    } else if lies_inside(first, second) {
        Some(Nesting::FirstInSecond)
    } else if lies_inside(second, first) {
        Some(Nesting::SecondInFirst)
    } else if lies_inside(archive, first) {
        Some(Nesting::ArchiveInFirst)
    } else if lies_inside(archive, second) {
        Some(Nesting::ArchiveInSecond)
    } else {
        None
    }
}

/// Whether a place is a `.twosync`, or lies inside one.
fn is_own(place: &Option<PathBuf>) -> bool
    ensures { IsTrue result ↔ IsOwn place.now }
{
    match place {
        Some(path) => has_component(path, OWN),
        None => false,
    }
}

/// Whether a path has this component.
fn has_component(path: &PathBuf, name: &str) -> bool
    ensures { IsTrue result ↔ Contains (path_components (path_buf_bytes path.now)) name.now }
{
    for component in path {
        if component == name {
            return true;
        }
    }
    false
}

/// Whether one place lies inside another one.
fn lies_inside(inner: &Option<PathBuf>, outer: &Option<PathBuf>) -> bool
    ensures { IsTrue result ↔ LiesInside inner.now outer.now }
{
    match (inner, outer) {
        (Some(inner), Some(outer)) => is_below(inner, outer),
        _ => false,
    }
}

/// Whether a path has the components of another one, and then more.
fn is_below(inner: &PathBuf, outer: &PathBuf) -> bool
    ensures { IsTrue result ↔ IsBelow (path_buf_bytes inner.now) (path_buf_bytes outer.now) }
{
    match inner.strip_prefix(outer) {
        Ok(rest) => rest.components().next().is_some(),
        Err(_) => false,
    }
}
