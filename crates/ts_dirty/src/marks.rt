ghost use Rattle.std.specs.List.{AllWithin};
ghost use Rattle.std.specs.List.Sorted.{IsPartitionPoint};
ghost use Rattle.std.specs.Prelude.{◌≡◌, ◌⊎◌, ◌↔◌, ◌≤◌, IsTrue, length};
ghost use Rattle.ts_dirty.specs.Found.{AreAscending, AreTopmost, HasAbove, HasBelow, IsFoundOf, IsMarked};
ghost use Rattle.ts_model.specs.Sync.{Agree, IsChanged, IsDirty, Snapshot, TouchesHeld};
ghost use Rattle.ts_name.specs.Paths.{IsBefore};

use std::marker::Model;
use ts_model::lists::let_go;
use ts_model::plan::Side;
use ts_name::Path;

/// Where the archive and the replicas differ, and the topmost held paths, each in path order.
pub struct Marks {
    first: Vec<Path>,
    second: Vec<Path>,
    apart: Vec<Path>,
    held: Vec<Path>,
}

// Written out, so that a proof about what drops marks calls a function, and since the lists are long.
impl Drop for Marks {
    fn drop(self) {
        let Marks {
            first,
            second,
            apart,
            held,
        } = self;
        let_go(first);
        let_go(second);
        let_go(apart);
        let_go(held);
    }
}

impl Model for Marks {
    ghost use Rattle.ts_dirty.specs.Found.{Found, IsFound};

    ghost Value = { Found };

    ghost view = { λ m. record { first = m.first.items; second = m.second.items; apart = m.apart.items; held = m.held.items } };

    ghost invariant = { λ m. IsFound (record { first = m.first.items; second = m.second.items; apart = m.apart.items; held = m.held.items }) };
}

impl Marks {
    /// Marks of what was found.
    pub(crate) fn new(
        first: Vec<Path>,
        second: Vec<Path>,
        apart: Vec<Path>,
        held: Vec<Path>,
    ) -> Self
        requires first { AreAscending first.items }
        requires second { AreAscending second.items }
        requires apart { AreAscending apart.items }
        requires held { AreAscending held.items }
        requires topmost { AreTopmost held.items }
        ensures { result ≡ record { first = first.items; second = second.items; apart = apart.items; held = held.items } }
    {
        Marks {
            first,
            second,
            apart,
            held,
        }
    }

    /// Whether something at the path or below it isn't as in the archive.
    pub fn changed(&self, side: Side, path: &Path) -> bool
        ensures { (s : Snapshot) → IsFoundOf s self.now → (IsTrue result ↔ IsChanged s side path.now) }
    {
        match side {
            Side::First => any_below(self.first.as_slice(), path),
            Side::Second => any_below(self.second.as_slice(), path),
        }
    }

    /// Whether the path is changed, or a held path is above it, below it or the path itself.
    pub fn dirty(&self, side: Side, path: &Path) -> bool
        ensures { (s : Snapshot) → IsFoundOf s self.now → (IsTrue result ↔ IsDirty s side path.now) }
    {
        self.changed(side, path) || self.touches_held(path)
    }

    /// Whether the replicas have the same at the path and below it.
    pub fn agree(&self, path: &Path) -> bool
        ensures { (s : Snapshot) → IsFoundOf s self.now → (IsTrue result ↔ Agree s path.now) }
    {
        !any_below(self.apart.as_slice(), path)
    }

    /// All that the marks say of a path. Looks at paths that come one after another, with the same `near`, pass each mark once.
    pub fn look(&self, near: &mut Near, path: &Path) -> Marked
        ensures { (s : Snapshot) → IsFoundOf s self.now → IsMarked s path.now result }
    {
        near.first = place_near(self.first.as_slice(), near.first, path);
        near.second = place_near(self.second.as_slice(), near.second, path);
        near.apart = place_near(self.apart.as_slice(), near.apart, path);
        near.held = place_near(self.held.as_slice(), near.held, path);
        Marked {
            first: any_below_at(self.first.as_slice(), near.first, path),
            second: any_below_at(self.second.as_slice(), near.second, path),
            agree: !any_below_at(self.apart.as_slice(), near.apart, path),
            touches_held: touches_at(self.held.as_slice(), near.held, path),
        }
    }

    /// Whether a held path is above the path, below it or the path itself.
    pub fn touches_held(&self, path: &Path) -> bool
        ensures { (s : Snapshot) → IsFoundOf s self.now → (IsTrue result ↔ TouchesHeld s path.now) }
    {
        touches(self.held.as_slice(), path)
    }
}

/// How many marks of each kind come before the path of the last look.
#[derive(Clone, Copy, Debug)]
pub struct Near {
    first: usize,
    second: usize,
    apart: usize,
    held: usize,
}

impl Near {
    /// Before the first look.
    pub fn start() -> Near {
        Near {
            first: 0,
            second: 0,
            apart: 0,
            held: 0,
        }
    }
}

/// What the marks say of a path.
#[derive(Clone, Copy, Debug, PartialEq, Eq)]
pub struct Marked {
    /// Something at the path or below it changed in the first replica.
    pub first: bool,
    /// Something at the path or below it changed in the second replica.
    pub second: bool,
    /// The replicas have the same there.
    pub agree: bool,
    /// A held path is above it, below it or the path itself.
    pub touches_held: bool,
}

/// How many of the paths come before this one.
fn place(paths: &[Path], path: &Path) -> usize
    requires { AreAscending paths.now }
    ensures bound { result ≤ length paths.now }
    ensures split { IsPartitionPoint (λ q. IsBefore q path.now) (λ q. ¬ IsBefore q path.now) paths.now result }
{
    paths.partition_point(|other| other.cmp(path).is_lt())
}

/// The same, where the place of an earlier look is near: looks at paths that come one after another pass each path of the list
/// once. A place that is of no use costs no more than halving.
fn place_near(paths: &[Path], near: usize, path: &Path) -> usize
    requires { AreAscending paths.now }
    ensures bound { result ≤ length paths.now }
    ensures split { IsPartitionPoint (λ q. IsBefore q path.now) (λ q. ¬ IsBefore q path.now) paths.now result }
{
    if !all_before(paths, near, path) {
        return place(paths, path);
    }
    let mut at = near;
    while at < paths.len() && paths[at].cmp(path).is_lt() {
        at += 1;
    }
    at
}

/// Whether there are so many paths, and the last of them comes before this one.
fn all_before(paths: &[Path], count: usize, path: &Path) -> bool
    requires { AreAscending paths.now }
    ensures bound { IsTrue result → count ≤ length paths.now }
    ensures before { IsTrue result → AllWithin (λ q. IsBefore q path.now) paths.now 0 count }
{
    count == 0 || (count <= paths.len() && paths[count - 1].cmp(path).is_lt())
}

/// Whether one of the paths is at this one or below it.
fn any_below(paths: &[Path], path: &Path) -> bool
    requires { AreAscending paths.now }
    ensures { IsTrue result ↔ HasBelow paths.now path.now }
{
    any_below_at(paths, place(paths, path), path)
}

/// The same, where so many of the paths come before this one.
fn any_below_at(paths: &[Path], at: usize, path: &Path) -> bool
    requires ascending { AreAscending paths.now }
    requires split { IsPartitionPoint (λ q. IsBefore q path.now) (λ q. ¬ IsBefore q path.now) paths.now at }
    ensures { IsTrue result ↔ HasBelow paths.now path.now }
{
    if at < paths.len() {
        path.is_prefix(&paths[at])
    } else {
        false
    }
}

/// Whether one of the paths is above this one, below it or the same.
fn touches(paths: &[Path], path: &Path) -> bool
    requires ascending { AreAscending paths.now }
    requires topmost { AreTopmost paths.now }
    ensures { IsTrue result ↔ (HasAbove paths.now path.now ⊎ HasBelow paths.now path.now) }
{
    touches_at(paths, place(paths, path), path)
}

/// The same, where so many of the paths come before this one.
fn touches_at(paths: &[Path], at: usize, path: &Path) -> bool
    requires ascending { AreAscending paths.now }
    requires topmost { AreTopmost paths.now }
    requires bound { at ≤ length paths.now }
    requires split { IsPartitionPoint (λ q. IsBefore q path.now) (λ q. ¬ IsBefore q path.now) paths.now at }
    ensures { IsTrue result ↔ (HasAbove paths.now path.now ⊎ HasBelow paths.now path.now) }
{
    if any_below_at(paths, at, path) {
        true
    } else {
        any_above_at(paths, at, path)
    }
}

/// Whether one of the paths is above this one, where none is at it or below it, and so many come before it.
fn any_above_at(paths: &[Path], at: usize, path: &Path) -> bool
    requires ascending { AreAscending paths.now }
    requires topmost { AreTopmost paths.now }
    requires bound { at ≤ length paths.now }
    requires split { IsPartitionPoint (λ q. IsBefore q path.now) (λ q. ¬ IsBefore q path.now) paths.now at }
    requires none_below { ¬ HasBelow paths.now path.now }
    ensures { IsTrue result ↔ HasAbove paths.now path.now }
{
    if at > 0 {
        paths[at - 1].is_prefix(path)
    } else {
        false
    }
}
