//! The order of names and of paths. It takes no memory.
ghost use Rattle.std.specs.Prelude.{◌≡◌, ◌↔◌, IsTrue, refl};
ghost use Rattle.std.specs.Cmp.Lexicographic.{slice_cmp};
ghost use Rattle.std.specs.Ordering.{as_partial_cmp, nat_cmp};
ghost use Rattle.ts_name.specs.Paths.{path_cmp, same_name, same_path};
ghost use Rattle.ts_name.specs.Laws.{name_equivalence, name_partial_equivalence, name_partial_order, name_ties, name_total, path_equivalence};
ghost use Rattle.ts_name.specs.Laws.{path_partial_equivalence, path_partial_order, path_ties, path_total};

use crate::names::Name;
use crate::paths::Path;
use std::cmp::Ordering;

impl PartialEq for Path {
    ghost eq = { same_path };

    ghost laws = { path_partial_equivalence };

    fn eq(&self, other: &Path) -> bool
        ensures value { result ≡ same_path self.now other.now }
        ensures same { IsTrue result ↔ (self.now ≡ other.now) }
    {
        self.bytes.as_slice() == other.bytes.as_slice()
    }
}

impl Eq for Path {
    ghost laws = { path_equivalence };
}

impl PartialOrd for Path {
    ghost partial_cmp = { as_partial_cmp path_cmp };

    ghost laws = { path_partial_order };

    fn partial_cmp(&self, other: &Path) -> Option<Ordering> {
        Some(self.cmp(other))
    }
}

impl Ord for Path {
    ghost cmp = { path_cmp };

    ghost total = { path_total };

    ghost matches_partial_cmp = { λ _ _. refl };

    ghost matches_eq = { path_ties };

    fn cmp(&self, other: &Path) -> Ordering {
        self.bytes.as_slice().cmp(other.bytes.as_slice())
    }
}

impl PartialEq for Name {
    ghost eq = { same_name };

    ghost laws = { name_partial_equivalence };

    fn eq(&self, other: &Name) -> bool
        ensures value { result ≡ same_name self.now other.now }
        ensures same { IsTrue result ↔ (self.now ≡ other.now) }
    {
        self.as_bytes() == other.as_bytes()
    }
}

impl Eq for Name {
    ghost laws = { name_equivalence };
}

impl PartialOrd for Name {
    ghost partial_cmp = { as_partial_cmp (slice_cmp nat_cmp) };

    ghost laws = { name_partial_order };

    fn partial_cmp(&self, other: &Name) -> Option<Ordering> {
        Some(self.cmp(other))
    }
}

impl Ord for Name {
    ghost cmp = { slice_cmp nat_cmp };

    ghost total = { name_total };

    ghost matches_partial_cmp = { λ _ _. refl };

    ghost matches_eq = { name_ties };

    fn cmp(&self, other: &Name) -> Ordering {
        self.as_bytes().cmp(other.as_bytes())
    }
}
