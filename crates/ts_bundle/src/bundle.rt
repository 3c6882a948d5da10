//! Bundles.
use ts_hold::Holds;
use ts_model::plan::Plan;
use ts_print::Print;
use ts_tree::Tree;

/// An archive, two replicas, hold rules and a plan.
pub struct Bundle {
    pub archive: Print,
    pub first: Tree,
    pub second: Tree,
    pub holds: Holds,
    pub plan: Plan,
}

/// Written out, so that a proof of what drops one stays short.
impl Drop for Bundle {
    fn drop(self) {
        let Bundle {
            archive,
            first,
            second,
            holds,
            plan,
        } = self;
        drop(archive);
        drop(first);
        drop(second);
        drop(holds);
        drop(plan);
    }
}
