use ts_hold::Holds;
use ts_print::Print;

/// What the checker reads: the archive, the prints of the two replicas, and the hold rules.
#[derive(Clone, Copy)]
pub struct State<'a> {
    pub archive: &'a Print,
    pub first: &'a Print,
    pub second: &'a Print,
    pub holds: &'a Holds,
}
