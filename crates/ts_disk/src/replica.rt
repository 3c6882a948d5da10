//! Replicas of a pair.
use ts_model::plan::Side;

/// A replica on a disk, as one of a pair.
#[derive(Clone, Copy)]
pub struct Replica<'a> {
    /// The place of its root.
    pub root: &'a str,
    /// Which of the two it is.
    pub side: Side,
}
