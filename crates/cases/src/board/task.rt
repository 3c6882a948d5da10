//! What two passes race for, and what is seen of it.
use ts_site::SiteFault;

/// An action of a plan, by where it stands. A file has a piece, a commit and a mark, one after the other; the number is that
/// of its piece.
#[derive(Clone, Copy)]
pub enum Task {
    /// The commit of a file that is deleted, the first action, for which its mark waits.
    Removal,
    /// The mark of a new directory, the first action, for which those of two files wait, actions 3 and 6.
    Directory,
    Piece(u32),
    Commit(u32),
    Mark(u32),
}

/// The words of an action while it is claimed and after its end, and the word of the next one while it is claimed.
#[derive(Clone, Copy, Debug, Drop)]
pub struct Turn {
    pub claimed: u64,
    pub next: Option<u64>,
    pub ended: u64,
}

/// Whether a release left nothing open, and the word after it.
#[derive(Clone, Copy, Debug, Drop)]
pub struct Freed {
    pub is_last: bool,
    pub word: u64,
}

/// What the pass that claimed an action has seen.
#[derive(Clone, Copy, Debug, Drop)]
pub struct Seen {
    pub turn: Turn,
    /// The word of the piece once its bytes were taken.
    pub taken: Option<u64>,
    /// Why the site refused.
    pub fault: Option<SiteFault>,
    /// The release of the next action.
    pub freed: Option<Freed>,
}
