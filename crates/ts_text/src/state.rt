use crate::fault::TextFault;

/// Where a line reader stands.
#[derive(Clone, Copy, Debug, PartialEq, Eq)]
pub enum State {
    /// There may be more lines.
    Going,
    /// All lines were given.
    Ended,
    /// It has met this fault, and answers it from then on.
    Refused(TextFault),
}
