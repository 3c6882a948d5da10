/// Where a reader stands in a plan's text.
#[derive(Clone, Copy, Debug, PartialEq, Eq)]
pub enum Part {
    /// Before the first line.
    Start,
    /// Among entries or actions.
    Body,
    /// Behind the last line.
    Ended,
}
