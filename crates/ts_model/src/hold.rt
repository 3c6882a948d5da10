use crate::items::Items;
use ts_name::Path;

/// A symbol of a name pattern.
#[derive(Clone, Copy, Debug, PartialEq, Eq)]
pub enum Symbol {
    /// Any bytes, or none.
    Star,
    /// This byte.
    Byte(u8),
}

/// A hold rule: what it names stays untouched.
#[derive(Drop)]
pub enum Rule {
    /// Names this path.
    OnePath(Path),
    /// Names every path whose last name fits the pattern.
    LastName(Items<Symbol>),
}
