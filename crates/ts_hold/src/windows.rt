//! Windows: a few bytes of a name that stand together. Patterns with a star at both ends are found by them.
ghost use Rattle.std.specs.Prelude.{◌≡◌, IfSome};
ghost use Rattle.ts_hold.specs.Windows.{HasSize, IsMore, IsWindowKey, bytes_in, shifted, window_key};

use crate::index::Index;
use crate::keys::mixed;
use ts_model::hold::Symbol;

/// How many bytes a window has.
#[derive(Clone, Copy)]
pub enum Size {
    One,
    Two,
    Four,
    Eight,
}

impl Size {
    /// The number of bytes.
    pub fn bytes(self) -> usize
        ensures { result ≡ bytes_in self }
    {
        match self {
            Size::One => 1,
            Size::Two => 2,
            Size::Four => 4,
            Size::Eight => 8,
        }
    }
}

/// The sizes of the windows by which rules are found.
#[derive(Clone, Copy)]
pub struct Sizes {
    pub one: bool,
    pub two: bool,
    pub four: bool,
    pub eight: bool,
}

impl Sizes {
    /// No size is in use.
    pub fn none() -> Sizes {
        Sizes {
            one: false,
            two: false,
            four: false,
            eight: false,
        }
    }

    /// These sizes and one more.
    pub fn with(self, size: Size) -> Sizes
        ensures has { HasSize result size }
        ensures kept { IsMore self result }
    {
        let mut sizes = self;
        match size {
            Size::One => sizes.one = true,
            Size::Two => sizes.two = true,
            Size::Four => sizes.four = true,
            Size::Eight => sizes.eight = true,
        }
        sizes
    }
}

/// The number of the last eight bytes, with one byte more.
pub fn shifted(number: u64, byte: u8) -> u64
    ensures { result ≡ shifted number byte }
{
    number.wrapping_mul(256).wrapping_add(u64::from(byte))
}

/// The key of the last bytes, as many as the size says, of those with this number.
pub fn window_key(size: Size, number: u64) -> u64
    ensures { result ≡ window_key size number }
{
    let low = match size {
        Size::One => number % 256,
        Size::Two => number % 65_536,
        Size::Four => number % 4_294_967_296,
        Size::Eight => number,
    };
    let key = mixed(size.bytes() as u64, low / 4_294_967_296);
    mixed(key, low % 4_294_967_296)
}

/// The key of a window of this size in which no star stands, if there is one: of the first whose key no rule has, else of the last.
pub fn key_between(index: &Index, pattern: &[Symbol], size: Size) -> Option<u64>
    ensures { IfSome result (IsWindowKey pattern.now size) }
{
    let mut found = None;
    let mut number = 0;
    let mut run = 0;
    for symbol in pattern {
        match *symbol {
            Symbol::Star => {
                number = 0;
                run = 0;
            }
            Symbol::Byte(byte) => {
                number = shifted(number, byte);
                run += 1;
            }
        }
        if run >= size.bytes() {
            let key = window_key(size, number);
            found = Some(key);
            if index.last(key).is_none() {
                return found;
            }
        }
    }
    found
}

/// The key of a window in which no star stands, of the largest size of which the pattern has one.
pub fn widest_key(index: &Index, pattern: &[Symbol]) -> Option<(u64, Size)>
    ensures { IfSome result (λ found. IsWindowKey pattern.now found.1 found.0) }
{
    if let Some(key) = key_between(index, pattern, Size::Eight) {
        return Some((key, Size::Eight));
    }
    if let Some(key) = key_between(index, pattern, Size::Four) {
        return Some((key, Size::Four));
    }
    if let Some(key) = key_between(index, pattern, Size::Two) {
        return Some((key, Size::Two));
    }
    let key = key_between(index, pattern, Size::One)?;
    Some((key, Size::One))
}
