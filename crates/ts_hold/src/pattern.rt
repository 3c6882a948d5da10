//! Whether a name fits a pattern.
ghost use Rattle.std.specs.Prelude.{◌∷◌, ◌↔◌, IsTrue};
ghost use Rattle.ts_model.specs.Holds.{Fits};
ghost use Rattle.ts_model.specs.declared.hold.Symbol.TheVariants.{Star};
ghost use Rattle.ts_hold.specs.Fronts.{FrontGives};

use ts_model::hold::Symbol;

/// What becomes of a pattern's bytes before its next star.
#[derive(Drop)]
enum Front<'a> {
    /// They don't begin the name, or the name goes on after the pattern's end.
    Apart,
    /// They are the whole name, and no star comes.
    Whole,
    /// They begin the name. Left are the pattern after the star, and the rest of the name.
    AtStar(&'a [Symbol], &'a [u8]),
}

fn match_front<'a>(pattern: &'a [Symbol], name: &'a [u8]) -> Front<'a>
    ensures { FrontGives pattern.now name.now result }
{
    let mut symbols = pattern;
    let mut bytes = name;
    'next: while let Some((symbol, rest)) = symbols.split_first() {
        let Symbol::Byte(byte) = *symbol else {
            return Front::AtStar(rest, bytes);
        };
        let Some((first, left)) = bytes.split_first() else {
            return Front::Apart;
        };
        if byte != *first {
            return Front::Apart;
        }
        symbols = rest;
        bytes = left;
    }
    if bytes.is_empty() {
        Front::Whole
    } else {
        Front::Apart
    }
}

/// Whether some end of the name fits the pattern. Bytes before a star are taken where they first stand,
/// since a later place leaves less of the name.
fn some_end_fits(pattern: &[Symbol], name: &[u8]) -> bool
    ensures { IsTrue result ↔ Fits (Star ∷ pattern.now) name.now }
{
    let mut symbols = pattern;
    let mut bytes = name;
    'next: loop {
        match match_front(symbols, bytes) {
            Front::Whole => return true,
            Front::AtStar(rest, left) => {
                symbols = rest;
                bytes = left;
            }
            Front::Apart => match bytes.split_first() {
                None => return false,
                Some((_, left)) => bytes = left,
            },
        }
    }
}

/// Whether the name fits the pattern. Takes at most one step for each pair of a symbol and a byte.
pub fn fits(pattern: &[Symbol], name: &[u8]) -> bool
    ensures { IsTrue result ↔ Fits pattern.now name.now }
{
    match match_front(pattern, name) {
        Front::Apart => false,
        Front::Whole => true,
        Front::AtStar(rest, left) => some_end_fits(rest, left),
    }
}
