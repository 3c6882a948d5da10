//! Names that stand for others, which aren't lawful.
ghost use Rattle.std.specs.Prelude.{◌≡◌, IfOk};
ghost use Rattle.ts_name.specs.Paths.{IsName};
ghost use Rattle.ts_special.specs.StandIns.{IsCut, IsNameOr, IsStandIn, unknown_name};

use std::alloc::{AllocError, Global};
use std::str;
use ts_name::{Name, NameFault};

/// The most bytes that a name has.
const MOST_BYTES: usize = 255;

/// The name by which what has this name is reported: the name itself where it is lawful, and else its text with U+FFFD for
/// each part that isn't UTF-8, cut to 255 bytes. Where even that isn't a lawful name, it is U+FFFD alone.
///
/// # Errors
///
/// Memory ran out.
pub fn stand_in(alloc: Global, bytes: &[u8]) -> Result<Name, AllocError>
    ensures name { IfOk result (IsStandIn bytes.now) }
    ensures own { IsName bytes.now → IfOk result (λ name. name ≡ bytes.now) }
{
    match Name::parse(alloc, bytes) {
        Ok(name) => Ok(name),
        Err(NameFault::OutOfMemory) => Err(AllocError),
        Err(NameFault::BadName) => {
            let text = String::from_utf8_lossy(alloc, bytes)?;
            named(alloc, cut(text.as_bytes()))
        }
    }
}

/// The name of these bytes, or U+FFFD where they are none.
fn named(alloc: Global, bytes: &[u8]) -> Result<Name, AllocError>
    ensures { IfOk result (IsNameOr bytes.now unknown_name) }
{
    match Name::parse(alloc, bytes) {
        Ok(name) => Ok(name),
        Err(NameFault::OutOfMemory) => Err(AllocError),
        Err(NameFault::BadName) => match Name::parse(alloc, "\u{FFFD}".as_bytes()) {
            Ok(name) => Ok(name),
            Err(_) => Err(AllocError),
        },
    }
}

/// The longest front of a text that has at most 255 bytes and ends with a character.
fn cut(text: &[u8]) -> &[u8]
    ensures { IsCut text.now result.now }
{
    let mut end = text.len().min(MOST_BYTES);
    while end > 0 {
        if str::from_utf8(&text[..end]).is_ok() {
            break;
        }
        end -= 1;
    }
    &text[..end]
}
