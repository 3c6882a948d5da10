//! Fields of a line.
ghost use Rattle.std.specs.Prelude.{◌≡◌, ◌++◌, OnOk, decimal};

use std::alloc::AllocError;
use ts_text::push_decimal;

/// Appends a name and a number.
pub(crate) fn push_field(name: &[u8], n: u64, line: &mut Vec<u8>) -> Result<(), AllocError>
    ensures { OnOk result (line.new.items ≡ line.old.items ++ name.now ++ decimal n) }
{
    line.extend_from_slice(name)?;
    push_decimal(line, n)
}
