//! The lines of a file's bytes.
ghost use Rattle.std.specs.Prelude.{◌≡◌, ◌≤◌, ◌*◌, ◌++◌, false, length, IsTrue, OnOk, OnErr, IfErr};
ghost use Rattle.hex.specs.Hex.{encode_lower};
ghost use Rattle.ts_model.specs.Texts.{IsBytes};
ghost use Rattle.ts_tree.specs.Faults.{Refuses};
ghost use Rattle.ts_tree.specs.Fields.{AddsData, IsNoData, IsNoHex};

use crate::fault::TreeFault;
use crate::field::after;
use std::alloc::AllocError;

/// The most bytes that a line of data has.
pub(crate) const LINE_BYTES: usize = 64;

/// Writes the bytes as lower-case hex digits.
fn write_hex(bytes: &[u8], digits: &mut [u8])
    requires { length digits.old ≡ 2 * length bytes.now }
    ensures { digits.new ≡ encode_lower bytes.now }
{
    if hex::encode_to_slice(bytes, digits).is_err() {
        unreachable!();
    }
}

/// Reads as many bytes as `data` has room for, at most 64, from lower-case hex digits.
pub fn read_hex(digits: &[u8], data: &mut [u8]) -> bool
    requires { length data.old ≤ 64 }
    ensures found { IsTrue result → digits.now ≡ encode_lower data.new }
    ensures lawful { IsBytes data.new }
    ensures none { result ≡ false → IsNoHex digits.now (length data.old) }
{
    let count = data.len();
    if hex::decode_to_slice(digits, data).is_err() {
        return false;
    }
    let mut again = [0u8; 2 * LINE_BYTES];
    let text = &mut again[..2 * count];
    write_hex(&*data, text);
    digits == &*text
}

/// Adds the `count` bytes that the line tells to the bytes of a file.
pub(crate) fn read_data(bytes: &mut Vec<u8>, line: &[u8], count: usize) -> Result<(), TreeFault>
    requires { count ≤ 64 }
    ensures found { OnOk result (AddsData bytes.old.items bytes.new.items line.now count) }
    ensures refused { IfErr result (Refuses (IsNoData line.now count)) }
{
    let mut data = [0u8; LINE_BYTES];
    let digits = after(line, b'x').ok_or(TreeFault::NotCanonical)?;
    if !read_hex(digits, &mut data[..count]) {
        return Err(TreeFault::NotCanonical);
    }
    bytes.extend_from_slice(&data[..count])?;
    Ok(())
}

/// Adds the bytes as hex digits. At an error nothing is added.
pub(crate) fn push_hex(out: &mut Vec<u8>, bytes: &[u8]) -> Result<(), AllocError>
    requires { length bytes.now ≤ 64 }
    ensures ok { OnOk result (out.new.items ≡ out.old.items ++ encode_lower bytes.now) }
    ensures err { OnErr result (out.new.items ≡ out.old.items) }
{
    let mut digits = [0u8; 2 * LINE_BYTES];
    let text = &mut digits[..2 * bytes.len()];
    write_hex(bytes, text);
    out.extend_from_slice(text)
}
