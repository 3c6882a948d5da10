//! Paths of rows that share their bytes.
ghost use Rattle.std.specs.Prelude.{◌≡◌};

use std::alloc::{AllocError, Global};
use ts_model::row::Row;
use ts_name::Packing;

/// How many rows that come one after the other share one buffer for the bytes of their paths.
pub const PACKED_ROWS: usize = 256;

/// Lets the paths of these rows share one buffer, where each has one of its own: that takes two blocks of memory in place of two a
/// path. The rows are the same afterwards, also where memory runs out.
pub fn pack_paths<F>(alloc: Global, rows: &mut [Row<F>]) -> Result<(), AllocError>
    ensures { rows.new ≡ rows.old }
{
    let mut packing = Packing::new(alloc);
    for row in rows.iter() {
        packing.add(&row.path)?;
    }
    let mut buffer = packing.into_buffer(alloc)?;
    for row in rows.iter_mut() {
        buffer.lend(&mut row.path);
    }
    Ok(())
}

/// The same of the last rows, where so many have come since the paths of others were packed.
pub(crate) fn pack_last<F>(alloc: Global, rows: &mut Vec<Row<F>>) -> Result<(), AllocError>
    ensures { rows.new.items ≡ rows.old.items }
{
    let count = rows.len();
    if count >= PACKED_ROWS && count % PACKED_ROWS == 0 {
        pack_paths(alloc, &mut rows[count - PACKED_ROWS..])?;
    }
    Ok(())
}
