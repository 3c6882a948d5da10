//! Names of a listing that share their bytes.
ghost use Rattle.std.specs.Prelude.{◌≡◌};

use crate::folder::Kind;
use std::alloc::{AllocError, Global};
use ts_name::{Name, Packing};

/// How many names that come one after the other share one buffer for their bytes.
const PACKED_NAMES: usize = 256;

/// Lets these names share one buffer, where each has one of its own: that takes two blocks of memory in place of two a name. They
/// are the same afterwards, also where memory runs out.
pub(crate) fn pack_names(alloc: Global, names: &mut [(Name, Kind)]) -> Result<(), AllocError>
    ensures { names.new ≡ names.old }
{
    let mut packing = Packing::new(alloc);
    for child in names.iter() {
        packing.add_name(&child.0)?;
    }
    let mut buffer = packing.into_buffer(alloc)?;
    for child in names.iter_mut() {
        buffer.lend_name(&mut child.0);
    }
    Ok(())
}

/// The same of the last names, where so many have come since others were packed.
pub(crate) fn pack_last(alloc: Global, names: &mut Vec<(Name, Kind)>) -> Result<(), AllocError>
    ensures { names.new.items ≡ names.old.items }
{
    let count = names.len();
    if count >= PACKED_NAMES && count % PACKED_NAMES == 0 {
        pack_names(alloc, &mut names[count - PACKED_NAMES..])?;
    }
    Ok(())
}

/// The same of all that have come since, once no more come. One alone keeps its own buffer.
pub(crate) fn pack_rest(alloc: Global, names: &mut Vec<(Name, Kind)>) -> Result<(), AllocError>
    ensures { names.new.items ≡ names.old.items }
{
    let count = names.len();
    let rest = count % PACKED_NAMES;
    if rest > 1 {
        pack_names(alloc, &mut names[count - rest..])?;
    }
    Ok(())
}
