//! One buffer for the bytes of many paths, or of many names.
ghost use Rattle.std.specs.Prelude.{◌≡◌};

use crate::bytes::Bytes;
use crate::names::Name;
use crate::paths::Path;
use std::alloc::{AllocError, Global};
use std::sync::Arc;

/// The bytes of paths and of names, those of one behind those of another, for paths and names that have a buffer each.
#[derive(Drop)]
pub struct Packing {
    bytes: Vec<u8>,
}

impl Packing {
    /// There are none yet. It takes no memory.
    pub fn new(alloc: Global) -> Packing {
        Packing {
            bytes: Vec::new(alloc),
        }
    }

    /// Puts a path's bytes behind those that are there, if no other bytes stand beside them where they are now.
    pub fn add(&mut self, path: &Path) -> Result<(), AllocError> {
        self.add_bytes(&path.bytes)
    }

    /// The same with the bytes of a name.
    pub fn add_name(&mut self, name: &Name) -> Result<(), AllocError> {
        self.add_bytes(&name.bytes)
    }

    fn add_bytes(&mut self, bytes: &Bytes) -> Result<(), AllocError> {
        if bytes.are_whole() {
            self.bytes.extend_from_slice(bytes.as_slice())?;
        }
        Ok(())
    }

    /// They become a buffer that the same paths and names can share, one after the other.
    pub fn into_buffer(self, alloc: Global) -> Result<SharedBuffer, AllocError> {
        let Packing { mut bytes } = self;
        bytes.shrink_to_fit();
        Ok(SharedBuffer {
            bytes: Arc::new(alloc, bytes)?,
            next: 0,
        })
    }
}

/// A buffer with the bytes of several paths or names.
#[derive(Drop)]
pub struct SharedBuffer {
    bytes: Arc<Vec<u8>, Global>,
    next: usize,
}

impl SharedBuffer {
    /// Lets a path share these bytes, where its own come next in them. It is the same path then, and its own buffer is given back.
    /// It takes no memory.
    pub fn lend(&mut self, path: &mut Path)
        ensures { path.new ≡ path.old }
    {
        self.lend_bytes(&mut path.bytes);
    }

    /// The same with a name.
    pub fn lend_name(&mut self, name: &mut Name)
        ensures { name.new ≡ name.old }
    {
        self.lend_bytes(&mut name.bytes);
    }

    /// Puts a part of the buffer in the place of bytes that have a buffer of their own, where the same ones come next in it.
    fn lend_bytes(&mut self, bytes: &mut Bytes)
        ensures { bytes.new ≡ bytes.old }
    {
        if !bytes.are_whole() {
            return;
        }
        if let Some(shared) = bytes.found_in(&self.bytes, self.next) {
            self.next = self.next.saturating_add(bytes.as_slice().len());
            *bytes = shared;
        }
    }
}
