//! A keeper that stores the archives that it is handed.
ghost use Rattle.std.specs.Prelude.{Some};

use std::alloc::Global;
use ts_exec::Keeper;
use ts_print::Print;

#[derive(Drop)]
pub struct Shelf {
    archives: Vec<Print>,
}

impl Shelf {
    /// Nothing is stored yet.
    pub fn new(alloc: Global) -> Shelf {
        Shelf {
            archives: Vec::new(alloc),
        }
    }

    /// All that was stored.
    pub fn into_archives(self) -> Vec<Print> {
        self.archives
    }
}

impl Keeper for Shelf {
    ghost kept = { λ shelf. Some shelf.archives.items };

    fn keep(&mut self, archive: Print) {
        // one that finds no memory is done without
        let _ = self.archives.push(archive);
    }
}
