//! Reading a print line by line.
ghost use Rattle.std.specs.Prelude.{◌≡◌, ◌++◌, ◌∷◌, [], IfOk, IfErr, IsOk, OnErr, OnOk};
ghost use Rattle.ts_model.specs.Texts.{IsPrintBody, print_lines};
ghost use Rattle.ts_print.specs.Faults.{Refuses};
ghost use Rattle.ts_print.specs.Readers.{BeginsNoPrint};

use crate::fault::PrintFault;
use crate::field::row_of;
use crate::print::Print;
use std::alloc::Global;
use std::marker::Model;
use std::mem;

/// Takes the lines of a print one after another, and gives the print.
#[derive(Drop)]
pub struct PrintReader {
    print: Print,
}

impl Model for PrintReader {
    ghost use Rattle.std.specs.Prelude.{List, ℕ};
    ghost use Rattle.ts_model.specs.Texts.{IsPrintBody, print_lines};

    ghost Value = { List (List ℕ) };

    ghost view = { λ r. print_lines r.print };

    ghost invariant = { λ r. IsPrintBody r.print };
}

impl PrintReader {
    /// No line was taken yet. It takes no memory.
    pub fn new(alloc: Global) -> Self
        ensures { result ≡ [] }
    {
        PrintReader {
            print: Print::empty(alloc),
        }
    }

    /// Takes the next line, given without its line feed. After a fault no line is taken, as in a new reader.
    pub fn line(&mut self, alloc: Global, line: &[u8]) -> Result<(), PrintFault>
        ensures taken { OnOk result (self.new ≡ self.old ++ line.now ∷ []) }
        ensures refused { IfErr result (Refuses (BeginsNoPrint (self.old ++ line.now ∷ []))) }
        ensures err { OnErr result (self.new ≡ []) }
    {
        let reader = mem::replace(self, PrintReader::new(alloc));
        *self = reader.with_line(alloc, line)?;
        Ok(())
    }

    fn with_line(self, alloc: Global, line: &[u8]) -> Result<Self, PrintFault>
        ensures taken { IfOk result (λ reader. reader ≡ self ++ line.now ∷ []) }
        ensures refused { IfErr result (Refuses (BeginsNoPrint (self ++ line.now ∷ []))) }
    {
        let PrintReader { mut print } = self;
        let row = row_of(alloc, line)?;
        if !print.can_push(&row.path) {
            return Err(PrintFault::NotCanonical);
        }
        print.push(row)?;
        print.pack_last(alloc)?;
        Ok(PrintReader { print })
    }

    /// The print whose lines were taken. It takes no memory, and is refused for no lines.
    pub fn finish(self) -> Result<Print, PrintFault>
        ensures taken { IsOk result }
        ensures found { IfOk result (λ print. IsPrintBody print × (print_lines print ≡ self)) }
    {
        let PrintReader { print } = self;
        Ok(print)
    }
}
