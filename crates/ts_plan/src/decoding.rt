//! Reading a plan's text to its end.
ghost use Rattle.ts_plan.specs.Decoding.{Decodes};

use crate::fault::PlanFault;
use crate::text::PlanReader;
use std::alloc::Global;
use ts_model::plan::Plan;
use ts_text::{Lines, Source};

/// The plan whose text is all that the lines' source has left.
///
/// The fault is what stands first in the text: a line that no plan has there, or one past a limit.
pub fn decode<S: Source>(alloc: Global, lines: &mut Lines<S>) -> Result<Plan, PlanFault>
    ensures { Decodes lines.old result lines.new }
{
    let mut reader = PlanReader::new(alloc);
    loop {
        match lines.advance() {
            Ok(true) => {}
            Ok(false) => return reader.finish(),
            Err(fault) => return Err(PlanFault::from(fault)),
        }
        let taken = reader.line(lines.line());
        if let Err(fault) = taken {
            return Err(fault);
        }
    }
}
