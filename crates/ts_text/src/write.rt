//! Writing to a sink until all is taken.
ghost use Rattle.std.specs.Prelude.{◌≡◌, ◌∷◌, [], ◌++◌, IfErr};
ghost use Rattle.ts_text.specs.Lines.{FailuresFit};
ghost use Rattle.ts_text.specs.Sources.{Writes};
ghost use Rattle.ts_text.specs.declared.fault.TextFault.TheVariants as fault;

use crate::fault::TextFault;
use crate::source::Sink;

/// Writes all the bytes. Where the sink fails, a beginning of them went out.
pub fn write_all<W: Sink>(sink: &mut W, bytes: &[u8]) -> Result<(), TextFault>
    ensures written { Writes (W.holds sink.old) (W.holds sink.new) bytes.now result }
    ensures failures { FailuresFit (W.failures sink.old) (W.failures sink.new) result }
    ensures err { IfErr result (λ e. e ≡ fault.Failed) }
{
    let mut rest = bytes;
    while !rest.is_empty() {
        let count = sink.write(rest)?;
        rest = &rest[count..];
    }
    Ok(())
}

/// Writes the line and its line feed. Where the sink fails, a beginning of these went out.
pub fn write_line<W: Sink>(sink: &mut W, line: &[u8]) -> Result<(), TextFault>
    ensures written { Writes (W.holds sink.old) (W.holds sink.new) (line.now ++ 10 ∷ []) result }
    ensures failures { FailuresFit (W.failures sink.old) (W.failures sink.new) result }
    ensures err { IfErr result (λ e. e ≡ fault.Failed) }
{
    write_all(sink, line)?;
    write_all(sink, b"\n")
}
