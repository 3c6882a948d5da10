//! Readers and writers that count their failures, and tell their bytes where they can.
ghost use Rattle.std.specs.Prelude.{◌≡◌, ◌<◌, ◌≤◌, ◌≢◌, ℕ, List, Option, length, IfOk};
ghost use Rattle.std.specs.Io.KnownBytes.{ReadConsumes, WriteAppends};
ghost use Rattle.ts_text.specs.Sources.{CountsFailure};

/// The reader or the writer failed in this call, and its count of failures tells so.
#[derive(Clone, Copy, Debug, PartialEq, Eq)]
pub struct Failed;

/// A reader.
///
/// `Ok(0)` for a buffer that isn't empty is the end. After a failure nothing is lost: what was
/// left to read is still left.
pub trait Source {
    // The bytes that it still gives, where it tells them.
    ghost holds: { Self → Option (List ℕ) };

    // How often it failed. The count changes at a failure, and only there.
    ghost failures: { Self → ℕ };

    /// Reads into the front of the buffer, and answers how many bytes.
    fn read(&mut self, buffer: &mut [u8]) -> Result<usize, Failed>
        ensures bound { IfOk result (λ n. n ≤ length buffer.new) }
        ensures bytes { ReadConsumes (holds self.old) (holds self.new) result buffer.new }
        ensures counted { CountsFailure (failures self.old) (failures self.new) result };
}

/// A writer.
///
/// It never answers `Ok(0)` for bytes that aren't empty. A call that fails has written nothing.
pub trait Sink {
    // The bytes that it was given so far, where it tells them.
    ghost holds: { Self → Option (List ℕ) };

    // How often it failed. The count changes at a failure, and only there.
    ghost failures: { Self → ℕ };

    /// Writes a beginning of the bytes, and answers how many.
    fn write(&mut self, bytes: &[u8]) -> Result<usize, Failed>
        ensures bound { IfOk result (λ n. n ≤ length bytes.now) }
        ensures some { 0 < length bytes.now → IfOk result (λ n. 0 < n) }
        ensures bytes { WriteAppends (holds self.old) (holds self.new) result bytes.now }
        ensures counted { CountsFailure (failures self.old) (failures self.new) result };
}
