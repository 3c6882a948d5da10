//! Where a command reads, where its answer goes, and why either failed.
ghost use Rattle.std.specs.Io.{ReadsAtMost, WritesAtMost};
ghost use Rattle.std.specs.Io.KnownBytes.{Keeps, ReadConsumes, WriteAppends};
ghost use Rattle.std.specs.Prelude.{◌≡◌, ◌<◌, IfErr, IfOk, OnOk};
ghost use Rattle.ts_cause.specs.Causes.{IsCauseOf};

use std::io;
use std::io::{Read, Write};
use ts_cause::{Cause, cause_of};
use ts_text::Counted;

/// A source or a sink that says why it failed.
pub trait SaysCause {
    /// Why the last call that failed did so. It is unknown before one, and where the system gives no reason.
    fn cause(&self) -> Cause;
}

/// A reader or a writer of std that keeps why the last call that failed did so. Within `Counted` it says why.
#[derive(Drop)]
pub struct KeepsCause<W> {
    pub inner: W,
    pub cause: Cause,
}

impl<W> KeepsCause<W> {
    /// Nothing has failed yet.
    pub fn new(inner: W) -> Self
        ensures inner { result.inner ≡ inner }
        ensures cause { result.cause ≡ Cause.Unknown }
    {
        KeepsCause {
            inner,
            cause: Cause::Unknown,
        }
    }
}

impl<R: Read> Read for KeepsCause<R> {
    ghost remaining = { λ k. R.remaining k.inner };

    fn read(&mut self, buffer: &mut [u8]) -> io::Result<usize>
        ensures bound { ReadsAtMost result buffer.new }
        ensures bytes { ReadConsumes (R.remaining self.old.inner) (R.remaining self.new.inner) result buffer.new }
        ensures kept { IfErr result (λ e. IsCauseOf e self.new.cause) }
        ensures same { OnOk result (self.new.cause ≡ self.old.cause) }
    {
        match self.inner.read(buffer) {
            Ok(count) => Ok(count),
            Err(e) => {
                self.cause = cause_of(&e);
                Err(e)
            }
        }
    }
}

impl<W: Write> Write for KeepsCause<W> {
    ghost contents = { λ k. W.contents k.inner };

    fn write(&mut self, bytes: &[u8]) -> io::Result<usize>
        ensures bound { WritesAtMost result bytes.now }
        ensures bytes { WriteAppends (W.contents self.old.inner) (W.contents self.new.inner) result bytes.now }
        ensures kept { IfErr result (λ e. IsCauseOf e self.new.cause) }
        ensures none { IfOk result (λ n. n ≡ 0 → self.new.cause ≡ Cause.Unknown) }
        ensures same { IfOk result (λ n. 0 < n → self.new.cause ≡ self.old.cause) }
    {
        match self.inner.write(bytes) {
            // no byte is taken, and nobody says why
            Ok(0) => {
                self.cause = Cause::Unknown;
                Ok(0)
            }
            Ok(count) => Ok(count),
            Err(e) => {
                self.cause = cause_of(&e);
                Err(e)
            }
        }
    }

    fn flush(&mut self) -> io::Result<()>
        ensures bytes { Keeps (W.contents self.old.inner) (W.contents self.new.inner) }
        ensures kept { IfErr result (λ e. IsCauseOf e self.new.cause) }
        ensures same { IfOk result (λ _. self.new.cause ≡ self.old.cause) }
    {
        match self.inner.flush() {
            Ok(()) => Ok(()),
            Err(e) => {
                self.cause = cause_of(&e);
                Err(e)
            }
        }
    }
}

impl<T> SaysCause for Counted<KeepsCause<T>> {
    fn cause(&self) -> Cause
        ensures { result ≡ self.now.inner.cause }
    {
        self.inner.cause
    }
}
