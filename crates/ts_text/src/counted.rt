ghost use Rattle.std.specs.Prelude.{◌≡◌, ◌≢◌};

use crate::source::{Failed, Sink, Source};
use std::io::{Read, Write};

/// A reader or a writer of std that counts its failures.
///
/// Each error of a call is a failure, an interrupted call among them, and so is a write that takes
/// no byte. The count begins again at 0 after 2^64 - 1.
#[derive(Drop)]
pub struct Counted<T> {
    pub inner: T,
    pub failures: u64,
}

impl<T> Counted<T> {
    /// Nothing has failed yet.
    pub fn new(inner: T) -> Self
        ensures inner { result.inner ≡ inner }
        ensures failures { result.failures ≡ 0 }
    {
        Counted { inner, failures: 0 }
    }

    /// The reader or the writer itself.
    pub fn into_inner(self) -> T
        ensures { result ≡ self.inner }
    {
        let Counted { inner, failures: _ } = self;
        inner
    }
}

/// The count after one more failure.
fn one_more(failures: u64) -> u64
    ensures { result ≢ failures }
{
    failures.wrapping_add(1)
}

impl<R: Read> Source for Counted<R> {
    ghost holds = { λ c. R.remaining c.inner };

    ghost failures = { λ c. c.failures };

    fn read(&mut self, buffer: &mut [u8]) -> Result<usize, Failed> {
        match self.inner.read(buffer) {
            Ok(n) => Ok(n),
            Err(_) => {
                self.failures = one_more(self.failures);
                Err(Failed)
            }
        }
    }
}

impl<W: Write> Sink for Counted<W> {
    ghost holds = { λ c. W.contents c.inner };

    ghost failures = { λ c. c.failures };

    fn write(&mut self, bytes: &[u8]) -> Result<usize, Failed> {
        match self.inner.write(bytes) {
            Ok(n) if n > 0 || bytes.is_empty() => Ok(n),
            _ => {
                self.failures = one_more(self.failures);
                Err(Failed)
            }
        }
    }
}
