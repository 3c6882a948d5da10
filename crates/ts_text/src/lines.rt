//! The lines of a source's bytes.
ghost use Rattle.std.specs.Prelude.{◌≡◌, ◌+◌, ◌-◌, ◌<◌, ◌≤◌, ℕ, List, [], ◌∷◌, ◌++◌, length, take, drop, slice_index, IfOk, IfErr, IfSome, IfNone, ◌≢◌};
ghost use Rattle.std.specs.Io.KnownBytes.{Keeps, prepend_known};
ghost use Rattle.std.specs.Borrow.{sem};
ghost use Rattle.std.specs.Io.BufRead.{Rests};
ghost use Rattle.ts_text.specs.contracts.lines.Lines.{the_row};
ghost use Rattle.ts_text.specs.Lines.{Answers, AnswersLine, Finds, FailuresFit, Stays, StaysLine, HasNoLine};
ghost use Rattle.ts_text.specs.declared.fault.TextFault.TheVariants as fault;
ghost use Rattle.ts_text.specs.declared.state.State.TheVariants as state;

use crate::fault::TextFault;
use crate::source::Source;
use crate::state::State;
use crate::window::{CAPACITY, Window};
use std::alloc::Global;
use std::marker::Model;

/// Gives the lines of a source's bytes, one after another.
///
/// A line has at most 16,384 bytes, and a line feed behind it, the last one too.
#[derive(Drop)]
pub struct Lines<S: Source> {
    source: S,
    window: Window,
    // the bytes at the front of the window that were given: a line and its line feed, or none
    given: usize,
    state: State,
}

impl<S: Source> Model for Lines<S> {
    ghost use Rattle.std.specs.Prelude.{◌-◌, ◌≤◌, length, take, drop};
    ghost use Rattle.std.specs.Io.KnownBytes.{prepend_known};
    ghost use Rattle.ts_text.specs.Lines.{Reading, StateFits};

    ghost Value = { Reading };

    ghost view = { λ l. record {
      left = prepend_known (drop l.given l.window) (S.holds l.source);
      line = take (l.given - 1) l.window;
      state = l.state;
      failures = S.failures l.source;
    } };

    ghost invariant = { λ l. (l.given ≤ length l.window) × StateFits l.state (prepend_known (drop l.given l.window) (S.holds l.source)) };
}

impl<S: Source> Lines<S> {
    /// Makes room for one line. Nothing is read yet.
    pub fn new(alloc: Global, source: S) -> Result<Self, TextFault>
    where
        S: Drop,
        ensures left { IfOk result (λ l. l.left ≡ S.holds source) }
        ensures going { IfOk result (λ l. l.state ≡ state.Going) }
        ensures failures { IfOk result (λ l. l.failures ≡ S.failures source) }
        ensures err { IfErr result (λ e. e ≡ fault.OutOfMemory) }
    {
        let window = Window::new(alloc)?;
        Ok(Lines {
            source,
            window,
            given: 0,
            state: State::Going,
        })
    }

    /// Goes to the next line, and answers whether there is one. It takes no memory.
    pub fn advance(&mut self) -> Result<bool, TextFault>
        ensures answers { Answers self.old result self.new }
        ensures stays { Stays self.old.state result }
    {
        match self.state {
            State::Going => {}
            State::Ended => return Ok(false),
            State::Refused(fault) => return Err(fault),
        }
        self.window.drop_front(self.given);
        self.given = 0;
        match find_line(&mut self.window, &mut self.source) {
            Ok(Some(length)) => {
                self.given = length + 1;
                Ok(true)
            }
            Ok(None) => {
                self.state = State::Ended;
                Ok(false)
            }
            Err(fault) => {
                self.state = State::Refused(fault);
                Err(fault)
            }
        }
    }

    /// Goes to the next line and answers it without its line feed, or `None` at the end. It takes
    /// no memory. What `advance` says of the answer holds of this one.
    pub fn next(&mut self) -> Result<Option<&[u8]>, TextFault>
        ensures* answers { sem 𝓛 (Rests (the_row S.row S.Source) self.entry (λ new. AnswersLine self.old result new)) }
        ensures stays { StaysLine self.old.state result }
    {
        if self.advance()? {
            Ok(Some(self.line()))
        } else {
            Ok(None)
        }
    }

    /// The source, which may have given more than the lines so far.
    pub fn source(&self) -> &S
        ensures failures { S.failures result.now ≡ self.now.failures }
    {
        &self.source
    }

    /// The line that it stands at, without its line feed.
    pub fn line(&self) -> &[u8]
        ensures { result.now ≡ self.now.line }
    {
        let bytes = self.window.bytes();
        &bytes[..self.given.saturating_sub(1)]
    }
}

/// Reads until the window begins with a line and its line feed, and answers the line's length.
fn find_line<S: Source>(window: &mut Window, source: &mut S) -> Result<Option<usize>, TextFault>
    ensures found { Finds window.new (prepend_known window.new (S.holds source.new)) result }
    ensures kept { Keeps (prepend_known window.old (S.holds source.old)) (prepend_known window.new (S.holds source.new)) }
    ensures failures { FailuresFit (S.failures source.old) (S.failures source.new) result }
{
    let mut seen = 0;
    loop {
        let bytes = window.bytes();
        if let Some(length) = line_feed(&bytes[seen..]) {
            return Ok(Some(seen + length));
        }
        seen = bytes.len();
        if seen == CAPACITY {
            return Err(TextFault::NotCanonical);
        }
        if window.fill(source)? == 0 {
            return if seen == 0 {
                Ok(None)
            } else {
                Err(TextFault::NotCanonical)
            };
        }
    }
}

/// The place of the first line feed.
fn line_feed(bytes: &[u8]) -> Option<usize>
    ensures found { IfSome result (λ n. (n < length bytes.now) × (slice_index bytes.now n ≡ 10) × ((k : ℕ) → k < n → slice_index bytes.now k ≢ 10)) }
    ensures none { IfNone result ((k : ℕ) → k < length bytes.now → slice_index bytes.now k ≢ 10) }
{
    bytes.iter().position(|b| *b == b'\n')
}
