//! The bytes that a line reader holds between calls.
ghost use Rattle.std.specs.Prelude.{◌≡◌, ◌+◌, ◌-◌, ◌<◌, ◌≤◌, ℕ, List, [], ◌++◌, length, take, drop, slice_range, IfOk, OnErr, vec_len};
ghost use Rattle.std.specs.Io.KnownBytes.{Keeps, Consumes, IsAtEnd};
ghost use Rattle.ts_text.specs.Sources.{CountsFailure, Gains};

use crate::source::{Failed, Source};
use std::alloc::{AllocError, Global};
use std::marker::Model;

/// The bytes of a longest line, and one more for its line feed.
pub(crate) const CAPACITY: usize = 16385;

/// `buffer[start..end]` is read and not yet given.
#[derive(Drop)]
pub(crate) struct Window {
    buffer: Vec<u8>,
    start: usize,
    end: usize,
}

impl Model for Window {
    ghost Value = { List ℕ };

    ghost view = { λ w. slice_range w.buffer.items w.start w.end };

    ghost invariant = { λ w. (w.start ≤ w.end) × (w.end ≤ 16385) × (vec_len w.buffer ≡ 16385) };
}

impl Window {
    /// Holds nothing, and has room for `CAPACITY` bytes.
    pub(crate) fn new(alloc: Global) -> Result<Self, AllocError>
        ensures { IfOk result (λ w. w ≡ []) }
    {
        let mut buffer = Vec::with_capacity(alloc, CAPACITY)?;
        buffer.resize(CAPACITY, 0)?;
        Ok(Window {
            buffer,
            start: 0,
            end: 0,
        })
    }

    /// What it holds.
    pub(crate) fn bytes(&self) -> &[u8]
        ensures value { result.now ≡ self.now }
        ensures bound { length self.now ≤ 16385 }
    {
        let (start, end) = (self.start, self.end);
        let all = self.buffer.as_slice();
        &all[start..end]
    }

    /// Gives up the first `count` bytes.
    pub(crate) fn drop_front(&mut self, count: usize)
        requires { count ≤ length self.old }
        ensures { self.new ≡ drop count self.old }
    {
        self.start += count;
    }

    /// Reads once behind what it holds. `Ok(0)` is the source's end.
    pub(crate) fn fill<S: Source>(&mut self, source: &mut S) -> Result<usize, Failed>
        requires { length self.old < 16385 }
        ensures gains { IfOk result (λ n. Gains (S.holds source.old) (S.holds source.new) self.old self.new n) }
        ensures end { IfOk result (λ n. n ≡ 0 → IsAtEnd (S.holds source.new)) }
        ensures err { OnErr result (self.new ≡ self.old) }
        ensures err_bytes { OnErr result (Keeps (S.holds source.old) (S.holds source.new)) }
        ensures counted { CountsFailure (S.failures source.old) (S.failures source.new) result }
    {
        move_to_front(&mut self.buffer, self.start, self.end);
        self.end -= self.start;
        self.start = 0;
        let count = read_behind(source, &mut self.buffer, self.end)?;
        self.end += count;
        Ok(count)
    }
}

fn move_to_front(buffer: &mut Vec<u8>, start: usize, end: usize)
    requires ordered { start ≤ end }
    requires in_bounds { end ≤ vec_len buffer.old }
    ensures moved { take (end - start) buffer.new.items ≡ slice_range buffer.old.items start end }
    ensures len { vec_len buffer.new ≡ vec_len buffer.old }
{
    if start > 0 {
        buffer.copy_within(start..end, 0);
    }
}

fn read_behind<S: Source>(source: &mut S, buffer: &mut Vec<u8>, end: usize) -> Result<usize, Failed>
    requires { end < vec_len buffer.old }
    ensures len { vec_len buffer.new ≡ vec_len buffer.old }
    ensures bound { IfOk result (λ n. end + n ≤ vec_len buffer.old) }
    ensures before { take end buffer.new.items ≡ take end buffer.old.items }
    ensures bytes { IfOk result (λ n. Consumes (S.holds source.old) (S.holds source.new) (take n (drop end buffer.new.items))) }
    ensures end { IfOk result (λ n. n ≡ 0 → IsAtEnd (S.holds source.new)) }
    ensures err_bytes { OnErr result (Keeps (S.holds source.old) (S.holds source.new)) }
    ensures counted { CountsFailure (S.failures source.old) (S.failures source.new) result }
{
    let all = buffer.as_mut_slice();
    source.read(&mut all[end..])
}
