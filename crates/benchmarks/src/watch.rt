//! A gate that notes when the last actions begin.

use std::rt::Clock;
use std::sync::atomic::{AtomicU64, Ordering};
use std::time::Instant;
use ts_exec::Gate;

/// Notes how many microseconds after a start one of the actions from a number on passed last. The others pass unnoted, so
/// that workers don't wait for one another here.
#[derive(Drop)]
pub struct Watch<'a, R> {
    rt: &'a R,
    start: Instant,
    from: u32,
    last: AtomicU64,
}

impl<'a, R: Clock> Watch<'a, R> {
    pub fn new(rt: &'a R, start: Instant, from: u32) -> Watch<'a, R> {
        Watch {
            rt,
            start,
            from,
            last: AtomicU64::new(0),
        }
    }

    /// When one of these actions passed last, 0 where none did.
    pub fn last(&self) -> u64 {
        self.last.load(Ordering::SeqCst)
    }
}

impl<R: Clock + Sync> Gate for Watch<'_, R> {
    fn pass(&self, action: u32) {
        if action < self.from {
            return;
        }
        if let Ok(passed) = self.start.elapsed(self.rt) {
            let passed = u64::try_from(passed.as_micros()).unwrap_or(u64::MAX);
            self.last.fetch_max(passed, Ordering::SeqCst);
        }
    }
}
