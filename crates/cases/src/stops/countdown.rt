//! A stop that answers false so often, and then true.

use std::sync::atomic::{AtomicU64, Ordering};
use ts_exec::Stop;

#[derive(Drop)]
pub struct Countdown {
    asked: AtomicU64,
    free: u64,
}

impl Countdown {
    /// Answers false `free` times.
    pub fn new(free: u64) -> Countdown {
        Countdown {
            asked: AtomicU64::new(0),
            free,
        }
    }

    /// Whether it has answered true.
    pub fn has_stopped(&self) -> bool {
        self.asked.load(Ordering::SeqCst) > self.free
    }
}

impl Stop for Countdown {
    ghost stops = { λ _. Unit {0} };

    fn now(&self) -> bool {
        self.asked.fetch_add(1, Ordering::SeqCst) >= self.free
    }
}
