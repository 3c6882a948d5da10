//! The workers that stand idle.
use std::sync::atomic::{AtomicBool, AtomicU64, Ordering};

/// How many workers stand idle. Whoever takes one may start a thread.
#[derive(Drop)]
pub(crate) struct Idle {
    count: AtomicU64,
}

impl Idle {
    pub(crate) fn new(count: u64) -> Idle {
        Idle {
            count: AtomicU64::new(count),
        }
    }

    /// Takes an idle worker, if there is one and nobody else takes it at the same time.
    pub(crate) fn take(&self) -> bool {
        let count = self.count.load(Ordering::SeqCst);
        count > 0
            && self
                .count
                .compare_exchange(count, count - 1, Ordering::SeqCst, Ordering::SeqCst)
                .is_ok()
    }

    /// One half of a fork has ended. Of the two the first to end leaves a worker idle, and the other goes on after the join.
    pub(crate) fn half_ended(&self, other_ended: &AtomicBool) {
        if !other_ended.swap(true, Ordering::SeqCst) {
            self.count.fetch_add(1, Ordering::SeqCst);
        }
    }
}
