//! A gate at which two actions meet.

use std::sync::atomic::{AtomicU64, Ordering};
use std::thread;
use ts_exec::Gate;

/// Who waits for the other looks at most so often.
const TURNS: u32 = 10_000_000;

/// Lets neither of two actions pass before both have come.
#[derive(Drop)]
pub struct Meeting {
    one: u32,
    other: u32,
    one_came: AtomicU64,
    other_came: AtomicU64,
    late: AtomicU64,
}

impl Meeting {
    pub fn new(one: u32, other: u32) -> Meeting {
        Meeting {
            one,
            other,
            one_came: AtomicU64::new(0),
            other_came: AtomicU64::new(0),
            late: AtomicU64::new(0),
        }
    }

    /// Whether both came, and none waited in vain.
    pub fn took_place(&self) -> bool {
        self.one_came.load(Ordering::SeqCst) == 1
            && self.other_came.load(Ordering::SeqCst) == 1
            && self.late.load(Ordering::SeqCst) == 0
    }

    /// Tells that one came, and waits for the other.
    fn meet(&self, mine: &AtomicU64, others: &AtomicU64) {
        mine.store(1, Ordering::SeqCst);
        for _ in 0..TURNS {
            if others.load(Ordering::SeqCst) == 1 {
                return;
            }
            thread::yield_now();
        }
        self.late.store(1, Ordering::SeqCst);
    }
}

impl Gate for Meeting {
    fn pass(&self, action: u32) {
        if action == self.one {
            self.meet(&self.one_came, &self.other_came);
        } else if action == self.other {
            self.meet(&self.other_came, &self.one_came);
        }
    }
}
