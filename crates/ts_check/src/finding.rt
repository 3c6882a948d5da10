//! The least number at which something is wrong, looked for by several threads.

ghost use Rattle.std.specs.Prelude.{ℕ};
ghost use Rattle.std.specs.Borrow.{Bor};
ghost use Rattle.ts_check.specs.Answered.{IsFirstAnswer};

use rayon::prelude::*;
use std::thread::Threads;

/// The least number below `count` at which the closure answers true. It is asked about each of them, by as many threads as
/// there are processors.
pub fn first_where<F: Fn(&usize) -> bool + Sync>(
    rt: &(impl Threads + Sync),
    count: usize,
    is_wrong: F,
) -> Option<usize>
    requires { (i : Bor ℕ) → F.pre is_wrong i }
    ensures { IsFirstAnswer (F.post is_wrong) count result }
{
    (0..count).into_par_iter().find_first(rt, is_wrong)
}
