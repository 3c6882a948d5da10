//! What a command works on.
ghost use Rattle.std.specs.Prelude.{◌≡◌, ◌≤◌, IsTrue, None};

use crate::disk::Machine;
use ts_command::{Command, Pair};
use ts_progress::Progress;

/// Two replicas with their archive and hold rules, the command that names them, the machine that they are on, how many threads
/// work, 1 to 64, and what is drawn meanwhile.
#[derive(Drop)]
pub(crate) struct Task<'a, R> {
    pub rt: &'a R,
    pub command: &'a Command<'a>,
    pub pair: &'a Pair<'a>,
    pub workers: u32,
    pub progress: Progress<'a, R>,
    pub ghost some: { 1 ≤ workers },
    pub ghost few: { workers ≤ 64 },
}

impl<'a, R: Machine> Task<'a, R> {
    /// What a command does on this pair.
    pub(crate) fn new(rt: &'a R, command: &'a Command<'a>, pair: &'a Pair<'a>) -> Task<'a, R>
        ensures command { result.command.now ≡ command.entry.now }
        ensures pair { result.pair.now ≡ pair.entry.now }
        ensures quiet { IsTrue command.entry.now.quiet → result.progress.start ≡ None }
    {
        Task {
            rt,
            command,
            pair,
            workers: command.workers,
            progress: Progress::new(rt, rt.alloc(), command.quiet),
        }
    }
}
