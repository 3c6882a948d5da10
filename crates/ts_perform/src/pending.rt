//! Whether a stopped run isn't brought to its end yet, for commands that only look.
ghost use Rattle.std.specs.Prelude.{◌≡◌, ◌++◌, IsTrue, OnOk, true};
ghost use Rattle.ts_model.specs.Texts.{text};
ghost use Rattle.ts_perform.specs.Pending.{SaysPending, pending_line, pending_lines};
ghost use Rattle.ts_text.specs.Sources.{AppendsFront};

use crate::disk::Machine;
use crate::fault::Subject;
use crate::task::Task;
use std::alloc::{AllocError, Global};
use ts_command::Job;
use ts_explain::push_pending;
use ts_text::{Sink, TextFault, write_all};

/// Says in which replicas a stopped run isn't brought to its end yet, where the command asks for sentences. What can't be looked
/// at or said is no reason to end.
pub(crate) fn report_pending<R: Machine, E: Sink>(task: &Task<'_, R>, err: &mut E)
    ensures { SaysPending R.awaits task.now.command.now task.now.pair.now (E.holds err.old) (E.holds err.new) }
{
    let Task {
        rt,
        command,
        pair,
        ..
    } = task;
    if command.explain {
        let alloc = rt.alloc();
        let first = awaits(*rt, alloc, pair.first);
        let second = awaits(*rt, alloc, pair.second);
        let _ = write_pending(alloc, &command.job, first, second, err);
    }
}

/// Whether a stopped run isn't brought to its end in a replica. What can't be looked at isn't known to be so.
fn awaits<R: Machine>(rt: &R, alloc: Global, root: &str) -> bool
    ensures { IsTrue result → R.awaits root.now true }
{
    match rt.awaits_recovery(alloc, root) {
        Ok(awaits) => awaits,
        Err(_) => false,
    }
}

/// Writes a sentence for each replica of which it is so.
fn write_pending<E: Sink>(
    alloc: Global,
    job: &Job<'_>,
    first: bool,
    second: bool,
    err: &mut E,
) -> Result<(), TextFault>
    ensures begun { AppendsFront (E.holds err.old) (E.holds err.new) (text (pending_lines job.now first second)) }
{
    let mut lines = Vec::new(alloc);
    push_line(alloc, job, Subject::First, first, &mut lines)?;
    push_line(alloc, job, Subject::Second, second, &mut lines)?;
    write_all(err, &lines)
}

/// Appends the line of a replica, if it is so.
fn push_line(
    alloc: Global,
    job: &Job<'_>,
    what: Subject,
    is_pending: bool,
    lines: &mut Vec<u8>,
) -> Result<(), AllocError>
    ensures { OnOk result (lines.new.items ≡ lines.old.items ++ text (pending_line job.now what is_pending)) }
{
    if !is_pending {
        return Ok(());
    }
    push_pending(alloc, job, what, lines)?;
    lines.push(b'\n')?;
    Ok(())
}
