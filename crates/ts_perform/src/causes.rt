//! Why scans, actions and answers failed, as far as the system says.
ghost use Rattle.std.specs.Prelude.{◌≡◌, ◌⊎◌, ◌<◌, ◌≤◌, length};
ghost use Rattle.std.specs.Mem.Slots.{slots_len};
ghost use Rattle.ts_board.specs.Calls.{IsAsWide, words_of};
ghost use Rattle.ts_perform.specs.Faults.{IsCauseBelow, IsOfSecond, IsSameButCause, IsWithCauseBelow, IsWithOutputCause};
ghost use Rattle.ts_perform.specs.Trials.{IsQuiet};

use crate::acting::replica;
use crate::disk::{Disk, Machine};
use crate::fault::{PerformFault, Subject, Why};
use crate::task::Task;
use std::alloc::AllocError;
use ts_cause::Cause;
use ts_check::Checked;
use ts_exec::{ActFault, ActionResult, Outcome};
use ts_model::packed::KindRef;
use ts_model::plan::Entry;
use ts_name::Path;
use ts_scan::{Refusal, ScanFault};

/// Why each action failed that did, one cause for each action, where the command asks for sentences. Where memory runs out, the
/// last ones are left out.
pub(crate) fn causes_of<R: Machine>(
    task: &Task<'_, R>,
    checked: &Checked<'_>,
    outcome: &mut Outcome<R::Site>,
    stage: &R::Stage,
) -> Vec<Cause>
    requires count { length outcome.old.results.items ≡ length checked.now.plan.actions }
    requires slots { length checked.now.plan.actions ≤ slots_len outcome.old.closed.row.slots }
    ensures results { outcome.new.results ≡ outcome.old.results }
    ensures words { words_of outcome.new.closed ≡ words_of outcome.old.closed }
    ensures counts { IsAsWide outcome.old.closed outcome.new.closed }
{
    let mut causes = Vec::new(task.rt.alloc());
    if task.command.explain {
        for i in 0..checked.action_count() {
            let cause = cause_of_action(task, checked, outcome, stage, i);
            if causes.push(cause).is_err() {
                break;
            }
        }
    }
    causes
}

/// Why an action failed, if it did, and if the system says why: a commit by what its site keeps, a piece by what its stage keeps,
/// or else by what the system says of its source now.
fn cause_of_action<R: Machine>(
    task: &Task<'_, R>,
    checked: &Checked<'_>,
    outcome: &mut Outcome<R::Site>,
    stage: &R::Stage,
    i: u32,
) -> Cause
    requires count { length outcome.old.results.items ≡ length checked.now.plan.actions }
    requires action { i < length checked.now.plan.actions }
    requires slots { length checked.now.plan.actions ≤ slots_len outcome.old.closed.row.slots }
    ensures results { outcome.new.results ≡ outcome.old.results }
    ensures words { words_of outcome.new.closed ≡ words_of outcome.old.closed }
    ensures counts { IsAsWide outcome.old.closed outcome.new.closed }
{
    let ActionResult::Failed(ActFault::Device | ActFault::Unreadable) = outcome.result(i) else {
        return Cause::Unknown;
    };
    let plan = checked.plan();
    match plan.actions.as_slice()[i as usize].kind() {
        KindRef::Commit { .. } => match outcome.take_site(i) {
            Some(site) => task.rt.site_cause(&site),
            None => Cause::Unknown,
        },
        KindRef::Piece {
            entry,
            offset,
            path,
            ..
        } => match task.rt.stage_cause(stage, entry) {
            Cause::Unknown => match plan.entries.as_slice().get(entry as usize) {
                Some(entry) => source_cause(task, entry, path, offset).unwrap_or(Cause::Unknown),
                None => Cause::Unknown,
            },
            cause => cause,
        },
        KindRef::Mark { .. } => Cause::Unknown,
    }
}

/// What the system says now of the file at this path, which an entry has in the replica that it is copied from, where it is read
/// from this offset on.
fn source_cause<R: Machine>(
    task: &Task<'_, R>,
    entry: &Entry,
    path: &Path,
    offset: u64,
) -> Result<Cause, AllocError> {
    let Some(from) = entry.reason.source() else {
        return Ok(Cause::Unknown);
    };
    let root = replica(task.pair, from).root;
    let place = path.place_below(task.rt.alloc(), root)?;
    Ok(task.rt.read_cause(place.as_str(), offset))
}

/// The fault of a scan of the folder with this root, with what the system says now of the path that can't be read. Each other
/// fault stays as it is.
pub(crate) fn with_cause<R: Disk + AllocGlobal>(
    rt: &R,
    root: &str,
    fault: PerformFault,
) -> PerformFault
    ensures same { IsSameButCause fault result }
    ensures caused { IsWithCauseBelow R.says root.now fault result }
    ensures quiet { IsQuiet fault → IsQuiet result }
{
    match fault {
        PerformFault::Scan { what, fault, .. } => {
            let cause = scan_cause(rt, root, &fault);
            PerformFault::Scan { what, fault, cause }
        }
        other => other,
    }
}

/// The fault of an answer that can't be written, with this cause where none is known. A fault of a stream is one of standard output
/// where the cause of a failed write is known. Each other fault stays as it is.
pub(crate) fn with_output_cause(fault: PerformFault, cause: Cause) -> PerformFault
    ensures cause { IsWithOutputCause cause fault result }
    ensures quiet { IsQuiet fault → IsQuiet result }
{
    match fault {
        PerformFault::Failed {
            what: Subject::Output,
            why: Why::Unwritten {
                cause: Cause::Unknown,
            },
        } => PerformFault::Failed {
            what: Subject::Output,
            why: Why::Unwritten { cause },
        },
        PerformFault::Failed {
            what: Subject::Stream,
            why,
        } => {
            if cause == Cause::Unknown {
                PerformFault::Failed {
                    what: Subject::Stream,
                    why,
                }
            } else {
                PerformFault::Failed {
                    what: Subject::Output,
                    why: Why::Unwritten { cause },
                }
            }
        }
        other => other,
    }
}

/// What the system says now of the path that a scan of the folder with this root couldn't read.
fn scan_cause<R: Disk + AllocGlobal>(rt: &R, root: &str, fault: &ScanFault) -> Cause
    ensures { IsCauseBelow R.says root.now fault.now result }
{
    let ScanFault::At {
        path,
        fault: Refusal::Device | Refusal::Unreadable,
    } = fault
    else {
        return Cause::Unknown;
    };
    match path.place_below(rt.alloc(), root) {
        Ok(place) => rt.read_cause(place.as_str(), 0),
        Err(_) => Cause::Unknown,
    }
}

impl<'a, R: Machine> Task<'a, R> {
    /// The fault of a search or a scan of a replica, with what the system says now of the path that can't be read, where the command
    /// asks for sentences.
    pub(crate) fn explained(&self, fault: PerformFault) -> PerformFault
        ensures same { IsSameButCause fault result }
        ensures second { IsOfSecond fault → (result ≡ fault) ⊎ IsWithCauseBelow R.says self.now.pair.now.second.now fault result }
        ensures first { (¬ IsOfSecond fault) → (result ≡ fault) ⊎ IsWithCauseBelow R.says self.now.pair.now.first.now fault result }
        ensures quiet { IsQuiet fault → IsQuiet result }
    {
        if !self.command.explain {
            return fault;
        }
        match fault {
            PerformFault::Scan {
                what: Subject::Second,
                ..
            } => with_cause(self.rt, self.pair.second, fault),
            _ => with_cause(self.rt, self.pair.first, fault),
        }
    }
}
