//! What is reported of a run.
ghost use Rattle.std.specs.Option.{option_copied};
ghost use Rattle.std.specs.Prelude.{◌≡◌, ◌≤◌, Some, get_or, length, IfOk};
ghost use Rattle.ts_model.specs.Plans.{action_limit};
ghost use Rattle.ts_model.specs.Texts.{text};
ghost use Rattle.ts_perform.specs.Runs.{all_lines, failure_line, failure_lines, lost_by, lost_lines, notice_lines, path_for, remark_lines, run_faults, run_report, run_status};
ghost use Rattle.ts_report.specs.Reports.{fates, report_text, totals_of};
ghost use Rattle.ts_text.specs.Sources.{Writes};

use crate::answers::{write_failure, write_notice};
use crate::fault::PerformFault;
use crate::skips::report_asked_skips;
use std::alloc::Global;
use ts_cause::Cause;
use ts_check::Checked;
use ts_command::Command;
use ts_disk::Notice;
use ts_exec::{ActionResult, ActionResults};
use ts_explain::{Skipped, push_fault, push_sentence, write_explained};
use ts_model::packed::{KindRef, PackedAction};
use ts_model::plan::Plan;
use ts_name::Path;
use ts_report::{ReportFault, Results, Totals};
use ts_text::{Sink, TextFault};

/// The exit status where an action failed, or the archive or the report couldn't be written.
pub const FAILED: u8 = 2;

/// Writes the report, and answers its totals.
fn write_report<E: Results, O: Sink>(
    alloc: Global,
    plan: &Plan,
    results: &E,
    out: &mut O,
) -> Result<Totals, TextFault>
    requires limit { length plan.now.actions ≤ action_limit }
    requires covered { length plan.now.actions ≤ E.count results.now }
    ensures written { Writes (O.holds out.old) (O.holds out.new) (report_text (E.endings results.now) plan.now) result }
    ensures totals { IfOk result (λ totals. totals ≡ totals_of (fates (E.endings results.now) plan.now)) }
{
    match ts_report::write(alloc, plan, results, out) {
        Ok(totals) => Ok(totals),
        Err(ReportFault::OutOfMemory) => Err(TextFault::OutOfMemory),
        Err(ReportFault::Failed) => Err(TextFault::Failed),
    }
}

/// Writes the report, then the faults of failed actions, and why the new archive wasn't kept, if it wasn't. Answers the exit
/// status.
pub(crate) fn report_outcome<O: Sink, E: Sink>(
    alloc: Global,
    command: &Command<'_>,
    checked: &Checked<'_>,
    ended: &ActionResults,
    causes: &[Cause],
    kept: Result<(), PerformFault>,
    out: &mut O,
    err: &mut E,
) -> Result<u8, TextFault>
    requires count { length ended.now.results.items ≡ length checked.now.plan.actions }
    ensures report { Writes (O.holds out.old) (O.holds out.new) (run_report checked.now.plan ended.now.results.items) result }
    ensures faults { Writes (E.holds err.old) (E.holds err.new)
        (text (run_faults command.now checked.now.plan ended.now.results.items causes.now (lost_by kept))) result }
    ensures status { IfOk result (λ status. status ≡ run_status checked.now.plan ended.now.results.items (lost_by kept)) }
{
    let plan = checked.plan();
    let _count = checked.action_count();
    let results = ended.as_slice();
    let totals = write_report(alloc, plan, ended, out)?;
    report_failures(alloc, command.explain, plan, results, causes, err)?;
    match kept {
        Ok(()) => Ok(totals.status()),
        Err(fault) => {
            write_lost(alloc, command, &fault, err)?;
            Ok(FAILED)
        }
    }
}

/// What else is said of a run: what it left, and why entries are skipped.
#[derive(Clone, Copy, Drop)]
pub(crate) struct Remarks<'a> {
    pub notices: &'a [Notice],
    pub skips: &'a [Skipped<'a>],
}

/// The same, and then the remarks.
pub(crate) fn report_all<O: Sink, E: Sink>(
    alloc: Global,
    command: &Command<'_>,
    checked: &Checked<'_>,
    ended: &ActionResults,
    causes: &[Cause],
    kept: Result<(), PerformFault>,
    remarks: &Remarks<'_>,
    out: &mut O,
    err: &mut E,
) -> Result<u8, TextFault>
    requires count { length ended.now.results.items ≡ length checked.now.plan.actions }
    ensures report { Writes (O.holds out.old) (O.holds out.new) (run_report checked.now.plan ended.now.results.items) result }
    ensures faults { Writes (E.holds err.old) (E.holds err.new)
        (text (all_lines command.now checked.now.plan ended.now.results.items causes.now (lost_by kept) remarks.now)) result }
    ensures status { IfOk result (λ status. status ≡ run_status checked.now.plan ended.now.results.items (lost_by kept)) }
{
    let status = report_outcome(alloc, command, checked, ended, causes, kept, out, err)?;
    report_remarks(alloc, command, remarks, err)?;
    Ok(status)
}

/// Reports notices, and then says why entries are skipped, where the command asks for that.
fn report_remarks<E: Sink>(
    alloc: Global,
    command: &Command<'_>,
    remarks: &Remarks<'_>,
    err: &mut E,
) -> Result<(), TextFault>
    ensures told { Writes (E.holds err.old) (E.holds err.new) (text (remark_lines command.now remarks.now.notices.now remarks.now.skips.now)) result }
{
    report_notices(alloc, command.explain, remarks.notices, err)?;
    report_asked_skips(alloc, command, remarks.skips, err)
}

/// Reports why the archive is lost. The line has the fault's number alone.
fn write_lost<E: Sink>(
    alloc: Global,
    command: &Command<'_>,
    fault: &PerformFault,
    err: &mut E,
) -> Result<(), TextFault>
    ensures { Writes (E.holds err.old) (E.holds err.new) (text (lost_lines command.now (Some fault.now))) result }
{
    let mut sentence = Vec::new(alloc);
    if command.explain {
        push_sentence(alloc, &command.job, fault, &mut sentence)?;
    }
    let mut line = Vec::new(alloc);
    push_fault(fault.number(), None, &mut line)?;
    write_explained(command.explain, &sentence, &line, err)
}

/// Reports notices, a line each, and what it means before that where it is asked for.
pub(crate) fn report_notices<E: Sink>(
    alloc: Global,
    explain: bool,
    notices: &[Notice],
    err: &mut E,
) -> Result<(), TextFault>
    ensures told { Writes (E.holds err.old) (E.holds err.new) (text (notice_lines explain notices.now)) result }
{
    for i in 0..notices.len() {
        write_notice(alloc, explain, &notices[i], err)?;
    }
    Ok(())
}

/// Reports the fault of each action that failed, with its entry's path, in the order of the actions, and why it failed.
fn report_failures<E: Sink>(
    alloc: Global,
    explain: bool,
    plan: &Plan,
    results: &[ActionResult],
    causes: &[Cause],
    err: &mut E,
) -> Result<(), TextFault>
    requires count { length results.now ≡ length plan.now.actions }
    ensures told { Writes (E.holds err.old) (E.holds err.new) (text (failure_lines explain plan.now.entries plan.now.actions results.now causes.now)) result }
{
    let actions = plan.actions.as_slice();
    for (i, ended) in results.iter().enumerate() {
        let cause = cause_at(causes, i);
        report_failure(alloc, explain, plan, &actions[i], *ended, cause, err)?;
    }
    Ok(())
}

/// Why the action of this number failed, if that is known.
fn cause_at(causes: &[Cause], number: usize) -> Cause
    ensures { result ≡ get_or causes.now number Cause.Unknown }
{
    match causes.get(number) {
        Some(cause) => *cause,
        None => Cause::Unknown,
    }
}

/// Reports the fault of an action, if it failed.
fn report_failure<E: Sink>(
    alloc: Global,
    explain: bool,
    plan: &Plan,
    action: &PackedAction,
    ended: ActionResult,
    cause: Cause,
    err: &mut E,
) -> Result<(), TextFault>
    ensures told { Writes (E.holds err.old) (E.holds err.new) (text (failure_line explain plan.now.entries action.now ended cause)) result }
{
    match ended {
        ActionResult::Done | ActionResult::Blocked(_) | ActionResult::Left => Ok(()),
        ActionResult::Failed(fault) => {
            let path = path_of(plan, action);
            write_failure(alloc, explain, fault, cause, path, err)
        }
    }
}

/// The path of the entry that an action is for.
fn path_of<'a>(plan: &'a Plan, action: &PackedAction) -> Option<&'a Path>
    ensures { option_copied result ≡ path_for plan.now.entries action.now.kind }
{
    let (KindRef::Piece { entry, .. } | KindRef::Commit { entry } | KindRef::Mark { entry }) =
        action.kind();
    match plan.entries.as_slice().get(entry as usize) {
        Some(entry) => Some(&entry.path),
        None => None,
    }
}
