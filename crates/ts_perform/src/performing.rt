//! Commands, one by one.
ghost use Rattle.std.specs.Prelude.{◌≡◌, ◌≤◌, IfErr, None};
ghost use Rattle.ts_model.specs.Trial.{Trial};
ghost use Rattle.ts_perform.specs.Commands.{Checks, Plans, Previews, Runs, Scans, Syncs};
ghost use Rattle.ts_perform.specs.Commands.{TriesCheck, TriesPlan, TriesPreview, TriesRun, TriesScan, TriesSync};
ghost use Rattle.ts_perform.specs.Jobs.{IfShow, IfTell};
ghost use Rattle.ts_perform.specs.Printouts.{IsBodyOf, IsScanText, IsShown, IsTold};
ghost use Rattle.ts_perform.specs.Runs.{AnswersOne, Refuses};
ghost use Rattle.ts_perform.specs.Snapshots.{IsCheckupAt, IsPrintoutAt, Judges, Prints, PrintsAlone};
ghost use Rattle.ts_perform.specs.Trials.{Answers, IfApart, IsQuiet};
ghost use Rattle.ts_perform.specs.Worlds.{world};
ghost use Rattle.ts_trial.specs.Answers.{WritesOne};

use crate::answers::write_refusal;
use crate::causes::{with_cause, with_output_cause};
use crate::disk::{Disk, Machine};
use crate::fault::{PerformFault, Subject, UNWRITTEN, of_archive, of_trial, on_output};
use crate::inputs::{read_archive, scan_folder};
use crate::pending::report_pending;
use crate::previewing::{form_of, preview};
use crate::snapshot::Snapshot;
use crate::streams::SaysCause;
use crate::task::Task;
use std::alloc::Global;
use std::fmt::Display;
use std::thread::Threads;
use ts_command::{Command, Job};
use ts_explain::{write_fault, write_sentence};
use ts_print::{Print, PrintFault};
use ts_progress::Progress;
use ts_text::{Lines, Sink, Source, write_all};
use ts_trial::trial;

/// The exit status of a refusal.
pub const REFUSED: u8 = 3;

/// Does what a command asks for, with these for standard input, standard output and standard error, and answers the exit
/// status: 0 where all is done, 1 where only conflicts or held paths are left, 2 where something failed, 3 for a refusal.
/// Where a bundle can't be read, or an answer can't be written, the refusal says why, as far as standard input or output does.
pub fn perform<R: Machine, I: Source + SaysCause + Drop, O: Sink + SaysCause, E: Sink>(
    rt: &R,
    command: &Command<'_>,
    input: I,
    out: &mut O,
    err: &mut E,
) -> u8
    ensures tell { IfTell command.now.job (AnswersOne command.now (IsTold None)
        (O.holds out.old) (O.holds out.new) (E.holds err.old) (E.holds err.new) result) }
    ensures trial { command.now.job ≡ Job.Trial → IfApart (I.holds input) (λ bytes. Answers (Trial bytes)
        (O.holds out.old) (O.holds out.new) result) }
    ensures scan { Scans (world R.Disk R.Site.Site R.Folder.Folder R.Stage.Stage) command.now
        (O.holds out.old) (O.holds out.new) (E.holds err.old) (E.holds err.new) result }
    ensures show { IfShow command.now.job (λ name. AnswersOne command.now (IsShown R.finds name)
        (O.holds out.old) (O.holds out.new) (E.holds err.old) (E.holds err.new) result) }
    ensures plan { Plans (world R.Disk R.Site.Site R.Folder.Folder R.Stage.Stage) command.now
        (O.holds out.old) (O.holds out.new) (E.holds err.old) (E.holds err.new) result }
    ensures preview { Previews (world R.Disk R.Site.Site R.Folder.Folder R.Stage.Stage) command.now
        (O.holds out.old) (O.holds out.new) (E.holds err.old) (E.holds err.new) result }
    ensures check { Checks (world R.Disk R.Site.Site R.Folder.Folder R.Stage.Stage) command.now
        (O.holds out.old) (O.holds out.new) (E.holds err.old) (E.holds err.new) result }
    ensures run { Runs (world R.Disk R.Site.Site R.Folder.Folder R.Stage.Stage) command.now
        (O.holds out.old) (O.holds out.new) (E.holds err.old) (E.holds err.new) result }
    ensures sync { Syncs (world R.Disk R.Site.Site R.Folder.Folder R.Stage.Stage) command.now
        (O.holds out.old) (O.holds out.new) (E.holds err.old) (E.holds err.new) result }
{
    match answer(rt, command, input, out, err) {
        Ok(status) => status,
        Err(fault) => {
            let told = with_output_cause(fault, out.cause());
            refuse(rt.alloc(), command, &told, out, err)
        }
    }
}

/// Tells why a command is refused: a broken plan on standard output, all else on standard error. Where even that can't be
/// told, the exit status says so alone.
fn refuse<O: Sink + SaysCause, E: Sink>(
    alloc: Global,
    command: &Command<'_>,
    fault: &PerformFault,
    out: &mut O,
    err: &mut E,
) -> u8
    ensures status { result ≡ 3 }
    ensures told { Refuses command.now fault.now (O.holds out.old) (O.holds out.new) (E.holds err.old) (E.holds err.new) }
{
    let _ = match fault {
        PerformFault::Broken { rule, place } => match write_refusal(alloc, *rule, *place, out) {
            Ok(()) => write_sentence(alloc, command, fault, err),
            Err(unwritten) => {
                let told = with_output_cause(unwritten, out.cause());
                write_fault(alloc, command, &told, err)
            }
        },
        _ => write_fault(alloc, command, fault, err),
    };
    REFUSED
}

/// Does what a command asks for.
fn answer<R: Machine, I: Source + SaysCause + Drop, O: Sink, E: Sink>(
    rt: &R,
    command: &Command<'_>,
    input: I,
    out: &mut O,
    err: &mut E,
) -> Result<u8, PerformFault>
    ensures tell { IfTell command.now.job (PrintsAlone (IsTold None)
        (O.holds out.old) (O.holds out.new) (E.holds err.old) (E.holds err.new) result) }
    ensures trial { command.now.job ≡ Job.Trial → IfApart (I.holds input) (λ bytes. WritesOne (Trial bytes)
        (O.holds out.old) (O.holds out.new) result) }
    ensures quiet { command.now.job ≡ Job.Trial → IfErr result IsQuiet }
    ensures scan { TriesScan (world R.Disk R.Site.Site R.Folder.Folder R.Stage.Stage) command.now
        (O.holds out.old) (O.holds out.new) (E.holds err.old) (E.holds err.new) result }
    ensures show { IfShow command.now.job (λ name. PrintsAlone (IsShown R.finds name)
        (O.holds out.old) (O.holds out.new) (E.holds err.old) (E.holds err.new) result) }
    ensures plan { TriesPlan (world R.Disk R.Site.Site R.Folder.Folder R.Stage.Stage) command.now
        (O.holds out.old) (O.holds out.new) (E.holds err.old) (E.holds err.new) result }
    ensures preview { TriesPreview (world R.Disk R.Site.Site R.Folder.Folder R.Stage.Stage) command.now
        (O.holds out.old) (O.holds out.new) (E.holds err.old) (E.holds err.new) result }
    ensures check { TriesCheck (world R.Disk R.Site.Site R.Folder.Folder R.Stage.Stage) command.now
        (O.holds out.old) (O.holds out.new) (E.holds err.old) (E.holds err.new) result }
    ensures run { TriesRun (world R.Disk R.Site.Site R.Folder.Folder R.Stage.Stage) command.now
        (O.holds out.old) (O.holds out.new) (E.holds err.old) (E.holds err.new) result }
    ensures sync { TriesSync (world R.Disk R.Site.Site R.Folder.Folder R.Stage.Stage) command.now
        (O.holds out.old) (O.holds out.new) (E.holds err.old) (E.holds err.new) result }
{
    let workers = command.workers;
    match &command.job {
        Job::Tell { text } => tell(rt.alloc(), text, out),
        Job::Trial => answer_bundle(rt, input, out, workers),
        Job::Scan { folder } => {
            let progress = Progress::new(rt, rt.alloc(), command.quiet);
            print_scan(rt, &progress, command, folder, out)
        }
        Job::Show { archive } => show(rt, archive, out),
        Job::Plan { pair } => {
            let task = Task::new(rt, command, pair);
            report_pending(&task, err);
            print_plan(&task, out)
        }
        Job::Preview { pair, json } => {
            let task = Task::new(rt, command, pair);
            report_pending(&task, err);
            preview(&task, form_of(command.coloured, *json), out)
        }
        Job::Check { pair, plan } => {
            let task = Task::new(rt, command, pair);
            report_pending(&task, err);
            check_plan(&task, plan, out)
        }
        Job::Run { pair, plan } => Task::new(rt, command, pair).run_plan(plan, out, err),
        Job::Sync { pair } => Task::new(rt, command, pair).sync(out, err),
    }
}

/// Prints what is to be told, and nothing else.
fn tell<T: Display, O: Sink>(alloc: Global, told: &T, out: &mut O) -> Result<u8, PerformFault>
    ensures { Prints (IsTold (T.output told.now)) (O.holds out.old) (O.holds out.new) result }
{
    let text = format!(in alloc; "{told}")?;
    write_all(out, text.as_bytes()).map_err(on_output)?;
    Ok(0)
}

/// Answers a bundle. Where it can't be read, the fault has the reason that standard input gives.
fn answer_bundle<R: AllocGlobal + Threads + Sync, I: Source + SaysCause + Drop, O: Sink>(
    rt: &R,
    input: I,
    out: &mut O,
    workers: u32,
) -> Result<u8, PerformFault>
    requires some { 1 ≤ workers }
    requires few { workers ≤ 64 }
    ensures answered { IfApart (I.holds input) (λ bytes. WritesOne (Trial bytes) (O.holds out.old) (O.holds out.new) result) }
    ensures quiet { IfErr result IsQuiet }
{
    let alloc = rt.alloc();
    match Lines::new(alloc, input) {
        Ok(mut lines) => match trial(rt, alloc, &mut lines, out, workers) {
            Ok(status) => Ok(status),
            Err(fault) => Err(of_trial(fault, lines.source().cause())),
        },
        // nothing was read yet, so memory ran out
        Err(_) => Err(PerformFault::OutOfMemory),
    }
}

/// Prints the archive that a folder would give.
fn print_scan<R: Machine, O: Sink>(
    rt: &R,
    progress: &Progress<'_, R>,
    command: &Command<'_>,
    folder: &str,
    out: &mut O,
) -> Result<u8, PerformFault>
    ensures { Prints (IsScanText (world R.Disk R.Site.Site R.Folder.Folder R.Stage.Stage) folder.now) (O.holds out.old) (O.holds out.new) result }
{
    let print = match scan_folder(rt, progress, folder, command.workers) {
        Ok(print) => print,
        Err(fault) if command.explain => return Err(with_cause(rt, folder, fault)),
        Err(fault) => return Err(fault),
    };
    ts_archive::encode(rt.alloc(), &print, out).map_err(|fault| of_archive(
        fault,
        Subject::Output,
        UNWRITTEN,
    ))?;
    Ok(0)
}

/// Prints an archive's body.
fn show<R: Disk + AllocGlobal, O: Sink>(rt: &R, name: &str, out: &mut O) -> Result<u8, PerformFault>
    ensures { Prints (IsShown R.finds name.now) (O.holds out.old) (O.holds out.new) result }
{
    let Some(archive) = read_archive(rt, name)? else {
        return Err(PerformFault::NotThere {
            what: Subject::Archive,
        });
    };
    print_body(rt.alloc(), &archive, out)
}

/// Prints the body of this archive.
fn print_body<O: Sink>(alloc: Global, archive: &Print, out: &mut O) -> Result<u8, PerformFault>
    ensures { Prints (IsBodyOf archive.now) (O.holds out.old) (O.holds out.new) result }
{
    match ts_print::encode(alloc, archive, out) {
        Ok(()) => Ok(0),
        Err(PrintFault::OutOfMemory) => Err(PerformFault::OutOfMemory),
        Err(PrintFault::Failed) => Err(PerformFault::Failed {
            what: Subject::Output,
            why: UNWRITTEN,
        }),
        Err(PrintFault::TooLong | PrintFault::NotCanonical) => unreachable!(),
    }
}

/// Prints a plan for the pair.
fn print_plan<R: Machine, O: Sink>(task: &Task<'_, R>, out: &mut O) -> Result<u8, PerformFault>
    ensures { Prints (IsPrintoutAt (world R.Disk R.Site.Site R.Folder.Folder R.Stage.Stage) task.now.pair.now) (O.holds out.old) (O.holds out.new) result }
{
    let snapshot = Snapshot::read(task)?;
    snapshot.print_plan(task.rt.alloc(), out)
}

/// Says whether a plan is valid for the pair.
fn check_plan<R: Machine, O: Sink>(
    task: &Task<'_, R>,
    plan: &str,
    out: &mut O,
) -> Result<u8, PerformFault>
    ensures { Judges (IsCheckupAt (world R.Disk R.Site.Site R.Folder.Folder R.Stage.Stage) task.now.pair.now plan.now)
        (O.holds out.old) (O.holds out.new) result }
{
    let (snapshot, plan) = Snapshot::read_for(task, plan)?;
    snapshot.print_verdict(task.rt, task.rt.alloc(), &task.progress, &plan, out)
}
