//! What `preview` shows.
ghost use Rattle.std.specs.Prelude.{◌≡◌, IfErr, IfOk, OnOk};
ghost use Rattle.ts_perform.specs.Guards.{IsHeldBack, IsLetThrough, IsPastSeen};
ghost use Rattle.ts_perform.specs.Previewing.{IsPreview, IsPreviewOf, form_of, shown};
ghost use Rattle.ts_perform.specs.Snapshots.{IsPlanned, Prints, checkup_of};
ghost use Rattle.ts_perform.specs.Tasks.{Previewed};
ghost use Rattle.ts_perform.specs.Trials.{IsQuiet};
ghost use Rattle.ts_perform.specs.Worlds.{world};

use crate::disk::Machine;
use crate::fault::{PerformFault, Subject, of_disk, on_output};
use crate::guarding::Past;
use crate::snapshot::{Proposal, Snapshot};
use crate::task::Task;
use std::alloc::Global;
use ts_command::Pair;
use ts_model::plan::Plan;
use ts_preview::{Form, best_status, outlooks, write};
use ts_text::Sink;

impl Snapshot {
    /// Shows what the plan for what is there would do. It is refused where that plan would be, for paths that are too long. Where it
    /// would be held back, the refusal comes after what it would do.
    fn print_preview<O: Sink>(
        &self,
        alloc: Global,
        pair: &Pair<'_>,
        past: Past,
        allow_empty: bool,
        form: Form,
        out: &mut O,
    ) -> Result<u8, PerformFault>
        ensures { Prints (IsPreviewOf allow_empty past self.now form) (O.holds out.old) (O.holds out.new) result }
    {
        let plan = self.plan(alloc)?;
        self.look_at_lengths(alloc, pair, &plan)?;
        let proposal = Proposal {
            snapshot: self,
            plan: &plan,
            teaches: false,
        };
        let looked_at = past.look_at(&proposal, allow_empty);
        let printed = self.print_outlooks(alloc, &plan, form, out);
        shown(printed, looked_at)
    }

    /// Shows what a plan would do.
    fn print_outlooks<O: Sink>(
        &self,
        alloc: Global,
        plan: &Plan,
        form: Form,
        out: &mut O,
    ) -> Result<u8, PerformFault>
        requires { IsPlanned (checkup_of self.now plan.now) }
        ensures { Prints (IsPreview (checkup_of self.now plan.now) form) (O.holds out.old) (O.holds out.new) result }
    {
        let entries = plan.entries.as_slice();
        let all = outlooks(alloc, entries, &self.archive, &self.first, &self.second)?;
        match write(alloc, form, &all, out) {
            Ok(()) => Ok(best_status(&all)),
            Err(fault) => Err(on_output(fault)),
        }
    }
}

/// What comes of a preview that was printed, or not, of a plan that would be let through, or not.
fn shown(
    printed: Result<u8, PerformFault>,
    looked_at: Result<(), PerformFault>,
) -> Result<u8, PerformFault>
    ensures { result ≡ shown printed looked_at }
{
    let status = printed?;
    looked_at?;
    Ok(status)
}

/// For whom a preview is.
pub(crate) fn form_of(coloured: bool, json: bool) -> Form
    ensures { result ≡ form_of coloured json }
{
    if json {
        Form::Json
    } else if coloured {
        Form::Coloured
    } else {
        Form::People
    }
}

/// Shows what `sync` would do for the pair.
pub(crate) fn preview<R: Machine, O: Sink>(
    task: &Task<'_, R>,
    form: Form,
    out: &mut O,
) -> Result<u8, PerformFault>
    ensures { Previewed R.Disk R.Site.Site R.Folder.Folder R.Stage.Stage task.now form (O.holds out.old) (O.holds out.new) result }
{
    let snapshot = Snapshot::read(task)?;
    let past = task.past_seen()?;
    let allow_empty = task.command.allow_empty;
    snapshot.print_preview(task.rt.alloc(), task.pair, past, allow_empty, form, out)
}

impl<R: Machine> Task<'_, R> {
    /// What is known of both replicas, as it is seen without locks.
    pub(crate) fn past_seen(&self) -> Result<Past, PerformFault>
        ensures seen { IfOk result (IsPastSeen (world R.Disk R.Site.Site R.Folder.Folder R.Stage.Stage) self.now.pair.now) }
        ensures quiet { IfErr result IsQuiet }
    {
        let Task { rt, pair, .. } = self;
        let alloc = rt.alloc();
        let first_knows = rt
            .knows_archive(alloc, pair.first, pair.archive)
            .map_err(|fault| of_disk(fault, Subject::First))?;
        let second_knows = rt
            .knows_archive(alloc, pair.second, pair.archive)
            .map_err(|fault| of_disk(fault, Subject::Second))?;
        Ok(Past {
            first_knows,
            second_knows,
            stopped_alike: self.stopped_alike(),
        })
    }
}
