//! Why entries are skipped, where a run says it.
ghost use Rattle.std.specs.Prelude.{◌≡◌, ◌∷◌, [], IfOk, IfSome};
ghost use Rattle.ts_model.specs.Holds.{Names};
ghost use Rattle.ts_model.specs.Texts.{text};
ghost use Rattle.ts_perform.specs.Skips.{IsSkippedSo, asked_skips, skip_lines};
ghost use Rattle.ts_explain.specs.Skips.{skip_text};
ghost use Rattle.ts_text.specs.Sources.{Writes};

use crate::snapshot::Snapshot;
use std::alloc::{AllocError, Global};
use ts_command::{Command, Job};
use ts_explain::{Skip, Skipped, push_skip};
use ts_model::plan::{Entry, Plan, Reason};
use ts_name::Path;
use ts_preview::change_between;
use ts_text::{Sink, TextFault, write_line};

/// How many directories stand above a path, at most.
const MOST_ABOVE: u32 = 64;

/// Why each entry of a plan is skipped that is, in their order, where the command asks for sentences. Where memory runs out, the
/// last ones are left out.
pub(crate) fn skips_of<'a>(
    alloc: Global,
    command: &Command<'_>,
    plan: &'a Plan,
    snapshot: &Snapshot,
) -> Vec<Skipped<'a>> {
    let mut skips = Vec::new(alloc);
    if command.explain {
        for entry in plan.entries.as_slice() {
            let Ok(skip) = skip_of(alloc, entry, snapshot) else {
                break;
            };
            if let Some(skip) = skip
                && skips.push(skip).is_err()
            {
                break;
            }
        }
    }
    skips
}

/// Why an entry is skipped, if it is. None where nothing is found that holds it.
fn skip_of<'a>(
    alloc: Global,
    entry: &'a Entry,
    snapshot: &Snapshot,
) -> Result<Option<Skipped<'a>>, AllocError>
    ensures so { IfOk result (λ found. IfSome found (IsSkippedSo snapshot.now entry.entry.now)) }
{
    match entry.reason {
        Reason::Conflict => Ok(Some(conflict(entry, snapshot))),
        Reason::Held => held(alloc, entry, snapshot),
        Reason::First | Reason::Second | Reason::Same | Reason::Dir => Ok(None),
    }
}

/// What became of an entry that is a conflict.
fn conflict<'a>(entry: &'a Entry, snapshot: &Snapshot) -> Skipped<'a>
    requires { entry.now.reason ≡ Reason.Conflict }
    ensures so { IsSkippedSo snapshot.now entry.entry.now result }
{
    let Snapshot {
        archive,
        first,
        second,
        ..
    } = snapshot;
    let path = &entry.path;
    let why = Skip::Conflict {
        first: change_between(archive, first, path),
        second: change_between(archive, second, path),
    };
    Skipped { path, why }
}

/// What holds an entry that is held, if it is found.
fn held<'a>(
    alloc: Global,
    entry: &'a Entry,
    snapshot: &Snapshot,
) -> Result<Option<Skipped<'a>>, AllocError>
    requires { entry.now.reason ≡ Reason.Held }
    ensures so { IfOk result (λ found. IfSome found (IsSkippedSo snapshot.now entry.entry.now)) }
{
    let path = &entry.path;
    match held_by(alloc, path, snapshot)? {
        Some(by) => {
            let why = Skip::Held { by };
            Ok(Some(Skipped { path, why }))
        }
        None => Ok(None),
    }
}

/// The path that is named by a rule, above this one, its own, or below it in the archive or in a replica.
fn held_by(alloc: Global, path: &Path, snapshot: &Snapshot) -> Result<Option<Path>, AllocError>
    ensures named { IfOk result (λ found. IfSome found (Names snapshot.now.holds)) }
{
    if let Some(above) = held_above(alloc, path, snapshot)? {
        return Ok(Some(above));
    }
    for print in [&snapshot.archive, &snapshot.first, &snapshot.second] {
        for row in print.sub(path) {
            if snapshot.holds.holds(&row.path) {
                return Ok(Some(row.path.copy(alloc)?));
            }
        }
    }
    Ok(None)
}

/// The path that is named by a rule, its own or above this one.
fn held_above(alloc: Global, path: &Path, snapshot: &Snapshot) -> Result<Option<Path>, AllocError>
    ensures named { IfOk result (λ found. IfSome found (Names snapshot.now.holds)) }
{
    let mut at = path.copy(alloc)?;
    for _ in 0..=MOST_ABOVE {
        if snapshot.holds.holds(&at) {
            return Ok(Some(at));
        }
        at = match at.parent(alloc)? {
            Some(parent) => parent,
            None => break,
        };
    }
    Ok(None)
}

/// Says why entries are skipped, where the command asks for that.
pub(crate) fn report_asked_skips<E: Sink>(
    alloc: Global,
    command: &Command<'_>,
    skips: &[Skipped<'_>],
    err: &mut E,
) -> Result<(), TextFault>
    ensures told { Writes (E.holds err.old) (E.holds err.new) (text (asked_skips command.now skips.now)) result }
{
    if !command.explain {
        return Ok(());
    }
    report_skips(alloc, &command.job, skips, err)
}

/// Says why entries are skipped, a sentence each.
fn report_skips<E: Sink>(
    alloc: Global,
    job: &Job<'_>,
    skips: &[Skipped<'_>],
    err: &mut E,
) -> Result<(), TextFault>
    ensures told { Writes (E.holds err.old) (E.holds err.new) (text (skip_lines job.now skips.now)) result }
{
    for i in 0..skips.len() {
        write_skip(alloc, job, &skips[i], err)?;
    }
    Ok(())
}

/// Says why an entry is skipped.
fn write_skip<E: Sink>(
    alloc: Global,
    job: &Job<'_>,
    skipped: &Skipped<'_>,
    err: &mut E,
) -> Result<(), TextFault>
    ensures told { Writes (E.holds err.old) (E.holds err.new) (text (skip_text job.now skipped.now ∷ [])) result }
{
    let mut sentence = Vec::new(alloc);
    push_skip(alloc, job, skipped, &mut sentence)?;
    write_line(err, &sentence)
}
