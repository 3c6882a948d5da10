//! The plan of a run, which lies in both replicas while swaps may be half done.
ghost use Rattle.std.specs.Prelude.{◌≡◌, ◌++◌, ◌↔◌, IfOk, IsSomeAnd, IsTrue, codes};
ghost use Rattle.std.specs.String.{string_bytes};
ghost use Rattle.ts_model.specs.Texts.{IsPlan};

use crate::fault::{DiskFault, failed, own_failed, unusable, unwritten};
use crate::place::{
    Standing, create_file, flush_at, kind_at, own_place, remove_file_at, settle_new,
};
use std::alloc::{AllocError, Global};
use std::fs;
use std::fs::{Files, OpenFile};
use std::io::{BufReader, BufWriter, Read, Write};
use ts_model::plan::Plan;
use ts_plan::PlanFault;
use ts_text::{Counted, Lines, Source};

/// The place of the plan file in a replica.
fn plan_place(alloc: Global, root: &str) -> Result<String, AllocError>
    ensures { IfOk result (λ place. string_bytes place ≡ root.now ++ codes "/.twosync/plan") }
{
    let own = own_place(alloc, root)?;
    let place = format!(in alloc; "{own}/plan")?;
    Ok(place)
}

/// Writes the plan to `.twosync/plan` in a replica's root, in place of the file that is there: first whole under another name,
/// `.twosync/plan.new`. It has reached the device when the call ends, and so has the directory's own name. After a fault nothing is
/// left under that other name, where it can be removed. The directory was made with the replica's lock: where it is gone, `Failed`
/// says so.
pub fn save_plan<R: Files>(
    files: &R,
    alloc: Global,
    root: &str,
    plan: &Plan,
) -> Result<(), DiskFault>
    requires { IsPlan plan.now }
{
    let own = own_place(alloc, root)?;
    let place = plan_place(alloc, root)?;
    let new = format!(in alloc; "{place}.new")?;
    put_plan(files, alloc, new.as_str(), place.as_str(), plan)?;
    flush_at(files, own.as_str()).map_err(failed)?;
    flush_at(files, root).map_err(failed)
}

/// Writes a plan whole at one place, and renames it to another. After a fault nothing is left at the former, where it can be removed.
fn put_plan<R: Files>(
    files: &R,
    alloc: Global,
    new: &str,
    place: &str,
    plan: &Plan,
) -> Result<(), DiskFault>
    requires { IsPlan plan.now }
{
    remove_file_at(files, new).map_err(failed)?;
    let written = write_plan(files, alloc, new, plan);
    settle_new(files, new, place, written)
}

/// Whether a plan file lies in a replica.
pub(crate) fn holds_plan<R: Files>(
    files: &R,
    alloc: Global,
    root: &str,
) -> Result<bool, DiskFault> {
    let place = plan_place(alloc, root)?;
    Ok(kind_at(files, place.as_str()).map_err(own_failed)? == Standing::File)
}

/// Writes a plan where nothing is, and waits until it has reached the device.
fn write_plan<R: Files>(files: &R, alloc: Global, place: &str, plan: &Plan) -> Result<(), DiskFault>
    requires { IsPlan plan.now }
{
    let file = create_file(files, place).map_err(failed)?;
    write_text::<R>(alloc, file, plan)
}

/// Writes the text of a plan to a file through a buffer, and waits until it has reached the device.
fn write_text<R: Files>(alloc: Global, file: R::File, plan: &Plan) -> Result<(), DiskFault>
    requires { IsPlan plan.now }
{
    let out = BufWriter::new(alloc, file).map_err(|_| DiskFault::OutOfMemory)?;
    let mut sink = Counted::new(out);
    match ts_plan::encode(alloc, plan, &mut sink) {
        Ok(()) => {}
        Err(PlanFault::OutOfMemory) => return Err(DiskFault::OutOfMemory),
        Err(_) => return Err(unwritten(&mut sink.inner)),
    }
    sink.inner.flush().map_err(failed)?;
    sink.inner.get_ref().sync_all().map_err(failed)
}

/// Removes the plan file of a replica, or a link in its place, if it is there. Then that has reached the device when the call ends, so
/// that no plan comes back of a run that has ended.
pub fn remove_plan<R: Files>(files: &R, alloc: Global, root: &str) -> Result<(), DiskFault> {
    let own = own_place(alloc, root)?;
    let place = plan_place(alloc, root)?;
    if remove_file_at(files, place.as_str()).map_err(failed)? {
        flush_at(files, own.as_str()).map_err(failed)?;
    }
    Ok(())
}

/// Whether both replicas with these roots are to be recovered by one and the same plan: the plan file in each is the text of a plan, and
/// both are the same byte for byte. Nothing is changed.
///
/// `Failed` where a plan file can't be read.
pub fn stopped_alike<R: Files>(
    files: &R,
    alloc: Global,
    first: &str,
    second: &str,
) -> Result<bool, DiskFault> {
    let first = plan_text(files, alloc, first)?;
    let second = plan_text(files, alloc, second)?;
    Ok(are_one(&first, &second))
}

/// Whether there are two texts, and they are the same.
fn are_one(first: &Option<Vec<u8>>, second: &Option<Vec<u8>>) -> bool
    ensures { IsTrue result ↔ IsSomeAnd first.now (λ one. IsSomeAnd second.now (λ other. one.items ≡ other.items)) }
{
    match (first, second) {
        (Some(first), Some(second)) => first.as_slice() == second.as_slice(),
        _ => false,
    }
}

/// The text of the plan in a replica, if its plan file is one. It is read once more for that, since what is no plan may be of any length.
fn plan_text<R: Files>(files: &R, alloc: Global, root: &str) -> Result<Option<Vec<u8>>, DiskFault> {
    if read_plan(files, alloc, root)?.is_none() {
        return Ok(None);
    }
    let Some(mut file) = open_plan(files, alloc, root)? else {
        return Ok(None);
    };
    let mut text = Vec::new(alloc);
    file.read_to_end(&mut text).map_err(failed)?;
    Ok(Some(text))
}

/// The plan that `.twosync/plan` in a root is the text of, if it is there and is one.
pub(crate) fn read_plan<R: Files>(
    files: &R,
    alloc: Global,
    root: &str,
) -> Result<Option<Plan>, DiskFault> {
    match open_plan(files, alloc, root)? {
        Some(file) => plan_in(alloc, file),
        None => Ok(None),
    }
}

/// The plan file of a replica, opened to be read. None where no file has its name.
fn open_plan<R: Files>(files: &R, alloc: Global, root: &str) -> Result<Option<R::File>, DiskFault> {
    let place = plan_place(alloc, root)?;
    match kind_at(files, place.as_str()).map_err(failed)? {
        Standing::File => {}
        Standing::Nothing | Standing::CutOff | Standing::Dir | Standing::Other => return Ok(None),
    }
    let file = fs::open(files, place.as_str()).map_err(failed)?;
    Ok(Some(file))
}

/// The plan that a file is the text of, if it is one.
fn plan_in<F: Read + Drop>(alloc: Global, file: F) -> Result<Option<Plan>, DiskFault> {
    let reader = BufReader::new(alloc, file).map_err(|_| DiskFault::OutOfMemory)?;
    let mut lines = Lines::new(alloc, Counted::new(reader)).map_err(|_| DiskFault::OutOfMemory)?;
    plan_of(alloc, &mut lines)
}

/// The plan that lines spell, if they spell one.
fn plan_of<S: Source>(alloc: Global, lines: &mut Lines<S>) -> Result<Option<Plan>, DiskFault> {
    match ts_plan::decode(alloc, lines) {
        Ok(plan) => Ok(Some(plan)),
        Err(PlanFault::OutOfMemory) => Err(DiskFault::OutOfMemory),
        Err(PlanFault::Failed) => Err(unusable()),
        Err(PlanFault::NotCanonical | PlanFault::PastLimit) => Ok(None),
    }
}
