//! The plans, and the prints that they are made for.
ghost use Rattle.std.specs.Prelude.{◌≡◌, IfOk};
ghost use Rattle.cases.specs.Worked.{IsNested, IsWorked, nested, removal, worked};
ghost use Rattle.ts_model.specs.declared.plan.Kind.TheVariants as kind;

use anyhow::Result;
use std::alloc::{AllocError, Global};
use ts_model::items::Items;
use ts_model::packed::PackedAction;
use ts_model::plan::{Entry, Kind, Plan, Reason};
use ts_model::predecessors::Predecessors;
use ts_name::Path;
use ts_print::{Print, PrintReader, encode};
use ts_text::Counted;

/// The print that these lines spell.
pub fn print_of(alloc: Global, lines: &str) -> Result<Print> {
    let mut reader = PrintReader::new(alloc);
    for line in lines.lines() {
        reader.line(alloc, line.as_bytes())?;
    }
    Ok(reader.finish()?)
}

/// The lines that spell a print.
pub fn text_of(alloc: Global, print: &Print) -> Result<String> {
    let mut sink = Counted::new(Vec::new(alloc));
    encode(alloc, print, &mut sink)?;
    Ok(String::from_utf8_lossy(alloc, &sink.into_inner())?)
}

fn path(alloc: Global, text: &str) -> Result<Path> {
    Ok(Path::parse_text(alloc, text.as_bytes())?)
}

fn entry(alloc: Global, text: &str, reason: Reason) -> Result<Entry> {
    let path = path(alloc, text)?;
    Ok(Entry { path, reason })
}

/// The piece of a file of one byte.
fn piece(entry: u32, path: Path) -> Kind
    ensures { result ≡ kind.Piece entry 0 1 path }
{
    Kind::Piece {
        entry,
        offset: 0,
        length: 1,
        path,
    }
}

/// An action that does this and waits for these.
fn action(alloc: Global, kind: Kind, waits: &[u32]) -> Result<PackedAction, AllocError>
    ensures { IfOk result (λ made. made ≡ record { kind = kind; preds = waits.now }) }
{
    let waits = Vec::from_slice(alloc, waits)?;
    let preds = Predecessors::of(alloc, waits)?;
    PackedAction::new(alloc, kind, preds)
}

/// The actions that copy one new file of one byte: a piece, a commit and a mark.
#[tactic(auto, unfolding(crate::specs::Worked::worked))]
fn worked_actions(alloc: Global, path: Path) -> Result<Vec<PackedAction>, AllocError>
    ensures { IfOk result (λ actions. actions.items ≡ worked path) }
{
    let stage = action(alloc, piece(0, path), &[])?;
    let commit = action(alloc, Kind::Commit { entry: 0 }, &[0])?;
    let mark = action(alloc, Kind::Mark { entry: 0 }, &[1])?;
    Ok(vec![in alloc; stage, commit, mark]?)
}

/// The plan that copies one new file of one byte from the first replica.
pub fn worked_plan(alloc: Global) -> Result<Plan>
    ensures { IfOk result (λ plan. IsWorked plan.actions) }
{
    let entries = vec![in alloc; entry(alloc, "/a", Reason::First)?]?;
    let actions = worked_actions(alloc, path(alloc, "/a")?)?;
    Ok(Plan {
        entries: Items::new(entries),
        actions: Items::new(actions),
    })
}

/// The actions that delete a file: a commit and a mark.
#[tactic(auto, unfolding(crate::specs::Worked::removal))]
fn removal_actions(alloc: Global) -> Result<Vec<PackedAction>, AllocError>
    ensures { IfOk result (λ actions. actions.items ≡ removal) }
{
    let commit = action(alloc, Kind::Commit { entry: 0 }, &[])?;
    let mark = action(alloc, Kind::Mark { entry: 0 }, &[0])?;
    Ok(vec![in alloc; commit, mark]?)
}

/// The plan that deletes a file, as in the first replica.
pub fn removal_plan(alloc: Global) -> Result<Plan>
    ensures { IfOk result (λ plan. plan.actions ≡ removal) }
{
    let entries = vec![in alloc; entry(alloc, "/a", Reason::First)?]?;
    let actions = removal_actions(alloc)?;
    Ok(Plan {
        entries: Items::new(entries),
        actions: Items::new(actions),
    })
}

/// The actions that make a new directory known, and copy a file of one byte in it in either direction.
#[tactic(auto, unfolding(crate::specs::Worked::nested))]
fn nested_actions(alloc: Global, p: Path, q: Path) -> Result<Vec<PackedAction>, AllocError>
    ensures { IfOk result (λ actions. actions.items ≡ nested p q) }
{
    let first = piece(1, p);
    let second = piece(2, q);
    let above = action(alloc, Kind::Mark { entry: 0 }, &[])?;
    let first = action(alloc, first, &[])?;
    let first_commit = action(alloc, Kind::Commit { entry: 1 }, &[1])?;
    let first_mark = action(alloc, Kind::Mark { entry: 1 }, &[0, 2])?;
    let second = action(alloc, second, &[])?;
    let second_commit = action(alloc, Kind::Commit { entry: 2 }, &[4])?;
    let second_mark = action(alloc, Kind::Mark { entry: 2 }, &[0, 5])?;
    Ok(vec![in alloc;
        above,
        first,
        first_commit,
        first_mark,
        second,
        second_commit,
        second_mark,
    ]?)
}

/// The plan for a new directory in both replicas, each with a new file in it.
pub fn nested_plan(alloc: Global) -> Result<Plan>
    ensures { IfOk result (λ plan. IsNested plan.actions) }
{
    let entries = vec![in alloc;
        entry(alloc, "/d", Reason::Dir)?,
        entry(alloc, "/d/x", Reason::First)?,
        entry(alloc, "/d/y", Reason::Second)?,
    ]?;
    let actions = nested_actions(alloc, path(alloc, "/d/x")?, path(alloc, "/d/y")?)?;
    Ok(Plan {
        entries: Items::new(entries),
        actions: Items::new(actions),
    })
}
