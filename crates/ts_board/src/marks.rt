//! What the mark of an entry puts into the archive.
ghost use Rattle.std.specs.Prelude.{IfOk};
ghost use Rattle.ts_board.specs.Edits.{Gives, IsPart, marks};
ghost use Rattle.ts_model.specs.Runs.{bare_directory};
ghost use Rattle.ts_model.specs.Trees.{at, sub};
ghost use Rattle.ts_name.specs.Paths.{IsPath};

use std::alloc::{AllocError, Global};
use ts_model::plan::{Entry, Side, Treatment};
use ts_model::row::Stamp;
use ts_name::Path;
use ts_print::Print;
use ts_table::{Edit, SubTable};

/// What the mark of an entry puts into the archive, where its reason has one: a bare directory where the directory is new,
/// else what the replica that the entry goes by has at its path and below it.
///
/// # Errors
///
/// `AllocError` where memory ran out.
pub(crate) fn mark_of(
    alloc: Global,
    entry: &Entry,
    first: &Print,
    second: &Print,
) -> Result<Option<Edit<Stamp>>, AllocError>
    ensures { IfOk result (λ edit. Gives (marks (at first.now) (at second.now) entry.now.reason entry.now.path) entry.now.path edit) }
{
    let path = entry.path.copy(alloc)?;
    let part = match entry.reason.treatment() {
        Treatment::NewDirectory => new_dir(alloc, &path)?,
        Treatment::Agreed => subtree(alloc, first, &path)?,
        Treatment::Copied(Side::First) => subtree(alloc, first, &path)?,
        Treatment::Copied(Side::Second) => subtree(alloc, second, &path)?,
        Treatment::Skipped => return Ok(None),
    };
    Ok(Some(Edit { path, part }))
}

/// A directory without children, at a path.
fn new_dir(alloc: Global, path: &Path) -> Result<SubTable<Stamp>, AllocError>
    requires { IsPath path.now }
    ensures { IfOk result (IsPart path.now bare_directory) }
{
    let part = SubTable::dir(alloc)?;
    let _rows = part.rows();
    Ok(part)
}

/// What a print has at a path and below it.
fn subtree(alloc: Global, print: &Print, path: &Path) -> Result<SubTable<Stamp>, AllocError>
    ensures { IfOk result (IsPart path.now (sub (at print.now) path.now)) }
{
    let part = print.sub_table(alloc, path)?;
    let _rows = part.rows();
    Ok(part)
}
