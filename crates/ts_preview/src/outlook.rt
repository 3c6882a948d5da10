//! What would become of each entry of a plan.
ghost use Rattle.std.specs.Prelude.{◌≡◌, ◌-◌, ◌^◌, count_by, min, sum_by, IfOk};
ghost use Rattle.ts_model.specs.Trees.{at};
ghost use Rattle.ts_preview.specs.Changes.{IsChange};
ghost use Rattle.ts_preview.specs.Outlooks.{AreOutlooks, IsCopy, IsOutlook, IsState, file_size, is_file, is_lost, print_on};
ghost use Rattle.ts_table.specs.Tables.{rows_below};

use crate::change::{Change, change_between};
use std::alloc::{AllocError, Global};
use ts_model::plan::{Entry, Reason, Side};
use ts_model::row::{Content, Row, Stamp};
use ts_name::Path;
use ts_print::Print;

/// What a replica has at a path and below it.
#[derive(Clone, Copy, Debug, PartialEq, Eq, Drop)]
pub struct State {
    /// What became of it since the archive.
    pub change: Change,
    pub files: usize,
    /// How many bytes these files have, or 2^64 - 1 where that is less.
    pub bytes: u64,
}

/// What would become of an entry. It borrows the entry's path.
#[derive(Drop)]
pub struct Outlook<'a> {
    pub path: &'a Path,
    pub reason: Reason,
    pub first: State,
    pub second: State,
    /// What becomes of the replica that the entry is copied to; `Unchanged` for one that isn't copied.
    pub change: Change,
    /// How many of that replica's files are files no more.
    pub lost: usize,
}

/// What would become of each entry, in their order. It fails where memory runs out.
pub fn outlooks<'a>(
    alloc: Global,
    entries: &'a [Entry],
    archive: &Print,
    first: &Print,
    second: &Print,
) -> Result<Vec<Outlook<'a>>, AllocError>
    ensures { IfOk result (λ all. AreOutlooks archive.now first.now second.now entries.entry.now all.items) }
{
    let mut all = Vec::with_capacity(alloc, entries.len())?;
    for entry in entries {
        all.push(outlook_of(entry, archive, first, second))?;
    }
    Ok(all)
}

/// What would become of an entry. It takes no memory.
pub fn outlook_of<'a>(
    entry: &'a Entry,
    archive: &Print,
    first: &Print,
    second: &Print,
) -> Outlook<'a>
    ensures { IsOutlook archive.now first.now second.now entry.entry.now result }
{
    let path = &entry.path;
    let (change, lost) = copy(path, entry.reason, first, second);
    Outlook {
        path,
        reason: entry.reason,
        first: state_of(path, archive, first),
        second: state_of(path, archive, second),
        change,
        lost,
    }
}

/// What a replica has at a path and below it, and what became of it since the archive.
fn state_of(path: &Path, archive: &Print, replica: &Print) -> State
    ensures { IsState archive.now replica.now path.now result }
{
    let rows = replica.sub(path);
    State {
        change: change_between(archive, replica, path),
        files: count_files(rows),
        bytes: count_bytes(rows),
    }
}

/// What becomes of the replica that an entry is copied to, and how many of its files are files no more.
fn copy(path: &Path, reason: Reason, first: &Print, second: &Print) -> (Change, usize)
    ensures { IsCopy first.now second.now path.now reason result.0 result.1 }
{
    match reason.source() {
        None => (Change::Unchanged, 0),
        Some(from) => {
            let source = print_on(from, first, second);
            let target = print_on(from.other(), first, second);
            (
                change_between(target, source, path),
                count_lost(target.sub(path), source),
            )
        }
    }
}

/// The print of this replica.
fn print_on<'a>(side: Side, first: &'a Print, second: &'a Print) -> &'a Print
    ensures { result.now ≡ print_on side first.entry.now second.entry.now }
{
    match side {
        Side::First => first,
        Side::Second => second,
    }
}

/// Whether this is a file.
fn is_file(content: &Content<Stamp>) -> bool
    ensures { result ≡ is_file content.now }
{
    match content {
        Content::File(_) => true,
        Content::Absent | Content::Dir => false,
    }
}

/// How many bytes a file has; 0 for what is no file.
fn file_size(content: &Content<Stamp>) -> u64
    ensures { result ≡ file_size content.now }
{
    match content {
        Content::File(stamp) => stamp.size,
        Content::Absent | Content::Dir => 0,
    }
}

/// How many of these are files.
fn count_files(rows: &[Row<Stamp>]) -> usize
    ensures { result ≡ count_by (λ row. is_file row.content) rows.now }
{
    rows.iter().filter(|row| is_file(&row.content)).count()
}

/// How many bytes these files have, or 2^64 - 1 where that is less.
fn count_bytes(rows: &[Row<Stamp>]) -> u64
    ensures { result ≡ min (sum_by (λ row. file_size row.content) rows.now) (2 ^ 64 - 1) }
{
    let mut bytes: u64 = 0;
    for row in rows {
        bytes = bytes.saturating_add(file_size(&row.content));
    }
    bytes
}

/// How many of these are files where another print has none.
fn count_lost(rows: &[Row<Stamp>], other: &Print) -> usize
    ensures { result ≡ count_by (is_lost (at other.now)) rows.now }
{
    rows.iter().filter(|row| is_lost(row, other)).count()
}

/// Whether this is a file where another print has none.
fn is_lost(row: &Row<Stamp>, other: &Print) -> bool
    ensures { result ≡ is_lost (at other.now) row.now }
{
    is_file(&row.content) && !is_file(&other.get(&row.path))
}
