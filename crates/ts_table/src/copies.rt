//! What a table's files are copied by.
ghost use Rattle.std.specs.Prelude.{◌≡◌, IfOk};
ghost use Rattle.ts_model.specs.Trees.{at, listed, sub};

use crate::subtable::SubTable;
use crate::table::Table;
use std::alloc::{AllocError, Global};
use ts_model::items::Items;
use ts_model::row::{Content, Row, Stamp};
use ts_name::Path;

/// Data of a file that can be copied.
pub trait CopyFile {
    /// The same data once more.
    fn copy_file(&self, alloc: Global) -> Result<Self, AllocError>
        ensures { IfOk result (λ copy. copy ≡ self.now) };
}

impl CopyFile for Items<u8> {
    fn copy_file(&self, alloc: Global) -> Result<Self, AllocError> {
        Ok(Items::new(Vec::from_slice(alloc, self.as_slice())?))
    }
}

impl CopyFile for Stamp {
    fn copy_file(&self, _alloc: Global) -> Result<Self, AllocError> {
        Ok(*self)
    }
}

impl CopyFile for u8 {
    fn copy_file(&self, _alloc: Global) -> Result<Self, AllocError> {
        Ok(*self)
    }
}

/// The same content once more.
pub(crate) fn copy_content<F: CopyFile>(
    alloc: Global,
    content: &Content<F>,
) -> Result<Content<F>, AllocError>
    ensures { IfOk result (λ copy. copy ≡ content.now) }
{
    Ok(match content {
        Content::Absent => Content::Absent,
        Content::Dir => Content::Dir,
        Content::File(file) => Content::File(file.copy_file(alloc)?),
    })
}

/// The same rows once more.
fn copy_rows<F: CopyFile + Drop>(alloc: Global, rows: &[Row<F>]) -> Result<Vec<Row<F>>, AllocError>
    ensures { IfOk result (λ copy. copy.items ≡ rows.now) }
{
    let mut copies = Vec::with_capacity(alloc, rows.len())?;
    for row in rows {
        let path = row.path.copy(alloc)?;
        let content = copy_content(alloc, &row.content)?;
        copies.push(Row { path, content })?;
    }
    Ok(copies)
}

impl<F: CopyFile + Drop> SubTable<F> {
    /// The same part once more.
    pub fn copy(&self, alloc: Global) -> Result<SubTable<F>, AllocError>
        ensures { IfOk result (λ part. part ≡ self.now) }
    {
        let rows = copy_rows(alloc, self.rows())?;
        Ok(SubTable { rows })
    }
}

impl<F: CopyFile + Drop> Table<F> {
    /// The same table once more.
    pub fn copy(&self, alloc: Global) -> Result<Table<F>, AllocError>
        ensures { IfOk result (λ table. table ≡ self.now) }
    {
        let rows = copy_rows(alloc, self.rows())?;
        Ok(Table { rows })
    }

    /// What is at a path and below it, by the rest of the path.
    pub fn sub_table(&self, alloc: Global, path: &Path) -> Result<SubTable<F>, AllocError>
        ensures part { IfOk result (λ part. listed part ≡ sub (at self.now) path.now) }
    {
        let below = self.sub(path);
        // the root has a row in the part, and none in the table
        let more = if path.is_root() { 1 } else { 0 };
        let mut rows = Vec::with_capacity(alloc, below.len().saturating_add(more))?;
        if path.is_root() {
            let path = Path::root(alloc);
            let content = Content::Dir;
            rows.push(Row { path, content })?;
        }
        for row in below {
            if let Some(rest) = row.path.below(alloc, path)? {
                let content = copy_content(alloc, &row.content)?;
                let path = rest;
                rows.push(Row { path, content })?;
            }
        }
        Ok(SubTable { rows })
    }
}
