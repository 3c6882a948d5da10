//! The assembly of what a commit puts in place.
ghost use Rattle.std.specs.Prelude.{◌≡◌, ◌≢◌, ◌↔◌, ◌<◌, ℕ, List, [], ◌∷◌, get_or, length, false, true, IfErr, IfNone, IfOk, IfSome, IsTrue, OnErr, OnOk};
ghost use Rattle.ts_model.specs.Texts.{FileFits};
ghost use Rattle.ts_model.specs.Trees as trees;
ghost use Rattle.ts_model.specs.Trees.{Ascend, IsSubListing, listed};
ghost use Rattle.ts_model.specs.declared.row.Content.TheVariants.{Absent, File};
ghost use Rattle.ts_model.specs.declared.row.Row.{Row};
ghost use Rattle.ts_print.specs.Prints.{stamped_row, stamped_rows};
ghost use Rattle.ts_stage.specs.Assemblies as assemblies;
ghost use Rattle.ts_stage.specs.Assemblies.{HasSoFar, IsComplete, assembly_of, begun_rows, put_in};
ghost use Rattle.ts_stage.specs.Stagings.{Staging, all_held, is_held, joined_to, told, told_row, told_rows};
ghost use Rattle.ts_tree.specs.Trees.{FilesFit};

use crate::file::StagedFile;
use crate::piece::Piece;
use std::alloc::{AllocError, Global};
use std::marker::Model;
use ts_model::items::Items;
use ts_model::row::{Content, Row, Stamp};
use ts_name::Path;
use ts_print::SubPrint;
use ts_print::stamps::stamp_of;
use ts_table::SubTable;
use ts_tree::SubTree;

/// What one commit is to put in place: the directories and files of the source, and as much of the files' bytes as
/// was staged so far.
pub struct Staged {
    top: Path,
    wanted: SubTable<Stamp>,
    made: Vec<Row<StagedFile>>,
    /// The row of the last piece. The next piece's is mostly the one behind it, else the same: `find` looks there first.
    last: usize,
}

/// Written out, so that a proof of what drops one stays short.
impl Drop for Staged {
    fn drop(self) {
        let Staged {
            top,
            wanted,
            made,
            last: _,
        } = self;
        drop(top);
        drop(wanted);
        drop(made);
    }
}

impl Model for Staged {
    ghost use Rattle.ts_model.specs.Trees.{IsSubListing};
    ghost use Rattle.ts_stage.specs.Assemblies.{Assembly};
    ghost use Rattle.ts_stage.specs.Stagings.{all_held, told_rows};

    ghost Value = { Assembly };

    ghost view = { λ s. record { top = s.top; wanted = s.wanted; made = told_rows s.made.items; held = all_held s.made.items } };

    ghost invariant = { λ s. IsSubListing s.made.items };
}

impl Staged {
    /// All directories and files of the source's part, each file without bytes yet.
    pub fn begin(alloc: Global, after: &SubPrint<'_>) -> Result<Staged, AllocError>
        ensures begun { IfOk result (λ staged. staged ≡ assembly_of after.now) }
    {
        let wanted = after.to_table(alloc)?;
        let made = without_bytes(alloc, wanted.rows())?;
        let top = after.top().copy(alloc)?;
        Ok(Staged {
            top,
            wanted,
            made,
            last: 0,
        })
    }

    /// Whether a file of the assembly has this whole path, and `offset` bytes so far.
    pub fn has_so_far(&self, alloc: Global, path: &Path, offset: u64) -> Result<bool, AllocError>
        ensures answer { IfOk result (λ answer. IsTrue answer ↔ HasSoFar self.now path.now offset) }
    {
        let Some(rest) = path.below(alloc, &self.top)? else {
            return Ok(false);
        };
        match size_at(&self.made, self.last, &rest) {
            Some(size) => Ok(size == offset),
            None => Ok(false),
        }
    }

    /// Puts a piece at the end of a file, which is named by its whole path, as in a piece, and has `offset` bytes so far.
    /// Where memory runs out nothing changes, and the piece comes back.
    pub fn put(
        &mut self,
        alloc: Global,
        path: &Path,
        offset: u64,
        piece: Box<Piece>,
    ) -> Result<(), Box<Piece>>
        requires so_far { HasSoFar self.old path.now offset }
        ensures ok { OnOk result (self.new ≡ put_in self.old path.now piece.value) }
        ensures err { OnErr result (self.new ≡ self.old) }
        ensures back { IfErr result (λ back. back.value ≡ piece.value) }
    {
        let Ok(rest) = path.below(alloc, &self.top) else {
            return Err(piece);
        };
        let Some(rest) = rest else {
            unreachable!();
        };
        let Some(index) = find(&self.made, self.last, &rest) else {
            unreachable!();
        };
        self.last = index;
        let size = whole_size(self.wanted.rows(), index);
        let row = &mut self.made[index];
        add_piece(alloc, &mut row.content, size, piece)
    }

    /// Whether all that is staged so far is in memory. It takes no memory.
    pub fn is_held(&self) -> bool
        ensures { result ≡ self.now.held }
    {
        are_held(&self.made)
    }

    /// Whether each file fits its stamp, in size and in digest, by its bytes in memory; a file that is stored elsewhere doesn't.
    /// It takes no memory.
    pub fn is_complete(&self) -> bool
        ensures fits { IsTrue result → IsComplete self.now }
        ensures held { self.now.held ≡ true → IsComplete self.now → IsTrue result }
    {
        have_stamps(&self.made, self.wanted.rows())
    }

    /// The path at which it will stand.
    pub fn top(&self) -> &Path
        ensures { result.now ≡ self.now.top }
    {
        &self.top
    }

    /// What it is to have in the end, in path order, by paths relative to the top. It takes no memory.
    pub fn wanted(&self) -> &[Row<Stamp>]
        ensures { result.now ≡ self.now.wanted }
    {
        self.wanted.rows()
    }

    /// What is staged so far, in path order, by paths relative to the top. It takes no memory.
    pub fn rows(&self) -> &[Row<StagedFile>]
        ensures rows { told_rows result.now ≡ self.now.made }
        ensures held { all_held result.now ≡ self.now.held }
        ensures listing { IsSubListing self.now.made }
    {
        self.made.as_slice()
    }

    /// What is staged so far, where all of it is in memory. The bytes are moved.
    pub fn into_tree(self, alloc: Global) -> Result<SubTree, AllocError>
        requires held { self.held ≡ true }
        ensures { IfOk result (λ tree. tree ≡ self.made) }
    {
        let Staged {
            top: _,
            wanted: _,
            made,
            last: _,
        } = self;
        let rows = with_bytes(alloc, made)?;
        Ok(SubTree::from_table(SubTable::from_rows(rows)))
    }

    /// What was read back of what is staged: of a file that is stored elsewhere what its stage saw there, of one in memory its
    /// bytes. There is none where a file doesn't fit its stamp so, or wasn't read back. It takes no memory.
    pub fn into_read_back(self) -> Option<Staged>
        ensures place { IfSome result (λ back. (back.top ≡ self.top) × (back.wanted ≡ self.wanted)) }
        ensures fits { IfSome result IsComplete }
        ensures held { self.held ≡ true → IfSome result (λ back. back ≡ self) }
        ensures refused { self.held ≡ true → IfNone result (¬ IsComplete self) }
    {
        let Staged {
            top,
            wanted,
            mut made,
            last,
        } = self;
        if settle_all(&mut made, wanted.rows()) {
            Some(Staged {
                top,
                wanted,
                made,
                last,
            })
        } else {
            None
        }
    }
}

/// The directories and files, each file without bytes.
fn without_bytes(alloc: Global, rows: &[Row<Stamp>]) -> Result<Vec<Row<StagedFile>>, AllocError>
    ensures rows { IfOk result (λ made. told_rows made.items ≡ begun_rows rows.now) }
    ensures held { IfOk result (λ made. all_held made.items ≡ true) }
{
    let mut made = Vec::with_capacity(alloc, rows.len())?;
    for row in rows {
        let path = row.path.copy(alloc)?;
        let content = begun(&row.content);
        made.push(Row { path, content })?;
    }
    Ok(made)
}

/// A content without bytes yet.
fn begun(content: &Content<Stamp>) -> Content<StagedFile>
    ensures told { told result ≡ assemblies.begun content.now }
    ensures held { is_held result ≡ true }
{
    match content {
        Content::Absent => Content::Absent,
        Content::Dir => Content::Dir,
        Content::File(_) => Content::File(StagedFile::empty()),
    }
}

/// The same rows with the bytes of their files, which are in memory.
fn with_bytes(alloc: Global, rows: Vec<Row<StagedFile>>) -> Result<Vec<Row<Items<u8>>>, AllocError>
    requires { all_held rows.items ≡ true }
    ensures rows { IfOk result (λ made. made.items ≡ told_rows rows.items) }
    ensures fit { IfOk result (λ made. FilesFit made.items) }
{
    let mut made = Vec::with_capacity(alloc, rows.len())?;
    for row in rows {
        let Row { path, content } = row;
        let content = bytes_of(alloc, content);
        made.push(Row { path, content })?;
    }
    Ok(made)
}

/// What is at a path, with its bytes, which are in memory.
fn bytes_of(alloc: Global, content: Content<StagedFile>) -> Content<Items<u8>>
    requires { is_held content ≡ true }
    ensures told { result ≡ told content }
    ensures fits { FileFits result }
{
    match content {
        Content::Absent => Content::Absent,
        Content::Dir => Content::Dir,
        Content::File(file) => match file.into_bytes(alloc) {
            Some(bytes) => Content::File(bytes),
            None => unreachable!(),
        },
    }
}

/// Whether each file is in memory.
fn are_held(rows: &[Row<StagedFile>]) -> bool
    ensures { result ≡ all_held rows.now }
{
    for row in rows {
        if !is_in_memory(&row.content) {
            return false;
        }
    }
    true
}

fn is_in_memory(content: &Content<StagedFile>) -> bool
    ensures { result ≡ is_held content.now }
{
    match content {
        Content::Absent | Content::Dir => true,
        Content::File(file) => file.bytes().is_some(),
    }
}

/// Where the row of a path stands. It is looked for behind one row first, since most files have one piece, and then at that row.
fn find(rows: &[Row<StagedFile>], near: usize, path: &Path) -> Option<usize>
    requires { Ascend rows.now }
    ensures place { IfSome result (λ index. index < length rows.now) }
    ensures path { IfSome result (λ index. (row : Row Staging) → (get_or rows.now index row).path ≡ path.now) }
    ensures none { IfNone result (listed rows.now path.now ≡ Absent) }
{
    let behind = near.saturating_add(1);
    if is_at(rows, behind, path) {
        return Some(behind);
    }
    if is_at(rows, near, path) {
        return Some(near);
    }
    match rows.binary_search_by(|row| row.path.cmp(path)) {
        Ok(index) => Some(index),
        Err(_) => None,
    }
}

/// Whether a path's row stands there.
fn is_at(rows: &[Row<StagedFile>], index: usize, path: &Path) -> bool
    ensures place { IsTrue result → index < length rows.now }
    ensures path { IsTrue result → (row : Row Staging) → (get_or rows.now index row).path ≡ path.now }
{
    match rows.get(index) {
        Some(row) => row.path == *path,
        None => false,
    }
}

/// How many bytes the file at a path has, whose row `find` looks for near this one. There is no answer where no file is.
fn size_at(rows: &[Row<StagedFile>], near: usize, path: &Path) -> Option<u64>
    requires { Ascend rows.now }
    ensures file { IfSome result (λ size. (had : Staging) × (listed rows.now path.now ≡ File had) × (length had.bytes ≡ size)) }
    ensures none { IfNone result ((had : Staging) → listed rows.now path.now ≢ File had) }
{
    let index = find(rows, near, path)?;
    let row = &rows[index];
    match &row.content {
        Content::File(file) => Some(file.size()),
        Content::Absent | Content::Dir => None,
    }
}

/// The size that the file of a row is to have in the end. It only says how much room is made.
fn whole_size(wanted: &[Row<Stamp>], index: usize) -> u64 {
    match wanted.get(index) {
        Some(row) => match &row.content {
            Content::File(stamp) => stamp.size,
            Content::Absent | Content::Dir => 0,
        },
        None => 0,
    }
}

/// Puts a piece at the end of a file that is to have this size. At a refusal nothing changes, and the piece comes back.
fn add_piece(
    alloc: Global,
    content: &mut Content<StagedFile>,
    size: u64,
    piece: Box<Piece>,
) -> Result<(), Box<Piece>>
    requires file { (had : Staging) × (content.old ≡ File had) }
    ensures ok { OnOk result (content.new ≡ joined_to piece.value content.old) }
    ensures err { OnErr result (content.new ≡ content.old) }
    ensures back { IfErr result (λ back. back.value ≡ piece.value) }
{
    let Content::File(file) = content else {
        unreachable!();
    };
    file.add(alloc, size, piece)
}

/// Whether these are the rows' paths with the stamps of their bytes in memory. It takes no memory.
fn have_stamps(rows: &[Row<StagedFile>], stamps: &[Row<Stamp>]) -> bool
    ensures fits { IsTrue result → stamped_rows (told_rows rows.now) ≡ stamps.now }
    ensures held { all_held rows.now ≡ true → stamped_rows (told_rows rows.now) ≡ stamps.now → IsTrue result }
{
    if rows.len() != stamps.len() {
        return false;
    }
    for (index, row) in rows.iter().enumerate() {
        if !has_stamp(row, &stamps[index]) {
            return false;
        }
    }
    true
}

fn has_stamp(row: &Row<StagedFile>, stamp: &Row<Stamp>) -> bool
    ensures fits { IsTrue result → stamped_row (told_row row.now) ≡ stamp.now }
    ensures held { is_held row.now.content ≡ true → stamped_row (told_row row.now) ≡ stamp.now → IsTrue result }
{
    match stamped(&row.content) {
        Some(content) => row.path == stamp.path && content == stamp.content,
        None => false,
    }
}

/// A content with a stamp in place of a file's bytes, where they are in memory.
fn stamped(content: &Content<StagedFile>) -> Option<Content<Stamp>>
    ensures some { IfSome result (λ x. x ≡ trees.stamped (told content.now)) }
    ensures none { IfNone result (is_held content.now ≡ false) }
{
    match content {
        Content::Absent => Some(Content::Absent),
        Content::Dir => Some(Content::Dir),
        Content::File(file) => {
            let bytes = file.bytes()?;
            Some(Content::File(stamp_of(bytes)))
        }
    }
}

/// Puts what was read back of each stored file in place of what its pieces told, and says whether these are then the rows'
/// paths with their stamps.
fn settle_all(rows: &mut Vec<Row<StagedFile>>, stamps: &[Row<Stamp>]) -> bool
    ensures fits { IsTrue result → stamped_rows (told_rows rows.new.items) ≡ stamps.now }
    ensures held { all_held rows.old.items ≡ true → rows.new.items ≡ rows.old.items }
    ensures refused { all_held rows.old.items ≡ true → stamped_rows (told_rows rows.old.items) ≡ stamps.now → IsTrue result }
{
    if rows.len() != stamps.len() {
        return false;
    }
    for index in 0..stamps.len() {
        if !settle_row(&mut rows[index], &stamps[index]) {
            return false;
        }
    }
    true
}

fn settle_row(row: &mut Row<StagedFile>, stamp: &Row<Stamp>) -> bool
    ensures fits { IsTrue result → stamped_row (told_row row.new) ≡ stamp.now }
    ensures held { is_held row.old.content ≡ true → row.new ≡ row.old }
    ensures refused { is_held row.old.content ≡ true → stamped_row (told_row row.old) ≡ stamp.now → IsTrue result }
{
    match settle(&mut row.content) {
        Some(content) => row.path == stamp.path && content == stamp.content,
        None => false,
    }
}

/// Puts what was read back of a stored file in place of what its pieces told, and answers what is there with its stamp.
fn settle(content: &mut Content<StagedFile>) -> Option<Content<Stamp>>
    ensures some { IfSome result (λ x. x ≡ trees.stamped (told content.new)) }
    ensures held { is_held content.old ≡ true → content.new ≡ content.old }
    ensures none { IfNone result (is_held content.old ≡ false) }
{
    match content {
        Content::Absent => Some(Content::Absent),
        Content::Dir => Some(Content::Dir),
        Content::File(file) => {
            let stamp = file.settle()?;
            Some(Content::File(stamp))
        }
    }
}
