//! Stamps of files.
ghost use Rattle.std.specs.List.{AllByRecursion};
ghost use Rattle.std.specs.Prelude.{◌≡◌, ◌↔◌, ◌<◌, ◌^◌, length, IsTrue};
ghost use Rattle.ts_model.specs.Texts.{IsBytes, StampFits};
ghost use Rattle.ts_model.specs.Trees as trees;
ghost use Rattle.ts_print.specs.Prints.{stamped_row, stamped_rows};

use sha2::{Digest, Sha256};
use ts_model::items::Items;
use ts_model::row::{Content, Row, Stamp};

/// The size and the SHA-256 of a file's bytes. It takes no memory.
pub fn stamp_of(bytes: &[u8]) -> Stamp
    ensures { result ≡ trees.stamp_of bytes.now }
{
    Stamp {
        size: bytes.len() as u64,
        digest: Sha256::digest(bytes),
    }
}

/// A content with a stamp in place of a file's bytes. It takes no memory.
pub fn stamped(content: &Content<Items<u8>>) -> Content<Stamp>
    ensures { result ≡ trees.stamped content.now }
{
    match content {
        Content::Absent => Content::Absent,
        Content::Dir => Content::Dir,
        Content::File(bytes) => Content::File(stamp_of(bytes.as_slice())),
    }
}

/// Whether these are the rows' paths with their stamps. It takes no memory.
pub fn have_stamps(rows: &[Row<Items<u8>>], stamps: &[Row<Stamp>]) -> bool
    ensures { IsTrue result ↔ (stamped_rows rows.now ≡ stamps.now) }
{
    if rows.len() != stamps.len() {
        return false;
    }
    for (index, row) in rows.iter().enumerate() {
        if !has_stamp(row, &stamps[index]) {
            return false;
        }
    }
    true
}

fn has_stamp(row: &Row<Items<u8>>, stamp: &Row<Stamp>) -> bool
    ensures { IsTrue result ↔ (stamped_row row.now ≡ stamp.now) }
{
    row.path == stamp.path && stamped(&row.content) == stamp.content
}

/// The numbers of each stamp fit it: the size is one of 64 bits, and the digest has 32 bytes.
pub(crate) fn stamps_fit(rows: &[Row<Stamp>])
    ensures { AllByRecursion (λ row. StampFits row.content) rows.now }
{
    for row in rows {
        content_fits(&row.content);
    }
}

/// The numbers of a stamp fit it.
pub(crate) fn content_fits(content: &Content<Stamp>)
    ensures { StampFits content.now }
{
    if let Content::File(stamp) = content {
        let _size = stamp.size;
        are_bytes(&stamp.digest);
    }
}

/// The numbers of a slice of bytes are bytes, and no memory holds 2^64 of them.
pub fn are_bytes(bytes: &[u8])
    ensures bytes { IsBytes bytes.now }
    ensures fewer { length bytes.now < 2 ^ 64 }
{
    let _length = bytes.len();
}
