//! The lines of a print's rows.
ghost use Rattle.std.specs.Prelude.{◌≡◌, ◌≢◌, ◌<◌, ◌^◌, ◌∷◌, [], List, ℕ, length, IfOk, IfErr, IfSome, IfNone};
ghost use Rattle.ts_model.specs.Texts.{IsBytes, StampFits, print_row_lines};
ghost use Rattle.ts_model.specs.declared.row.Content.TheVariants.{File};
ghost use Rattle.ts_model.specs.declared.row.Stamp.{Stamp};
ghost use Rattle.ts_print.specs.Faults.{Refuses};
ghost use Rattle.ts_print.specs.Fields.{IsNoRow, RowFits, stamped_fields};
ghost use Rattle.ts_name.specs.Buffers.{HasNo};

use crate::fault::PrintFault;
use std::alloc::Global;
use ts_model::row::{Content, Row, Stamp};
use ts_text::field::{field_dec, split_word};
use ts_tree::data::read_hex;
use ts_tree::field::{after, field_path};

/// What `<path> <size> <digest>` says: the text of the path, and the stamp.
fn stamped(fields: &[u8]) -> Option<(&[u8], Stamp)>
    ensures found { IfSome result (λ r. HasNo 32 r.0.now × StampFits (File r.1) × (fields.now ≡ stamped_fields r.0.now r.1)) }
    ensures none { IfNone result ((path : List ℕ) (stamp : Stamp) → HasNo 32 path → StampFits (File stamp)
        → fields.now ≢ stamped_fields path stamp) }
{
    let (path, stamp) = split_word(fields);
    let (size, digest) = split_word(stamp?);
    let size = field_dec(size)?;
    let digits = digest?;
    let mut digest = [0u8; 32];
    if !read_hex(digits, &mut digest) {
        return None;
    }
    Some((path, Stamp { size, digest }))
}

/// The row that a line spells: `d <path>` or `f <path> <size> <digest>`.
pub(crate) fn row_of(alloc: Global, line: &[u8]) -> Result<Row<Stamp>, PrintFault>
    ensures found { IfOk result (λ row. RowFits row.path row.content × (print_row_lines row.path row.content ≡ line.now ∷ [])) }
    ensures refused { IfErr result (Refuses (IsNoRow line.now)) }
{
    if let Some(path) = after(line, b'd') {
        return Ok(Row {
            path: field_path(alloc, path)?,
            content: Content::Dir,
        });
    }
    let Some(fields) = after(line, b'f') else {
        return Err(PrintFault::NotCanonical);
    };
    let Some((path, stamp)) = stamped(fields) else {
        return Err(PrintFault::NotCanonical);
    };
    Ok(Row {
        path: field_path(alloc, path)?,
        content: Content::File(stamp),
    })
}
