//! The first line of a row of a tree.
ghost use Rattle.std.specs.Prelude.{◌≡◌, ◌≢◌, IfOk, IfErr, IfSome, IfNone, ◌<◌, ◌^◌, decimal, List, [], ◌∷◌, ◌++◌, ℕ};
ghost use Rattle.ts_name.specs.Paths.{path_text};
ghost use Rattle.ts_tree.specs.Faults.{Refuses};
ghost use Rattle.ts_name.specs.Buffers.{HasNo};
ghost use Rattle.ts_tree.specs.Fields.{HeadFits, IsNamed, IsNoHead, SpellsNoPath, head_line};

use crate::fault::TreeFault;
use std::alloc::Global;
use ts_name::{Path, PathFault};
use ts_text::field::{field_dec, split_word};

/// What the first line of a row says of its path.
#[derive(Clone, Copy, Debug, PartialEq, Eq)]
pub enum Head {
    /// A directory.
    Dir,
    /// A file of so many bytes.
    File(u64),
}

/// The path that a field of a line spells. The root is none.
pub fn field_path(alloc: Global, field: &[u8]) -> Result<Path, TreeFault>
    ensures found { IfOk result (λ p. IsNamed p × (field.now ≡ path_text p)) }
    ensures refused { IfErr result (Refuses (SpellsNoPath field.now)) }
{
    match Path::parse_text(alloc, field) {
        Ok(path) if path.is_root() => Err(TreeFault::NotCanonical),
        Ok(path) => Ok(path),
        Err(PathFault::OutOfMemory) => Err(TreeFault::OutOfMemory),
        Err(PathFault::BadName | PathFault::BadText | PathFault::TooLong) => {
            Err(TreeFault::NotCanonical)
        }
    }
}

/// What `<path> <size>` says: the text of the path, and the size.
fn sized(fields: &[u8]) -> Option<(&[u8], u64)>
    ensures found { IfSome result (λ r. HasNo 32 r.0.now × (fields.now ≡ r.0.now ++ 32 ∷ decimal r.1)) }
    ensures none { IfNone result ((path : List ℕ) (n : ℕ) → HasNo 32 path → n < 2 ^ 64 → fields.now ≢ path ++ 32 ∷ decimal n) }
{
    let (path, size) = split_word(fields);
    Some((path, field_dec(size?)?))
}

/// What stands behind the line's first word, where that is this one byte.
pub fn after(line: &[u8], word: u8) -> Option<&[u8]>
    ensures found { IfSome result (λ rest. line.now ≡ word ∷ 32 ∷ rest.now) }
    ensures none { IfNone result ((rest : List ℕ) → line.now ≢ word ∷ 32 ∷ rest) }
{
    match line {
        [first, b' ', rest @ ..] if *first == word => Some(rest),
        _ => None,
    }
}

/// The first line of a row: `d <path>` or `f <path> <size>`.
pub(crate) fn head_of(alloc: Global, line: &[u8]) -> Result<(Path, Head), TreeFault>
    ensures found { IfOk result (λ row. IsNamed row.0 × HeadFits row.1 × (line.now ≡ head_line row.0 row.1)) }
    ensures refused { IfErr result (Refuses (IsNoHead line.now)) }
{
    if let Some(path) = after(line, b'd') {
        return Ok((field_path(alloc, path)?, Head::Dir));
    }
    let Some(fields) = after(line, b'f') else {
        return Err(TreeFault::NotCanonical);
    };
    let Some((path, size)) = sized(fields) else {
        return Err(TreeFault::NotCanonical);
    };
    Ok((field_path(alloc, path)?, Head::File(size)))
}
