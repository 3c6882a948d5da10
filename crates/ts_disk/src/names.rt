//! The names of what the program keeps in its own directory in a replica.
ghost use Rattle.std.specs.Prelude.{◌≡◌, ◌≢◌, ◌⊎◌, ◌++◌, ◌<◌, ◌^◌, ◌↔◌, ℕ, codes, decimal, IfNone, IfSome, IsTrue};
ghost use Rattle.ts_disk.specs.Names.{HasNumber, HasNumberAfterOne};

use ts_text::field_dec;

/// How the names begin of what is kept until the run ends, of what lay aside and of what others made of a new tree.
pub(crate) const KEPT: &str = "kept-";

pub(crate) const MADE: &str = "made-";

/// The number of the entry whose new or old spot has this name.
pub(crate) fn spot_number(name: &str) -> Option<u32>
    ensures some { IfSome result (HasNumberAfterOne (codes "new-") (codes "old-") name.now) }
    ensures none { IfNone result ((n : ℕ) → n < 2 ^ 32 → ¬ HasNumberAfterOne (codes "new-") (codes "old-") name.now n) }
{
    match number_after(name, b"new-") {
        Some(number) => Some(number),
        None => number_after(name, b"old-"),
    }
}

/// The number of the entry of which something is kept under this name until the run ends.
pub(crate) fn kept_number(name: &str) -> Option<u32>
    ensures some { IfSome result (HasNumberAfterOne (codes "kept-") (codes "made-") name.now) }
    ensures none { IfNone result ((n : ℕ) → n < 2 ^ 32 → ¬ HasNumberAfterOne (codes "kept-") (codes "made-") name.now n) }
{
    match number_after(name, KEPT.as_bytes()) {
        Some(number) => Some(number),
        None => number_after(name, MADE.as_bytes()),
    }
}

/// The number of the entry whose stage has this name.
pub(crate) fn stage_number(name: &str) -> Option<u32>
    ensures some { IfSome result (HasNumber (codes "stage-") name.now) }
    ensures none { IfNone result ((n : ℕ) → n < 2 ^ 32 → ¬ HasNumber (codes "stage-") name.now n) }
{
    number_after(name, b"stage-")
}

/// Whether what has this name is to be removed.
pub(crate) fn is_trash(name: &str) -> bool
    ensures { IsTrue result ↔ ((n : ℕ) × (n < 2 ^ 32) × HasNumber (codes "trash-") name.now n) }
{
    number_after(name, b"trash-").is_some()
}

/// The number behind this front of a name, spelled as the program spells it.
fn number_after(name: &str, front: &[u8]) -> Option<u32>
    ensures some { IfSome result (HasNumber front.now name.now) }
    ensures none { IfNone result ((n : ℕ) → n < 2 ^ 32 → ¬ HasNumber front.now name.now n) }
{
    let digits = name.as_bytes().strip_prefix(front)?;
    u32::try_from(field_dec(digits)?).ok()
}
