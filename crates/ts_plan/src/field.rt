//! The fields of a plan's lines.
ghost use Rattle.std.specs.Prelude.{◌≡◌, ◌≢◌, ◌↔◌, ◌^◌, ◌<◌, ℕ, List, ◌∷◌, ◌++◌, decimal, IfSome, IfNone, IsTrue};
ghost use Rattle.std.specs.List.{AllByRecursion};
ghost use Rattle.ts_model.specs.Texts.{reason_text};
ghost use Rattle.ts_model.specs.declared.plan.Reason.{Reason};
ghost use Rattle.ts_plan.specs.PathFields.{ReadsPath};

use crate::fault::PlanFault;
use std::alloc::Global;
use ts_model::plan::Reason;
use ts_name::{Path, PathFault};
use ts_text::{field_dec, split_word};

/// What stands before the first space, and what stands behind it.
pub(crate) fn cut(fields: &[u8]) -> Option<(&[u8], &[u8])>
    ensures word { IfSome result (λ x. AllByRecursion (λ b. b ≢ 32) x.0.now) }
    ensures found { IfSome result (λ x. fields.now ≡ x.0.now ++ 32 ∷ x.1.now) }
    ensures none { IfNone result ((word rest : List ℕ) → fields.now ≢ word ++ 32 ∷ rest) }
{
    match split_word(fields) {
        (word, Some(rest)) => Some((word, rest)),
        (_, None) => None,
    }
}

/// The number before the first space, and what stands behind it.
pub(crate) fn number_then(fields: &[u8]) -> Option<(u64, &[u8])>
    ensures small { IfSome result (λ x. x.0 < 2 ^ 64) }
    ensures found { IfSome result (λ x. fields.now ≡ decimal x.0 ++ 32 ∷ x.1.now) }
    ensures none { IfNone result ((n : ℕ) (rest : List ℕ) → n < 2 ^ 64 → fields.now ≢ decimal n ++ 32 ∷ rest) }
{
    let Some((word, rest)) = cut(fields) else {
        return None;
    };
    match field_dec(word) {
        Some(number) => Some((number, rest)),
        None => None,
    }
}

/// The number of an entry or an action.
pub(crate) fn short_number(field: &[u8]) -> Option<u32>
    ensures found { IfSome result (λ n. field.now ≡ decimal n) }
    ensures none { IfNone result ((n : ℕ) → n < 2 ^ 32 → field.now ≢ decimal n) }
{
    match field_dec(field) {
        Some(number) if number <= 4_294_967_295 => Some(number as u32),
        _ => None,
    }
}

/// The reason that the word names.
pub(crate) fn reason_field(word: &[u8]) -> Option<Reason>
    ensures found { IfSome result (λ r. word.now ≡ reason_text r) }
    ensures none { IfNone result ((r : Reason) → word.now ≢ reason_text r) }
{
    if is_word(word, b"same") {
        Some(Reason::Same)
    } else if is_word(word, b"first") {
        Some(Reason::First)
    } else if is_word(word, b"second") {
        Some(Reason::Second)
    } else if is_word(word, b"conflict") {
        Some(Reason::Conflict)
    } else if is_word(word, b"held") {
        Some(Reason::Held)
    } else if is_word(word, b"dir") {
        Some(Reason::Dir)
    } else {
        None
    }
}

/// Whether the word is this one.
pub(crate) fn is_word(word: &[u8], other: &[u8]) -> bool
    ensures { IsTrue result ↔ (word.now ≡ other.now) }
{
    word == other
}

/// The path that the text spells, which isn't the root.
pub(crate) fn path_field(alloc: Global, text: &[u8]) -> Result<Path, PlanFault>
    ensures { ReadsPath text.now result }
{
    match Path::parse_text(alloc, text) {
        Ok(path) => {
            if path.is_root() {
                Err(PlanFault::NotCanonical)
            } else {
                Ok(path)
            }
        }
        Err(PathFault::OutOfMemory) => Err(PlanFault::OutOfMemory),
        Err(_) => Err(PlanFault::NotCanonical),
    }
}
