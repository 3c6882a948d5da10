//! The end line: `end <lines> <digest>`.
ghost use Rattle.std.specs.Prelude.{◌≡◌, ◌≢◌, List, ℕ, IfSome, IfNone, IsTrue, ◌↔◌, codes};
ghost use Rattle.ts_archive.specs.Endings.{EndFits, end_line};

use ts_text::field::{field_dec, split_word};
use ts_tree::data::read_hex;

/// What an end line tells: a count of lines and a digest.
pub(crate) fn end_of(line: &[u8]) -> Option<(u64, [u8; 32])>
    ensures found { IfSome result (λ r. EndFits r.0 r.1 × (line.now ≡ end_line r.0 r.1)) }
    ensures none { IfNone result ((count : ℕ) (digest : List ℕ) → EndFits count digest → line.now ≢ end_line count digest) }
{
    let (word, fields) = split_word(line);
    if !is_end(word) {
        return None;
    }
    let fields = fields?;
    let (count, digits) = split_word(fields);
    let count = field_dec(count)?;
    let digits = digits?;
    let mut digest = [0u8; 32];
    if !read_hex(digits, &mut digest) {
        return None;
    }
    Some((count, digest))
}

fn is_end(word: &[u8]) -> bool
    ensures { IsTrue result ↔ (word.now ≡ codes "end") }
{
    word == b"end".as_slice()
}
