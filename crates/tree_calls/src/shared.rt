//! Values that the tests begin with.
use fixtures::source_of;
use std::alloc::Global;
use ts_print::Print;
use ts_text::Lines;

/// A directory with a file and a directory in it, and an empty file beside it.
pub(crate) const BODY: &str = "d /d\nd /d/e\nf /d/e/y 2 B\nf /d/x 1 A\nf /d.x 0 E\n";

/// The tree that has this print.
pub(crate) const TREE: &[u8] = b"d /d\nd /d/e\nf /d/e/y 2\nx 6162\nf /d/x 1\nx 61\nf /d.x 0\n";

/// The SHA-256 of the texts `a` and `ab` and of the empty one, as `A`, `B` and `E` stand for them, and 64 zeros for `Z`.
const DIGESTS: [(u8, &str); 4] = [
    (
        b'A',
        "ca978112ca1bbdcafac231b39a23dc4da786eff8147c4e72b9807785afee48bb",
    ),
    (
        b'B',
        "fb8e20fc2e4c3f248c60c39bd652f3c1347298bb977b8b4d5903b85055620603",
    ),
    (
        b'E',
        "e3b0c44298fc1c149afbf4c8996fb92427ae41e4649b934ca495991b7852b855",
    ),
    (
        b'Z',
        "0000000000000000000000000000000000000000000000000000000000000000",
    ),
];

/// The text with digests in place of their letters.
pub(crate) fn spelled(alloc: Global, text: &str) -> Option<Vec<u8>> {
    let mut bytes = Vec::new(alloc);
    for byte in text.as_bytes() {
        match DIGESTS.iter().find(|(letter, _)| letter == byte) {
            Some((_, digest)) => bytes.extend_from_slice(digest.as_bytes()).ok()?,
            None => bytes.push(*byte).ok()?,
        }
    }
    Some(bytes)
}

/// The print of this body.
pub(crate) fn print_of(alloc: Global, body: &str) -> Option<Print> {
    let bytes = spelled(alloc, body)?;
    let mut lines = Lines::new(alloc, source_of(&bytes, 1_000, None)).ok()?;
    ts_print::decode(alloc, &mut lines).ok()
}
