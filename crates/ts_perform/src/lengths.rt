//! Paths that are too long for the system. It takes none of more bytes than a limit of its own, with the root before it.
ghost use Rattle.std.specs.List.{find};
ghost use Rattle.std.specs.Option.{option_copied};
ghost use Rattle.std.specs.Prelude.{◌≡◌, ◌↔◌, ◌+◌, ◌-◌, ◌<◌, ◌^◌, ◌∷◌, IsTrue, decimal, length, map, min};
ghost use Rattle.ts_perform.specs.Lengths.{fault_below, is_past, most_bytes, path_bytes, spot_bytes};
ghost use Rattle.ts_perform.specs.Trials.{IsQuiet};

use crate::fault::{PerformFault, Subject};
use ts_cause::Cause;
use ts_model::row::{Row, Stamp};
use ts_name::Path;
use ts_scan::{Refusal, ScanFault};

/// How many bytes a path of the system has at most, as Linux has it: 4,096 with the zero byte at its end.
const MOST_BYTES: usize = 4095;

/// How many bytes the longest place has below the root at which an entry is stored, staged or moved aside, but for the entry's
/// number: `/.twosync/stage-`.
const SPOT_BYTES: usize = 16;

/// How many decimal digits a number has.
fn digits_of(number: usize) -> usize
    ensures { result ≡ length (decimal number) }
{
    let mut digits = 1;
    let mut rest = number / 10;
    'next: while rest > 0 {
        digits += 1;
        rest /= 10;
    }
    digits
}

/// How many bytes a path has below a root.
fn bytes_of(path: &Path) -> usize
    ensures { result ≡ min (path_bytes path.now) (2 ^ 64 - 1) }
{
    path.size().saturating_add(path.depth())
}

/// Whether the system takes no path that is so long below this root.
pub(crate) fn is_too_long(root: &str, path: &Path) -> bool
    ensures { IsTrue result ↔ (most_bytes < length root.now + path_bytes path.now) }
{
    root.len().saturating_add(bytes_of(path)) > MOST_BYTES
}

/// The first path of the entry of this number, of its own and of those in its rows, that the system doesn't take below this
/// root, or not while the entry is staged or moved aside.
pub(crate) fn first_too_long<'a>(
    root: &str,
    number: usize,
    entry: &'a Path,
    rows: &'a [Row<Stamp>],
) -> Option<&'a Path>
    ensures { option_copied result ≡ find (is_past (length root.now) (spot_bytes number) entry.entry.now)
        (entry.entry.now ∷ map (λ row. row.path) rows.entry.now) }
{
    let spot = SPOT_BYTES.saturating_add(digits_of(number));
    if is_past(root, spot, entry, entry) {
        return Some(entry);
    }
    for row in rows {
        if is_past(root, spot, entry, &row.path) {
            return Some(&row.path);
        }
    }
    None
}

/// Whether the system doesn't take a path of an entry below this root, or not while the entry is at its spot, which has so many
/// bytes below the root.
fn is_past(root: &str, spot: usize, entry: &Path, path: &Path) -> bool
    ensures { result ≡ is_past (length root.now) spot entry.now path.now }
{
    let below = bytes_of(path).saturating_sub(bytes_of(entry));
    let staged = root.len().saturating_add(spot).saturating_add(below);
    is_too_long(root, path) || staged > MOST_BYTES
}

/// That a path in this folder is too long for the system.
pub(crate) fn too_long(what: Subject, path: Path) -> PerformFault
    ensures fault { result ≡ PerformFault.Scan what (ScanFault.At path Refusal.TooLong) Cause.Unknown }
    ensures quiet { IsQuiet result }
{
    let fault = Refusal::TooLong;
    let fault = ScanFault::At { path, fault };
    let cause = Cause::Unknown;
    PerformFault::Scan { what, fault, cause }
}

/// The fault of a scan of this folder. Where the system doesn't take a path at all, that is what it is.
pub(crate) fn fault_below(root: &str, what: Subject, fault: ScanFault) -> PerformFault
    ensures fault { result ≡ fault_below root.now what fault }
    ensures quiet { IsQuiet result }
{
    match fault {
        ScanFault::At { path, fault } => {
            if is_too_long(root, &path) {
                too_long(what, path)
            } else {
                let fault = ScanFault::At { path, fault };
                let cause = Cause::Unknown;
                PerformFault::Scan { what, fault, cause }
            }
        }
        ScanFault::OutOfMemory => PerformFault::OutOfMemory,
    }
}
