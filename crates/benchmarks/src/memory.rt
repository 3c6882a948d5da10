//! How much memory the process holds.

ghost use Rattle.std.specs.Prelude.{◌≡◌, ◌-◌, None, Some, IfNone, IfSome};

use std::fs;
use std::rt::Files;

/// How many KiB the process holds, where the system tells it.
pub fn held<R: Files + AllocGlobal>(rt: &R) -> Option<u64> {
    told(rt, "VmRSS:")
}

/// How many KiB the process held at most, where the system tells it.
pub fn most_held<R: Files + AllocGlobal>(rt: &R) -> Option<u64> {
    told(rt, "VmHWM:")
}

/// The number in the line of the process's state that begins with a word.
fn told<R: Files + AllocGlobal>(rt: &R, word: &str) -> Option<u64> {
    let status = fs::read_to_string(rt, "/proc/self/status").ok()?;
    let line = status.as_str().lines().find(|line| line.starts_with(word))?;
    line.split_whitespace().nth(1)?.parse::<u64>().ok()
}

/// How many KiB more there are now, where both are known; 0 where there are fewer.
pub fn more(before: Option<u64>, after: Option<u64>) -> Option<u64>
    ensures both { IfSome before (λ b. IfSome after (λ a. result ≡ Some (a - b))) }
    ensures no_before { IfNone before (result ≡ None) }
    ensures no_after { IfNone after (result ≡ None) }
{
    Some(after?.saturating_sub(before?))
}
