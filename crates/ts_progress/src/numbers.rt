//! Numbers as people read them.
ghost use Rattle.std.specs.Prelude.{◌≡◌, ◌<◌, ◌++◌, OnOk};
ghost use Rattle.ts_progress.specs.Numbers.{duration_text, grouped, millions, size_text, tenths_text, thousands, three};

use std::alloc::AllocError;
use ts_text::push_decimal;

/// Appends a number with a comma before each three digits. From a million millions on the first group has more.
pub(crate) fn push_grouped(line: &mut Vec<u8>, n: u64) -> Result<(), AllocError>
    ensures { OnOk result (line.new.items ≡ line.old.items ++ grouped n) }
{
    if n < 1_000_000_000 {
        return push_millions(line, n);
    }
    push_decimal(line, n / 1_000_000_000)?;
    push_three(line, n / 1_000_000 % 1_000)?;
    push_three(line, n / 1_000 % 1_000)?;
    push_three(line, n % 1_000)
}

/// The same below a thousand millions.
fn push_millions(line: &mut Vec<u8>, n: u64) -> Result<(), AllocError>
    ensures { OnOk result (line.new.items ≡ line.old.items ++ millions n) }
{
    if n < 1_000_000 {
        return push_thousands(line, n);
    }
    push_decimal(line, n / 1_000_000)?;
    push_three(line, n / 1_000 % 1_000)?;
    push_three(line, n % 1_000)
}

/// The same below a million.
fn push_thousands(line: &mut Vec<u8>, n: u64) -> Result<(), AllocError>
    ensures { OnOk result (line.new.items ≡ line.old.items ++ thousands n) }
{
    if n < 1_000 {
        return push_decimal(line, n);
    }
    push_decimal(line, n / 1_000)?;
    push_three(line, n % 1_000)
}

/// Appends a comma and three digits.
fn push_three(line: &mut Vec<u8>, n: u64) -> Result<(), AllocError>
    requires { n < 1000 }
    ensures { OnOk result (line.new.items ≡ line.old.items ++ three n) }
{
    let hundreds = b'0' + (n / 100) as u8;
    let tens = b'0' + (n / 10 % 10) as u8;
    let ones = b'0' + (n % 10) as u8;
    line.extend_from_slice(&[b',', hundreds, tens, ones])
}

/// Appends so many bytes in the largest unit of which there is at least one.
pub(crate) fn push_size(line: &mut Vec<u8>, n: u64) -> Result<(), AllocError>
    ensures { OnOk result (line.new.items ≡ line.old.items ++ size_text n) }
{
    if n < 1_000 {
        push_decimal(line, n)?;
        line.extend_from_slice(b" B")
    } else if n < 1_000_000 {
        push_tenths(line, n / 100)?;
        line.extend_from_slice(b" kB")
    } else if n < 1_000_000_000 {
        push_tenths(line, n / 100_000)?;
        line.extend_from_slice(b" MB")
    } else if n < 1_000_000_000_000 {
        push_tenths(line, n / 100_000_000)?;
        line.extend_from_slice(b" GB")
    } else {
        push_tenths(line, n / 100_000_000_000)?;
        line.extend_from_slice(b" TB")
    }
}

/// Appends so many tenths: with the last tenth where there are fewer than ten wholes.
fn push_tenths(line: &mut Vec<u8>, n: u64) -> Result<(), AllocError>
    ensures { OnOk result (line.new.items ≡ line.old.items ++ tenths_text n) }
{
    push_decimal(line, n / 10)?;
    if n < 100 {
        line.push(b'.')?;
        push_decimal(line, n % 10)?;
    }
    Ok(())
}

/// Appends so many seconds in the largest unit of which there is at least one.
pub(crate) fn push_duration(line: &mut Vec<u8>, seconds: u64) -> Result<(), AllocError>
    ensures { OnOk result (line.new.items ≡ line.old.items ++ duration_text seconds) }
{
    if seconds < 60 {
        push_decimal(line, seconds)?;
        line.extend_from_slice(b" s")
    } else if seconds < 3_600 {
        push_decimal(line, seconds / 60)?;
        line.extend_from_slice(b" min")
    } else {
        push_decimal(line, seconds / 3_600)?;
        line.extend_from_slice(b" h")
    }
}
