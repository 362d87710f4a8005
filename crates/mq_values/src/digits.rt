//! The printed text of a number.
ghost use Rattle.std.specs.Prelude.{◌≡◌, ◌+◌, ◌-◌, ◌^◌, ◌<◌, ◌≤◌, ◌++◌, ◌/◌, ◌%◌, [], ◌∷◌, length, take, drop, decimal, OnOk, OnErr, unsigned_abs};
ghost use Rattle.mq_values.specs.Number.{MANTISSA_END, fixed_digits, fraction_text, sign_text, text_of_number};

use crate::limits::MAX_SCALE;
use crate::memory::Memory;
use crate::number::{Num, ten_to};

/// Room for a sign, the digits of a mantissa, a point and the digits behind it.
const ROOM: usize = 56;

/// How many digits a mantissa may have.
const DIGITS: usize = 39;

impl Num {
    /// Appends the number's text: a whole number in decimal, any other with as many digits behind the
    /// point as its scale. After `Memory` `out` is as before (docs/LANGUAGE.md, "Printed values").
    pub fn print(self, out: &mut Vec<u8>) -> Result<(), Memory>
        ensures ok { OnOk result (out.new.items ≡ out.old.items ++ text_of_number self) }
        ensures err { OnErr result (out.new.items ≡ out.old.items) }
    {
        let mut buffer = [0; ROOM];
        let start = write_number(self, &mut buffer);
        out.extend_from_slice(&buffer[start..])?;
        Ok(())
    }
}

/// Writes the number's text at the end of the buffer, and returns where it begins.
fn write_number(n: Num, buffer: &mut [u8; ROOM]) -> usize
    ensures within { result ≤ ROOM }
    ensures text { drop result buffer.new ≡ text_of_number n }
{
    let size = n.mant().unsigned_abs();
    let unit = ten_to(n.scale()) as u128;
    let (whole, part) = split(size, unit);
    let point = write_fraction(part as u64, n.scale(), buffer);
    let start = write_whole(whole, buffer, point);
    if n.mant() >= 0 {
        return start;
    }
    buffer[start - 1] = b'-';
    start - 1
}

/// How often a unit goes into a size, and what is left. Where both fit a word they are divided as such, which is far faster.
fn split(size: u128, unit: u128) -> (u128, u128)
    requires { 0 < unit }
    ensures whole { result.0 ≡ size / unit }
    ensures part { result.1 ≡ size % unit }
{
    match (u64::try_from(size), u64::try_from(unit)) {
        (Ok(size), Ok(unit)) => ((size / unit) as u128, (size % unit) as u128),
        _ => (size / unit, size % unit),
    }
}

/// Writes the point and the digits behind it at the end of the buffer, and returns where they begin.
fn write_fraction(part: u64, scale: u8, buffer: &mut [u8; ROOM]) -> usize
    requires { scale ≤ MAX_SCALE }
    ensures within { ROOM - MAX_SCALE - 1 ≤ result }
    ensures end { result ≤ ROOM }
    ensures text { drop result buffer.new ≡ fraction_text scale part }
{
    if scale == 0 {
        return ROOM;
    }
    let start = write_fixed(part, scale, buffer);
    buffer[start - 1] = b'.';
    start - 1
}

/// Writes that many digits at the end of the buffer, and returns where they begin.
fn write_fixed(part: u64, count: u8, buffer: &mut [u8; ROOM]) -> usize
    requires { count ≤ MAX_SCALE }
    ensures start { result + count ≡ ROOM }
    ensures text { drop result buffer.new ≡ fixed_digits count part }
{
    let start = ROOM - count as usize;
    let mut left = part;
    let mut at = ROOM;
    while start < at {
        at -= 1;
        buffer[at] = b'0' + (left % 10) as u8;
        left /= 10;
    }
    start
}

/// Writes the digits of `whole` so that they end at `end`, and returns where they begin.
fn write_whole(whole: u128, buffer: &mut [u8; ROOM], end: usize) -> usize
    requires whole { whole ≤ MANTISSA_END }
    requires room { DIGITS < end × end ≤ ROOM }
    ensures room { 0 < result }
    ensures within { result ≤ end }
    ensures text { drop result buffer.new ≡ decimal whole ++ drop end buffer.old }
{
    let mut left = whole;
    let mut at = end;
    while left > u64::MAX as u128 {
        at -= 1;
        buffer[at] = b'0' + (left % 10) as u8;
        left /= 10;
    }
    itoa::write_digits(left as u64, buffer, at)
}
