//! Numbers by their spelling.

ghost use Rattle.std.specs.Prelude.{◌≡◌, ◌≤◌, ◌<◌, MatchOption};
ghost use Rattle.std.specs.List.{fold};
ghost use Rattle.mq_lexer.specs.Numbers as spec;

use crate::pieces::{digits_len, fraction_len};
use mq_values::{MAX_MANTISSA, MAX_SCALE, Num};

/// What the digits make, where it is not too great. A point counts nothing.
pub(crate) fn digits_value(mut number: &[u8]) -> Option<u128>
    ensures { MatchOption result (MAX_MANTISSA < fold spec.with_digit 0 number.entry.now)
        (λ n. (n ≡ fold spec.with_digit 0 number.entry.now) × (n ≤ MAX_MANTISSA)) }
{
    let mut value: u128 = 0;
    while let [b, rest @ ..] = number {
        if b.is_ascii_digit() {
            if value > MAX_MANTISSA / 10 {
                return None;
            }
            value = value * 10 + u128::from(*b - b'0');
            if value > MAX_MANTISSA {
                return None;
            }
        }
        number = rest;
    }
    Some(value)
}

// How many bytes stand behind the point.
fn places(mut number: &[u8]) -> usize
    ensures { result ≡ spec.places number.entry.now }
{
    while let [b, rest @ ..] = number {
        if *b == b'.' {
            return rest.len();
        }
        number = rest;
    }
    0
}

/// The number that digits and a point make; none where more than `MAX_SCALE` digits stand behind the point, or the
/// digits make more than `MAX_MANTISSA` (docs/LANGUAGE.md, "Tokens").
pub fn read_number(spelling: &str) -> Option<Num>
    ensures { result ≡ spec.number_of spelling.now }
{
    let scale = places(spelling.as_bytes());
    if scale > usize::from(MAX_SCALE) {
        return None;
    }
    let value = digits_value(spelling.as_bytes())?;
    Some(Num::new(value as i128, scale as u8))
}

/// Whether the whole text is spelled as a number: digits; digits, a point, digits; or a point, digits. Its limits are
/// asked by `read_number` (docs/LANGUAGE.md, "Tokens").
pub fn is_number(text: &str) -> bool
    ensures { result ≡ spec.is_number text.now }
{
    let bytes = text.as_bytes();
    let whole = digits_len(bytes, 0);
    !bytes.is_empty() && whole + fraction_len(bytes, whole) == bytes.len()
}
