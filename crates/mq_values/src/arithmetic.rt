//! Sums, products, quotients and conversions of numbers, exact but for one rounding.
ghost use Rattle.std.specs.Prelude.{◌≡◌, ◌≢◌, ◌≤◌, ◌<◌, ◌^◌, pos};
ghost use Rattle.mq_values.specs.Arithmetic.{difference_of, floor_of, half_up, in_range, magnitude_of, negation_of, product_of, quotient_of, rescaled, rounded, sum_of};
ghost use Rattle.mq_values.specs.Number.{MANTISSA_END};

use crate::faults::ValueFault;
use crate::limits::{MAX_SCALE, MIN_QUOTIENT_SCALE};
use crate::number::{Num, ten_to, times};

/// The sum `a + b`, of the larger scale. `Overflow` comes exactly where one of the two mantissas, brought
/// to that scale, or their sum is out of range (docs/LANGUAGE.md, "Arithmetic").
pub fn add(a: Num, b: Num) -> Result<Num, ValueFault>
    ensures { result ≡ sum_of a b }
{
    let scale = a.scale().max(b.scale());
    match (
        a.with_zeros(scale - a.scale()),
        b.with_zeros(scale - b.scale()),
    ) {
        (Some(m), Some(n)) => match m.checked_add(n) {
            Some(sum) => Ok(Num::new(sum, scale)),
            None => Err(ValueFault::Overflow),
        },
        _ => Err(ValueFault::Overflow),
    }
}

/// The difference `a - b`, of the larger scale. `Overflow` comes exactly where one of the two mantissas,
/// brought to that scale, or their difference is out of range (docs/LANGUAGE.md, "Arithmetic").
pub fn sub(a: Num, b: Num) -> Result<Num, ValueFault>
    ensures { result ≡ difference_of a b }
{
    let scale = a.scale().max(b.scale());
    match (
        a.with_zeros(scale - a.scale()),
        b.with_zeros(scale - b.scale()),
    ) {
        (Some(m), Some(n)) => match m.checked_sub(n) {
            Some(rest) => Ok(Num::new(rest, scale)),
            None => Err(ValueFault::Overflow),
        },
        _ => Err(ValueFault::Overflow),
    }
}

/// The product `a * b`, of scale `min(a.scale + b.scale, MAX_SCALE)`. `Overflow` comes exactly where the exact
/// product of the mantissas is out of range; what is left is rounded (docs/LANGUAGE.md, "Arithmetic").
pub fn mul(a: Num, b: Num) -> Result<Num, ValueFault>
    ensures { result ≡ product_of a b }
{
    let scale = a.scale() + b.scale();
    match times(a.mant(), b.mant()) {
        Some(exact) if scale <= MAX_SCALE => Ok(Num::new(exact, scale)),
        Some(exact) => quotient(exact, ten_to(scale - MAX_SCALE), MAX_SCALE),
        None => Err(ValueFault::Overflow),
    }
}

/// The quotient `a / b`, of scale `r = max(a.scale, b.scale, MIN_QUOTIENT_SCALE)`. `DivideByZero` comes exactly where `b` is
/// zero; else `Overflow` exactly where `a.mant * 10^(r + b.scale - a.scale)` or the rounded quotient is out
/// of range (docs/LANGUAGE.md, "Arithmetic").
pub fn div(a: Num, b: Num) -> Result<Num, ValueFault>
    ensures { result ≡ quotient_of a b }
{
    let scale = a.scale().max(b.scale()).max(MIN_QUOTIENT_SCALE);
    if b.mant() == 0 {
        return Err(ValueFault::DivideByZero);
    }
    match a.with_zeros(scale + b.scale() - a.scale()) {
        Some(dividend) => quotient(dividend, b.mant(), scale),
        None => Err(ValueFault::Overflow),
    }
}

impl Num {
    /// The number brought to another scale: a cast, and ROUND. `Overflow` comes exactly where the result is
    /// out of range (docs/LANGUAGE.md, "Arithmetic").
    pub fn rescale(self, scale: u8) -> Result<Num, ValueFault>
        requires { scale ≤ MAX_SCALE }
        ensures { result ≡ rescaled self scale }
    {
        if scale < self.scale() {
            return quotient(self.mant(), ten_to(self.scale() - scale), scale);
        }
        match self.with_zeros(scale - self.scale()) {
            Some(mant) => Ok(Num::new(mant, scale)),
            None => Err(ValueFault::Overflow),
        }
    }

    /// The number with the other sign. `Overflow` comes exactly where that is out of range
    /// (docs/LANGUAGE.md, "Arithmetic").
    pub fn neg(self) -> Result<Num, ValueFault>
        ensures { result ≡ negation_of self }
    {
        match self.mant().checked_neg() {
            Some(mant) => Ok(Num::new(mant, self.scale())),
            None => Err(ValueFault::Overflow),
        }
    }

    /// The number without its sign. `Overflow` comes exactly where that is out of range
    /// (docs/LANGUAGE.md, "Arithmetic").
    pub fn abs(self) -> Result<Num, ValueFault>
        ensures { result ≡ magnitude_of self }
    {
        match self.mant().checked_abs() {
            Some(mant) => Ok(Num::new(mant, self.scale())),
            None => Err(ValueFault::Overflow),
        }
    }

    /// The greatest whole number that is not above this one (docs/LANGUAGE.md, "Arithmetic").
    pub fn floor(self) -> Num
        ensures { result ≡ floor_of self }
    {
        Num::new(self.mant().div_euclid(ten_to(self.scale())), 0)
    }
}

/// The dividend over the divisor, rounded, as a number of that scale.
fn quotient(dividend: i128, divisor: i128, scale: u8) -> Result<Num, ValueFault>
    requires scale { scale ≤ MAX_SCALE }
    requires divisor { divisor ≢ pos 0 }
    ensures { result ≡ in_range (rounded dividend divisor) scale }
{
    let size = rounded_size(dividend.unsigned_abs(), divisor.unsigned_abs());
    let mant = if (dividend < 0) == (divisor < 0) {
        0i128.checked_add_unsigned(size)
    } else {
        0i128.checked_sub_unsigned(size)
    };
    match mant {
        Some(mant) => Ok(Num::new(mant, scale)),
        None => Err(ValueFault::Overflow),
    }
}

/// The quotient to the nearest whole number, halves up.
fn rounded_size(dividend: u128, divisor: u128) -> u128
    requires dividend { dividend ≤ MANTISSA_END }
    requires divisor { 0 < divisor }
    ensures { result ≡ half_up dividend divisor }
{
    let quotient = dividend / divisor;
    let rest = dividend % divisor;
    if rest < divisor - rest {
        quotient
    } else {
        quotient + 1
    }
}
