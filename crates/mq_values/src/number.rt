//! The exact decimal number, and its orders.
ghost use Rattle.std.specs.Prelude.{◌≡◌, ◌≤◌, pos, ◌^◌, ◌*ℤ◌, ◌<ℤ◌, IsTrue};
ghost use Rattle.std.proofs.Common.{rules};
ghost use Rattle.std.specs.Cmp.Rules.{comparing};
ghost use Rattle.std.specs.Ordering.{as_partial_cmp};
ghost use Rattle.std.specs.Cmp.{partial_order_from_agreeing_total};
ghost use Rattle.mq_values.specs.Number.{cmp_number, cmp_worth, fitting, is_mantissa};
ghost use Rattle.mq_values.specs.NumberOrder.{equal_together};

use crate::limits::MAX_SCALE;
use crate::mantissa::Mantissa;
use std::cmp::Ordering;
use std::marker::Model;

/// The greatest power of ten that is asked for: a divisor and a dividend each add a scale.
pub(crate) const MAX_POWER: u8 = 2 * MAX_SCALE;

/// The powers of ten.
static TENS: [i128; MAX_POWER as usize + 1] = [
    1,
    10,
    100,
    1_000,
    10_000,
    100_000,
    1_000_000,
    10_000_000,
    100_000_000,
    1_000_000_000,
    10_000_000_000,
    100_000_000_000,
    1_000_000_000_000,
    10_000_000_000_000,
    100_000_000_000_000,
    1_000_000_000_000_000,
    10_000_000_000_000_000,
    100_000_000_000_000_000,
    1_000_000_000_000_000_000,
    10_000_000_000_000_000_000,
    100_000_000_000_000_000_000,
    1_000_000_000_000_000_000_000,
    10_000_000_000_000_000_000_000,
    100_000_000_000_000_000_000_000,
    1_000_000_000_000_000_000_000_000,
];

/// An exact decimal number: a mantissa and a scale from 0 to `MAX_SCALE`, worth mantissa / 10^scale
/// (docs/LANGUAGE.md, "Values"). Equality, order and hash tell `1.0` from `1.00`.
// The scale fills a whole word: bytes between it and the end would be copied apart from the rest, and slowly.
#[derive(Clone, Copy, Debug, PartialEq, Eq, Hash)]
pub struct Num {
    mant: Mantissa,
    scale: u64,
}

impl Model for Num {
    ghost use Rattle.std.specs.Prelude.{◌≤◌};
    ghost use Rattle.mq_values.specs.Number.{Number};
    ghost use Rattle.mq_values.specs.declared.limits.TheConstants.{MAX_SCALE};

    ghost Value = { Number };

    ghost view = { λ n. record { mant = n.mant; scale = n.scale } };

    ghost invariant = { λ n. n.scale ≤ MAX_SCALE };

    ghost inverse = { λ n. record { mant = n.mant; scale = n.scale } };
}

impl Num {
    /// The number with this mantissa and scale.
    pub fn new(mant: i128, scale: u8) -> Num
        requires { scale ≤ MAX_SCALE }
        ensures { result ≡ record { mant = mant; scale = scale } }
    {
        Num {
            mant: Mantissa::new(mant),
            scale: scale as u64,
        }
    }

    /// The mantissa.
    pub fn mant(self) -> i128
        ensures value { result ≡ self.mant }
        ensures range { IsTrue (is_mantissa self.mant) }
    {
        self.mant.get()
    }

    /// The scale, which is at most `MAX_SCALE`.
    pub fn scale(self) -> u8
        ensures scale { result ≡ self.scale }
        ensures bound { result ≤ MAX_SCALE }
    {
        self.scale as u8
    }

    /// Compares by worth alone, whatever the scales: `1.0` and `1.00` are equal (docs/LANGUAGE.md, "Order").
    pub fn cmp_value(self, other: Num) -> Ordering
        ensures { result ≡ cmp_worth self other }
    {
        if self.scale == other.scale {
            return self.mant.get().cmp(&other.mant.get());
        }
        if self.scale < other.scale {
            return scaled_cmp(self, other);
        }
        scaled_cmp(other, self).reverse()
    }
}

impl Num {
    /// The mantissa followed by that many zeros, where it is in range.
    pub(crate) fn with_zeros(self, zeros: u8) -> Option<i128>
        requires { zeros ≤ MAX_POWER }
        ensures { result ≡ fitting (self.mant *ℤ pos (10 ^ zeros)) }
    {
        if zeros == 0 {
            return Some(self.mant.get());
        }
        times(self.mant.get(), ten_to(zeros))
    }
}

/// The product, where it is in range. Most mantissas are short, and their products are always in range.
pub(crate) fn times(a: i128, b: i128) -> Option<i128>
    ensures { result ≡ fitting (a *ℤ b) }
{
    match (i64::try_from(a), i64::try_from(b)) {
        (Ok(short), Ok(other)) => Some(short as i128 * other as i128),
        _ => a.checked_mul(b),
    }
}

/// Ten to that power.
pub(crate) fn ten_to(power: u8) -> i128
    requires { power ≤ MAX_POWER }
    ensures value { result ≡ pos (10 ^ power) }
    ensures positive { pos 0 <ℤ result }
{
    TENS[power as usize]
}

/// Compares by worth a number with one of a larger scale.
fn scaled_cmp(a: Num, b: Num) -> Ordering
    requires { a.scale ≤ b.scale }
    ensures { result ≡ cmp_worth a b }
{
    match a.with_zeros((b.scale - a.scale) as u8) {
        Some(mant) => mant.cmp(&b.mant.get()),
        None => a.mant.get().cmp(&0),
    }
}

/// The total order: by worth, and then by scale (docs/LANGUAGE.md, "Order").
impl Ord for Num {
    ghost cmp = { cmp_number };

    ghost total = { Prim.search (comparing, rules) };

    ghost matches_partial_cmp = { Prim.search (comparing, rules) };

    ghost matches_eq = { equal_together };

    fn cmp(&self, other: &Num) -> Ordering {
        if self.scale == other.scale {
            return self.mant.get().cmp(&other.mant.get());
        }
        self.cmp_value(*other).then(self.scale.cmp(&other.scale))
    }
}

impl PartialOrd for Num {
    ghost partial_cmp = { as_partial_cmp cmp_number };

    ghost laws = { partial_order_from_agreeing_total cmp_number (Prim.search (comparing, rules)) (Prim.search (comparing, rules)) equal_together };

    fn partial_cmp(&self, other: &Num) -> Option<Ordering> {
        Some(self.cmp(other))
    }
}
