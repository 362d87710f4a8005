//! The mantissa of a number, in two words.

ghost use Rattle.std.specs.Prelude.{◌≡◌};
ghost use Rattle.std.specs.Cmp.{int_eq_equiv, partial_equiv_from_equiv};
ghost use Rattle.std.specs.Ordering.{int_eq};

use std::marker::Model;

// What a bit of the high word is worth, in bits of the low one.
const WORD: u128 = 1 << 64;

/// A signed integer of 128 bits in two words. One piece of sixteen bytes would stand at places that sixteen divides alone,
/// and each value would take half as much room again.
#[derive(Clone, Copy, Debug, Hash)]
pub(crate) struct Mantissa {
    high: u64,
    low: u64,
}

impl Model for Mantissa {
    ghost use Rattle.std.specs.Prelude.{ℤ, ◌<◌, ◌^◌};
    ghost use Rattle.mq_values.specs.Mantissa.{joined, high_of, high_of_joined, low_of, low_of_joined};

    ghost Value = { ℤ };

    ghost view = { λ m. joined m.high m.low };

    ghost invariant = { λ m. (m.high < 2 ^ 64) × (m.low < 2 ^ 64) };

    ghost inverse = { λ z. record { high = high_of z; low = low_of z } };

    ghost inverse_ok = { λ m words i. record { high = high_of_joined m.high m.low words.0 words.1 i; low = low_of_joined m.high m.low words.0 words.1 i } };
}

impl Mantissa {
    /// The two words of this integer.
    pub(crate) fn new(mant: i128) -> Mantissa
        ensures { result ≡ mant }
    {
        let bits = mant.cast_unsigned();
        Mantissa {
            high: (bits / WORD) as u64,
            low: (bits % WORD) as u64,
        }
    }

    /// The integer.
    pub(crate) fn get(self) -> i128
        ensures { result ≡ self }
    {
        (self.high as u128 * WORD + self.low as u128).cast_signed()
    }
}

impl PartialEq for Mantissa {
    ghost eq = { int_eq };

    ghost laws = { partial_equiv_from_equiv int_eq_equiv };

    fn eq(&self, other: &Mantissa) -> bool {
        self.get() == other.get()
    }
}

impl Eq for Mantissa {
    ghost laws = { int_eq_equiv };
}
