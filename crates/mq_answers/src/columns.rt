//! Rows whose columns have numbers.
use mq_values::{Key, Value};

/// A row that lends the values of its columns.
pub trait Columns {
    ghost use Rattle.std.specs.Prelude.{◌≡◌, slice_get};
    ghost use Rattle.std.specs.Option.{option_copied};
    ghost use Rattle.mq_ir.specs.Keys.{Tuple};

    /// The values of the columns, in order.
    ghost columns: { Self → Tuple };

    /// The value of the column of this number, counted from 0, or `None` where there is none.
    fn column(&self, number: u32) -> Option<&Value>
        ensures { option_copied result ≡ slice_get (columns self.now) number };
}

impl Columns for Key {
    ghost columns = { λ row. row };

    fn column(&self, number: u32) -> Option<&Value> {
        self.as_slice().get(number as usize)
    }
}
