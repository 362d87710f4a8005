ghost use Rattle.std.specs.Prelude.{◌≡◌, ◌↔◌, IsTrue, IfOk};
ghost use Rattle.std.specs.Ordering.{as_partial_cmp};
ghost use Rattle.std.specs.Cmp.{partial_order_from_agreeing_total};
ghost use Rattle.mq_values.specs.Order.{cmp_value};
ghost use Rattle.mq_values.specs.OrderLaws.{value_total, values_tie};

use crate::day::Day;
use crate::memory::Memory;
use crate::number::Num;
use crate::text::Text;
use std::alloc::AllocError;
use std::cmp::Ordering;

/// What a column, a dimension or a measure holds. `Decimal` carries the scale, from 1 to 12.
#[derive(Clone, Copy, Debug, PartialEq, Eq)]
pub enum Kind {
    Int,
    Decimal(u8),
    Text,
    Date,
}

/// A value of any kind, or null. The order of the variants is that of the total order of values:
/// numbers, then texts, then dates, then null.
#[derive(Debug, Drop, PartialEq, Eq, Hash)]
pub enum Value {
    Num(Num),
    Text(Text),
    Date(Day),
    Null,
}

impl Value {
    pub fn is_null(&self) -> bool
        ensures { IsTrue result ↔ (self.now ≡ Value.Null) }
    {
        matches!(self, Value::Null)
    }

    /// The same value once more. A text is shared, not copied.
    pub fn copy(&self) -> Result<Value, Memory>
        ensures { IfOk result (λ v. v ≡ self.now) }
    {
        match self {
            Value::Num(n) => Ok(Value::Num(*n)),
            Value::Text(t) => Ok(Value::Text(t.copy()?)),
            Value::Date(d) => Ok(Value::Date(*d)),
            Value::Null => Ok(Value::Null),
        }
    }
}

impl Clone for Value {
    ghost is_clone = { λ a b. b ≡ a };

    fn clone(&self) -> Result<Value, AllocError> {
        match self.copy() {
            Ok(copy) => Ok(copy),
            Err(_) => Err(AllocError),
        }
    }
}

impl PartialOrd for Value {
    ghost use Rattle.std.specs.Prelude.{refl};

    ghost partial_cmp = { as_partial_cmp cmp_value };

    ghost laws = { partial_order_from_agreeing_total cmp_value value_total (λ a b. refl) values_tie };

    fn partial_cmp(&self, other: &Value) -> Option<Ordering> {
        Some(self.cmp(other))
    }
}

impl Ord for Value {
    ghost use Rattle.std.specs.Prelude.{refl};

    ghost cmp = { cmp_value };

    ghost total = { value_total };

    ghost matches_partial_cmp = { λ a b. refl };

    ghost matches_eq = { values_tie };

    fn cmp(&self, other: &Value) -> Ordering {
        match (self, other) {
            (Value::Num(a), Value::Num(b)) => a.cmp(b),
            (Value::Num(_), _) => Ordering::Less,
            (Value::Text(_), Value::Num(_)) => Ordering::Greater,
            (Value::Text(a), Value::Text(b)) => a.cmp(b),
            (Value::Text(_), _) => Ordering::Less,
            (Value::Date(_), Value::Null) => Ordering::Less,
            (Value::Date(a), Value::Date(b)) => a.cmp(b),
            (Value::Date(_), _) => Ordering::Greater,
            (Value::Null, Value::Null) => Ordering::Equal,
            (Value::Null, _) => Ordering::Greater,
        }
    }
}
