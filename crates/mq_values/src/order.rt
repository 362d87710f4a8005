ghost use Rattle.std.specs.Prelude.{◌≡◌};
ghost use Rattle.mq_values.specs.Order.{cmp_value, compared};

use crate::value::Value;
use std::cmp::Ordering;

/// Which value comes first in the total order: numbers by what they are worth and then by scale, then
/// texts by their bytes, then dates, then null (docs/LANGUAGE.md, "Order").
pub fn cmp_total(a: &Value, b: &Value) -> Ordering
    ensures { result ≡ cmp_value a.now b.now }
{
    a.cmp(b)
}

/// How two values compare in a statement: numbers by what they are worth, texts by their bytes, dates as
/// the calendar has them. `None` exactly where one is null or the two are of different sorts (docs/LANGUAGE.md, "Comparisons").
pub fn cmp_sql(a: &Value, b: &Value) -> Option<Ordering>
    ensures { result ≡ compared a.now b.now }
{
    match (a, b) {
        (Value::Num(a), Value::Num(b)) => Some(a.cmp_value(*b)),
        (Value::Text(a), Value::Text(b)) => Some(a.cmp(b)),
        (Value::Date(a), Value::Date(b)) => Some(a.cmp(b)),
        _ => None,
    }
}
