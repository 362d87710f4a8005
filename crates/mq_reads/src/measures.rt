//! What a cell reads as.
ghost use Rattle.std.specs.Prelude.{◌≡◌};
ghost use Rattle.std.specs.Option.{unwrap_or};
ghost use Rattle.mq_ir.specs.Nav.{default_of as spec_default_of, with_nav};
ghost use Rattle.mq_values.specs.declared.value.Value.TheVariants as value;

use mq_values::{DEFAULT_ORDINAL, Day, Kind, MAX_SCALE, Num, Text, Value};

/// What a cell's measure of this kind reads as: its value, and null where the cell is not there. Under IGNORE NAV,
/// where `ignore` holds, 0 at the kind's scale, the empty text or the day `DEFAULT_ORDINAL` stands for null
/// (docs/MEANING.md, "Reads").
pub fn nav(v: Option<Value>, kind: Kind, ignore: bool) -> Value
    ensures { result ≡ with_nav ignore kind (unwrap_or v value.Null) }
{
    match v {
        None | Some(Value::Null) if ignore => default_of(kind),
        Some(v) => v,
        None => Value::Null,
    }
}

// What null reads as under IGNORE NAV. There is no value at a scale that no kind has.
fn default_of(kind: Kind) -> Value
    ensures { result ≡ spec_default_of kind }
{
    match kind {
        Kind::Int => Value::Num(Num::new(0, 0)),
        Kind::Decimal(scale) if scale <= MAX_SCALE => Value::Num(Num::new(0, scale)),
        Kind::Decimal(_) => Value::Null,
        Kind::Text => Value::Text(Text::empty()),
        Kind::Date => Value::Date(Day::new(DEFAULT_ORDINAL)),
    }
}
