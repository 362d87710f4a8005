ghost use Rattle.std.specs.Prelude.{◌≡◌, ◌++◌, IsTrue, Ok, IfOk, OnOk, string_bytes};
ghost use Rattle.mq_values.specs.Answers.{Gives};
ghost use Rattle.mq_values.specs.Calendar.{text_of_day};
ghost use Rattle.mq_values.specs.Convert.{cast_of, number_at, joined, length_of, operand_text};
ghost use Rattle.mq_values.specs.Number.{text_of_number};
ghost use Rattle.mq_values.specs.declared.value.Value.TheVariants as value_of;
ghost use Rattle.mq_values.specs.Text.{is_text};

use crate::day::Day;
use crate::faults::ValueFault;
use crate::limits::MAX_SCALE;
use crate::memory::{Fail, Memory};
use crate::number::Num;
use crate::text::Text;
use crate::value::{Kind, Value};
use std::alloc::Global;

/// The value converted to a kind: a number to the kind's scale, rounded to the nearest with halves away from
/// zero; to TEXT as its printed text, as a date is too. A text is no number and no date, a number no date and a
/// date no number; null stays null. `Overflow` comes exactly
/// where the number leaves the range. No kind has a scale above `MAX_SCALE`, and a cast to one is null
/// (docs/LANGUAGE.md, "Conversions").
pub fn cast(alloc: Global, value: &Value, kind: Kind) -> Result<Value, Fail<ValueFault>>
    ensures { Gives result (cast_of value.now kind) }
{
    match (value, kind) {
        (Value::Num(n), Kind::Int) => number_at(*n, 0),
        (Value::Num(n), Kind::Decimal(scale)) => number_at(*n, scale),
        (Value::Num(n), Kind::Text) => text_of(alloc, *n),
        (Value::Text(t), Kind::Text) => Ok(Value::Text(t.copy()?)),
        (Value::Date(d), Kind::Text) => day_as_text(alloc, *d),
        (Value::Date(d), Kind::Date) => Ok(Value::Date(*d)),
        _ => Ok(Value::Null),
    }
}

fn number_at(n: Num, scale: u8) -> Result<Value, Fail<ValueFault>>
    ensures { Gives result (number_at n scale) }
{
    if scale > MAX_SCALE {
        return Ok(Value::Null);
    }
    match n.rescale(scale) {
        Ok(n) => Ok(Value::Num(n)),
        Err(fault) => Err(Fail::Cause(fault)),
    }
}

/// A number as the text that it prints.
fn text_of(alloc: Global, n: Num) -> Result<Value, Fail<ValueFault>>
    ensures { Gives result (Ok (value_of.Text (text_of_number n))) }
{
    let text = number_text(alloc, n)?;
    match Text::new(alloc, text.as_str())? {
        Some(text) => Ok(Value::Text(text)),
        None => unreachable!(),
    }
}

/// A date as the text that it prints.
fn day_as_text(alloc: Global, day: Day) -> Result<Value, Fail<ValueFault>>
    ensures { Gives result (Ok (value_of.Text (text_of_day day))) }
{
    let text = day_text(alloc, day)?;
    match Text::new(alloc, text.as_str())? {
        Some(text) => Ok(Value::Text(text)),
        None => unreachable!(),
    }
}

/// The two values as one text, `a || b`: a number or a date stands as its printed text and null as the empty text,
/// and null || null is null. `TextTooLong` comes exactly where the text would pass `MAX_TEXT_BYTES` bytes
/// (docs/LANGUAGE.md, "Texts").
pub fn concat(alloc: Global, a: &Value, b: &Value) -> Result<Value, Fail<ValueFault>>
    ensures { Gives result (joined a.now b.now) }
{
    if let (Value::Null, Value::Null) = (a, b) {
        return Ok(Value::Null);
    }
    let mut text = String::new(alloc);
    push_operand(alloc, a, &mut text)?;
    push_operand(alloc, b, &mut text)?;
    match Text::new(alloc, text.as_str())? {
        Some(text) => Ok(Value::Text(text)),
        None => Err(Fail::Cause(ValueFault::TextTooLong)),
    }
}

/// The number of characters of a text, as an INT; null for any other value.
pub fn length(value: &Value) -> Value
    ensures { result ≡ length_of value.now }
{
    match value {
        Value::Text(text) => Value::Num(Num::new(text.as_str().chars().count() as i128, 0)),
        _ => Value::Null,
    }
}

fn push_operand(alloc: Global, value: &Value, text: &mut String) -> Result<(), Memory>
    ensures ok { OnOk result (string_bytes text.new ≡ string_bytes text.old ++ operand_text value.now) }
    ensures text { IsTrue (is_text (operand_text value.now)) }
{
    match value {
        Value::Num(n) => Ok(text.push_str(number_text(alloc, *n)?.as_str())?),
        Value::Text(t) => Ok(text.push_str(t.as_str())?),
        Value::Date(d) => Ok(text.push_str(day_text(alloc, *d)?.as_str())?),
        Value::Null => Ok(()),
    }
}

/// The printed text of a number, which is a text.
fn number_text(alloc: Global, n: Num) -> Result<String, Memory>
    ensures value { IfOk result (λ t. string_bytes t ≡ text_of_number n) }
    ensures text { IsTrue (is_text (text_of_number n)) }
{
    let (_mant, _scale) = (n.mant(), n.scale());
    let mut bytes = Vec::new(alloc);
    n.print(&mut bytes)?;
    match String::from_utf8(bytes) {
        Ok(text) => Ok(text),
        Err(_) => unreachable!(),
    }
}

/// The printed text of a date, which is a text.
fn day_text(alloc: Global, day: Day) -> Result<String, Memory>
    ensures value { IfOk result (λ t. string_bytes t ≡ text_of_day day) }
    ensures text { IsTrue (is_text (text_of_day day)) }
{
    let mut bytes = Vec::new(alloc);
    day.print(&mut bytes)?;
    match String::from_utf8(bytes) {
        Ok(text) => Ok(text),
        Err(_) => unreachable!(),
    }
}
