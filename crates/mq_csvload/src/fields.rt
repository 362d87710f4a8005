//! What the bytes of a field hold as a value of a column.
ghost use Rattle.std.specs.Prelude.{◌≡◌, IfOk};
ghost use Rattle.mq_csvload.specs.Fields as spec;

use mq_ir::Column;
use mq_lexer::{is_number, read_number};
use mq_values::{Day, Fail, Kind, Memory, Num, Text, Value, cast};
use std::alloc::Global;
use std::str;

// The number that the bytes spell without a sign.
fn plain_number(spelling: &[u8]) -> Option<Num>
    ensures { result ≡ spec.plain_number spelling.now }
{
    match str::from_utf8(spelling) {
        Ok(text) => {
            if is_number(text) {
                read_number(text)
            } else {
                None
            }
        }
        Err(_) => None,
    }
}

fn negated(number: Num) -> Option<Num>
    ensures { result ≡ spec.negated number }
{
    match number.neg() {
        Ok(number) => Some(number),
        Err(_) => None,
    }
}

// The number that the bytes spell, with a sign or without one.
fn signed_number(spelling: &[u8]) -> Option<Num>
    ensures { result ≡ spec.signed_number spelling.now }
{
    match spelling {
        [b'+', rest @ ..] => plain_number(rest),
        [b'-', rest @ ..] => negated(plain_number(rest)?),
        _ => plain_number(spelling),
    }
}

fn number_value(alloc: Global, kind: Kind, spelling: &[u8]) -> Result<Option<Value>, Memory>
    ensures { IfOk result (λ v. v ≡ spec.number_value kind spelling.now) }
{
    let Some(number) = signed_number(spelling) else {
        return Ok(None);
    };
    match cast(alloc, &Value::Num(number), kind) {
        Ok(value) => Ok(Some(value)),
        Err(Fail::Cause(_)) => Ok(None),
        Err(Fail::Memory) => Err(Memory),
    }
}

fn text_value(alloc: Global, bytes: &[u8]) -> Result<Option<Value>, Memory>
    ensures { IfOk result (λ v. v ≡ spec.text_value bytes.now) }
{
    match str::from_utf8(bytes) {
        Ok(text) => match Text::new(alloc, text)? {
            Some(text) => Ok(Some(Value::Text(text))),
            None => Ok(None),
        },
        Err(_) => Ok(None),
    }
}

fn date_value(bytes: &[u8]) -> Option<Value>
    ensures { result ≡ spec.date_value bytes.now }
{
    match str::from_utf8(bytes) {
        Ok(text) => match Day::from_text(text) {
            Some(day) => Some(Value::Date(day)),
            None => None,
        },
        Err(_) => None,
    }
}

// The value of a kind that the bytes hold, and null where there are none.
fn field_value(alloc: Global, kind: Kind, bytes: &[u8]) -> Result<Option<Value>, Memory>
    ensures { IfOk result (λ v. v ≡ spec.field_value kind bytes.now) }
{
    if bytes.is_empty() {
        return Ok(Some(Value::Null));
    }
    match kind {
        Kind::Int => number_value(alloc, Kind::Int, bytes),
        Kind::Decimal(scale) => number_value(alloc, Kind::Decimal(scale), bytes),
        Kind::Text => text_value(alloc, bytes),
        Kind::Date => Ok(date_value(bytes)),
    }
}

/// The value that the bytes of a field hold in a column; none where they hold none, or null where the column is NOT NULL.
pub(crate) fn column_value(
    alloc: Global,
    col: &Column,
    bytes: &[u8],
) -> Result<Option<Value>, Memory>
    ensures { IfOk result (λ v. v ≡ spec.column_value col.now bytes.now) }
{
    match field_value(alloc, col.kind, bytes)? {
        Some(value) if col.not_null && value.is_null() => Ok(None),
        found => Ok(found),
    }
}
