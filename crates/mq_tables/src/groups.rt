//! Groups of values: two values of one group that are equal are the same.
ghost use Rattle.std.specs.Prelude.{◌≡◌, true, slice_index_or, map};
ghost use Rattle.mq_values.specs.declared.value.Value.TheVariants.{Null};
ghost use Rattle.mq_ir.specs.Changes.{row_key};
ghost use Rattle.mq_tables.specs.Groups as spec;

use mq_ir::{Row, Schema};
use mq_values::Value;

/// The groups: that of null, of the texts, of the dates, and of the numbers of each scale from 0 on.
const NULLS: u32 = 0;

const TEXTS: u32 = 1;

const DATES: u32 = 2;

const NUMBERS: u32 = 3;

fn group_of(v: &Value) -> u32
    ensures { result ≡ spec.group_of v.now }
{
    match v {
        Value::Num(n) => NUMBERS + n.scale() as u32,
        Value::Text(_) => TEXTS,
        Value::Date(_) => DATES,
        Value::Null => NULLS,
    }
}

// The group of what stands in a column of a row; null where there is no such column.
fn group_at(row: &Row, column: u32) -> u32
    ensures { result ≡ spec.group_of (slice_index_or row.now column Null) }
{
    match row.as_slice().get(column as usize) {
        Some(v) => group_of(v),
        None => NULLS,
    }
}

/// Whether the values of the key of a row are of the groups of these values, place by place.
pub fn has_groups_of(schema: &Schema, row: &Row, values: &[Value]) -> bool
    ensures { result ≡ true → spec.groups_of (row_key schema.now row.now) ≡ spec.groups_of values.now }
{
    if schema.key.len() != values.len() {
        return false;
    }
    'places: for (place, column) in schema.key.as_slice().iter().enumerate() {
        if group_at(row, *column) != group_of(&values[place]) {
            return false;
        }
    }
    true
}

/// Whether the keys of all of these rows are such.
pub fn have_groups_of(schema: &Schema, rows: &[Row], values: &[Value]) -> bool
    ensures { result ≡ true → spec.AreLike values.now (map (row_key schema.now) rows.now) }
{
    'rows: for row in rows {
        if !has_groups_of(schema, row, values) {
            return false;
        }
    }
    true
}
