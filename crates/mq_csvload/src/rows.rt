//! Records as rows of a table.
ghost use Rattle.std.specs.Prelude.{◌<◌, [], get_or, length};
ghost use Rattle.std.specs.List.{enumerate_from};
ghost use Rattle.csv.specs.Records.{fields_of};
ghost use Rattle.mq_values.specs.Answers.{Gives, result_map};
ghost use Rattle.mq_ir.specs.Results.{each};
ghost use Rattle.mq_csvload.specs.Left.{Goes, left_of};
ghost use Rattle.mq_csvload.specs.Loading as spec;

use crate::fields::column_value;
use crate::records::read_next;
use csv::{ByteRecord, Reader};
use mq_ir::{Column, Row};
use mq_values::{Fail, Items, Key, Refused, Value};
use std::alloc::Global;

// The value of a column in the record of this number.
fn value_at(
    alloc: Global,
    col: &Column,
    number: u32,
    fields: &ByteRecord,
    at: usize,
) -> Result<Value, Fail<Refused>>
    requires { at < length (fields_of fields.now) }
    ensures { Gives result (spec.value_of number (col.now, get_or (fields_of fields.now) at [])) }
{
    let Some(field) = fields.get(at) else {
        unreachable!()
    };
    match column_value(alloc, col, field)? {
        Some(value) => Ok(value),
        None => Err(Fail::Cause(Refused::LoadRow(number))),
    }
}

// The row that the record of this number is.
fn row_of(
    alloc: Global,
    cols: &[Column],
    number: u32,
    fields: &ByteRecord,
) -> Result<Row, Fail<Refused>>
    ensures { Gives result (spec.row_of cols.now (number, fields_of fields.now)) }
{
    if fields.len() != cols.len() {
        return Err(Fail::Cause(Refused::LoadRow(number)));
    }
    let mut values = Items::with_room(alloc, cols.len());
    'columns: for at in 0..cols.len() {
        values.push(value_at(alloc, &cols[at], number, fields, at)?)?;
    }
    Ok(Key::new(alloc, values)?)
}

/// The rows that the records before the reader are, numbered from 1. A record past the last number of 32 bits is not
/// read: bytes that hold so many are answered as want of memory.
pub(crate) fn rows_before<'a>(
    alloc: Global,
    cols: &[Column],
    reader: &mut Reader<&'a [u8]>,
    into: &mut ByteRecord,
) -> Result<Vec<Row>, Fail<Refused>>
    requires { Goes reader.old }
    ensures { Gives (result_map (λ rows. rows.items) result) (each (spec.row_of cols.now) (enumerate_from 1 (left_of reader.old))) }
{
    let mut rows = Vec::new(alloc);
    'records: for number in 1..u32::MAX {
        if !read_next(reader, into)? {
            return Ok(rows);
        }
        rows.push(row_of(alloc, cols, number, into)?)?;
    }
    Err(Fail::Memory)
}
