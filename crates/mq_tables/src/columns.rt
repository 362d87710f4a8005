//! The values that a change puts into columns.
ghost use Rattle.std.specs.Prelude.{◌≡◌, ◌≤◌, length, true, false, Ok, IfOk};
ghost use Rattle.std.specs.List.{enumerate_from};
ghost use Rattle.mq_values.specs.Answers.{Gives};
ghost use Rattle.mq_values.specs.declared.faults.Refused.TheVariants as refused;
ghost use Rattle.mq_values.specs.declared.limits.TheConstants.{MAX_ROWS};
ghost use Rattle.mq_ir.specs.Changes as spec;
ghost use Rattle.mq_ir.specs.Results.{each, marked};
ghost use Rattle.mq_ir.specs.Unfolding.{converted as spec_converted};
ghost use Rattle.mq_tables.specs.Columns.{asked_for_null, column_found, row_set, set_value as spec_set_value};
ghost use Rattle.mq_tables.specs.Visits.{row_replaced};

use crate::rows::put;
use crate::scopes::{NoRow, OneRow};
use mq_ir::{Column, Expr, Row, Schema};
use mq_scalar::{Env, eval, holds};
use mq_values::{Fail, Items, Key, Kind, Memory, Refused, Value, ValueFault, cast};
use std::alloc::Global;

// The value of `e`, brought to a kind.
fn converted<V: Env>(
    alloc: Global,
    env: &mut V,
    kind: Kind,
    e: &Expr,
) -> Result<Value, Fail<ValueFault>>
    ensures { Gives result (spec_converted (V.gives env.old) kind e.now) }
{
    let v = eval(alloc, e, env)?;
    cast(alloc, &v, kind)
}

// The same for the row of this number, whose value fault refuses the change.
fn converted_at<V: Env>(
    alloc: Global,
    env: &mut V,
    number: u32,
    kind: Kind,
    e: &Expr,
) -> Result<Value, Fail<Refused>>
    ensures { Gives result (marked (refused.ChangeValue number) (spec_converted (V.gives env.old) kind e.now)) }
{
    match converted(alloc, env, kind, e) {
        Ok(v) => Ok(v),
        Err(Fail::Cause(fault)) => Err(Fail::Cause(Refused::ChangeValue(number, fault))),
        Err(Fail::Memory) => Err(Fail::Memory),
    }
}

// A value, where its column may hold it.
fn asked(col: &Column, v: Value) -> Result<Value, Fail<Refused>>
    ensures { Gives result (asked_for_null col.now v) }
{
    if col.not_null && v.is_null() {
        return Err(Fail::Cause(Refused::NotNull(col.name.copy()?)));
    }
    Ok(v)
}

/// The value of a column in the row of this number: evaluated, converted, and asked for null.
pub fn column_value<V: Env>(
    alloc: Global,
    env: &mut V,
    number: u32,
    col: &Column,
    e: &Expr,
) -> Result<Value, Fail<Refused>>
    ensures { Gives result (column_found (V.gives env.old) number col.now e.now) }
{
    let v = converted_at(alloc, env, number, col.kind, e)?;
    asked(col, v)
}

/// A row of INSERT, its columns from left to right.
pub fn inserted_row(
    alloc: Global,
    schema: &Schema,
    number: u32,
    es: &[Expr],
) -> Result<Row, Fail<Refused>>
    ensures { Gives result (spec.inserted_row schema.now (number, es.now)) }
{
    let mut values = Items::with_room(alloc, es.len());
    'columns: for (at, e) in es.iter().enumerate() {
        match schema.cols.get(at) {
            Some(col) => values.push(column_value(alloc, &mut NoRow, number, col, e)?)?,
            None => return Ok(Key::new(alloc, values)?),
        }
    }
    Ok(Key::new(alloc, values)?)
}

/// The rows of INSERT, in order.
pub fn inserted_rows(
    alloc: Global,
    schema: &Schema,
    rows: &[Items<Expr>],
) -> Result<Items<Row>, Fail<Refused>>
    requires { length rows.now ≤ MAX_ROWS }
    ensures { Gives result (each (spec.inserted_row schema.now) (enumerate_from 1 rows.now)) }
{
    let mut new = Items::new(alloc);
    'rows: for (at, es) in rows.iter().enumerate() {
        new.push(inserted_row(alloc, schema, at as u32 + 1, es.as_slice())?)?;
    }
    Ok(new)
}

/// Whether UPDATE or DELETE visits the row of this number as true.
pub fn is_chosen(
    alloc: Global,
    filter: &Option<Expr>,
    number: u32,
    row: &Row,
) -> Result<bool, Fail<Refused>>
    ensures { Gives result (spec.is_chosen filter.now (number, row.now)) }
{
    let Some(e) = filter else {
        return Ok(true);
    };
    match holds(alloc, e, &mut OneRow { row }) {
        Ok(Some(holds)) => Ok(holds),
        Ok(None) => Ok(false),
        Err(Fail::Cause(fault)) => Err(Fail::Cause(Refused::ChangeValue(number, fault))),
        Err(Fail::Memory) => Err(Fail::Memory),
    }
}

// What SET puts into a column, over the row as it was.
fn set_value(
    alloc: Global,
    schema: &Schema,
    number: u32,
    row: &Row,
    column: u32,
    e: &Expr,
) -> Result<Value, Fail<Refused>>
    ensures { Gives result (spec_set_value schema.now number row.now column e.now) }
{
    match schema.cols.get(column as usize) {
        Some(col) => column_value(alloc, &mut OneRow { row }, number, col, e),
        None => Ok(Value::Null),
    }
}

// The row with the columns that are set.
fn row_with(
    alloc: Global,
    schema: &Schema,
    sets: &[(u32, Expr)],
    number: u32,
    row: &Row,
) -> Result<Row, Fail<Refused>>
    ensures { Gives result (row_set schema.now sets.now (number, row.now)) }
{
    let mut values = copied_values(alloc, row)?;
    'sets: for set in sets {
        let v = set_value(alloc, schema, number, row, set.0, &set.1)?;
        put(&mut values, set.0, v);
    }
    Ok(Key::new(alloc, Items::from_vec(values))?)
}

// The values of a row, each once more.
fn copied_values(alloc: Global, row: &Row) -> Result<Vec<Value>, Memory>
    ensures { IfOk result (λ values. values.items ≡ row.now) }
{
    let mut values = Vec::with_capacity(alloc, row.as_slice().len())?;
    'values: for v in row.as_slice() {
        values.push(v.copy()?)?;
    }
    Ok(values)
}

/// A row after UPDATE, where it is visited as true.
pub fn replaced_row(
    alloc: Global,
    schema: &Schema,
    sets: &[(u32, Expr)],
    filter: &Option<Expr>,
    number: u32,
    row: &Row,
) -> Result<Option<Row>, Fail<Refused>>
    ensures { Gives result (row_replaced schema.now sets.now filter.now (number, row.now)) }
{
    if is_chosen(alloc, filter, number, row)? {
        Ok(Some(row_with(alloc, schema, sets, number, row)?))
    } else {
        Ok(None)
    }
}
