//! The body of every change: it is made in place, on rows that its caller owns, all of it or nothing.
ghost use Rattle.std.specs.Prelude.{◌≡◌, ◌≤◌, length, OnErr};
ghost use Rattle.mq_values.specs.Answers.{Gives, result_map};
ghost use Rattle.mq_values.specs.declared.limits.TheConstants.{MAX_ROWS};
ghost use Rattle.mq_ir.specs.Changes.{rows_added};
ghost use Rattle.mq_tables.specs.Touching as spec;

use crate::columns::inserted_rows;
use crate::keyed_rows::KeyedRows;
use crate::keys::spares_key;
use crate::rows::row_copies;
use crate::seeking::places_to_visit;
use crate::touched::Touched;
use crate::visits::{gone_rows, replaced_rows};
use mq_ir::{Change, Expr, Row, Schema};
use mq_values::{Fail, Items, Refused};
use std::alloc::Global;

/// Makes a change of the rows of a table that has this schema, where its size is judged, and tells what it touched. After an
/// error the rows are as before.
pub fn change_rows(
    alloc: Global,
    schema: &Schema,
    rows: &mut KeyedRows,
    c: &Change,
) -> Result<Touched, Fail<Refused>>
    requires within { length rows.old ≤ MAX_ROWS }
    requires added { rows_added c.now ≤ MAX_ROWS }
    ensures exact { Gives (result_map (λ touched. (rows.new, touched)) result) (spec.made schema.now rows.old c.now) }
    ensures err { OnErr result (rows.new ≡ rows.old) }
{
    match c {
        Change::Insert { rows: new, .. } => {
            let new = inserted_rows(alloc, schema, new.as_slice())?;
            grow(alloc, schema, rows, new)
        }
        Change::Append { rows: new, .. } => {
            let new = row_copies(alloc, new.as_slice(), 0)?;
            grow(alloc, schema, rows, Items::from_vec(new))
        }
        Change::Update { sets, filter, .. } => {
            update(alloc, schema, rows, sets.as_slice(), filter)
        }
        Change::Delete { filter, .. } => delete(alloc, schema, rows, filter),
    }
}

// Rows behind those that are there.
fn grow(
    alloc: Global,
    schema: &Schema,
    rows: &mut KeyedRows,
    new: Items<Row>,
) -> Result<Touched, Fail<Refused>>
    ensures exact { Gives (result_map (λ touched. (rows.new, touched)) result) (spec.made_behind schema.now rows.old new) }
    ensures err { OnErr result (rows.new ≡ rows.old) }
{
    let first = rows.as_slice().len();
    let count = new.len();
    rows.grow(alloc, schema, new)?;
    Ok(Touched::Added { first, count })
}

// UPDATE: each row keeps its place.
fn update(
    alloc: Global,
    schema: &Schema,
    rows: &mut KeyedRows,
    sets: &[(u32, Expr)],
    filter: &Option<Expr>,
) -> Result<Touched, Fail<Refused>>
    requires within { length rows.old ≤ MAX_ROWS }
    ensures exact { Gives (result_map (λ touched. (rows.new, touched)) result) (spec.made_by_update schema.now sets.now filter.now rows.old) }
    ensures err { OnErr result (rows.new ≡ rows.old) }
{
    let places = places_to_visit(alloc, schema, filter, rows);
    let found = replaced_rows(alloc, schema, sets, filter, rows.as_slice(), places)?;
    if spares_key(sets, schema.key.as_slice()) {
        rows.put_same_keys(alloc, schema, found.puts)?;
        return Ok(Touched::Replaced(found.were));
    }
    rows.put(alloc, schema, found.puts, found.were.as_slice())?;
    Ok(Touched::Replaced(found.were))
}

// DELETE: the rows that are not visited as true are left.
fn delete(
    alloc: Global,
    schema: &Schema,
    rows: &mut KeyedRows,
    filter: &Option<Expr>,
) -> Result<Touched, Fail<Refused>>
    requires within { length rows.old ≤ MAX_ROWS }
    ensures exact { Gives (result_map (λ touched. (rows.new, touched)) result) (spec.made_by_delete schema.now filter.now rows.old) }
    ensures err { OnErr result (rows.new ≡ rows.old) }
{
    let places = places_to_visit(alloc, schema, filter, rows);
    let gone = gone_rows(alloc, schema, filter, rows.as_slice(), places)?;
    rows.lose(alloc, schema, &gone.flags, gone.keys.as_slice())?;
    Ok(Touched::Gone {
        flags: gone.flags,
        rows: gone.rows,
    })
}
