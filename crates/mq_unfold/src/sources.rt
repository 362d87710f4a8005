//! The rows that FOR lists, their values brought to the kinds of their dimensions.
ghost use Rattle.std.specs.Prelude.{◌≡◌, [], slice_index_or};
ghost use Rattle.mq_values.specs.Answers.{Gives};
ghost use Rattle.mq_ir.specs.Results.{each};
ghost use Rattle.mq_ir.specs.Unfolding as spec;
ghost use Rattle.mq_unfold.specs.Rows.{first_listed, first_value, listed_places, row_listed, row_values};

use crate::places::{named, named_value};
use mq_ir::{Expr, ListSource, Model, SinglePlace};
use mq_values::{Fail, Items, Key, Kind, Value, ValueFault};
use std::alloc::Global;

/// The rows of a FOR over several dimensions, each with a place for each of `kinds`, or the first fault from left
/// to right.
pub fn rows_of(
    alloc: Global,
    m: &Model<'_>,
    turn: u32,
    kinds: &[Kind],
    source: &ListSource,
) -> Result<Items<Items<SinglePlace>>, Fail<ValueFault>>
    ensures { Gives result (spec.source_rows (spec.model_of m.now) turn kinds.now source.now) }
{
    match source {
        ListSource::Values(rows) => evaluated_rows(alloc, turn, kinds, rows.as_slice()),
        ListSource::Rows(list) => converted_rows(alloc, kinds, list_at(m, *list)),
    }
}

/// The places that a FOR over one dimension lists.
pub fn places_of(
    alloc: Global,
    m: &Model<'_>,
    turn: u32,
    kind: Kind,
    source: &ListSource,
) -> Result<Items<SinglePlace>, Fail<ValueFault>>
    ensures { Gives result (listed_places (spec.model_of m.now) turn kind source.now) }
{
    match source {
        ListSource::Values(rows) => evaluated_firsts(alloc, turn, kind, rows.as_slice()),
        ListSource::Rows(list) => converted_firsts(alloc, kind, list_at(m, *list)),
    }
}

// The rows of a FOR subquery.
fn list_at<'a>(m: &Model<'a>, list: u32) -> &'a [Key]
    ensures { result.now ≡ slice_index_or (spec.model_of m.now).lists list [] }
{
    match m.lists.get(list as usize) {
        Some(rows) => rows.as_slice(),
        None => &[],
    }
}

fn evaluated_rows(
    alloc: Global,
    turn: u32,
    kinds: &[Kind],
    rows: &[Items<Expr>],
) -> Result<Items<Items<SinglePlace>>, Fail<ValueFault>>
    ensures { Gives result (each (row_listed turn kinds.now) rows.now) }
{
    let mut places = Items::new(alloc);
    for row in rows {
        places.push(evaluated_row(alloc, turn, kinds, row.as_slice())?)?;
    }
    Ok(places)
}

fn evaluated_row(
    alloc: Global,
    turn: u32,
    kinds: &[Kind],
    row: &[Expr],
) -> Result<Items<SinglePlace>, Fail<ValueFault>>
    ensures { Gives result (row_listed turn kinds.now row.now) }
{
    let mut places = Items::new(alloc);
    for i in 0..kinds.len().min(row.len()) {
        places.push(named(alloc, turn, kinds[i], &row[i])?)?;
    }
    Ok(places)
}

fn converted_rows(
    alloc: Global,
    kinds: &[Kind],
    rows: &[Key],
) -> Result<Items<Items<SinglePlace>>, Fail<ValueFault>>
    ensures { Gives result (each (row_values kinds.now) rows.now) }
{
    let mut places = Items::new(alloc);
    for row in rows {
        places.push(converted_row(alloc, kinds, row.as_slice())?)?;
    }
    Ok(places)
}

fn converted_row(
    alloc: Global,
    kinds: &[Kind],
    row: &[Value],
) -> Result<Items<SinglePlace>, Fail<ValueFault>>
    ensures { Gives result (row_values kinds.now row.now) }
{
    let mut places = Items::new(alloc);
    for i in 0..kinds.len().min(row.len()) {
        places.push(named_value(alloc, kinds[i], &row[i])?)?;
    }
    Ok(places)
}

fn evaluated_firsts(
    alloc: Global,
    turn: u32,
    kind: Kind,
    rows: &[Items<Expr>],
) -> Result<Items<SinglePlace>, Fail<ValueFault>>
    ensures { Gives result (each (first_listed turn kind) rows.now) }
{
    let mut places = Items::new(alloc);
    for row in rows {
        places.push(evaluated_first(alloc, turn, kind, row.as_slice())?)?;
    }
    Ok(places)
}

fn evaluated_first(
    alloc: Global,
    turn: u32,
    kind: Kind,
    row: &[Expr],
) -> Result<SinglePlace, Fail<ValueFault>>
    ensures { Gives result (first_listed turn kind row.now) }
{
    match row.first() {
        Some(e) => named(alloc, turn, kind, e),
        None => Ok(SinglePlace::At(Value::Null)),
    }
}

fn converted_firsts(
    alloc: Global,
    kind: Kind,
    rows: &[Key],
) -> Result<Items<SinglePlace>, Fail<ValueFault>>
    ensures { Gives result (each (first_value kind) rows.now) }
{
    let mut places = Items::new(alloc);
    for row in rows {
        places.push(converted_first(alloc, kind, row.as_slice())?)?;
    }
    Ok(places)
}

fn converted_first(
    alloc: Global,
    kind: Kind,
    row: &[Value],
) -> Result<SinglePlace, Fail<ValueFault>>
    ensures { Gives result (first_value kind row.now) }
{
    match row.first() {
        Some(v) => named_value(alloc, kind, v),
        None => Ok(SinglePlace::At(Value::Null)),
    }
}
