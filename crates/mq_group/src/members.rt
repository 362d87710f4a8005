//! The members of groups: columns that are the same in all, and aggregates over them.
ghost use Rattle.std.specs.Prelude.{◌≡◌, [], pos, Ok, map, slice_index_or, if◌then◌else◌, IfOk};
ghost use Rattle.std.specs.Option.{option_copied};
ghost use Rattle.mq_values.specs.Answers.{Gives};
ghost use Rattle.mq_values.specs.Arithmetic.{in_range};
ghost use Rattle.mq_values.specs.declared.value.Value.TheVariants.{Null};
ghost use Rattle.mq_ir.specs.BaseRows.{column_at};
ghost use Rattle.mq_ir.specs.Items as spec;
ghost use Rattle.mq_ir.specs.Worth.{a_number};
ghost use Rattle.mq_group.specs.Members.{aggregate_found, member_found, row_or_none};

use crate::places::{RowPlace, column_of};
use crate::row_values::RowValues;
use mq_ir::{ColRef, Expr};
use mq_reads::Aggregation;
use mq_scalar::eval;
use mq_values::{Agg, Boxed, Fail, Memory, Num, Value, ValueFault};
use std::alloc::Global;

// Whether GROUP BY names this column.
fn is_grouped(cols: &[ColRef], item: u32, column: u32) -> bool
    ensures { result ≡ spec.is_grouped cols.now item column }
{
    cols.iter()
        .any(|col| col.item == item && col.column == column)
}

/// The value of a column over a group: that of its first member, where GROUP BY names the column, else null.
pub fn grouped_column<R: RowValues>(
    cols: &[ColRef],
    rows: &[R],
    group: &[u32],
    item: u32,
    column: u32,
) -> Result<Value, Memory>
    ensures { IfOk result (λ v. Ok v ≡ (if spec.is_grouped cols.now item column then column_at (slice_index_or (spec.members_of (map R.values rows.now) group.now) 0 []) item column else Ok Null)) }
{
    if !is_grouped(cols, item, column) {
        return Ok(Value::Null);
    }
    let value = column_of(first_row(rows, group), item, column)?;
    Ok(value)
}

// The row of the first member.
fn first_row<'a, R: RowValues>(rows: &'a [R], group: &[u32]) -> Option<&'a R>
    ensures { row_or_none R.values (option_copied result) ≡ slice_index_or (spec.members_of (map R.values rows.now) group.now) 0 [] }
{
    match group.first() {
        Some(place) => row_at(rows, *place),
        None => None,
    }
}

// The row of this place.
fn row_at<R: RowValues>(rows: &[R], place: u32) -> Option<&R>
    ensures { row_or_none R.values (option_copied result) ≡ slice_index_or (map R.values rows.now) place [] }
{
    rows.get(place as usize)
}

/// An aggregate over the members of a group, or COUNT of them where no expression stands.
pub fn group_value<R: RowValues>(
    alloc: Global,
    agg: Agg,
    e: &Option<Boxed<Expr>>,
    rows: &[R],
    group: &[u32],
) -> Result<Value, Fail<ValueFault>>
    ensures { Gives result (spec.group_value (spec.members_of (map R.values rows.now) group.now) agg e.now) }
{
    match e {
        Some(e) => aggregated(alloc, agg, e.get(), rows, group),
        None => count(group.len()),
    }
}

// A count as an INT.
fn count(members: usize) -> Result<Value, Fail<ValueFault>>
    ensures { Gives result (a_number (in_range (pos members) 0)) }
{
    match i128::try_from(members as u128) {
        Ok(mant) => Ok(Value::Num(Num::new(mant, 0))),
        Err(_) => Err(Fail::Cause(ValueFault::Overflow)),
    }
}

// An aggregate of what `e` is worth over each member. All members are evaluated before a fault of the aggregate tells.
fn aggregated<R: RowValues>(
    alloc: Global,
    agg: Agg,
    e: &Expr,
    rows: &[R],
    group: &[u32],
) -> Result<Value, Fail<ValueFault>>
    ensures { Gives result (aggregate_found R.values rows.now agg e.now group.now) }
{
    let mut aggregation = Aggregation::new(agg);
    for place in group {
        let value = member_value(alloc, e, rows, *place)?;
        aggregation = aggregation.with(&value)?;
    }
    match aggregation.finish() {
        Ok(v) => Ok(v),
        Err(fault) => Err(Fail::Cause(fault)),
    }
}

// What `e` is worth over the row of this place.
fn member_value<R: RowValues>(
    alloc: Global,
    e: &Expr,
    rows: &[R],
    place: u32,
) -> Result<Value, Fail<ValueFault>>
    ensures { Gives result (member_found R.values rows.now e.now place) }
{
    let row = row_at(rows, place);
    eval(alloc, e, &mut RowPlace { row })
}
