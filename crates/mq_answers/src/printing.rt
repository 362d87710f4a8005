//! The order in which rows are printed, and their printed columns.
ghost use Rattle.std.specs.Prelude.{◌≡◌, ◌↔◌, true, false, length, map, unwrap_or, slice_index_or, IfOk, IsTrue};
ghost use Rattle.std.specs.List.{range_with_len};
ghost use Rattle.std.specs.Option.{option_copied};
ghost use Rattle.mq_values.specs.Order.{cmp_value};
ghost use Rattle.mq_values.specs.declared.value.Value.TheVariants.{Null};
ghost use Rattle.mq_ir.specs.Partitions.{ascending};
ghost use Rattle.mq_ir.specs.Printing as spec;
ghost use Rattle.mq_ir.specs.Ready.{HaveLength};
ghost use Rattle.mq_answers.specs.Printing.{cmp_rows, with_ascending};

use crate::columns::Columns;
use mq_ir::BoundQuery;
use mq_values::{Items, Key, Memory, Value};
use std::alloc::Global;
use std::cmp::Ordering;

/// The rows of a query as they are printed: by ORDER BY, and then by all printed columns from the left, ascending; of
/// each its printed columns (docs/MEANING.md, "Answers"). `Memory` is the only error.
pub fn printed_rows<R: Columns + Drop>(
    alloc: Global,
    q: &BoundQuery,
    rows: Vec<R>,
) -> Result<Items<Key>, Memory>
    ensures { IfOk result (λ printed. printed ≡ spec.printed_rows q.now (map R.columns rows.items)) }
{
    let rows = sorted(q, rows)?;
    shown(alloc, q.print.as_slice(), &rows)
}

/// The same of rows that others hold too. Where all their columns are printed in order, the rows are printed as they are.
pub fn printed_keys(alloc: Global, q: &BoundQuery, rows: Vec<Key>) -> Result<Items<Key>, Memory>
    ensures { IfOk result (λ printed. printed ≡ spec.printed_rows q.now rows.items) }
{
    if are_whole(q.print.as_slice(), rows.as_slice()) {
        return Ok(Items::from_vec(sorted(q, rows)?));
    }
    printed_rows(alloc, q, rows)
}

// Whether the printed columns are those of each row, from the first to the last.
fn are_whole(print: &[u32], rows: &[Key]) -> bool
    ensures order { result ≡ true → print.now ≡ range_with_len 0 (length print.now) }
    ensures wide { result ≡ true → HaveLength (length print.now) rows.now }
{
    are_in_order(print) && have_width(print.len(), rows)
}

// Whether these are the numbers from 0 on.
fn are_in_order(numbers: &[u32]) -> bool
    ensures { IsTrue result ↔ (numbers.now ≡ range_with_len 0 (length numbers.now)) }
{
    let mut next = 0;
    for number in numbers {
        if *number as usize != next {
            return false;
        }
        next += 1;
    }
    true
}

// Whether each row has so many columns.
fn have_width(width: usize, rows: &[Key]) -> bool
    ensures { result ≡ true → HaveLength width rows.now }
{
    for row in rows {
        if row.as_slice().len() != width {
            return false;
        }
    }
    true
}

/// The rows in the order in which they are printed; rows that this order does not tell apart stay in their order.
pub fn sorted<R: Columns + Drop>(q: &BoundQuery, rows: Vec<R>) -> Result<Vec<R>, Memory>
    ensures { IfOk result (λ rows'. rows'.items ≡ ascending (cmp_rows R.columns q.now) rows.items) }
{
    let mut rows = rows;
    let order = q.order.as_slice();
    let print = q.print.as_slice();
    rows.sort_by(|a, b| cmp_printed(order, print, a, b))?;
    Ok(rows)
}

// The printed columns of each row.
fn shown<R: Columns + Drop>(alloc: Global, print: &[u32], rows: &[R]) -> Result<Items<Key>, Memory>
    ensures { IfOk result (λ printed. printed ≡ map (λ row. spec.columns_at print.now (R.columns row)) rows.now) }
{
    let mut printed = Vec::with_capacity(alloc, rows.len())?;
    for row in rows {
        printed.push(columns_at(alloc, print, row)?)?;
    }
    Ok(Items::from_vec(printed))
}

// The columns of these numbers.
fn columns_at<R: Columns + Drop>(alloc: Global, numbers: &[u32], row: &R) -> Result<Key, Memory>
    ensures { IfOk result (λ key. key ≡ spec.columns_at numbers.now (R.columns row.now)) }
{
    let mut values = Items::with_room(alloc, numbers.len());
    for number in numbers {
        values.push(value_at(row, *number)?)?;
    }
    Key::new(alloc, values)
}

// The value of a column, or null where there is none.
fn value_at<R: Columns + Drop>(row: &R, number: u32) -> Result<Value, Memory>
    ensures { IfOk result (λ v. v ≡ slice_index_or (R.columns row.now) number Null) }
{
    match row.column(number) {
        Some(v) => v.copy(),
        None => Ok(Value::Null),
    }
}

// Which of two rows is printed first.
fn cmp_printed<R: Columns + Drop>(order: &[(u32, bool)], print: &[u32], a: &R, b: &R) -> Ordering
    ensures { result ≡ spec.cmp_columns (with_ascending order.now print.now) (R.columns a.now) (R.columns b.now) }
{
    let by_order = cmp_ordered(order, a, b);
    if by_order.is_ne() {
        return by_order;
    }
    cmp_shown(print, a, b)
}

// The first column of ORDER BY in which two rows differ decides; one that descends the other way round.
fn cmp_ordered<R: Columns + Drop>(order: &[(u32, bool)], a: &R, b: &R) -> Ordering
    ensures { result ≡ spec.cmp_columns order.now (R.columns a.now) (R.columns b.now) }
{
    for (number, descending) in order {
        let found = cmp_column(*number, *descending, a, b);
        if found.is_ne() {
            return found;
        }
    }
    Ordering::Equal
}

// The first printed column in which two rows differ decides.
fn cmp_shown<R: Columns + Drop>(print: &[u32], a: &R, b: &R) -> Ordering
    ensures { result ≡ spec.cmp_columns (map (λ n. (n, false)) print.now) (R.columns a.now) (R.columns b.now) }
{
    for number in print {
        let found = cmp_column(*number, false, a, b);
        if found.is_ne() {
            return found;
        }
    }
    Ordering::Equal
}

// One column of two rows.
fn cmp_column<R: Columns + Drop>(number: u32, descending: bool, a: &R, b: &R) -> Ordering
    ensures { result ≡ spec.cmp_column (number, descending) (R.columns a.now) (R.columns b.now) }
{
    let a = a.column(number);
    let b = b.column(number);
    if descending {
        return cmp_lent(b, a);
    }
    cmp_lent(a, b)
}

// Two values that are lent; a column that is not there stands for null.
fn cmp_lent(a: Option<&Value>, b: Option<&Value>) -> Ordering
    ensures { result ≡ cmp_value (unwrap_or (option_copied a.entry) Null) (unwrap_or (option_copied b.entry) Null) }
{
    match (a, b) {
        (Some(a), Some(b)) => a.cmp(b),
        (Some(a), None) => a.cmp(&Value::Null),
        (None, Some(b)) => Value::Null.cmp(b),
        (None, None) => Ordering::Equal,
    }
}
