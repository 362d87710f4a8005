//! Queries that take a table as it stands: its rows are their items.
ghost use Rattle.std.specs.Prelude.{◌≡◌, ◌==◌, ◌∷◌, [], None, Ok, is_some, length, IfOk, IfSome, IsTrue};
ghost use Rattle.std.specs.List.{list_all, list_any};
ghost use Rattle.mq_ir.specs.BaseRows.{conditions_of, items_of};
ghost use Rattle.mq_ir.specs.Items as spec;
ghost use Rattle.mq_delta_items.specs.Columns.{columns_of};

use mq_delta_items::are_columns;
use mq_ir::{Expr, FromPart, ItemPart, Row};
use mq_tables::TableSet;
use mq_values::{Items, Key, MAX_BASE_ROWS, Memory};
use std::alloc::Global;

/// The items of a query that takes all columns of one table, in order, and all of its rows: these are the rows, and no
/// value is evaluated or copied. `None` says nothing; then the items are those that the general way finds.
pub fn whole_rows<T: TableSet>(
    alloc: Global,
    tables: &T,
    from: &FromPart,
    part: &ItemPart,
) -> Result<Option<Items<Key>>, Memory>
    ensures { IfOk result (λ found. IfSome found (λ rows. spec.items_over (T.tables tables.now) from.now part.now ≡ Ok rows)) }
{
    if !takes_all(from, part) {
        return Ok(None);
    }
    let Some(rows) = only_rows(tables, from) else {
        return Ok(None);
    };
    if rows.len() > MAX_BASE_ROWS {
        return Ok(None);
    }
    if !have_width(rows, part.items.len()) {
        return Ok(None);
    }
    Ok(Some(copies(alloc, rows)?))
}

// Whether every row is taken, and of a row the columns from the first on.
fn takes_all(from: &FromPart, part: &ItemPart) -> bool
    ensures conditions { IsTrue result → conditions_of from.now ≡ [] }
    ensures group { IsTrue result → part.now.group ≡ None }
    ensures items { IsTrue result → part.now.items ≡ columns_of (length part.now.items) }
{
    if part.group.is_some() {
        return false;
    }
    if !is_unconditioned(from) {
        return false;
    }
    are_columns(part.items.as_slice())
}

// Whether there is neither ON nor WHERE.
fn is_unconditioned(from: &FromPart) -> bool
    ensures { IsTrue result → conditions_of from.now ≡ [] }
{
    if from.filter.is_some() {
        return false;
    }
    !any_stands(from.ons.as_slice())
}

fn any_stands(ons: &[Option<Expr>]) -> bool
    ensures { result ≡ list_any is_some ons.now }
{
    ons.iter().any(|on| on.is_some())
}

// The rows of the table, where the query is over one table that is there.
fn only_rows<'a, T: TableSet>(tables: &'a T, from: &FromPart) -> Option<&'a [Row]>
    ensures { IfSome result (λ rows. items_of (T.tables tables.now) from.now ≡ rows.now ∷ []) }
{
    match from.tables.as_slice() {
        [name] => tables.rows(name.as_str()),
        _ => None,
    }
}

// Whether each row has so many values.
fn have_width(rows: &[Row], width: usize) -> bool
    ensures { result ≡ list_all (λ row. length row == width) rows.now }
{
    rows.iter().all(|row| row.as_slice().len() == width)
}

// The same rows, which are shared from now on.
fn copies(alloc: Global, rows: &[Row]) -> Result<Items<Key>, Memory>
    ensures { IfOk result (λ copied. copied ≡ rows.now) }
{
    let mut copied = Items::with_room(alloc, rows.len());
    'rows: for row in rows {
        copied.push(row.copy()?)?;
    }
    Ok(copied)
}
