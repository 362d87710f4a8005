//! Changes once more.
ghost use Rattle.std.specs.Prelude.{◌≡◌, IfOk};

use crate::expression_copies::{same_expr, same_exprs};
use mq_ir::{Change, Expr, Row};
use mq_values::{Items, Memory, Words};
use std::alloc::Global;

/// The same changes once more, in their order. Rows and values are shared, not copied. `Memory` is the only error.
pub fn same_changes(alloc: Global, changes: &[Change]) -> Result<Items<Change>, Memory>
    ensures { IfOk result (λ copies. copies ≡ changes.now) }
{
    let mut copies = Items::new(alloc);
    for change in changes {
        copies.push(same_change(alloc, change)?)?;
    }
    Ok(copies)
}

/// The same change once more.
pub fn same_change(alloc: Global, change: &Change) -> Result<Change, Memory>
    ensures { IfOk result (λ copy. copy ≡ change.now) }
{
    match change {
        Change::Insert { table, rows } => same_insert(alloc, table, rows.as_slice()),
        Change::Append { table, rows } => same_append(alloc, table, rows.as_slice()),
        Change::Update {
            table,
            sets,
            filter,
        } => same_update(alloc, table, sets.as_slice(), filter),
        Change::Delete { table, filter } => same_delete(alloc, table, filter),
    }
}

fn same_insert(alloc: Global, table: &Words, rows: &[Items<Expr>]) -> Result<Change, Memory>
    ensures { IfOk result (λ copy. copy ≡ Change.Insert table.now rows.now) }
{
    let mut copies = Items::new(alloc);
    for row in rows {
        copies.push(same_exprs(alloc, row.as_slice())?)?;
    }
    let table = table.copy()?;
    Ok(Change::Insert {
        table,
        rows: copies,
    })
}

fn same_append(alloc: Global, table: &Words, rows: &[Row]) -> Result<Change, Memory>
    ensures { IfOk result (λ copy. copy ≡ Change.Append table.now rows.now) }
{
    let mut copies = Items::new(alloc);
    for row in rows {
        copies.push(row.copy()?)?;
    }
    let table = table.copy()?;
    Ok(Change::Append {
        table,
        rows: copies,
    })
}

fn same_update(
    alloc: Global,
    table: &Words,
    sets: &[(u32, Expr)],
    filter: &Option<Expr>,
) -> Result<Change, Memory>
    ensures { IfOk result (λ copy. copy ≡ Change.Update table.now sets.now filter.now) }
{
    let sets = same_sets(alloc, sets)?;
    let table = table.copy()?;
    let filter = same_filter(alloc, filter)?;
    Ok(Change::Update {
        table,
        sets,
        filter,
    })
}

fn same_delete(alloc: Global, table: &Words, filter: &Option<Expr>) -> Result<Change, Memory>
    ensures { IfOk result (λ copy. copy ≡ Change.Delete table.now filter.now) }
{
    let table = table.copy()?;
    let filter = same_filter(alloc, filter)?;
    Ok(Change::Delete { table, filter })
}

// The columns that are set, with what they are set to.
fn same_sets(alloc: Global, sets: &[(u32, Expr)]) -> Result<Items<(u32, Expr)>, Memory>
    ensures { IfOk result (λ copies. copies ≡ sets.now) }
{
    let mut copies = Items::new(alloc);
    for (column, e) in sets {
        copies.push((*column, same_expr(alloc, e)?))?;
    }
    Ok(copies)
}

fn same_filter(alloc: Global, filter: &Option<Expr>) -> Result<Option<Expr>, Memory>
    ensures { IfOk result (λ copy. copy ≡ filter.now) }
{
    match filter {
        Some(e) => Ok(Some(same_expr(alloc, e)?)),
        None => Ok(None),
    }
}
