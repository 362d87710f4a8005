//! Lists of rows that are copied, and changed where they stand.
ghost use Rattle.std.specs.Prelude.{◌≡◌, ◌++◌, slice_set, IfOk, OnOk};
ghost use Rattle.mq_tables.specs.InPlace.{put_at};

use mq_ir::Row;
use mq_values::{Items, Memory};
use std::alloc::Global;

/// The same rows once more, with room for `more` behind them.
pub fn row_copies(alloc: Global, rows: &[Row], more: usize) -> Result<Vec<Row>, Memory>
    ensures { IfOk result (λ copies. copies.items ≡ rows.now) }
{
    let mut copies = Vec::with_capacity(alloc, rows.len().saturating_add(more))?;
    push_copies(&mut copies, rows)?;
    Ok(copies)
}

/// The same rows once more, behind the others.
pub fn push_copies(rows: &mut Vec<Row>, others: &[Row]) -> Result<(), Memory>
    ensures { OnOk result (rows.new.items ≡ rows.old.items ++ others.now) }
{
    'rows: for row in others {
        rows.push(row.copy()?)?;
    }
    Ok(())
}

/// Puts rows at their places, where there are such places.
pub fn put_rows(rows: &mut Vec<Row>, puts: Items<(u32, Row)>)
    ensures { rows.new.items ≡ put_at puts rows.old.items }
{
    let mut puts = puts.into_vec();
    'puts: while let Some((place, row)) = puts.pop() {
        put(rows, place, row);
    }
}

/// Puts an item at a place, where there is one.
pub fn put<T: Drop>(items: &mut Vec<T>, place: u32, item: T)
    ensures { items.new.items ≡ slice_set items.old.items place item }
{
    if (place as usize) < items.len() {
        items[place as usize] = item;
    }
}
