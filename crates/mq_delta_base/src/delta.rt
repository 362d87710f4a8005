//! The kept base rows of a query after a change of one table.
ghost use Rattle.std.specs.Prelude.{◌≡◌, Ok, true, false, length, IfOk};
ghost use Rattle.mq_ir.specs.BaseRows.{items_of, kept_places};
ghost use Rattle.mq_delta_base.specs.Gathered.{AddsTouched, Gathered, KeptBefore, changed_items as spec_changed_items, kept_rows_meant};
ghost use Rattle.mq_delta_base.specs.Verdicts.{limited as spec_limited};
ghost use Rattle.mq_ir.specs.Answer.{plain_fault as spec_plain_fault};
ghost use Rattle.mq_ir.specs.Results.{marked};

use crate::blocks::{places_of, places_through};
use crate::moves::Moves;
use crate::staying::survivors;
use crate::unions::union;
use mq_ir::{FromPart, plain_fault};
use mq_join::{KeptRows, PlaceRows, base_rows_choosing, base_rows_in};
use mq_tables::TableSet;
use mq_values::{Fail, FaultKind, MAX_BASE_ROWS, Memory, QueryFault};
use std::alloc::Global;

/// The kept base rows of a query over these tables, or the fault of the walk over all tuples (docs/MEANING.md, "Base rows").
/// `Memory` is the only error.
pub fn kept_rows_in<T: TableSet>(
    alloc: Global,
    q: &FromPart,
    t: &T,
) -> Result<Result<KeptRows, QueryFault>, Memory>
    ensures { IfOk result (λ kept. kept ≡ kept_rows_meant q.now (items_of (T.tables t.now) q.now)) }
{
    match base_rows_in(alloc, q, t) {
        Ok(rows) => {
            let places = places_of(alloc, q.tables.len(), rows.as_slice())?;
            Ok(Ok(KeptRows::new(places)))
        }
        Err(Fail::Cause(fault)) => Ok(Err(fault)),
        Err(Fail::Memory) => Err(Memory),
    }
}

/// The kept base rows after a change of one table, found from those before it, or the fault of the walk over all tuples.
/// `moves` says where the rows of the table stand now, and which are touched: a kept tuple of which no row was touched or is
/// gone stays, and tuples with a touched row are judged. `after` are the tables as they stand after the change
/// (docs/MEANING.md, "Kept base rows"). `Memory` is the only error.
pub fn kept_after<T: TableSet>(
    alloc: Global,
    q: &FromPart,
    old: &KeptRows,
    table: &str,
    moves: &Moves,
    after: &T,
) -> Result<Result<KeptRows, QueryFault>, Memory>
    requires { KeptBefore q.now (spec_changed_items q.now table.now) moves.now.places moves.now.touched old.now (items_of (T.tables after.now) q.now) }
    ensures { IfOk result (λ kept. kept ≡ kept_rows_meant q.now (items_of (T.tables after.now) q.now)) }
{
    let changed = changed_items(alloc, q, table)?;
    match gathered(alloc, q, old, changed.as_slice(), moves, after) {
        Ok(rows) => Ok(limited(rows)),
        Err(Fail::Cause(_)) => kept_rows_in(alloc, q, after),
        Err(Fail::Memory) => Err(Memory),
    }
}

// Whether each FROM item is of this table.
fn changed_items(alloc: Global, q: &FromPart, table: &str) -> Result<Vec<bool>, Memory>
    ensures { IfOk result (λ changed. changed.items ≡ spec_changed_items q.now table.now) }
{
    let mut changed = Vec::with_capacity(alloc, q.tables.len())?;
    'tables: for name in q.tables.as_slice() {
        changed.push(table == name.as_str())?;
    }
    Ok(changed)
}

// The tuples that stay whole, and those with a touched row that are kept. A tuple with a touched row that faults is an error.
fn gathered<T: TableSet>(
    alloc: Global,
    q: &FromPart,
    old: &KeptRows,
    changed: &[bool],
    moves: &Moves,
    after: &T,
) -> Result<PlaceRows, Fail<FaultKind>>
    requires { KeptBefore q.now changed.now moves.now.places moves.now.touched old.now (items_of (T.tables after.now) q.now) }
    ensures { IfOk result (λ rows. Gathered q.now changed.now moves.now.places moves.now.touched old.now (items_of (T.tables after.now) q.now) (length changed.now) rows.rows) }
{
    let mut rows = survivors(alloc, old, changed, moves)?;
    'items: for item in 0..changed.len() {
        rows = with_item(alloc, q, item, changed[item], moves, after, rows)?;
    }
    Ok(rows)
}

// The same with what is kept of those with a touched row of a FROM item, if its table was changed.
fn with_item<T: TableSet>(
    alloc: Global,
    q: &FromPart,
    item: usize,
    changed: bool,
    moves: &Moves,
    after: &T,
    rows: PlaceRows,
) -> Result<PlaceRows, Fail<FaultKind>>
    requires { rows.width ≡ length q.now.tables }
    ensures touched { IfOk result (λ more. changed ≡ true → AddsTouched q.now item moves.now.touched (items_of (T.tables after.now) q.now) rows more) }
    ensures same { IfOk result (λ more. changed ≡ false → more ≡ rows) }
{
    if !changed {
        return Ok(rows);
    }
    with_touched(alloc, q, item, moves.touched.as_slice(), after, &rows)
}

// The tuples that are kept of those with one of these rows of a FROM item, with others, in order.
fn with_touched<T: TableSet>(
    alloc: Global,
    q: &FromPart,
    item: usize,
    touched: &[u32],
    after: &T,
    rows: &PlaceRows,
) -> Result<PlaceRows, Fail<FaultKind>>
    requires { rows.now.width ≡ length q.now.tables }
    ensures { IfOk result (λ more. AddsTouched q.now item touched.now (items_of (T.tables after.now) q.now) rows.now more) }
{
    let chosen = base_rows_choosing(alloc, q, item, touched, after)?;
    let block = places_through(alloc, q.tables.len(), item, touched, chosen.as_slice())?;
    Ok(union(alloc, rows, &block)?)
}

// These tuples, if they are not too many.
fn limited(rows: PlaceRows) -> Result<KeptRows, QueryFault>
    ensures { result ≡ marked (spec_plain_fault 0) (spec_limited rows.rows) }
{
    if rows.len() > MAX_BASE_ROWS {
        return Err(plain_fault(0, FaultKind::TooManyRows));
    }
    Ok(KeptRows::new(rows))
}
