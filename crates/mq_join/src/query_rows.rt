//! The base rows of a query over tables.
ghost use Rattle.std.specs.Prelude.{◌≡◌, map, IfOk};
ghost use Rattle.mq_values.specs.Answers.{Gives, result_map};
ghost use Rattle.mq_ir.specs.Answer.{plain_fault as spec_plain_fault};
ghost use Rattle.mq_ir.specs.BaseRows.{base_rows as spec_base_rows, items_of as spec_items_of};
ghost use Rattle.mq_ir.specs.Results.{marked};
ghost use Rattle.mq_join.specs.Chosen.{choosing};
ghost use Rattle.mq_join.specs.Rows.{joined_at, joined_rows, rows_in, rows_over as spec_rows_over};

use crate::conditions::conditions_of;
use crate::from_items::{ItemRows, items_choosing, items_of};
use crate::join_row::{JoinRow, joined};
use crate::kept_rows::KeptRows;
use crate::plans::plan_of;
use crate::walk::rows_behind;
use mq_ir::{FromPart, plain_fault};
use mq_tables::{TableSet, Tables};
use mq_values::{Fail, FaultKind, Items, Memory, QueryFault};
use std::alloc::Global;

/// The base rows of a query over these tables, in order: all tuples of a row for each FROM item for which every ON and
/// then WHERE is true, the first item turning slowest. A table that is not there has no rows. The first value fault of
/// a condition is the answer, or TOO_MANY_ROWS where there are more than `MAX_BASE_ROWS`, whichever comes first on the
/// walk over all tuples (docs/MEANING.md, "Base rows").
pub fn base_rows_in<'a, T: TableSet>(
    alloc: Global,
    q: &FromPart,
    t: &'a T,
) -> Result<Vec<JoinRow<'a>>, Fail<QueryFault>>
    ensures exact { Gives (result_map (λ rows. map rows_in rows.items) result) (marked (spec_plain_fault 0) (spec_base_rows (T.tables t.now) q.now)) }
    ensures joined { Gives (result_map (λ rows. rows.items) result) (marked (spec_plain_fault 0) (joined_rows (T.tables t.now) q.now)) }
{
    let items = items_of(alloc, q, t)?;
    match rows_over(alloc, q, items.as_slice()) {
        Ok(rows) => Ok(rows.into_vec()),
        Err(Fail::Cause(kind)) => Err(Fail::Cause(plain_fault(0, kind))),
        Err(Fail::Memory) => Err(Fail::Memory),
    }
}

/// The same over the tables that stand between two statements.
pub fn base_rows<'a>(
    alloc: Global,
    q: &FromPart,
    t: &'a Tables,
) -> Result<Vec<JoinRow<'a>>, Fail<QueryFault>>
    ensures exact { Gives (result_map (λ rows. map rows_in rows.items) result) (marked (spec_plain_fault 0) (spec_base_rows t.now q.now)) }
    ensures joined { Gives (result_map (λ rows. rows.items) result) (marked (spec_plain_fault 0) (joined_rows t.now q.now)) }
{
    base_rows_in(alloc, q, t)
}

/// The rows at these places of the FROM items, as base rows. A place that is not there stands for an empty row.
/// `Memory` is the only error.
pub fn lend_rows_in<'a, T: TableSet>(
    alloc: Global,
    q: &FromPart,
    rows: &[Items<u32>],
    t: &'a T,
) -> Result<Vec<JoinRow<'a>>, Memory>
    ensures { IfOk result (λ lent. lent.items ≡ map (joined_at (spec_items_of (T.tables t.now) q.now)) rows.now) }
{
    let items = items_of(alloc, q, t)?;
    let mut lent = Vec::with_capacity(alloc, rows.len())?;
    'rows: for places in rows {
        let places = wide_places(alloc, places.as_slice())?;
        lent.push(joined(alloc, items.as_slice(), &places)?)?;
    }
    Ok(lent)
}

/// The same over the tables that stand between two statements.
pub fn lend_rows<'a>(
    alloc: Global,
    q: &FromPart,
    rows: &[Items<u32>],
    t: &'a Tables,
) -> Result<Vec<JoinRow<'a>>, Memory>
    ensures { IfOk result (λ lent. lent.items ≡ map (joined_at (spec_items_of t.now q.now)) rows.now) }
{
    lend_rows_in(alloc, q, rows, t)
}

/// The rows at these places of the FROM items, as base rows, from places that were kept. `Memory` is the only error.
pub fn lend_kept_in<'a, T: TableSet>(
    alloc: Global,
    q: &FromPart,
    kept: &KeptRows,
    t: &'a T,
) -> Result<Vec<JoinRow<'a>>, Memory>
    ensures { IfOk result (λ lent. lent.items ≡ map (joined_at (spec_items_of (T.tables t.now) q.now)) kept.now) }
{
    let items = items_of(alloc, q, t)?;
    let mut lent = Vec::with_capacity(alloc, kept.len())?;
    'rows: for at in 0..kept.len() {
        let places = wide_places(alloc, kept.row(at))?;
        lent.push(joined(alloc, items.as_slice(), &places)?)?;
    }
    Ok(lent)
}

/// The same over the tables that stand between two statements.
pub fn lend_kept<'a>(
    alloc: Global,
    q: &FromPart,
    kept: &KeptRows,
    t: &'a Tables,
) -> Result<Vec<JoinRow<'a>>, Memory>
    ensures { IfOk result (λ lent. lent.items ≡ map (joined_at (spec_items_of t.now q.now)) kept.now) }
{
    lend_kept_in(alloc, q, kept, t)
}

/// The base rows in which the row of one FROM item, counted from 0, is one of those at these places: they are told by their
/// numbers among these places, in the place of their places. The first event of the walk over these tuples is the
/// error.
pub fn base_rows_choosing<'a, T: TableSet>(
    alloc: Global,
    q: &FromPart,
    item: usize,
    places: &'a [u32],
    t: &'a T,
) -> Result<Vec<JoinRow<'a>>, Fail<FaultKind>>
    ensures { Gives (result_map (λ rows. rows.items) result) (spec_rows_over q.now (choosing item places.now (spec_items_of (T.tables t.now) q.now))) }
{
    let items = items_choosing(alloc, q, item, places, t)?;
    let rows = rows_over(alloc, q, items.as_slice())?;
    Ok(rows.into_vec())
}

// The base rows over the rows of the FROM items.
fn rows_over<'a>(
    alloc: Global,
    q: &FromPart,
    items: &[ItemRows<'a>],
) -> Result<Items<JoinRow<'a>>, Fail<FaultKind>>
    ensures { Gives result (spec_rows_over q.now items.now) }
{
    let all = conditions_of(alloc, q)?;
    let conditions = all.as_slice();
    let plan = plan_of(alloc, conditions, items)?;
    let mut tuple = Vec::with_capacity(alloc, items.len())?;
    rows_behind(
        alloc,
        conditions,
        items,
        &plan,
        &mut tuple,
        Items::new(alloc),
    )
}

// The same places in the width of the machine.
fn wide_places(alloc: Global, places: &[u32]) -> Result<Vec<usize>, Memory>
    ensures { IfOk result (λ wide. wide.items ≡ places.now) }
{
    let mut wide = Vec::with_capacity(alloc, places.len())?;
    'places: for place in places {
        wide.push(*place as usize)?;
    }
    Ok(wide)
}
