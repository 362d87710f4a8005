//! The array of a reference.
ghost use Rattle.std.specs.Prelude.{◌≡◌, []};
ghost use Rattle.mq_values.specs.Answers.{Gives};
ghost use Rattle.mq_ir.specs.Placed.{at_partition, placed_fault};
ghost use Rattle.mq_refmodel.specs.Arrays.{array_of};

use crate::rows::evaluated_rows;
use mq_ir::{PlacedFault, RefArray, RefPart};
use mq_shape::{RowCells, cells_of};
use mq_values::{Fail, FaultKind, Key, MAX_CELLS_OF_REFERENCE, QueryFault};
use std::alloc::Global;

/// The array of a reference over the items of its query. The first fault comes in this order: value faults row by row,
/// the dimensions before the measures; then NOT_UNIQUE at the least tuple that stands twice; then TOO_MANY_CELLS where
/// there are more rows than a reference may have (docs/MEANING.md, "References").
pub fn reference(alloc: Global, q: &RefPart, items: &[Key]) -> Result<RefArray, Fail<QueryFault>>
    ensures { Gives result (array_of q.now items.now) }
{
    let rows = evaluated_rows(alloc, q, items)?;
    let count = rows.len();
    let RowCells { cells, repeated } = cells_of(rows)?;
    if let Some(key) = repeated {
        return Err(Fail::Cause(fault_at(FaultKind::NotUnique, key)));
    }
    if count > MAX_CELLS_OF_REFERENCE as usize {
        return Err(Fail::Cause(fault_at(FaultKind::TooManyCells, Key::empty())));
    }
    Ok(RefArray { cells })
}

// A fault at a cell of a reference.
fn fault_at(kind: FaultKind, cell: Key) -> QueryFault
    ensures { result ≡ at_partition [] (placed_fault 0 cell kind) }
{
    PlacedFault::new(0, cell, kind).at_partition(Key::empty())
}
