//! The rows of a reference, their dimensions and measures evaluated.
ghost use Rattle.mq_values.specs.Answers.{Gives};
ghost use Rattle.mq_ir.specs.Results.{each};
ghost use Rattle.mq_refmodel.specs.Arrays.{row_found, values_found};

use crate::place::evaluated;
use mq_ir::{RefPart, kind_of, plain_fault};
use mq_values::{Fail, Items, Key, QueryFault, ValueFault};
use std::alloc::Global;

/// The dimensions and then the measures over each row, which stands as the one FROM item; or the first fault.
pub fn evaluated_rows(
    alloc: Global,
    q: &RefPart,
    rows: &[Key],
) -> Result<Items<(Key, Key)>, Fail<QueryFault>>
    ensures { Gives result (each (row_found q.now) rows.now) }
{
    let mut cells = Items::new(alloc);
    for row in rows {
        cells.push(evaluated_row(alloc, q, row)?)?;
    }
    Ok(cells)
}

// The same over one row.
fn evaluated_row(alloc: Global, q: &RefPart, row: &Key) -> Result<(Key, Key), Fail<QueryFault>>
    ensures { Gives result (row_found q.now row.now) }
{
    match values_over(alloc, q, row) {
        Ok(cell) => Ok(cell),
        Err(Fail::Cause(fault)) => Err(Fail::Cause(plain_fault(0, kind_of(fault)))),
        Err(Fail::Memory) => Err(Fail::Memory),
    }
}

// The dimensions and the measures over a row.
fn values_over(alloc: Global, q: &RefPart, row: &Key) -> Result<(Key, Key), Fail<ValueFault>>
    ensures { Gives result (values_found q.now row.now) }
{
    let key = evaluated(alloc, q.dims.as_slice(), row)?;
    let measures = evaluated(alloc, q.measures.as_slice(), row)?;
    Ok((key, measures))
}
