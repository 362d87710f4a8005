//! The kept base rows of a query as they will be after a staged change.
ghost use Rattle.std.specs.Prelude.{◌≡◌, Ok, IfOk};
ghost use Rattle.mq_ir.specs.BaseRows.{items_of, kept_places};
ghost use Rattle.mq_ir.specs.Statement.{with_rows};
ghost use Rattle.mq_tables.specs.Staging.{StandsOn};
ghost use Rattle.mq_delta_base.specs.Gathered.{kept_rows_meant};

use crate::delta::{kept_after, kept_rows_in};
use crate::moves::moves_of;
use crate::staged_tables::StagedTables;
use mq_ir::FromPart;
use mq_join::KeptRows;
use mq_tables::{Staged, Tables};
use mq_values::{Memory, QueryFault};
use std::alloc::Global;

/// The kept base rows of a query over the tables as they will stand after a staged change, or the fault of the walk over all
/// tuples, found from its kept rows over the tables before (docs/MEANING.md, "Kept base rows"). `Memory` is the only error.
pub fn delta_rows(
    alloc: Global,
    q: &FromPart,
    old: &KeptRows,
    before: &Tables,
    staged: &Staged,
) -> Result<Result<KeptRows, QueryFault>, Memory>
    requires kept { kept_places q.now (items_of before.now q.now) ≡ Ok old.now }
    requires stands { StandsOn before.now staged.now }
    ensures { IfOk result (λ kept. kept ≡ kept_rows_meant q.now (items_of (with_rows before.now staged.now.table staged.now.rows) q.now)) }
{
    let after = StagedTables { before, staged };
    match moves_of(alloc, staged)? {
        Some(moves) => kept_after(alloc, q, old, staged.table(), &moves, &after),
        None => kept_rows_in(alloc, q, &after),
    }
}
