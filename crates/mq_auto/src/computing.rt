//! The shape and the values of a partition.
ghost use Rattle.std.specs.Prelude.{◌≡◌, IfOk};
ghost use Rattle.mq_ir.specs.Partitions.{cell_at};
ghost use Rattle.mq_ir.specs.Unfolding.{model_of};
ghost use Rattle.mq_cells.specs.Columns.{no_results};
ghost use Rattle.mq_ir.specs.Ready.{IsReady};
ghost use Rattle.mq_auto.specs.Meaning.{HoldsValues, IfDone, verdict_on};

use crate::finding::ByReads;
use crate::judging::judge;
use crate::verdict::Verdict;
use crate::walking::walk_rounds;
use mq_cells::Cells;
use mq_ir::{Model, PartInput};
use mq_refs::refs_order;
use mq_values::Memory;
use std::alloc::Global;

/// What a model in automatic order makes of a partition. `cells` has the partition's input and no results. After `Done`
/// its results are the automatic values at exactly the assigned measures; `Broken` comes exactly where the input or the
/// shape has a fault or there is a CYCLE (docs/MEANING.md, "Automatic order"). After `Broken` or `Memory` the results
/// are in no stated state. `Memory` is the only error.
pub fn compute<C: Cells>(
    alloc: Global,
    m: &Model<'_>,
    p: &PartInput,
    cells: &mut C,
) -> Result<Verdict, Memory>
    requires ready { IsReady m.now.part.now p.now }
    requires input { C.input cells.old ≡ cell_at p.now.cells }
    requires empty { C.results cells.old ≡ no_results }
    ensures verdict { IfOk result (λ v. v ≡ verdict_on (model_of m.now) p.now) }
    ensures values { IfOk result (λ v. IfDone v (λ s. HoldsValues (model_of m.now) s p.now.cells (C.input cells.new) (C.results cells.new))) }
    ensures same_input { C.input cells.new ≡ C.input cells.old }
{
    let judged = judge(alloc, m, p)?;
    match judged {
        Ok(found) => {
            walk_rounds(alloc, m, &found, refs_order(m), &ByReads, cells)?;
            Ok(Verdict::Done(found.shape))
        }
        Err(fault) => Ok(Verdict::Broken(fault)),
    }
}
