//! What a model makes of a partition.
ghost use Rattle.std.specs.Prelude.{◌≡◌, IfOk};
ghost use Rattle.mq_ir.specs.Answer.{result_in};
ghost use Rattle.mq_ir.specs.Unfolding.{model_of};
ghost use Rattle.mq_ir.specs.Ready.{IsReady};

use mq_auto::{AutoRunner, Finder};
use mq_cells::IndexedCells;
use mq_ir::{Model, PartInput, PartResult};
use mq_seq::run_seq;
use mq_values::Memory;
use std::alloc::Global;

/// What the rules of a model make of a partition, in automatic or sequential order as the model says: its cells, or the
/// first fault (docs/MEANING.md, "Answers"). Where the order is automatic, the runner runs the model over its partitions, and the
/// finder finds their values. `Memory` is the only error.
pub fn result_of<F: Finder<IndexedCells>>(
    alloc: Global,
    m: &Model<'_>,
    p: &PartInput,
    runner: &mut AutoRunner<'_>,
    finder: &F,
) -> Result<PartResult, Memory>
    requires ready { IsReady m.now.part.now p.now }
    requires finder { F.is_ready finder.now }
    requires runner { runner.old ≡ model_of m.now }
    ensures exact { IfOk result (λ r. r ≡ result_in (model_of m.now) p.now) }
    ensures same { runner.new ≡ runner.old }
{
    if m.part.auto {
        runner.run(alloc, p, finder)
    } else {
        run_seq(alloc, m, p)
    }
}
