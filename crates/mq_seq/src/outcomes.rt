//! What the rules make of a partition.
ghost use Rattle.std.specs.Prelude.{◌≡◌, length, IfOk};
ghost use Rattle.std.specs.List.Sorted.{IsStrictlySortedBy};
ghost use Rattle.std.specs.Map.{keys_of};
ghost use Rattle.mq_values.specs.Answers.{Gives};
ghost use Rattle.mq_values.specs.Order.{cmp_key};
ghost use Rattle.mq_ir.specs.Iteration.{sequential};
ghost use Rattle.mq_values.specs.declared.memory.Fail.TheVariants as fail;
ghost use Rattle.mq_ir.specs.Placed.{placed_fault};
ghost use Rattle.mq_ir.specs.Unfolding.{model_of};
ghost use Rattle.mq_ir.specs.Ready.{HaveLength, IsReady, LeftsHavePlaces};
ghost use Rattle.mq_seq.specs.Outcomes.{rows_left, rows_over};

use crate::grid::Grid;
use crate::turns::take_turns;
use mq_ir::{Model, OutCell, PartInput, PartResult, PlacedFault};
use mq_values::{Fail, FaultKind, Items, Key, MAX_CELLS_OF_PARTITION, Memory};
use std::alloc::Global;

/// What a model in sequential order makes of a partition: its cells after the rules, each with whether it was a target,
/// or the first fault (docs/MEANING.md, "Sequential order"). `Memory` is the only error.
pub fn run_seq(alloc: Global, m: &Model<'_>, p: &PartInput) -> Result<PartResult, Memory>
    requires ready { IsReady m.now.part.now p.now }
    ensures exact { IfOk result (λ r. r ≡ sequential (model_of m.now) p.now) }
{
    match cells_left(alloc, m, p) {
        Ok(rows) => Ok(PartResult::Rows(rows)),
        Err(Fail::Cause(fault)) => Ok(PartResult::Fault(fault.at_partition(p.key.copy()?))),
        Err(Fail::Memory) => Err(Memory),
    }
}

// The cells that the rules leave.
fn cells_left(
    alloc: Global,
    m: &Model<'_>,
    p: &PartInput,
) -> Result<Items<OutCell>, Fail<PlacedFault>>
    requires ready { IsReady m.now.part.now p.now }
    ensures { Gives result (rows_left (model_of m.now) p.now) }
{
    if let Some(key) = &p.repeated {
        return Err(fault_of(key.copy()?, FaultKind::NotUnique));
    }
    if p.cells.len() > MAX_CELLS_OF_PARTITION {
        return Err(fault_of(Key::empty(), FaultKind::TooManyCells));
    }
    cells_after(alloc, m, p)
}

// The cells that the rules leave of those of the input.
fn cells_after(
    alloc: Global,
    m: &Model<'_>,
    p: &PartInput,
) -> Result<Items<OutCell>, Fail<PlacedFault>>
    requires lefts { LeftsHavePlaces m.now.part.now }
    requires wide { HaveLength (length m.now.part.now.dims) (keys_of p.now.cells) }
    requires ascend { IsStrictlySortedBy cmp_key (keys_of p.now.cells) }
    ensures { Gives result (rows_over (model_of m.now) p.now.cells) }
{
    let grid = Grid::new(alloc, m.part.dims.len(), m.part.measures.len(), p)?;
    let grid = take_turns(alloc, m, grid)?;
    Ok(grid.rows(alloc)?)
}

// A fault of no rule.
fn fault_of(cell: Key, kind: FaultKind) -> Fail<PlacedFault>
    ensures { result ≡ fail.Cause (placed_fault 0 cell kind) }
{
    Fail::Cause(PlacedFault::new(0, cell, kind))
}
