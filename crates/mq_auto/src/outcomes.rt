//! What the rules make of a partition.
ghost use Rattle.std.specs.Prelude.{◌≡◌, IfOk};
ghost use Rattle.std.specs.Map as map;
ghost use Rattle.mq_ir.specs.Automatic.{automatic};
ghost use Rattle.mq_ir.specs.Shape as spec;
ghost use Rattle.mq_ir.specs.Unfolding.{model_of};
ghost use Rattle.mq_ir.specs.Ready.{IsReady};

use crate::computing::compute;
use crate::input_keys::{each_once, keys_of};
use crate::results::result_of;
use crate::verdict::Verdict;
use mq_cells::PlainCells;
use mq_ir::{Model, PartInput, PartResult, PartShape};
use mq_values::{Items, Key, Memory};
use std::alloc::Global;

/// What a model in automatic order makes of a partition: its shape, and its cells or the first fault (docs/MEANING.md,
/// "Automatic order"). After a fault of the input or the shape, or a CYCLE, the shape has the distinct keys of the input
/// as its input keys and its cells, and no assignments. `Memory` is the only error.
pub fn run_auto(
    alloc: Global,
    m: &Model<'_>,
    p: &PartInput,
) -> Result<(PartShape, PartResult), Memory>
    requires ready { IsReady m.now.part.now p.now }
    ensures exact { IfOk result (λ r. r ≡ automatic (model_of m.now) p.now) }
{
    let mut cells = PlainCells::new(alloc, p)?;
    let verdict = compute(alloc, m, p, &mut cells)?;
    match verdict {
        Verdict::Done(shape) => {
            let result = result_of(alloc, m, &p.key, &shape, &mut cells)?;
            Ok((shape, result))
        }
        Verdict::Broken(fault) => {
            let shape = bare_shape(alloc, p.cells.as_slice())?;
            Ok((shape, PartResult::Fault(fault)))
        }
    }
}

// The shape of these cells in which nothing is assigned.
fn bare_shape(alloc: Global, cells: &[(Key, Key)]) -> Result<PartShape, Memory>
    ensures { IfOk result (λ s. s ≡ spec.bare_shape (map.keys_of cells.now)) }
{
    let keys = keys_of(alloc, cells)?;
    let base = each_once(alloc, keys.as_slice())?;
    let cells = each_once(alloc, keys.as_slice())?;
    Ok(PartShape {
        base,
        cells,
        assigned: Items::new(alloc),
    })
}
