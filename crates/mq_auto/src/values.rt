//! The automatic values of a partition whose shape is known.
ghost use Rattle.std.specs.Prelude.{◌≡◌, IfOk};
ghost use Rattle.mq_ir.specs.Unfolding.{model_of};
ghost use Rattle.mq_cells.specs.IndexedStores.{input_in, results_of};
ghost use Rattle.mq_refs.specs.Orders.{IsOrderOf};
ghost use Rattle.mq_auto.specs.Findings.{IsLevelled};
ghost use Rattle.mq_auto.specs.Meaning.{HoldsValues};

use crate::finding::Finder;
use crate::walking::walk_rounds;
use mq_auto_shape::IndexedShape;
use mq_cells::IndexedCells;
use mq_dim_index::DimIndex;
use mq_ir::{Model, PartInput};
use mq_refs::RefsOrder;
use mq_values::{Key, Memory};
use std::alloc::Global;

/// A store of a partition with its automatic values, by its shape, as `judge` finds it. A shape sees no value of a cell, so one
/// serves for every partition with cells at its keys (docs/MEANING.md, "Automatic order"). `refs` says whether the cells of the
/// references are known to ascend, `finder` how the slots of targets are found. `Memory` is the only error.
pub fn values_over<F: Finder<IndexedCells>>(
    alloc: Global,
    m: &Model<'_>,
    p: &PartInput,
    found: &IndexedShape,
    refs: RefsOrder,
    finder: &F,
) -> Result<IndexedCells, Memory>
    requires levelled { IsLevelled (model_of m.now) found.now }
    requires refs { IsOrderOf refs m.now }
    requires finder { F.is_ready finder.now }
    ensures { IfOk result (λ cells. HoldsValues (model_of m.now) found.now.shape p.now.cells (input_in cells) (results_of cells)) }
{
    let mut cells = IndexedCells::new(alloc, p)?;
    add_created(found, &mut cells)?;
    walk_rounds(alloc, m, found, refs, finder, &mut cells)?;
    Ok(cells)
}

// Adds the cells of a shape that its input does not have, so that the places of the store's cells are those of the shape's.
fn add_created(found: &IndexedShape, cells: &mut IndexedCells) -> Result<(), Memory>
    ensures same_input { input_in cells.new ≡ input_in cells.old }
    ensures same_results { results_of cells.new ≡ results_of cells.old }
{
    if found.base.len() == found.cells.len() {
        return Ok(());
    }
    let mut near = 0;
    'adding: for key in found.cells.keys() {
        add_if_absent(&found.base, key, &mut near, cells)?;
    }
    Ok(())
}

// Adds a cell where it is not among those of the input.
fn add_if_absent(
    base: &DimIndex,
    key: &Key,
    near: &mut u32,
    cells: &mut IndexedCells,
) -> Result<(), Memory>
    ensures same_input { input_in cells.new ≡ input_in cells.old }
    ensures same_results { results_of cells.new ≡ results_of cells.old }
{
    match base.place_near(key.as_slice(), *near) {
        Some(place) => {
            *near = place;
            Ok(())
        }
        None => cells.add(key.copy()?),
    }
}
