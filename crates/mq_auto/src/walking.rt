//! The values of assignments, round by round.
ghost use Rattle.std.specs.Prelude.{◌≡◌, ◌<◌, ◌-◌, ℕ, Some, length, map, slice_get, OnOk};
ghost use Rattle.std.specs.List.{All};
ghost use Rattle.mq_ir.specs.declared.query.Rule.{Rule};
ghost use Rattle.mq_ir.specs.declared.query.CellName.{CellName};
ghost use Rattle.mq_ir.specs.Partitions.{Cells, cell_at};
ghost use Rattle.mq_ir.specs.Unfolding.{model_of};
ghost use Rattle.mq_cells.specs.Columns.{no_results};
ghost use Rattle.mq_cells.specs.Stores.{slot_at};
ghost use Rattle.mq_refs.specs.Orders.{IsOrderOf};
ghost use Rattle.mq_auto_shape.specs.Found.{IsRuled};
ghost use Rattle.mq_auto.specs.Findings.{IsLevelled};
ghost use Rattle.mq_auto.specs.Meaning.{result_at};
ghost use Rattle.mq_auto.specs.Walks.{AreFoundAt, AreOwn, AreRuled, IsAtWork, IsFoundAt, IsPut, IsPutAt, IsSlotOver, model_in};

use crate::finding::Finder;
use crate::work::Work;
use mq_auto_shape::{IndexedShape, rule_numbered};
use mq_cells::Cells;
use mq_ir::{Model, Slot, steps_read_their_looks};
use mq_refs::{RefsOrder, ShapeKeys};
use mq_values::{Items, Key, Memory};
use std::alloc::Global;

/// Finds the slots of all assignments of a shape, round by round: each looks at none but those of earlier rounds and at the
/// input. `refs` says whether the cells of the references are known to ascend.
pub fn walk_rounds<C: Cells, F: Finder<C>>(
    alloc: Global,
    m: &Model<'_>,
    found: &IndexedShape,
    refs: RefsOrder,
    finder: &F,
    cells: &mut C,
) -> Result<(), Memory>
    requires levelled { IsLevelled (model_of m.now) found.now }
    requires refs { IsOrderOf refs m.now }
    requires finder { F.is_ready finder.now }
    ensures values { OnOk result ((input : Cells) → C.input cells.old ≡ cell_at input → C.results cells.old ≡ no_results
        → (c : CellName) → C.results cells.new c ≡ result_at (model_of m.now) found.now.shape input c) }
    ensures same_input { C.input cells.new ≡ C.input cells.old }
{
    let work = Work {
        model: m,
        shape: &found.shape,
        keys: ShapeKeys {
            base: &found.base,
            cells: &found.cells,
        },
        refs,
    };
    let rounds = found.leveled.rounds.as_slice();
    'rounds: for round in rounds {
        walk_round(alloc, &work, round.as_slice(), finder, cells)?;
    }
    Ok(())
}

// The slots of the assignments at these places, which come in one round: all at once where they are found so, else one after
// another.
fn walk_round<C: Cells, F: Finder<C>>(
    alloc: Global,
    work: &Work<'_>,
    round: &[u32],
    finder: &F,
    cells: &mut C,
) -> Result<(), Memory>
    requires finder { F.is_ready finder.now }
    requires work { IsAtWork work.now }
    requires own { AreOwn work.now.shape.now }
    requires ruled { AreRuled (model_in work.now) work.now.shape.now }
    requires there { All (λ place. place < length work.now.shape.now.assigned) round.now }
    ensures found { OnOk result (AreFoundAt (model_in work.now) work.now.shape.now (C.input cells.old) (C.results cells.old) (C.results cells.new) round.now) }
    ensures same_input { C.input cells.new ≡ C.input cells.old }
{
    match finder.slots(alloc, work, round, cells)? {
        Some(found) => put_round(work, found, cells),
        None => visit_round(alloc, work, round, finder, cells),
    }
}

// Puts the slots of a round, each behind the place of its assignment, which were found over what stood before it.
fn put_round<C: Cells>(
    work: &Work<'_>,
    found: Items<(u32, Slot)>,
    cells: &mut C,
) -> Result<(), Memory>
    requires own { AreOwn work.now.shape.now }
    requires there { All (λ f. f.0 < length work.now.shape.now.assigned) found }
    requires slots { All (IsSlotOver (model_in work.now) work.now.shape.now (slot_at (C.input cells.old) (C.results cells.old))) found }
    ensures found { OnOk result (AreFoundAt (model_in work.now) work.now.shape.now (C.input cells.old) (C.results cells.old) (C.results cells.new)
        (map (λ f. f.0) found)) }
    ensures same_input { C.input cells.new ≡ C.input cells.old }
{
    steps_read_their_looks();
    'slots: for (place, slot) in found.into_vec() {
        put_at(work, place, slot, cells)?;
    }
    Ok(())
}

// Puts a slot at the measure of the assignment at a place.
fn put_at<C: Cells>(work: &Work<'_>, place: u32, slot: Slot, cells: &mut C) -> Result<(), Memory>
    requires { place < length work.now.shape.now.assigned }
    ensures put { OnOk result (IsPutAt work.now.shape.now (C.results cells.old) (C.results cells.new) place slot) }
    ensures same_input { C.input cells.new ≡ C.input cells.old }
{
    let assigned = work.shape.assigned.as_slice();
    let assignment = &assigned[place as usize];
    cells.put(&assignment.0, assignment.1, slot)
}

// The slots of the assignments at these places, one after another.
fn visit_round<C: Cells, F: Finder<C>>(
    alloc: Global,
    work: &Work<'_>,
    round: &[u32],
    finder: &F,
    cells: &mut C,
) -> Result<(), Memory>
    requires work { IsAtWork work.now }
    requires own { AreOwn work.now.shape.now }
    requires ruled { AreRuled (model_in work.now) work.now.shape.now }
    requires there { All (λ place. place < length work.now.shape.now.assigned) round.now }
    ensures found { OnOk result (AreFoundAt (model_in work.now) work.now.shape.now (C.input cells.old) (C.results cells.old) (C.results cells.new) round.now) }
    ensures same_input { C.input cells.new ≡ C.input cells.old }
{
    'places: for place in round {
        visit(alloc, work, *place, finder, cells)?;
    }
    Ok(())
}

// The slot of the assignment at a place.
fn visit<C: Cells, F: Finder<C>>(
    alloc: Global,
    work: &Work<'_>,
    place: u32,
    finder: &F,
    cells: &mut C,
) -> Result<(), Memory>
    requires work { IsAtWork work.now }
    requires own { AreOwn work.now.shape.now }
    requires ruled { AreRuled (model_in work.now) work.now.shape.now }
    requires there { place < length work.now.shape.now.assigned }
    ensures found { OnOk result (IsFoundAt (model_in work.now) work.now.shape.now (C.input cells.old) (C.results cells.old) (C.results cells.new) place) }
    ensures same_input { C.input cells.new ≡ C.input cells.old }
{
    steps_read_their_looks();
    let assigned = work.shape.assigned.as_slice();
    let assignment = &assigned[place as usize];
    assign(alloc, work, assignment, finder, cells)
}

// Puts at the measure of an assignment what its rule makes of the cell.
fn assign<C: Cells, F: Finder<C>>(
    alloc: Global,
    work: &Work<'_>,
    assignment: &(Key, u32, u32),
    finder: &F,
    cells: &mut C,
) -> Result<(), Memory>
    requires work { IsAtWork work.now }
    requires ruled { IsRuled (model_in work.now) assignment.now }
    ensures put { OnOk result ((rule : Rule) → slice_get (model_in work.now).part.rules (assignment.now.2 - 1) ≡ Some rule
        → IsPut (model_in work.now) work.now.shape.now (C.input cells.old) (C.results cells.old) (C.results cells.new) assignment.now rule) }
    ensures same_input { C.input cells.new ≡ C.input cells.old }
{
    let rule = rule_numbered(work.model, assignment.2);
    let slot = finder.slot(alloc, work, rule, &assignment.0, cells)?;
    cells.put(&assignment.0, assignment.1, slot)
}
