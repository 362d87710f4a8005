//! The result of a partition from what stands in a store.
ghost use Rattle.std.specs.Prelude.{◌≡◌, ◌≤◌, true, Some, length, slice_get, IfOk};
ghost use Rattle.mq_ir.specs.Automatic.{slots_in};
ghost use Rattle.mq_ir.specs.declared.query.Slot.TheVariants.{Faulted};
ghost use Rattle.mq_ir.specs.Partitions.{Cells};
ghost use Rattle.mq_ir.specs.Unfolding.{model_of};
ghost use Rattle.mq_cells.specs.Stores.{first_faulted, is_faulted, slot_at};
ghost use Rattle.mq_auto.specs.Meaning.{HoldsValues, result_with};
ghost use Rattle.mq_auto.specs.Findings.{faulted_at};

use crate::rows::rows;
use mq_cells::{Cells, MAX_ASSIGNMENTS};
use mq_ir::{Model, PartResult, PartShape, PlacedFault, Slot, kind_of};
use mq_values::{Key, Memory, ValueFault};
use std::alloc::Global;

/// The result of the partition at `key`, of which `cells` holds the slots: the fault that is the least by its rule and
/// then its cell, or, where none is, all cells of the shape with their values, those with an assignment as updated ones
/// (clause `exact`). Where `cells` holds the automatic values, as `compute` leaves them, it is that of the automatic
/// order (clause `automatic`; docs/MEANING.md, "Automatic order"). `Memory` is the only error; it comes too where there
/// are more assignments or measures than a `u32` can number.
pub fn result_of<C: Cells>(
    alloc: Global,
    m: &Model<'_>,
    key: &Key,
    s: &PartShape,
    cells: &mut C,
) -> Result<PartResult, Memory>
    ensures exact { IfOk result (λ r. r ≡ result_with (model_of m.now) key.now s.now (slot_at (C.input cells.old) (C.results cells.old))) }
    ensures automatic { (input : Cells) → HoldsValues (model_of m.now) s.now input (C.input cells.old) (C.results cells.old)
        → IfOk result (λ r. r ≡ result_with (model_of m.now) key.now s.now (slots_in (model_of m.now) s.now input)) }
    ensures same_input { C.input cells.new ≡ C.input cells.old }
    ensures same_results { C.results cells.new ≡ C.results cells.old }
{
    if s.assigned.len() > MAX_ASSIGNMENTS {
        return Err(Memory);
    }
    match cells.first_fault(s) {
        Some(at) => fault_at(alloc, key, s, at, cells),
        None => Ok(PartResult::Rows(rows(alloc, m, s, cells)?)),
    }
}

/// The fault that stands at the measure of the assignment with this number, which is the first fault.
pub fn fault_at<C: Cells>(
    alloc: Global,
    key: &Key,
    s: &PartShape,
    at: u32,
    cells: &mut C,
) -> Result<PartResult, Memory>
    requires { first_faulted (C.results cells.old) s.now.assigned ≡ Some at }
    ensures exact { IfOk result (λ r. Some r ≡ faulted_at key.now (slot_at (C.input cells.old) (C.results cells.old)) (slice_get s.now.assigned at)) }
    ensures same_input { C.input cells.new ≡ C.input cells.old }
    ensures same_results { C.results cells.new ≡ C.results cells.old }
{
    let assigned = s.assigned.as_slice();
    let assignment = &assigned[at as usize];
    let slot = cells.get(alloc, &assignment.0, assignment.1)?;
    let fault = fault_of(slot);
    let partition = key.copy()?;
    let cell = assignment.0.copy()?;
    let placed = PlacedFault::new(assignment.2, cell, kind_of(fault));
    Ok(PartResult::Fault(placed.at_partition(partition)))
}

// The fault of a slot that is one.
fn fault_of(slot: Slot) -> ValueFault
    requires { is_faulted (Some slot) ≡ true }
    ensures { slot ≡ Faulted result }
{
    match slot {
        Slot::Faulted(fault) => fault,
        _ => unreachable!(),
    }
}
