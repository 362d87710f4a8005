//! Calls of a store, one after the other.
ghost use Rattle.std.specs.Prelude.{◌≡◌, ◌++◌, IfOk, OnOk};
ghost use Rattle.mq_cells.specs.Replays.{looks_after, looks_by, replayed, results_by, slots_by};

use crate::cells::Cells;
use crate::slots::copy_slot;
use mq_ir::{CellName, Slot};
use mq_values::Memory;
use std::alloc::Global;

/// A call of a store of cells (docs/MEANING.md, "Stores of cells").
#[derive(Drop)]
pub enum CellCall {
    /// Reads what stands at a measure.
    Get(CellName),

    /// Puts a slot at a measure.
    Put(CellName, Slot),

    /// Takes away the result at a measure.
    Clear(CellName),
}

/// Makes these calls, in their order. Out come the slots that were read; the input stays. After `Memory` the calls up to some
/// one were made.
pub fn replay<C: Cells>(
    alloc: Global,
    calls: &[CellCall],
    cells: &mut C,
) -> Result<Vec<Slot>, Memory>
    ensures slots { IfOk result (λ slots. slots.items ≡ (replayed (C.input cells.old) (C.results cells.old) calls.now).0) }
    ensures results { OnOk result (C.results cells.new ≡ (replayed (C.input cells.old) (C.results cells.old) calls.now).1) }
    ensures looks { OnOk result (C.looks cells.new ≡ looks_after (C.looks cells.old) calls.now) }
    ensures same_input { C.input cells.new ≡ C.input cells.old }
{
    let mut slots = Vec::new(alloc);
    for call in calls {
        make(alloc, call, cells, &mut slots)?;
    }
    Ok(slots)
}

// Makes one call; a slot that it reads goes behind the others.
fn make<C: Cells>(
    alloc: Global,
    call: &CellCall,
    cells: &mut C,
    slots: &mut Vec<Slot>,
) -> Result<(), Memory>
    ensures slots { OnOk result (slots.new.items ≡ slots.old.items ++ slots_by (C.input cells.old) (C.results cells.old) call.now) }
    ensures results { OnOk result (C.results cells.new ≡ results_by (C.results cells.old) call.now) }
    ensures looks { OnOk result (C.looks cells.new ≡ looks_by (C.looks cells.old) call.now) }
    ensures same_input { C.input cells.new ≡ C.input cells.old }
{
    match call {
        CellCall::Get(name) => slots.push(cells.get(alloc, &name.key, name.measure)?)?,
        CellCall::Put(name, slot) => cells.put(&name.key, name.measure, copy_slot(slot)?)?,
        CellCall::Clear(name) => cells.clear(&name.key, name.measure),
    }
    Ok(())
}
