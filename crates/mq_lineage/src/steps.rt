//! The steps of a derivation.
ghost use Rattle.std.specs.Prelude.{◌≡◌, map, IfOk};
ghost use Rattle.mq_cells.specs.IndexedStores.{input_in, slots_in};
ghost use Rattle.mq_cells.specs.Stores.{input_value, slot_at};
ghost use Rattle.mq_lineage.specs.Told.{step_told};

use crate::naming::{Told, copy_name};
use mq_cells::{Cells, Held, IndexedCells, copy_slot};
use mq_ir::{CellName, DerivationStep, Slot};
use mq_values::{Items, Memory, Value};
use std::alloc::Global;

/// A step for each of these measures, with its rule and what stands there.
pub fn steps_of<C: Cells>(
    alloc: Global,
    told: &[Told],
    cells: &mut C,
) -> Result<Items<DerivationStep>, Memory>
    ensures steps { IfOk result (λ steps. steps ≡ map (step_told (slot_at (C.input cells.old) (C.results cells.old))) told.now) }
    ensures same_input { C.input cells.new ≡ C.input cells.old }
    ensures same_results { C.results cells.new ≡ C.results cells.old }
{
    let mut steps = Items::with_room(alloc, told.len());
    'steps: for each in told {
        let slot = cells.get(alloc, &each.0.key, each.0.measure)?;
        steps.push(step_of(each, slot)?)?;
    }
    Ok(steps)
}

/// The same over a store that is lent. What is read of it is not counted.
pub fn lent_steps_of(
    alloc: Global,
    told: &[Told],
    cells: &IndexedCells,
) -> Result<Items<DerivationStep>, Memory>
    ensures { IfOk result (λ steps. steps ≡ map (step_told (slots_in cells.now)) told.now) }
{
    let mut steps = Items::with_room(alloc, told.len());
    'steps: for each in told {
        let slot = slot_in(cells, &each.0)?;
        steps.push(step_of(each, slot)?)?;
    }
    Ok(steps)
}

// The step of a measure at which this slot stands.
fn step_of(told: &Told, slot: Slot) -> Result<DerivationStep, Memory>
    ensures { IfOk result (λ step. step ≡ record { name = told.now.0; rule = told.now.1; slot = slot }) }
{
    Ok(DerivationStep {
        name: copy_name(&told.0)?,
        rule: told.1,
        slot,
    })
}

// What stands at a measure: the result where one stands, else what the input has.
fn slot_in(cells: &IndexedCells, name: &CellName) -> Result<Slot, Memory>
    ensures { IfOk result (λ slot. slot ≡ slots_in cells.now name.now) }
{
    match cells.result(&name.key, name.measure) {
        Some(slot) => copy_slot(slot),
        None => Ok(Slot::Done(given_in(cells, name)?)),
    }
}

// What the input has at a measure; null where it does not have the cell.
fn given_in(cells: &IndexedCells, name: &CellName) -> Result<Value, Memory>
    ensures { IfOk result (λ v. v ≡ input_value (input_in cells.now) name.now) }
{
    let Some(measures) = cells.given(name.key.as_slice()) else {
        return Ok(Value::Null);
    };
    match measures.as_slice().get(name.measure as usize) {
        Some(v) => v.copy(),
        None => Ok(Value::Null),
    }
}
