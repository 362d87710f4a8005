//! The result of a partition whose store is owned.
ghost use Rattle.std.specs.Prelude.{◌≡◌, ◌≤◌, ℕ, false, None, length, map, IfOk};
ghost use Rattle.std.specs.List.{list_any, range_with_len};
ghost use Rattle.mq_ir.specs.Automatic as spec;
ghost use Rattle.mq_ir.specs.Automatic.{slot_cell};
ghost use Rattle.mq_ir.specs.Keys.{is_same};
ghost use Rattle.mq_ir.specs.Unfolding.{model_of};
ghost use Rattle.mq_cells.specs.IndexedStores.{input_in, results_of, slots_in, value_in};
ghost use Rattle.mq_cells.specs.Stores.{cell_name};
ghost use Rattle.mq_cells.specs.declared.bounds.TheConstants.{MAX_ASSIGNMENTS};
ghost use Rattle.mq_auto.specs.Findings.{AreUpdated, StandsNowhere, StandWhereAssigned};
ghost use Rattle.mq_auto.specs.Meaning.{HoldsValues, result_with};

use crate::results::fault_at;
use crate::rows::{measure_count, updated_keys};
use mq_cells::{Cells, IndexedCells};
use mq_ir::{Model, OutCell, PartInput, PartResult, PartShape};
use mq_values::{Items, Key, KeySet, Memory, Value};
use std::alloc::Global;

/// The result of a partition whose store holds its automatic values: the first fault, or all cells of the shape with their
/// values. A cell of which nothing is assigned shares the tuple of the input's measures.
pub fn stored_result(
    alloc: Global,
    m: &Model<'_>,
    p: &PartInput,
    s: &PartShape,
    cells: &mut IndexedCells,
) -> Result<PartResult, Memory>
    requires few { length s.now.assigned ≤ MAX_ASSIGNMENTS }
    requires held { HoldsValues (model_of m.now) s.now p.now.cells (input_in cells.old) (results_of cells.old) }
    ensures exact { IfOk result (λ r. r ≡ result_with (model_of m.now) p.now.key s.now (spec.slots_in (model_of m.now) s.now p.now.cells)) }
    ensures same_input { input_in cells.new ≡ input_in cells.old }
    ensures same_results { results_of cells.new ≡ results_of cells.old }
{
    match cells.first_fault(s) {
        Some(at) => fault_at(alloc, &p.key, s, at, cells),
        None => Ok(PartResult::Rows(stored_rows(alloc, m, s, cells)?)),
    }
}

// The cells of a shape with the values that a store has. Nothing stands where nothing is assigned.
fn stored_rows(
    alloc: Global,
    m: &Model<'_>,
    s: &PartShape,
    cells: &IndexedCells,
) -> Result<Items<OutCell>, Memory>
    requires { StandWhereAssigned s.now.assigned (results_of cells.now) }
    ensures { IfOk result (λ rows. rows ≡ map (slot_cell (model_of m.now) s.now (slots_in cells.now)) s.now.cells) }
{
    let updated = updated_keys(alloc, s.assigned.as_slice())?;
    let mut rows = Items::with_room(alloc, s.cells.len());
    // Cells come in the order of the store's, so most are found beside the last one.
    let mut near = 0;
    'listing: for key in s.cells.as_slice() {
        let cell = stored_cell(alloc, m, s, &updated, key, &mut near, cells)?;
        rows.push(cell)?;
    }
    Ok(rows)
}

// A cell with its values.
fn stored_cell(
    alloc: Global,
    m: &Model<'_>,
    s: &PartShape,
    updated: &KeySet,
    key: &Key,
    near: &mut u32,
    cells: &IndexedCells,
) -> Result<OutCell, Memory>
    requires updated { AreUpdated s.now.assigned updated.now }
    requires standing { StandWhereAssigned s.now.assigned (results_of cells.now) }
    ensures { IfOk result (λ cell. cell ≡ slot_cell (model_of m.now) s.now (slots_in cells.now) key.now) }
{
    let count = measure_count(m)?;
    let updated = updated.has(key);
    let measures = stored_measures(alloc, count, key, updated, near, cells)?;
    Ok(OutCell {
        key: key.copy()?,
        measures,
        updated,
    })
}

// The tuple of so many measures of the cell at `key`. Where none is assigned, that of the input mostly serves as it is.
fn stored_measures(
    alloc: Global,
    count: u32,
    key: &Key,
    is_assigned: bool,
    near: &mut u32,
    cells: &IndexedCells,
) -> Result<Key, Memory>
    requires { is_assigned ≡ false → StandsNowhere (results_of cells.now) key.now }
    ensures { IfOk result (λ values. values ≡ map (λ n. value_in cells.now (cell_name key.now n)) (range_with_len 0 count)) }
{
    if !is_assigned {
        if let Some(measures) = cells.given(key.as_slice()) {
            let is_whole = measures.as_slice().len() == count as usize;
            if is_whole {
                return measures.copy();
            }
        }
    }
    made_measures(alloc, count, key, near, cells)
}

// A new tuple of so many measures of the cell at `key`.
fn made_measures(
    alloc: Global,
    count: u32,
    key: &Key,
    near: &mut u32,
    cells: &IndexedCells,
) -> Result<Key, Memory>
    ensures { IfOk result (λ values. values ≡ map (λ n. value_in cells.now (cell_name key.now n)) (range_with_len 0 count)) }
{
    if count == 1 {
        let v = cells.value_near(key.as_slice(), 0, near)?;
        return Key::one(alloc, v);
    }
    Key::new(alloc, values_of(alloc, count, key, near, cells)?)
}

// The values of so many measures of the cell at `key`.
fn values_of(
    alloc: Global,
    count: u32,
    key: &Key,
    near: &mut u32,
    cells: &IndexedCells,
) -> Result<Items<Value>, Memory>
    ensures { IfOk result (λ values. values ≡ map (λ n. value_in cells.now (cell_name key.now n)) (range_with_len 0 count)) }
{
    let mut values = Items::with_room(alloc, count as usize);
    'measures: for measure in 0..count {
        values.push(cells.value_near(key.as_slice(), measure, near)?)?;
    }
    Ok(values)
}
