//! The cells of a result.
ghost use Rattle.std.specs.Prelude.{◌≡◌, length, map, IfOk};
ghost use Rattle.std.specs.List.{range_with_len};
ghost use Rattle.mq_ir.specs.Automatic.{slot_cell};
ghost use Rattle.mq_ir.specs.Slots as spec;
ghost use Rattle.mq_ir.specs.Unfolding.{model_of};
ghost use Rattle.mq_cells.specs.Stores.{cell_name, slot_at};
ghost use Rattle.mq_auto.specs.Findings.{AreUpdated};

use mq_cells::Cells;
use mq_ir::{Model, OutCell, PartShape, Slot};
use mq_values::{Items, Key, KeySet, Memory, Value};
use std::alloc::Global;

/// The cells of a shape with the values that stand in `cells`; where no value stands, with null. `Memory` comes too where
/// there are more measures than a `u32` can number.
pub fn rows<C: Cells>(
    alloc: Global,
    m: &Model<'_>,
    s: &PartShape,
    cells: &mut C,
) -> Result<Items<OutCell>, Memory>
    ensures exact { IfOk result (λ rows. rows ≡ map (slot_cell (model_of m.now) s.now (slot_at (C.input cells.old) (C.results cells.old))) s.now.cells) }
    ensures same_input { C.input cells.new ≡ C.input cells.old }
    ensures same_results { C.results cells.new ≡ C.results cells.old }
{
    let updated = updated_keys(alloc, s.assigned.as_slice())?;
    let mut rows = Items::with_room(alloc, s.cells.len());
    'listing: for key in s.cells.as_slice() {
        let cell = out_cell(alloc, m, s, &updated, key, cells)?;
        rows.push(cell)?;
    }
    Ok(rows)
}

// A cell with its values.
fn out_cell<C: Cells>(
    alloc: Global,
    m: &Model<'_>,
    s: &PartShape,
    updated: &KeySet,
    key: &Key,
    cells: &mut C,
) -> Result<OutCell, Memory>
    requires { AreUpdated s.now.assigned updated.now }
    ensures exact { IfOk result (λ cell. cell ≡ slot_cell (model_of m.now) s.now (slot_at (C.input cells.old) (C.results cells.old)) key.now) }
    ensures same_input { C.input cells.new ≡ C.input cells.old }
    ensures same_results { C.results cells.new ≡ C.results cells.old }
{
    let count = measure_count(m)?;
    let updated = updated.has(key);
    let measures = measures_of(alloc, count, key, cells)?;
    Ok(OutCell {
        key: key.copy()?,
        measures,
        updated,
    })
}

/// How many measures a model has. `Memory` comes where a `u32` can't number them.
pub fn measure_count(m: &Model<'_>) -> Result<u32, Memory>
    ensures { IfOk result (λ count. count ≡ length (model_of m.now).part.measures) }
{
    match u32::try_from(m.part.measures.len()) {
        Ok(count) => Ok(count),
        Err(_) => Err(Memory),
    }
}

// A new tuple of so many measures of the cell at `key`.
fn measures_of<C: Cells>(alloc: Global, count: u32, key: &Key, cells: &mut C) -> Result<Key, Memory>
    ensures exact { IfOk result (λ values. values
        ≡ map (λ n. spec.done_value (slot_at (C.input cells.old) (C.results cells.old) (cell_name key.now n))) (range_with_len 0 count)) }
    ensures same_input { C.input cells.new ≡ C.input cells.old }
    ensures same_results { C.results cells.new ≡ C.results cells.old }
{
    if count == 1 {
        let slot = cells.get(alloc, key, 0)?;
        return Key::one(alloc, done_value(slot));
    }
    Key::new(alloc, measures_at(alloc, count, key, cells)?)
}

// The values of so many measures of the cell at `key`.
fn measures_at<C: Cells>(
    alloc: Global,
    count: u32,
    key: &Key,
    cells: &mut C,
) -> Result<Items<Value>, Memory>
    ensures exact { IfOk result (λ values. values
        ≡ map (λ n. spec.done_value (slot_at (C.input cells.old) (C.results cells.old) (cell_name key.now n))) (range_with_len 0 count)) }
    ensures same_input { C.input cells.new ≡ C.input cells.old }
    ensures same_results { C.results cells.new ≡ C.results cells.old }
{
    let mut values = Items::with_room(alloc, count as usize);
    'measures: for measure in 0..count {
        let slot = cells.get(alloc, key, measure)?;
        values.push(done_value(slot))?;
    }
    Ok(values)
}

// The value of a slot, or null where it has none.
fn done_value(slot: Slot) -> Value
    ensures { result ≡ spec.done_value slot }
{
    match slot {
        Slot::Done(v) => v,
        _ => Value::Null,
    }
}

/// The cells of which a measure is assigned.
pub fn updated_keys(alloc: Global, assigned: &[(Key, u32, u32)]) -> Result<KeySet, Memory>
    ensures { IfOk result (λ set. AreUpdated assigned.now set) }
{
    let mut set = KeySet::new(alloc);
    'marking: for assignment in assigned {
        set.put(assignment.0.copy()?)?;
    }
    Ok(set)
}
