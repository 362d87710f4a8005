//! The measures that moved from one input to another.
ghost use Rattle.std.specs.Prelude.{◌≡◌, ◌≤◌, ◌||◌, IfOk, OnOk};
ghost use Rattle.std.specs.List.Sorted.{IsStrictlySortedBy};
ghost use Rattle.std.specs.Map.{keys_of};
ghost use Rattle.mq_values.specs.Order.{cmp_key};
ghost use Rattle.mq_ir.specs.declared.query.CellName.{CellName};
ghost use Rattle.mq_delta_cells.specs.Changes.{has_moved};
ghost use Rattle.mq_delta_cells.specs.Seeds.{is_moved};
ghost use Rattle.mq_kept.specs.Moved as spec;
ghost use Rattle.mq_kept.specs.Moved.{moves_at};

use mq_cells::find_measures;
use mq_ir::CellName;
use mq_values::{Key, Memory, Value, cmp_total};
use std::alloc::Global;

/// The measures that stand in both inputs with different values. Both ascend by their tuples, each once. `Memory` comes too where a
/// cell has more measures than a `u32` can number.
pub fn moved_between(
    alloc: Global,
    before: &[(Key, Key)],
    after: &[(Key, Key)],
) -> Result<Vec<CellName>, Memory>
    requires before { IsStrictlySortedBy cmp_key (keys_of before.now) }
    requires after { IsStrictlySortedBy cmp_key (keys_of after.now) }
    ensures { IfOk result (λ moved. (c : CellName) → is_moved moved.items c ≡ has_moved before.now after.now c) }
{
    let mut moved = Vec::new(alloc);
    'cells: for cell in after {
        match find_measures(before, true, cell.0.as_slice()) {
            Some(were) => add_moved(&cell.0, were, &cell.1, &mut moved)?,
            None => {}
        }
    }
    Ok(moved)
}

// Adds the measures of the cell at this key whose values differ.
fn add_moved(key: &Key, were: &Key, are: &Key, moved: &mut Vec<CellName>) -> Result<(), Memory>
    ensures { OnOk result ((c : CellName) →
        is_moved moved.new.items c ≡ (is_moved moved.old.items c || moves_at key.now were.now are.now c)) }
{
    let were = were.as_slice();
    let are = are.as_slice();
    let Ok(count) = u32::try_from(longer(were.len(), are.len())) else {
        return Err(Memory);
    };
    'measures: for measure in 0..count {
        if is_other(were, are, measure) {
            let key = key.copy()?;
            moved.push(CellName { key, measure })?;
        }
    }
    Ok(())
}

fn longer(a: usize, b: usize) -> usize
    ensures a { a ≤ result }
    ensures b { b ≤ result }
{
    if a < b { b } else { a }
}

// Whether the values of a measure differ; null stands behind the end.
fn is_other(were: &[Value], are: &[Value], measure: u32) -> bool
    ensures { result ≡ spec.is_other were.now are.now measure }
{
    match (were.get(measure as usize), are.get(measure as usize)) {
        (Some(was), Some(is)) => cmp_total(was, is).is_ne(),
        (Some(was), None) => cmp_total(was, &Value::Null).is_ne(),
        (None, Some(is)) => cmp_total(&Value::Null, is).is_ne(),
        (None, None) => false,
    }
}
