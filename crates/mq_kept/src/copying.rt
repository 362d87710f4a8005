//! Copies of faults and of inputs. The values of a key are shared, not copied.
ghost use Rattle.std.specs.Prelude.{◌≡◌, IfOk};

use mq_ir::PartInput;
use mq_values::{Items, Key, Memory, QueryFault};
use std::alloc::Global;

/// The same fault once more.
pub fn copy_of_fault(fault: &QueryFault) -> Result<QueryFault, Memory>
    ensures { IfOk result (λ copy. copy ≡ fault.now) }
{
    let partition = fault.partition.copy()?;
    let cell = fault.cell.copy()?;
    Ok(QueryFault {
        kind: fault.kind,
        rule: fault.rule,
        partition,
        cell,
    })
}

/// The same input once more.
pub fn copy_of_input(alloc: Global, input: &PartInput) -> Result<PartInput, Memory>
    ensures { IfOk result (λ copy. copy ≡ input.now) }
{
    let key = input.key.copy()?;
    let cells = copy_of_cells(alloc, input.cells.as_slice())?;
    let repeated = copy_of_tuple(&input.repeated)?;
    Ok(PartInput {
        key,
        cells,
        repeated,
    })
}

fn copy_of_cells(alloc: Global, cells: &[(Key, Key)]) -> Result<Items<(Key, Key)>, Memory>
    ensures { IfOk result (λ copy. copy ≡ cells.now) }
{
    let mut copy = Items::with_room(alloc, cells.len());
    for cell in cells {
        copy.push((cell.0.copy()?, cell.1.copy()?))?;
    }
    Ok(copy)
}

fn copy_of_tuple(tuple: &Option<Key>) -> Result<Option<Key>, Memory>
    ensures { IfOk result (λ copy. copy ≡ tuple.now) }
{
    match tuple {
        Some(key) => Ok(Some(key.copy()?)),
        None => Ok(None),
    }
}
