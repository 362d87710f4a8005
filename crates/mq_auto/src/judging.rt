//! What is found of a partition before its values.
ghost use Rattle.std.specs.Prelude.{◌≡◌, true, None, Ok, Err, IfOk, IfSome};
ghost use Rattle.std.specs.Map as map;
ghost use Rattle.std.specs.Option.{option_map};
ghost use Rattle.mq_ir.specs.Automatic.{shape_found};
ghost use Rattle.mq_ir.specs.Iteration as spec;
ghost use Rattle.mq_ir.specs.Placed.{at_partition};
ghost use Rattle.mq_ir.specs.Unfolding.{model_of};
ghost use Rattle.mq_ir.specs.Ready.{IsReady};
ghost use Rattle.mq_auto.specs.Findings.{IsJudged, IsLevelled};

use crate::input_keys::keys_of;
use mq_auto_shape::{IndexedShape, indexed_shape_of};
use mq_ir::{Model, PartInput, PartShape, PlacedFault};
use mq_values::{FaultKind, Key, MAX_CELLS_OF_PARTITION, Memory, QueryFault};
use std::alloc::Global;

/// The shape of a partition with the rounds of its assignments and its indexes, or the first fault of the input or the shape, or CYCLE.
/// `Memory` is the only error.
pub fn judge(
    alloc: Global,
    m: &Model<'_>,
    p: &PartInput,
) -> Result<Result<IndexedShape, QueryFault>, Memory>
    requires ready { IsReady m.now.part.now p.now }
    ensures { IfOk result (IsJudged (model_of m.now) p.now) }
{
    match input_fault(p)? {
        Some(fault) => return Ok(Err(fault)),
        None => {}
    }
    let keys = keys_of(alloc, p.cells.as_slice())?;
    let shape = indexed_shape_of(alloc, m, keys.as_slice())?;
    let key = p.key.copy()?;
    match shape {
        Ok(found) => Ok(Ok(found)),
        Err(fault) => Ok(Err(in_partition(fault, key))),
    }
}

/// The same, where a shape of the model was found before with its rounds: it serves where the input has no fault and its
/// cells are at the same keys.
pub fn judge_after(
    alloc: Global,
    m: &Model<'_>,
    p: &PartInput,
    last: Option<IndexedShape>,
) -> Result<Result<IndexedShape, QueryFault>, Memory>
    requires ready { IsReady m.now.part.now p.now }
    requires last { IfSome last (IsLevelled (model_of m.now)) }
    ensures { IfOk result (IsJudged (model_of m.now) p.now) }
{
    if let Some(found) = last {
        if serves(p, &found.shape) {
            return Ok(Ok(found));
        }
    }
    judge(alloc, m, p)
}

/// Whether a shape serves for an input: that has no fault of its own, and its cells are at the keys of the shape.
pub fn serves(p: &PartInput, shape: &PartShape) -> bool
    ensures sound { result ≡ true → spec.input_fault p.now ≡ None }
    ensures same { result ≡ true → map.keys_of p.now.cells ≡ shape.now.base }
{
    p.repeated.is_none()
        && p.cells.len() <= MAX_CELLS_OF_PARTITION
        && are_at(p.cells.as_slice(), shape.base.as_slice())
}

// Whether these cells are at these keys, one at each.
fn are_at(cells: &[(Key, Key)], keys: &[Key]) -> bool
    ensures { result ≡ true → map.keys_of cells.now ≡ keys.now }
{
    if cells.len() != keys.len() {
        return false;
    }
    for i in 0..cells.len() {
        if cells[i].0.cmp(&keys[i]).is_ne() {
            return false;
        }
    }
    true
}

// Why the rules may not begin with this input: a tuple stands twice, or there are too many cells.
fn input_fault(p: &PartInput) -> Result<Option<QueryFault>, Memory>
    ensures { IfOk result (λ fault. fault ≡ option_map (at_partition p.now.key) (spec.input_fault p.now)) }
{
    if let Some(key) = &p.repeated {
        let fault = PlacedFault::new(0, key.copy()?, FaultKind::NotUnique);
        return Ok(Some(fault.at_partition(p.key.copy()?)));
    }
    if p.cells.len() > MAX_CELLS_OF_PARTITION {
        let fault = PlacedFault::new(0, Key::empty(), FaultKind::TooManyCells);
        return Ok(Some(fault.at_partition(p.key.copy()?)));
    }
    Ok(None)
}

// The same fault, in the partition with this key.
fn in_partition(fault: QueryFault, partition: Key) -> QueryFault
    ensures { result ≡ record { kind = fault.kind; rule = fault.rule; partition = partition; cell = fault.cell } }
{
    PlacedFault::new(fault.rule, fault.cell, fault.kind).at_partition(partition)
}
