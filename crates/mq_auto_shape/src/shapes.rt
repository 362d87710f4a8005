//! The shape of an input, with its rounds.
ghost use Rattle.std.specs.Prelude.{◌≡◌, ◌≤◌, List, [], Some, length, IfOk};
ghost use Rattle.std.specs.List.{All, find};
ghost use Rattle.mq_ir.specs.Automatic.{cycle_in, levelled_shape};
ghost use Rattle.mq_ir.specs.Keys.{Tuple};
ghost use Rattle.mq_ir.specs.Shape as spec;
ghost use Rattle.mq_ir.specs.Shape.{assigns};
ghost use Rattle.mq_ir.specs.Unfolding.{model_of};
ghost use Rattle.mq_auto_shape.specs.Conditions.{AreReady};
ghost use Rattle.mq_auto_shape.specs.Found.{AreRoundsOf, AreThere, IsRuled, IsShapeOf, shape_in, shape_meant};
ghost use Rattle.mq_auto_shape.specs.Outcomes.{FindsLevels, FindsShape, IsGrown};
ghost use Rattle.mq_auto_shape.specs.declared.indexed.IndexedShape.{IndexedShape};
ghost use Rattle.mq_auto_shape.specs.Indexed.{IsIndexed, plain_found};
ghost use Rattle.mq_cells.specs.declared.bounds.TheConstants.{MAX_ASSIGNMENTS};

use crate::cycles::cycle_among;
use crate::growth::Growth;
use crate::indexed::IndexedShape;
use crate::lane_reads::LaneReads;
use crate::reads::{all_runs, places_of};
use crate::rules::grow_rules;
use mq_dim_index::DimIndex;
use mq_ir::{Model, PartShape, PlacedFault};
use mq_levels::{Leveled, levels_over};
use mq_values::{Fail, Key, Memory, QueryFault};
use std::alloc::Global;

/// The shape of an input with these keys, and the rounds in which its assignments are levelled, as their places in
/// `assigned`; or the first fault on the walk over the rules, or CYCLE, in the partition with the empty key
/// (docs/MEANING.md, "Automatic order"). It sees no value of a cell. `Memory` is the only error.
pub fn shape_of(
    alloc: Global,
    m: &Model<'_>,
    keys: &[Key],
) -> Result<Result<(PartShape, Leveled), QueryFault>, Memory>
    requires ready { AreReady m.now.part.now keys.now }
    ensures exact { IfOk result (λ found. shape_in found ≡ shape_meant (model_of m.now) keys.now) }
    ensures shape { IfOk result (λ found. IfOk found (λ it. IsShapeOf (model_of m.now) keys.now it.0)) }
    ensures rounds { IfOk result (λ found. IfOk found (λ it. AreRoundsOf (model_of m.now) it.0 it.1.rounds)) }
    ensures rest { IfOk result (λ found. IfOk found (λ it. it.1.rest ≡ [])) }
{
    match indexed_shape_of(alloc, m, keys)? {
        Ok(found) => Ok(Ok((found.shape, found.leveled))),
        Err(fault) => Ok(Err(fault)),
    }
}

/// The same as `shape_of`, with the keys of the shape as the indexes that were made on the way.
pub fn indexed_shape_of(
    alloc: Global,
    m: &Model<'_>,
    keys: &[Key],
) -> Result<Result<IndexedShape, QueryFault>, Memory>
    requires ready { AreReady m.now.part.now keys.now }
    ensures exact { IfOk result (λ found. shape_in (plain_found found) ≡ shape_meant (model_of m.now) keys.now) }
    ensures shape { IfOk result (λ found. IfOk found (λ it. IsShapeOf (model_of m.now) keys.now it.shape)) }
    ensures rounds { IfOk result (λ found. IfOk found (λ it. AreRoundsOf (model_of m.now) it.shape it.leveled.rounds)) }
    ensures rest { IfOk result (λ found. IfOk found (λ it. it.leveled.rest ≡ [])) }
    ensures indexed { IfOk result (λ found. IfOk found IsIndexed) }
{
    match found_over(alloc, m, keys) {
        Ok(found) => Ok(Ok(found)),
        Err(Fail::Cause(fault)) => Ok(Err(fault.at_partition(Key::empty()))),
        Err(Fail::Memory) => Err(Memory),
    }
}

// The shape with its rounds, or the fault.
fn found_over(alloc: Global, m: &Model<'_>, keys: &[Key]) -> Result<IndexedShape, Fail<PlacedFault>>
    requires ready { AreReady m.now.part.now keys.now }
    ensures exact { FindsShape (λ (it : IndexedShape). it.shape) result (levelled_shape (model_of m.now) keys.now) }
    ensures shape { IfOk result (λ it. IsShapeOf (model_of m.now) keys.now it.shape) }
    ensures rounds { IfOk result (λ it. AreRoundsOf (model_of m.now) it.shape it.leveled.rounds) }
    ensures rest { IfOk result (λ it. it.leveled.rest ≡ []) }
    ensures indexed { IfOk result IsIndexed }
{
    let found = shape_over(alloc, m, keys)?;
    let leveled = leveled_over(alloc, m, &found.0, &found.1)?;
    let base = DimIndex::new(alloc, keys)?;
    let (shape, cells) = found;
    Ok(IndexedShape {
        shape,
        leveled,
        base,
        cells,
    })
}

// The shape alone with its cells, or the first fault on the walk over the rules.
fn shape_over(
    alloc: Global,
    m: &Model<'_>,
    keys: &[Key],
) -> Result<(PartShape, DimIndex), Fail<PlacedFault>>
    requires ready { AreReady m.now.part.now keys.now }
    ensures exact { FindsShape (λ (it : PartShape × List Tuple). it.0) result (spec.shape_over (model_of m.now) keys.now) }
    ensures grown { IfOk result (λ it. IsGrown (model_of m.now) keys.now it.0) }
    ensures cells { IfOk result (λ it. it.1 ≡ it.0.cells) }
{
    let begun = Growth::new(alloc, keys)?;
    let grown = grow_rules(alloc, m, begun)?;
    let shape = grown.shape(alloc, m, keys)?;
    Ok(shape)
}

// The rounds of a shape with these cells, or CYCLE.
fn leveled_over(
    alloc: Global,
    m: &Model<'_>,
    shape: &PartShape,
    cells: &DimIndex,
) -> Result<Leveled, Fail<PlacedFault>>
    requires cells { cells.now ≡ shape.now.cells }
    requires own { All (λ a. find (assigns a.1 a.0) shape.now.assigned ≡ Some a) shape.now.assigned }
    requires ruled { All (IsRuled (model_of m.now)) shape.now.assigned }
    requires there { AreThere shape.now.cells shape.now.assigned }
    ensures exact { FindsLevels result (cycle_in (model_of m.now) shape.now) }
    ensures few { IfOk result (λ _. length shape.now.assigned ≤ MAX_ASSIGNMENTS) }
    ensures rounds { IfOk result (λ it. AreRoundsOf (model_of m.now) shape.now it.rounds) }
    ensures rest { IfOk result (λ it. it.rest ≡ []) }
{
    let numbers = places_of(alloc, shape, cells)?;
    let lists = all_runs(alloc, m, shape, cells, &numbers)?;
    let reads = LaneReads {
        numbers: &numbers,
        lists: &lists,
    };
    let leveled = levels_over(alloc, &reads)?;
    match cycle_among(alloc, shape.assigned.as_slice(), leveled.rest.as_slice())? {
        Some(fault) => Err(Fail::Cause(fault)),
        None => Ok(leveled),
    }
}
