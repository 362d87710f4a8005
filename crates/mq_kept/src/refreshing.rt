//! A partition that is kept, after a change of its input.
ghost use Rattle.std.specs.Prelude.{◌≡◌, None, Ok, true, is_some, IfOk, OnOk};
ghost use Rattle.std.specs.List.Sorted.{IsStrictlySortedBy};
ghost use Rattle.std.specs.Map.{keys_of};
ghost use Rattle.mq_values.specs.Order.{cmp_key};
ghost use Rattle.mq_ir.specs.declared.query.CellName.{CellName};
ghost use Rattle.mq_ir.specs.Automatic.{levelled_shape};
ghost use Rattle.mq_ir.specs.Iteration as spec;
ghost use Rattle.mq_ir.specs.Partitions.{cell_at};
ghost use Rattle.mq_ir.specs.Ready.{IsReady};
ghost use Rattle.mq_ir.specs.Unfolding.{model_of};
ghost use Rattle.mq_cells.specs.IndexedStores.{input_in, results_of};
ghost use Rattle.mq_auto.specs.Findings.{IsLevelled};
ghost use Rattle.mq_delta_cells.specs.Changes.{has_moved};
ghost use Rattle.mq_delta_cells.specs.Courses.{IsCourse};
ghost use Rattle.mq_delta_cells.specs.Seeds.{is_moved};
ghost use Rattle.mq_kept.specs.Kept.{HasValues, IsFound, IsRight, IsShared};
ghost use Rattle.mq_kept.specs.Refreshed.{IsWalked};

use crate::counting::add_reads;
use crate::kept_view::{KeptPart, PartState, ShapedCells, SharedShape};
use crate::moving::moved_between;
use crate::renewing::renew;
use crate::shapes::shared;
use mq_auto::{judge, serves};
use mq_auto_shape::IndexedShape;
use mq_cells::IndexedCells;
use mq_change_laws::shapes_are_sound;
use mq_delta_cells::{Course, course_for_walk, propagate_over, propagate_values};
use mq_ir::{CellName, Model, PartInput, PartResult, PartShape};
use mq_levels::Leveled;
use mq_values::{Items, Memory};
use std::alloc::Global;

/// The partition with this new input. Where the input is as it was, what was found stays; where it has a shape, the change is
/// propagated (docs/MEANING.md, "Affected cells"), over that shape where its keys are those of the new input; all else is run when it
/// is asked for. What is read of the store is added to `reads`. `Memory` is the only error.
pub fn refreshed(
    alloc: Global,
    m: &Model<'_>,
    part: KeptPart,
    input: PartInput,
    reads: &mut u64,
) -> Result<KeptPart, Memory>
    requires right { IsRight (model_of m.now) part }
    requires ready { IsReady m.now.part.now input }
    ensures input { IfOk result (λ new. new.input ≡ input) }
    ensures right { IfOk result (IsRight (model_of m.now)) }
{
    let mut part = part;
    renew(alloc, m, &mut part, input, reads)?;
    Ok(part)
}

/// What is found of the new input by what was found of the old one. What is read of the store is added to `reads`.
pub fn state_after(
    alloc: Global,
    m: &Model<'_>,
    old: &PartInput,
    new: &PartInput,
    state: PartState,
    reads: &mut u64,
) -> Result<PartState, Memory>
    requires old { IsReady m.now.part.now old.now }
    requires new { IsReady m.now.part.now new.now }
    requires found { IsFound (model_of m.now) old.now state }
    ensures { IfOk result (IsFound (model_of m.now) new.now) }
{
    match state {
        PartState::Automatic(kept) => values_after(alloc, m, old, new, kept, reads),
        _ => Ok(PartState::NotKept),
    }
}

// The same where the old input has its values: the change is propagated over the shape that is kept, where that serves.
fn values_after(
    alloc: Global,
    m: &Model<'_>,
    old: &PartInput,
    new: &PartInput,
    kept: ShapedCells,
    reads: &mut u64,
) -> Result<PartState, Memory>
    requires old { IsReady m.now.part.now old.now }
    requires new { IsReady m.now.part.now new.now }
    requires values { HasValues (model_of m.now) old.now kept }
    ensures { IfOk result (IsFound (model_of m.now) new.now) }
{
    if is_over(new, &kept.shape) {
        moved(alloc, m, old, new, kept, reads)
    } else {
        propagated(alloc, m, old, new, kept, reads)
    }
}

// Whether an input has this shape, and the shape its course.
fn is_over(new: &PartInput, shape: &SharedShape) -> bool
    ensures course { result ≡ true → is_some shape.now.course ≡ true }
    ensures sound { result ≡ true → spec.input_fault new.now ≡ None }
    ensures same { result ≡ true → keys_of new.now.cells ≡ shape.now.found.shape.base }
{
    shape.course.is_some() && serves(new, &shape.found.shape)
}

// The same where values moved alone.
fn moved(
    alloc: Global,
    m: &Model<'_>,
    old: &PartInput,
    new: &PartInput,
    kept: ShapedCells,
    reads: &mut u64,
) -> Result<PartState, Memory>
    requires old { IsReady m.now.part.now old.now }
    requires new { IsReady m.now.part.now new.now }
    requires values { HasValues (model_of m.now) old.now kept }
    requires course { is_some kept.shape.value.course ≡ true }
    requires faultless { spec.input_fault new.now ≡ None }
    requires same { keys_of new.now.cells ≡ kept.shape.value.found.shape.base }
    ensures { IfOk result (IsFound (model_of m.now) new.now) }
{
    let ShapedCells { shape, mut cells } = kept;
    let moved = moved_to(alloc, old, new, &mut cells)?;
    walk_values(alloc, m, &shape, moved.as_slice(), &mut cells, reads)?;
    Ok(PartState::Automatic(ShapedCells { shape, cells }))
}

// Puts a new input into a store; out come the measures that stand in both inputs with different values.
fn moved_to(
    alloc: Global,
    old: &PartInput,
    new: &PartInput,
    cells: &mut IndexedCells,
) -> Result<Vec<CellName>, Memory>
    requires before { IsStrictlySortedBy cmp_key (keys_of old.now.cells) }
    requires after { IsStrictlySortedBy cmp_key (keys_of new.now.cells) }
    ensures moved { IfOk result (λ moved. (c : CellName) → is_moved moved.items c ≡ has_moved old.now.cells new.now.cells c) }
    ensures input { OnOk result (input_in cells.new ≡ cell_at new.now.cells) }
    ensures same_results { results_of cells.new ≡ results_of cells.old }
{
    let before = old.cells.as_slice();
    let after = new.cells.as_slice();
    let moved = moved_between(alloc, before, after)?;
    cells.set_input(alloc, new)?;
    Ok(moved)
}

// Propagates values that moved over a shape with its course.
fn walk_values(
    alloc: Global,
    m: &Model<'_>,
    shape: &SharedShape,
    moved: &[CellName],
    cells: &mut IndexedCells,
    reads: &mut u64,
) -> Result<(), Memory>
    requires shared { IsShared (model_of m.now) shape.now }
    requires course { is_some shape.now.course ≡ true }
    ensures { OnOk result (IsWalked (model_of m.now) shape.now.found.shape shape.now.found.shape moved.now cells.old cells.new) }
{
    let looks = cells.looks();
    let walked = walk_course(alloc, m, shape, moved, cells);
    add_reads(looks, cells, reads);
    walked
}

// The same, uncounted.
fn walk_course(
    alloc: Global,
    m: &Model<'_>,
    shape: &SharedShape,
    moved: &[CellName],
    cells: &mut IndexedCells,
) -> Result<(), Memory>
    requires shared { IsShared (model_of m.now) shape.now }
    requires course { is_some shape.now.course ≡ true }
    ensures { OnOk result (IsWalked (model_of m.now) shape.now.found.shape shape.now.found.shape moved.now cells.old cells.new) }
{
    match &shape.course {
        Some(course) => propagate_values(alloc, m, &shape.found.shape, course, moved, cells),
        None => unreachable!(),
    }
}

// The same where the new input has another shape, or where the course of its shape is not kept.
fn propagated(
    alloc: Global,
    m: &Model<'_>,
    old: &PartInput,
    new: &PartInput,
    kept: ShapedCells,
    reads: &mut u64,
) -> Result<PartState, Memory>
    requires old { IsReady m.now.part.now old.now }
    requires new { IsReady m.now.part.now new.now }
    requires values { HasValues (model_of m.now) old.now kept }
    ensures { IfOk result (IsFound (model_of m.now) new.now) }
{
    let judged = judge(alloc, m, new)?;
    match judged {
        Ok(found) => carried_over(alloc, m, old, new, kept, found, reads),
        Err(fault) => Ok(PartState::Made(PartResult::Fault(fault))),
    }
}

// The same where this is the shape of the new input.
fn carried_over(
    alloc: Global,
    m: &Model<'_>,
    old: &PartInput,
    new: &PartInput,
    kept: ShapedCells,
    found: IndexedShape,
    reads: &mut u64,
) -> Result<PartState, Memory>
    requires old { IsReady m.now.part.now old.now }
    requires new { IsReady m.now.part.now new.now }
    requires values { HasValues (model_of m.now) old.now kept }
    requires faultless { spec.input_fault new.now ≡ None }
    requires shaped { levelled_shape (model_of m.now) (keys_of new.now.cells) ≡ Ok found.shape }
    requires levelled { IsLevelled (model_of m.now) found }
    ensures { IfOk result (IsFound (model_of m.now) new.now) }
{
    shapes_are_sound();
    let ShapedCells { shape, mut cells } = kept;
    let moved = moved_to(alloc, old, new, &mut cells)?;
    let before = &shape.found.shape;
    let found = walked_over(alloc, m, before, found, moved.as_slice(), &mut cells, reads)?;
    let shape = shared(alloc, m, found, true)?;
    Ok(PartState::Automatic(ShapedCells { shape, cells }))
}

// Propagates a change from one shape to another, which is handed back.
fn walked_over(
    alloc: Global,
    m: &Model<'_>,
    old: &PartShape,
    found: IndexedShape,
    moved: &[CellName],
    cells: &mut IndexedCells,
    reads: &mut u64,
) -> Result<IndexedShape, Memory>
    requires { IsLevelled (model_of m.now) found }
    ensures same { IfOk result (λ it. it.shape ≡ found.shape) }
    ensures levelled { IfOk result (IsLevelled (model_of m.now)) }
    ensures walked { OnOk result (IsWalked (model_of m.now) old.now found.shape moved.now cells.old cells.new) }
{
    let IndexedShape {
        shape,
        leveled,
        base,
        cells: index,
    } = found;
    let Leveled { rounds, rest } = leveled;
    let course = course_for_walk(alloc, m, &shape, rounds, base, index)?;
    walk_shapes(alloc, m, old, &shape, &course, moved, cells, reads)?;
    Ok(indexed_by(shape, course, rest))
}

// Propagates a change from one shape to another by the course of that one.
fn walk_shapes(
    alloc: Global,
    m: &Model<'_>,
    old: &PartShape,
    new: &PartShape,
    course: &Course,
    moved: &[CellName],
    cells: &mut IndexedCells,
    reads: &mut u64,
) -> Result<(), Memory>
    requires { IsCourse (model_of m.now) new.now course.now }
    ensures { OnOk result (IsWalked (model_of m.now) old.now new.now moved.now cells.old cells.new) }
{
    let looks = cells.looks();
    let walked = propagate_over(alloc, m, old, new, course, moved, cells);
    add_reads(looks, cells, reads);
    walked
}

// A shape with the rounds and the indexes of its course.
fn indexed_by(shape: PartShape, course: Course, rest: Items<u32>) -> IndexedShape
    ensures { result
        ≡ record { shape = shape; leveled = record { rounds = course.rounds; rest = rest }; base = course.base; cells = course.cells } }
{
    let Course {
        rounds,
        base,
        cells,
        ..
    } = course;
    IndexedShape {
        shape,
        leveled: Leveled { rounds, rest },
        base,
        cells,
    }
}
