//! A change of a partition's input.
ghost use Rattle.std.specs.Prelude.{◌≡◌, ◌+◌, ◌≤◌, [], false, IfOk, OnOk};
ghost use Rattle.mq_ir.specs.declared.query.CellName.{CellName};
ghost use Rattle.mq_ir.specs.declared.query.Look.TheVariants.{Measure};
ghost use Rattle.mq_ir.specs.Automatic.{levelled_shape};
ghost use Rattle.mq_ir.specs.Partitions.{Cells};
ghost use Rattle.mq_ir.specs.Shape.{shape_over};
ghost use Rattle.mq_ir.specs.Unfolding.{model_of};
ghost use Rattle.mq_change_laws.specs.Sides.{IsShaped};
ghost use Rattle.mq_auto.specs.Meaning.{HoldsValues, IfDone, judged};
ghost use Rattle.mq_auto_shape.specs.Conditions.{AreReady};
ghost use Rattle.mq_delta_cells.specs.Bounds.{most_reads};
ghost use Rattle.mq_delta_cells.specs.Changes.{IsChange, reaches, reads_of_change, side_of};
ghost use Rattle.mq_delta_cells.specs.Courses.{IsCourse};

use crate::course::{Course, course_for_walk};
use crate::starting::{clear_vanished, moved_alone, seeds_of};
use crate::walking::walk_rounds;
use crate::work::Work;
use mq_auto::Verdict;
use mq_auto_shape::{IndexedShape, indexed_shape_of};
use mq_cells::Cells;
use mq_change_laws::{results_stay, shapes_are_sound};
use mq_ir::{CellName, Model, PartShape};
use mq_refs::ShapeKeys;
use mq_values::{Key, Memory};
use std::alloc::Global;

/// Propagates a change of a partition's input, whose keys are `new` by now, to the cells that depend on it. `old` is the
/// shape of the old input, `moved` has the measures that stand in both inputs with different values, and `cells` has the
/// new input and the automatic results of the old one (`IsChange` of `specs/Changes`).
pub fn propagate<C: Cells>(
    alloc: Global,
    m: &Model<'_>,
    old: &PartShape,
    new: &[Key],
    moved: &[CellName],
    cells: &mut C,
) -> Result<Verdict, Memory>
    requires ready { AreReady m.now.part.now new.now }
    ensures verdict { IfOk result (λ v. v ≡ judged [] (levelled_shape (model_of m.now) new.now)) }
    ensures values { IfOk result (λ v. IfDone v (λ shape. (before : Cells) (after : Cells)
        → IsChange (model_of m.now) old.now new.now moved.now before after (C.input cells.old) (C.results cells.old)
        → HoldsValues (model_of m.now) shape after (C.input cells.new) (C.results cells.new))) }
    ensures unaffected { IfOk result (λ v. IfDone v (λ shape. (before : Cells) (after : Cells)
        → IsChange (model_of m.now) old.now new.now moved.now before after (C.input cells.old) (C.results cells.old)
        → (c : CellName) → reaches (model_of m.now) old.now shape before after (Measure c) ≡ false
        → C.results cells.new c ≡ C.results cells.old c)) }
    ensures reads { (before : Cells) (after : Cells)
        → IsChange (model_of m.now) old.now new.now moved.now before after (C.input cells.old) (C.results cells.old)
        → C.looks cells.new
        ≤ C.looks cells.old + reads_of_change (model_of m.now) old.now (shape_over (model_of m.now) new.now) before after }
    ensures same_input { C.input cells.new ≡ C.input cells.old }
{
    let found = indexed_shape_of(alloc, m, new)?;
    match found {
        Ok(it) => {
            let IndexedShape {
                shape,
                leveled,
                base,
                cells: index,
            } = it;
            let course = course_for_walk(alloc, m, &shape, leveled.rounds, base, index)?;
            propagate_over(alloc, m, old, &shape, &course, moved, cells)?;
            Ok(Verdict::Done(shape))
        }
        Err(fault) => Ok(Verdict::Broken(fault)),
    }
}

/// The same where the shape of the new input is known with its course, which serve for all partitions with these keys. Where
/// `old` is found to be that shape too, no looks are compared.
pub fn propagate_over<C: Cells>(
    alloc: Global,
    m: &Model<'_>,
    old: &PartShape,
    new: &PartShape,
    course: &Course,
    moved: &[CellName],
    cells: &mut C,
) -> Result<(), Memory>
    requires course { IsCourse (model_of m.now) new.now course.now }
    ensures values { OnOk result ((before : Cells) (after : Cells) → IsShaped (model_of m.now) (side_of new.now after)
        → IsChange (model_of m.now) old.now new.now.base moved.now before after (C.input cells.old) (C.results cells.old)
        → HoldsValues (model_of m.now) new.now after (C.input cells.new) (C.results cells.new)) }
    ensures unaffected { OnOk result ((before : Cells) (after : Cells) → IsShaped (model_of m.now) (side_of new.now after)
        → IsChange (model_of m.now) old.now new.now.base moved.now before after (C.input cells.old) (C.results cells.old)
        → (c : CellName) → reaches (model_of m.now) old.now new.now before after (Measure c) ≡ false
        → C.results cells.new c ≡ C.results cells.old c) }
    ensures reads { (before : Cells) (after : Cells) → IsShaped (model_of m.now) (side_of new.now after)
        → IsChange (model_of m.now) old.now new.now.base moved.now before after (C.input cells.old) (C.results cells.old)
        → C.looks cells.new
        ≤ C.looks cells.old + most_reads (model_of m.now) new.now (reaches (model_of m.now) old.now new.now before after) }
    ensures same_input { C.input cells.new ≡ C.input cells.old }
{
    shapes_are_sound();
    results_stay();
    let keys = ShapeKeys {
        base: &course.base,
        cells: &course.cells,
    };
    let seeds = seeds_of(alloc, old, new, keys, moved)?;
    clear_vanished(&seeds, new, &course.cells, &course.rules, cells)?;
    let work = Work {
        model: m,
        shape: new,
        course,
        seeds: &seeds,
    };
    walk_rounds(alloc, &work, cells)
}

/// The same where the shape of the old input, by its course, is that of the new one: values moved, and no cell came or went.
/// Nothing is compared: the change begins with what moved.
pub fn propagate_values<C: Cells>(
    alloc: Global,
    m: &Model<'_>,
    shape: &PartShape,
    course: &Course,
    moved: &[CellName],
    cells: &mut C,
) -> Result<(), Memory>
    requires course { IsCourse (model_of m.now) shape.now course.now }
    ensures values { OnOk result ((before : Cells) (after : Cells) → IsShaped (model_of m.now) (side_of shape.now after)
        → IsChange (model_of m.now) shape.now shape.now.base moved.now before after (C.input cells.old) (C.results cells.old)
        → HoldsValues (model_of m.now) shape.now after (C.input cells.new) (C.results cells.new)) }
    ensures unaffected { OnOk result ((before : Cells) (after : Cells) → IsShaped (model_of m.now) (side_of shape.now after)
        → IsChange (model_of m.now) shape.now shape.now.base moved.now before after (C.input cells.old) (C.results cells.old)
        → (c : CellName) → reaches (model_of m.now) shape.now shape.now before after (Measure c) ≡ false
        → C.results cells.new c ≡ C.results cells.old c) }
    ensures reads { (before : Cells) (after : Cells) → IsShaped (model_of m.now) (side_of shape.now after)
        → IsChange (model_of m.now) shape.now shape.now.base moved.now before after (C.input cells.old) (C.results cells.old)
        → C.looks cells.new
        ≤ C.looks cells.old + most_reads (model_of m.now) shape.now (reaches (model_of m.now) shape.now shape.now before after) }
    ensures same_input { C.input cells.new ≡ C.input cells.old }
{
    shapes_are_sound();
    results_stay();
    let seeds = moved_alone(alloc, shape, &course.cells, moved)?;
    let work = Work {
        model: m,
        shape,
        course,
        seeds: &seeds,
    };
    walk_rounds(alloc, &work, cells)
}
