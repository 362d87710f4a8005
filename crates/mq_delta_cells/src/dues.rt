//! Which assignments are due at first.
ghost use Rattle.std.specs.Prelude.{◌≡◌, ℕ, true, false, IfOk};
ghost use Rattle.mq_ir.specs.declared.query.CellName.{CellName};
ghost use Rattle.mq_delta_cells.specs.Courses.{IsCourse};
ghost use Rattle.mq_delta_cells.specs.Readers.{is_due, may_look};
ghost use Rattle.mq_delta_cells.specs.Seeds.{AreSeeds, is_moved};
ghost use Rattle.mq_delta_cells.specs.Marks.{no_marks};
ghost use Rattle.mq_delta_cells.specs.Walks.{IsDue, ground_of, model_at};

use crate::reader_table::mark_readers;
use crate::work::Work;
use mq_change_laws::same_looks_are_one;
use mq_values::Memory;
use std::alloc::Global;

/// The marks of the places that are due at first: those that look at what moved; all, where the shapes differ. No marks are all.
pub fn due_at_first(alloc: Global, work: &Work<'_>) -> Result<Vec<bool>, Memory>
    requires course { IsCourse (model_at work.now) work.now.shape.now work.now.course.now }
    requires seeds { AreSeeds work.now.shape.now work.now.course.now.cells work.now.seeds.now }
    ensures { IfOk result (λ due. IsDue (ground_of work.now) no_marks due.items) }
{
    same_looks_are_one();
    match work.seeds.differ {
        Some(_) => Ok(Vec::new(alloc)),
        None => due_by_moved(alloc, work),
    }
}

// Those that look at what moved.
fn due_by_moved(alloc: Global, work: &Work<'_>) -> Result<Vec<bool>, Memory>
    ensures { IfOk result (λ due. (place : ℕ) → is_due due.items place ≡ false
        → (c : CellName) → is_moved work.now.seeds.now.moved.now c ≡ true
        → may_look work.now.course.now.cells work.now.course.now.readers c place ≡ false) }
{
    let mut due = vec![in alloc; false; work.shape.assigned.len()]?;
    let course = work.course;
    let mut near = 0;
    'marking: for name in work.seeds.moved {
        mark_readers(
            &course.readers,
            &course.cells,
            &name.key,
            name.measure,
            &mut near,
            &mut due,
        )?;
    }
    Ok(due)
}
