//! The assignments that a change reaches, round by round.
ghost use Rattle.std.specs.Prelude.{◌≡◌, ◌+◌, ◌<◌, ◌≤◌, ℕ, [], true, false, length, OnOk};
ghost use Rattle.std.specs.List.{All};
ghost use Rattle.mq_ir.specs.declared.query.CellName.{CellName};
ghost use Rattle.mq_ir.specs.declared.query.Look.TheVariants.{Measure};
ghost use Rattle.mq_ir.specs.Partitions.{Cells, cell_at};
ghost use Rattle.mq_cells.specs.Stores.{Results};
ghost use Rattle.mq_auto.specs.Meaning.{result_at};
ghost use Rattle.mq_auto_shape.specs.Found.{place_comes_in};
ghost use Rattle.mq_delta_cells.specs.Bounds.{most_reads, total};
ghost use Rattle.mq_delta_cells.specs.Courses.{IsCourse};
ghost use Rattle.mq_delta_cells.specs.Seeds.{AreSeeds};
ghost use Rattle.mq_delta_cells.specs.Walks.{BeginsRight, IsDue, IsWalked, ground_of, model_at, reached_on, reads_at};

use crate::dues::due_at_first;
use crate::mark_table::MarkTable;
use crate::visiting::visit;
use crate::work::Work;
use mq_cells::Cells;
use mq_ir::steps_read_their_looks;
use mq_values::Memory;
use std::alloc::Global;

/// Finds the slots of the assignments anew that a change reaches, round by round: each looks at none but those of earlier
/// rounds and at the input.
pub fn walk_rounds<C: Cells>(alloc: Global, work: &Work<'_>, cells: &mut C) -> Result<(), Memory>
    requires course { IsCourse (model_at work.now) work.now.shape.now work.now.course.now }
    requires seeds { AreSeeds work.now.shape.now work.now.course.now.cells work.now.seeds.now }
    ensures values { OnOk result ((input : Cells) → C.input cells.old ≡ cell_at input
        → BeginsRight (ground_of work.now) input (C.results cells.old)
        → (c : CellName) → C.results cells.new c ≡ result_at (model_at work.now) work.now.shape.now input c) }
    ensures unreached { OnOk result ((c : CellName) → reached_on (ground_of work.now) (Measure c) ≡ false
        → C.results cells.new c ≡ C.results cells.old c) }
    ensures reads { C.looks cells.new
        ≤ C.looks cells.old + most_reads (model_at work.now) work.now.shape.now (reached_on (ground_of work.now)) }
    ensures same_input { C.input cells.new ≡ C.input cells.old }
{
    steps_read_their_looks();
    let mut changed = MarkTable::new(alloc);
    let mut near = 0;
    let mut due = due_at_first(alloc, work)?;
    'rounds: for round in work.course.rounds.as_slice() {
        walk_round(
            alloc,
            work,
            round.as_slice(),
            &mut changed,
            &mut due,
            &mut near,
            cells,
        )?;
    }
    Ok(())
}

// The same for the assignments at these places, which come in one round. Cells are looked for beside the place `near` first.
fn walk_round<C: Cells>(
    alloc: Global,
    work: &Work<'_>,
    round: &[u32],
    changed: &mut MarkTable,
    due: &mut Vec<bool>,
    near: &mut u32,
    cells: &mut C,
) -> Result<(), Memory>
    requires course { IsCourse (model_at work.now) work.now.shape.now work.now.course.now }
    requires seeds { AreSeeds work.now.shape.now work.now.course.now.cells work.now.seeds.now }
    requires places { All (λ place. place < length work.now.shape.now.assigned) round.now }
    requires due { IsDue (ground_of work.now) changed.old due.old.items }
    ensures due { OnOk result (IsDue (ground_of work.now) changed.new due.new.items) }
    ensures walked { OnOk result ((first : Results) (n : ℕ)
        → All (λ place. place_comes_in (model_at work.now) work.now.shape.now n place ≡ true) round.now
        → IsWalked (ground_of work.now) (C.input cells.old) first n [] changed.old (C.results cells.old)
        → IsWalked (ground_of work.now) (C.input cells.old) first n round.now changed.new (C.results cells.new)) }
    ensures reads { (first : Results) (n : ℕ)
        → All (λ place. place_comes_in (model_at work.now) work.now.shape.now n place ≡ true) round.now
        → IsWalked (ground_of work.now) (C.input cells.old) first n [] changed.old (C.results cells.old)
        → C.looks cells.new ≤ C.looks cells.old + total (reads_at (ground_of work.now)) round.now }
    ensures same_input { C.input cells.new ≡ C.input cells.old }
{
    steps_read_their_looks();
    'places: for place in round {
        visit(alloc, work, *place, changed, due, near, cells)?;
    }
    Ok(())
}
