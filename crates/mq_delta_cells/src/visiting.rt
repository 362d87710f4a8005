//! An assignment that a change may reach.
ghost use Rattle.std.specs.Prelude.{◌≡◌, ◌+◌, ◌-◌, ◌≤◌, ◌<◌, Some, length, slice_get, if◌then◌else◌, IfOk, OnOk};
ghost use Rattle.std.specs.List.{find};
ghost use Rattle.mq_ir.specs.declared.query.Rule.{Rule};
ghost use Rattle.mq_ir.specs.Shape.{Assignment, assigns};
ghost use Rattle.mq_ir.specs.Slots.{cell_slot};
ghost use Rattle.mq_auto_shape.specs.Edges.{looks_by};
ghost use Rattle.mq_auto_shape.specs.Found.{IsRuled};
ghost use Rattle.mq_refs.specs.Sightings.{measures_in};
ghost use Rattle.mq_delta_cells.specs.Courses.{IsCourse};
ghost use Rattle.mq_cells.specs.Stores.{name_assigned, slot_at};
ghost use Rattle.mq_delta_cells.specs.Readers as readers;
ghost use Rattle.mq_delta_cells.specs.Readers.{HasMarked};
ghost use Rattle.mq_delta_cells.specs.Seeds.{AreSeeds};
ghost use Rattle.mq_delta_cells.specs.Walks as spec;
ghost use Rattle.mq_delta_cells.specs.Walks.{IsAssigned, IsDue, IsVisited, ground_of, model_at};

use crate::course::{looks_by_cells, rule_of};
use crate::known::is_some_known;
use crate::mark_table::MarkTable;
use crate::parts::is_hit_by_parts;
use crate::reader_table::mark_readers;
use crate::seeds::begins_at_target;
use crate::work::Work;
use mq_cells::Cells;
use mq_ir::{Look, Slot};
use mq_refs::{ShapeKeys, slot_over};
use mq_values::{Key, Memory};
use std::alloc::Global;

/// Visits the assignment at a place, where it is due: where the change reaches it its slot is found anew and put, it is among
/// what `changed` then, and what looks at it is due. Cells are looked for beside the place `near` first.
pub fn visit<C: Cells>(
    alloc: Global,
    work: &Work<'_>,
    place: u32,
    changed: &mut MarkTable,
    due: &mut Vec<bool>,
    near: &mut u32,
    cells: &mut C,
) -> Result<(), Memory>
    requires course { IsCourse (model_at work.now) work.now.shape.now work.now.course.now }
    requires seeds { AreSeeds work.now.shape.now work.now.course.now.cells work.now.seeds.now }
    requires place { place < length work.now.shape.now.assigned }
    requires due { IsDue (ground_of work.now) changed.old due.old.items }
    ensures visited { OnOk result ((a : Assignment) → slice_get work.now.shape.now.assigned place ≡ Some a
        → IsVisited (ground_of work.now) (C.input cells.old) (C.results cells.old) (C.results cells.new) changed.old changed.new a) }
    ensures due { OnOk result (IsDue (ground_of work.now) changed.new due.new.items) }
    ensures reads { (a : Assignment) → slice_get work.now.shape.now.assigned place ≡ Some a
        → C.looks cells.new ≤ C.looks cells.old + spec.reads_of_hit (ground_of work.now) changed.old a }
    ensures same_input { C.input cells.new ≡ C.input cells.old }
{
    let a = &work.shape.assigned.as_slice()[place as usize];
    if is_hit_at(alloc, work, place, a, changed, due, near)? {
        assign(alloc, work, a, changed, due, near, cells)?;
    }
    Ok(())
}

// Whether the change reaches the assignment at a place: one that is not due it does not.
fn is_hit_at(
    alloc: Global,
    work: &Work<'_>,
    place: u32,
    a: &(Key, u32, u32),
    changed: &MarkTable,
    due: &[bool],
    near: &mut u32,
) -> Result<bool, Memory>
    requires course { IsCourse (model_at work.now) work.now.shape.now work.now.course.now }
    requires seeds { AreSeeds work.now.shape.now work.now.course.now.cells work.now.seeds.now }
    requires at { slice_get work.now.shape.now.assigned place ≡ Some a.now }
    requires due { IsDue (ground_of work.now) changed.now due.now }
    ensures { IfOk result (λ hit. hit ≡ spec.is_hit (ground_of work.now) changed.now a.now) }
{
    if !is_due(due, place) {
        return Ok(false);
    }
    match &work.course.looks {
        Some(lists) => {
            let looks = &lists.as_slice()[place as usize];
            is_hit(alloc, work, a, looks.as_slice(), changed, near)
        }
        None => is_hit_by_rule(alloc, work, a, changed, near),
    }
}

// Whether a place is due.
fn is_due(due: &[bool], place: u32) -> bool
    ensures { result ≡ readers.is_due due.now place }
{
    match due.get(place as usize) {
        Some(due) => *due,
        None => true,
    }
}

// Whether the change reaches an assignment, of which no looks are gathered.
fn is_hit_by_rule(
    alloc: Global,
    work: &Work<'_>,
    a: &(Key, u32, u32),
    changed: &MarkTable,
    near: &mut u32,
) -> Result<bool, Memory>
    requires course { IsCourse (model_at work.now) work.now.shape.now work.now.course.now }
    requires seeds { AreSeeds work.now.shape.now work.now.course.now.cells work.now.seeds.now }
    requires own { find (assigns a.now.1 a.now.0) work.now.shape.now.assigned ≡ Some a.now }
    ensures { IfOk result (λ hit. hit ≡ spec.is_hit (ground_of work.now) changed.now a.now) }
{
    match work.seeds.differ {
        Some(_) => is_hit_by_looks(alloc, work, a, changed, near),
        None => is_hit_by_parts(alloc, work, a, changed, near),
    }
}

// The same by all that its rule looks at.
fn is_hit_by_looks(
    alloc: Global,
    work: &Work<'_>,
    a: &(Key, u32, u32),
    changed: &MarkTable,
    near: &mut u32,
) -> Result<bool, Memory>
    requires course { IsCourse (model_at work.now) work.now.shape.now work.now.course.now }
    requires seeds { AreSeeds work.now.shape.now work.now.course.now.cells work.now.seeds.now }
    requires own { find (assigns a.now.1 a.now.0) work.now.shape.now.assigned ≡ Some a.now }
    ensures { IfOk result (λ hit. hit ≡ spec.is_hit (ground_of work.now) changed.now a.now) }
{
    let looks = looks_by_cells(alloc, work.model, &work.course.cells, a)?;
    is_hit(alloc, work, a, looks.as_slice(), changed, near)
}

// Whether the change reaches an assignment, which looks at these.
fn is_hit(
    alloc: Global,
    work: &Work<'_>,
    a: &(Key, u32, u32),
    looks: &[Look],
    changed: &MarkTable,
    near: &mut u32,
) -> Result<bool, Memory>
    requires course { IsCourse (model_at work.now) work.now.shape.now work.now.course.now }
    requires seeds { AreSeeds work.now.shape.now work.now.course.now.cells work.now.seeds.now }
    requires own { find (assigns a.now.1 a.now.0) work.now.shape.now.assigned ≡ Some a.now }
    requires looks { looks.now ≡ looks_by (model_at work.now) work.now.shape.now a.now }
    ensures { IfOk result (λ hit. hit ≡ spec.is_hit (ground_of work.now) changed.now a.now) }
{
    if begins_at_target(alloc, work, a, looks, near)? {
        return Ok(true);
    }
    is_some_known(work, looks, changed, near)
}

// Puts at the measure of an assignment what its rule makes of the cell, and marks what looks at it.
fn assign<C: Cells>(
    alloc: Global,
    work: &Work<'_>,
    a: &(Key, u32, u32),
    changed: &mut MarkTable,
    due: &mut Vec<bool>,
    near: &mut u32,
    cells: &mut C,
) -> Result<(), Memory>
    requires course { IsCourse (model_at work.now) work.now.shape.now work.now.course.now }
    requires ruled { IsRuled (model_at work.now) a.now }
    ensures marked { OnOk result
        (HasMarked work.now.course.now.cells work.now.course.now.readers (name_assigned a.now) due.old.items due.new.items) }
    ensures assigned { OnOk result (IsAssigned (ground_of work.now) (C.input cells.old) (C.results cells.old) (C.results cells.new)
        changed.old changed.new a.now) }
    ensures reads { C.looks cells.new ≤ C.looks cells.old + measures_in (looks_by (model_at work.now) work.now.shape.now a.now) }
    ensures same_input { C.input cells.new ≡ C.input cells.old }
{
    let slot = slot_for(alloc, work, a, cells)?;
    cells.put(&a.0, a.1, slot)?;
    let course = work.course;
    changed.put(&course.cells, &a.0, a.1, near)?;
    mark_readers(&course.readers, &course.cells, &a.0, a.1, near, due)
}

// What the rule of an assignment makes of its cell, over the cells of the course. Nothing that stands is changed.
fn slot_for<C: Cells>(
    alloc: Global,
    work: &Work<'_>,
    a: &(Key, u32, u32),
    cells: &mut C,
) -> Result<Slot, Memory>
    requires course { IsCourse (model_at work.now) work.now.shape.now work.now.course.now }
    requires ruled { IsRuled (model_at work.now) a.now }
    ensures exact { IfOk result (λ slot. (rule : Rule) → slice_get (model_at work.now).part.rules (a.now.2 - 1) ≡ Some rule
        → slot ≡ cell_slot (model_at work.now) work.now.shape.now 0 rule a.now.0 (slot_at (C.input cells.old) (C.results cells.old))) }
    ensures reads { C.looks cells.new ≤ C.looks cells.old + measures_in (looks_by (model_at work.now) work.now.shape.now a.now) }
    ensures same_input { C.input cells.new ≡ C.input cells.old }
    ensures same_results { C.results cells.new ≡ C.results cells.old }
{
    let course = work.course;
    let rule = rule_of(work.model, a);
    let keys = ShapeKeys {
        base: &course.base,
        cells: &course.cells,
    };
    slot_over(alloc, rule, work.model, &a.0, 0, &keys, course.refs, cells)
}
