//! Whether a change reaches an assignment whose looks are not gathered, where the shapes are one.
ghost use Rattle.std.specs.Prelude.{◌≡◌, ◌<◌, ◌≤◌, ◌-◌, None, Some, drop, length, slice_index_or, take, IfOk};
ghost use Rattle.std.specs.List.{All, filter, find, list_any};
ghost use Rattle.mq_ir.specs.declared.query.Look.TheVariants.{Measure};
ghost use Rattle.mq_ir.specs.Keys.{Tuple};
ghost use Rattle.mq_ir.specs.Looks.{looks_at};
ghost use Rattle.mq_ir.specs.Shape.{assigns};
ghost use Rattle.mq_cells.specs.Stores.{cell_name};
ghost use Rattle.mq_auto_shape.specs.Edges.{looks_by};
ghost use Rattle.mq_refs.specs.LookParts.{is_wanted, is_within, looks_in, looks_of_part};
ghost use Rattle.mq_delta_cells.specs.Courses.{IsCourse};
ghost use Rattle.mq_delta_cells.specs.Seeds.{AreSeeds};
ghost use Rattle.mq_delta_cells.specs.Walks as spec;
ghost use Rattle.mq_delta_cells.specs.Walks.{ground_of, is_known_in, model_at};

use crate::course::rule_numbered;
use crate::known::is_measure_known;
use crate::mark_table::MarkTable;
use crate::work::Work;
use mq_change_laws::same_looks_are_one;
use mq_refs::{LookPart, ShapeKeys, look_parts};
use mq_values::{Key, Memory};
use std::alloc::Global;

/// Whether the change reaches an assignment, where the shapes are one. Of what its rule looks at only those measures are worked out
/// of which one moved or changed.
pub fn is_hit_by_parts(
    alloc: Global,
    work: &Work<'_>,
    a: &(Key, u32, u32),
    changed: &MarkTable,
    near: &mut u32,
) -> Result<bool, Memory>
    requires course { IsCourse (model_at work.now) work.now.shape.now work.now.course.now }
    requires seeds { AreSeeds work.now.shape.now work.now.course.now.cells work.now.seeds.now }
    requires own { find (assigns a.now.1 a.now.0) work.now.shape.now.assigned ≡ Some a.now }
    requires same { work.now.seeds.now.differ ≡ None }
    ensures { IfOk result (λ hit. hit ≡ spec.is_hit (ground_of work.now) changed.now a.now) }
{
    same_looks_are_one();
    let in_changed = changed.measures();
    let in_names = work.seeds.names.measures();
    if is_some_wanted(alloc, work, a, in_changed, changed, near)? {
        return Ok(true);
    }
    is_some_wanted(alloc, work, a, in_names, changed, near)
}

// Whether one of the looks of an assignment at measures that are wanted is known to be reached.
fn is_some_wanted(
    alloc: Global,
    work: &Work<'_>,
    a: &(Key, u32, u32),
    wanted: &[bool],
    changed: &MarkTable,
    near: &mut u32,
) -> Result<bool, Memory>
    requires course { IsCourse (model_at work.now) work.now.shape.now work.now.course.now }
    requires seeds { AreSeeds work.now.shape.now work.now.course.now.cells work.now.seeds.now }
    ensures { IfOk result (λ some. some ≡ list_any (is_known_in (ground_of work.now) changed.now)
        (filter (is_wanted wanted.now) (looks_by (model_at work.now) work.now.shape.now a.now))) }
{
    let Some(rule) = rule_numbered(work.model, a.2) else {
        return Ok(false);
    };
    let course = work.course;
    let keys = ShapeKeys {
        base: &course.base,
        cells: &course.cells,
    };
    let parts = look_parts(alloc, rule, work.model, &a.0, 0, &keys, wanted)?;
    is_some_part_known(work, parts.as_slice(), changed, near)
}

// Whether one of the looks that these parts stand for is known to be reached.
fn is_some_part_known(
    work: &Work<'_>,
    parts: &[LookPart],
    changed: &MarkTable,
    near: &mut u32,
) -> Result<bool, Memory>
    requires course { IsCourse (model_at work.now) work.now.shape.now work.now.course.now }
    requires seeds { AreSeeds work.now.shape.now work.now.course.now.cells work.now.seeds.now }
    requires within { All (is_within (length work.now.course.now.cells)) parts.now }
    ensures { IfOk result (λ some. some
        ≡ list_any (is_known_in (ground_of work.now) changed.now) (looks_in work.now.course.now.cells parts.now)) }
{
    'parts: for part in parts {
        if is_part_known(work, part, changed, near)? {
            return Ok(true);
        }
    }
    Ok(false)
}

// The same of one part.
fn is_part_known(
    work: &Work<'_>,
    part: &LookPart,
    changed: &MarkTable,
    near: &mut u32,
) -> Result<bool, Memory>
    requires course { IsCourse (model_at work.now) work.now.shape.now work.now.course.now }
    requires seeds { AreSeeds work.now.shape.now work.now.course.now.cells work.now.seeds.now }
    requires within { is_within (length work.now.course.now.cells) part.now }
    ensures { IfOk result (λ some. some
        ≡ list_any (is_known_in (ground_of work.now) changed.now) (looks_of_part work.now.course.now.cells part.now)) }
{
    match part {
        LookPart::Measure(name) => is_measure_known(work, &name.key, name.measure, changed, near),
        LookPart::Run(m, first, past) => is_run_known(work, *m, *first, *past, changed),
    }
}

// Whether a measure of one of the cells at these places is known to be reached.
fn is_run_known(
    work: &Work<'_>,
    m: u32,
    first: u32,
    past: u32,
    changed: &MarkTable,
) -> Result<bool, Memory>
    requires course { IsCourse (model_at work.now) work.now.shape.now work.now.course.now }
    requires seeds { AreSeeds work.now.shape.now work.now.course.now.cells work.now.seeds.now }
    requires within { past ≤ length work.now.course.now.cells }
    ensures { IfOk result (λ some. some ≡ list_any (is_known_in (ground_of work.now) changed.now)
        (looks_at m (take (past - first) (drop first work.now.course.now.cells)))) }
{
    'places: for place in first..past {
        if is_place_known(work, m, place, changed)? {
            return Ok(true);
        }
    }
    Ok(false)
}

// Whether a measure of the cell at a place is known to be reached.
fn is_place_known(work: &Work<'_>, m: u32, place: u32, changed: &MarkTable) -> Result<bool, Memory>
    requires course { IsCourse (model_at work.now) work.now.shape.now work.now.course.now }
    requires seeds { AreSeeds work.now.shape.now work.now.course.now.cells work.now.seeds.now }
    requires within { place < length work.now.course.now.cells }
    ensures { (other : Tuple) → IfOk result (λ known. known ≡ is_known_in (ground_of work.now) changed.now
        (Measure (cell_name (slice_index_or work.now.course.now.cells place other) m))) }
{
    let key = work.course.cells.key_at(place);
    let mut near = place;
    is_measure_known(work, key, m, changed, &mut near)
}
