//! What is known of looks while a walk goes on.
ghost use Rattle.std.specs.Prelude.{◌≡◌, IfOk};
ghost use Rattle.std.specs.List.{list_any};
ghost use Rattle.mq_ir.specs.declared.query.Look.TheVariants.{Measure};
ghost use Rattle.mq_cells.specs.Stores.{cell_name};
ghost use Rattle.mq_delta_cells.specs.Courses.{IsCourse};
ghost use Rattle.mq_delta_cells.specs.Seeds.{AreSeeds};
ghost use Rattle.mq_delta_cells.specs.Walks.{ground_of, is_known_in, model_at};

use crate::mark_table::MarkTable;
use crate::seeds::{begins_at_measure, begins_at_presence};
use crate::work::Work;
use mq_ir::Look;
use mq_values::{Key, Memory};

/// Whether one of these looks is known to be reached. Cells are looked for beside the place `near` first.
pub fn is_some_known(
    work: &Work<'_>,
    looks: &[Look],
    changed: &MarkTable,
    near: &mut u32,
) -> Result<bool, Memory>
    requires course { IsCourse (model_at work.now) work.now.shape.now work.now.course.now }
    requires seeds { AreSeeds work.now.shape.now work.now.course.now.cells work.now.seeds.now }
    ensures { IfOk result (λ some. some ≡ list_any (is_known_in (ground_of work.now) changed.now) looks.now) }
{
    for look in looks {
        if is_known(work, look, changed, near)? {
            return Ok(true);
        }
    }
    Ok(false)
}

// Whether a look is known to be reached.
fn is_known(
    work: &Work<'_>,
    look: &Look,
    changed: &MarkTable,
    near: &mut u32,
) -> Result<bool, Memory>
    requires course { IsCourse (model_at work.now) work.now.shape.now work.now.course.now }
    requires seeds { AreSeeds work.now.shape.now work.now.course.now.cells work.now.seeds.now }
    ensures { IfOk result (λ known. known ≡ is_known_in (ground_of work.now) changed.now look.now) }
{
    match look {
        Look::Measure(name) => is_measure_known(work, &name.key, name.measure, changed, near),
        Look::Presence(key) => Ok(begins_at_presence(work, key)),
    }
}

/// Whether measure `m` of the cell at `key` is known to be reached.
pub fn is_measure_known(
    work: &Work<'_>,
    key: &Key,
    m: u32,
    changed: &MarkTable,
    near: &mut u32,
) -> Result<bool, Memory>
    requires course { IsCourse (model_at work.now) work.now.shape.now work.now.course.now }
    requires seeds { AreSeeds work.now.shape.now work.now.course.now.cells work.now.seeds.now }
    ensures { IfOk result (λ known. known ≡ is_known_in (ground_of work.now) changed.now (Measure (cell_name key.now m))) }
{
    if changed.has(&work.course.cells, key, m, near)? {
        return Ok(true);
    }
    begins_at_measure(work, key, m, near)
}
