//! The shapes of partitions, which those with cells at the same keys share.
ghost use Rattle.std.specs.Prelude.{◌≡◌, true, IfOk, IfSome};
ghost use Rattle.mq_ir.specs.Ready.{IsReady};
ghost use Rattle.mq_ir.specs.Unfolding.{model_of};
ghost use Rattle.mq_auto.specs.Findings.{IsLevelled};
ghost use Rattle.mq_delta_cells.specs.Courses.{IsCourse};
ghost use Rattle.mq_kept.specs.Kept.{IsShapeFound, IsShared, IsServing};

use crate::kept_view::SharedShape;
use mq_auto::{judge, serves};
use mq_auto_shape::IndexedShape;
use mq_delta_cells::{Course, course_of, with_readers};
use mq_dim_index::DimIndex;
use mq_ir::{Model, PartInput};
use mq_values::{Items, Memory, QueryFault};
use std::alloc::Global;
use std::sync::Arc;

/// So many cells, and so many assignments, a shape has at most that is kept with its course: that of a longer one may take far more
/// memory than its cells, so it is made for one walk.
pub const LONGEST_WITH_COURSE: usize = 512;

/// The shape of an input, by one of the same model that was found before where that serves; or the first fault of the input or the
/// shape, or CYCLE. A shape that serves a second time has its course from then on, where it is a small one. `Memory` is the only error.
pub fn shape_after(
    alloc: Global,
    m: &Model<'_>,
    p: &PartInput,
    last: Option<Arc<SharedShape>>,
) -> Result<Result<Arc<SharedShape>, QueryFault>, Memory>
    requires automatic { m.now.part.now.auto ≡ true }
    requires ready { IsReady m.now.part.now p.now }
    requires last { IsServing (model_of m.now) last }
    ensures { IfOk result (IsShapeFound (model_of m.now) p.now) }
{
    match last {
        Some(shape) => shape_by(alloc, m, p, shape),
        None => made_shape(alloc, m, p, false),
    }
}

// The same, where this one was found before.
fn shape_by(
    alloc: Global,
    m: &Model<'_>,
    p: &PartInput,
    shape: Arc<SharedShape>,
) -> Result<Result<Arc<SharedShape>, QueryFault>, Memory>
    requires automatic { m.now.part.now.auto ≡ true }
    requires ready { IsReady m.now.part.now p.now }
    requires shape { IsShared (model_of m.now) shape.value }
    ensures { IfOk result (IsShapeFound (model_of m.now) p.now) }
{
    if !serves(p, &shape.found.shape) {
        return made_shape(alloc, m, p, false);
    }
    if is_whole(&shape) {
        return Ok(Ok(shape));
    }
    made_shape(alloc, m, p, true)
}

// Whether nothing is to be added to a shape.
fn is_whole(shape: &SharedShape) -> bool {
    shape.course.is_some() || is_long(&shape.found)
}

// The shape of an input, made anew; a small one with its course, where that is wanted.
fn made_shape(
    alloc: Global,
    m: &Model<'_>,
    p: &PartInput,
    with_course: bool,
) -> Result<Result<Arc<SharedShape>, QueryFault>, Memory>
    requires automatic { m.now.part.now.auto ≡ true }
    requires ready { IsReady m.now.part.now p.now }
    ensures { IfOk result (IsShapeFound (model_of m.now) p.now) }
{
    let judged = judge(alloc, m, p)?;
    match judged {
        Ok(found) => Ok(Ok(shared(alloc, m, found, with_course)?)),
        Err(fault) => Ok(Err(fault)),
    }
}

/// A shape, to be shared from now on; a small one with its course, where that is wanted.
pub fn shared(
    alloc: Global,
    m: &Model<'_>,
    found: IndexedShape,
    with_course: bool,
) -> Result<Arc<SharedShape>, Memory>
    requires { IsLevelled (model_of m.now) found }
    ensures same { IfOk result (λ s. s.value.found.shape ≡ found.shape) }
    ensures shared { IfOk result (λ s. IsShared (model_of m.now) s.value) }
{
    let course = small_course(alloc, m, &found, with_course)?;
    Ok(Arc::new(alloc, SharedShape { found, course })?)
}

// The course of a small shape, where it is wanted. It serves more than once.
fn small_course(
    alloc: Global,
    m: &Model<'_>,
    found: &IndexedShape,
    with_course: bool,
) -> Result<Option<Course>, Memory>
    requires { IsLevelled (model_of m.now) found.now }
    ensures { IfOk result (λ course. IfSome course (IsCourse (model_of m.now) found.now.shape)) }
{
    if !with_course || is_long(found) {
        return Ok(None);
    }
    let course = course_over(alloc, m, found)?;
    Ok(Some(with_readers(alloc, course)?))
}

fn is_long(found: &IndexedShape) -> bool {
    found.shape.cells.len() > LONGEST_WITH_COURSE
        || found.shape.assigned.len() > LONGEST_WITH_COURSE
}

// The course of a shape, which stays as it is.
fn course_over(alloc: Global, m: &Model<'_>, found: &IndexedShape) -> Result<Course, Memory>
    requires { IsLevelled (model_of m.now) found.now }
    ensures { IfOk result (IsCourse (model_of m.now) found.now.shape) }
{
    let rounds = copy_of_rounds(alloc, found.leveled.rounds.as_slice())?;
    let base = DimIndex::new(alloc, found.base.keys())?;
    let cells = DimIndex::new(alloc, found.cells.keys())?;
    course_of(alloc, m, &found.shape, rounds, base, cells)
}

fn copy_of_rounds(alloc: Global, rounds: &[Items<u32>]) -> Result<Items<Items<u32>>, Memory>
    ensures { IfOk result (λ copy. copy ≡ rounds.now) }
{
    let mut copy = Items::with_room(alloc, rounds.len());
    for round in rounds {
        copy.push(copy_of_round(alloc, round.as_slice())?)?;
    }
    Ok(copy)
}

fn copy_of_round(alloc: Global, round: &[u32]) -> Result<Items<u32>, Memory>
    ensures { IfOk result (λ copy. copy ≡ round.now) }
{
    let mut copy = Items::with_room(alloc, round.len());
    for place in round {
        copy.push(*place)?;
    }
    Ok(copy)
}
