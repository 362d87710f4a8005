//! A model at work on a partition.
ghost use Rattle.std.specs.Prelude.{◌<◌, length};
ghost use Rattle.mq_auto.specs.Walks.{AreRuled, IsAssignedAt, model_in};

use mq_auto_shape::rule_numbered;
use mq_ir::{Model, PartShape, Rule};
use mq_refs::{RefsOrder, ShapeKeys};
use mq_values::Key;

/// A model at work on the shape of a partition, with the keys of the shape, and whether the cells of its references are known
/// to ascend.
#[derive(Clone, Copy)]
pub struct Work<'a> {
    pub model: &'a Model<'a>,
    pub shape: &'a PartShape,
    pub keys: ShapeKeys<'a>,
    pub refs: RefsOrder,
}

/// The assignment at a place: its cell, and its rule.
pub(crate) fn assigned_at<'a>(work: &Work<'a>, place: u32) -> (&'a Key, &'a Rule)
    requires ruled { AreRuled (model_in work.now) work.now.shape.now }
    requires there { place < length work.now.shape.now.assigned }
    ensures { IsAssignedAt (model_in work.now) work.now.shape.now place result.0.now result.1.now }
{
    let assigned = work.shape.assigned.as_slice();
    let assignment = &assigned[place as usize];
    (&assignment.0, rule_numbered(work.model, assignment.2))
}
