//! What is kept of a view.
ghost use Rattle.std.specs.Prelude.{◌≡◌};
ghost use Rattle.mq_kept.specs.Kept as spec;

use mq_auto_shape::IndexedShape;
use mq_cells::IndexedCells;
use mq_delta_cells::Course;
use mq_delta_items::RowLines;
use mq_ir::{PartInput, PartResult, RefArray};
use mq_values::{Items, Key};
use std::sync::Arc;

/// What is kept of a view with MODEL: the rows of its FOR subqueries, the arrays of its references and its partitions, ascending by
/// their keys; and, where its query takes the rows of one table, what it makes of each of them (`IsKept` of `specs/Kept`).
#[derive(Drop)]
pub struct KeptView {
    pub lists: Items<Items<Key>>,
    pub refs: Items<RefArray>,
    pub parts: Items<KeptPart>,
    pub lines: Option<RowLines>,
}

/// What is kept of a partition: its input, what was found of it, and the rows that it adds to the answer of its view, once these were
/// asked for.
#[derive(Drop)]
pub struct KeptPart {
    pub input: PartInput,
    pub state: PartState,
    pub shown: Option<ShownRows>,
}

/// The rows that a partition adds to the answer of its view, each with the columns of the partition, the dimensions and the measures;
/// and how many cells it has.
#[derive(Drop)]
pub struct ShownRows {
    pub count: usize,
    pub rows: Items<Key>,
}

/// What was found of a partition: nothing yet; its shape with its values, where it is in automatic order and has them; or else what
/// its rules made.
#[derive(Drop)]
pub enum PartState {
    NotKept,
    Automatic(ShapedCells),
    Made(PartResult),
}

/// The shape of a partition, shared with others whose cells are at its keys, and a store with its automatic values.
#[derive(Drop)]
pub struct ShapedCells {
    pub shape: Arc<SharedShape>,
    pub cells: IndexedCells,
}

/// A shape with its rounds and the indexes of its keys; and, where it is a small one, by what a change of values goes over it.
#[derive(Drop)]
pub struct SharedShape {
    pub found: IndexedShape,
    pub course: Option<Course>,
}

impl KeptPart {
    /// A partition of which nothing was found yet.
    pub fn new(input: PartInput) -> KeptPart
        ensures { result ≡ spec.unsettled input }
    {
        KeptPart {
            input,
            state: PartState::NotKept,
            shown: None,
        }
    }
}
