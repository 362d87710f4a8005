//! What a change touched.
ghost use Rattle.std.specs.Prelude.{◌≡◌};
ghost use Rattle.mq_tables.specs.Touching.{count_of};

use crate::flags::Flags;
use mq_ir::Row;
use mq_values::Items;

/// What a change touched, as places, with the rows that stood there before it (docs/MEANING.md, "Changes"). Places are
/// counted from 0, and those of a list ascend.
#[derive(Drop)]
pub enum Touched {
    /// INSERT: this many rows came behind the `first` that stood there.
    Added {
        first: usize,
        count: usize,
    },
    /// UPDATE: the rows that were visited as true, as they stood. The new ones stand at the same places.
    Replaced(Items<(u32, Row)>),
    /// DELETE: for each row whether it is gone, and those that are.
    Gone {
        flags: Flags,
        rows: Items<(u32, Row)>,
    },
}

impl Touched {
    /// How many rows are counted.
    pub fn count(&self) -> usize
        ensures { result ≡ count_of self.now }
    {
        match self {
            Touched::Added { count, .. } => *count,
            Touched::Replaced(rows) => rows.len(),
            Touched::Gone { rows, .. } => rows.len(),
        }
    }
}
