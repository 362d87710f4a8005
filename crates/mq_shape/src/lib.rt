//! The partitions of a query with MODEL: its clause and the rows of its items go in.
//! Out come the partitions, each with its key, the cells with which its rules begin, and the least tuple that stands twice.
//! They are the partitions of `mq_ir/specs/Partitions`.
#![tactic(auto)]

mod cells;
mod cuts;
mod parts;
mod runs;

pub use cells::{RowCells, cells_of};
pub use parts::partitions;
