//! The kept base rows of a query after a change.
//! The FROM part of a query, its kept rows before a change, and where the rows of the changed table stand now go in; out come its kept rows
//! over the tables as they will stand, or the fault of the walk over all tuples of rows.
#![tactic(auto)]

mod blocks;
mod delta;
mod moves;
mod staged_rows;
mod staged_tables;
mod staying;
mod unions;

pub use delta::{kept_after, kept_rows_in};
pub use moves::{Moves, moves_of};
pub use mq_join::KeptRows;
pub use staged_rows::delta_rows;
pub use staged_tables::StagedTables;
