//! The stores of a partition's cells: the input of a partition, and results that are put and cleared, go in.
//! Out come what stands at a measure of a cell, how many were read, and the first fault among the results.
//! Each store meets the one trait `Cells`, whose words stand in `specs/Stores`.
#![tactic(auto)]

mod bounds;
mod cells;
mod column;
mod columns;
mod faults;
mod gather;
mod held;
mod indexed;
mod input;
mod lane;
mod lanes;
mod lent_store;
mod looked;
mod numbers;
mod plain;
mod replays;
mod search;
mod slots;

pub use bounds::{MAX_ASSIGNMENTS, MAX_LOOKS};
pub use cells::Cells;
pub use columns::Columns;
pub use faults::least_fault;
pub use held::Held;
pub use indexed::IndexedCells;
pub use lanes::Lanes;
pub use lent_store::LentStore;
pub use looked::LookCells;
pub use plain::PlainCells;
pub use replays::{CellCall, replay};
pub use search::{cells_ascend, find_measures, keys_ascend};
pub use slots::copy_slot;
