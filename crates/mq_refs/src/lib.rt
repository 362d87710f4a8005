//! The right sides of rules: a rule, a target, a turn and the cells of a partition go in.
//! Out come what the target looks at, and, over the cells as they are, its value, its fault, or that it is poisoned.
//! They are the looks and the slot of mq_ir's `specs/Looks` and `specs/Slots`.
#![tactic(auto)]

mod cell_keys;
mod indexed;
mod inside;
mod lenders;
mod lent;
mod lent_places;
mod looks;
mod names;
mod order;
mod parts;
mod plain;
mod reading;
mod references;
mod seen;
mod shape_keys;
mod sighting;
mod sights;
mod standpoint;
mod targets;
mod walk;
mod worths;

pub use cell_keys::CellKeys;
pub use looks::{looks_of, looks_over};
pub use order::{RefsOrder, UNKNOWN_ORDER, refs_order};
pub use parts::{LookPart, look_parts};
pub use reading::{Reading, cell_value};
pub use shape_keys::ShapeKeys;
pub use standpoint::Standpoint;
pub use targets::{eval_cell, lent_value, slot_over, value_over};
pub use worths::Worths;
