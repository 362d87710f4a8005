//! A change of a partition's input, propagated to the cells that depend on it.
#![tactic(auto)]

mod course;
mod dues;
mod flags;
mod known;
mod mark_table;
mod node_map;
mod number_table;
mod parts;
mod propagating;
mod reader_table;
mod seeds;
mod starting;
mod visiting;
mod walking;
mod work;

pub use course::{Course, course_for_walk, course_of, with_readers};
pub use mq_auto::Verdict;
pub use node_map::NodeMap;
pub use number_table::NumberTable;
pub use propagating::{propagate, propagate_over, propagate_values};
pub use reader_table::ReaderTable;
