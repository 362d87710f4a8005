//! The shape of a model in automatic order: a model and the keys of an input go in, and no value of a cell.
//! Out come the cells in the end, what is assigned and in which rounds, or the first fault or CYCLE.
//! It is the shape of mq_ir's `specs/Shape`, and the rounds of its `specs/Automatic`.
#![tactic(auto)]

mod cycles;
mod growth;
mod indexed;
mod lane_reads;
mod least;
mod lefts;
mod mapping;
mod nodes;
mod numbers;
mod parts;
mod reads;
mod rules;
mod shapes;
mod wanted;

pub use indexed::IndexedShape;
pub use numbers::Numbers;
pub use reads::{places_of, rule_numbered};
pub use shapes::{indexed_shape_of, shape_of};
