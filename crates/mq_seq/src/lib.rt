//! The rules of a model in sequential order: a model and the input of a partition go in.
//! Out come the cells that the rules leave, each with whether it was a target, or the first fault.
//! It is what mq_ir's `specs/Iteration` and `specs/Sequential` say.
#![tactic(auto)]

mod acting;
mod assigning;
mod grid;
mod lefts;
mod marked_cells;
mod noted;
mod outcomes;
mod prepared;
mod rules;
mod self_order;
mod turns;
mod until;

pub use outcomes::run_seq;
