//! The arrays of reference models: a reference and the rows of its own query go in.
//! Out comes the array, its cells ascending by their dimension tuples, or the first fault.
//! It is the array of `mq_ir/specs/References`.
#![tactic(auto)]

mod arrays;
mod place;
mod rows;

pub use arrays::reference;
