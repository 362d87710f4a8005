//! Binds the names of an expression where it stands: a tree and what is in sight go in, and what the tree is bound to comes out, or the
//! first offence in it. What is visited in which order, and what each node may offend against, is defined in specs/ (ExpressionWalk and
//! what it stands on).
#![tactic(auto)]

mod case_parts;
mod cell_nodes;
mod dimensions;
mod forms;
mod founds;
mod function_nodes;
mod name_nodes;
mod operator_nodes;
mod place_tests;
mod place_visits;
mod presence_nodes;
mod rule_nodes;
mod threes;
mod trees;
mod values;
mod visits;
mod walk;

pub use forms::{has_aggregate, is_condition, name_of};
pub use founds::{Held, expr_of, exprs_of, held, pushed, unboxed};
pub use place_tests::{fits_dimension, place_of};
pub use values::column_leaf;
pub use walk::{bound, bound_each, bound_filter, bound_value};
