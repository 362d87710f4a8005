//! The value of every expression, and whether a condition holds, or the first fault on the way.
//! An expression and the place where it stands go in; out come a value, a truth, or a fault.
//! It is exactly what mq_ir's `specs/Expression` says, for every expression and every place.
#![tactic(auto)]

mod cases;
mod chains;
mod comparisons;
mod conditions;
mod dim_tests;
mod environment;
mod evaluate;
mod leaves;
mod operators;
mod truths;

pub use dim_tests::{converted, test_of};
pub use environment::Env;
pub use evaluate::{eval, holds};
