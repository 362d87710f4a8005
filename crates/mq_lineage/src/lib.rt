//! Where the value of a measure of a cell comes from, in automatic order, and whether such an account is right.
//! What was computed of a partition goes in, or steps; out come the steps of a measure, or whether steps are accepted.
//! It is what mq_ir's `specs/Derivations` says.
#![tactic(auto)]

mod adding;
mod assigned;
mod checking;
mod derivations;
mod found;
mod given;
mod looking;
mod naming;
mod node_map;
mod rules;
mod slots;
mod source_set;
mod sources;
mod steps;
mod telling;
#[cfg(test)]
mod tests;

pub use checking::check;
pub use derivations::{derive, derive_lent};
pub use found::what_is_computed_may_be_derived;
