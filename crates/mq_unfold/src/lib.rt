//! The single left sides of a rule in a turn: every FOR with its values put in, in every way.
//! A model, the number of a rule and the turn go in; out come its single left sides in order, or the first fault.
//! It is exactly what mq_ir's `specs/Unfolding` says, for every model and every rule.
#![tactic(auto)]

mod copies;
mod courses;
mod fixed;
mod forms;
mod fronts;
mod left_sides;
mod places;
mod rule_lefts;
mod sources;
mod spreads;
mod steps;
mod turn;

pub use fixed::{Fixed, fixed_left};
pub use left_sides::{UnfoldFault, unfold};
pub use rule_lefts::single_lefts;
