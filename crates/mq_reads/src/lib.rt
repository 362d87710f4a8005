//! What a right side reads of values in hand: a value under NAV, the choice of PRESENTV and PRESENTNNV, and aggregates.
//! Values and what is known of a cell go in; out comes the value that is read, or a fault.
//! Each call gives what mq_ir's `specs/Nav` and `specs/Conditions` and mq_values' `specs/Aggregate` say.
#![tactic(auto)]

mod aggregates;
mod measures;
mod presence;

pub use aggregates::{Aggregation, add_summand, aggregate};
pub use measures::nav;
pub use presence::{presentnnv, presentv};
