//! Groups of base rows, and the items of a query for each row or group.
//! Rows that lend their values and the items' expressions go in; out come the items' values, or the first fault.
//! They are the groups and items of `mq_ir/specs/Items`.
#![tactic(auto)]

mod evaluation;
mod grouping;
mod keys;
mod members;
mod places;
mod row_values;

pub use evaluation::{evaluated, items};
pub use grouping::groups;
pub use places::RowPlace;
pub use row_values::RowValues;
