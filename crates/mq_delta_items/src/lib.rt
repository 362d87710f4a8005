//! The items of a query that takes the rows of one table, row by row, while the table changes.
//! Rows, and later what a change touched, go in; out come the items of each row, and the items that went and came.
//! They are those of mq_ir's `specs/Items`, by the lines of `specs/Lines`.
#![tactic(auto)]

mod columns;
mod conditions;
mod following;
mod laws;
mod lines;

pub use columns::are_columns;
pub use following::{ItemChange, lines_after};
pub use laws::{changes_touch_rows, lines_tell_items};
pub use lines::{RowLines, lines_over, only_table};
