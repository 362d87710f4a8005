//! What a query reads of tables: the rows of its items, its references and its FOR subqueries.
//! Tables and parts of a bound query go in; out come rows, arrays and lists, or the first fault.
//! They are those of mq_ir's `specs/Items`, `specs/References` and `specs/Answer`.
#![tactic(auto)]

mod arrays;
mod joined_rows;
mod lists;
mod sources;
mod whole_tables;

pub use arrays::references_over;
pub use lists::lists_over;
pub use sources::items_over;
