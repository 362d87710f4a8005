//! What is bound may run as it is.
//! A created table or view is new, and the model of a query has left sides and rows of the widths that its rules ask for: laws on
//! functions that do nothing, the contract of each being the law.
#![tactic(auto)]

mod laws;

pub use laws::{created_tables_are_new, created_views_are_new, queries_are_ready, views_are_ready};
