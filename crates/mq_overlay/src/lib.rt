//! Tables as the changes of a scenario leave them, beside the tables that stand.
//! Tables and changes go in; out come the tables under these changes, or the first change that is refused.
//! It is exactly what mq_ir's `specs/Scenarios` says.
#![tactic(auto)]

mod changed_tables;
#[cfg(test)]
mod tests;
mod under;

pub use changed_tables::Overlay;
pub use under::overlay;
