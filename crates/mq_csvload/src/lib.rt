//! The rows of a table that the bytes of a CSV file hold.
//! In go the bytes and the table's columns; out come the rows in their order, or the refusal of LOAD.
//! `specs/Loading` defines what the bytes of a file say, and `specs/Fields` what those of a field do.
#![tactic(auto)]

mod fields;
mod header;
mod laws;
mod loading;
mod records;
mod rows;

pub use laws::loaded_rows_are_rows;
pub use loading::load_rows;

#[cfg(test)]
mod tests;
