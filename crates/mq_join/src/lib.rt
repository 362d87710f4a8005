//! The base rows of a query: its FROM items, its ON conditions and WHERE over tables.
//! The FROM part of a query and tables go in; out come its base rows, which lend the values of the tables, or the first fault.
//! They are exactly the base rows of mq_ir's `specs/BaseRows`, for every FROM part and all tables.
#![tactic(auto)]

mod conditions;
mod deciders;
mod from_items;
mod indexes;
mod join_keys;
mod join_row;
mod kept_rows;
mod lookups;
mod passing;
mod plans;
mod query_rows;
mod sight;
mod tuple_scope;
mod walk;

pub use join_row::JoinRow;
pub use kept_rows::{KeptRows, PlaceRows};
pub use query_rows::{
    base_rows, base_rows_choosing, base_rows_in, lend_kept, lend_kept_in, lend_rows, lend_rows_in,
};
