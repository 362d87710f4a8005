//! Laws of binding over more than one catalog: what may change between two bindings without a change of the answer.
//! They come with what holds of the catalogs that a script comes to. Each law is a function that does nothing: its contract is the law.
#![tactic(auto)]

mod bound_views;
mod columns_within;
mod dropped_tables;
mod further_table;
mod refused_statements;
mod statements_between;

pub use bound_views::{scripts_keep_views_bound, views_stay_bound};
pub use columns_within::{columns_stay_within, scripts_keep_catalogs, views_name_measures};
pub use dropped_tables::queries_outlast_other_tables;
pub use further_table::{queries_outlast_a_further_table, statements_outlast_a_further_table};
pub use refused_statements::refusals_alter_nothing;
pub use statements_between::{
    blocks_keep_columns, queries_ignore_views, queries_outlast_statements,
};
