//! From the tokens of a query to its tree.
//! Tokens and a place go in. Out come the tree that reads the tokens from there and the place behind it, or SYNTAX.
//! Each reader gives what the grammar of mq_ast's `specs/` says, in the words of mq_parse_words's `specs/Reading.antt`.
#![tactic(auto)]

mod columns;
mod froms;
mod heads;
mod heap;
mod left;
mod lists;
mod model;
mod order;
mod plain;
mod query;
mod rules;

pub use left::{Naming, Row};
pub use lists::{Listed, read_list};
pub use plain::read_where;
pub use query::read_query;
