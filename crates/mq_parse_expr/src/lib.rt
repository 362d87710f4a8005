//! From the tokens of an expression to its tree.
//! Tokens and a place go in. Out come the tree that reads the tokens from there and the place behind it, or SYNTAX.
//! Each reader gives what the grammar of mq_ast's `specs/` says, in the words of mq_parse_words's `specs/Reading.antt`.
#![tactic(auto)]

mod expressions;
mod fronts;
mod lones;

pub use expressions::{read_expr, read_exprs, read_round, read_round_tree, read_tree, read_tuple};
