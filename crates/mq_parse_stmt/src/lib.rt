//! From the tokens of a statement to its tree.
//! The tokens of one statement go in. Out comes the tree that reads all of them, or TOO_DEEP or SYNTAX.
//! `specs/Parsing.antt` says when each comes, over the grammar of mq_ast's `specs/`.
#![tactic(auto)]

mod blocks;
mod change;
mod create;
mod depth;
mod explain;
mod pieces;
mod scenarios;
mod statement;

pub use statement::parse;
