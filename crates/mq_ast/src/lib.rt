//! The trees of statements, queries and expressions, and the terminals of the grammar that reads them from tokens.
//! Nothing goes in and nothing comes out: these are the types that the readers build and the binder takes.
//! Which tree reads which tokens is the relation of specs/: `GrammarExpression`, `GrammarQuery`, `GrammarModel`, `GrammarRule`,
//! `GrammarChange` and `GrammarStatement`, which go on in `GrammarNames`, `GrammarLists` and `GrammarHead`.
#![tactic(auto)]

pub mod clauses;
mod expressions;
mod laws;
pub mod levels;
pub mod parts;
mod queries;
mod statements;

pub use expressions::{Arm, E, Path, Place, ProdTerm, SumTerm};
pub use laws::{
    one_conjunction, one_expression, one_plain, one_primary, one_product, one_query, one_statement,
    one_sum, one_test, tokens_are_read,
};
pub use mq_lexer::{Keyword, Symbol, Terminal};
pub use queries::{
    ForList, FromItem, LeftPlace, LeftTree, ModelTree, Opt, OrderKey, Plain, Query, RefTree,
    RuleTree, Sel,
};
pub use statements::{ChangeTree, ColDef, Stmt};
