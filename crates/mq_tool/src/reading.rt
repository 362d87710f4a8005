//! What the tokens of a statement are read as, and what a statement is bound to.

ghost use Rattle.std.specs.Prelude.{map, IfOk};
ghost use Rattle.mq_values.specs.Answers.{Gives};
ghost use Rattle.mq_lexer.specs.Lexemes.{lexeme};
ghost use Rattle.mq_binder.specs.StatementWalk.{statement_bound};
ghost use Rattle.mq_engine.specs.Catalogs.{catalog_of};
ghost use Rattle.mq_tool.specs.Needs.{CanRun};
ghost use Rattle.mq_tool.specs.Steps.{Finds};

use mq_ast::Stmt;
use mq_binder::bind;
use mq_engine::Engine;
use mq_ir::Bound;
use mq_lexer::Token;
use mq_parse_stmt::parse;
use mq_ready_laws::{
    created_tables_are_new, created_views_are_new, queries_are_ready, views_are_ready,
};
use mq_values::{Boxed, Fail, Refused};
use std::alloc::Global;

/// The statement that the tokens are read as. `TOO_DEEP` comes exactly where they nest too deep, and else `SYNTAX` exactly
/// where no statement reads them (docs/MEANING.md, "Scripts").
pub fn read(alloc: Global, tokens: &[Token<'_>]) -> Result<Boxed<Stmt>, Fail<Refused>>
    ensures { Finds (map lexeme tokens.now) result }
{
    Ok(Boxed::new(alloc, parse(alloc, tokens)?)?)
}

/// What a statement is bound to under the names that stand, or its first offence. What it is bound to
/// can be done.
pub fn bound_of(alloc: Global, engine: &Engine, tree: &Stmt) -> Result<Bound, Fail<Refused>>
    ensures exact { Gives result (statement_bound (catalog_of engine.now) tree.now) }
    ensures can_run { IfOk result (CanRun engine.now) }
{
    created_tables_are_new();
    created_views_are_new();
    queries_are_ready();
    views_are_ready();
    bind(alloc, engine.catalog(), tree)
}
