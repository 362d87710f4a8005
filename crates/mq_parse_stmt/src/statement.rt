//! Whole statements (docs/LANGUAGE.md, "Statements").

ghost use Rattle.std.specs.Prelude.{◌≡◌, ◌≢◌, ◌≤◌, List, ◌∷◌, length};
ghost use Rattle.mq_ast.specs.Prelude.{Not, Word};
ghost use Rattle.mq_parse_words.specs.Reading.{from};
ghost use Rattle.mq_parse_stmt.specs.Parsing.{Parses, Whole};
ghost use Rattle.mq_parse_stmt.specs.Results.{changed as spec_changed};

use crate::blocks::{read_begin, read_commit, read_rollback};
use crate::change::read_change;
use crate::create::{read_create, read_drop};
use crate::depth::is_too_deep;
use crate::explain::read_explain;
use crate::pieces::{last, read_word_name};
use crate::scenarios::{read_compare, read_under};
use mq_ast::{ChangeTree, Keyword, Stmt, Terminal};
use mq_lexer::Token;
use mq_parse_query::read_query;
use mq_parse_words::{behind_word, pass_word, read_name, read_text};
use mq_values::{Fail, Refused};
use std::alloc::Global;

/// The statement that reads all of the tokens. TOO_DEEP exactly where they are too deep, and else SYNTAX exactly
/// where no statement reads them.
pub fn parse(alloc: Global, tokens: &[Token<'_>]) -> Result<Stmt, Fail<Refused>>
    ensures parses { Parses (from tokens.now 0) result }
{
    if is_too_deep(tokens) {
        Err(Fail::Cause(Refused::TooDeep))
    } else {
        read_statement(alloc, tokens)
    }
}

// The statement, whatever its depth.
fn read_statement(alloc: Global, t: &[Token<'_>]) -> Result<Stmt, Fail<Refused>>
    ensures { Whole (from t.now 0) result }
{
    if let Some(behind) = behind_word(t, 0, Keyword::Create) {
        return read_create(alloc, t, behind);
    }
    if let Some(behind) = behind_word(t, 0, Keyword::Drop) {
        return read_drop(alloc, t, behind);
    }
    if let Some(behind) = behind_word(t, 0, Keyword::Select) {
        return read_rows(alloc, t, behind);
    }
    if let Some(behind) = behind_word(t, 0, Keyword::Show) {
        return read_show(alloc, t, behind);
    }
    if let Some(behind) = behind_word(t, 0, Keyword::Load) {
        return read_load(alloc, t, behind);
    }
    if let Some(behind) = behind_word(t, 0, Keyword::Explain) {
        return read_explain(alloc, t, behind);
    }
    read_other(alloc, t)
}

// A change, a statement of blocks or one of scenarios.
fn read_other(alloc: Global, t: &[Token<'_>]) -> Result<Stmt, Fail<Refused>>
    requires create { Not (Terminal.Word Keyword.Create) (from t.now 0) }
    requires drops { Not (Terminal.Word Keyword.Drop) (from t.now 0) }
    requires select { Not (Terminal.Word Keyword.Select) (from t.now 0) }
    requires show { Not (Terminal.Word Keyword.Show) (from t.now 0) }
    requires load { Not (Terminal.Word Keyword.Load) (from t.now 0) }
    requires explain { Not (Terminal.Word Keyword.Explain) (from t.now 0) }
    ensures { Whole (from t.now 0) result }
{
    if let Some(behind) = behind_word(t, 0, Keyword::Begin) {
        return read_begin(t, behind);
    }
    if let Some(behind) = behind_word(t, 0, Keyword::Commit) {
        return read_commit(t, behind);
    }
    if let Some(behind) = behind_word(t, 0, Keyword::Rollback) {
        return read_rollback(t, behind);
    }
    if let Some(behind) = behind_word(t, 0, Keyword::Under) {
        return read_under(alloc, t, behind);
    }
    match behind_word(t, 0, Keyword::Compare) {
        Some(behind) => read_compare(alloc, t, behind),
        None => changed(read_change(alloc, t, 0)),
    }
}

// A change that was read, as a statement.
fn changed(found: Result<ChangeTree, Fail<Refused>>) -> Result<Stmt, Fail<Refused>>
    ensures { result ≡ spec_changed found }
{
    let change = found?;
    Ok(Stmt::Change(change))
}

// A query, with SELECT before the place.
fn read_rows(alloc: Global, t: &[Token<'_>], behind: usize) -> Result<Stmt, Fail<Refused>>
    requires { from t.now 0 ≡ Word Keyword.Select ∷ from t.now behind }
    ensures { Whole (from t.now 0) result }
{
    let query = last(t, read_query(alloc, t, 0))?;
    Ok(Stmt::Query(query))
}

// What is shown, from behind SHOW on.
fn read_show(alloc: Global, t: &[Token<'_>], at: usize) -> Result<Stmt, Fail<Refused>>
    ensures { Whole (Word Keyword.Show ∷ from t.now at) result }
{
    let name = last(t, read_name(alloc, t, at))?;
    Ok(Stmt::Show { name })
}

// The rows of a file put into a table, from behind LOAD on.
fn read_load(alloc: Global, t: &[Token<'_>], at: usize) -> Result<Stmt, Fail<Refused>>
    ensures { Whole (Word Keyword.Load ∷ from t.now at) result }
{
    let (name, mid) = read_word_name(alloc, t, at, Keyword::Into)?;
    let text = pass_word(t, mid, Keyword::From)?;
    let file = last(t, read_text(alloc, t, text))?;
    Ok(Stmt::Load { name, file })
}
