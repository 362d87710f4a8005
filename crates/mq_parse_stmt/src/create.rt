//! CREATE and DROP (docs/LANGUAGE.md, "Statements").

ghost use Rattle.std.specs.Prelude.{◌≡◌, ◌≢◌, ◌≤◌, List, ◌∷◌, length};
ghost use Rattle.mq_ast.specs.declared.levels.TheConstants as level;
ghost use Rattle.mq_ast.specs.Prelude.{ColE, EndsCols, MoreOf, Not, NotNullE, SomeOf, Stops, Word, col_of};
ghost use Rattle.mq_parse_words.specs.Reading.{from, Anywhere, IsRead};
ghost use Rattle.mq_parse_stmt.specs.Pieces.{Body, KeyEnd, KeyBehind, NextCol};
ghost use Rattle.mq_parse_stmt.specs.Parsing.{Whole};

use crate::pieces::{beside, last, read_names, read_word_name};
use crate::scenarios::{read_create_scenario, read_drop_scenario};
use mq_ast::{ColDef, Keyword, Stmt, Symbol, Terminal, levels};
use mq_lexer::Token;
use mq_parse_query::read_query;
use mq_parse_words::{
    behind_sign, behind_word, pass_sign, pass_word, read_kind, read_name, settled,
};
use mq_values::{Fail, Items, Kind, Refused, Words};
use std::alloc::Global;

/// A statement that begins with CREATE, from behind it on.
pub(crate) fn read_create(alloc: Global, t: &[Token<'_>], at: usize) -> Result<Stmt, Fail<Refused>>
    ensures { Whole (Word Keyword.Create ∷ from t.now at) result }
{
    if let Some(table) = behind_word(t, at, Keyword::Table) {
        return read_table(alloc, t, table);
    }
    match behind_word(t, at, Keyword::Scenario) {
        Some(scenario) => read_create_scenario(alloc, t, scenario),
        None => read_view(alloc, t, at),
    }
}

// A new table, from behind TABLE on.
fn read_table(alloc: Global, t: &[Token<'_>], at: usize) -> Result<Stmt, Fail<Refused>>
    ensures { Whole (Word Keyword.Create ∷ Word Keyword.Table ∷ from t.now at) result }
{
    let (name, mid) = read_name(alloc, t, at)?;
    let body = last(t, read_body(alloc, t, mid))?;
    Ok(table(name, body))
}

fn table(name: Words, body: (Items<ColDef>, Items<Words>)) -> Stmt
    ensures { result ≡ Stmt.CreateTable name body.0 body.1 }
{
    let (cols, key) = body;
    Stmt::CreateTable { name, cols, key }
}

// A new view, from behind CREATE on.
fn read_view(alloc: Global, t: &[Token<'_>], at: usize) -> Result<Stmt, Fail<Refused>>
    requires table { Not (Terminal.Word Keyword.Table) (from t.now at) }
    requires scenario { Not (Terminal.Word Keyword.Scenario) (from t.now at) }
    ensures { Whole (Word Keyword.Create ∷ from t.now at) result }
{
    let (name, mid) = read_word_name(alloc, t, at, Keyword::View)?;
    let text = pass_word(t, mid, Keyword::As)?;
    let query = last(t, read_query(alloc, t, text))?;
    Ok(Stmt::CreateView { name, query })
}

/// A statement that begins with DROP, from behind it on.
pub(crate) fn read_drop(alloc: Global, t: &[Token<'_>], at: usize) -> Result<Stmt, Fail<Refused>>
    ensures { Whole (Word Keyword.Drop ∷ from t.now at) result }
{
    if let Some(table) = behind_word(t, at, Keyword::Table) {
        return read_drop_table(alloc, t, table);
    }
    match behind_word(t, at, Keyword::Scenario) {
        Some(scenario) => read_drop_scenario(alloc, t, scenario),
        None => read_drop_view(alloc, t, at),
    }
}

// A table dropped, from behind TABLE on.
fn read_drop_table(alloc: Global, t: &[Token<'_>], at: usize) -> Result<Stmt, Fail<Refused>>
    ensures { Whole (Word Keyword.Drop ∷ Word Keyword.Table ∷ from t.now at) result }
{
    let name = last(t, read_name(alloc, t, at))?;
    Ok(Stmt::DropTable { name })
}

// A view dropped, from behind DROP on.
fn read_drop_view(alloc: Global, t: &[Token<'_>], at: usize) -> Result<Stmt, Fail<Refused>>
    requires table { Not (Terminal.Word Keyword.Table) (from t.now at) }
    requires scenario { Not (Terminal.Word Keyword.Scenario) (from t.now at) }
    ensures { Whole (Word Keyword.Drop ∷ from t.now at) result }
{
    let name = last(t, read_word_name(alloc, t, at, Keyword::View))?;
    Ok(Stmt::DropView { name })
}

// The columns of a table and its key, between brackets.
fn read_body(
    alloc: Global,
    t: &[Token<'_>],
    at: usize,
) -> Result<((Items<ColDef>, Items<Words>), usize), Fail<Refused>>
    ensures { IsRead Body Anywhere t.now at result }
{
    let open = pass_sign(t, at, Symbol::Open)?;
    let (cols, mid) = read_cols(alloc, t, open)?;
    beside(cols, read_key_end(alloc, t, mid))
}

// The columns of a table, up to a place where no other begins.
fn read_cols(
    alloc: Global,
    t: &[Token<'_>],
    at: usize,
) -> Result<(Items<ColDef>, usize), Fail<Refused>>
    ensures { IsRead (SomeOf ColE) EndsCols t.now at result }
{
    let (first, mid) = read_col(alloc, t, at)?;
    let (mut all, to) = read_more_cols(alloc, t, mid)?;
    all.put_first(first)?;
    Ok((all, to))
}

// The columns behind the first.
fn read_more_cols(
    alloc: Global,
    t: &[Token<'_>],
    at: usize,
) -> Result<(Items<ColDef>, usize), Fail<Refused>>
    requires in_range { at ≤ length t.now }
    requires stops { Stops level.EXPRESSION (from t.now at) }
    ensures { IsRead (MoreOf ColE) EndsCols t.now at result }
{
    let mut found = Items::new(alloc);
    let mut to = at;
    while let Some(behind) = behind_comma(t, to) {
        let (col, next) = read_col(alloc, t, behind)?;
        found.push(col)?;
        to = next;
    }
    Ok((found, to))
}

// The place behind a comma that PRIMARY does not follow.
fn behind_comma(t: &[Token<'_>], at: usize) -> Option<usize>
    ensures { NextCol t.now at result }
{
    match behind_sign(t, at, Symbol::Comma) {
        Some(next) => match behind_word(t, next, Keyword::Primary) {
            Some(_) => None,
            None => Some(next),
        },
        None => None,
    }
}

// A column: its name, its kind, and NOT NULL where it stands there.
fn read_col(alloc: Global, t: &[Token<'_>], at: usize) -> Result<(ColDef, usize), Fail<Refused>>
    ensures { IsRead ColE (Stops level.EXPRESSION) t.now at result }
{
    let (name, mid) = read_name(alloc, t, at)?;
    let (kind, next) = read_kind(t, mid)?;
    let (not_null, to) = read_not_null(t, next)?;
    Ok((column(name, kind, not_null), to))
}

fn column(name: Words, kind: Kind, not_null: bool) -> ColDef
    ensures { result ≡ col_of name kind not_null }
{
    ColDef {
        name,
        kind,
        not_null,
    }
}

// Whether NOT NULL stands at a place, and the place behind it.
fn read_not_null(t: &[Token<'_>], at: usize) -> Result<(bool, usize), Fail<Refused>>
    requires { at ≤ length t.now }
    ensures { IsRead NotNullE (Stops level.EXPRESSION) t.now at result }
{
    match behind_word(t, at, Keyword::Not) {
        Some(not) => {
            let to = pass_word(t, not, Keyword::Null)?;
            settled(t, to, levels::EXPRESSION)?;
            Ok((true, to))
        }
        None => {
            settled(t, at, levels::EXPRESSION)?;
            Ok((false, at))
        }
    }
}

// The key, where a comma stands before it, and the closing bracket behind it.
fn read_key_end(
    alloc: Global,
    t: &[Token<'_>],
    at: usize,
) -> Result<(Items<Words>, usize), Fail<Refused>>
    ensures { IsRead KeyEnd Anywhere t.now at result }
{
    match behind_sign(t, at, Symbol::Comma) {
        Some(behind) => read_key(alloc, t, behind),
        None => {
            let to = pass_sign(t, at, Symbol::Close)?;
            Ok((Items::new(alloc), to))
        }
    }
}

// The key, from behind its comma on, and the closing bracket behind it.
fn read_key(
    alloc: Global,
    t: &[Token<'_>],
    at: usize,
) -> Result<(Items<Words>, usize), Fail<Refused>>
    ensures { IsRead KeyBehind Anywhere t.now at result }
{
    let primary = pass_word(t, at, Keyword::Primary)?;
    let key = pass_word(t, primary, Keyword::Key)?;
    let (names, end) = read_names(alloc, t, key)?;
    let to = pass_sign(t, end, Symbol::Close)?;
    Ok((names, to))
}
