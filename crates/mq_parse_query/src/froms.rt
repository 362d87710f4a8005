//! The items of FROM (docs/LANGUAGE.md, "Queries").

ghost use Rattle.std.specs.Prelude.{◌≡◌, ◌≤◌, List, Some, None, length, IfOk, MatchOption};
ghost use Rattle.mq_ast.specs.declared.levels.TheConstants as level;
ghost use Rattle.mq_ast.specs.Prelude.{BareFront, ConditionE, FromE, ItemE, OnE, OnFront, Stops, Tok, item_of};
ghost use Rattle.mq_parse_query.specs.Pieces.{JoinFront, Leads, TableE};
ghost use Rattle.mq_parse_words.specs.Reading.{IsRead, from};

use crate::columns::read_alias;
use crate::lists::{Repeated, read_many};
use mq_ast::{FromItem, Keyword, Symbol, levels};
use mq_lexer::Token;
use mq_parse_expr::read_tree;
use mq_parse_words::{Tree, behind_sign, behind_word, pass_word, put_before, read_name, settled};
use mq_values::{Boxed, Fail, Items, Memory, Refused, Words};
use std::alloc::Global;

// A table and its alias.
fn read_table(
    alloc: Global,
    t: &[Token<'_>],
    at: usize,
) -> Result<((Words, Option<Words>), usize), Fail<Refused>>
    ensures { IsRead TableE (Stops level.ITEM) t.now at result }
{
    let (table, mid) = read_name(alloc, t, at)?;
    let (alias, to) = read_alias(alloc, t, mid)?;
    Ok(((table, alias), to))
}

// A table and its alias, as an item without a condition.
fn read_item(
    alloc: Global,
    t: &[Token<'_>],
    at: usize,
) -> Result<(Boxed<FromItem>, usize), Fail<Refused>>
    ensures { IsRead (ItemE None) (Stops level.ITEM) t.now at result }
{
    let (named, to) = read_table(alloc, t, at)?;
    Ok((bare_item(alloc, named)?, to))
}

fn bare_item(alloc: Global, named: (Words, Option<Words>)) -> Result<Boxed<FromItem>, Memory>
    ensures { IfOk result (λ i. i ≡ item_of named.0 named.1 None) }
{
    let (table, alias) = named;
    let on = None;
    Boxed::new(alloc, FromItem { table, alias, on })
}

// ON and a condition.
fn read_condition(alloc: Global, t: &[Token<'_>], at: usize) -> Result<(Tree, usize), Fail<Refused>>
    ensures { IsRead ConditionE (Stops level.ITEM) t.now at result }
{
    let behind = pass_word(t, at, Keyword::On)?;
    let (e, to) = read_tree(alloc, t, behind)?;
    settled(t, to, levels::ITEM)?;
    Ok((e, to))
}

// A table with its alias, and the condition behind it.
fn read_on_item(
    alloc: Global,
    t: &[Token<'_>],
    at: usize,
) -> Result<(Boxed<FromItem>, usize), Fail<Refused>>
    ensures { IsRead OnE (Stops level.ITEM) t.now at result }
{
    let (named, mid) = read_table(alloc, t, at)?;
    let (e, to) = read_condition(alloc, t, mid)?;
    Ok((with_condition(alloc, named, e)?, to))
}

fn with_condition(
    alloc: Global,
    named: (Words, Option<Words>),
    e: Tree,
) -> Result<Boxed<FromItem>, Memory>
    ensures { IfOk result (λ i. i ≡ item_of named.0 named.1 (Some e)) }
{
    let (table, alias) = named;
    let on = Some(e.into_inner());
    Boxed::new(alloc, FromItem { table, alias, on })
}

// The place behind this word and JOIN.
fn behind_join(t: &[Token<'_>], at: usize, word: Keyword) -> Option<usize>
    ensures { MatchOption result ((us : List Tok) → JoinFront word (from t.now at) us → ⊥) (Leads (JoinFront word) t.now at) }
{
    match behind_word(t, at, word) {
        Some(join) => behind_word(t, join, Keyword::Join),
        None => None,
    }
}

// The place behind a comma or CROSS JOIN.
fn bare_front(t: &[Token<'_>], at: usize) -> Option<usize>
    ensures { MatchOption result ((us : List Tok) → BareFront (from t.now at) us → ⊥) (Leads BareFront t.now at) }
{
    match behind_sign(t, at, Symbol::Comma) {
        Some(to) => Some(to),
        None => behind_join(t, at, Keyword::Cross),
    }
}

// The place behind JOIN, alone or behind INNER.
fn on_front(t: &[Token<'_>], at: usize) -> Option<usize>
    ensures { MatchOption result ((us : List Tok) → OnFront (from t.now at) us → ⊥) (Leads OnFront t.now at) }
{
    match behind_word(t, at, Keyword::Join) {
        Some(to) => Some(to),
        None => behind_join(t, at, Keyword::Inner),
    }
}

// The items of FROM behind the first.
struct Joins;

impl Repeated for Joins {
    ghost use Rattle.mq_ast.specs.Continuing.{Stops};
    ghost use Rattle.mq_ast.specs.GrammarQuery.{JoinE};
    ghost use Rattle.mq_ast.specs.Laws.{join_same, join_begins, join_not_stop};
    ghost use Rattle.std.proofs.Common.{arith, rules};

    type Tree = FromItem;

    ghost reads = { JoinE };

    ghost stop = { Stops level.ITEM };

    ghost end = { Stops level.SOURCES };

    ghost one = { join_same };

    ghost end_stops = { Prim.search (arith, rules) };

    ghost next_stops = { join_begins };

    ghost none_at_end = { join_not_stop };

    fn next(
        alloc: Global,
        t: &[Token<'_>],
        at: usize,
    ) -> Result<Option<(Boxed<FromItem>, usize)>, Fail<Refused>> {
        if let Some(behind) = bare_front(t, at) {
            return Ok(Some(read_item(alloc, t, behind)?));
        }
        if let Some(behind) = on_front(t, at) {
            return Ok(Some(read_on_item(alloc, t, behind)?));
        }
        settled(t, at, levels::SOURCES)?;
        Ok(None)
    }
}

/// The items of FROM.
pub(crate) fn read_from(
    alloc: Global,
    t: &[Token<'_>],
    at: usize,
) -> Result<(Items<FromItem>, usize), Fail<Refused>>
    ensures { IsRead FromE (Stops level.SOURCES) t.now at result }
{
    let (first, mid) = read_item(alloc, t, at)?;
    let (mut all, to) = read_many::<Joins>(alloc, t, mid)?;
    put_before(&mut all, first)?;
    Ok((all, to))
}
