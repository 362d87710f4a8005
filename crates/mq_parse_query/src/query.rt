//! Whole queries (docs/LANGUAGE.md, "Queries").

ghost use Rattle.std.specs.Prelude.{◌≡◌, ◌≤◌, length};
ghost use Rattle.mq_ast.specs.declared.levels.TheConstants as level;
ghost use Rattle.mq_ast.specs.Prelude.{EndE, OrderE, QueryE, Stops, query_of};
ghost use Rattle.mq_parse_words.specs.Reading.{IsRead};

use crate::heap::inner;
use crate::model::read_model;
use crate::order::read_order;
use crate::plain::read_plain;
use mq_ast::{Keyword, ModelTree, OrderKey, Plain, Query, levels};
use mq_lexer::Token;
use mq_parse_words::{behind_word, settled};
use mq_values::{Boxed, Fail, Items, Refused};
use std::alloc::Global;

// The keys of ORDER BY, where it stands there, up to a place where no token stands that goes on.
fn read_last(
    alloc: Global,
    t: &[Token<'_>],
    at: usize,
) -> Result<(Items<OrderKey>, usize), Fail<Refused>>
    requires { at ≤ length t.now }
    ensures { IsRead OrderE (Stops level.QUERY) t.now at result }
{
    let (order, to) = read_order(alloc, t, at)?;
    settled(t, to, levels::QUERY)?;
    Ok((order, to))
}

// What stands behind the plain part of a query.
fn read_end(
    alloc: Global,
    t: &[Token<'_>],
    at: usize,
) -> Result<((Option<Boxed<ModelTree>>, Items<OrderKey>), usize), Fail<Refused>>
    requires { at ≤ length t.now }
    ensures { IsRead EndE (Stops level.QUERY) t.now at result }
{
    match behind_word(t, at, Keyword::Model) {
        Some(_) => {
            let (model, mid) = read_model(alloc, t, at)?;
            let (order, to) = read_last(alloc, t, mid)?;
            Ok(((Some(model), order), to))
        }
        None => {
            let (order, to) = read_last(alloc, t, at)?;
            Ok(((None, order), to))
        }
    }
}

fn query_tree(plain: Boxed<Plain>, end: (Option<Boxed<ModelTree>>, Items<OrderKey>)) -> Query
    ensures { result ≡ query_of plain end }
{
    let (model, order) = end;
    Query {
        plain: plain.into_inner(),
        model: inner(model),
        order,
    }
}

/// A query: its plain part, its MODEL clause and its ORDER BY, up to a place where no token stands that goes on.
/// SYNTAX exactly where there is no such query, also behind the last token.
pub fn read_query(
    alloc: Global,
    t: &[Token<'_>],
    at: usize,
) -> Result<(Query, usize), Fail<Refused>>
    ensures { IsRead QueryE (Stops level.QUERY) t.now at result }
{
    let (plain, mid) = read_plain(alloc, t, at)?;
    let (end, to) = read_end(alloc, t, mid)?;
    Ok((query_tree(plain, end), to))
}
