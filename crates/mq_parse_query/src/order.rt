//! The keys of ORDER BY (docs/LANGUAGE.md, "Queries").

ghost use Rattle.std.specs.Prelude.{◌≡◌, ◌≢◌, ◌≤◌, length, MatchResult};
ghost use Rattle.mq_ast.specs.Prelude.{DirectionE, EndsKey, EndsOrder, OrderE, key_of};
ghost use Rattle.mq_parse_words.specs.Reading.{Fails, IsRead, from};

use crate::lists::{Listed, read_list};
use mq_ast::{Keyword, OrderKey, Symbol};
use mq_lexer::Token;
use mq_parse_words::{behind_sign, behind_word, pass_word, read_name};
use mq_values::{Fail, Items, Refused, Words};
use std::alloc::Global;

// Nothing, where neither ASC nor DESC stands at the place; else SYNTAX.
fn ends_key(t: &[Token<'_>], at: usize) -> Result<(), Fail<Refused>>
    ensures { MatchResult result (λ _. EndsKey (from t.now at)) (λ f. Fails f (EndsKey (from t.now at) → ⊥)) }
{
    if let Some(_) = behind_word(t, at, Keyword::Asc) {
        return Err(Fail::Cause(Refused::Syntax));
    }
    match behind_word(t, at, Keyword::Desc) {
        Some(_) => Err(Fail::Cause(Refused::Syntax)),
        None => Ok(()),
    }
}

// Nothing, where an ORDER BY has ended at the place; else SYNTAX.
fn ends_order(t: &[Token<'_>], at: usize) -> Result<(), Fail<Refused>>
    ensures { MatchResult result (λ _. EndsOrder (from t.now at)) (λ f. Fails f (EndsOrder (from t.now at) → ⊥)) }
{
    if let Some(_) = behind_word(t, at, Keyword::Order) {
        return Err(Fail::Cause(Refused::Syntax));
    }
    match behind_sign(t, at, Symbol::Comma) {
        Some(_) => Err(Fail::Cause(Refused::Syntax)),
        None => ends_key(t, at),
    }
}

// ASC, DESC or neither; whether it is DESC.
fn read_direction(t: &[Token<'_>], at: usize) -> Result<(bool, usize), Fail<Refused>>
    requires { at ≤ length t.now }
    ensures { IsRead DirectionE EndsKey t.now at result }
{
    if let Some(to) = behind_word(t, at, Keyword::Asc) {
        ends_key(t, to)?;
        return Ok((false, to));
    }
    if let Some(to) = behind_word(t, at, Keyword::Desc) {
        ends_key(t, to)?;
        return Ok((true, to));
    }
    Ok((false, at))
}

impl Listed for OrderKey {
    ghost use Rattle.mq_ast.specs.Prelude.{EndsKey, KeyE};
    ghost use Rattle.mq_ast.specs.Laws.{key_same};
    ghost use Rattle.std.proofs.Common.{arith, rules};

    type Tree = OrderKey;

    ghost reads = { KeyE };

    ghost stop = { EndsKey };

    ghost one = { key_same };

    ghost before_comma = { Prim.search (arith, rules) };

    fn read(alloc: Global, t: &[Token<'_>], at: usize) -> Result<(OrderKey, usize), Fail<Refused>> {
        let (name, mid) = read_name(alloc, t, at)?;
        let (desc, to) = read_direction(t, mid)?;
        Ok((key_with(name, desc), to))
    }
}

fn key_with(name: Words, desc: bool) -> OrderKey
    ensures { result ≡ key_of name desc }
{
    OrderKey { name, desc }
}

/// The keys of ORDER BY, where it stands there.
pub(crate) fn read_order(
    alloc: Global,
    t: &[Token<'_>],
    at: usize,
) -> Result<(Items<OrderKey>, usize), Fail<Refused>>
    requires { at ≤ length t.now }
    ensures { IsRead OrderE EndsOrder t.now at result }
{
    let Some(order) = behind_word(t, at, Keyword::Order) else {
        ends_order(t, at)?;
        return Ok((Items::new(alloc), at));
    };
    let by = pass_word(t, order, Keyword::By)?;
    let (keys, to) = read_list::<OrderKey>(alloc, t, by)?;
    ends_order(t, to)?;
    Ok((keys, to))
}
