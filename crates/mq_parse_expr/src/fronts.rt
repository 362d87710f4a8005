//! What stands at the front of a part of an expression, up to the next expression in it.

ghost use Rattle.std.specs.Prelude.{◌≡◌, ◌≢◌, ◌≤◌, ◌<◌, ◌+◌, List, ◌∷◌, length, IfOk, IfSome, MatchOption};
ghost use Rattle.mq_values.specs.declared.operators.SumOp.{SumOp};
ghost use Rattle.mq_values.specs.declared.operators.ProdOp.{ProdOp};
ghost use Rattle.mq_ast.specs.Tokens.{Tok, Word, Sign, closer, terminal_at};
ghost use Rattle.mq_ast.specs.declared.levels.TheConstants as level;
ghost use Rattle.mq_ast.specs.Continuing.{Stops, Not};
ghost use Rattle.mq_ast.specs.GrammarExpression.{PrimE};
ghost use Rattle.mq_parse_words.specs.Reading.{from, Then, Anywhere, IsRead};
ghost use Rattle.mq_parse_words.specs.Forms.{FormInside, IsLeaf, TailInside, form_of as spec_form, tail_of as spec_tail};
ghost use Rattle.mq_parse_words.specs.Fronts.{AsKind, Behind, Heads, HeadsAll, HeadsCells, NoAll, NoCells, IsTestE, NullOrPresent, Since, ToScale, is_front};

use mq_ast::{E, Keyword, Symbol, Terminal, levels};
use mq_lexer::Token;
use mq_parse_words::{
    AggHead, Form, IsTest, Tail, Tree, behind_sign, behind_word, column, form_of, judged, name_at,
    number, number_at, pass_sign, pass_word, read_day, read_int, read_kind, read_name, settled,
    sign_at, stops, tail_of, terminal, text_at,
};
use mq_values::{Agg, Boxed, Fail, Kind, Memory, Num, ProdOp, Refused, SumOp, Value};
use std::alloc::Global;

/// The kind of primary expression that begins at a place.
pub(crate) fn form_at(t: &[Token<'_>], at: usize) -> Form
    ensures form { result ≡ spec_form (terminal_at (from t.now at)) }
    ensures inside { FormInside result t.now at }
{
    form_of(terminal(t, at))
}

/// How a test goes on at a place.
pub(crate) fn tail_at(t: &[Token<'_>], at: usize) -> Tail
    ensures tail { result ≡ spec_tail (terminal_at (from t.now at)) }
    ensures inside { TailInside result t.now at }
{
    tail_of(terminal(t, at))
}

/// The sign with which a sum goes on at a place.
#[tactic(auto, using(mq_parse_words::specs::TokenLemmas::sign_next))]
pub(crate) fn sum_op(t: &[Token<'_>], at: usize) -> Option<SumOp>
    ensures { MatchOption result ((op : SumOp) → Not (Terminal.Sign (Symbol.Sum op)) (from t.now at)) (λ op. Then (Sign (Symbol.Sum op)) t.now at (at + 1)) }
{
    match sign_at(t, at) {
        Some(Symbol::Sum(op)) => Some(op),
        _ => None,
    }
}

/// The sign with which a product goes on at a place.
#[tactic(auto, using(mq_parse_words::specs::TokenLemmas::sign_next))]
pub(crate) fn prod_op(t: &[Token<'_>], at: usize) -> Option<ProdOp>
    ensures { MatchOption result ((op : ProdOp) → Not (Terminal.Sign (Symbol.Prod op)) (from t.now at)) (λ op. Then (Sign (Symbol.Prod op)) t.now at (at + 1)) }
{
    match sign_at(t, at) {
        Some(Symbol::Prod(op)) => Some(op),
        _ => None,
    }
}

/// How an aggregate goes on behind its word.
pub(crate) fn agg_head<'a>(t: &[Token<'a>], at: usize, agg: Agg) -> AggHead<'a>
    ensures { Heads agg result t.now at }
{
    match all_end(t, at, agg) {
        Some(to) => AggHead::All(to),
        None => match cells_start(t, at) {
            Some((measure, to)) => AggHead::Cells(measure, to),
            None => AggHead::Values,
        },
    }
}

// The place behind the brackets of COUNT(*).
fn all_end(t: &[Token<'_>], at: usize, agg: Agg) -> Option<usize>
    ensures { MatchOption result (NoAll agg (from t.now at)) (HeadsAll agg t.now at) }
{
    match agg {
        Agg::Count => star_end(t, at),
        _ => None,
    }
}

// The place behind a star between brackets.
fn star_end(t: &[Token<'_>], at: usize) -> Option<usize>
    ensures { MatchOption result (NoAll Agg.Count (from t.now at)) (HeadsAll Agg.Count t.now at) }
{
    match behind_sign(t, at, Symbol::Open) {
        Some(open) => match behind_sign(t, open, Symbol::Prod(ProdOp::Mul)) {
            Some(close) => behind_sign(t, close, Symbol::Close),
            None => None,
        },
        None => None,
    }
}

// A name between brackets before an opening square bracket, and that bracket's place.
fn cells_start<'a>(t: &[Token<'a>], at: usize) -> Option<(&'a str, usize)>
    ensures { MatchOption result (NoCells (from t.now at)) (λ p. HeadsCells p.0.now t.now at p.1) }
{
    match behind_sign(t, at, Symbol::Open) {
        Some(open) => match name_at(t, open) {
            Some(name) => match square_behind(t, open + 1) {
                Some(to) => Some((name, to)),
                None => None,
            },
            None => None,
        },
        None => None,
    }
}

// The place of an opening square bracket behind a closing bracket.
fn square_behind(t: &[Token<'_>], at: usize) -> Option<usize>
    ensures { MatchOption result ((us : List Tok) → from t.now at ≡ closer ∷ us → Not (Terminal.Sign Symbol.OpenSquare) us) (λ next. Then closer t.now at next × (terminal_at (from t.now next) ≡ Terminal.Sign Symbol.OpenSquare)) }
{
    match behind_sign(t, at, Symbol::Close) {
        Some(to) => match behind_sign(t, to, Symbol::OpenSquare) {
            Some(_) => Some(to),
            None => None,
        },
        None => None,
    }
}

/// How many members a list begins with room for, by what stands behind its first: most lists have one member, and take
/// no more than that.
pub(crate) fn room(t: &[Token<'_>], at: usize) -> usize {
    match behind_sign(t, at, Symbol::Comma) {
        Some(_) => 4,
        None => 1,
    }
}

/// AS, a kind and the closing bracket of a CAST.
pub(crate) fn read_as_kind(t: &[Token<'_>], at: usize) -> Result<(Kind, usize), Fail<Refused>>
    ensures { IsRead AsKind Anywhere t.now at result }
{
    let mid = pass_word(t, at, Keyword::As)?;
    let (kind, end) = read_kind(t, mid)?;
    let to = pass_sign(t, end, Symbol::Close)?;
    Ok((kind, to))
}

/// A comma, a number without a point and the closing bracket of a ROUND.
pub(crate) fn read_to_scale(t: &[Token<'_>], at: usize) -> Result<(Num, usize), Fail<Refused>>
    ensures { IsRead ToScale Anywhere t.now at result }
{
    let mid = pass_sign(t, at, Symbol::Comma)?;
    let (scale, end) = read_int(t, mid)?;
    let to = pass_sign(t, end, Symbol::Close)?;
    Ok((scale, to))
}

/// A primary expression that holds no other: a literal, CV or ITERATION_NUMBER.
pub(crate) fn read_leaf(
    alloc: Global,
    t: &[Token<'_>],
    at: usize,
    form: Form,
) -> Result<(Tree, usize), Fail<Refused>>
    requires in_range { at + 1 ≤ length t.now }
    requires begins { form ≡ spec_form (terminal_at (from t.now at)) }
    requires leaf { IsLeaf form }
    ensures { IsRead PrimE Anywhere t.now at result }
{
    let (e, to) = read_small(alloc, t, at, form)?;
    Ok((Boxed::new(alloc, e)?, to))
}

fn read_small(
    alloc: Global,
    t: &[Token<'_>],
    at: usize,
    form: Form,
) -> Result<(E, usize), Fail<Refused>>
    requires in_range { at + 1 ≤ length t.now }
    requires begins { form ≡ spec_form (terminal_at (from t.now at)) }
    requires leaf { IsLeaf form }
    ensures { IsRead PrimE Anywhere t.now at result }
{
    match form {
        Form::Number => match number_at(t, at) {
            Some(number) => Ok((E::Lit(Value::Num(number)), at + 1)),
            None => Err(Fail::Cause(Refused::Syntax)),
        },
        Form::Text => match text_at(alloc, t, at)? {
            Some(text) => Ok((E::Lit(Value::Text(text)), at + 1)),
            None => Err(Fail::Cause(Refused::Syntax)),
        },
        Form::Null => Ok((E::Lit(Value::Null), at + 1)),
        Form::Date => read_date(alloc, t, at + 1),
        Form::Turn => Ok((E::Turn, at + 1)),
        Form::Cv => read_cv(alloc, t, at + 1),
        _ => Err(Fail::Cause(Refused::Syntax)),
    }
}

// A name or a number at a place, where one stands there.
fn operand(alloc: Global, t: &[Token<'_>], at: usize) -> Result<Option<Tree>, Memory>
    ensures { IfOk result (λ o. IfSome o (λ e. PrimE e (from t.now at) (from t.now (at + 1)))) }
{
    if let Some(name) = name_at(t, at) {
        return Ok(Some(column(alloc, name)?));
    }
    match number_at(t, at) {
        Some(found) => Ok(Some(number(alloc, found)?)),
        None => Ok(None),
    }
}

/// A name or a number at a place, where one stands there and the token behind it does not go on at this level: so it
/// is seen with one look at each of them, and not level by level. None says nothing.
pub(crate) fn read_lone(
    alloc: Global,
    t: &[Token<'_>],
    at: usize,
    level: u8,
) -> Result<Option<Tree>, Memory>
    ensures { IfOk result (λ o. IfSome o (λ e. (at < length t.now) × PrimE e (from t.now at) (from t.now (at + 1)) × Stops level (from t.now (at + 1)))) }
{
    if at < t.len() && stops(t, at + 1, level) {
        operand(alloc, t, at)
    } else {
        Ok(None)
    }
}

// A date, behind DATE.
fn read_date(alloc: Global, t: &[Token<'_>], at: usize) -> Result<(E, usize), Fail<Refused>>
    ensures { IsRead (Behind (Word Keyword.Date)) Anywhere t.now at result }
{
    let (day, to) = read_day(alloc, t, at)?;
    Ok((E::Lit(Value::Date(day)), to))
}

// CV, behind its word.
fn read_cv(alloc: Global, t: &[Token<'_>], at: usize) -> Result<(E, usize), Fail<Refused>>
    ensures { IsRead (Behind (Word Keyword.Cv)) Anywhere t.now at result }
{
    let open = pass_sign(t, at, Symbol::Open)?;
    if let Some(to) = behind_sign(t, open, Symbol::Close) {
        return Ok((E::Cv(None), to));
    }
    let (name, end) = read_name(alloc, t, open)?;
    let to = pass_sign(t, end, Symbol::Close)?;
    Ok((E::Cv(Some(name)), to))
}

// NULL or PRESENT.
fn null_or_present(t: &[Token<'_>], at: usize, not: bool) -> Result<(IsTest, usize), Fail<Refused>>
    ensures { IsRead (NullOrPresent not) Anywhere t.now at result }
{
    match behind_word(t, at, Keyword::Null) {
        Some(to) => Ok((IsTest::Null(not), to)),
        None => {
            let to = pass_word(t, at, Keyword::Present)?;
            Ok((IsTest::Present(not), to))
        }
    }
}

// What a test by IS asks.
fn is_test(t: &[Token<'_>], at: usize) -> Result<(IsTest, usize), Fail<Refused>>
    ensures { IsRead IsTestE Anywhere t.now at result }
{
    if let Some(to) = behind_word(t, at, Keyword::Any) {
        return Ok((IsTest::Any, to));
    }
    match behind_word(t, at, Keyword::Not) {
        Some(behind) => null_or_present(t, behind, true),
        None => null_or_present(t, at, false),
    }
}

/// A test by IS, behind it.
pub(crate) fn read_is(
    alloc: Global,
    t: &[Token<'_>],
    at: usize,
    a: Tree,
) -> Result<(Tree, usize), Fail<Refused>>
    ensures { IsRead (Since is_front a) (Stops level.TEST) t.now at result }
{
    let (test, to) = is_test(t, at)?;
    settled(t, to, levels::TEST)?;
    Ok((judged(alloc, a, test)?, to))
}
