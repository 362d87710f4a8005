//! EXPLAIN CELL (docs/LANGUAGE.md, "Statements").

ghost use Rattle.std.specs.Prelude.{◌≡◌, List, ◌∷◌};
ghost use Rattle.mq_ast.specs.Prelude.{Not, Word};
ghost use Rattle.mq_parse_words.specs.Reading.{from, Anywhere, IsRead};
ghost use Rattle.mq_parse_stmt.specs.Pieces.{Measure, PartOpen, Spot, ValuesEnd};
ghost use Rattle.mq_parse_stmt.specs.Parsing.{Whole};

use crate::pieces::{beside, last, read_word_name};
use mq_ast::{E, Keyword, Stmt, Symbol, Terminal};
use mq_lexer::Token;
use mq_parse_expr::{read_exprs, read_tuple};
use mq_parse_words::{behind_sign, pass_sign, pass_word, read_name};
use mq_values::{Fail, Items, Refused, Words};
use std::alloc::Global;

/// A cell explained, from behind EXPLAIN on.
pub(crate) fn read_explain(alloc: Global, t: &[Token<'_>], at: usize) -> Result<Stmt, Fail<Refused>>
    ensures { Whole (Word Keyword.Explain ∷ from t.now at) result }
{
    let (measure, mid) = read_measure(alloc, t, at)?;
    let spot = last(t, read_spot(alloc, t, mid))?;
    Ok(explained(measure, spot))
}

fn explained(measure: (Words, Words), spot: (Items<E>, Items<E>)) -> Stmt
    ensures { result ≡ Stmt.ExplainCell measure.0 measure.1 spot.0 spot.1 }
{
    let (view, measure) = measure;
    let (part, cell) = spot;
    Stmt::ExplainCell {
        view,
        measure,
        part,
        cell,
    }
}

// The view and its measure, behind CELL and with a point between them.
fn read_measure(
    alloc: Global,
    t: &[Token<'_>],
    at: usize,
) -> Result<((Words, Words), usize), Fail<Refused>>
    ensures { IsRead Measure Anywhere t.now at result }
{
    let (view, mid) = read_word_name(alloc, t, at, Keyword::Cell)?;
    let behind = pass_sign(t, mid, Symbol::Point)?;
    beside(view, read_name(alloc, t, behind))
}

// The values of the partition, where they stand there, and those of the dimensions.
fn read_spot(
    alloc: Global,
    t: &[Token<'_>],
    at: usize,
) -> Result<((Items<E>, Items<E>), usize), Fail<Refused>>
    ensures { IsRead Spot Anywhere t.now at result }
{
    let (part, mid) = read_part(alloc, t, at)?;
    beside(part, read_values(alloc, t, mid))
}

// The values of the partition, where PARTITION stands there, and the square bracket behind them.
fn read_part(alloc: Global, t: &[Token<'_>], at: usize) -> Result<(Items<E>, usize), Fail<Refused>>
    ensures { IsRead PartOpen Anywhere t.now at result }
{
    match behind_sign(t, at, Symbol::OpenSquare) {
        Some(to) => Ok((Items::new(alloc), to)),
        None => read_partition(alloc, t, at),
    }
}

// The values of the partition behind PARTITION, and the square bracket behind them.
fn read_partition(
    alloc: Global,
    t: &[Token<'_>],
    at: usize,
) -> Result<(Items<E>, usize), Fail<Refused>>
    requires { Not (Terminal.Sign Symbol.OpenSquare) (from t.now at) }
    ensures { IsRead PartOpen Anywhere t.now at result }
{
    let tuple = pass_word(t, at, Keyword::Partition)?;
    let (values, end) = read_tuple(alloc, t, tuple)?;
    let to = pass_sign(t, end, Symbol::OpenSquare)?;
    Ok((values, to))
}

// The values of the dimensions, and the square bracket behind them.
fn read_values(
    alloc: Global,
    t: &[Token<'_>],
    at: usize,
) -> Result<(Items<E>, usize), Fail<Refused>>
    ensures { IsRead ValuesEnd Anywhere t.now at result }
{
    let (values, end) = read_exprs(alloc, t, at)?;
    let to = pass_sign(t, end, Symbol::CloseSquare)?;
    Ok((values, to))
}
