//! The rules of a MODEL clause (docs/LANGUAGE.md, "The MODEL clause").

ghost use Rattle.std.specs.Prelude.{◌≡◌, ◌≤◌, ◌<◌, length, MatchResult};
ghost use Rattle.mq_parse_words.specs.Reading.{Anywhere, Fails, IsRead, from};
ghost use Rattle.std.proofs.Common.{arith};
ghost use Rattle.mq_ast.specs.declared.clauses.TheConstants as clause;
ghost use Rattle.mq_ast.specs.declared.levels.TheConstants as level;
ghost use Rattle.mq_ast.specs.Prelude.{MaybeMode, Past, RuleE, RuleFront, RuleList, RuleRight, Stops, part, rule_of, terminal_at};
ghost use Rattle.mq_ast.specs.Laws.{rule_same};
ghost use Rattle.mq_parse_query.specs.Pieces.{Upserts};

use crate::left::{read_closed, read_left};
use crate::lists::Listed;
use crate::order::read_order;
use mq_ast::{Keyword, LeftTree, OrderKey, RuleTree, Symbol, Terminal, clauses};
use mq_lexer::Token;
use mq_parse_expr::read_tree;
use mq_parse_words::{Tree, behind_sign, behind_word, pass_sign, read_name, terminal, token_at};
use mq_values::{Boxed, CmpOp, Fail, Items, Mode, Refused, Words};
use std::alloc::Global;

// Which part of a MODEL clause begins so (docs/LANGUAGE.md, "The MODEL clause").
fn part_of(terminal: Terminal) -> u8
    ensures { result ≡ part terminal }
{
    match terminal {
        Terminal::Word(word) => match word {
            Keyword::Ignore | Keyword::Keep | Keyword::Unique => clauses::OPTION,
            Keyword::Return => clauses::RETURN,
            Keyword::Reference => clauses::REFERENCE,
            Keyword::Main => clauses::MAIN,
            Keyword::Partition => clauses::PARTITION,
            Keyword::Update | Keyword::Upsert | Keyword::All => clauses::MODE,
            Keyword::Automatic | Keyword::Sequential => clauses::ORDER,
            Keyword::Iterate => clauses::ITERATE,
            Keyword::Until => clauses::UNTIL,
            _ => clauses::NONE,
        },
        _ => clauses::NONE,
    }
}

/// Nothing, where no part of a MODEL clause up to this one begins at the place; else SYNTAX.
pub(crate) fn past(t: &[Token<'_>], at: usize, last: u8) -> Result<(), Fail<Refused>>
    ensures { MatchResult result (λ _. Past last (from t.now at)) (λ f. Fails f (part (terminal_at (from t.now at)) ≤ last)) }
{
    if part_of(terminal(t, at)) > last {
        Ok(())
    } else {
        Err(Fail::Cause(Refused::Syntax))
    }
}

// UPSERT with ALL or without it, behind UPSERT.
fn read_upsert(t: &[Token<'_>], at: usize) -> Result<(Option<Mode>, usize), Fail<Refused>>
    requires { at ≤ length t.now }
    ensures { IsRead Upserts (Past clause.MODE) t.now at result }
{
    match behind_word(t, at, Keyword::All) {
        Some(to) => {
            past(t, to, clauses::MODE)?;
            Ok((Some(Mode::UpsertAll), to))
        }
        None => {
            past(t, at, clauses::MODE)?;
            Ok((Some(Mode::Upsert), at))
        }
    }
}

/// A mode, where one stands there.
pub(crate) fn read_mode(t: &[Token<'_>], at: usize) -> Result<(Option<Mode>, usize), Fail<Refused>>
    requires { at ≤ length t.now }
    ensures { IsRead MaybeMode (Past clause.MODE) t.now at result }
{
    if let Some(to) = behind_word(t, at, Keyword::Update) {
        past(t, to, clauses::MODE)?;
        return Ok((Some(Mode::Update), to));
    }
    match behind_word(t, at, Keyword::Upsert) {
        Some(behind) => read_upsert(t, behind),
        None => {
            past(t, at, clauses::MODE)?;
            Ok((None, at))
        }
    }
}

// The mode, the measure and the opening square bracket of a rule.
fn read_front(
    alloc: Global,
    t: &[Token<'_>],
    at: usize,
) -> Result<((Option<Mode>, Words), usize), Fail<Refused>>
    requires { at ≤ length t.now }
    ensures { IsRead RuleFront Anywhere t.now at result }
{
    let (mode, mid) = read_mode(t, at)?;
    let (measure, end) = read_name(alloc, t, mid)?;
    let to = pass_sign(t, end, Symbol::OpenSquare)?;
    Ok(((mode, measure), to))
}

// The order and the right side of a rule, with the equal sign between them.
fn read_right(
    alloc: Global,
    t: &[Token<'_>],
    at: usize,
) -> Result<((Items<OrderKey>, Tree), usize), Fail<Refused>>
    requires { at ≤ length t.now }
    ensures { IsRead RuleRight (Stops level.EXPRESSION) t.now at result }
{
    let (order, end) = read_order(alloc, t, at)?;
    let behind = pass_sign(t, end, Symbol::Cmp(CmpOp::Eq))?;
    let (right, to) = read_tree(alloc, t, behind)?;
    Ok(((order, right), to))
}

fn rule_tree(
    front: (Option<Mode>, Words),
    left: Boxed<LeftTree>,
    right: (Items<OrderKey>, Tree),
) -> RuleTree
    ensures { result ≡ rule_of front left right }
{
    let (mode, measure) = front;
    let (order, right) = right;
    RuleTree {
        mode,
        measure,
        left: left.into_inner(),
        order,
        right: right.into_inner(),
    }
}

// A rule.
fn read_rule(alloc: Global, t: &[Token<'_>], at: usize) -> Result<(RuleTree, usize), Fail<Refused>>
    requires { at ≤ length t.now }
    ensures { IsRead RuleE (Stops level.EXPRESSION) t.now at result }
{
    let (front, mid) = read_front(alloc, t, at)?;
    let (left, next) = read_left(alloc, t, mid)?;
    let (right, to) = read_right(alloc, t, next)?;
    Ok((rule_tree(front, left, right), to))
}

impl Listed for RuleTree {
    type Tree = RuleTree;

    ghost reads = { RuleE };

    ghost stop = { Stops level.EXPRESSION };

    fn read(alloc: Global, t: &[Token<'_>], at: usize) -> Result<(RuleTree, usize), Fail<Refused>> {
        match token_at(t, at) {
            Some(_) => read_rule(alloc, t, at),
            None => Err(Fail::Cause(Refused::Syntax)),
        }
    }

    ghost one = { rule_same };

    ghost before_comma = { λ ts. Prim.omega arith };
}

/// The rules between brackets, with commas between them; the brackets may be empty.
pub(crate) fn read_rules(
    alloc: Global,
    t: &[Token<'_>],
    at: usize,
) -> Result<(Items<RuleTree>, usize), Fail<Refused>>
    ensures { IsRead RuleList Anywhere t.now at result }
{
    let open = pass_sign(t, at, Symbol::Open)?;
    match behind_sign(t, open, Symbol::Close) {
        Some(to) => Ok((Items::new(alloc), to)),
        None => read_closed::<RuleTree>(alloc, t, open, Symbol::Close),
    }
}
