//! The MODEL clause (docs/LANGUAGE.md, "The MODEL clause").

ghost use Rattle.std.specs.Prelude.{◌≡◌, ◌≤◌, length, IfOk};
ghost use Rattle.mq_ast.specs.declared.clauses.TheConstants as clause;
ghost use Rattle.mq_ast.specs.Prelude.{BodyE, FrontE, ModelE, Past, TailE, model_of};
ghost use Rattle.mq_parse_query.specs.Pieces.{Modelling, tail_of};
ghost use Rattle.mq_parse_words.specs.Reading.{Anywhere, IsRead};

use crate::heads::{read_axes, read_head, read_main, read_parts, read_return};
use crate::lists::read_many;
use crate::rules::read_rules;
use mq_ast::parts::{Body, Front, Head, Tail};
use mq_ast::{Keyword, ModelTree, Opt, RefTree, RuleTree, Sel};
use mq_lexer::Token;
use mq_parse_words::behind_word;
use mq_values::{Boxed, Fail, Items, Memory, Refused};
use std::alloc::Global;

fn read_front(alloc: Global, t: &[Token<'_>], at: usize) -> Result<(Front, usize), Fail<Refused>>
    requires { at ≤ length t.now }
    ensures { IsRead FrontE (Past clause.REFERENCE) t.now at result }
{
    let (opts, mid) = read_many::<Opt>(alloc, t, at)?;
    let (updated, next) = read_return(t, mid)?;
    let (refs, to) = read_many::<RefTree>(alloc, t, next)?;
    Ok((
        Front {
            opts,
            updated,
            refs,
        },
        to,
    ))
}

fn read_body(alloc: Global, t: &[Token<'_>], at: usize) -> Result<(Body, usize), Fail<Refused>>
    requires { at ≤ length t.now }
    ensures { IsRead BodyE Anywhere t.now at result }
{
    let (main, mid) = read_main(alloc, t, at)?;
    let (parts, next) = read_parts(alloc, t, mid)?;
    let (axes, to) = read_axes(alloc, t, next)?;
    Ok((Body { main, parts, axes }, to))
}

fn read_tail(
    alloc: Global,
    t: &[Token<'_>],
    at: usize,
) -> Result<(Boxed<Tail>, usize), Fail<Refused>>
    requires { at ≤ length t.now }
    ensures { IsRead TailE Anywhere t.now at result }
{
    let (opts, mid) = read_many::<Opt>(alloc, t, at)?;
    let (head, next) = read_head(alloc, t, mid)?;
    let (rules, to) = read_rules(alloc, t, next)?;
    Ok((tail_with(alloc, opts, head, rules)?, to))
}

fn tail_with(
    alloc: Global,
    opts: Items<Opt>,
    head: Boxed<Head>,
    rules: Items<RuleTree>,
) -> Result<Boxed<Tail>, Memory>
    ensures { IfOk result (λ e. e ≡ tail_of opts head rules) }
{
    let head = head.into_inner();
    Boxed::new(alloc, Tail { opts, head, rules })
}

fn model_tree(
    alloc: Global,
    front: Front,
    body: Body,
    tail: Boxed<Tail>,
) -> Result<Boxed<ModelTree>, Memory>
    ensures { IfOk result (λ m. m ≡ model_of front body tail) }
{
    let Front {
        opts,
        updated,
        refs,
    } = front;
    let Body { main, parts, axes } = body;
    let (dims, measures) = axes;
    let Tail {
        opts: main_opts,
        head,
        rules,
    } = tail.into_inner();
    let Head {
        mode,
        auto,
        iterate,
        until,
    } = head;
    Boxed::new(
        alloc,
        ModelTree {
            opts,
            main_opts,
            updated_only: updated,
            refs,
            main,
            parts,
            dims,
            measures,
            mode,
            auto,
            iterate,
            until,
            rules,
        },
    )
}

// A MODEL clause, behind its word.
fn read_modelling(
    alloc: Global,
    t: &[Token<'_>],
    at: usize,
) -> Result<(Boxed<ModelTree>, usize), Fail<Refused>>
    requires { at ≤ length t.now }
    ensures { IsRead Modelling Anywhere t.now at result }
{
    let (front, mid) = read_front(alloc, t, at)?;
    let (body, next) = read_body(alloc, t, mid)?;
    let (tail, to) = read_tail(alloc, t, next)?;
    Ok((model_tree(alloc, front, body, tail)?, to))
}

/// A MODEL clause.
pub(crate) fn read_model(
    alloc: Global,
    t: &[Token<'_>],
    at: usize,
) -> Result<(Boxed<ModelTree>, usize), Fail<Refused>>
    ensures { IsRead ModelE Anywhere t.now at result }
{
    match behind_word(t, at, Keyword::Model) {
        Some(behind) => read_modelling(alloc, t, behind),
        None => Err(Fail::Cause(Refused::Syntax)),
    }
}
