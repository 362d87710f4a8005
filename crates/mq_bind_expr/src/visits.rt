//! The walk over parts of an expression, from left to right.

ghost use Rattle.mq_values.specs.Answers.{Gives};
ghost use Rattle.mq_ir.specs.Results.{each};
ghost use Rattle.mq_bind_expr.specs.CaseLaws as cases;
ghost use Rattle.mq_bind_expr.specs.ExpressionParts as parts;
ghost use Rattle.mq_bind_expr.specs.ExpressionRolls as rolls;

use crate::founds::{Held, push_held, push_term, some_part};
use crate::walk::bound_tree;
use mq_ast::{Arm, E, ProdTerm, SumTerm};
use mq_bind_scopes::{Found, Position, Scope};
use mq_values::{Boxed, Fail, Items, ProdOp, Refused, SumOp};
use std::alloc::Global;

/// What each of several expressions is bound to, or the first offence in them.
#[cycle(expression)]
pub fn found_each(
    alloc: Global,
    scope: &Scope,
    at: Position,
    es: &[E],
) -> Result<Items<Found>, Fail<Refused>>
    ensures { Gives result (parts.all_found scope.now at es.now) }
{
    let mut found = Items::new(alloc);
    'es: for e in es {
        push_held(&mut found, bound_tree(alloc, scope, at, e)?)?;
    }
    Ok(found)
}

/// The same of the terms of a sum, each with its sign.
#[cycle(expression)]
pub fn found_terms(
    alloc: Global,
    scope: &Scope,
    at: Position,
    terms: &[SumTerm],
) -> Result<Items<(SumOp, Found)>, Fail<Refused>>
    ensures { Gives result (each (parts.sum_found scope.now at) terms.now) }
{
    let mut found = Items::new(alloc);
    'terms: for term in terms {
        push_term(&mut found, term.op, bound_tree(alloc, scope, at, &term.e)?)?;
    }
    Ok(found)
}

/// The same of the factors of a product.
#[cycle(expression)]
pub fn found_factors(
    alloc: Global,
    scope: &Scope,
    at: Position,
    terms: &[ProdTerm],
) -> Result<Items<(ProdOp, Found)>, Fail<Refused>>
    ensures { Gives result (each (parts.prod_found scope.now at) terms.now) }
{
    let mut found = Items::new(alloc);
    'terms: for term in terms {
        push_term(&mut found, term.op, bound_tree(alloc, scope, at, &term.e)?)?;
    }
    Ok(found)
}

// An arm of CASE: its test, and then its result.
#[cycle(expression)]
fn found_arm(
    alloc: Global,
    scope: &Scope,
    at: Position,
    arm: &Arm,
) -> Result<(Held, Held), Fail<Refused>>
    ensures { Gives result (rolls.arm_found scope.now at arm.now) }
{
    let test = bound_tree(alloc, scope, at, &arm.test)?;
    let value = bound_tree(alloc, scope, at, &arm.value)?;
    Ok((test, value))
}

/// The arms of a CASE.
#[cycle(expression)]
pub fn found_arms(
    alloc: Global,
    scope: &Scope,
    at: Position,
    arms: &[Arm],
) -> Result<Items<(Held, Held)>, Fail<Refused>>
    ensures { Gives result (each (rolls.arm_found scope.now at) arms.now) }
{
    let mut found = Items::new(alloc);
    'arms: for arm in arms {
        found.push(found_arm(alloc, scope, at, arm)?)?;
    }
    Ok(found)
}

/// A part that may be left out.
#[cycle(expression)]
pub fn found_if_any(
    alloc: Global,
    scope: &Scope,
    at: Position,
    e: &Option<Boxed<E>>,
) -> Result<Option<Held>, Fail<Refused>>
    ensures { Gives result (cases.found_if_any scope.now at e.now) }
{
    match e {
        Some(e) => some_part(bound_tree(alloc, scope, at, e.get())),
        None => Ok(None),
    }
}
