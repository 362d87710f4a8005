//! The walk over an expression: what it is bound to where it stands, or the first offence in it
//! (docs/LANGUAGE.md, "The order of binding").

ghost use Rattle.mq_values.specs.Answers.{Gives};
ghost use Rattle.mq_bind_expr.specs.ExpressionParts as parts;
ghost use Rattle.mq_bind_expr.specs.ExpressionWalk as spec;
ghost use Rattle.mq_bind_expr.specs.Following.{Follows};
ghost use Rattle.mq_bind_expr.specs.PartWalks as walks;

use crate::cell_nodes::{agg_node, cell_node, count_all_node, range_node};
use crate::founds::{Held, Operand, both, expr_of, held, is_condition_found, push_held};
use crate::function_nodes::{call_node, case_node};
use crate::name_nodes::name_node;
use crate::operator_nodes::{
    and_node, between_node, cast_node, cmp_node, in_node, lit_node, neg_node, not_node, null_node,
    or_node, prod_node, sum_node,
};
use crate::place_visits::{bound_indices, bound_tests};
use crate::presence_nodes::{other_presence, presence_asked, presentnnv_node, presentv_node};
use crate::rule_nodes::{cv_node, present_node, previous_node, turn_node};
use crate::values::a_condition;
use crate::visits::{found_arms, found_each, found_factors, found_if_any, found_terms};
use mq_ast::{E, Path, Place};
use mq_bind_scopes::{
    Found, MISUSE_OF_RULE_FORM, Position, Scope, aggregated, any_inside_place, inner, mismatch,
    misuse, owner_of,
};
use mq_ir::Expr;
use mq_values::{Boxed, Fail, Items, Refused};
use std::alloc::Global;

/// What an expression is bound to where it stands. A literal or a name alone, as most values of a change are, is bound without a
/// step into the circle of calls that goes over a tree. The first offence in it is the refusal (docs/LANGUAGE.md, "The order of
/// binding").
#[tactic(auto, using(crate::specs::OperatorLaws::bound_lit, crate::specs::ExpressionLaws::bound_name))]
pub fn bound(alloc: Global, scope: &Scope, at: Position, e: &E) -> Result<Held, Fail<Refused>>
    ensures { Gives result (spec.bound scope.now e.now at) }
{
    match e {
        E::Lit(v) => held(alloc, lit_node(v)),
        E::Name(path) => held(alloc, name_node(alloc, scope, at, path)),
        _ => bound_tree(alloc, scope, at, e),
    }
}

/// The same of several expressions, from left to right.
pub fn bound_each(
    alloc: Global,
    scope: &Scope,
    at: Position,
    es: &[E],
) -> Result<Items<Found>, Fail<Refused>>
    ensures { Gives result (parts.all_found scope.now at es.now) }
{
    let mut found = Items::new(alloc);
    'es: for e in es {
        push_held(&mut found, bound(alloc, scope, at, e)?)?;
    }
    Ok(found)
}

/// What a tree is bound to where it stands.
#[cycle(expression)]
pub fn bound_tree(alloc: Global, scope: &Scope, at: Position, e: &E) -> Result<Held, Fail<Refused>>
    ensures { Gives result (spec.bound scope.now e.now at) }
{
    held(alloc, found_of(alloc, scope, at, e))
}

// The same where it stands, by its form: its operands from left to right, and then its node, which hands on the first offence in
// them. An operand is walked also behind one that offends. So no arm has an exit of its own, which would be proved with the whole
// circle of calls.
#[cycle(expression)]
#[tactic(auto, using(crate::specs::ExpressionLaws::bound_laws))]
fn found_of(alloc: Global, scope: &Scope, at: Position, e: &E) -> Result<Found, Fail<Refused>>
    ensures { Gives result (spec.bound scope.now e.now at) }
{
    let within = inner(at);
    match e {
        E::Or(es) => or_node(alloc, found_each(alloc, scope, within, es.as_slice())),
        E::And(es) => and_node(alloc, found_each(alloc, scope, within, es.as_slice())),
        E::Not(a) => not_node(alloc, bound_tree(alloc, scope, within, a.get())),
        E::Cmp(a, op, b) => {
            let a = bound_tree(alloc, scope, within, a.get());
            let b = bound_tree(alloc, scope, within, b.get());
            let sides = both(a, b);
            cmp_node(alloc, *op, sides)
        }
        E::Between(a, negated, low, high) => {
            let a = bound_tree(alloc, scope, within, a.get());
            let low = bound_tree(alloc, scope, within, low.get());
            let high = bound_tree(alloc, scope, within, high.get());
            let range = both(low, high);
            let tested = both(a, range);
            between_node(alloc, *negated, tested)
        }
        E::InList(a, negated, es) => {
            let a = bound_tree(alloc, scope, within, a.get());
            let members = found_each(alloc, scope, within, es.as_slice());
            let listed = both(a, members);
            in_node(alloc, *negated, listed)
        }
        E::IsNull(a, negated) => {
            null_node(alloc, *negated, bound_tree(alloc, scope, within, a.get()))
        }
        E::IsPresent(a, negated) => {
            present_node(at, *negated, bound_tree(alloc, scope, within, a.get()))
        }
        E::IsAny(a) => any_node(at, bound_tree(alloc, scope, within, a.get())),
        E::Sum(first, terms) => {
            let first = bound_tree(alloc, scope, within, first.get());
            let terms = found_terms(alloc, scope, within, terms.as_slice());
            let addends = both(first, terms);
            sum_node(alloc, addends)
        }
        E::Prod(first, terms) => {
            let first = bound_tree(alloc, scope, within, first.get());
            let terms = found_factors(alloc, scope, within, terms.as_slice());
            let factors = both(first, terms);
            prod_node(alloc, factors)
        }
        E::Neg(a) => neg_node(alloc, bound_tree(alloc, scope, within, a.get())),
        E::Lit(v) => lit_node(v),
        E::Name(path) => name_node(alloc, scope, at, path),
        E::Cell(path, places) => cell_of(alloc, scope, at, path, places.as_slice()),
        E::Agg(agg, a) => {
            agg_node(
                alloc,
                at,
                *agg,
                bound_tree(alloc, scope, aggregated(at), a.get()),
            )
        }
        E::CountAll => count_all_node(at),
        E::RangeAgg(agg, name, places) => {
            let tests = bound_tests(alloc, scope, at, places.as_slice());
            range_node(alloc, scope, at, *agg, name, tests)
        }
        E::Case(of, arms, or_else) => {
            let subject = found_if_any(alloc, scope, within, of);
            let arms = found_arms(alloc, scope, within, arms.as_slice());
            let or_else = found_if_any(alloc, scope, within, or_else);
            let results = both(arms, or_else);
            let parts = both(subject, results);
            case_node(alloc, parts)
        }
        E::Cast(a, kind) => cast_node(alloc, *kind, bound_tree(alloc, scope, within, a.get())),
        E::Call(func, es) => {
            call_node(
                alloc,
                *func,
                found_each(alloc, scope, within, es.as_slice()),
            )
        }
        E::Cv(name) => cv_node(alloc, scope, at, name),
        E::Turn => turn_node(scope, at),
        E::Previous(a) => previous_node(at, bound_tree(alloc, scope, within, a.get())),
        E::PresentV(es) => {
            presentv_node(alloc, at, found_each(alloc, scope, within, es.as_slice()))
        }
        E::PresentNnv(es) => presentnnv_of(alloc, scope, at, es.as_slice()),
    }
}

// IS ANY.
fn any_node(at: Position, found: Operand) -> Result<Found, Fail<Refused>>
    ensures { Follows found (walks.any_found at) result }
{
    let f = found?;
    if any_inside_place(at) {
        return Err(misuse(MISUSE_OF_RULE_FORM));
    }
    Ok(a_condition(f.into_inner().e))
}

// A single cell.
#[cycle(expression)]
fn cell_of(
    alloc: Global,
    scope: &Scope,
    at: Position,
    path: &Path,
    places: &[Place],
) -> Result<Found, Fail<Refused>>
    ensures { Gives result (walks.cell_found scope.now at path.now places.now) }
{
    let owner = owner_of(alloc, scope, path)?;
    let indices = bound_indices(alloc, scope, at, owner, places);
    cell_node(alloc, scope, at, path, owner, indices)
}

// PRESENTNNV. What its cell is bound to is needed twice; by then no other PRESENTNNV can stand in it.
#[cycle(expression)]
#[tactic(auto, using(crate::proofs::AgainLemmas::asked_fault, crate::proofs::AgainLemmas::first_again, crate::proofs::AgainLemmas::again_exit))]
fn presentnnv_of(
    alloc: Global,
    scope: &Scope,
    at: Position,
    es: &[E],
) -> Result<Found, Fail<Refused>>
    ensures { Gives result (walks.presentnnv_found scope.now at es.now) }
{
    match es {
        [cell, ..] => {
            let found = found_each(alloc, scope, inner(at), es)?;
            presence_asked(at, found.as_slice())?;
            let again = bound_tree(alloc, scope, inner(at), cell)?;
            presentnnv_node(alloc, at, found, again)
        }
        [] => other_presence(at),
    }
}

/// The same where a value is needed.
pub fn bound_value(alloc: Global, scope: &Scope, at: Position, e: &E) -> Result<Held, Fail<Refused>>
    ensures { Gives result (spec.bound_value scope.now at e.now) }
{
    let found = bound(alloc, scope, at, e)?;
    if is_condition_found(found.get()) {
        return Err(mismatch());
    }
    Ok(found)
}

/// The bound form where a condition is needed.
pub fn bound_condition(
    alloc: Global,
    scope: &Scope,
    at: Position,
    e: &E,
) -> Result<Boxed<Expr>, Fail<Refused>>
    ensures { Gives result (spec.bound_condition scope.now at e.now) }
{
    let found = bound(alloc, scope, at, e)?;
    if !is_condition_found(found.get()) {
        return Err(mismatch());
    }
    Ok(expr_of(alloc, found)?)
}

/// The bound form of a condition that may be left out.
pub fn bound_filter(
    alloc: Global,
    scope: &Scope,
    at: Position,
    filter: &Option<E>,
) -> Result<Option<Boxed<Expr>>, Fail<Refused>>
    ensures { Gives result (spec.bound_filter scope.now at filter.now) }
{
    match filter {
        Some(e) => Ok(Some(bound_condition(alloc, scope, at, e)?)),
        None => Ok(None),
    }
}
