//! The walk over the places of a bracket, each with its number.

ghost use Rattle.std.specs.Prelude.{None, Ok};
ghost use Rattle.mq_ir.specs.declared.expression.Test.TheVariants as made;
ghost use Rattle.mq_values.specs.Answers.{Gives};
ghost use Rattle.mq_bind_expr.specs.CellNodes.{unless_rule_form};
ghost use Rattle.mq_bind_expr.specs.ExpressionParts as parts;
ghost use Rattle.mq_bind_expr.specs.ExpressionRolls as rolls;
ghost use Rattle.mq_bind_scopes.specs.Misuses as misuses;
ghost use Rattle.mq_bind_expr.specs.PartWalks as walks;
ghost use Rattle.mq_bind_expr.specs.PlaceTests as tests;
ghost use Rattle.mq_bind_expr.specs.Steps.{each_from};

use crate::forms::is_condition;
use crate::founds::push_held;
use crate::place_tests::{index_of, place_found, placed, placed_at, test_in};
use crate::walk::bound_tree;
use mq_ast::{E, Place};
use mq_bind_scopes::{
    MISUSE_OF_RULE_FORM, Owner, Placed, Position, Scope, bracketed, inner, is_left, misuse, number,
    outside_rules, place_kind,
};
use mq_ir::{Expr, Test};
use mq_values::{Boxed, Fail, Items, Refused};
use std::alloc::Global;

fn any_placed(at: Position) -> Result<Placed, Fail<Refused>>
    ensures { Gives result (unless_rule_form (misuses.outside_rules at) (Ok (tests.placed made.Any None))) }
{
    if outside_rules(at) {
        return Err(misuse(MISUSE_OF_RULE_FORM));
    }
    Ok(placed(Test::Any, None))
}

// Outside rules the bracket around it is refused anyway, and nothing else is asked of a place.
#[cycle(expression)]
fn placed_elsewhere(
    alloc: Global,
    scope: &Scope,
    at: Position,
    e: &E,
) -> Result<Placed, Fail<Refused>>
    ensures { Gives result (walks.placed_elsewhere scope.now at e.now) }
{
    placed_at(bound_tree(alloc, scope, inner(at), e))
}

#[cycle(expression)]
fn placed_in_rule(
    alloc: Global,
    scope: &Scope,
    at: Position,
    owner: Owner,
    n: u32,
    e: &E,
) -> Result<Placed, Fail<Refused>>
    ensures { Gives result (walks.placed_in_rule scope.now at owner n e.now) }
{
    let found = bound_tree(alloc, scope, bracketed(at, owner, n, is_condition(e)), e);
    place_found(alloc, place_kind(scope, owner, n), e, found)
}

// A place of a bracket.
#[cycle(expression)]
#[tactic(auto, using(crate::specs::ExpressionRolls::place_laws))]
fn bound_place(
    alloc: Global,
    scope: &Scope,
    at: Position,
    owner: Owner,
    n: u32,
    place: &Place,
) -> Result<Placed, Fail<Refused>>
    ensures { Gives result (rolls.place_bound scope.now place.now at owner n) }
{
    match place {
        Place::Any => any_placed(at),
        Place::Expr(e) => {
            if outside_rules(at) {
                placed_elsewhere(alloc, scope, at, e)
            } else {
                placed_in_rule(alloc, scope, at, owner, n, e)
            }
        }
    }
}

// The index of a single cell in a place.
#[cycle(expression)]
fn bound_index(
    alloc: Global,
    scope: &Scope,
    at: Position,
    owner: Owner,
    n: u32,
    place: &Place,
) -> Result<Boxed<Expr>, Fail<Refused>>
    ensures { Gives result (parts.index_found scope.now at owner n place.now) }
{
    let place = bound_place(alloc, scope, at, owner, n, place);
    index_of(alloc, is_left(at.part), place_kind(scope, owner, n), place)
}

/// The indices of a single cell.
#[cycle(expression)]
pub fn bound_indices(
    alloc: Global,
    scope: &Scope,
    at: Position,
    owner: Owner,
    places: &[Place],
) -> Result<Items<Expr>, Fail<Refused>>
    ensures { Gives result (each_from (parts.index_found scope.now at owner) 0 places.now) }
{
    let mut indices = Items::new(alloc);
    'places: for (n, place) in places.iter().enumerate() {
        let index = bound_index(alloc, scope, at, owner, number(n)?, place)?;
        push_held(&mut indices, index)?;
    }
    Ok(indices)
}

// The test in a place of a range.
#[cycle(expression)]
fn bound_test(
    alloc: Global,
    scope: &Scope,
    at: Position,
    n: u32,
    place: &Place,
) -> Result<Boxed<Test>, Fail<Refused>>
    ensures { Gives result (parts.test_found scope.now at n place.now) }
{
    test_in(alloc, bound_place(alloc, scope, at, Owner::Main, n, place))
}

/// The tests of a range of cells.
#[cycle(expression)]
pub fn bound_tests(
    alloc: Global,
    scope: &Scope,
    at: Position,
    places: &[Place],
) -> Result<Items<Test>, Fail<Refused>>
    ensures { Gives result (each_from (parts.test_found scope.now at) 0 places.now) }
{
    let mut tests = Items::new(alloc);
    'places: for (n, place) in places.iter().enumerate() {
        let test = bound_test(alloc, scope, at, number(n)?, place)?;
        push_held(&mut tests, test)?;
    }
    Ok(tests)
}
