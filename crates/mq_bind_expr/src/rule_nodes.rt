//! CV, the turn, IS PRESENT and PREVIOUS, from what their parts are bound to (docs/LANGUAGE.md, "Misuses").

ghost use Rattle.std.specs.Prelude.{◌≡◌, Err};
ghost use Rattle.mq_values.specs.Answers.{Gives};
ghost use Rattle.mq_bind_expr.specs.Following.{Follows};
ghost use Rattle.mq_bind_expr.specs.RuleNodes as spec;
ghost use Rattle.mq_bind_scopes.specs.Refusals as refusals;

use crate::founds::{Operand, refused};
use crate::values::{a_condition, a_value};
use mq_bind_scopes::{
    Bracket, ExprKind, Found, MISUSE_OF_REFERENCE_MEASURE, MISUSE_OF_RULE_FORM, Owner, Position,
    Scope, called, cell_out_of_place, cv_out_of_place, misuse, outside_rules, place_kind,
    previous_outside_until, turn_without_iterate,
};
use mq_ir::{Expr, Leaf};
use mq_lexer::folded;
use mq_values::{Fail, Items, Refused, Words};
use std::alloc::Global;

// CV() is that of its place between the brackets of a measure of the main model.
fn cv_of_place(scope: &Scope, bracket: Option<Bracket>) -> Result<Found, Fail<Refused>>
    ensures { Gives result (spec.cv_of_place scope.now bracket) }
{
    let Some(b) = bracket else {
        return Err(misuse(MISUSE_OF_RULE_FORM));
    };
    match b.owner {
        Owner::Main => {
            let kind = place_kind(scope, Owner::Main, b.place).unwrap_or(ExprKind::Null);
            Ok(a_value(Expr::Leaf(Leaf::Cv(b.place)), kind))
        }
        Owner::Reference(_) => Err(misuse(MISUSE_OF_RULE_FORM)),
        Owner::Nothing => Err(misuse(MISUSE_OF_RULE_FORM)),
    }
}

fn cv_called(
    alloc: Global,
    scope: &Scope,
    at: Position,
    name: &Option<Words>,
) -> Result<Found, Fail<Refused>>
    ensures { Gives result (spec.cv_called scope.now at name.now) }
{
    match name {
        None => {
            if cv_out_of_place(at) {
                return Err(misuse(MISUSE_OF_RULE_FORM));
            }
            cv_of_place(scope, at.bracket)
        }
        Some(name) => {
            let (dimension, kind) = called(
                scope.model.dims.as_slice(),
                folded(alloc, name.as_str())?,
            )?;
            if cv_out_of_place(at) {
                return Err(misuse(MISUSE_OF_RULE_FORM));
            }
            Ok(a_value(Expr::Leaf(Leaf::Cv(dimension)), kind))
        }
    }
}

/// CV of a dimension.
pub fn cv_node(
    alloc: Global,
    scope: &Scope,
    at: Position,
    name: &Option<Words>,
) -> Result<Found, Fail<Refused>>
    ensures { Gives result (spec.cv_node scope.now at name.now) }
{
    if outside_rules(at) {
        return Err(misuse(MISUSE_OF_RULE_FORM));
    }
    cv_called(alloc, scope, at, name)
}

/// ITERATION_NUMBER.
pub fn turn_node(scope: &Scope, at: Position) -> Result<Found, Fail<Refused>>
    ensures { Gives result (spec.turn_node scope.now at) }
{
    if turn_without_iterate(scope, at) {
        return Err(misuse(MISUSE_OF_RULE_FORM));
    }
    Ok(a_value(Expr::Leaf(Leaf::Turn), ExprKind::Number(0)))
}

// The misuse of a leaf that is no cell of the main model.
fn cell_fault(l: &Leaf) -> u32
    ensures { result ≡ spec.cell_fault l.now }
{
    match l {
        Leaf::RefCell(_, _, _) => MISUSE_OF_REFERENCE_MEASURE,
        _ => MISUSE_OF_RULE_FORM,
    }
}

fn no_cell(l: Leaf) -> Result<(u32, Items<Expr>), Fail<Refused>>
    ensures { Gives result (Err (refusals.misuse (spec.cell_fault l))) }
{
    let fault = misuse(cell_fault(&l));
    refused(l, fault)
}

fn leaf_cell(l: Leaf) -> Result<(u32, Items<Expr>), Fail<Refused>>
    ensures { Gives result (spec.leaf_cell l) }
{
    match l {
        Leaf::Cell(measure, indices) => Ok((measure, indices)),
        other => no_cell(other),
    }
}

/// A single cell of the main model: its measure and its indices.
pub fn single_cell(e: Expr) -> Result<(u32, Items<Expr>), Fail<Refused>>
    ensures { Gives result (spec.single_cell e) }
{
    match e {
        Expr::Leaf(l) => leaf_cell(l),
        other => refused(other, misuse(MISUSE_OF_RULE_FORM)),
    }
}

/// IS PRESENT.
pub fn present_node(at: Position, negated: bool, cell: Operand) -> Result<Found, Fail<Refused>>
    ensures { Follows cell (spec.present_node at negated) result }
{
    let cell = cell?;
    if outside_rules(at) {
        return Err(misuse(MISUSE_OF_RULE_FORM));
    }
    if cell_out_of_place(at) {
        return Err(misuse(MISUSE_OF_RULE_FORM));
    }
    let (_, indices) = single_cell(cell.into_inner().e)?;
    Ok(a_condition(Expr::IsPresent(Leaf::Present(indices), negated)))
}

/// PREVIOUS.
pub fn previous_node(at: Position, cell: Operand) -> Result<Found, Fail<Refused>>
    ensures { Follows cell (spec.previous_node at) result }
{
    let cell = cell?;
    if previous_outside_until(at) {
        return Err(misuse(MISUSE_OF_RULE_FORM));
    }
    let kind = cell.get().kind;
    let (measure, indices) = single_cell(cell.into_inner().e)?;
    Ok(a_value(Expr::Leaf(Leaf::Previous(measure, indices)), kind))
}
