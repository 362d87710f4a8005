//! The nodes of operators, from what their operands are bound to (docs/LANGUAGE.md, "Kinds"). A node hands on the first offence in its
//! operands: so the walk, which is one circle of calls, has no exits of its own.

ghost use Rattle.std.specs.Prelude.{◌≡◌, ◌∷◌, Ok};
ghost use Rattle.mq_values.specs.Answers.{Gives};
ghost use Rattle.mq_bind_scopes.specs.Kinds.{common};
ghost use Rattle.mq_bind_expr.specs.Following.{Follows, FollowsPair, FollowsTriple};
ghost use Rattle.mq_bind_expr.specs.OperatorNodes as spec;

use crate::founds::{
    Held, Operand, Operands, Pair, all_conditions, common_from, exprs_of, go_together,
    is_condition_found, product_chain_kind, product_terms, sum_chain_kind, sum_terms,
};
use crate::trees::{
    between, cast, comparison, membership, negation, null_test, opposite, product, sum,
};
use crate::values::{a_condition, a_value};
use mq_bind_scopes::{ExprKind, Found, cast_kind, mismatch, number_scale, value_kind, wider};
use mq_ir::Expr;
use mq_values::{CmpOp, Fail, Items, Kind, ProdOp, Refused, SumOp, Value};
use std::alloc::Global;

/// OR.
pub fn or_node(alloc: Global, found: Operands) -> Result<Found, Fail<Refused>>
    ensures { Follows found spec.or_node result }
{
    let found = found?;
    if !all_conditions(found.as_slice()) {
        return Err(mismatch());
    }
    Ok(a_condition(Expr::Or(exprs_of(alloc, found)?)))
}

/// AND.
pub fn and_node(alloc: Global, found: Operands) -> Result<Found, Fail<Refused>>
    ensures { Follows found spec.and_node result }
{
    let found = found?;
    if !all_conditions(found.as_slice()) {
        return Err(mismatch());
    }
    Ok(a_condition(Expr::And(exprs_of(alloc, found)?)))
}

/// NOT.
pub fn not_node(alloc: Global, found: Operand) -> Result<Found, Fail<Refused>>
    ensures { Follows found spec.not_node result }
{
    let found = found?;
    if !is_condition_found(found.get()) {
        return Err(mismatch());
    }
    Ok(a_condition(negation(alloc, found)?))
}

// The kind of the right side of an equality.
fn equated_by(op: CmpOp, kind: ExprKind) -> Option<ExprKind>
    ensures { result ≡ spec.equated_by op kind }
{
    match op {
        CmpOp::Eq => Some(kind),
        CmpOp::Ne | CmpOp::Lt | CmpOp::Le | CmpOp::Gt | CmpOp::Ge => None,
    }
}

/// A comparison.
pub fn cmp_node(alloc: Global, op: CmpOp, sides: Pair) -> Result<Found, Fail<Refused>>
    ensures { FollowsPair sides (spec.cmp_node op) result }
{
    let (a, b) = sides?;
    let kind = b.get().kind;
    go_together(a.get().kind, kind)?;
    Ok(Found {
        e: comparison(alloc, a, op, b)?,
        kind: ExprKind::Condition,
        equated: equated_by(op, kind),
    })
}

/// BETWEEN.
pub fn between_node(
    alloc: Global,
    negated: bool,
    parts: Result<(Held, (Held, Held)), Fail<Refused>>,
) -> Result<Found, Fail<Refused>>
    ensures { FollowsTriple parts (spec.between_node negated) result }
{
    let (a, (low, high)) = parts?;
    let kind = go_together(a.get().kind, low.get().kind)?;
    wider(kind, high.get().kind)?;
    Ok(a_condition(between(alloc, a, negated, low, high)?))
}

// Whether an operand goes with the members of its list.
fn members_asked(a: &Found, members: &[Found]) -> Result<ExprKind, Fail<Refused>>
    ensures { Gives result (common (a.now.kind ∷ spec.kinds_of members.now)) }
{
    let kind = wider(ExprKind::Null, a.kind)?;
    common_from(kind, members)
}

/// IN.
pub fn in_node(
    alloc: Global,
    negated: bool,
    listed: Result<(Held, Items<Found>), Fail<Refused>>,
) -> Result<Found, Fail<Refused>>
    ensures { FollowsPair listed (spec.in_node negated) result }
{
    let (a, members) = listed?;
    members_asked(a.get(), members.as_slice())?;
    Ok(a_condition(membership(alloc, a, negated, members)?))
}

/// IS NULL.
pub fn null_node(alloc: Global, negated: bool, a: Operand) -> Result<Found, Fail<Refused>>
    ensures { Follows a (spec.null_node negated) result }
{
    let a = a?;
    if is_condition_found(a.get()) {
        return Err(mismatch());
    }
    Ok(a_condition(null_test(alloc, a, negated)?))
}

/// A sum, and differences in it.
pub fn sum_node(
    alloc: Global,
    addends: Result<(Held, Items<(SumOp, Found)>), Fail<Refused>>,
) -> Result<Found, Fail<Refused>>
    ensures { FollowsPair addends spec.sum_node result }
{
    let (first, terms) = addends?;
    let kind = sum_chain_kind(first.get().kind, terms.as_slice())?;
    let terms = sum_terms(alloc, terms)?;
    Ok(a_value(sum(alloc, first, terms)?, kind))
}

/// A product, and quotients in it.
pub fn prod_node(
    alloc: Global,
    factors: Result<(Held, Items<(ProdOp, Found)>), Fail<Refused>>,
) -> Result<Found, Fail<Refused>>
    ensures { FollowsPair factors spec.prod_node result }
{
    let (first, terms) = factors?;
    let kind = product_chain_kind(first.get().kind, terms.as_slice())?;
    let terms = product_terms(alloc, terms)?;
    Ok(a_value(product(alloc, first, terms)?, kind))
}

/// The sign.
pub fn neg_node(alloc: Global, a: Operand) -> Result<Found, Fail<Refused>>
    ensures { Follows a spec.neg_node result }
{
    let a = a?;
    let scale = number_scale(a.get().kind)?;
    Ok(a_value(opposite(alloc, a)?, ExprKind::Number(scale)))
}

/// A literal.
pub fn lit_node(v: &Value) -> Result<Found, Fail<Refused>>
    ensures { Gives result (Ok (spec.lit_node v.now)) }
{
    let kind = value_kind(v);
    Ok(a_value(Expr::Lit(v.copy()?), kind))
}

/// CAST.
pub fn cast_node(alloc: Global, to: Kind, a: Operand) -> Result<Found, Fail<Refused>>
    ensures { Follows a (spec.cast_node to) result }
{
    let a = a?;
    let kind = cast_kind(to, a.get().kind)?;
    Ok(a_value(cast(alloc, a, to)?, kind))
}
