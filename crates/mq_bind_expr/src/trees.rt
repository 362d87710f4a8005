//! Bound expressions made of what their operands are bound to.

ghost use Rattle.std.specs.Prelude.{◌≡◌, IfOk};
ghost use Rattle.mq_ir.specs.declared.expression.Expr.{Expr};
ghost use Rattle.mq_bind_expr.specs.OperatorNodes.{exprs_of};

use crate::founds;
use crate::founds::{Held, expr_of};
use mq_bind_scopes::Found;
use mq_ir::{BoundProd, BoundSum, Expr};
use mq_values::{CmpOp, Items, Kind, Memory};
use std::alloc::Global;

/// NOT of an operand.
pub fn negation(alloc: Global, a: Held) -> Result<Expr, Memory>
    ensures { IfOk result (λ r. r ≡ Expr.Not a.e) }
{
    Ok(Expr::Not(expr_of(alloc, a)?))
}

/// Two operands compared.
pub fn comparison(alloc: Global, a: Held, op: CmpOp, b: Held) -> Result<Expr, Memory>
    ensures { IfOk result (λ r. r ≡ Expr.Cmp a.e op b.e) }
{
    let a = expr_of(alloc, a)?;
    let b = expr_of(alloc, b)?;
    Ok(Expr::Cmp(a, op, b))
}

/// An operand and its two bounds.
pub fn between(alloc: Global, a: Held, negated: bool, low: Held, high: Held) -> Result<Expr, Memory>
    ensures { IfOk result (λ r. r ≡ Expr.Between a.e negated low.e high.e) }
{
    let a = expr_of(alloc, a)?;
    let low = expr_of(alloc, low)?;
    let high = expr_of(alloc, high)?;
    Ok(Expr::Between(a, negated, low, high))
}

/// An operand and the members of its list.
pub fn membership(
    alloc: Global,
    a: Held,
    negated: bool,
    members: Items<Found>,
) -> Result<Expr, Memory>
    ensures { IfOk result (λ r. r ≡ Expr.InList a.e negated (exprs_of members)) }
{
    let members = founds::exprs_of(alloc, members)?;
    Ok(Expr::InList(expr_of(alloc, a)?, negated, members))
}

/// IS NULL of an operand.
pub fn null_test(alloc: Global, a: Held, negated: bool) -> Result<Expr, Memory>
    ensures { IfOk result (λ r. r ≡ Expr.IsNull a.e negated) }
{
    Ok(Expr::IsNull(expr_of(alloc, a)?, negated))
}

/// A first operand and the terms behind it.
pub fn sum(alloc: Global, first: Held, terms: Items<BoundSum>) -> Result<Expr, Memory>
    ensures { IfOk result (λ r. r ≡ Expr.Sum first.e terms) }
{
    Ok(Expr::Sum(expr_of(alloc, first)?, terms))
}

/// A first operand and the factors behind it.
pub fn product(alloc: Global, first: Held, terms: Items<BoundProd>) -> Result<Expr, Memory>
    ensures { IfOk result (λ r. r ≡ Expr.Prod first.e terms) }
{
    Ok(Expr::Prod(expr_of(alloc, first)?, terms))
}

/// The sign before an operand.
pub fn opposite(alloc: Global, a: Held) -> Result<Expr, Memory>
    ensures { IfOk result (λ r. r ≡ Expr.Neg a.e) }
{
    Ok(Expr::Neg(expr_of(alloc, a)?))
}

/// CAST of an operand.
pub fn cast(alloc: Global, a: Held, to: Kind) -> Result<Expr, Memory>
    ensures { IfOk result (λ r. r ≡ Expr.Cast a.e to) }
{
    Ok(Expr::Cast(expr_of(alloc, a)?, to))
}
