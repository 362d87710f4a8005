//! The nodes of functions and of CASE, from what their operands are bound to (docs/LANGUAGE.md, "Kinds").

ghost use Rattle.std.specs.Prelude.{◌≡◌, IfOk};
ghost use Rattle.mq_values.specs.Answers.{Gives};
ghost use Rattle.mq_bind_expr.specs.Following.{Follows, FollowsTriple};
ghost use Rattle.mq_bind_expr.specs.FunctionNodes as spec;
ghost use Rattle.mq_bind_scopes.specs.OperatorKinds as made;
ghost use Rattle.mq_bind_expr.specs.OperatorNodes.{kinds_of};

use crate::case_parts::{case_kind, case_of};
use crate::founds::{Held, Operands, exprs_of, go_together};
use crate::values::{a_value, converted};
use mq_bind_scopes::{ExprKind, Found, mismatch, number_scale, rounded_kind};
use mq_ir::Expr;
use mq_values::{Fail, Func, Items, Memory, Refused};
use std::alloc::Global;

fn length_kind(kind: ExprKind) -> Result<ExprKind, Fail<Refused>>
    ensures { Gives result (made.length_kind kind) }
{
    match kind {
        ExprKind::Text => Ok(ExprKind::Number(0)),
        _ => Err(mismatch()),
    }
}

fn unary_kind(func: Func, kind: ExprKind) -> Result<ExprKind, Fail<Refused>>
    ensures { Gives result (made.unary_kind func kind) }
{
    match func {
        Func::Abs => Ok(ExprKind::Number(number_scale(kind)?)),
        Func::Floor => {
            number_scale(kind)?;
            Ok(ExprKind::Number(0))
        }
        Func::Length => length_kind(kind),
        Func::Round(scale) => rounded_kind(scale, kind),
        Func::Nvl => Err(mismatch()),
    }
}

fn binary_kind(func: Func, a: ExprKind, b: ExprKind) -> Result<ExprKind, Fail<Refused>>
    ensures { Gives result (made.binary_kind func a b) }
{
    match func {
        Func::Nvl => go_together(a, b),
        _ => Err(mismatch()),
    }
}

fn call_kind(func: Func, arguments: &[Found]) -> Result<ExprKind, Fail<Refused>>
    ensures { Gives result (made.call_kind func (kinds_of arguments.now)) }
{
    match arguments {
        [a] => unary_kind(func, a.kind),
        [a, b] => binary_kind(func, a.kind, b.kind),
        _ => Err(mismatch()),
    }
}

fn is_nvl(func: Func) -> bool
    ensures { result ≡ spec.is_nvl func }
{
    matches!(func, Func::Nvl)
}

fn converted_all(alloc: Global, kind: ExprKind, found: Items<Found>) -> Result<Items<Expr>, Memory>
    ensures { IfOk result (λ es. es ≡ spec.converted_all kind found) }
{
    let mut es = Items::new(alloc);
    for f in found.into_vec() {
        es.push(converted(alloc, kind, f.e)?)?;
    }
    Ok(es)
}

// The results of NVL are its arguments, and are brought to its kind.
fn arguments_of(
    alloc: Global,
    func: Func,
    kind: ExprKind,
    found: Items<Found>,
) -> Result<Items<Expr>, Memory>
    ensures { IfOk result (λ es. es ≡ spec.arguments_of func kind found) }
{
    if is_nvl(func) {
        converted_all(alloc, kind, found)
    } else {
        exprs_of(alloc, found)
    }
}

/// A scalar function.
pub fn call_node(alloc: Global, func: Func, found: Operands) -> Result<Found, Fail<Refused>>
    ensures { Follows found (spec.call_node func) result }
{
    let found = found?;
    let kind = call_kind(func, found.as_slice())?;
    let arguments = arguments_of(alloc, func, kind, found)?;
    Ok(a_value(Expr::Call(func, arguments), kind))
}

/// CASE, with or without a subject: from its subject, its arms, and what stands behind ELSE.
pub fn case_node(
    alloc: Global,
    parts: Result<(Option<Held>, (Items<(Held, Held)>, Option<Held>)), Fail<Refused>>,
) -> Result<Found, Fail<Refused>>
    ensures { FollowsTriple parts spec.case_node result }
{
    let (subject, (arms, or_else)) = parts?;
    let kind = case_kind(&subject, arms.as_slice(), &or_else)?;
    let e = case_of(alloc, kind, subject, arms, or_else)?;
    Ok(a_value(e, kind))
}
