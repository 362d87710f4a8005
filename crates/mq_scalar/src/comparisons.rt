//! Tests that compare a value with what expressions are worth.
ghost use Rattle.std.specs.Prelude.{◌≡◌, map};
ghost use Rattle.mq_values.specs.Answers.{Gives};
ghost use Rattle.mq_values.specs.declared.operators.CmpOp.TheVariants.{Le};
ghost use Rattle.mq_ir.specs.Conditions as spec;
ghost use Rattle.mq_ir.specs.Expression.{worth_of};
ghost use Rattle.mq_ir.specs.Worth.{as_truth};

use crate::environment::Env;
use crate::evaluate::{anew, operand};
use crate::truths::{is_false, is_true};
use mq_ir::Expr;
use mq_values::{CmpOp, Fail, Value, ValueFault, compare, truth_and, truth_or};
use std::alloc::Global;

// IN: `v` compared with the members from left to right, up to the first that is equal.
#[cycle(evaluation)]
pub fn is_member<V: Env>(
    alloc: Global,
    v: &Value,
    members: &[Expr],
    env: &mut V,
) -> Result<Option<bool>, Fail<ValueFault>>
    ensures exact { Gives result (spec.member v.now (map (worth_of (V.gives env.old)) members.now)) }
    ensures same { V.gives env.new ≡ V.gives env.old }
{
    let mut so_far = Some(false);
    for member in members {
        let truth = compared_to(alloc, v, CmpOp::Eq, member, env)?;
        if is_true(truth) {
            return Ok(Some(true));
        }
        so_far = truth_or(so_far, truth);
    }
    Ok(so_far)
}

// `v` compared with what `e` is worth.
#[cycle(evaluation)]
pub fn compared_to<V: Env>(
    alloc: Global,
    v: &Value,
    op: CmpOp,
    e: &Expr,
    env: &mut V,
) -> Result<Option<bool>, Fail<ValueFault>>
    ensures exact { Gives result (as_truth (spec.compared_to op v.now (worth_of (V.gives env.old) e.now))) }
    ensures same { V.gives env.new ≡ V.gives env.old }
{
    let w = anew(operand(alloc, e, env)?);
    Ok(compare(op, v, &w))
}

// BETWEEN behind its lower bound: the upper one is not evaluated where `v` is below the lower one.
#[cycle(evaluation)]
pub fn and_at_most<V: Env>(
    alloc: Global,
    at_least: Option<bool>,
    v: &Value,
    high: &Expr,
    env: &mut V,
) -> Result<Option<bool>, Fail<ValueFault>>
    ensures exact { Gives result (spec.and_then at_least (as_truth (spec.compared_to Le v.now (worth_of (V.gives env.old) high.now)))) }
    ensures same { V.gives env.new ≡ V.gives env.old }
{
    if is_false(at_least) {
        return Ok(Some(false));
    }
    let at_most = compared_to(alloc, v, CmpOp::Le, high, env)?;
    Ok(truth_and(at_least, at_most))
}
