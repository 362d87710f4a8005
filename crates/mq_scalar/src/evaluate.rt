//! The worth of an expression: a value, or whether a condition holds.
ghost use Rattle.std.specs.Prelude.{◌≡◌, map};
ghost use Rattle.mq_values.specs.Answers.{Gives};
ghost use Rattle.mq_ir.specs.Expression.{ev, holds as spec_holds, worth_of};
ghost use Rattle.mq_ir.specs.Operators.{called};
ghost use Rattle.mq_ir.specs.Worth.{truth_in, value_in};

use crate::cases::{arm_taken, eval_if, or_else};
use crate::chains::{product, sum};
use crate::comparisons::{and_at_most, compared_to, is_member};
use crate::conditions::{all_hold, any_holds};
use crate::environment::Env;
use crate::leaves::{asked, both_asked};
use crate::operators::{applied, negated};
use crate::truths::negated_if;
use mq_ir::{Expr, Worth};
use mq_values::{CmpOp, Fail, Func, Num, Value, ValueFault, cast, truth_not};
use std::alloc::Global;

/// The value of `e` where `env` is, or its first fault. A condition in the place of a value is null
/// (docs/MEANING.md, "Expressions").
#[cycle(evaluation)]
#[tactic(auto, using(crate::proofs::OutcomeLemmas::outcome_laws))]
pub fn eval<V: Env>(alloc: Global, e: &Expr, env: &mut V) -> Result<Value, Fail<ValueFault>>
    ensures exact { Gives result (ev (V.gives env.old) e.now) }
    ensures same { V.gives env.new ≡ V.gives env.old }
{
    match e {
        Expr::Lit(v) => Ok(v.copy()?),
        Expr::Leaf(leaf) => env.leaf(alloc, leaf),
        _ => computed(alloc, e, env),
    }
}

// The same of an expression that is neither a literal nor a leaf, which need no frame of this size.
#[inline(never)]
#[cycle(evaluation)]
#[tactic(auto, using(crate::proofs::OutcomeLemmas::outcome_laws))]
fn computed<V: Env>(alloc: Global, e: &Expr, env: &mut V) -> Result<Value, Fail<ValueFault>>
    ensures exact { Gives result (ev (V.gives env.old) e.now) }
    ensures same { V.gives env.new ≡ V.gives env.old }
{
    match e {
        Expr::Sum(first, terms) => {
            let first = anew(operand(alloc, first.get(), env)?);
            sum(alloc, first, terms.as_slice(), env)
        }
        Expr::Prod(first, factors) => {
            let first = anew(operand(alloc, first.get(), env)?);
            product(alloc, first, factors.as_slice(), env)
        }
        _ => Ok(value_of(worth(alloc, e, env)?)),
    }
}

// The same of an operand. Most operands are leaves, which need no frame of `eval`.
#[cycle(evaluation)]
#[tactic(auto, using(crate::proofs::OutcomeLemmas::outcome_laws))]
pub fn operand<V: Env>(alloc: Global, e: &Expr, env: &mut V) -> Result<Value, Fail<ValueFault>>
    ensures exact { Gives result (ev (V.gives env.old) e.now) }
    ensures same { V.gives env.new ≡ V.gives env.old }
{
    match e {
        Expr::Leaf(leaf) => env.leaf(alloc, leaf),
        _ => eval(alloc, e, env),
    }
}

// The same value. A number is read by its parts: a copy of the whole would wait until each part of it is written.
pub fn anew(v: Value) -> Value
    ensures { result ≡ v }
{
    match v {
        Value::Num(n) => Value::Num(Num::new(n.mant(), n.scale())),
        v => v,
    }
}

// The value that an expression is worth; a condition has none.
fn value_of(worth: Worth) -> Value
    ensures { result ≡ value_in worth }
{
    match worth {
        Worth::Value(v) => v,
        Worth::Truth(_) => Value::Null,
    }
}

/// Whether the condition `e` holds where `env` is (`None`: unknown), or its first fault. A value in the place of
/// a condition is unknown (docs/MEANING.md, "Expressions").
#[cycle(evaluation)]
#[tactic(auto, using(crate::proofs::OutcomeLemmas::outcome_laws))]
pub fn holds<V: Env>(alloc: Global, e: &Expr, env: &mut V) -> Result<Option<bool>, Fail<ValueFault>>
    ensures exact { Gives result (spec_holds (V.gives env.old) e.now) }
    ensures same { V.gives env.new ≡ V.gives env.old }
{
    match e {
        Expr::Cmp(a, op, b) => {
            let v = anew(operand(alloc, a.get(), env)?);
            compared_to(alloc, &v, *op, b.get(), env)
        }
        _ => Ok(truth_of(worth(alloc, e, env)?)),
    }
}

// The truth that an expression is worth; a value has none.
fn truth_of(worth: Worth) -> Option<bool>
    ensures { result ≡ truth_in worth }
{
    match worth {
        Worth::Value(_) => None,
        Worth::Truth(truth) => truth,
    }
}

// What `e` is worth: a value, or whether it holds. It has a large frame, so the forms that are met most have a way past it.
#[inline(never)]
#[cycle(evaluation)]
#[tactic(auto, using(mq_ir::specs::ExpressionLaws::worth_laws))]
fn worth<V: Env>(alloc: Global, e: &Expr, env: &mut V) -> Result<Worth, Fail<ValueFault>>
    ensures exact { Gives result (worth_of (V.gives env.old) e.now) }
    ensures same { V.gives env.new ≡ V.gives env.old }
{
    match e {
        Expr::Or(xs) => Ok(Worth::Truth(any_holds(alloc, xs.as_slice(), env)?)),
        Expr::And(xs) => Ok(Worth::Truth(all_hold(alloc, xs.as_slice(), env)?)),
        Expr::Not(x) => Ok(Worth::Truth(truth_not(holds(alloc, x.get(), env)?))),
        Expr::Cmp(a, op, b) => {
            let v = eval(alloc, a.get(), env)?;
            Ok(Worth::Truth(compared_to(alloc, &v, *op, b.get(), env)?))
        }
        Expr::Between(x, not, low, high) => {
            let v = eval(alloc, x.get(), env)?;
            let at_least = compared_to(alloc, &v, CmpOp::Ge, low.get(), env)?;
            let truth = and_at_most(alloc, at_least, &v, high.get(), env)?;
            Ok(Worth::Truth(negated_if(*not, truth)))
        }
        Expr::InList(x, not, xs) => {
            let v = eval(alloc, x.get(), env)?;
            let truth = is_member(alloc, &v, xs.as_slice(), env)?;
            Ok(Worth::Truth(negated_if(*not, truth)))
        }
        Expr::IsNull(x, not) => {
            let v = eval(alloc, x.get(), env)?;
            Ok(Worth::Truth(negated_if(*not, Some(v.is_null()))))
        }
        Expr::IsPresent(leaf, not) => {
            let is_present = asked(alloc, leaf, env)?;
            Ok(Worth::Truth(negated_if(*not, Some(is_present))))
        }
        Expr::Sum(first, terms) => {
            let first = eval(alloc, first.get(), env)?;
            Ok(Worth::Value(sum(alloc, first, terms.as_slice(), env)?))
        }
        Expr::Prod(first, terms) => {
            let first = eval(alloc, first.get(), env)?;
            Ok(Worth::Value(product(alloc, first, terms.as_slice(), env)?))
        }
        Expr::Neg(x) => Ok(Worth::Value(negated(&eval(alloc, x.get(), env)?)?)),
        Expr::Lit(v) => Ok(Worth::Value(v.copy()?)),
        Expr::Leaf(leaf) => Ok(Worth::Value(env.leaf(alloc, leaf)?)),
        Expr::Case(subject, arms, otherwise) => {
            let subject = eval_if(alloc, subject, env)?;
            let taken = arm_taken(alloc, &subject, arms.as_slice(), env)?;
            Ok(Worth::Value(or_else(alloc, taken, otherwise, env)?))
        }
        Expr::Cast(x, kind) | Expr::Convert(x, kind) => {
            let v = eval(alloc, x.get(), env)?;
            Ok(Worth::Value(cast(alloc, &v, *kind)?))
        }
        Expr::Call(func, xs) => Ok(Worth::Value(call(alloc, *func, xs.as_slice(), env)?)),
        Expr::PresentV { present, yes, no } => {
            let is_present = asked(alloc, present, env)?;
            let e = if is_present { yes } else { no };
            Ok(Worth::Value(eval(alloc, e.get(), env)?))
        }
        Expr::PresentNnv {
            present,
            not_null,
            yes,
            no,
        } => {
            let has_value = both_asked(alloc, present, not_null, env)?;
            let e = if has_value { yes } else { no };
            Ok(Worth::Value(eval(alloc, e.get(), env)?))
        }
    }
}

// A function of its arguments. NVL evaluates its second one only where the first is null.
#[cycle(evaluation)]
fn call<V: Env>(
    alloc: Global,
    func: Func,
    xs: &[Expr],
    env: &mut V,
) -> Result<Value, Fail<ValueFault>>
    ensures exact { Gives result (called func (map (worth_of (V.gives env.old)) xs.now)) }
    ensures same { V.gives env.new ≡ V.gives env.old }
{
    match (func, xs) {
        (Func::Nvl, [a, b]) => {
            let v = eval(alloc, a, env)?;
            if v.is_null() {
                eval(alloc, b, env)
            } else {
                Ok(v)
            }
        }
        (func, [a]) => applied(alloc, func, eval(alloc, a, env)?),
        _ => Ok(Value::Null),
    }
}
