//! The parts of CASE.
ghost use Rattle.std.specs.Prelude.{◌≡◌, map};
ghost use Rattle.std.specs.Option.{option_map};
ghost use Rattle.mq_values.specs.Answers.{Gives};
ghost use Rattle.mq_ir.specs.Conditions as spec;
ghost use Rattle.mq_ir.specs.Expression.{worth_of};
ghost use Rattle.mq_ir.specs.PartLaws.{arm_found};
ghost use Rattle.mq_ir.specs.Worth.{as_truth};

use crate::comparisons::compared_to;
use crate::environment::Env;
use crate::evaluate::{eval, holds};
use crate::truths::is_true;
use mq_ir::{BoundArm, Expr};
use mq_values::{Boxed, CmpOp, Fail, Value, ValueFault};
use std::alloc::Global;

// The value of the first expression of a CASE, where it has one.
#[cycle(evaluation)]
pub fn eval_if<V: Env>(
    alloc: Global,
    e: &Option<Boxed<Expr>>,
    env: &mut V,
) -> Result<Option<Value>, Fail<ValueFault>>
    ensures exact { Gives result (spec.value_if (option_map (worth_of (V.gives env.old)) e.now)) }
    ensures same { V.gives env.new ≡ V.gives env.old }
{
    match e {
        Some(e) => Ok(Some(eval(alloc, e.get(), env)?)),
        None => Ok(None),
    }
}

// The result of the first arm whose condition is true.
#[cycle(evaluation)]
pub fn arm_taken<V: Env>(
    alloc: Global,
    subject: &Option<Value>,
    arms: &[BoundArm],
    env: &mut V,
) -> Result<Option<Value>, Fail<ValueFault>>
    ensures exact { Gives result (spec.arm_taken subject.now (map (arm_found (V.gives env.old)) arms.now)) }
    ensures same { V.gives env.new ≡ V.gives env.old }
{
    for arm in arms {
        let truth = arm_holds(alloc, subject, &arm.test, env)?;
        if is_true(truth) {
            return Ok(Some(eval(alloc, &arm.value, env)?));
        }
    }
    Ok(None)
}

// Whether the condition of an arm holds: its test, or, where there is a first value, that it equals the WHEN value.
#[cycle(evaluation)]
fn arm_holds<V: Env>(
    alloc: Global,
    subject: &Option<Value>,
    test: &Expr,
    env: &mut V,
) -> Result<Option<bool>, Fail<ValueFault>>
    ensures exact { Gives result (as_truth (spec.arm_test subject.now (worth_of (V.gives env.old) test.now))) }
    ensures same { V.gives env.new ≡ V.gives env.old }
{
    match subject {
        Some(v) => compared_to(alloc, v, CmpOp::Eq, test, env),
        None => holds(alloc, test, env),
    }
}

// The value of a CASE: what an arm gave, else what stands behind ELSE, else null.
#[cycle(evaluation)]
pub fn or_else<V: Env>(
    alloc: Global,
    taken: Option<Value>,
    otherwise: &Option<Boxed<Expr>>,
    env: &mut V,
) -> Result<Value, Fail<ValueFault>>
    ensures exact { Gives result (spec.or_else taken (option_map (worth_of (V.gives env.old)) otherwise.now)) }
    ensures same { V.gives env.new ≡ V.gives env.old }
{
    match (taken, otherwise) {
        (Some(v), _) => Ok(v),
        (None, Some(e)) => eval(alloc, e.get(), env),
        (None, None) => Ok(Value::Null),
    }
}
