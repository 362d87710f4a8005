//! AND and OR of three values.
ghost use Rattle.std.specs.Prelude.{◌≡◌, map};
ghost use Rattle.mq_values.specs.Answers.{Gives};
ghost use Rattle.mq_ir.specs.Conditions as spec;
ghost use Rattle.mq_ir.specs.Expression.{worth_of};

use crate::environment::Env;
use crate::evaluate::holds;
use crate::truths::{is_false, is_true};
use mq_ir::Expr;
use mq_values::{Fail, ValueFault, truth_and, truth_or};
use std::alloc::Global;

// AND: the operands from left to right, up to the first that is false.
#[cycle(evaluation)]
pub fn all_hold<V: Env>(
    alloc: Global,
    xs: &[Expr],
    env: &mut V,
) -> Result<Option<bool>, Fail<ValueFault>>
    ensures exact { Gives result (spec.conjunction (map (worth_of (V.gives env.old)) xs.now)) }
    ensures same { V.gives env.new ≡ V.gives env.old }
{
    let mut so_far = Some(true);
    for x in xs {
        let truth = holds(alloc, x, env)?;
        if is_false(truth) {
            return Ok(Some(false));
        }
        so_far = truth_and(so_far, truth);
    }
    Ok(so_far)
}

// OR: the operands from left to right, up to the first that is true.
#[cycle(evaluation)]
pub fn any_holds<V: Env>(
    alloc: Global,
    xs: &[Expr],
    env: &mut V,
) -> Result<Option<bool>, Fail<ValueFault>>
    ensures exact { Gives result (spec.disjunction (map (worth_of (V.gives env.old)) xs.now)) }
    ensures same { V.gives env.new ≡ V.gives env.old }
{
    let mut so_far = Some(false);
    for x in xs {
        let truth = holds(alloc, x, env)?;
        if is_true(truth) {
            return Ok(Some(true));
        }
        so_far = truth_or(so_far, truth);
    }
    Ok(so_far)
}
