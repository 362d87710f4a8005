//! Chains of operators.
ghost use Rattle.std.specs.Prelude.{◌≡◌, map};
ghost use Rattle.mq_values.specs.Answers.{Gives};
ghost use Rattle.mq_ir.specs.Operators.{added as spec_added, multiplied as spec_multiplied, chained};
ghost use Rattle.mq_ir.specs.PartLaws.{term_found, factor_found};

use crate::environment::Env;
use crate::evaluate::{anew, operand};
use crate::operators::{added, multiplied};
use mq_ir::{BoundProd, BoundSum};
use mq_values::{Fail, Value, ValueFault};
use std::alloc::Global;

// `first` with each of `terms`, from left to right. Each right operand is evaluated just before it is combined.
#[cycle(evaluation)]
pub fn sum<V: Env>(
    alloc: Global,
    first: Value,
    terms: &[BoundSum],
    env: &mut V,
) -> Result<Value, Fail<ValueFault>>
    ensures exact { Gives result (chained spec_added first (map (term_found (V.gives env.old)) terms.now)) }
    ensures same { V.gives env.new ≡ V.gives env.old }
{
    let mut total = anew(first);
    for term in terms {
        let right = anew(operand(alloc, &term.e, env)?);
        total = added(alloc, term.op, &total, &right)?;
    }
    Ok(total)
}

// `first` multiplied with each of `terms` or divided by it, from left to right.
#[cycle(evaluation)]
pub fn product<V: Env>(
    alloc: Global,
    first: Value,
    terms: &[BoundProd],
    env: &mut V,
) -> Result<Value, Fail<ValueFault>>
    ensures exact { Gives result (chained spec_multiplied first (map (factor_found (V.gives env.old)) terms.now)) }
    ensures same { V.gives env.new ≡ V.gives env.old }
{
    let mut total = anew(first);
    for term in terms {
        let right = anew(operand(alloc, &term.e, env)?);
        total = multiplied(term.op, &total, &right)?;
    }
    Ok(total)
}
