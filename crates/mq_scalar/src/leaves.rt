//! Leaves that ask whether something holds.
ghost use Rattle.std.specs.Prelude.{◌≡◌};
ghost use Rattle.mq_values.specs.Answers.{Gives};
ghost use Rattle.mq_ir.specs.Conditions as spec;
ghost use Rattle.mq_ir.specs.Worth.{is_flagged as flagged};

use crate::environment::Env;
use mq_ir::Leaf;
use mq_values::{Fail, Value, ValueFault};
use std::alloc::Global;

/// Whether what `leaf` asks holds.
pub fn asked<V: Env>(alloc: Global, leaf: &Leaf, env: &mut V) -> Result<bool, Fail<ValueFault>>
    ensures exact { Gives result (spec.asked (V.gives env.old leaf.now)) }
    ensures same { V.gives env.new ≡ V.gives env.old }
{
    let v = env.leaf(alloc, leaf)?;
    Ok(is_flagged(&v))
}

/// Whether what both leaves ask holds; the second is asked only where the first does.
pub fn both_asked<V: Env>(
    alloc: Global,
    first: &Leaf,
    second: &Leaf,
    env: &mut V,
) -> Result<bool, Fail<ValueFault>>
    ensures exact { Gives result (spec.both_asked (V.gives env.old first.now) (V.gives env.old second.now)) }
    ensures same { V.gives env.new ≡ V.gives env.old }
{
    if asked(alloc, first, env)? {
        asked(alloc, second, env)
    } else {
        Ok(false)
    }
}

// Whether what a leaf gave says that it holds.
fn is_flagged(v: &Value) -> bool
    ensures { result ≡ flagged v.now }
{
    match v {
        Value::Num(n) => n.mant() != 0,
        _ => false,
    }
}
