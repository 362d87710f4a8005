//! What a dimension's place asks for, with its operands evaluated.
ghost use Rattle.std.specs.Prelude.{◌≡◌};
ghost use Rattle.mq_values.specs.Answers.{Gives};
ghost use Rattle.mq_ir.specs.Expression.{ev};
ghost use Rattle.mq_ir.specs.Results.{each};
ghost use Rattle.mq_ir.specs.Tests as spec;

use crate::environment::Env;
use crate::evaluate::eval;
use mq_ir::{Expr, Test};
use mq_values::{Boxed, DimTest, Fail, Items, Kind, Value, ValueFault, cast};
use std::alloc::Global;

/// The value of `e` where `env` is, brought to `kind` at once, or the first fault. A text that is brought to a kind of
/// numbers is null (docs/MEANING.md, "Left sides").
pub fn converted<V: Env>(
    alloc: Global,
    e: &Expr,
    kind: Kind,
    env: &mut V,
) -> Result<Value, Fail<ValueFault>>
    ensures exact { Gives result (spec.converted (V.gives env.old) kind e.now) }
    ensures same { V.gives env.new ≡ V.gives env.old }
{
    let v = eval(alloc, e, env)?;
    cast(alloc, &v, kind)
}

/// `test` with its operands evaluated where `env` is, from left to right, or the first fault among them. A value
/// that it names is brought to `kind`, that of its dimension; what is compared stays as it is
/// (docs/MEANING.md, "Left sides").
#[cycle(dim_tests)]
#[tactic(auto, using(mq_ir::specs::TestLaws::test_laws))]
pub fn test_of<V: Env>(
    alloc: Global,
    test: &Test,
    kind: Kind,
    env: &mut V,
) -> Result<DimTest, Fail<ValueFault>>
    ensures exact { Gives result (spec.test_of (V.gives env.old) kind test.now) }
    ensures same { V.gives env.new ≡ V.gives env.old }
{
    match test {
        Test::Any => Ok(DimTest::Any),
        Test::At(e) => Ok(DimTest::At(converted(alloc, e, kind, env)?)),
        Test::Cmp(op, e) => Ok(DimTest::Cmp(*op, eval(alloc, e, env)?)),
        Test::Between(low, high) => {
            let low = eval(alloc, low, env)?;
            let high = eval(alloc, high, env)?;
            Ok(DimTest::Between(low, high))
        }
        Test::In(members) => Ok(DimTest::In(values_of(alloc, members.as_slice(), env)?)),
        Test::Null => Ok(DimTest::Null),
        Test::And(tests) => Ok(DimTest::And(tests_of(alloc, tests.as_slice(), kind, env)?)),
        Test::Or(tests) => Ok(DimTest::Or(tests_of(alloc, tests.as_slice(), kind, env)?)),
        Test::Not(test) => {
            let test = test_of(alloc, test.get(), kind, env)?;
            Ok(DimTest::Not(Boxed::new(alloc, test)?))
        }
    }
}

// The tests with their operands evaluated, from left to right.
#[cycle(dim_tests)]
fn tests_of<V: Env>(
    alloc: Global,
    tests: &[Test],
    kind: Kind,
    env: &mut V,
) -> Result<Items<DimTest>, Fail<ValueFault>>
    ensures exact { Gives result (each (spec.test_of (V.gives env.old) kind) tests.now) }
    ensures same { V.gives env.new ≡ V.gives env.old }
{
    let mut evaluated = Items::new(alloc);
    for test in tests {
        evaluated.push(test_of(alloc, test, kind, env)?)?;
    }
    Ok(evaluated)
}

// The values of the expressions, from left to right.
fn values_of<V: Env>(
    alloc: Global,
    es: &[Expr],
    env: &mut V,
) -> Result<Items<Value>, Fail<ValueFault>>
    ensures exact { Gives result (each (ev (V.gives env.old)) es.now) }
    ensures same { V.gives env.new ≡ V.gives env.old }
{
    let mut values = Items::new(alloc);
    for e in es {
        values.push(eval(alloc, e, env)?)?;
    }
    Ok(values)
}
