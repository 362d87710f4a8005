//! One place of a left side, its expressions evaluated.
ghost use Rattle.std.specs.Prelude.{◌≡◌};
ghost use Rattle.mq_values.specs.Answers.{Gives};
ghost use Rattle.mq_ir.specs.Unfolding as spec;
ghost use Rattle.mq_unfold.specs.Rows.{tested_place};

use crate::turn::TurnAlone;
use mq_ir::{Expr, Model, SinglePlace, Test};
use mq_scalar::{converted, eval, test_of};
use mq_values::{Fail, Kind, Value, ValueFault, cast};
use std::alloc::Global;

/// The kind of a dimension.
pub fn kind_at(m: &Model<'_>, dim: usize) -> Kind
    ensures { result ≡ spec.kind_at (spec.model_of m.now) dim }
{
    match m.part.dims.as_slice().get(dim) {
        Some(kind) => *kind,
        None => Kind::Int,
    }
}

/// The value of `e` in this turn, brought to `kind`.
pub fn value_of(alloc: Global, turn: u32, kind: Kind, e: &Expr) -> Result<Value, Fail<ValueFault>>
    ensures { Gives result (spec.converted (spec.left_leaves turn) kind e.now) }
{
    converted(alloc, e, kind, &mut TurnAlone { turn })
}

/// The step of a FOR over a dimension of this kind: it is brought to that kind, but over dates it counts days and stays as
/// it is.
pub fn step_of(alloc: Global, turn: u32, kind: Kind, e: &Expr) -> Result<Value, Fail<ValueFault>>
    ensures { Gives result (spec.step_outcome (spec.left_leaves turn) kind e.now) }
{
    match kind {
        Kind::Date => eval(alloc, e, &mut TurnAlone { turn }),
        _ => value_of(alloc, turn, kind, e),
    }
}

/// What `e` names in this turn.
pub fn named(
    alloc: Global,
    turn: u32,
    kind: Kind,
    e: &Expr,
) -> Result<SinglePlace, Fail<ValueFault>>
    ensures { Gives result (spec.listed (spec.left_leaves turn) kind e.now) }
{
    Ok(SinglePlace::At(value_of(alloc, turn, kind, e)?))
}

/// What a value from a row names.
pub fn named_value(alloc: Global, kind: Kind, v: &Value) -> Result<SinglePlace, Fail<ValueFault>>
    ensures { Gives result (spec.listed_value kind v.now) }
{
    Ok(SinglePlace::At(cast(alloc, v, kind)?))
}

/// A condition, its operands evaluated in this turn.
pub fn tested(
    alloc: Global,
    turn: u32,
    kind: Kind,
    test: &Test,
) -> Result<SinglePlace, Fail<ValueFault>>
    ensures { Gives result (tested_place turn kind test.now) }
{
    let test = test_of(alloc, test, kind, &mut TurnAlone { turn })?;
    Ok(SinglePlace::Sym(test))
}
