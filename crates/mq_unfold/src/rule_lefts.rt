//! The single left sides of a rule.
ghost use Rattle.std.specs.Prelude.{◌≡◌, length, Some, IfOk};
ghost use Rattle.mq_values.specs.Answers.{Gives};
ghost use Rattle.mq_ir.specs.Unfolding.{model_of};
ghost use Rattle.mq_unfold.specs.LeftSides.{rule_of, unfold_kind};
ghost use Rattle.mq_ir.specs.Ready.{HavePlaces, LeftHasPlaces};
ghost use Rattle.mq_unfold.specs.SingleLefts.{lefts_of};

use crate::left_sides::{UnfoldFault, unfold};
use mq_ir::{Model, PlacedFault, Rule, SingleLeft, kind_of};
use mq_values::{Fail, FaultKind, Items, Key};
use std::alloc::Global;

/// The single left sides of the rule of this number in a turn, or the fault of unfolding it, with the rule and the empty
/// cell (docs/MEANING.md, "Left sides"). Each has a place for each dimension.
pub fn single_lefts(
    alloc: Global,
    m: &Model<'_>,
    turn: u32,
    number: u32,
    rule: &Rule,
) -> Result<Items<SingleLeft>, Fail<PlacedFault>>
    requires there { rule_of m.now.part.now.rules number ≡ Some rule.now }
    requires places { LeftHasPlaces (length m.now.part.now.dims) rule.now.left }
    ensures exact { Gives result (lefts_of (model_of m.now) turn number rule.now) }
    ensures wide { IfOk result (HavePlaces (length m.now.part.now.dims)) }
{
    match unfold(alloc, m, number, turn) {
        Ok(lefts) => Ok(lefts),
        Err(Fail::Cause(fault)) => Err(Fail::Cause(PlacedFault::new(
            number,
            Key::empty(),
            kind_of_unfold(fault),
        ))),
        Err(Fail::Memory) => Err(Fail::Memory),
    }
}

fn kind_of_unfold(fault: UnfoldFault) -> FaultKind
    ensures { result ≡ unfold_kind fault }
{
    match fault {
        UnfoldFault::Value(fault) => kind_of(fault),
        UnfoldFault::TooMany => FaultKind::TooManyUnfolded,
    }
}
