//! The rules of a model, one after another.
ghost use Rattle.std.specs.Prelude.{◌≡◌, length, Some, IfOk};
ghost use Rattle.mq_values.specs.Answers.{Gives};
ghost use Rattle.mq_ir.specs.Unfolding.{model_of};
ghost use Rattle.mq_unfold.specs.LeftSides.{rule_of};
ghost use Rattle.mq_ir.specs.Ready.{HaveLength, LeftHasPlaces, LeftsHavePlaces};
ghost use Rattle.mq_auto_shape.specs.Walk.{rule_grown, rules_grown};

use crate::growth::Growth;
use crate::lefts::grow_all;
use mq_ir::{Model, PlacedFault, Rule};
use mq_unfold::single_lefts;
use mq_values::Fail;
use std::alloc::Global;

/// What has grown after all rules in text order, or the first fault. `Memory` comes too where there are more rules than
/// a `u32` can number.
pub fn grow_rules(alloc: Global, m: &Model<'_>, growth: Growth) -> Result<Growth, Fail<PlacedFault>>
    requires lefts { LeftsHavePlaces m.now.part.now }
    requires wide { HaveLength (length m.now.part.now.dims) growth.set }
    ensures { Gives result (rules_grown (model_of m.now) growth) }
{
    let mut growth = growth;
    let mut number = 0u32;
    'rules: for rule in m.part.rules.as_slice() {
        let Some(next) = number.checked_add(1) else {
            return Err(Fail::Memory);
        };
        number = next;
        growth = grow_rule(alloc, m, number, rule, growth)?;
    }
    Ok(growth)
}

// One rule: its single left sides one after another.
fn grow_rule(
    alloc: Global,
    m: &Model<'_>,
    number: u32,
    rule: &Rule,
    growth: Growth,
) -> Result<Growth, Fail<PlacedFault>>
    requires there { rule_of m.now.part.now.rules number ≡ Some rule.now }
    requires places { LeftHasPlaces (length m.now.part.now.dims) rule.now.left }
    requires wide { HaveLength (length m.now.part.now.dims) growth.set }
    ensures exact { Gives result (rule_grown (model_of m.now) (number, rule.now) growth) }
    ensures wide { IfOk result (λ grown. HaveLength (length m.now.part.now.dims) grown.set) }
{
    let lefts = single_lefts(alloc, m, 0, number, rule)?;
    grow_all(alloc, number, rule, lefts.as_slice(), growth)
}
