//! The single left sides of a rule, one after another.
ghost use Rattle.std.specs.Prelude.{◌≡◌, length};
ghost use Rattle.mq_values.specs.Answers.{Gives};
ghost use Rattle.mq_ir.specs.Ready.{HaveLength};
ghost use Rattle.mq_ir.specs.Results.{each_in_turn};
ghost use Rattle.mq_auto_shape.specs.Walk.{AreWide, fault_in, left_grown};

use crate::growth::Growth;
use mq_ir::{PlacedFault, Rule, SingleLeft};
use mq_values::{Fail, FaultKind, Key, MAX_CELLS_OF_PARTITION};
use std::alloc::Global;

/// What has grown after these single left sides of the rule of this number, or the first fault. Each has as many places as
/// a cell has values.
pub fn grow_all(
    alloc: Global,
    number: u32,
    rule: &Rule,
    lefts: &[SingleLeft],
    growth: Growth,
) -> Result<Growth, Fail<PlacedFault>>
    requires { AreWide lefts.now growth.set }
    ensures { Gives result (each_in_turn (left_grown number rule.now) lefts.now growth) }
{
    let mut growth = growth;
    'lefts: for left in lefts {
        growth = grow_one(alloc, number, rule, left, growth)?;
    }
    Ok(growth)
}

// One single left side: its cells are created, and the rule's measure of its targets is assigned.
fn grow_one(
    alloc: Global,
    number: u32,
    rule: &Rule,
    left: &SingleLeft,
    growth: Growth,
) -> Result<Growth, Fail<PlacedFault>>
    requires { HaveLength (length left.now.places) growth.set }
    ensures { Gives result (left_grown number rule.now left.now growth) }
{
    let found = growth.targets(alloc, left, rule.mode)?;
    let again = growth.assigned_already(alloc, rule.measure, found.cells.as_slice())?;
    let there = growth.with_created(found.created.as_slice())?;
    match fault_of(number, again, there.len()) {
        Some(fault) => Err(Fail::Cause(fault)),
        None => {
            let grown = there.with_assigned(alloc, rule.measure, number, found.cells)?;
            Ok(grown)
        }
    }
}

// Why a rule may not assign its targets: one is assigned `again`, or there are too many cells.
fn fault_of(number: u32, again: Option<Key>, count: usize) -> Option<PlacedFault>
    ensures { result ≡ fault_in number again count }
{
    if let Some(key) = again {
        return Some(PlacedFault::new(number, key, FaultKind::AssignedTwice));
    }
    if count > MAX_CELLS_OF_PARTITION {
        return Some(PlacedFault::new(number, Key::empty(), FaultKind::TooManyCells));
    }
    None
}
