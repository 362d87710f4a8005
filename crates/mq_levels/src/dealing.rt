//! Nodes dealt out to their rounds.

ghost use Rattle.std.specs.Prelude.{◌≡◌, ◌<◌, ◌≤◌, ◌+◌, length, IfOk, OnOk};
ghost use Rattle.mq_levels.specs.Numbers.{AreDealt, NumbersBelow};

use crate::lists::empty_lists;
use mq_values::{Items, Memory};
use std::alloc::Global;

/// Nodes by rounds: each round ascending, and the nodes that come in no round, ascending
/// (docs/MEANING.md, "Levels").
#[derive(Debug, Drop)]
pub struct Leveled {
    pub rounds: Items<Items<u32>>,
    pub rest: Items<u32>,
}

// Deals out one node more.
fn deal_one(
    numbers: &[Option<u32>],
    node: u32,
    rounds: &mut [Items<u32>],
    rest: &mut Items<u32>,
) -> Result<(), Memory>
    requires node { node < length numbers.now }
    requires below { NumbersBelow (length rounds.old) numbers.now }
    requires dealt { AreDealt numbers.now node rounds.old rest.old }
    ensures { OnOk result (AreDealt numbers.now (node + 1) rounds.new rest.new) }
{
    if let Some(number) = numbers[node as usize] {
        rounds[number as usize].push(node)?;
        return Ok(());
    }
    rest.push(node)?;
    Ok(())
}

/// Deals the nodes out to `count` rounds by their numbers; the rest has none.
pub fn dealt(alloc: Global, numbers: &[Option<u32>], count: u32) -> Result<Leveled, Memory>
    requires long { length numbers.now ≤ u32.MAX }
    requires below { NumbersBelow count numbers.now }
    ensures long { IfOk result (λ it. length it.rounds ≡ count) }
    ensures dealt { IfOk result (λ it. AreDealt numbers.now (length numbers.now) it.rounds it.rest) }
{
    let mut rounds = empty_lists(alloc, count)?;
    let mut rest = Items::new(alloc);
    for node in 0..numbers.len() as u32 {
        deal_one(numbers, node, &mut rounds, &mut rest)?;
    }
    Ok(Leveled {
        rounds: Items::from_vec(rounds),
        rest,
    })
}
