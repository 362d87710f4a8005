//! The rounds of a list of nodes.

ghost use Rattle.std.specs.Prelude.{◌≡◌, ◌<◌, ◌≤◌, ◌↔◌, IsTrue, length, IfOk};
ghost use Rattle.std.specs.List.{All};
ghost use Rattle.mq_levels.specs.Levels.{AreRounds, ReadsNodes, reads_in, rest_of};

use crate::dealing::{Leveled, dealt};
use crate::reads::{Lists, Reads};
use crate::rounds::numbered;
use mq_values::Memory;
use std::alloc::Global;

// Whether each number of a list is below `count`.
fn are_below(list: &[u32], count: usize) -> bool
    ensures { IsTrue result ↔ All (λ read. read < count) list.now }
{
    list.iter().all(|read| (*read as usize) < count)
}

/// Whether each number that is read is one of a node, as `levels` wants it.
pub fn are_nodes(reads: &[Vec<u32>]) -> bool
    ensures { IsTrue result ↔ ReadsNodes (reads_in reads.now) }
{
    for list in reads {
        if !are_below(list, reads.len()) {
            return false;
        }
    }
    true
}

/// The rounds of the nodes 0, 1, .. of which each reads the nodes in its list, and the rest: the nodes that are in a
/// circle or read, over others, one that is (docs/MEANING.md, "Levels"). `Memory` is the only error. It takes a few words
/// a node, and time for each read once, and for each time that a node's last open read gets its number.
pub fn levels_over<R: Reads>(alloc: Global, reads: &R) -> Result<Leveled, Memory>
    requires long { length (R.reads reads.now) ≤ u32.MAX }
    requires reads { ReadsNodes (R.reads reads.now) }
    ensures rounds { IfOk result (λ it. AreRounds (R.reads reads.now) it.rounds) }
    ensures rest { IfOk result (λ it. it.rest ≡ rest_of (R.reads reads.now)) }
{
    let numbering = numbered(alloc, reads)?;
    dealt(alloc, &numbering.numbers, numbering.count)
}

/// The same where the reads of all nodes stand in lists.
pub fn levels(alloc: Global, reads: &[Vec<u32>]) -> Result<Leveled, Memory>
    requires long { length reads.now ≤ u32.MAX }
    requires reads { ReadsNodes (reads_in reads.now) }
    ensures rounds { IfOk result (λ it. AreRounds (reads_in reads.now) it.rounds) }
    ensures rest { IfOk result (λ it. it.rest ≡ rest_of (reads_in reads.now)) }
{
    levels_over(alloc, &Lists { lists: reads })
}
