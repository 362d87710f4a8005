//! Round after round, until one is empty.

ghost use Rattle.std.specs.Prelude.{◌≡◌, ◌≤◌, length, replicate, [], None, IfOk};
ghost use Rattle.mq_levels.specs.Levels.{ReadsNodes};
ghost use Rattle.mq_levels.specs.Numbers.{AllNumbered};
ghost use Rattle.mq_levels.specs.Places.{ArePlaced};

use crate::marking::mark;
use crate::reads::Reads;
use crate::waiters::Waiters;
use crate::waiting::{begin, wake};
use mq_values::Memory;
use std::alloc::Global;

/// The number of each node's round, and the number of rounds.
#[derive(Drop)]
pub struct Numbering {
    pub numbers: Vec<Option<u32>>,
    pub count: u32,
}

// For each node the place at which all of its list is left.
fn whole_places<R: Reads>(
    alloc: Global,
    reads: &R,
    numbers: &[Option<u32>],
) -> Result<Vec<R::Place>, Memory>
    requires few { length (R.reads reads.now) ≤ u32.MAX }
    ensures { IfOk result (λ places.
        ArePlaced (R.reads reads.now) (R.is_place reads.now) (R.left reads.now) numbers.now places.items) }
{
    let mut places = Vec::new(alloc);
    for node in 0..reads.len() as u32 {
        places.push(reads.whole(node))?;
    }
    Ok(places)
}

// Goes through the rounds until one is empty, and gives their number.
fn run_rounds<R: Reads>(
    alloc: Global,
    reads: &R,
    numbers: &mut [Option<u32>],
    places: &mut [R::Place],
    waiters: &mut Waiters,
) -> Result<u32, Memory>
    requires reads { ReadsNodes (R.reads reads.now) }
    requires few { length (R.reads reads.now) ≤ u32.MAX }
    requires numbers { numbers.old ≡ replicate (length (R.reads reads.now)) None }
    requires places { ArePlaced (R.reads reads.now) (R.is_place reads.now) (R.left reads.now) numbers.old places.old }
    requires waiters { waiters.old ≡ replicate (length (R.reads reads.now)) [] }
    ensures { IfOk result (λ count. AllNumbered (R.reads reads.now) count numbers.new) }
{
    let mut ready = begin(alloc, reads, waiters)?;
    let nodes = reads.len() as u32;
    for number in 0..nodes {
        if ready.is_empty() {
            return Ok(number);
        }
        mark(&ready, number, numbers);
        ready = wake(alloc, reads, numbers, &ready, places, waiters)?;
    }
    Ok(nodes)
}

/// Numbers the nodes round by round.
pub fn numbered<R: Reads>(alloc: Global, reads: &R) -> Result<Numbering, Memory>
    requires few { length (R.reads reads.now) ≤ u32.MAX }
    requires reads { ReadsNodes (R.reads reads.now) }
    ensures { IfOk result (λ it. AllNumbered (R.reads reads.now) it.count it.numbers.items) }
{
    let mut numbers = vec![in alloc; None; reads.len()]?;
    let mut places = whole_places(alloc, reads, &numbers)?;
    let mut waiters = Waiters::new(alloc, reads.len())?;
    let count = run_rounds(alloc, reads, &mut numbers, &mut places, &mut waiters)?;
    Ok(Numbering { numbers, count })
}
