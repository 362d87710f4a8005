//! Nodes that wait for reads that have no number yet.

ghost use Rattle.std.specs.Prelude.{◌≡◌, ◌<◌, ◌≤◌, ◌++◌, [], ◌∷◌, length, replicate, None, true, IfOk, OnOk};
ghost use Rattle.std.specs.List.{All};
ghost use Rattle.mq_levels.specs.Levels.{ReadsNodes};
ghost use Rattle.mq_levels.specs.Numbers.{has_number};
ghost use Rattle.mq_levels.specs.Places.{ArePlaced};
ghost use Rattle.mq_levels.specs.Rounds.{AllMoving, AreWoken};
ghost use Rattle.mq_levels.specs.Waiting.{IsFree, WentOn};

use crate::reads::Reads;
use crate::waiters::Waiters;
use mq_values::Memory;
use std::alloc::Global;

// Lets a node that waits for nobody go on: to its last open read, or to the ready ones.
fn move_node<R: Reads>(
    reads: &R,
    numbers: &[Option<u32>],
    node: u32,
    places: &mut [R::Place],
    waiters: &mut Waiters,
    ready: &mut Vec<u32>,
) -> Result<(), Memory>
    requires reads { ReadsNodes (R.reads reads.now) }
    requires few { length (R.reads reads.now) ≤ u32.MAX }
    requires numbers { length numbers.now ≡ length (R.reads reads.now) }
    requires node { node < length (R.reads reads.now) }
    requires places { ArePlaced (R.reads reads.now) (R.is_place reads.now) (R.left reads.now) numbers.now places.old }
    requires waiters { length waiters.old ≡ length (R.reads reads.now) }
    requires free { IsFree waiters.old node }
    ensures long { length waiters.new ≡ length waiters.old }
    ensures places { ArePlaced (R.reads reads.now) (R.is_place reads.now) (R.left reads.now) numbers.now places.new }
    ensures went { OnOk result (WentOn (R.reads reads.now) numbers.now node
        waiters.old waiters.new ready.old.items ready.new.items) }
{
    match reads.last_open(node, places[node as usize], numbers) {
        Some(found) => {
            places[node as usize] = found.place;
            waiters.put(found.read, node);
        }
        None => ready.push(node)?,
    }
    Ok(())
}

// Lets a node that waits for nobody begin: no node has a number, so it waits for its first read, if it reads any.
fn begin_one<R: Reads>(
    reads: &R,
    node: u32,
    waiters: &mut Waiters,
    ready: &mut Vec<u32>,
) -> Result<(), Memory>
    requires reads { ReadsNodes (R.reads reads.now) }
    requires node { node < length (R.reads reads.now) }
    requires waiters { length waiters.old ≡ length (R.reads reads.now) }
    requires free { IsFree waiters.old node }
    ensures long { length waiters.new ≡ length waiters.old }
    ensures went { OnOk result (WentOn (R.reads reads.now) (replicate (length (R.reads reads.now)) None) node
        waiters.old waiters.new ready.old.items ready.new.items) }
{
    match reads.first(node) {
        Some(read) => waiters.put(read, node),
        None => ready.push(node)?,
    }
    Ok(())
}

/// Lets every node begin to wait. The nodes that read nothing come out.
pub fn begin<R: Reads>(alloc: Global, reads: &R, waiters: &mut Waiters) -> Result<Vec<u32>, Memory>
    requires reads { ReadsNodes (R.reads reads.now) }
    requires few { length (R.reads reads.now) ≤ u32.MAX }
    requires waiters { waiters.old ≡ replicate (length (R.reads reads.now)) [] }
    ensures long { length waiters.new ≡ length waiters.old }
    ensures begun { IfOk result (λ ready. AllMoving (R.reads reads.now) 0 (replicate (length (R.reads reads.now)) None)
        waiters.new [] ready.items) }
{
    let mut ready = Vec::new(alloc);
    for node in 0..reads.len() as u32 {
        begin_one(reads, node, waiters, &mut ready)?;
    }
    Ok(ready)
}

// Lets all who wait for a read that has a number go on.
fn wake_one<R: Reads>(
    reads: &R,
    numbers: &[Option<u32>],
    read: u32,
    places: &mut [R::Place],
    waiters: &mut Waiters,
    ready: &mut Vec<u32>,
) -> Result<(), Memory>
    requires reads { ReadsNodes (R.reads reads.now) }
    requires few { length (R.reads reads.now) ≤ u32.MAX }
    requires numbers { length numbers.now ≡ length (R.reads reads.now) }
    requires read { read < length (R.reads reads.now) }
    requires done { has_number numbers.now read ≡ true }
    requires places { ArePlaced (R.reads reads.now) (R.is_place reads.now) (R.left reads.now) numbers.now places.old }
    requires waiters { length waiters.old ≡ length (R.reads reads.now) }
    ensures long { length waiters.new ≡ length waiters.old }
    ensures places { ArePlaced (R.reads reads.now) (R.is_place reads.now) (R.left reads.now) numbers.now places.new }
    ensures woken { OnOk result (AreWoken (R.reads reads.now) numbers.now (read ∷ [])
        waiters.old waiters.new ready.old.items ready.new.items) }
{
    while let Some(node) = waiters.take(read) {
        move_node(reads, numbers, node, places, waiters, ready)?;
    }
    Ok(())
}

/// Lets all who wait for one of `nodes` go on, each of which has a number. Those come out of which each read has one.
pub fn wake<R: Reads>(
    alloc: Global,
    reads: &R,
    numbers: &[Option<u32>],
    nodes: &[u32],
    places: &mut [R::Place],
    waiters: &mut Waiters,
) -> Result<Vec<u32>, Memory>
    requires reads { ReadsNodes (R.reads reads.now) }
    requires few { length (R.reads reads.now) ≤ u32.MAX }
    requires numbers { length numbers.now ≡ length (R.reads reads.now) }
    requires nodes { All (λ node. node < length (R.reads reads.now)) nodes.now }
    requires done { All (λ node. has_number numbers.now node ≡ true) nodes.now }
    requires places { ArePlaced (R.reads reads.now) (R.is_place reads.now) (R.left reads.now) numbers.now places.old }
    requires waiters { length waiters.old ≡ length (R.reads reads.now) }
    ensures long { length waiters.new ≡ length waiters.old }
    ensures places { ArePlaced (R.reads reads.now) (R.is_place reads.now) (R.left reads.now) numbers.now places.new }
    ensures woken { IfOk result (λ ready. AreWoken (R.reads reads.now) numbers.now nodes.now
        waiters.old waiters.new [] ready.items) }
{
    let mut ready = Vec::new(alloc);
    for node in nodes {
        wake_one(reads, numbers, *node, places, waiters, &mut ready)?;
    }
    Ok(ready)
}
