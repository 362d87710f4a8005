//! Reads as runs of nodes that follow one another.

ghost use Rattle.std.specs.Prelude.{◌≡◌, ◌<◌, ◌≤◌, ◌+◌, ◌-◌, ◌++◌, [], ◌∷◌, true, false, None, drop, length, take, IfSome, MatchOption, OnOk, OnErr};
ghost use Rattle.std.specs.List.{All, Contains, list_all, range_with_len};
ghost use Rattle.mq_levels.specs.Numbers.{has_number};
ghost use Rattle.mq_levels.specs.Places.{EndsOpen, IsLeft};
ghost use Rattle.mq_levels.specs.Runs.{begin_from, last_end, left_of, nodes_in, runs_of, written};

use crate::reads::{Open, Reads};
use mq_values::Memory;
use std::alloc::Global;
use std::marker::Model;

/// `count` nodes from `start` on.
#[derive(Clone, Copy, Drop)]
pub struct Run {
    pub start: u32,
    pub count: u32,
}

/// A place in runs: what is left are the first `whole` of them and, behind these, `count` nodes from `start` on.
#[derive(Clone, Copy, Drop)]
pub struct RunPlace {
    whole: usize,
    start: u32,
    count: u32,
}

// Where the part of a node begins: at the end of the one before.
fn begin_of(ends: &[usize], node: usize) -> usize
    requires { node < length ends.now }
    ensures { result ≡ begin_from 0 ends.now node }
{
    if node == 0 {
        return 0;
    }
    ends[node - 1]
}

// Where the last part ends.
fn last_of(ends: &[usize]) -> usize
    ensures { result ≡ last_end 0 ends.now }
{
    if ends.is_empty() {
        return 0;
    }
    ends[ends.len() - 1]
}

// The run that goes on with `read`, if that is the node behind it.
fn longer(run: Run, read: u32) -> Option<Run>
    ensures { IfSome result (λ longer. nodes_in longer ≡ nodes_in run ++ read ∷ []) }
{
    let end = run.start as u64 + run.count as u64;
    if run.count == u32::MAX || end != read as u64 {
        return None;
    }
    Some(Run {
        start: run.start,
        count: run.count + 1,
    })
}

// A part of a list.
fn part(runs: &[Run], begin: usize, end: usize) -> &[Run]
    requires begin { begin ≤ end }
    requires end { end ≤ length runs.now }
    ensures { result.now ≡ take (end - begin) (drop begin runs.now) }
{
    &runs[begin..end]
}

/// For each node the runs that it reads. They stand in one vector, node after node, with the end of each node's part.
#[derive(Drop)]
pub struct Runs {
    runs: Vec<Run>,
    ends: Vec<usize>,
}

impl Model for Runs {
    ghost use Rattle.std.specs.Prelude.{length};
    ghost use Rattle.mq_levels.specs.Runs.{AreEnds, RunLists, lists_of};

    ghost Value = { RunLists };

    ghost view = { λ r. lists_of r.ends.items r.runs.items };

    ghost invariant = { λ r. AreEnds 0 r.ends.items (length r.runs.items) };
}

impl Runs {
    /// No node.
    pub fn new(alloc: Global) -> Runs
        ensures nodes { result.nodes ≡ [] }
        ensures next { result.next ≡ [] }
    {
        Runs {
            runs: Vec::new(alloc),
            ends: Vec::new(alloc),
        }
    }

    /// Puts a run to those of the next node.
    pub fn push_run(&mut self, run: Run) -> Result<(), Memory>
        ensures nodes { self.new.nodes ≡ self.old.nodes }
        ensures ok { OnOk result (self.new.next ≡ self.old.next ++ run ∷ []) }
        ensures err { OnErr result (self.new.next ≡ self.old.next) }
    {
        self.runs.push(run)?;
        Ok(())
    }

    /// Puts one read to those of the next node. Its last run gets longer where the read comes behind it.
    pub fn push_read(&mut self, read: u32) -> Result<(), Memory>
        ensures nodes { self.new.nodes ≡ self.old.nodes }
        ensures ok { OnOk result (written self.new.next ≡ written self.old.next ++ read ∷ []) }
        ensures err { OnErr result (self.new.next ≡ self.old.next) }
    {
        let count = self.runs.len();
        if last_of(&self.ends) < count {
            if let Some(run) = longer(self.runs[count - 1], read) {
                self.runs[count - 1] = run;
                return Ok(());
            }
        }
        self.push_run(Run {
            start: read,
            count: 1,
        })
    }

    /// Ends the next node: it has the runs that were put.
    pub fn end_node(&mut self) -> Result<(), Memory>
        ensures ok { OnOk result ((self.new.nodes ≡ self.old.nodes ++ self.old.next ∷ []) × (self.new.next ≡ [])) }
        ensures err { OnErr result (self.new ≡ self.old) }
    {
        self.ends.push(self.runs.len())?;
        Ok(())
    }

    // The runs of a node.
    fn runs_of(&self, node: u32) -> &[Run]
        requires { node < length self.now.nodes }
        ensures { result.now ≡ runs_of self.now node }
    {
        let node = node as usize;
        part(&self.runs, begin_of(&self.ends, node), self.ends[node])
    }
}

// The first node of runs.
fn first_in(runs: &[Run]) -> Option<u32>
    ensures { MatchOption result (written runs.now ≡ []) (Contains (written runs.now)) }
{
    for run in runs {
        if run.count > 0 {
            return Some(run.start);
        }
    }
    None
}

// How many nodes of a run are left when those at its end that have numbers are passed.
fn open_count(start: u32, count: u32, numbers: &[Option<u32>]) -> u32
    requires { All (λ read. read < length numbers.now) (range_with_len start count) }
    ensures less { result ≤ count }
    ensures left { IsLeft numbers.now (range_with_len start count) (range_with_len start result) }
    ensures last { 0 < result → has_number numbers.now (start + (result - 1)) ≡ false }
{
    let mut left = count;
    while left > 0 {
        if numbers[start as usize + (left as usize - 1)].is_none() {
            return left;
        }
        left -= 1;
    }
    0
}

// The last read left that has no number.
fn last_open_in(runs: &[Run], place: RunPlace, numbers: &[Option<u32>]) -> Option<Open<RunPlace>>
    requires place { place.whole ≤ length runs.now }
    requires few { length numbers.now ≤ u32.MAX }
    requires within { All (λ read. read < length numbers.now) (left_of runs.now place) }
    ensures none { result ≡ None → list_all (has_number numbers.now) (left_of runs.now place) ≡ true }
    ensures place { IfSome result (λ found. found.place.whole ≤ length runs.now) }
    ensures ends { IfSome result (λ found.
        EndsOpen numbers.now (left_of runs.now place) (left_of runs.now found.place) found.read) }
{
    let mut at = place;
    loop {
        let count = open_count(at.start, at.count, numbers);
        if count > 0 {
            return Some(Open {
                read: at.start + (count - 1),
                place: RunPlace { count, ..at },
            });
        }
        if at.whole == 0 {
            return None;
        }
        let run = runs[at.whole - 1];
        at = RunPlace {
            whole: at.whole - 1,
            start: run.start,
            count: run.count,
        };
    }
}

impl Reads for Runs {
    type Place = RunPlace;

    ghost use Rattle.std.specs.Prelude.{◌≤◌, length};
    ghost use Rattle.mq_levels.specs.Runs.{left_of, reads_in_runs, runs_of};

    ghost reads = { reads_in_runs };

    ghost is_place = { λ s node place. place.whole ≤ length (runs_of s node) };

    ghost left = { λ s node place. left_of (runs_of s node) place };

    fn len(&self) -> usize {
        self.ends.len()
    }

    fn first(&self, node: u32) -> Option<u32> {
        first_in(self.runs_of(node))
    }

    fn whole(&self, node: u32) -> RunPlace {
        RunPlace {
            whole: self.runs_of(node).len(),
            start: 0,
            count: 0,
        }
    }

    fn last_open(
        &self,
        node: u32,
        place: RunPlace,
        numbers: &[Option<u32>],
    ) -> Option<Open<RunPlace>> {
        last_open_in(self.runs_of(node), place, numbers)
    }
}
