//! Stretches of neighbouring partitions: what workers run of a query.
ghost use Rattle.std.specs.Prelude.{◌≡◌, ◌≤◌, length, IfOk};
ghost use Rattle.std.specs.List.{All};
ghost use Rattle.mq_claims.specs.declared.limits.TheConstants.{MAX_PIECES};
ghost use Rattle.mq_ir.specs.Ready.{IsReady};
ghost use Rattle.mq_ir.specs.Answer.{result_in};
ghost use Rattle.mq_ir.specs.Unfolding.{model_of};
ghost use Rattle.mq_answers.specs.Stretches.{CanRun, ComesTo, inputs_in, is_fault};

use crate::cuts::cut;
use crate::results::result_of;
use crate::workers::Workers;
use mq_auto::{AutoRunner, ByThreads, Finder};
use mq_cells::IndexedCells;
use mq_ir::{Model as Lent, PartInput, PartResult};
use mq_values::{Items, Key, Memory};
use mq_workers::Piece;
use std::alloc::Global;
use std::thread::Threads;

/// What a model makes of the partition with this key.
#[derive(Drop)]
pub struct Found {
    pub key: Key,
    pub made: PartResult,
}

/// Neighbouring partitions, the model that is put to work over them, and what starts threads for those with many cells. Once they
/// were run it has what the model makes of them, up to the first fault.
#[derive(Drop)]
pub struct Stretch<'a, R> {
    rt: &'a R,
    workers: u32,
    alloc: Global,
    model: &'a Lent<'a>,
    inputs: Items<PartInput>,
    pub found: Result<Items<Found>, Memory>,
}

impl<'a, R> Stretch<'a, R> {
    // Partitions that were not run yet.
    fn new(
        rt: &'a R,
        alloc: Global,
        model: &'a Lent<'a>,
        inputs: Items<PartInput>,
        workers: Workers,
    ) -> Stretch<'a, R>
        requires { All (IsReady model.now.part.now) inputs }
        ensures run { CanRun model.now result }
        ensures inputs { result.inputs ≡ inputs }
    {
        Stretch {
            rt,
            workers: workers.count(),
            alloc,
            model,
            inputs,
            found: Ok(Items::new(alloc)),
        }
    }
}

impl<'a, R: Threads + Sync> Piece for Stretch<'a, R> {
    ghost use Rattle.std.specs.Thread.{IsSync};
    ghost use Rattle.mq_answers.specs.Stretches.{IsRunnable, IsRunOf};

    // That its partitions are ready for the rules, and, as `ByThreads` asks, that the runtime may be shared by threads.
    ghost ready = { λ stretch. IsRunnable stretch × IsSync R.row };

    ghost ran = { IsRunOf };

    fn run(&mut self) {
        let finder = ByThreads {
            rt: self.rt,
            workers: self.workers,
        };
        self.found = found_in(self.alloc, self.model, self.inputs.as_slice(), &finder);
    }
}

// What the model makes of these partitions, up to the first fault; one runner runs over them all.
fn found_in<F: Finder<IndexedCells>>(
    alloc: Global,
    m: &Lent<'_>,
    inputs: &[PartInput],
    finder: &F,
) -> Result<Items<Found>, Memory>
    requires ready { All (IsReady m.now.part.now) inputs.now }
    requires finder { F.is_ready finder.now }
    ensures { IfOk result (ComesTo (model_of m.now) inputs.now) }
{
    let mut runner = AutoRunner::new(m);
    let mut found = Items::with_room(alloc, inputs.len());
    for p in inputs {
        let next = found_at(alloc, m, p, &mut runner, finder)?;
        let is_last = is_fault(&next.made);
        found.push(next)?;
        if is_last {
            return Ok(found);
        }
    }
    Ok(found)
}

fn found_at<F: Finder<IndexedCells>>(
    alloc: Global,
    m: &Lent<'_>,
    p: &PartInput,
    runner: &mut AutoRunner<'_>,
    finder: &F,
) -> Result<Found, Memory>
    requires ready { IsReady m.now.part.now p.now }
    requires finder { F.is_ready finder.now }
    requires runner { runner.old ≡ model_of m.now }
    ensures exact { IfOk result (λ f. f ≡ record { key = p.now.key; made = result_in (model_of m.now) p.now }) }
    ensures same { runner.new ≡ runner.old }
{
    let made = result_of(alloc, m, p, runner, finder)?;
    let key = p.key.copy()?;
    Ok(Found { key, made })
}

fn is_fault(found: &PartResult) -> bool
    ensures { result ≡ is_fault found.now }
{
    match found {
        PartResult::Rows(_) => false,
        PartResult::Fault(_) => true,
    }
}

/// The partitions in order, cut into stretches of about the same length (`cut`). In each of them so many workers may share the cells
/// of a partition.
pub fn stretches_of<'a, R>(
    rt: &'a R,
    alloc: Global,
    m: &'a Lent<'a>,
    inputs: Items<PartInput>,
    workers: Workers,
) -> Result<Items<Stretch<'a, R>>, Memory>
    requires { All (IsReady m.now.part.now) inputs }
    ensures few { IfOk result (λ stretches. length stretches ≤ MAX_PIECES) }
    ensures run { IfOk result (All (CanRun m.now)) }
    ensures same { IfOk result (λ stretches. inputs_in stretches ≡ inputs) }
{
    let parts = cut(alloc, inputs, workers)?;
    let mut stretches = Items::with_room(alloc, parts.len());
    for part in parts.into_vec() {
        stretches.push(Stretch::new(rt, alloc, m, part, workers))?;
    }
    Ok(stretches)
}
