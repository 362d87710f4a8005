//! Stretches of neighbouring partitions of a view that is kept: what workers run of it.
ghost use Rattle.std.specs.Prelude.{◌≡◌, ◌≤◌, length, IfOk};
ghost use Rattle.std.specs.List.{All};
ghost use Rattle.mq_claims.specs.declared.limits.TheConstants.{MAX_PIECES};
ghost use Rattle.mq_ir.specs.Unfolding.{model_of};
ghost use Rattle.mq_kept.specs.Kept.{IsRight};
ghost use Rattle.mq_answers.specs.KeptStretches.{MaySettle, parts_in};

use crate::cuts::cut;
use crate::workers::Workers;
use mq_auto::ByThreads;
use mq_ir::Model as Lent;
use mq_kept::{KeptPart, settle_all};
use mq_values::{Items, Memory};
use mq_workers::Piece;
use std::alloc::Global;
use std::thread::Threads;

/// Neighbouring partitions that are kept, the model that is put to work over those of which nothing was found yet, and what starts
/// threads for those with many cells.
#[derive(Drop)]
pub struct KeptStretch<'a, R> {
    rt: &'a R,
    workers: u32,
    alloc: Global,
    model: &'a Lent<'a>,
    pub parts: Vec<KeptPart>,
    pub done: Result<(), Memory>,
}

impl<'a, R> KeptStretch<'a, R> {
    // Partitions that were not run in this look yet.
    fn new(
        rt: &'a R,
        alloc: Global,
        model: &'a Lent<'a>,
        parts: Items<KeptPart>,
        workers: Workers,
    ) -> KeptStretch<'a, R>
        requires { All (IsRight (model_of model.now)) parts }
        ensures settle { MaySettle model.now result }
        ensures parts { result.parts.items ≡ parts }
    {
        KeptStretch {
            rt,
            workers: workers.count(),
            alloc,
            model,
            parts: parts.into_vec(),
            done: Ok(()),
        }
    }
}

impl<'a, R: Threads + Sync> Piece for KeptStretch<'a, R> {
    ghost use Rattle.std.specs.Thread.{IsSync};
    ghost use Rattle.mq_answers.specs.KeptStretches.{AreRight, IsSettledOf};

    // That what was found of its partitions is right, and, as `ByThreads` asks, that the runtime may be shared by threads.
    ghost ready = { λ stretch. AreRight stretch × IsSync R.row };

    ghost ran = { IsSettledOf };

    fn run(&mut self) {
        let finder = ByThreads {
            rt: self.rt,
            workers: self.workers,
        };
        self.done = settle_all(self.alloc, self.model, &finder, self.parts.as_mut_slice());
    }
}

/// The partitions in order, cut into stretches of about the same length (`cut`). In each of them so many workers may share the cells
/// of a partition.
pub fn kept_stretches_of<'a, R>(
    rt: &'a R,
    alloc: Global,
    m: &'a Lent<'a>,
    parts: Items<KeptPart>,
    workers: Workers,
) -> Result<Vec<KeptStretch<'a, R>>, Memory>
    requires { All (IsRight (model_of m.now)) parts }
    ensures few { IfOk result (λ stretches. length stretches.items ≤ MAX_PIECES) }
    ensures settle { IfOk result (λ stretches. All (MaySettle m.now) stretches.items) }
    ensures same { IfOk result (λ stretches. parts_in stretches.items ≡ parts) }
{
    let cuts = cut(alloc, parts, workers)?;
    let mut stretches = Vec::with_capacity(alloc, cuts.len())?;
    for part in cuts.into_vec() {
        stretches.push(KeptStretch::new(rt, alloc, m, part, workers))?;
    }
    Ok(stretches)
}
