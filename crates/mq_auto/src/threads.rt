//! The slots of the targets of a round, found by threads.
ghost use Rattle.std.specs.Prelude.{◌≡◌, ◌<◌, true, length, IfOk};
ghost use Rattle.std.specs.List.{All};
ghost use Rattle.mq_cells.specs.IndexedStores.{slots_in};
ghost use Rattle.mq_auto.specs.Mapped.{IsFoundIn};
ghost use Rattle.mq_auto.specs.Walks.{AreRuled, AreSlotsOver, IsAtWork, LendsAll, model_in};

use crate::finding::{ByLending, Finder, slot_lent};
use crate::work::{Work, assigned_at};
use mq_cells::{IndexedCells, LentStore};
use mq_ir::{Rule, Slot};
use mq_values::{Items, Key, Memory};
use rayon::prelude::*;
use std::alloc::Global;
use std::thread::Threads;

/// The fewest targets of a round for which threads are started: to start them takes as long as to find the slots of some
/// hundred.
pub const MIN_MAPPED: usize = 512;

/// By threads, where a round has targets enough: at most as many at once as there are workers. With one worker no thread is
/// started.
#[derive(Drop)]
pub struct ByThreads<'r, R> {
    pub rt: &'r R,
    pub workers: u32,
}

impl<R: Threads + Sync> Finder<IndexedCells> for ByThreads<'_, R> {
    ghost use Rattle.std.specs.Thread.{IsSync};

    // That the runtime may be shared by threads. The bound says it, but not to the contracts of methods.
    ghost is_ready = { λ _. IsSync R.row };

    fn slot(
        &self,
        alloc: Global,
        work: &Work<'_>,
        rule: &Rule,
        target: &Key,
        cells: &mut IndexedCells,
    ) -> Result<Slot, Memory> {
        ByLending.slot(alloc, work, rule, target, cells)
    }

    fn slots(
        &self,
        alloc: Global,
        work: &Work<'_>,
        round: &[u32],
        cells: &mut IndexedCells,
    ) -> Result<Option<Items<(u32, Slot)>>, Memory> {
        let Some(least) = least_piece(self.workers, round.len()) else {
            return Ok(None);
        };
        if !lends_all(cells) {
            return Ok(None);
        }
        let found = lent_slots(self.rt, alloc, work, round, least, cells)?;
        Ok(Some(Items::from_vec(found)))
    }
}

// The fewest targets for a thread of its own where a round has so many; `None` where none is to be started.
fn least_piece(workers: u32, count: usize) -> Option<usize> {
    if workers < 2 || count < MIN_MAPPED {
        return None;
    }
    Some(count / workers as usize)
}

// Whether a store lends all its values.
fn lends_all(cells: &IndexedCells) -> bool
    ensures { result ≡ true → LendsAll cells.now }
{
    match cells.lent() {
        Some(_) => true,
        None => false,
    }
}

// The slots of these targets over a store that lends all its values.
fn lent_slots<R: Threads + Sync>(
    rt: &R,
    alloc: Global,
    work: &Work<'_>,
    round: &[u32],
    least: usize,
    cells: &IndexedCells,
) -> Result<Vec<(u32, Slot)>, Memory>
    requires work { IsAtWork work.now }
    requires ruled { AreRuled (model_in work.now) work.now.shape.now }
    requires there { All (λ place. place < length work.now.shape.now.assigned) round.now }
    requires values { LendsAll cells.now }
    ensures { IfOk result (λ v. AreSlotsOver (model_in work.now) work.now.shape.now (slots_in cells.now) round.now v.items) }
{
    round
        .par_iter()
        .with_min_len(least)
        .map(
            |place: &u32| -> Result<(u32, Slot), Memory>
                requires work { IsAtWork work.now }
                requires ruled { AreRuled (model_in work.now) work.now.shape.now }
                requires there { place.now < length work.now.shape.now.assigned }
                requires values { LendsAll cells.now }
                ensures { IfOk result (IsFoundIn work.entry.now cells.entry.now place.now) }
            { lent_at(alloc, work, *place, cells) },
        )
        .collect::<Result<Vec<(u32, Slot)>, Memory>>(rt, alloc)?
}

// The slot of the assignment at a place, behind it, over a store that lends all its values.
fn lent_at(
    alloc: Global,
    work: &Work<'_>,
    place: u32,
    cells: &IndexedCells,
) -> Result<(u32, Slot), Memory>
    requires work { IsAtWork work.now }
    requires ruled { AreRuled (model_in work.now) work.now.shape.now }
    requires there { place < length work.now.shape.now.assigned }
    requires values { LendsAll cells.now }
    ensures { IfOk result (IsFoundIn work.now cells.now place) }
{
    let (target, rule) = assigned_at(work, place);
    let slot = slot_lent(alloc, work, rule, target, LentStore::new(cells, 0))?;
    Ok((place, slot))
}
