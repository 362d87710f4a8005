//! The slots of targets.
ghost use Rattle.std.specs.Prelude.{◌≡◌, ◌<◌, length, IfOk, IfSome};
ghost use Rattle.std.specs.List.{All};
ghost use Rattle.mq_ir.specs.Slots.{cell_slot};
ghost use Rattle.mq_cells.specs.IndexedStores.{slots_in};
ghost use Rattle.mq_cells.specs.Stores.{slot_at};
ghost use Rattle.mq_auto.specs.Walks.{AreRuled, AreSlotsOver, LendsAll, IsAtWork, model_in};

use crate::work::Work;
use mq_cells::{Cells, IndexedCells, LentStore};
use mq_ir::{Rule, Slot};
use mq_refs::{slot_over, value_over};
use mq_values::{Fail, Items, Key, Memory};
use std::alloc::Global;

/// How the slots of targets are found over a store of cells.
pub trait Finder<C: Cells> {
    /// What a finder asks before it finds all slots of a round at once: nothing, where none is said.
    ghost is_ready: { Self → Type 0 } = { λ _. Unit {0} };

    /// What a rule makes of `target` over what stands in `cells`. Nothing that stands is changed.
    fn slot(
        &self,
        alloc: Global,
        work: &Work<'_>,
        rule: &Rule,
        target: &Key,
        cells: &mut C,
    ) -> Result<Slot, Memory>
        requires { IsAtWork work.now }
        ensures exact { IfOk result (λ slot. slot
            ≡ cell_slot (model_in work.now) work.now.shape.now 0 rule.now target.now (slot_at (C.input cells.old) (C.results cells.old))) }
        ensures same_input { C.input cells.new ≡ C.input cells.old }
        ensures same_results { C.results cells.new ≡ C.results cells.old };

    /// The slots of the assignments at these places, which come in one round, all at once over what stands in `cells`: each
    /// behind its place, in order. `None` where each is to be found by itself. Nothing that stands is changed.
    fn slots(
        &self,
        _alloc: Global,
        work: &Work<'_>,
        round: &[u32],
        cells: &mut C,
    ) -> Result<Option<Items<(u32, Slot)>>, Memory>
        requires ready { is_ready self.now }
        requires work { IsAtWork work.now }
        requires ruled { AreRuled (model_in work.now) work.now.shape.now }
        requires there { All (λ place. place < length work.now.shape.now.assigned) round.now }
        ensures exact { IfOk result (λ found. IfSome found (AreSlotsOver (model_in work.now) work.now.shape.now
            (slot_at (C.input cells.old) (C.results cells.old)) round.now)) }
        ensures same_input { C.input cells.new ≡ C.input cells.old }
        ensures same_results { C.results cells.new ≡ C.results cells.old }
    {
        Ok(None)
    }
}

/// By reads of the store, of which it counts each.
#[derive(Clone, Copy)]
pub struct ByReads;

impl<C: Cells> Finder<C> for ByReads {
    fn slot(
        &self,
        alloc: Global,
        work: &Work<'_>,
        rule: &Rule,
        target: &Key,
        cells: &mut C,
    ) -> Result<Slot, Memory> {
        slot_over(
            alloc, rule, work.model, target, 0, &work.keys, work.refs, cells,
        )
    }
}

/// Over the values that the store lends, as long as it lends them.
#[derive(Clone, Copy)]
pub struct ByLending;

impl Finder<IndexedCells> for ByLending {
    fn slot(
        &self,
        alloc: Global,
        work: &Work<'_>,
        rule: &Rule,
        target: &Key,
        cells: &mut IndexedCells,
    ) -> Result<Slot, Memory> {
        match lent_slot(alloc, work, rule, target, cells)? {
            Some(slot) => Ok(slot),
            None => slot_over(
                alloc, rule, work.model, target, 0, &work.keys, work.refs, cells,
            ),
        }
    }
}

// What a rule makes of `target` over the values that a store lends, or `None` where it lends none.
fn lent_slot(
    alloc: Global,
    work: &Work<'_>,
    rule: &Rule,
    target: &Key,
    cells: &IndexedCells,
) -> Result<Option<Slot>, Memory>
    requires { IsAtWork work.now }
    ensures { IfOk result (λ found. IfSome found (λ slot. slot
        ≡ cell_slot (model_in work.now) work.now.shape.now 0 rule.now target.now (slots_in cells.now))) }
{
    match cells.lent() {
        Some(lent) => Ok(Some(slot_lent(alloc, work, rule, target, lent)?)),
        None => Ok(None),
    }
}

/// What a rule makes of `target` over the values that are lent.
pub(crate) fn slot_lent(
    alloc: Global,
    work: &Work<'_>,
    rule: &Rule,
    target: &Key,
    lent: LentStore<'_>,
) -> Result<Slot, Memory>
    requires work { IsAtWork work.now }
    requires values { LendsAll lent }
    ensures { IfOk result (λ slot. slot
        ≡ cell_slot (model_in work.now) work.now.shape.now 0 rule.now target.now (slots_in lent.entry)) }
{
    match value_over(
        alloc, rule, work.model, target, 0, &work.keys, work.refs, lent,
    ) {
        Ok(v) => Ok(Slot::Done(v)),
        Err(Fail::Cause(fault)) => Ok(Slot::Faulted(fault)),
        Err(Fail::Memory) => Err(Memory),
    }
}
