//! What a rule makes of a target.
ghost use Rattle.std.specs.Prelude.{◌≡◌, ◌+◌, ◌≤◌, IfOk};
ghost use Rattle.mq_values.specs.Answers.{Gives};
ghost use Rattle.mq_ir.specs.Looks as looks;
ghost use Rattle.mq_ir.specs.Reads as spec;
ghost use Rattle.mq_ir.specs.Slots.{cell_slot, site_in, slot_of};
ghost use Rattle.mq_ir.specs.Unfolding.{model_of};
ghost use Rattle.mq_cells.specs.IndexedStores.{base_in, keys_in, value_in};
ghost use Rattle.mq_cells.specs.Stores.{slot_at};
ghost use Rattle.mq_refs.specs.Orders.{IsOrderOf};
ghost use Rattle.mq_refs.specs.Sightings.{measures_in};
ghost use Rattle.mq_refs.specs.Sites.{site_with};
ghost use Rattle.mq_refs.specs.SlotsOver.{cell_slot_over};

use crate::cell_keys::CellKeys;
use crate::lent::LentReading;
use crate::looks::looks_from;
use crate::order::{RefsOrder, UNKNOWN_ORDER};
use crate::plain::brought;
use crate::reading::Reading;
use crate::references::kind_in;
use crate::seen::Seen;
use crate::sights::seen_at;
use crate::standpoint::Standpoint;
use crate::worths::Worths;
use mq_cells::{Cells, IndexedCells, LentStore};
use mq_ir::{Model, PartShape, Rule, Slot, reads_are_among_looks};
use mq_scalar::eval;
use mq_values::{Fail, Key, Memory, Value, ValueFault};
use std::alloc::Global;

/// What rule `r` makes of `target` in turn `turn`, over the cells of `s` and what stands in `cells`: `Poisoned` where a
/// measure that the right side looks at has no value, else the value of the right side, converted to the kind of the
/// rule's measure, or its fault. A cell is in the input exactly where `s.base` has it (docs/MEANING.md, "Reads"). No more
/// is read than the measures among the looks, and nothing is changed. `Memory` is the only error.
pub fn eval_cell<C: Cells>(
    alloc: Global,
    r: &Rule,
    m: &Model<'_>,
    target: &Key,
    turn: u32,
    s: &PartShape,
    cells: &mut C,
) -> Result<Slot, Memory>
    ensures exact { IfOk result (λ slot. slot
        ≡ cell_slot (model_of m.now) s.now turn r.now target.now (slot_at (C.input cells.old) (C.results cells.old))) }
    ensures reads { C.looks cells.new
        ≤ C.looks cells.old + measures_in (looks.looks_of (site_in (model_of m.now) s.now turn target.now) r.now.right) }
    ensures same_input { C.input cells.new ≡ C.input cells.old }
    ensures same_results { C.results cells.new ≡ C.results cells.old }
{
    slot_over(alloc, r, m, target, turn, s, UNKNOWN_ORDER, cells)
}

/// The same as `eval_cell`, over the cells that `keys` has: ranges are over those that are there, and a cell is in the input
/// exactly where the base of `keys` has it. A cell of a reference is found by a search where `refs` says that they ascend.
pub fn slot_over<K: CellKeys, C: Cells>(
    alloc: Global,
    r: &Rule,
    m: &Model<'_>,
    target: &Key,
    turn: u32,
    keys: &K,
    refs: RefsOrder,
    cells: &mut C,
) -> Result<Slot, Memory>
    requires { IsOrderOf refs m.now }
    ensures exact { IfOk result (λ slot. slot ≡ cell_slot_over (model_of m.now) (K.set keys.now) (K.base keys.now) turn r.now target.now
        (slot_at (C.input cells.old) (C.results cells.old))) }
    ensures reads { C.looks cells.new ≤ C.looks cells.old
        + measures_in (looks.looks_of (site_with (model_of m.now) turn target.now (K.set keys.now)) r.now.right) }
    ensures same_input { C.input cells.new ≡ C.input cells.old }
    ensures same_results { C.results cells.new ≡ C.results cells.old }
{
    let at = Standpoint {
        model: m,
        target,
        turn,
    };
    reads_are_among_looks();
    let looks = looks_from(alloc, &at, keys, &r.right)?;
    match seen_at(alloc, looks.as_slice(), cells)? {
        Some(sightings) => slot_seen(alloc, r, m, target, turn, keys, refs, Seen::new(sightings)),
        None => Ok(Slot::Poisoned),
    }
}

// The slot of a target over what was seen at its looks.
fn slot_seen<K: CellKeys, W: Worths + Drop>(
    alloc: Global,
    r: &Rule,
    m: &Model<'_>,
    target: &Key,
    turn: u32,
    keys: &K,
    refs: RefsOrder,
    worths: W,
) -> Result<Slot, Memory>
    requires { IsOrderOf refs m.now }
    ensures { IfOk result (λ slot. slot ≡ slot_of (spec.right_value (site_with (model_of m.now) turn target.now (K.set keys.now))
        (K.base keys.now) (W.worth worths) r.now)) }
{
    match value_over(alloc, r, m, target, turn, keys, refs, worths) {
        Ok(v) => Ok(Slot::Done(v)),
        Err(Fail::Cause(fault)) => Ok(Slot::Faulted(fault)),
        Err(Fail::Memory) => Err(Memory),
    }
}

/// The value that rule `r` assigns to `target` in turn `turn`, over the cells that `keys` has, where every measure has a
/// value, which `worths` gives: the value of the right side, converted to the kind of the rule's measure, or its first fault. A
/// measure is read when the right side comes to it. A cell of a reference is found by a search where `refs` says that they
/// ascend.
pub fn value_over<K: CellKeys, W: Worths + Drop>(
    alloc: Global,
    r: &Rule,
    m: &Model<'_>,
    target: &Key,
    turn: u32,
    keys: &K,
    refs: RefsOrder,
    worths: W,
) -> Result<Value, Fail<ValueFault>>
    requires { IsOrderOf refs m.now }
    ensures { Gives result (spec.right_value (site_with (model_of m.now) turn target.now (K.set keys.now))
        (K.base keys.now) (W.worth worths) r.now) }
{
    let at = Standpoint {
        model: m,
        target,
        turn,
    };
    let mut reading = Reading {
        at: &at,
        keys,
        refs,
        worths,
    };
    let v = eval(alloc, &r.right, &mut reading)?;
    let kind = kind_in(m.part.measures.as_slice(), r.measure);
    brought(alloc, v, kind)
}

/// The same as `value_over` over the cells of the store that `lent` is and the values that it lends: those of a range are found at
/// the places of its keys, so none of these keys is looked at.
pub fn lent_value(
    alloc: Global,
    r: &Rule,
    m: &Model<'_>,
    target: &Key,
    turn: u32,
    refs: RefsOrder,
    lent: LentStore<'_>,
) -> Result<Value, Fail<ValueFault>>
    requires { IsOrderOf refs m.now }
    ensures { Gives result (spec.right_value (site_with (model_of m.now) turn target.now (keys_in lent.entry))
        (base_in lent.entry) (value_in lent.entry) r.now) }
{
    value_in_store(alloc, r, m, target, turn, refs, lent.store(), lent.near())
}

// The same over the store itself. The first cell is looked for beside the place `near`.
fn value_in_store(
    alloc: Global,
    r: &Rule,
    m: &Model<'_>,
    target: &Key,
    turn: u32,
    refs: RefsOrder,
    store: &IndexedCells,
    near: u32,
) -> Result<Value, Fail<ValueFault>>
    requires { IsOrderOf refs m.now }
    ensures { Gives result (spec.right_value (site_with (model_of m.now) turn target.now (keys_in store.now))
        (base_in store.now) (value_in store.now) r.now) }
{
    let at = Standpoint {
        model: m,
        target,
        turn,
    };
    let mut reading = LentReading {
        at: &at,
        refs,
        store,
        near,
    };
    let v = eval(alloc, &r.right, &mut reading)?;
    let kind = kind_in(m.part.measures.as_slice(), r.measure);
    brought(alloc, v, kind)
}
