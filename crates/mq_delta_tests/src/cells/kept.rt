//! A partition that is kept while its input changes, beside the same computed anew.
ghost use Rattle.std.specs.Prelude.{◌≡◌, ◌↔◌, length, IfOk, IsTrue};
ghost use Rattle.std.specs.Map as spec;
ghost use Rattle.mq_ir.specs.Partitions.{cell_at};
ghost use Rattle.mq_ir.specs.Ready.{HaveLength, IsReady};
ghost use Rattle.mq_cells.specs.Columns.{no_results};
ghost use Rattle.mq_cells.specs.IndexedStores.{input_in, looks_of, results_of};
ghost use Rattle.mq_auto_shape.specs.Conditions.{AreReady};

use crate::cells::models::{Given, input, key, key_at};
use crate::makers::{boxed, value};
use crate::ready::lefts_have_places;
use mq_auto::{Verdict, compute};
use mq_cells::{Cells, IndexedCells, MAX_ASSIGNMENTS, PlainCells, keys_ascend};
use mq_delta_cells::propagate;
use mq_engine::refresh;
use mq_ir::{CellName, Model, ModelPart, PartInput, PartShape, Slot};
use mq_values::{Boxed, FaultKind, Key, Memory, QueryFault, Value, ValueFault, cmp_total};
use std::alloc::Global;

/// A store that counts what is read of it, and what is put and taken away.
#[derive(Drop)]
pub struct CountedCells {
    cells: IndexedCells,
    reads: u64,
    writes: u64,
}

impl Cells for CountedCells {
    ghost input = { λ s. input_in s.cells };

    ghost results = { λ s. results_of s.cells };

    ghost looks = { λ s. looks_of s.cells };

    fn get(&mut self, alloc: Global, key: &Key, m: u32) -> Result<Slot, Memory> {
        self.reads = self.reads.saturating_add(1);
        self.cells.get(alloc, key, m)
    }

    fn put(&mut self, key: &Key, m: u32, s: Slot) -> Result<(), Memory> {
        self.writes = self.writes.saturating_add(1);
        self.cells.put(key, m, s)
    }

    fn clear(&mut self, key: &Key, m: u32) {
        self.writes = self.writes.saturating_add(1);
        self.cells.clear(key, m);
    }

    fn first_fault(&self, s: &PartShape) -> Option<u32> {
        self.cells.first_fault(s)
    }
}

/// A partition: its input, what was found of it, its store, and how much of the store was read and written in the last change.
#[derive(Drop)]
pub struct Kept {
    given: Vec<Given>,
    verdict: Boxed<Verdict>,
    cells: CountedCells,
    pub reads: u64,
    pub writes: u64,
}

/// What stands at a measure.
#[derive(Clone, Copy)]
pub enum At {
    Is(i128),
    Null,
    Divides,
    Poisoned,
}

impl CountedCells {
    // The cells of a partition, with no results.
    fn new(alloc: Global, p: &PartInput) -> Result<CountedCells, Memory>
        ensures input { IfOk result (λ s. input_in s.cells ≡ cell_at p.now.cells) }
        ensures empty { IfOk result (λ s. results_of s.cells ≡ no_results) }
    {
        Ok(CountedCells {
            cells: IndexedCells::new(alloc, p)?,
            reads: 0,
            writes: 0,
        })
    }
}

impl Kept {
    /// A partition with this input, computed.
    pub fn begin(alloc: Global, model: &Model<'_>, given: &[Given]) -> Result<Kept, Memory> {
        let p = input(alloc, given)?;
        let mut cells = CountedCells::new(alloc, &p)?;
        let verdict = boxed(alloc, computed(alloc, model, &p, &mut cells))?;
        Ok(Kept {
            given: given.to_vec(alloc)?,
            verdict,
            cells,
            reads: 0,
            writes: 0,
        })
    }

    /// Gives the partition this input, and propagates the change; where there was no shape, it is computed anew. Out comes
    /// whether all is as it is where the partition is computed beside it.
    pub fn change(
        &mut self,
        alloc: Global,
        model: &Model<'_>,
        given: &[Given],
    ) -> Result<bool, Memory> {
        let p = input(alloc, given)?;
        let moved = moved(alloc, self.given.as_slice(), given)?;
        let verdict = boxed(alloc, self.changed(alloc, model, &p, moved.as_slice()))?;
        self.given = given.to_vec(alloc)?;
        self.follow(alloc, model, &p, verdict)
    }

    /// The same by `refresh`; where that leaves no shape, the partition is computed anew.
    pub fn refresh(
        &mut self,
        alloc: Global,
        model: &Model<'_>,
        given: &[Given],
    ) -> Result<bool, Memory> {
        let p = input(alloc, given)?;
        let moved = moved(alloc, self.given.as_slice(), given)?;
        let verdict = boxed(alloc, self.refreshed(alloc, model, &p, moved.as_slice()))?;
        self.given = given.to_vec(alloc)?;
        self.follow(alloc, model, &p, verdict)
    }

    // What was found of this input stands from now on. Out comes whether all is as where the partition is computed.
    fn follow(
        &mut self,
        alloc: Global,
        model: &Model<'_>,
        p: &PartInput,
        verdict: Boxed<Verdict>,
    ) -> Result<bool, Memory> {
        self.reads = self.cells.reads;
        self.writes = self.cells.writes;
        let were = self.verdict.get();
        let same = is_as_anew(alloc, model, p, were, verdict.get(), &mut self.cells)?;
        self.verdict = verdict;
        Ok(same)
    }

    // What is found after a change to this input, in which these measures moved.
    fn changed(
        &mut self,
        alloc: Global,
        model: &Model<'_>,
        p: &PartInput,
        moved: &[CellName],
    ) -> Result<Verdict, Memory> {
        self.cells.reads = 0;
        self.cells.writes = 0;
        match self.verdict.get() {
            Verdict::Done(old) => propagated(alloc, model, old, p, moved, &mut self.cells),
            Verdict::Broken(_) => computed_anew(alloc, model, p, &mut self.cells),
        }
    }

    // The same by `refresh`.
    fn refreshed(
        &mut self,
        alloc: Global,
        model: &Model<'_>,
        p: &PartInput,
        moved: &[CellName],
    ) -> Result<Verdict, Memory> {
        self.cells.reads = 0;
        self.cells.writes = 0;
        match self.verdict.get() {
            Verdict::Done(old) => refreshed(alloc, model, old, p, moved, &mut self.cells),
            Verdict::Broken(_) => computed_anew(alloc, model, p, &mut self.cells),
        }
    }

    /// Whether the partition has a shape.
    pub fn is_done(&self) -> bool {
        matches!(self.verdict.get(), Verdict::Done(_))
    }

    /// Whether it has none, for this fault of a rule at a cell.
    pub fn breaks(
        &self,
        alloc: Global,
        kind: FaultKind,
        rule: u32,
        cell: i128,
    ) -> Result<bool, Memory> {
        let cell = key(alloc, cell)?;
        match self.verdict.get() {
            Verdict::Done(_) => Ok(false),
            Verdict::Broken(fault) => Ok(is_fault(fault, kind, rule, &cell)),
        }
    }

    /// Whether it has one, and this stands at the first measures of these cells.
    pub fn all_stand(&mut self, alloc: Global, wanted: &[(i128, At)]) -> Result<bool, Memory> {
        for (cell, at) in wanted {
            if !self.stands(alloc, *cell, *at)? {
                return Ok(false);
            }
        }
        Ok(self.is_done())
    }

    /// Whether this stands at the first measure of a cell.
    fn stands(&mut self, alloc: Global, cell: i128, at: At) -> Result<bool, Memory> {
        let key = key(alloc, cell)?;
        let found = boxed(alloc, self.cells.get(alloc, &key, 0))?;
        let wanted = slot(at);
        Ok(is_same_slot(found.get(), &wanted))
    }
}

fn is_fault(fault: &QueryFault, kind: FaultKind, rule: u32, cell: &Key) -> bool {
    fault.kind == kind && fault.rule == rule && fault.cell.cmp(cell).is_eq()
}

fn slot(at: At) -> Slot {
    match at {
        At::Is(number) => Slot::Done(value(number)),
        At::Null => Slot::Done(Value::Null),
        At::Divides => Slot::Faulted(ValueFault::DivideByZero),
        At::Poisoned => Slot::Poisoned,
    }
}

// The measures that stand in both of these with different values.
fn moved(alloc: Global, were: &[Given], are: &[Given]) -> Result<Vec<CellName>, Memory> {
    let mut moved = Vec::new(alloc);
    for place in 0..were.len() {
        if let Some(is) = are.get(place) {
            push_moved(alloc, place, were[place], *is, &mut moved)?;
        }
    }
    Ok(moved)
}

// The same of one cell.
fn push_moved(
    alloc: Global,
    place: usize,
    was: Given,
    is: Given,
    moved: &mut Vec<CellName>,
) -> Result<(), Memory> {
    let (Some(was), Some(is)) = (was, is) else {
        return Ok(());
    };
    if was.0 != is.0 {
        moved.push(name_at(alloc, place, 0)?)?;
    }
    if was.1 != is.1 {
        moved.push(name_at(alloc, place, 1)?)?;
    }
    Ok(())
}

fn name_at(alloc: Global, place: usize, measure: u32) -> Result<CellName, Memory> {
    let key = key_at(alloc, place)?;
    Ok(CellName { key, measure })
}

fn computed<C: Cells>(
    alloc: Global,
    model: &Model<'_>,
    p: &PartInput,
    cells: &mut C,
) -> Result<Verdict, Memory>
    requires input { C.input cells.old ≡ cell_at p.now.cells }
    requires empty { C.results cells.old ≡ no_results }
{
    if !is_ready(alloc, model.part, p)? {
        return Err(Memory);
    }
    compute(alloc, model, p, cells)
}

// The same with no result of before.
fn computed_anew(
    alloc: Global,
    model: &Model<'_>,
    p: &PartInput,
    cells: &mut CountedCells,
) -> Result<Verdict, Memory> {
    *cells = CountedCells::new(alloc, p)?;
    computed(alloc, model, p, cells)
}

fn propagated(
    alloc: Global,
    model: &Model<'_>,
    old: &PartShape,
    p: &PartInput,
    moved: &[CellName],
    cells: &mut CountedCells,
) -> Result<Verdict, Memory> {
    cells.cells.set_input(alloc, p)?;
    let keys = keys_in(alloc, p.cells.as_slice())?;
    if !are_ready(model.part, &keys) {
        return Err(Memory);
    }
    propagate(alloc, model, old, &keys, moved, cells)
}

// The same by `refresh`; where that leaves no shape, what was found is in no stated state, and all is computed anew.
fn refreshed(
    alloc: Global,
    model: &Model<'_>,
    old: &PartShape,
    p: &PartInput,
    moved: &[CellName],
    cells: &mut CountedCells,
) -> Result<Verdict, Memory> {
    cells.cells.set_input(alloc, p)?;
    let keys = keys_in(alloc, p.cells.as_slice())?;
    if !are_ready(model.part, &keys) {
        return Err(Memory);
    }
    match refresh(alloc, model, old, &keys, moved, cells)? {
        Some(shape) => Ok(Verdict::Done(shape)),
        None => computed_anew(alloc, model, p, cells),
    }
}

// Whether what was found is what is found where the partition is computed, and so is what stands.
fn is_as_anew(
    alloc: Global,
    model: &Model<'_>,
    p: &PartInput,
    old: &Verdict,
    new: &Verdict,
    cells: &mut CountedCells,
) -> Result<bool, Memory> {
    let mut plain = PlainCells::new(alloc, p)?;
    let wanted = boxed(alloc, computed(alloc, model, p, &mut plain))?;
    if !is_same_verdict(new, wanted.get()) {
        return Ok(false);
    }
    match new {
        Verdict::Done(shape) => holds_the_same(alloc, keys_of(old), shape, cells, &mut plain),
        Verdict::Broken(_) => Ok(true),
    }
}

fn is_same_verdict(a: &Verdict, b: &Verdict) -> bool {
    match (a, b) {
        (Verdict::Done(a), Verdict::Done(b)) => is_same_shape(a, b),
        (Verdict::Broken(a), Verdict::Broken(b)) => a == b,
        _ => false,
    }
}

fn is_same_shape(a: &PartShape, b: &PartShape) -> bool {
    a.base == b.base && a.cells == b.cells && a.assigned == b.assigned
}

// The cells of the shape, where there is one.
fn keys_of(verdict: &Verdict) -> &[Key] {
    match verdict {
        Verdict::Done(shape) => shape.cells.as_slice(),
        Verdict::Broken(_) => &[],
    }
}

// Whether two stores have the same slots at the cells of before and at those of a shape, and the same first fault.
fn holds_the_same<A: Cells, B: Cells>(
    alloc: Global,
    were: &[Key],
    shape: &PartShape,
    a: &mut A,
    b: &mut B,
) -> Result<bool, Memory> {
    if shape.assigned.len() > MAX_ASSIGNMENTS {
        return Ok(false);
    }
    if a.first_fault(shape) != b.first_fault(shape) {
        return Ok(false);
    }
    if !have_same_slots(alloc, were, a, b)? {
        return Ok(false);
    }
    have_same_slots(alloc, shape.cells.as_slice(), a, b)
}

fn have_same_slots<A: Cells, B: Cells>(
    alloc: Global,
    keys: &[Key],
    a: &mut A,
    b: &mut B,
) -> Result<bool, Memory> {
    for key in keys {
        if !have_same_slot(alloc, key, 0, a, b)? {
            return Ok(false);
        }
        if !have_same_slot(alloc, key, 1, a, b)? {
            return Ok(false);
        }
    }
    Ok(true)
}

fn have_same_slot<A: Cells, B: Cells>(
    alloc: Global,
    key: &Key,
    measure: u32,
    a: &mut A,
    b: &mut B,
) -> Result<bool, Memory> {
    let one = boxed(alloc, a.get(alloc, key, measure))?;
    let other = boxed(alloc, b.get(alloc, key, measure))?;
    Ok(is_same_slot(one.get(), other.get()))
}

fn is_same_slot(a: &Slot, b: &Slot) -> bool {
    match (a, b) {
        (Slot::Done(a), Slot::Done(b)) => cmp_total(a, b).is_eq(),
        (Slot::Faulted(a), Slot::Faulted(b)) => a == b,
        (Slot::Poisoned, Slot::Poisoned) => true,
        _ => false,
    }
}

// Whether the rules may run over a partition.
fn is_ready(alloc: Global, part: &ModelPart, p: &PartInput) -> Result<bool, Memory>
    ensures { IfOk result (λ ready. IsTrue ready → IsReady part.now p.now) }
{
    let keys = keys_in(alloc, p.cells.as_slice())?;
    Ok(are_ready(part, &keys))
}

// Whether the rules may run over cells at these keys.
fn are_ready(part: &ModelPart, keys: &[Key]) -> bool
    ensures { IsTrue result → AreReady part.now keys.now }
{
    lefts_have_places(part) && have_length(part.dims.len(), keys) && keys_ascend(keys)
}

fn have_length(n: usize, keys: &[Key]) -> bool
    ensures { IsTrue result ↔ HaveLength n keys.now }
{
    keys.iter().all(|key| has_length(n, key))
}

fn has_length(n: usize, key: &Key) -> bool
    ensures { IsTrue result ↔ (length key.now ≡ n) }
{
    key.as_slice().len() == n
}

fn keys_in(alloc: Global, cells: &[(Key, Key)]) -> Result<Vec<Key>, Memory>
    ensures { IfOk result (λ keys. keys.items ≡ spec.keys_of cells.now) }
{
    let mut keys = Vec::with_capacity(alloc, cells.len())?;
    for (key, _measures) in cells {
        keys.push(key.copy()?)?;
    }
    Ok(keys)
}
