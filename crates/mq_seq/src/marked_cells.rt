//! The cells of a partition, and which of them were a target.
ghost use Rattle.std.specs.Prelude.{◌≡◌, ◌≤◌, ◌<◌, ◌+◌, List, [], Some, None, true, false, length, map, replicate, slice_index_or, IfOk, IfSome, OnOk};
ghost use Rattle.std.specs.List.Sorted.{IsStrictlySortedBy};
ghost use Rattle.std.specs.Map.{keys_of};
ghost use Rattle.mq_values.specs.Order.{cmp_key};
ghost use Rattle.mq_values.specs.declared.value.Value.TheVariants as value;
ghost use Rattle.mq_ir.specs.Iteration.{out_cell};
ghost use Rattle.mq_ir.specs.Keys.{Tuple};
ghost use Rattle.mq_ir.specs.Partitions.{cell_at, with_cell};
ghost use Rattle.mq_ir.specs.Reads.{measure_at};
ghost use Rattle.mq_ir.specs.Sequential as spec;
ghost use Rattle.mq_cells.specs.IndexedStores.{base_in, input_in, keys_in, results_of, sound_in, value_in};
ghost use Rattle.mq_cells.specs.Stores.{cell_name};
ghost use Rattle.mq_dim_index.specs.Places.{is_there, place_of, with_key};
ghost use Rattle.mq_seq.specs.Marks.{IsFresh, cell_with, marked_keys};
ghost use Rattle.mq_seq.specs.Shown.{AtMarked, SetsAt, measure_count, measures_over, values_over};

use mq_cells::{IndexedCells, LentStore};
use mq_dim_index::DimIndex;
use mq_ir::{OutCell, PartInput};
use mq_values::{Items, Key, Memory, Value};
use std::alloc::Global;
use std::marker::Model;

/// The cells of a partition, all with values, and beside them, at the places of their keys, a mark for each that was a target.
/// Contracts see it as `Marked` of specs/Marks: each cell with as many measures as the input gives it, or, where it is not of
/// the input, with `count`.
#[derive(Drop)]
pub struct MarkedCells {
    store: IndexedCells,
    marks: Vec<bool>,
    count: usize,
}

impl Model for MarkedCells {
    ghost use Rattle.std.specs.Prelude.{◌≡◌, length, true};
    ghost use Rattle.mq_cells.specs.IndexedStores.{base_in, keys_in, sound_in};
    ghost use Rattle.mq_seq.specs.Marks.{Marked, marked_keys};
    ghost use Rattle.mq_seq.specs.Shown.{AtMarked, AtMeasures, cells_over};

    ghost Value = { Marked };

    ghost view = { λ c. record {
      input = base_in c.store;
      cells = cells_over c.store c.count;
      updated = marked_keys (keys_in c.store) c.marks.items;
      count = c.count;
    } };

    ghost invariant = { λ c. (length c.marks.items ≡ length (keys_in c.store)) × (sound_in c.store ≡ true)
        × AtMeasures c.store c.count × AtMarked c.store (marked_keys (keys_in c.store) c.marks.items) };
}

impl MarkedCells {
    /// The cells of a partition's input, none of them marked. `count` is how many measures a cell has that is created.
    pub fn new(alloc: Global, count: usize, p: &PartInput) -> Result<MarkedCells, Memory>
        requires { IsStrictlySortedBy cmp_key (keys_of p.now.cells) }
        ensures { IfOk result (λ c. c ≡ record { input = keys_of p.now.cells; cells = p.now.cells; updated = []; count = count }) }
    {
        let store = IndexedCells::new(alloc, p)?;
        let marks = vec![in alloc; false; store.index().len() as usize]?;
        Ok(MarkedCells {
            store,
            marks,
            count,
        })
    }

    /// The cells by their keys.
    pub fn store(&self) -> &IndexedCells
        ensures keys { keys_in result.now ≡ keys_of self.now.cells }
        ensures base { base_in result.now ≡ self.now.input }
    {
        &self.store
    }

    /// The index of the cells by their keys.
    pub fn index(&self) -> &DimIndex
        ensures keys { result.now ≡ keys_of self.now.cells }
        ensures ascending { IsStrictlySortedBy cmp_key (keys_of self.now.cells) }
    {
        self.store.index()
    }

    /// The values of all measures, lent.
    pub fn lent(&self) -> LentStore<'_>
        ensures values { value_in result ≡ measure_at self.now.cells }
        ensures keys { keys_in result ≡ keys_of self.now.cells }
        ensures base { base_in result ≡ self.now.input }
    {
        let _index = self.store.index();
        match self.store.lent() {
            Some(lent) => lent,
            None => unreachable!(),
        }
    }

    /// Measure `m` of the cell at `key`, or null where there is none.
    pub fn value(&self, key: &[Value], m: u32) -> Result<Value, Memory>
        ensures { IfOk result (λ v. v ≡ measure_at self.now.cells (cell_name key.now m)) }
    {
        let mut near = 0;
        let _index = self.store.index();
        self.store.value_near(key, m, &mut near)
    }

    /// The measures of the cell at `key`, or `None` where there is no such cell.
    pub fn measures(&self, alloc: Global, key: &Key) -> Result<Option<Key>, Memory>
        ensures { IfOk result (λ found. found ≡ cell_at self.now.cells key.now) }
    {
        match self.store.index().find(key.as_slice()) {
            Some(at) => Ok(Some(measures_at(alloc, &self.store, &self.marks, self.count, at)?)),
            None => Ok(None),
        }
    }

    /// The cells with one at `key` that has null in every measure, which is not marked.
    pub fn with(self, key: Key) -> Result<MarkedCells, Memory>
        requires { IsFresh self.count self.cells key }
        ensures { IfOk result (λ c. c ≡ cell_with key self) }
    {
        let MarkedCells {
            mut store,
            marks,
            count,
        } = self;
        // The index knows that its keys ascend.
        let _index = store.index();
        let own = key.copy()?;
        store.add(key)?;
        let marks = with_unmarked(marks, store.index(), &own)?;
        Ok(MarkedCells {
            store,
            marks,
            count,
        })
    }

    /// The cells with measure `m` of the one at `key` set to `v`, where it has that measure. The cell stands at place `at`, and is
    /// marked then.
    pub fn assigned(self, _key: &Key, at: u32, m: u32, v: Value) -> Result<MarkedCells, Memory>
        requires within { at < length self.cells }
        requires placed { place_of (keys_of self.cells) _key.now ≡ Some at }
        ensures { IfOk result (λ c. c ≡ record self { cells = spec.assigned self.cells _key.now m v; updated = with_key self.updated _key.now }) }
    {
        let MarkedCells {
            mut store,
            mut marks,
            count,
        } = self;
        // The index knows that its keys ascend.
        let _index = store.index();
        set_measure(&mut store, count, at, m, v)?;
        marks[at as usize] = true;
        Ok(MarkedCells {
            store,
            marks,
            count,
        })
    }

    /// The cells as they are handed out, each with whether it was a target.
    pub fn rows(&self, alloc: Global) -> Result<Items<OutCell>, Memory>
        ensures { IfOk result (λ rows. rows ≡ map (out_cell self.now.updated) self.now.cells) }
    {
        let count = self.store.index().len();
        let mut rows = Items::with_room(alloc, count as usize);
        'rows: for at in 0..count {
            rows.push(self.row(alloc, at)?)?;
        }
        Ok(rows)
    }

    // The cell at a place as it is handed out.
    fn row(&self, alloc: Global, at: u32) -> Result<OutCell, Memory>
        requires { at < length self.now.cells }
        ensures { (other : Tuple × Tuple) → IfOk result (λ row. row ≡ out_cell self.now.updated (slice_index_or self.now.cells at other)) }
    {
        let key = self.store.index().key_at(at).copy()?;
        let measures = measures_at(alloc, &self.store, &self.marks, self.count, at)?;
        Ok(OutCell {
            key,
            measures,
            updated: is_marked(&self.marks, at),
        })
    }
}

// The marks of the keys of an index, among which `key` is perhaps new: then it is not marked.
fn with_unmarked(marks: Vec<bool>, index: &DimIndex, key: &Key) -> Result<Vec<bool>, Memory>
    requires there { is_there index.now key.now ≡ true }
    requires one_more { length index.now ≤ length marks.items + 1 }
    ensures old { length marks.items ≡ length index.now → IfOk result (λ more. more.items ≡ marks.items) }
    ensures one_each { (keys : List Tuple) → is_there keys key.now ≡ false → index.now ≡ with_key keys key.now → length marks.items ≡ length keys →
        IfOk result (λ more. length more.items ≡ length index.now) }
    ensures same { (keys : List Tuple) → is_there keys key.now ≡ false → index.now ≡ with_key keys key.now → length marks.items ≡ length keys →
        IfOk result (λ more. marked_keys index.now more.items ≡ marked_keys keys marks.items) }
{
    if marks.len() >= index.len() as usize {
        return Ok(marks);
    }
    let Some(at) = index.find(key.as_slice()) else {
        unreachable!()
    };
    let mut marks = marks;
    marks.insert(at as usize, false)?;
    Ok(marks)
}

// How many measures the cell at a place has.
fn count_at(store: &IndexedCells, count: usize, at: u32) -> usize
    requires { at < length (keys_in store.now) }
    ensures { (other : Tuple) → result ≡ measure_count store.now count (slice_index_or (keys_in store.now) at other) }
{
    match store.given_at(at) {
        Some(given) => given.as_slice().len(),
        None => count,
    }
}

// Whether the key at a place is marked.
fn is_marked(marks: &[bool], at: u32) -> bool
    requires { at < length marks.now }
    ensures { result ≡ slice_index_or marks.now at false }
{
    marks[at as usize]
}

// Sets measure `m` of the cell at a place to `v`, where the cell has that measure.
fn set_measure(
    store: &mut IndexedCells,
    count: usize,
    at: u32,
    m: u32,
    v: Value,
) -> Result<(), Memory>
    requires { at < length (keys_in store.old) }
    ensures set { (other : Tuple) → OnOk result (SetsAt store.old store.new count (cell_name (slice_index_or (keys_in store.old) at other) m) v) }
    ensures same_keys { keys_in store.new ≡ keys_in store.old }
    ensures same_input { input_in store.new ≡ input_in store.old }
    ensures same_base { base_in store.new ≡ base_in store.old }
    ensures sound { sound_in store.old ≡ true → sound_in store.new ≡ true }
{
    if m as usize >= count_at(store, count, at) {
        return Ok(());
    }
    store.set_at(at, m, v)?;
    Ok(())
}

// The measures of the cell at a place. Where it is not marked, no result stands there, and it shares those of the input.
fn measures_at(
    alloc: Global,
    store: &IndexedCells,
    marks: &[bool],
    count: usize,
    at: u32,
) -> Result<Key, Memory>
    requires within { at < length (keys_in store.now) }
    requires one_each { length marks.now ≡ length (keys_in store.now) }
    requires marked { AtMarked store.now (marked_keys (keys_in store.now) marks.now) }
    ensures { (other : Tuple) → IfOk result (λ measures. measures ≡ measures_over store.now count (slice_index_or (keys_in store.now) at other)) }
{
    // The index knows that its keys ascend.
    let _index = store.index();
    match store.given_at(at) {
        Some(given) if !is_marked(marks, at) => given.copy(),
        _ => values_at(alloc, store, at, count_at(store, count, at)),
    }
}

// The values that stand at so many measures of the cell at a place. `Memory` comes too where there are more of them than a
// `u32` can number.
fn values_at(alloc: Global, store: &IndexedCells, at: u32, count: usize) -> Result<Key, Memory>
    requires { at < length (keys_in store.now) }
    ensures { (other : Tuple) → IfOk result (λ measures. measures ≡ values_over store.now (slice_index_or (keys_in store.now) at other) count) }
{
    let Ok(count) = u32::try_from(count) else {
        return Err(Memory);
    };
    let mut values = Items::with_room(alloc, count as usize);
    'measures: for m in 0..count {
        values.push(store.value_at(at, m)?)?;
    }
    Key::new(alloc, values)
}
