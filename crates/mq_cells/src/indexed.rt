//! The store of a partition in hand.
ghost use Rattle.std.specs.Prelude.{◌≡◌, ◌<◌, false, true, None, Some, length, is_some, slice_index_or, unwrap_or, IfOk, IfSome, OnOk, OnErr};
ghost use Rattle.std.specs.List.Sorted.{IsStrictlySortedBy};
ghost use Rattle.std.specs.Map.{keys_of};
ghost use Rattle.std.specs.Option.{option_copied};
ghost use Rattle.mq_values.specs.Order.{cmp_key};
ghost use Rattle.mq_values.specs.declared.value.Value.TheVariants.{Null};
ghost use Rattle.mq_dim_index.specs.Places.{is_there, with_key};
ghost use Rattle.mq_ir.specs.declared.query.CellName.{CellName};
ghost use Rattle.mq_ir.specs.declared.query.Slot.TheVariants.{Done};
ghost use Rattle.mq_ir.specs.Keys.{Tuple};
ghost use Rattle.mq_ir.specs.Partitions.{cell_at};
ghost use Rattle.mq_ir.specs.Slots.{done_value};
ghost use Rattle.mq_cells.specs.Columns.{no_results};
ghost use Rattle.mq_cells.specs.IndexedStores.{base_in, input_in, keys_in, looks_of, results_of, slots_in, sound_in, value_in};
ghost use Rattle.mq_cells.specs.IndexedStores as spec;
ghost use Rattle.mq_cells.specs.Stores.{DiffersAt, cell_name};

use crate::cells::Cells;
use crate::faults::least_fault;
use crate::gather::{fill, gather};
use crate::held::Held;
use crate::lane::Lane;
use crate::lanes::Lanes;
use crate::lent_store::LentStore;
use crate::numbers::Numbers;
use crate::slots::{copy_slot, is_done, lent_value, value_of};
use mq_dim_index::DimIndex;
use mq_ir::{PartInput, PartShape, Slot};
use mq_values::{Key, Memory, Value};
use std::alloc::Global;
use std::marker::Model;

/// The cells of a partition: the measures of its input and the results that were put over them, which stand beside the numbers
/// of the cells. A cell that comes moves none of them. Contracts see it by what `specs/IndexedStores` says of it: its keys, its
/// input, its results, its looks and whether no result is a fault (docs/MEANING.md, "Stores of cells").
#[derive(Drop)]
pub struct IndexedCells {
    cells: Numbers,
    given: Lane<Key>,
    results: Lanes<Slot>,
    sound: bool,
    looks: u64,
    near: u32,
}

impl Model for IndexedCells {
    ghost use Rattle.mq_cells.specs.IndexedStores.{AreKept, IndexedStore};

    ghost Value = { IndexedStore };

    ghost view = { λ s. record { cells = s.cells; given = s.given; lanes = s.results; sound = s.sound; looks = s.looks } };

    ghost invariant = { λ s. AreKept s.cells s.given s.results s.sound };
}

impl IndexedCells {
    /// The cells of `p`, of which the first counts where several stand at one tuple, and no results. `Memory` comes too where
    /// there are more than a `u32` can number.
    #[tactic(auto, unfolding(crate::specs::IndexedStores::keys_in, crate::specs::IndexedStores::input_in, crate::specs::IndexedStores::results_of, crate::specs::IndexedStores::looks_of, crate::specs::IndexedStores::sound_in))]
    pub fn new(alloc: Global, p: &PartInput) -> Result<IndexedCells, Memory>
        ensures input { IfOk result (λ s. input_in s ≡ cell_at p.now.cells) }
        ensures results { IfOk result (λ s. results_of s ≡ no_results) }
        ensures looks { IfOk result (λ s. looks_of s ≡ 0) }
        ensures sound { IfOk result (λ s. sound_in s ≡ true) }
        ensures keys { IfOk result (λ s. IsStrictlySortedBy cmp_key (keys_of p.now.cells) → keys_in s ≡ keys_of p.now.cells) }
        ensures base { IfOk result (λ s. IsStrictlySortedBy cmp_key (keys_of p.now.cells) → base_in s ≡ keys_of p.now.cells) }
    {
        let (cells, given) = gather(alloc, p.cells.as_slice())?;
        Ok(IndexedCells {
            cells,
            given,
            results: Lanes::new(alloc),
            sound: true,
            looks: 0,
            near: 0,
        })
    }

    /// Puts the cells of `p` in place of the input, of which the first counts where several stand at one tuple; the results stay.
    /// Cells that the old input had stay there, without input. After `Memory` all is as before. A map of a dimension is made
    /// anew by who wants one.
    #[tactic(auto, unfolding(crate::specs::IndexedStores::input_in, crate::specs::IndexedStores::results_of, crate::specs::IndexedStores::looks_of, crate::specs::IndexedStores::sound_in))]
    pub fn set_input(&mut self, alloc: Global, p: &PartInput) -> Result<(), Memory>
        ensures ok { OnOk result (input_in self.new ≡ cell_at p.now.cells) }
        ensures err { OnErr result (self.new ≡ self.old) }
        ensures same_results { results_of self.new ≡ results_of self.old }
        ensures same_looks { looks_of self.new ≡ looks_of self.old }
        ensures same_sound { sound_in self.new ≡ sound_in self.old }
    {
        let (cells, given) = fill(alloc, self.cells.copy(alloc)?, p.cells.as_slice())?;
        self.cells = cells;
        self.given = given;
        Ok(())
    }

    /// A cell without input and results, where there is none at `key`. After `Memory` all is as before; it comes too where there
    /// would be more cells than a `u32` can number.
    #[tactic(auto, unfolding(crate::specs::IndexedStores::keys_in, crate::specs::IndexedStores::looks_of, crate::specs::IndexedStores::sound_in))]
    pub fn add(&mut self, key: Key) -> Result<(), Memory>
        ensures keys { OnOk result (keys_in self.new ≡ with_key (keys_in self.old) key) }
        ensures err { OnErr result (self.new ≡ self.old) }
        ensures same_input { input_in self.new ≡ input_in self.old }
        ensures same_results { results_of self.new ≡ results_of self.old }
        ensures same_looks { looks_of self.new ≡ looks_of self.old }
        ensures same_sound { sound_in self.new ≡ sound_in self.old }
        ensures base { base_in self.new ≡ base_in self.old }
    {
        self.cells.add(&key, &mut self.near)?;
        Ok(())
    }

    /// The keys of the cells.
    #[tactic(auto, unfolding(crate::specs::IndexedStores::keys_in))]
    pub fn index(&self) -> &DimIndex
        ensures keys { result.now ≡ keys_in self.now }
        ensures ascending { IsStrictlySortedBy cmp_key (keys_in self.now) }
        ensures covers { (key : Tuple) → is_there (keys_in self.now) key ≡ false → input_in self.now key ≡ None }
        ensures covers_results { (c : CellName) → is_there (keys_in self.now) c.key ≡ false → results_of self.now c ≡ None }
    {
        let index = self.cells.index();
        let _ = index.keys();
        index
    }

    /// Makes the map of one dimension of the keys: only what a range of keys costs depends on it.
    pub fn map_dimension(&mut self, alloc: Global, dimension: u32) -> Result<(), Memory>
        ensures { self.new ≡ self.old }
    {
        self.cells.map_dimension(alloc, dimension)
    }

    /// The measures that the input has at `key`, or `None` where it has no such cell. It takes no memory.
    #[tactic(auto, unfolding(crate::specs::IndexedStores::input_in))]
    pub fn given(&self, key: &[Value]) -> Option<&Key>
        ensures { option_copied result ≡ input_in self.now key.now }
    {
        let mut near = self.near;
        match self.cells.find(key, &mut near) {
            Some(number) => self.given.get(number as usize),
            None => None,
        }
    }

    /// The measures that the input has at the cell whose key stands at a place, or `None` where it does not have the cell.
    #[tactic(auto, unfolding(crate::specs::IndexedStores::keys_in))]
    pub fn given_at(&self, place: u32) -> Option<&Key>
        requires { place < length (keys_in self.now) }
        ensures { (other : Tuple) → option_copied result ≡ input_in self.now (slice_index_or (keys_in self.now) place other) }
    {
        self.given.get(self.cells.at(place) as usize)
    }

    /// The value at measure `m` of the cell whose key stands at a place; null where a fault stands, or nothing.
    #[tactic(auto, unfolding(crate::specs::IndexedStores::keys_in))]
    pub fn value_at(&self, place: u32, m: u32) -> Result<Value, Memory>
        requires { place < length (keys_in self.now) }
        ensures { (other : Tuple) →
            IfOk result (λ v. v ≡ value_in self.now (cell_name (slice_index_or (keys_in self.now) place other) m)) }
    {
        value_here(&self.given, &self.results, self.cells.at(place), m)
    }

    /// The same value, lent: `None` where it is null. It takes no memory.
    #[tactic(auto, unfolding(crate::specs::IndexedStores::keys_in))]
    pub fn lent_at(&self, place: u32, m: u32) -> Option<&Value>
        requires { place < length (keys_in self.now) }
        ensures { (other : Tuple) →
            unwrap_or (option_copied result) Null ≡ value_in self.now (cell_name (slice_index_or (keys_in self.now) place other) m) }
    {
        lent_here(&self.given, &self.results, self.cells.at(place), m)
    }

    /// The value of a measure by key. The cell is looked for at `near` and beside it first, and `near` is where it was found then.
    #[tactic(auto, unfolding(crate::specs::IndexedStores::input_in, crate::specs::IndexedStores::results_of))]
    pub fn value_near(&self, key: &[Value], m: u32, near: &mut u32) -> Result<Value, Memory>
        ensures { IfOk result (λ v. v ≡ value_in self.now (cell_name key.now m)) }
    {
        match self.cells.find(key, near) {
            Some(number) => value_here(&self.given, &self.results, number, m),
            None => Ok(Value::Null),
        }
    }

    /// Puts a value at measure `m` of the cell whose key stands at a place, over what stands there. After `Memory` what stands is
    /// as before.
    #[tactic(auto, unfolding(crate::specs::IndexedStores::keys_in, crate::specs::IndexedStores::input_in, crate::specs::IndexedStores::results_of, crate::specs::IndexedStores::looks_of, crate::specs::IndexedStores::sound_in))]
    pub fn set_at(&mut self, place: u32, m: u32, v: Value) -> Result<(), Memory>
        requires { place < length (keys_in self.old) }
        ensures ok { (other : Tuple) → OnOk result
            (DiffersAt (results_of self.old) (results_of self.new)
            (cell_name (slice_index_or (keys_in self.old) place other) m) (Some (Done v))) }
        ensures err { OnErr result (results_of self.new ≡ results_of self.old) }
        ensures same_keys { keys_in self.new ≡ keys_in self.old }
        ensures same_input { input_in self.new ≡ input_in self.old }
        ensures same_looks { looks_of self.new ≡ looks_of self.old }
        ensures same_base { base_in self.new ≡ base_in self.old }
        ensures sound { sound_in self.old ≡ true → sound_in self.new ≡ true }
    {
        let number = self.cells.at(place);
        self.near = place;
        self.results.put(m, number, Slot::Done(v))?;
        Ok(())
    }

    /// How many slots were read so far, up to `MAX_LOOKS`. It takes no memory.
    #[tactic(auto, unfolding(crate::specs::IndexedStores::looks_of))]
    pub fn looks(&self) -> u64
        ensures { result ≡ looks_of self.now }
    {
        self.looks
    }

    /// All values, lent, where no result that was put is a fault or poisoned. It takes no memory.
    #[tactic(auto, unfolding(crate::specs::IndexedStores::input_in, crate::specs::IndexedStores::results_of, crate::specs::IndexedStores::sound_in))]
    pub fn lent(&self) -> Option<LentStore<'_>>
        ensures there { is_some result ≡ sound_in self.now }
        ensures same { IfSome result (λ lent. lent ≡ self.now) }
        ensures values { IfSome result (λ lent. (c : CellName) → slots_in self.now c ≡ Done (value_in lent c)) }
    {
        if self.sound {
            Some(LentStore::new(self, self.near))
        } else {
            None
        }
    }
}

impl Held for IndexedCells {
    ghost stands = { results_of };

    #[tactic(auto, unfolding(crate::specs::IndexedStores::results_of))]
    fn result(&self, key: &Key, m: u32) -> Option<&Slot> {
        let mut near = self.near;
        match self.cells.find(key.as_slice(), &mut near) {
            Some(number) => self.results.get(m, number),
            None => None,
        }
    }
}

impl Cells for IndexedCells {
    ghost input = { input_in };

    ghost results = { results_of };

    ghost looks = { looks_of };

    #[tactic(auto, unfolding(crate::specs::IndexedStores::input_in, crate::specs::IndexedStores::results_of, crate::specs::IndexedStores::looks_of))]
    fn get(&mut self, _alloc: Global, key: &Key, m: u32) -> Result<Slot, Memory> {
        self.looks = self.looks.saturating_add(1);
        let number = self.cells.find(key.as_slice(), &mut self.near);
        slot_by(&self.given, &self.results, number, m)
    }

    /// A cell that is not there comes with its first result.
    #[tactic(auto, unfolding(crate::specs::IndexedStores::input_in, crate::specs::IndexedStores::results_of, crate::specs::IndexedStores::looks_of))]
    fn put(&mut self, key: &Key, m: u32, s: Slot) -> Result<(), Memory> {
        let sound = self.sound & is_done(&s);
        let number = self.cells.add(key, &mut self.near)?;
        self.results.put(m, number, s)?;
        self.sound = sound;
        Ok(())
    }

    #[tactic(auto, unfolding(crate::specs::IndexedStores::input_in, crate::specs::IndexedStores::results_of, crate::specs::IndexedStores::looks_of))]
    fn clear(&mut self, key: &Key, m: u32) {
        if let Some(number) = self.cells.find(key.as_slice(), &mut self.near) {
            self.results.clear(m, number);
        }
    }

    fn first_fault(&self, s: &PartShape) -> Option<u32> {
        if self.sound {
            return None;
        }
        least_fault(self, s.assigned.as_slice())
    }
}

// What stands at measure `m` of the cell with this number: the result, else what the input has.
fn slot_by(
    given: &Lane<Key>,
    results: &Lanes<Slot>,
    number: Option<u32>,
    m: u32,
) -> Result<Slot, Memory>
    ensures { IfOk result (λ s. s ≡ spec.slot_by given.now results.now m number) }
{
    let Some(number) = number else {
        return Ok(Slot::Done(Value::Null));
    };
    match results.get(m, number) {
        Some(slot) => copy_slot(slot),
        None => Ok(Slot::Done(value_by(given, number, m)?)),
    }
}

// What the input has at measure `m` of the cell with this number; null where it does not have the cell.
fn value_by(given: &Lane<Key>, number: u32, m: u32) -> Result<Value, Memory>
    ensures { IfOk result (λ v. v ≡ spec.value_by given.now m (Some number)) }
{
    let Some(values) = given.get(number as usize) else {
        return Ok(Value::Null);
    };
    match values.as_slice().get(m as usize) {
        Some(v) => v.copy(),
        None => Ok(Value::Null),
    }
}

// The value at measure `m` of the cell with this number; null where a fault stands, or nothing.
fn value_here(
    given: &Lane<Key>,
    results: &Lanes<Slot>,
    number: u32,
    m: u32,
) -> Result<Value, Memory>
    ensures { IfOk result (λ v. v ≡ done_value (spec.slot_by given.now results.now m (Some number))) }
{
    match results.get(m, number) {
        Some(slot) => value_of(slot),
        None => value_by(given, number, m),
    }
}

// The same value, lent; `None` where it is null.
fn lent_here<'a>(
    given: &'a Lane<Key>,
    results: &'a Lanes<Slot>,
    number: u32,
    m: u32,
) -> Option<&'a Value>
    ensures { unwrap_or (option_copied result) Null ≡ done_value (spec.slot_by given.now results.now m (Some number)) }
{
    match results.get(m, number) {
        Some(slot) => lent_value(slot),
        None => lent_by(given, number, m),
    }
}

// What the input has there, lent; `None` where that is null or it does not have the cell.
fn lent_by(given: &Lane<Key>, number: u32, m: u32) -> Option<&Value>
    ensures { unwrap_or (option_copied result) Null ≡ spec.value_by given.now m (Some number) }
{
    let Some(values) = given.get(number as usize) else {
        return None;
    };
    match values.as_slice().get(m as usize) {
        Some(v) => Some(v),
        None => None,
    }
}
