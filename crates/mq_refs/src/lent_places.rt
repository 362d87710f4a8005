//! The values that a store lends at the places of keys: its own, or others.
ghost use Rattle.std.specs.Prelude.{◌≡◌, ◌<◌, [], length, slice_index_or, unwrap_or, IsTrue};
ghost use Rattle.std.specs.Option.{option_copied};
ghost use Rattle.mq_values.specs.declared.value.Value.TheVariants.{Null};
ghost use Rattle.mq_ir.specs.Keys.{Tuple};
ghost use Rattle.mq_cells.specs.IndexedStores.{keys_in, value_in};
ghost use Rattle.mq_cells.specs.Stores.{cell_name};

use crate::cell_keys::CellKeys;
use crate::lenders::Lender;
use mq_cells::IndexedCells;
use mq_values::{Key, Value};

/// A measure at the places of the store's own keys: no key is looked at.
#[derive(Drop)]
pub struct OwnPlaces<'a> {
    pub store: &'a IndexedCells,
    pub measure: u32,
}

impl Lender for OwnPlaces<'_> {
    ghost count = { λ s. length (keys_in s.store.now) };

    ghost value = { λ s place. value_in s.store.now (cell_name (slice_index_or (keys_in s.store.now) place []) s.measure) };

    fn lend(&self, place: u32) -> Option<&Value> {
        self.store.lent_at(place, self.measure)
    }
}

/// A measure at the places of other keys, which mostly are those of the store.
#[derive(Drop)]
pub struct OtherPlaces<'a, K: CellKeys> {
    pub keys: &'a K,
    pub store: &'a IndexedCells,
    pub measure: u32,
}

impl<K: CellKeys> Lender for OtherPlaces<'_, K> {
    ghost count = { λ s. length (K.set s.keys.now) };

    ghost value = { λ s place. value_in s.store.now (cell_name (slice_index_or (K.set s.keys.now) place []) s.measure) };

    fn lend(&self, place: u32) -> Option<&Value> {
        let key = self.keys.key_at(place).as_slice();
        lent_near(self.store, place, key, self.measure)
    }
}

// The value of a measure of the cell at `key`, lent; `None` where it is null. The cell is looked for at `place` and beside it first.
#[inline(always)]
fn lent_near<'a>(
    store: &'a IndexedCells,
    place: u32,
    key: &[Value],
    measure: u32,
) -> Option<&'a Value>
    ensures { unwrap_or (option_copied result) Null ≡ value_in store.now (cell_name key.now measure) }
{
    if stands_at(store.index().keys(), place, key) {
        return store.lent_at(place, measure);
    }
    lent_beside(store, place, key, measure)
}

// The same, where the cell is not at `place`, or its key is not one number.
fn lent_beside<'a>(
    store: &'a IndexedCells,
    place: u32,
    key: &[Value],
    measure: u32,
) -> Option<&'a Value>
    ensures { unwrap_or (option_copied result) Null ≡ value_in store.now (cell_name key.now measure) }
{
    match store.index().place_near(key, place) {
        Some(at) => store.lent_at(at, measure),
        None => None,
    }
}

// Whether `key` stands at a place of these keys, where it is one number; `false` says nothing.
#[inline(always)]
fn stands_at(keys: &[Key], place: u32, key: &[Value]) -> bool
    ensures below { IsTrue result → place < length keys.now }
    ensures same { (other : Tuple) → IsTrue result → slice_index_or keys.now place other ≡ key.now }
{
    match keys.get(place as usize) {
        Some(own) => are_one_number(own.as_slice(), key),
        None => false,
    }
}

// Whether two keys are one number, and the same; `false` says nothing.
#[inline(always)]
fn are_one_number(a: &[Value], b: &[Value]) -> bool
    ensures { IsTrue result → a.now ≡ b.now }
{
    match (a, b) {
        ([Value::Num(m)], [Value::Num(n)]) => m.mant() == n.mant() && m.scale() == n.scale(),
        _ => false,
    }
}
