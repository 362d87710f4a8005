//! The keys of rows, kept so that one is found again.
ghost use Rattle.std.specs.Prelude.{◌≡◌, [], ◌||◌, true, false, not, map, Some, IfSome, IfOk, OnOk};
ghost use Rattle.mq_ir.specs.Changes as spec;
ghost use Rattle.mq_ir.specs.Keys.{is_among};
ghost use Rattle.mq_tables.specs.Exchanging.{AddsBeside, Exchanged, keys_put};
ghost use Rattle.mq_tables.specs.Exchanging as exchanging;
ghost use Rattle.mq_tables.specs.Groups.{AreAlike, AreLike};
ghost use Rattle.mq_tables.specs.KeyOrder.{Adds, GrowsTo, HoldsBoth, HoldsSame, Loses, PutsTo};

use crate::ascending::set_of;
use crate::groups::{has_groups_of, have_groups_of};
use crate::keys::numbered_key;
use crate::numbered_key::NumberedKey;
use crate::own_keys::OwnKeys;
use crate::row_numbers::RowNumbers;
use crate::shared_keys::SharedKeys;
use mq_ir::{Row, Schema};
use mq_values::{Fail, Items, Key, Memory, Refused, Value};
use std::alloc::Global;
use std::collections::BTreeSet;
use std::marker::Model;

/// The keys of rows, which others may hold too. Contracts see them as the list of the keys, in an order that nothing rests on.
#[derive(Drop)]
pub struct KeyOrder {
    keys: SharedKeys,
    // A key of whose groups all of these are, where that is known.
    sample: Option<Key>,
}

impl Model for KeyOrder {
    ghost use Rattle.std.specs.Prelude.{List, IfSome};
    ghost use Rattle.mq_ir.specs.Keys.{Tuple};
    ghost use Rattle.mq_tables.specs.Groups.{AreLike};

    ghost Value = { List Tuple };

    ghost view = { λ order. order.keys };

    ghost invariant = { λ order. IfSome order.sample (λ sample. AreLike sample order.keys) };
}

impl KeyOrder {
    /// No key. It takes no memory.
    pub fn empty() -> KeyOrder
        ensures { result ≡ [] }
    {
        KeyOrder {
            keys: SharedKeys::empty(),
            sample: None,
        }
    }

    /// No key yet, and those that come are expected to be of the groups of this one.
    pub fn expecting(sample: Key) -> KeyOrder
        ensures { result ≡ [] }
    {
        KeyOrder {
            keys: SharedKeys::empty(),
            sample: Some(sample),
        }
    }

    /// The same keys once more, to be changed beside these. No key is copied.
    pub fn copy(&self) -> Result<KeyOrder, Memory>
        ensures { IfOk result (HoldsSame self.now) }
    {
        Ok(KeyOrder {
            keys: self.keys.copy()?,
            sample: sample_copy(&self.sample)?,
        })
    }

    /// Whether a key is among these. It takes no memory.
    pub fn contains(&self, key: &NumberedKey) -> bool
        ensures { result ≡ is_among self.now key.now }
    {
        self.keys.contains(key)
    }

    /// The number of the row of a key, where it is among these. No answer rests on it.
    pub fn number_of(&self, key: &NumberedKey) -> Option<usize> {
        self.keys.number_of(key)
    }

    /// Whether all of these are known to be of the same groups. No answer rests on `false`.
    pub fn are_alike(&self) -> bool
        ensures { result ≡ true → AreAlike self.now }
    {
        match &self.sample {
            Some(_) => true,
            None => false,
        }
    }

    /// Puts the keys of new rows to these. A key that is among these, or is that of an earlier new row, refuses the rows:
    /// that at the least place comes back, and nothing is changed. After `Memory` some of the new keys may be here. The rows
    /// have the numbers from `first` on.
    pub fn grow(
        &mut self,
        alloc: Global,
        schema: &Schema,
        rows: &[Row],
        first: usize,
    ) -> Result<(), Fail<Refused>>
        ensures { GrowsTo self.old (map (spec.row_key schema.now) rows.now) self.new result }
    {
        let keys = new_keys(alloc, schema, self, rows, first)?;
        let sample = sample_of_all(schema, self.sample.take(), rows);
        self.keys.join(alloc, keys)?;
        self.sample = sample;
        Ok(())
    }

    /// Takes keys away, where nobody else may hold any of these. Whether it did; else nothing is changed.
    pub fn lose(&mut self, keys: &[NumberedKey]) -> bool
        ensures lost { result ≡ true → Loses self.old keys.now self.new }
        ensures kept { result ≡ false → self.new ≡ self.old }
    {
        self.keys.lose(keys)
    }

    /// Takes the keys `old` away and puts those of rows that come to places to the others, where these repeat none that stays
    /// and no earlier one of them, and nobody else may hold any of these keys. Whether it did; else nothing is changed. After
    /// `Memory` any of the keys may be here.
    pub fn exchange(
        &mut self,
        alloc: Global,
        schema: &Schema,
        numbers: &RowNumbers,
        old: &[NumberedKey],
        puts: &[(u32, Row)],
    ) -> Result<bool, Memory>
        ensures exchanged { IfOk result (λ done. done ≡ true → Exchanged self.old old.now (keys_put schema.now puts.now) self.new) }
        ensures kept { IfOk result (λ done. done ≡ false → self.new ≡ self.old) }
    {
        let Some(keys) = keys_beside(alloc, schema, self, numbers, old, puts)? else {
            return Ok(false);
        };
        if !self.lose(old) {
            return Ok(false);
        }
        self.join(alloc, schema, keys, puts)?;
        Ok(true)
    }

    // Puts keys to these, which are those of rows that come to places. After `Memory` some of them may be here.
    fn join(
        &mut self,
        alloc: Global,
        schema: &Schema,
        keys: OwnKeys,
        puts: &[(u32, Row)],
    ) -> Result<(), Memory>
        requires { HoldsSame (keys_put schema.now puts.now) keys }
        ensures { OnOk result (HoldsBoth (keys_put schema.now puts.now) self.old self.new) }
    {
        let sample = sample_of_puts(schema, self.sample.take(), puts);
        self.keys.join(alloc, keys)?;
        self.sample = sample;
        Ok(())
    }
}

// The sample once more.
fn sample_copy(sample: &Option<Key>) -> Result<Option<Key>, Memory>
    ensures { IfOk result (λ copy. copy ≡ sample.now) }
{
    match sample {
        Some(key) => Ok(Some(key.copy()?)),
        None => Ok(None),
    }
}

// The sample, where the keys of new rows are of its groups too.
fn sample_of_all(schema: &Schema, sample: Option<Key>, rows: &[Row]) -> Option<Key>
    ensures { IfSome result (λ key. (sample ≡ Some key) × AreLike key (map (spec.row_key schema.now) rows.now)) }
{
    let key = sample?;
    if have_groups_of(schema, rows, key.as_slice()) {
        Some(key)
    } else {
        None
    }
}

// The same for rows that come to places.
fn sample_of_puts(schema: &Schema, sample: Option<Key>, puts: &[(u32, Row)]) -> Option<Key>
    ensures { IfSome result (λ key. (sample ≡ Some key) × AreLike key (keys_put schema.now puts.now)) }
{
    let key = sample?;
    if are_put_like(schema, puts, key.as_slice()) {
        Some(key)
    } else {
        None
    }
}

fn are_put_like(schema: &Schema, puts: &[(u32, Row)], values: &[Value]) -> bool
    ensures { result ≡ true → AreLike values.now (keys_put schema.now puts.now) }
{
    'puts: for put in puts {
        if !has_groups_of(schema, &put.1, values) {
            return false;
        }
    }
    true
}

// The keys of new rows, which have the numbers from `first` on, where none of them is among those of `order` or is that of
// an earlier new row.
fn new_keys(
    alloc: Global,
    schema: &Schema,
    order: &KeyOrder,
    rows: &[Row],
    first: usize,
) -> Result<OwnKeys, Fail<Refused>>
    ensures { Adds order.now (map (spec.row_key schema.now) rows.now) result }
{
    let mut keys = OwnKeys::empty(alloc);
    let mut number = first;
    'rows: for row in rows {
        let key = numbered_key(alloc, schema, row, number)?;
        if !put_new(&mut keys, order, &key)? {
            return Err(Fail::Cause(Refused::DuplicateKey(key.into_key())));
        }
        number = number.saturating_add(1);
    }
    Ok(keys)
}

// The keys of rows that come to places, where none of them is one of `order` that is not among the old ones, or is that of an
// earlier row that comes.
fn keys_beside(
    alloc: Global,
    schema: &Schema,
    order: &KeyOrder,
    numbers: &RowNumbers,
    old: &[NumberedKey],
    puts: &[(u32, Row)],
) -> Result<Option<OwnKeys>, Memory>
    ensures { IfOk result (λ keys. IfSome keys (AddsBeside order.now old.now (keys_put schema.now puts.now))) }
{
    let gone = set_of(alloc, old)?;
    let mut keys = OwnKeys::empty(alloc);
    'puts: for put in puts {
        let key = numbered_key(alloc, schema, &put.1, numbers.number_at(put.0 as usize))?;
        if !put_beside(&mut keys, order, &gone, &key)? {
            return Ok(None);
        }
    }
    Ok(Some(keys))
}

// Puts a key to the new ones, unless it is among them, or is one of `order` that is not gone. Whether it was put.
fn put_beside(
    keys: &mut OwnKeys,
    order: &KeyOrder,
    gone: &BTreeSet<NumberedKey>,
    key: &NumberedKey,
) -> Result<bool, Memory>
    ensures new { IfOk result (λ new. new ≡ not (exchanging.is_left order.now gone.now.keys key.now || is_among keys.old key.now)) }
    ensures put { IfOk result (λ new. new ≡ true → PutsTo key.now keys.old keys.new) }
{
    if is_left(order, gone, key) {
        return Ok(false);
    }
    keys.put(key)
}

// Whether a key is one of `order` that is not gone.
fn is_left(order: &KeyOrder, gone: &BTreeSet<NumberedKey>, key: &NumberedKey) -> bool
    ensures { result ≡ exchanging.is_left order.now gone.now.keys key.now }
{
    order.contains(key) && !gone.contains(key)
}

// Puts a key to the new ones, unless it is among them or among those of `order`. Whether it was put.
fn put_new(keys: &mut OwnKeys, order: &KeyOrder, key: &NumberedKey) -> Result<bool, Memory>
    ensures new { IfOk result (λ new. new ≡ not (is_among order.now key.now || is_among keys.old key.now)) }
    ensures put { IfOk result (λ new. new ≡ true → PutsTo key.now keys.old keys.new) }
{
    if order.contains(key) {
        return Ok(false);
    }
    keys.put(key)
}
