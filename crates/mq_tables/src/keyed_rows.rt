//! Rows with their keys.
ghost use Rattle.std.specs.Prelude.{◌≡◌, ◌≢◌, ◌++◌, [], true, false, map, length, IfSome, IfOk, OnErr};
ghost use Rattle.mq_values.specs.Answers.{Gives, result_map};
ghost use Rattle.mq_ir.specs.Changes as spec;
ghost use Rattle.mq_tables.specs.Exchanging.{ComeForOthers, ComesFor, keys_put};
ghost use Rattle.mq_tables.specs.InPlace.{PutsBehind, put_at, rows_gone, rows_left};
ghost use Rattle.mq_tables.specs.KeyOrder.{judged};
ghost use Rattle.mq_tables.specs.Seeking.{AreTold, FirstIsLike, HasKeyAt, IsPlaceWith};

use crate::flags::Flags;
use crate::groups::has_groups_of;
use crate::key_order::KeyOrder;
use crate::keys::{numbered_key, row_key};
use crate::numbered_key::NumberedKey;
use crate::places::Places;
use crate::row_numbers::RowNumbers;
use crate::rows::{put_rows, row_copies};
use mq_ir::{Row, Schema};
use mq_values::{Fail, Items, Memory, Refused, Shared};
use std::alloc::Global;
use std::marker::Model;

// Which part of the keys is exchanged at most; where more of them change, all are made anew.
const PART: usize = 8;

/// The rows of a table, with their keys by the columns that were its key when they were judged. Contracts see the rows.
#[derive(Drop)]
pub struct KeyedRows {
    rows: Vec<Row>,
    columns: Shared<u32>,
    order: KeyOrder,
    numbers: RowNumbers,
}

impl Model for KeyedRows {
    ghost use Rattle.std.specs.Prelude.{List};
    ghost use Rattle.mq_ir.specs.Keys.{Tuple};
    ghost use Rattle.mq_tables.specs.KeyOrder.{AreKept};

    ghost Value = { List Tuple };

    ghost view = { λ k. k.rows.items };

    ghost invariant = { λ k. AreKept k.columns k.rows.items k.order };
}

impl KeyedRows {
    /// No row. It takes no memory.
    pub fn empty(alloc: Global) -> KeyedRows
        ensures { result ≡ [] }
    {
        KeyedRows {
            rows: Vec::new(alloc),
            columns: Shared::empty(),
            order: KeyOrder::empty(),
            numbers: RowNumbers::of(alloc, 0),
        }
    }

    pub fn as_slice(&self) -> &[Row]
        ensures { result.now ≡ self.now }
    {
        self.rows.as_slice()
    }

    /// These rows under their keys, or the key at the least place that repeats an earlier one.
    pub fn new(alloc: Global, schema: &Schema, rows: Items<Row>) -> Result<KeyedRows, Fail<Refused>>
        ensures { Gives result (judged schema.now rows) }
    {
        if schema.key.is_empty() {
            return Ok(without_key(alloc, rows));
        }
        if rows.is_empty() {
            // The first rows that come tell of which groups their keys are.
            return Ok(without_key(alloc, rows));
        }
        with_keys(alloc, schema, rows)
    }

    /// Places outside of which no row has this key: that of the row that has it, no place where no row has it, and all places
    /// where the keys do not tell. The keys of the rows outside are of the groups of this one.
    pub fn places_of(&self, alloc: Global, schema: &Schema, key: &NumberedKey) -> Places
        ensures { AreTold schema.now self.now key.now result }
    {
        match self.places_told(alloc, schema, key) {
            Some(places) => places,
            None => Places::first(self.rows.len()),
        }
    }

    // The same where the keys tell.
    fn places_told(&self, alloc: Global, schema: &Schema, key: &NumberedKey) -> Option<Places>
        ensures { IfSome result (AreTold schema.now self.now key.now) }
    {
        if !is_key_of(self.columns.as_slice(), schema) {
            return None;
        }
        if !self.order.are_alike() {
            return None;
        }
        if let Some(number) = self.order.number_of(key) {
            let place = self.numbers.place_of(number);
            return place_with(alloc, schema, self.rows.as_slice(), place, key);
        }
        if self.order.contains(key) {
            return None;
        }
        if !first_has_groups_of(schema, self.rows.as_slice(), key) {
            return None;
        }
        Some(Places::first(0))
    }

    /// The same rows under the same keys once more, to be changed beside these. Rows and keys are shared, not copied.
    pub fn copy(&self, alloc: Global) -> Result<KeyedRows, Memory>
        ensures { IfOk result (λ copy. copy ≡ self.now) }
    {
        Ok(KeyedRows {
            rows: row_copies(alloc, self.rows.as_slice(), 0)?,
            columns: self.columns.copy()?,
            order: self.order.copy()?,
            numbers: self.numbers.copy(alloc)?,
        })
    }
}

/// Changes of the rows where they stand. After an error they are as before.
impl KeyedRows {
    /// Puts new rows behind these, or says which key at the least place repeats an earlier one.
    pub fn grow(
        &mut self,
        alloc: Global,
        schema: &Schema,
        new: Items<Row>,
    ) -> Result<(), Fail<Refused>>
        ensures exact { Gives (result_map (λ _. self.new) result) (judged schema.now (self.old ++ new)) }
        ensures err { OnErr result (self.new ≡ self.old) }
    {
        if schema.key.is_empty() {
            self.columns = Shared::empty();
            self.rows.append(&mut new.into_vec())?;
            return Ok(());
        }
        if !is_key_of(self.columns.as_slice(), schema) {
            let mut rows = row_copies(alloc, self.rows.as_slice(), new.len())?;
            rows.append(&mut new.into_vec())?;
            *self = KeyedRows::new(alloc, schema, Items::from_vec(rows))?;
            return Ok(());
        }
        let count = new.len();
        let first = self.numbers.next();
        match put_behind(alloc, schema, &mut self.rows, &mut self.order, new, first) {
            Ok(()) => {
                self.numbers.come(count);
                Ok(())
            }
            Err(Fail::Cause(refused)) => Err(Fail::Cause(refused)),
            Err(Fail::Memory) => {
                // The keys may be more than those of the rows: they are made anew when they are next asked for.
                self.columns = Shared::empty();
                self.order = KeyOrder::empty();
                Err(Fail::Memory)
            }
        }
    }

    /// Puts rows in the place of those that were at their places, and judges the keys.
    pub fn put(
        &mut self,
        alloc: Global,
        schema: &Schema,
        puts: Items<(u32, Row)>,
        were: &[(u32, Row)],
    ) -> Result<(), Fail<Refused>>
        requires { ComesFor self.old puts were.now }
        ensures exact { Gives (result_map (λ _. self.new) result) (judged schema.now (put_at puts self.old)) }
        ensures err { OnErr result (self.new ≡ self.old) }
    {
        let Ok(done) = exchange_keys(
            alloc,
            schema,
            self.columns.as_slice(),
            &mut self.order,
            &self.numbers,
            puts.as_slice(),
            were,
        ) else {
            // The keys may be others than those of the rows: they are made anew when they are next asked for.
            self.columns = Shared::empty();
            self.order = KeyOrder::empty();
            return Err(Fail::Memory);
        };
        if done {
            put_rows(&mut self.rows, puts);
            return Ok(());
        }
        self.put_judged(alloc, schema, puts)
    }

    // The same, where all keys are judged anew.
    fn put_judged(
        &mut self,
        alloc: Global,
        schema: &Schema,
        puts: Items<(u32, Row)>,
    ) -> Result<(), Fail<Refused>>
        ensures exact { Gives (result_map (λ _. self.new) result) (judged schema.now (put_at puts self.old)) }
        ensures err { OnErr result (self.new ≡ self.old) }
    {
        if schema.key.is_empty() {
            self.columns = Shared::empty();
            put_rows(&mut self.rows, puts);
            return Ok(());
        }
        let mut rows = row_copies(alloc, self.rows.as_slice(), 0)?;
        put_rows(&mut rows, puts);
        *self = KeyedRows::new(alloc, schema, Items::from_vec(rows))?;
        Ok(())
    }

    /// The same for rows that have the keys of those in whose place they come. No key is looked at again, where they
    /// are kept by the columns that are the key.
    pub fn put_same_keys(
        &mut self,
        alloc: Global,
        schema: &Schema,
        puts: Items<(u32, Row)>,
    ) -> Result<(), Fail<Refused>>
        requires { map (spec.row_key schema.now) (put_at puts self.old) ≡ map (spec.row_key schema.now) self.old }
        ensures exact { Gives (result_map (λ _. self.new) result) (judged schema.now (put_at puts self.old)) }
        ensures err { OnErr result (self.new ≡ self.old) }
    {
        if !is_key_of(self.columns.as_slice(), schema) {
            return self.put_judged(alloc, schema, puts);
        }
        put_rows(&mut self.rows, puts);
        Ok(())
    }

    /// The same where no memory may be taken: keys that are kept by other columns are forgotten, and made anew when they are
    /// next asked for.
    pub fn put_back(&mut self, schema: &Schema, puts: Items<(u32, Row)>)
        requires { map (spec.row_key schema.now) (put_at puts self.old) ≡ map (spec.row_key schema.now) self.old }
        ensures { self.new ≡ put_at puts self.old }
    {
        if !is_key_of(self.columns.as_slice(), schema) {
            self.columns = Shared::empty();
            self.order = KeyOrder::empty();
        }
        put_rows(&mut self.rows, puts);
    }

    /// Takes away the rows that are gone, whose keys are `keys`, numbered by their places.
    pub fn lose(
        &mut self,
        alloc: Global,
        schema: &Schema,
        gone: &Flags,
        keys: &[NumberedKey],
    ) -> Result<(), Fail<Refused>>
        requires told { length gone.now ≡ length self.old }
        requires keyed { keys.now ≡ map (spec.row_key schema.now) (rows_gone self.old gone.now) }
        ensures exact { Gives (result_map (λ _. self.new) result) (judged schema.now (rows_left self.old gone.now)) }
        ensures err { OnErr result (self.new ≡ self.old) }
    {
        if schema.key.is_empty() {
            self.columns = Shared::empty();
            gone.take_away(&mut self.rows);
            return Ok(());
        }
        if is_kept_by(self.columns.as_slice(), schema, &self.numbers) && self.order.lose(keys) {
            gone.take_away(&mut self.rows);
            self.numbers.lose(keys);
            return Ok(());
        }
        *self = rows_without(alloc, schema, self.rows.as_slice(), gone)?;
        Ok(())
    }
}

// The rows that are left, with their keys made anew.
fn rows_without(
    alloc: Global,
    schema: &Schema,
    rows: &[Row],
    gone: &Flags,
) -> Result<KeyedRows, Fail<Refused>>
    requires { length gone.now ≡ length rows.now }
    ensures { Gives result (judged schema.now (rows_left rows.now gone.now)) }
{
    let mut left = row_copies(alloc, rows, 0)?;
    gone.take_away(&mut left);
    KeyedRows::new(alloc, schema, Items::from_vec(left))
}

// A place alone, where the row there has this key.
fn place_with(
    alloc: Global,
    schema: &Schema,
    rows: &[Row],
    place: usize,
    key: &NumberedKey,
) -> Option<Places>
    ensures { IfSome result (IsPlaceWith schema.now rows.now key.now) }
{
    if !has_key(alloc, schema, rows, place, key) {
        return None;
    }
    Some(Places {
        from: place,
        to: place + 1,
    })
}

// Whether the row at a place has this key. No answer rests on `false`.
fn has_key(alloc: Global, schema: &Schema, rows: &[Row], place: usize, key: &NumberedKey) -> bool
    ensures { result ≡ true → HasKeyAt schema.now rows.now key.now place }
{
    let Some(row) = rows.get(place) else {
        return false;
    };
    match row_key(alloc, schema, row) {
        Ok(found) => found.cmp(key.key()).is_eq(),
        Err(_) => false,
    }
}

// Whether the key of the first row, where there is one, is of the groups of this one.
fn first_has_groups_of(schema: &Schema, rows: &[Row], key: &NumberedKey) -> bool
    ensures { result ≡ true → FirstIsLike schema.now rows.now key.now }
{
    match rows.first() {
        Some(row) => has_groups_of(schema, row, key.key().as_slice()),
        None => true,
    }
}

// Exchanges the keys of rows for those of rows that come to their places, where keys are kept and few of them change. Whether
// it did; else nothing is changed. After `Memory` any of the keys may be there.
fn exchange_keys(
    alloc: Global,
    schema: &Schema,
    columns: &[u32],
    order: &mut KeyOrder,
    numbers: &RowNumbers,
    puts: &[(u32, Row)],
    were: &[(u32, Row)],
) -> Result<bool, Memory>
    ensures known { IfOk result (λ done. done ≡ true → (columns.now ≢ []) × (columns.now ≡ schema.now.key)) }
    ensures exchanged { IfOk result (λ done. done ≡ true → ComeForOthers schema.now were.now puts.now order.old order.new) }
    ensures kept { IfOk result (λ done. done ≡ false → order.new ≡ order.old) }
{
    if !is_key_of(columns, schema) {
        return Ok(false);
    }
    if puts.len() > numbers.count() / PART {
        return Ok(false);
    }
    let old = keys_that_were(alloc, schema, were)?;
    order.exchange(alloc, schema, numbers, old.as_slice(), puts)
}

// The keys of rows that were at places.
fn keys_that_were(
    alloc: Global,
    schema: &Schema,
    were: &[(u32, Row)],
) -> Result<Items<NumberedKey>, Memory>
    ensures { IfOk result (λ keys. keys ≡ keys_put schema.now were.now) }
{
    let mut keys = Items::with_room(alloc, were.len());
    'were: for row in were {
        keys.push(numbered_key(alloc, schema, &row.1, 0)?)?;
    }
    Ok(keys)
}

// Puts new rows behind others, and their keys to those of the others.
fn put_behind(
    alloc: Global,
    schema: &Schema,
    rows: &mut Vec<Row>,
    order: &mut KeyOrder,
    new: Items<Row>,
    first: usize,
) -> Result<(), Fail<Refused>>
    ensures { PutsBehind schema.now rows.old.items order.old new rows.new.items order.new result }
{
    rows.reserve(new.len())?;
    order.grow(alloc, schema, new.as_slice(), first)?;
    rows.append(&mut new.into_vec())?;
    Ok(())
}

// Whether keys are kept by these columns, and they are the key of the table.
fn is_key_of(columns: &[u32], schema: &Schema) -> bool
    ensures { result ≡ true → (columns.now ≢ []) × (columns.now ≡ schema.now.key) }
{
    !columns.is_empty() && columns == schema.key.as_slice()
}

// The same, where few numbers were given to rows that are gone. No answer rests on `false`.
fn is_kept_by(columns: &[u32], schema: &Schema, numbers: &RowNumbers) -> bool
    ensures { result ≡ true → (columns.now ≢ []) × (columns.now ≡ schema.now.key) }
{
    !numbers.are_sparse() && is_key_of(columns, schema)
}

// Rows of a table without a key.
fn without_key(alloc: Global, rows: Items<Row>) -> KeyedRows
    ensures { result ≡ rows }
{
    KeyedRows {
        rows: rows.into_vec(),
        columns: Shared::empty(),
        order: KeyOrder::empty(),
        numbers: RowNumbers::of(alloc, 0),
    }
}

// Rows of a table with a key.
fn with_keys(alloc: Global, schema: &Schema, rows: Items<Row>) -> Result<KeyedRows, Fail<Refused>>
    requires { schema.now.key ≢ [] }
    ensures { Gives result (judged schema.now rows) }
{
    let mut order = order_for(alloc, schema, rows.as_slice())?;
    order.grow(alloc, schema, rows.as_slice(), 0)?;
    let numbers = RowNumbers::of(alloc, rows.len());
    Ok(KeyedRows {
        rows: rows.into_vec(),
        columns: copied_columns(alloc, schema.key.as_slice())?,
        order,
        numbers,
    })
}

// No key yet, of rows whose keys are expected to be of the groups of the first one.
fn order_for(alloc: Global, schema: &Schema, rows: &[Row]) -> Result<KeyOrder, Memory>
    ensures { IfOk result (λ order. order ≡ []) }
{
    match rows.first() {
        Some(row) => Ok(KeyOrder::expecting(row_key(alloc, schema, row)?)),
        None => Ok(KeyOrder::empty()),
    }
}

fn copied_columns(alloc: Global, columns: &[u32]) -> Result<Shared<u32>, Memory>
    ensures { IfOk result (λ copy. copy ≡ columns.now) }
{
    let mut copy = Items::new(alloc);
    'columns: for column in columns {
        copy.push(*column)?;
    }
    Shared::new(alloc, copy)
}
