//! A base row that is lent.
ghost use Rattle.std.specs.Prelude.{◌≡◌, ◌<◌, [], length, map, min, slice_index_or, IfOk};
ghost use Rattle.mq_values.specs.declared.value.Value.TheVariants.{Null};
ghost use Rattle.mq_join.specs.Rows.{LAST_PLACE, joined_at, places_in, rows_in};

use crate::from_items::ItemRows;
use mq_values::{Memory, Value};
use std::alloc::Global;
use std::marker::Model;

// A row of a FROM item with its place.
#[derive(Drop)]
pub struct Part<'a> {
    values: &'a [Value],
    place: usize,
}

impl<'a> Model for Part<'a> {
    ghost use Rattle.std.specs.Prelude.{ℕ};
    ghost use Rattle.mq_ir.specs.Keys.{Tuple};

    ghost Value = { Tuple × ℕ };

    ghost view = { λ part. (part.values.now, part.place) };
}

impl<'a> Part<'a> {
    fn new(values: &'a [Value], place: usize) -> Part<'a>
        ensures { result ≡ (values.now, place) }
    {
        Part { values, place }
    }

    fn values(&self) -> &'a [Value]
        ensures { result.now ≡ self.now.0 }
    {
        self.values
    }

    fn place(&self) -> usize
        ensures { result ≡ self.now.1 }
    {
        self.place
    }
}

/// A base row: for each FROM item a row of its table, and the place of that row (docs/MEANING.md, "Base rows").
/// It lends the values of the tables and copies none. Contracts see it as the list of rows with their places.
#[derive(Drop)]
pub struct JoinRow<'a> {
    parts: Vec<Part<'a>>,
}

impl<'a> Model for JoinRow<'a> {
    ghost use Rattle.mq_join.specs.Rows.{Joined};

    ghost Value = { Joined };

    ghost view = { λ row. row.parts.items };
}

impl<'a> JoinRow<'a> {
    /// The value of a column of an item, both there and counted from 0. It is the table's own, and no copy.
    pub fn value(&self, item: u32, column: u32) -> &'a Value
        requires { column < length (slice_index_or (rows_in self.now) item []) }
        ensures { result.now ≡ slice_index_or (slice_index_or (rows_in self.now) item []) column Null }
    {
        &self.row(item)[column as usize]
    }

    /// The values of the row of an item, or none where there is no such item.
    pub fn row(&self, item: u32) -> &'a [Value]
        ensures { result.now ≡ slice_index_or (rows_in self.now) item [] }
    {
        match self.parts.get(item as usize) {
            Some(part) => part.values(),
            None => &[],
        }
    }

    /// The places of its rows, one for each item. `Memory` comes also where a place is past 32 bits: no table has so many rows.
    pub fn places(&self, alloc: Global) -> Result<Vec<u32>, Memory>
        ensures { IfOk result (λ places. places.items ≡ places_in self.now) }
    {
        places_of(alloc, self.parts.as_slice())
    }

    /// The place of the row of an item, counted from 0, or 0 where there is no such item. A place past the last
    /// `u32` is told as that; no table has so many rows.
    pub fn place(&self, item: u32) -> u32
        ensures { result ≡ min (slice_index_or (places_in self.now) item 0) LAST_PLACE }
    {
        match self.parts.get(item as usize) {
            Some(part) => capped(part.place()),
            None => 0,
        }
    }
}

fn places_of(alloc: Global, parts: &[Part<'_>]) -> Result<Vec<u32>, Memory>
    ensures { IfOk result (λ places. places.items ≡ places_in parts.now) }
{
    let mut places = Vec::with_capacity(alloc, parts.len())?;
    'parts: for part in parts {
        places.push(narrow(part.place())?)?;
    }
    Ok(places)
}

// The same place in 32 bits.
fn narrow(place: usize) -> Result<u32, Memory>
    ensures { IfOk result (λ narrow. narrow ≡ place) }
{
    if place <= u32::MAX as usize {
        Ok(place as u32)
    } else {
        Err(Memory)
    }
}

// A place as far as 32 bits go.
fn capped(place: usize) -> u32
    ensures { result ≡ min place LAST_PLACE }
{
    if place < u32::MAX as usize {
        place as u32
    } else {
        u32::MAX
    }
}

/// The rows at these places of the items, as a base row.
pub fn joined<'a>(
    alloc: Global,
    items: &[ItemRows<'a>],
    places: &[usize],
) -> Result<JoinRow<'a>, Memory>
    ensures { IfOk result (λ row. row ≡ joined_at items.now places.now) }
{
    let count = items.len().min(places.len());
    let mut parts = Vec::with_capacity(alloc, count)?;
    'items: for i in 0..count {
        parts.push(part_at(items, places, i))?;
    }
    Ok(JoinRow { parts })
}

// The row of the item of this number.
fn part_at<'a>(items: &[ItemRows<'a>], places: &[usize], i: usize) -> Part<'a>
    requires item { i < length items.now }
    requires place { i < length places.now }
    ensures { result ≡ slice_index_or (joined_at items.now places.now) i result }
{
    let place = places[i];
    Part::new(items[i].row(place), place)
}
