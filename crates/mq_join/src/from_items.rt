//! The rows of the FROM items.
ghost use Rattle.std.specs.Prelude.{◌≡◌, [], length, slice_index_or, IfOk};
ghost use Rattle.mq_ir.specs.BaseRows.{items_of as spec_items_of};
ghost use Rattle.mq_ir.specs.Tables.{rows_of as spec_rows_of};
ghost use Rattle.mq_join.specs.Chosen.{choosing, rows_at_places};

use mq_ir::{FromPart, Row};
use mq_tables::TableSet;
use mq_values::{Items, Memory, Value, Words};
use std::alloc::Global;
use std::marker::Model;

/// The rows of a FROM item, lent by their table: all of them, or those that stand at some places. Contracts see them as the
/// list of rows.
#[derive(Drop)]
pub struct ItemRows<'a> {
    rows: &'a [Row],
    chosen: Option<&'a [u32]>,
}

impl<'a> Model for ItemRows<'a> {
    ghost use Rattle.std.specs.Prelude.{List};
    ghost use Rattle.std.specs.Option.{option_copied};
    ghost use Rattle.mq_ir.specs.Keys.{Tuple};
    ghost use Rattle.mq_join.specs.Chosen.{rows_chosen};

    ghost Value = { List Tuple };

    ghost view = { λ item. rows_chosen item.rows.now (option_copied item.chosen) };
}

impl<'a> ItemRows<'a> {
    pub fn new(rows: &'a [Row]) -> ItemRows<'a>
        ensures { result ≡ rows.now }
    {
        ItemRows { rows, chosen: None }
    }

    /// The rows that stand at these places, in this order. A place that is not there stands for an empty row.
    pub fn at_places(rows: &'a [Row], places: &'a [u32]) -> ItemRows<'a>
        ensures { result ≡ rows_at_places rows.now places.now }
    {
        ItemRows {
            rows,
            chosen: Some(places),
        }
    }

    pub fn len(&self) -> usize
        ensures { result ≡ length self.now }
    {
        match self.chosen {
            Some(places) => places.len(),
            None => self.rows.len(),
        }
    }

    /// The values of the row at this place, or none where there is no such row.
    pub fn row(&self, place: usize) -> &'a [Value]
        ensures { result.now ≡ slice_index_or self.now place [] }
    {
        match self.chosen {
            Some(places) => row_at_chosen(self.rows, places, place),
            None => row_at(self.rows, place),
        }
    }
}

// The values of the row at this place, or none where there is no such row.
fn row_at(rows: &[Row], place: usize) -> &[Value]
    ensures { result.now ≡ slice_index_or rows.now place [] }
{
    match rows.get(place) {
        Some(row) => row.as_slice(),
        None => &[],
    }
}

// The same of the rows that stand at these places.
fn row_at_chosen<'a>(rows: &'a [Row], places: &[u32], place: usize) -> &'a [Value]
    ensures { result.now ≡ slice_index_or (rows_at_places rows.now places.now) place [] }
{
    match places.get(place) {
        Some(chosen) => row_at(rows, *chosen as usize),
        None => &[],
    }
}

/// The rows of each FROM item, in text order.
pub fn items_of<'a, T: TableSet>(
    alloc: Global,
    q: &FromPart,
    t: &'a T,
) -> Result<Items<ItemRows<'a>>, Memory>
    ensures { IfOk result (λ items. items ≡ spec_items_of (T.tables t.now) q.now) }
{
    let mut items = Items::new(alloc);
    'names: for name in q.tables.as_slice() {
        items.push(rows_of(name, t))?;
    }
    Ok(items)
}

/// The same, but of the item of this number, counted from 0, the rows at these places alone.
pub fn items_choosing<'a, T: TableSet>(
    alloc: Global,
    q: &FromPart,
    item: usize,
    places: &'a [u32],
    t: &'a T,
) -> Result<Items<ItemRows<'a>>, Memory>
    ensures { IfOk result (λ items. items ≡ choosing item places.now (spec_items_of (T.tables t.now) q.now)) }
{
    let mut items = items_of(alloc, q, t)?.into_vec();
    choose(&mut items, q, item, places, t);
    Ok(Items::from_vec(items))
}

// Of the item of this number the rows at these places alone.
#[tactic(auto, using(crate::proofs::PartLemmas::chosen_steps))]
fn choose<'a, T: TableSet>(
    items: &mut Vec<ItemRows<'a>>,
    q: &FromPart,
    item: usize,
    places: &'a [u32],
    t: &'a T,
)
    requires { items.old.items ≡ spec_items_of (T.tables t.now) q.now }
    ensures { items.new.items ≡ choosing item places.now items.old.items }
{
    let Some(name) = q.tables.as_slice().get(item) else {
        return;
    };
    items[item] = ItemRows::at_places(table_rows(name, t), places);
}

// The rows of a table; a table that is not there has none.
fn rows_of<'a, T: TableSet>(name: &Words, t: &'a T) -> ItemRows<'a>
    ensures { result ≡ spec_rows_of (T.tables t.now) name.now }
{
    ItemRows::new(table_rows(name, t))
}

fn table_rows<'a, T: TableSet>(name: &Words, t: &'a T) -> &'a [Row]
    ensures { result.now ≡ spec_rows_of (T.tables t.now) name.now }
{
    match t.rows(name.as_str()) {
        Some(rows) => rows,
        None => &[],
    }
}
