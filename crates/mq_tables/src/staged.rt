//! A change that was judged, before it is committed.
ghost use Rattle.std.specs.Prelude.{◌≡◌, ◌≤◌, None, length, slice_index_or, IfOk, OnErr};
ghost use Rattle.mq_values.specs.Answers.{Gives, result_map};
ghost use Rattle.mq_values.specs.declared.limits.TheConstants.{MAX_ROWS};
ghost use Rattle.mq_ir.specs.Changes.{rows_added};
ghost use Rattle.mq_tables.specs.Pending.{held_over, step_of};
ghost use Rattle.mq_tables.specs.Staging.{stays};
ghost use Rattle.mq_tables.specs.Touching.{IsOf, forgotten, made, noted};

use crate::changing::change_rows;
use crate::keyed_rows::KeyedRows;
use crate::rows::put;
use crate::table::Table;
use crate::touched::Touched;
use mq_ir::{Change, Row, Schema};
use mq_values::{Fail, Memory, Refused, Words};
use std::alloc::Global;
use std::marker::Model;

/// The rows that a table would have after changes, and where they come from. Contracts see it as `Staged` of
/// specs/Staging.
#[derive(Drop)]
pub struct Staged {
    table: Words,
    had: usize,
    rows: KeyedRows,
    counted: usize,
    // The old places of the first rows; the others have none.
    places: Vec<Option<u32>>,
}

impl Model for Staged {
    ghost use Rattle.std.specs.Prelude.{◌≤◌, length};
    ghost use Rattle.mq_tables.specs.OldPlaces.{with_none};
    ghost use Rattle.mq_tables.specs.Staging.{Staged as Seen};

    ghost Value = { Seen };

    ghost view = { λ s. record { table = s.table; had = s.had; rows = s.rows; counted = s.counted; origins = with_none s.places.items s.rows } };

    ghost invariant = { λ s. length s.places.items ≤ length s.rows };
}

impl Staged {
    /// The name of the table that the change is of. It takes no memory.
    pub fn table(&self) -> &str
        ensures { result.now ≡ self.now.table }
    {
        self.table.as_str()
    }

    /// All rows that the table would have, in order. It takes no memory.
    pub fn rows(&self) -> &[Row]
        ensures { result.now ≡ self.now.rows }
    {
        self.rows.as_slice()
    }

    /// The place at which the row at this new place stands in the table; `None` where the change inserts it or,
    /// in an UPDATE, visits it as true. It takes no memory.
    pub fn from(&self, place: u32) -> Option<u32>
        ensures { result ≡ slice_index_or self.now.origins place None }
    {
        match self.places.get(place as usize) {
            Some(origin) => *origin,
            None => None,
        }
    }

    /// How many rows are counted.
    pub fn counted(&self) -> usize
        ensures { result ≡ self.now.counted }
    {
        self.counted
    }

    /// What a change of a table comes to, whose size is judged, or why it is refused.
    pub fn of_change(alloc: Global, table: &Table, c: &Change) -> Result<Staged, Fail<Refused>>
        requires within { length table.now.rows ≤ MAX_ROWS }
        requires added { rows_added c.now ≤ MAX_ROWS }
        ensures { Gives result (step_of table.now c.now) }
    {
        let mut rows = table.keyed_rows().copy(alloc)?;
        let mut places = places_of(alloc, table.rows())?;
        let touched = change_noting(alloc, table.schema(), &mut rows, &mut places, c)?;
        Ok(Staged {
            table: table.copy_name()?,
            had: table.rows().len(),
            rows,
            counted: touched.count(),
            places,
        })
    }

    /// Makes one change more, whose size is judged, of rows that have this schema, and answers how many rows it counts. After
    /// an error all is as before.
    pub fn hold(
        &mut self,
        alloc: Global,
        schema: &Schema,
        c: &Change,
    ) -> Result<usize, Fail<Refused>>
        requires within { length self.old.rows ≤ MAX_ROWS }
        requires added { rows_added c.now ≤ MAX_ROWS }
        ensures exact { Gives (result_map (λ count. (self.new, count)) result) (held_over schema.now self.old c.now) }
        ensures err { OnErr result (self.new ≡ self.old) }
    {
        let touched = change_noting(alloc, schema, &mut self.rows, &mut self.places, c)?;
        let count = touched.count();
        self.counted = self.counted.saturating_add(count);
        Ok(count)
    }

    /// The name, the rows, and how many rows are counted.
    pub fn into_parts(self) -> (Words, KeyedRows, usize)
        ensures { (result.0 ≡ self.table) × (result.1 ≡ self.rows) × (result.2 ≡ self.counted) }
    {
        (self.table, self.rows, self.counted)
    }
}

// Rows that stand where they stand.
fn places_of(alloc: Global, rows: &[Row]) -> Result<Vec<Option<u32>>, Memory>
    requires { length rows.now ≤ MAX_ROWS }
    ensures { IfOk result (λ places. places.items ≡ stays rows.now) }
{
    let mut places = Vec::with_capacity(alloc, rows.len())?;
    'rows: for (at, _row) in rows.iter().enumerate() {
        places.push(Some(at as u32))?;
    }
    Ok(places)
}

// Makes a change of rows, and notes where the first of them stood.
fn change_noting(
    alloc: Global,
    schema: &Schema,
    rows: &mut KeyedRows,
    places: &mut Vec<Option<u32>>,
    c: &Change,
) -> Result<Touched, Fail<Refused>>
    requires within { length rows.old ≤ MAX_ROWS }
    requires added { rows_added c.now ≤ MAX_ROWS }
    requires known { length places.old.items ≤ length rows.old }
    ensures exact { Gives (result_map (λ touched. (rows.new, touched)) result) (made schema.now rows.old c.now) }
    ensures noted { IfOk result (λ touched. places.new.items ≡ noted places.old.items touched) }
    ensures err { OnErr result (rows.new ≡ rows.old) }
    ensures same { OnErr result (places.new.items ≡ places.old.items) }
{
    let touched = change_rows(alloc, schema, rows, c)?;
    note(places, &touched);
    Ok(touched)
}

// The old places of the first rows, after a change touched the rows. Those that came have none, and need no entry.
fn note(places: &mut Vec<Option<u32>>, touched: &Touched)
    requires { IsOf (length places.old.items) touched.now }
    ensures { places.new.items ≡ noted places.old.items touched.now }
{
    match touched {
        Touched::Added { .. } => {}
        Touched::Replaced(rows) => forget(places, rows.as_slice()),
        Touched::Gone { flags, .. } => flags.take_away(places),
    }
}

// The rows at these places have no old place from now on.
fn forget(places: &mut Vec<Option<u32>>, rows: &[(u32, Row)])
    ensures { places.new.items ≡ forgotten rows.now places.old.items }
{
    'rows: for row in rows {
        put(places, row.0, None);
    }
}
