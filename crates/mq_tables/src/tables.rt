//! The tables, in order of creation.
ghost use Rattle.std.specs.Prelude.{◌≡◌, ◌≤◌, ◌<◌, [], ◌∷◌, ◌++◌, Some, None, Ok, length, not, position, slice_get, IfOk, OnOk, OnErr};
ghost use Rattle.std.specs.List.{filter};
ghost use Rattle.std.specs.Option.{option_copied};
ghost use Rattle.mq_values.specs.Answers.{Gives, result_map};
ghost use Rattle.mq_values.specs.declared.limits.TheConstants.{MAX_ROWS};
ghost use Rattle.mq_ir.specs.Changes as changes;
ghost use Rattle.mq_ir.specs.Statement.{with_rows};
ghost use Rattle.mq_ir.specs.Tables.{Table as Seen, is_name, rows_of, table_at};
ghost use Rattle.mq_tables.specs.Held.{HaveOwnNames, RowsFit};
ghost use Rattle.mq_tables.specs.InPlace.{applied, put_at};
ghost use Rattle.mq_tables.specs.PuttingBack.{HaveSameKeys};
ghost use Rattle.mq_tables.specs.Rows.{row_at, rows_at};
ghost use Rattle.mq_tables.specs.Staging.{ChangeFits, StandsOn};
ghost use Rattle.mq_tables.specs.Touching.{changed_at, count_of, touched_by};

use crate::keyed_rows::KeyedRows;
use crate::row_view::RowView;
use crate::sizes::{judge_size, rows_added};
use crate::stage::table_of;
use crate::staged::Staged;
use crate::table::Table;
use crate::touched::Touched;
use mq_ir::{Change, Row, TableDef};
use mq_values::{Fail, Items, Memory, Refused};
use std::alloc::Global;
use std::marker::Model;

/// The rows of tables, by their names.
pub trait TableSet {
    ghost use Rattle.std.specs.Prelude.{◌≡◌};
    ghost use Rattle.std.specs.Option.{option_copied};
    ghost use Rattle.mq_ir.specs.Tables.{Tables};
    ghost use Rattle.mq_tables.specs.Rows.{rows_at};

    /// The tables that stand here.
    ghost tables: { Self → Tables };

    /// The rows of the table of this name, or `None` where there is no such table. It takes no memory.
    fn rows(&self, name: &str) -> Option<&[Row]>
        ensures { option_copied result ≡ rows_at (tables self.now) name.now };
}

/// The tables, in order of creation. Contracts see them as the list of tables with their rows.
#[derive(Drop)]
pub struct Tables {
    tables: Vec<Table>,
}

impl Model for Tables {
    ghost use Rattle.mq_ir.specs.Tables.{Tables as Seen};
    ghost use Rattle.mq_tables.specs.Held.{HaveOwnNames};

    ghost Value = { Seen };

    ghost view = { λ t. t.tables.items };

    ghost invariant = { λ t. HaveOwnNames t.tables.items };
}

impl TableSet for Tables {
    ghost tables = { λ t. t };

    fn rows(&self, name: &str) -> Option<&[Row]> {
        let table = self.table(name)?;
        Some(table.rows())
    }
}

impl Tables {
    /// No table. It takes no memory.
    pub fn new(alloc: Global) -> Tables
        ensures { result ≡ [] }
    {
        Tables {
            tables: Vec::new(alloc),
        }
    }

    /// The table of this name, or `None` where there is none.
    pub fn table(&self, name: &str) -> Option<&Table>
        ensures { option_copied result ≡ table_at self.now name.now }
    {
        self.tables.iter().find(|table| name == table.name())
    }

    /// All tables, in order of creation.
    pub fn as_slice(&self) -> &[Table]
        ensures { result.now ≡ self.now }
    {
        self.tables.as_slice()
    }

    /// Adds a table of a name that is not there: it is last, and has no rows. After `Memory` nothing is changed.
    pub fn add(&mut self, t: TableDef) -> Result<(), Memory>
        requires { table_at self.old t.name ≡ None }
        ensures ok { OnOk result (self.new ≡ self.old ++ record { name = t.name; schema = t.schema; rows = [] } ∷ []) }
        ensures err { OnErr result (self.new ≡ self.old) }
        ensures fit { RowsFit self.old → RowsFit self.new }
    {
        self.tables.push(Table::new(*self.tables.allocator(), t))?;
        Ok(())
    }

    /// Removes the table of this name. It takes no memory.
    pub fn remove(&mut self, name: &str)
        ensures others { self.new ≡ filter (λ t. not (is_name name.now t.name)) self.old }
        ensures fit { RowsFit self.old → RowsFit self.new }
    {
        keep_others(&mut self.tables, name);
    }

    /// The row at this place of the table of this name, counted from 0, or `None` where there is no such row. It
    /// takes no memory.
    pub fn row(&self, table: &str, place: u32) -> Option<RowView<'_>>
        ensures { result ≡ row_at self.now table.now place }
    {
        let rows = self.rows(table)?;
        let row = rows.get(place as usize)?;
        Some(RowView::new(row))
    }

    /// Puts the rows of a staged change into its table, and answers how many rows are counted. Where the change
    /// stands on these tables, rows that fit their tables still do. It takes no memory.
    pub fn commit(&mut self, s: Staged) -> u64
        ensures rows { self.new ≡ with_rows self.old s.table s.rows }
        ensures counted { result ≡ s.counted }
        ensures fit { StandsOn self.old s → RowsFit self.old → RowsFit self.new }
    {
        let (table, rows, counted) = s.into_parts();
        put_rows(&mut self.tables, table.as_str(), rows);
        counted as u64
    }

    /// Puts rows at their places in the table of this name, where they have the keys of those that stand there. It takes no
    /// memory.
    pub(crate) fn put_rows_back(&mut self, name: &str, puts: Items<(u32, Row)>)
        requires { HaveSameKeys self.old name.now puts }
        ensures rows { self.new ≡ with_rows self.old name.now (put_at puts (rows_of self.old name.now)) }
        ensures own { HaveOwnNames self.old }
    {
        put_at_places(&mut self.tables, name, puts);
    }

    /// Makes the change `c` where its rows stand, or says why it is refused (docs/MEANING.md, "Changes"), and answers
    /// how many rows are counted: what `stage` and `commit` come to, one after another. No row that the change leaves
    /// as it is is copied. After any error the tables are as before.
    pub fn apply(&mut self, alloc: Global, c: &Change) -> Result<u64, Fail<Refused>>
        ensures exact { Gives (result_map (λ count. (self.new, count)) result) (applied self.old c.now) }
        ensures err { OnErr result (self.new ≡ self.old) }
        ensures fit { RowsFit self.old → ChangeFits self.old c.now → RowsFit self.new }
    {
        let touched = self.change(alloc, c)?;
        Ok(touched.count() as u64)
    }

    /// The same, and tells what the change touched.
    pub fn change(&mut self, alloc: Global, c: &Change) -> Result<Touched, Fail<Refused>>
        ensures exact { Gives (result_map (λ touched. (self.new, count_of touched)) result) (applied self.old c.now) }
        ensures touched { IfOk result (λ touched. touched_by self.old c.now ≡ Ok touched) }
        ensures err { OnErr result (self.new ≡ self.old) }
        ensures fit { RowsFit self.old → ChangeFits self.old c.now → RowsFit self.new }
    {
        let name = table_of(c);
        let Some(place) = place_of(&self.tables, name.as_str()) else {
            return Err(Fail::Cause(Refused::UnknownName(name.copy()?)));
        };
        judge_size(&self.tables, &self.tables[place], rows_added(c))?;
        change_at(alloc, &mut self.tables, place, c)
    }
}

// A change of the table at this place, whose size is judged.
fn change_at(
    alloc: Global,
    tables: &mut Vec<Table>,
    place: usize,
    c: &Change,
) -> Result<Touched, Fail<Refused>>
    requires there { place < length tables.old.items }
    requires rows { (t : Seen) → slice_get tables.old.items place ≡ Some t → length t.rows ≤ MAX_ROWS }
    requires added { changes.rows_added c.now ≤ MAX_ROWS }
    ensures exact { (t : Seen) → slice_get tables.old.items place ≡ Some t → Gives (result_map (λ touched. (tables.new.items, touched)) result) (changed_at tables.old.items place t c.now) }
    ensures err { OnErr result (tables.new.items ≡ tables.old.items) }
{
    tables[place].change(alloc, c)
}

// Puts rows into the table of this name, where there is one.
fn put_rows(tables: &mut Vec<Table>, name: &str, rows: KeyedRows)
    requires { HaveOwnNames tables.old.items }
    ensures { tables.new.items ≡ with_rows tables.old.items name.now rows }
{
    match place_of(tables, name) {
        Some(place) => tables[place].set_rows(rows),
        None => {}
    }
}

// Puts rows at their places in the table of this name, where there is one.
fn put_at_places(tables: &mut Vec<Table>, name: &str, puts: Items<(u32, Row)>)
    requires own { HaveOwnNames tables.old.items }
    requires keys { HaveSameKeys tables.old.items name.now puts }
    ensures { tables.new.items ≡ with_rows tables.old.items name.now (put_at puts (rows_of tables.old.items name.now)) }
{
    match place_of(tables, name) {
        Some(place) => tables[place].put_back(puts),
        None => {}
    }
}

fn place_of(tables: &[Table], name: &str) -> Option<usize>
    ensures { result ≡ position (λ t. is_name name.now t.name) tables.now }
{
    tables.iter().position(|table| name == table.name())
}

// The tables of other names.
fn keep_others(tables: &mut Vec<Table>, name: &str)
    ensures { tables.new.items ≡ filter (λ t. not (is_name name.now t.name)) tables.old.items }
{
    tables.retain(|table| name != table.name());
}
