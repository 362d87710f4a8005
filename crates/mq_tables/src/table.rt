//! A table with its rows.
ghost use Rattle.std.specs.Prelude.{◌≡◌, ◌≤◌, [], length, map, IfOk, OnErr};
ghost use Rattle.mq_values.specs.Answers.{Gives, result_map};
ghost use Rattle.mq_values.specs.declared.limits.TheConstants.{MAX_ROWS};
ghost use Rattle.mq_ir.specs.Changes.{row_key, rows_added};
ghost use Rattle.mq_tables.specs.InPlace.{put_at};
ghost use Rattle.mq_tables.specs.Touching.{made};

use crate::changing::change_rows;
use crate::keyed_rows::KeyedRows;
use crate::touched::Touched;
use mq_ir::{Change, Row, Schema, TableDef};
use mq_values::{Fail, Items, Memory, Refused, Words};
use std::alloc::Global;
use std::marker::Model;

/// A table: its name, its columns, and its rows in order of insertion (docs/MEANING.md, "Changes").
#[derive(Drop)]
pub struct Table {
    name: Words,
    schema: Schema,
    rows: KeyedRows,
}

impl Model for Table {
    ghost use Rattle.mq_ir.specs.Tables.{Table as Seen};

    ghost Value = { Seen };

    ghost view = { λ t. record { name = t.name; schema = t.schema; rows = t.rows } };
}

impl Table {
    /// The table that `def` says, without rows. It takes no memory.
    pub fn new(alloc: Global, def: TableDef) -> Table
        ensures { result ≡ record { name = def.name; schema = def.schema; rows = [] } }
    {
        Table {
            name: def.name,
            schema: def.schema,
            rows: KeyedRows::empty(alloc),
        }
    }

    pub fn name(&self) -> &str
        ensures { result.now ≡ self.now.name }
    {
        self.name.as_str()
    }

    /// The name, to be held beside the table.
    pub fn copy_name(&self) -> Result<Words, Memory>
        ensures { IfOk result (λ name. name ≡ self.now.name) }
    {
        self.name.copy()
    }

    pub fn schema(&self) -> &Schema
        ensures { result.now ≡ self.now.schema }
    {
        &self.schema
    }

    pub fn rows(&self) -> &[Row]
        ensures { result.now ≡ self.now.rows }
    {
        self.rows.as_slice()
    }

    /// The rows with their keys.
    pub fn keyed_rows(&self) -> &KeyedRows
        ensures { result.now ≡ self.now.rows }
    {
        &self.rows
    }

    /// Puts these rows in the place of those that stand here.
    pub fn set_rows(&mut self, rows: KeyedRows)
        ensures { self.new ≡ record self.old { rows = rows } }
    {
        self.rows = rows;
    }

    /// Puts rows at their places, which have the keys of those that stand there. It takes no memory.
    pub fn put_back(&mut self, puts: Items<(u32, Row)>)
        requires { map (row_key self.old.schema) (put_at puts self.old.rows) ≡ map (row_key self.old.schema) self.old.rows }
        ensures { self.new ≡ record self.old { rows = put_at puts self.old.rows } }
    {
        self.rows.put_back(&self.schema, puts);
    }

    /// Makes a change of this table whose size is judged, where its rows stand, and tells what it touched. After an error the
    /// table is as before.
    pub fn change(&mut self, alloc: Global, c: &Change) -> Result<Touched, Fail<Refused>>
        requires within { length self.old.rows ≤ MAX_ROWS }
        requires added { rows_added c.now ≤ MAX_ROWS }
        ensures exact { Gives (result_map (λ touched. (self.new.rows, touched)) result) (made self.old.schema self.old.rows c.now) }
        ensures same { self.new ≡ record self.old { rows = self.new.rows } }
        ensures err { OnErr result (self.new ≡ self.old) }
    {
        change_rows(alloc, &self.schema, &mut self.rows, c)
    }
}
