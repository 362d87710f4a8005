//! Two sets of the same tables: a change is staged and committed in the one and made in place in the other, by turns.

use crate::answers::Reply;
use crate::models::{bound, change_of, table_of};
use crate::texts::{cut, keys};
use mq_ir::{ByName, Catalog, Change, Row, TableDef, TableEntry};
use mq_tables::{Staged, TableSet, Tables};
use mq_values::{Fail, Items, Refused, Words};
use std::alloc::Global;

/// The tables that are there: as statements are bound under them, and with their rows in two ways.
#[derive(Drop)]
pub(crate) struct Known {
    pub catalog: Catalog,
    pub first: Tables,
    pub second: Tables,
    is_first_staged: bool,
}

impl Known {
    pub fn new(alloc: Global) -> Known {
        Known {
            catalog: no_names(alloc),
            first: Tables::new(alloc),
            second: Tables::new(alloc),
            is_first_staged: true,
        }
    }
}

fn no_names(alloc: Global) -> Catalog {
    Catalog {
        tables: ByName::new(alloc),
        views: ByName::new(alloc),
        scenarios: ByName::new(alloc),
    }
}

/// The table of a CREATE TABLE is there from now on.
pub(crate) fn create_table(known: &mut Known, text: &str, reply: &mut Reply) {
    if let Some(def) = table(&known.catalog, text, reply) {
        add_table(&mut known.first, def, reply);
    }
    if let Some(def) = table(&known.catalog, text, reply) {
        add_table(&mut known.second, def, reply);
    }
    if let Some(def) = table(&known.catalog, text, reply) {
        name_table(&mut known.catalog, def, reply);
    }
}

fn table(known: &Catalog, text: &str, reply: &mut Reply) -> Option<TableDef> {
    let bound = bound(known, text, reply)?;
    reply.read(table_of(bound.into_inner()))
}

fn add_table(tables: &mut Tables, def: TableDef, reply: &mut Reply) {
    if tables.table(def.name.as_str()).is_some() {
        reply.unread();
    } else {
        reply.note(tables.add(def));
    }
}

fn name_table(known: &mut Catalog, def: TableDef, reply: &mut Reply) {
    if known.tables.has(def.name.as_str()) {
        reply.unread();
    } else {
        let TableDef { name, schema } = def;
        reply.note(known.tables.put(TableEntry { name, schema }));
    }
}

/// A table, and behind a tab the statement that changes it: what comes of the change.
pub(crate) fn changed(known: &mut Known, text: &str, reply: &mut Reply) {
    let (name, statement) = cut(text, "\t", reply);
    if let Some(bound) = bound(&known.catalog, statement, reply) {
        if let Some(change) = reply.read(change_of(bound.get())) {
            made_twice(known, name, change, reply);
        }
    }
}

/// A table, and behind a tab the rows that are appended to it.
pub(crate) fn appended(known: &mut Known, text: &str, reply: &mut Reply) {
    let (name, rows) = cut(text, "\t", reply);
    let rows = keys(rows, reply);
    if let Some(table) = reply.made(Words::new(reply.alloc, name)) {
        let change = appending(table, rows);
        made_twice(known, name, &change, reply);
    }
}

fn appending(table: Words, rows: Items<Row>) -> Change {
    Change::Append { table, rows }
}

// Where the new rows would stand, and what comes of the change; where the other way comes to something else, that too.
fn made_twice(known: &mut Known, name: &str, change: &Change, reply: &mut Reply) {
    add_staged(&known.first, change, reply);
    let is_staged = known.is_first_staged;
    known.is_first_staged = !is_staged;
    let mut told = Reply::new(reply.alloc);
    make(&mut known.first, is_staged, name, change, &mut told);
    let mut again = Reply::new(reply.alloc);
    make(&mut known.second, !is_staged, name, change, &mut again);
    told.but(&again);
    reply.join(&told);
}

fn add_staged(tables: &Tables, change: &Change, reply: &mut Reply) {
    if let Some(staged) = reply.found(tables.stage(reply.alloc, change)) {
        add_origins(&staged, reply);
    }
}

/// Where each row stood, a star where it stood nowhere or was updated.
pub(crate) fn add_origins(staged: &Staged, reply: &mut Reply) {
    let Ok(count) = u32::try_from(staged.rows().len()) else {
        reply.unread();
        return;
    };
    for place in 0..count {
        reply.number_or(staged.from(place), "*");
        reply.add(" ");
    }
}

// How many rows are counted, or the line of the refusal; and the rows of the table then.
fn make(tables: &mut Tables, is_staged: bool, name: &str, change: &Change, reply: &mut Reply) {
    let outcome = outcome(reply.alloc, tables, is_staged, change);
    reply.add_if(outcome.is_ok(), ": ");
    add_outcome(&outcome, reply);
    reply.add("\t");
    add_rows_of(tables, name, reply);
}

fn outcome(
    alloc: Global,
    tables: &mut Tables,
    is_staged: bool,
    change: &Change,
) -> Result<u64, Fail<Refused>> {
    if !is_staged {
        return tables.apply(alloc, change);
    }
    let staged = tables.stage(alloc, change)?;
    Ok(tables.commit(staged))
}

/// How many rows are counted, or the line of the refusal.
pub(crate) fn add_outcome(outcome: &Result<u64, Fail<Refused>>, reply: &mut Reply) {
    match outcome {
        Ok(count) => reply.number(*count),
        Err(Fail::Cause(refused)) => reply.refusal(refused),
        Err(Fail::Memory) => reply.is_lacking = true,
    }
}

/// The rows of the table of this name.
pub(crate) fn add_rows_of(tables: &Tables, name: &str, reply: &mut Reply) {
    match tables.rows(name) {
        Some(rows) => reply.keys(rows),
        None => reply.unread(),
    }
}
