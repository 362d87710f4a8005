//! Base rows of queries over the tables that are there, and the rows that are lent at their places again.

use crate::answers::Reply;
use crate::changes::Known;
use crate::models::{bound, from_of};
use mq_ir::FromPart;
use mq_join::{JoinRow, base_rows, lend_rows};
use mq_tables::Tables;
use mq_values::{Items, Memory};
use std::alloc::Global;

/// A query: its base rows, each with the place and the values of its row of each FROM item; and where the rows that are
/// lent at these places are others, those too.
pub(crate) fn based(known: &Known, text: &str, reply: &mut Reply) {
    if let Some(bound) = bound(&known.catalog, text, reply) {
        if let Some(from) = reply.read(from_of(bound.get())) {
            add_base(from, &known.first, reply);
        }
    }
}

fn add_base(from: &FromPart, tables: &Tables, reply: &mut Reply) {
    let Ok(items) = u32::try_from(from.tables.len()) else {
        reply.unread();
        return;
    };
    match reply.found(base_rows(reply.alloc, from, tables)) {
        Some(rows) => {
            add_rows(&rows, items, reply);
            add_lent(from, &rows, items, tables, reply);
        }
        None => reply.add("fault"),
    }
}

fn add_lent(from: &FromPart, rows: &[JoinRow<'_>], items: u32, tables: &Tables, reply: &mut Reply) {
    let mut again = Reply::new(reply.alloc);
    if let Some(places) = again.made(places_of(reply.alloc, rows, items)) {
        if let Some(lent) = again.made(lend_rows(reply.alloc, from, places.as_slice(), tables)) {
            add_rows(&lent, items, &mut again);
        }
    }
    reply.but(&again);
}

fn places_of(alloc: Global, rows: &[JoinRow<'_>], items: u32) -> Result<Items<Items<u32>>, Memory> {
    let mut all = Items::new(alloc);
    for row in rows {
        all.push(places_in(alloc, row, items)?)?;
    }
    Ok(all)
}

fn places_in(alloc: Global, row: &JoinRow<'_>, items: u32) -> Result<Items<u32>, Memory> {
    let mut places = Items::new(alloc);
    for item in 0..items {
        places.push(row.place(item))?;
    }
    Ok(places)
}

fn add_rows(rows: &[JoinRow<'_>], items: u32, reply: &mut Reply) {
    reply.add_if(rows.is_empty(), "-");
    for (at, row) in rows.iter().enumerate() {
        reply.add_if(at > 0, " ; ");
        add_row(row, items, reply);
    }
}

fn add_row(row: &JoinRow<'_>, items: u32, reply: &mut Reply) {
    for item in 0..items {
        reply.add_if(item > 0, " | ");
        reply.number(u64::from(row.place(item)));
        reply.add(" ");
        reply.values(row.row(item));
    }
}
