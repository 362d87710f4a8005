//! Changes that are held one over the other and put in at the end, beside the same changes made one by one; and what a change
//! touches.

use crate::answers::Reply;
use crate::changes::{Known, add_origins, add_outcome, add_rows_of};
use crate::models::{bound, change_of};
use crate::texts::cut;
use mq_ir::{Change, Row};
use mq_tables::{Pending, Staged, Tables, Touched};
use mq_values::{Fail, Refused};

/// A table, and behind a tab changes with semicolons between them: what comes of each where it is held over those before it, where
/// the rows of the table stood before, and its rows once all are put in. Where the changes made one by one come to something
/// else, that too.
pub(crate) fn held(known: &mut Known, text: &str, reply: &mut Reply) {
    let (name, statements) = cut(text, "\t", reply);
    let mut pending = Pending::new(reply.alloc);
    let mut again = Reply::new(reply.alloc);
    for statement in statements.split(" ; ") {
        hold(known, &mut pending, statement, reply, &mut again);
    }
    reply.but(&again);
    reply.add("\t");
    put_in(&mut known.first, pending, name, reply);
    reply.add("\t");
    add_both_rows(known, name, reply);
}

// What comes of a change where it is held, and where it is made.
fn hold(
    known: &mut Known,
    pending: &mut Pending,
    statement: &str,
    told: &mut Reply,
    again: &mut Reply,
) {
    if let Some(bound) = bound(&known.catalog, statement, told) {
        if let Some(change) = told.read(change_of(bound.get())) {
            add_next(known.first.hold(told.alloc, pending, change), told);
            add_next(known.second.apply(again.alloc, change), again);
        }
    }
}

// An outcome behind those that were told before.
fn add_next(outcome: Result<u64, Fail<Refused>>, reply: &mut Reply) {
    let is_next = reply.is_begun();
    reply.add_if(is_next, " ; ");
    add_outcome(&outcome, reply);
}

// Puts in what is pending, and tells where the rows of this table stood before.
fn put_in(tables: &mut Tables, pending: Pending, name: &str, reply: &mut Reply) {
    for staged in pending.into_staged() {
        put_table(tables, staged, name, reply);
    }
}

fn put_table(tables: &mut Tables, staged: Staged, name: &str, reply: &mut Reply) {
    if staged.table() == name {
        add_origins(&staged, reply);
    }
    tables.commit(staged);
}

// The rows of the table, and those of the other way, where these are others.
fn add_both_rows(known: &Known, name: &str, reply: &mut Reply) {
    let mut told = Reply::new(reply.alloc);
    add_rows_of(&known.first, name, &mut told);
    let mut again = Reply::new(reply.alloc);
    add_rows_of(&known.second, name, &mut again);
    told.but(&again);
    reply.join(&told);
}

/// A table, and behind a tab a change: the rows that it touches, by their places and as they were, and the rows of the table then.
/// The other tables are changed alike.
pub(crate) fn touched(known: &mut Known, text: &str, reply: &mut Reply) {
    let (name, statement) = cut(text, "\t", reply);
    if let Some(bound) = bound(&known.catalog, statement, reply) {
        if let Some(change) = reply.read(change_of(bound.get())) {
            touch(known, change, reply);
        }
    }
    reply.add("\t");
    add_both_rows(known, name, reply);
}

fn touch(known: &mut Known, change: &Change, reply: &mut Reply) {
    match known.first.change(reply.alloc, change) {
        Ok(touched) => add_touched(&touched, reply),
        Err(refused) => add_next(Err(refused), reply),
    }
    // What the other way answers is told by its rows.
    let _ = reply.found(known.second.apply(reply.alloc, change));
}

fn add_touched(touched: &Touched, reply: &mut Reply) {
    match touched {
        Touched::Added { first, count } => {
            reply.add("added ");
            reply.number(*count as u64);
            reply.add(" behind ");
            reply.number(*first as u64);
        }
        Touched::Replaced(rows) => add_rows("replaced ", rows.as_slice(), reply),
        Touched::Gone { rows, .. } => add_rows("gone ", rows.as_slice(), reply),
    }
}

// Rows as they were, each behind its place.
fn add_rows(word: &str, rows: &[(u32, Row)], reply: &mut Reply) {
    reply.add(word);
    reply.add_if(rows.is_empty(), "-");
    for (at, (place, row)) in rows.iter().enumerate() {
        reply.add_if(at > 0, " ; ");
        reply.number(u64::from(*place));
        reply.add(": ");
        reply.values(row.as_slice());
    }
}
