//! Calls of the stores of cells, one after the other, made in both.

use crate::answers::Reply;
use crate::stores::{Stored, input_of};
use crate::texts::{cut, name, slot, whole, whole_key};
use mq_cells::{CellCall, replay};
use mq_ir::{CellName, Slot};
use mq_values::{Items, Key, Memory};
use std::alloc::Global;

/// The slots that these calls read, in their order; the calls have semicolons between them.
pub(crate) fn replayed(store: &Stored, text: &str, reply: &mut Reply) {
    let mut calls = Vec::new(reply.alloc);
    for one in text.split(" ; ") {
        let call = call(one, reply);
        reply.note(calls.push(call));
    }
    add_slots(over_plain(reply.alloc, store, &calls), reply);
    let mut again = Reply::new(reply.alloc);
    add_slots(over_owned(again.alloc, store, &calls), &mut again);
    reply.but(&again);
}

fn call(text: &str, reply: &mut Reply) -> CellCall {
    let (word, rest) = cut(text, " ", reply);
    match word {
        "put" => put_call(rest, reply),
        "clear" => CellCall::Clear(name(rest, reply)),
        "get" => CellCall::Get(name(rest, reply)),
        _ => {
            reply.unread();
            CellCall::Get(name(rest, reply))
        }
    }
}

fn put_call(text: &str, reply: &mut Reply) -> CellCall {
    let (place, word) = cut(text, " / ", reply);
    CellCall::Put(name(place, reply), slot(word, reply))
}

fn over_plain(alloc: Global, store: &Stored, calls: &[CellCall]) -> Result<Vec<Slot>, Memory> {
    let mut cells = store.plain(alloc)?;
    replay(alloc, calls, &mut cells)
}

fn over_owned(alloc: Global, store: &Stored, calls: &[CellCall]) -> Result<Vec<Slot>, Memory> {
    let mut cells = store.owned(alloc)?;
    replay(alloc, calls, &mut cells)
}

fn add_slots(slots: Result<Vec<Slot>, Memory>, reply: &mut Reply) {
    if let Some(slots) = reply.made(slots) {
        for (at, slot) in slots.iter().enumerate() {
            reply.add_if(at > 0, " ; ");
            reply.slot(slot);
        }
    }
}

// How many cells there are, and how many calls.
const CELLS: u32 = 20_000;

const CALLS: u32 = 60_000;

/// Calls over 20,000 cells of five dimensions, of which every third is in the input: how many slots were read, and how many of
/// them both stores gave alike.
pub(crate) fn replayed_many(reply: &mut Reply) {
    let mut store = Stored::new(reply.alloc);
    store.input = input_of(many_cells(reply), None);
    let calls = many_calls(reply);
    if let Some(told) = reply.made(over_plain(reply.alloc, &store, &calls)) {
        add_like(&told, &store, &calls, reply);
    }
}

fn add_like(told: &[Slot], store: &Stored, calls: &[CellCall], reply: &mut Reply) {
    if let Some(again) = reply.made(over_owned(reply.alloc, store, calls)) {
        add_alike(told, &again, reply);
    }
}

fn add_alike(told: &[Slot], again: &[Slot], reply: &mut Reply) {
    reply.number(told.len() as u64);
    reply.add(" read, alike ");
    reply.number(alike(told, again));
}

/// How many slots of two lists, place by place, are alike.
pub(crate) fn alike(told: &[Slot], again: &[Slot]) -> u64 {
    let mut count = 0u64;
    for (one, other) in told.iter().zip(again) {
        count = count.saturating_add(u64::from(is_alike(one, other)));
    }
    count
}

fn is_alike(one: &Slot, other: &Slot) -> bool {
    match (one, other) {
        (Slot::Done(v), Slot::Done(w)) => v == w,
        (Slot::Faulted(fault), Slot::Faulted(other)) => fault == other,
        (Slot::Poisoned, Slot::Poisoned) => true,
        _ => false,
    }
}

fn many_cells(reply: &mut Reply) -> Items<(Key, Key)> {
    let mut cells = Items::new(reply.alloc);
    for n in 0..CELLS {
        if n % 3 == 0 {
            let cell = (many_key(n, reply), whole_key(&[n], reply));
            reply.note(cells.push(cell));
        }
    }
    cells
}

// The key of the cell with this number: its digits to the base 7, so keys ascend by the numbers.
fn many_key(n: u32, reply: &mut Reply) -> Key {
    whole_key(
        &[n / 2401, n / 343 % 7, n / 49 % 7, n / 7 % 7, n % 7],
        reply,
    )
}

fn many_calls(reply: &mut Reply) -> Vec<CellCall> {
    let mut calls = Vec::new(reply.alloc);
    for step in 0..CALLS {
        let call = many_call(step, reply);
        reply.note(calls.push(call));
    }
    calls
}

// Of eight calls in a row two put a value, one puts that there is none, one takes away, and four read.
fn many_call(step: u32, reply: &mut Reply) -> CellCall {
    let name = CellName {
        key: many_key(step.wrapping_mul(7919) % CELLS, reply),
        measure: step / 8 % 2,
    };
    match step % 8 {
        0 | 1 => CellCall::Put(name, Slot::Done(whole(step))),
        2 => CellCall::Put(name, Slot::Poisoned),
        3 => CellCall::Clear(name),
        _ => CellCall::Get(name),
    }
}
