//! How values print, compare and are found, and that their copies are the same.

use crate::answers::Reply;
use crate::texts::{cut, key, keys, value};
use mq_values::{Boxed, Items, Key, Memory, Value, Words, cmp_sql, cmp_total};
use std::alloc::Global;
use std::cmp::Ordering;
use std::collections::HashMap;

/// A value as it is printed, behind what stood in the buffer before; whether it is null; and copies that are not the same.
pub(crate) fn printed(text: &str, reply: &mut Reply) {
    let v = value(text, reply);
    let mut out = Reply::new(reply.alloc);
    out.add("> ");
    out.value(&v);
    reply.bytes(&out.text);
    reply.heed(&out);
    reply.add_if(v.is_null(), " is null");
    add_copies(&v, reply);
    if let Some(words) = reply.made(Words::new(reply.alloc, text)) {
        add_clone(&words, reply);
    }
}

// That a copy of the value, of a box, a list or a key of it is something else, where it is.
fn add_copies(v: &Value, reply: &mut Reply) {
    add_changed(v.copy(), v, reply);
    add_clone(v, reply);
    if let Some(boxed) = reply.made(boxed(reply.alloc, v)) {
        add_clone(&boxed, reply);
    }
    if let Some(items) = reply.made(items(reply.alloc, v)) {
        add_clone(&items, reply);
    }
    if let Some(key) = reply.made(key_of(reply.alloc, v)) {
        add_changed(one_key(reply.alloc, v), &key, reply);
        add_clone(&key, reply);
    }
}

fn boxed(alloc: Global, v: &Value) -> Result<Boxed<Value>, Memory> {
    Boxed::new(alloc, v.copy()?)
}

fn items(alloc: Global, v: &Value) -> Result<Items<Value>, Memory> {
    let mut items = Items::new(alloc);
    items.push(v.copy()?)?;
    Ok(items)
}

fn key_of(alloc: Global, v: &Value) -> Result<Key, Memory> {
    Key::new(alloc, items(alloc, v)?)
}

fn one_key(alloc: Global, v: &Value) -> Result<Key, Memory> {
    Key::one(alloc, v.copy()?)
}

// That a clone is something else, where it is. Generic, so that it is proved once.
fn add_clone<T: Clone + PartialEq + Drop>(item: &T, reply: &mut Reply) {
    match item.clone() {
        Ok(copy) => reply.add_if(copy != *item, " changed"),
        Err(_) => reply.is_lacking = true,
    }
}

fn add_changed<T: PartialEq + Drop>(copy: Result<T, Memory>, item: &T, reply: &mut Reply) {
    match copy {
        Ok(copy) => reply.add_if(copy != *item, " changed"),
        Err(_) => reply.is_lacking = true,
    }
}

fn sign(order: Ordering) -> &'static str {
    if order.is_eq() {
        "="
    } else if order.is_lt() {
        "<"
    } else {
        ">"
    }
}

/// Two values: how they compare in a statement, in the total order, in that order the other way round, and whether they are the same.
pub(crate) fn compared(text: &str, reply: &mut Reply) {
    let (a, b) = cut(text, "\t", reply);
    let a = value(a, reply);
    let b = value(b, reply);
    match cmp_sql(&a, &b) {
        Some(order) => reply.add(sign(order)),
        None => reply.add("none"),
    }
    reply.add(sign(cmp_total(&a, &b)));
    reply.add(sign(b.cmp(&a)));
    reply.add_if(a == b, " same");
}

/// How each key compares to all of them.
pub(crate) fn ordered(text: &str, reply: &mut Reply) {
    let all = keys(text, reply);
    for (at, a) in all.as_slice().iter().enumerate() {
        reply.add_if(at > 0, " ");
        add_signs(a, all.as_slice(), reply);
    }
}

fn add_signs(a: &Key, all: &[Key], reply: &mut Reply) {
    for b in all {
        reply.add(sign(a.cmp(b)));
    }
}

/// Keys and a key, with a tab between: the place of the last that is the same, as a hash map has it.
pub(crate) fn found(text: &str, reply: &mut Reply) {
    let (all, one) = cut(text, "\t", reply);
    let all = keys(all, reply);
    let one = key(one, reply);
    if let Some(map) = reply.made(map_of(reply.alloc, all)) {
        reply.number_or(map.get(&one).copied(), "none");
    }
}

fn map_of(alloc: Global, all: Items<Key>) -> Result<HashMap<Key, u32>, Memory> {
    let mut map: HashMap<Key, u32> = HashMap::new(alloc);
    let mut at: u32 = 0;
    for key in all.into_vec() {
        map.insert(key, at)?;
        at = at.wrapping_add(1);
    }
    Ok(map)
}
