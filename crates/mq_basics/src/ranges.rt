//! An index of keys, and its ranges: the places of the keys that meet a test of each dimension.

use crate::answers::Reply;
use crate::texts::{cut, key, number_of, value, whole_key};
use mq_dim_index::DimIndex;
use mq_values::{CmpOp, DimTest, Items, Memory};
use std::alloc::Global;

/// An index without keys.
pub(crate) fn no_keys(alloc: Global) -> Result<DimIndex, Memory> {
    DimIndex::new(alloc, &[])
}

/// The index has no keys from now on.
pub(crate) fn clear(index: &mut DimIndex, reply: &mut Reply) {
    if let Some(empty) = reply.made(no_keys(reply.alloc)) {
        *index = empty;
    }
}

/// The place of a key in the index.
pub(crate) fn find(index: &DimIndex, text: &str, reply: &mut Reply) {
    let key = key(text, reply);
    reply.number_or(index.find(key.as_slice()), "none");
}

/// The keys once this one is put there.
pub(crate) fn insert(index: &mut DimIndex, text: &str, reply: &mut Reply) {
    let key = key(text, reply);
    reply.note(index.insert(key));
    reply.keys(index.keys());
}

/// The keys once this one is taken away.
pub(crate) fn remove(index: &mut DimIndex, text: &str, reply: &mut Reply) {
    let key = key(text, reply);
    index.remove(&key);
    reply.keys(index.keys());
}

/// The places of the keys of the index that meet these tests, which have semicolons between them: found without a map, and
/// with maps of the second and the third dimension.
pub(crate) fn ranged(index: &DimIndex, text: &str, reply: &mut Reply) {
    let mut tests = Vec::new(reply.alloc);
    for one in text.split(" ; ") {
        let test = test_of(one, reply);
        reply.note(tests.push(test));
    }
    add_range(index, &tests, reply);
    let mut again = Reply::new(reply.alloc);
    if let Some(mapped) = again.made(mapped(reply.alloc, index)) {
        add_range(&mapped, &tests, &mut again);
    }
    reply.but(&again);
}

fn mapped(alloc: Global, index: &DimIndex) -> Result<DimIndex, Memory> {
    let mut mapped = DimIndex::new(alloc, index.keys())?;
    mapped.map_dimension(alloc, 1)?;
    mapped.map_dimension(alloc, 2)?;
    Ok(mapped)
}

fn add_range(index: &DimIndex, tests: &[DimTest], reply: &mut Reply) {
    if let Some(places) = reply.made(index.in_range(reply.alloc, tests)) {
        add_places(&places, reply);
    }
}

fn add_places(places: &[u32], reply: &mut Reply) {
    reply.add_if(places.is_empty(), "-");
    for (at, place) in places.iter().enumerate() {
        reply.add_if(at > 0, " ");
        reply.number(u64::from(*place));
    }
}

fn test_of(text: &str, reply: &mut Reply) -> DimTest {
    match text {
        "ANY" => DimTest::Any,
        "NULL" => DimTest::Null,
        _ => test_with(text, reply),
    }
}

fn test_with(text: &str, reply: &mut Reply) -> DimTest {
    let (word, rest) = cut(text, " ", reply);
    match word {
        "IS" => DimTest::At(value(rest, reply)),
        "IN" => in_list(rest, reply),
        "BETWEEN" => between(rest, reply),
        _ => DimTest::Cmp(operator(word, reply), value(rest, reply)),
    }
}

fn between(text: &str, reply: &mut Reply) -> DimTest {
    let (low, high) = cut(text, " ", reply);
    DimTest::Between(value(low, reply), value(high, reply))
}

fn in_list(text: &str, reply: &mut Reply) -> DimTest {
    let mut values = Items::new(reply.alloc);
    for word in text.split(' ') {
        let v = value(word, reply);
        reply.note(values.push(v));
    }
    DimTest::In(values)
}

fn operator(word: &str, reply: &mut Reply) -> CmpOp {
    match word {
        "=" => CmpOp::Eq,
        "<" => CmpOp::Lt,
        "<=" => CmpOp::Le,
        ">" => CmpOp::Gt,
        ">=" => CmpOp::Ge,
        _ => {
            reply.unread();
            CmpOp::Eq
        }
    }
}

/// So many keys of three values, of which the last two are the number's digits to the base 10 and the first is what stands in
/// front of them; they come in no order.
pub(crate) fn fill(index: &mut DimIndex, text: &str, reply: &mut Reply) {
    let count = number_of(text, reply);
    clear(index, reply);
    if count == 0 {
        return;
    }
    reply.note(index.map_dimension(reply.alloc, 2));
    for step in 0..count {
        let n = step.wrapping_mul(7) % count;
        let key = whole_key(&[n / 100, n / 10 % 10, n % 10], reply);
        reply.note(index.insert(key));
    }
}
