//! How this table writes texts, numbers, values, keys and cells. In a text a backslash and two digits of base 16 stand for the
//! character of that number, and a piece and a count with a star between them, in braces, for the piece so many times.
//! What cannot be read is noted, and stands as nothing.

use crate::answers::Reply;
use mq_ir::{CellName, Slot};
use mq_values::{Items, Key, MAX_SCALE, Num, Text, Value, ValueFault};

/// What stands in front of the first separator, and what behind it.
pub(crate) fn cut<'a>(text: &'a str, separator: &str, reply: &mut Reply) -> (&'a str, &'a str) {
    match text.split_once(separator) {
        Some(both) => both,
        None => {
            reply.unread();
            (text, "")
        }
    }
}

pub(crate) fn number_of(digits: &str, reply: &mut Reply) -> u32 {
    match digits.parse::<u32>() {
        Ok(number) => number,
        Err(_) => {
            reply.unread();
            0
        }
    }
}

pub(crate) fn text(field: &str, reply: &mut Reply) -> String {
    let mut text = String::new(reply.alloc);
    match field.split_once('{') {
        Some((front, rest)) => push_repeated(front, rest, &mut text, reply),
        None => push(field, &mut text, reply),
    }
    text
}

fn push_repeated(front: &str, rest: &str, text: &mut String, reply: &mut Reply) {
    let (repeated, end) = cut(rest, "}", reply);
    let (piece, count) = cut(repeated, "*", reply);
    push(front, text, reply);
    for _ in 0..number_of(count, reply) {
        push(piece, text, reply);
    }
    push(end, text, reply);
}

fn push(field: &str, text: &mut String, reply: &mut Reply) {
    for (at, piece) in field.split('\\').enumerate() {
        if at == 0 {
            reply.note(text.push_str(piece));
        } else {
            push_coded(piece, text, reply);
        }
    }
}

// Two digits, with small letters, and what stands behind them.
fn push_coded(piece: &str, text: &mut String, reply: &mut Reply) {
    match (piece.as_bytes(), piece.get(2..)) {
        ([high, low, ..], Some(rest)) => {
            let number = digit(*high).wrapping_mul(16).wrapping_add(digit(*low));
            reply.note(text.push(char::from(number)));
            reply.note(text.push_str(rest));
        }
        _ => reply.unread(),
    }
}

fn digit(sign: u8) -> u8 {
    sign.wrapping_sub(if sign < b'a' { b'0' } else { 87 })
}

/// A value: a number, NULL, or a text between quotes.
pub(crate) fn value(word: &str, reply: &mut Reply) -> Value {
    if word == "NULL" {
        return Value::Null;
    }
    match word.strip_prefix('\'') {
        Some(rest) => quoted(rest, reply),
        None => number(word, reply),
    }
}

fn quoted(rest: &str, reply: &mut Reply) -> Value {
    let (field, _) = cut(rest, "'", reply);
    let found = text(field, reply);
    match Text::new(reply.alloc, found.as_str()) {
        Ok(Some(text)) => Value::Text(text),
        Ok(None) => {
            reply.unread();
            Value::Null
        }
        Err(_) => {
            reply.is_lacking = true;
            Value::Null
        }
    }
}

fn number(word: &str, reply: &mut Reply) -> Value {
    let (whole, part) = word.split_once('.').unwrap_or((word, ""));
    let mut digits = String::new(reply.alloc);
    reply.note(digits.push_str(whole));
    reply.note(digits.push_str(part));
    match (digits.as_str().parse::<i128>(), u8::try_from(part.len())) {
        (Ok(mant), Ok(scale)) if scale <= MAX_SCALE => Value::Num(Num::new(mant, scale)),
        _ => {
            reply.unread();
            Value::Null
        }
    }
}

/// A key: values with a blank between them; none where the text is a dash.
pub(crate) fn key(text: &str, reply: &mut Reply) -> Key {
    let mut values = Items::new(reply.alloc);
    if text != "-" {
        for word in text.split(' ') {
            let v = value(word, reply);
            reply.note(values.push(v));
        }
    }
    shared(values, reply)
}

fn shared(values: Items<Value>, reply: &mut Reply) -> Key {
    match Key::new(reply.alloc, values) {
        Ok(key) => key,
        Err(_) => {
            reply.is_lacking = true;
            Key::empty()
        }
    }
}

/// A whole number.
pub(crate) fn whole(n: u32) -> Value {
    Value::Num(Num::new(i128::from(n), 0))
}

/// A key of whole numbers.
pub(crate) fn whole_key(numbers: &[u32], reply: &mut Reply) -> Key {
    let mut values = Items::new(reply.alloc);
    for n in numbers {
        reply.note(values.push(whole(*n)));
    }
    shared(values, reply)
}

/// Keys with semicolons between them; none where the text is empty.
pub(crate) fn keys(text: &str, reply: &mut Reply) -> Items<Key> {
    let mut found = Items::new(reply.alloc);
    if !text.is_empty() {
        for one in text.split(" ; ") {
            let key = key(one, reply);
            reply.note(found.push(key));
        }
    }
    found
}

/// Cells with semicolons between them: each a key, and behind a slash its measures.
pub(crate) fn cells(text: &str, reply: &mut Reply) -> Items<(Key, Key)> {
    let mut found = Items::new(reply.alloc);
    for one in text.split(" ; ") {
        let (dims, measures) = cut(one, " / ", reply);
        let cell = (key(dims, reply), key(measures, reply));
        reply.note(found.push(cell));
    }
    found
}

/// A measure of a cell: its number, and behind a blank the key.
pub(crate) fn name(text: &str, reply: &mut Reply) -> CellName {
    let (measure, place) = cut(text, " ", reply);
    CellName {
        key: key(place, reply),
        measure: number_of(measure, reply),
    }
}

/// A value, the name of a fault, or that there is no value.
pub(crate) fn slot(word: &str, reply: &mut Reply) -> Slot {
    match word {
        "poisoned" => Slot::Poisoned,
        "OVERFLOW" => Slot::Faulted(ValueFault::Overflow),
        "DIVIDE_BY_ZERO" => Slot::Faulted(ValueFault::DivideByZero),
        "TEXT_TOO_LONG" => Slot::Faulted(ValueFault::TextTooLong),
        "DATE_RANGE" => Slot::Faulted(ValueFault::DateRange),
        _ => Slot::Done(value(word, reply)),
    }
}
