//! How answers are written. What stands in the way of one is noted and told once, where the row ends, so that what writes or reads
//! has no other way out.

use mq_ir::Slot;
use mq_render::refusal_text;
use mq_values::{Fail, Key, Memory, Num, Refused, Value, ValueFault, print};
use std::alloc::Global;

/// The answer to a row, as far as it is written.
#[derive(Drop)]
pub(crate) struct Reply {
    pub alloc: Global,
    pub text: Vec<u8>,
    /// Memory ran out.
    pub is_lacking: bool,
    /// The row cannot be read.
    pub is_unreadable: bool,
}

impl Reply {
    pub fn new(alloc: Global) -> Reply {
        Reply {
            alloc,
            text: Vec::new(alloc),
            is_lacking: false,
            is_unreadable: false,
        }
    }

    /// Notes that the row cannot be read.
    pub fn unread(&mut self) {
        self.is_unreadable = true;
    }

    /// What was found; where there is nothing, the row cannot be read.
    pub fn read<T>(&mut self, found: Option<T>) -> Option<T> {
        if found.is_none() {
            self.is_unreadable = true;
        }
        found
    }

    /// Notes whether memory ran out.
    pub fn note<E: Drop>(&mut self, done: Result<(), E>) {
        if done.is_err() {
            self.is_lacking = true;
        }
    }

    /// What was made, or `None` where memory ran out, which is noted.
    pub fn made<T: Drop>(&mut self, made: Result<T, Memory>) -> Option<T> {
        match made {
            Ok(made) => Some(made),
            Err(_) => {
                self.is_lacking = true;
                None
            }
        }
    }

    /// What was found, or `None` where there is a cause why not, or memory ran out, which is noted.
    pub fn found<T: Drop, E: Drop>(&mut self, found: Result<T, Fail<E>>) -> Option<T> {
        match found {
            Ok(found) => Some(found),
            Err(Fail::Cause(_)) => None,
            Err(Fail::Memory) => {
                self.is_lacking = true;
                None
            }
        }
    }

    /// Whether something is written.
    pub fn is_begun(&self) -> bool {
        !self.text.is_empty()
    }

    pub fn add(&mut self, text: &str) {
        self.add_all(text.as_bytes());
    }

    fn add_all(&mut self, bytes: &[u8]) {
        if self.text.extend_from_slice(bytes).is_err() {
            self.is_lacking = true;
        }
    }

    fn add_byte(&mut self, byte: u8) {
        if self.text.push(byte).is_err() {
            self.is_lacking = true;
        }
    }

    /// Adds the word where it is so.
    pub fn add_if(&mut self, is: bool, word: &str) {
        if is {
            self.add(word);
        }
    }

    /// Adds what another reply says.
    pub fn join(&mut self, other: &Reply) {
        self.add_all(&other.text);
        self.heed(other);
    }

    /// Adds what another call gave, where that is something else.
    pub fn but(&mut self, again: &Reply) {
        if self.text.as_slice() != again.text.as_slice() {
            self.add(" but ");
            self.add_all(&again.text);
        }
        self.heed(again);
    }

    /// What stands in the way of another reply stands in the way of this one.
    pub fn heed(&mut self, other: &Reply) {
        self.is_lacking |= other.is_lacking;
        self.is_unreadable |= other.is_unreadable;
    }

    pub fn number(&mut self, number: u64) {
        self.value(&Value::Num(Num::new(number as i128, 0)));
    }

    /// Adds the number, or the word for none.
    pub fn number_or(&mut self, number: Option<u32>, none: &str) {
        match number {
            Some(number) => self.number(u64::from(number)),
            None => self.add(none),
        }
    }

    pub fn value(&mut self, v: &Value) {
        let done = print(v, &mut self.text);
        self.note(done);
    }

    /// Adds values with blanks between them.
    pub fn values(&mut self, values: &[Value]) {
        for (at, v) in values.iter().enumerate() {
            self.add_if(at > 0, " ");
            self.value(v);
        }
    }

    /// Adds keys with semicolons between them, or a dash.
    pub fn keys(&mut self, keys: &[Key]) {
        self.add_if(keys.is_empty(), "-");
        for (at, key) in keys.iter().enumerate() {
            self.add_if(at > 0, " ; ");
            self.values(key.as_slice());
        }
    }

    /// Adds a value, the name of a fault, or that there is no value.
    pub fn slot(&mut self, slot: &Slot) {
        match slot {
            Slot::Done(v) => self.value(v),
            Slot::Faulted(fault) => self.add(fault_word(*fault)),
            Slot::Poisoned => self.add("poisoned"),
        }
    }

    /// Adds the bytes, with control characters and backslashes by their numbers.
    pub fn bytes(&mut self, bytes: &[u8]) {
        for byte in bytes {
            if *byte < 32 || *byte == 127 || *byte == b'\\' {
                self.add_byte(b'\\');
                self.add_byte(DIGITS[usize::from(*byte / 16)]);
                self.add_byte(DIGITS[usize::from(*byte % 16)]);
            } else {
                self.add_byte(*byte);
            }
        }
    }

    /// Adds the line of a refusal in line 1, without its end.
    pub fn refusal(&mut self, refused: &Refused) {
        let done = refusal_text(1, refused, &mut self.text);
        self.note(done);
        self.text.pop();
    }
}

fn fault_word(fault: ValueFault) -> &'static str {
    match fault {
        ValueFault::Overflow => "OVERFLOW",
        ValueFault::DivideByZero => "DIVIDE_BY_ZERO",
        ValueFault::TextTooLong => "TEXT_TOO_LONG",
        ValueFault::DateRange => "DATE_RANGE",
    }
}

const DIGITS: &[u8; 16] = b"0123456789abcdef";
