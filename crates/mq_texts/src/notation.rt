//! How trees and bound forms are written: words with a blank between them, and brackets round a node. Want of memory is noted,
//! and told once, where the text is taken.

use mq_ast::Path;
use mq_values::{Items, Kind, Memory, Num, Value, Words, print};
use std::alloc::Global;
use std::fmt::Debug;
use std::io::Write;

/// The text of a form, as far as it is written.
#[derive(Drop)]
pub(crate) struct Notation {
    pub alloc: Global,
    pub text: Vec<u8>,
    /// How many words there are. A bracket that opens counts with the word behind it.
    pub words: usize,
    /// Memory ran out.
    pub is_lacking: bool,
}

/// What can be written.
pub(crate) trait Written {
    fn write(&self, out: &mut Notation);
}

impl Notation {
    pub fn new(alloc: Global) -> Notation {
        Notation {
            alloc,
            text: Vec::new(alloc),
            words: 0,
            is_lacking: false,
        }
    }

    pub fn word(&mut self, word: &str) {
        self.begin();
        self.add(word);
    }

    /// The word where this holds.
    pub fn flag(&mut self, holds: bool, word: &str) {
        if holds {
            self.word(word);
        }
    }

    /// A bracket that opens, and the word of its node.
    pub fn open(&mut self, head: &str) {
        self.begin();
        self.add("(");
        self.add(head);
    }

    /// A bracket that closes.
    pub fn close(&mut self) {
        self.add(")");
    }

    /// A node with its parts in order; nothing where there are none.
    pub fn node<T: Written>(&mut self, head: &str, parts: &[T]) {
        if !parts.is_empty() {
            self.open(head);
            self.all(parts);
            self.close();
        }
    }

    /// A node with one part; nothing where there is none.
    pub fn some<T: Written>(&mut self, head: &str, part: &Option<T>) {
        if let Some(part) = part {
            self.open(head);
            part.write(self);
            self.close();
        }
    }

    /// A node with a name and what belongs to it.
    pub fn pair<N: Written, V: Written>(&mut self, head: &str, name: &N, part: &V) {
        self.open(head);
        name.write(self);
        part.write(self);
        self.close();
    }

    /// Parts one behind the other.
    pub fn all<T: Written>(&mut self, parts: &[T]) {
        for part in parts {
            part.write(self);
        }
    }

    /// A number, or the name of an operator, a kind or a mode, straight behind these signs.
    pub fn add_shown<T: Debug>(&mut self, signs: &str, shown: &T) {
        self.add(signs);
        if write!(self.text, "{shown:?}").is_err() {
            self.is_lacking = true;
        }
    }

    /// The same as a word.
    pub fn show<T: Debug>(&mut self, shown: &T) {
        self.begin();
        self.add_shown("", shown);
    }

    // A blank before each word but the first.
    fn begin(&mut self) {
        if self.words > 0 {
            self.add(" ");
        }
        self.words = self.words.saturating_add(1);
    }

    /// These letters, and no word of their own.
    pub fn add(&mut self, piece: &str) {
        if self.text.extend_from_slice(piece.as_bytes()).is_err() {
            self.is_lacking = true;
        }
    }

    /// Notes whether memory ran out.
    pub fn note(&mut self, done: Result<(), Memory>) {
        if done.is_err() {
            self.is_lacking = true;
        }
    }
}

impl Written for Words {
    fn write(&self, out: &mut Notation) {
        out.word(self.as_str());
    }
}

impl Written for Path {
    fn write(&self, out: &mut Notation) {
        out.begin();
        if let Some(first) = &self.first {
            out.add(first.as_str());
            out.add(".");
        }
        out.add(self.last.as_str());
    }
}

impl Written for Value {
    fn write(&self, out: &mut Notation) {
        out.begin();
        let done = print(self, &mut out.text);
        out.note(done);
    }
}

impl Written for Num {
    fn write(&self, out: &mut Notation) {
        out.begin();
        let done = self.print(&mut out.text);
        out.note(done);
    }
}

impl Written for Kind {
    fn write(&self, out: &mut Notation) {
        out.show(self);
    }
}

impl Written for u32 {
    fn write(&self, out: &mut Notation) {
        out.show(self);
    }
}

/// Expressions or names as a node of their own.
impl<T: Written> Written for Items<T> {
    fn write(&self, out: &mut Notation) {
        out.open("row");
        out.all(self.as_slice());
        out.close();
    }
}

/// Nothing, where there is none.
impl<T: Written> Written for Option<T> {
    fn write(&self, out: &mut Notation) {
        if let Some(part) = self {
            part.write(out);
        }
    }
}

/// What has no part.
impl Written for () {
    fn write(&self, _out: &mut Notation) {}
}
