//! What a token is.

use crate::terminals::Terminal;

/// What kind of token it is. A part of the text that cannot be read is a token of sort `Bad`.
/// docs/LANGUAGE.md, "Tokens", has the spelling of each.
#[derive(Clone, Copy, Debug, PartialEq, Eq)]
pub enum Sort {
    Word,
    Number,
    Text,
    Sign,
    Bad,
}

/// A token: its bytes in the source, the line of the first of them, counted from 1, and what it is for the grammar.
#[derive(Clone, Copy)]
pub struct Token<'a> {
    pub sort: Sort,
    pub text: &'a str,
    pub line: u32,
    pub terminal: Terminal,
}

/// What stands at the front of a text: a token of this sort, or what separates tokens where there is none,
/// and its length in bytes.
#[derive(Clone, Copy)]
pub(crate) struct Front {
    pub(crate) sort: Option<Sort>,
    pub(crate) len: usize,
}
