//! From the sort and the spelling of a token to what it is for the grammar (docs/LANGUAGE.md, "Tokens").

ghost use Rattle.std.specs.Prelude.{◌≡◌, ◌∷◌, []};
ghost use Rattle.mq_lexer.specs.Classes as spec;
ghost use Rattle.mq_lexer.specs.Words.{reserved_of};

use crate::keywords::reserved_word;
use crate::sorts::Sort;
use crate::terminals::{Symbol, Terminal};
use mq_values::{CmpOp, ProdOp, SumOp};

// The sign of one byte.
#[tactic(auto, unfolding(crate::specs::Classes::symbols))]
fn short_symbol(b: u8) -> Option<Symbol>
    ensures { result ≡ spec.symbol_of (b ∷ []) }
{
    match b {
        b'(' => Some(Symbol::Open),
        b')' => Some(Symbol::Close),
        b'[' => Some(Symbol::OpenSquare),
        b']' => Some(Symbol::CloseSquare),
        b',' => Some(Symbol::Comma),
        b';' => Some(Symbol::Semicolon),
        b'.' => Some(Symbol::Point),
        b'=' => Some(Symbol::Cmp(CmpOp::Eq)),
        b'<' => Some(Symbol::Cmp(CmpOp::Lt)),
        b'>' => Some(Symbol::Cmp(CmpOp::Gt)),
        b'+' => Some(Symbol::Sum(SumOp::Add)),
        b'-' => Some(Symbol::Sum(SumOp::Sub)),
        b'*' => Some(Symbol::Prod(ProdOp::Mul)),
        b'/' => Some(Symbol::Prod(ProdOp::Div)),
        _ => None,
    }
}

// The sign of two bytes.
#[tactic(auto, unfolding(crate::specs::Classes::symbols))]
fn long_symbol(b: u8, next: u8) -> Option<Symbol>
    ensures { result ≡ spec.symbol_of (b ∷ next ∷ []) }
{
    match (b, next) {
        (b'<', b'>') => Some(Symbol::Cmp(CmpOp::Ne)),
        (b'!', b'=') => Some(Symbol::Cmp(CmpOp::Ne)),
        (b'<', b'=') => Some(Symbol::Cmp(CmpOp::Le)),
        (b'>', b'=') => Some(Symbol::Cmp(CmpOp::Ge)),
        (b'|', b'|') => Some(Symbol::Sum(SumOp::Join)),
        _ => None,
    }
}

// The sign that is spelled so.
#[tactic(auto, unfolding(crate::specs::Classes::symbols))]
fn symbol(sign: &str) -> Option<Symbol>
    ensures { result ≡ spec.symbol_of sign.now }
{
    match sign.as_bytes() {
        [b] => short_symbol(*b),
        [b, next] => long_symbol(*b, *next),
        _ => None,
    }
}

// A word is reserved or a name.
fn class_of_word(word: &str) -> Terminal
    ensures { result ≡ spec.class_of_word (reserved_of word.now) }
{
    match reserved_word(word) {
        Some(reserved) => reserved,
        None => Terminal::Name,
    }
}

// A sign is one of the table.
fn class_of_sign(sign: &str) -> Terminal
    ensures { result ≡ spec.class_of_sign (spec.symbol_of sign.now) }
{
    match symbol(sign) {
        Some(symbol) => Terminal::Sign(symbol),
        None => Terminal::Bad,
    }
}

/// What a token of this sort and spelling is for the grammar.
pub(crate) fn class_of(sort: Sort, text: &str) -> Terminal
    ensures { result ≡ spec.class_of sort text.now }
{
    match sort {
        Sort::Word => class_of_word(text),
        Sort::Number => Terminal::Number,
        Sort::Text => Terminal::Text,
        Sort::Sign => class_of_sign(text),
        Sort::Bad => Terminal::Bad,
    }
}
