//! What a token is for the grammar. It is found once, when the token is read, and the token carries it.

use crate::keywords::Keyword;
use mq_values::{Agg, CmpOp, ProdOp, SumOp};

/// A sign. `<>` and `!=` are one, and so are the signs of one kind of chain.
#[derive(Clone, Copy, PartialEq, Eq)]
pub enum Symbol {
    Open,
    Close,
    OpenSquare,
    CloseSquare,
    Comma,
    Semicolon,
    Point,
    Cmp(CmpOp),
    Sum(SumOp),
    Prod(ProdOp),
}

/// What a token is for the grammar, apart from its text. `Nothing` stands behind the last token.
#[derive(Clone, Copy, PartialEq, Eq)]
pub enum Terminal {
    Word(Keyword),
    Aggregate(Agg),
    Sign(Symbol),
    Name,
    Number,
    Text,
    Bad,
    Nothing,
}
