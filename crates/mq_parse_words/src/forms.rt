//! What kind of expression or test a token begins.

ghost use Rattle.std.specs.Prelude.{◌≡◌};
ghost use Rattle.mq_parse_words.specs.Forms as spec;

use crate::calls::call_of;
use mq_ast::{Keyword, Symbol, Terminal};
use mq_values::{Agg, CmpOp};

/// A primary expression by its first token.
#[derive(Clone, Copy)]
pub enum Form {
    Number,
    Text,
    Null,
    /// DATE, with a text behind it.
    Date,
    Name,
    Brackets,
    Aggregate(Agg),
    Case,
    Cast,
    /// A call with its arguments between brackets, by its word.
    Call(Keyword),
    Round,
    Cv,
    Turn,
    /// No primary expression begins so.
    Other,
}

/// How a test goes on behind its first sum, by the next token.
#[derive(Clone, Copy)]
pub enum Tail {
    Cmp(CmpOp),
    Between,
    In,
    Is,
    Not,
    /// It does not go on.
    Done,
}

/// What a test by IS asks; the flag says that NOT stands in it.
#[derive(Clone, Copy)]
pub enum IsTest {
    Null(bool),
    Present(bool),
    Any,
}

/// How an aggregate goes on behind its word, and up to which place: as COUNT(*), as the cells of a measure up to their
/// bracket, or as values.
#[derive(Clone, Copy)]
pub enum AggHead<'a> {
    All(usize),
    Cells(&'a str, usize),
    Values,
}

fn form_of_word(word: Keyword) -> Form
    ensures { result ≡ spec.form_of (Terminal.Word word) }
{
    if call_of(word).is_some() {
        return Form::Call(word);
    }
    match word {
        Keyword::Null => Form::Null,
        Keyword::Date => Form::Date,
        Keyword::Case => Form::Case,
        Keyword::Cast => Form::Cast,
        Keyword::Previous | Keyword::Presentv | Keyword::Presentnnv => Form::Call(word),
        Keyword::Round => Form::Round,
        Keyword::Cv => Form::Cv,
        Keyword::IterationNumber => Form::Turn,
        _ => Form::Other,
    }
}

fn form_of_sign(sign: Symbol) -> Form
    ensures { result ≡ spec.form_of (Terminal.Sign sign) }
{
    match sign {
        Symbol::Open => Form::Brackets,
        _ => Form::Other,
    }
}

/// The kind of primary expression that a token begins.
pub fn form_of(terminal: Terminal) -> Form
    ensures { result ≡ spec.form_of terminal }
{
    match terminal {
        Terminal::Word(word) => form_of_word(word),
        Terminal::Aggregate(agg) => Form::Aggregate(agg),
        Terminal::Sign(sign) => form_of_sign(sign),
        Terminal::Name => Form::Name,
        Terminal::Number => Form::Number,
        Terminal::Text => Form::Text,
        Terminal::Bad | Terminal::Nothing => Form::Other,
    }
}

fn tail_of_word(word: Keyword) -> Tail
    ensures { result ≡ spec.tail_of (Terminal.Word word) }
{
    match word {
        Keyword::Between => Tail::Between,
        Keyword::In => Tail::In,
        Keyword::Is => Tail::Is,
        Keyword::Not => Tail::Not,
        _ => Tail::Done,
    }
}

fn tail_of_sign(sign: Symbol) -> Tail
    ensures { result ≡ spec.tail_of (Terminal.Sign sign) }
{
    match sign {
        Symbol::Cmp(op) => Tail::Cmp(op),
        _ => Tail::Done,
    }
}

/// How a test goes on with a token behind its first sum.
pub fn tail_of(terminal: Terminal) -> Tail
    ensures { result ≡ spec.tail_of terminal }
{
    match terminal {
        Terminal::Word(word) => tail_of_word(word),
        Terminal::Sign(sign) => tail_of_sign(sign),
        _ => Tail::Done,
    }
}
