//! How deep a statement is (docs/LANGUAGE.md, "The whole language").

ghost use Rattle.std.specs.Prelude.{◌≡◌, ◌↔◌, IsTrue};
ghost use Rattle.mq_parse_words.specs.Reading.{from};
ghost use Rattle.mq_parse_stmt.specs.Depth.{TooDeep, opens, closes};

use mq_ast::{Keyword, Symbol, Terminal};
use mq_lexer::Token;
use mq_parse_words::{terminal_of, token_at};
use mq_values::MAX_DEPTH;

/// Whether among some first tokens more levels than may be are opened and not closed.
pub(crate) fn is_too_deep(t: &[Token<'_>]) -> bool
    ensures { IsTrue result ↔ TooDeep (from t.now 0) }
{
    let mut opened = 0;
    let mut closed = 0;
    let mut at = 0;
    'levels: while let Some(token) = token_at(t, at) {
        let terminal = terminal_of(&token);
        let (opening, closing) = opens_or_closes(terminal);
        opened += opening as usize;
        closed += closing as usize;
        at += 1;
        if opened > MAX_DEPTH && opened - MAX_DEPTH > closed {
            return true;
        }
    }
    false
}

// Whether a token opens a level, and whether it closes one.
fn opens_or_closes(terminal: Terminal) -> (bool, bool)
    ensures opens { result.0 ≡ opens terminal }
    ensures closes { result.1 ≡ closes terminal }
{
    match terminal {
        Terminal::Sign(Symbol::Open | Symbol::OpenSquare) | Terminal::Word(Keyword::Case) => {
            (true, false)
        }
        Terminal::Sign(Symbol::Close | Symbol::CloseSquare) | Terminal::Word(Keyword::End) => {
            (false, true)
        }
        _ => (false, false),
    }
}
