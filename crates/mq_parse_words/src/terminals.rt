//! What stands at a place of a list of tokens.

ghost use Rattle.std.specs.Prelude.{◌≡◌, ◌≢◌, ◌↔◌, ◌<◌, ◌≤◌, ◌+◌, [], ◌∷◌, length, IsTrue, MatchOption, MatchResult};
ghost use Rattle.mq_lexer.specs.declared.keywords.Keyword.{Keyword};
ghost use Rattle.mq_lexer.specs.declared.terminals.Symbol.{Symbol};
ghost use Rattle.mq_ast.specs.Tokens.{Word, Sign, terminal_at};
ghost use Rattle.mq_ast.specs.Spelling.{tok_of};
ghost use Rattle.mq_ast.specs.Continuing.{loose, Stops, Not};
ghost use Rattle.mq_parse_words.specs.Reading.{from, Then, Fails};

use mq_ast::{Keyword, Symbol, Terminal, levels};
use mq_lexer::Token;
use mq_values::{Fail, Refused};

/// What a token is for the grammar (docs/LANGUAGE.md, "Tokens").
#[tactic(auto, using(crate::specs::TokenLemmas::carried))]
pub fn terminal_of(token: &Token<'_>) -> Terminal
    ensures { result ≡ terminal_at (tok_of token.now ∷ []) }
{
    match token.terminal {
        Terminal::Nothing => Terminal::Bad,
        terminal => terminal,
    }
}

/// The token at a place, where one is there.
pub fn token_at<'a>(t: &[Token<'a>], at: usize) -> Option<Token<'a>>
    ensures { MatchOption result (from t.now at ≡ []) (λ k. (at < length t.now) × (from t.now at ≡ tok_of k ∷ from t.now (at + 1))) }
{
    t.get(at).copied()
}

/// What the token at a place is; `Terminal::Nothing` behind the last token.
pub fn terminal(t: &[Token<'_>], at: usize) -> Terminal
    ensures kind { result ≡ terminal_at (from t.now at) }
    ensures inside { result ≢ Terminal.Nothing → at < length t.now }
{
    match token_at(t, at) {
        Some(token) => terminal_of(&token),
        None => Terminal::Nothing,
    }
}

// The reserved word at a place, where one stands there.
fn word_at(t: &[Token<'_>], at: usize) -> Option<Keyword>
    ensures { MatchOption result ((k : Keyword) → Not (Terminal.Word k) (from t.now at))
        (λ k. (at < length t.now) × (terminal_at (from t.now at) ≡ Terminal.Word k)) }
{
    match terminal(t, at) {
        Terminal::Word(word) => Some(word),
        _ => None,
    }
}

/// The sign at a place, where one stands there.
pub fn sign_at(t: &[Token<'_>], at: usize) -> Option<Symbol>
    ensures { MatchOption result ((s : Symbol) → Not (Terminal.Sign s) (from t.now at))
        (λ s. (at < length t.now) × (terminal_at (from t.now at) ≡ Terminal.Sign s)) }
{
    match terminal(t, at) {
        Terminal::Sign(sign) => Some(sign),
        _ => None,
    }
}

// Whether two keywords are the same.
fn same_word(a: Keyword, b: Keyword) -> bool
    ensures { IsTrue result ↔ (a ≡ b) }
{
    a == b
}

/// The place behind this reserved word, where it stands at a place.
#[tactic(auto, using(crate::specs::TokenLemmas::word_next))]
pub fn behind_word(t: &[Token<'_>], at: usize, word: Keyword) -> Option<usize>
    ensures { MatchOption result (Not (Terminal.Word word) (from t.now at)) (Then (Word word) t.now at) }
{
    match word_at(t, at) {
        Some(found) if same_word(found, word) => Some(at + 1),
        _ => None,
    }
}

/// The place behind this sign, where it stands at a place.
#[tactic(auto, using(crate::specs::TokenLemmas::sign_next))]
pub fn behind_sign(t: &[Token<'_>], at: usize, sign: Symbol) -> Option<usize>
    ensures { MatchOption result (Not (Terminal.Sign sign) (from t.now at)) (Then (Sign sign) t.now at) }
{
    match sign_at(t, at) {
        Some(found) if found == sign => Some(at + 1),
        _ => None,
    }
}

/// The place behind this reserved word. SYNTAX where it does not stand at the place.
pub fn pass_word(t: &[Token<'_>], at: usize, word: Keyword) -> Result<usize, Fail<Refused>>
    ensures { MatchResult result (Then (Word word) t.now at) (λ f. Fails f (Not (Terminal.Word word) (from t.now at))) }
{
    match behind_word(t, at, word) {
        Some(next) => Ok(next),
        None => Err(Fail::Cause(Refused::Syntax)),
    }
}

/// The place behind this sign. SYNTAX where it does not stand at the place.
pub fn pass_sign(t: &[Token<'_>], at: usize, sign: Symbol) -> Result<usize, Fail<Refused>>
    ensures { MatchResult result (Then (Sign sign) t.now at) (λ f. Fails f (Not (Terminal.Sign sign) (from t.now at))) }
{
    match behind_sign(t, at, sign) {
        Some(next) => Ok(next),
        None => Err(Fail::Cause(Refused::Syntax)),
    }
}

// How loosely a reserved word goes on what stands before it.
fn looseness_of_word(word: Keyword) -> u8
    ensures { result ≡ loose (Terminal.Word word) }
{
    match word {
        Keyword::Between | Keyword::In | Keyword::Is | Keyword::Not => levels::TEST,
        Keyword::And => levels::CONJUNCTION,
        Keyword::Or => levels::EXPRESSION,
        Keyword::As => levels::ITEM,
        Keyword::Join | Keyword::Inner | Keyword::Cross | Keyword::On => levels::SOURCES,
        Keyword::Where => levels::FILTERED,
        Keyword::Group => levels::PLAIN,
        Keyword::Model | Keyword::Order | Keyword::Asc | Keyword::Desc => levels::QUERY,
        _ => levels::NONE,
    }
}

// How loosely a sign goes on what stands before it.
fn looseness_of_sign(sign: Symbol) -> u8
    ensures { result ≡ loose (Terminal.Sign sign) }
{
    match sign {
        Symbol::Point => levels::PATH,
        Symbol::Open | Symbol::OpenSquare => levels::PRIMARY,
        Symbol::Prod(_) => levels::PRODUCT,
        Symbol::Sum(_) => levels::SUM,
        Symbol::Cmp(_) => levels::TEST,
        Symbol::Comma => levels::SOURCES,
        Symbol::Close | Symbol::CloseSquare | Symbol::Semicolon => levels::NONE,
    }
}

/// How loosely a token goes on what stands before it (docs/LANGUAGE.md, "Expressions").
pub fn looseness(terminal: Terminal) -> u8
    ensures { result ≡ loose terminal }
{
    match terminal {
        Terminal::Word(word) => looseness_of_word(word),
        Terminal::Sign(sign) => looseness_of_sign(sign),
        Terminal::Name => levels::ITEM,
        Terminal::Aggregate(_)
        | Terminal::Number
        | Terminal::Text
        | Terminal::Bad
        | Terminal::Nothing => levels::NONE,
    }
}

/// Whether no token stands at the place that goes on at this level.
pub fn stops(t: &[Token<'_>], at: usize, level: u8) -> bool
    ensures { IsTrue result ↔ Stops level (from t.now at) }
{
    looseness(terminal(t, at)) > level
}

/// Nothing, where no token stands at the place that goes on at this level; else SYNTAX.
pub fn settled(t: &[Token<'_>], at: usize, level: u8) -> Result<(), Fail<Refused>>
    ensures { MatchResult result (λ _. Stops level (from t.now at)) (λ f. Fails f (loose (terminal_at (from t.now at)) ≤ level)) }
{
    if stops(t, at, level) {
        Ok(())
    } else {
        Err(Fail::Cause(Refused::Syntax))
    }
}
