//! The tokens of a text.

ghost use Rattle.std.specs.Prelude.{◌≡◌, ◌<◌, [], length, map, IfOk, IsUtf8};
ghost use Rattle.std.specs.List.{cons_option, fold};
ghost use Rattle.std.specs.Option.{option_map};
ghost use Rattle.mq_lexer.specs.Lexemes.{lexeme};
ghost use Rattle.mq_lexer.specs.Rests.{tokens_left};
ghost use Rattle.mq_lexer.specs.Statements.{statement_of, statements};
ghost use Rattle.mq_lexer.specs.Tokens as spec;

use crate::classes::class_of;
use crate::pieces::front;
use crate::script::is_semicolon;
use crate::sorts::{Sort, Token};
use mq_values::Memory;
use std::alloc::Global;

// The line behind this, where it begins on the given line.
fn line_behind(line: u32, text: &[u8]) -> u32
    ensures { result ≡ fold spec.line_after line text.now }
{
    let mut now = line;
    for b in text {
        if *b == b'\n' {
            now = now.saturating_add(1);
        }
    }
    now
}

/// What is left of a text, and the line that it begins on.
#[derive(Clone, Copy)]
pub struct Rest<'a> {
    pub text: &'a str,
    pub line: u32,
}

impl<'a> Rest<'a> {
    /// The whole of a text.
    #[tactic(auto, unfolding(crate::specs::Tokens::tokens, crate::specs::Tokens::pieces))]
    pub fn of(text: &'a str) -> Rest<'a>
        ensures tokens { tokens_left result ≡ spec.tokens text.now }
        ensures utf8 { IsUtf8 result.text.now }
    {
        Rest { text, line: 1 }
    }
}

// The token that stands at the front, or none where something that separates tokens does, and what is left behind it.
fn first_token<'a>(rest: Rest<'a>) -> (Option<Token<'a>>, Rest<'a>)
    requires some { 0 < length rest.text.now }
    requires utf8 { IsUtf8 rest.text.now }
    ensures tokens { tokens_left rest.entry ≡ cons_option (option_map lexeme result.0) (tokens_left result.1) }
    ensures shorter { length result.1.text.now < length rest.entry.text.now }
    ensures utf8 { IsUtf8 result.1.text.now }
{
    let piece = front(rest.text.as_bytes());
    let (text, behind) = rest.text.split_at(piece.len);
    let left = Rest {
        text: behind,
        line: line_behind(rest.line, text.as_bytes()),
    };
    match piece.sort {
        Some(sort) => {
            let token = Token {
                sort,
                text,
                line: rest.line,
                terminal: class_of(sort, text),
            };
            (Some(token), left)
        }
        None => (None, left),
    }
}

/// The tokens of a text, in order, each with its line and its class. It refuses nothing: what cannot be read is a token of
/// sort `Bad`. The one error is want of memory. docs/LANGUAGE.md, "Tokens", has the rules.
pub fn tokens(alloc: Global, text: &str) -> Result<Vec<Token<'_>>, Memory>
    ensures { IfOk result (λ v. map lexeme v.items ≡ spec.tokens text.now) }
{
    let mut found = Vec::new(alloc);
    let mut rest = Rest::of(text);
    while !rest.text.is_empty() {
        let (token, left) = first_token(rest);
        if let Some(token) = token {
            found.push(token)?;
        }
        rest = left;
    }
    Ok(found)
}

/// Adds to no token those of the next part of a text, up to the first `;` or to the end, and answers what is left behind that `;`.
/// The one error is want of memory. docs/LANGUAGE.md, "Statements", has the rule.
pub fn next_part<'a>(found: &mut Vec<Token<'a>>, rest: Rest<'a>) -> Result<Rest<'a>, Memory>
    requires none { found.old.items ≡ [] }
    requires utf8 { IsUtf8 rest.text.now }
    ensures part { IfOk result (λ left. statements (tokens_left rest.entry)
        ≡ cons_option (statement_of (map lexeme found.new.items)) (statements (tokens_left left))) }
    ensures shorter { IfOk result (λ left. 0 < length rest.entry.text.now → length left.text.now < length rest.entry.text.now) }
    ensures utf8 { IfOk result (λ left. IsUtf8 left.text.now) }
{
    let mut left = rest;
    while !left.text.is_empty() {
        let (token, behind) = first_token(left);
        left = behind;
        if let Some(token) = token {
            if is_semicolon(token) {
                return Ok(left);
            }
            found.push(token)?;
        }
    }
    Ok(left)
}
