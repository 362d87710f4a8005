//! The statements of a token list.

ghost use Rattle.std.specs.Prelude.{◌≡◌, ◌<◌, ◌≤◌, ◌+◌, [], ◌∷◌, length, map, drop, IfOk, MatchOption};
ghost use Rattle.std.specs.List.{prefix_len};
ghost use Rattle.std.specs.Option.{option_map};
ghost use Rattle.mq_lexer.specs.Lexemes.{lexeme};
ghost use Rattle.mq_lexer.specs.Statements as spec;

use crate::sorts::Token;
use crate::terminals::{Symbol, Terminal};
use mq_values::Memory;
use std::alloc::Global;

/// A statement: its tokens, lent by the token list, and the line of the first of them.
#[derive(Clone, Copy)]
pub struct Statement<'t, 'a> {
    pub tokens: &'t [Token<'a>],
    pub line: u32,
}

pub(crate) fn is_semicolon(token: Token<'_>) -> bool
    ensures { result ≡ spec.is_semicolon (lexeme token.entry) }
{
    matches!(token.terminal, Terminal::Sign(Symbol::Semicolon))
}

// The first place from this one on where no `;` stands.
fn past_semicolons(tokens: &[Token<'_>], at: usize) -> usize
    requires { at ≤ length tokens.now }
    ensures value { result ≡ at + prefix_len spec.is_break (drop at tokens.now) }
    ensures within { (at ≤ result) × (result ≤ length tokens.now) }
{
    let mut from = at;
    while from < tokens.len() && is_semicolon(tokens[from]) {
        from += 1;
    }
    from
}

// The first place from this one on where a `;` stands, or the end.
fn next_semicolon(tokens: &[Token<'_>], at: usize) -> usize
    requires { at ≤ length tokens.now }
    ensures value { result ≡ at + prefix_len spec.is_no_break (drop at tokens.now) }
    ensures within { (at ≤ result) × (result ≤ length tokens.now) }
{
    let mut end = at;
    while end < tokens.len() && !is_semicolon(tokens[end]) {
        end += 1;
    }
    end
}

/// The statement that tokens are which lie between `;` signs; none where there is no token.
pub fn as_statement<'t, 'a>(tokens: &'t [Token<'a>]) -> Option<Statement<'t, 'a>>
    ensures { option_map spec.statement result ≡ spec.statement_of (map lexeme tokens.now) }
{
    let first = tokens.first()?;
    Some(Statement {
        tokens,
        line: first.line,
    })
}

/// The first statement from a place on, and the place behind it; none where only `;` signs are left.
/// docs/LANGUAGE.md, "Statements", has the rule.
pub fn next_statement<'t, 'a>(
    tokens: &'t [Token<'a>],
    at: usize,
) -> Option<(Statement<'t, 'a>, usize)>
    requires { at ≤ length tokens.now }
    ensures { spec.Next (map lexeme tokens.now) at result }
{
    let from = past_semicolons(tokens, at);
    let end = next_semicolon(tokens, from);
    if from == end {
        return None;
    }
    let statement = Statement {
        tokens: &tokens[from..end],
        line: tokens[from].line,
    };
    Some((statement, end))
}

/// The statements: the lists of tokens between `;` signs, in order, empty ones left out. The tokens behind the
/// last `;` are a statement too. The one error is want of memory. docs/LANGUAGE.md, "Statements", has the rule.
pub fn statements<'t, 'a>(
    alloc: Global,
    tokens: &'t [Token<'a>],
) -> Result<Vec<Statement<'t, 'a>>, Memory>
    ensures { IfOk result (λ v. map spec.statement v.items ≡ spec.statements (map lexeme tokens.now)) }
{
    let mut found = Vec::new(alloc);
    let mut at = 0;
    while let Some((statement, end)) = next_statement(tokens, at) {
        found.push(statement)?;
        at = end;
    }
    Ok(found)
}
