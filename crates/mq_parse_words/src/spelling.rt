//! Numbers and texts by their spelling.

ghost use Rattle.std.specs.Prelude.{◌≡◌, ◌<◌, ◌≢◌, ◌∷◌, ◌++◌, [], ℕ, List, length, false, OnOk, IfOk, MatchOption, Some};
ghost use Rattle.std.specs.List.{position_or_len, before_first, after_first};
ghost use Rattle.std.specs.Option.{option_map};
ghost use Rattle.std.specs.String.{string_bytes};
ghost use Rattle.mq_values.specs.Bytes.{QUOTE};
ghost use Rattle.mq_lexer.specs.Numbers.{number_of};
ghost use Rattle.mq_ast.specs.Spelling as spec;
ghost use Rattle.mq_parse_words.specs.Quotes.{is_quote};

use mq_lexer::read_number;
use mq_values::{Memory, Num, Text};
use std::alloc::{AllocError, Global};

// What stands before the next quote, and behind it.
fn split_at_quote(text: &str) -> Option<(&str, &str)>
    ensures { MatchOption result (position_or_len is_quote text.now ≡ length text.now)
        (λ p. (p.0.now ≡ before_first is_quote text.now) × (p.1.now ≡ after_first is_quote text.now)
        × (position_or_len is_quote text.now < length text.now)) }
{
    text.split_once('\'')
}

// What stands behind a quote at the front.
fn behind_quote(text: &str) -> Option<&str>
    ensures { MatchOption result ((r : List ℕ) → text.now ≢ QUOTE ∷ r) (λ x. text.now ≡ QUOTE ∷ x.now) }
{
    match text.strip_prefix('\'') {
        Some(rest) => Some(rest),
        None => None,
    }
}

// Puts a piece and a quote behind the content.
fn put_piece(content: &mut String, piece: &str) -> Result<(), AllocError>
    ensures { OnOk result (string_bytes content.new ≡ (string_bytes content.old ++ piece.now) ++ QUOTE ∷ []) }
{
    content.push_str(piece)?;
    content.push('\'')
}

// What stands behind the first quote of a text up to the closing one, with each doubled quote as one.
fn unquoted(alloc: Global, quoted: &str) -> Result<Option<String>, AllocError>
    ensures { IfOk result (λ o. option_map string_bytes o ≡ spec.unquoted false quoted.now) }
{
    let mut content = String::new(alloc);
    let mut rest = quoted;
    while let Some((piece, after)) = split_at_quote(rest) {
        let Some(more) = behind_quote(after) else {
            if after.is_empty() {
                content.push_str(piece)?;
                return Ok(Some(content));
            }
            return Ok(None);
        };
        put_piece(&mut content, piece)?;
        rest = more;
    }
    Ok(None)
}

// The text, or the empty one where it is none or too long.
fn text_or_empty(alloc: Global, content: &str) -> Result<Text, Memory>
    ensures { IfOk result (λ z. z ≡ spec.text_or_empty (Some content.now)) }
{
    match Text::new(alloc, content)? {
        Some(text) => Ok(text),
        None => Ok(Text::empty()),
    }
}

/// The content of the text that is spelled so; empty where it is no text or a text that is too long.
pub(crate) fn content(alloc: Global, spelling: &str) -> Result<Text, Memory>
    ensures { IfOk result (λ z. z ≡ spec.text_or_empty (spec.content_of spelling.now)) }
{
    let Some(quoted) = behind_quote(spelling) else {
        return Ok(Text::empty());
    };
    match unquoted(alloc, quoted)? {
        Some(content) => text_or_empty(alloc, content.as_str()),
        None => Ok(Text::empty()),
    }
}

/// The number that is spelled so; 0 where it is none or passes a limit.
pub(crate) fn number(spelling: &str) -> Num
    ensures { result ≡ spec.number_or_zero (number_of spelling.now) }
{
    match read_number(spelling) {
        Some(number) => number,
        None => Num::new(0, 0),
    }
}
