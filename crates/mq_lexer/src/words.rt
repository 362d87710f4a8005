//! Words by their spelling, the reserved words, names and signs. docs/LANGUAGE.md, "Tokens", lists the reserved words.

ghost use Rattle.std.specs.Prelude.{◌≡◌, IfOk};
ghost use Rattle.mq_lexer.specs.Lexemes.{lexeme};
ghost use Rattle.mq_lexer.specs.Words as spec;

use crate::keywords::reserved_word;
use crate::sorts::{Sort, Token};
use mq_values::{Memory, Words};
use std::alloc::Global;

fn same_word(a: &str, b: &str) -> bool
    ensures { result ≡ spec.same_word a.now b.now }
{
    a.eq_ignore_ascii_case(b)
}

/// The text with its ASCII letters as capital letters: names are told apart so (docs/LANGUAGE.md, "Tokens").
pub fn folded(alloc: Global, text: &str) -> Result<Words, Memory>
    ensures { IfOk result (λ w. w ≡ spec.folded text.now) }
{
    let capitals = text.to_ascii_uppercase(alloc)?;
    Words::new(alloc, capitals.as_str())
}

/// Whether a word is reserved, in capital or small letters. A reserved word is never a name.
pub fn is_reserved(word: &str) -> bool
    ensures { result ≡ spec.is_reserved word.now }
{
    reserved_word(word).is_some()
}

fn has_word_sort(sort: Sort) -> bool
    ensures { result ≡ spec.has_word_sort sort }
{
    matches!(sort, Sort::Word)
}

fn has_sign_sort(sort: Sort) -> bool
    ensures { result ≡ spec.has_sign_sort sort }
{
    matches!(sort, Sort::Sign)
}

/// Whether the token is this word, in capital or small letters.
pub fn is_word(token: Token<'_>, word: &str) -> bool
    ensures { result ≡ spec.is_word (lexeme token.entry) word.now }
{
    has_word_sort(token.sort) && same_word(token.text, word)
}

/// Whether the token is this sign.
pub fn is_sign(token: Token<'_>, sign: &str) -> bool
    ensures { result ≡ spec.is_sign (lexeme token.entry) sign.now }
{
    has_sign_sort(token.sort) && token.text == sign
}

/// Whether the token is a name: a word that is not reserved.
pub fn is_name(token: Token<'_>) -> bool
    ensures { result ≡ spec.is_name (lexeme token.entry) }
{
    has_word_sort(token.sort) && !is_reserved(token.text)
}
