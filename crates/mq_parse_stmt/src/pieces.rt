//! Parts that several statements share.

ghost use Rattle.std.specs.Prelude.{◌≡◌, ◌≢◌, [], MatchResult};
ghost use Rattle.mq_ast.specs.Prelude.{NamesE};
ghost use Rattle.mq_parse_words.specs.Reading.{from, Anywhere, Fails, IsRead};
ghost use Rattle.mq_parse_stmt.specs.Pieces.{WordName};
ghost use Rattle.mq_parse_stmt.specs.Results.{Ended, beside as spec_beside};

use mq_ast::{Keyword, Symbol};
use mq_lexer::Token;
use mq_parse_query::{Naming, read_list};
use mq_parse_words::{pass_sign, pass_word, read_name, token_at};
use mq_values::{Fail, Items, Refused, Words};
use std::alloc::Global;

/// Names between brackets, with commas between them.
pub(crate) fn read_names(
    alloc: Global,
    t: &[Token<'_>],
    at: usize,
) -> Result<(Items<Words>, usize), Fail<Refused>>
    ensures { IsRead NamesE Anywhere t.now at result }
{
    let open = pass_sign(t, at, Symbol::Open)?;
    let (list, end) = read_list::<Naming>(alloc, t, open)?;
    let to = pass_sign(t, end, Symbol::Close)?;
    Ok((list, to))
}

/// The name behind a word.
pub(crate) fn read_word_name(
    alloc: Global,
    t: &[Token<'_>],
    at: usize,
    word: Keyword,
) -> Result<(Words, usize), Fail<Refused>>
    ensures { IsRead (WordName word) Anywhere t.now at result }
{
    let behind = pass_word(t, at, word)?;
    let (name, to) = read_name(alloc, t, behind)?;
    Ok((name, to))
}

/// What was read, where it ends behind the last token; SYNTAX where it does not.
pub(crate) fn last<T: Drop>(
    t: &[Token<'_>],
    found: Result<(T, usize), Fail<Refused>>,
) -> Result<T, Fail<Refused>>
    ensures { Ended t.now found result }
{
    let (tree, to) = found?;
    match token_at(t, to) {
        Some(_) => Err(Fail::Cause(Refused::Syntax)),
        None => Ok(tree),
    }
}

/// What was read, with a part that was read before it.
pub(crate) fn beside<A: Drop, B: Drop>(
    first: A,
    found: Result<(B, usize), Fail<Refused>>,
) -> Result<((A, B), usize), Fail<Refused>>
    ensures { result ≡ spec_beside first found }
{
    let (second, to) = found?;
    Ok(((first, second), to))
}

/// Nothing, where no token stands at a place; SYNTAX where one does.
pub(crate) fn ended(t: &[Token<'_>], at: usize) -> Result<(), Fail<Refused>>
    ensures { MatchResult result (λ _. from t.now at ≡ []) (λ f. Fails f (from t.now at ≢ [])) }
{
    match token_at(t, at) {
        Some(_) => Err(Fail::Cause(Refused::Syntax)),
        None => Ok(()),
    }
}
