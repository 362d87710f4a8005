//! Names, paths, kinds, numbers, texts and dates at a place of a list of tokens.

ghost use Rattle.std.specs.Prelude.{◌≡◌, ◌≢◌, ◌<◌, ◌≤◌, ◌+◌, [], ◌∷◌, length, IfOk, MatchOption, Some, None};
ghost use Rattle.mq_ast.specs.Tokens as tok;
ghost use Rattle.mq_ast.specs.Spelling.{tok_of};
ghost use Rattle.mq_ast.specs.declared.levels.TheConstants as level;
ghost use Rattle.mq_ast.specs.Continuing.{Stops, Not};
ghost use Rattle.mq_ast.specs.GrammarNames.{DayE, PathE, KindE, path_of, scale_of as spec_scale};
ghost use Rattle.mq_ast.specs.GrammarLists.{NameE};
ghost use Rattle.mq_parse_words.specs.Reading.{from, Then, Anywhere, IsRead};
ghost use Rattle.mq_parse_words.specs.Names.{IntE, TextE};

use crate::spelling::{content, number};
use crate::terminals::{behind_sign, behind_word, pass_sign, pass_word, settled, token_at};
use mq_ast::{Keyword, Path, Symbol, Terminal, levels};
use mq_lexer::Token;
use mq_values::{Day, Fail, Kind, Memory, Num, Refused, Text, Words};
use std::alloc::Global;

/// The name at a place, as it is spelled, where one stands there.
pub fn name_at<'a>(t: &[Token<'a>], at: usize) -> Option<&'a str>
    ensures { MatchOption result (Not Terminal.Name (from t.now at)) (λ n. Then (tok.Name n.now) t.now at (at + 1)) }
{
    match token_at(t, at) {
        Some(token) => match token.terminal {
            Terminal::Name => Some(token.text),
            _ => None,
        },
        None => None,
    }
}

/// The number at a place, where one stands there.
pub fn number_at(t: &[Token<'_>], at: usize) -> Option<Num>
    ensures { MatchOption result (Not Terminal.Number (from t.now at)) (λ n. Then (tok.Num n) t.now at (at + 1)) }
{
    match token_at(t, at) {
        Some(token) => match token.terminal {
            Terminal::Number => Some(number(token.text)),
            _ => None,
        },
        None => None,
    }
}

/// The content of the text at a place, where one stands there.
pub fn text_at(alloc: Global, t: &[Token<'_>], at: usize) -> Result<Option<Text>, Memory>
    ensures { IfOk result (λ o. MatchOption o (Not Terminal.Text (from t.now at)) (λ z. Then (tok.Text z) t.now at (at + 1))) }
{
    match token_at(t, at) {
        Some(token) => match token.terminal {
            Terminal::Text => Ok(Some(content(alloc, token.text)?)),
            _ => Ok(None),
        },
        None => Ok(None),
    }
}

/// A name, as it is spelled.
pub fn read_name(alloc: Global, t: &[Token<'_>], at: usize) -> Result<(Words, usize), Fail<Refused>>
    ensures { IsRead NameE Anywhere t.now at result }
{
    match name_at(t, at) {
        Some(name) => Ok((Words::new(alloc, name)?, at + 1)),
        None => Err(Fail::Cause(Refused::Syntax)),
    }
}

/// A text's content, as words.
pub fn read_text(alloc: Global, t: &[Token<'_>], at: usize) -> Result<(Words, usize), Fail<Refused>>
    ensures { IsRead TextE Anywhere t.now at result }
{
    match text_at(alloc, t, at)? {
        Some(text) => Ok((Words::new(alloc, text.as_str())?, at + 1)),
        None => Err(Fail::Cause(Refused::Syntax)),
    }
}

/// A date: a text whose content is a day of the calendar, as it prints (docs/LANGUAGE.md, "Dates"). SYNTAX where another
/// text stands at the place, or none.
pub fn read_day(alloc: Global, t: &[Token<'_>], at: usize) -> Result<(Day, usize), Fail<Refused>>
    ensures { IsRead DayE Anywhere t.now at result }
{
    match text_at(alloc, t, at)? {
        Some(text) => match Day::from_text(text.as_str()) {
            Some(day) => Ok((day, at + 1)),
            None => Err(Fail::Cause(Refused::Syntax)),
        },
        None => Err(Fail::Cause(Refused::Syntax)),
    }
}

/// A number without a point.
pub fn read_int(t: &[Token<'_>], at: usize) -> Result<(Num, usize), Fail<Refused>>
    ensures { IsRead IntE Anywhere t.now at result }
{
    match number_at(t, at) {
        Some(number) => {
            if number.scale() == 0 {
                Ok((number, at + 1))
            } else {
                Err(Fail::Cause(Refused::Syntax))
            }
        }
        None => Err(Fail::Cause(Refused::Syntax)),
    }
}

/// A name, or two with a point between them (docs/LANGUAGE.md, "Expressions").
pub fn read_path(alloc: Global, t: &[Token<'_>], at: usize) -> Result<(Path, usize), Fail<Refused>>
    ensures { IsRead PathE (Stops level.PATH) t.now at result }
{
    let (first, next) = read_name(alloc, t, at)?;
    let Some(second) = behind_sign(t, next, Symbol::Point) else {
        return Ok((short_path(first), next));
    };
    let (last, to) = read_name(alloc, t, second)?;
    settled(t, to, levels::PATH)?;
    Ok((long_path(first, last), to))
}

/// The path of one name.
pub(crate) fn short_path(last: Words) -> Path
    ensures { result ≡ path_of None last }
{
    Path { first: None, last }
}

fn long_path(first: Words, last: Words) -> Path
    ensures { result ≡ path_of (Some first) last }
{
    Path {
        first: Some(first),
        last,
    }
}

/// The scale that a number without a point gives: 255 where it is larger (docs/LANGUAGE.md, "Values").
pub fn scale_of(number: Num) -> u8
    ensures { result ≡ spec_scale number }
{
    let mant = number.mant();
    if mant < 0 {
        0
    } else if mant > 255 {
        255
    } else {
        mant as u8
    }
}

/// INT, DECIMAL with its scale, TEXT or DATE (docs/LANGUAGE.md, "Values").
pub fn read_kind(t: &[Token<'_>], at: usize) -> Result<(Kind, usize), Fail<Refused>>
    ensures { IsRead KindE Anywhere t.now at result }
{
    if let Some(to) = behind_word(t, at, Keyword::Int) {
        return Ok((Kind::Int, to));
    }
    if let Some(to) = behind_word(t, at, Keyword::Text) {
        return Ok((Kind::Text, to));
    }
    if let Some(to) = behind_word(t, at, Keyword::Date) {
        return Ok((Kind::Date, to));
    }
    read_decimal(t, at)
}

// DECIMAL with its scale.
fn read_decimal(t: &[Token<'_>], at: usize) -> Result<(Kind, usize), Fail<Refused>>
    requires int { Not (Terminal.Word Keyword.Int) (from t.now at) }
    requires text { Not (Terminal.Word Keyword.Text) (from t.now at) }
    requires date { Not (Terminal.Word Keyword.Date) (from t.now at) }
    ensures { IsRead KindE Anywhere t.now at result }
{
    let decimal = pass_word(t, at, Keyword::Decimal)?;
    let open = pass_sign(t, decimal, Symbol::Open)?;
    let (scale, end) = read_int(t, open)?;
    let to = pass_sign(t, end, Symbol::Close)?;
    Ok((Kind::Decimal(scale_of(scale)), to))
}
