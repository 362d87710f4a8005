//! What stands at the front of a text.

ghost use Rattle.std.specs.Prelude.{◌≡◌, ◌≢◌, ◌<◌, ◌≤◌, ◌+◌, ◌-◌, ◌^◌, length, slice_index, IfSome, true, false};
ghost use Rattle.mq_lexer.specs.Numbers as numbers;
ghost use Rattle.mq_lexer.specs.Pieces as spec;
ghost use Rattle.mq_lexer.specs.Quotes as quotes;

use crate::numbers::digits_value;
use crate::sorts::{Front, Sort};
use mq_values::{MAX_SCALE, MAX_TEXT_BYTES, MAX_WORD_BYTES};

fn is_blank(b: u8) -> bool
    ensures { result ≡ spec.is_blank b }
{
    b == b' ' || b == b'\t' || b == b'\r' || b == b'\n'
}

fn is_word_byte(b: u8) -> bool
    ensures { result ≡ spec.is_word_byte b }
{
    b.is_ascii_alphanumeric() || b == b'_'
}

// The byte at a place, or 0 past the end.
fn byte_at(z: &[u8], at: usize) -> u8
    ensures value { result ≡ slice_index z.now at }
    ensures within { result ≢ 0 → at < length z.now }
{
    if at < z.len() { z[at] } else { 0 }
}

// How many word bytes stand at the front.
fn word_len(z: &[u8]) -> usize
    ensures { result ≡ spec.word_len z.now }
{
    let mut n = 0;
    while n < z.len() && is_word_byte(z[n]) {
        n += 1;
    }
    n
}

#[tactic(auto, unfolding(crate::specs::Pieces::word))]
fn word(z: &[u8]) -> Front
    ensures { result ≡ spec.word z.now }
{
    let len = word_len(z);
    let sort = if len <= MAX_WORD_BYTES {
        Sort::Word
    } else {
        Sort::Bad
    };
    Front {
        sort: Some(sort),
        len,
    }
}

// How many digits stand from a place on.
pub(crate) fn digits_len(z: &[u8], at: usize) -> usize
    requires { at ≤ length z.now }
    ensures value { result ≡ numbers.digits_len z.now at }
    ensures within { at + result ≤ length z.now }
{
    let mut end = at;
    while end < z.len() && z[end].is_ascii_digit() {
        end += 1;
    }
    end - at
}

// The length of a point and the digits behind it, from a place on; 0 where they do not stand there.
#[tactic(auto, unfolding(crate::specs::Numbers::fraction_len))]
pub(crate) fn fraction_len(z: &[u8], at: usize) -> usize
    requires { at ≤ length z.now }
    ensures value { result ≡ numbers.fraction_len z.now at }
    ensures within { at + result ≤ length z.now }
{
    if byte_at(z, at) != b'.' {
        return 0;
    }
    let digits = digits_len(z, at + 1);
    if digits == 0 { 0 } else { digits + 1 }
}

// Whether the digits, without the point, make no greater number than the limit.
fn is_small(number: &[u8]) -> bool
    ensures { result ≡ numbers.is_small number.now }
{
    digits_value(number).is_some()
}

#[tactic(auto, unfolding(crate::specs::Numbers::number))]
fn number(z: &[u8]) -> Front
    ensures { result ≡ numbers.number z.now }
{
    let whole = digits_len(z, 0);
    let fraction = fraction_len(z, whole);
    let len = whole + fraction;
    let fits = fraction <= usize::from(MAX_SCALE) + 1 && is_small(&z[..len]);
    let sort = if fits { Sort::Number } else { Sort::Bad };
    Front {
        sort: Some(sort),
        len,
    }
}

// The length of the longest front that ends with the closing quote of a text.
fn closing(z: &[u8]) -> Option<usize>
    ensures value { result ≡ quotes.closing false z.now }
    ensures within { IfSome result (λ n. (1 ≤ n) × (n ≤ length z.now)) }
{
    let mut found = None;
    let mut behind_quote = false;
    for (at, b) in z.iter().enumerate() {
        let is_quote = *b == b'\'';
        if behind_quote && !is_quote {
            return Some(at);
        }
        found = if behind_quote { Some(at) } else { found };
        behind_quote = is_quote && !behind_quote;
    }
    if behind_quote { Some(z.len()) } else { found }
}

// Whether this stands between the quotes of a text: few enough bytes, and no control character.
fn is_content(mut inner: &[u8]) -> bool
    ensures { result ≡ quotes.is_content inner.entry.now }
{
    let mut count = 0;
    let mut behind_quote = false;
    while let [b, rest @ ..] = inner {
        if behind_quote {
            behind_quote = false;
        } else {
            if count == MAX_TEXT_BYTES || *b < b' ' || *b == 127 {
                return false;
            }
            count += 1;
            behind_quote = *b == b'\'';
        }
        inner = rest;
    }
    true
}

#[tactic(auto, unfolding(crate::specs::Quotes::quoted))]
fn quoted(z: &[u8]) -> Front
    requires { 0 < length z.now }
    ensures { result ≡ quotes.quoted z.now }
{
    match closing(&z[1..]) {
        None => Front {
            sort: Some(Sort::Bad),
            len: z.len(),
        },
        Some(n) => {
            let fits = is_content(&z[1..n]);
            let sort = if fits { Sort::Text } else { Sort::Bad };
            Front {
                sort: Some(sort),
                len: n + 1,
            }
        }
    }
}

// The length of a comment that ends before the next LF.
#[tactic(auto, unfolding(crate::specs::Pieces::line_comment))]
fn line_comment(z: &[u8]) -> Front
    ensures { result ≡ spec.line_comment z.now }
{
    let mut len = 0;
    while len < z.len() && z[len] != b'\n' {
        len += 1;
    }
    Front { sort: None, len }
}

// The length of what stands up to the next `*/`, with it.
fn comment_end(mut z: &[u8]) -> Option<usize>
    requires { length z.now < 2 ^ 63 }
    ensures value { result ≡ spec.comment_end z.entry.now }
    ensures within { IfSome result (λ n. n ≤ length z.entry.now) }
{
    let mut at = 0;
    while let [b, rest @ ..] = z {
        if *b == b'*' && byte_at(rest, 0) == b'/' {
            return Some(at + 2);
        }
        at += 1;
        z = rest;
    }
    None
}

#[tactic(auto, unfolding(crate::specs::Pieces::block_comment))]
fn block_comment(z: &[u8]) -> Front
    requires { 1 < length z.now }
    ensures { result ≡ spec.block_comment z.now }
{
    match comment_end(&z[2..]) {
        None => Front {
            sort: Some(Sort::Bad),
            len: z.len(),
        },
        Some(n) => Front {
            sort: None,
            len: n + 2,
        },
    }
}

// The length of the sign that begins with these bytes; 0 where none does.
#[tactic(auto, unfolding(crate::specs::Pieces::sign_len))]
fn sign_len(b: u8, next: u8) -> usize
    ensures { result ≡ spec.sign_len b next }
{
    match b {
        b'<' if next == b'=' || next == b'>' => 2,
        b'!' | b'>' if next == b'=' => 2,
        b'|' if next == b'|' => 2,
        b'(' | b')' | b'[' | b']' | b',' | b';' | b'.' => 1,
        b'=' | b'<' | b'>' | b'+' | b'-' | b'*' | b'/' => 1,
        _ => 0,
    }
}

// The length of the character at the front.
#[tactic(auto, unfolding(crate::specs::Pieces::char_len))]
fn char_len(z: &[u8]) -> usize
    requires { 0 < length z.now }
    ensures { result ≡ spec.char_len z.now }
{
    if z[0] < 128 {
        return 1;
    }
    let mut n = 1;
    while n < z.len() && 128 <= z[n] && z[n] < 192 {
        n += 1;
    }
    n
}

#[tactic(auto, unfolding(crate::specs::Pieces::sign_or_bad))]
fn sign_or_bad(z: &[u8]) -> Front
    requires { 0 < length z.now }
    ensures { result ≡ spec.sign_or_bad z.now }
{
    match sign_len(z[0], byte_at(z, 1)) {
        0 => Front {
            sort: Some(Sort::Bad),
            len: char_len(z),
        },
        len => Front {
            sort: Some(Sort::Sign),
            len,
        },
    }
}

/// What stands at the front.
#[tactic(auto, unfolding(crate::specs::Pieces::front))]
pub(crate) fn front(z: &[u8]) -> Front
    requires { 0 < length z.now }
    ensures { result ≡ spec.front z.now }
{
    let b = z[0];
    let next = byte_at(z, 1);
    if is_blank(b) {
        Front { sort: None, len: 1 }
    } else if b.is_ascii_alphabetic() {
        word(z)
    } else if b.is_ascii_digit() || (b == b'.' && next.is_ascii_digit()) {
        number(z)
    } else if b == b'\'' {
        quoted(z)
    } else if b == b'-' && next == b'-' {
        line_comment(z)
    } else if b == b'/' && next == b'*' {
        block_comment(z)
    } else {
        sign_or_bad(z)
    }
}
