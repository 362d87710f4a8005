//! Pieces of texts, appended one after another.
ghost use Rattle.std.specs.Prelude.{◌≡◌, ◌++◌, OnOk, decimal};
ghost use Rattle.mq_generate.specs.Pieces.{BeginsWith, amount_text, fraction_text, piece_text, text_of_pieces};

use itoa::Buffer;
use mq_values::Memory;

/// How many parts make a whole in an amount of hundredths.
pub const HUNDREDTHS: u64 = 100;

/// How many numbers one digit tells.
pub const DIGITS: u64 = 10;

/// A piece of a text.
#[derive(Clone, Copy)]
pub enum Piece<'a> {
    /// Words as they stand.
    Words(&'a str),
    /// Bytes as they stand.
    Bytes(&'a [u8]),
    /// A number in decimal.
    Number(u64),
    /// So many hundredths, with two digits behind the point.
    Amount(u64),
}

/// Appends pieces, or a front of their text where memory runs out.
#[tactic(auto, using(crate::proofs::PieceLemmas::fronts))]
pub fn push_pieces(pieces: &[Piece<'_>], out: &mut Vec<u8>) -> Result<(), Memory>
    ensures ok { OnOk result (out.new.items ≡ out.old.items ++ text_of_pieces pieces.now) }
    ensures front { BeginsWith out.new.items out.old.items }
{
    'pieces: for piece in pieces {
        push_piece(*piece, out)?;
    }
    Ok(())
}

// Appends one piece, or a front of its text where memory runs out.
#[tactic(auto, using(crate::proofs::PieceLemmas::fronts))]
fn push_piece(piece: Piece<'_>, out: &mut Vec<u8>) -> Result<(), Memory>
    ensures ok { OnOk result (out.new.items ≡ out.old.items ++ piece_text piece.entry) }
    ensures front { BeginsWith out.new.items out.old.items }
{
    match piece {
        Piece::Words(text) => Ok(out.extend_from_slice(text.as_bytes())?),
        Piece::Bytes(bytes) => Ok(out.extend_from_slice(bytes)?),
        Piece::Number(number) => push_number(number, out),
        Piece::Amount(amount) => push_amount(amount, out),
    }
}

// Appends an amount, or a front of its text where memory runs out.
#[tactic(auto, using(crate::proofs::PieceLemmas::fronts))]
fn push_amount(amount: u64, out: &mut Vec<u8>) -> Result<(), Memory>
    ensures ok { OnOk result (out.new.items ≡ out.old.items ++ amount_text amount) }
    ensures front { BeginsWith out.new.items out.old.items }
{
    push_number(amount / HUNDREDTHS, out)?;
    push_fraction(amount % HUNDREDTHS, out)
}

// Appends a point and two digits, or a front of that where memory runs out.
#[tactic(auto, using(crate::proofs::PieceLemmas::fronts))]
fn push_fraction(fraction: u64, out: &mut Vec<u8>) -> Result<(), Memory>
    ensures ok { OnOk result (out.new.items ≡ out.old.items ++ fraction_text fraction) }
    ensures front { BeginsWith out.new.items out.old.items }
{
    out.extend_from_slice(b".")?;
    push_number(fraction / DIGITS, out)?;
    push_number(fraction % DIGITS, out)
}

#[tactic(auto, using(crate::proofs::PieceLemmas::fronts))]
fn push_number(number: u64, out: &mut Vec<u8>) -> Result<(), Memory>
    ensures ok { OnOk result (out.new.items ≡ out.old.items ++ decimal number) }
    ensures front { BeginsWith out.new.items out.old.items }
{
    Ok(out.extend_from_slice(Buffer::new().format(number).as_bytes())?)
}
