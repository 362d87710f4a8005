//! Pieces of lines, appended one after another.
ghost use Rattle.std.specs.Prelude.{◌≡◌, ◌++◌, OnOk};
ghost use Rattle.std.specs.List.{join_by};
ghost use Rattle.mq_values.specs.Print.{printed};
ghost use Rattle.mq_render.specs.Pieces.{BeginsWith, piece_text, text_of_pieces};

use itoa::Buffer;
use mq_values::{Memory, Value, print};

/// A piece of a line.
#[derive(Clone, Copy)]
pub enum Piece<'a> {
    /// Words as they stand.
    Words(&'a str),
    /// A number in decimal.
    Number(usize),
    /// Printed values with a separator between them.
    Values(&'a [Value], &'static str),
}

/// Appends pieces, or a front of their text where memory runs out.
#[tactic(auto, using(crate::proofs::PieceLemmas::fronts))]
pub fn push_pieces(pieces: &[Piece<'_>], out: &mut Vec<u8>) -> Result<(), Memory>
    ensures ok { OnOk result (out.new.items ≡ out.old.items ++ text_of_pieces pieces.now) }
    ensures front { BeginsWith out.new.items out.old.items }
{
    'pieces: for piece in pieces {
        push_piece(*piece, out)?;
    }
    Ok(())
}

/// Appends one piece, or a front of its text where memory runs out.
#[tactic(auto, using(crate::proofs::PieceLemmas::fronts))]
pub fn push_piece(piece: Piece<'_>, out: &mut Vec<u8>) -> Result<(), Memory>
    ensures ok { OnOk result (out.new.items ≡ out.old.items ++ piece_text piece.entry) }
    ensures front { BeginsWith out.new.items out.old.items }
{
    match piece {
        Piece::Words(text) => Ok(out.extend_from_slice(text.as_bytes())?),
        Piece::Number(n) => Ok(out.extend_from_slice(Buffer::new().format(n).as_bytes())?),
        Piece::Values(values, separator) => push_values(values, separator, out),
    }
}

// Appends printed values with a separator between them.
#[tactic(auto, using(crate::proofs::PieceLemmas::fronts))]
fn push_values(values: &[Value], separator: &str, out: &mut Vec<u8>) -> Result<(), Memory>
    ensures ok { OnOk result (out.new.items ≡ out.old.items ++ join_by printed separator.now values.now) }
    ensures front { BeginsWith out.new.items out.old.items }
{
    let Some((first, others)) = values.split_first() else {
        return Ok(());
    };
    print(first, out)?;
    'values: for value in others {
        push_behind(value, separator, out)?;
    }
    Ok(())
}

// Appends a separator and a printed value.
#[tactic(auto, using(crate::proofs::PieceLemmas::fronts))]
fn push_behind(value: &Value, separator: &str, out: &mut Vec<u8>) -> Result<(), Memory>
    ensures ok { OnOk result (out.new.items ≡ out.old.items ++ (separator.now ++ printed value.now)) }
    ensures front { BeginsWith out.new.items out.old.items }
{
    out.extend_from_slice(separator.as_bytes())?;
    print(value, out)
}
