//! The line of a refused statement, and what refusals say.
ghost use Rattle.std.specs.Prelude.{◌≡◌, ◌++◌, OnOk, OnErr};
ghost use Rattle.mq_values.specs.declared.faults.Refused.TheVariants.{ChangeValue};
ghost use Rattle.mq_ir.specs.Lines as spec;
ghost use Rattle.mq_ir.specs.Lines.{RefusalLine, key_text, line_text};
ghost use Rattle.mq_render.specs.Pieces.{BeginsWith, piece_text};

use crate::names::fault_name;
use crate::pieces::{Piece, push_piece, push_pieces};
use mq_values::{Key, Memory, Refused, ValueFault};

/// Appends the line of a refusal of the statement whose first token is on this line of the script
/// (docs/LANGUAGE.md, "Refusals"). After `Memory` `out` is as before.
pub fn refusal_text(line: u32, refused: &Refused, out: &mut Vec<u8>) -> Result<(), Memory>
    ensures ok { OnOk result (out.new.items ≡ out.old.items ++ line_text (RefusalLine line refused.now)) }
    ensures err { OnErr result (out.new.items ≡ out.old.items) }
{
    let before = out.len();
    match push_line(line, refused, out) {
        Ok(()) => Ok(()),
        Err(wanted) => {
            out.truncate(before);
            Err(wanted)
        }
    }
}

/// Appends a refusal's name, with its detail behind it (docs/LANGUAGE.md, "Refusals"). After `Memory` `out` is as
/// before.
pub fn refusal_words(refused: &Refused, out: &mut Vec<u8>) -> Result<(), Memory>
    ensures ok { OnOk result (out.new.items ≡ out.old.items ++ spec.refusal_text refused.now) }
    ensures err { OnErr result (out.new.items ≡ out.old.items) }
{
    let before = out.len();
    match push_refusal(refused, out) {
        Ok(()) => Ok(()),
        Err(wanted) => {
            out.truncate(before);
            Err(wanted)
        }
    }
}

#[tactic(auto, using(crate::proofs::PieceLemmas::fronts))]
fn push_line(line: u32, refused: &Refused, out: &mut Vec<u8>) -> Result<(), Memory>
    ensures ok { OnOk result (out.new.items ≡ out.old.items ++ line_text (RefusalLine line refused.now)) }
    ensures front { BeginsWith out.new.items out.old.items }
{
    push_pieces(
        &[
            Piece::Words("error line "),
            Piece::Number(line as usize),
            Piece::Words(": "),
        ],
        out,
    )?;
    push_refusal(refused, out)?;
    push_pieces(&[Piece::Words("\n")], out)
}

/// Appends a refusal's name with its detail, or a front of it where memory runs out.
#[tactic(auto, using(crate::proofs::PieceLemmas::fronts))]
pub fn push_refusal(refused: &Refused, out: &mut Vec<u8>) -> Result<(), Memory>
    ensures ok { OnOk result (out.new.items ≡ out.old.items ++ spec.refusal_text refused.now) }
    ensures front { BeginsWith out.new.items out.old.items }
{
    match refused {
        Refused::TooDeep => named("TOO_DEEP", out),
        Refused::Syntax => named("SYNTAX", out),
        Refused::UnknownName(name) => detailed("UNKNOWN_NAME ", Piece::Words(name.as_str()), out),
        Refused::DuplicateName(name) => {
            detailed("DUPLICATE_NAME ", Piece::Words(name.as_str()), out)
        }
        Refused::KindMismatch => named("KIND_MISMATCH", out),
        Refused::ModelForm(k) => detailed("MODEL_FORM ", Piece::Number(*k as usize), out),
        Refused::Limit(k) => detailed("LIMIT ", Piece::Number(*k as usize), out),
        Refused::InUse(user) => detailed("IN_USE ", Piece::Words(user.as_str()), out),
        Refused::NoFile => named("NO_FILE", out),
        Refused::FileTooLong => named("FILE_TOO_LONG", out),
        Refused::LoadHeader => named("LOAD_HEADER", out),
        Refused::LoadRow(n) => detailed("LOAD_ROW ", Piece::Number(*n as usize), out),
        Refused::ChangeValue(row, fault) => valued(*row, fault, out),
        Refused::NotNull(column) => detailed("NOT_NULL ", Piece::Words(column.as_str()), out),
        Refused::DuplicateKey(key) => keyed("DUPLICATE_KEY ", key, out),
        Refused::BlockOpen(n) => detailed("BLOCK_OPEN ", Piece::Number(*n as usize), out),
        Refused::InBlock(n) => detailed("IN_BLOCK ", Piece::Number(*n as usize), out),
        Refused::NoBlock => named("NO_BLOCK", out),
        Refused::BlockBroken(n) => detailed("BLOCK_BROKEN ", Piece::Number(*n as usize), out),
        Refused::NoPartition(key) => keyed("NO_PARTITION ", key, out),
        Refused::NoCell(key) => keyed("NO_CELL ", key, out),
    }
}

#[tactic(auto, using(crate::proofs::PieceLemmas::fronts))]
fn named(name: &str, out: &mut Vec<u8>) -> Result<(), Memory>
    ensures ok { OnOk result (out.new.items ≡ out.old.items ++ name.now) }
    ensures front { BeginsWith out.new.items out.old.items }
{
    Ok(out.extend_from_slice(name.as_bytes())?)
}

// A name with its detail.
#[tactic(auto, using(crate::proofs::PieceLemmas::fronts))]
fn detailed(name: &str, detail: Piece<'_>, out: &mut Vec<u8>) -> Result<(), Memory>
    ensures ok { OnOk result (out.new.items ≡ out.old.items ++ (name.now ++ piece_text detail.entry)) }
    ensures front { BeginsWith out.new.items out.old.items }
{
    out.extend_from_slice(name.as_bytes())?;
    push_piece(detail, out)
}

// A name with a key.
#[tactic(auto, using(crate::proofs::PieceLemmas::fronts))]
fn keyed<'a>(name: &'a str, key: &'a Key, out: &mut Vec<u8>) -> Result<(), Memory>
    ensures ok { OnOk result (out.new.items ≡ out.old.items ++ (name.now ++ key_text key.now)) }
    ensures front { BeginsWith out.new.items out.old.items }
{
    push_pieces(
        &[
            Piece::Words(name),
            Piece::Words("("),
            Piece::Values(key.as_slice(), ","),
            Piece::Words(")"),
        ],
        out,
    )
}

// The fault of a value in a row of a change.
#[tactic(auto, using(crate::proofs::PieceLemmas::fronts))]
fn valued(row: u32, fault: &ValueFault, out: &mut Vec<u8>) -> Result<(), Memory>
    ensures ok { OnOk result (out.new.items ≡ out.old.items ++ spec.refusal_text (ChangeValue row fault.now)) }
    ensures front { BeginsWith out.new.items out.old.items }
{
    push_pieces(
        &[
            Piece::Words("CHANGE_VALUE row "),
            Piece::Number(row as usize),
            Piece::Words(" "),
            Piece::Words(fault_name(fault)),
        ],
        out,
    )
}
