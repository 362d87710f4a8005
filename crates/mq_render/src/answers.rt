//! The lines of answers, and of statements that are done.
ghost use Rattle.std.specs.Prelude.{◌≡◌, ◌++◌, ◌∷◌, [], length, map, OnOk, OnErr};
ghost use Rattle.mq_ir.specs.Lines.{Counted, Done, FaultLine, RowCount, RowLine, line_text, text_of};
ghost use Rattle.mq_ir.specs.Statement.{answer_lines};
ghost use Rattle.mq_render.specs.Pieces.{BeginsWith, counted};

use crate::names::kind_name;
use crate::pieces::{Piece, push_pieces};
use mq_ir::{Answer, Row};
use mq_values::{Memory, QueryFault};

/// Appends the line of a statement that created or dropped something (docs/LANGUAGE.md, "Output").
/// After `Memory` `out` is as before.
pub fn done_text(out: &mut Vec<u8>) -> Result<(), Memory>
    ensures ok { OnOk result (out.new.items ≡ out.old.items ++ line_text Done) }
    ensures err { OnErr result (out.new.items ≡ out.old.items) }
{
    Ok(out.extend_from_slice(b"ok\n")?)
}

/// Appends the line of a change of so many rows (docs/LANGUAGE.md, "Output"). After `Memory` `out` is as before.
pub fn count_text(count: usize, out: &mut Vec<u8>) -> Result<(), Memory>
    ensures ok { OnOk result (out.new.items ≡ out.old.items ++ line_text (Counted count)) }
    ensures err { OnErr result (out.new.items ≡ out.old.items) }
{
    let before = out.len();
    match push_count("ok ", count, out) {
        Ok(()) => Ok(()),
        Err(wanted) => {
            out.truncate(before);
            Err(wanted)
        }
    }
}

/// Appends the lines of an answer: a row a line and then their number, or its fault (docs/LANGUAGE.md, "Output").
/// After `Memory` `out` is as before.
pub fn answer_text(answer: &Answer, out: &mut Vec<u8>) -> Result<(), Memory>
    ensures ok { OnOk result (out.new.items ≡ out.old.items ++ text_of (answer_lines answer.now)) }
    ensures err { OnErr result (out.new.items ≡ out.old.items) }
{
    let before = out.len();
    match push_answer(answer, out) {
        Ok(()) => Ok(()),
        Err(wanted) => {
            out.truncate(before);
            Err(wanted)
        }
    }
}

/// Appends the lines of an answer, or a front of their text where memory runs out.
#[tactic(auto, using(crate::proofs::PieceLemmas::fronts))]
pub fn push_answer(answer: &Answer, out: &mut Vec<u8>) -> Result<(), Memory>
    ensures ok { OnOk result (out.new.items ≡ out.old.items ++ text_of (answer_lines answer.now)) }
    ensures front { BeginsWith out.new.items out.old.items }
{
    match answer {
        Answer::Rows(rows) => push_rows(rows.as_slice(), out),
        Answer::Fault(fault) => push_fault(fault, out),
    }
}

// A line for each row, and then their number.
#[tactic(auto, using(crate::proofs::PieceLemmas::fronts))]
fn push_rows(rows: &[Row], out: &mut Vec<u8>) -> Result<(), Memory>
    ensures ok { OnOk result (out.new.items ≡ out.old.items ++ text_of (map RowLine rows.now ++ RowCount (length rows.now) ∷ [])) }
    ensures front { BeginsWith out.new.items out.old.items }
{
    push_row_lines(rows, out)?;
    push_count("rows ", rows.len(), out)
}

// A line for each row.
#[tactic(auto, using(crate::proofs::PieceLemmas::fronts))]
fn push_row_lines(rows: &[Row], out: &mut Vec<u8>) -> Result<(), Memory>
    ensures ok { OnOk result (out.new.items ≡ out.old.items ++ text_of (map RowLine rows.now)) }
    ensures front { BeginsWith out.new.items out.old.items }
{
    'rows: for row in rows {
        push_pieces(
            &[Piece::Values(row.as_slice(), "|"), Piece::Words("\n")],
            out,
        )?;
    }
    Ok(())
}

/// Appends a word and a number as a line, or a front of it where memory runs out.
#[tactic(auto, using(crate::proofs::PieceLemmas::fronts))]
pub fn push_count(word: &str, count: usize, out: &mut Vec<u8>) -> Result<(), Memory>
    ensures ok { OnOk result (out.new.items ≡ out.old.items ++ counted word.now count) }
    ensures front { BeginsWith out.new.items out.old.items }
{
    push_pieces(
        &[Piece::Words(word), Piece::Number(count), Piece::Words("\n")],
        out,
    )
}

#[tactic(auto, using(crate::proofs::PieceLemmas::fronts))]
fn push_fault(fault: &QueryFault, out: &mut Vec<u8>) -> Result<(), Memory>
    ensures ok { OnOk result (out.new.items ≡ out.old.items ++ line_text (FaultLine fault.now)) }
    ensures front { BeginsWith out.new.items out.old.items }
{
    push_pieces(
        &[
            Piece::Words("fault "),
            Piece::Words(kind_name(fault.kind)),
            Piece::Words(" rule "),
            Piece::Number(fault.rule as usize),
            Piece::Words(" partition ("),
            Piece::Values(fault.partition.as_slice(), ","),
            Piece::Words(") cell ("),
            Piece::Values(fault.cell.as_slice(), ","),
            Piece::Words(")\n"),
        ],
        out,
    )
}
