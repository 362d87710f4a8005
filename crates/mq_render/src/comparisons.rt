//! The lines of comparisons.
ghost use Rattle.std.specs.Prelude.{◌≡◌, ◌++◌, ◌∷◌, [], OnOk, OnErr};
ghost use Rattle.mq_ir.specs.Lines.{ScenarioLine, StoppedLine, line_text, text_of};
ghost use Rattle.mq_ir.specs.Scenarios.{compared_lines};
ghost use Rattle.mq_render.specs.Pieces.{BeginsWith};

use crate::answers::push_answer;
use crate::pieces::{Piece, push_pieces};
use crate::refusals::push_refusal;
use mq_ir::Compared;
use mq_values::{Memory, Refused, Words};

/// Appends a scenario's line, and what a query answers under its changes, or the first of them that is refused
/// (docs/LANGUAGE.md, "Output"). After `Memory` `out` is as before.
pub fn compared_text(name: &Words, compared: &Compared, out: &mut Vec<u8>) -> Result<(), Memory>
    ensures ok { OnOk result (out.new.items ≡ out.old.items ++ text_of (ScenarioLine name.now ∷ compared_lines compared.now)) }
    ensures err { OnErr result (out.new.items ≡ out.old.items) }
{
    let before = out.len();
    match push_compared(name, compared, out) {
        Ok(()) => Ok(()),
        Err(wanted) => {
            out.truncate(before);
            Err(wanted)
        }
    }
}

#[tactic(auto, using(crate::proofs::PieceLemmas::fronts))]
fn push_compared(name: &Words, compared: &Compared, out: &mut Vec<u8>) -> Result<(), Memory>
    ensures ok { OnOk result (out.new.items ≡ out.old.items ++ text_of (ScenarioLine name.now ∷ compared_lines compared.now)) }
    ensures front { BeginsWith out.new.items out.old.items }
{
    push_pieces(
        &[
            Piece::Words("scenario "),
            Piece::Words(name.as_str()),
            Piece::Words("\n"),
        ],
        out,
    )?;
    push_outcome(compared, out)
}

// The lines of the answer, or the one of the refusal.
#[tactic(auto, using(crate::proofs::PieceLemmas::fronts))]
fn push_outcome(compared: &Compared, out: &mut Vec<u8>) -> Result<(), Memory>
    ensures ok { OnOk result (out.new.items ≡ out.old.items ++ text_of (compared_lines compared.now)) }
    ensures front { BeginsWith out.new.items out.old.items }
{
    match compared {
        Compared::Shown(answer) => push_answer(answer, out),
        Compared::Stopped(number, refused) => push_stop(*number, refused, out),
    }
}

#[tactic(auto, using(crate::proofs::PieceLemmas::fronts))]
fn push_stop(number: u32, refused: &Refused, out: &mut Vec<u8>) -> Result<(), Memory>
    ensures ok { OnOk result (out.new.items ≡ out.old.items ++ line_text (StoppedLine number refused.now)) }
    ensures front { BeginsWith out.new.items out.old.items }
{
    push_pieces(
        &[
            Piece::Words("refused "),
            Piece::Number(number as usize),
            Piece::Words(" "),
        ],
        out,
    )?;
    push_refusal(refused, out)?;
    push_pieces(&[Piece::Words("\n")], out)
}
