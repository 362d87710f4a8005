//! The lines of derivations.
ghost use Rattle.std.specs.Prelude.{◌≡◌, ◌++◌, [], map, slice_index_or, OnOk, OnErr};
ghost use Rattle.mq_ir.specs.Lines.{StepLine, line_text, slot_text, source_text, text_of};
ghost use Rattle.mq_render.specs.Derivations.{derivation_lines, step_line};
ghost use Rattle.mq_render.specs.Pieces.{BeginsWith};

use crate::answers::push_count;
use crate::names::fault_name;
use crate::pieces::{Piece, push_pieces};
use mq_ir::{Derivation, DerivationStep, Slot};
use mq_values::{Memory, Words, print};

/// Appends the lines of a derivation, a step a line and then their number; the measures have these names
/// (docs/LANGUAGE.md, "Output"). After `Memory` `out` is as before.
pub fn derivation_text(
    names: &[Words],
    derivation: &Derivation,
    out: &mut Vec<u8>,
) -> Result<(), Memory>
    ensures ok { OnOk result (out.new.items ≡ out.old.items ++ text_of (derivation_lines names.now derivation.now)) }
    ensures err { OnErr result (out.new.items ≡ out.old.items) }
{
    let before = out.len();
    match push_derivation(names, derivation.steps.as_slice(), out) {
        Ok(()) => Ok(()),
        Err(wanted) => {
            out.truncate(before);
            Err(wanted)
        }
    }
}

#[tactic(auto, using(crate::proofs::PieceLemmas::fronts))]
fn push_derivation(
    names: &[Words],
    steps: &[DerivationStep],
    out: &mut Vec<u8>,
) -> Result<(), Memory>
    ensures ok { OnOk result (out.new.items ≡ out.old.items ++ text_of (derivation_lines names.now (record { steps = steps.now }))) }
    ensures front { BeginsWith out.new.items out.old.items }
{
    push_steps(names, steps, out)?;
    push_count("steps ", steps.len(), out)
}

// A line for each step.
#[tactic(auto, using(crate::proofs::PieceLemmas::fronts))]
fn push_steps(names: &[Words], steps: &[DerivationStep], out: &mut Vec<u8>) -> Result<(), Memory>
    ensures ok { OnOk result (out.new.items ≡ out.old.items ++ text_of (map (step_line names.now) steps.now)) }
    ensures front { BeginsWith out.new.items out.old.items }
{
    'steps: for step in steps {
        push_step(name_of(names, step.name.measure), step, out)?;
    }
    Ok(())
}

// The name of a measure, or none where it has none.
fn name_of(names: &[Words], measure: u32) -> &str
    ensures { result.now ≡ slice_index_or names.now measure [] }
{
    match names.get(measure as usize) {
        Some(name) => name.as_str(),
        None => "",
    }
}

// The line of a step whose measure has this name.
#[tactic(auto, using(crate::proofs::PieceLemmas::fronts))]
fn push_step<'a>(name: &'a str, step: &'a DerivationStep, out: &mut Vec<u8>) -> Result<(), Memory>
    ensures ok { OnOk result (out.new.items ≡ out.old.items ++ line_text (StepLine name.now step.now)) }
    ensures front { BeginsWith out.new.items out.old.items }
{
    push_pieces(
        &[
            Piece::Words(name),
            Piece::Words(" ("),
            Piece::Values(step.name.key.as_slice(), ","),
            Piece::Words(") = "),
        ],
        out,
    )?;
    push_slot(&step.slot, out)?;
    push_source(step.rule, out)?;
    push_pieces(&[Piece::Words("\n")], out)
}

// What stands at a step.
#[tactic(auto, using(crate::proofs::PieceLemmas::fronts))]
fn push_slot(slot: &Slot, out: &mut Vec<u8>) -> Result<(), Memory>
    ensures ok { OnOk result (out.new.items ≡ out.old.items ++ slot_text slot.now) }
    ensures front { BeginsWith out.new.items out.old.items }
{
    match slot {
        Slot::Done(value) => print(value, out),
        Slot::Faulted(fault) => push_pieces(
            &[Piece::Words("fault "), Piece::Words(fault_name(fault))],
            out,
        ),
        Slot::Poisoned => push_pieces(&[Piece::Words("poisoned")], out),
    }
}

// What put it there: the input, or a rule.
#[tactic(auto, using(crate::proofs::PieceLemmas::fronts))]
fn push_source(rule: Option<u32>, out: &mut Vec<u8>) -> Result<(), Memory>
    ensures ok { OnOk result (out.new.items ≡ out.old.items ++ source_text rule) }
    ensures front { BeginsWith out.new.items out.old.items }
{
    match rule {
        None => push_pieces(&[Piece::Words(" given")], out),
        Some(number) => push_pieces(
            &[Piece::Words(" rule "), Piece::Number(number as usize)],
            out,
        ),
    }
}
