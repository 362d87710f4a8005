ghost use Rattle.std.specs.Prelude.{List};
ghost use Rattle.mq_ir.specs.declared.query.CellName.{CellName};
ghost use Rattle.mq_ir.specs.declared.query.DerivationStep.{DerivationStep};
ghost use Rattle.mq_ir.specs.declared.query.PartInput.{PartInput};
ghost use Rattle.mq_ir.specs.declared.query.PartShape.{PartShape};
ghost use Rattle.mq_ir.specs.Partitions.{Cells, Tuple};
ghost use Rattle.mq_ir.specs.Unfolding.{Model};
ghost use Rattle.mq_derivation_laws.specs.DerivationLaws.{DerivationHasSources, DerivationIsAccepted, StepsHaveTheirSlots};

use mq_ir::steps_read_their_looks;

/// The derivation of any measure of a cell is accepted, where the partition has no fault of its shape and no cycle
/// (docs/MEANING.md, "Derivations").
pub fn derivations_are_accepted()
    ensures { (model : Model) (p : PartInput) (shape : PartShape) (target : CellName) → DerivationIsAccepted model p shape target }
{
    steps_read_their_looks();
}

/// The derivation of a measure has a step of each of its sources, and of nothing else (docs/MEANING.md,
/// "Derivations").
pub fn derivations_have_the_sources()
    ensures { (model : Model) (shape : PartShape) (input : Cells) (target : CellName) (c : CellName)
        → DerivationHasSources model shape input target c }
{}

/// Whatever steps are accepted, at each stands the slot that its measure has in the end (docs/MEANING.md,
/// "Derivations").
pub fn accepted_steps_have_their_slots()
    ensures { (model : Model) (keys : List Tuple) (shape : PartShape) (input : Cells) (steps : List DerivationStep)
        → StepsHaveTheirSlots model keys shape input steps }
{
    steps_read_their_looks();
}
