ghost use Rattle.std.specs.Prelude.{ℕ};
ghost use Rattle.mq_ir.specs.declared.query.CellName.{CellName};
ghost use Rattle.mq_ir.specs.declared.query.PartShape.{PartShape};
ghost use Rattle.mq_ir.specs.declared.query.Rule.{Rule};
ghost use Rattle.mq_ir.specs.Partitions.{Cells};
ghost use Rattle.mq_ir.specs.Unfolding.{Model};
ghost use Rattle.mq_change_laws.specs.CycleLaws.{NoCycleLevelsAll};
ghost use Rattle.mq_change_laws.specs.NodeLaws.{SlotIsStep};
ghost use Rattle.mq_change_laws.specs.PoisonedLaws.{RestIsPoisoned};

use mq_ir::steps_read_their_looks;

/// A shape has no cycle exactly where each node is levelled in the end (docs/MEANING.md, "Laws of a change").
pub fn without_cycle_all_is_levelled()
    ensures { (model : Model) (shape : PartShape) → NoCycleLevelsAll model shape }
{}

/// The slot of a measure that a rule assigns, where it is levelled in some round, is what the rule makes of the slots
/// (docs/MEANING.md, "Laws of a change").
pub fn slots_are_steps()
    ensures { (model : Model) (shape : PartShape) (input : Cells) (n : ℕ) (c : CellName) (rule : Rule)
        → SlotIsStep model shape input n c rule }
{
    steps_read_their_looks();
}

/// What is not levelled in the end is poisoned (docs/MEANING.md, "Laws of a change").
pub fn the_rest_is_poisoned()
    ensures { (model : Model) (shape : PartShape) (input : Cells) (c : CellName) → RestIsPoisoned model shape input c }
{}
