ghost use Rattle.std.specs.Prelude.{ℕ};
ghost use Rattle.mq_ir.specs.declared.query.CellName.{CellName};
ghost use Rattle.mq_ir.specs.declared.query.Look.{Look};
ghost use Rattle.mq_ir.specs.Affected.{Side};
ghost use Rattle.mq_ir.specs.Unfolding.{Model};
ghost use Rattle.mq_change_laws.specs.ChangeLaws.{AssignmentStays, LevelStays, ResultStays, UnaffectedIsUntouched, ValueStays};

use mq_ir::{same_looks_make_the_same_step, steps_read_their_looks};

/// What a change does not reach is assigned as before, by the same rule with the same looks, or by none
/// (docs/MEANING.md, "Laws of a change").
pub fn assignments_stay()
    ensures { (model : Model) (old : Side) (new : Side) (node : Look) → AssignmentStays model old new node }
{}

/// A measure that a rule assigns in the new shape is out of the change's reach exactly where the same rule assigned it in
/// the old one, with the same looks, of which the change reaches none (docs/MEANING.md, "Laws of a change").
pub fn unaffected_is_untouched()
    ensures { (model : Model) (old : Side) (new : Side) (c : CellName) (number : ℕ) → UnaffectedIsUntouched model old new c number }
{}

/// What a change does not reach is levelled in the end exactly where it was (docs/MEANING.md, "Laws of a change").
pub fn levels_stay()
    ensures { (model : Model) (old : Side) (new : Side) (node : Look) → LevelStays model old new node }
{
    same_looks_make_the_same_step();
    steps_read_their_looks();
}

/// A measure that a change does not reach has the slot that it had (docs/MEANING.md, "Laws of a change").
pub fn values_stay()
    ensures { (model : Model) (old : Side) (new : Side) (c : CellName) → ValueStays model old new c }
{
    same_looks_make_the_same_step();
    steps_read_their_looks();
}

/// So it is of the results, which stand at assigned measures alone (docs/MEANING.md, "Laws of a change").
pub fn results_stay()
    ensures { (model : Model) (old : Side) (new : Side) (c : CellName) → ResultStays model old new c }
{
    same_looks_make_the_same_step();
    steps_read_their_looks();
}
