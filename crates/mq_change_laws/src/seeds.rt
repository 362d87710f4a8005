ghost use Rattle.std.specs.Prelude.{ℕ, List};
ghost use Rattle.mq_ir.specs.declared.query.CellName.{CellName};
ghost use Rattle.mq_ir.specs.declared.query.Look.{Look};
ghost use Rattle.mq_ir.specs.Affected.{Side};
ghost use Rattle.mq_ir.specs.Unfolding.{Model};
ghost use Rattle.mq_change_laws.specs.ChangeLaws.{OtherLooksAreSeeds, SameLooksAreOne, StepsAlike};

use mq_ir::same_looks_make_the_same_step;

/// Two lists of looks are found to be the same exactly where they are one list (docs/MEANING.md, "Laws of a change").
pub fn same_looks_are_one()
    ensures { (a : List Look) (b : List Look) → SameLooksAreOne a b }
{}

/// A measure that one rule assigns in both shapes is a seed exactly where its lists of looks differ; that its cell is in
/// both sets need not be asked (docs/MEANING.md, "Laws of a change").
pub fn other_looks_are_seeds()
    ensures { (model : Model) (old : Side) (new : Side) (c : CellName) (number : ℕ) → OtherLooksAreSeeds model old new c number }
{}

/// A node that one rule assigns in both shapes, with the same looks of which none is a seed, steps alike over any slots
/// (docs/MEANING.md, "Laws of a change").
pub fn steps_are_alike()
    ensures { (model : Model) (old : Side) (new : Side) (node : Look) → StepsAlike model old new node }
{
    same_looks_make_the_same_step();
}
