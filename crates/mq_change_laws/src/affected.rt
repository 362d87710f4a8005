ghost use Rattle.mq_ir.specs.declared.query.Look.{Look};
ghost use Rattle.mq_ir.specs.Affected.{Side};
ghost use Rattle.mq_ir.specs.Unfolding.{Model};
ghost use Rattle.mq_change_laws.specs.ChangeLaws.{AffectedByLooks, CyclesAreAffected};

use mq_ir::{same_looks_make_the_same_step, steps_read_their_looks};

/// A node is affected exactly where it is a seed or looks at one that is affected (docs/MEANING.md, "Laws of a change").
pub fn affected_go_by_looks()
    ensures { (model : Model) (old : Side) (new : Side) (node : Look) → AffectedByLooks model old new node }
{}

/// Where the old shape had no cycle, what is not levelled in the new one is affected: a new cycle is found among what
/// the change reaches (docs/MEANING.md, "Laws of a change").
pub fn cycles_are_affected()
    ensures { (model : Model) (old : Side) (new : Side) (node : Look) → CyclesAreAffected model old new node }
{
    same_looks_make_the_same_step();
    steps_read_their_looks();
}
