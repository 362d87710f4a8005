//! Shapes of which derivations may be told.
ghost use Rattle.mq_ir.specs.declared.query.PartInput.{PartInput};
ghost use Rattle.mq_ir.specs.declared.query.PartShape.{PartShape};
ghost use Rattle.mq_ir.specs.Unfolding.{Model};
ghost use Rattle.mq_lineage.specs.Found.{FoundMayBeDerived};

/// The shape that `compute` of mq_auto answers with, of a partition on which the rules may run, is all that `derive` asks
/// for (docs/MEANING.md, "Derivations").
pub fn what_is_computed_may_be_derived()
    ensures { (model : Model) (p : PartInput) (shape : PartShape) → FoundMayBeDerived model p shape }
{}
