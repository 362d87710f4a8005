ghost use Rattle.mq_ir.specs.declared.query.CellName.{CellName};
ghost use Rattle.mq_ir.specs.declared.query.PartShape.{PartShape};
ghost use Rattle.mq_ir.specs.Unfolding.{Model};
ghost use Rattle.mq_derivation_laws.specs.SourceLaws.{AreLeastSources};

/// The sources of a measure hold it and, with each measure, all measures that it looks at; and they are within every set
/// that does (docs/MEANING.md, "Derivations").
pub fn sources_are_least()
    ensures { (model : Model) (shape : PartShape) (target : CellName) → AreLeastSources model shape target }
{}
