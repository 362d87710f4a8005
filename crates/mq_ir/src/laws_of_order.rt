ghost use Rattle.mq_ir.specs.declared.query.PartShape.{PartShape};
ghost use Rattle.mq_ir.specs.Affected.{Side};
ghost use Rattle.mq_ir.specs.AffectedLaws.{EnoughRounds, IsLeastClosed, StaysLevelled};
ghost use Rattle.mq_ir.specs.Unfolding.{Model};

/// What is levelled in a round stays levelled. The call does nothing: its contract is the law
/// (docs/MEANING.md, "Automatic order").
pub fn levelled_stays()
    ensures { (model : Model) (shape : PartShape) → StaysLevelled model shape }
{}

/// As many rounds as there are assignments level all that can be levelled at all. The call does nothing: its
/// contract is the law (docs/MEANING.md, "Automatic order").
pub fn rounds_are_enough()
    ensures { (model : Model) (shape : PartShape) → EnoughRounds model shape }
{}

/// What a change reaches holds the seeds and whatever looks at a node that it holds, and is within every set that
/// does both. The call does nothing: its contract is the law (docs/MEANING.md, "Affected cells").
pub fn affected_is_least_closed()
    ensures { (model : Model) (old : Side) (new : Side) → IsLeastClosed model old new }
{}
