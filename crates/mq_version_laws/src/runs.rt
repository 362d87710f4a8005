ghost use Rattle.mq_ir.specs.declared.query.PartInput.{PartInput};
ghost use Rattle.mq_ir.specs.Partitions.{Cells};
ghost use Rattle.mq_ir.specs.Unfolding.{Model};
ghost use Rattle.mq_version_laws.specs.RunLaws.{HistoryHasVersions, RunIsVersions, VersionsSeeNoValue};

/// What a model in sequential order makes of a partition, where its rules run once, is what its last versions come to,
/// or the first fault of a version, or else that of the walk over its left sides (docs/MEANING.md, "Laws of versions").
pub fn runs_are_versions()
    ensures { (model : Model) (p : PartInput) → RunIsVersions model p }
{}

/// Which versions there are depends on the keys of the input and on no value (docs/MEANING.md, "Laws of versions").
pub fn versions_see_no_value()
    ensures history { (model : Model) (input : Cells) → HistoryHasVersions model input }
    ensures values { (model : Model) (a : Cells) (b : Cells) → VersionsSeeNoValue model a b }
{}
