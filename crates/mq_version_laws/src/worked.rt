ghost use Rattle.mq_version_laws.specs.WorkedVersions.{AffectedLooksOfSums, AffectedOfSums, LooksOfSums, SlotsOfSums, VersionsOfSums};

/// A small model with its versions, what they look at and come to, and what a change reaches of them, worked out by hand
/// and computed from the definitions (docs/MEANING.md, "Laws of versions").
pub fn worked_versions()
    ensures versions { VersionsOfSums }
    ensures looks { LooksOfSums }
    ensures slots { SlotsOfSums }
    ensures affected { AffectedOfSums }
    ensures affected_looks { AffectedLooksOfSums }
{}
