ghost use Rattle.std.specs.Prelude.{Bool};
ghost use Rattle.mq_ir.specs.Partitions.{Cells};
ghost use Rattle.mq_ir.specs.Unfolding.{Model};
ghost use Rattle.mq_ir.specs.VersionLooks.{VersionName, VersionNode};
ghost use Rattle.mq_version_laws.specs.AffectedVersionLaws.{AffectedByLooks, AffectedIsLeast, LinksGoByLooks, SameKeysSeedNone, UnaffectedKeep, UnaffectedStayKept};

use mq_ir::{same_looks_make_the_same_step, steps_read_their_looks};

/// A node is affected exactly where it is a seed, or a version that looks at one that is affected
/// (docs/MEANING.md, "Laws of versions").
pub fn affected_versions_go_by_looks()
    ensures { (model : Model) (old : Cells) (new : Cells) (node : VersionNode) → AffectedByLooks model old new node }
{}

/// A version is affected exactly where it is a seed or one of its resolved looks is affected (docs/MEANING.md, "Laws of versions").
pub fn affected_links_go_by_looks()
    ensures { (model : Model) (old : Cells) (new : Cells) → LinksGoByLooks model old new }
{}

/// What is affected is within every set of nodes that has the seeds and each version that looks at one of them
/// (docs/MEANING.md, "Laws of versions").
pub fn affected_versions_are_least()
    ensures { (model : Model) (old : Cells) (new : Cells) (held : VersionNode → Bool) → AffectedIsLeast model old new held }
{}

/// Where the keys of the input stay, no version is a seed (docs/MEANING.md, "Laws of versions").
pub fn same_keys_seed_none()
    ensures { (model : Model) (old : Cells) (new : Cells) (name : VersionName) → SameKeysSeedNone model old new name }
{}

/// A version that a change does not reach comes to what it came to before; nothing is asked of faults
/// (docs/MEANING.md, "Laws of versions").
pub fn unaffected_versions_keep()
    ensures { (model : Model) (old : Cells) (new : Cells) → UnaffectedKeep model old new }
{
    same_looks_make_the_same_step();
    steps_read_their_looks();
}

/// What is kept of a version that a change does not reach is what was kept of it (docs/MEANING.md, "Laws of versions").
pub fn unaffected_versions_stay_kept()
    ensures { (model : Model) (old : Cells) (new : Cells) → UnaffectedStayKept model old new }
{
    same_looks_make_the_same_step();
    steps_read_their_looks();
}
