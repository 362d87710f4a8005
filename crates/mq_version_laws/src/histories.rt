ghost use Rattle.std.specs.Prelude.{List};
ghost use Rattle.mq_ir.specs.declared.query.CellName.{CellName};
ghost use Rattle.mq_ir.specs.Keys.{Tuple};
ghost use Rattle.mq_ir.specs.Partitions.{Cells};
ghost use Rattle.mq_ir.specs.Unfolding.{Model};
ghost use Rattle.mq_version_laws.specs.HistoryLaws.{HistoryIsSlots, LastVersionStands, UnfaultedAreDone, VersionsAreSound, VersionsAreWorthTheirLooks};

/// The versions over keys that ascend are sound: each has a name of its own, is by the rule of its number, and is over
/// cells that ascend, with its own cell among them (docs/MEANING.md, "Laws of versions").
pub fn versions_are_sound()
    ensures { (model : Model) (keys : List Tuple) → VersionsAreSound model keys }
{}

/// The history pairs each version with the slot that is found by its name (docs/MEANING.md, "Laws of versions").
pub fn histories_are_slots()
    ensures { (model : Model) (input : Cells) → HistoryIsSlots model input }
{}

/// The slot of a version is what its rule makes of what its resolved looks come to (docs/MEANING.md, "Laws of versions").
pub fn versions_are_worth_their_looks()
    ensures { (model : Model) (input : Cells) → VersionsAreWorthTheirLooks model input }
{}

/// What stands at a measure in the end is the slot of its last version, or the input where it has none
/// (docs/MEANING.md, "Laws of versions").
pub fn last_versions_stand()
    ensures { (model : Model) (input : Cells) (c : CellName) → LastVersionStands model input c }
{}

/// Where no version faults by its own evaluation, each has a value (docs/MEANING.md, "Laws of versions").
pub fn unfaulted_versions_are_done()
    ensures { (model : Model) (input : Cells) → UnfaultedAreDone model input }
{}
