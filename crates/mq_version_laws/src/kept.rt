ghost use Rattle.std.specs.Prelude.{ℕ, List};
ghost use Rattle.mq_ir.specs.declared.query.CellName.{CellName};
ghost use Rattle.mq_ir.specs.Keys.{Tuple};
ghost use Rattle.mq_ir.specs.Partitions.{Cells};
ghost use Rattle.mq_ir.specs.Unfolding.{Model};
ghost use Rattle.mq_ir.specs.VersionLooks.{VersionName};
ghost use Rattle.mq_version_laws.specs.KeptLaws.{HistoryTellsItsVersions, KeptApart, KeptKeyTells, KeptSlotsAreSlots, NothingKeptElsewhere, VersionsAreWide};

/// The kept form of a history tells its versions (docs/MEANING.md, "Laws of versions").
pub fn histories_tell_their_versions()
    ensures { (model : Model) (keys : List Tuple) → HistoryTellsItsVersions model keys }
{}

/// The key under which a version is kept tells its rule, its place and its cell (docs/MEANING.md, "Laws of versions").
pub fn kept_keys_tell()
    ensures { (a : VersionName) (b : VersionName) → KeptKeyTells a b }
{}

/// What is kept at a version is its slot (docs/MEANING.md, "Laws of versions").
pub fn kept_slots_are_slots()
    ensures { (model : Model) (input : Cells) → KeptSlotsAreSlots model input }
{}

/// Nothing is kept where no version is (docs/MEANING.md, "Laws of versions").
pub fn nothing_is_kept_elsewhere()
    ensures { (model : Model) (input : Cells) (c : CellName) → NothingKeptElsewhere model input c }
{}

/// Where keys and left sides have so many values and places, the cells of the versions have as many
/// (docs/MEANING.md, "Laws of versions").
pub fn versions_are_wide()
    ensures { (n : ℕ) (model : Model) (keys : List Tuple) → VersionsAreWide n model keys }
{}

/// Then nothing is kept under a key of that width, where the input has its cells (docs/MEANING.md, "Laws of versions").
pub fn kept_versions_stand_apart()
    ensures { (n : ℕ) (model : Model) (input : Cells) (c : CellName) → KeptApart n model input c }
{}
