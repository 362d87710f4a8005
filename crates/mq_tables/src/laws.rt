//! What holds of every change.
ghost use Rattle.mq_ir.specs.declared.statement.Change.{Change};
ghost use Rattle.mq_ir.specs.Tables.{Tables};
ghost use Rattle.mq_tables.specs.OldPlaces.{KeepsOrder};
ghost use Rattle.mq_tables.specs.PuttingBack.{UpdatesReplace};

/// The rows of a staged change that stood in the table before stand in their old order: their old places ascend, none
/// twice. The call does nothing: its contract is the law (docs/MEANING.md, "Changes").
pub fn old_places_ascend()
    ensures { (tables : Tables) (change : Change) → KeepsOrder tables change }
{}

/// An UPDATE that is made replaces rows of its table, and the rows of all others are as they were. The call does nothing:
/// its contract is the law (docs/MEANING.md, "Changes").
pub fn updates_replace_rows()
    ensures { UpdatesReplace }
{}
