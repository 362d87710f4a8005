//! Laws of changes of rows.
ghost use Rattle.std.specs.Prelude.{ℕ, List};
ghost use Rattle.mq_ir.specs.declared.query.ModelPart.{ModelPart};
ghost use Rattle.mq_ir.specs.Keys.{Tuple};
ghost use Rattle.mq_delta_parts.specs.ChangeLaws.{OthersStay, PartitionsChange};

/// A partition of which no row went and none came has the input that it had, and is there exactly where it was. The call does
/// nothing: its contract is the law (docs/MEANING.md, "Partitions").
pub fn other_partitions_stay()
    ensures { (part : ModelPart) (old gone come new : List Tuple) (key : Tuple) → OthersStay part old gone come new key }
{}

/// A change of all rows changes the rows of a partition by those of it that went and came, as `touched_keys` gives them to
/// `input_after`. The call does nothing: its contract is the law (docs/MEANING.md, "Partitions").
pub fn partitions_change()
    ensures { (parts : ℕ) (old gone come new : List Tuple) (key : Tuple) → PartitionsChange parts old gone come new key }
{}
