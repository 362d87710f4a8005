ghost use Rattle.std.specs.Prelude.{ℕ, List};
ghost use Rattle.mq_values.specs.declared.value.Kind.{Kind};
ghost use Rattle.mq_values.specs.declared.value.Value.{Value};
ghost use Rattle.mq_ir.specs.declared.query.ColRef.{ColRef};
ghost use Rattle.mq_ir.specs.Items.{BaseRow};
ghost use Rattle.mq_ir.specs.Keys.{Tuple};
ghost use Rattle.mq_ir.specs.RowLaws.{ConvertsOnce, FirstRowCounts, PartitionsAscend, RowsHaveOneGroup, RowsHaveOnePartition};

/// Every item row is in exactly one partition. The call does nothing: its contract is the law
/// (docs/MEANING.md, "Partitions").
pub fn rows_have_one_partition()
    ensures { (parts : ℕ) (items : List Tuple) → RowsHaveOnePartition parts items }
{}

/// The keys of the partitions ascend, each once. The call does nothing: its contract is the law
/// (docs/MEANING.md, "Partitions").
pub fn partitions_ascend()
    ensures { (parts : ℕ) (items : List Tuple) → PartitionsAscend parts items }
{}

/// Every base row is in exactly one group. The call does nothing: its contract is the law
/// (docs/MEANING.md, "Groups and items").
pub fn rows_have_one_group()
    ensures { (cols : List ColRef) (rows : List BaseRow) → RowsHaveOneGroup cols rows }
{}

/// Where a dimension tuple stands in several rows, a look-up in the cells finds the measures of the first of
/// them. The call does nothing: its contract is the law (docs/MEANING.md, "Partitions").
pub fn first_rows_count()
    ensures { (rows : List (Tuple × Tuple)) (key : Tuple) → FirstRowCounts rows key }
{}

/// A value that is converted twice is as converted once. The call does nothing: its contract is the law
/// (docs/LANGUAGE.md, "Conversions").
pub fn values_convert_once()
    ensures { (v : Value) (kind : Kind) → ConvertsOnce v kind }
{}
