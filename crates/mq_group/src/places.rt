//! Where the expressions of items stand.
ghost use Rattle.std.specs.Prelude.{◌≡◌, [], map, slice_index_or, IfOk};
ghost use Rattle.std.specs.Option.{option_copied};
ghost use Rattle.std.specs.List.{list_any};
ghost use Rattle.mq_values.specs.Answers.{Gives};
ghost use Rattle.mq_values.specs.declared.value.Value.TheVariants.{Null};
ghost use Rattle.mq_ir.specs.Items as spec;
ghost use Rattle.mq_group.specs.Members.{row_or_none};

use crate::keys::column_value;
use crate::members::{group_value, grouped_column};
use crate::row_values::RowValues;
use mq_ir::{ColRef, Leaf};
use mq_scalar::Env;
use mq_values::{Fail, Memory, Value, ValueFault};
use std::alloc::Global;

/// The place of an expression over a base row, of which it sees the columns and nothing else. Where there is no row,
/// each column is null.
#[derive(Drop)]
pub struct RowPlace<'a, R> {
    pub row: Option<&'a R>,
}

impl<'a, R: RowValues> Env for RowPlace<'a, R> {
    ghost gives = { λ env. spec.row_leaves (row_or_none R.values (option_copied env.row)) };

    fn leaf(&mut self, _alloc: Global, leaf: &Leaf) -> Result<Value, Fail<ValueFault>> {
        match leaf {
            Leaf::Column(item, column) => Ok(column_of(self.row, *item, *column)?),
            _ => Ok(Value::Null),
        }
    }
}

/// A column of a row, or null where there is no row.
pub fn column_of<R: RowValues>(row: Option<&R>, item: u32, column: u32) -> Result<Value, Memory>
    ensures { IfOk result (λ v. v ≡ slice_index_or (slice_index_or (row_or_none R.values (option_copied row.entry)) item []) column Null) }
{
    match row {
        Some(row) => column_value(row, item, column),
        None => Ok(Value::Null),
    }
}

/// The place of an expression over a group: it sees the columns that GROUP BY names, and aggregates over the members.
#[derive(Drop)]
pub struct GroupPlace<'a, R> {
    pub cols: &'a [ColRef],
    pub rows: &'a [R],
    pub group: &'a [u32],
}

impl<'a, R: RowValues> Env for GroupPlace<'a, R> {
    ghost gives = { λ env. spec.group_leaves env.cols.now (spec.members_of (map R.values env.rows.now) env.group.now) };

    fn leaf(&mut self, alloc: Global, leaf: &Leaf) -> Result<Value, Fail<ValueFault>> {
        match leaf {
            Leaf::Column(item, column) => Ok(grouped_column(
                self.cols, self.rows, self.group, *item, *column,
            )?),
            Leaf::GroupAgg(agg, e) => group_value(alloc, *agg, e, self.rows, self.group),
            _ => Ok(Value::Null),
        }
    }
}
