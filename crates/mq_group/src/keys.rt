//! The values of columns, and keys made of them.
ghost use Rattle.std.specs.Prelude.{◌≡◌, [], slice_index_or, IfOk};
ghost use Rattle.mq_values.specs.declared.value.Value.TheVariants.{Null};
ghost use Rattle.mq_ir.specs.Items.{group_key};
ghost use Rattle.mq_group.specs.Columns.{column_in};

use crate::row_values::RowValues;
use mq_ir::ColRef;
use mq_values::{Items, Key, Memory, Value};
use std::alloc::Global;

/// The value of a column of a row, or null where there is no such column.
pub fn column_value<R: RowValues>(row: &R, item: u32, column: u32) -> Result<Value, Memory>
    ensures { IfOk result (λ v. v ≡ slice_index_or (slice_index_or (R.values row.now) item []) column Null) }
{
    match row.value(item, column) {
        Some(v) => v.copy(),
        None => Ok(Value::Null),
    }
}

/// The values of the columns that GROUP BY names.
pub fn key_of<R: RowValues>(alloc: Global, cols: &[ColRef], row: &R) -> Result<Key, Memory>
    ensures { IfOk result (λ key. key ≡ group_key cols.now (R.values row.now)) }
{
    let mut values = Items::with_room(alloc, cols.len());
    for col in cols {
        values.push(column_value(row, col.item, col.column)?)?;
    }
    Key::new(alloc, values)
}
