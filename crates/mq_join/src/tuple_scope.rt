//! Where the conditions of a tuple stand.
ghost use Rattle.std.specs.Prelude.{◌≡◌, [], slice_index_or, IfOk};
ghost use Rattle.mq_values.specs.declared.value.Value.TheVariants.{Null};
ghost use Rattle.mq_ir.specs.BaseRows.{row_leaves, rows_at};

use crate::from_items::ItemRows;
use mq_ir::Leaf;
use mq_scalar::Env;
use mq_values::{Fail, Memory, Value, ValueFault};
use std::alloc::Global;

// The conditions see the rows that stand at these places of the items.
#[derive(Drop)]
pub struct TupleScope<'b, 'a> {
    pub items: &'b [ItemRows<'a>],
    pub places: &'b [usize],
}

impl<'b, 'a> Env for TupleScope<'b, 'a> {
    ghost gives = { λ s. row_leaves (rows_at s.items.now s.places.now) };

    fn leaf(&mut self, _alloc: Global, leaf: &Leaf) -> Result<Value, Fail<ValueFault>> {
        match leaf {
            Leaf::Column(item, column) => Ok(value_at(self.items, self.places, *item, *column)?),
            _ => Ok(Value::Null),
        }
    }
}

// The value of a column, or null where there is no such column.
fn value_at(
    items: &[ItemRows<'_>],
    places: &[usize],
    item: u32,
    column: u32,
) -> Result<Value, Memory>
    ensures { IfOk result (λ v. v ≡ slice_index_or (slice_index_or (rows_at items.now places.now) item []) column Null) }
{
    match row_at(items, places, item as usize).get(column as usize) {
        Some(v) => v.copy(),
        None => Ok(Value::Null),
    }
}

/// The row of an item, or none where it has no place or no such row.
pub fn row_at<'a>(items: &[ItemRows<'a>], places: &[usize], item: usize) -> &'a [Value]
    ensures { result.now ≡ slice_index_or (rows_at items.now places.now) item [] }
{
    match items.get(item) {
        Some(rows) => match places.get(item) {
            Some(place) => rows.row(*place),
            None => &[],
        },
        None => &[],
    }
}
