//! Where the expressions of a change stand.
ghost use Rattle.std.specs.Prelude.{◌≡◌, [], ◌∷◌, slice_index_or, IfOk};
ghost use Rattle.mq_values.specs.declared.value.Value.TheVariants.{Null};
ghost use Rattle.mq_ir.specs.Items.{row_leaves};

use mq_ir::{Leaf, Row};
use mq_scalar::Env;
use mq_values::{Fail, Memory, Value, ValueFault};
use std::alloc::Global;

// The expressions of INSERT see no row.
#[derive(Drop)]
pub struct NoRow;

impl Env for NoRow {
    ghost gives = { λ _. row_leaves [] };

    fn leaf(&mut self, _alloc: Global, _leaf: &Leaf) -> Result<Value, Fail<ValueFault>> {
        Ok(Value::Null)
    }
}

// The expressions of UPDATE and DELETE see a row as it was.
#[derive(Drop)]
pub struct OneRow<'a> {
    pub row: &'a Row,
}

impl<'a> Env for OneRow<'a> {
    ghost gives = { λ s. row_leaves (s.row.now ∷ []) };

    fn leaf(&mut self, _alloc: Global, leaf: &Leaf) -> Result<Value, Fail<ValueFault>> {
        match leaf {
            Leaf::Column(0, column) => Ok(value_at(self.row, *column)?),
            _ => Ok(Value::Null),
        }
    }
}

// The value of a column, or null where there is no such column.
pub fn value_at(row: &Row, column: u32) -> Result<Value, Memory>
    ensures { IfOk result (λ v. v ≡ slice_index_or row.now column Null) }
{
    match row.as_slice().get(column as usize) {
        Some(v) => v.copy(),
        None => Ok(Value::Null),
    }
}
