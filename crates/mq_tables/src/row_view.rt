//! A row that is lent.
ghost use Rattle.std.specs.Prelude.{◌≡◌, ◌<◌, length, slice_index_or};
ghost use Rattle.mq_values.specs.declared.value.Value.TheVariants.{Null};

use mq_ir::Row;
use mq_values::Value;
use std::marker::Model;

/// A row of a table, lent by it. Contracts see it as its values.
#[derive(Drop)]
pub struct RowView<'a> {
    row: &'a Row,
}

impl<'a> Model for RowView<'a> {
    ghost use Rattle.mq_ir.specs.Keys.{Tuple};

    ghost Value = { Tuple };

    ghost view = { λ v. v.row.now };
}

impl<'a> RowView<'a> {
    pub fn new(row: &'a Row) -> RowView<'a>
        ensures { result ≡ row.now }
    {
        RowView { row }
    }

    /// How many columns the row has.
    pub fn width(&self) -> usize
        ensures { result ≡ length self.now }
    {
        self.row.as_slice().len()
    }

    /// The value of a column that is there, counted from 0. It is the table's own, and no copy.
    pub fn value(&self, column: u32) -> &'a Value
        requires { column < length self.now }
        ensures { result.now ≡ slice_index_or self.now column Null }
    {
        &self.row.as_slice()[column as usize]
    }
}
