//! Base rows as rows that lend their values.
ghost use Rattle.std.specs.Prelude.{◌≡◌, map, IfOk};
ghost use Rattle.mq_join.specs.Rows.{rows_in};

use mq_group::RowValues;
use mq_join::JoinRow;
use mq_values::{Memory, Value};
use std::alloc::Global;

/// A base row over the tables, whose values are lent by them.
#[derive(Drop)]
pub struct JoinedRow<'a> {
    pub row: JoinRow<'a>,
}

impl<'a> RowValues for JoinedRow<'a> {
    ghost values = { λ joined. rows_in joined.row };

    fn value(&self, item: u32, column: u32) -> Option<&Value> {
        self.row.row(item).get(column as usize)
    }
}

/// The same base rows, in order. No value is copied.
pub fn joined_rows<'a>(alloc: Global, rows: Vec<JoinRow<'a>>) -> Result<Vec<JoinedRow<'a>>, Memory>
    ensures { IfOk result (λ joined. map (λ j. rows_in j.row) joined.items ≡ map rows_in rows.entry.items) }
{
    let mut joined = Vec::with_capacity(alloc, rows.len())?;
    for row in rows {
        joined.push(JoinedRow { row })?;
    }
    Ok(joined)
}
