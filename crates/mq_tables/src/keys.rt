//! The keys of rows.
ghost use Rattle.std.specs.Prelude.{◌≡◌, IfOk};
ghost use Rattle.mq_ir.specs.Changes as spec;
ghost use Rattle.mq_tables.specs.Columns as drafts;

use crate::numbered_key::NumberedKey;
use crate::scopes::value_at;
use mq_ir::{Expr, Row, Schema};
use mq_values::{Items, Key, Memory};
use std::alloc::Global;

/// The key of a row, with the columns in the order of PRIMARY KEY.
pub fn row_key(alloc: Global, schema: &Schema, row: &Row) -> Result<Key, Memory>
    ensures { IfOk result (λ key. key ≡ spec.row_key schema.now row.now) }
{
    let mut values = Items::with_room(alloc, schema.key.len());
    'columns: for column in schema.key.as_slice() {
        values.push(value_at(row, *column)?)?;
    }
    Key::new(alloc, values)
}

/// The same with the number of the row.
pub fn numbered_key(
    alloc: Global,
    schema: &Schema,
    row: &Row,
    number: usize,
) -> Result<NumberedKey, Memory>
    ensures { IfOk result (λ key. key ≡ spec.row_key schema.now row.now) }
{
    Ok(NumberedKey::new(row_key(alloc, schema, row)?, number))
}

/// Whether SET puts a value into no column of the key.
pub fn spares_key(sets: &[(u32, Expr)], key: &[u32]) -> bool
    ensures { result ≡ drafts.spares_key sets.now key.now }
{
    sets.iter().all(|set| !key.contains(&set.0))
}
