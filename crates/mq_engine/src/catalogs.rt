//! The names and columns of the tables, kept beside them for those who bind statements.
ghost use Rattle.std.specs.Prelude.{◌≡◌, IfOk};

use mq_ir::{Column, Schema, TableEntry};
use mq_values::{Items, Memory, Words};
use std::alloc::Global;

/// The entry of a table with this name and these columns, which are copied.
pub fn table_entry(alloc: Global, name: Words, schema: &Schema) -> Result<TableEntry, Memory>
    ensures { IfOk result (λ entry. entry ≡ record { name = name; schema = schema.now }) }
{
    let schema = same_schema(alloc, schema)?;
    Ok(TableEntry { name, schema })
}

fn same_schema(alloc: Global, schema: &Schema) -> Result<Schema, Memory>
    ensures { IfOk result (λ s. s ≡ schema.now) }
{
    let cols = same_columns(alloc, schema.cols.as_slice())?;
    let key = same_numbers(alloc, schema.key.as_slice())?;
    Ok(Schema { cols, key })
}

fn same_columns(alloc: Global, cols: &[Column]) -> Result<Items<Column>, Memory>
    ensures { IfOk result (λ copies. copies ≡ cols.now) }
{
    let mut copies = Items::new(alloc);
    for col in cols {
        copies.push(same_column(col)?)?;
    }
    Ok(copies)
}

fn same_column(col: &Column) -> Result<Column, Memory>
    ensures { IfOk result (λ copy. copy ≡ col.now) }
{
    Ok(Column {
        name: col.name.copy()?,
        kind: col.kind,
        not_null: col.not_null,
    })
}

fn same_numbers(alloc: Global, numbers: &[u32]) -> Result<Items<u32>, Memory>
    ensures { IfOk result (λ copies. copies ≡ numbers.now) }
{
    let mut copies = Items::new(alloc);
    for number in numbers {
        copies.push(*number)?;
    }
    Ok(copies)
}
