//! CREATE TABLE: the name, the columns and the key.

ghost use Rattle.std.specs.Prelude.{◌≡◌, ◌==◌, position, map, IfOk};
ghost use Rattle.std.specs.List.{enumerate_from, list_any};
ghost use Rattle.mq_values.specs.Answers.{Gives};
ghost use Rattle.mq_ir.specs.Names as names;
ghost use Rattle.mq_ir.specs.Tables.{is_name};
ghost use Rattle.mq_ir.specs.declared.statement.Column.{Column as ColumnOf};
ghost use Rattle.mq_binder.specs.TableWalk as spec;

use mq_ast::ColDef;
use mq_bind_scopes::{duplicate_name, kind_fits, limit, number, unknown_name};
use mq_ir::{Catalog, Column, LIMIT_OF_COLUMNS, LIMIT_OF_SCALE, LIMIT_OF_TABLES, Schema, TableDef};
use mq_lexer::folded;
use mq_values::{Fail, Items, MAX_COLUMNS, MAX_TABLES, Memory, Refused, Words};
use std::alloc::Global;

/// Whether there is a table of this name.
pub fn is_table(catalog: &Catalog, name: &Words) -> bool
    ensures { result ≡ names.is_table catalog.now name.now }
{
    catalog.tables.has(name.as_str())
}

/// Whether there is a table, a view or a scenario of this name.
pub fn is_taken(catalog: &Catalog, name: &Words) -> bool
    ensures { result ≡ names.is_taken catalog.now name.now }
{
    is_table(catalog, name) || catalog.is_view(name.as_str()) || catalog.is_scenario(name.as_str())
}

/// Whether the name is one of these.
pub fn has_name(names: &[Words], name: &Words) -> bool
    ensures { result ≡ list_any (is_name name.now) names.now }
{
    names.iter().any(|other| *name == *other)
}

// A column behind columns of these names.
fn column_of(alloc: Global, taken: &[Words], c: &ColDef) -> Result<Column, Fail<Refused>>
    ensures { Gives result (spec.column_of taken.now c.now) }
{
    let name = folded(alloc, c.name.as_str())?;
    if has_name(taken, &name) {
        return Err(duplicate_name(name));
    }
    if !kind_fits(c.kind) {
        return Err(limit(LIMIT_OF_SCALE));
    }
    Ok(Column {
        name,
        kind: c.kind,
        not_null: c.not_null,
    })
}

fn columns_of(alloc: Global, cols: &[ColDef]) -> Result<Items<Column>, Fail<Refused>>
    ensures { Gives result (spec.columns_of cols.now) }
{
    let mut taken = Items::new(alloc);
    let mut columns = Items::new(alloc);
    'cols: for c in cols {
        let column = column_of(alloc, taken.as_slice(), c)?;
        taken.push(column.name.copy()?)?;
        columns.push(column)?;
    }
    Ok(columns)
}

fn place_called(columns: &[Column], name: &Words) -> Option<usize>
    ensures { result ≡ position (λ (c : ColumnOf). is_name name.now c.name) columns.now }
{
    columns.iter().position(|column| *name == column.name)
}

// The number of the column of a name.
fn column_called(columns: &[Column], name: Words) -> Result<u32, Fail<Refused>>
    ensures { Gives result (spec.column_called columns.now name) }
{
    match place_called(columns, &name) {
        Some(place) => Ok(number(place)?),
        None => Err(unknown_name(name)),
    }
}

fn is_among(numbers: &[u32], n: u32) -> bool
    ensures { result ≡ list_any (λ m. m == n) numbers.now }
{
    numbers.iter().any(|m| *m == n)
}

/// The number of the column that a name names, which is new behind these.
pub fn new_column(
    alloc: Global,
    columns: &[Column],
    taken: &[u32],
    name: &Words,
) -> Result<u32, Fail<Refused>>
    ensures { Gives result (spec.new_column columns.now taken.now name.now) }
{
    let name = folded(alloc, name.as_str())?;
    let n = column_called(columns, name.copy()?)?;
    if is_among(taken, n) {
        return Err(duplicate_name(name));
    }
    Ok(n)
}

/// The numbers of the columns that these names name, each once.
pub fn columns_named(
    alloc: Global,
    columns: &[Column],
    names: &[Words],
) -> Result<Items<u32>, Fail<Refused>>
    ensures { Gives result (spec.columns_named columns.now names.now) }
{
    let mut numbers = Items::new(alloc);
    'names: for name in names {
        let n = new_column(alloc, columns, numbers.as_slice(), name)?;
        numbers.push(n)?;
    }
    Ok(numbers)
}

// The columns of the key are NOT NULL.
fn with_key(key: &[u32], n: u32, c: &Column) -> Result<Column, Memory>
    ensures { IfOk result (λ column. column ≡ spec.with_key key.now (n, c.now)) }
{
    Ok(Column {
        name: c.name.copy()?,
        kind: c.kind,
        not_null: c.not_null || is_among(key, n),
    })
}

fn cols_with(alloc: Global, columns: &[Column], key: &[u32]) -> Result<Items<Column>, Memory>
    ensures { IfOk result (λ cols. cols ≡ map (spec.with_key key.now) (enumerate_from 0 columns.now)) }
{
    let mut cols = Items::new(alloc);
    'columns: for (n, c) in columns.iter().enumerate() {
        cols.push(with_key(key, number(n)?, c)?)?;
    }
    Ok(cols)
}

fn schema_with(alloc: Global, columns: &[Column], key: Items<u32>) -> Result<Schema, Memory>
    ensures { IfOk result (λ schema. schema ≡ spec.schema_with columns.now key) }
{
    let cols = cols_with(alloc, columns, key.as_slice())?;
    Ok(Schema { cols, key })
}

/// A table to be created, with the first offence of its name, its columns and its key.
pub fn table_bound(
    alloc: Global,
    catalog: &Catalog,
    name: Words,
    cols: &[ColDef],
    key: &[Words],
) -> Result<TableDef, Fail<Refused>>
    ensures { Gives result (spec.table_bound catalog.now name cols.now key.now) }
{
    if is_taken(catalog, &name) {
        return Err(duplicate_name(name));
    }
    if catalog.tables.len() >= MAX_TABLES {
        return Err(limit(LIMIT_OF_TABLES));
    }
    let columns = columns_of(alloc, cols)?;
    if columns.len() > MAX_COLUMNS {
        return Err(limit(LIMIT_OF_COLUMNS));
    }
    let numbers = columns_named(alloc, columns.as_slice(), key)?;
    let schema = schema_with(alloc, columns.as_slice(), numbers)?;
    Ok(TableDef { name, schema })
}
