//! Tables of tests, and changes of them.
ghost use Rattle.std.specs.Prelude.{◌≡◌, ◌==◌, ◌∷◌, [], true, false, All, Ok, length, IfOk};
ghost use Rattle.std.specs.Option.{IfSome, option_map_or};
ghost use Rattle.mq_ir.specs.Changes.{table_of};
ghost use Rattle.mq_ir.specs.Fits.{row_scope};
ghost use Rattle.mq_ir.specs.FitsExpression.{expression_fits};
ghost use Rattle.mq_ir.specs.FitsStatement.{change_fits_schema};
ghost use Rattle.mq_ir.specs.Tables.{Table as Seen, table_at};
ghost use Rattle.mq_ir.specs.declared.statement.Schema.{Schema as Columns};
ghost use Rattle.mq_tables.specs.Held.{RowsFit};
ghost use Rattle.mq_tables.specs.Staging.{ChangeFits, StandsOn};
ghost use Rattle.mq_delta_tests.specs.declared.rows.changes.TheConstants.{COLUMNS};

use crate::makers::{boxed, boxes, one, two, value};
use mq_ir::{Change, Column, Expr, Leaf, Schema, TableDef};
use mq_tables::{Pending, Staged, Tables};
use mq_values::{Boxed, CmpOp, Fail, Kind, Memory, Words};
use std::alloc::Global;

/// A change of a table of numbers: a key, and what stands beside it.
#[derive(Clone, Copy)]
pub enum Step {
    Insert(i128, i128),
    Update(i128, i128),
    Delete(i128),
}

// How many columns each table has.
const COLUMNS: usize = 2;

fn column(alloc: Global, name: &str) -> Result<Column, Memory> {
    Ok(Column {
        name: Words::new(alloc, name)?,
        kind: Kind::Int,
        not_null: true,
    })
}

// A table of two columns, of which the first is the key.
fn table(alloc: Global, name: &str) -> Result<TableDef, Memory> {
    let key = one(alloc, 0)?;
    Ok(TableDef {
        name: Words::new(alloc, name)?,
        schema: Schema {
            cols: two(alloc, column(alloc, "D")?, column(alloc, "M")?)?,
            key,
        },
    })
}

fn compare(alloc: Global, left: Expr, op: CmpOp, right: Expr) -> Result<Expr, Memory>
    ensures { IfOk result (λ e. e ≡ Expr.Cmp left op right) }
{
    let (left, right) = boxes(alloc, left, right)?;
    Ok(Expr::Cmp(left, op, right))
}

fn place(item: u32, column: u32) -> Expr
    ensures { result ≡ Expr.Leaf (Leaf.Column item column) }
{
    Expr::Leaf(Leaf::Column(item, column))
}

// The rows whose key is this number.
fn with_key(alloc: Global, key: i128) -> Result<Expr, Memory>
    ensures { IfOk result (λ e. expression_fits (row_scope (COLUMNS ∷ [])) e ≡ true) }
{
    compare(alloc, place(0, 0), CmpOp::Eq, Expr::Lit(value(key)))
}

fn insert(alloc: Global, table: Words, key: i128, beside: i128) -> Result<Change, Memory>
    ensures table { IfOk result (λ c. table_of c ≡ table) }
    ensures fits { IfOk result (λ c. (s : Columns) → length s.cols ≡ COLUMNS → change_fits_schema s c ≡ true) }
{
    let row = two(alloc, Expr::Lit(value(key)), Expr::Lit(value(beside)))?;
    let rows = one(alloc, row)?;
    Ok(Change::Insert { table, rows })
}

fn update(alloc: Global, table: Words, key: i128, beside: i128) -> Result<Change, Memory>
    ensures table { IfOk result (λ c. table_of c ≡ table) }
    ensures fits { IfOk result (λ c. (s : Columns) → length s.cols ≡ COLUMNS → change_fits_schema s c ≡ true) }
{
    let sets = one(alloc, (1, Expr::Lit(value(beside))))?;
    let chosen = with_key(alloc, key)?;
    Ok(Change::Update {
        table,
        sets,
        filter: Some(chosen),
    })
}

fn delete(alloc: Global, table: Words, key: i128) -> Result<Change, Memory>
    ensures table { IfOk result (λ c. table_of c ≡ table) }
    ensures fits { IfOk result (λ c. (s : Columns) → length s.cols ≡ COLUMNS → change_fits_schema s c ≡ true) }
{
    let chosen = with_key(alloc, key)?;
    Ok(Change::Delete {
        table,
        filter: Some(chosen),
    })
}

// A change of a table, which fits each table of two columns.
fn change(alloc: Global, table: Words, step: Step) -> Result<Change, Memory>
    ensures table { IfOk result (λ c. table_of c ≡ table) }
    ensures fits { IfOk result (λ c. (s : Columns) → length s.cols ≡ COLUMNS → change_fits_schema s c ≡ true) }
{
    match step {
        Step::Insert(key, beside) => insert(alloc, table, key, beside),
        Step::Update(key, beside) => update(alloc, table, key, beside),
        Step::Delete(key) => delete(alloc, table, key),
    }
}

fn has_two_columns(tables: &Tables, name: &str) -> bool
    ensures { result ≡ option_map_or (λ (t : Seen). length t.schema.cols == COLUMNS) (table_at tables.now name.now) false }
{
    match tables.table(name) {
        Some(table) => table.schema().cols.len() == COLUMNS,
        None => false,
    }
}

// A change of a table that is there.
fn fitting(alloc: Global, tables: &Tables, name: &str, step: Step) -> Result<Change, Memory>
    ensures { IfOk result (ChangeFits tables.now) }
{
    if !has_two_columns(tables, name) {
        return Err(Memory);
    }
    let table = Words::new(alloc, name)?;
    change(alloc, table, step)
}

fn change_of(
    alloc: Global,
    tables: &Tables,
    name: &str,
    step: Step,
) -> Result<Boxed<Change>, Memory>
    ensures { IfOk result (ChangeFits tables.now) }
{
    boxed(alloc, fitting(alloc, tables, name, step))
}

// Adds an empty table, where none has its name.
fn add_table(tables: &mut Tables, def: TableDef) -> Result<(), Memory>
    requires { RowsFit tables.old }
    ensures { RowsFit tables.new }
{
    if tables.table(def.name.as_str()).is_none() {
        tables.add(def)?;
    }
    Ok(())
}

pub fn empty_tables(alloc: Global) -> Result<Tables, Memory>
    ensures { IfOk result RowsFit }
{
    let mut tables = Tables::new(alloc);
    add_table(&mut tables, table(alloc, "T")?)?;
    add_table(&mut tables, table(alloc, "U")?)?;
    Ok(tables)
}

// What was made, or none where it is refused.
fn unless_refused<T: Drop, E: Drop>(made: Result<T, Fail<E>>) -> Result<Option<T>, Memory>
    ensures { IfOk result (λ found. IfSome found (λ item. made ≡ Ok item)) }
{
    match made {
        Ok(item) => Ok(Some(item)),
        Err(Fail::Cause(_)) => Ok(None),
        Err(Fail::Memory) => Err(Memory),
    }
}

fn apply(alloc: Global, tables: &mut Tables, change: &Change) -> Result<(), Memory>
    requires rows { RowsFit tables.old }
    requires change { ChangeFits tables.old change.now }
    ensures { RowsFit tables.new }
{
    unless_refused(tables.apply(alloc, change))?;
    Ok(())
}

fn add_row(alloc: Global, tables: &mut Tables, key: i128, beside: i128) -> Result<(), Memory>
    requires { RowsFit tables.old }
    ensures { RowsFit tables.new }
{
    let row = change_of(alloc, tables, "T", Step::Insert(key, beside))?;
    apply(alloc, tables, row.get())
}

/// Two tables, of which the first has these rows.
pub fn tables_with(alloc: Global, rows: &[(i128, i128)]) -> Result<Tables, Memory>
    ensures { IfOk result RowsFit }
{
    let mut tables = empty_tables(alloc)?;
    for row in rows {
        add_row(alloc, &mut tables, row.0, row.1)?;
    }
    Ok(tables)
}

// What a change comes to, or none where it is refused.
fn staged_change(alloc: Global, tables: &Tables, change: &Change) -> Result<Option<Staged>, Memory>
    requires fit { RowsFit tables.now }
    requires change { ChangeFits tables.now change.now }
    ensures { IfOk result (λ staged. IfSome staged (StandsOn tables.now)) }
{
    unless_refused(tables.stage(alloc, change))
}

fn staged(alloc: Global, tables: &Tables, name: &str, step: Step) -> Result<Option<Staged>, Memory>
    requires { RowsFit tables.now }
    ensures { IfOk result (λ staged. IfSome staged (StandsOn tables.now)) }
{
    let change = change_of(alloc, tables, name, step)?;
    staged_change(alloc, tables, change.get())
}

// Holds a change over those that are pending, unless it is refused.
fn hold_change(
    alloc: Global,
    tables: &Tables,
    pending: &mut Pending,
    change: &Change,
) -> Result<(), Memory>
    requires fit { RowsFit tables.now }
    requires change { ChangeFits tables.now change.now }
    requires stand { All (StandsOn tables.now) pending.old }
    ensures { All (StandsOn tables.now) pending.new }
{
    unless_refused(tables.hold(alloc, pending, change))?;
    Ok(())
}

fn hold(
    alloc: Global,
    tables: &Tables,
    pending: &mut Pending,
    name: &str,
    step: Step,
) -> Result<(), Memory>
    requires fit { RowsFit tables.now }
    requires stand { All (StandsOn tables.now) pending.old }
    ensures { All (StandsOn tables.now) pending.new }
{
    let change = change_of(alloc, tables, name, step)?;
    hold_change(alloc, tables, pending, change.get())
}

// What steps of one table come to, each held over those before it, or none where all are refused.
fn held(
    alloc: Global,
    tables: &Tables,
    name: &str,
    steps: &[Step],
) -> Result<Option<Staged>, Memory>
    requires { RowsFit tables.now }
    ensures { IfOk result (λ staged. IfSome staged (StandsOn tables.now)) }
{
    let mut pending = Pending::new(alloc);
    for step in steps {
        hold(alloc, tables, &mut pending, name, *step)?;
    }
    Ok(pending.into_staged().pop())
}

/// What steps of one table come to: one alone as a change, others as a block.
pub fn made(
    alloc: Global,
    tables: &Tables,
    name: &str,
    steps: &[Step],
) -> Result<Option<Staged>, Memory>
    requires { RowsFit tables.now }
    ensures { IfOk result (λ staged. IfSome staged (StandsOn tables.now)) }
{
    match steps {
        [step] => staged(alloc, tables, name, *step),
        _ => held(alloc, tables, name, steps),
    }
}
