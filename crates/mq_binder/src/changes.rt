//! INSERT, UPDATE and DELETE (docs/LANGUAGE.md, "The order of binding").

ghost use Rattle.std.specs.Prelude.{◌≡◌, length, map, slice_set, IfOk};
ghost use Rattle.std.specs.List.{list_all, zip};
ghost use Rattle.mq_values.specs.Answers.{Gives};
ghost use Rattle.mq_ir.specs.Results.{each};
ghost use Rattle.mq_ast.specs.declared.expressions.E.{E as TreeOf};
ghost use Rattle.mq_binder.specs.ChangeWalk as spec;
ghost use Rattle.mq_bind_expr.specs.ExpressionWalk as walk;
ghost use Rattle.mq_bind_expr.specs.OperatorNodes as nodes;
ghost use Rattle.mq_bind_scopes.specs.Positions as positions;
ghost use Rattle.mq_binder.specs.RowPlaces as places;

use crate::lists::all_columns;
use crate::sources::{push_columns, row_scope};
use crate::tables::{columns_named, new_column};
use mq_ast::E;
use mq_bind_expr::{Held, bound, expr_of};
use mq_bind_scopes::{
    ExprKind, Found, Part, Scope, is_assignable, mismatch, number, of_column, standing,
};
use mq_ir::{Column, Expr, Schema};
use mq_values::{Boxed, Fail, Items, Memory, Refused, Value, Words};
use std::alloc::Global;

// The kind of the column of a number.
fn kind_at(schema: &Schema, n: u32) -> ExprKind
    ensures { result ≡ spec.kind_at schema.now n }
{
    match schema.cols.get(n as usize) {
        Some(column) => of_column(column.kind),
        None => ExprKind::Null,
    }
}

// The columns that INSERT gives values for: those named, or all.
fn inserted_columns(
    alloc: Global,
    schema: &Schema,
    cols: &Option<Items<Words>>,
) -> Result<Items<u32>, Fail<Refused>>
    ensures { Gives result (spec.inserted_columns schema.now cols.now) }
{
    match cols {
        Some(names) => columns_named(alloc, schema.cols.as_slice(), names.as_slice()),
        None => Ok(all_columns(alloc, schema.cols.len())?),
    }
}

/// In a row that is inserted no column is known.
pub fn no_columns(alloc: Global) -> Scope
    ensures { result ≡ spec.no_columns }
{
    row_scope(alloc, Items::new(alloc), Items::new(alloc))
}

// What stands in a column that no value is given for.
fn null_of(_c: &Column) -> Expr
    ensures { result ≡ places.null_of _c.now }
{
    Expr::Lit(Value::Null)
}

fn null_row(alloc: Global, columns: &[Column]) -> Result<Items<Expr>, Memory>
    ensures { IfOk result (λ row. row ≡ map places.null_of columns.now) }
{
    let mut row = Items::new(alloc);
    'columns: for c in columns {
        row.push(null_of(c))?;
    }
    Ok(row)
}

// Puts an item at a number, where there is one. Generic, as what follows, since it only moves and drops what it is given.
fn put<T: Drop>(row: &mut Vec<T>, n: u32, e: T)
    ensures { row.new.items ≡ slice_set row.old.items n e }
{
    if (n as usize) < row.len() {
        row[n as usize] = e;
    }
}

// Puts an item at the column of this place.
fn put_at<T: Drop>(numbers: &[u32], place: usize, e: T, row: &mut Vec<T>)
    ensures { row.new.items ≡ places.put_at numbers.now place e row.old.items }
{
    if let Some(n) = numbers.get(place) {
        put(row, *n, e);
    }
}

fn put_found(numbers: &[u32], place: usize, f: Held, row: &mut Vec<Expr>)
    ensures { row.new.items ≡ places.put_at numbers.now place f.e row.old.items }
{
    put_at(numbers, place, f.into_inner().e, row);
}

fn null_values(alloc: Global, schema: &Schema) -> Result<Vec<Expr>, Memory>
    ensures { IfOk result (λ row. row.items ≡ places.null_row schema.now) }
{
    Ok(null_row(alloc, schema.cols.as_slice())?.into_vec())
}

// NULL for each column, and then the values, each at its column.
fn row_with(
    alloc: Global,
    schema: &Schema,
    numbers: &[u32],
    found: Items<Held>,
) -> Result<Items<Expr>, Memory>
    ensures { IfOk result (λ row. row ≡ spec.row_with schema.now numbers.now (nodes.exprs_of found)) }
{
    let mut row = null_values(alloc, schema)?;
    let mut place = 0;
    'found: for f in found.into_vec() {
        put_found(numbers, place, f, &mut row);
        place += 1;
    }
    Ok(Items::from_vec(row))
}

fn goes_into(schema: &Schema, n: u32, f: &Found) -> bool
    ensures { result ≡ spec.goes_into schema.now (n, f.now) }
{
    is_assignable(kind_at(schema, n), f.kind)
}

// Whether each value goes into its column.
fn all_go_into(schema: &Schema, numbers: &[u32], found: &[Held]) -> bool
    ensures { result ≡ list_all (spec.goes_into schema.now) (zip numbers.now found.now) }
{
    numbers
        .iter()
        .zip(found)
        .all(|(n, f)| goes_into(schema, *n, f.get()))
}

fn values_bound(alloc: Global, scope: &Scope, es: &[E]) -> Result<Items<Held>, Fail<Refused>>
    ensures { Gives result (each (λ (e : TreeOf). walk.bound scope.now e (positions.standing Part.Row)) es.now) }
{
    let mut found = Items::new(alloc);
    'es: for e in es {
        found.push(bound(alloc, scope, standing(Part::Row), e)?)?;
    }
    Ok(found)
}

// A row: its width, its expressions, and then whether each value goes into its column.
fn row_bound(
    alloc: Global,
    schema: &Schema,
    numbers: &[u32],
    es: &[E],
) -> Result<Items<Expr>, Fail<Refused>>
    ensures { Gives result (spec.row_bound schema.now numbers.now es.now) }
{
    if es.len() != numbers.len() {
        return Err(mismatch());
    }
    let scope = no_columns(alloc);
    let found = values_bound(alloc, &scope, es)?;
    if !all_go_into(schema, numbers, found.as_slice()) {
        return Err(mismatch());
    }
    Ok(row_with(alloc, schema, numbers, found)?)
}

fn rows_at(
    alloc: Global,
    schema: &Schema,
    numbers: &[u32],
    rows: &[Items<E>],
) -> Result<Items<Items<Expr>>, Fail<Refused>>
    ensures { Gives result (each (spec.row_bound schema.now numbers.now) rows.now) }
{
    let mut made = Items::new(alloc);
    'rows: for row in rows {
        made.push(row_bound(alloc, schema, numbers, row.as_slice())?)?;
    }
    Ok(made)
}

/// The rows of INSERT, each with an expression for every column. The first offence of the names of columns and then of
/// the rows is the refusal.
pub fn rows_bound(
    alloc: Global,
    schema: &Schema,
    cols: &Option<Items<Words>>,
    rows: &[Items<E>],
) -> Result<Items<Items<Expr>>, Fail<Refused>>
    ensures { Gives result (spec.rows_bound schema.now cols.now rows.now) }
{
    let numbers = inserted_columns(alloc, schema, cols)?;
    rows_at(alloc, schema, numbers.as_slice(), rows)
}

/// What names mean in a change of this table: its columns, before which its own name may stand.
pub fn change_scope(alloc: Global, table: Words, schema: &Schema) -> Result<Scope, Memory>
    ensures { IfOk result (λ scope. scope ≡ spec.change_scope table schema.now) }
{
    let mut aliases = Items::new(alloc);
    let mut columns = Items::new(alloc);
    aliases.push(table)?;
    push_columns(&mut columns, 0, schema.cols.as_slice())?;
    Ok(row_scope(alloc, aliases, columns))
}

// What SET puts into a column.
fn set_value(
    alloc: Global,
    schema: &Schema,
    scope: &Scope,
    n: u32,
    e: &E,
) -> Result<(u32, Boxed<Expr>), Fail<Refused>>
    ensures { Gives result (spec.set_value schema.now scope.now n e.now) }
{
    let found = bound(alloc, scope, standing(Part::Row), e)?;
    if !goes_into(schema, n, found.get()) {
        return Err(mismatch());
    }
    Ok((n, expr_of(alloc, found)?))
}

// A column of SET behind these columns, and its value.
fn set_bound(
    alloc: Global,
    schema: &Schema,
    scope: &Scope,
    taken: &[u32],
    set: &(Words, E),
) -> Result<(u32, Boxed<Expr>), Fail<Refused>>
    ensures { Gives result (spec.set_bound schema.now scope.now taken.now set.now) }
{
    let n = new_column(alloc, schema.cols.as_slice(), taken, &set.0)?;
    set_value(alloc, schema, scope, n, &set.1)
}

/// The columns of SET in order, each named once, with their values.
pub fn sets_bound(
    alloc: Global,
    schema: &Schema,
    scope: &Scope,
    sets: &[(Words, E)],
) -> Result<Items<(u32, Expr)>, Fail<Refused>>
    ensures { Gives result (spec.sets_bound schema.now scope.now sets.now) }
{
    let mut taken = Items::new(alloc);
    let mut made = Items::new(alloc);
    'sets: for set in sets {
        let (n, e) = set_bound(alloc, schema, scope, taken.as_slice(), set)?;
        taken.push(n)?;
        made.push((n, e.into_inner()))?;
    }
    Ok(made)
}
