//! The FORs of a left side: what they go through, and whether it goes with the dimensions that they stand for
//! (docs/LANGUAGE.md, "The order of binding").

ghost use Rattle.std.specs.Prelude.{◌≡◌, ◌∷◌, ◌++◌, [], map, IfOk};
ghost use Rattle.std.specs.List.{list_all, list_any};
ghost use Rattle.mq_values.specs.Answers.{Gives};
ghost use Rattle.mq_ir.specs.Results.{each};
ghost use Rattle.mq_ir.specs.declared.query.LeftItem.TheVariants as item;
ghost use Rattle.mq_bind_scopes.specs.declared.scopes.Printed.{Printed as PrintedOf};
ghost use Rattle.mq_binder.specs.ForWalk as spec;
ghost use Rattle.mq_bind_expr.specs.OperatorNodes as nodes;
ghost use Rattle.mq_bind_scopes.specs.Kinds as kinds_as;

use crate::found::{ListFound, PlainFound};
use crate::plain::held_plain;
use mq_ast::{E, ForList};
use mq_bind_expr::{Held, bound, fits_dimension};
use mq_bind_scopes::{
    ExprKind, MISUSE_OF_FOR, Owner, Part, Printed, Scope, dimension_at, is_condition_kind,
    mismatch, misuse, number, place_kind, standing, steps_fit,
};
use mq_ir::{Catalog, Expr, LeftItem, ListSource, PlainPart};
use mq_lexer::folded;
use mq_values::{Boxed, Fail, Items, Memory, Refused, Words};
use std::alloc::Global;

fn value_row(alloc: Global, scope: &Scope, row: &[E]) -> Result<Items<Held>, Fail<Refused>>
    ensures { Gives result (spec.value_row scope.now row.now) }
{
    let mut found = Items::new(alloc);
    'row: for e in row {
        found.push(bound(alloc, scope, standing(Part::Left), e)?)?;
    }
    Ok(found)
}

fn value_rows(
    alloc: Global,
    scope: &Scope,
    rows: &[Items<E>],
) -> Result<Items<Items<Held>>, Fail<Refused>>
    ensures { Gives result (each (spec.value_row scope.now) rows.now) }
{
    let mut found = Items::new(alloc);
    'rows: for row in rows {
        found.push(value_row(alloc, scope, row.as_slice())?)?;
    }
    Ok(found)
}

fn row_kinds(alloc: Global, row: &[Held]) -> Result<Items<ExprKind>, Memory>
    ensures { IfOk result (λ kinds. kinds ≡ nodes.kinds_of row.now) }
{
    let mut kinds = Items::new(alloc);
    'row: for f in row {
        kinds.push(f.get().kind)?;
    }
    Ok(kinds)
}

fn rows_kinds(alloc: Global, rows: &[Items<Held>]) -> Result<Items<Items<ExprKind>>, Memory>
    ensures { IfOk result (λ kinds. kinds ≡ map nodes.kinds_of rows.now) }
{
    let mut kinds = Items::new(alloc);
    'rows: for row in rows {
        kinds.push(row_kinds(alloc, row.as_slice())?)?;
    }
    Ok(kinds)
}

fn row_exprs(alloc: Global, row: Items<Held>) -> Result<Items<Expr>, Memory>
    ensures { IfOk result (λ es. es ≡ nodes.exprs_of row) }
{
    let mut es = Items::new(alloc);
    'row: for f in row.into_vec() {
        es.push(f.into_inner().e)?;
    }
    Ok(es)
}

fn rows_exprs(alloc: Global, rows: Items<Items<Held>>) -> Result<Items<Items<Expr>>, Memory>
    ensures { IfOk result (λ es. es ≡ map nodes.exprs_of rows) }
{
    let mut es = Items::new(alloc);
    'rows: for row in rows.into_vec() {
        es.push(row_exprs(alloc, row)?)?;
    }
    Ok(es)
}

fn values_found(
    alloc: Global,
    lists: Items<PlainPart>,
    rows: Items<Items<Held>>,
) -> Result<ListFound, Memory>
    ensures { IfOk result (λ found. found ≡ spec.values_found lists rows) }
{
    let kinds = rows_kinds(alloc, rows.as_slice())?;
    let exprs = rows_exprs(alloc, rows)?;
    Ok(ListFound {
        source: ListSource::Values(exprs),
        kinds,
        lists,
    })
}

fn printed_kinds(alloc: Global, printed: &[Printed]) -> Result<Items<ExprKind>, Memory>
    ensures { IfOk result (λ kinds. kinds ≡ map (λ (c : PrintedOf). c.kind) printed.now) }
{
    let mut kinds = Items::new(alloc);
    'printed: for c in printed {
        kinds.push(c.kind)?;
    }
    Ok(kinds)
}

fn one_row(alloc: Global, kinds: Items<ExprKind>) -> Result<Items<Items<ExprKind>>, Memory>
    ensures { IfOk result (λ rows. rows ≡ kinds ∷ []) }
{
    let mut rows = Items::new(alloc);
    rows.push(kinds)?;
    Ok(rows)
}

fn with_part(lists: Items<PlainPart>, part: PlainPart) -> Result<Items<PlainPart>, Memory>
    ensures { IfOk result (λ all. all ≡ lists ++ part ∷ []) }
{
    let mut lists = lists;
    lists.push(part)?;
    Ok(lists)
}

// The rows of a subquery, which is put behind the subqueries before it.
fn rows_found(
    alloc: Global,
    lists: Items<PlainPart>,
    p: Boxed<PlainFound>,
) -> Result<ListFound, Memory>
    ensures { IfOk result (λ found. found ≡ spec.rows_found lists p) }
{
    let source = ListSource::Rows(number(lists.len())?);
    let kinds = one_row(alloc, printed_kinds(alloc, p.get().printed.as_slice())?)?;
    let lists = with_part(lists, p.into_inner().part)?;
    Ok(ListFound {
        source,
        kinds,
        lists,
    })
}

/// What a FOR goes through, behind these subqueries. Its own subquery is put behind them.
pub fn list_bound(
    alloc: Global,
    catalog: &Catalog,
    scope: &Scope,
    lists: Items<PlainPart>,
    list: &ForList,
) -> Result<ListFound, Fail<Refused>>
    ensures { Gives result (spec.list_bound catalog.now scope.now lists list.now) }
{
    match list {
        ForList::Values(rows) => {
            let found = value_rows(alloc, scope, rows.as_slice())?;
            Ok(values_found(alloc, lists, found)?)
        }
        ForList::Rows(p) => {
            let found = held_plain(alloc, catalog, p)?;
            Ok(rows_found(alloc, lists, found)?)
        }
    }
}

// Values against the dimensions that they are for, as far as they pair.
fn pairs_fit(dims: &[Option<ExprKind>], kinds: &[ExprKind]) -> bool
    ensures { result ≡ spec.pairs_fit dims.now kinds.now }
{
    dims.iter()
        .zip(kinds.iter())
        .all(|(dim, kind)| fits_dimension(*dim, *kind))
}

fn any_condition(kinds: &[ExprKind]) -> bool
    ensures { result ≡ list_any kinds_as.is_condition_kind kinds.now }
{
    kinds.iter().any(|kind| is_condition_kind(*kind))
}

// A row of values: none is a condition, whether or not there is a dimension that it is for.
fn row_fits(dims: &[Option<ExprKind>], kinds: &[ExprKind]) -> bool
    ensures { result ≡ spec.row_fits dims.now kinds.now }
{
    !any_condition(kinds) && pairs_fit(dims, kinds)
}

fn has_width(n: usize, kinds: &[ExprKind]) -> bool
    ensures { result ≡ spec.has_width n kinds.now }
{
    kinds.len() == n
}

fn all_fit(dims: &[Option<ExprKind>], rows: &[Items<ExprKind>]) -> bool
    ensures { result ≡ list_all (spec.row_fits dims.now) rows.now }
{
    rows.iter().all(|row| row_fits(dims, row.as_slice()))
}

fn all_wide(n: usize, rows: &[Items<ExprKind>]) -> bool
    ensures { result ≡ list_all (spec.has_width n) rows.now }
{
    rows.iter().all(|row| has_width(n, row.as_slice()))
}

/// A FOR for dimensions of these kinds: the kinds of its values, then whether it names what it stands for, and the width
/// of its values.
pub fn for_checked(
    dims: &[Option<ExprKind>],
    is_named: bool,
    found: ListFound,
) -> Result<ListFound, Fail<Refused>>
    ensures { Gives result (spec.for_checked dims.now is_named found) }
{
    if !all_fit(dims, found.kinds.as_slice()) {
        return Err(mismatch());
    }
    if !(is_named && all_wide(dims.len(), found.kinds.as_slice())) {
        return Err(misuse(MISUSE_OF_FOR));
    }
    Ok(found)
}

/// Whether the name of a FOR is that of the dimension of its place.
pub fn names_place(alloc: Global, scope: &Scope, n: u32, name: &Words) -> Result<bool, Memory>
    ensures { IfOk result (λ names. names ≡ spec.names_place scope.now n name.now) }
{
    let name = folded(alloc, name.as_str())?;
    match dimension_at(scope, Owner::Main, n) {
        Some(dimension) => Ok(name == dimension.name),
        None => Ok(false),
    }
}

fn steps_item(start: Held, stop: Held, step: Held, down: bool) -> LeftItem
    ensures { result ≡ item.Steps start.e stop.e step.e down }
{
    LeftItem::Steps {
        start: start.into_inner().e,
        stop: stop.into_inner().e,
        step: step.into_inner().e,
        down,
    }
}

/// FOR .. FROM at a place: the kinds of its parts, then its name.
pub fn steps_checked(
    alloc: Global,
    scope: &Scope,
    n: u32,
    dim: &Words,
    down: bool,
    start: Held,
    stop: Held,
    step: Held,
) -> Result<LeftItem, Fail<Refused>>
    ensures { Gives result (spec.steps_checked scope.now n dim.now down start stop step) }
{
    let kind = place_kind(scope, Owner::Main, n);
    if !steps_fit(kind, start.get().kind, stop.get().kind, step.get().kind) {
        return Err(mismatch());
    }
    if !names_place(alloc, scope, n, dim)? {
        return Err(misuse(MISUSE_OF_FOR));
    }
    Ok(steps_item(start, stop, step, down))
}
