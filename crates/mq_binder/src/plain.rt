//! The printed items of a query (docs/LANGUAGE.md, "Queries").

ghost use Rattle.std.specs.Prelude.{◌≡◌, map, IfOk};
ghost use Rattle.std.specs.List.{list_any};
ghost use Rattle.mq_ir.specs.Results.{each};
ghost use Rattle.mq_values.specs.Answers.{Gives};
ghost use Rattle.mq_binder.specs.PlainWalk as spec;
ghost use Rattle.mq_bind_scopes.specs.declared.scopes.RowColumn.{RowColumn as ColumnOf};
ghost use Rattle.mq_bind_scopes.specs.declared.scopes.Part.TheVariants as part;
ghost use Rattle.mq_bind_scopes.specs.Misuses as misuses;
ghost use Rattle.mq_bind_scopes.specs.Positions as positions;

use crate::bases::base_of;
use crate::found::PlainFound;
use crate::sources::{group_of, grouped_by};
use mq_ast::{Plain, Sel};
use mq_bind_expr::{Held, bound_value, column_leaf, has_aggregate, held, name_of};
use mq_bind_scopes::{
    ExprKind, MISUSE_OF_UNGROUPED_COLUMN, Part, Printed, RowColumn, Scope, is_ungrouped, limit,
    misuse, standing,
};
use mq_ir::{Catalog, ColRef, Expr, FromPart, ItemPart, LIMIT_OF_PRINTED_COLUMNS, PlainPart};
use mq_values::{Boxed, Fail, Items, MAX_PRINTED_COLUMNS, Memory, Refused, Words};
use std::alloc::Global;

fn printed_item(e: Expr, name: Option<Words>, kind: ExprKind) -> (Expr, Printed)
    ensures { result ≡ (e, record { name = name; kind = kind }) }
{
    (e, Printed { name, kind })
}

fn star_item(c: &RowColumn) -> Result<(Expr, Printed), Memory>
    ensures { IfOk result (λ item. item ≡ spec.star_item c.now) }
{
    let name = c.name.copy()?;
    Ok(printed_item(column_leaf(c.at.item, c.at.column), Some(name), c.kind))
}

fn star_items(alloc: Global, columns: &[RowColumn]) -> Result<Items<(Expr, Printed)>, Memory>
    ensures { IfOk result (λ items. items ≡ map spec.star_item columns.now) }
{
    let mut items = Items::new(alloc);
    'columns: for c in columns {
        items.push(star_item(c)?)?;
    }
    Ok(items)
}

fn has_ungrouped(scope: &Scope, columns: &[RowColumn]) -> bool
    ensures { result ≡ list_any (λ (c : ColumnOf). misuses.is_ungrouped scope.now (positions.standing part.Item) c.at) columns.now }
{
    columns
        .iter()
        .any(|c| is_ungrouped(scope, standing(Part::Item), c.at))
}

/// `*` stands for all columns of the FROM items, in order (docs/LANGUAGE.md, "Queries").
pub fn star_bound(alloc: Global, scope: &Scope) -> Result<Items<(Expr, Printed)>, Fail<Refused>>
    ensures { Gives result (spec.star_bound scope.now) }
{
    if has_ungrouped(scope, scope.columns.as_slice()) {
        return Err(misuse(MISUSE_OF_UNGROUPED_COLUMN));
    }
    Ok(star_items(alloc, scope.columns.as_slice())?)
}

/// The printed items, where they are no more than a query may print.
pub fn few_printed<T: Drop>(items: Items<T>) -> Result<Items<T>, Fail<Refused>>
    ensures { Gives result (spec.few_printed items) }
{
    if items.len() > MAX_PRINTED_COLUMNS {
        return Err(limit(LIMIT_OF_PRINTED_COLUMNS));
    }
    Ok(items)
}

fn item_of(name: Option<Words>, f: Held) -> (Expr, Printed)
    ensures { result ≡ (f.e, record { name = name; kind = f.kind }) }
{
    let f = f.into_inner();
    printed_item(f.e, name, f.kind)
}

// An item of a SELECT list. Its name is made first: only want of memory can come of it.
fn item_bound(alloc: Global, scope: &Scope, sel: &Sel) -> Result<(Expr, Printed), Fail<Refused>>
    ensures { Gives result (spec.item_bound scope.now sel.now) }
{
    let name = name_of(alloc, sel)?;
    let f = bound_value(alloc, scope, standing(Part::Item), &sel.e)?;
    Ok(item_of(name, f))
}

fn items_bound(
    alloc: Global,
    scope: &Scope,
    sels: &[Sel],
) -> Result<Items<(Expr, Printed)>, Fail<Refused>>
    ensures { Gives result (each (spec.item_bound scope.now) sels.now) }
{
    let mut items = Items::new(alloc);
    'sels: for sel in sels {
        items.push(item_bound(alloc, scope, sel)?)?;
    }
    Ok(items)
}

fn select_list(
    alloc: Global,
    star: bool,
    sels: &[Sel],
    scope: &Scope,
) -> Result<Items<(Expr, Printed)>, Fail<Refused>>
    ensures { Gives result (spec.select_list star sels.now scope.now) }
{
    if star {
        star_bound(alloc, scope)
    } else {
        items_bound(alloc, scope, sels)
    }
}

/// Whether some item of a list has an aggregate.
pub fn any_aggregate(sels: &[Sel]) -> bool
    ensures { result ≡ spec.any_aggregate sels.now }
{
    sels.iter().any(|s| has_aggregate(&s.e))
}

// The expressions of the items, and what they print.
fn parted(
    alloc: Global,
    items: Items<(Expr, Printed)>,
) -> Result<(Items<Expr>, Items<Printed>), Memory>
    ensures { IfOk result (λ parts. parts ≡ (map (λ (i : spec.Item). i.0) items, map (λ (i : spec.Item). i.1) items)) }
{
    let mut es = Items::new(alloc);
    let mut printed = Items::new(alloc);
    'items: for item in items.into_vec() {
        es.push(item.0)?;
        printed.push(item.1)?;
    }
    Ok((es, printed))
}

fn plain_with(
    from: Boxed<FromPart>,
    group: Option<Items<ColRef>>,
    parts: (Items<Expr>, Items<Printed>),
) -> PlainFound
    ensures { result ≡ record { part = record { from = from; items = record { group = group; items = parts.0 } }; printed = parts.1 } }
{
    PlainFound {
        part: PlainPart {
            from: from.into_inner(),
            items: ItemPart {
                group,
                items: parts.0,
            },
        },
        printed: parts.1,
    }
}

// The items of a query over a scope that is grouped already.
fn items_over(
    alloc: Global,
    p: &Plain,
    scope: &Scope,
) -> Result<Items<(Expr, Printed)>, Fail<Refused>>
    ensures { Gives result (spec.items_over p.now scope.now) }
{
    let items = select_list(alloc, p.star, p.sels.as_slice(), scope)?;
    few_printed(items)
}

// The same with its rows.
fn plain_rows(
    alloc: Global,
    p: &Plain,
    from: Boxed<FromPart>,
    scope: Scope,
) -> Result<PlainFound, Fail<Refused>>
    ensures { Gives result (spec.plain_rows p.now from scope) }
{
    let items = items_over(alloc, p, &scope)?;
    let parts = parted(alloc, items)?;
    Ok(plain_with(from, scope.group, parts))
}

// A query without MODEL and without an order.
fn plain_bound(alloc: Global, catalog: &Catalog, p: &Plain) -> Result<PlainFound, Fail<Refused>>
    ensures { Gives result (spec.plain_bound catalog.now p.now) }
{
    let base = base_of(alloc, catalog, p)?;
    let group = group_of(base.cols, any_aggregate(p.sels.as_slice()));
    plain_rows(alloc, p, base.from, grouped_by(group, base.scope))
}

/// A query without MODEL and without an order: on the heap, so that it is one word beside the steps that may fail.
pub fn held_plain(
    alloc: Global,
    catalog: &Catalog,
    p: &Plain,
) -> Result<Boxed<PlainFound>, Fail<Refused>>
    ensures { Gives result (spec.plain_bound catalog.now p.now) }
{
    held(alloc, plain_bound(alloc, catalog, p))
}
