//! A query: its rows, its MODEL clause or its items, what it prints, and its order
//! (docs/LANGUAGE.md, "The order of binding").

ghost use Rattle.std.specs.Prelude.{◌≡◌, [], position, None, Some, IfOk};
ghost use Rattle.std.specs.Option.{ok_or};
ghost use Rattle.mq_ir.specs.Results.{each};
ghost use Rattle.mq_values.specs.Answers.{Gives};
ghost use Rattle.mq_binder.specs.FromWalk as rows;
ghost use Rattle.mq_binder.specs.QueryWalk as spec;
ghost use Rattle.mq_bind_scopes.specs.Refusals as refusals;

use crate::bases::base_of;
use crate::found::{ModelFound, PlainFound};
use crate::lists::all_columns;
use crate::models::{model_group, model_over};
use crate::plain::{few_printed, held_plain};
use crate::sources::{grouped_by, no_model};
use mq_ast::{ModelTree, OrderKey, Query, Sel};
use mq_bind_expr::bound_value;
use mq_bind_scopes::{
    Found, MISUSE_OF_SHOWN_ITEM, Named, Part, Printed, Scope, called, misuse, number, standing,
    unknown_name,
};
use mq_ir::{BoundQuery, Catalog, ColRef, Expr, FromPart, ItemPart, Leaf, ModelPart};
use mq_lexer::folded;
use mq_values::{Boxed, Fail, Items, Memory, Refused, Words};
use std::alloc::Global;

fn prints(name: &Words, p: &Printed) -> bool
    ensures { result ≡ spec.prints name.now p.now }
{
    match &p.name {
        Some(printed) => *name == *printed,
        None => false,
    }
}

fn place_printed(printed: &[Printed], name: &Words) -> Option<usize>
    ensures { result ≡ position (spec.prints name.now) printed.now }
{
    printed.iter().position(|p| prints(name, p))
}

// ORDER BY without MODEL names the leftmost printed column of a name.
fn printed_key(
    alloc: Global,
    printed: &[Printed],
    key: &OrderKey,
) -> Result<(u32, bool), Fail<Refused>>
    ensures { Gives result (spec.printed_key printed.now key.now) }
{
    let name = folded(alloc, key.name.as_str())?;
    match place_printed(printed, &name) {
        Some(place) => Ok((number(place)?, key.desc)),
        None => Err(unknown_name(name)),
    }
}

fn printed_keys(
    alloc: Global,
    printed: &[Printed],
    keys: &[OrderKey],
) -> Result<Items<(u32, bool)>, Fail<Refused>>
    ensures { Gives result (each (spec.printed_key printed.now) keys.now) }
{
    let mut order = Items::new(alloc);
    'keys: for key in keys {
        order.push(printed_key(alloc, printed, key)?)?;
    }
    Ok(order)
}

fn printed_query(
    found: Boxed<PlainFound>,
    print: Items<u32>,
    order: Items<(u32, bool)>,
) -> BoundQuery
    ensures { result ≡ record { from = found.part.from; items = found.part.items; model = None; print = print; order = order } }
{
    let found = found.into_inner();
    BoundQuery {
        from: found.part.from,
        items: found.part.items,
        model: None,
        print,
        order,
    }
}

// What is found stands on the heap, so that it is one word beside the steps that may fail.
fn plain_query(
    alloc: Global,
    q: &Query,
    found: Boxed<PlainFound>,
) -> Result<BoundQuery, Fail<Refused>>
    ensures { Gives result (spec.plain_query q.now found) }
{
    let order = printed_keys(alloc, found.get().printed.as_slice(), q.order.as_slice())?;
    let print = all_columns(alloc, found.get().printed.len())?;
    Ok(printed_query(found, print, order))
}

// With MODEL it names a model column.
fn model_key(alloc: Global, columns: &[Named], key: &OrderKey) -> Result<(u32, bool), Fail<Refused>>
    ensures { Gives result (spec.model_key columns.now key.now) }
{
    let name = folded(alloc, key.name.as_str())?;
    let column = called(columns, name)?;
    Ok((column.0, key.desc))
}

fn model_keys(
    alloc: Global,
    columns: &[Named],
    keys: &[OrderKey],
) -> Result<Items<(u32, bool)>, Fail<Refused>>
    ensures { Gives result (each (spec.model_key columns.now) keys.now) }
{
    let mut order = Items::new(alloc);
    'keys: for key in keys {
        order.push(model_key(alloc, columns, key)?)?;
    }
    Ok(order)
}

fn leaf_number(leaf: &Leaf) -> Option<u32>
    ensures { result ≡ spec.leaf_number leaf.now }
{
    match leaf {
        Leaf::Column(_, column) => Some(*column),
        _ => None,
    }
}

fn column_number(e: &Expr) -> Option<u32>
    ensures { result ≡ spec.column_number e.now }
{
    match e {
        Expr::Leaf(leaf) => leaf_number(leaf),
        _ => None,
    }
}

fn number_shown(f: &Found) -> Result<u32, Fail<Refused>>
    ensures { Gives result (ok_or (spec.column_number f.now.e) (refusals.misuse MISUSE_OF_SHOWN_ITEM)) }
{
    match column_number(&f.e) {
        Some(n) => Ok(n),
        None => Err(misuse(MISUSE_OF_SHOWN_ITEM)),
    }
}

// An item of the SELECT list of a query with MODEL is a plain model column.
fn shown_item(alloc: Global, scope: &Scope, sel: &Sel) -> Result<u32, Fail<Refused>>
    ensures { Gives result (spec.shown_item scope.now sel.now) }
{
    let f = bound_value(alloc, scope, standing(Part::Shown), &sel.e)?;
    number_shown(f.get())
}

fn items_shown(alloc: Global, scope: &Scope, sels: &[Sel]) -> Result<Items<u32>, Fail<Refused>>
    ensures { Gives result (each (spec.shown_item scope.now) sels.now) }
{
    let mut numbers = Items::new(alloc);
    'sels: for sel in sels {
        numbers.push(shown_item(alloc, scope, sel)?)?;
    }
    Ok(numbers)
}

fn shown_list(
    alloc: Global,
    star: bool,
    sels: &[Sel],
    scope: &Scope,
) -> Result<Items<u32>, Fail<Refused>>
    ensures { Gives result (spec.shown_list star sels.now scope.now) }
{
    if star {
        Ok(all_columns(alloc, scope.shown.len())?)
    } else {
        items_shown(alloc, scope, sels)
    }
}

fn few_shown(alloc: Global, q: &Query, scope: &Scope) -> Result<Items<u32>, Fail<Refused>>
    ensures { Gives result (spec.few_shown q.now scope.now) }
{
    let print = shown_list(alloc, q.plain.star, q.plain.sels.as_slice(), scope)?;
    few_printed(print)
}

// What names mean in the SELECT list: model columns, and behind an alias the columns of the FROM items.
fn shown_scope(
    alloc: Global,
    scope: Scope,
    group: Option<Items<ColRef>>,
    columns: Items<Named>,
) -> Scope
    ensures { result ≡ record { aliases = scope.aliases; columns = scope.columns; group = group; shown = columns; model = rows.no_model } }
{
    Scope {
        aliases: scope.aliases,
        columns: scope.columns,
        group,
        shown: columns,
        model: no_model(alloc),
    }
}

// A query with MODEL, of which is open what it prints: on the heap, as above.
fn unprinted(
    alloc: Global,
    from: Boxed<FromPart>,
    items: Items<Expr>,
    part: ModelPart,
) -> Result<Boxed<BoundQuery>, Memory>
    ensures { IfOk result (λ query. query ≡ record { from = from; items = record { group = None; items = items }; model = Some part; print = []; order = [] }) }
{
    Boxed::new(
        alloc,
        BoundQuery {
            from: from.into_inner(),
            items: ItemPart { group: None, items },
            model: Some(part),
            print: Items::new(alloc),
            order: Items::new(alloc),
        },
    )
}

fn with_print(
    query: Boxed<BoundQuery>,
    group: Option<Items<ColRef>>,
    print: Items<u32>,
    order: Items<(u32, bool)>,
) -> BoundQuery
    ensures { result ≡ record { from = query.from; items = record { group = group; items = query.items.items }; model = query.model; print = print; order = order } }
{
    let BoundQuery {
        from,
        items,
        model,
        ..
    } = query.into_inner();
    let ItemPart { items, .. } = items;
    BoundQuery {
        from,
        items: ItemPart { group, items },
        model,
        print,
        order,
    }
}

// The same with what it prints; `scope` is that of its SELECT list.
fn model_printed(
    alloc: Global,
    q: &Query,
    query: Boxed<BoundQuery>,
    scope: Scope,
) -> Result<BoundQuery, Fail<Refused>>
    ensures { Gives result (spec.model_printed q.now query.from query.items.items query.model scope) }
{
    let print = few_shown(alloc, q, &scope)?;
    let order = model_keys(alloc, scope.shown.as_slice(), q.order.as_slice())?;
    Ok(with_print(query, scope.group, print, order))
}

fn model_query(
    alloc: Global,
    q: &Query,
    from: Boxed<FromPart>,
    scope: Scope,
    found: ModelFound,
) -> Result<BoundQuery, Fail<Refused>>
    ensures { Gives result (spec.model_query q.now from scope found) }
{
    let shown = shown_scope(alloc, scope, found.group, found.columns);
    let query = unprinted(alloc, from, found.items, found.part)?;
    model_printed(alloc, q, query, shown)
}

// A query with MODEL over rows of this scope, grouped already.
fn model_rows(
    alloc: Global,
    catalog: &Catalog,
    q: &Query,
    m: &ModelTree,
    from: Boxed<FromPart>,
    scope: Scope,
) -> Result<BoundQuery, Fail<Refused>>
    ensures { Gives result (spec.model_rows catalog.now q.now m.now from scope) }
{
    let found = model_over(alloc, catalog, &scope, m)?;
    model_query(alloc, q, from, scope, found)
}

fn query_without(alloc: Global, catalog: &Catalog, q: &Query) -> Result<BoundQuery, Fail<Refused>>
    ensures { Gives result (spec.query_with catalog.now q.now None) }
{
    let found = held_plain(alloc, catalog, &q.plain)?;
    plain_query(alloc, q, found)
}

fn query_with(
    alloc: Global,
    catalog: &Catalog,
    q: &Query,
    m: &ModelTree,
) -> Result<BoundQuery, Fail<Refused>>
    ensures { Gives result (spec.query_with catalog.now q.now (Some m.now)) }
{
    let base = base_of(alloc, catalog, &q.plain)?;
    let group = model_group(m, base.cols);
    model_rows(
        alloc,
        catalog,
        q,
        m,
        base.from,
        grouped_by(group, base.scope),
    )
}

/// What a query is bound to.
pub fn query_bound(alloc: Global, catalog: &Catalog, q: &Query) -> Result<BoundQuery, Fail<Refused>>
    ensures { Gives result (spec.query_bound catalog.now q.now) }
{
    match &q.model {
        Some(m) => query_with(alloc, catalog, q, m),
        None => query_without(alloc, catalog, q),
    }
}
