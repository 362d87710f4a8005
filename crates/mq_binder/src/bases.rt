//! The rows of a query: the ON conditions, WHERE and GROUP BY over its FROM items
//! (docs/LANGUAGE.md, "The order of binding").

ghost use Rattle.std.specs.Prelude.{◌≡◌, IfOk};
ghost use Rattle.mq_values.specs.Answers.{Gives};
ghost use Rattle.mq_binder.specs.FromWalk as spec;
ghost use Rattle.mq_bind_expr.specs.Steps.{each_from};

use crate::found::Base;
use crate::sources::{groupings, row_scope, sources_of};
use mq_ast::{FromItem, Plain};
use mq_bind_expr::{bound_filter, unboxed};
use mq_bind_scopes::{Part, Scope, number, standing, standing_on};
use mq_ir::{Catalog, Expr, FromPart};
use mq_values::{Boxed, Fail, Items, Memory, Refused, Words};
use std::alloc::Global;

// Each ON condition sees the FROM items up to its own.
fn on_bound(
    alloc: Global,
    scope: &Scope,
    n: usize,
    item: &FromItem,
) -> Result<Option<Expr>, Fail<Refused>>
    ensures { Gives result (spec.on_bound scope.now n item.now) }
{
    let on = bound_filter(alloc, scope, standing_on(number(n)?), &item.on)?;
    Ok(unboxed(on))
}

fn ons_bound(
    alloc: Global,
    scope: &Scope,
    froms: &[FromItem],
) -> Result<Items<Option<Expr>>, Fail<Refused>>
    ensures { Gives result (each_from (spec.on_bound scope.now) 0 froms.now) }
{
    let mut ons = Items::new(alloc);
    'froms: for (n, item) in froms.iter().enumerate() {
        ons.push(on_bound(alloc, scope, n, item)?)?;
    }
    Ok(ons)
}

fn from_part(
    alloc: Global,
    tables: Items<Words>,
    ons: Items<Option<Expr>>,
    filter: Option<Boxed<Expr>>,
) -> Result<Boxed<FromPart>, Memory>
    ensures { IfOk result (λ from. from ≡ record { tables = tables; ons = ons; filter = filter }) }
{
    Boxed::new(
        alloc,
        FromPart {
            tables,
            ons,
            filter: unboxed(filter),
        },
    )
}

fn base_over(
    alloc: Global,
    p: &Plain,
    tables: Items<Words>,
    scope: Scope,
) -> Result<Base, Fail<Refused>>
    ensures { Gives result (spec.base_over p.now tables scope) }
{
    let ons = ons_bound(alloc, &scope, p.froms.as_slice())?;
    let filter = bound_filter(alloc, &scope, standing(Part::Row), &p.filter)?;
    let from = from_part(alloc, tables, ons, filter)?;
    let cols = groupings(alloc, &scope, p.group.as_slice())?;
    Ok(Base { from, scope, cols })
}

/// The rows of a query, what names mean over them, and the columns of GROUP BY.
pub fn base_of(alloc: Global, catalog: &Catalog, p: &Plain) -> Result<Base, Fail<Refused>>
    ensures { Gives result (spec.base_of catalog.now p.now) }
{
    let seen = sources_of(alloc, catalog, p.froms.as_slice())?;
    let scope = row_scope(alloc, seen.aliases, seen.columns);
    base_over(alloc, p, seen.tables, scope)
}
