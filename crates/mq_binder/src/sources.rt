//! The FROM items of a query, and GROUP BY (docs/LANGUAGE.md, "The order of binding").

ghost use Rattle.std.specs.Prelude.{◌≡◌, ◌∷◌, ◌++◌, [], length, map, IfOk, OnOk, Ok};
ghost use Rattle.std.specs.List.{enumerate_from, list_any};
ghost use Rattle.mq_lexer.specs.Words as words;
ghost use Rattle.mq_values.specs.Answers.{Gives};
ghost use Rattle.mq_ir.specs.Results.{each, each_in_turn};
ghost use Rattle.mq_ir.specs.Tables.{is_name};
ghost use Rattle.mq_binder.specs.FromWalk as spec;
ghost use Rattle.mq_bind_scopes.specs.Refusals as refusals;

use crate::found::Sources;
use crate::tables::has_name;
use mq_ast::{FromItem, Path};
use mq_bind_scopes::{
    ModelNames, Part, RowColumn, Scope, column_named, duplicate_name, limit, number, of_column,
    standing, unknown_name,
};
use mq_ir::{Catalog, ColRef, Column, LIMIT_OF_FROM_ITEMS, Schema};
use mq_lexer::folded;
use mq_values::{Fail, Items, MAX_FROM_ITEMS, Memory, Refused, Words};
use std::alloc::Global;

fn column_of_item(item: u32, n: u32, c: &Column) -> Result<RowColumn, Memory>
    ensures { IfOk result (λ column. column ≡ spec.column_of_item item n c.now) }
{
    Ok(RowColumn {
        name: c.name.copy()?,
        kind: of_column(c.kind),
        at: ColRef { item, column: n },
    })
}

/// Puts the columns of a FROM item behind the others.
pub fn push_columns(
    columns: &mut Items<RowColumn>,
    item: u32,
    cols: &[Column],
) -> Result<(), Memory>
    ensures { OnOk result (columns.new ≡ columns.old ++ map (λ p. spec.column_of_item item p.0 p.1) (enumerate_from 0 cols.now)) }
{
    'cols: for (n, c) in cols.iter().enumerate() {
        columns.push(column_of_item(item, number(n)?, c)?)?;
    }
    Ok(())
}

// Where no alias is given, the table's name is the alias.
fn alias_of(alloc: Global, item: &FromItem) -> Result<Words, Memory>
    ensures { IfOk result (λ alias. alias ≡ spec.alias_of item.now) }
{
    match &item.alias {
        Some(alias) => folded(alloc, alias.as_str()),
        None => folded(alloc, item.table.as_str()),
    }
}

fn no_sources(alloc: Global) -> Sources
    ensures { result ≡ spec.no_sources }
{
    Sources {
        tables: Items::new(alloc),
        aliases: Items::new(alloc),
        columns: Items::new(alloc),
    }
}

// Puts a FROM item behind the others, which are lent: so what may fail has little in hand.
fn push_item(seen: &mut Sources, table: Words, alias: Words, schema: &Schema) -> Result<(), Memory>
    ensures { OnOk result (seen.new ≡ record {
      tables = seen.old.tables ++ table ∷ [];
      aliases = seen.old.aliases ++ alias ∷ [];
      columns = seen.old.columns ++ spec.columns_of_item (length seen.old.tables) schema.now;
    }) }
{
    let item = number(seen.tables.len())?;
    seen.tables.push(table)?;
    seen.aliases.push(alias)?;
    push_columns(&mut seen.columns, item, schema.cols.as_slice())
}

fn with_item(seen: Sources, table: Words, alias: Words, schema: &Schema) -> Result<Sources, Memory>
    ensures { IfOk result (λ s. s ≡ record {
      tables = seen.tables ++ table ∷ [];
      aliases = seen.aliases ++ alias ∷ [];
      columns = seen.columns ++ spec.columns_of_item (length seen.tables) schema.now;
    }) }
{
    let mut seen = seen;
    push_item(&mut seen, table, alias, schema)?;
    Ok(seen)
}

// A FROM item of this table behind the others: its alias is new.
fn item_added(
    alloc: Global,
    item: &FromItem,
    table: Words,
    schema: &Schema,
    seen: Sources,
) -> Result<Sources, Fail<Refused>>
    requires { table ≡ words.folded item.now.table }
    ensures { Gives result (refusals.refused_where (list_any (is_name (spec.alias_of item.now)) seen.aliases) (refusals.duplicate_name (spec.alias_of item.now)) (Ok (spec.with_item seen item.now schema.now))) }
{
    let alias = alias_of(alloc, item)?;
    if has_name(seen.aliases.as_slice(), &alias) {
        return Err(duplicate_name(alias));
    }
    Ok(with_item(seen, table, alias, schema)?)
}

// A FROM item behind the others: its table is there, and its alias is new.
fn item_seen(
    alloc: Global,
    catalog: &Catalog,
    item: &FromItem,
    seen: Sources,
) -> Result<Sources, Fail<Refused>>
    ensures { Gives result (spec.item_seen catalog.now item.now seen) }
{
    let table = folded(alloc, item.table.as_str())?;
    match catalog.table(table.as_str()) {
        Some(schema) => item_added(alloc, item, table, schema, seen),
        None => Err(unknown_name(table)),
    }
}

fn items_seen(
    alloc: Global,
    catalog: &Catalog,
    froms: &[FromItem],
) -> Result<Sources, Fail<Refused>>
    ensures { Gives result (each_in_turn (spec.item_seen catalog.now) froms.now spec.no_sources) }
{
    let mut seen = no_sources(alloc);
    'froms: for item in froms {
        seen = item_seen(alloc, catalog, item, seen)?;
    }
    Ok(seen)
}

/// The FROM items in order, each of a table that is there and under a new alias, and their number.
pub fn sources_of(
    alloc: Global,
    catalog: &Catalog,
    froms: &[FromItem],
) -> Result<Sources, Fail<Refused>>
    ensures { Gives result (spec.sources_of catalog.now froms.now) }
{
    let seen = items_seen(alloc, catalog, froms)?;
    if seen.tables.len() > MAX_FROM_ITEMS {
        return Err(limit(LIMIT_OF_FROM_ITEMS));
    }
    Ok(seen)
}

/// No names of rules.
pub fn no_model(alloc: Global) -> ModelNames
    ensures { result ≡ spec.no_model }
{
    ModelNames {
        dims: Items::new(alloc),
        measures: Items::new(alloc),
        refs: Items::new(alloc),
        iterates: false,
    }
}

/// What names mean over rows of these FROM items.
pub fn row_scope(alloc: Global, aliases: Items<Words>, columns: Items<RowColumn>) -> Scope
    ensures { result ≡ spec.row_scope aliases columns }
{
    Scope {
        aliases,
        columns,
        group: None,
        shown: Items::new(alloc),
        model: no_model(alloc),
    }
}

fn grouping(alloc: Global, scope: &Scope, path: &Path) -> Result<ColRef, Fail<Refused>>
    ensures { Gives result (spec.grouping scope.now path.now) }
{
    let column = column_named(alloc, scope, standing(Part::Row), path)?;
    Ok(column.0)
}

/// The columns that GROUP BY names.
pub fn groupings(
    alloc: Global,
    scope: &Scope,
    paths: &[Path],
) -> Result<Items<ColRef>, Fail<Refused>>
    ensures { Gives result (each (spec.grouping scope.now) paths.now) }
{
    let mut cols = Items::new(alloc);
    'paths: for path in paths {
        cols.push(grouping(alloc, scope, path)?)?;
    }
    Ok(cols)
}

/// The columns of GROUP BY, where a query is grouped: where it has some, or an aggregate.
pub fn group_of(cols: Items<ColRef>, has_aggregate: bool) -> Option<Items<ColRef>>
    ensures { result ≡ spec.group_of cols has_aggregate }
{
    if cols.is_empty() && !has_aggregate {
        return None;
    }
    Some(cols)
}

/// The same scope over groups.
pub fn grouped_by(group: Option<Items<ColRef>>, scope: Scope) -> Scope
    ensures { result ≡ spec.grouped_by group scope }
{
    Scope {
        aliases: scope.aliases,
        columns: scope.columns,
        group,
        shown: scope.shown,
        model: scope.model,
    }
}
