//! A change of the rows of a table, by itself or in a scenario (docs/LANGUAGE.md, "The order of binding").

ghost use Rattle.mq_lexer.specs.Words as words;
ghost use Rattle.mq_values.specs.Answers.{Gives};
ghost use Rattle.mq_binder.specs.ChangeWalk as spec;

use crate::changes::{change_scope, rows_bound, sets_bound};
use mq_ast::{ChangeTree, E};
use mq_bind_expr::{bound_filter, unboxed};
use mq_bind_scopes::{Part, Scope, standing, unknown_name};
use mq_ir::{Catalog, Change, Expr, Schema};
use mq_lexer::folded;
use mq_values::{Fail, Items, Refused, Words};
use std::alloc::Global;

fn insert_into(
    alloc: Global,
    name: Words,
    schema: &Schema,
    cols: &Option<Items<Words>>,
    rows: &[Items<E>],
) -> Result<Change, Fail<Refused>>
    ensures { Gives result (spec.rows_inserted name schema.now cols.now rows.now) }
{
    let rows = rows_bound(alloc, schema, cols, rows)?;
    Ok(Change::Insert { table: name, rows })
}

// The table comes first.
fn insert_bound(
    alloc: Global,
    catalog: &Catalog,
    name: &Words,
    cols: &Option<Items<Words>>,
    rows: &[Items<E>],
) -> Result<Change, Fail<Refused>>
    ensures { Gives result (spec.insert_bound catalog.now (words.folded name.now) cols.now rows.now) }
{
    let name = folded(alloc, name.as_str())?;
    match catalog.table(name.as_str()) {
        Some(schema) => insert_into(alloc, name, schema, cols, rows),
        None => Err(unknown_name(name)),
    }
}

fn update_where(
    alloc: Global,
    name: Words,
    sets: Items<(u32, Expr)>,
    filter: &Option<E>,
    scope: &Scope,
) -> Result<Change, Fail<Refused>>
    ensures { Gives result (spec.updated_where name sets filter.now scope.now) }
{
    let condition = bound_filter(alloc, scope, standing(Part::Row), filter)?;
    Ok(Change::Update {
        table: name,
        sets,
        filter: unboxed(condition),
    })
}

fn update_over(
    alloc: Global,
    name: Words,
    schema: &Schema,
    sets: &[(Words, E)],
    filter: &Option<E>,
    scope: &Scope,
) -> Result<Change, Fail<Refused>>
    ensures { Gives result (spec.update_over name schema.now sets.now filter.now scope.now) }
{
    let sets = sets_bound(alloc, schema, scope, sets)?;
    update_where(alloc, name, sets, filter, scope)
}

fn update_of(
    alloc: Global,
    name: Words,
    schema: &Schema,
    sets: &[(Words, E)],
    filter: &Option<E>,
) -> Result<Change, Fail<Refused>>
    ensures { Gives result (spec.update_over name schema.now sets.now filter.now (spec.change_scope name schema.now)) }
{
    let scope = change_scope(alloc, name.copy()?, schema)?;
    update_over(alloc, name, schema, sets, filter, &scope)
}

fn update_bound(
    alloc: Global,
    catalog: &Catalog,
    name: &Words,
    sets: &[(Words, E)],
    filter: &Option<E>,
) -> Result<Change, Fail<Refused>>
    ensures { Gives result (spec.update_bound catalog.now (words.folded name.now) sets.now filter.now) }
{
    let name = folded(alloc, name.as_str())?;
    match catalog.table(name.as_str()) {
        Some(schema) => update_of(alloc, name, schema, sets, filter),
        None => Err(unknown_name(name)),
    }
}

fn delete_of(
    alloc: Global,
    name: Words,
    schema: &Schema,
    filter: &Option<E>,
) -> Result<Change, Fail<Refused>>
    ensures { Gives result (spec.deleted_where name filter.now (spec.change_scope name schema.now)) }
{
    let scope = change_scope(alloc, name.copy()?, schema)?;
    let condition = bound_filter(alloc, &scope, standing(Part::Row), filter)?;
    Ok(Change::Delete {
        table: name,
        filter: unboxed(condition),
    })
}

fn delete_bound(
    alloc: Global,
    catalog: &Catalog,
    name: &Words,
    filter: &Option<E>,
) -> Result<Change, Fail<Refused>>
    ensures { Gives result (spec.delete_bound catalog.now (words.folded name.now) filter.now) }
{
    let name = folded(alloc, name.as_str())?;
    match catalog.table(name.as_str()) {
        Some(schema) => delete_of(alloc, name, schema, filter),
        None => Err(unknown_name(name)),
    }
}

/// What a change is bound to under a catalog, or its first offence: the table, and then what stands behind it.
pub fn change_bound(
    alloc: Global,
    catalog: &Catalog,
    tree: &ChangeTree,
) -> Result<Change, Fail<Refused>>
    ensures { Gives result (spec.change_bound catalog.now tree.now) }
{
    match tree {
        ChangeTree::Insert { name, cols, rows } => {
            insert_bound(alloc, catalog, name, cols, rows.as_slice())
        }
        ChangeTree::Update { name, sets, filter } => {
            update_bound(alloc, catalog, name, sets.as_slice(), filter)
        }
        ChangeTree::Delete { name, filter } => delete_bound(alloc, catalog, name, filter),
    }
}
