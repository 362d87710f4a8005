//! Statements (docs/LANGUAGE.md, "The order of binding").

ghost use Rattle.std.specs.Prelude.{◌≡◌, not, Ok};
ghost use Rattle.mq_lexer.specs.Words as words;
ghost use Rattle.mq_values.specs.Answers.{Gives};
ghost use Rattle.mq_ir.specs.Names as names;
ghost use Rattle.mq_bind_scopes.specs.Refusals as refusals;
ghost use Rattle.mq_binder.specs.FitLaws.{AnswerFits};
ghost use Rattle.mq_binder.specs.StatementParts as parts;
ghost use Rattle.mq_binder.specs.StatementWalk as spec;

use crate::cells::explain;
use crate::change_trees::change_bound;
use crate::queries::query_bound;
use crate::scenarios::{compare, create_scenario, drop_scenario, under};
use crate::tables::{is_table, is_taken, table_bound};
use mq_ast::{ChangeTree, ColDef, Query, Stmt};
use mq_bind_scopes::{duplicate_name, limit, unknown_name};
use mq_ir::{Bound, Catalog, LIMIT_OF_VIEWS};
use mq_lexer::folded;
use mq_values::{Fail, MAX_VIEWS, Refused, Words};
use std::alloc::Global;

// The name of a table that is there.
fn table_name(alloc: Global, catalog: &Catalog, name: &Words) -> Result<Words, Fail<Refused>>
    ensures { Gives result (refusals.refused_where (not (names.is_table catalog.now (words.folded name.now))) (refusals.unknown_name (words.folded name.now)) (Ok (words.folded name.now))) }
{
    let name = folded(alloc, name.as_str())?;
    if !is_table(catalog, &name) {
        return Err(unknown_name(name));
    }
    Ok(name)
}

// The name of a view that is there.
fn view_name(alloc: Global, catalog: &Catalog, name: &Words) -> Result<Words, Fail<Refused>>
    ensures { Gives result (refusals.refused_where (not (names.is_view catalog.now (words.folded name.now))) (refusals.unknown_name (words.folded name.now)) (Ok (words.folded name.now))) }
{
    let name = folded(alloc, name.as_str())?;
    if !catalog.is_view(name.as_str()) {
        return Err(unknown_name(name));
    }
    Ok(name)
}

fn drop_table(alloc: Global, catalog: &Catalog, name: &Words) -> Result<Bound, Fail<Refused>>
    ensures { Gives result (spec.if_table catalog.now (words.folded name.now) (Bound.DropTable (words.folded name.now))) }
{
    let name = table_name(alloc, catalog, name)?;
    Ok(Bound::DropTable(name))
}

fn drop_view(alloc: Global, catalog: &Catalog, name: &Words) -> Result<Bound, Fail<Refused>>
    ensures { Gives result (spec.if_view catalog.now (words.folded name.now) (Bound.DropView (words.folded name.now))) }
{
    let name = view_name(alloc, catalog, name)?;
    Ok(Bound::DropView(name))
}

fn load(
    alloc: Global,
    catalog: &Catalog,
    name: &Words,
    file: &Words,
) -> Result<Bound, Fail<Refused>>
    ensures { Gives result (spec.if_table catalog.now (words.folded name.now) (Bound.Load (words.folded name.now) file.now)) }
{
    let name = table_name(alloc, catalog, name)?;
    Ok(Bound::Load(name, file.copy()?))
}

// The name of SHOW is judged where the views are.
fn show(alloc: Global, name: &Words) -> Result<Bound, Fail<Refused>>
    ensures { Gives result (Ok (Bound.Show (words.folded name.now))) }
{
    Ok(Bound::Show(folded(alloc, name.as_str())?))
}

fn create_table(
    alloc: Global,
    catalog: &Catalog,
    name: &Words,
    cols: &[ColDef],
    key: &[Words],
) -> Result<Bound, Fail<Refused>>
    ensures { Gives result (parts.table_created catalog.now (words.folded name.now) cols.now key.now) }
{
    let name = folded(alloc, name.as_str())?;
    let def = table_bound(alloc, catalog, name, cols, key)?;
    Ok(Bound::CreateTable(def))
}

// CREATE VIEW: the name, the number of views, the query.
fn view_bound(
    alloc: Global,
    catalog: &Catalog,
    name: Words,
    q: &Query,
) -> Result<Bound, Fail<Refused>>
    ensures { Gives result (spec.view_bound catalog.now name q.now) }
{
    if is_taken(catalog, &name) {
        return Err(duplicate_name(name));
    }
    if catalog.views.len() >= MAX_VIEWS {
        return Err(limit(LIMIT_OF_VIEWS));
    }
    let b = query_bound(alloc, catalog, q)?;
    Ok(Bound::CreateView(name, b))
}

fn create_view(
    alloc: Global,
    catalog: &Catalog,
    name: &Words,
    q: &Query,
) -> Result<Bound, Fail<Refused>>
    ensures { Gives result (spec.view_bound catalog.now (words.folded name.now) q.now) }
{
    let name = folded(alloc, name.as_str())?;
    view_bound(alloc, catalog, name, q)
}

fn table_changed(
    alloc: Global,
    catalog: &Catalog,
    tree: &ChangeTree,
) -> Result<Bound, Fail<Refused>>
    ensures { Gives result (parts.table_changed catalog.now tree.now) }
{
    let change = change_bound(alloc, catalog, tree)?;
    Ok(Bound::Change(change))
}

fn rows_of(alloc: Global, catalog: &Catalog, q: &Query) -> Result<Bound, Fail<Refused>>
    ensures { Gives result (parts.rows_asked catalog.now q.now) }
{
    let b = query_bound(alloc, catalog, q)?;
    Ok(Bound::Query(b))
}

// What a statement is bound to.
fn statement_bound(
    alloc: Global,
    catalog: &Catalog,
    statement: &Stmt,
) -> Result<Bound, Fail<Refused>>
    ensures { Gives result (spec.statement_bound catalog.now statement.now) }
{
    match statement {
        Stmt::CreateTable { name, cols, key } => {
            create_table(alloc, catalog, name, cols.as_slice(), key.as_slice())
        }
        Stmt::DropTable { name } => drop_table(alloc, catalog, name),
        Stmt::CreateView { name, query } => create_view(alloc, catalog, name, query),
        Stmt::DropView { name } => drop_view(alloc, catalog, name),
        Stmt::Change(tree) => table_changed(alloc, catalog, tree),
        Stmt::Load { name, file } => load(alloc, catalog, name, file),
        Stmt::Show { name } => show(alloc, name),
        Stmt::Query(q) => rows_of(alloc, catalog, q),
        Stmt::Begin => Ok(Bound::Begin),
        Stmt::Commit => Ok(Bound::Commit),
        Stmt::Rollback => Ok(Bound::Rollback),
        Stmt::CreateScenario { name } => create_scenario(alloc, catalog, name),
        Stmt::DropScenario { name } => drop_scenario(alloc, catalog, name),
        Stmt::Under { scenario, change } => under(alloc, catalog, scenario, change),
        Stmt::Compare { view, scenarios } => compare(alloc, catalog, view, scenarios.as_slice()),
        Stmt::ExplainCell {
            view,
            measure,
            part,
            cell,
        } => explain(
            alloc,
            catalog,
            view,
            measure,
            part.as_slice(),
            cell.as_slice(),
        ),
    }
}

/// What a statement is bound to under a catalog. `UNKNOWN_NAME`, `DUPLICATE_NAME`, `KIND_MISMATCH`, `MODEL_FORM` or
/// `LIMIT` comes where it has an offence, and it is the first that is met (docs/LANGUAGE.md, "The order of binding").
/// What it is bound to fits the catalog, where no column and no literal has a scale above the limit, and each model of a
/// view has a name for each measure.
pub fn bind(alloc: Global, catalog: &Catalog, statement: &Stmt) -> Result<Bound, Fail<Refused>>
    ensures exact { Gives result (spec.statement_bound catalog.now statement.now) }
    ensures fits { AnswerFits catalog.now statement.now result }
{
    statement_bound(alloc, catalog, statement)
}
