//! A cell to be explained (docs/LANGUAGE.md, "The order of binding").

ghost use Rattle.std.specs.Prelude.{◌≡◌, position};
ghost use Rattle.mq_lexer.specs.Words as words;
ghost use Rattle.mq_values.specs.Answers.{Gives};
ghost use Rattle.mq_ir.specs.Tables.{is_name};
ghost use Rattle.mq_binder.specs.CellWalk as spec;
ghost use Rattle.mq_binder.specs.StatementWalk as statement;

use crate::changes::no_columns;
use mq_ast::E;
use mq_bind_expr::{Held, bound, expr_of, fits_dimension};
use mq_bind_scopes::{
    ExprKind, MISUSE_OF_EXPLAINED_VIEW, MISUSE_OF_VALUE_COUNT, Part, mismatch, misuse, number,
    of_column, standing, unknown_name,
};
use mq_ir::{Bound, Catalog, CellAsked, Expr, ModelPart};
use mq_lexer::folded;
use mq_values::{Boxed, Fail, Items, Kind, Refused, Words};
use std::alloc::Global;

// The kind of the place of a number.
fn kind_of_place(kinds: &[Kind], n: usize) -> Option<ExprKind>
    ensures { result ≡ spec.kind_of_place kinds.now n }
{
    match kinds.get(n) {
        Some(kind) => Some(of_column(*kind)),
        None => None,
    }
}

// The kind rule of an index.
fn index_checked(
    alloc: Global,
    kinds: &[Kind],
    n: usize,
    f: Held,
) -> Result<Boxed<Expr>, Fail<Refused>>
    ensures { Gives result (spec.index_checked kinds.now n f) }
{
    if !fits_dimension(kind_of_place(kinds, n), f.get().kind) {
        return Err(mismatch());
    }
    Ok(expr_of(alloc, f)?)
}

// A value at its place, in which no column is known.
fn value_bound(alloc: Global, kinds: &[Kind], n: usize, e: &E) -> Result<Boxed<Expr>, Fail<Refused>>
    ensures { Gives result (spec.value_bound kinds.now n e.now) }
{
    let scope = no_columns(alloc);
    let found = bound(alloc, &scope, standing(Part::Row), e)?;
    index_checked(alloc, kinds, n, found)
}

fn values_bound(alloc: Global, kinds: &[Kind], es: &[E]) -> Result<Items<Expr>, Fail<Refused>>
    ensures { Gives result (spec.values_bound kinds.now es.now) }
{
    let mut values = Items::new(alloc);
    'es: for (n, e) in es.iter().enumerate() {
        values.push(value_bound(alloc, kinds, n, e)?.into_inner())?;
    }
    Ok(values)
}

fn place_called(names: &[Words], name: &Words) -> Option<usize>
    ensures { result ≡ position (is_name name.now) names.now }
{
    names.iter().position(|other| *name == *other)
}

// The measure of a name.
fn measure_called(model: &ModelPart, name: Words) -> Result<u32, Fail<Refused>>
    ensures { Gives result (spec.measure_called model.now name) }
{
    match place_called(model.names.as_slice(), &name) {
        Some(place) => Ok(number(place)?),
        None => Err(unknown_name(name)),
    }
}

// Whether there is a value for each partition column, and one for each dimension.
fn has_values(model: &ModelPart, part: &[E], cell: &[E]) -> bool
    ensures { result ≡ spec.has_values model.now part.now cell.now }
{
    part.len() == model.part_kinds.len() && cell.len() == model.dims.len()
}

// The measure, then the values of the partition columns, then those of the dimensions.
fn measure_and_values(
    alloc: Global,
    view: Words,
    measure: Words,
    part: &[E],
    cell: &[E],
    model: &ModelPart,
) -> Result<CellAsked, Fail<Refused>>
    ensures { Gives result (spec.measure_and_values view measure part.now cell.now model.now) }
{
    let measure = measure_called(model, measure)?;
    let part = values_bound(alloc, model.part_kinds.as_slice(), part)?;
    let cell = values_bound(alloc, model.dims.as_slice(), cell)?;
    Ok(CellAsked {
        view,
        measure,
        part,
        cell,
    })
}

// A cell of a view with MODEL.
fn cell_of_model(
    alloc: Global,
    view: Words,
    measure: Words,
    part: &[E],
    cell: &[E],
    model: &ModelPart,
) -> Result<CellAsked, Fail<Refused>>
    ensures { Gives result (spec.cell_of_model view measure part.now cell.now model.now) }
{
    if !model.auto {
        return Err(misuse(MISUSE_OF_EXPLAINED_VIEW));
    }
    if !has_values(model, part, cell) {
        return Err(misuse(MISUSE_OF_VALUE_COUNT));
    }
    measure_and_values(alloc, view, measure, part, cell, model)
}

// The view, and then the cell. A view without MODEL is not in AUTOMATIC ORDER either.
fn cell_bound(
    alloc: Global,
    catalog: &Catalog,
    view: Words,
    measure: Words,
    part: &[E],
    cell: &[E],
) -> Result<CellAsked, Fail<Refused>>
    ensures { Gives result (spec.cell_bound catalog.now view measure part.now cell.now) }
{
    if !catalog.is_view(view.as_str()) {
        return Err(unknown_name(view));
    }
    match catalog.model(view.as_str()) {
        Some(model) => cell_of_model(alloc, view, measure, part, cell, model),
        None => Err(misuse(MISUSE_OF_EXPLAINED_VIEW)),
    }
}

/// EXPLAIN CELL.
pub fn explain(
    alloc: Global,
    catalog: &Catalog,
    view: &Words,
    measure: &Words,
    part: &[E],
    cell: &[E],
) -> Result<Bound, Fail<Refused>>
    ensures { Gives result (statement.explanation_bound catalog.now (words.folded view.now) (words.folded measure.now) part.now cell.now) }
{
    let view = folded(alloc, view.as_str())?;
    let measure = folded(alloc, measure.as_str())?;
    let asked = cell_bound(alloc, catalog, view, measure, part, cell)?;
    Ok(Bound::ExplainCell(asked))
}
