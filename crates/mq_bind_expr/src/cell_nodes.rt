//! Aggregates, and the cells and ranges of rules and UNTIL, from what their parts are bound to
//! (docs/LANGUAGE.md, "Misuses").

ghost use Rattle.std.specs.Prelude.{◌≡◌, length, Some, IfOk};
ghost use Rattle.mq_ir.specs.declared.expression.Expr.{Expr};
ghost use Rattle.mq_ir.specs.declared.expression.Leaf.{Leaf};
ghost use Rattle.mq_values.specs.Answers.{Gives};
ghost use Rattle.mq_bind_expr.specs.CellNodes as spec;
ghost use Rattle.mq_bind_expr.specs.Following.{Follows};

use crate::founds::{Held, Operand, expr_of, refused};
use crate::values::a_value;
use mq_ast::Path;
use mq_bind_scopes::{
    ExprKind, Found, MISUSE_OF_AGGREGATE, MISUSE_OF_PLACE_COUNT, MISUSE_OF_REFERENCE_MEASURE,
    MISUSE_OF_RULE_FORM, Named, Owner, Position, Scope, aggregate_kind, aggregate_without_group,
    called, cell_out_of_place, found_called, is_reference_measure, misuse, other_place_count,
    outside_rules, unknown_name,
};
use mq_ir::{Expr, Leaf, Test};
use mq_lexer::folded;
use mq_values::{Agg, Fail, Items, Memory, Refused, Words};
use std::alloc::Global;

fn aggregate(alloc: Global, agg: Agg, operand: Held) -> Result<Expr, Memory>
    ensures { IfOk result (λ r. r ≡ Expr.Leaf (Leaf.GroupAgg agg (Some operand.e))) }
{
    Ok(Expr::Leaf(Leaf::GroupAgg(agg, Some(expr_of(alloc, operand)?))))
}

/// An aggregate of rows.
pub fn agg_node(
    alloc: Global,
    at: Position,
    agg: Agg,
    operand: Operand,
) -> Result<Found, Fail<Refused>>
    ensures { Follows operand (spec.agg_node at agg) result }
{
    let operand = operand?;
    let kind = aggregate_kind(agg, operand.get().kind)?;
    if aggregate_without_group(at) {
        return Err(misuse(MISUSE_OF_AGGREGATE));
    }
    Ok(a_value(aggregate(alloc, agg, operand)?, kind))
}

/// `COUNT(*)`.
pub fn count_all_node(at: Position) -> Result<Found, Fail<Refused>>
    ensures { Gives result (spec.count_all_node at) }
{
    if aggregate_without_group(at) {
        return Err(misuse(MISUSE_OF_AGGREGATE));
    }
    let e = Expr::Leaf(Leaf::GroupAgg(Agg::Count, None));
    Ok(a_value(e, ExprKind::Number(0)))
}

fn measures_of(scope: &Scope, reference: u32) -> &[Named]
    ensures { result.now ≡ spec.measures_of scope.now reference }
{
    match scope.model.refs.get(reference as usize) {
        Some(names) => names.measures.as_slice(),
        None => &[],
    }
}

fn first_name(alloc: Global, path: &Path) -> Result<Words, Memory>
    ensures { IfOk result (λ n. n ≡ spec.first_name path.now) }
{
    match &path.first {
        Some(name) => folded(alloc, name.as_str()),
        None => Ok(Words::empty()),
    }
}

// The cell that a path and its indices name: a measure of the main model, or with two parts a reference and its measure.
fn cell_called(
    alloc: Global,
    scope: &Scope,
    path: &Path,
    owner: Owner,
    indices: Items<Expr>,
) -> Result<(Leaf, ExprKind), Fail<Refused>>
    ensures { Gives result (spec.cell_called scope.now path.now owner indices) }
{
    match owner {
        Owner::Main => {
            let name = folded(alloc, path.last.as_str())?;
            let (measure, kind) = called(scope.model.measures.as_slice(), name)?;
            Ok((Leaf::Cell(measure, indices), kind))
        }
        Owner::Reference(reference) => {
            let name = folded(alloc, path.last.as_str())?;
            let (measure, kind) = called(measures_of(scope, reference), name)?;
            Ok((Leaf::RefCell(reference, measure, indices), kind))
        }
        Owner::Nothing => Err(unknown_name(first_name(alloc, path)?)),
    }
}

// The misuse of a cell or a range with this many places, where it is one.
fn cell_misuse(scope: &Scope, at: Position, owner: Owner, count: usize) -> Option<u32>
    ensures { result ≡ spec.cell_misuse scope.now at owner count }
{
    if cell_out_of_place(at) {
        Some(MISUSE_OF_RULE_FORM)
    } else if other_place_count(scope, owner, count) {
        Some(MISUSE_OF_PLACE_COUNT)
    } else {
        None
    }
}

/// A single cell.
pub fn cell_node(
    alloc: Global,
    scope: &Scope,
    at: Position,
    path: &Path,
    owner: Owner,
    indices: Result<Items<Expr>, Fail<Refused>>,
) -> Result<Found, Fail<Refused>>
    ensures { Follows indices (spec.cell_node scope.now at path.now owner) result }
{
    let indices = indices?;
    if outside_rules(at) {
        return Err(misuse(MISUSE_OF_RULE_FORM));
    }
    let count = indices.len();
    let (cell, kind) = cell_called(alloc, scope, path, owner, indices)?;
    match cell_misuse(scope, at, owner, count) {
        Some(number) => refused(cell, misuse(number)),
        None => Ok(a_value(Expr::Leaf(cell), kind)),
    }
}

// An aggregate of cells of a measure of the main model.
fn range_over(
    scope: &Scope,
    at: Position,
    agg: Agg,
    tests: Items<Test>,
    measure: u32,
    kind: ExprKind,
) -> Result<Found, Fail<Refused>>
    ensures { Gives result (spec.range_over scope.now at agg tests measure kind) }
{
    let kind = aggregate_kind(agg, kind)?;
    match cell_misuse(scope, at, Owner::Main, tests.len()) {
        Some(number) => Err(misuse(number)),
        None => Ok(a_value(Expr::Leaf(Leaf::Range(agg, measure, tests)), kind)),
    }
}

// An aggregate of cells of what is no measure of the main model; one of a reference's is a misuse.
fn range_elsewhere(
    scope: &Scope,
    at: Position,
    name: Words,
    count: usize,
) -> Result<Found, Fail<Refused>>
    ensures { Gives result (spec.range_elsewhere scope.now at name count) }
{
    if !is_reference_measure(scope.model.refs.as_slice(), &name) {
        return Err(unknown_name(name));
    }
    match cell_misuse(scope, at, Owner::Main, count) {
        Some(number) => Err(misuse(number)),
        None => Err(misuse(MISUSE_OF_REFERENCE_MEASURE)),
    }
}

/// An aggregate of cells.
pub fn range_node(
    alloc: Global,
    scope: &Scope,
    at: Position,
    agg: Agg,
    name: &Words,
    tests: Result<Items<Test>, Fail<Refused>>,
) -> Result<Found, Fail<Refused>>
    ensures { Follows tests (spec.range_node scope.now at agg name.now) result }
{
    let tests = tests?;
    if outside_rules(at) {
        return Err(misuse(MISUSE_OF_RULE_FORM));
    }
    let name = folded(alloc, name.as_str())?;
    match found_called(scope.model.measures.as_slice(), &name)? {
        Some((measure, kind)) => range_over(scope, at, agg, tests, measure, kind),
        None => range_elsewhere(scope, at, name, tests.len()),
    }
}
