//! A path without brackets, by the part of the statement that it stands in (docs/LANGUAGE.md, "Names").

ghost use Rattle.std.specs.Prelude.{◌≡◌, IfOk, None};
ghost use Rattle.std.specs.Option.{option_map};
ghost use Rattle.mq_values.specs.Answers.{Gives};
ghost use Rattle.mq_bind_expr.specs.NameNodes as spec;

use crate::values::{a_value, column_leaf};
use mq_ast::Path;
use mq_bind_scopes::{
    Bracket, ExprKind, Found, MISUSE_OF_CONDITION_IN_BRACKETS, MISUSE_OF_NAME_IN_RULE,
    MISUSE_OF_SHOWN_ITEM, MISUSE_OF_UNGROUPED_COLUMN, Named, Part, Position, Scope, called,
    column_named, dimension_at, in_condition, is_left, is_ungrouped, misuse,
};
use mq_lexer::folded;
use mq_values::{Fail, Memory, Refused, Words};
use std::alloc::Global;

// Over a row: a column of the FROM items.
fn name_in_row(
    alloc: Global,
    scope: &Scope,
    at: Position,
    path: &Path,
) -> Result<Found, Fail<Refused>>
    ensures { Gives result (spec.name_in_row scope.now at path.now) }
{
    let (c, kind) = column_named(alloc, scope, at, path)?;
    if is_ungrouped(scope, at, c) {
        return Err(misuse(MISUSE_OF_UNGROUPED_COLUMN));
    }
    Ok(a_value(column_leaf(c.item, c.column), kind))
}

// In the SELECT list of a query with MODEL: one part names a model column, by its number. Two parts can only name what
// may not stand there.
fn name_shown(
    alloc: Global,
    scope: &Scope,
    at: Position,
    path: &Path,
) -> Result<Found, Fail<Refused>>
    ensures { Gives result (spec.name_shown scope.now at path.now.first path.now) }
{
    match &path.first {
        None => {
            let name = folded(alloc, path.last.as_str())?;
            let (number, kind) = called(scope.shown.as_slice(), name)?;
            Ok(a_value(column_leaf(0, number), kind))
        }
        Some(_) => {
            let (c, _) = column_named(alloc, scope, at, path)?;
            if is_ungrouped(scope, at, c) {
                return Err(misuse(MISUSE_OF_UNGROUPED_COLUMN));
            }
            Err(misuse(MISUSE_OF_SHOWN_ITEM))
        }
    }
}

fn kind_under(name: &Words, b: Bracket, dimension: &Named) -> Option<ExprKind>
    ensures { result ≡ spec.kind_under name.now b dimension.now }
{
    if b.is_condition && *name == dimension.name {
        Some(dimension.kind)
    } else {
        None
    }
}

// The kind of the dimension that a plain name stands for.
fn dimension_under(scope: &Scope, name: &Words, b: Bracket) -> Option<ExprKind>
    ensures { result ≡ spec.dimension_under scope.now None name.now b }
{
    match dimension_at(scope, b.owner, b.place) {
        Some(dimension) => kind_under(name, b, dimension),
        None => None,
    }
}

// What a plain name stands for in a place of a bracket, where it is the dimension's.
fn plain_in_bracket(scope: &Scope, name: &Words, b: Bracket) -> Option<Found>
    ensures { result ≡ option_map (spec.a_value (spec.column_leaf 0 b.place)) (spec.dimension_under scope.now None name.now b) }
{
    match dimension_under(scope, name, b) {
        Some(kind) => Some(a_value(column_leaf(0, b.place), kind)),
        None => None,
    }
}

// In a place that is a condition the plain name of its dimension stands for the dimension.
fn name_in_bracket(
    alloc: Global,
    scope: &Scope,
    path: &Path,
    bracket: Option<Bracket>,
) -> Result<Option<Found>, Memory>
    ensures { IfOk result (λ f. f ≡ spec.name_in_bracket scope.now path.now bracket) }
{
    let Some(b) = bracket else {
        return Ok(None);
    };
    match &path.first {
        Some(_) => Ok(None),
        None => {
            let name = folded(alloc, path.last.as_str())?;
            Ok(plain_in_bracket(scope, &name, b))
        }
    }
}

fn name_misuse(at: Position) -> u32
    ensures { result ≡ spec.name_misuse at }
{
    if is_left(at.part) && in_condition(at) {
        MISUSE_OF_CONDITION_IN_BRACKETS
    } else {
        MISUSE_OF_NAME_IN_RULE
    }
}

// In a rule and in UNTIL: any other name is a misuse.
fn name_in_rule(
    alloc: Global,
    scope: &Scope,
    at: Position,
    path: &Path,
) -> Result<Found, Fail<Refused>>
    ensures { Gives result (spec.name_in_rule scope.now at path.now) }
{
    match name_in_bracket(alloc, scope, path, at.bracket)? {
        Some(found) => Ok(found),
        None => Err(misuse(name_misuse(at))),
    }
}

/// What a path without brackets is bound to where it stands.
pub fn name_node(
    alloc: Global,
    scope: &Scope,
    at: Position,
    path: &Path,
) -> Result<Found, Fail<Refused>>
    ensures { Gives result (spec.name_node scope.now at path.now) }
{
    match at.part {
        Part::Row | Part::Item => name_in_row(alloc, scope, at, path),
        Part::Shown => name_shown(alloc, scope, at, path),
        Part::Left | Part::Right | Part::Until => name_in_rule(alloc, scope, at, path),
    }
}
