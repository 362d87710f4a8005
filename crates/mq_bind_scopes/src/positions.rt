//! Where an expression stands, and what stands around it.

ghost use Rattle.std.specs.Prelude.{◌≡◌, IfOk, slice_get};
ghost use Rattle.std.specs.Option.{option_copied};
ghost use Rattle.mq_bind_scopes.specs.Positions as spec;

use crate::kinds::ExprKind;
use crate::names::reference_called;
use crate::refusals::number;
use crate::scopes::{Bracket, Named, Owner, Part, Position, Scope};
use mq_ast::Path;
use mq_lexer::folded;
use mq_values::Memory;
use std::alloc::Global;

/// An expression by itself, in a part of a statement.
pub fn standing(part: Part) -> Position
    ensures { result ≡ spec.standing part }
{
    Position {
        part,
        last_item: None,
        in_aggregate: false,
        bracket: None,
        is_whole: false,
    }
}

/// An ON condition, which sees the FROM items up to its own.
pub fn standing_on(item: u32) -> Position
    ensures { result ≡ spec.standing_on item }
{
    Position {
        part: Part::Row,
        last_item: Some(item),
        in_aggregate: false,
        bracket: None,
        is_whole: false,
    }
}

/// A part of an expression.
pub fn inner(at: Position) -> Position
    ensures { result ≡ spec.inner at }
{
    Position {
        is_whole: false,
        ..at
    }
}

/// The operand of an aggregate.
pub fn aggregated(at: Position) -> Position
    ensures { result ≡ spec.aggregated at }
{
    Position {
        in_aggregate: true,
        is_whole: false,
        ..at
    }
}

/// The whole of a place of a bracket in a rule.
pub fn bracketed(at: Position, owner: Owner, place: u32, is_condition: bool) -> Position
    ensures { result ≡ spec.bracketed at owner place is_condition }
{
    Position {
        bracket: Some(Bracket {
            owner,
            place,
            is_condition,
        }),
        is_whole: true,
        ..at
    }
}

/// Whether it is the part of a rule or UNTIL.
pub fn is_rule(part: Part) -> bool
    ensures { result ≡ spec.is_rule part }
{
    match part {
        Part::Left | Part::Right | Part::Until => true,
        Part::Row | Part::Item | Part::Shown => false,
    }
}

/// Whether it is the left side of a rule.
pub fn is_left(part: Part) -> bool
    ensures { result ≡ spec.is_left part }
{
    matches!(part, Part::Left)
}

/// Whether it is UNTIL.
pub fn is_until(part: Part) -> bool
    ensures { result ≡ spec.is_until part }
{
    matches!(part, Part::Until)
}

/// Whether there are groups, or could be.
pub fn is_grouping(part: Part) -> bool
    ensures { result ≡ spec.is_grouping part }
{
    matches!(part, Part::Item | Part::Shown)
}

/// Whose cells the bracket behind a path names.
pub fn owner_of(alloc: Global, scope: &Scope, path: &Path) -> Result<Owner, Memory>
    ensures { IfOk result (λ o. o ≡ spec.owner_of scope.now path.now) }
{
    let Some(name) = &path.first else {
        return Ok(Owner::Main);
    };
    let name = folded(alloc, name.as_str())?;
    match reference_called(scope.model.refs.as_slice(), &name) {
        Some(place) => Ok(Owner::Reference(number(place)?)),
        None => Ok(Owner::Nothing),
    }
}

/// The dimensions of a bracket.
pub fn dims_of(scope: &Scope, owner: Owner) -> &[Named]
    ensures { result.now ≡ spec.dims_of scope.now owner }
{
    match owner {
        Owner::Main => scope.model.dims.as_slice(),
        Owner::Reference(place) => match scope.model.refs.get(place as usize) {
            Some(reference) => reference.dims.as_slice(),
            None => &[],
        },
        Owner::Nothing => &[],
    }
}

fn dimension_in(dims: &[Named], place: u32) -> Option<&Named>
    ensures { option_copied result ≡ slice_get dims.now place }
{
    dims.get(place as usize)
}

/// The dimension of a place; a place behind the last dimension has none.
pub fn dimension_at(scope: &Scope, owner: Owner, place: u32) -> Option<&Named>
    ensures { option_copied result ≡ spec.dimension_at scope.now owner place }
{
    dimension_in(dims_of(scope, owner), place)
}

/// Its kind.
pub fn place_kind(scope: &Scope, owner: Owner, place: u32) -> Option<ExprKind>
    ensures { result ≡ spec.place_kind scope.now owner place }
{
    match dimension_at(scope, owner, place) {
        Some(dimension) => Some(dimension.kind),
        None => None,
    }
}
