//! The misuses that depend on where an expression stands, each as a test.

ghost use Rattle.std.specs.Prelude.{◌≡◌};
ghost use Rattle.mq_ir.specs.Items as items;
ghost use Rattle.mq_bind_scopes.specs.Misuses as spec;

use crate::positions::{dims_of, is_grouping, is_left, is_rule, is_until};
use crate::scopes::{Owner, Position, Scope};
use mq_ir::ColRef;

fn is_grouped(cols: &[ColRef], c: ColRef) -> bool
    ensures { result ≡ items.is_grouped cols.now c.item c.column }
{
    cols.iter()
        .any(|col| col.item == c.item && col.column == c.column)
}

/// In a grouped query, a column outside an aggregate that GROUP BY does not name.
pub fn is_ungrouped(scope: &Scope, at: Position, c: ColRef) -> bool
    ensures { result ≡ spec.is_ungrouped scope.now at c }
{
    is_grouping(at.part)
        && !at.in_aggregate
        && match &scope.group {
            Some(cols) => !is_grouped(cols.as_slice(), c),
            None => false,
        }
}

/// An aggregate inside an aggregate, or where no group is: ON, WHERE, a change, a list of a reference, a rule, UNTIL.
pub fn aggregate_without_group(at: Position) -> bool
    ensures { result ≡ spec.aggregate_without_group at }
{
    at.in_aggregate || !is_grouping(at.part)
}

/// A form of rules outside rules and UNTIL.
pub fn outside_rules(at: Position) -> bool
    ensures { result ≡ spec.outside_rules at }
{
    !is_rule(at.part)
}

/// A cell, a range or a presence form on a left side or inside brackets.
pub fn cell_out_of_place(at: Position) -> bool
    ensures { result ≡ spec.cell_out_of_place at }
{
    is_left(at.part) || at.bracket.is_some()
}

/// CV on a left side or in UNTIL.
pub fn cv_out_of_place(at: Position) -> bool
    ensures { result ≡ spec.cv_out_of_place at }
{
    is_left(at.part) || is_until(at.part)
}

/// ITERATION_NUMBER without ITERATE.
pub fn turn_without_iterate(scope: &Scope, at: Position) -> bool
    ensures { result ≡ spec.turn_without_iterate scope.now at }
{
    !(is_rule(at.part) && scope.model.iterates)
}

/// PREVIOUS outside UNTIL.
pub fn previous_outside_until(at: Position) -> bool
    ensures { result ≡ spec.previous_outside_until at }
{
    !is_until(at.part)
}

/// IS ANY that is not the whole of a place of a bracket.
pub fn any_inside_place(at: Position) -> bool
    ensures { result ≡ spec.any_inside_place at }
{
    !at.is_whole
}

/// A bracket with another number of places than its dimensions.
pub fn other_place_count(scope: &Scope, owner: Owner, count: usize) -> bool
    ensures { result ≡ spec.other_place_count scope.now owner count }
{
    count != dims_of(scope, owner).len()
}

/// Inside a place that is a condition.
pub fn in_condition(at: Position) -> bool
    ensures { result ≡ spec.in_condition at }
{
    match at.bracket {
        Some(bracket) => bracket.is_condition,
        None => false,
    }
}
