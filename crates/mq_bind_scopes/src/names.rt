//! What a name means.

ghost use Rattle.std.specs.Prelude.{◌≡◌, filter, find, length, position, IfOk};
ghost use Rattle.std.specs.List.{list_any};
ghost use Rattle.std.specs.Option.{option_copied};
ghost use Rattle.mq_values.specs.Answers.{Gives};
ghost use Rattle.mq_ir.specs.Tables.{is_name};
ghost use Rattle.mq_bind_scopes.specs.Names as spec;

use crate::kinds::ExprKind;
use crate::refusals::{duplicate_name, number, unknown_name};
use crate::scopes::{Named, Position, ReferenceNames, RowColumn, Scope};
use mq_ast::Path;
use mq_ir::ColRef;
use mq_lexer::folded;
use mq_values::{Fail, Memory, Refused, Words};
use std::alloc::Global;

fn is_in_sight(at: Position, item: u32) -> bool
    ensures { result ≡ spec.is_in_sight at item }
{
    match at.last_item {
        Some(last) => item <= last,
        None => true,
    }
}

fn place_of(names: &[Words], name: &Words) -> Option<usize>
    ensures { result ≡ position (is_name name.now) names.now }
{
    names.iter().position(|other| *name == *other)
}

// The FROM item of an alias.
fn item_called(scope: &Scope, at: Position, alias: Words) -> Result<u32, Fail<Refused>>
    ensures { Gives result (spec.item_called scope.now at alias) }
{
    match place_of(scope.aliases.as_slice(), &alias) {
        Some(place) => item_seen(at, number(place)?, alias),
        None => Err(unknown_name(alias)),
    }
}

fn item_seen(at: Position, item: u32, alias: Words) -> Result<u32, Fail<Refused>>
    ensures { Gives result (spec.item_seen at item alias) }
{
    if is_in_sight(at, item) {
        Ok(item)
    } else {
        Err(unknown_name(alias))
    }
}

fn is_of_item(item: Option<u32>, of: u32) -> bool
    ensures { result ≡ spec.is_of_item item of }
{
    match item {
        Some(n) => of == n,
        None => true,
    }
}

fn is_meant(at: Position, item: Option<u32>, name: &Words, c: &RowColumn) -> bool
    ensures { result ≡ spec.is_meant at item name.now c.now }
{
    *name == c.name && is_of_item(item, c.at.item) && is_in_sight(at, c.at.item)
}

fn first_meant<'a>(
    columns: &'a [RowColumn],
    at: Position,
    item: Option<u32>,
    name: &Words,
) -> Option<&'a RowColumn>
    ensures { option_copied result ≡ find (spec.is_meant at item name.now) columns.now }
{
    columns.iter().find(|c| is_meant(at, item, name, *c))
}

fn count_meant(columns: &[RowColumn], at: Position, item: Option<u32>, name: &Words) -> usize
    ensures { result ≡ length (filter (spec.is_meant at item name.now) columns.now) }
{
    columns
        .iter()
        .filter(|c| is_meant(at, item, name, *c))
        .count()
}

// The only column that is meant.
fn sole(
    columns: &[RowColumn],
    at: Position,
    item: Option<u32>,
    name: Words,
) -> Result<(ColRef, ExprKind), Fail<Refused>>
    ensures { Gives result (spec.sole (spec.is_meant at item name) name columns.now) }
{
    match first_meant(columns, at, item, &name) {
        None => Err(unknown_name(name)),
        Some(c) => {
            if count_meant(columns, at, item, &name) > 1 {
                return Err(duplicate_name(name));
            }
            Ok((c.at, c.kind))
        }
    }
}

/// The column that a path names, with its kind: one of exactly one FROM item in sight, or behind an alias one of that item.
/// `UnknownName` where there is none, `DuplicateName` where there are several (docs/LANGUAGE.md, "Names").
pub fn column_named(
    alloc: Global,
    scope: &Scope,
    at: Position,
    path: &Path,
) -> Result<(ColRef, ExprKind), Fail<Refused>>
    ensures { Gives result (spec.column_named scope.now at path.now) }
{
    let name = folded(alloc, path.last.as_str())?;
    match &path.first {
        None => sole(scope.columns.as_slice(), at, None, name),
        Some(alias) => {
            let item = item_called(scope, at, folded(alloc, alias.as_str())?)?;
            sole(scope.columns.as_slice(), at, Some(item), name)
        }
    }
}

/// The number of the first column of a model that has this name.
pub fn place_called(columns: &[Named], name: &Words) -> Option<usize>
    ensures { result ≡ position (spec.is_called name.now) columns.now }
{
    columns.iter().position(|column| *name == column.name)
}

fn column_called<'a>(columns: &'a [Named], name: &Words) -> Option<&'a Named>
    ensures { option_copied result ≡ find (spec.is_called name.now) columns.now }
{
    columns.iter().find(|column| *name == column.name)
}

/// The number and the kind of the first column of a model that has this name, where there is one.
pub fn found_called(columns: &[Named], name: &Words) -> Result<Option<(u32, ExprKind)>, Memory>
    ensures { IfOk result (λ f. f ≡ spec.found_called name.now columns.now) }
{
    match (place_called(columns, name), column_called(columns, name)) {
        (Some(place), Some(column)) => Ok(Some((number(place)?, column.kind))),
        _ => Ok(None),
    }
}

/// The same, or `UnknownName`.
pub fn called(columns: &[Named], name: Words) -> Result<(u32, ExprKind), Fail<Refused>>
    ensures { Gives result (spec.called name columns.now) }
{
    match found_called(columns, &name)? {
        Some(found) => Ok(found),
        None => Err(unknown_name(name)),
    }
}

/// The number of the reference of this name.
pub fn reference_called(refs: &[ReferenceNames], name: &Words) -> Option<usize>
    ensures { result ≡ spec.reference_called name.now refs.now }
{
    refs.iter().position(|reference| *name == reference.name)
}

fn has_column(columns: &[Named], name: &Words) -> bool
    ensures { result ≡ list_any (spec.is_called name.now) columns.now }
{
    columns.iter().any(|column| *name == column.name)
}

/// Whether some reference has a measure of this name.
pub fn is_reference_measure(refs: &[ReferenceNames], name: &Words) -> bool
    ensures { result ≡ spec.is_reference_measure name.now refs.now }
{
    refs.iter().any(|reference| has_column(reference.measures.as_slice(), name))
}
