//! The cells that references name.
ghost use Rattle.std.specs.Prelude.{◌≡◌, true, Ok, IfOk};
ghost use Rattle.std.specs.List.{list_all, zip};
ghost use Rattle.mq_values.specs.Answers.{Gives};
ghost use Rattle.mq_ir.specs.Reads as spec;
ghost use Rattle.mq_ir.specs.Targets as targets;
ghost use Rattle.mq_refs.specs.Sites.{if_named, site_of};
ghost use Rattle.mq_refs.specs.Sites as sites;

use crate::inside::Inside;
use crate::plain::{brought, is_number, is_of, plain_number};
use crate::standpoint::Standpoint;
use mq_ir::{Expr, Test};
use mq_scalar::{converted, test_of};
use mq_values::{DimTest, Fail, Items, Key, Kind, Memory, Value, ValueFault};
use std::alloc::Global;

/// The values that the indices of a single cell name, each converted to its dimension's kind, or the first fault from
/// left to right.
pub fn cell_named(
    alloc: Global,
    at: &Standpoint<'_>,
    kinds: &[Kind],
    indices: &[Expr],
) -> Result<Items<Value>, Fail<ValueFault>>
    ensures { Gives result (spec.cell_named (site_of at.now) kinds.now indices.now) }
{
    let mut values = Items::with_room(alloc, kinds.len().min(indices.len()));
    for i in 0..kinds.len().min(indices.len()) {
        values.push(index_named(alloc, at, kinds[i], &indices[i])?)?;
    }
    Ok(values)
}

/// The value that an index names, converted to its dimension's kind, or its fault.
pub fn index_named(
    alloc: Global,
    at: &Standpoint<'_>,
    kind: Kind,
    e: &Expr,
) -> Result<Value, Fail<ValueFault>>
    ensures { Gives result (sites.index_named (site_of at.now) (kind, e.now)) }
{
    match plain_number(at, e) {
        Some(n) => brought(alloc, Value::Num(n), kind),
        None => converted(alloc, e, kind, &mut Inside { at }),
    }
}

/// Whether the indices of a single cell are seen at once to name the cell at `key`; false says nothing.
pub fn names_at_once(at: &Standpoint<'_>, kinds: &[Kind], indices: &[Expr], key: &[Value]) -> bool
    ensures { result ≡ true → spec.cell_named (site_of at.now) kinds.now indices.now ≡ Ok key.now }
{
    if key.len() != kinds.len().min(indices.len()) {
        return false;
    }
    for i in 0..key.len() {
        if !names_part(at, kinds[i], &indices[i], &key[i]) {
            return false;
        }
    }
    true
}

// Whether an index is seen at once to name `v`.
fn names_part(at: &Standpoint<'_>, kind: Kind, e: &Expr, v: &Value) -> bool
    ensures { result ≡ true → sites.index_named (site_of at.now) (kind, e.now) ≡ Ok v.now }
{
    match plain_number(at, e) {
        Some(n) => is_number(v, n) && is_of(v, kind),
        None => false,
    }
}

/// The tests of a range's places, their operands evaluated, or the first fault from left to right.
pub fn tests_named(
    alloc: Global,
    at: &Standpoint<'_>,
    kinds: &[Kind],
    places: &[Test],
) -> Result<Items<DimTest>, Fail<ValueFault>>
    ensures { Gives result (sites.tests_named (site_of at.now) kinds.now places.now) }
{
    let mut tests = Items::with_room(alloc, kinds.len().min(places.len()));
    for i in 0..kinds.len().min(places.len()) {
        tests.push(place_tested(alloc, at, kinds[i], &places[i])?)?;
    }
    Ok(tests)
}

fn place_tested(
    alloc: Global,
    at: &Standpoint<'_>,
    kind: Kind,
    place: &Test,
) -> Result<DimTest, Fail<ValueFault>>
    ensures { Gives result (sites.place_tested (site_of at.now) (kind, place.now)) }
{
    test_of(alloc, place, kind, &mut Inside { at })
}

/// The key of the single cell of the main model that indices name, or `None` where one of them faults.
pub fn key_named(
    alloc: Global,
    at: &Standpoint<'_>,
    indices: &[Expr],
) -> Result<Option<Key>, Memory>
    ensures { IfOk result (λ key. key ≡ if_named (spec.cell_named (site_of at.now) at.now.model.now.part.now.dims indices.now)) }
{
    match cell_named(alloc, at, at.model.part.dims.as_slice(), indices) {
        Ok(values) => Ok(Some(Key::new(alloc, values)?)),
        Err(Fail::Cause(_)) => Ok(None),
        Err(Fail::Memory) => Err(Memory),
    }
}

/// Whether each value of `key` meets the test of its dimension.
pub fn meets_every(tests: &[DimTest], key: &[Value]) -> bool
    ensures { result ≡ targets.meets_every tests.now key.now }
{
    tests.iter().zip(key).all(|(test, v)| test.meets(v))
}
