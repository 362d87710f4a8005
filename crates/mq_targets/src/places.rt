//! The places of a single left side: as tests of their dimensions, and as the values of keys.
ghost use Rattle.std.specs.Prelude.{◌≡◌, map, IfOk};
ghost use Rattle.mq_ir.specs.Targets as spec;
ghost use Rattle.mq_ir.specs.Targets.{place_is_symbolic, value_of};
ghost use Rattle.std.specs.List.{list_any};
ghost use Rattle.mq_targets.specs.Choice.{symbol_at, test_at, with_places};

use mq_ir::SinglePlace;
use mq_values::{DimTest, Items, Key, Memory, Value};
use std::alloc::Global;

// Whether one of the places is symbolic.
pub fn has_symbol(places: &[SinglePlace]) -> bool
    ensures { result ≡ list_any place_is_symbolic places.now }
{
    places.iter().any(|place| is_symbolic(place))
}

fn is_symbolic(place: &SinglePlace) -> bool
    ensures { result ≡ place_is_symbolic place.now }
{
    match place {
        SinglePlace::At(_) => false,
        SinglePlace::Sym(_) => true,
    }
}

// The places as tests of their dimensions.
pub fn tests_of(alloc: Global, places: &[SinglePlace]) -> Result<Vec<DimTest>, Memory>
    ensures { IfOk result (λ tests. tests.items ≡ map test_at places.now) }
{
    let mut tests = Vec::new(alloc);
    for place in places {
        tests.push(test_of(alloc, place)?)?;
    }
    Ok(tests)
}

fn test_of(alloc: Global, place: &SinglePlace) -> Result<DimTest, Memory>
    ensures { IfOk result (λ test. test ≡ test_at place.now) }
{
    match place {
        SinglePlace::At(v) => Ok(DimTest::At(v.copy()?)),
        SinglePlace::Sym(test) => test.copy(alloc),
    }
}

// The places as tests, where a positional place asks nothing.
pub fn symbols_of(alloc: Global, places: &[SinglePlace]) -> Result<Vec<DimTest>, Memory>
    ensures { IfOk result (λ tests. tests.items ≡ map symbol_at places.now) }
{
    let mut tests = Vec::new(alloc);
    for place in places {
        tests.push(symbol_of(alloc, place)?)?;
    }
    Ok(tests)
}

fn symbol_of(alloc: Global, place: &SinglePlace) -> Result<DimTest, Memory>
    ensures { IfOk result (λ test. test ≡ symbol_at place.now) }
{
    match place {
        SinglePlace::At(_) => Ok(DimTest::Any),
        SinglePlace::Sym(test) => test.copy(alloc),
    }
}

// The key that positional places name.
pub fn named(alloc: Global, places: &[SinglePlace]) -> Result<Key, Memory>
    ensures { IfOk result (λ key. key ≡ map value_of places.now) }
{
    let mut values = Items::with_room(alloc, places.len());
    for place in places {
        values.push(value_in(place)?)?;
    }
    Key::new(alloc, values)
}

fn value_in(place: &SinglePlace) -> Result<Value, Memory>
    ensures { IfOk result (λ v. v ≡ value_of place.now) }
{
    match place {
        SinglePlace::At(v) => v.copy(),
        SinglePlace::Sym(_) => Ok(Value::Null),
    }
}

// The key with the values of the positional places.
pub fn projected(alloc: Global, places: &[SinglePlace], key: &[Value]) -> Result<Key, Memory>
    ensures { IfOk result (λ other. other ≡ with_places places.now key.now) }
{
    let mut values = Items::with_room(alloc, places.len().min(key.len()));
    for at in 0..places.len().min(key.len()) {
        values.push(value_with(&places[at], &key[at])?)?;
    }
    Key::new(alloc, values)
}

fn value_with(place: &SinglePlace, value: &Value) -> Result<Value, Memory>
    ensures { IfOk result (λ v. v ≡ spec.value_at (place.now, value.now)) }
{
    match place {
        SinglePlace::At(v) => v.copy(),
        SinglePlace::Sym(_) => value.copy(),
    }
}
