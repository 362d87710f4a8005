//! The numbers of the keys that meet a test of each dimension.
ghost use Rattle.std.specs.Prelude.{◌≡◌, ◌≤◌, ◌++◌, true, None, cond, drop, length, map, slice_index_or, IfOk, IfSome, OnOk};
ghost use Rattle.std.specs.List.{All, AllWithin, filter};
ghost use Rattle.std.specs.List.Sorted.{IsStrictlySortedBy};
ghost use Rattle.mq_values.specs.Order.{cmp_key};
ghost use Rattle.mq_values.specs.declared.operators.DimTest.TheVariants.{Any};
ghost use Rattle.mq_dim_index.specs.Found.{noted};
ghost use Rattle.mq_dim_index.specs.Maps.{MapsKeys};
ghost use Rattle.mq_dim_index.specs.PlaceRuns.{AreRuns, numbers_of};
ghost use Rattle.mq_dim_index.specs.Places.{Tuple, place_of, places_from};
ghost use Rattle.mq_dim_index.specs.Places as spec;
ghost use Rattle.mq_dim_index.specs.Spans.{IsSpan};
ghost use Rattle.mq_dim_index.specs.declared.search.TheConstants.{MAX_KEYS};

use crate::dimension_map::DimensionMap;
use crate::maps::shortest_map;
use crate::place_runs::{PlaceRun, places_of, push_place, runs_of};
use crate::runs::{Run, count_in_runs, first_has_value, next_run};
use crate::search::{MAX_KEYS, search};
use crate::spans::span_of;
use mq_values::{DimTest, Key, Memory, Value};
use std::alloc::Global;

// So many keys in a row are tested in about the time in which the place of one is found.
const TESTS_IN_A_SEARCH: usize = 8;

/// The numbers of these keys, which ascend, that meet the test of each dimension, ascending.
pub fn places_meeting(
    alloc: Global,
    keys: &[Key],
    maps: &[DimensionMap],
    tests: &[DimTest],
) -> Result<Vec<u32>, Memory>
    requires ascending { IsStrictlySortedBy cmp_key keys.now }
    requires numbered { length keys.now ≤ MAX_KEYS }
    requires mapped { All (MapsKeys keys.now) maps.now }
    ensures { IfOk result (λ places. places.items ≡ spec.places_meeting tests.now keys.now) }
{
    let runs = runs_meeting(alloc, keys, maps, tests)?;
    places_of(alloc, runs.as_slice())
}

/// The same numbers as runs. Where the keys stand in one row that searches find, none is tested; else those are tested that the
/// test of the first dimension leaves, or those of a map where they are far fewer.
pub fn runs_meeting(
    alloc: Global,
    keys: &[Key],
    maps: &[DimensionMap],
    tests: &[DimTest],
) -> Result<Vec<PlaceRun>, Memory>
    requires ascending { IsStrictlySortedBy cmp_key keys.now }
    requires numbered { length keys.now ≤ MAX_KEYS }
    requires mapped { All (MapsKeys keys.now) maps.now }
    ensures numbers { IfOk result (λ runs. numbers_of runs.items ≡ spec.places_meeting tests.now keys.now) }
    ensures apart { IfOk result (λ runs. AreRuns 0 (length keys.now) runs.items) }
{
    if let Some(run) = span_of_all(keys, tests) {
        return one_run(alloc, keys, run, tests);
    }
    if maps.is_empty() {
        return runs_in_order(alloc, keys, tests);
    }
    let most = count_in_runs(keys, 0, tests, keys.len()) / TESTS_IN_A_SEARCH;
    match shortest_map(maps, tests, most) {
        Some(map) => {
            let places = places_by_map(alloc, keys, map, tests)?;
            runs_of(alloc, places.as_slice(), keys.len())
        }
        None => runs_in_order(alloc, keys, tests),
    }
}

// The row of the keys that meet every test, where searches find it: each test but the first holds of all values.
fn span_of_all(keys: &[Key], tests: &[DimTest]) -> Option<Run>
    requires { IsStrictlySortedBy cmp_key keys.now }
    ensures { IfSome result (λ run. IsSpan (spec.meets_every tests.now) keys.now run.start run.end) }
{
    if !first_has_value(keys, 0) {
        return None;
    }
    if !ask_nothing(tests, 1) {
        return None;
    }
    match tests.first() {
        Some(test) => span_of(keys, 0, test),
        None => None,
    }
}

// Whether the tests from this one on hold of all values.
fn ask_nothing(tests: &[DimTest], from: usize) -> bool
    ensures { result ≡ true → AllWithin (λ test. test ≡ Any) tests.now from (length tests.now) }
{
    for at in from..tests.len() {
        if !is_any(&tests[at]) {
            return false;
        }
    }
    true
}

fn is_any(test: &DimTest) -> bool
    ensures { result ≡ true → test.now ≡ Any }
{
    matches!(test, DimTest::Any)
}

// The run of a row of keys, unless it is empty.
fn one_run(
    alloc: Global,
    keys: &[Key],
    run: Run,
    tests: &[DimTest],
) -> Result<Vec<PlaceRun>, Memory>
    requires numbered { length keys.now ≤ MAX_KEYS }
    requires span { IsSpan (spec.meets_every tests.now) keys.now run.start run.end }
    ensures numbers { IfOk result (λ runs. numbers_of runs.items ≡ spec.places_meeting tests.now keys.now) }
    ensures apart { IfOk result (λ runs. AreRuns 0 (length keys.now) runs.items) }
{
    let mut runs = Vec::new(alloc);
    if run.start >= run.end {
        return Ok(runs);
    }
    runs.push(PlaceRun {
        first: run.start as u32,
        past: run.end as u32,
    })?;
    Ok(runs)
}

/// The numbers of these keys, in whatever order they stand, that meet the test of each dimension, as runs. Each key is tested.
pub fn runs_among(alloc: Global, keys: &[Key], tests: &[DimTest]) -> Result<Vec<PlaceRun>, Memory>
    requires { length keys.now ≤ MAX_KEYS }
    ensures numbers { IfOk result (λ runs. numbers_of runs.items ≡ spec.places_meeting tests.now keys.now) }
    ensures apart { IfOk result (λ runs. AreRuns 0 (length keys.now) runs.items) }
    ensures below { IfOk result (λ runs. All (λ run. run.past ≤ length keys.now) runs.items) }
    ensures keys { (other : Tuple) → IfOk result (λ runs.
        map (λ place. slice_index_or keys.now place other) (numbers_of runs.items) ≡ filter (spec.meets_every tests.now) keys.now) }
{
    let mut runs = Vec::new(alloc);
    let all = Run {
        start: 0,
        end: keys.len(),
    };
    add_met(&mut runs, keys, all, tests)?;
    Ok(runs)
}

// The same numbers, where the keys that are tested are those that the test of the first dimension leaves.
fn runs_in_order(alloc: Global, keys: &[Key], tests: &[DimTest]) -> Result<Vec<PlaceRun>, Memory>
    requires ascending { IsStrictlySortedBy cmp_key keys.now }
    requires numbered { length keys.now ≤ MAX_KEYS }
    ensures numbers { IfOk result (λ runs. numbers_of runs.items ≡ spec.places_meeting tests.now keys.now) }
    ensures apart { IfOk result (λ runs. AreRuns 0 (length keys.now) runs.items) }
{
    let mut runs = Vec::new(alloc);
    let mut from = 0;
    'rows: while let Some(run) = next_run(keys, 0, tests, from) {
        add_met(&mut runs, keys, run, tests)?;
        from = run.end;
    }
    Ok(runs)
}

// Puts the numbers of those keys in this row that meet the test of each dimension behind those of `runs`.
fn add_met(
    runs: &mut Vec<PlaceRun>,
    keys: &[Key],
    run: Run,
    tests: &[DimTest],
) -> Result<(), Memory>
    requires numbered { length keys.now ≤ MAX_KEYS }
    requires within { run.end ≤ length keys.now }
    requires ordered { run.start ≤ run.end }
    requires apart { AreRuns 0 run.start runs.old.items }
    ensures numbers { OnOk result (
        numbers_of runs.new.items ++ places_from run.end tests.now (drop run.end keys.now)
        ≡ numbers_of runs.old.items ++ places_from run.start tests.now (drop run.start keys.now)) }
    ensures apart { OnOk result (AreRuns 0 run.end runs.new.items) }
{
    for at in run.start..run.end {
        if meets_every(tests, keys[at].as_slice()) {
            push_place(runs, at as u32)?;
        }
    }
    Ok(())
}

// The same numbers, where the keys that are tested are those that the test of a map's dimension leaves.
fn places_by_map(
    alloc: Global,
    keys: &[Key],
    map: &DimensionMap,
    tests: &[DimTest],
) -> Result<Vec<u32>, Memory>
    requires ascending { IsStrictlySortedBy cmp_key keys.now }
    requires numbered { length keys.now ≤ MAX_KEYS }
    requires mapped { MapsKeys keys.now map.now }
    ensures { IfOk result (λ places. places.items ≡ spec.places_meeting tests.now keys.now) }
{
    let mut places = Vec::new(alloc);
    let mut from = 0;
    'rows: while let Some(run) = map.next_run(tests, from) {
        add_found(&mut places, keys, map.keys(), run, tests)?;
        from = run.end;
    }
    places.sort_unstable();
    Ok(places)
}

// Puts the numbers of those keys in this row of others that meet the test of each dimension behind `places`.
fn add_found(
    places: &mut Vec<u32>,
    keys: &[Key],
    found: &[Key],
    run: Run,
    tests: &[DimTest],
) -> Result<(), Memory>
    requires ascending { IsStrictlySortedBy cmp_key keys.now }
    requires numbered { length keys.now ≤ MAX_KEYS }
    requires within { run.end ≤ length found.now }
    requires ordered { run.start ≤ run.end }
    ensures { OnOk result (
        places.new.items ++ noted tests.now keys.now (drop run.end found.now)
        ≡ places.old.items ++ noted tests.now keys.now (drop run.start found.now)) }
{
    for at in run.start..run.end {
        if let Some(place) = place_if_met(keys, found[at].as_slice(), tests) {
            places.push(place)?;
        }
    }
    Ok(())
}

// The number of the place of a key, where it meets the test of each dimension and is there.
fn place_if_met(keys: &[Key], key: &[Value], tests: &[DimTest]) -> Option<u32>
    requires ascending { IsStrictlySortedBy cmp_key keys.now }
    requires numbered { length keys.now ≤ MAX_KEYS }
    ensures { result ≡ cond (spec.meets_every tests.now key.now) (place_of keys.now key.now) None }
{
    if !meets_every(tests, key) {
        return None;
    }
    match search(keys, key) {
        Ok(at) => Some(at as u32),
        Err(_) => None,
    }
}

// Whether each value of `key` meets the test of its dimension.
fn meets_every(tests: &[DimTest], key: &[Value]) -> bool
    ensures { result ≡ spec.meets_every tests.now key.now }
{
    tests.iter().zip(key).all(|(test, v)| test.meets(v))
}
