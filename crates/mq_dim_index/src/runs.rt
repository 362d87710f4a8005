//! The keys that can meet some tests, among keys that ascend by their values in a dimension.
ghost use Rattle.std.specs.Prelude.{◌≡◌, ◌≢◌, ◌↔◌, ◌<◌, ◌≤◌, true, false, ℕ, ◌+◌, List, length, map, slice_index_or, None, Some, IfSome, IsTrue};
ghost use Rattle.std.specs.List.{All, AllWithin, slice_get};
ghost use Rattle.std.specs.Option.{option_copied};
ghost use Rattle.std.specs.declared.cmp.Ordering.TheVariants.{Less, Greater};
ghost use Rattle.mq_values.specs.DimTests.{all_hold, is_among, told};
ghost use Rattle.mq_values.specs.Truth.{agrees};
ghost use Rattle.mq_values.specs.declared.operators.DimTest.TheVariants.{In};
ghost use Rattle.mq_values.specs.declared.value.Value.{Value as OneValue};
ghost use Rattle.mq_dim_index.specs.Runs as spec;
ghost use Rattle.mq_dim_index.specs.Runs.{AscendIn, IsBound, IsLeastSoFar, Misses, MissesOne, NextRow, cmp_bound};

use mq_values::{CmpOp, DimTest, Items, Key, Value, cmp_sql};
use std::cmp::Ordering;

/// Keys in a row: those from `start` on that stand before `end`.
#[derive(Clone, Copy)]
pub struct Run {
    pub start: usize,
    pub end: usize,
}

/// The next keys in a row of which some may meet every test, at the place `from` or behind it: between it and the row none
/// does. `None` where none does from there on. Searches find the row by what the test of the dimension says, by whose values
/// `keys` ascend (docs/MEANING.md, "Tests of a dimension").
pub fn next_run(keys: &[Key], dimension: usize, tests: &[DimTest], from: usize) -> Option<Run>
    requires { AscendIn dimension keys.now }
    ensures there { IfSome result (λ run. NextRow (MissesOne tests.now) keys.now from run.start run.end) }
    ensures none { result ≡ None → AllWithin (MissesOne tests.now) keys.now from (length keys.now) }
{
    if from >= keys.len() {
        return None;
    }
    match tests.get(dimension) {
        Some(test) if first_has_value(keys, dimension) => next_by(keys, dimension, test, from),
        _ => Some(Run {
            start: from,
            end: keys.len(),
        }),
    }
}

/// How many keys stand in such rows, or `most` where there are more.
pub fn count_in_runs(keys: &[Key], dimension: usize, tests: &[DimTest], most: usize) -> usize
    requires { AscendIn dimension keys.now }
{
    let mut count = 0;
    let mut from = 0;
    'rows: while let Some(run) = next_run(keys, dimension, tests, from) {
        count += run.end - run.start;
        if count >= most {
            return most;
        }
        from = run.end;
    }
    count
}

/// Whether the first key has a value in this dimension. Where keys ascend, each has one then.
pub fn first_has_value(keys: &[Key], dimension: usize) -> bool
    ensures { result ≡ spec.first_has_value dimension keys.now }
{
    match keys.first() {
        Some(key) => key.as_slice().get(dimension).is_some(),
        None => false,
    }
}

// The next row by what the test of this dimension says: by a list one for each of its values, else one for all.
fn next_by(keys: &[Key], dimension: usize, test: &DimTest, from: usize) -> Option<Run>
    requires ascending { AscendIn dimension keys.now }
    requires valued { spec.first_has_value dimension keys.now ≡ true }
    requires within { from < length keys.now }
    ensures there { IfSome result (λ run. NextRow (Misses dimension test.now) keys.now from run.start run.end) }
    ensures none { result ≡ None → AllWithin (Misses dimension test.now) keys.now from (length keys.now) }
{
    match test {
        DimTest::In(ws) => next_of(keys, dimension, ws, from),
        _ => rest_of(keys, dimension, test, from),
    }
}

// The keys that have the next of these values.
fn next_of(keys: &[Key], dimension: usize, ws: &Items<Value>, from: usize) -> Option<Run>
    requires ascending { AscendIn dimension keys.now }
    requires valued { spec.first_has_value dimension keys.now ≡ true }
    requires within { from < length keys.now }
    ensures there { IfSome result (λ run. NextRow (Misses dimension (In ws.now)) keys.now from run.start run.end) }
    ensures none { result ≡ None → AllWithin (Misses dimension (In ws.now)) keys.now from (length keys.now) }
{
    match least_from(ws.as_slice(), keys[from].as_slice(), dimension) {
        Some(w) => {
            let end = keys_up_to(keys, dimension, w);
            Some(Run {
                start: keys_below(keys, dimension, w).max(from).min(end),
                end,
            })
        }
        None => None,
    }
}

// The least of these values that is not below the value of this key.
fn least_from<'a>(ws: &'a [Value], key: &[Value], dimension: usize) -> Option<&'a Value>
    ensures { IsLeastSoFar ws.now (slice_get key.now dimension) (length ws.now) (option_copied result) }
{
    let mut found = None;
    for w in ws {
        found = lesser(found, w, key, dimension);
    }
    found
}

// The lesser of what was found and `w`, where that is not below the value of this key.
fn lesser<'a>(
    found: Option<&'a Value>,
    w: &'a Value,
    key: &[Value],
    dimension: usize,
) -> Option<&'a Value>
    ensures { (ws : List OneValue) (i : ℕ) →
        i < length ws → w.now ≡ slice_index_or ws i w.now → IsLeastSoFar ws (slice_get key.now dimension) i (option_copied found.entry) →
        IsLeastSoFar ws (slice_get key.now dimension) (i + 1) (option_copied result) }
{
    if cmp_there(key, dimension, w).is_gt() {
        return found;
    }
    match found {
        None => Some(w),
        Some(least) => Some(if cmp_by_worth(least, w).is_gt() {
            w
        } else {
            least
        }),
    }
}

// The keys from a place on that can meet the test of this dimension.
fn rest_of(keys: &[Key], dimension: usize, test: &DimTest, from: usize) -> Option<Run>
    requires ascending { AscendIn dimension keys.now }
    requires valued { spec.first_has_value dimension keys.now ≡ true }
    ensures there { IfSome result (λ run. NextRow (Misses dimension test.now) keys.now from run.start run.end) }
    ensures none { result ≡ None → AllWithin (Misses dimension test.now) keys.now from (length keys.now) }
{
    let end = end_of(keys, dimension, test);
    if end <= from {
        return None;
    }
    Some(Run {
        start: start_of(keys, dimension, test).max(from).min(end),
        end,
    })
}

// How many keys stand in front of all that can meet the test.
fn start_of(keys: &[Key], dimension: usize, test: &DimTest) -> usize
    requires ascending { AscendIn dimension keys.now }
    requires valued { spec.first_has_value dimension keys.now ≡ true }
    ensures within { result ≤ length keys.now }
    ensures missed { AllWithin (Misses dimension test.now) keys.now 0 result }
{
    match bound_of(test, Ordering::Less) {
        Some(bound) => keys_below(keys, dimension, bound),
        None => 0,
    }
}

// How many keys there are up to the last that can meet the test.
fn end_of(keys: &[Key], dimension: usize, test: &DimTest) -> usize
    requires { AscendIn dimension keys.now }
    ensures within { result ≤ length keys.now }
    ensures missed { AllWithin (Misses dimension test.now) keys.now result (length keys.now) }
{
    match bound_of(test, Ordering::Greater) {
        Some(bound) => keys_up_to(keys, dimension, bound),
        None => keys.len(),
    }
}

// How many keys have a value below `bound` in this dimension.
fn keys_below(keys: &[Key], dimension: usize, bound: &Value) -> usize
    requires { AscendIn dimension keys.now }
    ensures within { result ≤ length keys.now }
    ensures before { AllWithin (λ key. cmp_bound (slice_get key dimension) bound.now ≡ Less) keys.now 0 result }
{
    keys.partition_point(|key| cmp_there(key.as_slice(), dimension, bound).is_lt())
}

// How many keys have a value up to `bound` in this dimension.
fn keys_up_to(keys: &[Key], dimension: usize, bound: &Value) -> usize
    requires { AscendIn dimension keys.now }
    ensures within { result ≤ length keys.now }
    ensures behind { AllWithin (λ key. cmp_bound (slice_get key dimension) bound.now ≡ Greater) keys.now result (length keys.now) }
{
    keys.partition_point(|key| cmp_there(key.as_slice(), dimension, bound).is_le())
}

// How the value of a key in a dimension stands to `bound`.
fn cmp_there(key: &[Value], dimension: usize, bound: &Value) -> Ordering
    ensures { result ≡ cmp_bound (slice_get key.now dimension) bound.now }
{
    match key.get(dimension) {
        Some(v) => cmp_by_worth(v, bound),
        None => Ordering::Less,
    }
}
// How two values stand, where numbers of one worth are not told apart.
fn cmp_by_worth(v: &Value, w: &Value) -> Ordering
    ensures { result ≡ spec.cmp_by_worth v.now w.now }
{
    match cmp_sql(v, w) {
        Some(order) => order,
        None => v.cmp(w),
    }
}

// A value such that none on that side of it meets the test, where the test names one.
#[cycle(bounding)]
fn bound_of<'a>(test: &'a DimTest, side: Ordering) -> Option<&'a Value>
    ensures { IfSome result (λ w. IsBound test.now side w.now) }
{
    match test {
        DimTest::At(w) => bound_by(CmpOp::Eq, w, side),
        DimTest::Cmp(op, w) => bound_by(*op, w, side),
        DimTest::Between(low, high) => match bound_by(CmpOp::Ge, low, side) {
            Some(w) => Some(w),
            None => bound_by(CmpOp::Le, high, side),
        },
        DimTest::In(ws) => outermost(ws.as_slice(), side),
        DimTest::And(tests) => bound_among(tests.as_slice(), side),
        _ => None,
    }
}

// The same for tests that hold all together: what the first says that names a value.
#[cycle(bounding)]
fn bound_among<'a>(tests: &'a [DimTest], side: Ordering) -> Option<&'a Value>
    ensures { IfSome result (λ w. (v : OneValue) → all_hold (map (told v) tests.now) ≡ Some true → spec.cmp_by_worth v w.now ≢ side) }
{
    for test in tests {
        if let Some(w) = bound_of(test, side) {
            return Some(w);
        }
    }
    None
}

// The operand of a comparison, where the comparison holds of no value on that side of it.
fn bound_by<'a>(op: CmpOp, operand: &'a Value, side: Ordering) -> Option<&'a Value>
    ensures { IfSome result (λ w. (w.now ≡ operand.now) × (agrees op side ≡ false)) }
{
    if op.agrees(side) { None } else { Some(operand) }
}

// The one of these values that stands furthest on `side`, if there is one and the side is not the middle.
fn outermost<'a>(ws: &'a [Value], side: Ordering) -> Option<&'a Value>
    ensures { IfSome result (λ w. (v : OneValue) → is_among v ws.now ≡ Some true → spec.cmp_by_worth v w.now ≢ side) }
{
    if side.is_eq() || ws.is_empty() {
        return None;
    }
    let mut found = 0;
    for i in 0..ws.len() {
        if stands_on(side, &ws[i], &ws[found]) {
            found = i;
        }
    }
    Some(&ws[found])
}

// Whether `v` stands on this side of `w`.
fn stands_on(side: Ordering, v: &Value, w: &Value) -> bool
    ensures { IsTrue result ↔ (spec.cmp_by_worth v.now w.now ≡ side) }
{
    let order = cmp_by_worth(v, w);
    match side {
        Ordering::Less => order.is_lt(),
        Ordering::Equal => order.is_eq(),
        Ordering::Greater => order.is_gt(),
    }
}
