//! The keys that meet a test of one dimension, where they stand in one row.
ghost use Rattle.std.specs.Prelude.{◌≡◌, ◌≢◌, true, Bool, List, ◌&&◌, IfSome};
ghost use Rattle.std.specs.List.{list_all, slice_get};
ghost use Rattle.mq_values.specs.declared.operators.CmpOp.TheVariants.{Ge, Le, Ne};
ghost use Rattle.mq_values.specs.declared.operators.DimTest.TheVariants.{At, Cmp};
ghost use Rattle.mq_dim_index.specs.Places.{Tuple};
ghost use Rattle.mq_dim_index.specs.Runs as runs;
ghost use Rattle.mq_dim_index.specs.Runs.{AscendIn, value_meets};
ghost use Rattle.mq_dim_index.specs.Spans as spec;
ghost use Rattle.mq_dim_index.specs.Spans.{IsSpan, stand_at, stand_by};

use crate::runs::Run;
use mq_values::{CmpOp, DimTest, Key, Value, cmp_sql};
use std::cmp::Ordering;

/// The keys that meet the test of a dimension, by whose values `keys` ascend, where the test is such that they stand in one
/// row: searches find its ends, and no key between them is looked at. `None` says nothing.
#[cycle(spanning)]
pub fn span_of(keys: &[Key], dimension: usize, test: &DimTest) -> Option<Run>
    requires ascending { AscendIn dimension keys.now }
    requires valued { runs.first_has_value dimension keys.now ≡ true }
    ensures { IfSome result (λ run. IsSpan (λ key. value_meets test.now (slice_get key dimension)) keys.now run.start run.end) }
{
    match test {
        DimTest::Any => Some(all_of(keys)),
        DimTest::At(w) => Some(span_at(keys, dimension, w)),
        DimTest::Cmp(op, w) => span_by(keys, dimension, *op, w),
        DimTest::Between(low, high) => span_between(keys, dimension, low, high),
        DimTest::And(tests) => span_among(keys, dimension, tests.as_slice()),
        _ => None,
    }
}

// The same for tests that hold all together.
#[cycle(spanning)]
fn span_among(keys: &[Key], dimension: usize, tests: &[DimTest]) -> Option<Run>
    requires ascending { AscendIn dimension keys.now }
    requires valued { runs.first_has_value dimension keys.now ≡ true }
    ensures { IfSome result (λ run. IsSpan (λ key. list_all (λ test. value_meets test (slice_get key dimension)) tests.now) keys.now run.start run.end) }
{
    let mut all = all_of(keys);
    for test in tests {
        match span_of(keys, dimension, test) {
            Some(run) => all = common(all, run),
            None => return None,
        }
    }
    Some(all)
}

// All keys, in one row.
fn all_of(keys: &[Key]) -> Run
    ensures { IsSpan (λ key. true) keys.now result.start result.end }
{
    Run {
        start: 0,
        end: keys.len(),
    }
}

// What two rows of the same keys have in common.
fn common(one: Run, other: Run) -> Run
    ensures { (p q : Tuple → Bool) (keys : List Tuple) → IsSpan p keys one.start one.end → IsSpan q keys other.start other.end →
        IsSpan (λ key. p key && q key) keys result.start result.end }
{
    let end = one.end.min(other.end);
    Run {
        start: one.start.max(other.start).min(end),
        end,
    }
}

// The keys that have a value from `low` up to `high`.
fn span_between(keys: &[Key], dimension: usize, low: &Value, high: &Value) -> Option<Run>
    requires ascending { AscendIn dimension keys.now }
    requires valued { runs.first_has_value dimension keys.now ≡ true }
    ensures { IfSome result (λ run. IsSpan (λ key. value_meets (Cmp Ge low.now) (slice_get key dimension)
        && value_meets (Cmp Le high.now) (slice_get key dimension)) keys.now run.start run.end) }
{
    let Some(above) = span_by(keys, dimension, CmpOp::Ge, low) else {
        return None;
    };
    let Some(below) = span_by(keys, dimension, CmpOp::Le, high) else {
        return None;
    };
    Some(common(above, below))
}

// The keys of whose value a comparison with `w` holds. Those that differ from it stand in two rows, and no key compares with
// null.
fn span_by(keys: &[Key], dimension: usize, op: CmpOp, w: &Value) -> Option<Run>
    requires ascending { AscendIn dimension keys.now }
    requires valued { runs.first_has_value dimension keys.now ≡ true }
    ensures { IfSome result (λ run. IsSpan (λ key. value_meets (Cmp op w.now) (slice_get key dimension)) keys.now run.start run.end) }
{
    if w.is_null() {
        return None;
    }
    if !holds_in_a_row(op) {
        return None;
    }
    let end = keys.partition_point(|key| stand_there(key.as_slice(), dimension, op, w).is_le());
    let start = keys.partition_point(|key| stand_there(key.as_slice(), dimension, op, w).is_lt());
    Some(Run {
        start: start.min(end),
        end,
    })
}

// Whether the values that an operator holds of stand in one row.
fn holds_in_a_row(op: CmpOp) -> bool
    ensures { result ≡ true → op ≢ Ne }
{
    !matches!(op, CmpOp::Ne)
}

// The keys whose value is `w`.
fn span_at(keys: &[Key], dimension: usize, w: &Value) -> Run
    requires ascending { AscendIn dimension keys.now }
    requires valued { runs.first_has_value dimension keys.now ≡ true }
    ensures { IsSpan (λ key. value_meets (At w.now) (slice_get key dimension)) keys.now result.start result.end }
{
    let end = keys.partition_point(|key| cmp_there(key.as_slice(), dimension, w).is_le());
    let start = keys.partition_point(|key| cmp_there(key.as_slice(), dimension, w).is_lt());
    Run {
        start: start.min(end),
        end,
    }
}

// How the value of a key stands to those that a comparison with `w` holds of.
fn stand_there(key: &[Value], dimension: usize, op: CmpOp, w: &Value) -> Ordering
    ensures { result ≡ stand_by op w.now (slice_get key.now dimension) }
{
    let Some(v) = key.get(dimension) else {
        return Ordering::Less;
    };
    match cmp_sql(v, w) {
        Some(order) => stand_to(op, order),
        None => v.cmp(w),
    }
}

// How a value that stands so to the operand stands to those that the operator holds of.
fn stand_to(op: CmpOp, order: Ordering) -> Ordering
    ensures { result ≡ spec.stand_to op order }
{
    if op.agrees(order) {
        return Ordering::Equal;
    }
    match op {
        CmpOp::Eq | CmpOp::Ne => order,
        CmpOp::Lt | CmpOp::Le => Ordering::Greater,
        CmpOp::Gt | CmpOp::Ge => Ordering::Less,
    }
}

// How the value of a key stands to `w` itself.
fn cmp_there(key: &[Value], dimension: usize, w: &Value) -> Ordering
    ensures { result ≡ stand_at w.now (slice_get key.now dimension) }
{
    match key.get(dimension) {
        Some(v) => v.cmp(w),
        None => Ordering::Less,
    }
}
