//! Comparisons of values, and tests of one dimension.
ghost use Rattle.std.specs.Prelude.{◌≡◌, IsTrue, ◌↔◌, map, IfOk};
ghost use Rattle.mq_values.specs.DimTests as spec;
ghost use Rattle.mq_values.specs.Truth.{agrees, both, comparison, either, opposite};

use crate::boxed::Boxed;
use crate::items::Items;
use crate::memory::Memory;
use crate::operators::{CmpOp, DimTest};
use crate::order::cmp_sql;
use crate::value::Value;
use std::alloc::Global;
use std::cmp::Ordering;

/// What a comparison of two values comes to: numbers by what they are worth, texts by their bytes.
/// `None`, unknown, exactly where one is null or the two are of different sorts (docs/LANGUAGE.md, "Comparisons").
pub fn compare(op: CmpOp, a: &Value, b: &Value) -> Option<bool>
    ensures { result ≡ comparison op a.now b.now }
{
    match cmp_sql(a, b) {
        Some(order) => Some(op.agrees(order)),
        None => None,
    }
}

impl CmpOp {
    /// Whether the operator holds of two values that stand in this order.
    pub fn agrees(self, order: Ordering) -> bool
        ensures { result ≡ agrees self order }
    {
        match self {
            CmpOp::Eq => order.is_eq(),
            CmpOp::Ne => order.is_ne(),
            CmpOp::Lt => order.is_lt(),
            CmpOp::Le => order.is_le(),
            CmpOp::Gt => order.is_gt(),
            CmpOp::Ge => order.is_ge(),
        }
    }
}

/// `a` AND `b`, of three values: false where one is false, and unknown (`None`) where only an unknown is in the way.
pub fn truth_and(a: Option<bool>, b: Option<bool>) -> Option<bool>
    ensures { result ≡ both a b }
{
    match (a, b) {
        (Some(false), _) => Some(false),
        (Some(true), b) => b,
        (None, Some(false)) => Some(false),
        (None, _) => None,
    }
}

/// `a` OR `b`, of three values: true where one is true, and unknown (`None`) where only an unknown is in the way.
pub fn truth_or(a: Option<bool>, b: Option<bool>) -> Option<bool>
    ensures { result ≡ either a b }
{
    match (a, b) {
        (Some(true), _) => Some(true),
        (Some(false), b) => b,
        (None, Some(true)) => Some(true),
        (None, _) => None,
    }
}

/// NOT `a`; the opposite of unknown is unknown.
pub fn truth_not(a: Option<bool>) -> Option<bool>
    ensures { result ≡ opposite a }
{
    match a {
        Some(holds) => Some(!holds),
        None => None,
    }
}

impl DimTest {
    /// What the test says of `v`: `None` is unknown (docs/MEANING.md, "Tests of a dimension").
    #[cycle(telling)]
    #[tactic(auto, using(crate::specs::DimTestLaws::told_laws))]
    pub fn told(&self, v: &Value) -> Option<bool>
        ensures { result ≡ spec.told v.now self.now }
    {
        match self {
            DimTest::Any => Some(true),
            DimTest::At(w) => Some(v.cmp(w).is_eq()),
            DimTest::Cmp(op, w) => compare(*op, v, w),
            DimTest::Between(low, high) => {
                truth_and(compare(CmpOp::Ge, v, low), compare(CmpOp::Le, v, high))
            }
            DimTest::In(ws) => told_among(v, ws.as_slice()),
            DimTest::Null => Some(v.is_null()),
            DimTest::And(tests) => told_by_all(v, tests.as_slice()),
            DimTest::Or(tests) => told_by_any(v, tests.as_slice()),
            DimTest::Not(test) => truth_not(test.get().told(v)),
        }
    }

    /// The same test once more. Texts are shared, not copied.
    #[cycle(copying)]
    pub fn copy(&self, alloc: Global) -> Result<DimTest, Memory>
        ensures { IfOk result (λ test. test ≡ self.now) }
    {
        match self {
            DimTest::Any => Ok(DimTest::Any),
            DimTest::At(w) => Ok(DimTest::At(w.copy()?)),
            DimTest::Cmp(op, w) => Ok(DimTest::Cmp(*op, w.copy()?)),
            DimTest::Between(low, high) => Ok(DimTest::Between(low.copy()?, high.copy()?)),
            DimTest::In(ws) => Ok(DimTest::In(copy_values(alloc, ws.as_slice())?)),
            DimTest::Null => Ok(DimTest::Null),
            DimTest::And(tests) => Ok(DimTest::And(copy_tests(alloc, tests.as_slice())?)),
            DimTest::Or(tests) => Ok(DimTest::Or(copy_tests(alloc, tests.as_slice())?)),
            DimTest::Not(test) => Ok(DimTest::Not(Boxed::new(alloc, test.get().copy(alloc)?)?)),
        }
    }

    /// Whether `v` meets the test; unknown does not count.
    pub fn meets(&self, v: &Value) -> bool
        ensures { result ≡ spec.meets v.now self.now }
    {
        matches!(self.told(v), Some(true))
    }
}

// What IN says of `v` and these values.
#[tactic(auto, using(crate::proofs::TruthLemmas::truth_laws))]
fn told_among(v: &Value, ws: &[Value]) -> Option<bool>
    ensures { result ≡ spec.is_among v.now ws.now }
{
    let mut so_far = Some(false);
    for w in ws {
        so_far = truth_or(so_far, compare(CmpOp::Eq, v, w));
    }
    so_far
}

// What all of these tests say together.
#[cycle(telling)]
#[tactic(auto, using(crate::proofs::TruthLemmas::truth_laws))]
fn told_by_all(v: &Value, tests: &[DimTest]) -> Option<bool>
    ensures { result ≡ spec.all_hold (map (spec.told v.now) tests.now) }
{
    let mut so_far = Some(true);
    for test in tests {
        so_far = truth_and(so_far, test.told(v));
    }
    so_far
}

// What one of these tests says, or none.
#[cycle(telling)]
#[tactic(auto, using(crate::proofs::TruthLemmas::truth_laws))]
fn told_by_any(v: &Value, tests: &[DimTest]) -> Option<bool>
    ensures { result ≡ spec.any_holds (map (spec.told v.now) tests.now) }
{
    let mut so_far = Some(false);
    for test in tests {
        so_far = truth_or(so_far, test.told(v));
    }
    so_far
}

// These values once more.
fn copy_values(alloc: Global, ws: &[Value]) -> Result<Items<Value>, Memory>
    ensures { IfOk result (λ copies. copies ≡ ws.now) }
{
    let mut copies = Items::new(alloc);
    for w in ws {
        copies.push(w.copy()?)?;
    }
    Ok(copies)
}

// These tests once more.
#[cycle(copying)]
fn copy_tests(alloc: Global, tests: &[DimTest]) -> Result<Items<DimTest>, Memory>
    ensures { IfOk result (λ copies. copies ≡ tests.now) }
{
    let mut copies = Items::new(alloc);
    for test in tests {
        copies.push(test.copy(alloc)?)?;
    }
    Ok(copies)
}
