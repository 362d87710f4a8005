//! Expressions once more.
ghost use Rattle.std.specs.Prelude.{◌≡◌, IfOk};

use mq_ir::{BoundArm, BoundProd, BoundSum, Expr, Leaf, Test};
use mq_values::{Boxed, Items, Memory};
use std::alloc::Global;

/// The same expression once more. Values are shared, not copied. `Memory` is the only error.
#[cycle(copying)]
pub fn same_expr(alloc: Global, e: &Expr) -> Result<Expr, Memory>
    ensures { IfOk result (λ copy. copy ≡ e.now) }
{
    match e {
        Expr::Or(xs) => Ok(Expr::Or(same_exprs(alloc, xs.as_slice())?)),
        Expr::And(xs) => Ok(Expr::And(same_exprs(alloc, xs.as_slice())?)),
        Expr::Not(a) => Ok(Expr::Not(same_box(alloc, a)?)),
        Expr::Cmp(a, op, b) => Ok(Expr::Cmp(same_box(alloc, a)?, *op, same_box(alloc, b)?)),
        Expr::Between(a, negated, low, high) => Ok(Expr::Between(
            same_box(alloc, a)?,
            *negated,
            same_box(alloc, low)?,
            same_box(alloc, high)?,
        )),
        Expr::InList(a, negated, xs) => Ok(Expr::InList(
            same_box(alloc, a)?,
            *negated,
            same_exprs(alloc, xs.as_slice())?,
        )),
        Expr::IsNull(a, negated) => Ok(Expr::IsNull(same_box(alloc, a)?, *negated)),
        Expr::IsPresent(leaf, negated) => Ok(Expr::IsPresent(same_leaf(alloc, leaf)?, *negated)),
        Expr::Sum(a, terms) => Ok(Expr::Sum(
            same_box(alloc, a)?,
            same_terms(alloc, terms.as_slice())?,
        )),
        Expr::Prod(a, factors) => Ok(Expr::Prod(
            same_box(alloc, a)?,
            same_factors(alloc, factors.as_slice())?,
        )),
        Expr::Neg(a) => Ok(Expr::Neg(same_box(alloc, a)?)),
        Expr::Lit(v) => Ok(Expr::Lit(v.copy()?)),
        Expr::Leaf(leaf) => Ok(Expr::Leaf(same_leaf(alloc, leaf)?)),
        Expr::Case(subject, arms, default) => Ok(Expr::Case(
            same_option(alloc, subject)?,
            same_arms(alloc, arms.as_slice())?,
            same_option(alloc, default)?,
        )),
        Expr::Cast(a, kind) => Ok(Expr::Cast(same_box(alloc, a)?, *kind)),
        Expr::Convert(a, kind) => Ok(Expr::Convert(same_box(alloc, a)?, *kind)),
        Expr::Call(f, xs) => Ok(Expr::Call(*f, same_exprs(alloc, xs.as_slice())?)),
        Expr::PresentV { present, yes, no } => Ok(Expr::PresentV {
            yes: same_box(alloc, yes)?,
            no: same_box(alloc, no)?,
            present: same_leaf(alloc, present)?,
        }),
        Expr::PresentNnv {
            present,
            not_null,
            yes,
            no,
        } => Ok(Expr::PresentNnv {
            yes: same_box(alloc, yes)?,
            no: same_box(alloc, no)?,
            present: same_leaf(alloc, present)?,
            not_null: same_leaf(alloc, not_null)?,
        }),
    }
}

/// The same expressions once more.
#[cycle(copying)]
pub fn same_exprs(alloc: Global, xs: &[Expr]) -> Result<Items<Expr>, Memory>
    ensures { IfOk result (λ copies. copies ≡ xs.now) }
{
    let mut copies = Items::new(alloc);
    for x in xs {
        copies.push(same_expr(alloc, x)?)?;
    }
    Ok(copies)
}

#[cycle(copying)]
fn same_box(alloc: Global, e: &Boxed<Expr>) -> Result<Boxed<Expr>, Memory>
    ensures { IfOk result (λ copy. copy ≡ e.now) }
{
    Boxed::new(alloc, same_expr(alloc, e.get())?)
}

#[cycle(copying)]
fn same_option(alloc: Global, e: &Option<Boxed<Expr>>) -> Result<Option<Boxed<Expr>>, Memory>
    ensures { IfOk result (λ copy. copy ≡ e.now) }
{
    match e {
        Some(e) => Ok(Some(Boxed::new(alloc, same_expr(alloc, e.get())?)?)),
        None => Ok(None),
    }
}

#[cycle(copying)]
fn same_terms(alloc: Global, terms: &[BoundSum]) -> Result<Items<BoundSum>, Memory>
    ensures { IfOk result (λ copies. copies ≡ terms.now) }
{
    let mut copies = Items::new(alloc);
    for term in terms {
        let e = same_expr(alloc, &term.e)?;
        copies.push(BoundSum { op: term.op, e })?;
    }
    Ok(copies)
}

#[cycle(copying)]
fn same_factors(alloc: Global, factors: &[BoundProd]) -> Result<Items<BoundProd>, Memory>
    ensures { IfOk result (λ copies. copies ≡ factors.now) }
{
    let mut copies = Items::new(alloc);
    for factor in factors {
        let e = same_expr(alloc, &factor.e)?;
        copies.push(BoundProd { op: factor.op, e })?;
    }
    Ok(copies)
}

#[cycle(copying)]
fn same_arms(alloc: Global, arms: &[BoundArm]) -> Result<Items<BoundArm>, Memory>
    ensures { IfOk result (λ copies. copies ≡ arms.now) }
{
    let mut copies = Items::new(alloc);
    for arm in arms {
        copies.push(same_arm(alloc, arm)?)?;
    }
    Ok(copies)
}

#[cycle(copying)]
fn same_arm(alloc: Global, arm: &BoundArm) -> Result<BoundArm, Memory>
    ensures { IfOk result (λ copy. copy ≡ arm.now) }
{
    let test = same_expr(alloc, &arm.test)?;
    let value = same_expr(alloc, &arm.value)?;
    Ok(BoundArm { test, value })
}

#[cycle(copying)]
fn same_leaf(alloc: Global, leaf: &Leaf) -> Result<Leaf, Memory>
    ensures { IfOk result (λ copy. copy ≡ leaf.now) }
{
    match leaf {
        Leaf::Column(item, column) => Ok(Leaf::Column(*item, *column)),
        Leaf::Cell(n, dims) => Ok(Leaf::Cell(*n, same_exprs(alloc, dims.as_slice())?)),
        Leaf::Range(agg, n, places) => {
            Ok(Leaf::Range(*agg, *n, same_tests(alloc, places.as_slice())?))
        }
        Leaf::RefCell(r, n, dims) => {
            Ok(Leaf::RefCell(*r, *n, same_exprs(alloc, dims.as_slice())?))
        }
        Leaf::Cv(dim) => Ok(Leaf::Cv(*dim)),
        Leaf::Turn => Ok(Leaf::Turn),
        Leaf::Present(dims) => Ok(Leaf::Present(same_exprs(alloc, dims.as_slice())?)),
        Leaf::NotNull(n, dims) => Ok(Leaf::NotNull(*n, same_exprs(alloc, dims.as_slice())?)),
        Leaf::GroupAgg(agg, operand) => Ok(Leaf::GroupAgg(*agg, same_option(alloc, operand)?)),
        Leaf::Previous(n, dims) => Ok(Leaf::Previous(*n, same_exprs(alloc, dims.as_slice())?)),
    }
}

#[cycle(copying)]
fn same_test(alloc: Global, test: &Test) -> Result<Test, Memory>
    ensures { IfOk result (λ copy. copy ≡ test.now) }
{
    match test {
        Test::Any => Ok(Test::Any),
        Test::At(e) => Ok(Test::At(same_expr(alloc, e)?)),
        Test::Cmp(op, e) => Ok(Test::Cmp(*op, same_expr(alloc, e)?)),
        Test::Between(low, high) => {
            let low = same_expr(alloc, low)?;
            let high = same_expr(alloc, high)?;
            Ok(Test::Between(low, high))
        }
        Test::In(xs) => Ok(Test::In(same_exprs(alloc, xs.as_slice())?)),
        Test::Null => Ok(Test::Null),
        Test::And(tests) => Ok(Test::And(same_tests(alloc, tests.as_slice())?)),
        Test::Or(tests) => Ok(Test::Or(same_tests(alloc, tests.as_slice())?)),
        Test::Not(test) => Ok(Test::Not(Boxed::new(alloc, same_test(alloc, test.get())?)?)),
    }
}

#[cycle(copying)]
fn same_tests(alloc: Global, tests: &[Test]) -> Result<Items<Test>, Memory>
    ensures { IfOk result (λ copies. copies ≡ tests.now) }
{
    let mut copies = Items::new(alloc);
    for test in tests {
        copies.push(same_test(alloc, test)?)?;
    }
    Ok(copies)
}
