//! A place of a bracket: the test that a condition makes of its dimension, and the index of a single cell
//! (docs/LANGUAGE.md, "Misuses").

ghost use Rattle.std.specs.Prelude.{◌≡◌, ◌&&◌, true, None, Ok, IfOk};
ghost use Rattle.std.specs.List.{list_all};
ghost use Rattle.std.specs.Option.{option_map, option_map_or};
ghost use Rattle.mq_ir.specs.declared.expression.Test.TheVariants as made;
ghost use Rattle.mq_values.specs.Answers.{Gives};
ghost use Rattle.mq_bind_scopes.specs.declared.scopes.Placed.{Placed as PlacedOf};
ghost use Rattle.mq_bind_expr.specs.Dimensions as dimension;
ghost use Rattle.mq_bind_expr.specs.Following.{Follows};
ghost use Rattle.mq_bind_expr.specs.PartWalks as walks;
ghost use Rattle.mq_bind_expr.specs.PlaceLaws as laws;
ghost use Rattle.mq_bind_expr.specs.PlaceTests as spec;

use crate::dimensions::{is_dimension, names_dimension};
use crate::forms::{is_any_form, is_condition};
use crate::founds::{Held, Operand, pushed, refused};
use mq_ast::E;
use mq_bind_scopes::{
    ExprKind, MISUSE_OF_CONDITION_IN_BRACKETS, MISUSE_OF_CONDITION_IN_CELL, Placed, is_index,
    mismatch, misuse,
};
use mq_ir::{Expr, Test};
use mq_values::{Boxed, CmpOp, Fail, Items, Memory, Refused, Value};
use std::alloc::Global;

fn is_free(e: &Expr) -> bool
    ensures { result ≡ spec.is_free e.now }
{
    !names_dimension(e)
}

fn all_free(es: &[Expr]) -> bool
    ensures { result ≡ list_all spec.is_free es.now }
{
    es.iter().all(|e| is_free(e))
}

fn negated_test(alloc: Global, negated: bool, test: Test) -> Result<Test, Memory>
    ensures { IfOk result (λ t. t ≡ spec.negated_test negated test) }
{
    if negated {
        Ok(Test::Not(Boxed::new(alloc, test)?))
    } else {
        Ok(test)
    }
}

fn is_free_cmp(d: &Expr, e: &Expr) -> bool
    ensures { result ≡ (dimension.is_dimension d.now && spec.is_free e.now) }
{
    is_dimension(d) && is_free(e)
}

fn cmp_test(d: Boxed<Expr>, op: CmpOp, e: Boxed<Expr>) -> Option<Test>
    ensures { result ≡ spec.cmp_test d op e }
{
    if is_free_cmp(d.get(), e.get()) {
        Some(Test::Cmp(op, e.into_inner()))
    } else {
        None
    }
}

fn is_free_between(d: &Expr, low: &Expr, high: &Expr) -> bool
    ensures { result ≡ (dimension.is_dimension d.now && spec.is_free low.now && spec.is_free high.now) }
{
    is_dimension(d) && is_free(low) && is_free(high)
}

fn between_test(
    alloc: Global,
    d: Boxed<Expr>,
    negated: bool,
    low: Boxed<Expr>,
    high: Boxed<Expr>,
) -> Result<Option<Test>, Memory>
    ensures { IfOk result (λ t. t ≡ spec.between_test d negated low high) }
{
    if !is_free_between(d.get(), low.get(), high.get()) {
        return Ok(None);
    }
    let test = Test::Between(low.into_inner(), high.into_inner());
    Ok(Some(negated_test(alloc, negated, test)?))
}

fn is_free_list(d: &Expr, es: &[Expr]) -> bool
    ensures { result ≡ (dimension.is_dimension d.now && list_all spec.is_free es.now) }
{
    is_dimension(d) && all_free(es)
}

fn in_test(
    alloc: Global,
    d: Boxed<Expr>,
    negated: bool,
    es: Items<Expr>,
) -> Result<Option<Test>, Memory>
    ensures { IfOk result (λ t. t ≡ spec.in_test d negated es) }
{
    if !is_free_list(d.get(), es.as_slice()) {
        return Ok(None);
    }
    Ok(Some(negated_test(alloc, negated, Test::In(es))?))
}

fn null_test(alloc: Global, d: Boxed<Expr>, negated: bool) -> Result<Option<Test>, Memory>
    ensures { IfOk result (λ t. t ≡ spec.null_test d negated) }
{
    if !is_dimension(d.get()) {
        return Ok(None);
    }
    Ok(Some(negated_test(alloc, negated, Test::Null)?))
}

fn or_test(tests: Option<Items<Test>>) -> Option<Test>
    ensures { result ≡ option_map made.Or tests }
{
    match tests {
        Some(tests) => Some(Test::Or(tests)),
        None => None,
    }
}

fn and_test(tests: Option<Items<Test>>) -> Option<Test>
    ensures { result ≡ option_map made.And tests }
{
    match tests {
        Some(tests) => Some(Test::And(tests)),
        None => None,
    }
}

fn not_test(alloc: Global, part: Option<Test>) -> Result<Option<Test>, Memory>
    ensures { IfOk result (λ t. t ≡ option_map made.Not part) }
{
    match part {
        Some(part) => Ok(Some(Test::Not(Boxed::new(alloc, part)?))),
        None => Ok(None),
    }
}

// Generic, since it only holds and drops what it is given.
fn with_next<T: Drop>(items: Items<T>, next: Option<T>) -> Result<Option<Items<T>>, Memory>
    ensures { IfOk result (λ xs. xs ≡ laws.with_next items next) }
{
    match next {
        Some(next) => Ok(Some(pushed(items, next)?)),
        None => Ok(None),
    }
}

fn with_test<T: Drop>(tests: Option<Items<T>>, next: Option<T>) -> Result<Option<Items<T>>, Memory>
    ensures { IfOk result (λ ts. ts ≡ laws.with_test tests next) }
{
    match tests {
        Some(tests) => with_next(tests, next),
        None => Ok(None),
    }
}

// What makes no test. Generic, since it only drops what it is given.
fn no_test<T: Drop, A: Drop>(_condition: T) -> Option<A>
    ensures { result ≡ None }
{
    None
}

// The test that a condition makes of the dimension, where it is of the form of one.
#[cycle(condition_tests)]
#[tactic(auto, using(crate::specs::PlaceLaws::test_laws))]
fn test_of(alloc: Global, e: Expr) -> Result<Option<Test>, Memory>
    ensures { IfOk result (λ t. t ≡ spec.test_of e) }
{
    match e {
        Expr::Or(parts) => Ok(or_test(tests_of(alloc, parts)?)),
        Expr::And(parts) => Ok(and_test(tests_of(alloc, parts)?)),
        Expr::Not(part) => not_test(alloc, test_of(alloc, part.into_inner())?),
        Expr::Cmp(d, op, right) => Ok(cmp_test(d, op, right)),
        Expr::Between(d, negated, low, high) => between_test(alloc, d, negated, low, high),
        Expr::InList(d, negated, es) => in_test(alloc, d, negated, es),
        Expr::IsNull(d, negated) => null_test(alloc, d, negated),
        other => Ok(no_test(other)),
    }
}

#[cycle(condition_tests)]
#[tactic(auto, using(crate::proofs::TestLemmas::tests_more))]
fn tests_of(alloc: Global, es: Items<Expr>) -> Result<Option<Items<Test>>, Memory>
    ensures { IfOk result (λ ts. ts ≡ laws.tests_all es) }
{
    let mut tests = Some(Items::new(alloc));
    'es: for e in es.into_vec() {
        tests = with_test(tests, test_of(alloc, e)?)?;
    }
    Ok(tests)
}

// Whether a value names one of a dimension's; where there is no dimension nothing is asked.
pub fn fits_dimension(dim: Option<ExprKind>, kind: ExprKind) -> bool
    ensures { result ≡ spec.fits_dimension dim kind }
{
    match dim {
        Some(to) => is_index(to, kind),
        None => true,
    }
}

fn any_place(f: Held) -> Result<Placed, Fail<Refused>>
    ensures { Gives result (spec.any_place f) }
{
    if !is_dimension(&f.get().e) {
        return Err(misuse(MISUSE_OF_CONDITION_IN_BRACKETS));
    }
    Ok(placed(Test::Any, None))
}

/// A place by its test, and the kind of what its dimension is equal to, where it is an equality.
pub fn placed(test: Test, equated: Option<ExprKind>) -> Placed
    ensures { result ≡ spec.placed test equated }
{
    Placed { test, equated }
}

fn condition_place(alloc: Global, f: Held) -> Result<Placed, Fail<Refused>>
    ensures { Gives result (spec.condition_place f) }
{
    let equated = f.get().equated;
    match test_of(alloc, f.into_inner().e)? {
        Some(test) => Ok(placed(test, equated)),
        None => Err(misuse(MISUSE_OF_CONDITION_IN_BRACKETS)),
    }
}

fn value_place(dim: Option<ExprKind>, f: Held) -> Result<Placed, Fail<Refused>>
    ensures { Gives result (spec.value_place dim f) }
{
    if !fits_dimension(dim, f.get().kind) {
        return Err(mismatch());
    }
    Ok(placed(Test::At(f.into_inner().e), None))
}

/// A place of a rule's bracket from what stands in it, for a dimension of this kind: IS ANY of the dimension, a condition, or a
/// value that names one of its values.
pub fn place_of(
    alloc: Global,
    dim: Option<ExprKind>,
    tree: &E,
    f: Held,
) -> Result<Placed, Fail<Refused>>
    ensures { Gives result (spec.place_of dim tree.now f) }
{
    if is_any_form(tree) {
        any_place(f)
    } else if is_condition(tree) {
        condition_place(alloc, f)
    } else {
        value_place(dim, f)
    }
}

/// The same of what stands in it, or the first offence there.
pub fn place_found(
    alloc: Global,
    dim: Option<ExprKind>,
    tree: &E,
    found: Operand,
) -> Result<Placed, Fail<Refused>>
    ensures { Follows found (spec.place_of dim tree.now) result }
{
    place_of(alloc, dim, tree, found?)
}

/// A place of which nothing is asked but what stands in it.
pub fn placed_at(found: Operand) -> Result<Placed, Fail<Refused>>
    ensures { Follows found walks.placed_at result }
{
    let found = found?;
    Ok(placed(Test::At(found.into_inner().e), None))
}

fn equated_fits(dim: Option<ExprKind>, equated: Option<ExprKind>) -> bool
    ensures { result ≡ option_map_or (spec.fits_dimension dim) equated true }
{
    match equated {
        Some(kind) => fits_dimension(dim, kind),
        None => true,
    }
}

fn index_equal(
    on_left: bool,
    dim: Option<ExprKind>,
    op: CmpOp,
    e: Expr,
    equated: Option<ExprKind>,
) -> Result<Expr, Fail<Refused>>
    ensures { Gives result (spec.index_equal on_left dim op e equated) }
{
    match op {
        CmpOp::Eq => {
            if !equated_fits(dim, equated) {
                return refused(e, mismatch());
            }
            Ok(e)
        }
        CmpOp::Ne | CmpOp::Lt | CmpOp::Le | CmpOp::Gt | CmpOp::Ge => no_index(on_left, e),
    }
}

// What is no index: an offence, but on a left side, where the cell around it is one. Generic, since it only drops what it
// is given.
fn no_index<T: Drop>(on_left: bool, _place: T) -> Result<Expr, Fail<Refused>>
    ensures { Gives result (spec.no_index on_left) }
{
    if on_left {
        Ok(Expr::Lit(Value::Null))
    } else {
        Err(misuse(MISUSE_OF_CONDITION_IN_CELL))
    }
}

// The same from a place that is taken apart.
fn index_in(on_left: bool, dim: Option<ExprKind>, place: Placed) -> Result<Expr, Fail<Refused>>
    ensures { Gives result (spec.index_of on_left dim place) }
{
    let Placed { test, equated } = place;
    match test {
        Test::At(e) => Ok(e),
        Test::Cmp(op, e) => index_equal(on_left, dim, op, e, equated),
        other => no_index(on_left, other),
    }
}

/// The index of a single cell in a place: a value, or what the dimension is equal to. Any other place is
/// a misuse, but not where the cell stands on a left side and is one itself.
pub fn index_of(
    alloc: Global,
    on_left: bool,
    dim: Option<ExprKind>,
    place: Result<Placed, Fail<Refused>>,
) -> Result<Boxed<Expr>, Fail<Refused>>
    ensures { Follows place (spec.index_of on_left dim) result }
{
    let index = index_in(on_left, dim, place?)?;
    Ok(Boxed::new(alloc, index)?)
}

/// The test of a place.
pub fn test_in(
    alloc: Global,
    place: Result<Placed, Fail<Refused>>,
) -> Result<Boxed<Test>, Fail<Refused>>
    ensures { Follows place (λ (p : PlacedOf). Ok p.test) result }
{
    let place = place?;
    Ok(Boxed::new(alloc, place.test)?)
}
