//! The parts of CASE, from what its arms are bound to: how their kinds go together, and their bound forms.

ghost use Rattle.std.specs.Prelude.{◌≡◌, map, IfOk};
ghost use Rattle.std.specs.List.{list_all};
ghost use Rattle.std.specs.Option.{option_map};
ghost use Rattle.mq_values.specs.Answers.{Gives};
ghost use Rattle.mq_bind_expr.specs.FunctionNodes as spec;
ghost use Rattle.mq_bind_scopes.specs.Kinds as kinds;

use crate::founds::{Held, converted_of, expr_of};
use mq_bind_scopes::{ExprKind, is_condition_kind, mismatch, wider};
use mq_ir::{BoundArm, Expr};
use mq_values::{Boxed, Fail, Items, Memory, Refused};
use std::alloc::Global;

fn tests_truth(arm: &(Held, Held)) -> bool
    ensures { result ≡ spec.tests_truth arm.now }
{
    is_condition_kind(arm.0.get().kind)
}

fn all_test_truth(arms: &[(Held, Held)]) -> bool
    ensures { result ≡ list_all spec.tests_truth arms.now }
{
    arms.iter().all(|arm| tests_truth(arm))
}

// The kind that this one and those of the tests go into.
fn common_test(kind: ExprKind, arms: &[(Held, Held)]) -> Result<ExprKind, Fail<Refused>>
    ensures { Gives result (kinds.common_from kind (map spec.test_kind arms.now)) }
{
    let mut common = kind;
    for arm in arms {
        common = wider(common, arm.0.get().kind)?;
    }
    Ok(common)
}

// The kind that this one and those of the results go into.
fn common_result(kind: ExprKind, arms: &[(Held, Held)]) -> Result<ExprKind, Fail<Refused>>
    ensures { Gives result (kinds.common_from kind (map spec.result_kind arms.now)) }
{
    let mut common = kind;
    for arm in arms {
        common = wider(common, arm.1.get().kind)?;
    }
    Ok(common)
}

// Without a first expression the tests are conditions; else they are compared with it.
fn tests_fit(subject: &Option<Held>, arms: &[(Held, Held)]) -> Result<ExprKind, Fail<Refused>>
    ensures { Gives result (spec.tests_fit subject.now arms.now) }
{
    match subject {
        None => {
            if !all_test_truth(arms) {
                return Err(mismatch());
            }
            Ok(ExprKind::Condition)
        }
        Some(subject) => {
            let kind = wider(ExprKind::Null, subject.get().kind)?;
            common_test(kind, arms)
        }
    }
}

// The kind of all results.
fn results_kind(arms: &[(Held, Held)], or_else: &Option<Held>) -> Result<ExprKind, Fail<Refused>>
    ensures { Gives result (spec.results_kind arms.now or_else.now) }
{
    let kind = common_result(ExprKind::Null, arms)?;
    match or_else {
        None => Ok(kind),
        Some(result) => wider(kind, result.get().kind),
    }
}

/// The kind of a CASE.
pub fn case_kind(
    subject: &Option<Held>,
    arms: &[(Held, Held)],
    or_else: &Option<Held>,
) -> Result<ExprKind, Fail<Refused>>
    ensures { Gives result (spec.case_kind subject.now arms.now or_else.now) }
{
    tests_fit(subject, arms)?;
    results_kind(arms, or_else)
}

fn bound_arm(alloc: Global, kind: ExprKind, arm: (Held, Held)) -> Result<BoundArm, Memory>
    ensures { IfOk result (λ a. a ≡ spec.bound_arm kind arm) }
{
    let (test, value) = arm;
    let value = converted_of(alloc, kind, value)?.into_inner();
    let test = test.into_inner().e;
    Ok(BoundArm { test, value })
}

fn bound_arms(
    alloc: Global,
    kind: ExprKind,
    arms: Items<(Held, Held)>,
) -> Result<Items<BoundArm>, Memory>
    ensures { IfOk result (λ a. a ≡ spec.bound_arms kind arms) }
{
    let mut bound = Items::new(alloc);
    for arm in arms.into_vec() {
        bound.push(bound_arm(alloc, kind, arm)?)?;
    }
    Ok(bound)
}

fn subject_of(alloc: Global, subject: Option<Held>) -> Result<Option<Boxed<Expr>>, Memory>
    ensures { IfOk result (λ e. e ≡ option_map spec.expr_found subject) }
{
    match subject {
        Some(found) => Ok(Some(expr_of(alloc, found)?)),
        None => Ok(None),
    }
}

fn last_of(
    alloc: Global,
    kind: ExprKind,
    or_else: Option<Held>,
) -> Result<Option<Boxed<Expr>>, Memory>
    ensures { IfOk result (λ e. e ≡ option_map (spec.converted_found kind) or_else) }
{
    match or_else {
        Some(found) => Ok(Some(converted_of(alloc, kind, found)?)),
        None => Ok(None),
    }
}

/// The bound form of a CASE of this kind.
pub fn case_of(
    alloc: Global,
    kind: ExprKind,
    subject: Option<Held>,
    arms: Items<(Held, Held)>,
    or_else: Option<Held>,
) -> Result<Expr, Memory>
    ensures { IfOk result (λ e. e ≡ spec.case_of kind subject arms or_else) }
{
    let subject = subject_of(alloc, subject)?;
    let arms = bound_arms(alloc, kind, arms)?;
    let or_else = last_of(alloc, kind, or_else)?;
    Ok(Expr::Case(subject, arms, or_else))
}
