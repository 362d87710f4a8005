//! The dimension under test in a bound condition: it is bound as a column, and in a rule nothing else is.

ghost use Rattle.std.specs.Prelude.{◌≡◌};
ghost use Rattle.std.specs.List.{list_any};
ghost use Rattle.mq_bind_expr.specs.DimensionRolls as parts;
ghost use Rattle.mq_bind_expr.specs.Dimensions as spec;

use crate::forms::one_of;
use mq_ir::{BoundArm, BoundProd, BoundSum, Expr, Leaf};
use mq_values::Boxed;

fn is_column_leaf(l: &Leaf) -> bool
    ensures { result ≡ spec.is_column_leaf l.now }
{
    match l {
        Leaf::Column(_, _) => true,
        _ => false,
    }
}

/// Whether it is the dimension alone.
pub fn is_dimension(e: &Expr) -> bool
    ensures { result ≡ spec.is_dimension e.now }
{
    match e {
        Expr::Leaf(l) => is_column_leaf(l),
        _ => false,
    }
}

/// Whether the dimension is named anywhere in it.
#[cycle(dimension_names)]
#[tactic(auto, using(crate::specs::DimensionLaws::dimension_laws))]
pub fn names_dimension(e: &Expr) -> bool
    ensures { result ≡ spec.names_dimension e.now }
{
    match e {
        Expr::Or(es) | Expr::And(es) | Expr::Call(_, es) => any_names(es.as_slice()),
        Expr::Not(a) | Expr::Neg(a) | Expr::IsNull(a, _) => names_dimension(a.get()),
        Expr::Cast(a, _) | Expr::Convert(a, _) => names_dimension(a.get()),
        Expr::Cmp(a, _, b) => names_dimension(a.get()) || names_dimension(b.get()),
        Expr::Between(a, _, low, high) => {
            names_dimension(a.get()) || names_dimension(low.get()) || names_dimension(high.get())
        }
        Expr::InList(a, _, es) => names_dimension(a.get()) || any_names(es.as_slice()),
        Expr::Sum(first, terms) => names_dimension(first.get()) || any_in_sum(terms.as_slice()),
        Expr::Prod(first, terms) => {
            names_dimension(first.get()) || any_in_product(terms.as_slice())
        }
        Expr::Case(of, arms, or_else) => one_of(
            names_if_any(of),
            any_in_arms(arms.as_slice()),
            names_if_any(or_else),
        ),
        Expr::PresentV { yes, no, .. } => names_dimension(yes.get()) || names_dimension(no.get()),
        Expr::PresentNnv { yes, no, .. } => {
            names_dimension(yes.get()) || names_dimension(no.get())
        }
        Expr::Leaf(l) => is_column_leaf(l),
        Expr::Lit(_) | Expr::IsPresent(_, _) => false,
    }
}

#[cycle(dimension_names)]
fn any_names(es: &[Expr]) -> bool
    ensures { result ≡ list_any spec.names_dimension es.now }
{
    'es: for e in es {
        if names_dimension(e) {
            return true;
        }
    }
    false
}

#[cycle(dimension_names)]
fn any_in_sum(terms: &[BoundSum]) -> bool
    ensures { result ≡ list_any parts.sum_term_names terms.now }
{
    'terms: for term in terms {
        if names_dimension(&term.e) {
            return true;
        }
    }
    false
}

#[cycle(dimension_names)]
fn any_in_product(terms: &[BoundProd]) -> bool
    ensures { result ≡ list_any parts.prod_term_names terms.now }
{
    'terms: for term in terms {
        if names_dimension(&term.e) {
            return true;
        }
    }
    false
}

#[cycle(dimension_names)]
fn arm_names(arm: &BoundArm) -> bool
    ensures { result ≡ parts.case_arm_names arm.now }
{
    names_dimension(&arm.test) || names_dimension(&arm.value)
}

#[cycle(dimension_names)]
fn any_in_arms(arms: &[BoundArm]) -> bool
    ensures { result ≡ list_any parts.case_arm_names arms.now }
{
    'arms: for arm in arms {
        if arm_names(arm) {
            return true;
        }
    }
    false
}

#[cycle(dimension_names)]
fn names_if_any(e: &Option<Boxed<Expr>>) -> bool
    ensures { result ≡ parts.names_where_any e.now }
{
    match e {
        Some(e) => names_dimension(e.get()),
        None => false,
    }
}
