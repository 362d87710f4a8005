//! What can be told of an expression by its tree alone.

ghost use Rattle.std.specs.Prelude.{◌≡◌, ◌||◌, IfOk};
ghost use Rattle.std.specs.List.{list_any};
ghost use Rattle.std.specs.Option.{option_copied};
ghost use Rattle.mq_bind_expr.specs.FormRolls as parts;
ghost use Rattle.mq_bind_expr.specs.Forms as spec;

use mq_ast::{Arm, E, Path, Place, ProdTerm, Sel, SumTerm};
use mq_lexer::folded;
use mq_values::{Boxed, Memory, Words};
use std::alloc::Global;

/// Whether it is a condition, as a whole.
pub fn is_condition(e: &E) -> bool
    ensures { result ≡ spec.is_condition e.now }
{
    match e {
        E::Or(_) | E::And(_) | E::Not(_) => true,
        E::Cmp(_, _, _) | E::Between(_, _, _, _) | E::InList(_, _, _) => true,
        E::IsNull(_, _) | E::IsPresent(_, _) | E::IsAny(_) => true,
        _ => false,
    }
}

/// Whether it is IS ANY.
pub fn is_any_form(e: &E) -> bool
    ensures { result ≡ spec.is_any_form e.now }
{
    match e {
        E::IsAny(_) => true,
        _ => false,
    }
}

fn plain_path(e: &E) -> Option<&Path>
    ensures { option_copied result ≡ spec.plain_path e.now }
{
    match e {
        E::Name(path) => Some(path),
        _ => None,
    }
}

/// The name of an item of a list: its alias, or that of a plain column.
pub fn name_of(alloc: Global, sel: &Sel) -> Result<Option<Words>, Memory>
    ensures { IfOk result (λ n. n ≡ spec.name_of sel.now) }
{
    match &sel.alias {
        Some(alias) => Ok(Some(folded(alloc, alias.as_str())?)),
        None => match plain_path(&sel.e) {
            Some(path) => Ok(Some(folded(alloc, path.last.as_str())?)),
            None => Ok(None),
        },
    }
}

/// Whether an aggregate of rows stands anywhere in it; an aggregate of cells is none.
#[cycle(aggregates)]
#[tactic(auto, using(crate::specs::FormLaws::has_laws))]
pub fn has_aggregate(e: &E) -> bool
    ensures { result ≡ spec.has_aggregate e.now }
{
    match e {
        E::Or(es) | E::And(es) | E::Call(_, es) => any_aggregate(es.as_slice()),
        E::PresentV(es) | E::PresentNnv(es) => any_aggregate(es.as_slice()),
        E::Not(a) | E::IsAny(a) | E::Neg(a) | E::Previous(a) => has_aggregate(a.get()),
        E::IsNull(a, _) | E::IsPresent(a, _) => has_aggregate(a.get()),
        E::Cast(a, _) => has_aggregate(a.get()),
        E::Cmp(a, _, b) => has_aggregate(a.get()) || has_aggregate(b.get()),
        E::Between(a, _, low, high) => {
            has_aggregate(a.get()) || has_aggregate(low.get()) || has_aggregate(high.get())
        }
        E::InList(a, _, es) => has_aggregate(a.get()) || any_aggregate(es.as_slice()),
        E::Sum(first, terms) => has_aggregate(first.get()) || any_in_sum(terms.as_slice()),
        E::Prod(first, terms) => has_aggregate(first.get()) || any_in_product(terms.as_slice()),
        E::Cell(_, places) | E::RangeAgg(_, _, places) => any_in_places(places.as_slice()),
        E::Case(of, arms, or_else) => one_of(
            aggregate_if_any(of),
            any_in_arms(arms.as_slice()),
            aggregate_if_any(or_else),
        ),
        E::Agg(_, _) | E::CountAll => true,
        E::Lit(_) | E::Name(_) | E::Cv(_) | E::Turn => false,
    }
}

/// Whether one of three holds.
pub fn one_of(a: bool, b: bool, c: bool) -> bool
    ensures { result ≡ (a || b || c) }
{
    a || b || c
}

#[cycle(aggregates)]
fn any_aggregate(es: &[E]) -> bool
    ensures { result ≡ list_any spec.has_aggregate es.now }
{
    'es: for e in es {
        if has_aggregate(e) {
            return true;
        }
    }
    false
}

#[cycle(aggregates)]
fn any_in_sum(terms: &[SumTerm]) -> bool
    ensures { result ≡ list_any parts.sum_term_has terms.now }
{
    'terms: for term in terms {
        if has_aggregate(&term.e) {
            return true;
        }
    }
    false
}

#[cycle(aggregates)]
fn any_in_product(terms: &[ProdTerm]) -> bool
    ensures { result ≡ list_any parts.prod_term_has terms.now }
{
    'terms: for term in terms {
        if has_aggregate(&term.e) {
            return true;
        }
    }
    false
}

#[cycle(aggregates)]
#[tactic(auto, using(crate::specs::FormLaws::has_laws))]
fn place_has_aggregate(place: &Place) -> bool
    ensures { result ≡ parts.place_has place.now }
{
    match place {
        Place::Any => false,
        Place::Expr(e) => has_aggregate(e),
    }
}

#[cycle(aggregates)]
fn any_in_places(places: &[Place]) -> bool
    ensures { result ≡ list_any parts.place_has places.now }
{
    'places: for place in places {
        if place_has_aggregate(place) {
            return true;
        }
    }
    false
}

#[cycle(aggregates)]
fn arm_has_aggregate(arm: &Arm) -> bool
    ensures { result ≡ parts.case_arm_has arm.now }
{
    has_aggregate(&arm.test) || has_aggregate(&arm.value)
}

#[cycle(aggregates)]
fn any_in_arms(arms: &[Arm]) -> bool
    ensures { result ≡ list_any parts.case_arm_has arms.now }
{
    'arms: for arm in arms {
        if arm_has_aggregate(arm) {
            return true;
        }
    }
    false
}

#[cycle(aggregates)]
fn aggregate_if_any(e: &Option<Boxed<E>>) -> bool
    ensures { result ≡ parts.has_where_any e.now }
{
    match e {
        Some(e) => has_aggregate(e.get()),
        None => false,
    }
}
