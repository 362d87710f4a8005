//! Lists of what parts of an expression are bound to: their expressions, and how their kinds go together.

ghost use Rattle.std.specs.Prelude.{◌≡◌, ◌∷◌, [], ◌++◌, Some, IfOk, OnOk, Ok, Err};
ghost use Rattle.mq_values.specs.Answers.{Gives};
ghost use Rattle.mq_bind_expr.specs.Following.{Follows, FollowsTwo, Repeats};
ghost use Rattle.mq_bind_expr.specs.FunctionNodes as result_of;
ghost use Rattle.mq_bind_scopes.specs.Kinds as kinds;
ghost use Rattle.mq_bind_scopes.specs.OperatorKinds as made;
ghost use Rattle.mq_bind_expr.specs.OperatorNodes as spec;

use crate::values::converted;
use mq_bind_scopes::{ExprKind, Found, is_condition_kind, product_kind, sum_kind, wider};
use mq_ir::{BoundProd, BoundSum, Expr};
use mq_values::{Boxed, Fail, Items, Memory, ProdOp, Refused, SumOp};
use std::alloc::Global;

/// What an operand is bound to, on the heap: so it is moved as one word, and proofs see one value in place of the variants of
/// its expression.
pub type Held = Boxed<Found>;

/// An operand, or the first offence in it.
pub type Operand = Result<Held, Fail<Refused>>;

/// Two of them.
pub type Pair = Result<(Held, Held), Fail<Refused>>;

/// Several of them.
pub type Operands = Result<Items<Found>, Fail<Refused>>;

/// What was found, on the heap, or the first offence in it.
pub fn held<T: Drop>(
    alloc: Global,
    found: Result<T, Fail<Refused>>,
) -> Result<Boxed<T>, Fail<Refused>>
    ensures { Repeats found result }
{
    Ok(Boxed::new(alloc, found?)?)
}

/// Two answers together, or the first offence in them. Generic, since it only moves and drops what it is given: a node that took
/// both would be proved by the forms of each.
pub fn both<A: Drop, B: Drop>(
    a: Result<A, Fail<Refused>>,
    b: Result<B, Fail<Refused>>,
) -> Result<(A, B), Fail<Refused>>
    ensures { FollowsTwo a b (λ x y. Ok (x, y)) result }
{
    let a = a?;
    let b = b?;
    Ok((a, b))
}

/// A part that is there.
pub fn some_part<T: Drop>(found: Result<T, Fail<Refused>>) -> Result<Option<T>, Fail<Refused>>
    ensures { Follows found (λ f. Ok (Some f)) result }
{
    Ok(Some(found?))
}

/// The expression of an operand.
pub fn expr_of(alloc: Global, found: Held) -> Result<Boxed<Expr>, Memory>
    ensures { IfOk result (λ e. e ≡ found.e) }
{
    let found = found.into_inner();
    Boxed::new(alloc, found.e)
}

/// The expression of an operand, brought to the kind of the whole.
pub fn converted_of(alloc: Global, kind: ExprKind, found: Held) -> Result<Boxed<Expr>, Memory>
    ensures { IfOk result (λ e. e ≡ result_of.converted_found kind found) }
{
    let found = found.into_inner();
    let e = converted(alloc, kind, found.e)?;
    Boxed::new(alloc, e)
}

fn push_on_heap<T: Drop>(alloc: Global, held: &mut Items<Boxed<T>>, next: T) -> Result<(), Memory>
    ensures { OnOk result (held.new ≡ held.old ++ next ∷ []) }
{
    held.push(Boxed::new(alloc, next)?)
}

/// The same operands, each on the heap. Generic, since it only moves what it is given.
pub fn on_heap<T: Drop>(alloc: Global, found: Items<T>) -> Result<Items<Boxed<T>>, Memory>
    ensures { IfOk result (λ held. held ≡ found) }
{
    let mut held = Items::new(alloc);
    for f in found.into_vec() {
        push_on_heap(alloc, &mut held, f)?;
    }
    Ok(held)
}

/// A list with one more item. Generic, since it only holds and drops what it is given.
pub fn pushed<T: Drop>(items: Items<T>, next: T) -> Result<Items<T>, Memory>
    ensures { IfOk result (λ xs. xs ≡ items ++ next ∷ []) }
{
    let mut items = items;
    items.push(next)?;
    Ok(items)
}

/// Puts an operand behind others. Generic, since it only moves what it is given.
pub fn push_held<T: Drop>(found: &mut Items<T>, next: Boxed<T>) -> Result<(), Memory>
    ensures { OnOk result (found.new ≡ found.old ++ next ∷ []) }
{
    found.push(next.into_inner())
}

/// The same with the operator before it.
pub fn push_term<O: Drop, T: Drop>(
    found: &mut Items<(O, T)>,
    op: O,
    next: Boxed<T>,
) -> Result<(), Memory>
    ensures { OnOk result (found.new ≡ found.old ++ (op, next) ∷ []) }
{
    found.push((op, next.into_inner()))
}

/// A refusal, where a tree is let go. Generic, since it only drops what it is given.
pub fn refused<T: Drop, A: Drop>(_tree: T, fault: Fail<Refused>) -> Result<A, Fail<Refused>>
    ensures { result ≡ Err fault }
{
    Err(fault)
}

/// What stands on the heap, where there is something. Generic, since it only moves what it is given.
pub fn unboxed<T: Drop>(e: Option<Boxed<T>>) -> Option<T>
    ensures { result ≡ e }
{
    match e {
        Some(e) => Some(e.into_inner()),
        None => None,
    }
}

/// Whether an operand is a condition.
pub fn is_condition_found(found: &Found) -> bool
    ensures { result ≡ spec.is_condition_found found.now }
{
    is_condition_kind(found.kind)
}

/// Whether each operand is a condition.
pub fn all_conditions(found: &[Found]) -> bool
    ensures { result ≡ spec.all_conditions found.now }
{
    found.iter().all(|f| is_condition_found(f))
}

/// Their expressions, in order.
pub fn exprs_of(alloc: Global, found: Items<Found>) -> Result<Items<Expr>, Memory>
    ensures { IfOk result (λ es. es ≡ spec.exprs_of found) }
{
    let mut es = Items::new(alloc);
    for f in found.into_vec() {
        es.push(f.e)?;
    }
    Ok(es)
}

/// The kind that both go into, as operands of a test.
pub fn go_together(a: ExprKind, b: ExprKind) -> Result<ExprKind, Fail<Refused>>
    ensures { Gives result (spec.go_together a b) }
{
    let a = wider(ExprKind::Null, a)?;
    wider(a, b)
}

/// The kind that this one and those of `found` go into.
pub fn common_from(kind: ExprKind, found: &[Found]) -> Result<ExprKind, Fail<Refused>>
    ensures { Gives result (kinds.common_from kind (spec.kinds_of found.now)) }
{
    let mut common = kind;
    for f in found {
        common = wider(common, f.kind)?;
    }
    Ok(common)
}

/// The kind of a sum, from left to right.
pub fn sum_chain_kind(first: ExprKind, terms: &[(SumOp, Found)]) -> Result<ExprKind, Fail<Refused>>
    ensures { Gives result (made.chain_kind made.sum_kind first (spec.term_kinds terms.now)) }
{
    let mut kind = first;
    for (op, f) in terms {
        kind = sum_kind(*op, kind, f.kind)?;
    }
    Ok(kind)
}

/// The kind of a product, from left to right.
pub fn product_chain_kind(
    first: ExprKind,
    terms: &[(ProdOp, Found)],
) -> Result<ExprKind, Fail<Refused>>
    ensures { Gives result (made.chain_kind made.product_kind first (spec.term_kinds terms.now)) }
{
    let mut kind = first;
    for (op, f) in terms {
        kind = product_kind(*op, kind, f.kind)?;
    }
    Ok(kind)
}

/// The terms of a sum.
pub fn sum_terms(alloc: Global, found: Items<(SumOp, Found)>) -> Result<Items<BoundSum>, Memory>
    ensures { IfOk result (λ terms. terms ≡ spec.sum_terms found) }
{
    let mut terms = Items::new(alloc);
    for (op, f) in found.into_vec() {
        terms.push(BoundSum { op, e: f.e })?;
    }
    Ok(terms)
}

/// The terms of a product.
pub fn product_terms(
    alloc: Global,
    found: Items<(ProdOp, Found)>,
) -> Result<Items<BoundProd>, Memory>
    ensures { IfOk result (λ terms. terms ≡ spec.prod_terms found) }
{
    let mut terms = Items::new(alloc);
    for (op, f) in found.into_vec() {
        terms.push(BoundProd { op, e: f.e })?;
    }
    Ok(terms)
}
