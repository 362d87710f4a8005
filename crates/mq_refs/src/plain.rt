//! Indices of the forms that are met most: a number, a dimension of the target that holds one, and a sum or difference of
//! two such. What they are worth is found here at once; all others are evaluated as any expression is.
ghost use Rattle.std.specs.Prelude.{◌≡◌, true, Ok, IfSome};
ghost use Rattle.mq_values.specs.Answers.{Gives};
ghost use Rattle.mq_values.specs.Convert.{cast_of, number_at};
ghost use Rattle.mq_values.specs.declared.value.Value.TheVariants as value;
ghost use Rattle.mq_ir.specs.Expression.{ev};
ghost use Rattle.mq_ir.specs.Operators.{added};
ghost use Rattle.mq_ir.specs.Reads.{inner_leaves};
ghost use Rattle.mq_refs.specs.Sites.{site_of, total_of};

use crate::standpoint::Standpoint;
use mq_ir::{BoundSum, Expr, Leaf};
use mq_values::{Fail, Kind, Num, SumOp, Value, ValueFault, add, cast, sub};
use std::alloc::Global;

/// The number that an index of such a form is worth; `None` says nothing.
#[tactic(auto, using(crate::proofs::PlainLemmas::plain_laws))]
pub fn plain_number(at: &Standpoint<'_>, e: &Expr) -> Option<Num>
    ensures { IfSome result (λ n. ev (inner_leaves (site_of at.now)) e.now ≡ Ok (value.Num n)) }
{
    match e {
        Expr::Sum(first, terms) => plain_sum(at, first.get(), terms.as_slice()),
        _ => plain_part(at, e),
    }
}

// The number that a sum of two parts is worth.
fn plain_sum(at: &Standpoint<'_>, first: &Expr, terms: &[BoundSum]) -> Option<Num>
    ensures { IfSome result (λ n. total_of (site_of at.now) first.now terms.now ≡ Ok (value.Num n)) }
{
    match terms {
        [term] => match (plain_part(at, first), plain_part(at, &term.e)) {
            (Some(a), Some(b)) => plain_total(a, term.op, b),
            _ => None,
        },
        _ => None,
    }
}

// The number that comes of two numbers, where no fault does.
fn plain_total(a: Num, op: SumOp, b: Num) -> Option<Num>
    ensures { IfSome result (λ n. added op (value.Num a) (value.Num b) ≡ Ok (value.Num n)) }
{
    let total = match op {
        SumOp::Add => add(a, b),
        SumOp::Sub => sub(a, b),
        SumOp::Join => return None,
    };
    match total {
        Ok(n) => Some(n),
        Err(_) => None,
    }
}

// The number that a literal or a dimension of the target is worth.
#[tactic(auto, using(crate::proofs::PlainLemmas::plain_laws))]
fn plain_part(at: &Standpoint<'_>, e: &Expr) -> Option<Num>
    ensures { IfSome result (λ n. ev (inner_leaves (site_of at.now)) e.now ≡ Ok (value.Num n)) }
{
    match e {
        Expr::Lit(v) => number_of(v),
        Expr::Leaf(leaf) => plain_leaf(at, leaf),
        _ => None,
    }
}

// The number that stands at a dimension of the target.
fn plain_leaf(at: &Standpoint<'_>, leaf: &Leaf) -> Option<Num>
    ensures { IfSome result (λ n. inner_leaves (site_of at.now) leaf.now ≡ Ok (value.Num n)) }
{
    match leaf {
        Leaf::Cv(dim) => match at.target.as_slice().get(*dim as usize) {
            Some(v) => number_of(v),
            None => None,
        },
        _ => None,
    }
}

// The number that a value is.
fn number_of(v: &Value) -> Option<Num>
    ensures { IfSome result (λ n. v.now ≡ value.Num n) }
{
    match v {
        Value::Num(n) => Some(*n),
        _ => None,
    }
}

/// `v` brought to `kind`, as `cast` brings it. Most values are of their kind already.
pub fn brought(alloc: Global, v: Value, kind: Kind) -> Result<Value, Fail<ValueFault>>
    ensures { Gives result (cast_of v kind) }
{
    if is_of(&v, kind) {
        Ok(v)
    } else {
        cast(alloc, &v, kind)
    }
}

/// Whether a cast to `kind` is seen to leave `v` as it is.
pub fn is_of(v: &Value, kind: Kind) -> bool
    ensures { result ≡ true → cast_of v.now kind ≡ Ok v.now }
{
    match (v, kind) {
        (Value::Num(n), Kind::Int) => is_at(*n, 0),
        (Value::Num(n), Kind::Decimal(scale)) => is_at(*n, scale),
        (Value::Text(_), Kind::Text) => true,
        (Value::Date(_), Kind::Date) => true,
        _ => false,
    }
}

// Whether a number has this scale.
#[tactic(auto, using(crate::proofs::PlainLemmas::kept))]
fn is_at(n: Num, scale: u8) -> bool
    ensures { result ≡ true → number_at n scale ≡ Ok (value.Num n) }
{
    let _mant = n.mant();
    n.scale() == scale
}

/// Whether `v` is the number `n`.
#[tactic(auto, using(crate::proofs::PlainLemmas::same_parts))]
pub fn is_number(v: &Value, n: Num) -> bool
    ensures { result ≡ true → v.now ≡ value.Num n }
{
    match v {
        Value::Num(m) => m.mant() == n.mant() && m.scale() == n.scale(),
        _ => false,
    }
}
